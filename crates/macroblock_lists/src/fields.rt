//! The fields of a header, by their names in RFC 6386, section 19.2, with their bits.

ghost use Rattle.std.specs.Prelude.{◌≡◌, ◌<◌, [], if◌then◌else◌, OnOk};
ghost use Rattle.std.specs.Io.KnownBytes.{Appends};
ghost use Rattle.macroblock_lists.specs.Fields.{coded_count, copy_fields, delta_quantizers, entropy_field, first_fields, frame_fields, header_fields, inter_fields, inter_updates, key_fields, last_fields, log_of, number_field_unless, partition_fields, probability_fields, quantizer_fields, reference_fields, refresh_fields, size_fields, skip_fields, tag_fields, token_field};

use crate::layouts::Layout;
use crate::segment_fields::{write_filter_fields, write_segment_fields};
use crate::values::{write_flag_field, write_number_field, write_signed_field, write_update_field};
use frame_header::{Header, Quantizers, ReferenceProbabilities, ReferenceUpdates, SignBiases};
use header_bits::{Coded, CopyNumbers, HeaderBits, InterBits};
use std::io::Write;
use stream_files::WriteFault;

fn write_tag_fields<W: Write>(
    w: &mut W,
    layout: Layout,
    header: &Header,
    first_size: u32,
) -> Result<(), WriteFault>
    ensures { OnOk result (Appends (W.contents w.old) (W.contents w.new) (tag_fields layout header.now first_size)) }
{
    write_flag_field(w, layout, "key_frame", header.is_key)?;
    write_number_field(w, layout, "version", u64::from(header.version), 3)?;
    write_flag_field(w, layout, "show_frame", header.is_shown)?;
    write_number_field(w, layout, "first_part_size", u64::from(first_size), 19)
}

fn write_size_fields<W: Write>(
    w: &mut W,
    layout: Layout,
    header: &Header,
    scales: (u8, u8),
) -> Result<(), WriteFault>
    ensures { OnOk result (Appends (W.contents w.old) (W.contents w.new) (size_fields layout header.now scales)) }
{
    write_number_field(w, layout, "width", u64::from(header.width), 14)?;
    write_number_field(w, layout, "horizontal_scale", u64::from(scales.0), 2)?;
    write_number_field(w, layout, "height", u64::from(header.height), 14)?;
    write_number_field(w, layout, "vertical_scale", u64::from(scales.1), 2)
}

fn write_key_fields<W: Write>(
    w: &mut W,
    layout: Layout,
    header: &Header,
    scales: (u8, u8),
) -> Result<(), WriteFault>
    ensures { OnOk result (Appends (W.contents w.old) (W.contents w.new) (key_fields layout header.now scales)) }
{
    write_size_fields(w, layout, header, scales)?;
    write_flag_field(w, layout, "color_space", header.colors.color_space)?;
    write_flag_field(w, layout, "clamping_type", header.colors.clamping_type)
}

fn write_key_fields_if<W: Write>(
    w: &mut W,
    layout: Layout,
    header: &Header,
    scales: (u8, u8),
) -> Result<(), WriteFault>
    ensures { OnOk result (Appends (W.contents w.old) (W.contents w.new) (if header.now.is_key then key_fields layout header.now scales else [])) }
{
    if header.is_key {
        write_key_fields(w, layout, header, scales)
    } else {
        Ok(())
    }
}

fn write_frame_fields<W: Write>(
    w: &mut W,
    layout: Layout,
    header: &Header,
    coded: &Coded,
) -> Result<(), WriteFault>
    ensures { OnOk result (Appends (W.contents w.old) (W.contents w.new) (frame_fields layout header.now coded.now)) }
{
    write_tag_fields(w, layout, header, coded.first_size)?;
    write_key_fields_if(w, layout, header, coded.scales)
}

/// The logarithm of a number of partitions.
fn log_of(count: usize) -> u64
    ensures { result ≡ log_of count }
{
    if count == 8 {
        3
    } else if count == 4 {
        2
    } else if count == 2 {
        1
    } else {
        0
    }
}

fn write_partition_fields<W: Write>(
    w: &mut W,
    layout: Layout,
    header: &Header,
) -> Result<(), WriteFault>
    ensures { OnOk result (Appends (W.contents w.old) (W.contents w.new) (partition_fields layout header.now)) }
{
    let log = log_of(header.partitions.len());
    write_number_field(w, layout, "log2_nbr_of_dct_partitions", log, 2)
}

fn write_first_fields<W: Write>(
    w: &mut W,
    layout: Layout,
    header: &Header,
    coded: &Coded,
) -> Result<(), WriteFault>
    ensures { OnOk result (Appends (W.contents w.old) (W.contents w.new) (first_fields layout header.now coded.now)) }
{
    write_frame_fields(w, layout, header, coded)?;
    let (segmentation, segments) = (&header.segmentation, &header.context.segments);
    write_segment_fields(w, layout, segmentation, segments, &coded.bits.segments)?;
    write_filter_fields(w, layout, header, &coded.bits.deltas)?;
    write_partition_fields(w, layout, header)
}

fn write_delta_quantizers<W: Write>(
    w: &mut W,
    layout: Layout,
    quantizers: Quantizers,
    bits: &[u8; 5],
) -> Result<(), WriteFault>
    ensures { OnOk result (Appends (W.contents w.old) (W.contents w.new) (delta_quantizers layout quantizers bits.now)) }
{
    write_signed_field(w, layout, "y2_dc_delta", &quantizers.y2_dc_delta, bits[1])?;
    write_signed_field(w, layout, "y2_ac_delta", &quantizers.y2_ac_delta, bits[2])?;
    write_signed_field(w, layout, "uv_dc_delta", &quantizers.uv_dc_delta, bits[3])?;
    write_signed_field(w, layout, "uv_ac_delta", &quantizers.uv_ac_delta, bits[4])
}

fn write_quantizer_fields<W: Write>(
    w: &mut W,
    layout: Layout,
    quantizers: Quantizers,
    bits: &[u8; 5],
) -> Result<(), WriteFault>
    ensures { OnOk result (Appends (W.contents w.old) (W.contents w.new) (quantizer_fields layout quantizers bits.now)) }
{
    write_number_field(w, layout, "y_ac_qi", u64::from(quantizers.y_ac_index), 7)?;
    write_signed_field(w, layout, "y_dc_delta", &quantizers.y_dc_delta, bits[0])?;
    write_delta_quantizers(w, layout, quantizers, bits)
}

/// Writes a number unless `is_absent`.
fn write_number_unless<W: Write>(
    w: &mut W,
    layout: Layout,
    is_absent: bool,
    name: &str,
    n: u64,
    bits: u32,
) -> Result<(), WriteFault>
    ensures { OnOk result (Appends (W.contents w.old) (W.contents w.new) (number_field_unless layout is_absent name.now n bits)) }
{
    if is_absent {
        Ok(())
    } else {
        write_number_field(w, layout, name, n, bits)
    }
}

fn write_copy_fields<W: Write>(
    w: &mut W,
    layout: Layout,
    updates: ReferenceUpdates,
    copies: CopyNumbers,
) -> Result<(), WriteFault>
    ensures { OnOk result (Appends (W.contents w.old) (W.contents w.new) (copy_fields layout updates copies)) }
{
    let (golden, altref) = (u64::from(copies.golden), u64::from(copies.altref));
    let (has_golden, has_altref) = (updates.refreshes_golden, updates.refreshes_altref);
    write_number_unless(w, layout, has_golden, "copy_buffer_to_golden", golden, 2)?;
    write_number_unless(w, layout, has_altref, "copy_buffer_to_arf", altref, 2)
}

fn write_refresh_fields<W: Write>(
    w: &mut W,
    layout: Layout,
    updates: ReferenceUpdates,
    copies: CopyNumbers,
    biases: SignBiases,
) -> Result<(), WriteFault>
    ensures { OnOk result (Appends (W.contents w.old) (W.contents w.new) (refresh_fields layout updates copies biases)) }
{
    write_flag_field(w, layout, "refresh_golden_frame", updates.refreshes_golden)?;
    write_flag_field(
        w,
        layout,
        "refresh_alternate_frame",
        updates.refreshes_altref,
    )?;
    write_copy_fields(w, layout, updates, copies)?;
    write_flag_field(w, layout, "sign_bias_golden", biases.golden)?;
    write_flag_field(w, layout, "sign_bias_alternate", biases.altref)
}

fn write_refresh_fields_unless<W: Write>(
    w: &mut W,
    layout: Layout,
    header: &Header,
    copies: CopyNumbers,
) -> Result<(), WriteFault>
    ensures { OnOk result (Appends (W.contents w.old) (W.contents w.new) (if header.now.is_key then [] else refresh_fields layout header.now.references copies header.now.context.sign_biases)) }
{
    if header.is_key {
        Ok(())
    } else {
        let (updates, biases) = (header.references, header.context.sign_biases);
        write_refresh_fields(w, layout, updates, copies, biases)
    }
}

fn write_entropy_field<W: Write>(
    w: &mut W,
    layout: Layout,
    header: &Header,
) -> Result<(), WriteFault>
    ensures { OnOk result (Appends (W.contents w.old) (W.contents w.new) (entropy_field layout header.now)) }
{
    write_flag_field(w, layout, "refresh_entropy_probs", header.refreshes_entropy)
}

fn write_reference_fields<W: Write>(
    w: &mut W,
    layout: Layout,
    header: &Header,
    copies: CopyNumbers,
) -> Result<(), WriteFault>
    ensures { OnOk result (Appends (W.contents w.old) (W.contents w.new) (reference_fields layout header.now copies)) }
{
    let last = u64::from(header.references.refreshes_last);
    write_refresh_fields_unless(w, layout, header, copies)?;
    write_entropy_field(w, layout, header)?;
    write_number_unless(w, layout, header.is_key, "refresh_last", last, 1)
}

fn write_skip_fields<W: Write>(
    w: &mut W,
    layout: Layout,
    probability: Option<u8>,
) -> Result<(), WriteFault>
    ensures { OnOk result (Appends (W.contents w.old) (W.contents w.new) (skip_fields layout probability)) }
{
    match probability {
        None => write_number_field(w, layout, "mb_no_coeff_skip", 0, 1),
        Some(probability) => {
            write_number_field(w, layout, "mb_no_coeff_skip", 1, 1)?;
            write_number_field(w, layout, "prob_skip_false", u64::from(probability), 8)
        }
    }
}

fn write_probability_fields<W: Write>(
    w: &mut W,
    layout: Layout,
    probabilities: ReferenceProbabilities,
) -> Result<(), WriteFault>
    ensures { OnOk result (Appends (W.contents w.old) (W.contents w.new) (probability_fields layout probabilities)) }
{
    write_number_field(w, layout, "prob_intra", u64::from(probabilities.intra), 8)?;
    write_number_field(w, layout, "prob_last", u64::from(probabilities.last), 8)?;
    write_number_field(w, layout, "prob_gf", u64::from(probabilities.golden), 8)
}

/// How many probabilities are coded in updates of so many bits: `flags` for the flags, and `size` for each that is coded.
fn coded_count(flags: u32, size: u32, bits: u32) -> u64
    requires { 0 < size }
    ensures { result ≡ coded_count flags size bits }
{
    u64::from(bits.saturating_sub(flags) / size)
}

fn write_token_field<W: Write>(w: &mut W, layout: Layout, bits: u32) -> Result<(), WriteFault>
    ensures { OnOk result (Appends (W.contents w.old) (W.contents w.new) (token_field layout bits)) }
{
    let coded = coded_count(1056, 8, bits);
    write_update_field(w, layout, "token_prob_update", coded, bits)
}

fn write_inter_updates<W: Write>(
    w: &mut W,
    layout: Layout,
    bits: &InterBits,
) -> Result<(), WriteFault>
    ensures { OnOk result (Appends (W.contents w.old) (W.contents w.new) (inter_updates layout bits.now)) }
{
    let (y, uv, vectors) = (
        u32::from(bits.y_modes),
        u32::from(bits.uv_modes),
        bits.vectors,
    );
    write_update_field(w, layout, "intra_16x16_prob", coded_count(1, 8, y), y)?;
    write_update_field(w, layout, "intra_chroma_prob", coded_count(1, 8, uv), uv)?;
    write_update_field(
        w,
        layout,
        "mv_prob_update",
        coded_count(38, 7, vectors),
        vectors,
    )
}

fn write_inter_fields<W: Write>(
    w: &mut W,
    layout: Layout,
    probabilities: ReferenceProbabilities,
    bits: &InterBits,
) -> Result<(), WriteFault>
    ensures { OnOk result (Appends (W.contents w.old) (W.contents w.new) (inter_fields layout probabilities bits.now)) }
{
    write_probability_fields(w, layout, probabilities)?;
    write_inter_updates(w, layout, bits)
}

fn write_inter_fields_unless<W: Write>(
    w: &mut W,
    layout: Layout,
    header: &Header,
    bits: &InterBits,
) -> Result<(), WriteFault>
    ensures { OnOk result (Appends (W.contents w.old) (W.contents w.new) (if header.now.is_key then [] else inter_fields layout header.now.reference_probabilities bits.now)) }
{
    if header.is_key {
        Ok(())
    } else {
        write_inter_fields(w, layout, header.reference_probabilities, bits)
    }
}

fn write_last_fields<W: Write>(
    w: &mut W,
    layout: Layout,
    header: &Header,
    bits: &HeaderBits,
) -> Result<(), WriteFault>
    ensures { OnOk result (Appends (W.contents w.old) (W.contents w.new) (last_fields layout header.now bits.now)) }
{
    write_token_field(w, layout, bits.coefficients)?;
    write_skip_fields(w, layout, header.skip_probability)?;
    write_inter_fields_unless(w, layout, header, &bits.inter)
}

/// Writes the fields of a header, with what its text has besides.
#[tactic(auto, unfolding(crate::specs::Fields::header_fields))]
pub(crate) fn write_header_fields<W: Write>(
    w: &mut W,
    layout: Layout,
    header: &Header,
    coded: &Coded,
) -> Result<(), WriteFault>
    ensures { OnOk result (Appends (W.contents w.old) (W.contents w.new) (header_fields layout header.now coded.now)) }
{
    write_first_fields(w, layout, header, coded)?;
    write_quantizer_fields(w, layout, header.quantizers, &coded.bits.quantizers)?;
    write_reference_fields(w, layout, header, coded.copies)?;
    write_last_fields(w, layout, header, &coded.bits)
}
