//! The fields of segments and of the loop filter (RFC 6386, sections 9.3, 9.4 and 19.2).

ghost use Rattle.std.specs.Prelude.{[], if◌then◌else◌, OnOk};
ghost use Rattle.std.specs.Io.KnownBytes.{Appends};
ghost use Rattle.macroblock_lists.specs.Fields.{data_fields, delta_fields, filter_fields, map_field, segment_fields, update_fields};

use crate::layouts::Layout;
use crate::values::{
    write_flag_field, write_number_field, write_numbers_field, write_signed_numbers_field,
    write_update_field,
};
use frame_header::{FilterDeltas, Header, Segmentation, Segments};
use header_bits::{DeltaBits, SegmentBits};
use std::io::Write;
use stream_files::WriteFault;

fn write_data_fields<W: Write>(
    w: &mut W,
    layout: Layout,
    segments: &Segments,
    bits: &SegmentBits,
) -> Result<(), WriteFault>
    ensures { OnOk result (Appends (W.contents w.old) (W.contents w.new) (data_fields layout segments.now bits.now)) }
{
    let Segments {
        is_absolute,
        quantizers,
        levels,
    } = segments;
    write_flag_field(w, layout, "segment_feature_mode", *is_absolute)?;
    write_signed_numbers_field(
        w,
        layout,
        "quantizer_update_value",
        quantizers,
        &bits.quantizers,
    )?;
    write_signed_numbers_field(w, layout, "lf_update_value", levels, &bits.levels)
}

fn write_data_fields_if<W: Write>(
    w: &mut W,
    layout: Layout,
    is_updated: bool,
    segments: &Segments,
    bits: &SegmentBits,
) -> Result<(), WriteFault>
    ensures { OnOk result (Appends (W.contents w.old) (W.contents w.new) (if is_updated then data_fields layout segments.now bits.now else [])) }
{
    if is_updated {
        write_data_fields(w, layout, segments, bits)
    } else {
        Ok(())
    }
}

fn write_map_field_if<W: Write>(
    w: &mut W,
    layout: Layout,
    segmentation: &Segmentation,
    bits: &SegmentBits,
) -> Result<(), WriteFault>
    ensures { OnOk result (Appends (W.contents w.old) (W.contents w.new) (map_field layout segmentation.now bits.now)) }
{
    if segmentation.updates_map {
        let probabilities = &segmentation.map_probabilities;
        write_numbers_field(
            w,
            layout,
            "segment_prob",
            probabilities,
            &bits.map_probabilities,
        )
    } else {
        Ok(())
    }
}

fn write_update_fields<W: Write>(
    w: &mut W,
    layout: Layout,
    segmentation: &Segmentation,
    segments: &Segments,
    bits: &SegmentBits,
) -> Result<(), WriteFault>
    ensures { OnOk result (Appends (W.contents w.old) (W.contents w.new) (update_fields layout segmentation.now segments.now bits.now)) }
{
    let data = segmentation.updates_data;
    write_flag_field(
        w,
        layout,
        "update_mb_segmentation_map",
        segmentation.updates_map,
    )?;
    write_flag_field(w, layout, "update_segment_feature_data", data)?;
    write_data_fields_if(w, layout, data, segments, bits)?;
    write_map_field_if(w, layout, segmentation, bits)
}

fn write_update_fields_if<W: Write>(
    w: &mut W,
    layout: Layout,
    segmentation: &Segmentation,
    segments: &Segments,
    bits: &SegmentBits,
) -> Result<(), WriteFault>
    ensures { OnOk result (Appends (W.contents w.old) (W.contents w.new) (if segmentation.now.is_enabled then update_fields layout segmentation.now segments.now bits.now else [])) }
{
    if segmentation.is_enabled {
        write_update_fields(w, layout, segmentation, segments, bits)
    } else {
        Ok(())
    }
}

/// Writes the fields of segments.
pub(crate) fn write_segment_fields<W: Write>(
    w: &mut W,
    layout: Layout,
    segmentation: &Segmentation,
    segments: &Segments,
    bits: &SegmentBits,
) -> Result<(), WriteFault>
    ensures { OnOk result (Appends (W.contents w.old) (W.contents w.new) (segment_fields layout segmentation.now segments.now bits.now)) }
{
    write_flag_field(w, layout, "segmentation_enabled", segmentation.is_enabled)?;
    write_update_fields_if(w, layout, segmentation, segments, bits)
}

fn write_delta_fields<W: Write>(
    w: &mut W,
    layout: Layout,
    deltas: &FilterDeltas,
    bits: &DeltaBits,
) -> Result<(), WriteFault>
    ensures { OnOk result (Appends (W.contents w.old) (W.contents w.new) (delta_fields layout deltas.now bits.now)) }
{
    let updated = u64::from(bits.are_updated);
    let (reference, mode) = (&deltas.reference, &deltas.mode);
    write_update_field(w, layout, "mode_ref_lf_delta_update", updated, 1)?;
    write_signed_numbers_field(w, layout, "ref_frame_delta", reference, &bits.references)?;
    write_signed_numbers_field(w, layout, "mb_mode_delta", mode, &bits.modes)
}

fn write_delta_fields_if<W: Write>(
    w: &mut W,
    layout: Layout,
    header: &Header,
    bits: &DeltaBits,
) -> Result<(), WriteFault>
    ensures { OnOk result (Appends (W.contents w.old) (W.contents w.new) (if header.now.adjusts_level then delta_fields layout header.now.context.deltas bits.now else [])) }
{
    if header.adjusts_level {
        write_delta_fields(w, layout, &header.context.deltas, bits)
    } else {
        Ok(())
    }
}

/// Writes the fields of the loop filter.
pub(crate) fn write_filter_fields<W: Write>(
    w: &mut W,
    layout: Layout,
    header: &Header,
    bits: &DeltaBits,
) -> Result<(), WriteFault>
    ensures { OnOk result (Appends (W.contents w.old) (W.contents w.new) (filter_fields layout header.now bits.now)) }
{
    let filter = header.filter;
    write_flag_field(w, layout, "filter_type", filter.is_simple)?;
    write_number_field(w, layout, "loop_filter_level", u64::from(filter.level), 6)?;
    write_number_field(w, layout, "sharpness_level", u64::from(filter.sharpness), 3)?;
    write_flag_field(w, layout, "loop_filter_adj_enable", header.adjusts_level)?;
    write_delta_fields_if(w, layout, header, bits)
}
