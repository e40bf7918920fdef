//! The JSON object of a macroblock.

ghost use Rattle.std.specs.Prelude.{◌≡◌, OnOk};
ghost use Rattle.std.specs.Io.KnownBytes.{Appends};
ghost use Rattle.macroblock_lists.specs.Objects.{bits_members, block_member, chroma_member, force_members, limit_members, mode_members, object_of, parts_member, place_members, record_members, split_member, text_member, token_members, vector_member, vectors_member};

use crate::coefficients::{count_of, greatest_of};
use crate::layouts::Form;
use crate::macroblocks::Macroblock;
use crate::names::{luma_name, reference_name, split_name, whole_name};
use crate::parts::{bit_text, write_blocks, write_modes, write_vector, write_vectors};
use intra_predict::{SubMode, WholeMode};
use loop_filter::Limits;
use mode_parser::{MbMode, Split, Vector, VectorMode, YMode};
use std::io::Write;
use stream_facts::{write_member, write_number, write_text};
use stream_files::WriteFault;

fn write_text_member<W: Write>(w: &mut W, name: &str, text: &str) -> Result<(), WriteFault>
    ensures { OnOk result (Appends (W.contents w.old) (W.contents w.new) (text_member name.now text.now)) }
{
    write_text(w, "\"")?;
    write_text(w, name)?;
    write_text(w, "\":\"")?;
    write_text(w, text)?;
    write_text(w, "\",")
}

fn write_place<W: Write>(
    w: &mut W,
    packet: usize,
    macroblock: &Macroblock,
) -> Result<(), WriteFault>
    ensures { OnOk result (Appends (W.contents w.old) (W.contents w.new) (place_members packet macroblock.now)) }
{
    write_number(w, "packet", packet as u64)?;
    write_number(w, "column", macroblock.column as u64)?;
    write_number(w, "row", macroblock.row as u64)?;
    write_number(w, "segment", u64::from(macroblock.mode.segment))
}

fn write_mode<W: Write>(w: &mut W, mode: &MbMode) -> Result<(), WriteFault>
    ensures { OnOk result (Appends (W.contents w.old) (W.contents w.new) (mode_members mode.now)) }
{
    write_member(w, "skip", bit_text(mode.is_skipped))?;
    write_text_member(w, "reference", reference_name(mode.y_mode))?;
    write_text_member(w, "luma", luma_name(mode.y_mode))
}

fn write_chroma<W: Write>(w: &mut W, mode: YMode, chroma: WholeMode) -> Result<(), WriteFault>
    ensures { OnOk result (Appends (W.contents w.old) (W.contents w.new) (chroma_member mode chroma)) }
{
    match mode {
        YMode::Whole(_) => write_text_member(w, "chroma", whole_name(chroma)),
        YMode::B => write_text_member(w, "chroma", whole_name(chroma)),
        YMode::Inter(..) => write_text(w, "\"chroma\":null,"),
    }
}

const NO_PARTS: &str = "\"parts\":null,";

const NO_VECTOR: &str = "\"vector\":null,";

fn write_split<W: Write>(w: &mut W, mode: VectorMode, vectors: &[Vector]) -> Result<(), WriteFault>
    ensures { OnOk result (Appends (W.contents w.old) (W.contents w.new) (vectors_member mode vectors.now)) }
{
    match mode {
        VectorMode::Split => {
            write_text(w, "\"parts\":[")?;
            write_vectors(w, Form::Objects, vectors)?;
            write_text(w, "],")
        }
        VectorMode::Zero => write_text(w, NO_PARTS),
        VectorMode::Nearest => write_text(w, NO_PARTS),
        VectorMode::Near => write_text(w, NO_PARTS),
        VectorMode::New => write_text(w, NO_PARTS),
    }
}

fn write_parts<W: Write>(
    w: &mut W,
    mode: YMode,
    modes: &[SubMode],
    vectors: &[Vector],
) -> Result<(), WriteFault>
    ensures { OnOk result (Appends (W.contents w.old) (W.contents w.new) (parts_member mode modes.now vectors.now)) }
{
    match mode {
        YMode::Whole(_) => write_text(w, NO_PARTS),
        YMode::B => {
            write_text(w, "\"parts\":[")?;
            write_modes(w, Form::Objects, modes)?;
            write_text(w, "],")
        }
        YMode::Inter(_, mode) => write_split(w, mode, vectors),
    }
}

fn write_which_split<W: Write>(w: &mut W, split: Option<Split>) -> Result<(), WriteFault>
    ensures { OnOk result (Appends (W.contents w.old) (W.contents w.new) (split_member split)) }
{
    match split {
        None => write_text(w, "\"split\":null,"),
        Some(split) => write_text_member(w, "split", split_name(split)),
    }
}

fn write_own_vector<W: Write>(
    w: &mut W,
    mode: YMode,
    vectors: &[Vector; 16],
) -> Result<(), WriteFault>
    ensures { OnOk result (Appends (W.contents w.old) (W.contents w.new) (vector_member mode vectors.now)) }
{
    match mode {
        YMode::Whole(_) => write_text(w, NO_VECTOR),
        YMode::B => write_text(w, NO_VECTOR),
        YMode::Inter(..) => {
            write_text(w, "\"vector\":")?;
            write_vector(w, Form::Objects, vectors[15])?;
            write_text(w, ",")
        }
    }
}

fn write_record<W: Write>(w: &mut W, mode: &MbMode, split: Option<Split>) -> Result<(), WriteFault>
    ensures { OnOk result (Appends (W.contents w.old) (W.contents w.new) (record_members mode.now split)) }
{
    write_mode(w, mode)?;
    write_chroma(w, mode.y_mode, mode.uv_mode)?;
    write_parts(w, mode.y_mode, &mode.sub_modes, &mode.vectors)?;
    write_which_split(w, split)?;
    write_own_vector(w, mode.y_mode, &mode.vectors)
}

fn write_limits<W: Write>(w: &mut W, limits: Option<Limits>) -> Result<(), WriteFault>
    ensures { OnOk result (Appends (W.contents w.old) (W.contents w.new) (limit_members limits)) }
{
    match limits {
        None => write_text(
            w,
            "\"interior_limit\":null,\"hev_threshold\":null,\"mbedge_limit\":null,\"sub_bedge_limit\":null,",
        ),
        Some(limits) => {
            write_number(w, "interior_limit", u64::from(limits.interior))?;
            write_number(w, "hev_threshold", u64::from(limits.variance))?;
            write_number(w, "mbedge_limit", u64::from(limits.macroblock_edge))?;
            write_number(w, "sub_bedge_limit", u64::from(limits.inner_edge))
        }
    }
}

fn write_force<W: Write>(w: &mut W, macroblock: &Macroblock) -> Result<(), WriteFault>
    ensures { OnOk result (Appends (W.contents w.old) (W.contents w.new) (force_members macroblock.now)) }
{
    write_number(w, "quantizer", u64::from(macroblock.quantizer))?;
    write_number(w, "level", u64::from(macroblock.level))?;
    write_limits(w, macroblock.limits)?;
    write_member(w, "inner", bit_text(macroblock.filters_inside))
}

fn write_block_member<W: Write>(w: &mut W, blocks: &[[i16; 16]; 25]) -> Result<(), WriteFault>
    ensures { OnOk result (Appends (W.contents w.old) (W.contents w.new) (block_member blocks.now)) }
{
    write_text(w, "\"blocks\":\"")?;
    write_blocks(w, blocks)?;
    write_text(w, "\",")
}

fn write_bits<W: Write>(w: &mut W, mode_bits: u128, token_bits: u128) -> Result<(), WriteFault>
    ensures { OnOk result (Appends (W.contents w.old) (W.contents w.new) (bits_members mode_bits token_bits)) }
{
    write!(w, "\"mode_bits\":{mode_bits},\"token_bits\":{token_bits}").map_err(
        |_| WriteFault::Write,
    )
}

fn write_tokens<W: Write>(w: &mut W, macroblock: &Macroblock) -> Result<(), WriteFault>
    ensures { OnOk result (Appends (W.contents w.old) (W.contents w.new) (token_members macroblock.now)) }
{
    let blocks = &macroblock.coefficients;
    write_block_member(w, blocks)?;
    write_number(w, "coefficients", count_of(blocks) as u64)?;
    write_number(w, "greatest", u64::from(greatest_of(blocks)))?;
    write_bits(w, macroblock.mode_bits, macroblock.token_bits)
}

/// Writes the object of a macroblock of the packet at this index.
pub(crate) fn write_object<W: Write>(
    w: &mut W,
    packet: usize,
    macroblock: &Macroblock,
) -> Result<(), WriteFault>
    ensures { OnOk result (Appends (W.contents w.old) (W.contents w.new) (object_of packet macroblock.now)) }
{
    write_text(w, "{")?;
    write_place(w, packet, macroblock)?;
    write_record(w, &macroblock.mode, macroblock.split)?;
    write_force(w, macroblock)?;
    write_tokens(w, macroblock)?;
    write_text(w, "}\n")
}
