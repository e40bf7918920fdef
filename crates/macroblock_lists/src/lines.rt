//! The line of a macroblock.

ghost use Rattle.std.specs.Prelude.{◌≡◌, OnOk};
ghost use Rattle.std.specs.Io.KnownBytes.{Appends};
ghost use Rattle.stream_facts.specs.Lines.{column};
ghost use Rattle.macroblock_lists.specs.Lines.{bits_columns, chroma_column, count_columns, force_columns, limit_columns, line_of, mode_columns, parts_column, place_columns, record_columns, split_column, token_columns, vector_column, vectors_column};

use crate::coefficients::{count_of, greatest_of};
use crate::layouts::Form;
use crate::macroblocks::Macroblock;
use crate::names::{luma_name, reference_name, split_name, whole_name};
use crate::parts::{bit_text, write_blocks, write_modes, write_vector, write_vectors};
use intra_predict::{SubMode, WholeMode};
use loop_filter::Limits;
use mode_parser::{MbMode, Split, Vector, VectorMode, YMode};
use std::io::Write;
use stream_facts::write_text;
use stream_files::WriteFault;

/// The column of a fact that a macroblock does not have.
const NONE: &str = "-\t";

fn write_column<W: Write>(w: &mut W, text: &str) -> Result<(), WriteFault>
    ensures { OnOk result (Appends (W.contents w.old) (W.contents w.new) (column text.now)) }
{
    write_text(w, text)?;
    write_text(w, "\t")
}

fn write_place<W: Write>(
    w: &mut W,
    packet: usize,
    macroblock: &Macroblock,
) -> Result<(), WriteFault>
    ensures { OnOk result (Appends (W.contents w.old) (W.contents w.new) (place_columns packet macroblock.now)) }
{
    let (column, row) = (macroblock.column, macroblock.row);
    let segment = macroblock.mode.segment;
    write!(w, "{packet}\t{column}\t{row}\t{segment}\t").map_err(|_| WriteFault::Write)
}

fn write_mode<W: Write>(w: &mut W, mode: &MbMode) -> Result<(), WriteFault>
    ensures { OnOk result (Appends (W.contents w.old) (W.contents w.new) (mode_columns mode.now)) }
{
    write_column(w, bit_text(mode.is_skipped))?;
    write_column(w, reference_name(mode.y_mode))?;
    write_column(w, luma_name(mode.y_mode))
}

fn write_chroma<W: Write>(w: &mut W, mode: YMode, chroma: WholeMode) -> Result<(), WriteFault>
    ensures { OnOk result (Appends (W.contents w.old) (W.contents w.new) (chroma_column mode chroma)) }
{
    match mode {
        YMode::Whole(_) => write_column(w, whole_name(chroma)),
        YMode::B => write_column(w, whole_name(chroma)),
        YMode::Inter(..) => write_text(w, NONE),
    }
}

fn write_split<W: Write>(w: &mut W, mode: VectorMode, vectors: &[Vector]) -> Result<(), WriteFault>
    ensures { OnOk result (Appends (W.contents w.old) (W.contents w.new) (vectors_column mode vectors.now)) }
{
    match mode {
        VectorMode::Split => {
            write_vectors(w, Form::Lines, vectors)?;
            write_text(w, "\t")
        }
        VectorMode::Zero => write_text(w, NONE),
        VectorMode::Nearest => write_text(w, NONE),
        VectorMode::Near => write_text(w, NONE),
        VectorMode::New => write_text(w, NONE),
    }
}

fn write_parts<W: Write>(
    w: &mut W,
    mode: YMode,
    modes: &[SubMode],
    vectors: &[Vector],
) -> Result<(), WriteFault>
    ensures { OnOk result (Appends (W.contents w.old) (W.contents w.new) (parts_column mode modes.now vectors.now)) }
{
    match mode {
        YMode::Whole(_) => write_text(w, NONE),
        YMode::B => {
            write_modes(w, Form::Lines, modes)?;
            write_text(w, "\t")
        }
        YMode::Inter(_, mode) => write_split(w, mode, vectors),
    }
}

fn write_which_split<W: Write>(w: &mut W, split: Option<Split>) -> Result<(), WriteFault>
    ensures { OnOk result (Appends (W.contents w.old) (W.contents w.new) (split_column split)) }
{
    match split {
        None => write_text(w, NONE),
        Some(split) => write_column(w, split_name(split)),
    }
}

fn write_own_vector<W: Write>(
    w: &mut W,
    mode: YMode,
    vectors: &[Vector; 16],
) -> Result<(), WriteFault>
    ensures { OnOk result (Appends (W.contents w.old) (W.contents w.new) (vector_column mode vectors.now)) }
{
    match mode {
        YMode::Whole(_) => write_text(w, NONE),
        YMode::B => write_text(w, NONE),
        YMode::Inter(..) => {
            write_vector(w, Form::Lines, vectors[15])?;
            write_text(w, "\t")
        }
    }
}

fn write_record<W: Write>(w: &mut W, mode: &MbMode, split: Option<Split>) -> Result<(), WriteFault>
    ensures { OnOk result (Appends (W.contents w.old) (W.contents w.new) (record_columns mode.now split)) }
{
    write_mode(w, mode)?;
    write_chroma(w, mode.y_mode, mode.uv_mode)?;
    write_parts(w, mode.y_mode, &mode.sub_modes, &mode.vectors)?;
    write_which_split(w, split)?;
    write_own_vector(w, mode.y_mode, &mode.vectors)
}

fn write_limits<W: Write>(w: &mut W, limits: Option<Limits>) -> Result<(), WriteFault>
    ensures { OnOk result (Appends (W.contents w.old) (W.contents w.new) (limit_columns limits)) }
{
    match limits {
        None => write_text(w, "-\t-\t-\t-\t"),
        Some(limits) => {
            let Limits {
                interior,
                variance,
                macroblock_edge,
                inner_edge,
            } = limits;
            write!(
                w,
                "{interior}\t{variance}\t{macroblock_edge}\t{inner_edge}\t"
            )
            .map_err(|_| WriteFault::Write)
        }
    }
}

fn write_force<W: Write>(w: &mut W, macroblock: &Macroblock) -> Result<(), WriteFault>
    ensures { OnOk result (Appends (W.contents w.old) (W.contents w.new) (force_columns macroblock.now)) }
{
    let (quantizer, level) = (macroblock.quantizer, macroblock.level);
    write!(w, "{quantizer}\t{level}\t").map_err(|_| WriteFault::Write)?;
    write_limits(w, macroblock.limits)?;
    write_column(w, bit_text(macroblock.filters_inside))
}

fn write_counts<W: Write>(w: &mut W, blocks: &[[i16; 16]; 25]) -> Result<(), WriteFault>
    ensures { OnOk result (Appends (W.contents w.old) (W.contents w.new) (count_columns blocks.now)) }
{
    let (count, greatest) = (count_of(blocks), greatest_of(blocks));
    write!(w, "{count}\t{greatest}\t").map_err(|_| WriteFault::Write)
}

fn write_bits<W: Write>(w: &mut W, mode_bits: u128, token_bits: u128) -> Result<(), WriteFault>
    ensures { OnOk result (Appends (W.contents w.old) (W.contents w.new) (bits_columns mode_bits token_bits)) }
{
    write!(w, "{mode_bits}\t{token_bits}\n").map_err(|_| WriteFault::Write)
}

fn write_tokens<W: Write>(w: &mut W, macroblock: &Macroblock) -> Result<(), WriteFault>
    ensures { OnOk result (Appends (W.contents w.old) (W.contents w.new) (token_columns macroblock.now)) }
{
    write_blocks(w, &macroblock.coefficients)?;
    write_text(w, "\t")?;
    write_counts(w, &macroblock.coefficients)?;
    write_bits(w, macroblock.mode_bits, macroblock.token_bits)
}

/// Writes the line of a macroblock of the packet at this index.
pub(crate) fn write_line<W: Write>(
    w: &mut W,
    packet: usize,
    macroblock: &Macroblock,
) -> Result<(), WriteFault>
    ensures { OnOk result (Appends (W.contents w.old) (W.contents w.new) (line_of packet macroblock.now)) }
{
    write_place(w, packet, macroblock)?;
    write_record(w, &macroblock.mode, macroblock.split)?;
    write_force(w, macroblock)?;
    write_tokens(w, macroblock)
}
