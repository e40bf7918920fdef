//! The parts of a macroblock as text.

ghost use Rattle.std.specs.Prelude.{◌≡◌, ◌++◌, OnOk};
ghost use Rattle.std.specs.List.{flat_map};
ghost use Rattle.std.specs.Io.KnownBytes.{Appends};
ghost use Rattle.macroblock_lists.specs.Parts.{after_comma, bit_text, blocks_text, mode_text, modes_text, vector_text, vectors_text};

use crate::coefficients::has_coefficient;
use crate::layouts::Form;
use crate::names::sub_name;
use intra_predict::SubMode;
use mode_parser::Vector;
use std::io::Write;
use stream_facts::write_text;
use stream_files::WriteFault;

fn write_mode<W: Write>(w: &mut W, form: Form, mode: SubMode) -> Result<(), WriteFault>
    ensures { OnOk result (Appends (W.contents w.old) (W.contents w.new) (mode_text form mode)) }
{
    match form {
        Form::Lines => write_text(w, sub_name(mode)),
        Form::Objects => {
            write_text(w, "\"")?;
            write_text(w, sub_name(mode))?;
            write_text(w, "\"")
        }
    }
}

fn write_more_modes<W: Write>(w: &mut W, form: Form, modes: &[SubMode]) -> Result<(), WriteFault>
    ensures { OnOk result (Appends (W.contents w.old) (W.contents w.new) (flat_map (after_comma (mode_text form)) modes.now)) }
{
    for mode in modes {
        write_text(w, ",")?;
        write_mode(w, form, *mode)?;
    }
    Ok(())
}

/// Writes the names of sub block modes, with commas between them.
pub(crate) fn write_modes<W: Write>(
    w: &mut W,
    form: Form,
    modes: &[SubMode],
) -> Result<(), WriteFault>
    ensures { OnOk result (Appends (W.contents w.old) (W.contents w.new) (modes_text form modes.now)) }
{
    match modes.split_first() {
        None => Ok(()),
        Some((first, rest)) => {
            write_mode(w, form, *first)?;
            write_more_modes(w, form, rest)
        }
    }
}

/// Writes a vector.
pub(crate) fn write_vector<W: Write>(
    w: &mut W,
    form: Form,
    vector: Vector,
) -> Result<(), WriteFault>
    ensures { OnOk result (Appends (W.contents w.old) (W.contents w.new) (vector_text form vector)) }
{
    let (x, y) = (vector.x(), vector.y());
    match form {
        Form::Lines => write!(w, "{x}:{y}").map_err(|_| WriteFault::Write),
        Form::Objects => write!(w, "[{x},{y}]").map_err(|_| WriteFault::Write),
    }
}

fn write_more_vectors<W: Write>(w: &mut W, form: Form, vectors: &[Vector]) -> Result<(), WriteFault>
    ensures { OnOk result (Appends (W.contents w.old) (W.contents w.new) (flat_map (after_comma (vector_text form)) vectors.now)) }
{
    for vector in vectors {
        write_text(w, ",")?;
        write_vector(w, form, *vector)?;
    }
    Ok(())
}

/// Writes vectors, with commas between them.
pub(crate) fn write_vectors<W: Write>(
    w: &mut W,
    form: Form,
    vectors: &[Vector],
) -> Result<(), WriteFault>
    ensures { OnOk result (Appends (W.contents w.old) (W.contents w.new) (vectors_text form vectors.now)) }
{
    match vectors.split_first() {
        None => Ok(()),
        Some((first, rest)) => {
            write_vector(w, form, *first)?;
            write_more_vectors(w, form, rest)
        }
    }
}

/// The digit of a bit.
pub(crate) fn bit_text(bit: bool) -> &'static str
    ensures { result.now ≡ bit_text bit }
{
    if bit { "1" } else { "0" }
}

/// Writes a digit for each block: 1 if it has a coefficient that is not 0.
pub(crate) fn write_blocks<W: Write>(w: &mut W, blocks: &[[i16; 16]; 25]) -> Result<(), WriteFault>
    ensures { OnOk result (Appends (W.contents w.old) (W.contents w.new) (blocks_text blocks.now)) }
{
    for block in blocks {
        write_text(w, bit_text(has_coefficient(block)))?;
    }
    Ok(())
}
