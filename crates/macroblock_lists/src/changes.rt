//! The probabilities that a header changes.

ghost use Rattle.std.specs.Prelude.{◌≡◌, false, length, IsSome, OnOk};
ghost use Rattle.std.specs.Option.{option_copied};
ghost use Rattle.std.specs.Io.KnownBytes.{Appends};
ghost use Rattle.frame_header.specs.Contexts.{default_probabilities};
ghost use Rattle.macroblock_lists.specs.Changes.{all_changes, change_if, change_text, list_changes, mode_changes, name_members, new_member, probabilities_before, vector_changes};

use crate::known::{Known, context_of};
use crate::layouts::Form;
use frame_header::Probabilities;
use std::io::Write;
use stream_facts::{write_number, write_text};
use stream_files::WriteFault;
use vp8_tables::{
    DEFAULT_UV_PROBABILITIES, DEFAULT_VECTOR_PROBABILITIES, DEFAULT_Y_PROBABILITIES, Tables,
};

/// A probability that may have changed.
#[derive(Clone, Copy)]
pub(crate) struct Change {
    /// Its index in its list.
    index: usize,
    old: u8,
    new: u8,
}

fn write_change_line<W: Write>(w: &mut W, name: &str, change: Change) -> Result<(), WriteFault>
    ensures { OnOk result (Appends (W.contents w.old) (W.contents w.new) (change_text Form.Lines 0 name.now change)) }
{
    let Change { index, old, new } = change;
    write!(w, "{name}[{index}]\t{old}\t{new}\n").map_err(|_| WriteFault::Write)
}

fn write_new<W: Write>(w: &mut W, new: u8) -> Result<(), WriteFault>
    ensures { OnOk result (Appends (W.contents w.old) (W.contents w.new) (new_member new)) }
{
    write!(w, "\"new\":{new}").map_err(|_| WriteFault::Write)
}

fn write_list_name<W: Write>(w: &mut W, packet: usize, name: &str) -> Result<(), WriteFault>
    ensures { OnOk result (Appends (W.contents w.old) (W.contents w.new) (name_members packet name.now)) }
{
    write_text(w, "{")?;
    write_number(w, "packet", packet as u64)?;
    write_text(w, "\"probability\":\"")?;
    write_text(w, name)?;
    write_text(w, "\",")
}

fn write_change_object<W: Write>(
    w: &mut W,
    packet: usize,
    name: &str,
    change: Change,
) -> Result<(), WriteFault>
    ensures { OnOk result (Appends (W.contents w.old) (W.contents w.new) (change_text Form.Objects packet name.now change)) }
{
    write_list_name(w, packet, name)?;
    write_number(w, "index", change.index as u64)?;
    write_number(w, "old", u64::from(change.old))?;
    write_new(w, change.new)?;
    write_text(w, "}\n")
}

/// Writes a probability that has changed.
fn write_change_if<W: Write>(
    w: &mut W,
    form: Form,
    packet: usize,
    name: &str,
    change: Change,
) -> Result<(), WriteFault>
    ensures { OnOk result (Appends (W.contents w.old) (W.contents w.new) (change_if form packet name.now change)) }
{
    if change.old == change.new {
        return Ok(());
    }
    match form {
        Form::Lines => write_change_line(w, name, change),
        Form::Objects => write_change_object(w, packet, name, change),
    }
}

/// Writes the changes of a list of probabilities.
#[tactic(auto, unfolding(crate::specs::Changes::list_changes))]
fn write_list_changes<W: Write>(
    w: &mut W,
    form: Form,
    packet: usize,
    name: &str,
    old: &[u8],
    new: &[u8],
) -> Result<(), WriteFault>
    requires { length old.now ≡ length new.now }
    ensures { OnOk result (Appends (W.contents w.old) (W.contents w.new) (list_changes form packet name.now old.now new.now)) }
{
    for index in 0..old.len() {
        let change = Change {
            index,
            old: old[index],
            new: new[index],
        };
        write_change_if(w, form, packet, name, change)?;
    }
    Ok(())
}

fn write_mode_changes<W: Write>(
    w: &mut W,
    form: Form,
    packet: usize,
    old: &Probabilities,
    new: &Probabilities,
) -> Result<(), WriteFault>
    ensures { OnOk result (Appends (W.contents w.old) (W.contents w.new) (mode_changes form packet old.now new.now)) }
{
    write_list_changes(
        w,
        form,
        packet,
        "coeff_prob",
        &old.coefficients,
        &new.coefficients,
    )?;
    write_list_changes(w, form, packet, "y_mode_prob", &old.y_modes, &new.y_modes)?;
    write_list_changes(
        w,
        form,
        packet,
        "uv_mode_prob",
        &old.uv_modes,
        &new.uv_modes,
    )
}

fn write_vector_changes<W: Write>(
    w: &mut W,
    form: Form,
    packet: usize,
    old: &[[u8; 19]; 2],
    new: &[[u8; 19]; 2],
) -> Result<(), WriteFault>
    ensures { OnOk result (Appends (W.contents w.old) (W.contents w.new) (vector_changes form packet old.now new.now)) }
{
    write_list_changes(w, form, packet, "mv_row_prob", &old[0], &new[0])?;
    write_list_changes(w, form, packet, "mv_column_prob", &old[1], &new[1])
}

/// Writes the changes of all lists of probabilities.
pub(crate) fn write_changes<W: Write>(
    w: &mut W,
    form: Form,
    packet: usize,
    old: &Probabilities,
    new: &Probabilities,
) -> Result<(), WriteFault>
    ensures { OnOk result (Appends (W.contents w.old) (W.contents w.new) (all_changes form packet old.now new.now)) }
{
    write_mode_changes(w, form, packet, old, new)?;
    write_vector_changes(w, form, packet, &old.vectors, &new.vectors)
}

/// The probabilities with which a key frame begins.
fn default_probabilities(tables: &Tables) -> Probabilities
    ensures { result ≡ default_probabilities tables.now }
{
    Probabilities {
        coefficients: *tables.coefficients(),
        vectors: DEFAULT_VECTOR_PROBABILITIES,
        y_modes: DEFAULT_Y_PROBABILITIES,
        uv_modes: DEFAULT_UV_PROBABILITIES,
    }
}

/// The probabilities with which a frame begins.
pub(crate) fn probabilities_before(
    tables: &Tables,
    is_key: bool,
    before: Option<&Known>,
) -> Probabilities
    requires { is_key ≡ false → IsSome before }
    ensures { result ≡ probabilities_before tables.now is_key (option_copied before.entry) }
{
    if is_key {
        return default_probabilities(tables);
    }
    match context_of(before) {
        Some(context) => context.probabilities,
        None => default_probabilities(tables),
    }
}
