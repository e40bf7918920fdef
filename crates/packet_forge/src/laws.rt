//! What forged packets decode to. A law is a function that does nothing: its contract is the law.
ghost use Rattle.std.specs.Prelude.{◌≡◌, ℕ, ◌<◌, length, slice_index};
ghost use Rattle.std.specs.Option.{option_copied};
ghost use Rattle.packet_forge.specs.Laws.{BlankIsGrey, HoldShowsLast};

use reference_frames::State;
use vp8_tables::Tables;

// States what the type of a byte list implies: proofs take it from the call.
fn prove_bytes(bytes: &[u8])
    ensures { (place : ℕ) → slice_index bytes.now place < 256 }
{}

// States the length of an array: proofs take it from the call.
fn prove_length(entries: &[u8; 1056])
    ensures { length entries.now ≡ 1056 }
{}

/// For every table set, every size and every state or none: the step of a packet of
/// [`blank`](crate::blank), with the same tables, returns a picture of its size that is 128 throughout,
/// and the packet is shown.
pub fn blank_is_grey(tables: &Tables, state: Option<&State>, width: u16, height: u16)
    ensures { BlankIsGrey tables.now (option_copied state.entry) width height }
{
    prove_length(tables.updates());
    prove_bytes(tables.updates());
}

/// For all tables and states in their types' ranges: the step of a packet of [`hold`](crate::hold) of
/// the state's size, with the same tables, returns the last reference as its picture and changes no
/// sample of any reference, and the packet is shown.
pub fn hold_shows_last()
    ensures { HoldShowsLast }
{}
