//! Laws about exports. Each law is the contract of a function that does nothing.

ghost use Rattle.std.specs.Prelude.{◌≡◌, ℕ, ◌<◌, length, slice_index};
ghost use Rattle.lossless_cuts.specs.Holds.{BiasesAreSetAnew, HoldsClearBiases};
ghost use Rattle.lossless_cuts.specs.Laws.{ExportsShowTheirFrames};

use vp8_tables::Tables;

// States what the type of a byte list implies: proofs take it from the call.
fn prove_entries(bytes: &[u8])
    ensures { (place : ℕ) → slice_index bytes.now place < 256 }
{}

// States the length of an array: proofs take it from the call.
fn prove_length(entries: &[u8; 1056])
    ensures { length entries.now ≡ 1056 }
{}

/// A hold packet of a state's size leaves the state as it is, except that both sign biases are cleared, and
/// shows its last reference.
pub fn holds_clear_biases()
    ensures { HoldsClearBiases }
{
    packet_forge::laws::hold_shows_last();
}

/// A packet with bytes steps the same whether the sign biases of the state before it are cleared or not.
pub fn biases_are_set_anew()
    ensures { BiasesAreSetAnew }
{}

/// The packets of frames, padded, show exactly these frames, for all tables: none of them is refused, and each
/// shown one has the picture of its frame, sample for sample.
pub fn exports_show_their_frames(tables: &Tables)
    ensures { ExportsShowTheirFrames tables.now }
{
    prove_length(tables.updates());
    prove_entries(tables.updates());
    stream_steps::laws::show_bits_keep_steps();
    holds_clear_biases();
    biases_are_set_anew();
    packet_forge::laws::hold_shows_last();
    reference_frames::laws::keys_step_from_none();
    reference_frames::laws::zeros_keep_steps();
    frame_header::laws::zeros_keep_headers();
    frame_header::show_laws::only_the_show_bit_changes();
    frame_header::laws::outlines_are_headers();
}
