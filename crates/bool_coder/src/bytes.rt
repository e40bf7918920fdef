//! What the type of a byte says.

ghost use Rattle.std.specs.Prelude.{ℕ, ◌<◌, slice_index};

// States the bound of each byte, which its type has, as a fact that proofs take from the call.
pub(crate) fn prove_bytes(bytes: &[u8])
    ensures { (place : ℕ) → slice_index bytes.now place < 256 }
{}
