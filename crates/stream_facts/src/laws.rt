//! Laws about the definitions of this crate, and worked sizes, as functions without code.

ghost use Rattle.std.specs.Prelude.{◌≡◌, ◌∷◌, ℕ, [], List, None, Some};
ghost use Rattle.stream_files.specs.declared.packets.Packet.{Packet};
ghost use Rattle.stream_facts.specs.Facts.{facts_in, first_key_size};
ghost use Rattle.stream_facts.specs.Places.{facts_at};
ghost use Rattle.stream_facts.specs.Refusals.{has_refused, refuses_one};
ghost use Rattle.stream_facts.specs.declared.places.Places.TheVariants.{Records};

/// The size of a worked list of packets: one with a key tag and no size, a hidden key frame of 16x16 and a key frame of 32x32.
pub fn worked_key_sizes()
    ensures first { first_key_size (
        record { stamp = 0; bytes = 16 ∷ 0 ∷ 0 ∷ [] }
        ∷ record { stamp = 1; bytes = 0 ∷ 0 ∷ 0 ∷ 0x9D ∷ 0x01 ∷ 0x2A ∷ 16 ∷ 0 ∷ 16 ∷ 0 ∷ [] }
        ∷ record { stamp = 2; bytes = 16 ∷ 0 ∷ 0 ∷ 0x9D ∷ 0x01 ∷ 0x2A ∷ 32 ∷ 0 ∷ 32 ∷ 0 ∷ [] } ∷ []) ≡ Some (16, 16) }
    ensures none { first_key_size (record { stamp = 0; bytes = 17 ∷ 0 ∷ 0 ∷ [] } ∷ []) ≡ None }
{}

/// The facts of packets in the records of an IVF file are those that follow from the byte at which the first record begins.
pub fn records_are_places()
    ensures { (begins : ℕ) (packets : List Packet) → facts_at (Records begins) packets ≡ facts_in begins packets }
{}

/// Whether decoding refuses one of some packets does not depend on where they are in their file.
pub fn refusals_have_no_place()
    ensures { (begins : ℕ) (packets : List Packet) → has_refused (facts_in begins packets) ≡ refuses_one packets }
{}
