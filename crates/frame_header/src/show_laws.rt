//! Laws about the show bit. Each law is the contract of a function that does nothing.

ghost use Rattle.std.specs.Prelude.{◌≡◌, true, false, [], ◌∷◌};
ghost use Rattle.frame_header.specs.ShowLaws.{LastBitCounts, OnlyTheBitChanges, OwnBitStays, ShowBitSays, TagHasShowBit};
ghost use Rattle.frame_header.specs.ShowBits.{with_show_bit};

/// A packet is shown as its show bit says, and everything but this bit is as it was.
pub fn only_the_show_bit_changes()
    ensures tag { TagHasShowBit }
    ensures says { ShowBitSays }
    ensures rest { OnlyTheBitChanges }
{}

/// The bit that a packet has changes nothing, and of two changes the last one counts.
pub fn last_show_bit_counts()
    ensures own { OwnBitStays }
    ensures last { LastBitCounts }
{}

/// Worked examples: a key packet is hidden, an inter packet is shown, and a packet of two bytes has no bit.
pub fn worked_show_bits()
    ensures hidden { with_show_bit false (0x30 ∷ 1 ∷ 0 ∷ []) ≡ 0x20 ∷ 1 ∷ 0 ∷ [] }
    ensures shown { with_show_bit true (0xEF ∷ 2 ∷ 3 ∷ 4 ∷ []) ≡ 0xFF ∷ 2 ∷ 3 ∷ 4 ∷ [] }
    ensures none { with_show_bit false (0x30 ∷ 1 ∷ []) ≡ 0x30 ∷ 1 ∷ [] }
{}
