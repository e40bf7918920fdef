//! Laws over the definitions: examples and properties.

ghost use Rattle.std.specs.Prelude.{◌≡◌, [], ◌∷◌, pos, true, None, Some, IsOkAnd};
ghost use Rattle.bool_coder.specs.Reader.{started};
ghost use Rattle.bool_coder.specs.Reading.{signed};
ghost use Rattle.frame_header.specs.Header.{header_of};
ghost use Rattle.frame_header.specs.Worked.{key_frame_packet, worked_tables, written_fields};
ghost use Rattle.frame_header.specs.WorkedInter.{inter_before, inter_packet};
ghost use Rattle.header_bits.specs.Bits.{all_bits, header_bits, optional};
ghost use Rattle.header_bits.specs.Copies.{CopiesAreNamed, copy_numbers};
ghost use Rattle.header_bits.specs.Totals.{BitsAddUp, BitsEndThere, total};
ghost use Rattle.header_bits.specs.Worked.{bits_written, inter_bits_written, key_bits};

/// A number that is coded as 0 takes its flag, its magnitude and its sign, and one that is not coded its flag.
pub fn zeros_take_bits()
    ensures coded { (signed 4 (started (0x80 ∷ []))).0 ≡ pos 0 }
    ensures coded_bits { (optional 5 (started (0x80 ∷ []))).0 ≡ 6 }
    ensures absent { (signed 4 (started [])).0 ≡ pos 0 }
    ensures absent_bits { (optional 5 (started [])).0 ≡ 1 }
{}

/// The bits of worked headers, and of two of them the sum.
pub fn worked_bits()
    ensures fields { (all_bits true worked_tables.updates (started written_fields)).0 ≡ bits_written }
    ensures key { header_bits worked_tables key_frame_packet ≡ key_bits }
    ensures inter { header_bits worked_tables inter_packet ≡ inter_bits_written }
{}

/// The sums of the bits of worked headers.
pub fn worked_totals()
    ensures key { IsOkAnd (header_of worked_tables None key_frame_packet) (λ header. total header key_bits ≡ 1104) }
    ensures inter { IsOkAnd (header_of worked_tables (Some inter_before) inter_packet) (λ header. total header inter_bits_written ≡ 1254) }
{}

/// The bits of the fields of each accepted header add up to the booleans that it takes of the first partition, and the bits are
/// read up to where the header ends.
pub fn bits_add_up()
    ensures sum { BitsAddUp }
    ensures ends { BitsEndThere }
{}

/// Decoding copies the references that the coded numbers name: 1 is the last frame, 2 the other reference, 0 and 3 are none.
pub fn copies_are_named()
    ensures { CopiesAreNamed }
{}

/// The numbers of a worked inter frame, which copies altref to golden and golden to altref, and of a key frame.
pub fn worked_copies()
    ensures inter { copy_numbers inter_packet ≡ record { golden = 2; altref = 2 } }
    ensures key { copy_numbers key_frame_packet ≡ record { golden = 0; altref = 0 } }
{}
