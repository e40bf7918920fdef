//! Laws of the code text: its form, and that a reader of it returns the bits.

ghost use Rattle.std.specs.Prelude.{◌≡◌, ℕ, ◌+◌, ◌^◌, ◌<◌, ◌≤◌, Bool, true, false, List, [], ◌∷◌, ◌++◌, map, replicate, All};
ghost use Rattle.bool_coder.specs.Reader.{bits_of, bit_string, started, read};
ghost use Rattle.bool_coder.specs.Uncut.{bits_read};
ghost use Rattle.bool_coder.specs.CodeText.{Code, no_code, all_written, text_of, padding, code_text};

/// Every list of bits, each with a probability of 0 to 255, is read back from its code text with the
/// same probabilities (RFC 6386, section 7).
pub fn round_trip()
    ensures { (pairs : List (Bool × ℕ)) → All (λ p. p.1 ≤ 255) pairs → bits_read read (map (λ p. p.1) pairs) (started (code_text pairs)) ≡ map (λ p. p.0) pairs }
{}

/// The number of a code has no more bits than its text: eight, and one for each shift.
pub fn low_fits()
    ensures { (pairs : List (Bool × ℕ)) → All (λ p. p.1 ≤ 255) pairs → (all_written pairs no_code).low < 2 ^ ((all_written pairs no_code).shifts + 8) }
{}

/// A code's text is its number in eight bits and one for each shift, most significant first, and then
/// zero bits up to a whole byte.
pub fn text_bits()
    ensures { (c : Code) → bit_string (text_of c) ≡ bits_of (c.shifts + 8) c.low ++ replicate (padding c.shifts) 0 }
{}

/// The texts of no bits, of one bit and of three, worked out manually.
pub fn worked_texts()
    ensures none { code_text [] ≡ 0x00 ∷ [] }
    ensures one { code_text ((true, 128) ∷ []) ≡ 0x80 ∷ 0x00 ∷ [] }
    ensures three { code_text ((true, 128) ∷ (false, 128) ∷ (true, 128) ∷ []) ≡ 0x9F ∷ 0xC0 ∷ [] }
{}
