//! Laws that show that the definitions have their intended meaning.

ghost use Rattle.std.specs.Prelude.{◌≡◌, ℕ, ◌<◌, [], ◌∷◌, map, replicate, ◌++◌, ℤ, pos, negsuc, ◌+ℤ◌, FitsSigned};
ghost use Rattle.std.specs.List.{range_with_len};
ghost use Rattle.std.specs.Int.{int_shr, w16};
ghost use Rattle.transforms.specs.Transforms.{inverse_dct, inverse_wht};

/// A block with only a first coefficient has the same residual everywhere, for every number of 16
/// bits: the residual that `dct_add_first` adds (RFC 6386, section 14.3).
pub fn first_only_is_flat()
    ensures { (first : ℤ) (column row : ℕ) → FitsSigned w16 first → column < 4 → row < 4 → inverse_dct (first ∷ replicate 15 (pos 0)) column row ≡ int_shr (first +ℤ pos 4) 3 }
{}

/// Transforms of single coefficients (RFC 6386, section 14.3).
pub fn worked_transforms()
    ensures along_a_row { map (λ column. inverse_dct (pos 0 ∷ pos 100 ∷ replicate 14 (pos 0)) column 3) (range_with_len 0 4) ≡ pos 16 ∷ pos 7 ∷ negsuc 6 ∷ negsuc 15 ∷ [] }
    ensures down_a_column { map (λ row. inverse_dct (replicate 4 (pos 0) ++ pos 100 ∷ replicate 11 (pos 0)) 2 row) (range_with_len 0 4) ≡ pos 16 ∷ pos 7 ∷ negsuc 6 ∷ negsuc 15 ∷ [] }
    ensures second_order { inverse_wht (pos 5 ∷ replicate 15 (pos 0)) ≡ replicate 16 (pos 1) }
{}
