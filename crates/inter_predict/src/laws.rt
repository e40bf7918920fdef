//! Laws over the definitions: examples and properties.

ghost use Rattle.std.specs.Prelude.{◌≡◌, [], ◌∷◌, pos, negsuc};
ghost use Rattle.inter_predict.specs.InterSample.{whole_part, fraction, between, inter_sample};
ghost use Rattle.inter_predict.specs.Laws.{TapsAddUp, KeepsOneValue, CopiesWhole, line_of, worked_plane};
ghost use Rattle.inter_predict.specs.declared.kinds.Kind.TheVariants.{SixTap, Bilinear};

/// The taps of each filter add up to 128, so samples of one value stay as they are, and a whole
/// vector copies (RFC 6386, section 18.3).
pub fn filters_keep_what_is_level()
    ensures add_up { TapsAddUp }
    ensures one_value { KeepsOneValue }
    ensures whole { CopiesWhole }
{}

/// Filters over a few samples, and a vector half a sample to the right and down: it would find 141 if
/// it went down first.
pub fn worked_filters()
    ensures rising { between SixTap 4 (line_of (0 ∷ 0 ∷ 0 ∷ 255 ∷ 255 ∷ 255 ∷ [])) (pos 2) ≡ 128 }
    ensures clamped_at_0 { between SixTap 4 (line_of (255 ∷ 255 ∷ 0 ∷ 0 ∷ 0 ∷ 0 ∷ [])) (pos 2) ≡ 0 }
    ensures clamped_at_255 { between SixTap 4 (line_of (0 ∷ 0 ∷ 255 ∷ 255 ∷ 0 ∷ 0 ∷ [])) (pos 2) ≡ 255 }
    ensures bilinear { between Bilinear 3 (line_of (100 ∷ 200 ∷ [])) (pos 0) ≡ 138 }
    ensures across_first { inter_sample SixTap worked_plane (pos 2) (pos 2) (pos 4) (pos 4) ≡ 128 }
    ensures rounded_down { whole_part (negsuc 0) ≡ negsuc 0 }
    ensures left_over { fraction (negsuc 0) ≡ 7 }
{}
