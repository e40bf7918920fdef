//! Laws over the definitions: examples and properties.

ghost use Rattle.std.specs.Prelude.{◌≡◌, ℕ, List, [], ◌∷◌, replicate};
ghost use Rattle.intra_predict.specs.InPlace.{above_among, left_among, corner_among, whole_among, worked_rows, worked_corner};
ghost use Rattle.intra_predict.specs.SubLaws.{GoesRight, GoesLeft, worked_row};
ghost use Rattle.intra_predict.specs.WholeSample.{whole_sample};
ghost use Rattle.intra_predict.specs.declared.modes.SubMode.TheVariants.{Dc, Tm, Ve, He, Ld, Rd, Vr, Vl, Hd, Hu};
ghost use Rattle.intra_predict.specs.declared.modes.WholeMode.TheVariants.{Dc as WholeDc, V, H, Tm as WholeTm};

/// Each mode of a sub block that has a direction continues along it: straight down, straight to the
/// right, or at 45, 27 or 63 degrees (RFC 6386, section 12.3).
pub fn modes_go_on()
    ensures vertical { GoesRight Ve 0 1 }
    ensures horizontal { GoesRight He 1 0 }
    ensures left_down { GoesLeft Ld 1 1 }
    ensures right_down { GoesRight Rd 1 1 }
    ensures vertical_right { GoesRight Vr 1 2 }
    ensures vertical_left { GoesLeft Vl 1 2 }
    ensures horizontal_down { GoesRight Hd 2 1 }
    ensures horizontal_up { GoesLeft Hu 2 1 }
{}

/// Rows of each mode of a sub block.
pub fn worked_sub_blocks()
    ensures mean { worked_row Dc 0 ≡ replicate 4 62 }
    ensures true_motion { worked_row Tm 3 ≡ 120 ∷ 73 ∷ 150 ∷ 255 ∷ [] }
    ensures true_motion_below { worked_row Tm 0 ≡ 27 ∷ 0 ∷ 57 ∷ 167 ∷ [] }
    ensures vertical { worked_row Ve 0 ≡ 43 ∷ 44 ∷ 98 ∷ 130 ∷ [] }
    ensures horizontal_first { worked_row He 0 ≡ replicate 4 19 }
    ensures horizontal_last { worked_row He 3 ≡ replicate 4 76 }
    ensures left_down { worked_row Ld 3 ≡ 68 ∷ 13 ∷ 67 ∷ 190 ∷ [] }
    ensures right_down { worked_row Rd 3 ≡ 32 ∷ 13 ∷ 19 ∷ 37 ∷ [] }
    ensures vertical_right_even { worked_row Vr 2 ≡ 19 ∷ 50 ∷ 37 ∷ 52 ∷ [] }
    ensures vertical_right_odd { worked_row Vr 3 ≡ 13 ∷ 37 ∷ 43 ∷ 44 ∷ [] }
    ensures vertical_left_even { worked_row Vl 2 ≡ 52 ∷ 145 ∷ 116 ∷ 13 ∷ [] }
    ensures vertical_left_odd { worked_row Vl 3 ≡ 98 ∷ 130 ∷ 68 ∷ 67 ∷ [] }
    ensures horizontal_down_first { worked_row Hd 0 ≡ 24 ∷ 37 ∷ 43 ∷ 44 ∷ [] }
    ensures horizontal_down { worked_row Hd 3 ≡ 52 ∷ 32 ∷ 12 ∷ 13 ∷ [] }
    ensures horizontal_up { worked_row Hu 0 ≡ 14 ∷ 13 ∷ 12 ∷ 32 ∷ [] }
    ensures horizontal_up_end { worked_row Hu 2 ≡ 52 ∷ 76 ∷ 100 ∷ 100 ∷ [] }
{}

/// Samples of whole blocks, with sides inside the frame and without (RFC 6386, section 12.2).
pub fn worked_whole_blocks()
    ensures mean_of_both { whole_sample WholeDc (Some (replicate 16 100)) (Some (replicate 16 101)) 0 5 9 ≡ 101 }
    ensures mean_of_above { whole_sample WholeDc (Some (replicate 16 100)) None 0 5 9 ≡ 100 }
    ensures mean_of_left { whole_sample WholeDc None (Some (replicate 16 101)) 0 5 9 ≡ 101 }
    ensures mean_of_none { whole_sample WholeDc None None 0 5 9 ≡ 128 }
    ensures vertical { whole_sample V (Some (1 ∷ 2 ∷ 3 ∷ [])) None 0 1 7 ≡ 2 }
    ensures below_the_edge { whole_sample V None None 0 1 7 ≡ 127 }
    ensures horizontal { whole_sample H None (Some (1 ∷ 2 ∷ 3 ∷ [])) 0 7 2 ≡ 3 }
    ensures next_to_the_edge { whole_sample H None None 0 7 2 ≡ 129 }
    ensures true_motion { whole_sample WholeTm (Some (10 ∷ 60 ∷ [])) (Some (1 ∷ 2 ∷ [])) 9 1 0 ≡ 52 }
    ensures true_motion_low { whole_sample WholeTm (Some (10 ∷ 60 ∷ [])) (Some (1 ∷ 2 ∷ [])) 20 0 1 ≡ 0 }
    ensures true_motion_high { whole_sample WholeTm None None 0 0 0 ≡ 255 }
{}

/// The sides of blocks of 2 by 2 samples among the nine samples of a plane, and two of the samples
/// that they predict (RFC 6386, section 12.2).
pub fn worked_sides_in_place()
    ensures above { above_among worked_rows (worked_corner 1 1) 2 ≡ Some (2 ∷ 3 ∷ []) }
    ensures above_the_frame { above_among worked_rows (worked_corner 1 0) 2 ≡ None }
    ensures left { left_among worked_rows (worked_corner 1 1) 2 ≡ Some (4 ∷ 7 ∷ []) }
    ensures left_of_the_frame { left_among worked_rows (worked_corner 0 1) 2 ≡ None }
    ensures corner { corner_among worked_rows (worked_corner 1 1) ≡ 1 }
    ensures corner_above_the_frame { corner_among worked_rows (worked_corner 1 0) ≡ 127 }
    ensures corner_left_of_the_frame { corner_among worked_rows (worked_corner 0 1) ≡ 129 }
    ensures corner_of_the_frame { corner_among worked_rows (worked_corner 0 0) ≡ 127 }
    ensures true_motion { whole_among WholeTm worked_rows (worked_corner 1 1) 2 1 1 ≡ 9 }
    ensures mean { whole_among WholeDc worked_rows (worked_corner 1 1) 2 0 1 ≡ 4 }
{}
