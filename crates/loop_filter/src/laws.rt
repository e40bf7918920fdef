//! Laws that show that the definitions have their intended meaning.

ghost use Rattle.std.specs.Prelude.{◌≡◌, true, false, [], ◌∷◌};
ghost use Rattle.frame_header.specs.declared.references.Reference.TheVariants.{Last, Golden, Altref};
ghost use Rattle.intra_predict.specs.declared.modes.WholeMode.TheVariants.{Dc};
ghost use Rattle.mode_parser.specs.declared.records.VectorMode.TheVariants.{Zero, Nearest, Near, New, Split};
ghost use Rattle.mode_parser.specs.declared.records.YMode.TheVariants.{Whole, B, Inter};
ghost use Rattle.loop_filter.specs.Levels.{level_in, changed_level};
ghost use Rattle.loop_filter.specs.Strengths.{limits_of};
ghost use Rattle.loop_filter.specs.FourSamples.{simple_four};
ghost use Rattle.loop_filter.specs.Lines.{inner_line, macroblock_line};
ghost use Rattle.loop_filter.specs.Blocks.{luma, chroma};
ghost use Rattle.loop_filter.specs.Laws.{worked_deltas, worked_segments, limits_are, LeavesFramesOfLevel0, LeavesMacroblocksOfLevel0, LeavesInnerEdges, GoesMacroblockByMacroblock, FiltersRowsAlone, SidesFixMacroblocks, ColumnEdgesChangeTheirLines, RowEdgesChangeTheirLines, edge_limits_are, line_of, worked_line, worked_step};

/// Levels of 20 and 60 in segments, and changed by each reference and mode: of the intra modes only
/// B has a change of its own. The sum of frame and segment is clamped before it is changed: 60 and
/// 20 become 63, and then 58 by -3 and -2 (RFC 6386, sections 9.3 and 9.4).
pub fn worked_levels()
    ensures none { level_in 20 false (worked_segments true) 0 ≡ 20 }
    ensures absolute { level_in 20 true (worked_segments true) 3 ≡ 40 }
    ensures added { level_in 20 true (worked_segments false) 0 ≡ 30 }
    ensures clamped_at_0 { level_in 20 true (worked_segments false) 2 ≡ 0 }
    ensures clamped_at_63 { level_in 60 true (worked_segments false) 1 ≡ 63 }
    ensures whole { changed_level worked_deltas (Whole Dc) 20 ≡ 22 }
    ensures b { changed_level worked_deltas B 20 ≡ 26 }
    ensures zero { changed_level worked_deltas (Inter Last Zero) 20 ≡ 18 }
    ensures nearest { changed_level worked_deltas (Inter Last Nearest) 20 ≡ 21 }
    ensures near { changed_level worked_deltas (Inter Golden Near) 20 ≡ 19 }
    ensures new { changed_level worked_deltas (Inter Altref New) 20 ≡ 18 }
    ensures split { changed_level worked_deltas (Inter Golden Split) 20 ≡ 23 }
    ensures clamped_between { changed_level worked_deltas (Inter Altref Zero) (level_in 60 true (worked_segments false) 1) ≡ 58 }
{}

/// Limits of a few levels and of each kind of sharpness (RFC 6386, section 15.4).
#[tactic(auto, unfolding(crate::specs::Strengths::limits_of))]
pub fn worked_limits()
    ensures soft { limits_of 20 0 true ≡ limits_are 20 1 64 60 }
    ensures sharp { limits_of 20 5 true ≡ limits_are 4 1 48 44 }
    ensures soft_inter { limits_of 20 0 false ≡ limits_are 20 2 64 60 }
    ensures halved { limits_of 9 4 true ≡ limits_are 4 0 26 22 }
    ensures quartered { limits_of 9 5 true ≡ limits_are 2 0 24 20 }
    ensures clamped { limits_of 63 7 false ≡ limits_are 2 3 132 128 }
    ensures greatest { limits_of 63 0 true ≡ limits_are 63 2 193 189 }
    ensures at_least_1 { limits_of 1 1 false ≡ limits_are 1 0 7 3 }
{}

/// Frames, macroblocks and edges that are not filtered (RFC 6386, sections 9.4 and 15.1).
#[tactic(auto, unfolding(crate::specs::Frames::filtered_planes, crate::specs::Frames::strength_of))]
pub fn what_is_left()
    ensures frames { LeavesFramesOfLevel0 }
    ensures macroblocks { LeavesMacroblocksOfLevel0 }
    ensures inner { LeavesInnerEdges }
{}

/// The filtered picture is also the result of filtering macroblock by macroblock, in raster order,
/// each in all three planes before the next (RFC 6386, section 15.1).
pub fn filters_macroblock_by_macroblock()
    ensures { GoesMacroblockByMacroblock }
{}

/// The first rows of macroblocks of a plane are filtered without a look at the samples below them,
/// which are left as they are.
pub fn filters_rows_alone()
    ensures luma { FiltersRowsAlone luma }
    ensures chroma { FiltersRowsAlone chroma }
{}

/// `frame` derives the right number of macroblocks each way from the sides of the planes.
pub fn sides_fix_macroblocks()
    ensures { SidesFixMacroblocks }
{}

/// The simple filter of a step of 10, which is measured as 25 (RFC 6386, section 15.2).
#[tactic(auto, unfolding(crate::specs::Lines::simple_line, crate::specs::Lines::shortfall, crate::specs::Lines::eighth, crate::specs::Lines::raised, crate::specs::Lines::lowered))]
pub fn test_steps()
    ensures within { simple_four 25 (100 ∷ 100 ∷ 110 ∷ 110 ∷ []) ≡ 100 ∷ 102 ∷ 107 ∷ 110 ∷ [] }
    ensures above { simple_four 24 (100 ∷ 100 ∷ 110 ∷ 110 ∷ []) ≡ 100 ∷ 100 ∷ 110 ∷ 110 ∷ [] }
{}

/// The two normal filters on either side of each of their limits, calculated from RFC 6386, section
/// 15.3: a line is filtered up to its limits, and it has high edge variance (hev) above the
/// threshold. For the step of 20 `a` is 31 with the outer samples and 60 without; for the step of
/// 64 it is 127.
#[tactic(auto, unfolding(crate::specs::Lines::inner_line, crate::specs::Lines::macroblock_line, crate::specs::Lines::is_filtered, crate::specs::Lines::has_high_edge_variance, crate::specs::Lines::shortfall, crate::specs::Lines::eighth, crate::specs::Lines::share, crate::specs::Lines::raised, crate::specs::Lines::lowered))]
pub fn worked_lines()
    ensures inner { inner_line (edge_limits_are 54 5 5) worked_line ≡ line_of (90 ∷ 92 ∷ 99 ∷ 107 ∷ 112 ∷ 120 ∷ 126 ∷ 128 ∷ []) }
    ensures inner_high_variance { inner_line (edge_limits_are 54 5 4) worked_line ≡ line_of (90 ∷ 92 ∷ 95 ∷ 104 ∷ 116 ∷ 124 ∷ 126 ∷ 128 ∷ []) }
    ensures inner_low_variance { inner_line (edge_limits_are 160 1 0) worked_step ≡ line_of (0 ∷ 0 ∷ 8 ∷ 15 ∷ 49 ∷ 56 ∷ 64 ∷ 64 ∷ []) }
    ensures macroblock { macroblock_line (edge_limits_are 54 5 5) worked_line ≡ line_of (90 ∷ 94 ∷ 99 ∷ 107 ∷ 113 ∷ 120 ∷ 124 ∷ 128 ∷ []) }
    ensures macroblock_high_variance { macroblock_line (edge_limits_are 54 5 4) worked_line ≡ line_of (90 ∷ 92 ∷ 95 ∷ 104 ∷ 116 ∷ 124 ∷ 126 ∷ 128 ∷ []) }
    ensures macroblock_low_variance { macroblock_line (edge_limits_are 160 1 0) worked_step ≡ line_of (0 ∷ 9 ∷ 18 ∷ 27 ∷ 37 ∷ 46 ∷ 55 ∷ 64 ∷ []) }
    ensures inner_above { inner_line (edge_limits_are 53 5 5) worked_line ≡ worked_line }
    ensures inner_rough { inner_line (edge_limits_are 54 4 5) worked_line ≡ worked_line }
    ensures macroblock_above { macroblock_line (edge_limits_are 53 5 5) worked_line ≡ worked_line }
    ensures macroblock_rough { macroblock_line (edge_limits_are 54 4 5) worked_line ≡ worked_line }
{}

/// A filtered edge changes its own lines, each by itself, and no other sample.
pub fn edges_change_their_lines()
    ensures columns { ColumnEdgesChangeTheirLines }
    ensures rows { RowEdgesChangeTheirLines }
{}
