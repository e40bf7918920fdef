//! Laws over the definitions of this crate: each is the contract of a function that does nothing.

ghost use Rattle.std.specs.Prelude.{◌≡◌, ◌<◌, length, true, false, Some, None, map, [], ◌∷◌, pos, neg_ℤ};
ghost use Rattle.frame_header.specs.declared.references.Reference.TheVariants.{Last, Golden, Altref};
ghost use Rattle.mode_parser.specs.ChromaVectors.{group_vector};
ghost use Rattle.mode_parser.specs.declared.records.VectorMode.TheVariants.{New, Split};
ghost use Rattle.pixel_planes.specs.Pictures.{PictureSamples};
ghost use Rattle.reference_frames.specs.References.{references_after};
ghost use Rattle.reference_frames.specs.declared.references.References.{References};
ghost use Rattle.reference_frames.specs.AboveRightLaws.{ReadsRowAbove, ReadsNextBlock, RepeatsFirstRow, ReadsNextMacroblock, RepeatsLastColumn};
ghost use Rattle.reference_frames.specs.InterPrediction.{block_vector};
ghost use Rattle.reference_frames.specs.StepLaws.{KeysStepFromNone, PaddingKeepsSteps, ZerosKeepSteps};
ghost use Rattle.reference_frames.specs.TokenLaws.{FirstRowsReadOneEach, RowsReadInTurn, KeepsOtherReaders, Y2GoesFirst, Y2KeepsOthers, NoY2KeepsAll};
ghost use Rattle.reference_frames.specs.Worked.{mixed_vectors};
ghost use Rattle.reference_frames.specs.UnfilteredLaws.{AreFlat, WritesOneBlock};

/// A step of a packet with a key tag is the same from any state as from none.
pub fn keys_step_from_none()
    ensures { KeysStepFromNone }
{
    frame_header::laws::keys_take_no_context();
}

/// A byte 00 after a packet whose header is accepted changes nothing in its step: zeros follow the end of
/// its last token partition anyway (RFC 6386, section 7). So padding a packet, as a save with padding does,
/// changes nothing in its step, accepted or refused.
pub fn zeros_keep_steps()
    ensures zeros { ZerosKeepSteps }
    ensures padding { PaddingKeepsSteps }
{
    frame_header::laws::zeros_keep_headers();
    frame_header::laws::padding_keeps_headers();
}

/// References are copied before any is refreshed, and altref before golden (RFC 6386, section 9.7).
pub fn references_are_copied_first()
    ensures altref_first { (picture : PictureSamples) (r : References) → references_after (record { refreshes_last = false; refreshes_golden = false; refreshes_altref = false; golden_copy = Some Altref; altref_copy = Some Golden }) picture r ≡ record { last = r.last; golden = r.golden; altref = r.golden } }
    ensures then_refreshed { (picture : PictureSamples) (r : References) → references_after (record { refreshes_last = true; refreshes_golden = false; refreshes_altref = false; golden_copy = Some Last; altref_copy = None }) picture r ≡ record { last = picture; golden = r.last; altref = r.altref } }
{}

/// A block that is written has its samples, and every other sample is as it was.
pub fn block_write_is_local()
    ensures { WritesOneBlock }
{}

/// In the planes of a frame whose macroblocks are all skipped, and predicted in luma by sub blocks of
/// mode DC and in chroma by mode DC, luma is 128 in the first four rows and 129 below them, and
/// chroma is 128, whatever its token partitions hold.
pub fn blank_planes_are_flat()
    ensures { AreFlat }
{}

/// The eight samples above a sub block: four above it and four to the right of these, which the last
/// column of sub blocks takes from above its macroblock in every row, and the last macroblock of a row
/// has from its own last column (RFC 6386, section 12.3).
pub fn samples_above_and_to_the_right()
    ensures above { ReadsRowAbove }
    ensures next_block { ReadsNextBlock }
    ensures later_rows { RepeatsFirstRow }
    ensures next_macroblock { ReadsNextMacroblock }
    ensures last_macroblock { RepeatsLastColumn }
{}

/// Rows of macroblocks read the token partitions in turn, each its own only (RFC 6386, section 9.5).
pub fn rows_read_partitions_in_turn()
    ensures first { FirstRowsReadOneEach }
    ensures again { RowsReadInTurn }
    ensures only { KeepsOtherReaders }
{}

/// The results of Y2 go into index 0 of each luma block, and change nothing else (RFC 6386,
/// section 14.3).
pub fn y2_goes_first()
    ensures first { Y2GoesFirst }
    ensures others { Y2KeepsOthers }
    ensures without { NoY2KeepsAll }
{}

/// The chroma vectors of a split macroblock whose vectors have both signs: sums round to the nearest,
/// and a half away from 0, and in version 3 then down to whole samples. A macroblock that is not split
/// has the vector of its last block throughout (RFC 6386, section 18).
pub fn worked_group_vectors()
    ensures split { map (group_vector 0 (block_vector Split mixed_vectors)) (0 ∷ 1 ∷ 2 ∷ 3 ∷ []) ≡ (neg_ℤ (pos 2), neg_ℤ (pos 2)) ∷ (neg_ℤ (pos 1), pos 2) ∷ (neg_ℤ (pos 1), neg_ℤ (pos 1)) ∷ (pos 0, pos 2) ∷ [] }
    ensures whole_samples { map (group_vector 3 (block_vector Split mixed_vectors)) (0 ∷ 1 ∷ 2 ∷ 3 ∷ []) ≡ (neg_ℤ (pos 8), neg_ℤ (pos 8)) ∷ (neg_ℤ (pos 8), pos 0) ∷ (neg_ℤ (pos 8), neg_ℤ (pos 8)) ∷ (pos 0, pos 0) ∷ [] }
    ensures not_split { map (group_vector 0 (block_vector New mixed_vectors)) (0 ∷ 3 ∷ []) ≡ (neg_ℤ (pos 21), pos 17) ∷ (neg_ℤ (pos 21), pos 17) ∷ [] }
{}
