//! Laws over the definitions: examples and properties.

ghost use Rattle.std.specs.Prelude.{◌≡◌, true, false, if◌then◌else◌, ◌+◌, ◌*◌, ◌<◌, ◌≤◌, ℕ, ℤ, pos, neg_ℤ, [], ◌∷◌, List, Option, Some, None, length, map, replicate, slice_index_or, All, IsTrue};
ghost use Rattle.std.specs.List.{range_with_len};
ghost use Rattle.bool_coder.specs.Trees.{is_tree};
ghost use Rattle.vp8_tables.specs.declared.modes.TheConstants.{KEY_Y_TREE, KEY_Y_PROBABILITIES, UV_TREE, KEY_UV_PROBABILITIES, SUB_TREE};
ghost use Rattle.intra_predict.specs.declared.modes.WholeMode.TheVariants.{Dc as WholeDc, V, H, Tm as WholeTm};
ghost use Rattle.intra_predict.specs.declared.modes.SubMode.{SubMode};
ghost use Rattle.intra_predict.specs.declared.modes.SubMode.TheVariants.{Dc, Tm, Ve, He, Hu};
ghost use Rattle.mode_parser.specs.declared.records.YMode.TheVariants.{Whole, B};
ghost use Rattle.mode_parser.specs.declared.records.MbMode.{MbMode};
ghost use Rattle.mode_parser.specs.SubModes.{number_of, sub_mode_of, context_in, mode_above, mode_left};
ghost use Rattle.bool_coder.specs.Reader.{started};
ghost use Rattle.bool_coder.specs.CodeText.{code_text};
ghost use Rattle.vp8_tables.specs.declared.modes.TheConstants.{INTER_Y_TREE, INTER_SUB_PROBABILITIES, VECTOR_MODE_TREE, SPLIT_TREE, SPLIT_PROBABILITIES, SPLIT_STARTS, PART_VECTOR_TREE, SEGMENT_TREE};
ghost use Rattle.vp8_tables.specs.declared.vectors.TheConstants.{DEFAULT_VECTOR_PROBABILITIES, SHORT_VECTOR_TREE};
ghost use Rattle.frame_header.specs.declared.references.Reference.TheVariants.{Last, Golden, Altref};
ghost use Rattle.mode_parser.specs.declared.records.VectorMode.TheVariants.{Zero, New, Split};
ghost use Rattle.mode_parser.specs.Vectors.{zero_vector};
ghost use Rattle.mode_parser.specs.NearVectors.{clamped_component, near_of};
ghost use Rattle.mode_parser.specs.VectorReading.{new_vector};
ghost use Rattle.mode_parser.specs.InterRecords.{are_starts};
ghost use Rattle.mode_parser.specs.ChromaVectors.{chroma_component, first_luma, group_vector};
ghost use Rattle.mode_parser.specs.Worked.{right_by, moved, golden_biased, middle, near_right, down_by_16};
ghost use Rattle.mode_parser.specs.FrameModes.{record_above, record_left, record_above_left, place_of, modes_of};
ghost use Rattle.mode_parser.specs.Segments.{segment_number, kept_segment, kept_map};
ghost use Rattle.mode_parser.specs.Chains.{RecordsAreChains, FramesAreChains};
ghost use Rattle.mode_parser.specs.RecordLaws.{BitsAddUp, BitsAreTakenIn, SplitsAreChains, SplitsAreOfRecords};
ghost use Rattle.mode_parser.specs.KeyShape.{HasShape, HasKeyShape, ReadsZeros, dc_record};

use frame_header::Header;
use vp8_tables::Tables;

/// The lists by which modes are read are trees, each with a probability for every node
/// (RFC 6386, section 8.1).
pub fn trees_are_trees()
    ensures luma { IsTrue (is_tree KEY_Y_TREE KEY_Y_PROBABILITIES) }
    ensures chroma { IsTrue (is_tree UV_TREE KEY_UV_PROBABILITIES) }
    ensures sub { (a b c d e f g h i : ℕ) → IsTrue (is_tree SUB_TREE (a ∷ b ∷ c ∷ d ∷ e ∷ f ∷ g ∷ h ∷ i ∷ [])) }
    ensures inter_luma { (a b c d : ℕ) → IsTrue (is_tree INTER_Y_TREE (a ∷ b ∷ c ∷ d ∷ [])) }
    ensures inter_chroma { (a b c : ℕ) → IsTrue (is_tree UV_TREE (a ∷ b ∷ c ∷ [])) }
    ensures inter_sub { IsTrue (is_tree SUB_TREE INTER_SUB_PROBABILITIES) }
    ensures vector_mode { (a b c d : ℕ) → IsTrue (is_tree VECTOR_MODE_TREE (a ∷ b ∷ c ∷ d ∷ [])) }
    ensures split { IsTrue (is_tree SPLIT_TREE SPLIT_PROBABILITIES) }
    ensures segment { (a b c : ℕ) → IsTrue (is_tree SEGMENT_TREE (a ∷ b ∷ c ∷ [])) }
    ensures part { (a b c : ℕ) → IsTrue (is_tree PART_VECTOR_TREE (a ∷ b ∷ c ∷ [])) }
    ensures short { (a b c d e f g : ℕ) → IsTrue (is_tree SHORT_VECTOR_TREE (a ∷ b ∷ c ∷ d ∷ e ∷ f ∷ g ∷ [])) }
{}

/// No block of a split macroblock is before the start of its part.
pub fn parts_start_first()
    ensures { (way : ℕ) → IsTrue (are_starts 0 (slice_index_or SPLIT_STARTS way [])) }
{}

/// The near vectors of a macroblock with the last frame as its reference: those above and to the
/// left are the same; one to golden, which has a sign bias; the first one comes again as the third;
/// the second weighs more; zero vectors weigh more; and neighbours are split.
#[tactic(auto, unfolding(crate::specs::NearVectors::near_of, crate::specs::NearVectors::listing_of))]
pub fn worked_near_vectors()
    ensures same { near_of (Some (moved Last New (right_by (pos 8)))) (Some (moved Last New (right_by (pos 8)))) (Some dc_record) Last golden_biased middle ≡ near_right (0 ∷ 4 ∷ 0 ∷ 0 ∷ []) (pos 8) (pos 8) (pos 0) }
    ensures bias { near_of (Some (moved Golden New (right_by (pos 8)))) None None Last golden_biased middle ≡ near_right (0 ∷ 2 ∷ 0 ∷ 0 ∷ []) (neg_ℤ (pos 8)) (neg_ℤ (pos 8)) (pos 0) }
    ensures again { near_of (Some (moved Last New (right_by (pos 8)))) (Some (moved Last New (right_by (pos 5)))) (Some (moved Altref New (right_by (pos 8)))) Last golden_biased middle ≡ near_right (0 ∷ 3 ∷ 2 ∷ 0 ∷ []) (pos 8) (pos 8) (pos 5) }
    ensures heavier { near_of (Some (moved Last New (right_by (pos 8)))) (Some (moved Last New (right_by (pos 5)))) (Some (moved Last New (right_by (pos 5)))) Last golden_biased middle ≡ near_right (0 ∷ 3 ∷ 2 ∷ 0 ∷ []) (pos 5) (pos 5) (pos 8) }
    ensures zeros { near_of (Some (moved Last Zero zero_vector)) None (Some (moved Last New (right_by (pos 8)))) Last golden_biased middle ≡ near_right (2 ∷ 1 ∷ 0 ∷ 0 ∷ []) (pos 0) (pos 8) (pos 0) }
    ensures split { near_of (Some (moved Last Split (right_by (pos 8)))) None (Some (moved Last Split (right_by (pos 8)))) Last golden_biased middle ≡ near_right (0 ∷ 3 ∷ 0 ∷ 3 ∷ []) (pos 8) (pos 8) (pos 0) }
{}

/// The bounds to which vectors are clamped, in the middle of three columns and rows, and at both
/// ends.
pub fn worked_bounds()
    ensures inside { clamped_component 1 3 (pos 127) ≡ pos 127 }
    ensures right { clamped_component 1 3 (pos 129) ≡ pos 128 }
    ensures left { clamped_component 1 3 (neg_ℤ (pos 129)) ≡ neg_ℤ (pos 128) }
    ensures first { clamped_component 0 3 (neg_ℤ (pos 100)) ≡ neg_ℤ (pos 64) }
    ensures last { clamped_component 2 3 (pos 100) ≡ pos 64 }
{}

/// Vectors read from endless zeros, from endless ones, and from an encoder's bits.
pub fn worked_vectors()
    ensures zeros { (new_vector DEFAULT_VECTOR_PROBABILITIES (started [])).0 ≡ zero_vector }
    ensures ones { (new_vector DEFAULT_VECTOR_PROBABILITIES (started (replicate 8 255))).0 ≡ record { x = neg_ℤ (pos 1023); y = neg_ℤ (pos 1023) } }
    ensures written { (new_vector DEFAULT_VECTOR_PROBABILITIES (started (code_text down_by_16))).0 ≡ record { x = pos 0; y = pos 16 } }
{}

/// Rounded means of four components, and which luma blocks lie over the last chroma block.
pub fn worked_chroma_vectors()
    ensures sums { (version : ℕ) → version < 3 → map (λ sum. chroma_component sum version) (pos 1 ∷ pos 2 ∷ neg_ℤ (pos 1) ∷ neg_ℤ (pos 2) ∷ pos 38 ∷ []) ≡ pos 0 ∷ pos 1 ∷ pos 0 ∷ neg_ℤ (pos 1) ∷ pos 10 ∷ [] }
    ensures whole { map (λ sum. chroma_component sum 3) (pos 38 ∷ neg_ℤ (pos 38) ∷ []) ≡ pos 8 ∷ neg_ℤ (pos 16) ∷ [] }
    ensures first_blocks { map first_luma (0 ∷ 1 ∷ 2 ∷ 3 ∷ []) ≡ 0 ∷ 2 ∷ 8 ∷ 10 ∷ [] }
    ensures same { (x : ℕ) → group_vector 0 (λ n. right_by (pos x)) 3 ≡ (pos x, pos 0) }
{}

/// Each mode of a sub block has a number below 10, by which it is found again.
pub fn numbers_name_sub_modes()
    ensures back { (mode : SubMode) → sub_mode_of (number_of mode) ≡ mode }
    ensures small { (mode : SubMode) → number_of mode < 10 }
{}

/// The modes that neighbours see: DC outside the frame, the counterpart of a whole block's mode,
/// and the mode of each sub block.
pub fn worked_contexts()
    ensures outside { (n : ℕ) → context_in None n ≡ Dc }
    ensures dc { (m : MbMode) (n : ℕ) → m.y_mode ≡ Whole WholeDc → context_in (Some m) n ≡ Dc }
    ensures v { (m : MbMode) (n : ℕ) → m.y_mode ≡ Whole V → context_in (Some m) n ≡ Ve }
    ensures h { (m : MbMode) (n : ℕ) → m.y_mode ≡ Whole H → context_in (Some m) n ≡ He }
    ensures tm { (m : MbMode) (n : ℕ) → m.y_mode ≡ Whole WholeTm → context_in (Some m) n ≡ Tm }
    ensures own { (m : MbMode) (rest : List SubMode) → m.y_mode ≡ B → m.sub_modes ≡ Ve ∷ Hu ∷ He ∷ rest → context_in (Some m) 1 ≡ Hu }
{}

/// The neighbours of a sub block: in the last row of the macroblock above, in the last column of
/// the one to the left, or earlier in its own.
pub fn worked_neighbours()
    ensures above_first { (m : Option MbMode) → mode_above m [] 0 ≡ context_in m 12 }
    ensures above_last { (m : Option MbMode) (a b c : SubMode) → mode_above m (a ∷ b ∷ c ∷ []) 3 ≡ context_in m 15 }
    ensures above_inner { (m : Option MbMode) (a b c d e : SubMode) → mode_above m (a ∷ b ∷ c ∷ d ∷ e ∷ []) 5 ≡ b }
    ensures left_first { (m : Option MbMode) → mode_left m [] 0 ≡ context_in m 3 }
    ensures left_second_row { (m : Option MbMode) (a b c d : SubMode) → mode_left m (a ∷ b ∷ c ∷ d ∷ []) 4 ≡ context_in m 7 }
    ensures left_inner { (m : Option MbMode) (a b c d e : SubMode) → mode_left m (a ∷ b ∷ c ∷ d ∷ e ∷ []) 5 ≡ e }
{}

/// The neighbours of a macroblock in a frame of three columns.
pub fn worked_places()
    ensures corner { record_above [] 3 0 ≡ None }
    ensures corner_left { record_left [] 3 0 ≡ None }
    ensures first_row { (a b : MbMode) → record_above (a ∷ b ∷ []) 3 2 ≡ None }
    ensures first_row_left { (a b : MbMode) → record_left (a ∷ b ∷ []) 3 2 ≡ Some b }
    ensures first_column { (a b c : MbMode) → record_above (a ∷ b ∷ c ∷ []) 3 3 ≡ Some a }
    ensures first_column_left { (a b c : MbMode) → record_left (a ∷ b ∷ c ∷ []) 3 3 ≡ None }
    ensures inner { (a b c d e : MbMode) → record_above (a ∷ b ∷ c ∷ d ∷ e ∷ []) 3 5 ≡ Some c }
    ensures inner_left { (a b c d e : MbMode) → record_left (a ∷ b ∷ c ∷ d ∷ e ∷ []) 3 5 ≡ Some e }
    ensures first_row_above_left { (a b : MbMode) → record_above_left (a ∷ b ∷ []) 3 2 ≡ None }
    ensures first_column_above_left { (a b c : MbMode) → record_above_left (a ∷ b ∷ c ∷ []) 3 3 ≡ None }
    ensures inner_above_left { (a b c d e : MbMode) → record_above_left (a ∷ b ∷ c ∷ d ∷ e ∷ []) 3 5 ≡ Some b }
    ensures place { place_of 3 2 5 ≡ record { column = 2; row = 1; columns = 3; rows = 2 } }
{}

/// A frame has a record for each macroblock, all with 16 sub block modes and 16 vectors.
pub fn records_have_shape(tables: &Tables, header: &Header, columns: usize, rows: usize)
    ensures count { (map : Option (List ℕ)) → length (modes_of tables.now header.now columns rows map).records ≡ columns * rows }
    ensures shape { (map : Option (List ℕ)) → All HasShape (modes_of tables.now header.now columns rows map).records }
{}

/// A segment of each number is read by its bits. If the map is not updated, a key frame has zeros,
/// and another frame keeps the map before it.
pub fn worked_segments()
    ensures first { (segment_number (200 ∷ 100 ∷ 50 ∷ []) (started (code_text ((false, 200) ∷ (false, 100) ∷ [])))).0 ≡ 0 }
    ensures second { (segment_number (200 ∷ 100 ∷ 50 ∷ []) (started (code_text ((false, 200) ∷ (true, 100) ∷ [])))).0 ≡ 1 }
    ensures third { (segment_number (200 ∷ 100 ∷ 50 ∷ []) (started (code_text ((true, 200) ∷ (false, 50) ∷ [])))).0 ≡ 2 }
    ensures fourth { (segment_number (200 ∷ 100 ∷ 50 ∷ []) (started (code_text ((true, 200) ∷ (true, 50) ∷ [])))).0 ≡ 3 }
    ensures key { kept_map true 2 (Some (1 ∷ 2 ∷ [])) ≡ 0 ∷ 0 ∷ [] }
    ensures kept { kept_map false 2 (Some (1 ∷ 2 ∷ [])) ≡ 1 ∷ 2 ∷ [] }
{}

/// If a frame does not update the segment map, its macroblocks keep their segments, or have 0 in a
/// frame without segments, and the map after it is the one that it keeps.
pub fn segments_are_kept(tables: &Tables, header: &Header, columns: usize, rows: usize)
    requires { header.now.segmentation.updates_map ≡ false }
    ensures segments { (before : Option (List ℕ)) → map (λ macroblock. macroblock.segment) (modes_of tables.now header.now columns rows before).records ≡ map (λ place. if header.now.segmentation.is_enabled then kept_segment header.now.is_key before place else 0) (range_with_len 0 (columns * rows)) }
    ensures following { (before : Option (List ℕ)) → (modes_of tables.now header.now columns rows before).segment_map ≡ kept_map header.now.is_key (columns * rows) before }
{}

/// In a key frame the 16 sub block modes are DC if luma is predicted as a whole, and no macroblock
/// has vectors. If the frame does not update the segment map, the map after it is zeros, whatever
/// the map before it is.
pub fn records_have_key_shape(tables: &Tables, header: &Header, columns: usize, rows: usize)
    requires key { IsTrue header.now.is_key }
    requires kept { header.now.segmentation.updates_map ≡ false }
    ensures shape { (map : Option (List ℕ)) → All HasKeyShape (modes_of tables.now header.now columns rows map).records }
    ensures map { (map : Option (List ℕ)) → (modes_of tables.now header.now columns rows map).segment_map ≡ replicate (columns * rows) 0 }
{}

/// If only zeros follow the header of a key frame, every macroblock has sub blocks, and all modes
/// are DC and all segments 0, whatever the tables and the probabilities are.
pub fn zeros_are_dc(tables: &Tables, header: &Header, columns: usize, rows: usize)
    requires key { IsTrue header.now.is_key }
    requires zeros { ReadsZeros header.now.reader }
    ensures { (map : Option (List ℕ)) → (modes_of tables.now header.now columns rows map).records ≡ replicate (columns * rows) dc_record }
{}

/// The record of each macroblock, and all records of a frame, are chains of reads, so RFC 6386's
/// reader reads the same modes.
pub fn records_are_chains()
    ensures each { RecordsAreChains }
    ensures all { FramesAreChains }
{}

/// The split that the start of a record says is that of the whole record: a macroblock has one if
/// its mode is `mv_split`, and then each of its blocks has the vector of the block at which its part
/// starts. RFC 6386's reader reads the same splits.
pub fn splits_are_of_records()
    ensures same { SplitsAreOfRecords }
    ensures chains { SplitsAreChains }
{}

/// The bits of a record are those that its chain of reads takes in, and the bits of all records add
/// up to those that they take of the first partition after its header.
pub fn record_bits_add_up()
    ensures each { BitsAreTakenIn }
    ensures all { BitsAddUp }
{}
