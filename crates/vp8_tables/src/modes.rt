//! The trees and fixed probabilities of prediction modes (RFC 6386, sections 8.2, 11.2 to 11.4
//! and 16.1 to 16.4).
//!
//! A tree is a list of pairs of entries, one pair for each node: an entry above 0 is the index of a
//! later pair, any other is a leaf, stored as its negative (section 8.1).

/// The tree of the segment map. Leaves: the segments 0 to 3 (RFC 6386, section 10).
pub const SEGMENT_TREE: [i8; 6] = [2, 4, 0, -1, -2, -3];

/// The tree of a key frame's luma modes. Leaves: 0 `DC_PRED`, 1 `V_PRED`, 2 `H_PRED`,
/// 3 `TM_PRED`, 4 `B_PRED` (RFC 6386, section 11.2).
pub const KEY_Y_TREE: [i8; 8] = [-4, 2, 4, 6, 0, -1, -2, -3];

/// The probabilities of `KEY_Y_TREE`, one for each node (RFC 6386, section 11.2).
pub const KEY_Y_PROBABILITIES: [u8; 4] = [145, 156, 163, 128];

/// The tree of chroma modes. Leaves as in `KEY_Y_TREE`, without `B_PRED` (RFC 6386, section 11.4).
pub const UV_TREE: [i8; 6] = [0, 2, -1, 4, -2, -3];

/// The probabilities of `UV_TREE` in a key frame, one for each node (RFC 6386, section 11.4).
pub const KEY_UV_PROBABILITIES: [u8; 3] = [142, 114, 183];

/// The tree of sub block modes. Leaves: 0 `B_DC_PRED`, 1 `B_TM_PRED`, 2 `B_VE_PRED`, 3 `B_HE_PRED`,
/// 4 `B_LD_PRED`, 5 `B_RD_PRED`, 6 `B_VR_PRED`, 7 `B_VL_PRED`, 8 `B_HD_PRED`, 9 `B_HU_PRED` (RFC
/// 6386, section 11.2). A key frame's probabilities are `Tables::key_sub_nodes`.
pub const SUB_TREE: [i8; 18] = [
    0, 2, -1, 4, -2, 6, 8, 12, -3, 10, -5, -6, -4, 14, -7, 16, -8, -9,
];

/// The probabilities of luma modes with which inter frames begin after a key frame (RFC 6386,
/// section 16.2).
pub const DEFAULT_Y_PROBABILITIES: [u8; 4] = [112, 86, 140, 37];

/// The probabilities of chroma modes with which inter frames begin after a key frame (RFC 6386,
/// section 16.2).
pub const DEFAULT_UV_PROBABILITIES: [u8; 3] = [162, 101, 204];

/// The tree of an inter frame's luma modes. Leaves as in `KEY_Y_TREE` (RFC 6386, section 16.1).
pub const INTER_Y_TREE: [i8; 8] = [0, 2, 4, 6, -1, -2, -3, -4];

/// The probabilities of `SUB_TREE` in an inter frame, one for each node, whatever is above and to
/// the left (RFC 6386, section 16.1).
pub const INTER_SUB_PROBABILITIES: [u8; 9] = [120, 90, 79, 133, 87, 85, 80, 111, 151];

/// The tree of the vector modes of a macroblock that is predicted from a reference. Leaves: 0
/// `mv_zero`, 1 `mv_nearest`, 2 `mv_near`, 3 `mv_new`, 4 `mv_split` (RFC 6386, section 16.3).
pub const VECTOR_MODE_TREE: [i8; 8] = [0, 2, -1, 4, -2, 6, -3, -4];

/// The probabilities of `VECTOR_MODE_TREE`: column i is for its node i, in the row of the near
/// vectors' count for it, 0 to 5 (RFC 6386, section 16.3).
pub const VECTOR_MODE_PROBABILITIES: [[u8; 4]; 6] = [
    [7, 1, 1, 143],
    [14, 18, 14, 107],
    [135, 64, 57, 68],
    [60, 56, 128, 65],
    [159, 134, 128, 34],
    [234, 188, 128, 28],
];

/// The tree of the ways to split a macroblock. Leaves: 0 top and bottom half, 1 left and right
/// half, 2 quarters, 3 sixteenths (RFC 6386, section 16.4).
pub const SPLIT_TREE: [i8; 6] = [-3, 2, -2, 4, 0, -1];

/// The probabilities of `SPLIT_TREE`, one for each node (RFC 6386, section 16.4).
pub const SPLIT_PROBABILITIES: [u8; 3] = [110, 111, 150];

/// For each way to split a macroblock, numbered as the leaves of `SPLIT_TREE`, the first block, in
/// raster order, of the part that each of its 16 blocks is in (RFC 6386, section 16.4).
pub const SPLIT_STARTS: [[u8; 16]; 4] = [
    [0, 0, 0, 0, 0, 0, 0, 0, 8, 8, 8, 8, 8, 8, 8, 8],
    [0, 0, 2, 2, 0, 0, 2, 2, 0, 0, 2, 2, 0, 0, 2, 2],
    [0, 0, 2, 2, 0, 0, 2, 2, 8, 8, 10, 10, 8, 8, 10, 10],
    [0, 1, 2, 3, 4, 5, 6, 7, 8, 9, 10, 11, 12, 13, 14, 15],
];

/// The tree of the vector of one part of a split macroblock. Leaves: 0 the vector of the block to
/// the left, 1 of the block above, 2 zero, 3 a new one (RFC 6386, section 16.4).
pub const PART_VECTOR_TREE: [i8; 6] = [0, 2, -1, 4, -2, -3];

/// The probabilities of `PART_VECTOR_TREE`, one for each node, in five rows by the vectors to the
/// left and above: any two, left zero, above zero, both the same, both zero (RFC 6386, section
/// 16.4).
pub const PART_VECTOR_PROBABILITIES: [[u8; 3]; 5] = [
    [147, 136, 18],
    [106, 145, 1],
    [179, 121, 1],
    [223, 1, 34],
    [208, 1, 1],
];
