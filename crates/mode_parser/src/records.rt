use crate::vectors::Vector;
use frame_header::Reference;
use intra_predict::{SubMode, WholeMode};

/// The source of the vectors of a macroblock that is predicted from a reference (RFC 6386, section
/// 16.3).
#[derive(Clone, Copy, Debug, PartialEq, Eq)]
pub enum VectorMode {
    /// `mv_zero`: all are zero.
    Zero,
    /// `mv_nearest`: all are the nearest of its near vectors.
    Nearest,
    /// `mv_near`: all are the second of its near vectors.
    Near,
    /// `mv_new`: all are its best near vector plus a vector that is read.
    New,
    /// `mv_split`: each of its parts has a vector of its own.
    Split,
}

/// The parts of a macroblock of `mv_split`, each of which has a vector of its own (RFC 6386, section
/// 16.4).
#[derive(Clone, Copy, Debug, PartialEq, Eq)]
pub enum Split {
    /// `mv_top_bottom`: an upper and a lower half.
    TopBottom,
    /// `mv_left_right`: a left and a right half.
    LeftRight,
    /// `mv_quarters`: four quarters.
    Quarters,
    /// `MV_16`: each of its 16 luma blocks.
    Sixteenths,
}

/// How the luma of a macroblock is predicted (RFC 6386, sections 8.2 and 16).
#[derive(Clone, Copy, Debug, PartialEq, Eq)]
pub enum YMode {
    /// As one block of 16 by 16 samples.
    Whole(WholeMode),
    /// `B_PRED`: each of its 16 sub blocks has a mode of its own.
    B,
    /// From a reference, by vectors of this mode. Chroma is predicted in the same way.
    Inter(Reference, VectorMode),
}

/// How a macroblock is predicted.
#[derive(Clone, Copy, Debug, PartialEq, Eq)]
pub struct MbMode {
    /// The segment, 0 to 3; 0 if the frame has no segments (RFC 6386, section 9.3).
    pub segment: u8,
    /// No coefficients are read for it (RFC 6386, section 11.1).
    pub is_skipped: bool,
    /// How its luma is predicted.
    pub y_mode: YMode,
    /// The modes of its luma sub blocks in raster order; all DC if `y_mode` is not `B`.
    pub sub_modes: [SubMode; 16],
    /// How each of its chroma blocks is predicted; DC if `y_mode` is `Inter`.
    pub uv_mode: WholeMode,
    /// The vectors of its luma blocks in raster order; all zero if `y_mode` is not `Inter`.
    pub vectors: [Vector; 16],
}
