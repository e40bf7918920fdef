use crate::kinds::Kind;
use pixel_planes::Plane;

/// What a block is predicted from: a reference plane, by a vector from the position of the block.
///
/// Outside the plane its edges repeat.
#[derive(Clone, Copy)]
pub struct Source<'a> {
    /// The reference plane.
    pub plane: &'a Plane,
    /// The column of the first sample of the block. It may be any number.
    pub x: i32,
    /// The row of that sample. It may be any number.
    pub y: i32,
    /// How far to the right of the block and how far below it the samples lie, in eighths of a
    /// sample. Both may be any numbers.
    pub vector: (i32, i32),
    /// The filters between whole samples.
    pub kind: Kind,
}

/// A reference plane, and the filters between its samples.
#[derive(Clone, Copy)]
pub struct Reference<'a> {
    pub plane: &'a Plane,
    pub kind: Kind,
}

/// The place of a block among the samples of a plane: its first sample is in column `x` of row `y`.
#[derive(Clone, Copy)]
pub struct BlockPosition {
    pub x: i32,
    pub y: i32,
}

/// A source whose vector points less than a sample to the right and down: its whole samples are
/// added to the position, so it needs 64 bits.
#[derive(Clone, Copy)]
pub struct NearSource<'a> {
    pub plane: &'a Plane,
    pub x: i64,
    pub y: i64,
    pub kind: Kind,
    /// Eighths of a sample to the right, 0 to 7.
    pub right: usize,
    /// Eighths of a sample down, 0 to 7.
    pub below: usize,
}
