//! The positions of the blocks of a macroblock.

/// The position of a block: its kind (RFC 6386, section 13.3), the index of its first token, its
/// number, and the numbers of the flags above it and to its left.
#[derive(Clone, Copy)]
pub struct BlockPosition {
    pub kind: usize,
    pub first: usize,
    pub index: usize,
    pub above: usize,
    pub left: usize,
}
