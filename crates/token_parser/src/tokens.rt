//! The tokens of a macroblock.

/// The coefficients of a macroblock, and the flags from which its neighbours have their contexts.
///
/// Blocks are numbered 0 to 15 for luma, 16 to 19 for U, 20 to 23 for V, each in raster order, and
/// 24 for Y2. Flags are for columns above and rows to the left: 0 to 3 for luma, 4 and 5 for U, 6
/// and 7 for V, 8 for Y2.
#[derive(Clone, Copy, Debug, PartialEq, Eq)]
pub struct Tokens {
    /// Whether the block above each column has a token; `false` outside the frame. The caller
    /// stores them for each column of macroblocks.
    pub above: [bool; 9],
    /// The same for the block to the left of each row.
    pub left: [bool; 9],
    /// The coefficients of each block, before dequantisation, in raster order.
    pub coefficients: [[i16; 16]; 25],
    /// The index after the last token of each block (eob), in the order of tokens; if a block that
    /// was read has no token, the index of its first, which is 1 for luma after Y2 and otherwise 0.
    pub ends: [u8; 25],
}
