/// The upper left corner of a block in the samples of a plane, whose rows start `across` samples
/// apart.
#[derive(Clone, Copy, Debug, PartialEq, Eq)]
pub struct Corner {
    /// The distance from a row of the plane to the next one, in samples.
    pub across: usize,
    /// The column of the block's first sample, counted from 0 at the left edge of the frame.
    pub column: usize,
    /// The row of that sample, counted from 0 at the top of the frame.
    pub row: usize,
}
