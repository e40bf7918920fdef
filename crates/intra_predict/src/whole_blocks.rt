ghost use Rattle.std.specs.Prelude.{◌≡◌, ◌+◌, ◌-◌, ◌*◌, ◌/◌, ◌≤◌, ◌<◌, length, ℕ, ◌++◌, slice_index};
ghost use Rattle.std.specs.Option.{option_copied, ForSome};
ghost use Rattle.intra_predict.specs.Blocks.{IsBlockAmong};
ghost use Rattle.intra_predict.specs.Means.{mean_of};
ghost use Rattle.intra_predict.specs.WholeSample.{side_of, inside, above_at, left_at, whole_sample};

use crate::lanes::{fill_columns, fill_gradients, fill_rows, sum_of};
use crate::modes::{BlockSize, WholeMode};
use std::simd::Simd;

/// The samples above a block at the top of the frame.
pub const ABOVE_FRAME: u8 = 127;

/// The samples to the left of a block at the left edge of the frame.
pub const LEFT_OF_FRAME: u8 = 129;

/// Predicts a whole block from the samples round it into `out` (RFC 6386, section 12.2).
///
/// `above` is the row above the block and `left` the column to its left from the top, as many
/// samples as the block has in a row; `None` is a side outside the frame. `corner` is the sample
/// above the left column. The block begins at `out[0]`, and its rows are `stride` samples apart: at
/// least its side, and at most 16,384. The samples between its rows and below it are unchanged.
#[inline]
pub fn whole(
    mode: WholeMode,
    size: BlockSize,
    above: Option<&[u8]>,
    left: Option<&[u8]>,
    corner: u8,
    out: &mut [u8],
    stride: usize,
)
    requires above { ForSome above (λ samples. length samples.now ≡ side_of size) }
    requires left { ForSome left (λ samples. length samples.now ≡ side_of size) }
    requires stride { (side_of size ≤ stride) × (stride ≤ 16512) }
    requires room { (side_of size - 1) * stride + side_of size ≤ length out.old }
    ensures { IsBlockAmong (whole_sample mode (option_copied above.entry) (option_copied left.entry) corner) (side_of size) (side_of size) stride out.old out.new }
{
    match size {
        BlockSize::Sixteen => predict::<16>(mode, above, left, corner, out, stride),
        BlockSize::Eight => predict::<8>(mode, above, left, corner, out, stride),
    }
}

/// Predicts a block of `N` by `N` samples in rows `stride` apart, in lanes of a row each.
#[inline]
fn predict<const N: usize>(
    mode: WholeMode,
    above: Option<&[u8]>,
    left: Option<&[u8]>,
    corner: u8,
    out: &mut [u8],
    stride: usize,
)
    requires lanes { (0 < N) × (N ≤ 16) }
    requires above { ForSome above (λ samples. length samples.now ≡ N) }
    requires left { ForSome left (λ samples. length samples.now ≡ N) }
    requires stride { (N ≤ stride) × (stride ≤ 16512) }
    requires room { (N - 1) * stride + N ≤ length out.old }
    ensures { IsBlockAmong (whole_sample mode (option_copied above.entry) (option_copied left.entry) corner) N N stride out.old out.new }
{
    match mode {
        WholeMode::Dc => {
            let mean = mean_inside::<N>(above, left);
            fill_rows(Simd::<u8, N>::splat(mean), out, stride);
        }
        WholeMode::V => fill_rows(row_above::<N>(above), out, stride),
        WholeMode::H => fill_columns::<N>(column_left::<N>(left), out, stride),
        WholeMode::Tm => {
            let (row, column) = (row_above::<N>(above), column_left::<N>(left));
            fill_gradients(row, column, corner, out, stride);
        }
    }
}

/// The row above a block of `N` by `N` samples, 127 each above the frame.
#[inline]
fn row_above<const N: usize>(above: Option<&[u8]>) -> Simd<u8, N>
    requires inside { ForSome above (λ samples. length samples.now ≡ N) }
    ensures { (column : ℕ) → column < N → slice_index result column ≡ above_at (option_copied above.entry) column }
{
    match above {
        Some(above) => Simd::<u8, N>::from_slice(above),
        None => Simd::<u8, N>::splat(ABOVE_FRAME),
    }
}

/// The column to the left of a block of `N` by `N` samples, 129 each left of the frame.
#[inline]
fn column_left<const N: usize>(left: Option<&[u8]>) -> Simd<u8, N>
    requires inside { ForSome left (λ samples. length samples.now ≡ N) }
    ensures { (row : ℕ) → row < N → slice_index result row ≡ left_at (option_copied left.entry) row }
{
    match left {
        Some(left) => Simd::<u8, N>::from_slice(left),
        None => Simd::<u8, N>::splat(LEFT_OF_FRAME),
    }
}

/// The mean of the sides that are inside the frame, `N` samples each; 128 with none.
#[inline]
fn mean_inside<const N: usize>(above: Option<&[u8]>, left: Option<&[u8]>) -> u8
    requires lanes { (0 < N) × (N ≤ 16) }
    requires above { ForSome above (λ samples. length samples.now ≡ N) }
    requires left { ForSome left (λ samples. length samples.now ≡ N) }
    ensures { result ≡ mean_of (inside (option_copied above.entry) ++ inside (option_copied left.entry)) }
{
    match (above, left) {
        (None, None) => 128,
        (Some(above), None) => mean_of_sum(sum_of::<N>(above), N),
        (None, Some(left)) => mean_of_sum(sum_of::<N>(left), N),
        (Some(above), Some(left)) => mean_of_sum(sum_of::<N>(above) + sum_of::<N>(left), 2 * N),
    }
}

/// The mean of `count` samples, 1 to 32, rounded.
#[inline]
pub fn mean_of_sum(sum: u16, count: usize) -> u8
    requires some { (0 < count) × (count ≤ 32) }
    requires bound { sum ≤ 255 * count }
    ensures { result ≡ (sum + count / 2) / count }
{
    let count = count as u16;
    ((sum + count / 2) / count) as u8
}
