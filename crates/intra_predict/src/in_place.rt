//! Whole blocks that are predicted in place: among the samples of a plane, from the samples around
//! them there.

ghost use Rattle.std.specs.Prelude.{◌≡◌, ℕ, ◌+◌, ◌-◌, ◌*◌, ◌<◌, ◌≤◌, ◌++◌, length, map, sum, slice_index, slice_range};
ghost use Rattle.std.specs.List.{range_with_len};
ghost use Rattle.intra_predict.specs.InPlace.{start_of, HoldsBlock, above_among, left_among, corner_among, whole_among, IsBlockFrom};
ghost use Rattle.intra_predict.specs.Means.{mean_of, gradient as gradient_of};
ghost use Rattle.intra_predict.specs.WholeSample.{side_of, inside, above_at, left_at};

use crate::corners::Corner;
use crate::lanes::{clamped_rests, clamped_sums, fill_rows, load, store, sum_of};
use crate::modes::{BlockSize, WholeMode};
use crate::whole_blocks::{ABOVE_FRAME, LEFT_OF_FRAME, mean_of_sum};
use std::simd::Simd;

/// Predicts a whole block among the samples of a plane, from the samples around it there (RFC 6386,
/// section 12.2).
///
/// `samples` starts with the first row of the frame. The block begins at `corner`, at most 16,384
/// rows below the top, in rows at most 16,512 samples apart. In row 0 the samples above it are
/// outside the frame, and in column 0 the samples to its left. Every other sample is unchanged.
#[inline(always)]
pub fn whole_in_place(mode: WholeMode, size: BlockSize, samples: &mut [u8], corner: Corner)
    requires { HoldsBlock corner (side_of size) (length samples.old) }
    ensures { IsBlockFrom (whole_among mode samples.old corner (side_of size)) (start_of corner) (side_of size) (side_of size) corner.across samples.old samples.new }
{
    match size {
        BlockSize::Sixteen => predict::<16>(mode, samples, corner),
        BlockSize::Eight => predict::<8>(mode, samples, corner),
    }
}

/// Predicts a block of `N` by `N` samples, in lanes of a row each.
#[inline(always)]
fn predict<const N: usize>(mode: WholeMode, samples: &mut [u8], corner: Corner)
    requires lanes { (0 < N) × (N ≤ 16) }
    requires block { HoldsBlock corner N (length samples.old) }
    ensures { IsBlockFrom (whole_among mode samples.old corner N) (start_of corner) N N corner.across samples.old samples.new }
{
    match mode {
        WholeMode::Dc => {
            let mean = mean_around::<N>(samples, corner);
            fill_block(Simd::<u8, N>::splat(mean), samples, corner);
        }
        WholeMode::V => {
            let line = row_above::<N>(samples, corner);
            fill_block(line, samples, corner);
        }
        WholeMode::H => fill_from_left::<N>(samples, corner),
        WholeMode::Tm => fill_by_gradients::<N>(samples, corner),
    }
}

/// The row above a block of `N` by `N` samples, 127 each above the frame.
#[inline(always)]
fn row_above<const N: usize>(samples: &[u8], corner: Corner) -> Simd<u8, N>
    requires { HoldsBlock corner N (length samples.now) }
    ensures samples { (column : ℕ) → column < N → slice_index result column ≡ above_at (above_among samples.now corner N) column }
    ensures whole { length result ≡ N }
{
    if corner.row == 0 {
        Simd::<u8, N>::splat(ABOVE_FRAME)
    } else {
        let start = corner.across * corner.row + corner.column;
        load::<N>(samples, start - corner.across)
    }
}

/// The sample to the left of a row of a block, 129 left of the frame.
#[inline(always)]
fn sample_left(samples: &[u8], corner: Corner, row: usize) -> u8
    requires small { (corner.across ≤ 16512) × (corner.row ≤ 16384) × (row < 16) }
    requires room { start_of corner + row * corner.across ≤ length samples.now }
    ensures { (n : ℕ) → row < n → result ≡ left_at (left_among samples.now corner n) row }
{
    if corner.column == 0 {
        LEFT_OF_FRAME
    } else {
        let start = corner.across * corner.row + corner.column;
        samples[start + row * corner.across - 1]
    }
}

/// The sample above the column to the left of a block.
#[inline(always)]
fn sample_diagonal(samples: &[u8], corner: Corner) -> u8
    requires small { (corner.across ≤ 16512) × (corner.row ≤ 16384) }
    requires room { start_of corner ≤ length samples.now }
    ensures { result ≡ corner_among samples.now corner }
{
    if corner.row == 0 {
        ABOVE_FRAME
    } else if corner.column == 0 {
        LEFT_OF_FRAME
    } else {
        let start = corner.across * corner.row + corner.column;
        samples[start - corner.across - 1]
    }
}

/// The mean of the samples above a block of `N` by `N` samples and to its left that are in the
/// frame; 128 with none.
#[inline(always)]
fn mean_around<const N: usize>(samples: &[u8], corner: Corner) -> u8
    requires lanes { (0 < N) × (N ≤ 16) }
    requires block { HoldsBlock corner N (length samples.now) }
    ensures { result ≡ mean_of (inside (above_among samples.now corner N) ++ inside (left_among samples.now corner N)) }
{
    match (corner.row == 0, corner.column == 0) {
        (true, true) => 128,
        (false, true) => mean_of_sum(sum_above::<N>(samples, corner), N),
        (true, false) => mean_of_sum(sum_left::<N>(samples, corner), N),
        (false, false) => {
            let above = sum_above::<N>(samples, corner);
            let left = sum_left::<N>(samples, corner);
            mean_of_sum(above + left, 2 * N)
        }
    }
}

/// The sum of the `N` samples above a block that is below the first row of the frame.
#[inline(always)]
fn sum_above<const N: usize>(samples: &[u8], corner: Corner) -> u16
    requires lanes { N ≤ 16 }
    requires inside { 0 < corner.row }
    requires block { HoldsBlock corner N (length samples.now) }
    ensures value { result ≡ sum (slice_range samples.now (start_of corner - corner.across) (start_of corner - corner.across + N)) }
    ensures bound { result ≤ 255 * N }
{
    let first = corner.across * corner.row + corner.column - corner.across;
    sum_of::<N>(&samples[first..first + N])
}

/// The sum of the `N` samples to the left of a block that is right of the first column of the frame.
#[inline(always)]
fn sum_left<const N: usize>(samples: &[u8], corner: Corner) -> u16
    requires lanes { N ≤ 16 }
    requires inside { 0 < corner.column }
    requires block { HoldsBlock corner N (length samples.now) }
    ensures value { result ≡ sum (map (λ row. slice_index samples.now (start_of corner + row * corner.across - 1)) (range_with_len 0 N)) }
    ensures bound { result ≤ 255 * N }
{
    let start = corner.across * corner.row + corner.column;
    let mut sum: u16 = 0;
    for row in 0..N {
        sum += u16::from(samples[start + row * corner.across - 1]);
    }
    sum
}

/// Sets each row of a block of `N` by `N` samples to `line`.
#[inline(always)]
fn fill_block<const N: usize>(line: Simd<u8, N>, samples: &mut [u8], corner: Corner)
    requires lanes { (0 < N) × (N ≤ 16) }
    requires block { HoldsBlock corner N (length samples.old) }
    ensures { IsBlockFrom (λ column row. slice_index line.entry column) (start_of corner) N N corner.across samples.old samples.new }
{
    let start = corner.across * corner.row + corner.column;
    fill_rows(line, &mut samples[start..], corner.across);
}

/// Sets each row of a block of `N` by `N` samples to the sample to its left.
#[inline(always)]
#[tactic(auto, using(crate::proofs::Rows::upper_row))]
fn fill_from_left<const N: usize>(samples: &mut [u8], corner: Corner)
    requires lanes { (0 < N) × (N ≤ 16) }
    requires block { HoldsBlock corner N (length samples.old) }
    ensures { IsBlockFrom (λ column row. left_at (left_among samples.old corner N) row) (start_of corner) N N corner.across samples.old samples.new }
{
    let start = corner.across * corner.row + corner.column;
    for row in 0..N {
        let left = sample_left(samples, corner, row);
        let line = Simd::<u8, N>::splat(left);
        store(samples, start + row * corner.across, line);
    }
}

/// Sets each sample of a block of `N` by `N` samples to its gradient, in lanes of 8 bits like
/// `fill_gradients`.
#[inline(always)]
#[tactic(auto, using(crate::proofs::Rows::upper_row))]
fn fill_by_gradients<const N: usize>(samples: &mut [u8], corner: Corner)
    requires lanes { (0 < N) × (N ≤ 16) }
    requires block { HoldsBlock corner N (length samples.old) }
    ensures { IsBlockFrom (λ column row. gradient_of (left_at (left_among samples.old corner N) row) (above_at (above_among samples.old corner N) column) (corner_among samples.old corner)) (start_of corner) N N corner.across samples.old samples.new }
{
    let above = row_above::<N>(samples, corner);
    let diagonal = Simd::<u8, N>::splat(sample_diagonal(samples, corner));
    let more = clamped_rests(above, diagonal);
    let less = clamped_rests(diagonal, above);
    let start = corner.across * corner.row + corner.column;
    for row in 0..N {
        let left = Simd::<u8, N>::splat(sample_left(samples, corner, row));
        let line = clamped_rests(clamped_sums(left, more), less);
        store(samples, start + row * corner.across, line);
    }
}
