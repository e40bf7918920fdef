ghost use Rattle.std.specs.Prelude.{◌≡◌, ℕ, ◌+◌, ◌-◌, ◌*◌, ◌<◌, ◌≤◌, length, sum, min, slice_index};
ghost use Rattle.std.specs.Simd.Lanes.{put_chunk, zip2};
ghost use Rattle.intra_predict.specs.Blocks.{IsBlockAmong};
ghost use Rattle.intra_predict.specs.Means.{gradient as gradient_of};

use std::simd::Simd;
use std::simd::prelude::*;

/// The `N` samples starting at `at`.
#[inline(always)]
pub fn load<const N: usize>(samples: &[u8], at: usize) -> Simd<u8, N>
    requires room { at + N ≤ length samples.now }
    ensures samples { (column : ℕ) → column < N → slice_index result column ≡ slice_index samples.now (at + column) }
    ensures whole { length result ≡ N }
{
    Simd::<u8, N>::from_slice(&samples[at..])
}

/// Stores `N` samples starting at `at`.
#[inline(always)]
pub fn store<const N: usize>(samples: &mut [u8], at: usize, row: Simd<u8, N>)
    requires room { at + N ≤ length samples.old }
    ensures value { samples.new ≡ put_chunk at samples.old row.entry }
    ensures whole { length row.entry ≡ N }
{
    row.copy_to_slice(&mut samples[at..]);
}

/// The sum of `N` samples, in lanes of 16 bits.
#[inline]
pub fn sum_of<const N: usize>(samples: &[u8]) -> u16
    requires lanes { N ≤ 16 }
    requires whole { length samples.now ≡ N }
    ensures value { result ≡ sum samples.now }
    ensures bound { result ≤ 255 * N }
{
    Simd::<u8, N>::from_slice(samples)
        .cast::<u16>()
        .reduce_sum()
}

/// Sets each row of a block of `N` by `N` samples, in rows `stride` apart, to `line`.
#[inline]
#[tactic(auto, using(crate::proofs::Rows::upper_row))]
pub fn fill_rows<const N: usize>(line: Simd<u8, N>, out: &mut [u8], stride: usize)
    requires lanes { N ≤ 16 }
    requires stride { (N ≤ stride) × (stride ≤ 16512) }
    requires room { (N - 1) * stride + N ≤ length out.old }
    ensures { IsBlockAmong (λ column row. slice_index line.entry column) N N stride out.old out.new }
{
    for row in 0..N {
        line.copy_to_slice(&mut out[row * stride..]);
    }
}

/// Sets each row of a block of `N` by `N` samples, in rows `stride` apart, to the sample to its left.
#[inline]
#[tactic(auto, using(crate::proofs::Rows::upper_row))]
pub fn fill_columns<const N: usize>(left: Simd<u8, N>, out: &mut [u8], stride: usize)
    requires lanes { N ≤ 16 }
    requires stride { (N ≤ stride) × (stride ≤ 16512) }
    requires room { (N - 1) * stride + N ≤ length out.old }
    ensures { IsBlockAmong (λ column row. slice_index left.entry row) N N stride out.old out.new }
{
    let left = left.to_array();
    for row in 0..N {
        Simd::<u8, N>::splat(left[row]).copy_to_slice(&mut out[row * stride..]);
    }
}

/// The lanes of both added, clamped at 255.
#[inline]
pub fn clamped_sums<const N: usize>(first: Simd<u8, N>, second: Simd<u8, N>) -> Simd<u8, N>
    ensures { result ≡ zip2 (λ a b. min (a + b) 255) first.entry second.entry }
{
    first.saturating_add(second)
}

/// The lanes of `first` less the lanes of `second`, clamped at 0.
#[inline]
pub fn clamped_rests<const N: usize>(first: Simd<u8, N>, second: Simd<u8, N>) -> Simd<u8, N>
    ensures { result ≡ zip2 (λ a b. a - b) first.entry second.entry }
{
    first.saturating_sub(second)
}

/// Sets each sample of a block of `N` by `N` samples, in rows `stride` apart, to its gradient.
///
/// The samples above are `more` above the corner, or `less` below it, and a row differs from the
/// sample to its left by exactly that: no sum needs more than 8 bits.
#[inline]
#[tactic(auto, using(crate::proofs::Rows::upper_row))]
pub fn fill_gradients<const N: usize>(
    above: Simd<u8, N>,
    left: Simd<u8, N>,
    corner: u8,
    out: &mut [u8],
    stride: usize,
)
    requires lanes { N ≤ 16 }
    requires stride { (N ≤ stride) × (stride ≤ 16512) }
    requires room { (N - 1) * stride + N ≤ length out.old }
    ensures { IsBlockAmong (λ column row. gradient_of (slice_index left.entry row) (slice_index above.entry column) corner) N N stride out.old out.new }
{
    let left = left.to_array();
    let corner = Simd::<u8, N>::splat(corner);
    let more = clamped_rests(above, corner);
    let less = clamped_rests(corner, above);
    for row in 0..N {
        let moved = clamped_rests(clamped_sums(Simd::<u8, N>::splat(left[row]), more), less);
        moved.copy_to_slice(&mut out[row * stride..]);
    }
}
