//! Blocks next to each other that have only a first coefficient each: a row of their samples is
//! changed at a time (RFC 6386, sections 14.3 and 14.5).

ghost use Rattle.std.specs.Prelude.{◌≡◌, ℕ, ◌⊎◌, ◌+◌, ◌-◌, ◌*◌, ◌<◌, ◌≤◌, length, map, min, neg_ℤ, pos, slice_index, slice_index_or};
ghost use Rattle.std.specs.List.{range_with_len};
ghost use Rattle.std.specs.Simd.Lanes.{zip2};
ghost use Rattle.vp8_tables.specs.Bounds.{clamped_sample};
ghost use Rattle.transforms.specs.Transforms.{eighth as eighth_of};
ghost use Rattle.transforms.specs.Residuals.{IsAdded, firsts_residual};

use crate::dct::eighth;
use std::simd::prelude::*;
use std::simd::{Simd, i16x4, u8x4};

/// The lanes of both added, clamped at 255.
#[inline(always)]
fn clamped_sums<const N: usize>(first: Simd<u8, N>, second: Simd<u8, N>) -> Simd<u8, N>
    ensures { result ≡ zip2 (λ a b. min (a + b) 255) first.entry second.entry }
{
    first.saturating_add(second)
}

/// The lanes of `first` less the lanes of `second`, clamped at 0.
#[inline(always)]
fn clamped_rests<const N: usize>(first: Simd<u8, N>, second: Simd<u8, N>) -> Simd<u8, N>
    ensures { result ≡ zip2 (λ a b. a - b) first.entry second.entry }
{
    first.saturating_sub(second)
}

/// The residuals of four blocks with these first coefficients: of each the amount that it adds to a
/// sample, and the amount that it subtracts, clamped to 0 to 255.
#[inline(always)]
fn parts(firsts: [i16; 4]) -> (u8x4, u8x4)
    ensures more { result.0 ≡ map (λ k. clamped_sample (eighth_of (slice_index_or firsts k (pos 0)))) (range_with_len 0 4) }
    ensures less { result.1 ≡ map (λ k. clamped_sample (neg_ℤ (eighth_of (slice_index_or firsts k (pos 0))))) (range_with_len 0 4) }
{
    let residuals = i16x4::from_array([
        eighth(firsts[0]),
        eighth(firsts[1]),
        eighth(firsts[2]),
        eighth(firsts[3]),
    ]);
    let (least, most) = (i16x4::splat(0), i16x4::splat(255));
    let more = residuals.simd_clamp(least, most).cast::<u8>();
    let less = (least - residuals).simd_clamp(least, most).cast::<u8>();
    (more, less)
}

/// Adds `more` to each of the four rows of `N` samples, `stride` apart, and then subtracts `less`.
/// Both clamp.
#[inline(always)]
fn move_rows<const N: usize>(
    more: Simd<u8, N>,
    less: Simd<u8, N>,
    samples: &mut [u8],
    stride: usize,
)
    requires lanes { N ≤ 16 }
    requires stride { (N ≤ stride) × (stride ≤ 16512) }
    requires room { 3 * stride + N ≤ length samples.old }
    ensures whole { length samples.new ≡ length samples.old }
    ensures each { (column row : ℕ) → column < N → row < 4 → slice_index samples.new (row * stride + column) ≡ min (slice_index samples.old (row * stride + column) + slice_index more.entry column) 255 - slice_index less.entry column }
    ensures others { (column row : ℕ) → column < stride → (N ≤ column) ⊎ (4 ≤ row) → slice_index samples.new (row * stride + column) ≡ slice_index samples.old (row * stride + column) }
{
    for row in 0..4 {
        let before = Simd::<u8, N>::from_slice(&samples[row * stride..]);
        let after = clamped_rests(clamped_sums(before, more), less);
        after.copy_to_slice(&mut samples[row * stride..]);
    }
}

/// The same as `dct_add_first` for four blocks next to each other with these first coefficients, in
/// 16 columns (RFC 6386, sections 14.3 and 14.5).
#[inline]
pub fn dct_add_four_firsts(firsts: [i16; 4], samples: &mut [u8], stride: usize)
    requires stride { (16 ≤ stride) × (stride ≤ 16512) }
    requires room { 3 * stride + 16 ≤ length samples.old }
    ensures { IsAdded (firsts_residual firsts) 16 stride samples.old samples.new }
{
    if firsts[0] == 0 && firsts[1] == 0 && firsts[2] == 0 && firsts[3] == 0 {
        return;
    }
    let (more, less) = parts([firsts[0], firsts[1], firsts[2], firsts[3]]);
    let more = more.swizzle([0, 0, 0, 0, 1, 1, 1, 1, 2, 2, 2, 2, 3, 3, 3, 3]);
    let less = less.swizzle([0, 0, 0, 0, 1, 1, 1, 1, 2, 2, 2, 2, 3, 3, 3, 3]);
    move_rows(more, less, samples, stride);
}

/// The same as `dct_add_first` for two blocks next to each other with these first coefficients, in
/// 8 columns (RFC 6386, sections 14.3 and 14.5).
#[inline]
pub fn dct_add_two_firsts(firsts: [i16; 2], samples: &mut [u8], stride: usize)
    requires stride { (8 ≤ stride) × (stride ≤ 16512) }
    requires room { 3 * stride + 8 ≤ length samples.old }
    ensures { IsAdded (firsts_residual firsts) 8 stride samples.old samples.new }
{
    if firsts[0] == 0 && firsts[1] == 0 {
        return;
    }
    let (more, less) = parts([firsts[0], firsts[1], 0, 0]);
    let more = more.swizzle([0, 0, 0, 0, 1, 1, 1, 1]);
    let less = less.swizzle([0, 0, 0, 0, 1, 1, 1, 1]);
    move_rows(more, less, samples, stride);
}
