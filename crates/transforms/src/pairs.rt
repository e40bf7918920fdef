//! The inverse DCT of two blocks next to each other, in lanes of 16 bits if that is exact (RFC
//! 6386, section 14.3).

ghost use Rattle.std.specs.Prelude.{◌≡◌, ℕ, ◌+◌, ◌*◌, ◌<◌, ◌≤◌, IsTrue, length, map, pos, slice_index_or};
ghost use Rattle.vp8_tables.specs.Bounds.{IsWithin};
ghost use Rattle.transforms.specs.Transforms.{by_cosine, by_sine, reduced};
ghost use Rattle.transforms.specs.Pairs.{pair_row, pair_column, passed_lanes, lanes_of, AreLanes, AreSmall, residual_lanes};
ghost use Rattle.transforms.specs.Residuals.{IsAdded, IsRowAdded, pair_residual};

use crate::dct::{COSINE_LESS_ONE, SINE_LESS_ONE, dct_add};
use std::simd::prelude::*;
use std::simd::{i16x8, i32x8, u8x8};

/// The coefficients of two blocks: each of the four rows, with a lane of the first block and one of
/// the second alternating.
#[inline(always)]
fn rows(first: &[i16; 16], second: &[i16; 16]) -> (i16x8, i16x8, i16x8, i16x8)
    ensures first { result.0 ≡ pair_row first.now second.now 0 }
    ensures second { result.1 ≡ pair_row first.now second.now 1 }
    ensures third { result.2 ≡ pair_row first.now second.now 2 }
    ensures fourth { result.3 ≡ pair_row first.now second.now 3 }
    ensures lanes { AreLanes result.0 × AreLanes result.1 × AreLanes result.2 × AreLanes result.3 }
{
    let (f, s) = (first, second);
    let f01 = i16x8::from_array([f[0], f[1], f[2], f[3], f[4], f[5], f[6], f[7]]);
    let s01 = i16x8::from_array([s[0], s[1], s[2], s[3], s[4], s[5], s[6], s[7]]);
    let f23 = i16x8::from_array([f[8], f[9], f[10], f[11], f[12], f[13], f[14], f[15]]);
    let s23 = i16x8::from_array([s[8], s[9], s[10], s[11], s[12], s[13], s[14], s[15]]);
    let (row0, row1) = f01.interleave(s01);
    let (row2, row3) = f23.interleave(s23);
    (row0, row1, row2, row3)
}

/// Each lane times the square root of 2 and the sine of pi / 8. Lanes wrap.
#[inline(always)]
fn times_sine(lanes: i16x8) -> i16x8
    requires { AreLanes lanes }
    ensures { result ≡ map (λ x. reduced (by_sine x)) lanes }
{
    let products = lanes.cast::<i32>() * i32x8::splat(SINE_LESS_ONE);
    lanes + (products >> i32x8::splat(16)).cast::<i16>()
}

/// Each lane times the square root of 2 and the cosine of pi / 8. Lanes wrap.
#[inline(always)]
fn times_cosine(lanes: i16x8) -> i16x8
    requires { AreLanes lanes }
    ensures { result ≡ map (λ x. reduced (by_cosine x)) lanes }
{
    let products = lanes.cast::<i32>() * i32x8::splat(COSINE_LESS_ONE);
    lanes + (products >> i32x8::splat(16)).cast::<i16>()
}

/// The results of one pass of the inverse DCT over the four numbers in each lane, which wrap.
#[inline(always)]
fn passed(i0: i16x8, i1: i16x8, i2: i16x8, i3: i16x8) -> (i16x8, i16x8, i16x8, i16x8)
    requires { AreLanes i0 × AreLanes i1 × AreLanes i2 × AreLanes i3 }
    ensures first { result.0 ≡ passed_lanes 0 i0 i1 i2 i3 }
    ensures second { result.1 ≡ passed_lanes 1 i0 i1 i2 i3 }
    ensures third { result.2 ≡ passed_lanes 2 i0 i1 i2 i3 }
    ensures fourth { result.3 ≡ passed_lanes 3 i0 i1 i2 i3 }
{
    let (a, b) = (i0 + i2, i0 - i2);
    let (c, d) = (
        times_sine(i1) - times_cosine(i3),
        times_cosine(i1) + times_sine(i3),
    );
    (a + d, b + c, b - c, a - d)
}

/// Transposes four vectors, two lanes of each at a time.
#[inline(always)]
fn turned(v0: i16x8, v1: i16x8, v2: i16x8, v3: i16x8) -> (i16x8, i16x8, i16x8, i16x8)
    requires { AreLanes v0 × AreLanes v1 × AreLanes v2 × AreLanes v3 }
    ensures first { result.0 ≡ lanes_of 0 1 v0 v1 v2 v3 }
    ensures second { result.1 ≡ lanes_of 2 3 v0 v1 v2 v3 }
    ensures third { result.2 ≡ lanes_of 4 5 v0 v1 v2 v3 }
    ensures fourth { result.3 ≡ lanes_of 6 7 v0 v1 v2 v3 }
{
    let (even0, even1) = v0.interleave(v2);
    let (odd0, odd1) = v1.interleave(v3);
    let (lanes01, lanes23) = even0.interleave(odd0);
    let (lanes45, lanes67) = even1.interleave(odd1);
    (lanes01, lanes23, lanes45, lanes67)
}

/// The coefficients after the first pass: each of the four columns, with its rows in the first block
/// and then those in the second.
#[inline(always)]
fn columns(first: &[i16; 16], second: &[i16; 16]) -> (i16x8, i16x8, i16x8, i16x8)
    ensures first { result.0 ≡ pair_column first.now second.now 0 }
    ensures second { result.1 ≡ pair_column first.now second.now 1 }
    ensures third { result.2 ≡ pair_column first.now second.now 2 }
    ensures fourth { result.3 ≡ pair_column first.now second.now 3 }
{
    let (i0, i1, i2, i3) = rows(first, second);
    let (p0, p1, p2, p3) = passed(i0, i1, i2, i3);
    turned(p0, p1, p2, p3)
}

/// Whether each lane of four vectors lies within -8,192 to 8,191.
#[inline(always)]
fn are_small(v0: i16x8, v1: i16x8, v2: i16x8, v3: i16x8) -> bool
    requires { AreLanes v0 × AreLanes v1 × AreLanes v2 × AreLanes v3 }
    ensures { IsTrue result → AreSmall v0 × AreSmall v1 × AreSmall v2 × AreSmall v3 }
{
    let most = v0.simd_max(v1).simd_max(v2.simd_max(v3));
    let least = v0.simd_min(v1).simd_min(v2.simd_min(v3));
    let far = most.simd_gt(i16x8::splat(8191)) | least.simd_lt(i16x8::splat(-8192));
    !far.any()
}

/// The second pass, over the four columns after the first, of which no sum leaves 16 bits: each of
/// the four rows of residuals, of the first block and then of the second.
#[inline(always)]
fn residuals(i0: i16x8, i1: i16x8, i2: i16x8, i3: i16x8) -> (i16x8, i16x8, i16x8, i16x8)
    requires lanes { AreLanes i0 × AreLanes i1 × AreLanes i2 × AreLanes i3 }
    requires small { AreSmall i0 × AreSmall i1 × AreSmall i2 × AreSmall i3 }
    ensures first { result.0 ≡ residual_lanes 0 i0 i1 i2 i3 }
    ensures second { result.1 ≡ residual_lanes 1 i0 i1 i2 i3 }
    ensures third { result.2 ≡ residual_lanes 2 i0 i1 i2 i3 }
    ensures fourth { result.3 ≡ residual_lanes 3 i0 i1 i2 i3 }
{
    let (q0, q1, q2, q3) = passed(i0 + i16x8::splat(4), i1, i2, i3);
    let three = i16x8::splat(3);
    let (f01, f23, s01, s23) = turned(q0 >> three, q1 >> three, q2 >> three, q3 >> three);
    let row0 = f01.shuffle(s01, [0, 1, 2, 3, 8, 9, 10, 11]);
    let row1 = f01.shuffle(s01, [4, 5, 6, 7, 12, 13, 14, 15]);
    let row2 = f23.shuffle(s23, [0, 1, 2, 3, 8, 9, 10, 11]);
    let row3 = f23.shuffle(s23, [4, 5, 6, 7, 12, 13, 14, 15]);
    (row0, row1, row2, row3)
}

/// Adds a row of residuals to the eight samples starting at `start`, and clamps each sum to 0 to
/// 255.
#[inline(always)]
fn add_eight(samples: &mut [u8], start: usize, residuals: i16x8)
    requires room { start + 8 ≤ length samples.old }
    requires small { (column : ℕ) → column < 8 → IsWithin 16384 (slice_index_or residuals column (pos 0)) }
    ensures { IsRowAdded 8 residuals start samples.old samples.new }
{
    let before = u8x8::from_slice(&samples[start..]);
    let sums = before.cast::<i16>() + residuals;
    let clamped = sums.simd_clamp(i16x8::splat(0), i16x8::splat(255));
    clamped.cast::<u8>().copy_to_slice(&mut samples[start..]);
}

/// The same as `dct_add` for one block, and for the block to the right of it. They are passed by value, so a caller
/// of `dct_add_two` need not store them unless this is called.
#[cold]
#[inline(never)]
fn dct_add_each(first: [i16; 16], second: [i16; 16], samples: &mut [u8], stride: usize)
    requires stride { 8 ≤ stride }
    requires room { 3 * stride + 8 ≤ length samples.old }
    ensures { IsAdded (pair_residual first second) 8 stride samples.old samples.new }
{
    dct_add(&first, samples, stride);
    dct_add(&second, &mut samples[4..], stride);
}

/// The same as `dct_add` for two blocks next to each other, in 8 columns (RFC 6386, sections 14.3
/// and 14.5). It is inlined where the blocks are dequantised, so their coefficients stay in registers.
#[inline(always)]
pub fn dct_add_two(first: &[i16; 16], second: &[i16; 16], samples: &mut [u8], stride: usize)
    requires stride { 8 ≤ stride }
    requires room { 3 * stride + 8 ≤ length samples.old }
    ensures { IsAdded (pair_residual first.now second.now) 8 stride samples.old samples.new }
{
    let (i0, i1, i2, i3) = columns(first, second);
    if !are_small(i0, i1, i2, i3) {
        dct_add_each(*first, *second, samples, stride);
        return;
    }
    let (row0, row1, row2, row3) = residuals(i0, i1, i2, i3);
    add_eight(samples, 0, row0);
    add_eight(samples, stride, row1);
    add_eight(samples, 2 * stride, row2);
    add_eight(samples, 3 * stride, row3);
}
