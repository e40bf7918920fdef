//! The inverse DCT of a block, four of its columns or rows at a time (RFC 6386, section 14.3).

ghost use Rattle.std.specs.Prelude.{◌≡◌, ◌+◌, ◌*◌, ◌≤◌, length, ◌∷◌, map, replicate, pos};
ghost use Rattle.std.specs.List.{range_with_len};
ghost use Rattle.vp8_tables.specs.Bounds.{IsWithin};
ghost use Rattle.transforms.specs.Transforms.{dct_column, eighth, inverse_dct};
ghost use Rattle.transforms.specs.Residuals.{IsAdded};

use crate::blocks::add_row;
use std::simd::prelude::*;
use std::simd::{i16x4, i32x4};

/// The square root of 2 times the sine of pi / 8, minus 1, in 65,536ths: `sinpi8sqrt2` of RFC 6386,
/// 35468, minus 65536.
pub(crate) const SINE_LESS_ONE: i32 = -30068;
/// The square root of 2 times the cosine of pi / 8, minus 1, in 65,536ths: `cospi8sqrt2minus1`.
pub(crate) const COSINE_LESS_ONE: i32 = 20091;

/// The coefficients after the first pass: each of the four columns, with its rows in lanes. Lanes
/// of 16 bits wrap, so each number is reduced to its low 16 bits.
#[inline]
fn columns_passed(coefficients: &[i16; 16]) -> (i16x4, i16x4, i16x4, i16x4)
    ensures first { result.0 ≡ map (dct_column coefficients.now 0) (range_with_len 0 4) }
    ensures second { result.1 ≡ map (dct_column coefficients.now 1) (range_with_len 0 4) }
    ensures third { result.2 ≡ map (dct_column coefficients.now 2) (range_with_len 0 4) }
    ensures fourth { result.3 ≡ map (dct_column coefficients.now 3) (range_with_len 0 4) }
{
    let at = coefficients;
    let i0 = i16x4::from_array([at[0], at[1], at[2], at[3]]);
    let i1 = i16x4::from_array([at[4], at[5], at[6], at[7]]);
    let i2 = i16x4::from_array([at[8], at[9], at[10], at[11]]);
    let i3 = i16x4::from_array([at[12], at[13], at[14], at[15]]);
    let (sine, cosine) = (i32x4::splat(SINE_LESS_ONE), i32x4::splat(COSINE_LESS_ONE));
    let sixteen = i32x4::splat(16);
    let sine1 = i1 + ((i1.cast::<i32>() * sine) >> sixteen).cast::<i16>();
    let sine3 = i3 + ((i3.cast::<i32>() * sine) >> sixteen).cast::<i16>();
    let cosine1 = i1 + ((i1.cast::<i32>() * cosine) >> sixteen).cast::<i16>();
    let cosine3 = i3 + ((i3.cast::<i32>() * cosine) >> sixteen).cast::<i16>();
    let (a, b) = (i0 + i2, i0 - i2);
    let (c, d) = (sine1 - cosine3, cosine1 + sine3);
    let (even0, even1) = (a + d).interleave(b - c);
    let (odd0, odd1) = (b + c).interleave(a - d);
    let (column0, column1) = even0.interleave(odd0);
    let (column2, column3) = even1.interleave(odd1);
    (column0, column1, column2, column3)
}

/// The residuals of a block with these coefficients: each of its four rows.
#[inline]
fn residuals(coefficients: &[i16; 16]) -> ([i16; 4], [i16; 4], [i16; 4], [i16; 4])
    ensures first { result.0 ≡ map (λ column. inverse_dct coefficients.now column 0) (range_with_len 0 4) }
    ensures second { result.1 ≡ map (λ column. inverse_dct coefficients.now column 1) (range_with_len 0 4) }
    ensures third { result.2 ≡ map (λ column. inverse_dct coefficients.now column 2) (range_with_len 0 4) }
    ensures fourth { result.3 ≡ map (λ column. inverse_dct coefficients.now column 3) (range_with_len 0 4) }
{
    let (i0, i1, i2, i3) = columns_passed(coefficients);
    let (i0, i2) = (i0.cast::<i32>(), i2.cast::<i32>());
    let (i1, i3) = (i1.cast::<i32>(), i3.cast::<i32>());
    let (sine, cosine) = (i32x4::splat(SINE_LESS_ONE), i32x4::splat(COSINE_LESS_ONE));
    let sixteen = i32x4::splat(16);
    let sine1 = i1 + ((i1 * sine) >> sixteen);
    let sine3 = i3 + ((i3 * sine) >> sixteen);
    let cosine1 = i1 + ((i1 * cosine) >> sixteen);
    let cosine3 = i3 + ((i3 * cosine) >> sixteen);
    let (a, b) = (i0 + i2, i0 - i2);
    let (c, d) = (sine1 - cosine3, cosine1 + sine3);
    let (half, three) = (i32x4::splat(4), i32x4::splat(3));
    let column0 = ((a + d + half) >> three).cast::<i16>();
    let column1 = ((b + c + half) >> three).cast::<i16>();
    let column2 = ((b - c + half) >> three).cast::<i16>();
    let column3 = ((a - d + half) >> three).cast::<i16>();
    let (even0, even1) = column0.interleave(column2);
    let (odd0, odd1) = column1.interleave(column3);
    let (row0, row1) = even0.interleave(odd0);
    let (row2, row3) = even1.interleave(odd1);
    (
        row0.to_array(),
        row1.to_array(),
        row2.to_array(),
        row3.to_array(),
    )
}

/// An eighth of a number, rounded to the nearest.
#[inline]
#[tactic(auto, unfolding(crate::specs::Transforms::eighth))]
pub(crate) fn eighth(x: i16) -> i16
    ensures value { result ≡ eighth x }
    ensures within { IsWithin 4096 result }
{
    ((i32::from(x) + 4) >> 3) as i16
}

/// Adds the inverse DCT of a block's dequantised coefficients to the samples predicted for it, and
/// clamps each sum to 0 to 255 (RFC 6386, sections 14.3 and 14.5).
///
/// The coefficients are in raster order. The block is 4 by 4 samples: it begins with the first of
/// `samples`, and its rows are `stride` samples apart.
#[inline(never)]
pub fn dct_add(coefficients: &[i16; 16], samples: &mut [u8], stride: usize)
    requires stride { 4 ≤ stride }
    requires room { 3 * stride + 4 ≤ length samples.old }
    ensures { IsAdded (inverse_dct coefficients.now) 4 stride samples.old samples.new }
{
    let (row0, row1, row2, row3) = residuals(coefficients);
    add_row(samples, 0, row0);
    add_row(samples, stride, row1);
    add_row(samples, 2 * stride, row2);
    add_row(samples, 3 * stride, row3);
}

/// The same as `dct_add` for a block whose coefficients are 0 except for the first, which is
/// `first`: each sample gets the same residual (RFC 6386, sections 14.3 and 14.5).
#[inline]
pub fn dct_add_first(first: i16, samples: &mut [u8], stride: usize)
    requires stride { 4 ≤ stride }
    requires room { 3 * stride + 4 ≤ length samples.old }
    ensures { IsAdded (inverse_dct (first ∷ replicate 15 (pos 0))) 4 stride samples.old samples.new }
{
    let row = [eighth(first); 4];
    add_row(samples, 0, row);
    add_row(samples, stride, row);
    add_row(samples, 2 * stride, row);
    add_row(samples, 3 * stride, row);
}
