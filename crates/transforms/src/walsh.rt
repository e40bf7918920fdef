//! The inverse WHT of a block, four of its columns or rows at a time (RFC 6386, section 14.3).

ghost use Rattle.std.specs.Prelude.{◌≡◌, ◌∷◌, map, pos, replicate};
ghost use Rattle.std.specs.List.{range_with_len};
ghost use Rattle.transforms.specs.Transforms.{wht_alone, wht_column, inverse_wht};

use std::simd::prelude::*;
use std::simd::{i16x4, i32x4};

/// The coefficients after the first pass: each of the four columns, with its rows in lanes. Lanes
/// of 16 bits wrap, so each number is reduced to its low 16 bits.
#[inline]
fn columns_passed(coefficients: &[i16; 16]) -> (i16x4, i16x4, i16x4, i16x4)
    ensures first { result.0 ≡ map (wht_column coefficients.now 0) (range_with_len 0 4) }
    ensures second { result.1 ≡ map (wht_column coefficients.now 1) (range_with_len 0 4) }
    ensures third { result.2 ≡ map (wht_column coefficients.now 2) (range_with_len 0 4) }
    ensures fourth { result.3 ≡ map (wht_column coefficients.now 3) (range_with_len 0 4) }
{
    let at = coefficients;
    let i0 = i16x4::from_array([at[0], at[1], at[2], at[3]]);
    let i1 = i16x4::from_array([at[4], at[5], at[6], at[7]]);
    let i2 = i16x4::from_array([at[8], at[9], at[10], at[11]]);
    let i3 = i16x4::from_array([at[12], at[13], at[14], at[15]]);
    let (a, b) = (i0 + i3, i1 + i2);
    let (c, d) = (i1 - i2, i0 - i3);
    let (even0, even1) = (a + b).interleave(a - b);
    let (odd0, odd1) = (c + d).interleave(d - c);
    let (column0, column1) = even0.interleave(odd0);
    let (column2, column3) = even1.interleave(odd1);
    (column0, column1, column2, column3)
}

/// The first coefficients of the 16 luma blocks, in raster order: the inverse WHT of the
/// dequantised coefficients of a Y2 block, which are in raster order (RFC 6386, section 14.3).
pub fn wht(coefficients: &[i16; 16]) -> [i16; 16]
    ensures { result ≡ inverse_wht coefficients.now }
{
    let (i0, i1, i2, i3) = columns_passed(coefficients);
    let (i0, i1) = (i0.cast::<i32>(), i1.cast::<i32>());
    let (i2, i3) = (i2.cast::<i32>(), i3.cast::<i32>());
    let (a, b) = (i0 + i3, i1 + i2);
    let (c, d) = (i1 - i2, i0 - i3);
    let three = i32x4::splat(3);
    let column0 = ((a + b + three) >> three).cast::<i16>();
    let column1 = ((c + d + three) >> three).cast::<i16>();
    let column2 = ((a - b + three) >> three).cast::<i16>();
    let column3 = ((d - c + three) >> three).cast::<i16>();
    let (even0, even1) = column0.interleave(column2);
    let (odd0, odd1) = column1.interleave(column3);
    let (row0, row1) = even0.interleave(odd0);
    let (row2, row3) = even1.interleave(odd1);
    let (row0, row1) = (row0.to_array(), row1.to_array());
    let (row2, row3) = (row2.to_array(), row3.to_array());
    [
        row0[0], row0[1], row0[2], row0[3], //
        row1[0], row1[1], row1[2], row1[3], //
        row2[0], row2[1], row2[2], row2[3], //
        row3[0], row3[1], row3[2], row3[3],
    ]
}

/// Each result of the inverse WHT of a block that has only a first coefficient.
#[inline(always)]
#[tactic(auto, unfolding(crate::specs::Transforms::wht_alone))]
fn alone(first: i16) -> i16
    ensures { result ≡ wht_alone first }
{
    ((i32::from(first) + 3) >> 3) as i16
}

/// The same as `wht` for coefficients that are 0 except for the first, which is `first`: all results are
/// equal (RFC 6386, section 14.3).
#[inline]
pub fn wht_first(first: i16) -> [i16; 16]
    ensures { result ≡ inverse_wht (first ∷ replicate 15 (pos 0)) }
{
    [alone(first); 16]
}
