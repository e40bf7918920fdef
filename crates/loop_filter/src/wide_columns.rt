//! Lines in vectors of thirty-two lanes, of which both halves are transposed together: sixteen lines of
//! luma next to eight of each chroma plane.

ghost use Rattle.std.specs.Prelude.{◌≡◌, ℕ, ◌+◌, ◌*◌, ◌<◌, ◌≤◌, [], ◌∷◌, length};
ghost use Rattle.loop_filter.specs.Edges.{line_in};
ghost use Rattle.loop_filter.specs.Lanes.{wide_line_at, wide_vectors, interleaved_halves, wide_column_of, row_of, rows_put};

use crate::columns::{load_pairs, store_lines};
use crate::joined_edges::Starts;
use crate::kernels::WideTaps;
use crate::taps::{joined, split};
use std::simd::u8x32;

/// The lanes of two vectors, alternately one of `a` and one of `b`: the first eight of each half, and
/// the other eight.
#[inline(always)]
fn interleaved(a: u8x32, b: u8x32) -> (u8x32, u8x32)
    ensures first { result.0 ≡ interleaved_halves 0 a b }
    ensures second { result.1 ≡ interleaved_halves 8 a b }
{
    let first = a.shuffle(
        b,
        [
            0, 32, 1, 33, 2, 34, 3, 35, 4, 36, 5, 37, 6, 38, 7, 39, 16, 48, 17, 49, 18, 50, 19, 51,
            20, 52, 21, 53, 22, 54, 23, 55,
        ],
    );
    let second = a.shuffle(
        b,
        [
            8, 40, 9, 41, 10, 42, 11, 43, 12, 44, 13, 45, 14, 46, 15, 47, 24, 56, 25, 57, 26, 58,
            27, 59, 28, 60, 29, 61, 30, 62, 31, 63,
        ],
    );
    (first, second)
}

/// Transposes each half of eight vectors: vector `k` of the result holds lanes `2 * k` of all eight,
/// followed by lanes `2 * k + 1`.
///
/// So vectors of interleaved lines become columns, and columns become pairs of lines.
#[inline(always)]
pub fn transposed(
    lines: (u8x32, u8x32, u8x32, u8x32, u8x32, u8x32, u8x32, u8x32),
) -> (u8x32, u8x32, u8x32, u8x32, u8x32, u8x32, u8x32, u8x32)
    ensures v0 { result.0 ≡ wide_column_of 0 (lines.0 ∷ lines.1 ∷ lines.2 ∷ lines.3 ∷ lines.4 ∷ lines.5 ∷ lines.6 ∷ lines.7 ∷ []) }
    ensures v1 { result.1 ≡ wide_column_of 1 (lines.0 ∷ lines.1 ∷ lines.2 ∷ lines.3 ∷ lines.4 ∷ lines.5 ∷ lines.6 ∷ lines.7 ∷ []) }
    ensures v2 { result.2 ≡ wide_column_of 2 (lines.0 ∷ lines.1 ∷ lines.2 ∷ lines.3 ∷ lines.4 ∷ lines.5 ∷ lines.6 ∷ lines.7 ∷ []) }
    ensures v3 { result.3 ≡ wide_column_of 3 (lines.0 ∷ lines.1 ∷ lines.2 ∷ lines.3 ∷ lines.4 ∷ lines.5 ∷ lines.6 ∷ lines.7 ∷ []) }
    ensures v4 { result.4 ≡ wide_column_of 4 (lines.0 ∷ lines.1 ∷ lines.2 ∷ lines.3 ∷ lines.4 ∷ lines.5 ∷ lines.6 ∷ lines.7 ∷ []) }
    ensures v5 { result.5 ≡ wide_column_of 5 (lines.0 ∷ lines.1 ∷ lines.2 ∷ lines.3 ∷ lines.4 ∷ lines.5 ∷ lines.6 ∷ lines.7 ∷ []) }
    ensures v6 { result.6 ≡ wide_column_of 6 (lines.0 ∷ lines.1 ∷ lines.2 ∷ lines.3 ∷ lines.4 ∷ lines.5 ∷ lines.6 ∷ lines.7 ∷ []) }
    ensures v7 { result.7 ≡ wide_column_of 7 (lines.0 ∷ lines.1 ∷ lines.2 ∷ lines.3 ∷ lines.4 ∷ lines.5 ∷ lines.6 ∷ lines.7 ∷ []) }
{
    let (w0, w1, w2, w3, w4, w5, w6, w7) = lines;
    let (low04, high04) = interleaved(w0, w4);
    let (low15, high15) = interleaved(w1, w5);
    let (low26, high26) = interleaved(w2, w6);
    let (low37, high37) = interleaved(w3, w7);
    let (even01, even23) = interleaved(low04, low26);
    let (even45, even67) = interleaved(high04, high26);
    let (odd01, odd23) = interleaved(low15, low37);
    let (odd45, odd67) = interleaved(high15, high37);
    let (v0, v1) = interleaved(even01, odd01);
    let (v2, v3) = interleaved(even23, odd23);
    let (v4, v5) = interleaved(even45, odd45);
    let (v6, v7) = interleaved(even67, odd67);
    (v0, v1, v2, v3, v4, v5, v6, v7)
}

/// Loads sixteen lines of luma and eight of each chroma plane, of eight adjacent samples each: the
/// plane `u` comes after luma, and `v` after `u`.
#[inline(always)]
pub fn load_columns(y: &[u8], u: &[u8], v: &[u8], at: Starts) -> WideTaps
    requires room_y { at.luma + 15 * at.luma_stride + 8 ≤ length y.now }
    requires room_u { at.chroma + 7 * at.chroma_stride + 8 ≤ length u.now }
    requires room_v { at.chroma + 7 * at.chroma_stride + 8 ≤ length v.now }
    ensures y { (i : ℕ) → i < 16 → wide_line_at result i ≡ line_in y.now (at.luma + i * at.luma_stride) 1 }
    ensures u { (i : ℕ) → i < 8 → wide_line_at result (16 + i) ≡ line_in u.now (at.chroma + i * at.chroma_stride) 1 }
    ensures v { (i : ℕ) → i < 8 → wide_line_at result (24 + i) ≡ line_in v.now (at.chroma + i * at.chroma_stride) 1 }
{
    let lower = at.luma + 8 * at.luma_stride;
    let (y0, y1, y2, y3, y4, y5, y6, y7) = load_pairs(y, y, at.luma, lower, at.luma_stride);
    let (c0, c1, c2, c3, c4, c5, c6, c7) = load_pairs(u, v, at.chroma, at.chroma, at.chroma_stride);
    let w0 = joined(y0, c0);
    let w1 = joined(y1, c1);
    let w2 = joined(y2, c2);
    let w3 = joined(y3, c3);
    let w4 = joined(y4, c4);
    let w5 = joined(y5, c5);
    let w6 = joined(y6, c6);
    let w7 = joined(y7, c7);
    let (p3, p2, p1, p0, q0, q1, q2, q3) = transposed((w0, w1, w2, w3, w4, w5, w6, w7));
    WideTaps {
        p3,
        p2,
        p1,
        p0,
        q0,
        q1,
        q2,
        q3,
    }
}

/// Stores sixteen lines of luma and eight of each chroma plane, of eight adjacent samples each.
#[inline(always)]
pub fn store_columns(taps: WideTaps, y: &mut [u8], u: &mut [u8], v: &mut [u8], at: Starts)
    requires room_y { at.luma + 15 * at.luma_stride + 8 ≤ length y.old }
    requires room_u { at.chroma + 7 * at.chroma_stride + 8 ≤ length u.old }
    requires room_v { at.chroma + 7 * at.chroma_stride + 8 ≤ length v.old }
    ensures y { y.new ≡ rows_put y.old at.luma at.luma_stride (λ i. row_of i (wide_vectors taps)) 16 }
    ensures u { u.new ≡ rows_put u.old at.chroma at.chroma_stride (λ i. row_of (16 + i) (wide_vectors taps)) 8 }
    ensures v { v.new ≡ rows_put v.old at.chroma at.chroma_stride (λ i. row_of (24 + i) (wide_vectors taps)) 8 }
{
    let (r0, r2, r4, r6, r8, r10, r12, r14) = transposed((
        taps.p3, taps.p2, taps.p1, taps.p0, taps.q0, taps.q1, taps.q2, taps.q3,
    ));
    let (y0, u0) = split(r0);
    let (y2, u2) = split(r2);
    let (y4, u4) = split(r4);
    let (y6, u6) = split(r6);
    let (y8, v0) = split(r8);
    let (y10, v2) = split(r10);
    let (y12, v4) = split(r12);
    let (y14, v6) = split(r14);
    store_lines(y, at.luma, at.luma_stride, (y0, y2, y4, y6));
    let lower = at.luma + 8 * at.luma_stride;
    store_lines(y, lower, at.luma_stride, (y8, y10, y12, y14));
    store_lines(u, at.chroma, at.chroma_stride, (u0, u2, u4, u6));
    store_lines(v, at.chroma, at.chroma_stride, (v0, v2, v4, v6));
}
