//! Lines of samples in rows, transposed to columns and back.

ghost use Rattle.std.specs.Prelude.{◌≡◌, ℕ, ◌+◌, ◌*◌, ◌<◌, ◌≤◌, [], ◌∷◌, ◌++◌, length, slice_index};
ghost use Rattle.std.specs.Simd.Lanes.{put_chunk};
ghost use Rattle.loop_filter.specs.Edges.{line_in};
ghost use Rattle.loop_filter.specs.Lanes.{line_at, HoldLines, column_of, row_of, eight_from, row_in_pairs, rows_put, vectors};

use crate::taps::Taps;
use std::simd::prelude::*;
use std::simd::{u8x8, u8x16};

/// The lanes of two vectors, alternately one of `a` and one of `b`.
#[inline(always)]
fn interleaved(a: u8x8, b: u8x8) -> u8x16
    ensures a { (k : ℕ) → k < 8 → slice_index result (2 * k) ≡ slice_index a k }
    ensures b { (k : ℕ) → k < 8 → slice_index result (2 * k + 1) ≡ slice_index b k }
{
    a.shuffle(b, [0, 8, 1, 9, 2, 10, 3, 11, 4, 12, 5, 13, 6, 14, 7, 15])
}

/// Transposes sixteen lines of eight samples: the first vector holds lines 0 and 8, interleaved, the
/// second lines 1 and 9, and so on.
#[inline(always)]
pub fn columns(lines: (u8x16, u8x16, u8x16, u8x16, u8x16, u8x16, u8x16, u8x16)) -> Taps
    ensures p3 { result.p3 ≡ column_of 0 (lines.0 ∷ lines.1 ∷ lines.2 ∷ lines.3 ∷ lines.4 ∷ lines.5 ∷ lines.6 ∷ lines.7 ∷ []) }
    ensures p2 { result.p2 ≡ column_of 1 (lines.0 ∷ lines.1 ∷ lines.2 ∷ lines.3 ∷ lines.4 ∷ lines.5 ∷ lines.6 ∷ lines.7 ∷ []) }
    ensures p1 { result.p1 ≡ column_of 2 (lines.0 ∷ lines.1 ∷ lines.2 ∷ lines.3 ∷ lines.4 ∷ lines.5 ∷ lines.6 ∷ lines.7 ∷ []) }
    ensures p0 { result.p0 ≡ column_of 3 (lines.0 ∷ lines.1 ∷ lines.2 ∷ lines.3 ∷ lines.4 ∷ lines.5 ∷ lines.6 ∷ lines.7 ∷ []) }
    ensures q0 { result.q0 ≡ column_of 4 (lines.0 ∷ lines.1 ∷ lines.2 ∷ lines.3 ∷ lines.4 ∷ lines.5 ∷ lines.6 ∷ lines.7 ∷ []) }
    ensures q1 { result.q1 ≡ column_of 5 (lines.0 ∷ lines.1 ∷ lines.2 ∷ lines.3 ∷ lines.4 ∷ lines.5 ∷ lines.6 ∷ lines.7 ∷ []) }
    ensures q2 { result.q2 ≡ column_of 6 (lines.0 ∷ lines.1 ∷ lines.2 ∷ lines.3 ∷ lines.4 ∷ lines.5 ∷ lines.6 ∷ lines.7 ∷ []) }
    ensures q3 { result.q3 ≡ column_of 7 (lines.0 ∷ lines.1 ∷ lines.2 ∷ lines.3 ∷ lines.4 ∷ lines.5 ∷ lines.6 ∷ lines.7 ∷ []) }
{
    let (w0, w1, w2, w3, w4, w5, w6, w7) = lines;
    let (left04, right04) = w0.interleave(w4);
    let (left15, right15) = w1.interleave(w5);
    let (left26, right26) = w2.interleave(w6);
    let (left37, right37) = w3.interleave(w7);
    let (even01, even23) = left04.interleave(left26);
    let (even45, even67) = right04.interleave(right26);
    let (odd01, odd23) = left15.interleave(left37);
    let (odd45, odd67) = right15.interleave(right37);
    let (p3, p2) = even01.interleave(odd01);
    let (p1, p0) = even23.interleave(odd23);
    let (q0, q1) = even45.interleave(odd45);
    let (q2, q3) = even67.interleave(odd67);
    Taps {
        p3,
        p2,
        p1,
        p0,
        q0,
        q1,
        q2,
        q3,
    }
}

/// Transposes sixteen lines back: each vector holds two of them, one after the other.
#[inline(always)]
pub fn row_pairs(taps: Taps) -> (u8x16, u8x16, u8x16, u8x16, u8x16, u8x16, u8x16, u8x16)
    ensures r0 { result.0 ≡ row_of 0 (vectors taps) ++ row_of 1 (vectors taps) }
    ensures r2 { result.1 ≡ row_of 2 (vectors taps) ++ row_of 3 (vectors taps) }
    ensures r4 { result.2 ≡ row_of 4 (vectors taps) ++ row_of 5 (vectors taps) }
    ensures r6 { result.3 ≡ row_of 6 (vectors taps) ++ row_of 7 (vectors taps) }
    ensures r8 { result.4 ≡ row_of 8 (vectors taps) ++ row_of 9 (vectors taps) }
    ensures r10 { result.5 ≡ row_of 10 (vectors taps) ++ row_of 11 (vectors taps) }
    ensures r12 { result.6 ≡ row_of 12 (vectors taps) ++ row_of 13 (vectors taps) }
    ensures r14 { result.7 ≡ row_of 14 (vectors taps) ++ row_of 15 (vectors taps) }
{
    let (upper04, lower04) = taps.p3.interleave(taps.q0);
    let (upper15, lower15) = taps.p2.interleave(taps.q1);
    let (upper26, lower26) = taps.p1.interleave(taps.q2);
    let (upper37, lower37) = taps.p0.interleave(taps.q3);
    let (even0, even4) = upper04.interleave(upper26);
    let (even8, even12) = lower04.interleave(lower26);
    let (odd0, odd4) = upper15.interleave(upper37);
    let (odd8, odd12) = lower15.interleave(lower37);
    let (r0, r2) = even0.interleave(odd0);
    let (r4, r6) = even4.interleave(odd4);
    let (r8, r10) = even8.interleave(odd8);
    let (r12, r14) = even12.interleave(odd12);
    (r0, r2, r4, r6, r8, r10, r12, r14)
}

/// Eight samples from an index in one list, interleaved with eight of another.
#[inline(always)]
fn load_pair(a: &[u8], b: &[u8], a_at: usize, b_at: usize) -> u8x16
    requires room_a { a_at + 8 ≤ length a.now }
    requires room_b { b_at + 8 ≤ length b.now }
    ensures a { (k : ℕ) → k < 8 → slice_index result (2 * k) ≡ slice_index a.now (a_at + k) }
    ensures b { (k : ℕ) → k < 8 → slice_index result (2 * k + 1) ≡ slice_index b.now (b_at + k) }
{
    let first = u8x8::from_slice(&a[a_at..]);
    let second = u8x8::from_slice(&b[b_at..]);
    interleaved(first, second)
}

/// Loads eight lines of adjacent samples from each of two lists, each vector one of `a` interleaved
/// with one of `b`; in both lists, each line begins `stride` samples after the one before it.
#[inline(always)]
pub fn load_pairs(
    a: &[u8],
    b: &[u8],
    a_start: usize,
    b_start: usize,
    stride: usize,
) -> (u8x16, u8x16, u8x16, u8x16, u8x16, u8x16, u8x16, u8x16)
    requires room_a { a_start + 7 * stride + 8 ≤ length a.now }
    requires room_b { b_start + 7 * stride + 8 ≤ length b.now }
    ensures a { HoldLines (λ k. 2 * k) (result.0 ∷ result.1 ∷ result.2 ∷ result.3 ∷ result.4 ∷ result.5 ∷ result.6 ∷ result.7 ∷ []) a.now a_start stride }
    ensures b { HoldLines (λ k. 2 * k + 1) (result.0 ∷ result.1 ∷ result.2 ∷ result.3 ∷ result.4 ∷ result.5 ∷ result.6 ∷ result.7 ∷ []) b.now b_start stride }
{
    let w0 = load_pair(a, b, a_start, b_start);
    let w1 = load_pair(a, b, a_start + stride, b_start + stride);
    let w2 = load_pair(a, b, a_start + 2 * stride, b_start + 2 * stride);
    let w3 = load_pair(a, b, a_start + 3 * stride, b_start + 3 * stride);
    let w4 = load_pair(a, b, a_start + 4 * stride, b_start + 4 * stride);
    let w5 = load_pair(a, b, a_start + 5 * stride, b_start + 5 * stride);
    let w6 = load_pair(a, b, a_start + 6 * stride, b_start + 6 * stride);
    let w7 = load_pair(a, b, a_start + 7 * stride, b_start + 7 * stride);
    (w0, w1, w2, w3, w4, w5, w6, w7)
}

/// Loads eight lines of adjacent samples from each of two lists, and transposes them; in both lists,
/// each line begins `stride` samples after the one before it.
#[inline(always)]
pub fn load_lines(a: &[u8], b: &[u8], a_start: usize, b_start: usize, stride: usize) -> Taps
    requires room_a { a_start + 7 * stride + 8 ≤ length a.now }
    requires room_b { b_start + 7 * stride + 8 ≤ length b.now }
    ensures a { (i : ℕ) → i < 8 → line_at result i ≡ line_in a.now (a_start + i * stride) 1 }
    ensures b { (i : ℕ) → i < 8 → line_at result (8 + i) ≡ line_in b.now (b_start + i * stride) 1 }
{
    columns(load_pairs(a, b, a_start, b_start, stride))
}

/// Stores two lines of one vector, the second `stride` samples after the first.
#[inline(always)]
fn store_pair(samples: &mut [u8], at: usize, stride: usize, rows: u8x16)
    requires room { at + stride + 8 ≤ length samples.old }
    ensures { samples.new ≡ put_chunk (at + stride) (put_chunk at samples.old (eight_from 0 rows)) (eight_from 8 rows) }
{
    rows.extract::<0, 8>().copy_to_slice(&mut samples[at..]);
    rows.extract::<8, 8>()
        .copy_to_slice(&mut samples[at + stride..]);
}

/// Stores eight lines, two in each vector, each line `stride` samples after the one before it.
#[inline(always)]
pub fn store_lines(
    samples: &mut [u8],
    start: usize,
    stride: usize,
    rows: (u8x16, u8x16, u8x16, u8x16),
)
    requires room { start + 7 * stride + 8 ≤ length samples.old }
    ensures { samples.new ≡ rows_put samples.old start stride (row_in_pairs (rows.0 ∷ rows.1 ∷ rows.2 ∷ rows.3 ∷ [])) 8 }
{
    store_pair(samples, start, stride, rows.0);
    store_pair(samples, start + 2 * stride, stride, rows.1);
    store_pair(samples, start + 4 * stride, stride, rows.2);
    store_pair(samples, start + 6 * stride, stride, rows.3);
}
