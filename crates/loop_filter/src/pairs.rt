//! Lines of the two chroma planes, eight of each: in vectors those of one plane are followed by those
//! of the other.

ghost use Rattle.std.specs.Prelude.{◌≡◌, ℕ, ◌+◌, ◌-◌, ◌*◌, ◌<◌, ◌≤◌, length, slice_index};
ghost use Rattle.std.specs.Simd.Lanes.{put_chunk};
ghost use Rattle.loop_filter.specs.Lines.{reach};
ghost use Rattle.loop_filter.specs.Edges.{line_in};
ghost use Rattle.loop_filter.specs.Lanes.{line_at, vector, vectors, row_of, eight_from, rows_put};

use crate::columns::{row_pairs, store_lines};
use crate::edge_limits::EdgeFilter;
use crate::taps::Taps;
use std::simd::prelude::*;
use std::simd::{u8x8, u8x16};

/// The lanes of `a`, followed by those of `b`.
#[inline(always)]
fn joined(a: u8x8, b: u8x8) -> u8x16
    ensures a { (i : ℕ) → i < 8 → slice_index result i ≡ slice_index a i }
    ensures b { (i : ℕ) → i < 8 → slice_index result (8 + i) ≡ slice_index b i }
{
    a.shuffle(b, [0, 1, 2, 3, 4, 5, 6, 7, 8, 9, 10, 11, 12, 13, 14, 15])
}

/// The eight samples starting at `at` in `u`, followed by those in `v`.
#[inline(always)]
fn load_both(u: &[u8], v: &[u8], at: usize) -> u8x16
    requires room_u { at + 8 ≤ length u.now }
    requires room_v { at + 8 ≤ length v.now }
    ensures u { (i : ℕ) → i < 8 → slice_index result i ≡ slice_index u.now (at + i) }
    ensures v { (i : ℕ) → i < 8 → slice_index result (8 + i) ≡ slice_index v.now (at + i) }
{
    let first = u8x8::from_slice(&u[at..]);
    let second = u8x8::from_slice(&v[at..]);
    joined(first, second)
}

/// Stores eight samples starting at `at` in `u`, and eight in `v`.
#[inline(always)]
fn store_both(u: &mut [u8], v: &mut [u8], at: usize, row: u8x16)
    requires room_u { at + 8 ≤ length u.old }
    requires room_v { at + 8 ≤ length v.old }
    ensures u { u.new ≡ put_chunk at u.old (eight_from 0 row) }
    ensures v { v.new ≡ put_chunk at v.old (eight_from 8 row) }
{
    row.extract::<0, 8>().copy_to_slice(&mut u[at..]);
    row.extract::<8, 8>().copy_to_slice(&mut v[at..]);
}

/// Loads eight columns of eight samples from each plane, in rows `stride` samples apart.
#[inline(always)]
pub fn load_rows(u: &[u8], v: &[u8], start: usize, stride: usize) -> Taps
    requires room_u { start + 7 * stride + 8 ≤ length u.now }
    requires room_v { start + 7 * stride + 8 ≤ length v.now }
    ensures u { (i : ℕ) → i < 8 → line_at result i ≡ line_in u.now (start + i) stride }
    ensures v { (i : ℕ) → i < 8 → line_at result (8 + i) ≡ line_in v.now (start + i) stride }
{
    Taps {
        p3: load_both(u, v, start),
        p2: load_both(u, v, start + stride),
        p1: load_both(u, v, start + 2 * stride),
        p0: load_both(u, v, start + 3 * stride),
        q0: load_both(u, v, start + 4 * stride),
        q1: load_both(u, v, start + 5 * stride),
        q2: load_both(u, v, start + 6 * stride),
        q3: load_both(u, v, start + 7 * stride),
    }
}

/// Loads the eight columns of each plane across an edge four rows below another one: `above` holds
/// the columns across that one, whose lower four rows are the upper four of these.
///
/// The columns of `above` begin at `start`.
#[inline(always)]
pub fn load_next_rows(above: Taps, u: &[u8], v: &[u8], start: usize, stride: usize) -> Taps
    requires room_u { start + 11 * stride + 8 ≤ length u.now }
    requires room_v { start + 11 * stride + 8 ≤ length v.now }
    requires above_u { (i : ℕ) → i < 8 → line_at above i ≡ line_in u.now (start + i) stride }
    requires above_v { (i : ℕ) → i < 8 → line_at above (8 + i) ≡ line_in v.now (start + i) stride }
    ensures u { (i : ℕ) → i < 8 → line_at result i ≡ line_in u.now (start + 4 * stride + i) stride }
    ensures v { (i : ℕ) → i < 8 → line_at result (8 + i) ≡ line_in v.now (start + 4 * stride + i) stride }
{
    Taps {
        p3: above.q0,
        p2: above.q1,
        p1: above.q2,
        p0: above.q3,
        q0: load_both(u, v, start + 8 * stride),
        q1: load_both(u, v, start + 9 * stride),
        q2: load_both(u, v, start + 10 * stride),
        q3: load_both(u, v, start + 11 * stride),
    }
}

/// Stores those rows of eight columns in each plane that a filter can change, in rows `stride`
/// samples apart.
#[inline(always)]
pub fn store_rows(
    filter: EdgeFilter,
    taps: Taps,
    u: &mut [u8],
    v: &mut [u8],
    start: usize,
    stride: usize,
)
    requires room_u { start + 7 * stride + 8 ≤ length u.old }
    requires room_v { start + 7 * stride + 8 ≤ length v.old }
    ensures u { u.new ≡ rows_put u.old (start + (4 - reach filter) * stride) stride (λ k. eight_from 0 (vector taps (4 - reach filter + k))) (2 * reach filter) }
    ensures v { v.new ≡ rows_put v.old (start + (4 - reach filter) * stride) stride (λ k. eight_from 8 (vector taps (4 - reach filter + k))) (2 * reach filter) }
{
    match filter {
        EdgeFilter::Simple => {
            store_both(u, v, start + 3 * stride, taps.p0);
            store_both(u, v, start + 4 * stride, taps.q0);
        }
        EdgeFilter::Inner => {
            store_both(u, v, start + 2 * stride, taps.p1);
            store_both(u, v, start + 3 * stride, taps.p0);
            store_both(u, v, start + 4 * stride, taps.q0);
            store_both(u, v, start + 5 * stride, taps.q1);
        }
        EdgeFilter::Macroblock => {
            store_both(u, v, start + stride, taps.p2);
            store_both(u, v, start + 2 * stride, taps.p1);
            store_both(u, v, start + 3 * stride, taps.p0);
            store_both(u, v, start + 4 * stride, taps.q0);
            store_both(u, v, start + 5 * stride, taps.q1);
            store_both(u, v, start + 6 * stride, taps.q2);
        }
    }
}

/// Stores eight rows of eight samples into each plane, each `stride` samples after the one before it.
#[inline(always)]
pub fn store_columns(taps: Taps, u: &mut [u8], v: &mut [u8], start: usize, stride: usize)
    requires room_u { start + 7 * stride + 8 ≤ length u.old }
    requires room_v { start + 7 * stride + 8 ≤ length v.old }
    ensures u { u.new ≡ rows_put u.old start stride (λ i. row_of i (vectors taps)) 8 }
    ensures v { v.new ≡ rows_put v.old start stride (λ i. row_of (8 + i) (vectors taps)) 8 }
{
    let (u0, u2, u4, u6, v0, v2, v4, v6) = row_pairs(taps);
    store_lines(u, start, stride, (u0, u2, u4, u6));
    store_lines(v, start, stride, (v0, v2, v4, v6));
}
