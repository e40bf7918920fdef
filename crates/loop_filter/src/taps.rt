//! Sixteen lines across an edge, filtered in one call, or two times sixteen in one call.

ghost use Rattle.std.specs.Prelude.{◌≡◌, ℕ, ◌+◌, ◌<◌, slice_index};
ghost use Rattle.loop_filter.specs.Lines.{filtered_line};
ghost use Rattle.loop_filter.specs.Lanes.{line_at, wide_line_at};

use crate::edge_limits::{EdgeFilter, EdgeLimits};
use crate::kernels::{WideTaps, filter as filter_wide};
use std::simd::prelude::*;
use std::simd::{u8x16, u8x32};

/// Sixteen lines of samples across an edge, each line in a lane: `p0` and `q0` are at the edge.
#[derive(Clone, Copy)]
pub struct Taps {
    pub p3: u8x16,
    pub p2: u8x16,
    pub p1: u8x16,
    pub p0: u8x16,
    pub q0: u8x16,
    pub q1: u8x16,
    pub q2: u8x16,
    pub q3: u8x16,
}

/// The lanes of `a`, followed by those of `b`.
#[inline(always)]
pub fn joined(a: u8x16, b: u8x16) -> u8x32
    ensures a { (i : ℕ) → i < 16 → slice_index result i ≡ slice_index a i }
    ensures b { (i : ℕ) → i < 16 → slice_index result (16 + i) ≡ slice_index b i }
{
    a.shuffle(
        b,
        [
            0, 1, 2, 3, 4, 5, 6, 7, 8, 9, 10, 11, 12, 13, 14, 15, 16, 17, 18, 19, 20, 21, 22, 23,
            24, 25, 26, 27, 28, 29, 30, 31,
        ],
    )
}

/// The first sixteen lanes, and the other sixteen.
#[inline(always)]
pub fn split(row: u8x32) -> (u8x16, u8x16)
    ensures first { (i : ℕ) → i < 16 → slice_index result.0 i ≡ slice_index row i }
    ensures second { (i : ℕ) → i < 16 → slice_index result.1 i ≡ slice_index row (16 + i) }
{
    (row.extract::<0, 16>(), row.extract::<16, 16>())
}

/// Sixteen lines, followed by sixteen others.
#[inline(always)]
pub fn joined_lines(a: Taps, b: Taps) -> WideTaps
    ensures a { (i : ℕ) → i < 16 → wide_line_at result i ≡ line_at a i }
    ensures b { (i : ℕ) → i < 16 → wide_line_at result (16 + i) ≡ line_at b i }
{
    WideTaps {
        p3: joined(a.p3, b.p3),
        p2: joined(a.p2, b.p2),
        p1: joined(a.p1, b.p1),
        p0: joined(a.p0, b.p0),
        q0: joined(a.q0, b.q0),
        q1: joined(a.q1, b.q1),
        q2: joined(a.q2, b.q2),
        q3: joined(a.q3, b.q3),
    }
}

/// The first sixteen lines, and the other sixteen.
#[inline(always)]
pub fn split_lines(lines: WideTaps) -> (Taps, Taps)
    ensures first { (i : ℕ) → i < 16 → line_at result.0 i ≡ wide_line_at lines i }
    ensures second { (i : ℕ) → i < 16 → line_at result.1 i ≡ wide_line_at lines (16 + i) }
{
    let (a3, b3) = split(lines.p3);
    let (a2, b2) = split(lines.p2);
    let (a1, b1) = split(lines.p1);
    let (a0, b0) = split(lines.p0);
    let (c0, d0) = split(lines.q0);
    let (c1, d1) = split(lines.q1);
    let (c2, d2) = split(lines.q2);
    let (c3, d3) = split(lines.q3);
    let first = Taps {
        p3: a3,
        p2: a2,
        p1: a1,
        p0: a0,
        q0: c0,
        q1: c1,
        q2: c2,
        q3: c3,
    };
    let second = Taps {
        p3: b3,
        p2: b2,
        p1: b1,
        p0: b0,
        q0: d0,
        q1: d1,
        q2: d2,
        q3: d3,
    };
    (first, second)
}

/// Filters sixteen lines and sixteen others by the filter of their edge.
#[inline(always)]
pub fn filter_both(filter: EdgeFilter, limits: EdgeLimits, a: Taps, b: Taps) -> (Taps, Taps)
    requires limit { limits.edge < 255 }
    ensures a { (i : ℕ) → i < 16 → line_at result.0 i ≡ filtered_line filter limits (line_at a i) }
    ensures b { (i : ℕ) → i < 16 → line_at result.1 i ≡ filtered_line filter limits (line_at b i) }
{
    let lines = joined_lines(a, b);
    let changed = filter_wide(filter, limits, lines);
    split_lines(changed)
}

/// Filters sixteen lines by the filter of their edge.
#[inline(always)]
pub fn filter_sixteen(filter: EdgeFilter, limits: EdgeLimits, taps: Taps) -> Taps
    requires limit { limits.edge < 255 }
    ensures { (i : ℕ) → i < 16 → line_at result i ≡ filtered_line filter limits (line_at taps i) }
{
    let none = u8x16::splat(0);
    let nothing = Taps {
        p3: none,
        p2: none,
        p1: none,
        p0: none,
        q0: none,
        q1: none,
        q2: none,
        q3: none,
    };
    let (changed, _) = filter_both(filter, limits, taps, nothing);
    changed
}
