//! The edges between columns inside a macroblock: three in luma, whose block is stored once for all
//! of them, and one in each chroma plane, which is filtered with the first of luma.

ghost use Rattle.std.specs.Prelude.{◌≡◌, ℕ, ◌+◌, ◌*◌, ◌<◌, ◌≤◌, ◌++◌, length};
ghost use Rattle.std.specs.Simd.Lanes.{put_chunk};
ghost use Rattle.loop_filter.specs.Lines.{inner_line};
ghost use Rattle.loop_filter.specs.Edges.{lines_filtered};
ghost use Rattle.loop_filter.specs.Lanes.{line_at, wide_line_at, wide_vectors, row_of, eight_from, rows_put, left_after, right_after};

use crate::edge_limits::{EdgeFilter, EdgeLimits};
use crate::edges;
use crate::joined_edges::Starts;
use crate::kernels::{WideTaps, filter};
use crate::lanes::store;
use crate::pairs::store_columns;
use crate::taps::{Taps, filter_sixteen, joined_lines, split_lines};
use crate::wide_columns::{load_columns, transposed};
use std::simd::prelude::*;
use std::simd::u8x32;

/// Filters sixteen rows of luma across the second and the third edge, one after the other: `first`
/// holds the left eight samples of each, after the filter of the first edge. The left halves of the
/// rows are followed by the right halves.
#[inline(always)]
fn filter_others(limits: EdgeLimits, first: Taps, right: Taps) -> WideTaps
    requires limit { limits.edge < 255 }
    ensures left { (i : ℕ) → i < 16 → wide_line_at result i ≡ left_after (inner_line limits) (line_at first i) (line_at right i) }
    ensures right { (i : ℕ) → i < 16 → wide_line_at result (16 + i) ≡ right_after (inner_line limits) (line_at first i) (line_at right i) }
{
    let across_second = Taps {
        p3: first.q0,
        p2: first.q1,
        p1: first.q2,
        p0: first.q3,
        q0: right.p3,
        q1: right.p2,
        q2: right.p1,
        q3: right.p0,
    };
    let middle = filter_sixteen(EdgeFilter::Inner, limits, across_second);
    let across_third = Taps {
        p3: middle.q0,
        p2: middle.q1,
        p1: middle.q2,
        p0: middle.q3,
        ..right
    };
    let last = filter_sixteen(EdgeFilter::Inner, limits, across_third);
    let left = Taps {
        q0: middle.p3,
        q1: middle.p2,
        q2: middle.p1,
        q3: middle.p0,
        ..first
    };
    joined_lines(left, last)
}

/// Stores two rows of sixteen samples, the second `stride` samples after the first: each half of the
/// vector holds eight samples of the first, followed by eight of the second.
#[inline(always)]
fn store_two(samples: &mut [u8], at: usize, stride: usize, rows: u8x32)
    requires room { at + stride + 16 ≤ length samples.old }
    ensures { samples.new ≡ put_chunk (at + stride) (put_chunk at samples.old (eight_from 0 rows ++ eight_from 16 rows)) (eight_from 8 rows ++ eight_from 24 rows) }
{
    let in_order = rows.shuffle(
        rows,
        [
            0, 1, 2, 3, 4, 5, 6, 7, 16, 17, 18, 19, 20, 21, 22, 23, 8, 9, 10, 11, 12, 13, 14, 15,
            24, 25, 26, 27, 28, 29, 30, 31,
        ],
    );
    store(samples, at, in_order.extract::<0, 16>());
    store(samples, at + stride, in_order.extract::<16, 16>());
}

/// Stores sixteen rows of sixteen samples: their left halves are followed by their right halves.
#[inline(always)]
fn store_block(halves: WideTaps, samples: &mut [u8], start: usize, stride: usize)
    requires room { start + 15 * stride + 16 ≤ length samples.old }
    ensures { samples.new ≡ rows_put samples.old start stride (λ i. row_of i (wide_vectors halves) ++ row_of (16 + i) (wide_vectors halves)) 16 }
{
    let (r0, r2, r4, r6, r8, r10, r12, r14) = transposed((
        halves.p3, halves.p2, halves.p1, halves.p0, halves.q0, halves.q1, halves.q2, halves.q3,
    ));
    store_two(samples, start, stride, r0);
    store_two(samples, start + 2 * stride, stride, r2);
    store_two(samples, start + 4 * stride, stride, r4);
    store_two(samples, start + 6 * stride, stride, r6);
    store_two(samples, start + 8 * stride, stride, r8);
    store_two(samples, start + 10 * stride, stride, r10);
    store_two(samples, start + 12 * stride, stride, r12);
    store_two(samples, start + 14 * stride, stride, r14);
}

/// Filters the rows across the edges between columns inside a macroblock: 16 rows of luma across
/// three edges, from left to right, and 8 of each chroma plane across one.
///
/// The blocks begin at the starts.
#[inline]
pub fn filter_inner_columns(
    limits: EdgeLimits,
    y: &mut [u8],
    u: &mut [u8],
    v: &mut [u8],
    at: Starts,
)
    requires limit { limits.edge < 255 }
    requires wide { (16 ≤ at.luma_stride) × (8 ≤ at.chroma_stride) }
    requires room_y { at.luma + 15 * at.luma_stride + 16 ≤ length y.old }
    requires room_u { at.chroma + 7 * at.chroma_stride + 8 ≤ length u.old }
    requires room_v { at.chroma + 7 * at.chroma_stride + 8 ≤ length v.old }
    ensures y { y.new ≡ lines_filtered (inner_line limits) (at.luma + 8) at.luma_stride 1 (lines_filtered (inner_line limits) (at.luma + 4) at.luma_stride 1 (lines_filtered (inner_line limits) at.luma at.luma_stride 1 y.old 16) 16) 16 }
    ensures u { u.new ≡ lines_filtered (inner_line limits) at.chroma at.chroma_stride 1 u.old 8 }
    ensures v { v.new ≡ lines_filtered (inner_line limits) at.chroma at.chroma_stride 1 v.old 8 }
{
    let taps = load_columns(y, u, v, at);
    let changed = filter(EdgeFilter::Inner, limits, taps);
    let (first, chroma) = split_lines(changed);
    store_columns(chroma, u, v, at.chroma, at.chroma_stride);
    let right = edges::load_columns(y, at.luma + 8, at.luma_stride);
    let halves = filter_others(limits, first, right);
    store_block(halves, y, at.luma, at.luma_stride);
}
