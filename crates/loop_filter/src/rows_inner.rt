//! The edges between rows inside a macroblock, with or without its top edge. The rows between two of
//! them stay in vectors from one edge to the next.

ghost use Rattle.std.specs.Prelude.{◌≡◌, ℕ, ◌+◌, ◌*◌, ◌<◌, ◌≤◌, length};
ghost use Rattle.loop_filter.specs.Lines.{inner_line, macroblock_line};
ghost use Rattle.loop_filter.specs.Edges.{line_in, lines_filtered};
ghost use Rattle.loop_filter.specs.Lanes.{line_at};
ghost use Rattle.loop_filter.specs.Columns.{HoldColumns};

use crate::edge_limits::{EdgeFilter, EdgeLimits};
use crate::joined_edges::{JoinedTaps, Starts, filter_joined_rows};
use crate::taps::{Taps, filter_both, filter_sixteen};
use crate::{edges, pairs};

/// Filters the 16 columns across an inner edge four rows below another one: `above` holds the
/// columns across that one, after its filter. Returns the columns across this edge, after its filter.
///
/// The columns of `above` begin at `start`.
#[inline(always)]
fn filter_next_rows(
    limits: EdgeLimits,
    above: Taps,
    samples: &mut [u8],
    start: usize,
    stride: usize,
) -> Taps
    requires limit { limits.edge < 255 }
    requires wide { 16 ≤ stride }
    requires room { start + 11 * stride + 16 ≤ length samples.old }
    requires above { (i : ℕ) → i < 16 → line_at above i ≡ line_in samples.old (start + i) stride }
    ensures samples { samples.new ≡ lines_filtered (inner_line limits) (start + 4 * stride) 1 stride samples.old 16 }
    ensures lines { (i : ℕ) → i < 16 → line_at result i ≡ line_in samples.new (start + 4 * stride + i) stride }
{
    let taps = edges::load_next_rows(above, samples, start, stride);
    let changed = filter_sixteen(EdgeFilter::Inner, limits, taps);
    edges::store_rows(
        EdgeFilter::Inner,
        changed,
        samples,
        start + 4 * stride,
        stride,
    );
    changed
}

/// Filters the 16 columns of luma across the second and the third inner edge: `first` holds the
/// columns across the first one, after its filter, which begin at `start`.
#[inline(always)]
fn filter_further_rows(
    limits: EdgeLimits,
    first: Taps,
    samples: &mut [u8],
    start: usize,
    stride: usize,
)
    requires limit { limits.edge < 255 }
    requires wide { 16 ≤ stride }
    requires room { start + 15 * stride + 16 ≤ length samples.old }
    requires first { (i : ℕ) → i < 16 → line_at first i ≡ line_in samples.old (start + i) stride }
    ensures { samples.new ≡ lines_filtered (inner_line limits) (start + 8 * stride) 1 stride (lines_filtered (inner_line limits) (start + 4 * stride) 1 stride samples.old 16) 16 }
{
    let second = filter_next_rows(limits, first, samples, start, stride);
    let below = start + 4 * stride;
    filter_next_rows(limits, second, samples, below, stride);
}

/// Filters the columns across an inner edge of all three planes, four rows below another edge:
/// `above` holds the columns across that one, after its filter. Returns the columns of luma across
/// this edge, after its filter.
///
/// The columns of `above` begin at the starts.
#[inline(always)]
fn filter_next_joined_rows(
    limits: EdgeLimits,
    above: JoinedTaps,
    y: &mut [u8],
    u: &mut [u8],
    v: &mut [u8],
    at: Starts,
) -> Taps
    requires limit { limits.edge < 255 }
    requires wide { (16 ≤ at.luma_stride) × (8 ≤ at.chroma_stride) }
    requires room_y { at.luma + 11 * at.luma_stride + 16 ≤ length y.old }
    requires room_u { at.chroma + 11 * at.chroma_stride + 8 ≤ length u.old }
    requires room_v { at.chroma + 11 * at.chroma_stride + 8 ≤ length v.old }
    requires above { HoldColumns above at y.old u.old v.old }
    ensures y { y.new ≡ lines_filtered (inner_line limits) (at.luma + 4 * at.luma_stride) 1 at.luma_stride y.old 16 }
    ensures u { u.new ≡ lines_filtered (inner_line limits) (at.chroma + 4 * at.chroma_stride) 1 at.chroma_stride u.old 8 }
    ensures v { v.new ≡ lines_filtered (inner_line limits) (at.chroma + 4 * at.chroma_stride) 1 at.chroma_stride v.old 8 }
    ensures lines { (i : ℕ) → i < 16 → line_at result i ≡ line_in y.new (at.luma + 4 * at.luma_stride + i) at.luma_stride }
{
    let luma = edges::load_next_rows(above.luma, y, at.luma, at.luma_stride);
    let chroma = pairs::load_next_rows(above.chroma, u, v, at.chroma, at.chroma_stride);
    let (luma, chroma) = filter_both(EdgeFilter::Inner, limits, luma, chroma);
    let luma_start = at.luma + 4 * at.luma_stride;
    let chroma_start = at.chroma + 4 * at.chroma_stride;
    edges::store_rows(EdgeFilter::Inner, luma, y, luma_start, at.luma_stride);
    pairs::store_rows(
        EdgeFilter::Inner,
        chroma,
        u,
        v,
        chroma_start,
        at.chroma_stride,
    );
    luma
}

/// Filters the columns across the edges between rows inside a macroblock: 16 columns of luma across
/// three edges, from top to bottom, and 8 of each chroma plane across one.
///
/// The blocks begin at the starts.
#[inline]
pub fn filter_inner_rows(limits: EdgeLimits, y: &mut [u8], u: &mut [u8], v: &mut [u8], at: Starts)
    requires limit { limits.edge < 255 }
    requires wide { (16 ≤ at.luma_stride) × (8 ≤ at.chroma_stride) }
    requires room_y { at.luma + 15 * at.luma_stride + 16 ≤ length y.old }
    requires room_u { at.chroma + 7 * at.chroma_stride + 8 ≤ length u.old }
    requires room_v { at.chroma + 7 * at.chroma_stride + 8 ≤ length v.old }
    ensures y { y.new ≡ lines_filtered (inner_line limits) (at.luma + 8 * at.luma_stride) 1 at.luma_stride (lines_filtered (inner_line limits) (at.luma + 4 * at.luma_stride) 1 at.luma_stride (lines_filtered (inner_line limits) at.luma 1 at.luma_stride y.old 16) 16) 16 }
    ensures u { u.new ≡ lines_filtered (inner_line limits) at.chroma 1 at.chroma_stride u.old 8 }
    ensures v { v.new ≡ lines_filtered (inner_line limits) at.chroma 1 at.chroma_stride v.old 8 }
{
    let first = filter_joined_rows(EdgeFilter::Inner, limits, y, u, v, at);
    filter_further_rows(limits, first.luma, y, at.luma, at.luma_stride);
}

/// Filters the columns across the top edge of a macroblock and then across the edges between rows
/// inside it: 16 columns of luma across four edges, and 8 of each chroma plane across two.
///
/// The columns begin at the starts, four rows above the blocks.
#[inline]
pub fn filter_top_and_inner_rows(
    outer: EdgeLimits,
    inner: EdgeLimits,
    y: &mut [u8],
    u: &mut [u8],
    v: &mut [u8],
    at: Starts,
)
    requires outer_limit { outer.edge < 255 }
    requires inner_limit { inner.edge < 255 }
    requires wide { (16 ≤ at.luma_stride) × (8 ≤ at.chroma_stride) }
    requires room_y { at.luma + 19 * at.luma_stride + 16 ≤ length y.old }
    requires room_u { at.chroma + 11 * at.chroma_stride + 8 ≤ length u.old }
    requires room_v { at.chroma + 11 * at.chroma_stride + 8 ≤ length v.old }
    ensures y { y.new ≡ lines_filtered (inner_line inner) (at.luma + 12 * at.luma_stride) 1 at.luma_stride (lines_filtered (inner_line inner) (at.luma + 8 * at.luma_stride) 1 at.luma_stride (lines_filtered (inner_line inner) (at.luma + 4 * at.luma_stride) 1 at.luma_stride (lines_filtered (macroblock_line outer) at.luma 1 at.luma_stride y.old 16) 16) 16) 16 }
    ensures u { u.new ≡ lines_filtered (inner_line inner) (at.chroma + 4 * at.chroma_stride) 1 at.chroma_stride (lines_filtered (macroblock_line outer) at.chroma 1 at.chroma_stride u.old 8) 8 }
    ensures v { v.new ≡ lines_filtered (inner_line inner) (at.chroma + 4 * at.chroma_stride) 1 at.chroma_stride (lines_filtered (macroblock_line outer) at.chroma 1 at.chroma_stride v.old 8) 8 }
{
    let top = filter_joined_rows(EdgeFilter::Macroblock, outer, y, u, v, at);
    let first = filter_next_joined_rows(inner, top, y, u, v, at);
    let start = at.luma + 4 * at.luma_stride;
    filter_further_rows(inner, first, y, start, at.luma_stride);
}
