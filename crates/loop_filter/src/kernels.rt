//! The filters, each over thirty-two lines together (RFC 6386, sections 15.2 and 15.3).

ghost use Rattle.std.specs.Prelude.{◌≡◌, ℕ, ◌+◌, ◌<◌, slice_index};
ghost use Rattle.loop_filter.specs.Lines.{simple_line, inner_line, macroblock_line, filtered_line};
ghost use Rattle.loop_filter.specs.Lanes.{wide_line_at, excess_of};

use crate::edge_limits::{EdgeFilter, EdgeLimits};
use crate::lanes::{
    all, difference, eighths_after, either, greater, halves, less, lowered, more,
    outer_adjustments, raised, shortfall, side, step_over, variance_over,
};
use std::simd::u8x32;

/// Thirty-two lines of samples across an edge, each line in a lane: `p0` and `q0` are at the edge.
#[derive(Clone, Copy)]
pub struct WideTaps {
    pub p3: u8x32,
    pub p2: u8x32,
    pub p1: u8x32,
    pub p0: u8x32,
    pub q0: u8x32,
    pub q1: u8x32,
    pub q2: u8x32,
    pub q3: u8x32,
}

/// Filters thirty-two lines by the filter of their edge.
#[inline(always)]
pub fn filter(filter: EdgeFilter, limits: EdgeLimits, taps: WideTaps) -> WideTaps
    requires limit { limits.edge < 255 }
    ensures { (i : ℕ) → i < 32 → wide_line_at result i ≡ filtered_line filter limits (wide_line_at taps i) }
{
    match filter {
        EdgeFilter::Simple => simple(limits.edge, taps),
        EdgeFilter::Inner => inner(limits, taps),
        EdgeFilter::Macroblock => macroblock(limits, taps),
    }
}

/// Filters thirty-two lines by the simple filter.
#[inline(always)]
fn simple(limit: u8, taps: WideTaps) -> WideTaps
    requires limit { limit < 255 }
    ensures { (i : ℕ) → i < 32 → wide_line_at result i ≡ simple_line limit (wide_line_at taps i) }
{
    let (p1, p0, q0, q1) = (taps.p1, taps.p0, taps.q0, taps.q1);
    let over = step_over(limit, p1, p0, q0, q1);
    let outer = difference(p1, q1);
    let full = shortfall(outer, p0, q0);
    let none = all(128);
    let number = either(over, full, none);
    let up = eighths_after(3, number);
    let down = eighths_after(4, number);
    WideTaps {
        p0: raised(16, p0, up),
        q0: lowered(16, q0, down),
        ..taps
    }
}

/// The excess over the limits of a normal filter in thirty-two lines: 0 in a line that is filtered.
#[inline(always)]
#[tactic(auto, unfolding(crate::specs::Lanes::excess_of))]
fn excess(limits: EdgeLimits, taps: WideTaps) -> u8x32
    ensures { (i : ℕ) → i < 32 → slice_index result i ≡ excess_of limits (wide_line_at taps i) }
{
    let (p3, p2, p1, p0) = (taps.p3, taps.p2, taps.p1, taps.p0);
    let (q3, q2, q1, q0) = (taps.q3, taps.q2, taps.q1, taps.q0);
    let step = step_over(limits.edge, p1, p0, q0, q1);
    let before = side(p3, p2, p1, p0);
    let following = side(q3, q2, q1, q0);
    let sides = greater(before, following);
    let interior = all(limits.interior);
    let sides_over = less(sides, interior);
    more(step, sides_over)
}

/// Filters thirty-two lines by the normal filter of an edge between blocks of one macroblock.
#[inline(always)]
pub fn inner(limits: EdgeLimits, taps: WideTaps) -> WideTaps
    requires limit { limits.edge < 255 }
    ensures { (i : ℕ) → i < 32 → wide_line_at result i ≡ inner_line limits (wide_line_at taps i) }
{
    let (p1, p0, q0, q1) = (taps.p1, taps.p0, taps.q0, taps.q1);
    let rough = excess(limits, taps);
    let high_edge_variance = variance_over(limits.variance, p1, p0, q0, q1);
    let none = all(128);
    let difference = difference(p1, q1);
    let outer = either(high_edge_variance, none, difference);
    let full = shortfall(outer, p0, q0);
    let number = either(rough, full, none);
    let up = eighths_after(3, number);
    let down = eighths_after(4, number);
    let half = halves(down);
    let stay = all(8);
    let outer_move = either(high_edge_variance, half, stay);
    WideTaps {
        p1: raised(8, p1, outer_move),
        p0: raised(16, p0, up),
        q0: lowered(16, q0, down),
        q1: lowered(8, q1, outer_move),
        ..taps
    }
}

/// Filters thirty-two lines by the normal filter of an edge between macroblocks.
///
/// A line is moved either by an eighth or by the outer adjustments, and the other number is 0 at its offset: `p0`
/// and `q0` are moved by the sum of both, at the sum of their offsets.
#[inline(always)]
fn macroblock(limits: EdgeLimits, taps: WideTaps) -> WideTaps
    requires limit { limits.edge < 255 }
    ensures { (i : ℕ) → i < 32 → wide_line_at result i ≡ macroblock_line limits (wide_line_at taps i) }
{
    let (p2, p1, p0) = (taps.p2, taps.p1, taps.p0);
    let (q2, q1, q0) = (taps.q2, taps.q1, taps.q0);
    let rough = excess(limits, taps);
    let high_edge_variance = variance_over(limits.variance, p1, p0, q0, q1);
    let none = all(128);
    let outer = difference(p1, q1);
    let full = shortfall(outer, p0, q0);
    let number = either(rough, full, none);
    let narrow = either(high_edge_variance, none, number);
    let wide = either(high_edge_variance, number, none);
    let up = eighths_after(3, narrow);
    let down = eighths_after(4, narrow);
    let (far, middle, near) = outer_adjustments(wide);
    let p0_move = more(near, up);
    let q0_move = more(near, down);
    WideTaps {
        p2: raised(9, p2, far),
        p1: raised(18, p1, middle),
        p0: raised(43, p0, p0_move),
        q0: lowered(43, q0, q0_move),
        q1: lowered(18, q1, middle),
        q2: lowered(9, q2, far),
        ..taps
    }
}
