//! Edges of sixteen lines, in luma.

ghost use Rattle.std.specs.Prelude.{◌≡◌, ℕ, ◌+◌, ◌-◌, ◌*◌, ◌<◌, ◌≤◌, length};
ghost use Rattle.loop_filter.specs.Lines.{filtered_line, reach};
ghost use Rattle.loop_filter.specs.Edges.{line_in, lines_filtered};
ghost use Rattle.loop_filter.specs.Lanes.{line_at, vector, vectors, row_of, rows_put};

use crate::columns::{load_lines, row_pairs, store_lines};
use crate::edge_limits::{EdgeFilter, EdgeLimits};
use crate::lanes::{load, store};
use crate::taps::{Taps, filter_sixteen};

/// Loads sixteen columns of eight samples, in rows `stride` samples apart.
#[inline(always)]
pub fn load_rows(samples: &[u8], start: usize, stride: usize) -> Taps
    requires room { start + 7 * stride + 16 ≤ length samples.now }
    ensures { (i : ℕ) → i < 16 → line_at result i ≡ line_in samples.now (start + i) stride }
{
    Taps {
        p3: load(samples, start),
        p2: load(samples, start + stride),
        p1: load(samples, start + 2 * stride),
        p0: load(samples, start + 3 * stride),
        q0: load(samples, start + 4 * stride),
        q1: load(samples, start + 5 * stride),
        q2: load(samples, start + 6 * stride),
        q3: load(samples, start + 7 * stride),
    }
}

/// Stores those rows of sixteen columns that a filter can change, in rows `stride` samples apart.
#[inline(always)]
pub fn store_rows(filter: EdgeFilter, taps: Taps, samples: &mut [u8], start: usize, stride: usize)
    requires room { start + 7 * stride + 16 ≤ length samples.old }
    ensures value { samples.new ≡ rows_put samples.old (start + (4 - reach filter) * stride) stride (λ k. vector taps (4 - reach filter + k)) (2 * reach filter) }
    ensures whole { (k : ℕ) → k < 2 * reach filter → length (vector taps (4 - reach filter + k)) ≡ 16 }
{
    match filter {
        EdgeFilter::Simple => {
            store(samples, start + 3 * stride, taps.p0);
            store(samples, start + 4 * stride, taps.q0);
        }
        EdgeFilter::Inner => {
            store(samples, start + 2 * stride, taps.p1);
            store(samples, start + 3 * stride, taps.p0);
            store(samples, start + 4 * stride, taps.q0);
            store(samples, start + 5 * stride, taps.q1);
        }
        EdgeFilter::Macroblock => {
            store(samples, start + stride, taps.p2);
            store(samples, start + 2 * stride, taps.p1);
            store(samples, start + 3 * stride, taps.p0);
            store(samples, start + 4 * stride, taps.q0);
            store(samples, start + 5 * stride, taps.q1);
            store(samples, start + 6 * stride, taps.q2);
        }
    }
}

/// Loads sixteen rows of eight samples, each `stride` samples after the one before it.
#[inline(always)]
pub fn load_columns(samples: &[u8], start: usize, stride: usize) -> Taps
    requires room { start + 15 * stride + 8 ≤ length samples.now }
    ensures { (i : ℕ) → i < 16 → line_at result i ≡ line_in samples.now (start + i * stride) 1 }
{
    load_lines(samples, samples, start, start + 8 * stride, stride)
}

/// Stores sixteen rows of eight samples, each `stride` samples after the one before it.
#[inline(always)]
pub fn store_columns(taps: Taps, samples: &mut [u8], start: usize, stride: usize)
    requires room { start + 15 * stride + 8 ≤ length samples.old }
    ensures { samples.new ≡ rows_put samples.old start stride (λ i. row_of i (vectors taps)) 16 }
{
    let (r0, r2, r4, r6, r8, r10, r12, r14) = row_pairs(taps);
    store_lines(samples, start, stride, (r0, r2, r4, r6));
    store_lines(samples, start + 8 * stride, stride, (r8, r10, r12, r14));
}

/// Filters the 16 columns across an edge between rows.
///
/// The first column begins at `start`, four rows above the edge; rows are `stride` samples apart.
#[inline]
pub fn filter_rows(
    filter: EdgeFilter,
    limits: EdgeLimits,
    samples: &mut [u8],
    start: usize,
    stride: usize,
)
    requires limit { limits.edge < 255 }
    requires wide { 16 ≤ stride }
    requires room { start + 7 * stride + 16 ≤ length samples.old }
    ensures { samples.new ≡ lines_filtered (filtered_line filter limits) start 1 stride samples.old 16 }
{
    let taps = load_rows(samples, start, stride);
    let changed = filter_sixteen(filter, limits, taps);
    store_rows(filter, changed, samples, start, stride);
}

/// Loads the sixteen columns across an edge four rows below another one: `above` holds the columns
/// across that one, whose lower four rows are the upper four of these.
///
/// The columns of `above` begin at `start`.
#[inline(always)]
pub fn load_next_rows(above: Taps, samples: &[u8], start: usize, stride: usize) -> Taps
    requires room { start + 11 * stride + 16 ≤ length samples.now }
    requires above { (i : ℕ) → i < 16 → line_at above i ≡ line_in samples.now (start + i) stride }
    ensures { (i : ℕ) → i < 16 → line_at result i ≡ line_in samples.now (start + 4 * stride + i) stride }
{
    Taps {
        p3: above.q0,
        p2: above.q1,
        p1: above.q2,
        p0: above.q3,
        q0: load(samples, start + 8 * stride),
        q1: load(samples, start + 9 * stride),
        q2: load(samples, start + 10 * stride),
        q3: load(samples, start + 11 * stride),
    }
}

/// Filters the 16 rows across an edge between columns.
///
/// The first row begins at `start`, four columns to the left of the edge; rows are `stride` samples
/// apart.
#[inline]
pub fn filter_columns(
    filter: EdgeFilter,
    limits: EdgeLimits,
    samples: &mut [u8],
    start: usize,
    stride: usize,
)
    requires limit { limits.edge < 255 }
    requires wide { 8 ≤ stride }
    requires room { start + 15 * stride + 8 ≤ length samples.old }
    ensures { samples.new ≡ lines_filtered (filtered_line filter limits) start stride 1 samples.old 16 }
{
    let taps = load_columns(samples, start, stride);
    let changed = filter_sixteen(filter, limits, taps);
    store_columns(changed, samples, start, stride);
}
