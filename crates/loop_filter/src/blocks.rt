//! A macroblock's block in luma, by the simple filter (RFC 6386, section 15.2).

ghost use Rattle.std.specs.Prelude.{◌≡◌, ◌+◌, ◌*◌, ◌<◌, ◌≤◌, true, length};
ghost use Rattle.loop_filter.specs.Lines.{filtered_line};
ghost use Rattle.loop_filter.specs.Blocks.{IsInside, HasSmallLimits, outer_limits, inner_limits, luma, column_edge, row_edge, left_edge, inner_columns, top_edge, inner_rows, block_filtered};
ghost use Rattle.loop_filter.specs.declared.edge_limits.EdgeFilter.TheVariants.{Simple};

use crate::edge_limits::{EdgeFilter, EdgeLimits, Limits};
use crate::edges::{filter_columns, filter_rows};
use crate::strengths::Strength;

/// The position of a macroblock's block among the samples of a plane.
#[derive(Clone, Copy)]
pub(crate) struct Block {
    /// The index of its first sample.
    pub(crate) start: usize,
    /// The distance to the start of the next row, in samples.
    pub(crate) stride: usize,
    /// It is in the first column of macroblocks.
    pub(crate) is_leftmost: bool,
    /// It is in the first row of macroblocks.
    pub(crate) is_topmost: bool,
}

/// The limits at an edge between macroblocks.
#[inline]
pub(crate) fn outer_limits(limits: Limits) -> EdgeLimits
    ensures { result ≡ outer_limits limits }
{
    EdgeLimits {
        edge: limits.macroblock_edge,
        interior: limits.interior,
        variance: limits.variance,
    }
}

/// The limits at an edge inside a macroblock.
#[inline]
pub(crate) fn inner_limits(limits: Limits) -> EdgeLimits
    ensures { result ≡ inner_limits limits }
{
    EdgeLimits {
        edge: limits.inner_edge,
        interior: limits.interior,
        variance: limits.variance,
    }
}

/// Filters the edge before column `x` of a block.
#[tactic(auto, unfolding(crate::specs::Blocks::column_edge))]
#[inline]
fn filter_column(limits: EdgeLimits, samples: &mut [u8], block: Block, x: usize)
    requires limit { limits.edge < 255 }
    requires wide { 16 ≤ block.stride }
    requires left { 4 ≤ block.start + x }
    requires room { block.start + x + 15 * block.stride + 4 ≤ length samples.old }
    ensures { samples.new ≡ column_edge (filtered_line Simple limits) 16 block x samples.old }
{
    let start = block.start + x - 4;
    filter_columns(EdgeFilter::Simple, limits, samples, start, block.stride);
}

/// Filters the edge before row `y` of a block.
#[tactic(auto, unfolding(crate::specs::Blocks::row_edge))]
#[inline]
fn filter_row(limits: EdgeLimits, samples: &mut [u8], block: Block, y: usize)
    requires limit { limits.edge < 255 }
    requires wide { 16 ≤ block.stride }
    requires above { 4 * block.stride ≤ block.start + y * block.stride }
    requires room { block.start + y * block.stride + 3 * block.stride + 16 ≤ length samples.old }
    ensures { samples.new ≡ row_edge (filtered_line Simple limits) 16 block y samples.old }
{
    let start = block.start + y * block.stride - 4 * block.stride;
    filter_rows(EdgeFilter::Simple, limits, samples, start, block.stride);
}

/// Filters the left edge of a block.
#[tactic(auto, unfolding(crate::specs::Blocks::left_edge))]
#[inline]
fn filter_left(limits: EdgeLimits, samples: &mut [u8], block: Block)
    requires limit { limits.edge < 255 }
    requires inside { IsInside 16 block (length samples.old) }
    ensures { samples.new ≡ left_edge (filtered_line Simple limits) 16 block samples.old }
{
    if !block.is_leftmost {
        filter_column(limits, samples, block, 0);
    }
}

/// Filters the vertical edges inside a block.
#[tactic(auto, unfolding(crate::specs::Blocks::inner_columns))]
#[inline]
fn filter_columns_inside(
    limits: EdgeLimits,
    has_inner_edges: bool,
    samples: &mut [u8],
    block: Block,
)
    requires limit { limits.edge < 255 }
    requires inside { IsInside 16 block (length samples.old) }
    ensures { samples.new ≡ inner_columns (filtered_line Simple limits) luma has_inner_edges block samples.old }
{
    if has_inner_edges {
        filter_column(limits, samples, block, 4);
        filter_column(limits, samples, block, 8);
        filter_column(limits, samples, block, 12);
    }
}

/// Filters the top edge of a block.
#[tactic(auto, unfolding(crate::specs::Blocks::top_edge))]
#[inline]
fn filter_top(limits: EdgeLimits, samples: &mut [u8], block: Block)
    requires limit { limits.edge < 255 }
    requires inside { IsInside 16 block (length samples.old) }
    ensures { samples.new ≡ top_edge (filtered_line Simple limits) 16 block samples.old }
{
    if !block.is_topmost {
        filter_row(limits, samples, block, 0);
    }
}

/// Filters the horizontal edges inside a block.
#[tactic(auto, unfolding(crate::specs::Blocks::inner_rows))]
#[inline]
fn filter_rows_inside(limits: EdgeLimits, has_inner_edges: bool, samples: &mut [u8], block: Block)
    requires limit { limits.edge < 255 }
    requires inside { IsInside 16 block (length samples.old) }
    ensures { samples.new ≡ inner_rows (filtered_line Simple limits) luma has_inner_edges block samples.old }
{
    if has_inner_edges {
        filter_row(limits, samples, block, 4);
        filter_row(limits, samples, block, 8);
        filter_row(limits, samples, block, 12);
    }
}

/// Filters a macroblock's block in luma by the simple filter, which leaves chroma unchanged.
#[inline]
pub(crate) fn filter_block(strength: Strength, samples: &mut [u8], block: Block)
    requires small { HasSmallLimits strength }
    requires inside { IsInside 16 block (length samples.old) }
    ensures { samples.new ≡ block_filtered luma true strength block samples.old }
{
    let outer = outer_limits(strength.limits);
    let inner = inner_limits(strength.limits);
    let has_inner_edges = strength.has_inner_edges;
    filter_left(outer, samples, block);
    filter_columns_inside(inner, has_inner_edges, samples, block);
    filter_top(outer, samples, block);
    filter_rows_inside(inner, has_inner_edges, samples, block);
}
