//! A macroblock's blocks in all three planes, by the normal filter (RFC 6386, section 15.3).

ghost use Rattle.std.specs.Prelude.{◌≡◌, ◌+◌, ◌-◌, ◌*◌, ◌<◌, ◌≤◌, false, length};
ghost use Rattle.loop_filter.specs.Lines.{inner_line, macroblock_line};
ghost use Rattle.loop_filter.specs.Blocks.{IsInside, HasSmallLimits, outer_limits, inner_limits, luma, chroma, left_edge, inner_columns, top_edge, inner_rows, block_filtered};
ghost use Rattle.loop_filter.specs.Macroblocks.{chroma_block};

use crate::blocks::{Block, inner_limits, outer_limits};
use crate::columns_inner::filter_inner_columns;
use crate::edge_limits::{EdgeFilter, EdgeLimits};
use crate::joined_edges::{Starts, filter_joined_columns, filter_joined_rows};
use crate::rows_inner::{filter_inner_rows, filter_top_and_inner_rows};
use crate::strengths::Strength;

/// The position of a macroblock's blocks among the samples of the planes.
#[derive(Clone, Copy)]
pub(crate) struct Macroblock {
    /// The position of its block in luma.
    pub(crate) luma: Block,
    /// The index of the first sample of its block in each chroma plane.
    pub(crate) chroma: usize,
    /// The distance to the start of the next row of those planes, in samples.
    pub(crate) chroma_stride: usize,
}

/// Where the blocks begin.
#[inline]
fn starts(at: Macroblock) -> Starts
    ensures luma { (result.luma ≡ at.luma.start) × (result.luma_stride ≡ at.luma.stride) }
    ensures chroma { (result.chroma ≡ at.chroma) × (result.chroma_stride ≡ at.chroma_stride) }
{
    Starts {
        luma: at.luma.start,
        luma_stride: at.luma.stride,
        chroma: at.chroma,
        chroma_stride: at.chroma_stride,
    }
}

/// Filters the left edges of the blocks.
#[tactic(auto, unfolding(crate::specs::Blocks::left_edge, crate::specs::Blocks::column_edge))]
#[inline]
fn filter_left(limits: EdgeLimits, y: &mut [u8], u: &mut [u8], v: &mut [u8], at: Macroblock)
    requires limit { limits.edge < 255 }
    requires inside_y { IsInside 16 at.luma (length y.old) }
    requires inside_u { IsInside 8 (chroma_block at) (length u.old) }
    requires inside_v { IsInside 8 (chroma_block at) (length v.old) }
    ensures y { y.new ≡ left_edge (macroblock_line limits) 16 at.luma y.old }
    ensures u { u.new ≡ left_edge (macroblock_line limits) 8 (chroma_block at) u.old }
    ensures v { v.new ≡ left_edge (macroblock_line limits) 8 (chroma_block at) v.old }
{
    if !at.luma.is_leftmost {
        let starts = Starts {
            luma: at.luma.start - 4,
            chroma: at.chroma - 4,
            ..starts(at)
        };
        filter_joined_columns(EdgeFilter::Macroblock, limits, y, u, v, starts);
    }
}

/// Filters the vertical edges inside the blocks.
#[tactic(auto, unfolding(crate::specs::Blocks::inner_columns, crate::specs::Blocks::column_edge))]
#[inline]
fn filter_columns_inside(
    limits: EdgeLimits,
    has_inner_edges: bool,
    y: &mut [u8],
    u: &mut [u8],
    v: &mut [u8],
    at: Macroblock,
)
    requires limit { limits.edge < 255 }
    requires inside_y { IsInside 16 at.luma (length y.old) }
    requires inside_u { IsInside 8 (chroma_block at) (length u.old) }
    requires inside_v { IsInside 8 (chroma_block at) (length v.old) }
    ensures y { y.new ≡ inner_columns (inner_line limits) luma has_inner_edges at.luma y.old }
    ensures u { u.new ≡ inner_columns (inner_line limits) chroma has_inner_edges (chroma_block at) u.old }
    ensures v { v.new ≡ inner_columns (inner_line limits) chroma has_inner_edges (chroma_block at) v.old }
{
    if has_inner_edges {
        filter_inner_columns(limits, y, u, v, starts(at));
    }
}

/// Where the columns across the top edges of the blocks begin: four rows above them.
#[inline]
fn starts_above(at: Macroblock) -> Starts
    requires luma { 4 * at.luma.stride ≤ at.luma.start }
    requires chroma { 4 * at.chroma_stride ≤ at.chroma }
    ensures luma { (result.luma ≡ at.luma.start - 4 * at.luma.stride) × (result.luma_stride ≡ at.luma.stride) }
    ensures chroma { (result.chroma ≡ at.chroma - 4 * at.chroma_stride) × (result.chroma_stride ≡ at.chroma_stride) }
{
    Starts {
        luma: at.luma.start - 4 * at.luma.stride,
        chroma: at.chroma - 4 * at.chroma_stride,
        ..starts(at)
    }
}

/// Filters the top edges of the blocks.
#[tactic(auto, unfolding(crate::specs::Blocks::top_edge, crate::specs::Blocks::row_edge))]
#[inline]
fn filter_top(limits: EdgeLimits, y: &mut [u8], u: &mut [u8], v: &mut [u8], at: Macroblock)
    requires limit { limits.edge < 255 }
    requires inside_y { IsInside 16 at.luma (length y.old) }
    requires inside_u { IsInside 8 (chroma_block at) (length u.old) }
    requires inside_v { IsInside 8 (chroma_block at) (length v.old) }
    ensures y { y.new ≡ top_edge (macroblock_line limits) 16 at.luma y.old }
    ensures u { u.new ≡ top_edge (macroblock_line limits) 8 (chroma_block at) u.old }
    ensures v { v.new ≡ top_edge (macroblock_line limits) 8 (chroma_block at) v.old }
{
    if !at.luma.is_topmost {
        filter_joined_rows(EdgeFilter::Macroblock, limits, y, u, v, starts_above(at));
    }
}

/// Filters the horizontal edges inside the blocks.
#[tactic(auto, unfolding(crate::specs::Blocks::inner_rows, crate::specs::Blocks::row_edge))]
#[inline]
fn filter_rows_inside(
    limits: EdgeLimits,
    has_inner_edges: bool,
    y: &mut [u8],
    u: &mut [u8],
    v: &mut [u8],
    at: Macroblock,
)
    requires limit { limits.edge < 255 }
    requires inside_y { IsInside 16 at.luma (length y.old) }
    requires inside_u { IsInside 8 (chroma_block at) (length u.old) }
    requires inside_v { IsInside 8 (chroma_block at) (length v.old) }
    ensures y { y.new ≡ inner_rows (inner_line limits) luma has_inner_edges at.luma y.old }
    ensures u { u.new ≡ inner_rows (inner_line limits) chroma has_inner_edges (chroma_block at) u.old }
    ensures v { v.new ≡ inner_rows (inner_line limits) chroma has_inner_edges (chroma_block at) v.old }
{
    if has_inner_edges {
        filter_inner_rows(limits, y, u, v, starts(at));
    }
}

/// Filters the top edges of the blocks, and the horizontal edges inside them.
#[tactic(auto, unfolding(crate::specs::Blocks::top_edge, crate::specs::Blocks::inner_rows, crate::specs::Blocks::row_edge))]
#[inline]
fn filter_between_rows(strength: Strength, y: &mut [u8], u: &mut [u8], v: &mut [u8], at: Macroblock)
    requires small { HasSmallLimits strength }
    requires inside_y { IsInside 16 at.luma (length y.old) }
    requires inside_u { IsInside 8 (chroma_block at) (length u.old) }
    requires inside_v { IsInside 8 (chroma_block at) (length v.old) }
    ensures y { y.new ≡ inner_rows (inner_line (inner_limits strength.limits)) luma strength.has_inner_edges at.luma (top_edge (macroblock_line (outer_limits strength.limits)) 16 at.luma y.old) }
    ensures u { u.new ≡ inner_rows (inner_line (inner_limits strength.limits)) chroma strength.has_inner_edges (chroma_block at) (top_edge (macroblock_line (outer_limits strength.limits)) 8 (chroma_block at) u.old) }
    ensures v { v.new ≡ inner_rows (inner_line (inner_limits strength.limits)) chroma strength.has_inner_edges (chroma_block at) (top_edge (macroblock_line (outer_limits strength.limits)) 8 (chroma_block at) v.old) }
{
    let outer = outer_limits(strength.limits);
    let inner = inner_limits(strength.limits);
    if strength.has_inner_edges && !at.luma.is_topmost {
        filter_top_and_inner_rows(outer, inner, y, u, v, starts_above(at));
    } else {
        filter_top(outer, y, u, v, at);
        filter_rows_inside(inner, strength.has_inner_edges, y, u, v, at);
    }
}

/// Filters a macroblock's blocks.
#[inline]
pub(crate) fn filter_macroblock(
    strength: Strength,
    y: &mut [u8],
    u: &mut [u8],
    v: &mut [u8],
    at: Macroblock,
)
    requires small { HasSmallLimits strength }
    requires inside_y { IsInside 16 at.luma (length y.old) }
    requires inside_u { IsInside 8 (chroma_block at) (length u.old) }
    requires inside_v { IsInside 8 (chroma_block at) (length v.old) }
    ensures y { y.new ≡ block_filtered luma false strength at.luma y.old }
    ensures u { u.new ≡ block_filtered chroma false strength (chroma_block at) u.old }
    ensures v { v.new ≡ block_filtered chroma false strength (chroma_block at) v.old }
{
    let outer = outer_limits(strength.limits);
    let inner = inner_limits(strength.limits);
    let has_inner_edges = strength.has_inner_edges;
    filter_left(outer, y, u, v, at);
    filter_columns_inside(inner, has_inner_edges, y, u, v, at);
    filter_between_rows(strength, y, u, v, at);
}
