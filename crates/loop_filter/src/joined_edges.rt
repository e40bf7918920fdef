//! Edges of all three planes, filtered together: sixteen lines of luma and eight of each chroma plane.

ghost use Rattle.std.specs.Prelude.{◌≡◌, ◌+◌, ◌*◌, ◌<◌, ◌≤◌, length};
ghost use Rattle.loop_filter.specs.Lines.{filtered_line};
ghost use Rattle.loop_filter.specs.Edges.{lines_filtered};
ghost use Rattle.loop_filter.specs.Columns.{HoldColumns};

use crate::edge_limits::{EdgeFilter, EdgeLimits};
use crate::kernels::filter as filter_wide;
use crate::taps::{Taps, filter_both};
use crate::{edges, pairs, wide_columns};

/// Where the first line of an edge begins, in luma and in each chroma plane, and the distance of
/// their rows, in samples.
#[derive(Clone, Copy)]
pub struct Starts {
    pub luma: usize,
    pub luma_stride: usize,
    pub chroma: usize,
    pub chroma_stride: usize,
}

/// Lines across an edge of all three planes: sixteen of luma, and eight of the plane `u` followed by
/// eight of the plane `v`.
#[derive(Clone, Copy)]
pub struct JoinedTaps {
    pub luma: Taps,
    pub chroma: Taps,
}

/// Filters the columns across an edge between rows: 16 in luma and 8 in each chroma plane. Returns
/// them, after the filter.
///
/// The first column of each plane begins four rows above the edge.
#[inline(always)]
pub fn filter_joined_rows(
    filter: EdgeFilter,
    limits: EdgeLimits,
    y: &mut [u8],
    u: &mut [u8],
    v: &mut [u8],
    at: Starts,
) -> JoinedTaps
    requires limit { limits.edge < 255 }
    requires wide { (16 ≤ at.luma_stride) × (8 ≤ at.chroma_stride) }
    requires room_y { at.luma + 7 * at.luma_stride + 16 ≤ length y.old }
    requires room_u { at.chroma + 7 * at.chroma_stride + 8 ≤ length u.old }
    requires room_v { at.chroma + 7 * at.chroma_stride + 8 ≤ length v.old }
    ensures y { y.new ≡ lines_filtered (filtered_line filter limits) at.luma 1 at.luma_stride y.old 16 }
    ensures u { u.new ≡ lines_filtered (filtered_line filter limits) at.chroma 1 at.chroma_stride u.old 8 }
    ensures v { v.new ≡ lines_filtered (filtered_line filter limits) at.chroma 1 at.chroma_stride v.old 8 }
    ensures lines { HoldColumns result at y.new u.new v.new }
{
    let luma = edges::load_rows(y, at.luma, at.luma_stride);
    let chroma = pairs::load_rows(u, v, at.chroma, at.chroma_stride);
    let (luma, chroma) = filter_both(filter, limits, luma, chroma);
    edges::store_rows(filter, luma, y, at.luma, at.luma_stride);
    pairs::store_rows(filter, chroma, u, v, at.chroma, at.chroma_stride);
    JoinedTaps { luma, chroma }
}

/// Filters the rows across an edge between columns: 16 in luma and 8 in each chroma plane.
///
/// The first row of each plane begins four columns to the left of the edge.
#[inline]
pub fn filter_joined_columns(
    filter: EdgeFilter,
    limits: EdgeLimits,
    y: &mut [u8],
    u: &mut [u8],
    v: &mut [u8],
    at: Starts,
)
    requires limit { limits.edge < 255 }
    requires wide { (8 ≤ at.luma_stride) × (8 ≤ at.chroma_stride) }
    requires room_y { at.luma + 15 * at.luma_stride + 8 ≤ length y.old }
    requires room_u { at.chroma + 7 * at.chroma_stride + 8 ≤ length u.old }
    requires room_v { at.chroma + 7 * at.chroma_stride + 8 ≤ length v.old }
    ensures y { y.new ≡ lines_filtered (filtered_line filter limits) at.luma at.luma_stride 1 y.old 16 }
    ensures u { u.new ≡ lines_filtered (filtered_line filter limits) at.chroma at.chroma_stride 1 u.old 8 }
    ensures v { v.new ≡ lines_filtered (filtered_line filter limits) at.chroma at.chroma_stride 1 v.old 8 }
{
    let taps = wide_columns::load_columns(y, u, v, at);
    let changed = filter_wide(filter, limits, taps);
    wide_columns::store_columns(changed, y, u, v, at);
}
