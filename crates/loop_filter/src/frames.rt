//! The filter of a frame: its macroblocks in raster order (RFC 6386, section 15.1).

ghost use Rattle.std.specs.Prelude.{◌≡◌, ◌+◌, ◌-◌, ◌*◌, ◌<◌, ◌≤◌, true, false, length, IfSome};
ghost use Rattle.pixel_planes.specs.Pictures.{HasBlocks};
ghost use Rattle.pixel_planes.specs.PlaneSamples.{shown_of};
ghost use Rattle.loop_filter.specs.Blocks.{HasSmallLimits, luma, chroma};
ghost use Rattle.loop_filter.specs.Frames.{HaveBlocks, KeepSides, HasOldBorder, columns_in, rows_in, filtered_planes, filtered_row};
ghost use Rattle.loop_filter.specs.Strengths.{AreLimits};
ghost use Rattle.loop_filter.specs.Macroblocks.{IsFrame, IsFilterOf, IsPlane, HasFlags, chroma_block, plane_in, block_apart, strengths, macroblock_filtered, row_of_all, with_row_filtered};

use crate::blocks::{Block, filter_block};
use crate::edge_limits::Limits;
use crate::macroblocks::{Macroblock, filter_macroblock};
use crate::strengths::{Strength, limits_of_levels, strength_for};
use frame_header::Header;
use mode_parser::{Modes, Records};
use pixel_planes::{Plane, Planes};

/// The macroblocks of a frame, in raster order, their number each way, and the limits of each
/// level. There are flags of the macroblocks up to the end of the row that is filtered.
#[derive(Clone, Copy)]
struct Macroblocks<'a> {
    header: &'a Header<'a>,
    records: &'a Records,
    flags: &'a [bool],
    columns: usize,
    rows: usize,
    limits: &'a [Limits; 64],
}

/// The filter limits of the macroblock at an index.
#[inline]
#[tactic(auto, unfolding(crate::specs::Frames::strength_at))]
fn strength_at(all: Macroblocks, place: usize) -> Option<Strength>
    requires record { place < length all.records.now }
    requires flag { place < length all.flags.now }
    requires limits { AreLimits all.header.now.filter.sharpness all.header.now.is_key all.limits.now }
    ensures value { result ≡ strengths all.entry place }
    ensures small { IfSome result HasSmallLimits }
{
    let mode = all.records.at(place);
    let (segment, y_mode) = (mode.segment(), mode.y_mode());
    strength_for(all.header, all.limits, segment, y_mode, all.flags[place])
}

/// The position of the block of the macroblock in column `mx` of row `my` among the samples of a
/// plane whose rows are `stride` apart.
#[inline]
fn block_at(side: usize, stride: usize, mx: usize, my: usize) -> Block
    requires small { (side ≤ 16) × (stride ≤ 16512) × (mx ≤ 1024) × (my ≤ 1024) }
    ensures { result ≡ block_apart side stride mx my }
{
    let row = side * stride;
    Block {
        start: my * row + side * mx,
        stride,
        is_leftmost: mx == 0,
        is_topmost: my == 0,
    }
}

/// Filters the luma of the macroblock in column `mx` of row `my` by the simple filter.
#[inline]
#[tactic(auto, unfolding(crate::specs::Blocks::filtered_by))]
fn filter_luma_block(all: Macroblocks, samples: &mut [u8], stride: usize, mx: usize, my: usize)
    requires simple { all.header.now.filter.is_simple ≡ true }
    requires frame { IsFrame all }
    requires plane { IsPlane 16 all stride (length samples.old) }
    requires place { (mx < all.columns) × (my < all.rows) }
    requires flags { HasFlags all my }
    ensures { samples.new ≡ macroblock_filtered luma all.entry stride mx my samples.old }
{
    if let Some(strength) = strength_at(all, my * all.columns + mx) {
        let block = block_at(16, stride, mx, my);
        filter_block(strength, samples, block);
    }
}

/// Filters the luma of a row of macroblocks by the simple filter.
fn filter_luma_row(all: Macroblocks, samples: &mut [u8], stride: usize, my: usize)
    requires simple { all.header.now.filter.is_simple ≡ true }
    requires frame { IsFrame all }
    requires plane { IsPlane 16 all stride (length samples.old) }
    requires place { my < all.rows }
    requires flags { HasFlags all my }
    ensures { plane_in luma all.entry stride samples.new ≡ row_of_all luma all.entry my (plane_in luma all.entry stride samples.old) all.entry.columns }
{
    for mx in 0..all.columns {
        filter_luma_block(all, samples, stride, mx, my);
    }
}

/// Filters a row of macroblocks in the luma plane by the simple filter.
fn filter_luma_plane(all: Macroblocks, plane: &mut Plane, my: usize)
    requires simple { all.header.now.filter.is_simple ≡ true }
    requires frame { IsFrame all }
    requires blocks { HasBlocks plane.old.shown 16 all.columns all.rows }
    requires place { my < all.rows }
    requires flags { HasFlags all my }
    ensures { plane.new ≡ with_row_filtered luma all.entry my plane.old }
{
    let stride = plane.stride();
    filter_luma_row(all, plane.rows_mut(), stride, my);
}

/// The distance of rows in luma, and in both chroma planes, in samples.
#[derive(Clone, Copy)]
struct Strides {
    luma: usize,
    chroma: usize,
}

/// The position of the blocks of the macroblock in column `mx` of row `my`.
#[inline]
fn macroblock_at(strides: Strides, mx: usize, my: usize) -> Macroblock
    requires luma { strides.luma ≤ 16512 }
    requires chroma { strides.chroma ≤ 16512 }
    requires place { (mx ≤ 1024) × (my ≤ 1024) }
    ensures luma { result.luma ≡ block_apart 16 strides.luma mx my }
    ensures chroma { chroma_block result ≡ block_apart 8 strides.chroma mx my }
{
    let chroma = block_at(8, strides.chroma, mx, my);
    Macroblock {
        luma: block_at(16, strides.luma, mx, my),
        chroma: chroma.start,
        chroma_stride: chroma.stride,
    }
}

/// A macroblock, by its column and its row.
#[derive(Clone, Copy)]
struct MacroblockPosition {
    mx: usize,
    my: usize,
}

/// Filters the macroblock at a place by the normal filter.
#[inline]
#[tactic(auto, unfolding(crate::specs::Blocks::filtered_by))]
fn filter_blocks(
    all: Macroblocks,
    y: &mut [u8],
    cb: &mut [u8],
    cr: &mut [u8],
    strides: Strides,
    at: MacroblockPosition,
)
    requires normal { all.header.now.filter.is_simple ≡ false }
    requires frame { IsFrame all }
    requires y { IsPlane 16 all strides.luma (length y.old) }
    requires cb { IsPlane 8 all strides.chroma (length cb.old) }
    requires cr { IsPlane 8 all strides.chroma (length cr.old) }
    requires place { (at.mx < all.columns) × (at.my < all.rows) }
    requires flags { HasFlags all at.my }
    ensures y { y.new ≡ macroblock_filtered luma all.entry strides.luma at.mx at.my y.old }
    ensures cb { cb.new ≡ macroblock_filtered chroma all.entry strides.chroma at.mx at.my cb.old }
    ensures cr { cr.new ≡ macroblock_filtered chroma all.entry strides.chroma at.mx at.my cr.old }
{
    if let Some(strength) = strength_at(all, at.my * all.columns + at.mx) {
        let blocks = macroblock_at(strides, at.mx, at.my);
        filter_macroblock(strength, y, cb, cr, blocks);
    }
}

/// Filters a row of macroblocks by the normal filter.
fn filter_row(
    all: Macroblocks,
    y: &mut [u8],
    cb: &mut [u8],
    cr: &mut [u8],
    strides: Strides,
    my: usize,
)
    requires normal { all.header.now.filter.is_simple ≡ false }
    requires frame { IsFrame all }
    requires y { IsPlane 16 all strides.luma (length y.old) }
    requires cb { IsPlane 8 all strides.chroma (length cb.old) }
    requires cr { IsPlane 8 all strides.chroma (length cr.old) }
    requires place { my < all.rows }
    requires flags { HasFlags all my }
    ensures y { plane_in luma all.entry strides.luma y.new ≡ row_of_all luma all.entry my (plane_in luma all.entry strides.luma y.old) all.entry.columns }
    ensures cb { plane_in chroma all.entry strides.chroma cb.new ≡ row_of_all chroma all.entry my (plane_in chroma all.entry strides.chroma cb.old) all.entry.columns }
    ensures cr { plane_in chroma all.entry strides.chroma cr.new ≡ row_of_all chroma all.entry my (plane_in chroma all.entry strides.chroma cr.old) all.entry.columns }
{
    for mx in 0..all.columns {
        filter_blocks(all, y, cb, cr, strides, MacroblockPosition { mx, my });
    }
}

/// Filters a row of macroblocks in all three planes by the normal filter.
fn filter_all_planes(all: Macroblocks, y: &mut Plane, cb: &mut Plane, cr: &mut Plane, my: usize)
    requires normal { all.header.now.filter.is_simple ≡ false }
    requires frame { IsFrame all }
    requires y { HasBlocks y.old.shown 16 all.columns all.rows }
    requires cb { HasBlocks cb.old.shown 8 all.columns all.rows }
    requires cr { HasBlocks cr.old.shown 8 all.columns all.rows }
    requires place { my < all.rows }
    requires flags { HasFlags all my }
    ensures y { y.new ≡ with_row_filtered luma all.entry my y.old }
    ensures cb { cb.new ≡ with_row_filtered chroma all.entry my cb.old }
    ensures cr { cr.new ≡ with_row_filtered chroma all.entry my cr.old }
{
    let strides = Strides {
        luma: y.stride(),
        chroma: cb.stride(),
    };
    if cr.stride() == strides.chroma {
        let (y, cb, cr) = (y.rows_mut(), cb.rows_mut(), cr.rows_mut());
        filter_row(all, y, cb, cr, strides, my);
    } else {
        filter_flat_chroma(all, y, cb, cr, my);
    }
}

/// For other programs, since planes of a picture have one border. Filters a row of macroblocks in planes of
/// which the two of chroma have borders of different widths.
fn filter_flat_chroma(all: Macroblocks, y: &mut Plane, cb: &mut Plane, cr: &mut Plane, my: usize)
    requires normal { all.header.now.filter.is_simple ≡ false }
    requires frame { IsFrame all }
    requires y { HasBlocks y.old.shown 16 all.columns all.rows }
    requires cb { HasBlocks cb.old.shown 8 all.columns all.rows }
    requires cr { HasBlocks cr.old.shown 8 all.columns all.rows }
    requires place { my < all.rows }
    requires flags { HasFlags all my }
    ensures y { y.new ≡ with_row_filtered luma all.entry my y.old }
    ensures cb { cb.new ≡ with_row_filtered chroma all.entry my cb.old }
    ensures cr { cr.new ≡ with_row_filtered chroma all.entry my cr.old }
{
    let strides = Strides {
        luma: y.stride(),
        chroma: cb.width(),
    };
    let (y, cb, cr) = (y.rows_mut(), cb.samples_mut(), cr.samples_mut());
    filter_row(all, y, cb, cr, strides, my);
}

/// The loop filter of a frame whose macroblocks are filtered one row after another (RFC 6386,
/// section 15.1): the frame's header, its records, one for each macroblock in raster order, and the
/// limits of each level.
#[derive(Clone, Copy)]
pub struct RowFilter<'a> {
    pub(crate) header: &'a Header<'a>,
    pub(crate) records: &'a Records,
    pub(crate) limits: [Limits; 64],
}

impl<'a> RowFilter<'a> {
    /// The filter of a frame with this header and these modes.
    pub fn new(header: &'a Header<'a>, modes: &'a Modes) -> RowFilter<'a>
        ensures { IsFilterOf header.now modes.now.records result }
    {
        RowFilter {
            header,
            records: modes.records(),
            limits: limits_of_levels(header.filter.sharpness, header.is_key),
        }
    }

    /// Filters row `my` of the macroblocks, after the rows above it. There is a flag for each
    /// macroblock of this row and of those above it, in raster order: it is set if some block of its
    /// macroblock has a token.
    ///
    /// The planes consist of whole macroblocks, of 16 by 16 samples in luma and 8 by 8 in chroma. It
    /// reads and writes no sample below the row. If the level of the frame is 0 the planes are
    /// unchanged, and with the simple filter chroma is; the border of a filtered plane is out of
    /// date.
    #[tactic(auto, unfolding(crate::specs::Frames::filtered_row))]
    pub fn filter(&self, flags: &[bool], planes: &mut Planes, my: usize)
        requires filter { AreLimits self.now.header.now.filter.sharpness self.now.header.now.is_key self.now.limits }
        requires blocks { HaveBlocks (shown_of planes.old) (columns_in (shown_of planes.old)) (rows_in (shown_of planes.old)) }
        requires records { length self.now.records.now ≡ columns_in (shown_of planes.old) * rows_in (shown_of planes.old) }
        requires row { my < rows_in (shown_of planes.old) }
        requires flags { (my + 1) * columns_in (shown_of planes.old) ≤ length flags.now }
        ensures value { shown_of planes.new ≡ filtered_row self.now.header.now self.now.records.now flags.now my (shown_of planes.old) }
        ensures sides { KeepSides (shown_of planes.old) (shown_of planes.new) }
        ensures unfiltered { self.now.header.now.filter.level ≡ 0 → planes.new ≡ planes.old }
        ensures luma_border { 0 < self.now.header.now.filter.level → HasOldBorder planes.old.luma planes.new.luma }
        ensures chroma_borders { 0 < self.now.header.now.filter.level → self.now.header.now.filter.is_simple ≡ false → HasOldBorder planes.old.cb planes.new.cb × HasOldBorder planes.old.cr planes.new.cr }
        ensures simple { self.now.header.now.filter.is_simple ≡ true → (planes.new.cb ≡ planes.old.cb) × (planes.new.cr ≡ planes.old.cr) }
    {
        if self.header.filter.level == 0 {
            return;
        }
        let all = Macroblocks {
            header: self.header,
            records: self.records,
            flags,
            columns: planes.luma.width() / 16,
            rows: planes.luma.height() / 16,
            limits: &self.limits,
        };
        if self.header.filter.is_simple {
            filter_luma_plane(all, &mut planes.luma, my);
        } else {
            filter_all_planes(all, &mut planes.luma, &mut planes.cb, &mut planes.cr, my);
        }
    }
}

/// Filters the planes of a frame by its records and flags, one for each macroblock in raster order
/// (RFC 6386, section 15.1). A flag is set if some block of its macroblock has a token.
///
/// The planes consist of whole macroblocks, of 16 by 16 samples in luma and 8 by 8 in chroma. If
/// the level of the frame is 0 they are unchanged, and with the simple filter chroma is; the border
/// of a filtered plane is out of date.
pub fn frame(header: &Header, modes: &Modes, flags: &[bool], planes: &mut Planes)
    requires blocks { HaveBlocks (shown_of planes.old) (columns_in (shown_of planes.old)) (rows_in (shown_of planes.old)) }
    requires records { length modes.now.records ≡ columns_in (shown_of planes.old) * rows_in (shown_of planes.old) }
    requires flags { length flags.now ≡ columns_in (shown_of planes.old) * rows_in (shown_of planes.old) }
    ensures value { shown_of planes.new ≡ filtered_planes header.now modes.now.records flags.now (shown_of planes.old) }
    ensures sides { KeepSides (shown_of planes.old) (shown_of planes.new) }
    ensures unfiltered { header.now.filter.level ≡ 0 → planes.new ≡ planes.old }
    ensures luma_border { 0 < header.now.filter.level → HasOldBorder planes.old.luma planes.new.luma }
    ensures chroma_borders { 0 < header.now.filter.level → header.now.filter.is_simple ≡ false → HasOldBorder planes.old.cb planes.new.cb × HasOldBorder planes.old.cr planes.new.cr }
    ensures simple { header.now.filter.is_simple ≡ true → (planes.new.cb ≡ planes.old.cb) × (planes.new.cr ≡ planes.old.cr) }
{
    let filter = RowFilter::new(header, modes);
    for my in 0..planes.luma.height() / 16 {
        filter.filter(flags, planes, my);
    }
}
