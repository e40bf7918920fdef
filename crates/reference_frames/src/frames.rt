//! The picture of a frame: its macroblocks row after row, each filtered after the next is predicted.

ghost use Rattle.std.specs.Prelude.{◌≡◌, ◌*◌, ◌+◌, ◌<◌, ◌≤◌, All, IfOk, None, length};
ghost use Rattle.std.specs.Option.{option_copied};
ghost use Rattle.loop_filter.specs.Frames.{filtered_planes};
ghost use Rattle.loop_filter.specs.Macroblocks.{IsFilterOf};
ghost use Rattle.pixel_planes.specs.Pictures.{macroblocks as macroblocks_of};
ghost use Rattle.pixel_planes.specs.PlaneSamples.{AreWhole, shown_of};
ghost use Rattle.reference_frames.specs.FrameTokens.{flags_of, residual_at};
ghost use Rattle.reference_frames.specs.FrameTokenValue.{state_of};
ghost use Rattle.reference_frames.specs.KeptBlocks.{AreTablesOf};
ghost use Rattle.reference_frames.specs.Rows.{DecodesRow};
ghost use Rattle.reference_frames.specs.Steps.{decoded_picture};
ghost use Rattle.reference_frames.specs.Unfiltered.{HaveRoomFor, SameShape, empty_planes, predicted_macroblocks};

use crate::frame_tokens::FrameTokens;
use crate::kept_blocks::TokenTables;
use crate::prediction::{Sources, predict_macroblock};
use crate::references::References;
use frame_header::Header;
use loop_filter::RowFilter;
use mode_parser::{Modes, Records};
use pixel_planes::{NoMemory, Picture, Planes, macroblocks};
use std::alloc::Global;

/// The macroblocks of a frame in raster order: their records, for so many columns and rows.
#[derive(Clone, Copy)]
struct Raster<'a> {
    columns: usize,
    rows: usize,
    modes: &'a Records,
}

/// A frame as its macroblocks are decoded: its header with its tables, the sources of prediction, and the
/// macroblocks.
#[derive(Clone, Copy)]
struct Frame<'a, 't> {
    header: &'a Header<'a>,
    tables: &'t TokenTables,
    sources: Sources<'a>,
    raster: Raster<'a>,
}

/// Predicts row `my` of the macroblocks, each by its record, and adds the residual of its tokens.
/// Appends for each whether one of its blocks has a token.
fn predict_row(
    frame: Frame,
    my: usize,
    planes: &mut Planes,
    tokens: &mut FrameTokens,
    flags: &mut Vec<bool>,
) -> Result<(), NoMemory>
    requires room { HaveRoomFor (shown_of planes.old) frame.raster.columns frame.raster.rows }
    requires each { length frame.raster.modes.now ≡ frame.raster.columns * frame.raster.rows }
    requires row { my < frame.raster.rows }
    requires tables { AreTablesOf frame.header.now frame.tables.now }
    requires some { 0 < length (state_of tokens.old).readers }
    requires above { length (state_of tokens.old).above ≡ frame.raster.columns }
    ensures value { IfOk result (λ done. DecodesRow frame.entry.sources.version (option_copied frame.entry.sources.references) frame.entry.header.now frame.entry.raster.columns frame.entry.raster.modes.now my frame.entry.raster.columns (record { state = state_of tokens.old; flags = flags.old.items; planes = shown_of planes.old }) (record { state = state_of tokens.new; flags = flags.new.items; planes = shown_of planes.new })) }
    ensures readers { IfOk result (λ done. length (state_of tokens.new).readers ≡ length (state_of tokens.old).readers) }
    ensures above { IfOk result (λ done. length (state_of tokens.new).above ≡ length (state_of tokens.old).above) }
    ensures sides { IfOk result (λ done. SameShape (shown_of planes.old) (shown_of planes.new)) }
{
    let Raster { columns, modes, .. } = frame.raster;
    for mx in 0..columns {
        let mode = modes.at(my * columns + mx);
        tokens.read(frame.header, frame.tables, mx, my, &mode);
        let residual = tokens.residual(&mode);
        predict_macroblock(planes, frame.sources, mx, my, &mode, residual);
        flags.push(tokens.has_tokens)?;
    }
    Ok(())
}

/// Decodes the macroblocks of a frame, row after row. A row is filtered after the next one is
/// predicted, which refers to its samples as they were before the filter.
fn decode_rows(
    alloc: Global,
    frame: Frame,
    filter: &RowFilter,
    planes: &mut Planes,
    tokens: &mut FrameTokens,
) -> Result<(), NoMemory>
    requires shape { AreWhole frame.raster.columns frame.raster.rows (shown_of planes.old) }
    requires small { (0 < frame.raster.columns) × (0 < frame.raster.rows) × (frame.raster.columns ≤ 1024) × (frame.raster.rows ≤ 1024) }
    requires each { length frame.raster.modes.now ≡ frame.raster.columns * frame.raster.rows }
    requires filter { IsFilterOf frame.header.now frame.raster.modes.now filter.now }
    requires tables { AreTablesOf frame.header.now frame.tables.now }
    requires some { 0 < length (state_of tokens.old).readers }
    requires above { length (state_of tokens.old).above ≡ frame.raster.columns }
    ensures value { IfOk result (λ done. shown_of planes.new ≡ filtered_planes frame.entry.header.now frame.entry.raster.modes.now (flags_of frame.entry.header.now frame.entry.raster.columns (state_of tokens.old) frame.entry.raster.modes.now) (predicted_macroblocks frame.entry.sources.version (option_copied frame.entry.sources.references) (shown_of planes.old) frame.entry.raster.columns frame.entry.raster.modes.now (residual_at frame.entry.header.now frame.entry.raster.columns (state_of tokens.old) frame.entry.raster.modes.now) (length frame.entry.raster.modes.now))) }
    ensures sides { IfOk result (λ done. SameShape (shown_of planes.old) (shown_of planes.new)) }
{
    let rows = frame.raster.rows;
    let mut flags = Vec::with_capacity(alloc, frame.raster.modes.len())?;
    for my in 0..rows + 1 {
        if my < rows {
            predict_row(frame, my, planes, tokens, &mut flags)?;
        }
        if my > 0 {
            filter.filter(&flags, planes, my - 1);
        }
    }
    Ok(())
}

/// The planes of a frame before its first macroblock is predicted, and its shown size. The planes of
/// a frame with references may hold anything: each sample is written before it is read.
pub(crate) struct Blank {
    pub planes: Planes,
    pub width: u16,
    pub height: u16,
}

/// Makes the picture of a frame in its blank planes from its packet, of which this is the header:
/// each macroblock is predicted by its record, of which there is one for each in raster order, and
/// the residual of its tokens is added to it (RFC 6386, sections 12 to 14 and 18). The result is
/// that of the loop filter over the whole (section 15).
///
/// `NoMemory` if memory for a plane's shared block, or for the state between macroblocks is refused.
pub(crate) fn decoded_picture(
    alloc: Global,
    packet: &[u8],
    header: &Header,
    references: Option<&References>,
    blank: Blank,
    modes: &Modes,
) -> Result<Picture, NoMemory>
    requires wide { (0 < blank.width) × (blank.width ≤ 16383) }
    requires high { (0 < blank.height) × (blank.height ≤ 16383) }
    requires shape { AreWhole (macroblocks_of blank.width) (macroblocks_of blank.height) (shown_of blank.planes) }
    requires empty { option_copied references ≡ None → shown_of blank.planes ≡ empty_planes (macroblocks_of blank.width) (macroblocks_of blank.height) }
    requires each { length modes.now.records ≡ macroblocks_of blank.width * macroblocks_of blank.height }
    requires some { 0 < length header.now.partitions.items }
    requires inside { All (λ place. place.start + place.length ≤ length packet.now) header.now.partitions.items }
    ensures { IfOk result (λ p. p ≡ decoded_picture packet.now header.now (option_copied references.entry) blank.width blank.height modes.now.records) }
{
    let Blank {
        mut planes,
        width,
        height,
    } = blank;
    let columns = macroblocks(width);
    let rows = macroblocks(height);
    let mut tokens = FrameTokens::new(alloc, packet, &header.partitions, columns)?;
    let tables = TokenTables::of(header);
    let frame = Frame {
        header,
        tables: &tables,
        sources: Sources {
            version: header.version,
            references,
        },
        raster: Raster {
            columns,
            rows,
            modes: modes.records(),
        },
    };
    let filter = RowFilter::new(header, modes);
    decode_rows(alloc, frame, &filter, &mut planes, &mut tokens)?;
    Picture::share(alloc, planes, width, height)
}
