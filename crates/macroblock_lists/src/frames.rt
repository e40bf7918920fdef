//! The macroblocks of a frame, one after another.

ghost use Rattle.std.specs.Prelude.{◌≡◌, ◌<◌, ◌≤◌, ◌+◌, ◌*◌, ◌/◌, ◌%◌, false, true, length, slice_get, All, Err, OnOk, Some};
ghost use Rattle.std.specs.Io.KnownBytes.{Appends};
ghost use Rattle.reference_frames.specs.FrameTokens.{state_after, tokens_at, tokens_start};
ghost use Rattle.macroblock_lists.specs.PartitionEnds.{marked_start, zeros_for};
ghost use Rattle.macroblock_lists.specs.Frames.{macroblock_text, texts_of};
ghost use Rattle.macroblock_lists.specs.Macroblocks.{macroblock_of};
ghost use Rattle.macroblock_lists.specs.Records.{facts_in as facts_in_of};
ghost use Rattle.macroblock_lists.specs.ProofsOnly.{IsAfter, own_after};

use crate::layouts::{Form, Target};
use crate::lines::write_line;
use crate::listing::ListFault;
use crate::macroblocks::{Macroblock, filters_inside, index_of, level_in_force, limits_in_force};
use crate::objects::write_object;
use crate::partition_ends::zeros_for;
use crate::records::{Records, facts_in};
use crate::tokens::{FrameTokens, flag_with, marked_texts};
use frame_header::Header;
use mode_parser::MbMode;
use std::alloc::Global;
use std::io::Write;
use stream_files::WriteFault;
use token_parser::laws::tokens_are_chains;
use token_parser::{Rows, Tokens};

/// A frame that decoding accepts: its header, the number of its columns and rows of macroblocks, and their records.
#[derive(Drop)]
pub(crate) struct Frame<'a, 'p> {
    pub(crate) header: &'a Header<'p>,
    pub(crate) columns: usize,
    pub(crate) rows: usize,
    pub(crate) records: &'a Records,
}

/// The tokens of a frame between two of its macroblocks. They are read over its partitions with zeros and a mark after each: as long
/// as some of these bits are left, they are the tokens of the partitions themselves.
#[derive(Drop)]
struct Walk<'a, 'b> {
    odds: Rows,
    marked: FrameTokens<'b>,
    /// The tokens over the partitions themselves: at their start until they are needed.
    own: FrameTokens<'a>,
    reads_own: bool,
}

impl<'a, 'b> Walk<'a, 'b> {
    /// Reads the tokens of the macroblocks before macroblock `n` over the partitions themselves, if they were not read so far.
    fn catch_up(&mut self, frame: &Frame<'_, '_>, n: usize)
        requires columns { 0 < frame.now.columns }
        requires some { 0 < length self.old.own.readers }
        requires above { length self.old.own.above ≡ frame.now.columns }
        requires inside { n ≤ length frame.now.records.now.modes.records }
        ensures own { self.new.own ≡ own_after frame.now.header.now frame.now.columns frame.now.records.now.modes.records n self.old }
        ensures some { 0 < length self.new.own.readers }
        ensures above { length self.new.own.above ≡ frame.now.columns }
        ensures reads_own { self.new.reads_own ≡ true }
        ensures odds { self.new.odds ≡ self.old.odds }
        ensures marked { self.new.marked ≡ self.old.marked }
    {
        if !self.reads_own {
            let records = frame.records.modes.records();
            self.own.read_first(frame.header, frame.columns, records, n);
            self.reads_own = true;
        }
    }

    /// Reads the tokens of macroblock `n`, which is next, with this record.
    fn read(&mut self, frame: &Frame<'_, '_>, n: usize, mode: &MbMode) -> Tokens
        requires columns { 0 < frame.now.columns }
        requires before { IsAfter frame.now.header.now frame.now.columns frame.now.records.now.modes.records n self.old }
        requires mode { slice_get frame.now.records.now.modes.records n ≡ Some mode.now }
        ensures value { result ≡ (tokens_at frame.now.header.now.context.probabilities.coefficients (own_after frame.now.header.now frame.now.columns frame.now.records.now.modes.records n self.old) (n % frame.now.columns) (n / frame.now.columns) mode.now).0 }
        ensures marked { self.new.marked ≡ state_after frame.now.header.now frame.now.columns self.old.marked n (Some mode.now) }
        ensures own { own_after frame.now.header.now frame.now.columns frame.now.records.now.modes.records (n + 1) self.new ≡ state_after frame.now.header.now frame.now.columns (own_after frame.now.header.now frame.now.columns frame.now.records.now.modes.records n self.old) n (Some mode.now) }
        ensures after { IsAfter frame.now.header.now frame.now.columns frame.now.records.now.modes.records (n + 1) self.new }
    {
        tokens_are_chains(&frame.header.context.probabilities.coefficients);
        let mx = n % frame.columns;
        let my = n / frame.columns;
        let tokens = self.marked.read(&self.odds, mx, my, mode);
        let left = self.marked.left_at(my);
        if !self.reads_own && left > 0 {
            return tokens;
        }
        self.catch_up(frame, n);
        self.own.read(&self.odds, mx, my, mode)
    }

    /// Reads macroblock `n`, which is next, with this record.
    fn next(&mut self, frame: &Frame<'_, '_>, n: usize, mode: &MbMode) -> Macroblock
        requires columns { 0 < frame.now.columns }
        requires before { IsAfter frame.now.header.now frame.now.columns frame.now.records.now.modes.records n self.old }
        requires mode { slice_get frame.now.records.now.modes.records n ≡ Some mode.now }
        ensures value { result ≡ macroblock_of frame.now.header.now (n % frame.now.columns) (n / frame.now.columns) (own_after frame.now.header.now frame.now.columns frame.now.records.now.modes.records n self.old) self.old.marked mode.now (facts_in_of frame.now.records.now.facts.items n) }
        ensures marked { self.new.marked ≡ state_after frame.now.header.now frame.now.columns self.old.marked n (Some mode.now) }
        ensures own { own_after frame.now.header.now frame.now.columns frame.now.records.now.modes.records (n + 1) self.new ≡ state_after frame.now.header.now frame.now.columns (own_after frame.now.header.now frame.now.columns frame.now.records.now.modes.records n self.old) n (Some mode.now) }
        ensures after { IsAfter frame.now.header.now frame.now.columns frame.now.records.now.modes.records (n + 1) self.new }
    {
        let header = frame.header;
        let row = n / frame.columns;
        let facts = facts_in(frame.records.facts.as_slice(), n);
        let left = self.marked.left_at(row);
        let tokens = self.read(frame, n, mode);
        let token_bits = left.saturating_sub(self.marked.left_at(row));
        let level = level_in_force(header, mode);
        Macroblock {
            column: n % frame.columns,
            row,
            mode: *mode,
            split: facts.split,
            quantizer: index_of(header, mode.segment),
            level,
            limits: limits_in_force(header, level),
            filters_inside: filters_inside(mode, level, flag_with(mode, &tokens)),
            coefficients: tokens.coefficients,
            mode_bits: facts.bits,
            token_bits,
        }
    }
}

/// Writes a macroblock of the packet at this index.
fn write_macroblock<W: Write>(
    w: &mut W,
    form: Form,
    packet: usize,
    macroblock: &Macroblock,
) -> Result<(), WriteFault>
    ensures { OnOk result (Appends (W.contents w.old) (W.contents w.new) (macroblock_text form packet macroblock.now)) }
{
    match form {
        Form::Lines => write_line(w, packet, macroblock),
        Form::Objects => write_object(w, packet, macroblock),
    }
}

/// Writes the macroblocks of a frame, in raster order.
fn write_macroblocks<W: Write>(
    w: &mut W,
    target: Target,
    frame: &Frame<'_, '_>,
    walk: &mut Walk,
) -> Result<(), WriteFault>
    requires columns { 0 < frame.now.columns }
    requires start { IsAfter frame.now.header.now frame.now.columns frame.now.records.now.modes.records 0 walk.old }
    requires own { walk.old.reads_own ≡ false }
    ensures { OnOk result (Appends (W.contents w.old) (W.contents w.new) (texts_of target.form target.place frame.now.header.now frame.now.columns walk.old.own walk.old.marked frame.now.records.now.modes.records frame.now.records.now.facts.items)) }
{
    let records = frame.records.modes.records();
    for n in 0..records.len() {
        let mode = records.at(n).mode();
        let macroblock = walk.next(frame, n, &mode);
        write_macroblock(w, target.form, target.place, &macroblock)?;
    }
    Ok(())
}

/// Writes the macroblocks of a packet with this frame.
pub(crate) fn write_frame<W: Write>(
    w: &mut W,
    alloc: Global,
    target: Target,
    packet: &[u8],
    frame: &Frame<'_, '_>,
) -> Result<(), ListFault>
    requires wide { (0 < frame.now.columns) × (frame.now.columns ≤ 1024) }
    requires high { (0 < frame.now.rows) × (frame.now.rows ≤ 1024) }
    requires some { 0 < length frame.now.header.now.partitions.items }
    requires inside { All (λ place. place.start + place.length ≤ length packet.now) frame.now.header.now.partitions.items }
    ensures written { OnOk result (Appends (W.contents w.old) (W.contents w.new) (texts_of target.form target.place frame.now.header.now frame.now.columns (tokens_start frame.now.header.now.partitions.items packet.now frame.now.columns) (marked_start (zeros_for frame.now.columns frame.now.rows) frame.now.header.now.partitions.items packet.now frame.now.columns) frame.now.records.now.modes.records frame.now.records.now.facts.items)) }
    ensures memory { result ≡ Err ListFault.NoMemory → W.contents w.new ≡ W.contents w.old }
{
    let columns = frame.columns;
    let partitions = frame.header.partitions.as_slice();
    let texts = marked_texts(alloc, zeros_for(columns, frame.rows), packet, partitions)?;
    let marked = FrameTokens::over_texts(alloc, &texts, columns)?;
    let own = FrameTokens::new(alloc, packet, partitions, columns)?;
    let mut walk = Walk {
        odds: Rows::of(&frame.header.context.probabilities.coefficients),
        marked,
        own,
        reads_own: false,
    };
    write_macroblocks(w, target, frame, &mut walk)?;
    Ok(())
}
