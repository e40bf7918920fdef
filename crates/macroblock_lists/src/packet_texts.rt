//! The text of a packet: the macroblocks of its frame, or its header.

ghost use Rattle.std.specs.Prelude.{◌≡◌, ◌+◌, ◌++◌, ◌<◌, ◌≤◌, false, length, All, IfErr, IfOk, IsSome, IsTrue, Ok, OnOk};
ghost use Rattle.std.specs.Option.{option_copied};
ghost use Rattle.std.specs.Io.KnownBytes.{Appends};
ghost use Rattle.frame_header.specs.Tags.{has_key_tag};
ghost use Rattle.frame_header.specs.declared.header.Header.{Header};
ghost use Rattle.pixel_planes.specs.Pictures.{macroblocks as macroblocks_of};
ghost use Rattle.reference_frames.specs.FrameTokens.{tokens_start};
ghost use Rattle.macroblock_lists.specs.Changes.{all_changes, probabilities_before};
ghost use Rattle.macroblock_lists.specs.FirstChains.{zeros_of};
ghost use Rattle.macroblock_lists.specs.Frames.{texts_of};
ghost use Rattle.macroblock_lists.specs.Fronts.{IsListEnd};
ghost use Rattle.macroblock_lists.specs.Known.{header_after, height_of, known_before, known_by, left_at, progress_after, step_of, width_of};
ghost use Rattle.macroblock_lists.specs.PartitionEnds.{marked_start, zeros_for};
ghost use Rattle.macroblock_lists.specs.Records.{marked_facts};
ghost use Rattle.header_bits.specs.Coded.{coded_in};
ghost use Rattle.macroblock_lists.specs.Texts.{comment_of, header_text, known_text, packet_text, text_by};

use crate::changes::{probabilities_before, write_changes};
use crate::frames::{Frame, write_frame};
use crate::known::{Knowledge, Known, context_of, frame_modes, known_after, size_of, step};
use crate::layouts::{Target, What};
use crate::listing::ListFault;
use crate::readings::{marked_first, prove_read};
use crate::records::{Records, read_own, read_records};
use crate::texts::{write_broken, write_comment, write_header, write_repeat_by};
use frame_header::{Cause, Header, has_key_tag, read_header, read_header_over};
use header_bits::read_coded;
use mode_parser::RecordFacts;
use pixel_planes::macroblocks;
use std::alloc::Global;
use std::io::Write;
use stream_files::WriteFault;
use stream_steps::Broken;
use vp8_tables::Tables;

/// The frame with this header and these records, before which this is known.
fn frame_of<'a, 'p>(
    header: &'a Header<'p>,
    before: Option<&Known>,
    records: &'a Records,
) -> Frame<'a, 'p>
    requires following { header.now.is_key ≡ false → IsSome before }
    requires wide { IsTrue header.now.is_key → (1 ≤ header.now.width) × (header.now.width ≤ 16383) }
    requires high { IsTrue header.now.is_key → (1 ≤ header.now.height) × (header.now.height ≤ 16383) }
    ensures header { result.header.now ≡ header.now }
    ensures records { result.records.now ≡ records.now }
    ensures columns { result.columns ≡ macroblocks_of (width_of header.now (option_copied before.entry)) }
    ensures rows { result.rows ≡ macroblocks_of (height_of header.now (option_copied before.entry)) }
    ensures wide { (0 < result.columns) × (result.columns ≤ 1024) }
    ensures high { (0 < result.rows) × (result.rows ≤ 1024) }
{
    let (width, height) = size_of(header, before);
    Frame {
        header,
        columns: macroblocks(width),
        rows: macroblocks(height),
        records,
    }
}

/// Writes the macroblocks of a packet with this frame, after a comment with its header.
fn write_commented<W: Write>(
    w: &mut W,
    alloc: Global,
    tables: &Tables,
    target: Target,
    packet: &[u8],
    frame: &Frame<'_, '_>,
) -> Result<(), ListFault>
    requires wide { (0 < frame.now.columns) × (frame.now.columns ≤ 1024) }
    requires high { (0 < frame.now.rows) × (frame.now.rows ≤ 1024) }
    requires some { 0 < length frame.now.header.now.partitions.items }
    requires inside { All (λ place. place.start + place.length ≤ length packet.now) frame.now.header.now.partitions.items }
    ensures written { OnOk result (Appends (W.contents w.old) (W.contents w.new) (comment_of target.form target.place frame.now.header.now (coded_in tables.now packet.now) ++ texts_of target.form target.place frame.now.header.now frame.now.columns (tokens_start frame.now.header.now.partitions.items packet.now frame.now.columns) (marked_start (zeros_for frame.now.columns frame.now.rows) frame.now.header.now.partitions.items packet.now frame.now.columns) frame.now.records.now.modes.records frame.now.records.now.facts.items)) }
    ensures early { IfErr result (IsListEnd (comment_of target.form target.place frame.now.header.now (coded_in tables.now packet.now) ++ texts_of target.form target.place frame.now.header.now frame.now.columns (tokens_start frame.now.header.now.partitions.items packet.now frame.now.columns) (marked_start (zeros_for frame.now.columns frame.now.rows) frame.now.header.now.partitions.items packet.now frame.now.columns) frame.now.records.now.modes.records frame.now.records.now.facts.items) (W.contents w.old) (W.contents w.new)) }
{
    write_comment(w, target.form, target.place, tables, packet, frame.header)?;
    write_frame(w, alloc, target, packet, frame)
}

/// Writes the macroblocks of a packet by the header and the records of its own first partition, with the bits that `marked` has of the
/// records, and returns what is known after it, or the cause against it.
fn write_own<W: Write>(
    w: &mut W,
    alloc: Global,
    tables: &Tables,
    target: Target,
    known: Option<&Known>,
    packet: &[u8],
    marked: &[RecordFacts],
) -> Result<Result<Known, Cause>, ListFault>
    requires known { known_before packet.now (option_copied known) ≡ option_copied known }
    requires marked { (header : Header) → header_after tables.now (option_copied known) packet.now ≡ Ok header → marked.now ≡ marked_facts tables.now (zeros_of (option_copied known) packet.now header) packet.now (option_copied known) }
    ensures written { OnOk result (Appends (W.contents w.old) (W.contents w.new) (text_by What.Macroblocks target.form target.place tables.now packet.now (option_copied known.entry) (header_after tables.now (option_copied known.entry) packet.now))) }
    ensures early { IfErr result (IsListEnd (text_by What.Macroblocks target.form target.place tables.now packet.now (option_copied known.entry) (header_after tables.now (option_copied known.entry) packet.now)) (W.contents w.old) (W.contents w.new)) }
    ensures after { IfOk result (λ after. after ≡ known_by tables.now (option_copied known.entry) (header_after tables.now (option_copied known.entry) packet.now)) }
{
    let Target { form, place, .. } = target;
    let header = match read_header(tables, context_of(known), packet) {
        Ok(header) => header,
        Err(cause) => {
            write_broken(w, form, place, Broken { place, cause })?;
            return Ok(Err(cause));
        }
    };
    let records = read_own(alloc, tables, &header, known, marked)?;
    write_commented(
        w,
        alloc,
        tables,
        target,
        packet,
        &frame_of(&header, known, &records),
    )?;
    Ok(Ok(known_after(&header, records.modes, known)))
}

/// Writes the macroblocks of a packet with bytes, before which this is known, and returns what is known after it, or the cause against
/// it. A packet with a key tag has nothing before it.
///
/// Header and records are read over the first partition with zeros and a mark after it. If no bit of these is left, or the header is
/// refused there, they are read over the packet's own.
fn write_macroblocks<W: Write>(
    w: &mut W,
    alloc: Global,
    tables: &Tables,
    target: Target,
    known: Option<&Known>,
    packet: &[u8],
) -> Result<Result<Known, Cause>, ListFault>
    requires known { known_before packet.now (option_copied known) ≡ option_copied known }
    ensures written { OnOk result (Appends (W.contents w.old) (W.contents w.new) (text_by What.Macroblocks target.form target.place tables.now packet.now (option_copied known.entry) (header_after tables.now (option_copied known.entry) packet.now))) }
    ensures early { IfErr result (IsListEnd (text_by What.Macroblocks target.form target.place tables.now packet.now (option_copied known.entry) (header_after tables.now (option_copied known.entry) packet.now)) (W.contents w.old) (W.contents w.new)) }
    ensures after { IfOk result (λ after. after ≡ known_by tables.now (option_copied known.entry) (header_after tables.now (option_copied known.entry) packet.now)) }
{
    let first = marked_first(alloc, known, packet)?;
    let text = first.text.as_slice();
    let Ok(header) = read_header_over(tables, context_of(known), packet, text) else {
        return write_own(w, alloc, tables, target, known, packet, &[]);
    };
    let records = read_records(alloc, tables, &header, known)?;
    let left = records.modes.left();
    if left == 0 {
        return write_own(w, alloc, tables, target, known, packet, &records.facts);
    }
    prove_read(tables, known);
    write_commented(
        w,
        alloc,
        tables,
        target,
        packet,
        &frame_of(&header, known, &records),
    )?;
    Ok(Ok(known_after(&header, records.modes, known)))
}

/// Writes the header of a packet with bytes, before which this is known, and the probabilities that it changes; the header, or the cause
/// against the packet. A packet with a key tag has nothing before it.
fn write_whole_header<'p, W: Write>(
    w: &mut W,
    tables: &Tables,
    target: Target,
    known: Option<&Known>,
    packet: &'p [u8],
) -> Result<Result<Header<'p>, Cause>, WriteFault>
    requires known { known_before packet.now (option_copied known) ≡ option_copied known }
    ensures written { OnOk result (Appends (W.contents w.old) (W.contents w.new) (text_by What.Header target.form target.place tables.now packet.now (option_copied known.entry) (header_after tables.now (option_copied known.entry) packet.now))) }
    ensures header { IfOk result (λ read. read ≡ header_after tables.now (option_copied known.entry) packet.now) }
    ensures following { IfOk result (λ read. IfOk read (λ header. header.is_key ≡ false → IsSome (option_copied known.entry))) }
    ensures wide { IfOk result (λ read. IfOk read (λ header. IsTrue header.is_key → (1 ≤ header.width) × (header.width ≤ 16383))) }
    ensures high { IfOk result (λ read. IfOk read (λ header. IsTrue header.is_key → (1 ≤ header.height) × (header.height ≤ 16383))) }
{
    let Target { form, place, .. } = target;
    let header = match read_header(tables, context_of(known), packet) {
        Ok(header) => header,
        Err(cause) => {
            write_broken(w, form, place, Broken { place, cause })?;
            return Ok(Err(cause));
        }
    };
    let old = probabilities_before(tables, header.is_key, known);
    write_header(w, form, place, &header, &read_coded(tables, packet))?;
    write_changes(w, form, place, &old, &header.context.probabilities)?;
    Ok(Ok(header))
}

/// Writes a packet with bytes, before which this is known. A packet with a key tag has nothing before it.
fn write_coded<W: Write>(
    w: &mut W,
    alloc: Global,
    tables: &Tables,
    target: Target,
    known: Option<&Known>,
    packet: &[u8],
) -> Result<(), ListFault>
    requires known { known_before packet.now (option_copied known) ≡ option_copied known }
    ensures written { OnOk result (Appends (W.contents w.old) (W.contents w.new) (text_by target.what target.form target.place tables.now packet.now (option_copied known.entry) (header_after tables.now (option_copied known.entry) packet.now))) }
    ensures early { IfErr result (IsListEnd (text_by target.what target.form target.place tables.now packet.now (option_copied known.entry) (header_after tables.now (option_copied known.entry) packet.now)) (W.contents w.old) (W.contents w.new)) }
{
    match target.what {
        What::Macroblocks => {
            let _after = write_macroblocks(w, alloc, tables, target, known, packet)?;
        }
        What::Header => {
            let _header = write_whole_header(w, tables, target, known, packet)?;
        }
    }
    Ok(())
}

/// Writes the header of a packet with bytes, as `write_whole_header` does, and returns what is known after it, or the cause against it. A
/// packet with a key tag has nothing before it.
fn write_header_step<W: Write>(
    w: &mut W,
    alloc: Global,
    tables: &Tables,
    target: Target,
    known: Option<&Known>,
    packet: &[u8],
) -> Result<Result<Known, Cause>, ListFault>
    requires known { known_before packet.now (option_copied known) ≡ option_copied known }
    ensures written { OnOk result (Appends (W.contents w.old) (W.contents w.new) (text_by What.Header target.form target.place tables.now packet.now (option_copied known.entry) (header_after tables.now (option_copied known.entry) packet.now))) }
    ensures early { IfErr result (IsListEnd (text_by What.Header target.form target.place tables.now packet.now (option_copied known.entry) (header_after tables.now (option_copied known.entry) packet.now)) (W.contents w.old) (W.contents w.new)) }
    ensures after { IfOk result (λ after. after ≡ known_by tables.now (option_copied known.entry) (header_after tables.now (option_copied known.entry) packet.now)) }
{
    let header = match write_whole_header(w, tables, target, known, packet)? {
        Ok(header) => header,
        Err(cause) => return Ok(Err(cause)),
    };
    let modes = frame_modes(alloc, tables, &header, known)?;
    Ok(Ok(known_after(&header, modes, known)))
}

/// Writes a packet with bytes, before which this is known, and returns what is known after it, or the cause against it. A packet with a
/// key tag has nothing before it.
fn write_coded_step<W: Write>(
    w: &mut W,
    alloc: Global,
    tables: &Tables,
    target: Target,
    known: Option<&Known>,
    packet: &[u8],
) -> Result<Result<Known, Cause>, ListFault>
    requires known { known_before packet.now (option_copied known) ≡ option_copied known }
    ensures written { OnOk result (Appends (W.contents w.old) (W.contents w.new) (text_by target.what target.form target.place tables.now packet.now (option_copied known.entry) (header_after tables.now (option_copied known.entry) packet.now))) }
    ensures early { IfErr result (IsListEnd (text_by target.what target.form target.place tables.now packet.now (option_copied known.entry) (header_after tables.now (option_copied known.entry) packet.now)) (W.contents w.old) (W.contents w.new)) }
    ensures after { IfOk result (λ after. after ≡ known_by tables.now (option_copied known.entry) (header_after tables.now (option_copied known.entry) packet.now)) }
{
    match target.what {
        What::Macroblocks => write_macroblocks(w, alloc, tables, target, known, packet),
        What::Header => write_header_step(w, alloc, tables, target, known, packet),
    }
}

/// Writes a packet before which this is known. A packet with a key tag has nothing before it.
fn write_known<W: Write>(
    w: &mut W,
    alloc: Global,
    tables: &Tables,
    target: Target,
    known: Option<&Known>,
    packet: &[u8],
) -> Result<(), ListFault>
    requires known { known_before packet.now (option_copied known) ≡ option_copied known }
    ensures written { OnOk result (Appends (W.contents w.old) (W.contents w.new) (known_text target.what target.form target.place tables.now (option_copied known.entry) packet.now)) }
    ensures early { IfErr result (IsListEnd (known_text target.what target.form target.place tables.now (option_copied known.entry) packet.now) (W.contents w.old) (W.contents w.new)) }
{
    if packet.is_empty() {
        write_repeat_by(w, target.form, target.place, known)?;
        return Ok(());
    }
    write_coded(w, alloc, tables, target, known, packet)
}

/// Writes a packet before which this is known, and returns what is known after it. A packet with a key tag has nothing before it.
fn write_known_step<W: Write>(
    w: &mut W,
    alloc: Global,
    tables: &Tables,
    target: Target,
    known: Option<Known>,
    packet: &[u8],
) -> Result<Knowledge, ListFault>
    requires known { known_before packet.now known ≡ known }
    ensures written { OnOk result (Appends (W.contents w.old) (W.contents w.new) (known_text target.what target.form target.place tables.now known packet.now)) }
    ensures early { IfErr result (IsListEnd (known_text target.what target.form target.place tables.now known packet.now) (W.contents w.old) (W.contents w.new)) }
    ensures after { IfOk result (λ after. after ≡ left_at target.place (step_of tables.now known packet.now)) }
{
    let Target { form, place, .. } = target;
    if packet.is_empty() {
        write_repeat_by(w, form, place, known.as_ref())?;
        return Ok(step(alloc, tables, place, known, packet)?);
    }
    match write_coded_step(w, alloc, tables, target, known.as_ref(), packet)? {
        Ok(known) => Ok(Ok(Some(known))),
        Err(cause) => Ok(Err(Broken { place, cause })),
    }
}

/// Writes a packet before which `progress` is known.
///
/// `NoMemory` if memory runs out for its records, partitions or flags: the front of the text was written. `Write` if the writer returns
/// an error: part of the text may have been written.
pub fn write_packet<W: Write>(
    w: &mut W,
    alloc: Global,
    tables: &Tables,
    target: Target,
    progress: &Knowledge,
    packet: &[u8],
) -> Result<(), ListFault>
    ensures written { OnOk result (Appends (W.contents w.old) (W.contents w.new) (packet_text target.what target.form target.place tables.now progress.now packet.now)) }
    ensures early { IfErr result (IsListEnd (packet_text target.what target.form target.place tables.now progress.now packet.now) (W.contents w.old) (W.contents w.new)) }
{
    if has_key_tag(packet) {
        return write_known(w, alloc, tables, target, None, packet);
    }
    match progress {
        Ok(known) => write_known(w, alloc, tables, target, known.as_ref(), packet),
        Err(broken) => {
            write_broken(w, target.form, target.place, *broken)?;
            Ok(())
        }
    }
}

/// Writes a packet before which `progress` is known, as `write_packet` does, and returns what is known after it. Its header and its modes
/// are read once for both.
pub(crate) fn write_step<W: Write>(
    w: &mut W,
    alloc: Global,
    tables: &Tables,
    target: Target,
    progress: Knowledge,
    packet: &[u8],
) -> Result<Knowledge, ListFault>
    ensures written { OnOk result (Appends (W.contents w.old) (W.contents w.new) (packet_text target.what target.form target.place tables.now progress packet.now)) }
    ensures early { IfErr result (IsListEnd (packet_text target.what target.form target.place tables.now progress packet.now) (W.contents w.old) (W.contents w.new)) }
    ensures after { IfOk result (λ after. after ≡ progress_after tables.now target.place progress packet.now) }
{
    if has_key_tag(packet) {
        return write_known_step(w, alloc, tables, target, None, packet);
    }
    match progress {
        Ok(known) => write_known_step(w, alloc, tables, target, known, packet),
        Err(broken) => {
            write_broken(w, target.form, target.place, broken)?;
            Ok(Err(broken))
        }
    }
}
