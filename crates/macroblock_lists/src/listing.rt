//! The list of the macroblocks of packets, or of their headers.

ghost use Rattle.std.specs.Prelude.{◌≡◌, ◌⊎◌, ℕ, ◌+◌, ◌-◌, ◌<◌, ◌≤◌, ◌^◌, Ok, None, IfErr, IfOk, IfSome, OnOk, true, false, length, map, slice_get};
ghost use Rattle.std.specs.List.{flat_map, range_with_len};
ghost use Rattle.std.specs.Io.KnownBytes.{Appends};
ghost use Rattle.frame_header.specs.Tags.{has_key_tag};
ghost use Rattle.macroblock_lists.specs.Fronts.{IsListEnd, memory_fault, writer_fault};
ghost use Rattle.macroblock_lists.specs.Known.{progress_over};
ghost use Rattle.macroblock_lists.specs.ProofsOnly.{IsEnough};
ghost use Rattle.macroblock_lists.specs.Texts.{head_of, list_text, progress_before, text_at};

use crate::known::{Knowledge, progress_after};
use crate::layouts::{Form, Target, What};
use crate::packet_texts::{write_packet, write_step};
use frame_header::has_key_tag;
use pixel_planes::NoMemory;
use std::alloc::Global;
use std::io::Write;
use stream_facts::write_text;
use stream_files::{Packet, WriteFault};
use thiserror::Error;
use vp8_tables::Tables;

/// Why a list is not whole.
#[derive(Clone, Copy, Debug, PartialEq, Eq, Error)]
pub enum ListFault {
    /// Out of memory.
    #[error("no memory")]
    NoMemory,
    /// The writer returned an error.
    #[error("cannot write")]
    Write,
}

impl From<NoMemory> for ListFault {
    ghost from_gives = { λ _ told. told ≡ memory_fault };

    fn from(_fault: NoMemory) -> ListFault {
        ListFault::NoMemory
    }
}

impl From<WriteFault> for ListFault {
    ghost from_gives = { λ _ told. told ≡ writer_fault };

    fn from(_fault: WriteFault) -> ListFault {
        ListFault::Write
    }
}

/// What is written of which packets.
#[derive(Clone, Copy, Debug, PartialEq, Eq)]
pub struct Wanted {
    /// Macroblocks, or headers.
    pub what: What,
    /// Lines, or JSON objects.
    pub form: Form,
    /// The index of the first packet.
    pub first: usize,
    /// The number of packets.
    pub count: usize,
}

/// The names of the columns.
const HEAD: &str =
    "packet\tcolumn\trow\tsegment\tskip\treference\tluma\tchroma\tparts\tsplit\tvector\tquantizer\tlevel\tinterior_limit\thev_threshold\tmbedge_limit\tsub_bedge_limit\tinner\tblocks\tcoefficients\tgreatest\tmode_bits\ttoken_bits\n";

/// What is before the first packet.
fn head_of(what: What, form: Form) -> &'static str
    ensures { result.now ≡ head_of what form }
{
    match (what, form) {
        (What::Macroblocks, Form::Lines) => HEAD,
        (What::Macroblocks, Form::Objects) => "",
        (What::Header, _) => "",
    }
}

/// The index of the last packet with a key tag before an index, or 0.
fn key_before(packets: &[Packet], place: usize) -> usize
    requires { place ≤ length packets.now }
    ensures within { result ≤ place }
    ensures key { (result ≡ 0) ⊎ (result < place) × IfSome (slice_get packets.now result) (λ packet. has_key_tag packet.bytes ≡ true) }
    ensures last { (k : ℕ) → result < k → k < place → IfSome (slice_get packets.now k) (λ packet. has_key_tag packet.bytes ≡ false) }
{
    let mut start = place;
    while start > 0 {
        start -= 1;
        if has_key_tag(packets[start].bytes.as_slice()) {
            return start;
        }
    }
    0
}

/// The progress after packets, the first of which has the index `place` and no packet before it that counts.
fn progress_over(
    alloc: Global,
    tables: &Tables,
    place: usize,
    packets: &[Packet],
) -> Result<Knowledge, NoMemory>
    requires { place + length packets.now < 2 ^ 64 }
    ensures { IfOk result (λ progress. progress ≡ progress_over tables.now place (Ok None) (map (λ packet. packet.bytes) packets.now)) }
{
    let mut progress = Ok(None);
    for (index, packet) in packets.iter().enumerate() {
        progress = progress_after(
            alloc,
            tables,
            place + index,
            progress,
            packet.bytes.as_slice(),
        )?;
    }
    Ok(progress)
}

/// The progress before the packet at an index.
fn progress_before(
    alloc: Global,
    tables: &Tables,
    packets: &[Packet],
    place: usize,
) -> Result<Knowledge, NoMemory>
    requires { place ≤ length packets.now }
    ensures { IfOk result (λ progress. progress ≡ progress_before tables.now packets.now place) }
{
    let start = key_before(packets, place);
    progress_over(alloc, tables, start, &packets[start..place])
}

/// The progress that is needed before the packet at an index: nothing of one with a key tag.
fn progress_for(
    alloc: Global,
    tables: &Tables,
    packets: &[Packet],
    place: usize,
) -> Result<Knowledge, NoMemory>
    requires { place ≤ length packets.now }
    ensures { IfOk result (IsEnough tables.now packets.now place) }
{
    if place < packets.len() && has_key_tag(packets[place].bytes.as_slice()) {
        return Ok(Ok(None));
    }
    progress_before(alloc, tables, packets, place)
}

/// Writes the packet at an index; `progress` is enough before it.
fn write_last<W: Write>(
    w: &mut W,
    alloc: Global,
    tables: &Tables,
    target: Target,
    progress: &Knowledge,
    packets: &[Packet],
) -> Result<(), ListFault>
    requires inside { target.place < length packets.now }
    requires before { IsEnough tables.now packets.now target.place progress.now }
    ensures written { OnOk result (Appends (W.contents w.old) (W.contents w.new) (text_at target.what target.form tables.now packets.now target.place)) }
    ensures early { IfErr result (IsListEnd (text_at target.what target.form tables.now packets.now target.place) (W.contents w.old) (W.contents w.new)) }
{
    let packet = packets[target.place].bytes.as_slice();
    write_packet(w, alloc, tables, target, progress, packet)
}

/// Writes the packet at an index; `progress` is enough before it, and what is returned is known after it.
fn write_next<W: Write>(
    w: &mut W,
    alloc: Global,
    tables: &Tables,
    target: Target,
    progress: Knowledge,
    packets: &[Packet],
) -> Result<Knowledge, ListFault>
    requires inside { target.place < length packets.now }
    requires before { IsEnough tables.now packets.now target.place progress }
    ensures written { OnOk result (Appends (W.contents w.old) (W.contents w.new) (text_at target.what target.form tables.now packets.now target.place)) }
    ensures early { IfErr result (IsListEnd (text_at target.what target.form tables.now packets.now target.place) (W.contents w.old) (W.contents w.new)) }
    ensures after { IfOk result (IsEnough tables.now packets.now (target.place + 1)) }
{
    let packet = packets[target.place].bytes.as_slice();
    write_step(w, alloc, tables, target, progress, packet)
}

/// Writes packets but the last one of those that are wanted, of which there is one; `progress` is enough before the first. What is
/// returned is known before the last.
fn write_all_but_last<W: Write>(
    w: &mut W,
    alloc: Global,
    tables: &Tables,
    wanted: Wanted,
    progress: Knowledge,
    packets: &[Packet],
) -> Result<Knowledge, ListFault>
    requires some { 0 < wanted.count }
    requires inside { wanted.first + wanted.count ≤ length packets.now }
    requires before { IsEnough tables.now packets.now wanted.first progress }
    ensures written { OnOk result (Appends (W.contents w.old) (W.contents w.new) (flat_map (text_at wanted.what wanted.form tables.now packets.now) (range_with_len wanted.first (wanted.count - 1)))) }
    ensures early { IfErr result (IsListEnd (flat_map (text_at wanted.what wanted.form tables.now packets.now) (range_with_len wanted.first (wanted.count - 1))) (W.contents w.old) (W.contents w.new)) }
    ensures after { IfOk result (IsEnough tables.now packets.now (wanted.first + (wanted.count - 1))) }
{
    let Wanted {
        what,
        form,
        first,
        count,
    } = wanted;
    let mut progress = progress;
    for place in first..first + (count - 1) {
        let target = Target { what, form, place };
        progress = write_next(w, alloc, tables, target, progress, packets)?;
    }
    Ok(progress)
}

/// Writes packets, the first of which has the index `wanted.first`; `progress` is enough before it.
fn write_packets<W: Write>(
    w: &mut W,
    alloc: Global,
    tables: &Tables,
    wanted: Wanted,
    progress: Knowledge,
    packets: &[Packet],
) -> Result<(), ListFault>
    requires inside { wanted.first + wanted.count ≤ length packets.now }
    requires before { IsEnough tables.now packets.now wanted.first progress }
    ensures written { OnOk result (Appends (W.contents w.old) (W.contents w.new) (flat_map (text_at wanted.what wanted.form tables.now packets.now) (range_with_len wanted.first wanted.count))) }
    ensures early { IfErr result (IsListEnd (flat_map (text_at wanted.what wanted.form tables.now packets.now) (range_with_len wanted.first wanted.count)) (W.contents w.old) (W.contents w.new)) }
{
    if wanted.count == 0 {
        return Ok(());
    }
    let Wanted {
        what,
        form,
        first,
        count,
    } = wanted;
    let progress = write_all_but_last(w, alloc, tables, wanted, progress, packets)?;
    let place = first + (count - 1);
    write_last(
        w,
        alloc,
        tables,
        Target { what, form, place },
        &progress,
        packets,
    )
}

/// Writes the macroblocks of packets, each after a comment with its header, or the headers alone.
///
/// Headers and modes are read starting at the last packet with a key tag before the first packet that is
/// written, and tokens of the packets that are written. No sample is made. `NoMemory` if memory runs out for the
/// records, the partitions or the flags of a frame: the front of the text was written. `Write` if the writer returns an
/// error: part of the text may have been written.
pub fn write_list<W: Write>(
    w: &mut W,
    alloc: Global,
    tables: &Tables,
    wanted: Wanted,
    packets: &[Packet],
) -> Result<(), ListFault>
    requires { wanted.first + wanted.count ≤ length packets.now }
    ensures written { OnOk result (Appends (W.contents w.old) (W.contents w.new) (list_text wanted.what wanted.form tables.now packets.now wanted.first wanted.count)) }
    ensures early { IfErr result (IsListEnd (list_text wanted.what wanted.form tables.now packets.now wanted.first wanted.count) (W.contents w.old) (W.contents w.new)) }
{
    let progress = progress_for(alloc, tables, packets, wanted.first)?;
    write_text(w, head_of(wanted.what, wanted.form))?;
    write_packets(w, alloc, tables, wanted, progress, packets)
}
