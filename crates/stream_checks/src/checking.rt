//! The whole check of a file.

ghost use Rattle.std.specs.Prelude.{◌≡◌, ◌+◌, ◌≤◌, IfErr, IfOk, OnOk, length};
ghost use Rattle.std.specs.Io.KnownBytes.{Appends};
ghost use Rattle.stream_sources.specs.Sources.{IsSource};
ghost use Rattle.stream_checks.specs.Files.{findings};
ghost use Rattle.stream_checks.specs.Checks.{IsBegun, IsChecked, IsEarlyEnd, IsPacketEnd, findings_after, text_of_check};
ghost use Rattle.stream_checks.specs.Lines.{frames_of};
ghost use Rattle.stream_checks.specs.Severity.{tally_of};
ghost use Rattle.stream_checks.specs.Texts.{texts_of};

use crate::checker::Checker;
use crate::fault::CheckFault;
use crate::file::{write_head, write_tail};
use crate::finding::Tally;
use crate::packets::{PacketsBefore, ahead_of};
use crate::progress::Watch;
use crate::stamps::pace_of;
use crate::texts::write_end;
use macroblock_lists::Form;
use std::alloc::Global;
use std::io::Write;
use stream_files::Packet;
use stream_sources::Source;
use vp8_tables::Tables;

/// A file that is checked: its bytes, and what was read from them.
#[derive(Clone, Copy)]
pub struct CheckedFile<'a> {
    pub bytes: &'a [u8],
    pub source: &'a Source,
}

/// What a check of packets counts: what is found at them, and the frames that are shown up to the last one.
#[derive(Clone, Copy)]
struct Checked {
    tally: Tally,
    frames: usize,
}

/// Reads the packets after a checker's position and writes their findings, and returns their tally and the number of frames after them.
fn write_packets<W: Write, G: Watch>(
    w: &mut W,
    tables: &Tables,
    checker: Checker,
    packets: &[Packet],
    progress: &mut G,
) -> Result<Checked, CheckFault>
    requires few { checker.position.packets + length packets.now ≤ 1048576 }
    requires frames { checker.position.frames ≤ checker.position.packets }
    requires step { 1 ≤ checker.pace.step }
    ensures written { OnOk result (Appends (W.contents w.old) (W.contents w.new) (texts_of checker.form (findings_after tables.now checker packets.now))) }
    ensures counted { IfOk result (λ checked. checked.tally ≡ tally_of (findings_after tables.now checker packets.now)) }
    ensures few { IfOk result (λ checked. checked.tally.damage + checked.tally.notes ≤ 17825792) }
    ensures frames { IfOk result (λ checked. checked.frames ≡ checker.position.frames + frames_of packets.now) }
    ensures early { IfErr result (IsPacketEnd checker.form (findings_after tables.now checker packets.now) (W.contents w.old) (W.contents w.new)) }
{
    let mut checker = checker;
    let mut tally = Tally::none();
    let mut before = None;
    let mut rest = packets;
    while let Some((packet, following)) = rest.split_first() {
        let ahead = ahead_of(before, packet, following);
        match checker.next(w, tables, packet.stamp, packet.bytes.as_slice(), ahead) {
            Ok(more) => tally = tally.plus(more),
            Err(fault) => return Err(fault),
        }
        progress.packet_done(packets.len());
        before = Some(ahead);
        rest = following;
    }
    Ok(Checked {
        tally,
        frames: checker.position.frames,
    })
}

/// Checks a file: reads the headers, modes and tokens of its packets, writes what it finds, as lines or as objects, and
/// after lines one with the numbers of packets, frames and findings. It returns the tally of the
/// findings. They come in this order: at the header, at each packet, and at the end or, of a WebM file, besides the packets. Memory
/// is taken for the modes of a frame, its marked partitions, and the time stamps; no sample is made. `progress` is called after each packet.
///
/// `NoMemory` if memory runs out: the findings before were written whole. `Write` if the writer
/// returns an error; part of a line may have been written.
pub fn check<W: Write, G: Watch>(
    w: &mut W,
    alloc: Global,
    form: Form,
    tables: &Tables,
    file: CheckedFile<'_>,
    progress: &mut G,
) -> Result<Tally, CheckFault>
    requires { IsSource file.bytes.now file.source.now }
    ensures checked { IfOk result (λ tally. IsChecked form tables.now file.entry.bytes.now file.entry.source.now tally (W.contents w.old) (W.contents w.new)) }
    ensures early { IfErr result (IsEarlyEnd form tables.now file.entry.bytes.now file.entry.source.now (W.contents w.old) (W.contents w.new)) }
{
    let CheckedFile { bytes, source } = file;
    let packets = source.stream.packets.as_slice();
    let Ok(pace) = pace_of(alloc, packets) else {
        return Err(CheckFault::NoMemory);
    };
    let Ok(at_head) = write_head(w, form, bytes, source) else {
        return Err(CheckFault::Write);
    };
    let checker = Checker::new(alloc, form, pace, PacketsBefore::first(), Ok(None));
    let checked = match write_packets(w, tables, checker, packets, progress) {
        Ok(checked) => checked,
        Err(fault) => return Err(fault),
    };
    let Ok(at_end) = write_tail(w, form, bytes, source) else {
        return Err(CheckFault::Write);
    };
    let found = at_head.plus(checked.tally).plus(at_end);
    match write_end(w, form, packets.len(), checked.frames, found) {
        Ok(()) => Ok(found),
        Err(_) => Err(CheckFault::Write),
    }
}
