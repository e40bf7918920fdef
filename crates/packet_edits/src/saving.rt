ghost use Rattle.std.specs.Prelude.{◌≡◌, ◌++◌, [], ◌∷◌, List, OnOk, map};
ghost use Rattle.std.specs.Io.KnownBytes.{Appends};
ghost use Rattle.stream_files.specs.Texts.{record_text, records_text};
ghost use Rattle.packet_edits.specs.Saved.{packet_of, padded_if, padded_packet_of, restamped, shown_durations};
ghost use Rattle.packet_times.specs.Clocks.{HasShown};
ghost use Rattle.packet_times.specs.declared.durations.Duration.{Duration};
ghost use Rattle.stream_files.specs.declared.streams.Head.{Head};

use crate::entry::Entry;
use crate::fault::RestampFault;
use chunked_list::ChunkedList;
use frame_header::{ends_empty, is_shown};
use packet_times::Clock;
use pixel_planes::NoMemory;
use std::alloc::Global;
use std::io::Write;
use stream_files::{Head, WriteFault, ivf_packet, ivf_padded_packet};

/// Writes the records of packets in sequence.
pub(crate) fn write_records<W: Write>(
    w: &mut W,
    entries: &ChunkedList<Entry>,
) -> Result<(), WriteFault>
    ensures { OnOk result (Appends (W.contents w.old) (W.contents w.new) (records_text (map packet_of entries.now))) }
{
    for i in 0..entries.len() {
        let entry = entries.get(i);
        ivf_packet(w, entry.stamp, entry.bytes.as_slice())?;
    }
    Ok(())
}

/// Writes the record of a packet, padded if its last token partition is empty.
fn write_padded<W: Write>(w: &mut W, entry: &Entry) -> Result<(), WriteFault>
    ensures { OnOk result (Appends (W.contents w.old) (W.contents w.new) (record_text (padded_packet_of entry.now))) }
{
    let bytes = entry.bytes.as_slice();
    if ends_empty(bytes) {
        ivf_padded_packet(w, entry.stamp, bytes)
    } else {
        ivf_packet(w, entry.stamp, bytes)
    }
}

/// Writes the records of packets in sequence, padded if their last token partition is empty.
pub(crate) fn write_padded_records<W: Write>(
    w: &mut W,
    entries: &ChunkedList<Entry>,
) -> Result<(), WriteFault>
    ensures { OnOk result (Appends (W.contents w.old) (W.contents w.new) (records_text (map padded_packet_of entries.now))) }
{
    for i in 0..entries.len() {
        write_padded(w, entries.get(i))?;
    }
    Ok(())
}

/// Writes the record of a packet with a time stamp, padded if that is asked for and its last token partition is empty.
fn write_stamped<W: Write>(
    w: &mut W,
    stamp: u64,
    bytes: &[u8],
    pads: bool,
) -> Result<(), WriteFault>
    ensures { OnOk result (Appends (W.contents w.old) (W.contents w.new) (record_text (padded_if pads (record { stamp = stamp; bytes = bytes.now })))) }
{
    if pads && ends_empty(bytes) {
        ivf_padded_packet(w, stamp, bytes)
    } else {
        ivf_packet(w, stamp, bytes)
    }
}

/// Shows a packet's frame for its duration, if the packet is shown.
fn pass(clock: &mut Clock, entry: &Entry) -> Result<(), NoMemory>
    ensures { OnOk result ((head : Head) (durations : List Duration) → HasShown head durations clock.old → HasShown head (durations ++ shown_durations (entry.now ∷ [])) clock.new) }
{
    if is_shown(entry.bytes.as_slice()) {
        clock.show(entry.duration)?;
    }
    Ok(())
}

/// Writes the records of packets in sequence, with new time stamps in the units of a head.
pub(crate) fn write_restamped_records<W: Write>(
    w: &mut W,
    alloc: Global,
    entries: &ChunkedList<Entry>,
    head: Head,
    pads: bool,
) -> Result<(), RestampFault>
    ensures { OnOk result (Appends (W.contents w.old) (W.contents w.new) (records_text (restamped pads head entries.now))) }
{
    let mut clock = Clock::starting(alloc, head);
    for i in 0..entries.len() {
        let entry = entries.get(i);
        let Ok(()) = write_stamped(w, clock.stamp(), entry.bytes.as_slice(), pads) else {
            return Err(RestampFault::Write);
        };
        let Ok(()) = pass(&mut clock, entry) else {
            return Err(RestampFault::NoMemory);
        };
    }
    Ok(())
}
