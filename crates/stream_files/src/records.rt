// The records of an IVF file.
ghost use Rattle.std.specs.Prelude.{◌≡◌, ◌+◌, ◌≤◌, List, drop, length, IfOk, IfNone, IfSome};
ghost use Rattle.byteorder.specs.Endian.{little_number};
ghost use Rattle.stream_files.specs.Ivf.{HasRecord, HasTooMany, IsRecordCount, Records};
ghost use Rattle.stream_files.specs.declared.packets.Packet.{Packet};

use super::file_bytes::FileBytes;
use super::packets::{MAX_PACKETS, Packet, Packets};
use byteorder::{ByteOrder, LittleEndian};
use pixel_planes::NoMemory;
use std::alloc::Global;

/// The number of bytes before a record's packet: its size and its time stamp.
const RECORD_HEAD: usize = 12;

/// The head of a whole record: its packet's time stamp and size in bytes.
#[derive(Clone, Copy)]
struct Record {
    stamp: u64,
    size: usize,
}

/// The head of the record at the front, or `None` if there is no whole one.
fn first_record(text: &[u8]) -> Option<Record>
    ensures none { IfNone result (¬ HasRecord text.now) }
    ensures whole { IfSome result (λ first. HasRecord text.now) }
    ensures stamp { IfSome result (λ first. first.stamp ≡ little_number 8 (drop 4 text.now)) }
    ensures size { IfSome result (λ first. first.size ≡ little_number 4 text.now) }
    ensures inside { IfSome result (λ first. 12 + first.size ≤ length text.now) }
{
    if text.len() < RECORD_HEAD {
        return None;
    }
    let size = LittleEndian::read_u32(text) as usize;
    if text.len() - RECORD_HEAD < size {
        return None;
    }
    let stamp = LittleEndian::read_u64(&text[4..]);
    Some(Record { stamp, size })
}

/// The number of whole records at the front, or `None` if there are more than `MAX_PACKETS`.
pub(crate) fn count_records(text: &[u8]) -> Option<usize>
    ensures none { IfNone result (HasTooMany text.now) }
    ensures some { IfSome result (λ count. IsRecordCount text.now count) }
    ensures few { IfSome result (λ count. count ≤ MAX_PACKETS) }
{
    let mut rest = text;
    let mut count = 0;
    while let Some(record) = first_record(rest) {
        if count == MAX_PACKETS {
            return None;
        }
        count += 1;
        rest = &rest[RECORD_HEAD..][record.size..];
    }
    Some(count)
}

/// The packets of the whole records of a file from index `start` on, with room for `count` from the start,
/// and the index after them.
pub(crate) fn read_records<B: FileBytes>(
    alloc: Global,
    file: &B,
    start: usize,
    count: usize,
) -> Result<(Packets, usize), NoMemory>
    requires { start ≤ length (B.bytes file.now) }
    ensures records { IfOk result (λ found. Records (drop start (B.bytes file.now)) found.0 (drop found.1 (B.bytes file.now))) }
    ensures over { IfOk result (λ found. ¬ HasRecord (drop found.1 (B.bytes file.now))) }
    ensures end { IfOk result (λ found. found.1 ≤ length (B.bytes file.now)) }
{
    let bytes = file.whole();
    let mut packets = Vec::with_capacity(alloc, count)?;
    let mut at = start;
    while let Some(record) = first_record(&bytes[at..]) {
        at += RECORD_HEAD;
        packets.push(Packet {
            stamp: record.stamp,
            bytes: file.part(alloc, at, record.size)?,
        })?;
        at += record.size;
    }
    Ok((Packets::new(packets), at))
}
