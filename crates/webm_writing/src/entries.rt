// The parts of a file with one track of VP8, and its times.
ghost use Rattle.std.specs.Prelude.{◌≡◌, ◌^◌, ◌<◌, ◌≤◌, ◌⊎◌, IfNone, IfOk, IfSome, OnOk};
ghost use Rattle.std.specs.Io.KnownBytes.{Appends};
ghost use Rattle.webm_files.specs.declared.ids.TheConstants.{INFO, TRACKS};
ghost use Rattle.webm_writing.specs.Entries.{duration_of, info_text, time_of, tracks_text, video_text};

use super::samples::Part;
use byteorder::{BigEndian, WriteBytesExt};
use pixel_planes::NoMemory;
use std::alloc::Global;
use std::io::{self, Write};
use stream_files::{Bytes, FrameRate, Head};

/// The names of Info and Tracks.
const INFO: u32 = 0x1549_A966;

const TRACKS: u32 = 0x1654_AE6B;

/// The head of TimestampScale, with 4 bytes.
const TIMESTAMP_SCALE: [u8; 7] = [0x2A, 0xD7, 0xB1, 0x10, 0, 0, 4];
/// MuxingApp and WritingApp.
const APPS: [u8; 28] = *b"\x4D\x80\x10\0\0\x08wokureti\x57\x41\x10\0\0\x08wokureti";

/// The head of TrackEntry, with 69 bytes, TrackNumber, TrackUID, TrackType, FlagLacing, CodecID, and the head of DefaultDuration, with 8.
const TRACK: [u8; 47] =
    *b"\xAE\x10\0\0\x45\xD7\x10\0\0\x01\x01\x73\xC5\x10\0\0\x01\x01\x83\x10\0\0\x01\x01\x9C\x10\0\0\x01\0\x86\x10\0\0\x05V_VP8\x23\xE3\x83\x10\0\0\x08";
/// The head of Video, with 14 bytes, and that of PixelWidth in it, with 2.
const VIDEO: [u8; 10] = [0xE0, 0x10, 0, 0, 14, 0xB0, 0x10, 0, 0, 2];
/// The head of PixelHeight, with 2 bytes.
const PIXEL_HEIGHT: [u8; 5] = [0xBA, 0x10, 0, 0, 2];

/// Writes the content of Info.
fn write_info<W: Write>(w: &mut W, scale: u32) -> io::Result<()>
    ensures { OnOk result (Appends (W.contents w.old) (W.contents w.new) (info_text scale)) }
{
    w.write_all(&TIMESTAMP_SCALE)?;
    w.write_u32::<BigEndian>(scale)?;
    w.write_all(&APPS)
}

/// Writes Video.
fn write_video<W: Write>(w: &mut W, head: Head) -> io::Result<()>
    ensures { OnOk result (Appends (W.contents w.old) (W.contents w.new) (video_text head)) }
{
    w.write_all(&VIDEO)?;
    w.write_u16::<BigEndian>(head.width)?;
    w.write_all(&PIXEL_HEIGHT)?;
    w.write_u16::<BigEndian>(head.height)
}

/// Writes the content of Tracks.
fn write_tracks<W: Write>(w: &mut W, head: Head, duration: u64) -> io::Result<()>
    ensures { OnOk result (Appends (W.contents w.old) (W.contents w.new) (tracks_text head duration)) }
{
    w.write_all(&TRACK)?;
    w.write_u64::<BigEndian>(duration)?;
    write_video(w, head)
}

/// Info of a file whose times are in units of `scale` nanoseconds, written by `wokureti` (RFC 9559, section 5.1.2).
///
/// `NoMemory` if out of memory.
pub fn info_of(alloc: Global, scale: u32) -> Result<Part, NoMemory>
    ensures id { IfOk result (λ part. part.id ≡ INFO) }
    ensures content { IfOk result (λ part. part.content ≡ info_text scale) }
{
    let mut content = Vec::new(alloc);
    match write_info(&mut content, scale) {
        Ok(()) => Ok(Part {
            id: INFO,
            content: Bytes::new(content),
        }),
        Err(_) => Err(NoMemory),
    }
}

/// The nanoseconds for which a frame is shown, but not 0.
fn duration_of(frames: FrameRate) -> u64
    requires { 0 < frames.rate }
    ensures { result ≡ duration_of frames }
{
    let duration = 1_000_000_000 * u64::from(frames.scale) / u64::from(frames.rate);
    if duration == 0 { 1 } else { duration }
}

/// Tracks of a file with one track: VP8 with number 1 and pictures of the size of `head`, each shown for the time of one frame, but at least a nanosecond
/// (RFC 9559, section 5.1.4).
///
/// `NoMemory` if out of memory.
pub fn tracks_of(alloc: Global, head: Head, frames: FrameRate) -> Result<Part, NoMemory>
    requires { 0 < frames.rate }
    ensures id { IfOk result (λ part. part.id ≡ TRACKS) }
    ensures content { IfOk result (λ part. part.content ≡ tracks_text head (duration_of frames)) }
{
    let mut content = Vec::new(alloc);
    match write_tracks(&mut content, head, duration_of(frames)) {
        Ok(()) => Ok(Part {
            id: TRACKS,
            content: Bytes::new(content),
        }),
        Err(_) => Err(NoMemory),
    }
}

/// The time in milliseconds of a time stamp, which counts units of `head.scale / head.rate` seconds: the nearest one, and the later one of two that are as near.
/// `None` if it has more than 64 bits.
pub fn time_of(head: Head, stamp: u64) -> Option<u64>
    requires { 0 < head.rate }
    ensures none { IfNone result (2 ^ 64 ≤ time_of head stamp) }
    ensures time { IfSome result (λ time. time ≡ time_of head stamp) }
{
    let rate = u128::from(head.rate);
    let units = u128::from(head.scale) * u128::from(stamp);
    u64::try_from((2000 * units + rate) / (2 * rate)).ok()
}
