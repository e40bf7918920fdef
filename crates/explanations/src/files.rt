// Why a file is not read as a stream, and the record that the end of a file cuts off.
ghost use Rattle.std.specs.Prelude.{◌≡◌, ◌≤◌, ◌==◌, ◌||◌, not, List, IfNone, IfSome, if◌then◌else◌, length, nat_le};
ghost use Rattle.byteorder.specs.Endian.{little_number};
ghost use Rattle.stream_files.specs.Ivf.{HasRecord, Records, after_first, header_length};
ghost use Rattle.stream_files.specs.declared.packets.Packet.{Packet};
ghost use Rattle.explanations.specs.Files.{EndsWhole, IsCutRecord, given_length, is_gzip, is_text, is_zeros, kind_of, plain_kind, stream_reason};

use crate::lines::is_binary;
use byteorder::{ByteOrder, LittleEndian};
use command_lines::{Format, format_of};
use stream_sources::StreamFault;
use webm_files::is_marked;

/// Why the bytes of a file are not read as a stream.
#[derive(Clone, Copy, Debug, PartialEq, Eq)]
pub enum StreamReason {
    /// Fewer bytes than the header of an IVF file.
    Short,
    /// A file of another format.
    Other(Format),
    /// A file that gzip compressed.
    Gzip,
    /// It begins with zeros.
    Zeros,
    /// It begins as a text.
    Text,
    /// It does not begin as an IVF file.
    NoIvf,
    /// An IVF file of another codec.
    Codec,
    /// It begins with EBML's mark, and its EBML header is not whole.
    NoHeader,
    /// An EBML file that is neither WebM nor Matroska.
    OtherKind,
    /// A WebM file without Tracks.
    NoTracks,
    /// A WebM file without a track of VP8.
    NoVideo,
    /// A WebM file whose packets are compressed or encrypted once more.
    Encoded,
    /// A WebM file whose unit of time is not allowed.
    Scale,
    /// The header gives itself this length, which is under 32 or past the end of the file.
    HeaderLength(u16),
    /// More packets than are allowed.
    TooMany,
    /// A WebM file with more packets, elements or tracks than are allowed.
    TooManyParts,
    /// Out of memory for the packets.
    NoMemory,
}

/// A record that the end of a file cuts off.
#[derive(Clone, Copy, Debug, PartialEq, Eq)]
pub struct CutRecord {
    /// The number of whole records before it.
    pub number: u64,
    /// The index of its first byte in the file.
    pub begins: usize,
    /// The number of bytes that it claims for its packet, if the bytes that say so are there.
    pub size: Option<u32>,
}

fn is_gzip(bytes: &[u8]) -> bool
    ensures { result ≡ is_gzip bytes.now }
{
    bytes.starts_with(&[0x1F, 0x8B])
}

fn is_zeros(bytes: &[u8]) -> bool
    ensures { result ≡ is_zeros bytes.now }
{
    bytes.iter().all(|byte| *byte == 0)
}

fn is_text(bytes: &[u8]) -> bool
    ensures { result ≡ is_text bytes.now }
{
    bytes.iter().all(|byte| *byte == b'\n' || !is_binary(*byte))
}

/// The kind of a file that begins with these bytes and has no other format, if it is known.
fn plain_kind(bytes: &[u8]) -> Option<StreamReason>
    ensures { result ≡ plain_kind bytes.now }
{
    if bytes.is_empty() {
        None
    } else if is_gzip(bytes) {
        Some(StreamReason::Gzip)
    } else if is_zeros(bytes) {
        Some(StreamReason::Zeros)
    } else if is_text(bytes) {
        Some(StreamReason::Text)
    } else {
        None
    }
}

/// The kind of a file that begins with these bytes and not as an IVF file, if it is known.
fn kind_of(bytes: &[u8]) -> Option<StreamReason>
    ensures { result ≡ kind_of bytes.now }
{
    match format_of(bytes) {
        Some(format) => Some(StreamReason::Other(format)),
        None => plain_kind(bytes),
    }
}

/// The reason of an error in the bytes of a file, which begins with these.
pub fn stream_reason(bytes: &[u8], fault: StreamFault) -> StreamReason
    ensures { result ≡ stream_reason bytes.now fault }
{
    match fault {
        StreamFault::Header if is_marked(bytes) => StreamReason::NoHeader,
        StreamFault::Header => kind_of(bytes).unwrap_or(StreamReason::Short),
        StreamFault::Magic => kind_of(bytes).unwrap_or(StreamReason::NoIvf),
        StreamFault::FourCc => StreamReason::Codec,
        StreamFault::HeaderLength => StreamReason::HeaderLength(header_length(bytes)),
        StreamFault::DocType => StreamReason::OtherKind,
        StreamFault::NoTracks => StreamReason::NoTracks,
        StreamFault::NoVideo => StreamReason::NoVideo,
        StreamFault::Encoded => StreamReason::Encoded,
        StreamFault::Scale => StreamReason::Scale,
        StreamFault::TooMany if is_marked(bytes) => StreamReason::TooManyParts,
        StreamFault::TooMany => StreamReason::TooMany,
        StreamFault::NoMemory => StreamReason::NoMemory,
    }
}

/// The bytes after the whole record at the front, or `None` if there is none.
fn after_record(text: &[u8]) -> Option<&[u8]>
    ensures none { IfNone result (¬ HasRecord text.now) }
    ensures whole { IfSome result (λ following. HasRecord text.now) }
    ensures following { IfSome result (λ following. following.now ≡ after_first text.now) }
{
    if text.len() < 12 {
        return None;
    }
    let size = LittleEndian::read_u32(text) as usize;
    text[12..].get(size..)
}

/// The number of whole records at the front of a text, and the bytes after them.
fn whole_records(text: &[u8]) -> (u64, &[u8])
    ensures records { (packets : List Packet) × Records text.now packets result.1.now × (length packets ≡ result.0) }
    ensures over { ¬ HasRecord result.1.now }
    ensures within { length result.1.now ≤ length text.now }
{
    let mut rest = text;
    let mut count = 0;
    while let Some(following) = after_record(rest) {
        count += 1;
        rest = following;
    }
    (count, rest)
}

/// The length that the header of a file gives itself; 0 if it has no room for it.
fn header_length(bytes: &[u8]) -> u16
    ensures value { 8 ≤ length bytes.now → result ≡ header_length bytes.now }
    ensures given { result ≡ given_length bytes.now }
{
    if bytes.len() < 8 {
        return 0;
    }
    LittleEndian::read_u16(&bytes[6..])
}

/// The record that the end of a file of the codec VP8 cuts off. `None` if its last record is whole, and for
/// bytes that are shorter than the header.
pub fn cut_record(bytes: &[u8]) -> Option<CutRecord>
    ensures cut { IfSome result (IsCutRecord bytes.now) }
    ensures whole { IfNone result (32 ≤ length bytes.now → header_length bytes.now ≤ length bytes.now → EndsWhole bytes.now) }
{
    if bytes.len() < 32 {
        return None;
    }
    let text = bytes.get(usize::from(header_length(bytes))..)?;
    let (number, rest) = whole_records(text);
    if rest.is_empty() {
        return None;
    }
    Some(CutRecord {
        number,
        begins: bytes.len() - rest.len(),
        size: claimed_size(rest),
    })
}

/// The number of bytes that the record at the front claims for its packet.
fn claimed_size(text: &[u8]) -> Option<u32>
    ensures { result ≡ (if nat_le 4 (length text.now) then Some (little_number 4 text.now) else None) }
{
    if text.len() < 4 {
        return None;
    }
    Some(LittleEndian::read_u32(text))
}
