// Reads IVF files.
ghost use Rattle.std.specs.Prelude.{◌≡◌, IfOk, IfErr};
ghost use Rattle.std.specs.Rc.{rc_slice_items};
ghost use Rattle.stream_files.specs.Ivf.{HasHeader, IvfAnswers, IvfRefuses, head_of, header_length};
ghost use Rattle.stream_files.specs.Ivf.{ivf_fault_word};

use super::file_bytes::FileBytes;
use super::packets::Packets;
use super::records;
use super::streams::{Head, Stream};
use byteorder::{ByteOrder, LittleEndian};
use std::alloc::Global;
use std::rc::RcSlice;
use thiserror::Error;

/// Why bytes are not the text of an IVF file, in the order of the checks.
#[derive(Clone, Copy, Debug, PartialEq, Eq, Error)]
pub enum IvfFault {
    /// The file is shorter than the 32 bytes of a header.
    #[error("the file is shorter than a header")]
    Header,
    /// The file does not begin with `DKIF`.
    #[error("the file does not begin with DKIF")]
    Magic,
    /// The codec is not `VP80`.
    #[error("the file's codec is not VP80")]
    FourCc,
    /// The header's length is under 32 or past the end of the file.
    #[error("the header's length is under 32 or past the end")]
    HeaderLength,
    /// The file has more than `MAX_PACKETS` whole records.
    #[error("the file has too many packets")]
    TooMany,
    /// Out of memory for the packets.
    #[error("out of memory for the packets")]
    NoMemory,
}

impl IvfFault {
    /// The error's name.
    pub const fn word(self) -> &'static str
        ensures { result.now ≡ ivf_fault_word self }
    {
        match self {
            IvfFault::Header => "Header",
            IvfFault::Magic => "Magic",
            IvfFault::FourCc => "FourCc",
            IvfFault::HeaderLength => "HeaderLength",
            IvfFault::TooMany => "TooMany",
            IvfFault::NoMemory => "NoMemory",
        }
    }
}

/// The length of a header's fields, which is also the least header length.
const FIELDS: usize = 32;

/// An IVF header with width 0, height 0, rate 30, scale 1 and no packets.
pub const EMPTY: [u8; 32] = [
    b'D', b'K', b'I', b'F', 0, 0, 32, 0, b'V', b'P', b'8', b'0', 0, 0, 0, 0, 30, 0, 0, 0, 1, 0, 0,
    0, 0, 0, 0, 0, 0, 0, 0, 0,
];

/// The head of a file, and the length of its header.
fn read_head(bytes: &[u8]) -> Result<(Head, usize), IvfFault>
    ensures header { IfOk result (λ found. HasHeader bytes.now) }
    ensures head { IfOk result (λ found. found.0 ≡ head_of bytes.now) }
    ensures length { IfOk result (λ found. found.1 ≡ header_length bytes.now) }
    ensures refused { IfErr result (IvfRefuses bytes.now) }
{
    if bytes.len() < FIELDS {
        return Err(IvfFault::Header);
    }
    if &bytes[..4] != b"DKIF".as_slice() {
        return Err(IvfFault::Magic);
    }
    if &bytes[8..12] != b"VP80".as_slice() {
        return Err(IvfFault::FourCc);
    }
    let length = usize::from(LittleEndian::read_u16(&bytes[6..]));
    if length < FIELDS || length > bytes.len() {
        return Err(IvfFault::HeaderLength);
    }
    let head = Head {
        width: LittleEndian::read_u16(&bytes[12..]),
        height: LittleEndian::read_u16(&bytes[14..]),
        rate: LittleEndian::read_u32(&bytes[16..]),
        scale: LittleEndian::read_u32(&bytes[20..]),
    };
    Ok((head, length))
}

/// Reads an IVF file as [`ivf_read`] does, from bytes that are borrowed or shared: the packets of shared bytes are not copied.
pub fn ivf_read_from<B: FileBytes>(alloc: Global, file: &B) -> Result<Stream, IvfFault>
    ensures { IvfAnswers (B.bytes file.now) result }
{
    let bytes = file.whole();
    let (head, start) = read_head(bytes)?;
    let Some(count) = records::count_records(&bytes[start..]) else {
        return Err(IvfFault::TooMany);
    };
    let Ok((packets, end)) = records::read_records(alloc, file, start, count) else {
        return Err(IvfFault::NoMemory);
    };
    Ok(Stream {
        head,
        frame_rate: head.frame_rate(),
        packets,
        spare: (bytes.len() - end) as u64,
    })
}

/// Reads an IVF file.
///
/// Errors come in the order of [`IvfFault`]; `NoMemory` only if none of the others holds. The header's
/// version and frame count are ignored, and so are header bytes after the first 32. Each packet's bytes
/// are copied into memory of their own.
pub fn ivf_read(alloc: Global, bytes: &[u8]) -> Result<Stream, IvfFault>
    ensures { IvfAnswers bytes.now result }
{
    ivf_read_from(alloc, &bytes)
}

/// Reads an IVF file as [`ivf_read`] does, without a copy of its packets' bytes: each packet has a part of `file`, whose
/// bytes stay in memory as long as `file` or one of the packets.
pub fn ivf_share(alloc: Global, file: &RcSlice<u8>) -> Result<Stream, IvfFault>
    ensures { IvfAnswers (rc_slice_items file.now) result }
{
    ivf_read_from(alloc, file)
}
