// Writes IVF files.
ghost use Rattle.std.specs.Prelude.{◌≡◌, ◌%◌, ◌++◌, [], ◌∷◌, OnOk};
ghost use Rattle.std.specs.Io.KnownBytes.{Appends};
ghost use Rattle.byteorder.specs.Endian.{little_bytes};
ghost use Rattle.stream_files.specs.Texts.{header_text, record_text};

use super::streams::Head;
use super::y4m::WriteFault;
use byteorder::{LittleEndian, WriteBytesExt};
use std::io::{self, Write};

/// The start of a header: its mark, version 0, its length of 32, and the codec.
const MARK: [u8; 12] = *b"DKIF\0\0\x20\0VP80";

/// The low 32 bits of a size.
fn field_of(size: usize) -> u32
    ensures { result ≡ size % 4294967296 }
{
    (size % 4_294_967_296) as u32
}

/// Writes the fields of a header in sequence.
fn write_header<W: Write>(w: &mut W, head: Head, count: u32) -> io::Result<()>
    ensures { OnOk result (Appends (W.contents w.old) (W.contents w.new) (header_text head count)) }
{
    w.write_all(&MARK)?;
    w.write_u16::<LittleEndian>(head.width)?;
    w.write_u16::<LittleEndian>(head.height)?;
    w.write_u32::<LittleEndian>(head.rate)?;
    w.write_u32::<LittleEndian>(head.scale)?;
    w.write_u32::<LittleEndian>(count)?;
    w.write_u32::<LittleEndian>(0)
}

/// Writes the header of an IVF file of `count` packets: version 0, length 32, and zeros in its
/// unused bytes.
///
/// `Write` if the writer returns an error; part of the header may have been written.
pub fn ivf_start<W: Write>(w: &mut W, head: Head, count: u32) -> Result<(), WriteFault>
    ensures { OnOk result (Appends (W.contents w.old) (W.contents w.new) (header_text head count)) }
{
    write_header(w, head, count).map_err(|_| WriteFault::Write)
}

/// Writes the fields of a record before its bytes: their number, and the time stamp.
fn write_front<W: Write>(w: &mut W, size: usize, stamp: u64) -> io::Result<()>
    ensures { OnOk result (Appends (W.contents w.old) (W.contents w.new) (little_bytes 4 size ++ little_bytes 8 stamp)) }
{
    w.write_u32::<LittleEndian>(field_of(size))?;
    w.write_u64::<LittleEndian>(stamp)
}

/// Writes the size of a packet, its time stamp and its bytes.
fn write_record<W: Write>(w: &mut W, stamp: u64, bytes: &[u8]) -> io::Result<()>
    ensures { OnOk result (Appends (W.contents w.old) (W.contents w.new)
        (record_text (record { stamp = stamp; bytes = bytes.now }))) }
{
    write_front(w, bytes.len(), stamp)?;
    w.write_all(bytes)
}

/// Writes the record of a packet: its size in bytes, its time stamp, and its bytes. The size of a packet of
/// 4,294,967,296 bytes or more does not fit its field; no reader returns such a packet.
///
/// `Write` if the writer returns an error; part of the record may have been written.
pub fn ivf_packet<W: Write>(w: &mut W, stamp: u64, bytes: &[u8]) -> Result<(), WriteFault>
    ensures { OnOk result (Appends (W.contents w.old) (W.contents w.new)
        (record_text (record { stamp = stamp; bytes = bytes.now }))) }
{
    write_record(w, stamp, bytes).map_err(|_| WriteFault::Write)
}

/// Writes the size of a packet with one more byte, its time stamp, its bytes and a byte 00.
fn write_padded_record<W: Write>(w: &mut W, stamp: u64, bytes: &[u8]) -> io::Result<()>
    ensures { OnOk result (Appends (W.contents w.old) (W.contents w.new)
        (record_text (record { stamp = stamp; bytes = bytes.now ++ 0 ∷ [] }))) }
{
    write_front(w, bytes.len() + 1, stamp)?;
    w.write_all(bytes)?;
    w.write_u8(0)
}

/// Writes the record of a packet with a byte 00 after its bytes, without a copy of them. The size of a
/// packet of 4,294,967,295 bytes or more does not fit its field.
///
/// `Write` if the writer returns an error; part of the record may have been written.
pub fn ivf_padded_packet<W: Write>(w: &mut W, stamp: u64, bytes: &[u8]) -> Result<(), WriteFault>
    ensures { OnOk result (Appends (W.contents w.old) (W.contents w.new)
        (record_text (record { stamp = stamp; bytes = bytes.now ++ 0 ∷ [] }))) }
{
    write_padded_record(w, stamp, bytes).map_err(|_| WriteFault::Write)
}
