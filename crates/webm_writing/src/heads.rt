// Writes elements.
ghost use Rattle.std.specs.Prelude.{◌≡◌, ◌+◌, ◌^◌, ◌<◌, ◌≤◌, if◌then◌else◌, ◌++◌, [], ◌∷◌, length, OnOk};
ghost use Rattle.std.specs.Io.KnownBytes.{Appends};
ghost use Rattle.byteorder.specs.Endian.{big_bytes};
ghost use Rattle.webm_writing.specs.Pieces.{piece_text, text_of};
ghost use Rattle.webm_writing.specs.Written.{block_content, block_length, block_piece, part_piece, whole};
ghost use Rattle.webm_files.specs.declared.ids.TheConstants.{TIMESTAMP};

use super::samples::{Part, Sample};
use byteorder::{BigEndian, WriteBytesExt};
use std::io::{self, Write};

/// The bit that marks a length of four bytes, and of eight.
const SHORT: u32 = 268_435_456;

const LONG: u64 = 72_057_594_037_927_936;

/// Writes the head of an element that is opened, with a name of four bytes: its content has so many bytes.
pub(crate) fn write_open<W: Write>(w: &mut W, id: u32, size: u64) -> io::Result<()>
    requires { size < 2 ^ 56 }
    ensures { OnOk result (Appends (W.contents w.old) (W.contents w.new) (big_bytes 4 id ++ big_bytes 8 (72057594037927936 + size))) }
{
    w.write_u32::<BigEndian>(id)?;
    w.write_u64::<BigEndian>(LONG + size)
}

/// Writes the head of an element with a name of four bytes, whose content has so many bytes.
pub(crate) fn write_head<W: Write>(w: &mut W, id: u32, size: u32) -> io::Result<()>
    requires { size < 268435456 }
    ensures { OnOk result (Appends (W.contents w.old) (W.contents w.new) (big_bytes 4 id ++ big_bytes 4 (268435456 + size))) }
{
    w.write_u32::<BigEndian>(id)?;
    w.write_u32::<BigEndian>(SHORT + size)
}

/// Writes a part.
pub(crate) fn write_part<W: Write>(w: &mut W, part: &Part) -> io::Result<()>
    requires { length part.now.content + 1 < 268435456 }
    ensures { OnOk result (Appends (W.contents w.old) (W.contents w.new) (piece_text (part_piece part.now))) }
{
    let content = part.content.as_slice();
    w.write_u32::<BigEndian>(part.id)?;
    w.write_u32::<BigEndian>(SHORT + content.len() as u32)?;
    w.write_all(content)
}

/// Writes the time of a cluster.
pub(crate) fn write_time<W: Write>(w: &mut W, stamp: u64) -> io::Result<()>
    ensures { OnOk result (Appends (W.contents w.old) (W.contents w.new) (piece_text (whole TIMESTAMP 1 (big_bytes 8 stamp)))) }
{
    w.write_u8(0xE7)?;
    w.write_u32::<BigEndian>(SHORT + 8)?;
    w.write_u64::<BigEndian>(stamp)
}

/// Writes the head of a block whose content has so many bytes.
fn write_block_head<W: Write>(w: &mut W, size: usize) -> io::Result<()>
    requires { size < 2 ^ 56 }
    ensures { OnOk result (Appends (W.contents w.old) (W.contents w.new) (163 ∷ block_length size)) }
{
    w.write_u8(0xA3)?;
    if size + 1 < 268_435_456 {
        w.write_u32::<BigEndian>(SHORT + size as u32)
    } else {
        w.write_u64::<BigEndian>(LONG + size as u64)
    }
}

/// The flags of a block.
fn flags_of(sample: &Sample) -> u8
    ensures { result ≡ (if sample.now.is_key then 128 else 0) }
{
    if sample.is_key { 128 } else { 0 }
}

/// Writes the content of a block.
fn write_content<W: Write>(w: &mut W, base: u64, sample: &Sample) -> io::Result<()>
    requires track { sample.now.track < 128 }
    requires time { base ≤ sample.now.stamp }
    requires near { sample.now.stamp < base + 32768 }
    ensures { OnOk result (Appends (W.contents w.old) (W.contents w.new) (block_content base sample.now)) }
{
    w.write_u8(128 + sample.track)?;
    w.write_u16::<BigEndian>((sample.stamp - base) as u16)?;
    w.write_u8(flags_of(sample))?;
    w.write_all(sample.bytes.as_slice())
}

/// Writes a packet of a cluster with this time.
#[tactic(auto, using(crate::proofs::Composed::block_written))]
pub(crate) fn write_block<W: Write>(w: &mut W, base: u64, sample: &Sample) -> io::Result<()>
    requires track { sample.now.track < 128 }
    requires time { base ≤ sample.now.stamp }
    requires near { sample.now.stamp < base + 32768 }
    requires size { length sample.now.bytes + 5 < 2 ^ 56 }
    ensures { OnOk result (Appends (W.contents w.old) (W.contents w.new) (piece_text (block_piece base sample.now))) }
{
    write_block_head(w, 4 + sample.bytes.as_slice().len())?;
    write_content(w, base, sample)
}
