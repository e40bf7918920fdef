//! How far decoding reads each partition of a packet, without its samples.

ghost use Rattle.std.specs.Prelude.{◌≡◌, ◌+◌, ◌*◌, ◌<◌, ◌≤◌, [], false, length, All, IfOk, IsSome, IsTrue};
ghost use Rattle.std.specs.Option.{option_copied};
ghost use Rattle.frame_header.specs.Tags.{has_key_tag};
ghost use Rattle.macroblock_lists.specs.FirstChains.{columns_of, rows_of, zeros_of};
ghost use Rattle.macroblock_lists.specs.Known.{header_after, known_before, known_by, left_at, progress_after, step_of};
ghost use Rattle.macroblock_lists.specs.PartitionEnds.{bytes_past, bytes_unread, end_of, ends_before, frame_token_ends, no_ends, partition_ends_of, token_ends, zeros_for};
ghost use Rattle.macroblock_lists.specs.ProofsOnly.{IsFirstEnd, known_with};

use crate::known::{Knowledge, Known, context_of, frame_modes, known_after, size_of, step};
use crate::readings::{marked_first, prove_read};
use crate::tokens::{FrameTokens, marked_texts};
use arrayvec::ArrayVec;
use frame_header::{Header, PartitionRange, has_key_tag, read_header, read_header_over};
use mode_parser::{Modes, Records};
use pixel_planes::{NoMemory, macroblocks};
use std::alloc::Global;
use stream_steps::Broken;
use vp8_tables::Tables;

/// Where decoding ends in a partition: past its end, or before it, or just at it.
#[derive(Clone, Copy, Debug, Default, PartialEq, Eq)]
pub struct PartitionEnd {
    /// The number of bytes that the partition has.
    pub size: usize,
    /// How many bytes decoding reads past its end. It reads zeros there; libvpx calls the frame corrupt if it is a token partition,
    /// and reads on in the bytes after a first partition.
    pub past: usize,
    /// How many of its last bytes are never read.
    pub unread: usize,
}

/// Where decoding ends in each partition of a packet.
#[derive(Debug, Drop)]
pub struct PartitionEnds {
    /// In the first partition.
    pub first: PartitionEnd,
    /// In each token partition; of a packet that is not decoded there are none.
    pub tokens: ArrayVec<PartitionEnd, 8>,
}

impl PartitionEnds {
    /// Those of a packet that is not decoded.
    fn none() -> PartitionEnds
        ensures { result ≡ no_ends }
    {
        PartitionEnds {
            first: NO_END,
            tokens: ArrayVec::new(),
        }
    }
}

/// A partition of no bytes, of which none is read.
const NO_END: PartitionEnd = PartitionEnd {
    size: 0,
    past: 0,
    unread: 0,
};

/// How many zero bytes are put after a partition, in a frame of so many macroblocks.
pub(crate) fn zeros_for(columns: usize, rows: usize) -> usize
    requires wide { columns ≤ 1024 }
    requires high { rows ≤ 1024 }
    ensures value { result ≡ zeros_for columns rows }
    ensures few { result ≤ 4194368 }
{
    64 + 4 * (columns * rows)
}

/// How many bytes were read past the end of a partition of `size` bytes, of whose zeros and mark
/// so many bits are left.
fn bytes_past(zeros: usize, size: usize, left: u128) -> usize
    requires { zeros ≤ 4194368 }
    ensures { result ≡ bytes_past zeros size left }
{
    let zeros_bits = 8 * zeros as u128;
    let after = if size == 0 {
        zeros_bits
    } else {
        zeros_bits + 8
    };
    let bytes = (after.saturating_sub(left) + 7) / 8;
    bytes.min(zeros as u128) as usize
}

/// How many bytes of a partition of `size` bytes are not read, if so many bits are left of it, its
/// zeros and its mark.
fn bytes_unread(zeros: usize, size: usize, left: u128) -> usize
    requires { zeros ≤ 4194368 }
    ensures { result ≡ bytes_unread zeros size left }
{
    let after = 8 * zeros as u128 + 8;
    let bytes = left.saturating_sub(after) / 8;
    bytes.min(size as u128) as usize
}

/// Where reading ended in a partition of `size` bytes, if so many bits are left of it, its zeros and
/// its mark.
fn end_of(zeros: usize, size: usize, left: u128) -> PartitionEnd
    requires { zeros ≤ 4194368 }
    ensures { result ≡ end_of zeros size left }
{
    PartitionEnd {
        size,
        past: bytes_past(zeros, size, left),
        unread: bytes_unread(zeros, size, left),
    }
}

/// Where reading ended in each token partition.
fn token_ends(
    zeros: usize,
    partitions: &[PartitionRange],
    tokens: &FrameTokens,
) -> ArrayVec<PartitionEnd, 8>
    requires zeros { zeros ≤ 4194368 }
    requires few { length partitions.now ≤ 8 }
    requires each { length tokens.now.readers ≡ length partitions.now }
    ensures { result.items ≡ token_ends zeros partitions.now tokens.now.readers }
{
    let mut ends = ArrayVec::new();
    for k in 0..partitions.len() {
        ends.push(end_of(zeros, partitions[k].length, tokens.left(k)));
    }
    ends
}

/// Where decoding the tokens of a frame of so many columns, with these records, ends in each token
/// partition.
fn frame_token_ends(
    alloc: Global,
    zeros: usize,
    packet: &[u8],
    header: &Header,
    columns: usize,
    modes: &Records,
) -> Result<ArrayVec<PartitionEnd, 8>, NoMemory>
    requires zeros { zeros ≤ 4194368 }
    requires columns { 0 < columns }
    requires some { 0 < length header.now.partitions.items }
    requires inside { All (λ place. place.start + place.length ≤ length packet.now) header.now.partitions.items }
    ensures { IfOk result (λ ends. ends.items ≡ frame_token_ends zeros packet.now header.now columns modes.now) }
{
    let partitions = header.partitions.as_slice();
    let texts = marked_texts(alloc, zeros, packet, partitions)?;
    let mut tokens = FrameTokens::over_texts(alloc, &texts, columns)?;
    tokens.read_first(header, columns, modes, modes.len());
    Ok(token_ends(zeros, partitions, &tokens))
}

/// Where decoding a frame with this header and these modes ends in each partition, if this was known before its packet and decoding ends
/// so in the first one; and what is known after the packet.
fn frame_ends(
    alloc: Global,
    packet: &[u8],
    header: &Header,
    known: Option<&Known>,
    modes: Modes,
    first: PartitionEnd,
) -> Result<(PartitionEnds, Known), NoMemory>
    requires key { header.now.is_key ≡ has_key_tag packet.now }
    requires following { header.now.is_key ≡ false → IsSome known }
    requires wide { IsTrue header.now.is_key → (1 ≤ header.now.width) × (header.now.width ≤ 16383) }
    requires high { IsTrue header.now.is_key → (1 ≤ header.now.height) × (header.now.height ≤ 16383) }
    requires some { 0 < length header.now.partitions.items }
    requires inside { All (λ place. place.start + place.length ≤ length packet.now) header.now.partitions.items }
    requires segments { length modes.segment_map ≡ columns_of (option_copied known) packet.now header.now * rows_of (option_copied known) packet.now header.now }
    ensures ends { IfOk result (λ read. read.0 ≡ record { first = first; tokens = record { items = frame_token_ends (zeros_of (option_copied known.entry) packet.now header.now) packet.now header.now (columns_of (option_copied known.entry) packet.now header.now) modes.records } }) }
    ensures after { IfOk result (λ read. read.1 ≡ known_with header.now (known_before packet.now (option_copied known.entry)) modes.segment_map) }
{
    let before = if header.is_key { None } else { known };
    let (width, height) = size_of(header, before);
    let columns = macroblocks(width);
    let zeros = zeros_for(columns, macroblocks(height));
    let tokens = frame_token_ends(alloc, zeros, packet, header, columns, modes.records())?;
    let ends = PartitionEnds { first, tokens };
    Ok((ends, known_after(header, modes, before)))
}

/// Reads a packet with bytes over its own first partition, in which decoding ends so if it accepts the packet: where decoding ends in each
/// of its partitions, and what is known after it.
fn read_own(
    alloc: Global,
    tables: &Tables,
    place: usize,
    known: Option<&Known>,
    packet: &[u8],
    first: PartitionEnd,
) -> Result<(PartitionEnds, Knowledge), NoMemory>
    requires first { IsFirstEnd tables.now (option_copied known) packet.now first }
    ensures ends { IfOk result (λ read. read.0 ≡ partition_ends_of tables.now (option_copied known.entry) packet.now) }
    ensures after { IfOk result (λ read. read.1 ≡ left_at place (known_by tables.now (known_before packet.now (option_copied known.entry)) (header_after tables.now (option_copied known.entry) packet.now))) }
{
    let header = match read_header(tables, context_of(known), packet) {
        Ok(header) => header,
        Err(cause) => return Ok((PartitionEnds::none(), Err(Broken { place, cause }))),
    };
    let before = if header.is_key { None } else { known };
    let modes = frame_modes(alloc, tables, &header, before)?;
    let (ends, after) = frame_ends(alloc, packet, &header, known, modes, first)?;
    Ok((ends, Ok(Some(after))))
}

/// Reads a packet with bytes: where decoding ends in each of its partitions, and what is known after
/// it.
fn read_coded(
    alloc: Global,
    tables: &Tables,
    place: usize,
    known: Option<&Known>,
    packet: &[u8],
) -> Result<(PartitionEnds, Knowledge), NoMemory>
    ensures ends { IfOk result (λ read. read.0 ≡ partition_ends_of tables.now (option_copied known.entry) packet.now) }
    ensures after { IfOk result (λ read. read.1 ≡ left_at place (known_by tables.now (known_before packet.now (option_copied known.entry)) (header_after tables.now (option_copied known.entry) packet.now))) }
{
    let marked = marked_first(alloc, known, packet)?;
    let spent = end_of(marked.zeros, marked.size, 0);
    let text = marked.text.as_slice();
    let Ok(header) = read_header_over(tables, context_of(known), packet, text) else {
        return read_own(alloc, tables, place, known, packet, spent);
    };
    let before = if header.is_key { None } else { known };
    let modes = frame_modes(alloc, tables, &header, before)?;
    let left = modes.left();
    if left == 0 {
        return read_own(alloc, tables, place, known, packet, spent);
    }
    prove_read(tables, known);
    let end = end_of(marked.zeros, marked.size, left);
    let (ends, after) = frame_ends(alloc, packet, &header, known, modes, end)?;
    Ok((ends, Ok(Some(after))))
}

/// Reads a packet before which this is known.
fn read_known(
    alloc: Global,
    tables: &Tables,
    place: usize,
    known: Option<Known>,
    packet: &[u8],
) -> Result<(PartitionEnds, Knowledge), NoMemory>
    ensures ends { IfOk result (λ read. read.0 ≡ partition_ends_of tables.now known packet.now) }
    ensures after { IfOk result (λ read. read.1 ≡ left_at place (step_of tables.now known packet.now)) }
{
    if !packet.is_empty() {
        return read_coded(alloc, tables, place, known.as_ref(), packet);
    }
    let after = step(alloc, tables, place, known, packet)?;
    Ok((PartitionEnds::none(), after))
}

/// Reads the packet at index `place` after this progress: where decoding ends in each of its
/// partitions, and the progress after it. A packet that is refused or lost has no partitions.
///
/// Its header, its modes and its tokens are read once, over its partitions with zeros and a mark after each. Only of a packet that reads
/// past all the zeros of its first partition, or is refused, the header and the modes are read once more, over the packet itself. No
/// sample is made. `NoMemory` if memory for the modes, a marked partition, the readers or the flags between macroblocks is refused.
pub fn read_packet(
    alloc: Global,
    tables: &Tables,
    place: usize,
    progress: Knowledge,
    packet: &[u8],
) -> Result<(PartitionEnds, Knowledge), NoMemory>
    ensures ends { IfOk result (λ read. read.0 ≡ ends_before tables.now progress packet.now) }
    ensures few { IfOk result (λ read. length read.0.tokens.items ≤ 8) }
    ensures after { IfOk result (λ read. read.1 ≡ progress_after tables.now place progress packet.now) }
{
    if has_key_tag(packet) {
        return read_known(alloc, tables, place, None, packet);
    }
    match progress {
        Ok(known) => read_known(alloc, tables, place, known, packet),
        Err(broken) => Ok((PartitionEnds::none(), Err(broken))),
    }
}
