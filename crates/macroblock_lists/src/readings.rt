//! A first partition with zeros and a mark after it, and what its header and its modes say of the packet.

ghost use Rattle.std.specs.Prelude.{◌≡◌, ◌≤◌, List, ℕ, Ok, IfOk};
ghost use Rattle.std.specs.Option.{option_copied};
ghost use Rattle.vp8_tables.specs.Tables.{TableEntries};
ghost use Rattle.frame_header.specs.Header.{first_partition};
ghost use Rattle.frame_header.specs.declared.header.Header.{Header};
ghost use Rattle.frame_header.specs.declared.places.PartitionRange.{PartitionRange};
ghost use Rattle.macroblock_lists.specs.FirstChains.{context_in, zeros_of};
ghost use Rattle.macroblock_lists.specs.Known.{header_after, known_before};
ghost use Rattle.macroblock_lists.specs.PartitionEnds.{marked_text};
ghost use Rattle.macroblock_lists.specs.ProofsOnly.{MarkedIsRead, size_before};

use crate::known::{Known, context_of};
use crate::laws::{prove_bytes, prove_known};
use crate::partition_ends::zeros_for;
use crate::tokens::marked;
use frame_header::{first_partition, has_key_tag, key_size};
use pixel_planes::{NoMemory, macroblocks};
use std::alloc::Global;
use vp8_tables::Tables;

/// A packet's first partition with zeros and a mark after it.
#[derive(Drop)]
pub(crate) struct First {
    /// The partition, the zeros and the mark; no bytes if the packet is refused before the end of its first partition.
    pub(crate) text: Vec<u8>,
    /// The number of zeros.
    pub(crate) zeros: usize,
    /// The number of bytes of the partition.
    pub(crate) size: usize,
}

/// The size of the frame of a packet, if decoding accepts the packet.
fn size_before(known: Option<&Known>, packet: &[u8]) -> (u16, u16)
    ensures value { result ≡ size_before packet.now (known_before packet.now (option_copied known.entry)) }
    ensures wide { result.0 ≤ 16383 }
    ensures high { result.1 ≤ 16383 }
{
    let before = if has_key_tag(packet) { None } else { known };
    match before {
        Some(known) => known.size(),
        None => key_size(packet).unwrap_or((0, 0)),
    }
}

/// The first partition of a packet, before which this is known, with as many zeros after it as its frame has.
pub(crate) fn marked_first(
    alloc: Global,
    known: Option<&Known>,
    packet: &[u8],
) -> Result<First, NoMemory>
    ensures text { IfOk result (λ first. (place : PartitionRange) → first_partition (context_in (option_copied known.entry)) packet.now ≡ Ok place → first.text.items ≡ marked_text first.zeros packet.now place) }
    ensures size { IfOk result (λ first. (place : PartitionRange) → first_partition (context_in (option_copied known.entry)) packet.now ≡ Ok place → first.size ≡ place.length) }
    ensures zeros { IfOk result (λ first. (tables : TableEntries) (header : Header) → header_after tables (option_copied known.entry) packet.now ≡ Ok header → first.zeros ≡ zeros_of (option_copied known.entry) packet.now header) }
    ensures few { IfOk result (λ first. first.zeros ≤ 4194368) }
{
    let (width, height) = size_before(known, packet);
    let zeros = zeros_for(macroblocks(width), macroblocks(height));
    let Ok(place) = first_partition(context_of(known), packet) else {
        return Ok(First {
            text: Vec::new(alloc),
            zeros,
            size: 0,
        });
    };
    let first = &packet[place.start..place.start + place.length];
    Ok(First {
        text: marked(alloc, zeros, first)?,
        zeros,
        size: place.length,
    })
}

/// The header and the records of a packet are those that are read over its first partition with zeros and a mark after it, if bits of
/// these are left.
pub(crate) fn prove_read(tables: &Tables, known: Option<&Known>)
    ensures { MarkedIsRead tables.now (option_copied known.entry) }
{
    frame_header::laws::headers_are_chains(tables.updates());
    frame_header::laws::headers_are_over_their_own();
    mode_parser::laws::records_are_chains();
    mode_parser::laws::splits_are_of_records();
    prove_bytes(tables.key_subs());
    prove_known(known);
}
