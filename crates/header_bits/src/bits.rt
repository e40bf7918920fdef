//! The optional fields of a header.

ghost use Rattle.std.specs.Prelude.{◌≡◌, ◌≤◌};
ghost use Rattle.header_bits.specs.Copies.{copies_in, copy_numbers, reference_copies};
ghost use Rattle.header_bits.specs.Bits.{all_bits, data_bits, delta_bits, delta_update_bits, first_bits, first_text, header_bits, inter_bits, map_bits, no_delta_bits, no_inter_bits, no_segment_bits, quantizer_bits, reference_bits, segment_bits, segment_update_bits};

use crate::copies::{CopyNumbers, read_inter_copies};
use crate::reading::{
    four_optional, read_component, read_optional, read_updates, skip, three_optional,
};
use bool_coder::Decoder;
use frame_header::{has_key_tag, tag};
use vp8_tables::{Tables, VECTOR_UPDATE_PROBABILITIES};

/// The bits of the numbers of segments (`update_segmentation()`): of one that is coded its flag and itself, else 1 for
/// the flag. Of a list that is not updated 0 each.
#[derive(Clone, Copy, Debug, PartialEq, Eq)]
pub struct SegmentBits {
    /// Of each quantizer: 9 or 1.
    pub quantizers: [u8; 4],
    /// Of each loop filter level: 8 or 1.
    pub levels: [u8; 4],
    /// Of each probability of the map: 9 or 1.
    pub map_probabilities: [u8; 3],
}

/// The bits of the changes of the loop filter level (`mb_lf_adjustments()`): of one that is coded 8, else 1, and of all 0
/// if none are updated.
#[derive(Clone, Copy, Debug, PartialEq, Eq)]
pub struct DeltaBits {
    /// The frame updates them (`mode_ref_lf_delta_update`).
    pub are_updated: bool,
    /// By the reference.
    pub references: [u8; 4],
    /// By the mode.
    pub modes: [u8; 4],
}

/// The bits of the updates that only inter frames have; 0 each on a key frame.
#[derive(Clone, Copy, Debug, PartialEq, Eq)]
pub struct InterBits {
    /// The probabilities of luma modes, with their flag: 33 or 1.
    pub y_modes: u8,
    /// The probabilities of chroma modes, with their flag: 25 or 1.
    pub uv_modes: u8,
    /// The probabilities of vectors (`mv_prob_update()`): 38, and 7 for each that is coded.
    pub vectors: u32,
}

/// The bits of the optional fields of a header (RFC 6386, section 19.2). Those of other fields are known from its tables.
#[derive(Clone, Copy, Debug, PartialEq, Eq)]
pub struct HeaderBits {
    /// The numbers of segments.
    pub segments: SegmentBits,
    /// The changes of the loop filter level.
    pub deltas: DeltaBits,
    /// The changes of the quantizer index, each 6 or 1: y_dc, y2_dc, y2_ac, uv_dc and uv_ac.
    pub quantizers: [u8; 5],
    /// The probabilities of coefficients (`token_prob_update()`): 1,056, and 8 for each that is coded.
    pub coefficients: u32,
    /// The updates that only inter frames have.
    pub inter: InterBits,
}

#[tactic(auto, unfolding(crate::specs::Bits::data_bits))]
fn read_data(reader: &mut Decoder, is_updated: bool) -> ([u8; 4], [u8; 4])
    ensures { data_bits is_updated reader.old ≡ (result, reader.new) }
{
    if !is_updated {
        return ([0; 4], [0; 4]);
    }
    skip(reader, 1);
    let quantizers = four_optional(reader, 8);
    let levels = four_optional(reader, 7);
    (quantizers, levels)
}

#[tactic(auto, unfolding(crate::specs::Bits::map_bits))]
fn read_map(reader: &mut Decoder, is_updated: bool) -> [u8; 3]
    ensures { map_bits is_updated reader.old ≡ (result, reader.new) }
{
    if is_updated {
        three_optional(reader, 8)
    } else {
        [0; 3]
    }
}

fn no_segment_bits() -> SegmentBits
    ensures { result ≡ no_segment_bits }
{
    SegmentBits {
        quantizers: [0; 4],
        levels: [0; 4],
        map_probabilities: [0; 3],
    }
}

#[tactic(auto, unfolding(crate::specs::Bits::segment_update_bits))]
fn read_segment_updates(reader: &mut Decoder) -> SegmentBits
    ensures { segment_update_bits reader.old ≡ (result, reader.new) }
{
    let updates_map = reader.flag();
    let updates_data = reader.flag();
    let (quantizers, levels) = read_data(reader, updates_data);
    let map_probabilities = read_map(reader, updates_map);
    SegmentBits {
        quantizers,
        levels,
        map_probabilities,
    }
}

#[tactic(auto, unfolding(crate::specs::Bits::segment_bits))]
fn read_segments(reader: &mut Decoder) -> SegmentBits
    ensures { segment_bits reader.old ≡ (result, reader.new) }
{
    if reader.flag() {
        read_segment_updates(reader)
    } else {
        no_segment_bits()
    }
}

fn no_delta_bits() -> DeltaBits
    ensures { result ≡ no_delta_bits }
{
    DeltaBits {
        are_updated: false,
        references: [0; 4],
        modes: [0; 4],
    }
}

#[tactic(auto, unfolding(crate::specs::Bits::delta_update_bits))]
fn read_delta_updates(reader: &mut Decoder) -> DeltaBits
    ensures { delta_update_bits reader.old ≡ (result, reader.new) }
{
    if !reader.flag() {
        return no_delta_bits();
    }
    let references = four_optional(reader, 7);
    let modes = four_optional(reader, 7);
    DeltaBits {
        are_updated: true,
        references,
        modes,
    }
}

#[tactic(auto, unfolding(crate::specs::Bits::delta_bits))]
fn read_deltas(reader: &mut Decoder) -> DeltaBits
    ensures { delta_bits reader.old ≡ (result, reader.new) }
{
    if reader.flag() {
        read_delta_updates(reader)
    } else {
        no_delta_bits()
    }
}

#[tactic(auto, unfolding(crate::specs::Bits::quantizer_bits))]
pub(crate) fn read_quantizers(reader: &mut Decoder) -> [u8; 5]
    ensures { quantizer_bits reader.old ≡ (result, reader.new) }
{
    skip(reader, 7);
    let first = read_optional(reader, 5);
    let rest = four_optional(reader, 5);
    [first, rest[0], rest[1], rest[2], rest[3]]
}

/// Reads the fields of references, and returns the numbers of the copies.
#[tactic(auto, unfolding(crate::specs::Bits::reference_bits))]
fn read_references(reader: &mut Decoder, is_key: bool) -> CopyNumbers
    ensures after { reader.new ≡ (reference_bits is_key reader.old).1 }
    ensures copies { result ≡ reference_copies is_key reader.old }
{
    if is_key {
        skip(reader, 1);
        return CopyNumbers::none();
    }
    let copies = read_inter_copies(reader);
    skip(reader, 4);
    copies
}

fn no_inter_bits() -> InterBits
    ensures { result ≡ no_inter_bits }
{
    InterBits {
        y_modes: 0,
        uv_modes: 0,
        vectors: 0,
    }
}

#[tactic(auto, unfolding(crate::specs::Bits::inter_bits))]
fn read_inter(reader: &mut Decoder, is_key: bool) -> InterBits
    ensures { inter_bits is_key reader.old ≡ (result, reader.new) }
{
    if is_key {
        return no_inter_bits();
    }
    skip(reader, 24);
    let y_modes = read_optional(reader, 32);
    let uv_modes = read_optional(reader, 24);
    let rows = read_component(reader, 7, &VECTOR_UPDATE_PROBABILITIES[0]);
    let columns = read_component(reader, 7, &VECTOR_UPDATE_PROBABILITIES[1]);
    InterBits {
        y_modes,
        uv_modes,
        vectors: rows + columns,
    }
}

#[tactic(auto, unfolding(crate::specs::Bits::first_bits))]
pub(crate) fn read_first(reader: &mut Decoder, is_key: bool) -> (SegmentBits, DeltaBits)
    ensures { first_bits is_key reader.old ≡ (result, reader.new) }
{
    skip(reader, if is_key { 2 } else { 0 });
    let segments = read_segments(reader);
    skip(reader, 10);
    let deltas = read_deltas(reader);
    skip(reader, 2);
    (segments, deltas)
}

/// The bits of the optional fields of a header, and the numbers of the copies among them.
#[tactic(auto, unfolding(crate::specs::Bits::all_bits))]
fn read_all(reader: &mut Decoder, is_key: bool, updates: &[u8; 1056]) -> (HeaderBits, CopyNumbers)
    ensures bits { all_bits is_key updates.now reader.old ≡ (result.0, reader.new) }
    ensures copies { result.1 ≡ (copies_in is_key reader.old).0 }
{
    let (segments, deltas) = read_first(reader, is_key);
    let quantizers = read_quantizers(reader);
    let copies = read_references(reader, is_key);
    let coefficients = read_updates(reader, 8, updates);
    read_optional(reader, 8);
    let inter = read_inter(reader, is_key);
    let bits = HeaderBits {
        segments,
        deltas,
        quantizers,
        coefficients,
        inter,
    };
    (bits, copies)
}

/// The text of the first partition of a packet, as far as the packet has it.
pub(crate) fn first_text(packet: &[u8]) -> &[u8]
    ensures { result.now ≡ first_text packet.now }
{
    match tag(packet) {
        None => &[],
        Some(tag) => {
            let start = if tag.key { 10 } else { 3 };
            let start = start.min(packet.len());
            let rest = &packet[start..];
            let size = (tag.first_partition as usize).min(rest.len());
            &rest[..size]
        }
    }
}

/// The bits of the optional fields of the header of a packet that `frame_header::read_header` accepts: how many booleans of
/// the first partition each takes. Of any other packet they are those of a first partition with zeros after the end of
/// the packet.
pub fn read_header_bits(tables: &Tables, packet: &[u8]) -> HeaderBits
    ensures { result ≡ header_bits tables.now packet.now }
{
    let (bits, _copies) = read_bits_and_copies(tables, packet);
    bits
}

/// The bits of the optional fields of a header, and the numbers of its copies, by one reading.
#[tactic(auto, unfolding(crate::specs::Bits::header_bits, crate::specs::Copies::copy_numbers))]
pub(crate) fn read_bits_and_copies(tables: &Tables, packet: &[u8]) -> (HeaderBits, CopyNumbers)
    ensures bits { result.0 ≡ header_bits tables.now packet.now }
    ensures copies { result.1 ≡ copy_numbers packet.now }
{
    let mut reader = Decoder::new(first_text(packet));
    read_all(&mut reader, has_key_tag(packet), tables.updates())
}
