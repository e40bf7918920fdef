//! The segments of macroblocks (RFC 6386, sections 9.3 and 10).

ghost use Rattle.std.specs.Prelude.{◌≡◌, IfOk};
ghost use Rattle.std.specs.Option.{option_copied};
ghost use Rattle.mode_parser.specs.Segments.{kept_map, kept_segment as kept_segment_of, map_after, segment_at, segment_number};

use crate::record_list::Records;
use bool_coder::{Decoder, NoMemory};
use frame_header::Header;
use std::alloc::Global;

/// The number of a segment, 0 to 3: the leaf of its tree (RFC 6386, section 10).
#[inline]
fn read_segment_number(reader: &mut Decoder, probabilities: &[u8; 3]) -> u8
    ensures { segment_number probabilities.now reader.old ≡ (result, reader.new) }
{
    if !reader.bit(probabilities[0]) {
        return u8::from(reader.bit(probabilities[1]));
    }
    2 + u8::from(reader.bit(probabilities[2]))
}

/// The segment that the macroblock at `place` has from the map before the frame; 0 in a key frame.
#[inline]
fn kept_segment(is_key: bool, before: Option<&[u8]>, place: usize) -> u8
    ensures { result ≡ kept_segment_of is_key (option_copied before.entry) place }
{
    match before {
        Some(before) if !is_key => before.get(place).copied().unwrap_or(0),
        _ => 0,
    }
}

/// The segment of the macroblock at `place`, which is before the rest of its record.
#[inline]
#[tactic(auto, unfolding(crate::specs::Segments::segment_at))]
pub(crate) fn read_segment(
    reader: &mut Decoder,
    header: &Header,
    before: Option<&[u8]>,
    place: usize,
) -> u8
    ensures { segment_at header.now (option_copied before.entry) place reader.old ≡ (result, reader.new) }
{
    let segmentation = &header.segmentation;
    if segmentation.updates_map {
        return read_segment_number(reader, &segmentation.map_probabilities);
    }
    if segmentation.is_enabled {
        kept_segment(header.is_key, before, place)
    } else {
        0
    }
}

/// The map that a frame keeps: zeros in a key frame, and else the one before it.
fn kept_map(
    alloc: Global,
    is_key: bool,
    count: usize,
    before: Option<&[u8]>,
) -> Result<Vec<u8>, NoMemory>
    ensures { IfOk result (λ segments. segments.items ≡ kept_map is_key count (option_copied before.entry)) }
{
    match before {
        Some(before) if !is_key => before.to_vec(alloc),
        _ => vec![in alloc; 0; count],
    }
}

/// The segment map after a frame with these records.
pub(crate) fn map_after(
    alloc: Global,
    header: &Header,
    count: usize,
    before: Option<&[u8]>,
    records: &Records,
) -> Result<Vec<u8>, NoMemory>
    ensures { IfOk result (λ segments. segments.items ≡ map_after header.now count (option_copied before.entry) records.now) }
{
    if header.segmentation.updates_map {
        records.segments(alloc)
    } else {
        kept_map(alloc, header.is_key, count, before)
    }
}
