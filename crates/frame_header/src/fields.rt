//! The fields of the first partition up to the number of token partitions
//! (RFC 6386, sections 9.2 to 9.5 and 19.2).

ghost use Rattle.std.specs.Prelude.{◌≡◌, ◌<◌, ◌≤◌};
ghost use Rattle.bool_coder.specs.Reading.{signed};
ghost use Rattle.frame_header.specs.Fields.{four_signed, delta, four_deltas, colors, segment_data, map_probability, map_probabilities, segment_updates, segmentation, filter, deltas, adjustment, partition_count, fields};

use crate::context::{Context, FilterDeltas, Segments};
use bool_coder::Decoder;

/// The segment fields of a frame (RFC 6386, section 9.3).
#[derive(Clone, Copy, Debug, PartialEq, Eq)]
pub struct Segmentation {
    /// Segments are in use.
    pub is_enabled: bool,
    /// The frame has a new segment map.
    pub updates_map: bool,
    /// The frame has new segment data.
    pub updates_data: bool,
    /// The probabilities of the map's tree; 255 if absent.
    pub map_probabilities: [u8; 3],
}

/// The kind and strength of the loop filter (RFC 6386, section 9.4).
#[derive(Clone, Copy, Debug, PartialEq, Eq)]
pub struct Filter {
    /// The simple filter is used, not the normal one.
    pub is_simple: bool,
    /// The level of the frame, 0 to 63.
    pub level: u8,
    /// The sharpness, 0 to 7.
    pub sharpness: u8,
}

/// The two flags that only key frames have (RFC 6386, section 9.2).
#[derive(Clone, Copy, Debug, PartialEq, Eq)]
pub struct Colors {
    /// The color space bit.
    pub color_space: bool,
    /// The clamping type bit.
    pub clamping_type: bool,
}

/// The fields that are read before the token partitions are located.
#[derive(Clone, Copy)]
pub(crate) struct Fields {
    pub(crate) colors: Colors,
    pub(crate) segmentation: Segmentation,
    pub(crate) filter: Filter,
    pub(crate) adjusts_level: bool,
    pub(crate) partition_count: usize,
}

pub(crate) fn read_signed(reader: &mut Decoder, count: u32) -> i8
    requires { count ≤ 7 }
    ensures { signed count reader.old ≡ (result, reader.new) }
{
    reader.signed(count) as i8
}

#[tactic(auto, unfolding(crate::specs::Fields::four_signed))]
fn four_signed(reader: &mut Decoder, count: u32) -> [i8; 4]
    requires { count ≤ 7 }
    ensures { four_signed count reader.old ≡ (result, reader.new) }
{
    let first = read_signed(reader, count);
    let second = read_signed(reader, count);
    let third = read_signed(reader, count);
    let fourth = read_signed(reader, count);
    [first, second, third, fourth]
}

#[tactic(auto, unfolding(crate::specs::Fields::colors))]
fn read_colors(reader: &mut Decoder) -> Colors
    ensures { colors reader.old ≡ (result, reader.new) }
{
    let color_space = reader.flag();
    let clamping_type = reader.flag();
    Colors {
        color_space,
        clamping_type,
    }
}

#[tactic(auto, unfolding(crate::specs::Fields::segment_data))]
fn read_segment_data(reader: &mut Decoder) -> Segments
    ensures { segment_data reader.old ≡ (result, reader.new) }
{
    let is_absolute = reader.flag();
    let quantizers = four_signed(reader, 7);
    let levels = four_signed(reader, 6);
    Segments {
        is_absolute,
        quantizers,
        levels,
    }
}

#[tactic(auto, unfolding(crate::specs::Fields::map_probability))]
fn read_map_probability(reader: &mut Decoder) -> u8
    ensures { map_probability reader.old ≡ (result, reader.new) }
{
    if reader.flag() {
        reader.literal(8) as u8
    } else {
        255
    }
}

#[tactic(auto, unfolding(crate::specs::Fields::map_probabilities))]
fn read_map_probabilities(reader: &mut Decoder) -> [u8; 3]
    ensures { map_probabilities reader.old ≡ (result, reader.new) }
{
    let first = read_map_probability(reader);
    let second = read_map_probability(reader);
    let third = read_map_probability(reader);
    [first, second, third]
}

#[tactic(auto, unfolding(crate::specs::Fields::segment_updates))]
fn read_segment_updates(reader: &mut Decoder, segments: &mut Segments) -> Segmentation
    ensures { segment_updates segments.old reader.old ≡ ((result, segments.new), reader.new) }
{
    let updates_map = reader.flag();
    let updates_data = reader.flag();
    if updates_data {
        *segments = read_segment_data(reader);
    }
    let map_probabilities = if updates_map {
        read_map_probabilities(reader)
    } else {
        [255; 3]
    };
    Segmentation {
        is_enabled: true,
        updates_map,
        updates_data,
        map_probabilities,
    }
}

#[tactic(auto, unfolding(crate::specs::Fields::segmentation))]
fn read_segmentation(reader: &mut Decoder, segments: &mut Segments) -> Segmentation
    ensures { segmentation segments.old reader.old ≡ ((result, segments.new), reader.new) }
{
    if reader.flag() {
        return read_segment_updates(reader, segments);
    }
    Segmentation {
        is_enabled: false,
        updates_map: false,
        updates_data: false,
        map_probabilities: [255; 3],
    }
}

#[tactic(auto, unfolding(crate::specs::Fields::filter))]
fn read_filter(reader: &mut Decoder) -> Filter
    ensures { filter reader.old ≡ (result, reader.new) }
{
    let is_simple = reader.flag();
    let level = reader.literal(6) as u8;
    let sharpness = reader.literal(3) as u8;
    Filter {
        is_simple,
        level,
        sharpness,
    }
}

#[tactic(auto, unfolding(crate::specs::Fields::delta))]
fn read_delta(reader: &mut Decoder, before: i8) -> i8
    ensures { delta before reader.old ≡ (result, reader.new) }
{
    if !reader.flag() {
        return before;
    }
    let magnitude = reader.literal(6) as i8;
    if reader.flag() { -magnitude } else { magnitude }
}

#[tactic(auto, unfolding(crate::specs::Fields::four_deltas))]
fn four_deltas(reader: &mut Decoder, before: [i8; 4]) -> [i8; 4]
    ensures { four_deltas before reader.old ≡ (result, reader.new) }
{
    let first = read_delta(reader, before[0]);
    let second = read_delta(reader, before[1]);
    let third = read_delta(reader, before[2]);
    let fourth = read_delta(reader, before[3]);
    [first, second, third, fourth]
}

#[tactic(auto, unfolding(crate::specs::Fields::deltas))]
fn read_deltas(reader: &mut Decoder, kept: &mut FilterDeltas)
    ensures { deltas kept.old reader.old ≡ (kept.new, reader.new) }
{
    if reader.flag() {
        kept.reference = four_deltas(reader, kept.reference);
        kept.mode = four_deltas(reader, kept.mode);
    }
}

#[tactic(auto, unfolding(crate::specs::Fields::adjustment))]
fn read_adjustment(reader: &mut Decoder, kept: &mut FilterDeltas) -> bool
    ensures { adjustment kept.old reader.old ≡ ((result, kept.new), reader.new) }
{
    let is_enabled = reader.flag();
    if is_enabled {
        read_deltas(reader, kept);
    }
    is_enabled
}

#[tactic(auto, unfolding(crate::specs::Fields::partition_count))]
fn read_partition_count(reader: &mut Decoder) -> usize
    ensures read { partition_count reader.old ≡ (result, reader.new) }
    ensures some { 0 < result }
    ensures few { result ≤ 8 }
{
    let log2 = reader.literal(2);
    1 << log2
}

/// The fields of the first partition up to the number of token partitions, for a key frame or
/// another, with their changes of the context with which the frame begins.
#[tactic(auto, unfolding(crate::specs::Fields::fields))]
pub(crate) fn read_fields(reader: &mut Decoder, is_key: bool, context: &mut Context) -> Fields
    ensures read { fields is_key context.old reader.old ≡ ((result, context.new), reader.new) }
    ensures some { 0 < result.partition_count }
    ensures few { result.partition_count ≤ 8 }
{
    let colors = if is_key {
        read_colors(reader)
    } else {
        Colors {
            color_space: false,
            clamping_type: false,
        }
    };
    let segmentation = read_segmentation(reader, &mut context.segments);
    let filter = read_filter(reader);
    let adjusts_level = read_adjustment(reader, &mut context.deltas);
    let partition_count = read_partition_count(reader);
    Fields {
        colors,
        segmentation,
        filter,
        adjusts_level,
        partition_count,
    }
}
