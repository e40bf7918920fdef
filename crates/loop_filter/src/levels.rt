ghost use Rattle.std.specs.Prelude.{◌≡◌, ◌≤◌, pos, ◌+ℤ◌, slice_index_or};
ghost use Rattle.loop_filter.specs.Levels.{clamped_level, level_in, reference_delta, mode_delta, changed_level, level_of, record_by};

use frame_header::{FilterDeltas, Header, Reference, Segments};
use mode_parser::{MbMode, VectorMode, YMode};

/// A level clamped to 0 to 63.
fn clamped(level: i16) -> u8
    ensures value { result ≡ clamped_level level }
    ensures small { result ≤ 63 }
{
    level.clamp(0, 63) as u8
}

/// A level with two changes, clamped.
fn with_changes(level: u8, by_reference: i8, by_mode: i8) -> u8
    ensures value { result ≡ clamped_level ((pos level +ℤ by_reference) +ℤ by_mode) }
    ensures small { result ≤ 63 }
{
    let change = i16::from(by_reference) + i16::from(by_mode);
    clamped(i16::from(level) + change)
}

/// The level of one of the four segments; 0 if there is no such segment.
fn level_of_segment(segments: &Segments, segment: u8) -> i8
    ensures { result ≡ slice_index_or segments.now.levels segment (pos 0) }
{
    match segments.levels.get(usize::from(segment)) {
        Some(level) => *level,
        None => 0,
    }
}

/// The level in a segment of a frame of this level, which may have segments or none.
fn level_in(level: u8, has_segments: bool, segments: &Segments, segment: u8) -> u8
    ensures value { result ≡ level_in level has_segments segments.now segment }
    ensures small { result ≤ 63 }
{
    let level = i16::from(level);
    if !has_segments {
        return clamped(level);
    }
    let of_segment = i16::from(level_of_segment(segments, segment));
    if segments.is_absolute {
        clamped(of_segment)
    } else {
        clamped(level + of_segment)
    }
}

/// The change of a macroblock's level by its reference: `ref_lf_deltas` in libvpx.
fn reference_delta(deltas: &FilterDeltas, mode: YMode) -> i8
    ensures { result ≡ reference_delta deltas.now mode }
{
    match mode {
        YMode::Whole(_) => deltas.reference[0],
        YMode::B => deltas.reference[0],
        YMode::Inter(Reference::Last, _) => deltas.reference[1],
        YMode::Inter(Reference::Golden, _) => deltas.reference[2],
        YMode::Inter(Reference::Altref, _) => deltas.reference[3],
    }
}

/// The change of a macroblock's level by its mode: `mode_lf_deltas` in libvpx.
fn mode_delta(deltas: &FilterDeltas, mode: YMode) -> i8
    ensures { result ≡ mode_delta deltas.now mode }
{
    match mode {
        YMode::Whole(_) => 0,
        YMode::B => deltas.mode[0],
        YMode::Inter(_, VectorMode::Zero) => deltas.mode[1],
        YMode::Inter(_, VectorMode::Split) => deltas.mode[3],
        YMode::Inter(..) => deltas.mode[2],
    }
}

/// A level, up to 63, changed by reference and mode.
fn changed_level(deltas: &FilterDeltas, mode: YMode, level: u8) -> u8
    ensures value { result ≡ changed_level deltas.now mode level }
    ensures small { result ≤ 63 }
{
    let by_reference = reference_delta(deltas, mode);
    let by_mode = mode_delta(deltas, mode);
    with_changes(level, by_reference, by_mode)
}

/// The level of a macroblock by its segment and its mode.
#[tactic(auto, unfolding(crate::specs::Levels::level_of))]
pub(crate) fn level_by(header: &Header, segment: u8, y_mode: YMode) -> u8
    ensures value { result ≡ level_of header.now (record_by segment y_mode) }
    ensures small { result ≤ 63 }
{
    let context = &header.context;
    let has_segments = header.segmentation.is_enabled;
    let level = level_in(
        header.filter.level,
        has_segments,
        &context.segments,
        segment,
    );
    if header.adjusts_level {
        changed_level(&context.deltas, y_mode, level)
    } else {
        level
    }
}

/// The level of the loop filter for a macroblock, 0 to 63 (RFC 6386, sections 9.3, 9.4 and 15).
///
/// It is the frame's level, or with segments the segment's or their sum, clamped to 0 to 63. If the
/// frame adjusts levels, it is then changed by reference and mode, and clamped again.
#[tactic(auto, unfolding(crate::specs::Levels::level_of))]
pub fn level(header: &Header, mode: &MbMode) -> u8
    ensures value { result ≡ level_of header.now mode.now }
    ensures small { result ≤ 63 }
{
    level_by(header, mode.segment, mode.y_mode)
}
