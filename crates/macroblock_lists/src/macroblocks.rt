//! What a macroblock is made of.

ghost use Rattle.std.specs.Prelude.{◌≡◌, ◌≤◌, ◌<◌, ◌-◌, length, pos, ◌+ℤ◌, slice_index_or};
ghost use Rattle.transforms.specs.Factors.{clamped_index, index_of};
ghost use Rattle.macroblock_lists.specs.Macroblocks.{filters_inside, level_in_force, limits_in_force};

use frame_header::Header;
use loop_filter::{Limits, has_subblock_modes, level, limits};
use mode_parser::{MbMode, Split};

/// What a macroblock is made of.
#[derive(Clone, Copy)]
pub struct Macroblock {
    /// Its column in the frame.
    pub column: usize,
    /// Its row in the frame.
    pub row: usize,
    /// Its record.
    pub mode: MbMode,
    /// Its parts; `None` if its mode is not `mv_split`.
    pub split: Option<Split>,
    /// The quantizer index in force, 0 to 127 (RFC 6386, section 9.6).
    pub quantizer: u8,
    /// The filter level in force, 0 to 63; 0 if it is not filtered.
    pub level: u8,
    /// The filter limits in force; `None` at level 0.
    pub limits: Option<Limits>,
    /// Its inner edges are filtered.
    pub filters_inside: bool,
    /// Its coefficients before dequantisation: 16 of each of its 25 blocks, in raster order.
    pub coefficients: [[i16; 16]; 25],
    /// The number of bits of the first partition that its record takes.
    pub mode_bits: u128,
    /// The number of bits of its token partition that its tokens take.
    pub token_bits: u128,
}

/// The number of an index changed by a value, clamped to 0 to 127.
fn changed_index(index: u8, change: i8) -> u8
    ensures { result ≡ clamped_index (pos index +ℤ change) }
{
    (i16::from(index) + i16::from(change)).clamp(0, 127) as u8
}

/// The quantizer index of a segment, or the change of it; 0 if there is no such segment.
fn segment_value(header: &Header, segment: u8) -> i8
    ensures { result ≡ slice_index_or header.now.context.segments.quantizers segment (pos 0) }
{
    let values = &header.context.segments.quantizers;
    match values.get(usize::from(segment)) {
        Some(value) => *value,
        None => 0,
    }
}

/// The quantizer index in force in a segment.
pub(crate) fn index_of(header: &Header, segment: u8) -> u8
    ensures { result ≡ index_of header.now segment }
{
    let frame = header.quantizers.y_ac_index;
    if !header.segmentation.is_enabled {
        return changed_index(frame, 0);
    }
    let value = segment_value(header, segment);
    if header.context.segments.is_absolute {
        changed_index(0, value)
    } else {
        changed_index(frame, value)
    }
}

/// The filter level in force.
pub(crate) fn level_in_force(header: &Header, mode: &MbMode) -> u8
    ensures value { result ≡ level_in_force header.now mode.now }
    ensures small { result ≤ 63 }
{
    if header.filter.level == 0 {
        0
    } else {
        level(header, mode)
    }
}

/// The filter limits in force.
pub(crate) fn limits_in_force(header: &Header, level: u8) -> Option<Limits>
    requires { level ≤ 63 }
    ensures { result ≡ limits_in_force header.now level }
{
    if level == 0 {
        None
    } else {
        Some(limits(level, header.filter.sharpness, header.is_key))
    }
}

/// Whether the inner edges of a macroblock are filtered.
pub(crate) fn filters_inside(mode: &MbMode, level: u8, has_tokens: bool) -> bool
    ensures { result ≡ filters_inside mode.now level has_tokens }
{
    if level == 0 {
        false
    } else {
        has_subblock_modes(mode.y_mode) || has_tokens
    }
}
