ghost use Rattle.std.specs.Prelude.{◌≡◌, ◌≤◌, IfSome};
ghost use Rattle.loop_filter.specs.Blocks.{HasSmallLimits};
ghost use Rattle.loop_filter.specs.Strengths.{AreLimits, interior_limit, variance_threshold, limits_of};
ghost use Rattle.loop_filter.specs.Levels.{record_by};
ghost use Rattle.loop_filter.specs.Frames.{has_subblock_modes, strength_of};

use crate::edge_limits::Limits;
use crate::levels::level_by;
use frame_header::Header;
use mode_parser::{VectorMode, YMode};

/// The filter limits of a macroblock, and whether its inner edges are filtered.
#[derive(Clone, Copy)]
pub(crate) struct Strength {
    /// The limits of its edges.
    pub(crate) limits: Limits,
    /// The edges inside it are filtered too.
    pub(crate) has_inner_edges: bool,
}

/// The interior limit.
fn interior_limit(level: u8, sharpness: u8) -> u8
    ensures value { result ≡ interior_limit level sharpness }
    ensures some { 1 ≤ result }
    ensures small { level ≤ 63 → result ≤ 63 }
{
    let most = 9_u8.saturating_sub(sharpness);
    let clamped = if sharpness == 0 {
        level
    } else if sharpness <= 4 {
        (level >> 1).min(most)
    } else {
        (level >> 2).min(most)
    };
    clamped.max(1)
}

/// The high edge variance threshold.
fn variance_threshold(level: u8, is_key: bool) -> u8
    ensures value { result ≡ variance_threshold level is_key }
    ensures small { result ≤ 3 }
{
    if is_key {
        match level {
            0..=14 => 0,
            15..=39 => 1,
            _ => 2,
        }
    } else {
        match level {
            0..=14 => 0,
            15..=19 => 1,
            20..=39 => 2,
            _ => 3,
        }
    }
}

/// The limits by which a macroblock of this level is filtered, in a frame of this sharpness
/// (RFC 6386, section 15.4). The level is at most 63.
#[tactic(auto, unfolding(crate::specs::Strengths::limits_of))]
pub fn limits(level: u8, sharpness: u8, is_key: bool) -> Limits
    requires { level ≤ 63 }
    ensures value { result ≡ limits_of level sharpness is_key }
    ensures interior { (1 ≤ result.interior) × (result.interior ≤ 63) }
    ensures variance { result.variance ≤ 3 }
    ensures macroblock_edge { result.macroblock_edge ≤ 193 }
    ensures inner_edge { result.inner_edge ≤ 189 }
{
    let interior = interior_limit(level, sharpness);
    Limits {
        interior,
        variance: variance_threshold(level, is_key),
        macroblock_edge: (level + 2) * 2 + interior,
        inner_edge: level * 2 + interior,
    }
}

/// The limits of each level in a frame of this sharpness.
pub(crate) fn limits_of_levels(sharpness: u8, is_key: bool) -> [Limits; 64]
    ensures { AreLimits sharpness is_key result }
{
    let mut all = [limits(0, sharpness, is_key); 64];
    for level in 0..64_u8 {
        all[usize::from(level)] = limits(level, sharpness, is_key);
    }
    all
}

/// Whether a macroblock is split into blocks with modes or vectors of their own (RFC 6386, section 15.1).
pub fn has_subblock_modes(mode: YMode) -> bool
    ensures { result ≡ has_subblock_modes mode }
{
    match mode {
        YMode::Whole(_) => false,
        YMode::B => true,
        YMode::Inter(_, VectorMode::Split) => true,
        YMode::Inter(..) => false,
    }
}

/// The filter limits of a macroblock of this segment and mode, given whether one of its blocks has a token, from the limits
/// of each level. `None` if it is not filtered.
#[inline]
#[tactic(auto, unfolding(crate::specs::Frames::strength_of))]
pub(crate) fn strength_for(
    header: &Header,
    limits: &[Limits; 64],
    segment: u8,
    y_mode: YMode,
    has_tokens: bool,
) -> Option<Strength>
    requires limits { AreLimits header.now.filter.sharpness header.now.is_key limits.now }
    ensures value { result ≡ strength_of header.now (record_by segment y_mode) has_tokens }
    ensures small { IfSome result HasSmallLimits }
{
    let level = level_by(header, segment, y_mode);
    if level == 0 {
        return None;
    }
    Some(Strength {
        limits: limits[usize::from(level)],
        has_inner_edges: has_subblock_modes(y_mode) || has_tokens,
    })
}
