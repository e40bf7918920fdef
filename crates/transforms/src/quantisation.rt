ghost use Rattle.std.specs.Prelude.{◌≡◌, ◌≤◌, pos, ◌+ℤ◌, slice_index_or, slice_set};
ghost use Rattle.transforms.specs.Factors.{clamped_index, index_of, factor, factors_of, dequantised};
ghost use Rattle.vp8_tables.specs.declared.quantizers.TheConstants.{DC_QUANTIZERS, AC_QUANTIZERS};

use crate::factor_set::Factors;
use frame_header::Header;
use std::simd::i16x8;
use std::simd::prelude::*;
use vp8_tables::{AC_QUANTIZERS, DC_QUANTIZERS};

/// The index into the tables for a quantizer index with a change.
fn changed(index: u8, delta: i8) -> usize
    ensures value { result ≡ clamped_index (pos index +ℤ delta) }
    ensures small { result ≤ 127 }
{
    (i16::from(index) + i16::from(delta)).clamp(0, 127) as usize
}

/// An index clamped to 0 or above.
fn clamped_sample(index: i8) -> usize
    ensures value { result ≡ clamped_index index }
    ensures small { result ≤ 127 }
{
    if index < 0 { 0 } else { index as usize }
}

/// The quantizer index, or the change of it, of a segment, -127 to 127; 0 if there is no such
/// segment.
fn segment_value(header: &Header, segment: u8) -> i8
    ensures { result ≡ slice_index_or header.now.context.segments.quantizers segment (pos 0) }
{
    let values = &header.context.segments.quantizers;
    match values.get(usize::from(segment)) {
        Some(value) => *value,
        None => 0,
    }
}

/// The quantizer index of a segment, 0 to 127: in a frame with segments its own value, or the
/// frame's index changed by it (RFC 6386, section 9.6).
fn segment_index(header: &Header, segment: u8) -> u8
    ensures value { result ≡ index_of header.now segment }
    ensures small { result ≤ 127 }
{
    let frame = header.quantizers.y_ac_index;
    if !header.segmentation.is_enabled {
        return changed(frame, 0) as u8;
    }
    let value = segment_value(header, segment);
    if header.context.segments.is_absolute {
        clamped_sample(value) as u8
    } else {
        changed(frame, value) as u8
    }
}

/// The factor of first coefficients.
fn dc_factor(index: u8, delta: i8) -> u16
    ensures value { result ≡ factor DC_QUANTIZERS index delta }
    ensures small { result ≤ 255 }
{
    u16::from(DC_QUANTIZERS[changed(index, delta)])
}

/// The factor of other coefficients.
fn ac_factor(index: u8, delta: i8) -> u16
    ensures value { result ≡ factor AC_QUANTIZERS index delta }
    ensures small { result ≤ 284 }
{
    AC_QUANTIZERS[changed(index, delta)]
}

/// The factors of a frame in a segment, 0 to 3, which is only used in a frame with segments (RFC
/// 6386, sections 9.6 and 14.1).
#[tactic(auto, unfolding(crate::specs::Factors::factors_of))]
pub fn factors(header: &Header, segment: u8) -> Factors
    ensures { result ≡ factors_of header.now segment }
{
    let changes = header.quantizers;
    let index = segment_index(header, segment);
    Factors {
        y_dc: dc_factor(index, changes.y_dc_delta) as i16,
        y_ac: ac_factor(index, 0) as i16,
        y2_dc: (dc_factor(index, changes.y2_dc_delta) * 2) as i16,
        y2_ac: (ac_factor(index, changes.y2_ac_delta) * 155 / 100).max(8) as i16,
        uv_dc: dc_factor(index, changes.uv_dc_delta).min(132) as i16,
        uv_ac: ac_factor(index, changes.uv_ac_delta) as i16,
    }
}

/// The coefficients of a block's tokens: the first times `dc`, the others times `ac`, in the low 16
/// bits of each product (RFC 6386, section 14.1).
#[inline]
pub fn dequantise(coefficients: &[i16; 16], dc: i16, ac: i16) -> [i16; 16]
    ensures { result ≡ dequantised coefficients.now dc ac }
{
    let at = coefficients;
    let low = i16x8::from_array([at[0], at[1], at[2], at[3], at[4], at[5], at[6], at[7]]);
    let high = i16x8::from_array([at[8], at[9], at[10], at[11], at[12], at[13], at[14], at[15]]);
    let others = i16x8::splat(ac);
    let factors = i16x8::splat(dc).shuffle(others, [0, 8, 8, 8, 8, 8, 8, 8]);
    let low = (low * factors).to_array();
    let high = (high * others).to_array();
    [
        low[0], low[1], low[2], low[3], low[4], low[5], low[6], low[7], //
        high[0], high[1], high[2], high[3], high[4], high[5], high[6], high[7],
    ]
}

/// The coefficients of a block's tokens for a block whose first coefficient is `first`, which is
/// dequantised already or a result of Y2: the others times `ac`, in the low 16 bits of each product
/// (RFC 6386, sections 14.1 and 14.3).
#[inline]
pub fn dequantise_others(coefficients: &[i16; 16], first: i16, ac: i16) -> [i16; 16]
    ensures { result ≡ slice_set (dequantised coefficients.now ac ac) 0 first }
{
    let at = coefficients;
    let low = i16x8::from_array([at[0], at[1], at[2], at[3], at[4], at[5], at[6], at[7]]);
    let high = i16x8::from_array([at[8], at[9], at[10], at[11], at[12], at[13], at[14], at[15]]);
    let factor = i16x8::splat(ac);
    let low = i16x8::splat(first).shuffle(low * factor, [0, 9, 10, 11, 12, 13, 14, 15]);
    let (low, high) = (low.to_array(), (high * factor).to_array());
    [
        low[0], low[1], low[2], low[3], low[4], low[5], low[6], low[7], //
        high[0], high[1], high[2], high[3], high[4], high[5], high[6], high[7],
    ]
}
