// The head of an export.
ghost use Rattle.std.specs.Prelude.{◌≡◌, ◌<◌, All, IfNone, IfOk, IfSome, [], ◌∷◌, length};
ghost use Rattle.std.specs.Int.{IsGcd};
ghost use Rattle.std.specs.List.{list_any};
ghost use Rattle.packet_times.specs.Heads.{HasNoLowest, HasNoUnit, IsGreatestUnit, IsHeadFor, IsLowest, IsPositive, are_multiples, is_multiple};
ghost use Rattle.packet_times.specs.Sums.{bases_of, is_base};

use crate::clocks::{base_of_head, is_base};
use crate::durations::Duration;
use pixel_planes::NoMemory;
use std::alloc::Global;
use stream_files::Head;

/// Whether a time base is among these.
fn is_among(base: (u32, u32), bases: &[(u32, u32)]) -> bool
    ensures { result ≡ list_any (is_base base) bases.now }
{
    for other in bases {
        if is_base(base, *other) {
            return true;
        }
    }
    false
}

/// The different time bases of durations.
fn bases_of(alloc: Global, durations: &[Duration]) -> Result<Vec<(u32, u32)>, NoMemory>
    ensures bases { IfOk result (λ bases. bases.items ≡ bases_of durations.now) }
    ensures positive { IfOk result (λ bases. All IsPositive bases.items) }
{
    let mut bases = Vec::new(alloc);
    for duration in durations {
        let base = duration.base();
        if !is_among(base, &bases) {
            bases.push(base)?;
        }
    }
    Ok(bases)
}

/// Whether the unit of a base is a whole number of these units.
fn is_multiple(unit: (u32, u32), base: (u32, u32)) -> bool
    requires { IsPositive unit × IsPositive base }
    ensures { result ≡ is_multiple unit base }
{
    (u64::from(base.1) * u64::from(unit.0)) % (u64::from(base.0) * u64::from(unit.1)) == 0
}

/// Whether the units of all these bases are whole numbers of these units.
fn are_multiples(unit: (u32, u32), bases: &[(u32, u32)]) -> bool
    requires unit { IsPositive unit }
    requires bases { All IsPositive bases.now }
    ensures { result ≡ are_multiples unit bases.now }
{
    for base in bases {
        if !is_multiple(unit, *base) {
            return false;
        }
    }
    true
}

/// The greatest common divisor.
fn gcd(a: u64, b: u64) -> u64
    ensures { IsGcd a b result }
{
    let mut x = a;
    let mut y = b;
    while y != 0 {
        let rest = x % y;
        x = y;
        y = rest;
    }
    x
}

/// A base in lowest terms, if its numbers fit 32 bits then.
fn lowest(rate: u64, scale: u64) -> Option<(u32, u32)>
    requires { (0 < rate) × (0 < scale) }
    ensures lowest { IfSome result (IsLowest (rate, scale)) }
    ensures none { IfNone result (HasNoLowest (rate, scale)) }
{
    let by = gcd(rate, scale);
    let rate = rate / by;
    let scale = scale / by;
    if rate > u64::from(u32::MAX) || scale > u64::from(u32::MAX) {
        return None;
    }
    Some((rate as u32, scale as u32))
}

/// The greatest unit of which those of two bases are whole numbers, if it fits.
fn common_unit(one: (u32, u32), other: (u32, u32)) -> Option<(u32, u32)>
    requires { IsPositive one × IsPositive other }
    ensures greatest { IfSome result (IsGreatestUnit (one ∷ other ∷ [])) }
    ensures none { IfNone result (HasNoUnit (one ∷ other ∷ [])) }
{
    let rate = u64::from(one.0) * u64::from(other.0);
    let first = u64::from(one.1) * u64::from(other.0);
    let second = u64::from(other.1) * u64::from(one.0);
    lowest(rate, gcd(first, second))
}

/// The greatest unit of which those of all these bases are whole numbers, if it fits.
fn greatest_unit(bases: &[(u32, u32)]) -> Option<(u32, u32)>
    requires some { 0 < length bases.now }
    requires positive { All IsPositive bases.now }
    ensures greatest { IfSome result (IsGreatestUnit bases.now) }
    ensures none { IfNone result (HasNoUnit bases.now) }
{
    let first = bases[0];
    let mut unit = common_unit(first, first)?;
    for base in bases {
        unit = common_unit(unit, *base)?;
    }
    Some(unit)
}

/// The head of a file of frames with these durations: the head itself if the units of their time bases are whole numbers of its unit, or else
/// one whose unit is the greatest of which they are, if its rate and scale fit 32 bits.
pub fn head_for(alloc: Global, head: Head, durations: &[Duration]) -> Result<Head, NoMemory>
    ensures { IfOk result (IsHeadFor head (bases_of durations.now)) }
{
    let bases = bases_of(alloc, durations)?;
    if are_multiples(base_of_head(head), &bases) {
        return Ok(head);
    }
    match greatest_unit(&bases) {
        Some((rate, scale)) => Ok(Head {
            rate,
            scale,
            ..head
        }),
        None => Ok(head),
    }
}
