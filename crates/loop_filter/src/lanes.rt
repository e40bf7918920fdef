//! Operations on thirty-two samples at a time: lanes of 8 bits without signs.

ghost use Rattle.std.specs.Prelude.{◌≡◌, ℕ, ◌+◌, ◌-◌, ◌/◌, ◌<◌, ◌≤◌, max, length, slice_index};
ghost use Rattle.std.specs.Simd.Lanes.{put_chunk};
ghost use Rattle.std.specs.Int.{abs_diff};
ghost use Rattle.loop_filter.specs.Lanes.{Each, Each2, AreSamples, sum_of, raised_by, lowered_by, difference_of, shortfall_from, eighth_of, half_of, adjustment_of, either_of, step_over_of, side_of, variance_over_of};

use std::simd::prelude::*;
use std::simd::{u8x16, u8x32, u16x32};

/// The sixteen samples starting at `at`.
#[inline(always)]
pub fn load(samples: &[u8], at: usize) -> u8x16
    requires room { at + 16 ≤ length samples.now }
    ensures { (i : ℕ) → i < 16 → slice_index result i ≡ slice_index samples.now (at + i) }
{
    u8x16::from_slice(&samples[at..])
}

/// Stores sixteen samples starting at `at`.
#[inline(always)]
pub fn store(samples: &mut [u8], at: usize, row: u8x16)
    requires room { at + 16 ≤ length samples.old }
    ensures value { samples.new ≡ put_chunk at samples.old row }
    ensures whole { length row ≡ 16 }
{
    row.copy_to_slice(&mut samples[at..]);
}

/// The same value in all lanes.
#[inline(always)]
pub fn all(value: u8) -> u8x32
    ensures { (i : ℕ) → i < 32 → slice_index result i ≡ value }
{
    u8x32::splat(value)
}

/// The lanes of both added, clamped to 255.
#[inline(always)]
pub fn more(a: u8x32, b: u8x32) -> u8x32
    ensures { Each2 sum_of a b result }
{
    a.saturating_add(b)
}

/// The lanes of `a` minus those of `b`, clamped to 0.
#[inline(always)]
pub fn less(a: u8x32, b: u8x32) -> u8x32
    ensures { Each2 (λ x y. x - y) a b result }
{
    a.saturating_sub(b)
}

/// The greater of each two lanes.
#[inline(always)]
pub fn greater(a: u8x32, b: u8x32) -> u8x32
    ensures { Each2 max a b result }
{
    a.simd_max(b)
}

/// The absolute difference of each two lanes.
#[inline(always)]
fn apart(a: u8x32, b: u8x32) -> u8x32
    ensures { Each2 abs_diff a b result }
{
    let above = less(a, b);
    let below = less(b, a);
    more(above, below)
}

/// The lanes of `none` if `test` is 0, and those of `other` elsewhere.
#[inline(always)]
pub fn either(test: u8x32, none: u8x32, other: u8x32) -> u8x32
    ensures { (i : ℕ) → i < 32 → slice_index result i ≡ either_of (slice_index test i) (slice_index none i) (slice_index other i) }
{
    test.simd_eq(u8x32::splat(0)).select(none, other)
}

/// A half of each lane, rounded down.
#[inline(always)]
fn halved(a: u8x32) -> u8x32
    ensures { Each (λ x. x / 2) a result }
{
    a >> u8x32::splat(1)
}

/// An eighth of each lane, rounded down.
#[inline(always)]
fn eighths(a: u8x32) -> u8x32
    ensures { Each (λ x. x / 8) a result }
{
    a >> u8x32::splat(3)
}

/// Samples with numbers added that have an offset.
#[inline(always)]
#[tactic(auto, unfolding(crate::specs::Lanes::raised_by))]
pub fn raised(offset: u8, samples: u8x32, numbers: u8x32) -> u8x32
    ensures value { Each2 (raised_by offset) samples numbers result }
    ensures samples { AreSamples samples }
{
    let offset = all(offset);
    let above = less(numbers, offset);
    let below = less(offset, numbers);
    let sum = more(samples, above);
    less(sum, below)
}

/// Samples with numbers subtracted that have an offset.
#[inline(always)]
#[tactic(auto, unfolding(crate::specs::Lanes::lowered_by))]
pub fn lowered(offset: u8, samples: u8x32, numbers: u8x32) -> u8x32
    ensures value { Each2 (lowered_by offset) samples numbers result }
    ensures samples { AreSamples samples }
{
    let offset = all(offset);
    let above = less(numbers, offset);
    let below = less(offset, numbers);
    let sum = more(samples, below);
    less(sum, above)
}

/// The differences of samples, clamped to -128 to 127, at offset 128.
#[inline(always)]
#[tactic(auto, unfolding(crate::specs::Lanes::difference_of))]
pub fn difference(a: u8x32, b: u8x32) -> u8x32
    ensures value { Each2 difference_of a b result }
    ensures first { AreSamples a }
    ensures second { AreSamples b }
{
    let offset = all(128);
    let above = less(a, b);
    let below = less(b, a);
    let sum = more(offset, above);
    less(sum, below)
}

/// Three times `q0 - p0`, added to numbers at offset 128 and clamped to -128 to 127.
#[inline(always)]
#[tactic(auto, unfolding(crate::specs::Lanes::shortfall_from))]
pub fn shortfall(start: u8x32, p0: u8x32, q0: u8x32) -> u8x32
    ensures { (i : ℕ) → i < 32 → slice_index result i ≡ shortfall_from (slice_index start i) (slice_index p0 i) (slice_index q0 i) }
{
    let above = less(q0, p0);
    let below = less(p0, q0);
    let once = more(start, above);
    let twice = more(once, above);
    let thrice = more(twice, above);
    let less_once = less(thrice, below);
    let less_twice = less(less_once, below);
    less(less_twice, below)
}

/// An eighth of numbers at offset 128 that `n` was added to, rounded down, at offset 16.
#[inline(always)]
#[tactic(auto, unfolding(crate::specs::Lanes::eighth_of))]
pub fn eighths_after(n: u8, numbers: u8x32) -> u8x32
    ensures { Each (eighth_of n) numbers result }
{
    let added = all(n);
    let sum = more(numbers, added);
    eighths(sum)
}

/// Half of numbers at offset 16, rounded, at offset 8.
#[inline(always)]
#[tactic(auto, unfolding(crate::specs::Lanes::half_of))]
pub fn halves(numbers: u8x32) -> u8x32
    requires small { (i : ℕ) → i < 32 → slice_index numbers i < 255 }
    ensures { Each half_of numbers result }
{
    let one = all(1);
    let sum = more(numbers, one);
    halved(sum)
}

/// 9, 18 and 27 128ths of numbers at offset 128, rounded, at offsets 9, 18 and 27.
#[inline(always)]
pub fn outer_adjustments(numbers: u8x32) -> (u8x32, u8x32, u8x32)
    ensures far { Each (adjustment_of 9) numbers result.0 }
    ensures middle { Each (adjustment_of 18) numbers result.1 }
    ensures near { Each (adjustment_of 27) numbers result.2 }
{
    let nine = numbers.cast::<u16>() * u16x32::splat(9);
    let far = nine + u16x32::splat(63);
    let middle = far + nine;
    let near = middle + nine;
    let far = far >> u16x32::splat(7);
    let middle = middle >> u16x32::splat(7);
    let near = near >> u16x32::splat(7);
    (far.cast::<u8>(), middle.cast::<u8>(), near.cast::<u8>())
}

/// The excess of the step at the edge of each line over `limit`: 0 if it is within the limit.
#[inline(always)]
#[tactic(auto, unfolding(crate::specs::Lanes::step_over_of))]
pub fn step_over(limit: u8, p1: u8x32, p0: u8x32, q0: u8x32, q1: u8x32) -> u8x32
    ensures { (i : ℕ) → i < 32 → slice_index result i ≡ step_over_of limit (slice_index p1 i) (slice_index p0 i) (slice_index q0 i) (slice_index q1 i) }
{
    let limit = all(limit);
    let nearest = apart(p0, q0);
    let outer = apart(p1, q1);
    let twice = more(nearest, nearest);
    let half = halved(outer);
    let step = more(twice, half);
    less(step, limit)
}

/// The greatest difference of adjacent samples, on one side of the edge of each line.
#[inline(always)]
#[tactic(auto, unfolding(crate::specs::Lanes::side_of))]
pub fn side(s3: u8x32, s2: u8x32, s1: u8x32, s0: u8x32) -> u8x32
    ensures { (i : ℕ) → i < 32 → slice_index result i ≡ side_of (slice_index s3 i) (slice_index s2 i) (slice_index s1 i) (slice_index s0 i) }
{
    let outer = apart(s3, s2);
    let middle = apart(s2, s1);
    let inner = apart(s1, s0);
    let outermost = greater(outer, middle);
    greater(outermost, inner)
}

/// The excess over `threshold` of the greater difference of a sample at the edge and its neighbour:
/// 0 in a line whose edge does not have high variance.
#[inline(always)]
#[tactic(auto, unfolding(crate::specs::Lanes::variance_over_of))]
pub fn variance_over(threshold: u8, p1: u8x32, p0: u8x32, q0: u8x32, q1: u8x32) -> u8x32
    ensures { (i : ℕ) → i < 32 → slice_index result i ≡ variance_over_of threshold (slice_index p1 i) (slice_index p0 i) (slice_index q0 i) (slice_index q1 i) }
{
    let threshold = all(threshold);
    let before = apart(p1, p0);
    let following = apart(q1, q0);
    let most = greater(before, following);
    less(most, threshold)
}
