//! The six-tap filters as sums of shifted samples.

ghost use Rattle.std.specs.Prelude.{◌≡◌, ℕ, ◌+◌, ◌-◌, ◌*◌, ◌/◌, ◌%◌, ◌^◌, ◌<◌, min, slice_index};
ghost use Rattle.inter_predict.specs.declared.taps.Taps.{Taps};
ghost use Rattle.inter_predict.specs.Kernels.{IsTaps, six_taps};
ghost use Rattle.inter_predict.specs.Weights.{AreSamples, weighed_by};

use crate::lanes::{added, clamped_rests, clamped_samples, taken, whole_samples};
use crate::taps::Taps;
use std::simd::Simd;
use std::simd::prelude::*;

/// The taps of a filter, as lines of samples are weighed with them.
pub trait Weights<const N: usize>: Copy {
    // the taps
    ghost taps: { Self → Taps };

    /// The samples that the taps return for six lines of samples.
    fn weighed(
        self,
        a: Simd<u16, N>,
        b: Simd<u16, N>,
        c: Simd<u16, N>,
        d: Simd<u16, N>,
        e: Simd<u16, N>,
        f: Simd<u16, N>,
    ) -> Simd<u16, N>
        requires small { IsTaps (taps self) }
        requires samples { AreSamples N a × AreSamples N b × AreSamples N c × AreSamples N d × AreSamples N e × AreSamples N f }
        ensures { (lane : ℕ) → lane < N → slice_index result lane ≡ weighed_by (taps self) (slice_index a.entry lane) (slice_index b.entry lane) (slice_index c.entry lane) (slice_index d.entry lane) (slice_index e.entry lane) (slice_index f.entry lane) };
}

/// By products.
impl<const N: usize> Weights<N> for Taps {
    ghost taps = { λ taps. taps };

    #[inline(always)]
    fn weighed(
        self,
        a: Simd<u16, N>,
        b: Simd<u16, N>,
        c: Simd<u16, N>,
        d: Simd<u16, N>,
        e: Simd<u16, N>,
        f: Simd<u16, N>,
    ) -> Simd<u16, N>
        requires small { IsTaps self }
        requires samples { AreSamples N a × AreSamples N b × AreSamples N c × AreSamples N d × AreSamples N e × AreSamples N f }
        ensures { (lane : ℕ) → lane < N → slice_index result lane ≡ weighed_by self (slice_index a.entry lane) (slice_index b.entry lane) (slice_index c.entry lane) (slice_index d.entry lane) (slice_index e.entry lane) (slice_index f.entry lane) }
    {
        whole_samples(added(a, c, d, f, self), taken(b, e, self))
    }
}

/// Lanes that are shifted to the left.
#[inline(always)]
fn up<const N: usize>(lanes: Simd<u16, N>, count: u16) -> Simd<u16, N>
    requires { count < 16 }
    ensures { (lane : ℕ) → lane < N → slice_index result lane ≡ slice_index lanes.entry lane * 2 ^ count % 65536 }
{
    lanes << Simd::<u16, N>::splat(count)
}

/// The sum of a filter an eighth from a sample, as 16 bits hold it: -6 b + 123 c + 12 d - e.
#[inline(always)]
fn sum_one<const N: usize>(
    b: Simd<u16, N>,
    c: Simd<u16, N>,
    d: Simd<u16, N>,
    e: Simd<u16, N>,
) -> Simd<u16, N>
    requires { AreSamples N b × AreSamples N c × AreSamples N d × AreSamples N e }
    ensures { (lane : ℕ) → lane < N → (slice_index result lane + 6 * slice_index b.entry lane + slice_index e.entry lane) % 65536 ≡ (123 * slice_index c.entry lane + 12 * slice_index d.entry lane) % 65536 }
{
    up(up(c, 4) + d - b, 3) + up(d - c, 2) + (b + b) - (c + e)
}

/// Three times each lane.
#[inline(always)]
fn thrice<const N: usize>(lanes: Simd<u16, N>) -> Simd<u16, N>
    ensures { (lane : ℕ) → lane < N → slice_index result lane ≡ 3 * slice_index lanes.entry lane % 65536 }
{
    lanes + lanes + lanes
}

/// The sum of a filter two eighths from a sample: 2 a - 11 b + 108 c + 36 d - 8 e + f.
#[inline(always)]
fn sum_two<const N: usize>(
    a: Simd<u16, N>,
    b: Simd<u16, N>,
    c: Simd<u16, N>,
    d: Simd<u16, N>,
    e: Simd<u16, N>,
    f: Simd<u16, N>,
) -> Simd<u16, N>
    requires { AreSamples N a × AreSamples N b × AreSamples N c × AreSamples N d × AreSamples N e × AreSamples N f }
    ensures { (lane : ℕ) → lane < N → (slice_index result lane + 11 * slice_index b.entry lane + 8 * slice_index e.entry lane) % 65536 ≡ (2 * slice_index a.entry lane + 108 * slice_index c.entry lane + 36 * slice_index d.entry lane + slice_index f.entry lane) % 65536 }
{
    let middle = thrice(c) + d;
    let outer = b + e;
    up(middle, 5) + up(middle - (outer + outer), 2) + (a + a + f - thrice(b))
}

/// The sum of a filter three eighths from a sample: -9 b + 93 c + 50 d - 6 e.
#[inline(always)]
fn sum_three<const N: usize>(
    b: Simd<u16, N>,
    c: Simd<u16, N>,
    d: Simd<u16, N>,
    e: Simd<u16, N>,
) -> Simd<u16, N>
    requires { AreSamples N b × AreSamples N c × AreSamples N d × AreSamples N e }
    ensures { (lane : ℕ) → lane < N → (slice_index result lane + 9 * slice_index b.entry lane + 6 * slice_index e.entry lane) % 65536 ≡ (93 * slice_index c.entry lane + 50 * slice_index d.entry lane) % 65536 }
{
    thrice(up(c, 5) - c + up(d, 4) - thrice(b) - (e + e)) + (d + d)
}

/// The sum of a filter half a sample from another: 3 a - 16 b + 77 c + 77 d - 16 e + 3 f.
#[inline(always)]
fn sum_four<const N: usize>(
    a: Simd<u16, N>,
    b: Simd<u16, N>,
    c: Simd<u16, N>,
    d: Simd<u16, N>,
    e: Simd<u16, N>,
    f: Simd<u16, N>,
) -> Simd<u16, N>
    requires { AreSamples N a × AreSamples N b × AreSamples N c × AreSamples N d × AreSamples N e × AreSamples N f }
    ensures { (lane : ℕ) → lane < N → (slice_index result lane + 16 * slice_index b.entry lane + 16 * slice_index e.entry lane) % 65536 ≡ (3 * slice_index a.entry lane + 77 * slice_index c.entry lane + 77 * slice_index d.entry lane + 3 * slice_index f.entry lane) % 65536 }
{
    let middle = c + d;
    let outer = b + e;
    up(up(middle, 2) + middle - outer, 4) - thrice(middle - (a + f))
}

/// The samples for sums of 128ths, clamped to 0..=255. The sums are those of a filter, as 16 bits hold them.
#[inline(always)]
fn rounded<const N: usize>(sums: Simd<u16, N>) -> Simd<u16, N>
    ensures { (lane : ℕ) → lane < N → slice_index result lane ≡ min (((slice_index sums.entry lane + 8256) % 65536 - 8192) / 128) 255 }
{
    let raised = sums + Simd::<u16, N>::splat(8256);
    clamped_samples(clamped_rests(raised, Simd::<u16, N>::splat(8192)))
}

/// The six-tap filter for an eighth, by shifts and sums.
#[derive(Clone, Copy)]
pub struct OneEighth;

impl<const N: usize> Weights<N> for OneEighth {
    ghost taps = { λ own. six_taps 1 };

    #[inline(always)]
    fn weighed(
        self,
        a: Simd<u16, N>,
        b: Simd<u16, N>,
        c: Simd<u16, N>,
        d: Simd<u16, N>,
        e: Simd<u16, N>,
        f: Simd<u16, N>,
    ) -> Simd<u16, N>
        requires samples { AreSamples N a × AreSamples N b × AreSamples N c × AreSamples N d × AreSamples N e × AreSamples N f }
        ensures { (lane : ℕ) → lane < N → slice_index result lane ≡ weighed_by (six_taps 1) (slice_index a.entry lane) (slice_index b.entry lane) (slice_index c.entry lane) (slice_index d.entry lane) (slice_index e.entry lane) (slice_index f.entry lane) }
    {
        rounded(sum_one(b, c, d, e))
    }
}

/// The six-tap filter for two eighths, by shifts and sums.
#[derive(Clone, Copy)]
pub struct TwoEighths;

impl<const N: usize> Weights<N> for TwoEighths {
    ghost taps = { λ own. six_taps 2 };

    #[inline(always)]
    fn weighed(
        self,
        a: Simd<u16, N>,
        b: Simd<u16, N>,
        c: Simd<u16, N>,
        d: Simd<u16, N>,
        e: Simd<u16, N>,
        f: Simd<u16, N>,
    ) -> Simd<u16, N>
        requires samples { AreSamples N a × AreSamples N b × AreSamples N c × AreSamples N d × AreSamples N e × AreSamples N f }
        ensures { (lane : ℕ) → lane < N → slice_index result lane ≡ weighed_by (six_taps 2) (slice_index a.entry lane) (slice_index b.entry lane) (slice_index c.entry lane) (slice_index d.entry lane) (slice_index e.entry lane) (slice_index f.entry lane) }
    {
        rounded(sum_two(a, b, c, d, e, f))
    }
}

/// The six-tap filter for three eighths, by shifts and sums.
#[derive(Clone, Copy)]
pub struct ThreeEighths;

impl<const N: usize> Weights<N> for ThreeEighths {
    ghost taps = { λ own. six_taps 3 };

    #[inline(always)]
    fn weighed(
        self,
        a: Simd<u16, N>,
        b: Simd<u16, N>,
        c: Simd<u16, N>,
        d: Simd<u16, N>,
        e: Simd<u16, N>,
        f: Simd<u16, N>,
    ) -> Simd<u16, N>
        requires samples { AreSamples N a × AreSamples N b × AreSamples N c × AreSamples N d × AreSamples N e × AreSamples N f }
        ensures { (lane : ℕ) → lane < N → slice_index result lane ≡ weighed_by (six_taps 3) (slice_index a.entry lane) (slice_index b.entry lane) (slice_index c.entry lane) (slice_index d.entry lane) (slice_index e.entry lane) (slice_index f.entry lane) }
    {
        rounded(sum_three(b, c, d, e))
    }
}

/// The six-tap filter for four eighths, by shifts and sums.
#[derive(Clone, Copy)]
pub struct FourEighths;

impl<const N: usize> Weights<N> for FourEighths {
    ghost taps = { λ own. six_taps 4 };

    #[inline(always)]
    fn weighed(
        self,
        a: Simd<u16, N>,
        b: Simd<u16, N>,
        c: Simd<u16, N>,
        d: Simd<u16, N>,
        e: Simd<u16, N>,
        f: Simd<u16, N>,
    ) -> Simd<u16, N>
        requires samples { AreSamples N a × AreSamples N b × AreSamples N c × AreSamples N d × AreSamples N e × AreSamples N f }
        ensures { (lane : ℕ) → lane < N → slice_index result lane ≡ weighed_by (six_taps 4) (slice_index a.entry lane) (slice_index b.entry lane) (slice_index c.entry lane) (slice_index d.entry lane) (slice_index e.entry lane) (slice_index f.entry lane) }
    {
        rounded(sum_four(a, b, c, d, e, f))
    }
}

/// The six-tap filter for five eighths, by shifts and sums.
#[derive(Clone, Copy)]
pub struct FiveEighths;

impl<const N: usize> Weights<N> for FiveEighths {
    ghost taps = { λ own. six_taps 5 };

    #[inline(always)]
    fn weighed(
        self,
        a: Simd<u16, N>,
        b: Simd<u16, N>,
        c: Simd<u16, N>,
        d: Simd<u16, N>,
        e: Simd<u16, N>,
        f: Simd<u16, N>,
    ) -> Simd<u16, N>
        requires samples { AreSamples N a × AreSamples N b × AreSamples N c × AreSamples N d × AreSamples N e × AreSamples N f }
        ensures { (lane : ℕ) → lane < N → slice_index result lane ≡ weighed_by (six_taps 5) (slice_index a.entry lane) (slice_index b.entry lane) (slice_index c.entry lane) (slice_index d.entry lane) (slice_index e.entry lane) (slice_index f.entry lane) }
    {
        rounded(sum_three(e, d, c, b))
    }
}

/// The six-tap filter for six eighths, by shifts and sums.
#[derive(Clone, Copy)]
pub struct SixEighths;

impl<const N: usize> Weights<N> for SixEighths {
    ghost taps = { λ own. six_taps 6 };

    #[inline(always)]
    fn weighed(
        self,
        a: Simd<u16, N>,
        b: Simd<u16, N>,
        c: Simd<u16, N>,
        d: Simd<u16, N>,
        e: Simd<u16, N>,
        f: Simd<u16, N>,
    ) -> Simd<u16, N>
        requires samples { AreSamples N a × AreSamples N b × AreSamples N c × AreSamples N d × AreSamples N e × AreSamples N f }
        ensures { (lane : ℕ) → lane < N → slice_index result lane ≡ weighed_by (six_taps 6) (slice_index a.entry lane) (slice_index b.entry lane) (slice_index c.entry lane) (slice_index d.entry lane) (slice_index e.entry lane) (slice_index f.entry lane) }
    {
        rounded(sum_two(f, e, d, c, b, a))
    }
}

/// The six-tap filter for seven eighths, by shifts and sums.
#[derive(Clone, Copy)]
pub struct SevenEighths;

impl<const N: usize> Weights<N> for SevenEighths {
    ghost taps = { λ own. six_taps 7 };

    #[inline(always)]
    fn weighed(
        self,
        a: Simd<u16, N>,
        b: Simd<u16, N>,
        c: Simd<u16, N>,
        d: Simd<u16, N>,
        e: Simd<u16, N>,
        f: Simd<u16, N>,
    ) -> Simd<u16, N>
        requires samples { AreSamples N a × AreSamples N b × AreSamples N c × AreSamples N d × AreSamples N e × AreSamples N f }
        ensures { (lane : ℕ) → lane < N → slice_index result lane ≡ weighed_by (six_taps 7) (slice_index a.entry lane) (slice_index b.entry lane) (slice_index c.entry lane) (slice_index d.entry lane) (slice_index e.entry lane) (slice_index f.entry lane) }
    {
        rounded(sum_one(e, d, c, b))
    }
}
