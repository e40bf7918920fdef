ghost use Rattle.std.specs.Prelude.{◌≡◌, ℕ, ◌+◌, ◌-◌, ◌*◌, ◌/◌, ◌<◌, ◌≤◌, length, min, slice_index};
ghost use Rattle.std.specs.Simd.Lanes.{chunk, zip2};
ghost use Rattle.inter_predict.specs.declared.kinds.Kind.{Kind};
ghost use Rattle.inter_predict.specs.Kernels.{AreTapsOf, IsLine, IsTaps, between_in, paired, tapped_from};

use crate::samples::Samples;
use crate::taps::Taps;
use crate::weights::Weights;
use std::simd::Simd;
use std::simd::prelude::*;

/// The lanes of `added` less the lanes of `taken`, clamped at 0.
#[inline(always)]
pub fn clamped_rests<const N: usize>(added: Simd<u16, N>, taken: Simd<u16, N>) -> Simd<u16, N>
    ensures { result ≡ zip2 (λ a b. a - b) added.entry taken.entry }
{
    added.saturating_sub(taken)
}

/// The whole numbers in lanes of 128ths, clamped at 255.
///
/// They are clamped before they are shifted: LLVM then needs no comparison.
#[inline(always)]
pub fn clamped_samples<const N: usize>(lanes: Simd<u16, N>) -> Simd<u16, N>
    ensures { (lane : ℕ) → lane < N → slice_index result lane ≡ min (slice_index lanes.entry lane / 128) 255 }
{
    lanes.simd_min(Simd::<u16, N>::splat(32767)) >> Simd::<u16, N>::splat(7)
}

/// The samples for sums of 128ths: what is added less what is taken, clamped to 0..=255.
#[inline(always)]
pub fn whole_samples<const N: usize>(added: Simd<u16, N>, taken: Simd<u16, N>) -> Simd<u16, N>
    ensures { (lane : ℕ) → lane < N → slice_index result lane ≡ min ((slice_index added.entry lane - slice_index taken.entry lane) / 128) 255 }
{
    clamped_samples(clamped_rests(added, taken))
}

/// Samples in lanes of 8 bits, as planes store them.
#[inline(always)]
pub fn narrowed<const N: usize>(samples: Simd<u16, N>) -> Simd<u8, N>
    requires { (lane : ℕ) → lane < N → slice_index samples lane < 256 }
    ensures { result ≡ samples.entry }
{
    samples.cast::<u8>()
}

/// `N` adjacent samples, starting at index `start`, in lanes of 16 bits.
#[inline(always)]
pub fn widened<const N: usize>(samples: &[u8], start: usize) -> Simd<u16, N>
    requires lanes { N ≤ 16 }
    requires room { start + N ≤ length samples.now }
    ensures { IsLine N (λ lane. slice_index samples.now (start + lane)) result }
{
    Simd::<u8, N>::from_slice(&samples[start..]).cast::<u16>()
}

/// Eight adjacent samples of each of two planes, starting at index `start`, in lanes of 16 bits.
#[inline(always)]
pub fn paired(one: &[u8], other: &[u8], start: usize) -> Simd<u16, 16>
    requires one { start + 8 ≤ length one.now }
    requires other { start + 8 ≤ length other.now }
    ensures { IsLine 16 (paired (λ lane. slice_index one.now (start + lane)) (λ lane. slice_index other.now (start + lane))) result }
{
    let one = Simd::<u8, 8>::from_slice(&one[start..]);
    let other = Simd::<u8, 8>::from_slice(&other[start..]);
    one.shuffle(
        other,
        [0, 1, 2, 3, 4, 5, 6, 7, 8, 9, 10, 11, 12, 13, 14, 15],
    )
    .cast::<u16>()
}

/// The first eight of sixteen lanes.
#[inline(always)]
pub fn first_half(row: Simd<u8, 16>) -> Simd<u8, 8>
    ensures { result ≡ chunk 0 8 row }
{
    row.extract::<0, 8>()
}

/// The last eight of sixteen lanes.
#[inline(always)]
pub fn last_half(row: Simd<u8, 16>) -> Simd<u8, 8>
    ensures { result ≡ chunk 8 8 row }
{
    row.extract::<8, 8>()
}

/// The products of the two middle taps of a filter, and 64 for rounding.
#[inline(always)]
pub fn middle<const N: usize>(c: Simd<u16, N>, d: Simd<u16, N>, taps: Taps) -> Simd<u16, N>
    requires bytes { (lane : ℕ) → lane < N → (slice_index c lane < 256) × (slice_index d lane < 256) }
    requires small { IsTaps taps }
    ensures { (lane : ℕ) → lane < N → slice_index result lane ≡ slice_index c.entry lane * taps.c + slice_index d.entry lane * taps.d + 64 }
{
    c * Simd::<u16, N>::splat(taps.c)
        + d * Simd::<u16, N>::splat(taps.d)
        + Simd::<u16, N>::splat(64)
}

/// The products that a filter adds, and 64 for rounding, of samples in lanes of 16 bits.
///
/// Sums stay below 65,536: at most 160 times 255, and 64, are added.
#[inline(always)]
pub fn added<const N: usize>(
    a: Simd<u16, N>,
    c: Simd<u16, N>,
    d: Simd<u16, N>,
    f: Simd<u16, N>,
    taps: Taps,
) -> Simd<u16, N>
    requires bytes { (lane : ℕ) → lane < N → (slice_index a lane < 256) × (slice_index c lane < 256) × (slice_index d lane < 256) × (slice_index f lane < 256) }
    requires small { IsTaps taps }
    ensures { (lane : ℕ) → lane < N → slice_index result lane ≡ slice_index a.entry lane * taps.a + slice_index c.entry lane * taps.c + slice_index d.entry lane * taps.d + slice_index f.entry lane * taps.f + 64 }
{
    middle(c, d, taps) + a * Simd::<u16, N>::splat(taps.a) + f * Simd::<u16, N>::splat(taps.f)
}

/// The products that a filter subtracts, of samples in lanes of 16 bits.
#[inline(always)]
pub fn taken<const N: usize>(b: Simd<u16, N>, e: Simd<u16, N>, taps: Taps) -> Simd<u16, N>
    requires bytes { (lane : ℕ) → lane < N → (slice_index b lane < 256) × (slice_index e lane < 256) }
    requires small { IsTaps taps }
    ensures { (lane : ℕ) → lane < N → slice_index result lane ≡ slice_index b.entry lane * taps.b + slice_index e.entry lane * taps.e }
{
    b * Simd::<u16, N>::splat(taps.b) + e * Simd::<u16, N>::splat(taps.e)
}

/// Filters the samples of a row: each from six samples, the first at index `start`.
#[inline(always)]
pub fn tapped<const N: usize, S: Samples<N>, W: Weights<N>>(
    samples: S,
    start: usize,
    weights: W,
) -> Simd<u16, N>
    requires lanes { N ≤ 16 }
    requires start { start ≤ 1099511627776 }
    requires has { (place : ℕ) → start ≤ place → place < start + 6 → S.has samples place }
    requires small { IsTaps (W.taps weights) }
    ensures taps { IsLine N (λ lane. tapped_from (W.taps weights) (S.sample samples) lane start) result }
    ensures between { (kind : Kind) (eighths : ℕ) → AreTapsOf (W.taps weights) kind eighths → IsLine N (λ lane. between_in kind eighths (S.sample samples) lane start) result }
{
    let a = samples.at(start);
    let b = samples.at(start + 1);
    let c = samples.at(start + 2);
    let d = samples.at(start + 3);
    let e = samples.at(start + 4);
    let f = samples.at(start + 5);
    weights.weighed(a, b, c, d, e, f)
}
