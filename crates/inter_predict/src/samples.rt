ghost use Rattle.std.specs.Prelude.{◌≡◌, ℕ, ◌+◌, ◌-◌, ◌<◌, ◌≤◌, length, slice_index};
ghost use Rattle.std.specs.Simd.Lanes.{chunk, put_chunk};
ghost use Rattle.inter_predict.specs.Kernels.{IsLine, paired};

use crate::lanes::{first_half, last_half, paired, widened};
use std::simd::Simd;

/// Samples in `N` lanes: of one plane, or of two whose rows are equally far apart.
pub trait Samples<const N: usize>: Copy {
    // the sample in a lane of those from a place on
    ghost sample: { Self → ℕ → ℕ → ℕ };

    // there are samples from this place on
    ghost has: { Self → ℕ → Type 0 };

    // how many lanes are the first plane's
    ghost width: { ℕ };

    /// Does nothing. Its contract: no more lanes are the first plane's than there are.
    fn prove_width()
        ensures { width ≤ N };

    /// The samples from index `place` on, in lanes of 16 bits.
    fn at(self, place: usize) -> Simd<u16, N>
        requires lanes { N ≤ 16 }
        requires has { has self place }
        ensures { IsLine N (sample self place) result };

    /// Stores samples from index `place` on: those of a second plane in `other`.
    fn store(row: Simd<u8, N>, place: usize, out: &mut [u8], other: &mut [u8])
        requires lanes { N ≤ 16 }
        requires out { place + width ≤ length out.old }
        requires other { width < N → place + (N - width) ≤ length other.old }
        ensures within { width ≤ N }
        ensures out { out.new ≡ put_chunk place out.old (chunk 0 width row.entry) }
        ensures other { width < N → other.new ≡ put_chunk place other.old (chunk width (N - width) row.entry) };
}

impl<'a, const N: usize> Samples<N> for &'a [u8] {
    ghost sample = { λ samples place lane. slice_index samples.now (place + lane) };

    ghost has = { λ samples place. place + N ≤ length samples.now };

    ghost width = { N };

    #[inline(always)]
    fn prove_width()
        ensures { N ≤ N }
    {}

    #[inline(always)]
    fn at(self, place: usize) -> Simd<u16, N> {
        widened::<N>(self, place)
    }

    #[inline(always)]
    fn store(row: Simd<u8, N>, place: usize, out: &mut [u8], other: &mut [u8])
        requires lanes { N ≤ 16 }
        requires out { place + N ≤ length out.old }
        ensures within { N ≤ N }
        ensures out { out.new ≡ put_chunk place out.old (chunk 0 N row.entry) }
        ensures other { N < N → other.new ≡ put_chunk place other.old (chunk N (N - N) row.entry) }
    {
        row.copy_to_slice(&mut out[place..]);
    }
}

/// The samples of two planes.
#[derive(Clone, Copy)]
pub struct Pair<'a> {
    pub one: &'a [u8],
    pub other: &'a [u8],
}

impl<'a> Samples<16> for Pair<'a> {
    ghost sample = { λ pair place. paired (λ lane. slice_index pair.one.now (place + lane)) (λ lane. slice_index pair.other.now (place + lane)) };

    ghost has = { λ pair place. (place + 8 ≤ length pair.one.now) × (place + 8 ≤ length pair.other.now) };

    ghost width = { 8 };

    #[inline(always)]
    fn prove_width()
        ensures { 8 ≤ 16 }
    {}

    #[inline(always)]
    fn at(self, place: usize) -> Simd<u16, 16> {
        paired(self.one, self.other, place)
    }

    #[inline(always)]
    fn store(row: Simd<u8, 16>, place: usize, out: &mut [u8], other: &mut [u8])
        requires out { place + 8 ≤ length out.old }
        requires other { place + 8 ≤ length other.old }
        ensures within { 8 ≤ 16 }
        ensures out { out.new ≡ put_chunk place out.old (chunk 0 8 row) }
        ensures other { 8 < 16 → other.new ≡ put_chunk place other.old (chunk 8 8 row) }
    {
        first_half(row).copy_to_slice(&mut out[place..]);
        last_half(row).copy_to_slice(&mut other[place..]);
    }
}
