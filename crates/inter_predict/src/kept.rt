//! Lines that were filtered across, which the filter down reads again.

ghost use Rattle.std.specs.Prelude.{◌≡◌, ℕ, [], ◌+◌, ◌<◌, ◌≤◌, slice_index, slice_index_or};
ghost use Rattle.inter_predict.specs.Kernels.{IsLine};

use crate::lines::Lines;
use std::simd::Simd;

/// Lines of samples that were made: for a block of 16 rows, at most, and five more.
#[derive(Clone, Copy)]
pub struct Kept<'a, const N: usize> {
    pub lines: &'a [[u16; N]; 21],
}

impl<'a, const N: usize> Lines<N> for Kept<'a, N> {
    ghost sample = { λ kept number lane. slice_index (slice_index_or kept.lines.now number []) lane };

    ghost has = { λ kept number. (number < 21) × ((lane : ℕ) → lane < N → slice_index (slice_index_or kept.lines.now number []) lane < 256) };

    #[inline(always)]
    fn line(self, number: usize) -> Simd<u16, N> {
        Simd::<u16, N>::from_slice(&self.lines[number])
    }
}

/// Makes the first lines, this many, and keeps them.
#[inline(always)]
pub fn keep<const N: usize, L: Lines<N>>(lines: L, count: usize, kept: &mut [[u16; N]; 21])
    requires lanes { N ≤ 16 }
    requires few { count ≤ 21 }
    requires lines { (number : ℕ) → number < count → L.has lines number }
    ensures { (number : ℕ) → number < count → IsLine N (L.sample lines number) (slice_index_or kept.new number []) }
{
    for number in 0..count {
        kept[number] = lines.line(number).to_array();
    }
}
