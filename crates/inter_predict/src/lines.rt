ghost use Rattle.std.specs.Prelude.{◌≡◌, ℕ, ◌+◌, ◌*◌, ◌<◌, ◌≤◌};
ghost use Rattle.inter_predict.specs.Kernels.{HasRow, IsLine, IsTaps, tapped_from};

use crate::lanes::tapped;
use crate::rows::Rows;
use crate::samples::Samples;
use crate::weights::Weights;
use std::simd::Simd;

/// Lines of samples in `N` lanes, one below the other: the rows of a plane, or what a filter makes of
/// them.
pub trait Lines<const N: usize>: Copy {
    // the sample in a lane of a line
    ghost sample: { Self → ℕ → ℕ → ℕ };

    // there is a line of this number
    ghost has: { Self → ℕ → Type 0 };

    /// Line `number`, in lanes of 16 bits.
    fn line(self, number: usize) -> Simd<u16, N>
        requires lanes { N ≤ 16 }
        requires has { has self number }
        ensures { IsLine N (sample self number) result };
}

/// The rows themselves.
impl<S: Samples<N>, const N: usize> Lines<N> for Rows<S> {
    ghost sample = { λ rows number. S.sample rows.samples (number * rows.stride + rows.start) };

    ghost has = { λ rows number. (number * rows.stride + rows.start ≤ 1099511627776) × S.has rows.samples (number * rows.stride + rows.start) };

    #[inline(always)]
    fn line(self, number: usize) -> Simd<u16, N> {
        self.samples.at(number * self.stride + self.start)
    }
}

/// Rows that are filtered across. The first tap of a row's first sample reads where the row begins.
#[derive(Clone, Copy)]
pub struct Across<S, W> {
    pub rows: Rows<S>,
    pub weights: W,
}

impl<S: Samples<N>, W: Weights<N>, const N: usize> Lines<N> for Across<S, W> {
    ghost sample = { λ across number lane. tapped_from (W.taps across.weights) (S.sample across.rows.samples) lane (number * across.rows.stride + across.rows.start) };

    ghost has = { λ across number. IsTaps (W.taps across.weights) × HasRow (S.has across.rows.samples) across.rows.stride across.rows.start number };

    #[inline(always)]
    fn line(self, number: usize) -> Simd<u16, N> {
        let Rows {
            samples,
            start,
            stride,
        } = self.rows;
        tapped::<N, S, W>(samples, number * stride + start, self.weights)
    }
}
