//! Filters by sums of shifted samples: for each number of eighths its own code.

ghost use Rattle.std.specs.Prelude.{◌≡◌, ℕ, [], ◌+◌, ◌-◌, ◌*◌, ◌<◌, ◌≤◌, length, slice_index_or};
ghost use Rattle.inter_predict.specs.Kernels.{HasRow, IsLine, IsRoomFor, IsStrip, IsTaps, tapped_from};

use crate::kept::{Kept, keep};
use crate::lines::{Across, Lines};
use crate::passes::{six_down, stored};
use crate::rows::{Rows, Strip};
use crate::samples::Samples;
use crate::taps::{Filters, Taps};
use crate::weights::{
    FiveEighths, FourEighths, OneEighth, SevenEighths, SixEighths, ThreeEighths, TwoEighths,
};

/// Filters rows across into a strip of `out` by the taps of a six-tap filter.
#[inline(always)]
pub fn sums_across<const N: usize, S: Samples<N>>(
    rows: Rows<S>,
    taps: Taps,
    strip: Strip,
    out: &mut [u8],
    other: &mut [u8],
)
    requires lanes { (0 < N) × (N ≤ 16) }
    requires height { (0 < strip.height) × (strip.height ≤ 16) }
    requires stride { strip.stride ≤ 65536 }
    requires rows { (number : ℕ) → number < strip.height → HasRow (S.has rows.samples) rows.stride rows.start number }
    requires out { IsRoomFor strip S.width (length out.old) }
    requires other { S.width < N → IsRoomFor strip (N - S.width) (length other.old) }
    requires small { IsTaps taps }
    requires known { 0 < taps.eighths }
    ensures out { IsStrip (λ column row. tapped_from taps (S.sample rows.samples) column (row * rows.stride + rows.start)) strip.first S.width strip.height strip.stride out.old out.new }
    ensures other { S.width < N → IsStrip (λ column row. tapped_from taps (S.sample rows.samples) (S.width + column) (row * rows.stride + rows.start)) strip.first (N - S.width) strip.height strip.stride other.old other.new }
{
    match taps.eighths {
        1 => {
            let weights = OneEighth;
            stored::<N, Across<S, OneEighth>, S>(Across { rows, weights }, strip, out, other);
        }
        2 => {
            let weights = TwoEighths;
            stored::<N, Across<S, TwoEighths>, S>(Across { rows, weights }, strip, out, other);
        }
        3 => {
            let weights = ThreeEighths;
            stored::<N, Across<S, ThreeEighths>, S>(Across { rows, weights }, strip, out, other);
        }
        4 => {
            let weights = FourEighths;
            stored::<N, Across<S, FourEighths>, S>(Across { rows, weights }, strip, out, other);
        }
        5 => {
            let weights = FiveEighths;
            stored::<N, Across<S, FiveEighths>, S>(Across { rows, weights }, strip, out, other);
        }
        6 => {
            let weights = SixEighths;
            stored::<N, Across<S, SixEighths>, S>(Across { rows, weights }, strip, out, other);
        }
        _ => {
            let weights = SevenEighths;
            stored::<N, Across<S, SevenEighths>, S>(Across { rows, weights }, strip, out, other);
        }
    }
}

/// Filters rows across by the taps of a six-tap filter, and keeps the first lines, this many.
#[inline(always)]
fn keep_across<const N: usize, S: Samples<N>>(
    rows: Rows<S>,
    taps: Taps,
    count: usize,
    kept: &mut [[u16; N]; 21],
)
    requires lanes { N ≤ 16 }
    requires few { count ≤ 21 }
    requires rows { (number : ℕ) → number < count → HasRow (S.has rows.samples) rows.stride rows.start number }
    requires small { IsTaps taps }
    requires known { 0 < taps.eighths }
    ensures { (number : ℕ) → number < count → IsLine N (λ lane. tapped_from taps (S.sample rows.samples) lane (number * rows.stride + rows.start)) (slice_index_or kept.new number []) }
{
    match taps.eighths {
        1 => {
            let weights = OneEighth;
            keep::<N, Across<S, OneEighth>>(Across { rows, weights }, count, kept);
        }
        2 => {
            let weights = TwoEighths;
            keep::<N, Across<S, TwoEighths>>(Across { rows, weights }, count, kept);
        }
        3 => {
            let weights = ThreeEighths;
            keep::<N, Across<S, ThreeEighths>>(Across { rows, weights }, count, kept);
        }
        4 => {
            let weights = FourEighths;
            keep::<N, Across<S, FourEighths>>(Across { rows, weights }, count, kept);
        }
        5 => {
            let weights = FiveEighths;
            keep::<N, Across<S, FiveEighths>>(Across { rows, weights }, count, kept);
        }
        6 => {
            let weights = SixEighths;
            keep::<N, Across<S, SixEighths>>(Across { rows, weights }, count, kept);
        }
        _ => {
            let weights = SevenEighths;
            keep::<N, Across<S, SevenEighths>>(Across { rows, weights }, count, kept);
        }
    }
}

/// Filters lines down into a strip of `out` by the taps of a six-tap filter.
#[inline(always)]
pub fn sums_down<const N: usize, L: Lines<N>, S: Samples<N>>(
    lines: L,
    taps: Taps,
    strip: Strip,
    out: &mut [u8],
    other: &mut [u8],
)
    requires lanes { (0 < N) × (N ≤ 16) }
    requires height { (0 < strip.height) × (strip.height ≤ 16) }
    requires stride { strip.stride ≤ 65536 }
    requires lines { (number : ℕ) → number < strip.height + 5 → L.has lines number }
    requires out { IsRoomFor strip S.width (length out.old) }
    requires other { S.width < N → IsRoomFor strip (N - S.width) (length other.old) }
    requires small { IsTaps taps }
    requires known { 0 < taps.eighths }
    ensures out { IsStrip (tapped_from taps (L.sample lines)) strip.first S.width strip.height strip.stride out.old out.new }
    ensures other { S.width < N → IsStrip (λ column row. tapped_from taps (L.sample lines) (S.width + column) row) strip.first (N - S.width) strip.height strip.stride other.old other.new }
{
    match taps.eighths {
        1 => six_down::<N, L, S, OneEighth>(lines, OneEighth, strip, out, other),
        2 => six_down::<N, L, S, TwoEighths>(lines, TwoEighths, strip, out, other),
        3 => six_down::<N, L, S, ThreeEighths>(lines, ThreeEighths, strip, out, other),
        4 => six_down::<N, L, S, FourEighths>(lines, FourEighths, strip, out, other),
        5 => six_down::<N, L, S, FiveEighths>(lines, FiveEighths, strip, out, other),
        6 => six_down::<N, L, S, SixEighths>(lines, SixEighths, strip, out, other),
        _ => six_down::<N, L, S, SevenEighths>(lines, SevenEighths, strip, out, other),
    }
}

/// Predicts a strip by both filters: the lines that are filtered across are kept.
#[inline(always)]
pub fn sums_both<const N: usize, S: Samples<N>>(
    rows: Rows<S>,
    filters: Filters,
    strip: Strip,
    out: &mut [u8],
    other: &mut [u8],
)
    requires lanes { (0 < N) × (N ≤ 16) }
    requires height { (0 < strip.height) × (strip.height ≤ 16) }
    requires stride { strip.stride ≤ 65536 }
    requires rows { (number : ℕ) → number < strip.height + 5 → HasRow (S.has rows.samples) rows.stride rows.start number }
    requires out { IsRoomFor strip S.width (length out.old) }
    requires other { S.width < N → IsRoomFor strip (N - S.width) (length other.old) }
    requires across { IsTaps filters.across }
    requires down { IsTaps filters.down }
    requires known { (0 < filters.across.eighths) × (0 < filters.down.eighths) }
    ensures out { IsStrip (tapped_from filters.down (λ line lane. tapped_from filters.across (S.sample rows.samples) lane (line * rows.stride + rows.start))) strip.first S.width strip.height strip.stride out.old out.new }
    ensures other { S.width < N → IsStrip (λ column row. tapped_from filters.down (λ line lane. tapped_from filters.across (S.sample rows.samples) lane (line * rows.stride + rows.start)) (S.width + column) row) strip.first (N - S.width) strip.height strip.stride other.old other.new }
{
    S::prove_width();
    let Filters { across, down } = filters;
    let mut kept = [[0u16; N]; 21];
    keep_across::<N, S>(rows, across, strip.height + 5, &mut kept);
    sums_down::<N, Kept<N>, S>(Kept { lines: &kept }, down, strip, out, other);
}
