ghost use Rattle.std.specs.Prelude.{◌≡◌, ℕ, ◌+◌, ◌-◌, ◌*◌, ◌<◌, ◌≤◌, length, slice_index};
ghost use Rattle.inter_predict.specs.Kernels.{HasRow, IsRoomFor, IsTaps, IsStrip, Predicts, tapped_from, tapped_twice};

use crate::lines::Across;
use crate::passes::{filter_down, stored, two_down, wide_down};
use crate::rows::{Rows, Strip};
use crate::samples::{Pair, Samples};
use crate::sums::{sums_across, sums_both, sums_down};
use crate::taps::{Filters, Taps};
use std::simd::Simd;

/// Copies rows of `N` samples into a strip of `out`.
#[inline]
pub fn copy<const N: usize>(rows: Rows<&[u8]>, strip: Strip, out: &mut [u8])
    requires lanes { (0 < N) × (N ≤ 16) }
    requires height { (0 < strip.height) × (strip.height ≤ 16) }
    requires strides { (rows.start ≤ 262144) × (rows.stride ≤ 65536) × (strip.stride ≤ 65536) }
    requires room { rows.start + (strip.height - 1) * rows.stride + N ≤ length rows.samples.now }
    requires out { (strip.height - 1) * strip.stride + (strip.first + N) ≤ length out.old }
    requires inside { strip.first + N ≤ strip.stride }
    ensures { IsStrip (λ column row. slice_index rows.entry.samples.now (rows.entry.start + row * rows.entry.stride + column)) strip.first N strip.height strip.stride out.old out.new }
{
    let Rows {
        samples,
        start,
        stride,
    } = rows;
    for row in 0..strip.height {
        Simd::<u8, N>::from_slice(&samples[start + row * stride..]).copy_to_slice(
            &mut out[row * strip.stride + strip.first..],
        );
    }
}

/// Filters rows across into a strip of `out`, without the products of taps that are 0. The first tap of
/// a row's first sample reads where the row begins.
#[inline(always)]
fn filter_across<const N: usize, S: Samples<N>>(
    rows: Rows<S>,
    taps: Taps,
    strip: Strip,
    out: &mut [u8],
    other: &mut [u8],
)
    requires lanes { (0 < N) × (N ≤ 16) }
    requires height { (0 < strip.height) × (strip.height ≤ 16) }
    requires stride { strip.stride ≤ 65536 }
    requires rows { (number : ℕ) → number < strip.height → HasRow (S.has rows.samples) rows.stride rows.start number }
    requires out { IsRoomFor strip S.width (length out.old) }
    requires other { S.width < N → IsRoomFor strip (N - S.width) (length other.old) }
    requires small { IsTaps taps }
    ensures out { IsStrip (λ column row. tapped_from taps (S.sample rows.samples) column (row * rows.stride + rows.start)) strip.first S.width strip.height strip.stride out.old out.new }
    ensures other { S.width < N → IsStrip (λ column row. tapped_from taps (S.sample rows.samples) (S.width + column) (row * rows.stride + rows.start)) strip.first (N - S.width) strip.height strip.stride other.old other.new }
{
    if N == 16 && taps.eighths > 0 {
        sums_across::<N, S>(rows, taps, strip, out, other);
    } else if taps.are_two() {
        let weights = taps.as_two();
        stored::<N, Across<S, Taps>, S>(Across { rows, weights }, strip, out, other);
    } else if taps.are_four() {
        let weights = taps.as_four();
        stored::<N, Across<S, Taps>, S>(Across { rows, weights }, strip, out, other);
    } else {
        let weights = taps;
        stored::<N, Across<S, Taps>, S>(Across { rows, weights }, strip, out, other);
    }
}

/// Filters rows down into a strip of `out`.
#[inline(always)]
fn filter_rows_down<const N: usize, S: Samples<N>>(
    rows: Rows<S>,
    taps: Taps,
    strip: Strip,
    out: &mut [u8],
    other: &mut [u8],
)
    requires lanes { (0 < N) × (N ≤ 16) }
    requires height { (0 < strip.height) × (strip.height ≤ 16) }
    requires stride { strip.stride ≤ 65536 }
    requires lines { (number : ℕ) → number < strip.height + 5 → (number * rows.stride + rows.start ≤ 1099511627776) × S.has rows.samples (number * rows.stride + rows.start) }
    requires out { IsRoomFor strip S.width (length out.old) }
    requires other { S.width < N → IsRoomFor strip (N - S.width) (length other.old) }
    requires small { IsTaps taps }
    ensures out { IsStrip (tapped_from taps (λ number. S.sample rows.samples (number * rows.stride + rows.start))) strip.first S.width strip.height strip.stride out.old out.new }
    ensures other { S.width < N → IsStrip (λ column row. tapped_from taps (λ number. S.sample rows.samples (number * rows.stride + rows.start)) (S.width + column) row) strip.first (N - S.width) strip.height strip.stride other.old other.new }
{
    if N == 16 && taps.eighths > 0 {
        sums_down::<N, Rows<S>, S>(rows, taps, strip, out, other);
    } else {
        filter_down::<N, Rows<S>, S>(rows, taps, strip, out, other);
    }
}

/// Predicts a strip by both filters: each row that is filtered across stays in lanes for the filter
/// down.
#[inline(always)]
fn filter_both<const N: usize, S: Samples<N>>(
    rows: Rows<S>,
    filters: Filters,
    strip: Strip,
    out: &mut [u8],
    other: &mut [u8],
)
    requires lanes { (0 < N) × (N ≤ 16) }
    requires height { (0 < strip.height) × (strip.height ≤ 16) }
    requires stride { strip.stride ≤ 65536 }
    requires rows { (number : ℕ) → number < strip.height + 5 → HasRow (S.has rows.samples) rows.stride rows.start number }
    requires out { IsRoomFor strip S.width (length out.old) }
    requires other { S.width < N → IsRoomFor strip (N - S.width) (length other.old) }
    requires across { IsTaps filters.across }
    requires down { IsTaps filters.down }
    ensures out { IsStrip (tapped_from filters.down (λ line lane. tapped_from filters.across (S.sample rows.samples) lane (line * rows.stride + rows.start))) strip.first S.width strip.height strip.stride out.old out.new }
    ensures other { S.width < N → IsStrip (λ column row. tapped_from filters.down (λ line lane. tapped_from filters.across (S.sample rows.samples) lane (line * rows.stride + rows.start)) (S.width + column) row) strip.first (N - S.width) strip.height strip.stride other.old other.new }
{
    let Filters { across, down } = filters;
    if N == 16 && across.eighths > 0 && down.eighths > 0 {
        sums_both::<N, S>(rows, filters, strip, out, other);
    } else if filters.are_two() {
        let weights = across.as_two();
        two_down::<N, Across<S, Taps>, S>(Across { rows, weights }, down, strip, out, other);
    } else if across.are_four() {
        let weights = across.as_four();
        wide_down::<N, Across<S, Taps>, S>(Across { rows, weights }, down, strip, out, other);
    } else {
        let weights = across;
        wide_down::<N, Across<S, Taps>, S>(Across { rows, weights }, down, strip, out, other);
    }
}

/// Predicts `N` columns of a block: a strip of `out`.
///
/// `samples` are the window that the taps read: it begins two columns and two rows before the
/// block, and its rows are `stride` samples apart.
#[inline(always)]
pub fn strip<const N: usize>(
    samples: &[u8],
    stride: usize,
    filters: Filters,
    strip: Strip,
    out: &mut [u8],
)
    requires lanes { (0 < N) × (N ≤ 16) }
    requires height { (0 < strip.height) × (strip.height ≤ 16) }
    requires strides { (stride ≤ 65536) × (strip.stride ≤ 65536) }
    requires room { (strip.height + 4) * stride + (strip.first + N + 5) ≤ length samples.now }
    requires out { (strip.height - 1) * strip.stride + (strip.first + N) ≤ length out.old }
    requires inside { (strip.first ≤ 16) × (strip.first + N ≤ strip.stride) × (strip.first + N + 5 ≤ stride) }
    requires across { IsTaps filters.across }
    requires down { IsTaps filters.down }
    ensures taps { IsStrip (λ column row. tapped_twice filters.across filters.down samples.now stride (strip.first + column) row) strip.first N strip.height strip.stride out.old out.new }
    ensures samples { Predicts filters.across filters.down samples.now stride strip.first N strip.height strip.stride out.old out.new }
{
    let Filters { across, down } = filters;
    let first = strip.first;
    match (across.are_whole(), down.are_whole()) {
        (true, true) => {
            let start = 2 * stride + first + 2;
            let rows = Rows {
                samples,
                start,
                stride,
            };
            copy::<N>(rows, strip, out);
        }
        (false, true) => {
            let start = 2 * stride + first;
            let rows = Rows {
                samples,
                start,
                stride,
            };
            filter_across::<N, &[u8]>(rows, across, strip, out, &mut []);
        }
        (true, false) => {
            let start = first + 2;
            let rows = Rows {
                samples,
                start,
                stride,
            };
            filter_rows_down::<N, &[u8]>(rows, down, strip, out, &mut []);
        }
        (false, false) => {
            let rows = Rows {
                samples,
                start: first,
                stride,
            };
            filter_both::<N, &[u8]>(rows, filters, strip, out, &mut []);
        }
    }
}

/// Samples are bytes: this is a fact for a caller whose samples are in a struct, and no code.
#[inline(always)]
fn are_bytes(samples: &[u8])
    ensures { (place : ℕ) → slice_index samples.now place < 256 }
{}

/// Predicts 8 columns of a block of each of two planes, by the same filters.
///
/// The samples of both planes are windows that the taps read: they begin two columns and two rows
/// before the block, and their rows are `stride` samples apart.
#[inline(always)]
pub fn pair_strip(
    samples: Pair,
    stride: usize,
    filters: Filters,
    strip: Strip,
    out: &mut [u8],
    other: &mut [u8],
)
    requires height { (0 < strip.height) × (strip.height ≤ 16) }
    requires strides { (strip.first ≤ 16) × (stride ≤ 65536) × (strip.stride ≤ 65536) }
    requires one { (strip.height + 4) * stride + (strip.first + 8 + 5) ≤ length samples.one.now }
    requires second { (strip.height + 4) * stride + (strip.first + 8 + 5) ≤ length samples.other.now }
    requires out { IsRoomFor strip 8 (length out.old) }
    requires other { IsRoomFor strip 8 (length other.old) }
    requires across { IsTaps filters.across }
    requires down { IsTaps filters.down }
    ensures out { IsStrip (λ column row. tapped_twice filters.across filters.down samples.entry.one.now stride (strip.first + column) row) strip.first 8 strip.height strip.stride out.old out.new }
    ensures other { IsStrip (λ column row. tapped_twice filters.across filters.down samples.entry.other.now stride (strip.first + column) row) strip.first 8 strip.height strip.stride other.old other.new }
{
    are_bytes(samples.one);
    are_bytes(samples.other);
    let Filters { across, down } = filters;
    let first = strip.first;
    match (across.are_whole(), down.are_whole()) {
        (true, true) => {
            let start = 2 * stride + first + 2;
            let rows = Rows {
                samples,
                start,
                stride,
            };
            stored::<16, Rows<Pair>, Pair>(rows, strip, out, other);
        }
        (false, true) => {
            let start = 2 * stride + first;
            let rows = Rows {
                samples,
                start,
                stride,
            };
            filter_across::<16, Pair>(rows, across, strip, out, other);
        }
        (true, false) => {
            let start = first + 2;
            let rows = Rows {
                samples,
                start,
                stride,
            };
            filter_rows_down::<16, Pair>(rows, down, strip, out, other);
        }
        (false, false) => {
            let rows = Rows {
                samples,
                start: first,
                stride,
            };
            filter_both::<16, Pair>(rows, filters, strip, out, other);
        }
    }
}
