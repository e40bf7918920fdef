ghost use Rattle.std.specs.Prelude.{◌≡◌, ℕ, ◌+◌, ◌-◌, ◌*◌, ◌<◌, ◌≤◌, length};
ghost use Rattle.inter_predict.specs.Kernels.{AreFour, AreTapsOf, AreTwo, IsRoomFor, IsTaps, IsStrip, between_in, tapped_from};
ghost use Rattle.inter_predict.specs.declared.kinds.Kind.{Kind};

use crate::lanes::{clamped_samples, middle, narrowed, taken, whole_samples};
use crate::lines::Lines;
use crate::rows::Strip;
use crate::samples::Samples;
use crate::taps::Taps;
use crate::weights::Weights;

/// Stores lines in the rows of a strip of `out`.
#[inline(always)]
pub fn stored<const N: usize, L: Lines<N>, S: Samples<N>>(
    lines: L,
    strip: Strip,
    out: &mut [u8],
    other: &mut [u8],
)
    requires lanes { (0 < N) × (N ≤ 16) }
    requires height { (0 < strip.height) × (strip.height ≤ 16) }
    requires stride { strip.stride ≤ 65536 }
    requires lines { (number : ℕ) → number < strip.height → L.has lines number }
    requires out { IsRoomFor strip S.width (length out.old) }
    requires other { S.width < N → IsRoomFor strip (N - S.width) (length other.old) }
    ensures out { IsStrip (λ column row. L.sample lines row column) strip.first S.width strip.height strip.stride out.old out.new }
    ensures other { S.width < N → IsStrip (λ column row. L.sample lines row (S.width + column)) strip.first (N - S.width) strip.height strip.stride other.old other.new }
{
    for row in 0..strip.height {
        S::store(
            narrowed(lines.line(row)),
            row * strip.stride + strip.first,
            out,
            other,
        );
    }
}

/// Filters lines down into a strip of `out`. Five lines stay in lanes, so each line is made once.
#[inline(always)]
pub fn six_down<const N: usize, L: Lines<N>, S: Samples<N>, W: Weights<N>>(
    lines: L,
    weights: W,
    strip: Strip,
    out: &mut [u8],
    other: &mut [u8],
)
    requires lanes { (0 < N) × (N ≤ 16) }
    requires height { (0 < strip.height) × (strip.height ≤ 16) }
    requires stride { strip.stride ≤ 65536 }
    requires lines { (number : ℕ) → number < strip.height + 5 → L.has lines number }
    requires out { IsRoomFor strip S.width (length out.old) }
    requires other { S.width < N → IsRoomFor strip (N - S.width) (length other.old) }
    requires small { IsTaps (W.taps weights) }
    ensures out { IsStrip (tapped_from (W.taps weights) (L.sample lines)) strip.first S.width strip.height strip.stride out.old out.new }
    ensures other { S.width < N → IsStrip (λ column row. tapped_from (W.taps weights) (L.sample lines) (S.width + column) row) strip.first (N - S.width) strip.height strip.stride other.old other.new }
    ensures between { (kind : Kind) (eighths : ℕ) → AreTapsOf (W.taps weights) kind eighths → IsStrip (between_in kind eighths (L.sample lines)) strip.first S.width strip.height strip.stride out.old out.new }
{
    let mut a = lines.line(0);
    let mut b = lines.line(1);
    let mut c = lines.line(2);
    let mut d = lines.line(3);
    let mut e = lines.line(4);
    for row in 0..strip.height {
        let f = lines.line(row + 5);
        let samples = weights.weighed(a, b, c, d, e, f);
        S::store(
            narrowed(samples),
            row * strip.stride + strip.first,
            out,
            other,
        );
        (a, b, c, d, e) = (b, c, d, e, f);
    }
}

/// Filters lines down by taps whose first and last are 0: three lines fewer are made.
#[inline(always)]
fn four_down<const N: usize, L: Lines<N>, S: Samples<N>>(
    lines: L,
    taps: Taps,
    strip: Strip,
    out: &mut [u8],
    other: &mut [u8],
)
    requires lanes { (0 < N) × (N ≤ 16) }
    requires height { (0 < strip.height) × (strip.height ≤ 16) }
    requires stride { strip.stride ≤ 65536 }
    requires lines { (number : ℕ) → number < strip.height + 5 → L.has lines number }
    requires out { IsRoomFor strip S.width (length out.old) }
    requires other { S.width < N → IsRoomFor strip (N - S.width) (length other.old) }
    requires small { IsTaps taps }
    requires four { AreFour taps }
    ensures out { IsStrip (tapped_from taps (L.sample lines)) strip.first S.width strip.height strip.stride out.old out.new }
    ensures other { S.width < N → IsStrip (λ column row. tapped_from taps (L.sample lines) (S.width + column) row) strip.first (N - S.width) strip.height strip.stride other.old other.new }
    ensures between { (kind : Kind) (eighths : ℕ) → AreTapsOf taps kind eighths → IsStrip (between_in kind eighths (L.sample lines)) strip.first S.width strip.height strip.stride out.old out.new }
{
    let mut b = lines.line(1);
    let mut c = lines.line(2);
    let mut d = lines.line(3);
    for row in 0..strip.height {
        let e = lines.line(row + 4);
        let samples = whole_samples(middle(c, d, taps), taken(b, e, taps));
        S::store(
            narrowed(samples),
            row * strip.stride + strip.first,
            out,
            other,
        );
        (b, c, d) = (c, d, e);
    }
}

/// Filters lines down by the two middle taps, if all others are 0.
#[inline(always)]
pub fn two_down<const N: usize, L: Lines<N>, S: Samples<N>>(
    lines: L,
    taps: Taps,
    strip: Strip,
    out: &mut [u8],
    other: &mut [u8],
)
    requires lanes { (0 < N) × (N ≤ 16) }
    requires height { (0 < strip.height) × (strip.height ≤ 16) }
    requires stride { strip.stride ≤ 65536 }
    requires lines { (number : ℕ) → number < strip.height + 5 → L.has lines number }
    requires out { IsRoomFor strip S.width (length out.old) }
    requires other { S.width < N → IsRoomFor strip (N - S.width) (length other.old) }
    requires small { IsTaps taps }
    requires two { AreTwo taps }
    ensures out { IsStrip (tapped_from taps (L.sample lines)) strip.first S.width strip.height strip.stride out.old out.new }
    ensures other { S.width < N → IsStrip (λ column row. tapped_from taps (L.sample lines) (S.width + column) row) strip.first (N - S.width) strip.height strip.stride other.old other.new }
    ensures between { (kind : Kind) (eighths : ℕ) → AreTapsOf taps kind eighths → IsStrip (between_in kind eighths (L.sample lines)) strip.first S.width strip.height strip.stride out.old out.new }
{
    let mut c = lines.line(2);
    for row in 0..strip.height {
        let d = lines.line(row + 3);
        let samples = clamped_samples(middle(c, d, taps));
        S::store(
            narrowed(samples),
            row * strip.stride + strip.first,
            out,
            other,
        );
        c = d;
    }
}

/// Filters lines down by four taps or six.
#[inline(always)]
pub fn wide_down<const N: usize, L: Lines<N>, S: Samples<N>>(
    lines: L,
    taps: Taps,
    strip: Strip,
    out: &mut [u8],
    other: &mut [u8],
)
    requires lanes { (0 < N) × (N ≤ 16) }
    requires height { (0 < strip.height) × (strip.height ≤ 16) }
    requires stride { strip.stride ≤ 65536 }
    requires lines { (number : ℕ) → number < strip.height + 5 → L.has lines number }
    requires out { IsRoomFor strip S.width (length out.old) }
    requires other { S.width < N → IsRoomFor strip (N - S.width) (length other.old) }
    requires small { IsTaps taps }
    ensures out { IsStrip (tapped_from taps (L.sample lines)) strip.first S.width strip.height strip.stride out.old out.new }
    ensures other { S.width < N → IsStrip (λ column row. tapped_from taps (L.sample lines) (S.width + column) row) strip.first (N - S.width) strip.height strip.stride other.old other.new }
    ensures between { (kind : Kind) (eighths : ℕ) → AreTapsOf taps kind eighths → IsStrip (between_in kind eighths (L.sample lines)) strip.first S.width strip.height strip.stride out.old out.new }
{
    if taps.are_four() {
        four_down::<N, L, S>(lines, taps, strip, out, other);
    } else {
        six_down::<N, L, S, Taps>(lines, taps, strip, out, other);
    }
}

/// Filters lines down into a strip of `out`, without the products of taps that are 0.
#[inline(always)]
pub fn filter_down<const N: usize, L: Lines<N>, S: Samples<N>>(
    lines: L,
    taps: Taps,
    strip: Strip,
    out: &mut [u8],
    other: &mut [u8],
)
    requires lanes { (0 < N) × (N ≤ 16) }
    requires height { (0 < strip.height) × (strip.height ≤ 16) }
    requires stride { strip.stride ≤ 65536 }
    requires lines { (number : ℕ) → number < strip.height + 5 → L.has lines number }
    requires out { IsRoomFor strip S.width (length out.old) }
    requires other { S.width < N → IsRoomFor strip (N - S.width) (length other.old) }
    requires small { IsTaps taps }
    ensures out { IsStrip (tapped_from taps (L.sample lines)) strip.first S.width strip.height strip.stride out.old out.new }
    ensures other { S.width < N → IsStrip (λ column row. tapped_from taps (L.sample lines) (S.width + column) row) strip.first (N - S.width) strip.height strip.stride other.old other.new }
    ensures between { (kind : Kind) (eighths : ℕ) → AreTapsOf taps kind eighths → IsStrip (between_in kind eighths (L.sample lines)) strip.first S.width strip.height strip.stride out.old out.new }
{
    if taps.are_two() {
        two_down::<N, L, S>(lines, taps, strip, out, other);
    } else {
        wide_down::<N, L, S>(lines, taps, strip, out, other);
    }
}
