ghost use Rattle.vp8_tables.specs.Bounds.{IsWithin};
ghost use Rattle.std.specs.Prelude.{◌≡◌, ℕ, ◌+◌, ◌-◌, ◌*◌, ◌<◌, ◌≤◌, length, pos, ◌+ℤ◌, ◌-ℤ◌};
ghost use Rattle.inter_predict.specs.InterSample.{whole_part, fraction as fraction_of, predicted};
ghost use Rattle.inter_predict.specs.Blocks.{IsBlockIn};
ghost use Rattle.inter_predict.specs.Kernels.{IsNear};

use crate::kinds::Kind;
use crate::pieces::{block_at, in_rows};
use crate::rows::{Rows, Strip};
use crate::samples::Pair;
use crate::sources::{BlockPosition, NearSource, Reference, Source};
use crate::strips::{copy, pair_strip, strip};
use crate::taps::{Filters, Taps};
use pixel_planes::Plane;

/// The eighths of a sample by which a vector points past a whole one, 0 to 7.
#[inline]
fn fraction(eighths: i32) -> usize
    ensures value { result ≡ fraction_of eighths }
    ensures bound { result < 8 }
{
    eighths.rem_euclid(8) as usize
}

/// The position of the first tap for a block at `place`: two samples before the whole one that the
/// vector points to.
#[inline]
fn first_tap(place: i32, eighths: i32) -> i64
    ensures value { result ≡ (place +ℤ whole_part eighths) -ℤ pos 2 }
    ensures near { IsNear result }
{
    i64::from(place) + i64::from(eighths >> 3) - 2
}

/// For other programs: decoding calls `block_in`. Predicts a block of `width` by `height` samples from a
/// reference plane into `out`, row by row (RFC 6386, section 18).
///
/// The block begins at column `x` of row `y`; the vector is how far to the right and how far down
/// of that its samples are taken from, in eighths of a sample. All may be any numbers: outside the
/// plane its edges repeat. A block of at most 16 by 16 samples is predicted in one piece, a larger
/// one in several.
#[inline]
pub fn block(
    plane: &Plane,
    x: i32,
    y: i32,
    vector: (i32, i32),
    kind: Kind,
    width: usize,
    height: usize,
    out: &mut [u8],
)
    requires { length out.old ≡ width * height }
    ensures { IsBlockIn (predicted kind plane.now.shown x y vector.0 vector.1) width height width out.old out.new }
{
    let source = Source {
        plane,
        x,
        y,
        vector,
        kind,
    };
    if 0 < width && width <= 16 && 0 < height && height <= 16 {
        block_in(source, width, height, out, width);
    } else {
        large(source, width, height, out);
    }
}

/// The same source, with the whole samples of its vector added to its position.
#[inline]
fn near(source: Source) -> NearSource
    ensures near { IsWithin 5000000000 result.x × IsWithin 5000000000 result.y }
    ensures eighths { (result.right < 8) × (result.below < 8) }
    ensures samples { (column row : ℕ) → predicted result.kind result.plane.now.shown result.x result.y (pos result.right) (pos result.below) column row ≡ predicted source.entry.kind source.entry.plane.now.shown source.entry.x source.entry.y source.entry.vector.0 source.entry.vector.1 column row }
{
    NearSource {
        plane: source.plane,
        x: first_tap(source.x, source.vector.0) + 2,
        y: first_tap(source.y, source.vector.1) + 2,
        kind: source.kind,
        right: fraction(source.vector.0),
        below: fraction(source.vector.1),
    }
}

/// Predicts a block of any size in pieces of at most 16 by 16 samples.
#[cold]
#[inline(never)]
fn large(source: Source, width: usize, height: usize, out: &mut [u8])
    requires { length out.old ≡ width * height }
    ensures { IsBlockIn (predicted source.entry.kind source.entry.plane.now.shown source.entry.x source.entry.y source.entry.vector.0 source.entry.vector.1) width height width out.old out.new }
{
    in_rows(near(source), width, height, out);
}

/// Predicts a block of at most 16 by 16 samples into rows `stride` samples apart: at least the width,
/// and at most 65,536.
///
/// The block begins with the first sample of `out`; samples next to it and below it stay as they
/// are.
#[inline]
pub fn block_in(source: Source, width: usize, height: usize, out: &mut [u8], stride: usize)
    requires wide { (0 < width) × (width ≤ 16) }
    requires high { (0 < height) × (height ≤ 16) }
    requires stride { (width ≤ stride) × (stride ≤ 65536) }
    requires room { (height - 1) * stride + width ≤ length out.old }
    ensures { IsBlockIn (predicted source.entry.kind source.entry.plane.now.shown source.entry.x source.entry.y source.entry.vector.0 source.entry.vector.1) width height stride out.old out.new }
{
    match width {
        16 => columns::<16>(source, height, out, stride),
        8 => columns::<8>(source, height, out, stride),
        4 => columns::<4>(source, height, out, stride),
        _ => any_columns(source, width, height, out, stride),
    }
}

/// Predicts a block of `N` columns.
#[inline]
fn columns<const N: usize>(source: Source, height: usize, out: &mut [u8], stride: usize)
    requires lanes { (0 < N) × (N ≤ 16) }
    requires high { (0 < height) × (height ≤ 16) }
    requires stride { (N ≤ stride) × (stride ≤ 65536) }
    requires room { (height - 1) * stride + N ≤ length out.old }
    ensures { IsBlockIn (predicted source.entry.kind source.entry.plane.now.shown source.entry.x source.entry.y source.entry.vector.0 source.entry.vector.1) N height stride out.old out.new }
{
    let Source {
        plane,
        x,
        y,
        vector,
        kind,
    } = source;
    let reference = Reference { plane, kind };
    let place = BlockPosition { x, y };
    if fraction(vector.0) == 0 && fraction(vector.1) == 0 {
        copied::<N>(reference, place, vector, height, out, stride);
    } else {
        filtered::<N>(reference, place, vector, height, out, stride);
    }
}

/// Predicts a block whose vector points to whole samples: no other samples are read.
#[inline(never)]
fn copied<const N: usize>(
    reference: Reference,
    place: BlockPosition,
    vector: (i32, i32),
    height: usize,
    out: &mut [u8],
    stride: usize,
)
    requires whole { (fraction_of vector.0 ≡ 0) × (fraction_of vector.1 ≡ 0) }
    requires lanes { (0 < N) × (N ≤ 16) }
    requires high { (0 < height) × (height ≤ 16) }
    requires stride { (N ≤ stride) × (stride ≤ 65536) }
    requires room { (height - 1) * stride + N ≤ length out.old }
    ensures { IsBlockIn (predicted reference.entry.kind reference.entry.plane.now.shown place.x place.y vector.0 vector.1) N height stride out.old out.new }
{
    let left = first_tap(place.x, vector.0);
    let top = first_tap(place.y, vector.1);
    if let Some(window) = reference.plane.window(left + 2, top + 2, N, height) {
        let rows = Rows {
            samples: window.samples,
            start: 0,
            stride: window.stride,
        };
        let strip = Strip {
            first: 0,
            height,
            stride,
        };
        copy::<N>(rows, strip, out);
    } else {
        let source = Source {
            plane: reference.plane,
            x: place.x,
            y: place.y,
            vector,
            kind: reference.kind,
        };
        any_columns(source, N, height, out, stride);
    }
}

/// Predicts a block by the filters.
#[inline(never)]
fn filtered<const N: usize>(
    reference: Reference,
    place: BlockPosition,
    vector: (i32, i32),
    height: usize,
    out: &mut [u8],
    stride: usize,
)
    requires lanes { (0 < N) × (N ≤ 16) }
    requires high { (0 < height) × (height ≤ 16) }
    requires stride { (N ≤ stride) × (stride ≤ 65536) }
    requires room { (height - 1) * stride + N ≤ length out.old }
    ensures { IsBlockIn (predicted reference.entry.kind reference.entry.plane.now.shown place.x place.y vector.0 vector.1) N height stride out.old out.new }
{
    let left = first_tap(place.x, vector.0);
    let top = first_tap(place.y, vector.1);
    if let Some(window) = reference.plane.window(left, top, N + 5, height + 5) {
        let across = Taps::of(reference.kind, fraction(vector.0));
        let down = Taps::of(reference.kind, fraction(vector.1));
        let filters = Filters { across, down };
        let columns = Strip {
            first: 0,
            height,
            stride,
        };
        strip::<N>(window.samples, window.stride, filters, columns, out);
    } else {
        let source = Source {
            plane: reference.plane,
            x: place.x,
            y: place.y,
            vector,
            kind: reference.kind,
        };
        any_columns(source, N, height, out, stride);
    }
}

/// Predicts a block of any width, also one whose samples are not all in the plane and its border.
#[cold]
#[inline(never)]
fn any_columns(source: Source, width: usize, height: usize, out: &mut [u8], stride: usize)
    requires wide { (0 < width) × (width ≤ 16) }
    requires high { (0 < height) × (height ≤ 16) }
    requires stride { (width ≤ stride) × (stride ≤ 65536) }
    requires room { (height - 1) * stride + width ≤ length out.old }
    ensures { IsBlockIn (predicted source.entry.kind source.entry.plane.now.shown source.entry.x source.entry.y source.entry.vector.0 source.entry.vector.1) width height stride out.old out.new }
{
    block_at(near(source), width, height, out, stride);
}

/// Predicts a block of 8 by 8 samples of each of two planes, by one vector, into rows `stride` samples
/// apart: at least 8, and at most 65,536.
///
/// The second block is in the plane `second`, at the place of the first. The blocks begin with the
/// first samples of `out` and of `other`; samples next to them and below them stay as they are.
#[inline]
pub fn pair_in(source: Source, second: &Plane, out: &mut [u8], other: &mut [u8], stride: usize)
    requires stride { (8 ≤ stride) × (stride ≤ 65536) }
    requires out { 7 * stride + 8 ≤ length out.old }
    requires other { 7 * stride + 8 ≤ length other.old }
    ensures out { IsBlockIn (predicted source.entry.kind source.entry.plane.now.shown source.entry.x source.entry.y source.entry.vector.0 source.entry.vector.1) 8 8 stride out.old out.new }
    ensures other { IsBlockIn (predicted source.entry.kind second.now.shown source.entry.x source.entry.y source.entry.vector.0 source.entry.vector.1) 8 8 stride other.old other.new }
{
    let (right, below) = source.vector;
    if fraction(right) == 0 && fraction(below) == 0 {
        let plane = second;
        block_in(source, 8, 8, out, stride);
        block_in(Source { plane, ..source }, 8, 8, other, stride);
    } else {
        pair_filtered(source, second, out, other, stride);
    }
}

/// Predicts a block of each of two planes by the filters: together, if the rows of their windows are
/// equally far apart.
#[inline(never)]
fn pair_filtered(source: Source, second: &Plane, out: &mut [u8], other: &mut [u8], stride: usize)
    requires stride { (8 ≤ stride) × (stride ≤ 65536) }
    requires out { 7 * stride + 8 ≤ length out.old }
    requires other { 7 * stride + 8 ≤ length other.old }
    ensures out { IsBlockIn (predicted source.entry.kind source.entry.plane.now.shown source.entry.x source.entry.y source.entry.vector.0 source.entry.vector.1) 8 8 stride out.old out.new }
    ensures other { IsBlockIn (predicted source.entry.kind second.now.shown source.entry.x source.entry.y source.entry.vector.0 source.entry.vector.1) 8 8 stride other.old other.new }
{
    let left = first_tap(source.x, source.vector.0);
    let top = first_tap(source.y, source.vector.1);
    let first_window = source.plane.window(left, top, 13, 13);
    let second_window = second.window(left, top, 13, 13);
    match (first_window, second_window) {
        (Some(one), Some(two)) if one.stride == two.stride => {
            let across = Taps::of(source.kind, fraction(source.vector.0));
            let down = Taps::of(source.kind, fraction(source.vector.1));
            let samples = Pair {
                one: one.samples,
                other: two.samples,
            };
            let strip = Strip {
                first: 0,
                height: 8,
                stride,
            };
            pair_strip(
                samples,
                one.stride,
                Filters { across, down },
                strip,
                out,
                other,
            );
        }
        _ => {
            let plane = second;
            any_columns(source, 8, 8, out, stride);
            any_columns(Source { plane, ..source }, 8, 8, other, stride);
        }
    }
}
