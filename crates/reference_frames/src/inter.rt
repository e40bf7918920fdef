//! Macroblocks that are predicted from a reference (RFC 6386, sections 16.3 and 18).

ghost use Rattle.std.specs.Prelude.{◌≡◌, ℕ, ◌+◌, ◌*◌, ◌/◌, ◌%◌, ◌<◌, ◌≤◌, IsTrue, false, length, slice_index_or, pos, ◌+ℤ◌, ◌*ℤ◌};
ghost use Rattle.std.specs.Option.{option_copied};
ghost use Rattle.inter_predict.specs.InterSample.{inter_sample};
ghost use Rattle.vp8_tables.specs.Bounds.{IsWithin};
ghost use Rattle.mode_parser.specs.ChromaVectors.{group_vector};
ghost use Rattle.mode_parser.specs.RecordList.{mode_of};
ghost use Rattle.mode_parser.specs.SplitModes.{is_split};
ghost use Rattle.mode_parser.specs.Vectors.{zero_vector};
ghost use Rattle.pixel_planes.specs.Layout.{bordered_side};
ghost use Rattle.pixel_planes.specs.PlaneSamples.{shown_of};
ghost use Rattle.reference_frames.specs.InterPrediction.{kind_of, block_vector, luma_sample, chroma_sample, IsWholeVector};
ghost use Rattle.reference_frames.specs.FourBlocks.{IsOfFour};
ghost use Rattle.reference_frames.specs.PlacedBlocks.{IsPlaced, from_corner};
ghost use Rattle.reference_frames.specs.Restored.{restored};
ghost use Rattle.reference_frames.specs.Unfiltered.{HoldsMacroblock, HoldsSquare, SameShape, SameSides, inter_macroblock, with_block};

use crate::corners::{MacroblockCorner, MacroblockPlace};
use crate::residuals::{Blocks, add_to_square};
use inter_predict::{Kind, Source, block_in, pair_in};
use intra_predict::{BlockSize, Corner};
use mode_parser::{Record, Vector, VectorMode, chroma_vector};
use pixel_planes::{Picture, Plane, Planes};

/// How a macroblock is predicted from a reference: the version of the frame, which determines the
/// filters, the mode of the macroblock's vectors, and its record, which has them.
#[derive(Clone, Copy)]
pub(crate) struct Motion<'a> {
    pub(crate) version: u8,
    pub(crate) mode: VectorMode,
    pub(crate) macroblock: &'a Record<'a>,
}

/// How the chroma of a macroblock is predicted: its motion, and the vector of all its chroma if it is
/// not split.
#[derive(Clone, Copy)]
struct ChromaMotion<'a> {
    motion: Motion<'a>,
    whole: (i32, i32),
}

/// The filters of a version (RFC 6386, section 9.1).
fn kind_of(version: u8) -> Kind
    ensures { result ≡ kind_of version }
{
    if version == 0 {
        Kind::SixTap
    } else {
        Kind::Bilinear
    }
}

/// Whether each block of a macroblock has a vector of its own (RFC 6386, section 16.3).
#[inline]
pub(crate) fn is_split(mode: VectorMode) -> bool
    ensures { result ≡ is_split mode }
{
    match mode {
        VectorMode::Split => true,
        VectorMode::Zero | VectorMode::Nearest | VectorMode::Near | VectorMode::New => false,
    }
}

/// Predicts the square of this side that begins at a corner, in the samples of a plane. The vector
/// is in eighths of a sample.
#[inline]
fn predict_square(
    from: &Plane,
    vector: (i32, i32),
    kind: Kind,
    side: usize,
    samples: &mut [u8],
    corner: Corner,
)
    requires side { (0 < side) × (side ≤ 16) }
    requires small { (corner.across ≤ 16512) × (corner.row + side ≤ 16384) }
    requires column { corner.column + side ≤ corner.across }
    requires room { (corner.row + side) * corner.across ≤ length samples.old }
    ensures { IsPlaced (λ i j. inter_sample kind from.now.shown (pos i) (pos j) vector.0 vector.1) corner.across side corner.column corner.row samples.old samples.new }
{
    let source = Source {
        plane: from,
        x: corner.column as i32,
        y: corner.row as i32,
        vector,
        kind,
    };
    let across = corner.across;
    let samples = &mut samples[across * corner.row + corner.column..];
    block_in(source, side, side, samples, across);
}

/// The chroma planes of a reference.
#[derive(Clone, Copy)]
struct ChromaPlanes<'a> {
    cb: &'a Plane,
    cr: &'a Plane,
}

/// Predicts the square of 8 by 8 samples that begins at a corner, in the samples of both chroma planes,
/// by one vector.
#[inline]
fn predict_pair(
    from: ChromaPlanes,
    vector: (i32, i32),
    kind: Kind,
    cb: &mut [u8],
    cr: &mut [u8],
    corner: Corner,
)
    requires small { (corner.across ≤ 16512) × (corner.row + 8 ≤ 16384) }
    requires column { corner.column + 8 ≤ corner.across }
    requires cb_room { (corner.row + 8) * corner.across ≤ length cb.old }
    requires cr_room { (corner.row + 8) * corner.across ≤ length cr.old }
    ensures cb { IsPlaced (λ i j. inter_sample kind from.entry.cb.now.shown (pos i) (pos j) vector.0 vector.1) corner.across 8 corner.column corner.row cb.old cb.new }
    ensures cr { IsPlaced (λ i j. inter_sample kind from.entry.cr.now.shown (pos i) (pos j) vector.0 vector.1) corner.across 8 corner.column corner.row cr.old cr.new }
{
    let source = Source {
        plane: from.cb,
        x: corner.column as i32,
        y: corner.row as i32,
        vector,
        kind,
    };
    let across = corner.across;
    let start = across * corner.row + corner.column;
    pair_in(source, from.cr, &mut cb[start..], &mut cr[start..], across);
}

/// The vectors of the four blocks of a square, in eighths of a sample: the second block is to the
/// right of the first, the third below the first, the fourth below the second.
#[derive(Clone, Copy)]
struct FourVectors {
    first: (i32, i32),
    second: (i32, i32),
    third: (i32, i32),
    fourth: (i32, i32),
}

/// Predicts the square of 8 by 8 samples that begins at a corner, in the samples of a plane, as four
/// blocks, each by its vector.
fn predict_four(from: &Plane, vectors: FourVectors, kind: Kind, samples: &mut [u8], corner: Corner)
    requires small { (corner.across ≤ 16512) × (corner.row + 8 ≤ 16384) }
    requires column { corner.column + 8 ≤ corner.across }
    requires room { (corner.row + 8) * corner.across ≤ length samples.old }
    ensures { (sample : ℕ → ℕ → ℕ) → IsOfFour kind from.now.shown vectors corner.column corner.row sample → IsPlaced sample corner.across 8 corner.column corner.row samples.old samples.new }
{
    let (right, below) = (corner.column + 4, corner.row + 4);
    let beside = Corner {
        column: right,
        ..corner
    };
    let under = Corner {
        row: below,
        ..corner
    };
    let opposite = Corner {
        across: corner.across,
        column: right,
        row: below,
    };
    predict_square(from, vectors.first, kind, 4, samples, corner);
    predict_square(from, vectors.second, kind, 4, samples, beside);
    predict_square(from, vectors.third, kind, 4, samples, under);
    predict_square(from, vectors.fourth, kind, 4, samples, opposite);
}

/// The vector of luma block `n`, in eighths of a luma sample.
#[inline]
fn eighths(vectors: &[Vector; 16], n: usize) -> (i32, i32)
    requires { n < 16 }
    ensures x { result.0 ≡ pos 2 *ℤ (slice_index_or vectors.now n zero_vector).x }
    ensures y { result.1 ≡ pos 2 *ℤ (slice_index_or vectors.now n zero_vector).y }
{
    let vector = vectors[n];
    (2 * vector.x(), 2 * vector.y())
}

/// The vector of a macroblock's last luma block, in eighths of a luma sample.
#[inline]
fn last_eighths(macroblock: &Record) -> (i32, i32)
    ensures x { result.0 ≡ pos 2 *ℤ (slice_index_or (mode_of macroblock.now).vectors 15 zero_vector).x }
    ensures y { result.1 ≡ pos 2 *ℤ (slice_index_or (mode_of macroblock.now).vectors 15 zero_vector).y }
{
    let vector = macroblock.vector(15);
    (2 * vector.x(), 2 * vector.y())
}

/// Whether two vectors are the same.
#[inline]
fn are_same(a: (i32, i32), b: (i32, i32)) -> bool
    ensures x { IsTrue result → a.0 ≡ b.0 }
    ensures y { IsTrue result → a.1 ≡ b.1 }
{
    a.0 == b.0 && a.1 == b.1
}

/// Predicts a quarter of a split macroblock's luma: as one block if its four vectors are equal.
fn predict_quarter(
    from: &Plane,
    kind: Kind,
    vectors: &[Vector; 16],
    quarter: usize,
    samples: &mut [u8],
    corner: MacroblockCorner,
)
    requires quarter { quarter < 4 }
    requires small { (corner.across ≤ 16512) × (16 * corner.my + 16 ≤ 16384) }
    requires column { 16 * corner.mx + 16 ≤ corner.across }
    requires room { (16 * corner.my + 16) * corner.across ≤ length samples.old }
    ensures { IsPlaced (from_corner (16 * corner.mx) (16 * corner.my) (luma_sample kind from.now.shown corner.mx corner.my (λ n. slice_index_or vectors.now n zero_vector))) corner.across 8 (16 * corner.mx + 8 * (quarter % 2)) (16 * corner.my + 8 * (quarter / 2)) samples.old samples.new }
{
    let column = 16 * corner.mx + 8 * (quarter % 2);
    let row = 16 * corner.my + 8 * (quarter / 2);
    let across = corner.across;
    let corner = Corner {
        across,
        column,
        row,
    };
    let n = 8 * (quarter / 2) + 2 * (quarter % 2);
    let first = eighths(vectors, n);
    let second = eighths(vectors, n + 1);
    let third = eighths(vectors, n + 4);
    let fourth = eighths(vectors, n + 5);
    if are_same(first, second) && are_same(first, third) && are_same(first, fourth) {
        predict_square(from, first, kind, 8, samples, corner);
        return;
    }
    let vectors = FourVectors {
        first,
        second,
        third,
        fourth,
    };
    predict_four(from, vectors, kind, samples, corner);
}

/// Predicts the luma of a macroblock, in a plane's samples: as one block, or if it is split by its
/// quarters.
fn luma_samples(
    from: &Plane,
    kind: Kind,
    mode: VectorMode,
    macroblock: &Record,
    samples: &mut [u8],
    corner: MacroblockCorner,
)
    requires small { (corner.across ≤ 16512) × (16 * corner.my + 16 ≤ 16384) }
    requires column { 16 * corner.mx + 16 ≤ corner.across }
    requires room { (16 * corner.my + 16) * corner.across ≤ length samples.old }
    ensures { IsPlaced (from_corner (16 * corner.mx) (16 * corner.my) (luma_sample kind from.now.shown corner.mx corner.my (block_vector mode (mode_of macroblock.now).vectors))) corner.across 16 (16 * corner.mx) (16 * corner.my) samples.old samples.new }
{
    if is_split(mode) {
        let vectors = macroblock.vectors();
        predict_quarter(from, kind, &vectors, 0, samples, corner);
        predict_quarter(from, kind, &vectors, 1, samples, corner);
        predict_quarter(from, kind, &vectors, 2, samples, corner);
        predict_quarter(from, kind, &vectors, 3, samples, corner);
        return;
    }
    let vector = last_eighths(macroblock);
    let (column, row) = (16 * corner.mx, 16 * corner.my);
    let across = corner.across;
    let corner = Corner {
        across,
        column,
        row,
    };
    predict_square(from, vector, kind, 16, samples, corner);
}

/// The vector of luma block `n` of a macroblock (RFC 6386, section 16.3).
#[inline]
fn block_vector(mode: VectorMode, vectors: &[Vector; 16], n: usize) -> Vector
    requires { n < 16 }
    ensures { result ≡ block_vector mode vectors.now n }
{
    if is_split(mode) {
        vectors[n]
    } else {
        vectors[15]
    }
}

/// The sum of a component over four vectors.
#[inline]
fn sum_of(a: i32, b: i32, c: i32, d: i32) -> i32
    requires a { IsWithin 70000 a }
    requires b { IsWithin 70000 b }
    requires c { IsWithin 70000 c }
    requires d { IsWithin 70000 d }
    ensures { result ≡ a +ℤ b +ℤ c +ℤ d }
{
    a + b + c + d
}

/// The vector of group `group` of two by two luma blocks, in eighths of a chroma sample
/// (RFC 6386, section 18).
fn group_vector(mode: VectorMode, vectors: &[Vector; 16], group: usize, version: u8) -> (i32, i32)
    requires { group < 4 }
    ensures x { result.0 ≡ (group_vector version (block_vector mode vectors.now) group).0 }
    ensures y { result.1 ≡ (group_vector version (block_vector mode vectors.now) group).1 }
{
    let n = 8 * (group / 2) + 2 * (group % 2);
    let first = block_vector(mode, vectors, n);
    let second = block_vector(mode, vectors, n + 1);
    let third = block_vector(mode, vectors, n + 4);
    let fourth = block_vector(mode, vectors, n + 5);
    let x = sum_of(first.x(), second.x(), third.x(), fourth.x());
    let y = sum_of(first.y(), second.y(), third.y(), fourth.y());
    (chroma_vector(x, version), chroma_vector(y, version))
}

/// The vector that all chroma of a macroblock goes by which is not split: its four groups have the
/// same.
#[inline]
fn whole_vector(mode: VectorMode, macroblock: &Record, version: u8) -> (i32, i32)
    ensures { IsWholeVector version mode (mode_of macroblock.now).vectors result }
{
    let vector = macroblock.vector(15);
    let (x, y) = (vector.x(), vector.y());
    let (x, y) = (sum_of(x, x, x, x), sum_of(y, y, y, y));
    (chroma_vector(x, version), chroma_vector(y, version))
}

/// Predicts a macroblock in a chroma plane's samples: as one block by the vector `whole`, or if it is
/// split as four.
fn chroma_samples(
    from: &Plane,
    motion: Motion,
    whole: (i32, i32),
    samples: &mut [u8],
    corner: MacroblockCorner,
)
    requires whole { IsWholeVector motion.version motion.mode (mode_of motion.macroblock.now).vectors whole }
    requires small { (corner.across ≤ 16512) × (8 * corner.my + 8 ≤ 16384) }
    requires column { 8 * corner.mx + 8 ≤ corner.across }
    requires room { (8 * corner.my + 8) * corner.across ≤ length samples.old }
    ensures { IsPlaced (from_corner (8 * corner.mx) (8 * corner.my) (chroma_sample motion.entry.version from.now.shown corner.mx corner.my (block_vector motion.entry.mode (mode_of motion.entry.macroblock.now).vectors))) corner.across 8 (8 * corner.mx) (8 * corner.my) samples.old samples.new }
{
    let Motion {
        version,
        mode,
        macroblock,
    } = motion;
    let kind = kind_of(version);
    let (column, row) = (8 * corner.mx, 8 * corner.my);
    let across = corner.across;
    let corner = Corner {
        across,
        column,
        row,
    };
    if is_split(mode) {
        let vectors = macroblock.vectors();
        let first = group_vector(mode, &vectors, 0, version);
        let second = group_vector(mode, &vectors, 1, version);
        let third = group_vector(mode, &vectors, 2, version);
        let fourth = group_vector(mode, &vectors, 3, version);
        let vectors = FourVectors {
            first,
            second,
            third,
            fourth,
        };
        predict_four(from, vectors, kind, samples, corner);
        return;
    }
    predict_square(from, whole, kind, 8, samples, corner);
}

/// Predicts a macroblock that is not split in the samples of both chroma planes, by the vector `whole`.
fn whole_chroma_samples(
    from: ChromaPlanes,
    chroma: ChromaMotion,
    cb: &mut [u8],
    cr: &mut [u8],
    corner: MacroblockCorner,
)
    requires whole { IsWholeVector chroma.motion.version chroma.motion.mode (mode_of chroma.motion.macroblock.now).vectors chroma.whole }
    requires one { is_split chroma.motion.mode ≡ false }
    requires small { (corner.across ≤ 16512) × (8 * corner.my + 8 ≤ 16384) }
    requires column { 8 * corner.mx + 8 ≤ corner.across }
    requires cb_room { (8 * corner.my + 8) * corner.across ≤ length cb.old }
    requires cr_room { (8 * corner.my + 8) * corner.across ≤ length cr.old }
    ensures cb { IsPlaced (from_corner (8 * corner.mx) (8 * corner.my) (chroma_sample chroma.entry.motion.version from.entry.cb.now.shown corner.mx corner.my (block_vector chroma.entry.motion.mode (mode_of chroma.entry.motion.macroblock.now).vectors))) corner.across 8 (8 * corner.mx) (8 * corner.my) cb.old cb.new }
    ensures cr { IsPlaced (from_corner (8 * corner.mx) (8 * corner.my) (chroma_sample chroma.entry.motion.version from.entry.cr.now.shown corner.mx corner.my (block_vector chroma.entry.motion.mode (mode_of chroma.entry.motion.macroblock.now).vectors))) corner.across 8 (8 * corner.mx) (8 * corner.my) cr.old cr.new }
{
    let kind = kind_of(chroma.motion.version);
    let (column, row) = (8 * corner.mx, 8 * corner.my);
    let across = corner.across;
    let corner = Corner {
        across,
        column,
        row,
    };
    predict_pair(from, chroma.whole, kind, cb, cr, corner);
}

/// Predicts the luma of a macroblock from a reference's, and adds its residual.
fn predict_luma(
    plane: &mut Plane,
    from: &Plane,
    place: MacroblockPlace,
    motion: Motion,
    residual: Option<&Blocks>,
)
    requires { HoldsSquare plane.old.shown (16 * place.mx) (16 * place.my) 16 }
    ensures value { plane.new.shown ≡ with_block plane.old.shown (16 * place.mx) (16 * place.my) 16 (restored 16 0 (option_copied residual.entry) (luma_sample (kind_of motion.entry.version) from.now.shown place.mx place.my (block_vector motion.entry.mode (mode_of motion.entry.macroblock.now).vectors))) }
    ensures sides { SameSides plane.old.shown plane.new.shown }
{
    let across = plane.stride();
    let samples = plane.rows_mut();
    let kind = kind_of(motion.version);
    let MacroblockPlace { mx, my } = place;
    let corner = MacroblockCorner { across, mx, my };
    luma_samples(from, kind, motion.mode, motion.macroblock, samples, corner);
    let corner = Corner {
        across,
        column: 16 * mx,
        row: 16 * my,
    };
    add_to_square(residual, 0, BlockSize::Sixteen, samples, corner);
}

/// Predicts a macroblock's samples of a chroma plane from a reference's, and adds its residual,
/// whose blocks are numbered starting at `first`.
fn predict_chroma(
    plane: &mut Plane,
    from: &Plane,
    place: MacroblockPlace,
    chroma: ChromaMotion,
    residual: Option<&Blocks>,
    first: usize,
)
    requires whole { IsWholeVector chroma.motion.version chroma.motion.mode (mode_of chroma.motion.macroblock.now).vectors chroma.whole }
    requires first { first + 4 ≤ 24 }
    requires within { HoldsSquare plane.old.shown (8 * place.mx) (8 * place.my) 8 }
    ensures value { plane.new.shown ≡ with_block plane.old.shown (8 * place.mx) (8 * place.my) 8 (restored 8 first (option_copied residual.entry) (chroma_sample chroma.entry.motion.version from.now.shown place.mx place.my (block_vector chroma.entry.motion.mode (mode_of chroma.entry.motion.macroblock.now).vectors))) }
    ensures sides { SameSides plane.old.shown plane.new.shown }
{
    let across = plane.stride();
    let samples = plane.rows_mut();
    let MacroblockPlace { mx, my } = place;
    let corner = MacroblockCorner { across, mx, my };
    let ChromaMotion { motion, whole } = chroma;
    chroma_samples(from, motion, whole, samples, corner);
    let corner = Corner {
        across,
        column: 8 * mx,
        row: 8 * my,
    };
    add_to_square(residual, first, BlockSize::Eight, samples, corner);
}

/// Predicts a macroblock that is not split in both chroma planes from a reference's, and adds its
/// residual. The rows of both planes are equally far apart.
fn predict_whole_chroma(
    cb: &mut Plane,
    cr: &mut Plane,
    from: ChromaPlanes,
    place: MacroblockPlace,
    chroma: ChromaMotion,
    residual: Option<&Blocks>,
)
    requires whole { IsWholeVector chroma.motion.version chroma.motion.mode (mode_of chroma.motion.macroblock.now).vectors chroma.whole }
    requires one { is_split chroma.motion.mode ≡ false }
    requires cb_within { HoldsSquare cb.old.shown (8 * place.mx) (8 * place.my) 8 }
    requires cr_within { HoldsSquare cr.old.shown (8 * place.mx) (8 * place.my) 8 }
    requires strides { bordered_side cb.old.shown.width cb.old.border ≡ bordered_side cr.old.shown.width cr.old.border }
    ensures cb { cb.new.shown ≡ with_block cb.old.shown (8 * place.mx) (8 * place.my) 8 (restored 8 16 (option_copied residual.entry) (chroma_sample chroma.entry.motion.version from.entry.cb.now.shown place.mx place.my (block_vector chroma.entry.motion.mode (mode_of chroma.entry.motion.macroblock.now).vectors))) }
    ensures cr { cr.new.shown ≡ with_block cr.old.shown (8 * place.mx) (8 * place.my) 8 (restored 8 20 (option_copied residual.entry) (chroma_sample chroma.entry.motion.version from.entry.cr.now.shown place.mx place.my (block_vector chroma.entry.motion.mode (mode_of chroma.entry.motion.macroblock.now).vectors))) }
    ensures cb_sides { SameSides cb.old.shown cb.new.shown }
    ensures cr_sides { SameSides cr.old.shown cr.new.shown }
{
    let across = cb.stride();
    let cb_rows = cb.rows_mut();
    let cr_rows = cr.rows_mut();
    let MacroblockPlace { mx, my } = place;
    let corner = MacroblockCorner { across, mx, my };
    whole_chroma_samples(from, chroma, cb_rows, cr_rows, corner);
    let corner = Corner {
        across,
        column: 8 * mx,
        row: 8 * my,
    };
    add_to_square(residual, 16, BlockSize::Eight, cb_rows, corner);
    add_to_square(residual, 20, BlockSize::Eight, cr_rows, corner);
}

/// Predicts the macroblock at a place from a picture, by its motion, and adds its residual, if it has
/// one.
pub(crate) fn predict_inter(
    planes: &mut Planes,
    from: &Picture,
    place: MacroblockPlace,
    motion: Motion,
    residual: Option<&Blocks>,
)
    requires { HoldsMacroblock (shown_of planes.old) place.mx place.my }
    ensures value { shown_of planes.new ≡ inter_macroblock motion.entry.version from.now (shown_of planes.old) place.mx place.my motion.entry.mode (mode_of motion.entry.macroblock.now).vectors (option_copied residual.entry) }
    ensures sides { SameShape (shown_of planes.old) (shown_of planes.new) }
{
    let luma = from.luma();
    predict_luma(&mut planes.luma, luma, place, motion, residual);
    let whole = whole_vector(motion.mode, motion.macroblock, motion.version);
    let chroma = ChromaMotion { motion, whole };
    let cb = from.cb();
    let cr = from.cr();
    if !is_split(motion.mode) && planes.cb.stride() == planes.cr.stride() {
        let from = ChromaPlanes { cb, cr };
        predict_whole_chroma(
            &mut planes.cb,
            &mut planes.cr,
            from,
            place,
            chroma,
            residual,
        );
        return;
    }
    predict_chroma(&mut planes.cb, cb, place, chroma, residual, 16);
    predict_chroma(&mut planes.cr, cr, place, chroma, residual, 20);
}
