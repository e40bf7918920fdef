ghost use Rattle.std.specs.Prelude.{◌≡◌, ◌*◌, ◌+◌, ◌-◌, ◌/◌, ◌<◌, ◌≤◌, All, IfOk, length, map, min, slice_index};
ghost use Rattle.std.specs.List.{range_with_len};
ghost use Rattle.std.specs.Option.{option_copied};
ghost use Rattle.intra_predict.specs.WholeSample.{side_of};
ghost use Rattle.pixel_planes.specs.PlaneSamples.{shown_of};
ghost use Rattle.pixel_planes.specs.Samples.{sample_at};
ghost use Rattle.mode_parser.specs.RecordList.{mode_of};
ghost use Rattle.reference_frames.specs.WrittenBlocks.{block_rows_put};
ghost use Rattle.reference_frames.specs.Unfiltered.{HoldsSquare, HoldsMacroblock, HaveRoomFor, SameSides, SameShape, above, left, corner, above_row, left_column, above_eight, with_block, predicted_sub_block, predicted_sub_blocks, predicted_whole, predicted_luma, intra_macroblock, referred_macroblock, predicted_macroblock};

use crate::corners::MacroblockPlace;
use crate::inter::{Motion, predict_inter};
use crate::references::References;
use crate::residuals::{Blocks, add_to_square, add_to_sub_block};
use frame_header::Reference;
use intra_predict::{BlockSize, Corner, SubMode, WholeMode, sub, whole_in_place};
use mode_parser::{Record, VectorMode, YMode};
use pixel_planes::{Plane, Planes};

/// Each sample above the frame (RFC 6386, section 12.2).
const ABOVE_FRAME: u8 = 127;

/// Each sample to the left of the frame (RFC 6386, section 12.2).
const LEFT_OF_FRAME: u8 = 129;

/// The sample above column `x` of row `y`, 127 above the frame (RFC 6386, section 12.2).
#[inline]
fn sample_above(plane: &Plane, x: usize, y: usize) -> u8
    requires { (x < plane.now.shown.width) × (y ≤ plane.now.shown.height) }
    ensures { result ≡ above plane.now.shown x y }
{
    if y == 0 {
        ABOVE_FRAME
    } else {
        plane.row(y - 1)[x]
    }
}

/// The sample to the left of column `x` of row `y`, 129 left of the frame (RFC 6386, section 12.2).
#[inline]
fn sample_left(plane: &Plane, x: usize, y: usize) -> u8
    requires { (x ≤ plane.now.shown.width) × (y < plane.now.shown.height) }
    ensures { result ≡ left plane.now.shown x y }
{
    if x == 0 {
        LEFT_OF_FRAME
    } else {
        plane.row(y)[x - 1]
    }
}

/// The sample above the column to the left of a block at column `x` of row `y` (RFC 6386, section 12.2).
#[inline]
fn sample_corner(plane: &Plane, x: usize, y: usize) -> u8
    requires { (x ≤ plane.now.shown.width) × (y ≤ plane.now.shown.height) }
    ensures { result ≡ corner plane.now.shown x y }
{
    if y == 0 {
        ABOVE_FRAME
    } else {
        sample_left(plane, x, y - 1)
    }
}

/// Reads the samples above a block at column `x` of row `y` into `out`, 127 above the frame
/// (RFC 6386, section 12.2).
#[inline(always)]
fn read_above(plane: &Plane, x: usize, y: usize, out: &mut [u8])
    requires within { (x + length out.old ≤ plane.now.shown.width) × (y ≤ plane.now.shown.height) }
    requires small { plane.now.shown.width ≤ 16384 }
    ensures { out.new ≡ above_row plane.now.shown x y (length out.old) }
{
    if y == 0 {
        out.fill(ABOVE_FRAME);
    } else {
        let end = x + out.len();
        out.copy_from_slice(&plane.row(y - 1)[x..end]);
    }
}

/// Reads the samples above a block at column `x` of row `y` into `out`; past the plane's last
/// column, that column repeats.
#[inline(always)]
fn read_above_or_last(plane: &Plane, x: usize, y: usize, out: &mut [u8])
    requires within { (x ≤ plane.now.shown.width) × (y ≤ plane.now.shown.height) }
    requires small { (0 < plane.now.shown.width) × (plane.now.shown.width ≤ 16384) × (length out.old ≤ 16) }
    ensures { out.new ≡ map (λ k. above plane.now.shown (min (x + k) (plane.now.shown.width - 1)) y) (range_with_len 0 (length out.old)) }
{
    if x + out.len() <= plane.width() {
        read_above(plane, x, y, out);
    } else {
        let last = plane.width() - 1;
        for k in 0..out.len() {
            out[k] = sample_above(plane, (x + k).min(last), y);
        }
    }
}

/// Reads the eight samples above a sub block of a macroblock. To the right of the last column of
/// sub blocks they are above the macroblock, for each of its rows (RFC 6386, section 12.3).
#[inline(always)]
fn read_above_eight(plane: &Plane, mx: usize, my: usize, block: usize, out: &mut [u8; 8])
    requires within { HoldsSquare plane.now.shown (16 * mx) (16 * my) 16 }
    requires block { block < 16 }
    ensures { out.new ≡ above_eight plane.now.shown mx my block }
{
    let x = 16 * mx + 4 * (block % 4);
    let y = 16 * my + 4 * (block / 4);
    let right_y = if block % 4 == 3 { 16 * my } else { y };
    let (above, above_right) = out.split_at_mut(4);
    read_above(plane, x, y, above);
    read_above_or_last(plane, x + 4, right_y, above_right);
}

/// Reads the samples of column `x` from row `y` on into `out`.
#[inline(always)]
fn read_column(plane: &Plane, x: usize, y: usize, out: &mut [u8])
    requires within { (x < plane.now.shown.width) × (y + length out.old ≤ plane.now.shown.height) }
    requires small { plane.now.shown.height ≤ 16384 }
    ensures { out.new ≡ map (λ k. sample_at plane.now.shown x (y + k)) (range_with_len 0 (length out.old)) }
{
    for k in 0..out.len() {
        out[k] = plane.row(y + k)[x];
    }
}

/// Reads the samples to the left of a block at column `x` of row `y` into `out`, 129 left of the
/// frame (RFC 6386, section 12.2).
#[inline(always)]
fn read_left(plane: &Plane, x: usize, y: usize, out: &mut [u8])
    requires within { (x ≤ plane.now.shown.width) × (y + length out.old ≤ plane.now.shown.height) }
    requires small { plane.now.shown.height ≤ 16384 }
    ensures { out.new ≡ left_column plane.now.shown x y (length out.old) }
{
    if x == 0 {
        out.fill(LEFT_OF_FRAME);
    } else {
        read_column(plane, x - 1, y, out);
    }
}

/// Writes the rows of a block of `side` by `side` samples, the first at index `start` and each
/// further one `stride` after the last.
#[inline(always)]
fn write_rows(samples: &mut [u8], start: usize, stride: usize, side: usize, block: &[u8])
    requires wide { side ≤ stride }
    requires small { (side ≤ 16) × (stride ≤ 16512) }
    requires room { start + side * stride ≤ length samples.old + (stride - side) }
    requires whole { length block.now ≡ side * side }
    ensures { samples.new ≡ block_rows_put samples.old start stride side (λ column row. slice_index block.now (row * side + column)) side }
{
    for row in 0..side {
        let from = row * side;
        let to = start + row * stride;
        samples[to..to + side].copy_from_slice(&block[from..from + side]);
    }
}

/// Writes a block of `side` by `side` samples at column `x` of row `y`.
#[inline(always)]
fn write_block(plane: &mut Plane, x: usize, y: usize, side: usize, block: &[u8])
    requires within { HoldsSquare plane.old.shown x y side }
    requires small { side ≤ 16 }
    requires whole { length block.now ≡ side * side }
    ensures value { plane.new.shown ≡ with_block plane.old.shown x y side (λ column row. slice_index block.now (row * side + column)) }
    ensures sides { SameSides plane.old.shown plane.new.shown }
{
    let across = plane.stride();
    let start = y * across + x;
    write_rows(plane.rows_mut(), start, across, side, block);
}

/// Predicts a sub block of a macroblock from the samples around it by then, and adds its residual.
fn predict_sub_block(
    plane: &mut Plane,
    mx: usize,
    my: usize,
    block: usize,
    mode: SubMode,
    residual: Option<&Blocks>,
)
    requires within { HoldsSquare plane.old.shown (16 * mx) (16 * my) 16 }
    requires block { block < 16 }
    ensures value { plane.new.shown ≡ predicted_sub_block plane.old.shown mx my block mode (option_copied residual.entry) }
    ensures sides { SameSides plane.old.shown plane.new.shown }
{
    let (x, y) = (16 * mx + 4 * (block % 4), 16 * my + 4 * (block / 4));
    let mut left = [0; 4];
    read_left(plane, x, y, &mut left);
    let mut above = [0; 8];
    read_above_eight(plane, mx, my, block, &mut above);
    let mut samples = sub(mode, left, sample_corner(plane, x, y), above);
    add_to_sub_block(residual, block, &mut samples);
    write_block(plane, x, y, 4, &samples);
}

/// Predicts the 16 sub blocks of a macroblock by their modes, each from the samples around it by
/// then, and adds its residual before the next one.
fn predict_sub_blocks(
    plane: &mut Plane,
    mx: usize,
    my: usize,
    modes: &[SubMode; 16],
    residual: Option<&Blocks>,
)
    requires { HoldsSquare plane.old.shown (16 * mx) (16 * my) 16 }
    ensures value { plane.new.shown ≡ predicted_sub_blocks plane.old.shown mx my modes.now (option_copied residual.entry) 16 }
    ensures sides { SameSides plane.old.shown plane.new.shown }
{
    for block in 0..16 {
        predict_sub_block(plane, mx, my, block, modes[block], residual);
    }
}

/// Predicts the whole block of a macroblock of this size straight into a plane, and adds its
/// residual there, whose blocks are numbered starting at `first`.
#[inline(always)]
fn predict_whole(
    plane: &mut Plane,
    size: BlockSize,
    place: MacroblockPlace,
    mode: WholeMode,
    residual: Option<&Blocks>,
    first: usize,
)
    requires first { first + side_of size / 4 * (side_of size / 4) ≤ 24 }
    requires within { HoldsSquare plane.old.shown (side_of size * place.mx) (side_of size * place.my) (side_of size) }
    ensures value { plane.new.shown ≡ predicted_whole plane.old.shown (side_of size) place.mx place.my mode (option_copied residual.entry) first }
    ensures sides { SameSides plane.old.shown plane.new.shown }
{
    let side = size.side();
    let across = plane.stride();
    let samples = plane.rows_mut();
    let corner = Corner {
        across,
        column: side * place.mx,
        row: side * place.my,
    };
    whole_in_place(mode, size, samples, corner);
    add_to_square(residual, first, size, samples, corner);
}

/// Predicts the luma of a macroblock, as one block or by sub blocks, and adds its residual.
fn predict_luma(plane: &mut Plane, mx: usize, my: usize, mode: &Record, residual: Option<&Blocks>)
    requires { HoldsSquare plane.old.shown (16 * mx) (16 * my) 16 }
    ensures value { plane.new.shown ≡ predicted_luma plane.old.shown mx my (mode_of mode.now).y_mode (mode_of mode.now).sub_modes (option_copied residual.entry) }
    ensures sides { SameSides plane.old.shown plane.new.shown }
{
    match mode.y_mode() {
        YMode::Whole(whole) => {
            let place = MacroblockPlace { mx, my };
            predict_whole(plane, BlockSize::Sixteen, place, whole, residual, 0);
        }
        YMode::B => {
            let sub_modes = mode.sub_modes();
            predict_sub_blocks(plane, mx, my, &sub_modes, residual);
        }
        YMode::Inter(..) => {}
    }
}

/// Predicts an intra macroblock in column `mx` of row `my` from the samples around it, and adds its
/// residual, if it has one.
fn predict_intra(
    planes: &mut Planes,
    mx: usize,
    my: usize,
    mode: &Record,
    residual: Option<&Blocks>,
)
    requires { HoldsMacroblock (shown_of planes.old) mx my }
    ensures value { shown_of planes.new ≡ intra_macroblock (shown_of planes.old) mx my (mode_of mode.now) (option_copied residual.entry) }
    ensures sides { SameShape (shown_of planes.old) (shown_of planes.new) }
{
    predict_luma(&mut planes.luma, mx, my, mode, residual);
    let (size, place) = (BlockSize::Eight, MacroblockPlace { mx, my });
    let uv_mode = mode.uv_mode();
    predict_whole(&mut planes.cb, size, place, uv_mode, residual, 16);
    predict_whole(&mut planes.cr, size, place, uv_mode, residual, 20);
}

/// The sources of prediction besides the current picture: the references (a key frame has none),
/// and the version, which determines the filters.
#[derive(Clone, Copy)]
pub(crate) struct Sources<'a> {
    pub(crate) version: u8,
    pub(crate) references: Option<&'a References>,
}

/// What an inter macroblock refers to: its reference, and the mode of its vectors.
#[derive(Clone, Copy)]
struct Referred {
    reference: Reference,
    vector_mode: VectorMode,
}

/// Predicts a macroblock from a reference, by its vectors, and adds its residual. Without
/// references the planes remain as they are.
fn predict_referred(
    planes: &mut Planes,
    sources: Sources,
    referred: Referred,
    place: MacroblockPlace,
    mode: &Record,
    residual: Option<&Blocks>,
)
    requires { HoldsMacroblock (shown_of planes.old) place.mx place.my }
    ensures value { shown_of planes.new ≡ referred_macroblock sources.entry.version (option_copied sources.entry.references) referred.reference referred.vector_mode (shown_of planes.old) place.mx place.my (mode_of mode.now) (option_copied residual.entry) }
    ensures sides { SameShape (shown_of planes.old) (shown_of planes.new) }
{
    match sources.references {
        Some(references) => {
            let from = references.picture(referred.reference);
            let motion = Motion {
                version: sources.version,
                mode: referred.vector_mode,
                macroblock: mode,
            };
            predict_inter(planes, from, place, motion, residual);
        }
        None => {}
    }
}

/// Predicts the macroblock in column `mx` of row `my`, from the samples around it or from a
/// reference, and adds its residual, if it has one.
pub(crate) fn predict_macroblock(
    planes: &mut Planes,
    sources: Sources,
    mx: usize,
    my: usize,
    mode: &Record,
    residual: Option<&Blocks>,
)
    requires { HoldsMacroblock (shown_of planes.old) mx my }
    ensures value { shown_of planes.new ≡ predicted_macroblock sources.entry.version (option_copied sources.entry.references) (shown_of planes.old) mx my (mode_of mode.now) (option_copied residual.entry) }
    ensures sides { SameShape (shown_of planes.old) (shown_of planes.new) }
{
    match mode.y_mode() {
        YMode::Whole(_) => predict_intra(planes, mx, my, mode, residual),
        YMode::B => predict_intra(planes, mx, my, mode, residual),
        YMode::Inter(reference, vector_mode) => {
            let referred = Referred {
                reference,
                vector_mode,
            };
            let place = MacroblockPlace { mx, my };
            predict_referred(planes, sources, referred, place, mode, residual);
        }
    }
}
