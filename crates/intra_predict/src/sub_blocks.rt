ghost use Rattle.std.specs.Prelude.{ℕ, List};
ghost use Rattle.intra_predict.specs.Blocks.{IsBlock};
ghost use Rattle.intra_predict.specs.SubSample.{sub_sample};

use crate::lanes::{fill_gradients, sum_of};
use crate::means::{avg2, avg3};
use crate::modes::SubMode;
use std::simd::u8x4;

/// Predicts a sub block of 4 by 4 samples from the samples round it (RFC 6386, section 12.3).
///
/// `left` is the column to its left from the top, `corner` the sample above that column, and
/// `above` the row above it, four of whose samples are further right. The result is four rows of
/// four samples.
#[inline]
pub fn sub(mode: SubMode, left: [u8; 4], corner: u8, above: [u8; 8]) -> [u8; 16]
    ensures { IsBlock 4 (sub_sample mode left corner above) result }
{
    match mode {
        SubMode::Dc => mean_of_sides(left, above),
        SubMode::Tm => true_motion(left, corner, above),
        SubMode::Ve => vertical(corner, above),
        SubMode::He => horizontal(left, corner),
        SubMode::Ld => left_down(above),
        SubMode::Rd => right_down(left, corner, above),
        SubMode::Vr => vertical_right(left, corner, above),
        SubMode::Vl => vertical_left(above),
        SubMode::Hd => horizontal_down(left, corner, above),
        SubMode::Hu => horizontal_up(left),
    }
}

/// `B_DC_PRED`.
#[inline]
fn mean_of_sides(left: [u8; 4], above: [u8; 8]) -> [u8; 16]
    ensures { (corner : ℕ) → IsBlock 4 (sub_sample SubMode.Dc left corner above) result }
{
    let sum = sum_of::<4>(&above[..4]) + sum_of::<4>(&left);
    [((sum + 4) >> 3) as u8; 16]
}

/// `B_TM_PRED`.
fn true_motion(left: [u8; 4], corner: u8, above: [u8; 8]) -> [u8; 16]
    ensures { IsBlock 4 (sub_sample SubMode.Tm left corner above) result }
{
    let mut block = [0; 16];
    fill_gradients(
        u8x4::from_slice(&above),
        u8x4::from_array(left),
        corner,
        &mut block,
        4,
    );
    block
}

/// `B_VE_PRED`.
fn vertical(corner: u8, above: [u8; 8]) -> [u8; 16]
    ensures { (left : List ℕ) → IsBlock 4 (sub_sample SubMode.Ve left corner above) result }
{
    let column0 = avg3(corner, above[0], above[1]);
    let column1 = avg3(above[0], above[1], above[2]);
    let column2 = avg3(above[1], above[2], above[3]);
    let column3 = avg3(above[2], above[3], above[4]);
    [
        column0, column1, column2, column3, //
        column0, column1, column2, column3, //
        column0, column1, column2, column3, //
        column0, column1, column2, column3,
    ]
}

/// `B_HE_PRED`.
fn horizontal(left: [u8; 4], corner: u8) -> [u8; 16]
    ensures { (above : List ℕ) → IsBlock 4 (sub_sample SubMode.He left corner above) result }
{
    let row0 = avg3(corner, left[0], left[1]);
    let row1 = avg3(left[0], left[1], left[2]);
    let row2 = avg3(left[1], left[2], left[3]);
    let row3 = avg3(left[2], left[3], left[3]);
    [
        row0, row0, row0, row0, //
        row1, row1, row1, row1, //
        row2, row2, row2, row2, //
        row3, row3, row3, row3,
    ]
}

/// `B_LD_PRED`: the diagonals are counted from the first sample.
fn left_down(above: [u8; 8]) -> [u8; 16]
    ensures { (left : List ℕ) (corner : ℕ) → IsBlock 4 (sub_sample SubMode.Ld left corner above) result }
{
    let diagonal0 = avg3(above[0], above[1], above[2]);
    let diagonal1 = avg3(above[1], above[2], above[3]);
    let diagonal2 = avg3(above[2], above[3], above[4]);
    let diagonal3 = avg3(above[3], above[4], above[5]);
    let diagonal4 = avg3(above[4], above[5], above[6]);
    let diagonal5 = avg3(above[5], above[6], above[7]);
    let diagonal6 = avg3(above[6], above[7], above[7]);
    [
        diagonal0, diagonal1, diagonal2, diagonal3, //
        diagonal1, diagonal2, diagonal3, diagonal4, //
        diagonal2, diagonal3, diagonal4, diagonal5, //
        diagonal3, diagonal4, diagonal5, diagonal6,
    ]
}

/// `B_RD_PRED`: the diagonals are counted from the lower left sample.
fn right_down(left: [u8; 4], corner: u8, above: [u8; 8]) -> [u8; 16]
    ensures { IsBlock 4 (sub_sample SubMode.Rd left corner above) result }
{
    let diagonal0 = avg3(left[3], left[2], left[1]);
    let diagonal1 = avg3(left[2], left[1], left[0]);
    let diagonal2 = avg3(left[1], left[0], corner);
    let diagonal3 = avg3(left[0], corner, above[0]);
    let diagonal4 = avg3(corner, above[0], above[1]);
    let diagonal5 = avg3(above[0], above[1], above[2]);
    let diagonal6 = avg3(above[1], above[2], above[3]);
    [
        diagonal3, diagonal4, diagonal5, diagonal6, //
        diagonal2, diagonal3, diagonal4, diagonal5, //
        diagonal1, diagonal2, diagonal3, diagonal4, //
        diagonal0, diagonal1, diagonal2, diagonal3,
    ]
}

/// `B_VR_PRED`.
fn vertical_right(left: [u8; 4], corner: u8, above: [u8; 8]) -> [u8; 16]
    ensures { IsBlock 4 (sub_sample SubMode.Vr left corner above) result }
{
    let even0 = avg2(corner, above[0]);
    let even1 = avg2(above[0], above[1]);
    let even2 = avg2(above[1], above[2]);
    let even3 = avg2(above[2], above[3]);
    let odd0 = avg3(left[0], corner, above[0]);
    let odd1 = avg3(corner, above[0], above[1]);
    let odd2 = avg3(above[0], above[1], above[2]);
    let odd3 = avg3(above[1], above[2], above[3]);
    let first2 = avg3(left[1], left[0], corner);
    let first3 = avg3(left[2], left[1], left[0]);
    [
        even0, even1, even2, even3, //
        odd0, odd1, odd2, odd3, //
        first2, even0, even1, even2, //
        first3, odd0, odd1, odd2,
    ]
}

/// `B_VL_PRED`.
fn vertical_left(above: [u8; 8]) -> [u8; 16]
    ensures { (left : List ℕ) (corner : ℕ) → IsBlock 4 (sub_sample SubMode.Vl left corner above) result }
{
    let even0 = avg2(above[0], above[1]);
    let even1 = avg2(above[1], above[2]);
    let even2 = avg2(above[2], above[3]);
    let even3 = avg2(above[3], above[4]);
    let odd0 = avg3(above[0], above[1], above[2]);
    let odd1 = avg3(above[1], above[2], above[3]);
    let odd2 = avg3(above[2], above[3], above[4]);
    let odd3 = avg3(above[3], above[4], above[5]);
    let last2 = avg3(above[4], above[5], above[6]);
    let last3 = avg3(above[5], above[6], above[7]);
    [
        even0, even1, even2, even3, //
        odd0, odd1, odd2, odd3, //
        even1, even2, even3, last2, //
        odd1, odd2, odd3, last3,
    ]
}

/// `B_HD_PRED`.
fn horizontal_down(left: [u8; 4], corner: u8, above: [u8; 8]) -> [u8; 16]
    ensures { IsBlock 4 (sub_sample SubMode.Hd left corner above) result }
{
    let even0 = avg2(left[0], corner);
    let even1 = avg2(left[1], left[0]);
    let even2 = avg2(left[2], left[1]);
    let even3 = avg2(left[3], left[2]);
    let odd0 = avg3(left[0], corner, above[0]);
    let odd1 = avg3(left[1], left[0], corner);
    let odd2 = avg3(left[2], left[1], left[0]);
    let odd3 = avg3(left[3], left[2], left[1]);
    let first2 = avg3(corner, above[0], above[1]);
    let first3 = avg3(above[0], above[1], above[2]);
    [
        even0, odd0, first2, first3, //
        even1, odd1, even0, odd0, //
        even2, odd2, even1, odd1, //
        even3, odd3, even2, odd2,
    ]
}

/// `B_HU_PRED`: past the lowest sample to the left, that sample repeats.
fn horizontal_up(left: [u8; 4]) -> [u8; 16]
    ensures { (corner : ℕ) (above : List ℕ) → IsBlock 4 (sub_sample SubMode.Hu left corner above) result }
{
    let even0 = avg2(left[0], left[1]);
    let even1 = avg2(left[1], left[2]);
    let even2 = avg2(left[2], left[3]);
    let odd0 = avg3(left[0], left[1], left[2]);
    let odd1 = avg3(left[1], left[2], left[3]);
    let odd2 = avg3(left[2], left[3], left[3]);
    let last = left[3];
    [
        even0, odd0, even1, odd1, //
        even1, odd1, even2, odd2, //
        even2, odd2, last, last, //
        last, last, last, last,
    ]
}
