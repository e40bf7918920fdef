//! Residuals that are added to predicted samples (RFC 6386, section 14.5).

ghost use Rattle.std.specs.Prelude.{◌+◌, ◌*◌, ◌/◌, ◌<◌, ◌≤◌, [], length, slice_index, slice_index_or, Some};
ghost use Rattle.std.specs.Option.{option_copied};
ghost use Rattle.intra_predict.specs.Blocks.{IsBlock};
ghost use Rattle.intra_predict.specs.WholeSample.{side_of};
ghost use Rattle.transforms.specs.Transforms.{inverse_dct};
ghost use Rattle.reference_frames.specs.Restored.{restored};
ghost use Rattle.reference_frames.specs.AddedBlocks.{IsAddedAt, blocks_residual};
ghost use Rattle.reference_frames.specs.PlacedBlocks.{IsPlaced, from_corner, square_from};

pub use crate::kept_blocks::Blocks;
use intra_predict::{BlockSize, Corner};
use transforms::{dct_add_four_firsts, dct_add_two_firsts};

/// Adds the residuals of blocks `k` and `k + 1`, next to each other, the first of which begins at
/// this corner.
#[inline(always)]
fn add_pair(blocks: &Blocks, k: usize, samples: &mut [u8], corner: Corner)
    requires blocks { k + 2 ≤ 24 }
    requires small { (corner.across ≤ 16512) × (corner.row + 4 ≤ 16384) }
    requires column { corner.column + 8 ≤ corner.across }
    requires room { (corner.row + 4) * corner.across ≤ length samples.old }
    ensures { IsAddedAt (blocks_residual blocks.now k) corner.across 8 corner.column corner.row samples.old samples.new }
{
    let start = corner.across * corner.row + corner.column;
    blocks.add_pair(k, &mut samples[start..], corner.across);
}

/// The same, a row of samples at a time if both have only a first coefficient.
#[inline(always)]
fn add_two(blocks: &Blocks, k: usize, samples: &mut [u8], corner: Corner)
    requires blocks { k + 2 ≤ 24 }
    requires small { (corner.across ≤ 16512) × (corner.row + 4 ≤ 16384) }
    requires column { corner.column + 8 ≤ corner.across }
    requires room { (corner.row + 4) * corner.across ≤ length samples.old }
    ensures { IsAddedAt (blocks_residual blocks.now k) corner.across 8 corner.column corner.row samples.old samples.new }
{
    match blocks.two_firsts(k) {
        Some(firsts) => {
            let start = corner.across * corner.row + corner.column;
            dct_add_two_firsts(firsts, &mut samples[start..], corner.across);
        }
        None => add_pair(blocks, k, samples, corner),
    }
}

/// Adds the residuals of blocks `k` to `k + 3`, next to each other: two at a time, unless each has
/// only a first coefficient.
#[inline(always)]
fn add_four(blocks: &Blocks, k: usize, samples: &mut [u8], corner: Corner)
    requires blocks { k + 4 ≤ 24 }
    requires small { (corner.across ≤ 16512) × (corner.row + 4 ≤ 16384) }
    requires column { corner.column + 16 ≤ corner.across }
    requires room { (corner.row + 4) * corner.across ≤ length samples.old }
    ensures { IsAddedAt (blocks_residual blocks.now k) corner.across 16 corner.column corner.row samples.old samples.new }
{
    match blocks.four_firsts(k) {
        Some(firsts) => {
            let start = corner.across * corner.row + corner.column;
            dct_add_four_firsts(firsts, &mut samples[start..], corner.across);
        }
        None => {
            add_two(blocks, k, samples, corner);
            let column = corner.column + 8;
            add_two(blocks, k + 2, samples, Corner { column, ..corner });
        }
    }
}

/// Adds the residuals of a row of blocks of a square of this size, starting with block `k`.
#[inline(always)]
fn add_row(blocks: &Blocks, k: usize, size: BlockSize, samples: &mut [u8], corner: Corner)
    requires blocks { k + side_of size / 4 ≤ 24 }
    requires small { (corner.across ≤ 16512) × (corner.row + 4 ≤ 16384) }
    requires column { corner.column + side_of size ≤ corner.across }
    requires room { (corner.row + 4) * corner.across ≤ length samples.old }
    ensures { IsAddedAt (blocks_residual blocks.now k) corner.across (side_of size) corner.column corner.row samples.old samples.new }
{
    match size {
        BlockSize::Sixteen => add_four(blocks, k, samples, corner),
        BlockSize::Eight => add_two(blocks, k, samples, corner),
    }
}

/// Adds the residual of a macroblock to one of its squares, whose blocks are numbered starting at
/// `first`, and which begins at this corner.
#[inline(never)]
fn add_blocks(blocks: &Blocks, first: usize, size: BlockSize, samples: &mut [u8], corner: Corner)
    requires first { first + side_of size / 4 * (side_of size / 4) ≤ 24 }
    requires small { (corner.across ≤ 16512) × (corner.row + side_of size ≤ 16384) }
    requires column { corner.column + side_of size ≤ corner.across }
    requires room { (corner.row + side_of size) * corner.across ≤ length samples.old }
    ensures { IsPlaced (from_corner corner.column corner.row (restored (side_of size) first (Some blocks.now) (square_from samples.old corner.across corner.column corner.row))) corner.across (side_of size) corner.column corner.row samples.old samples.new }
{
    let count = size.side() / 4;
    for n in 0..count {
        let k = first + n * count;
        let row = corner.row + 4 * n;
        add_row(blocks, k, size, samples, Corner { row, ..corner });
    }
}

/// Adds the residual of a macroblock, if it has one, to one of its squares, whose blocks are
/// numbered starting at `first`, and which begins at this corner.
#[inline(always)]
pub fn add_to_square(
    residual: Option<&Blocks>,
    first: usize,
    size: BlockSize,
    samples: &mut [u8],
    corner: Corner,
)
    requires first { first + side_of size / 4 * (side_of size / 4) ≤ 24 }
    requires small { (corner.across ≤ 16512) × (corner.row + side_of size ≤ 16384) }
    requires column { corner.column + side_of size ≤ corner.across }
    requires room { (corner.row + side_of size) * corner.across ≤ length samples.old }
    ensures { IsPlaced (from_corner corner.column corner.row (restored (side_of size) first (option_copied residual.entry) (square_from samples.old corner.across corner.column corner.row))) corner.across (side_of size) corner.column corner.row samples.old samples.new }
{
    if let Some(blocks) = residual {
        add_blocks(blocks, first, size, samples, corner);
    }
}

/// Adds the residual of a macroblock, if it has one, to its sub block of this number.
#[inline]
pub fn add_to_sub_block(residual: Option<&Blocks>, block: usize, samples: &mut [u8; 16])
    requires { block < 16 }
    ensures { IsBlock 4 (restored 4 block (option_copied residual.entry) (λ column row. slice_index samples.old (row * 4 + column))) samples.new }
{
    if let Some(blocks) = residual {
        blocks.add(block, samples, 4);
    }
}
