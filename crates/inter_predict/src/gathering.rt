//! Windows that are gathered sample by sample, for planes that have none.
ghost use Rattle.std.specs.Prelude.{◌≡◌, ℕ, ◌+◌, ◌*◌, ◌<◌, ◌≤◌, length, slice_index, pos, neg_ℤ, ◌+ℤ◌, ◌≤ℤ◌};
ghost use Rattle.inter_predict.specs.Kernels.{IsReached};
ghost use Rattle.pixel_planes.specs.ReferenceSamples.{reference_sample, IsWindow};

use pixel_planes::Plane;

/// How many samples apart the rows of a gathered window are: 16 samples, and the two before and the
/// three after them that the taps read.
pub const GATHERED_STRIDE: usize = 21;

/// Writes the reference samples from (`x`, `y`) to the right into `out`, starting at index `start`.
fn gather_row(plane: &Plane, x: i64, y: i64, width: usize, out: &mut [u8], start: usize)
    requires near { IsReached x }
    requires wide { width ≤ 21 }
    requires room { (start ≤ 65536) × (start + width ≤ length out.old) }
    ensures before { (place : ℕ) → place < start → slice_index out.new place ≡ slice_index out.old place }
    ensures each { (column : ℕ) → column < width → slice_index out.new (start + column) ≡ reference_sample plane.now.shown (x +ℤ pos column) y }
{
    for column in 0..width {
        out[start + column] = plane.sample(x + column as i64, y);
    }
}

/// Gathers the reference samples of `width` columns and `height` rows, starting at (`x`, `y`).
pub fn gather(plane: &Plane, x: i64, y: i64, width: usize, height: usize, out: &mut [u8])
    requires near { IsReached x × IsReached y }
    requires sides { (0 < width) × (width ≤ 21) × (0 < height) × (height ≤ 21) }
    requires room { length out.old ≡ 441 }
    ensures { IsWindow plane.now.shown x y width height out.new 21 }
{
    for row in 0..height {
        gather_row(plane, x, y + row as i64, width, out, row * GATHERED_STRIDE);
    }
}
