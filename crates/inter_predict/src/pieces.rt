//! Blocks at whole samples, of any size, also if a plane has no window.

ghost use Rattle.std.specs.Prelude.{◌≡◌, ℕ, ◌+◌, ◌-◌, ◌*◌, ◌<◌, ◌≤◌, length, min, slice_index, pos};
ghost use Rattle.vp8_tables.specs.Bounds.{IsWithin};
ghost use Rattle.inter_predict.specs.InterSample.{predicted};
ghost use Rattle.inter_predict.specs.Blocks.{IsBlockIn};

use crate::gathering::{GATHERED_STRIDE, gather};
use crate::sources::NearSource;
use crate::taps::{Filters, Taps};
use crate::windows::predict;
use pixel_planes::Window;

/// Predicts a block of 1 to 16 columns and rows into rows `stride` samples apart.
pub fn block_at(source: NearSource, width: usize, height: usize, out: &mut [u8], stride: usize)
    requires near { IsWithin 68719476736 source.x × IsWithin 68719476736 source.y }
    requires eighths { (source.right < 8) × (source.below < 8) }
    requires wide { (0 < width) × (width ≤ 16) }
    requires high { (0 < height) × (height ≤ 16) }
    requires stride { (width ≤ stride) × (stride ≤ 65536) }
    requires room { (height - 1) * stride + width ≤ length out.old }
    ensures { IsBlockIn (predicted source.entry.kind source.entry.plane.now.shown source.entry.x source.entry.y (pos source.entry.right) (pos source.entry.below)) width height stride out.old out.new }
{
    let NearSource { plane, kind, .. } = source;
    let across = Taps::of(kind, source.right);
    let down = Taps::of(kind, source.below);
    let filters = Filters { across, down };
    let (left, top) = (source.x - 2, source.y - 2);
    if let Some(window) = plane.window(left, top, width + 5, height + 5) {
        predict(window, filters, width, height, out, stride);
    } else {
        let mut gathered = [0; 441];
        gather(plane, left, top, width + 5, height + 5, &mut gathered);
        let window = Window {
            samples: &gathered,
            stride: GATHERED_STRIDE,
        };
        predict(window, filters, width, height, out, stride);
    }
}

/// Predicts 1 to 16 samples of a row into `out`, starting at index `start`.
fn piece(source: NearSource, width: usize, out: &mut [u8], start: usize)
    requires near { IsWithin 68719476736 source.x × IsWithin 68719476736 source.y }
    requires eighths { (source.right < 8) × (source.below < 8) }
    requires wide { (0 < width) × (width ≤ 16) }
    requires room { start + width ≤ length out.old }
    ensures before { (place : ℕ) → place < start → slice_index out.new place ≡ slice_index out.old place }
    ensures each { (column : ℕ) → column < width → slice_index out.new (start + column) ≡ predicted source.entry.kind source.entry.plane.now.shown source.entry.x source.entry.y (pos source.entry.right) (pos source.entry.below) column 0 }
{
    let mut samples = [0; 16];
    block_at(source, width, 1, &mut samples, 16);
    for column in 0..width {
        out[start + column] = samples[column];
    }
}

/// How far after the first sample of its block a piece begins: `count` samples, or fewer if all its
/// samples are past the plane's last one.
fn offset(count: usize, side: usize) -> i64
    requires { side ≤ 16384 }
    ensures { result ≡ pos (min count (side + 8589934592)) }
{
    count.min(side + 8_589_934_592) as i64
}

/// Predicts a row of samples into `out`, starting at index `start`, in pieces of 16.
fn row_in_pieces(source: NearSource, width: usize, out: &mut [u8], start: usize)
    requires near { IsWithin 5000000000 source.x × IsWithin 34359738368 source.y }
    requires eighths { (source.right < 8) × (source.below < 8) }
    requires room { start + width ≤ length out.old }
    ensures before { (place : ℕ) → place < start → slice_index out.new place ≡ slice_index out.old place }
    ensures each { (column : ℕ) → column < width → slice_index out.new (start + column) ≡ predicted source.entry.kind source.entry.plane.now.shown source.entry.x source.entry.y (pos source.entry.right) (pos source.entry.below) column 0 }
{
    for number in 0..width.div_ceil(16) {
        let first = 16 * number;
        let count = (width - first).min(16);
        let x = source.x + offset(first, source.plane.width());
        piece(NearSource { x, ..source }, count, out, start + first);
    }
}

/// Predicts a block of any width and height, row by row.
pub fn in_rows(source: NearSource, width: usize, height: usize, out: &mut [u8])
    requires near { IsWithin 5000000000 source.x × IsWithin 5000000000 source.y }
    requires eighths { (source.right < 8) × (source.below < 8) }
    requires out { length out.old ≡ width * height }
    ensures { IsBlockIn (predicted source.entry.kind source.entry.plane.now.shown source.entry.x source.entry.y (pos source.entry.right) (pos source.entry.below)) width height width out.old out.new }
{
    for row in 0..height {
        let y = source.y + offset(row, source.plane.height());
        row_in_pieces(NearSource { y, ..source }, width, out, row * width);
    }
}
