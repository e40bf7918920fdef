ghost use Rattle.std.specs.Prelude.{◌≡◌, ℕ, ◌+◌, ◌-◌, ◌*◌, ◌/◌, ◌<◌, ◌≤◌, length};
ghost use Rattle.inter_predict.specs.Kernels.{IsTaps, IsStrip, Predicts, tapped_twice};

use crate::rows::Strip;
use crate::strips::strip;
use crate::taps::Filters;
use pixel_planes::Window;

/// Predicts as many columns of a block as strips of four fit in.
fn in_fours(
    window: Window,
    filters: Filters,
    width: usize,
    height: usize,
    out: &mut [u8],
    stride: usize,
)
    requires wide { width ≤ 16 }
    requires height { (0 < height) × (height ≤ 16) }
    requires strides { (width + 5 ≤ window.stride) × (window.stride ≤ 65536) × (width ≤ stride) × (stride ≤ 65536) }
    requires room { (height + 4) * window.stride + (width + 5) ≤ length window.samples.now }
    requires out { (height - 1) * stride + width ≤ length out.old }
    requires across { IsTaps filters.across }
    requires down { IsTaps filters.down }
    ensures taps { IsStrip (tapped_twice filters.across filters.down window.entry.samples.now window.entry.stride) 0 (width / 4 * 4) height stride out.old out.new }
    ensures samples { Predicts filters.across filters.down window.entry.samples.now window.entry.stride 0 (width / 4 * 4) height stride out.old out.new }
{
    for four in 0..width / 4 {
        let columns = Strip {
            first: four * 4,
            height,
            stride,
        };
        strip::<4>(window.samples, window.stride, filters, columns, out);
    }
}

/// Predicts the columns of a block from where the strip `rest` begins up to `width`, one at a time.
fn in_ones(window: Window, filters: Filters, width: usize, rest: Strip, out: &mut [u8])
    requires wide { (rest.first ≤ width) × (width ≤ 16) }
    requires height { (0 < rest.height) × (rest.height ≤ 16) }
    requires strides { (width + 5 ≤ window.stride) × (window.stride ≤ 65536) × (width ≤ rest.stride) × (rest.stride ≤ 65536) }
    requires room { (rest.height + 4) * window.stride + (width + 5) ≤ length window.samples.now }
    requires out { (rest.height - 1) * rest.stride + width ≤ length out.old }
    requires across { IsTaps filters.across }
    requires down { IsTaps filters.down }
    ensures taps { IsStrip (λ column row. tapped_twice filters.across filters.down window.entry.samples.now window.entry.stride (rest.first + column) row) rest.first (width - rest.first) rest.height rest.stride out.old out.new }
    ensures samples { Predicts filters.across filters.down window.entry.samples.now window.entry.stride rest.first (width - rest.first) rest.height rest.stride out.old out.new }
{
    for column in rest.first..width {
        let one = Strip {
            first: column,
            ..rest
        };
        strip::<1>(window.samples, window.stride, filters, one, out);
    }
}

/// Predicts a block of `width` by `height` samples into the start of `out`, in rows `stride` samples
/// apart.
///
/// The window is what the taps read: it begins two columns and two rows before the block.
#[inline]
pub fn predict(
    window: Window,
    filters: Filters,
    width: usize,
    height: usize,
    out: &mut [u8],
    stride: usize,
)
    requires wide { (0 < width) × (width ≤ 16) }
    requires height { (0 < height) × (height ≤ 16) }
    requires strides { (width + 5 ≤ window.stride) × (window.stride ≤ 65536) × (width ≤ stride) × (stride ≤ 65536) }
    requires room { (height + 4) * window.stride + (width + 5) ≤ length window.samples.now }
    requires out { (height - 1) * stride + width ≤ length out.old }
    requires across { IsTaps filters.across }
    requires down { IsTaps filters.down }
    ensures taps { IsStrip (tapped_twice filters.across filters.down window.entry.samples.now window.entry.stride) 0 width height stride out.old out.new }
    ensures samples { Predicts filters.across filters.down window.entry.samples.now window.entry.stride 0 width height stride out.old out.new }
{
    in_fours(window, filters, width, height, out, stride);
    let first = width / 4 * 4;
    let rest = Strip {
        first,
        height,
        stride,
    };
    in_ones(window, filters, width, rest, out);
}
