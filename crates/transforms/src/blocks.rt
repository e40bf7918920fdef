ghost use Rattle.std.specs.Prelude.{ℕ, ◌+◌, ◌<◌, ◌≤◌, length, slice_index_or, pos};
ghost use Rattle.vp8_tables.specs.Bounds.{IsWithin};
ghost use Rattle.transforms.specs.Residuals.{IsRowAdded};

use std::simd::prelude::*;
use std::simd::{i16x4, u8x4};

/// Adds a row of residuals to the four samples starting at `start`, and clamps each sum to 0 to
/// 255.
#[inline]
pub fn add_row(samples: &mut [u8], start: usize, residuals: [i16; 4])
    requires room { start + 4 ≤ length samples.old }
    requires small { (column : ℕ) → column < 4 → IsWithin 16384 (slice_index_or residuals column (pos 0)) }
    ensures { IsRowAdded 4 residuals start samples.old samples.new }
{
    let before = u8x4::from_array([
        samples[start],
        samples[start + 1],
        samples[start + 2],
        samples[start + 3],
    ]);
    let row = i16x4::from_array([residuals[0], residuals[1], residuals[2], residuals[3]]);
    let sums = before.cast::<i16>() + row;
    let clamped_sample = sums.simd_clamp(i16x4::splat(0), i16x4::splat(255));
    let after = clamped_sample.cast::<u8>().to_array();
    samples[start] = after[0];
    samples[start + 1] = after[1];
    samples[start + 2] = after[2];
    samples[start + 3] = after[3];
}
