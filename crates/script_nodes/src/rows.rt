//! Rows of samples that are copied, or faded in lanes.
ghost use Rattle.std.specs.Prelude.{◌≡◌, ℕ, ◌+◌, ◌*◌, ◌/◌, ◌<◌, ◌≤◌, length, slice_index};
ghost use Rattle.script_nodes.specs.Shown.{weighed};
ghost use Rattle.script_nodes.specs.Rows.{IsFadedTo};

use std::simd::Simd;
use std::simd::prelude::*;

/// The number of samples that are faded at a time.
const LANES: usize = 32;

/// A sample at a weight in 256ths, at most 256, with `dark` at the rest: rounded.
///
/// No sum needs more than 16 bits: it is at most 256 times 255, and 128.
#[inline(always)]
fn faded(sample: u8, weight: u16, dark: u8) -> u8
    requires { weight ≤ 256 }
    ensures { result ≡ weighed weight dark sample }
{
    let rest = (256 - weight) * u16::from(dark) + 128;
    ((weight * u16::from(sample) + rest) / 256) as u8
}

/// The `N` samples starting at `start`, at a weight.
#[inline(always)]
fn faded_lanes<const N: usize>(row: &[u8], start: usize, weight: u16, dark: u8) -> Simd<u8, N>
    requires lanes { N ≤ 64 }
    requires room { start + N ≤ length row.now }
    requires weight { weight ≤ 256 }
    ensures { (lane : ℕ) → lane < N → slice_index result lane ≡ weighed weight dark (slice_index row.now (start + lane)) }
{
    let rest = (256 - weight) * u16::from(dark) + 128;
    let samples = Simd::<u8, N>::from_slice(&row[start..]).cast::<u16>();
    let sums = samples * Simd::<u16, N>::splat(weight) + Simd::<u16, N>::splat(rest);
    (sums >> Simd::<u16, N>::splat(8)).cast::<u8>()
}

/// Writes the samples of a row at a weight, as many as make whole lanes.
fn fade_whole(row: &[u8], weight: u16, dark: u8, out: &mut [u8])
    requires room { length row.now ≤ length out.old }
    requires weight { weight ≤ 256 }
    ensures faded { IsFadedTo weight dark row.now (length row.now / 32 * 32) out.new }
    ensures len { length out.new ≡ length out.old }
{
    for k in 0..row.len() / LANES {
        faded_lanes::<LANES>(row, k * LANES, weight, dark).copy_to_slice(&mut out[k * LANES..]);
    }
}

/// Writes the samples of a row starting at `first`, at a weight.
fn fade_rest(row: &[u8], first: usize, weight: u16, dark: u8, out: &mut [u8])
    requires room { length row.now ≤ length out.old }
    requires first { first ≤ length row.now }
    requires weight { weight ≤ 256 }
    requires before { IsFadedTo weight dark row.now first out.old }
    ensures faded { IsFadedTo weight dark row.now (length row.now) out.new }
    ensures len { length out.new ≡ length out.old }
{
    for x in first..row.len() {
        out[x] = faded(row[x], weight, dark);
    }
}

/// Writes `count` samples of a row starting at `from`.
pub(crate) fn copy_row(row: &[u8], from: usize, count: usize, out: &mut [u8])
    requires part { from + count ≤ length row.now }
    requires room { count ≤ length out.old }
    ensures copied { (x : ℕ) → x < count → slice_index out.new x ≡ slice_index row.now (from + x) }
    ensures len { length out.new ≡ length out.old }
{
    out[..count].copy_from_slice(&row[from..from + count]);
}

/// Writes the samples of a row at a weight in 256ths, at most 256, with `dark` at the rest.
pub(crate) fn fade_row(row: &[u8], weight: u16, dark: u8, out: &mut [u8])
    requires room { length row.now ≤ length out.old }
    requires weight { weight ≤ 256 }
    ensures faded { IsFadedTo weight dark row.now (length row.now) out.new }
    ensures len { length out.new ≡ length out.old }
{
    fade_whole(row, weight, dark, out);
    fade_rest(row, row.len() / LANES * LANES, weight, dark, out);
}
