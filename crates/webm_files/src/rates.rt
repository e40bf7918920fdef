// The frame rate of a video.
ghost use Rattle.std.specs.Prelude.{◌*◌, IfNone, IfSome};
ghost use Rattle.webm_files.specs.Rates.{IsFrameRate, IsSmall};
ghost use Rattle.webm_files.specs.Tracks.{IsLowest};

use super::tracks::common_divisor;
use stream_files::{FrameRate, Head};

/// A fraction in lowest terms, if its numbers have 32 bits.
fn lowest(a: u32, b: u64) -> Option<FrameRate>
    ensures none { IfNone result (¬ IsSmall a b) }
    ensures small { IfSome result (λ found. IsSmall a b) }
    ensures is { IfSome result (λ found. IsLowest found.rate found.scale a b) }
{
    if a == 0 || b == 0 {
        return None;
    }
    let common = common_divisor(u64::from(a), b);
    let scale = b / common;
    if scale > 4_294_967_295 {
        return None;
    }
    Some(FrameRate {
        rate: (u64::from(a) / common) as u32,
        scale: scale as u32,
    })
}

/// The rate of a step of the time base, if its numbers have 32 bits.
fn rate_of_step(head: &Head, step: u64) -> Option<FrameRate>
    ensures none { IfNone result (¬ IsSmall head.now.rate (head.now.scale * step)) }
    ensures small { IfSome result (λ found. IsSmall head.now.rate (head.now.scale * step)) }
    ensures is { IfSome result (λ found. IsLowest found.rate found.scale head.now.rate (head.now.scale * step)) }
{
    let rate = head.rate;
    let units = u64::from(head.scale).checked_mul(step)?;
    lowest(rate, units)
}

/// The frame rate of a video with this head, if its track says that a frame is shown for `duration` nanoseconds (0 if it does not say
/// so), and the median step between the time stamps of its shown packets is `step`.
pub fn frame_rate(head: &Head, duration: u64, step: u64) -> FrameRate
    ensures { IsFrameRate head.now duration step result }
{
    if let Some(found) = lowest(1_000_000_000, duration) {
        return found;
    }
    if let Some(found) = rate_of_step(head, step) {
        return found;
    }
    head.frame_rate()
}
