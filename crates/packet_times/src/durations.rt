// Durations of packets.
ghost use Rattle.std.specs.Prelude.{◌≡◌, ◌<◌, IfOk};
ghost use Rattle.packet_times.specs.Durations.{durations_of, frame_rate, in_units_of, shown_or, units_between};

use frame_header::is_shown;
use pixel_planes::NoMemory;
use std::alloc::Global;
use stream_files::Packet;

/// How long a packet is shown: `units * scale / rate` seconds. A rate or scale of 0 is one of 30 frames a second, as
/// in the first line of a YUV4MPEG2 stream.
#[derive(Clone, Copy, Debug, PartialEq, Eq)]
pub struct Duration {
    pub units: u64,
    pub rate: u32,
    pub scale: u32,
}

/// A frame rate and its scale, neither of them 0.
pub(crate) fn frame_rate(rate: u32, scale: u32) -> (u32, u32)
    ensures value { result ≡ frame_rate rate scale }
    ensures positive { (0 < result.0) × (0 < result.1) }
{
    if rate == 0 || scale == 0 {
        (30, 1)
    } else {
        (rate, scale)
    }
}

impl Duration {
    /// This many units, or this duration if there is no number.
    fn with_units(self, units: Option<u64>) -> Duration
        ensures { result ≡ in_units_of self units }
    {
        match units {
            Some(units) => Duration { units, ..self },
            None => self,
        }
    }
}

/// The difference of a time stamp and a later one.
fn units_between(stamp: u64, next: Option<u64>) -> Option<u64>
    ensures { result ≡ units_between stamp next }
{
    match next {
        Some(next) if stamp < next => Some(next - stamp),
        _ => None,
    }
}

/// The time stamp of a packet if it is shown, or else that of the next shown one.
fn shown_or(packet: &Packet, next: Option<u64>) -> Option<u64>
    ensures { result ≡ shown_or packet.now next }
{
    if is_shown(packet.bytes.as_slice()) {
        Some(packet.stamp)
    } else {
        next
    }
}

/// The duration of each packet of a file: from its time stamp to that of the next shown packet, in the units of
/// `usual`. It is `usual` if no packet after it is shown, or if the next time stamp is not later.
pub fn durations_of(
    alloc: Global,
    usual: Duration,
    packets: &[Packet],
) -> Result<Vec<Duration>, NoMemory>
    ensures { IfOk result (λ durations. durations.items ≡ durations_of usual packets.now) }
{
    let mut durations = vec![in alloc; usual; packets.len()]?;
    let mut next = None;
    for place in (0..packets.len()).rev() {
        durations[place] = usual.with_units(units_between(packets[place].stamp, next));
        next = shown_or(&packets[place], next);
    }
    Ok(durations)
}
