// Packets with the time stamps of frames.
ghost use Rattle.std.specs.Prelude.{◌≡◌, IfOk};
ghost use Rattle.packet_times.specs.Stamps.{first_stamp, stamped, stamps_after};
ghost use Rattle.packet_times.specs.Sums.{stamps_of};

use crate::clocks::Clock;
use crate::durations::Duration;
use frame_header::is_shown;
use pixel_planes::NoMemory;
use std::alloc::Global;
use stream_files::{Bytes, Head, Packet, Packets};

/// The time stamps of frames with these durations in a file with this head, and that of a frame after them. The first one is 0, and each
/// other one is the time after the frames before it, or one more than the time stamp before it if that is greater, and at most
/// 18,446,744,073,709,551,615. In the time the units of the durations are summed for each time base, and each sum is rounded half up.
pub fn stamps_of(alloc: Global, head: Head, durations: &[Duration]) -> Result<Vec<u64>, NoMemory>
    ensures { IfOk result (λ stamps. stamps.items ≡ stamps_of head durations.now) }
{
    let mut stamps = Vec::new(alloc);
    let mut clock = Clock::starting(alloc, head);
    for duration in durations {
        stamps.push(clock.stamp())?;
        clock.show(*duration)?;
    }
    stamps.push(clock.stamp())?;
    Ok(stamps)
}

/// The number at the front, or 0.
fn first_stamp(stamps: &[u64]) -> u64
    ensures { result ≡ first_stamp stamps.now }
{
    match stamps.first() {
        Some(first) => *first,
        None => 0,
    }
}

/// The numbers after the one of this packet.
fn stamps_after<'a>(packet: &[u8], stamps: &'a [u64]) -> &'a [u64]
    ensures { result.now ≡ stamps_after packet.now stamps.now }
{
    match stamps.split_first() {
        Some((_first, rest)) if is_shown(packet) => rest,
        _ => stamps,
    }
}

/// Packets with the time stamps of the frames that they show: the first shown packet has the first of them, and so on; a hidden packet
/// has the time stamp of the next frame. Past the last of the time stamps they are 0.
pub fn stamped(alloc: Global, packets: Vec<Bytes>, stamps: &[u64]) -> Result<Packets, NoMemory>
    ensures { IfOk result (λ file. file ≡ stamped stamps.now packets.items) }
{
    let mut out = Vec::with_capacity(alloc, packets.len())?;
    let mut left = stamps;
    for bytes in packets {
        let stamp = first_stamp(left);
        left = stamps_after(bytes.as_slice(), left);
        out.push(Packet { stamp, bytes })?;
    }
    Ok(Packets::new(out))
}
