// The step between frames of a file.
ghost use Rattle.std.specs.Prelude.{◌≡◌, ◌-◌, ◌/◌, ◌++◌, IfOk, OnOk, length, slice_index_or};
ghost use Rattle.packet_times.specs.Medians.{median_of, stamp_before, step_to, steps_of, usual_of};

use crate::durations::Duration;
use frame_header::is_shown;
use pixel_planes::NoMemory;
use std::alloc::Global;
use stream_files::{Head, Packet};

/// The time stamp of the last shown packet, after a packet.
fn stamp_before(before: Option<u64>, packet: &Packet) -> Option<u64>
    ensures { result ≡ stamp_before before packet.now }
{
    if is_shown(packet.bytes.as_slice()) {
        Some(packet.stamp)
    } else {
        before
    }
}

/// Appends the step to a packet from the shown packet before it, if it goes forward.
fn add_step(steps: &mut Vec<u64>, before: Option<u64>, packet: &Packet) -> Result<(), NoMemory>
    ensures { OnOk result (steps.new.items ≡ steps.old.items ++ step_to before packet.now) }
{
    let Some(before) = before else {
        return Ok(());
    };
    if is_shown(packet.bytes.as_slice()) && before < packet.stamp {
        steps.push(packet.stamp - before)?;
    }
    Ok(())
}

/// The steps between the time stamps of shown packets in sequence that go forward.
fn steps_of(alloc: Global, packets: &[Packet]) -> Result<Vec<u64>, NoMemory>
    ensures { IfOk result (λ steps. steps.items ≡ steps_of packets.now) }
{
    let mut steps = Vec::with_capacity(alloc, packets.len())?;
    let mut before = None;
    for packet in packets {
        add_step(&mut steps, before, packet)?;
        before = stamp_before(before, packet);
    }
    Ok(steps)
}

/// The number in the middle of a list in ascending order, the lower one of two; 0 if there is none.
fn middle_of(steps: &[u64]) -> u64
    ensures { result ≡ slice_index_or steps.now ((length steps.now - 1) / 2) 0 }
{
    match steps.get(steps.len().saturating_sub(1) / 2) {
        Some(step) => *step,
        None => 0,
    }
}

/// The median of steps, the lower one of two, and at least 1. `NoMemory` if memory to sort them is refused.
pub fn median_of(steps: Vec<u64>) -> Result<u64, NoMemory>
    ensures { IfOk result (λ step. step ≡ median_of steps.items) }
{
    let mut steps = steps;
    steps.sort()?;
    Ok(middle_of(&steps).max(1))
}

/// The median of the steps between the time stamps of shown packets that go forward.
pub fn median_step(alloc: Global, packets: &[Packet]) -> Result<u64, NoMemory>
    ensures { IfOk result (λ step. step ≡ median_of (steps_of packets.now)) }
{
    median_of(steps_of(alloc, packets)?)
}

/// The duration of a packet of a file that has none of its own: the median step, in the units of the file's head.
pub fn usual_duration(alloc: Global, head: Head, packets: &[Packet]) -> Result<Duration, NoMemory>
    ensures { IfOk result (λ usual. usual ≡ usual_of head packets.now) }
{
    let units = median_step(alloc, packets)?;
    Ok(Duration {
        units,
        rate: head.rate,
        scale: head.scale,
    })
}
