//! Time stamps: the step between frames, and stamps that do not go on by it.

ghost use Rattle.std.specs.Prelude.{◌≡◌, ◌≤◌, ◌++◌, IfOk, OnOk};
ghost use Rattle.stream_checks.specs.Stamps.{are_even, are_even_after_two, first_stamps, goes_on, is_break, is_constant, is_expected, is_one_place, is_step, odd_stamp, odd_steps, pace_of, pace_over, shown_stamp, shown_stamps, shown_trouble, stamp_trouble, stamp_trouble_in, stamps_after, stamps_by, step_to, steps_of};

use crate::finding::Trouble;
use frame_header::{has_key_tag, is_shown};
use packet_times::median_of;
use pixel_planes::NoMemory;
use std::alloc::Global;
use stream_files::Packet;

/// The time stamps before a packet: of the last shown packet, and of the last shown packet whose time
/// stamp went on from one before it, each with the packet's index.
#[derive(Clone, Copy)]
pub struct Stamps {
    pub last: u64,
    pub last_at: usize,
    pub even: u64,
    pub even_at: usize,
}

/// How the time stamps of shown packets go on.
#[derive(Clone, Copy)]
pub struct Pace {
    /// The median of the steps between them, and at least 1.
    pub step: u64,
    /// All steps are this one, except at one place.
    pub is_constant: bool,
}

/// Appends the time stamp of a packet, if it is shown.
pub fn add_stamp(stamps: &mut Vec<u64>, stamp: u64, packet: &[u8]) -> Result<(), NoMemory>
    ensures { OnOk result (stamps.new.items ≡ stamps.old.items ++ shown_stamp (record { stamp = stamp; bytes = packet.now })) }
{
    if is_shown(packet) {
        stamps.push(stamp)?;
    }
    Ok(())
}

/// The time stamps of the shown packets.
pub(crate) fn shown_stamps(alloc: Global, packets: &[Packet]) -> Result<Vec<u64>, NoMemory>
    ensures { IfOk result (λ stamps. stamps.items ≡ shown_stamps packets.now) }
{
    let mut stamps = Vec::new(alloc);
    for packet in packets {
        add_stamp(&mut stamps, packet.stamp, packet.bytes.as_slice())?;
    }
    Ok(stamps)
}

/// Appends the step to a time stamp from the one before it, if it goes forward.
fn add_step(steps: &mut Vec<u64>, before: u64, stamp: u64) -> Result<(), NoMemory>
    ensures { OnOk result (steps.new.items ≡ steps.old.items ++ step_to before stamp) }
{
    if before < stamp {
        steps.push(stamp - before)?;
    }
    Ok(())
}

/// The steps between time stamps in sequence that go forward.
fn steps_of(alloc: Global, stamps: &[u64]) -> Result<Vec<u64>, NoMemory>
    ensures { IfOk result (λ steps. steps.items ≡ steps_of stamps.now) }
{
    let mut steps = Vec::new(alloc);
    let [first, rest @ ..] = stamps else {
        return Ok(steps);
    };
    let mut before = *first;
    for stamp in rest {
        add_step(&mut steps, before, *stamp)?;
        before = *stamp;
    }
    Ok(steps)
}

/// Whether a time stamp is one step above another.
fn is_step(step: u64, before: u64, stamp: u64) -> bool
    ensures { result ≡ is_step step before stamp }
{
    before < stamp && stamp.saturating_sub(before) == step
}

/// Which steps between time stamps in sequence are odd.
fn odd_steps(alloc: Global, step: u64, stamps: &[u64]) -> Result<Vec<bool>, NoMemory>
    ensures { IfOk result (λ odd. odd.items ≡ odd_steps step stamps.now) }
{
    let mut odd = Vec::new(alloc);
    let [first, rest @ ..] = stamps else {
        return Ok(odd);
    };
    let mut before = *first;
    for stamp in rest {
        odd.push(!is_step(step, before, *stamp))?;
        before = *stamp;
    }
    Ok(odd)
}

fn are_even(odd: &[bool]) -> bool
    ensures { result ≡ are_even odd.now }
{
    for is_odd in odd {
        if *is_odd {
            return false;
        }
    }
    true
}

fn are_even_after_two(odd: &[bool]) -> bool
    ensures { result ≡ are_even_after_two odd.now }
{
    match odd {
        [_, _, rest @ ..] => are_even(rest),
        _ => true,
    }
}

/// Whether odd steps are at one place: none comes after the two that follow the first.
fn is_one_place(odd: &[bool]) -> bool
    ensures { result ≡ is_one_place odd.now }
{
    let mut left = odd;
    while let [first, rest @ ..] = left {
        if *first {
            return are_even_after_two(rest);
        }
        left = rest;
    }
    true
}

fn is_constant(odd: &[bool]) -> bool
    ensures { result ≡ is_constant odd.now }
{
    odd.len() >= 16 && is_one_place(odd)
}

/// How the time stamps of shown packets go on. They are all of a stream's, as [`add_stamp`] collects them.
///
/// `NoMemory` if memory for their steps is refused.
pub fn pace_over(alloc: Global, stamps: &[u64]) -> Result<Pace, NoMemory>
    ensures pace { IfOk result (λ pace. pace ≡ pace_over stamps.now) }
    ensures positive { IfOk result (λ pace. 1 ≤ pace.step) }
{
    let step = median_of(steps_of(alloc, stamps)?)?;
    let odd = odd_steps(alloc, step, stamps)?;
    let is_constant = is_constant(odd.as_slice());
    Ok(Pace { step, is_constant })
}

/// How the time stamps of the shown packets of a stream go on.
pub(crate) fn pace_of(alloc: Global, packets: &[Packet]) -> Result<Pace, NoMemory>
    ensures pace { IfOk result (λ pace. pace ≡ pace_of packets.now) }
    ensures positive { IfOk result (λ pace. 1 ≤ pace.step) }
{
    let stamps = shown_stamps(alloc, packets)?;
    pace_over(alloc, stamps.as_slice())
}

/// Whether a time stamp goes on from that of an earlier packet.
fn goes_on(step: u64, place: usize, before: u64, at: usize, stamp: u64) -> bool
    requires { 1 ≤ step }
    ensures { result ≡ goes_on step place before at stamp }
{
    before < stamp && (stamp.saturating_sub(before)) / step <= place.saturating_sub(at) as u64
}

impl Stamps {
    /// After the packet with this index, whose time stamp went on.
    fn first(place: usize, stamp: u64) -> Stamps
        ensures { result ≡ first_stamps place stamp }
    {
        Stamps {
            last: stamp,
            last_at: place,
            even: stamp,
            even_at: place,
        }
    }

    fn is_expected(self, step: u64, place: usize, stamp: u64) -> bool
        requires { 1 ≤ step }
        ensures { result ≡ is_expected step place self stamp }
    {
        goes_on(step, place, self.last, self.last_at, stamp)
            || goes_on(step, place, self.even, self.even_at, stamp)
    }

    /// What is odd in a time stamp of a shown packet that does not go on.
    fn odd(self, stamp: u64) -> Trouble
        ensures { result ≡ odd_stamp self stamp }
    {
        let before = self.last;
        if stamp == before {
            Trouble::StampRepeats { stamp }
        } else if stamp < before {
            Trouble::StampGoesBack { stamp, before }
        } else {
            Trouble::StampSkips { stamp, before }
        }
    }

    /// Whether the step to a shown inter packet is odd, but not 0, where the step is constant.
    fn is_break(self, pace: Pace, stamp: u64, packet: &[u8]) -> bool
        ensures { result ≡ is_break pace self (record { stamp = stamp; bytes = packet.now }) }
    {
        pace.is_constant
            && !has_key_tag(packet)
            && stamp != self.last
            && !is_step(pace.step, self.last, stamp)
    }

    fn shown_trouble(self, pace: Pace, place: usize, stamp: u64, packet: &[u8]) -> Option<Trouble>
        requires { 1 ≤ pace.step }
        ensures { result ≡ shown_trouble pace place self (record { stamp = stamp; bytes = packet.now }) }
    {
        if self.is_break(pace, stamp, packet) {
            Some(Trouble::BreaksStep {
                stamp,
                before: self.last,
                step: pace.step,
            })
        } else if self.is_expected(pace.step, place, stamp) {
            None
        } else {
            Some(self.odd(stamp))
        }
    }

    fn trouble(self, pace: Pace, place: usize, stamp: u64, packet: &[u8]) -> Option<Trouble>
        requires { 1 ≤ pace.step }
        ensures { result ≡ stamp_trouble pace place self (record { stamp = stamp; bytes = packet.now }) }
    {
        if is_shown(packet) {
            self.shown_trouble(pace, place, stamp, packet)
        } else if stamp < self.last {
            Some(Trouble::StampGoesBack {
                stamp,
                before: self.last,
            })
        } else {
            None
        }
    }
}

/// What is wrong with the time stamp of the packet with this index, after these.
pub(crate) fn stamp_trouble(
    pace: Pace,
    place: usize,
    stamps: Option<Stamps>,
    stamp: u64,
    packet: &[u8],
) -> Option<Trouble>
    requires { 1 ≤ pace.step }
    ensures { result ≡ stamp_trouble_in pace place stamps (record { stamp = stamp; bytes = packet.now }) }
{
    match stamps {
        None => None,
        Some(stamps) => stamps.trouble(pace, place, stamp, packet),
    }
}

fn stamps_by(step: u64, place: usize, stamps: Option<Stamps>, stamp: u64) -> Stamps
    requires { 1 ≤ step }
    ensures { result ≡ stamps_by step place stamps stamp }
{
    match stamps {
        Some(stamps) if !stamps.is_expected(step, place, stamp) => Stamps {
            last: stamp,
            last_at: place,
            even: stamps.even,
            even_at: stamps.even_at,
        },
        _ => Stamps::first(place, stamp),
    }
}

/// The time stamps after the packet with this index.
pub(crate) fn stamps_after(
    step: u64,
    place: usize,
    stamps: Option<Stamps>,
    stamp: u64,
    packet: &[u8],
) -> Option<Stamps>
    requires { 1 ≤ step }
    ensures { result ≡ stamps_after step place stamps (record { stamp = stamp; bytes = packet.now }) }
{
    if is_shown(packet) {
        Some(stamps_by(step, place, stamps, stamp))
    } else {
        stamps
    }
}
