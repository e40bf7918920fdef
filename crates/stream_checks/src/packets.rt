//! The findings at a packet, by the packets around it.

ghost use Rattle.std.specs.Prelude.{◌≡◌, ◌+◌, ◌<◌, ◌≤◌, ◌^◌, ◌∷◌};
ghost use Rattle.stream_checks.specs.Checks.{TellsAhead};
ghost use Rattle.stream_checks.specs.Packets.{ahead_of, emptiness, first_position, found_at, is_repeated, is_same, is_unshown, lost_after, never_shown, newer, position_after, refusal, repetition, size_change, spot_of, undefined_copy};

use crate::finding::{Spot, Trouble};
use crate::stamps::{Pace, Stamps, stamp_trouble, stamps_after};
use frame_header::{Cause, has_key_tag, is_shown, key_size};
use header_bits::CopyNumbers;
use stream_files::Packet;

/// What is known of the packets before an index: their number and that of the shown ones, their time
/// stamps, and the size of the last key packet with a size.
#[derive(Clone, Copy)]
pub struct PacketsBefore {
    pub packets: usize,
    pub frames: usize,
    pub stamps: Option<Stamps>,
    pub size: Option<(u16, u16)>,
}

/// What the findings at a packet depend on of the packets after it.
#[derive(Clone, Copy, Debug)]
pub struct Ahead {
    /// The number of packets before the next key tag.
    pub lost: usize,
    /// No shown packet comes before the next key tag.
    pub is_unshown: bool,
    /// The next packet has the same time stamp and the same bytes.
    pub is_repeated: bool,
}

/// What reading a packet says: the cause, if the stream breaks at it, and the numbers of its copies, 0 if it is not decoded.
#[derive(Clone, Copy)]
pub(crate) struct Read {
    pub cause: Option<Cause>,
    pub copies: CopyNumbers,
}

/// What is wrong with a packet by the packets around it.
#[derive(Clone, Copy)]
pub(crate) struct Found {
    pub refused: Option<Trouble>,
    pub empty: Option<Trouble>,
    pub to_golden: Option<Trouble>,
    pub to_altref: Option<Trouble>,
    pub twice: Option<Trouble>,
    pub stamp: Option<Trouble>,
    pub size: Option<Trouble>,
    pub hidden: Option<Trouble>,
}

/// The number of packets before the next key tag.
fn lost_after(rest: &[Packet]) -> usize
    ensures { result ≡ lost_after rest.now }
{
    rest.iter()
        .take_while(|packet| !has_key_tag(packet.bytes.as_slice()))
        .count()
}

fn refusal(cause: Option<Cause>, lost: usize) -> Option<Trouble>
    ensures { result ≡ refusal cause lost }
{
    match cause {
        None => None,
        Some(cause) => Some(Trouble::Refused { cause, lost }),
    }
}

fn size_change(before: Option<(u16, u16)>, size: Option<(u16, u16)>) -> Option<Trouble>
    ensures { result ≡ size_change before size }
{
    let Some(before) = before else {
        return None;
    };
    let Some(size) = size else {
        return None;
    };
    if before.0 == size.0 {
        if before.1 == size.1 {
            return None;
        }
    }
    Some(Trouble::SizeChanges { before, size })
}

/// Whether no shown packet comes before the next key tag.
fn is_unshown(rest: &[Packet]) -> bool
    ensures { result ≡ is_unshown rest.now }
{
    for packet in rest {
        let bytes = packet.bytes.as_slice();
        if has_key_tag(bytes) {
            return true;
        }
        if is_shown(bytes) {
            return false;
        }
    }
    true
}

/// The number of packets after one before the next key tag. What is known ahead of the packet before it says so, unless it has a key tag.
fn lost_by(before: Option<Ahead>, packet: &Packet, rest: &[Packet]) -> usize
    requires { TellsAhead before (packet.now ∷ rest.now) }
    ensures { result ≡ lost_after rest.now }
{
    match before {
        Some(ahead) if !has_key_tag(packet.bytes.as_slice()) => ahead.lost.saturating_sub(1),
        _ => lost_after(rest),
    }
}

/// Whether no shown packet comes after one before the next key tag. What is known ahead of the packet before it says so, unless it is
/// shown or has a key tag.
fn unshown_by(before: Option<Ahead>, packet: &Packet, rest: &[Packet]) -> bool
    requires { TellsAhead before (packet.now ∷ rest.now) }
    ensures { result ≡ is_unshown rest.now }
{
    let bytes = packet.bytes.as_slice();
    match before {
        Some(ahead) if !has_key_tag(bytes) && !is_shown(bytes) => ahead.is_unshown,
        _ => is_unshown(rest),
    }
}

/// What is known of the packets after one. `before` is what is known ahead of the packet before it, so each run of packets is looked
/// through once.
pub(crate) fn ahead_of(before: Option<Ahead>, packet: &Packet, rest: &[Packet]) -> Ahead
    requires { TellsAhead before (packet.now ∷ rest.now) }
    ensures { result ≡ ahead_of packet.now rest.now }
{
    Ahead {
        lost: lost_by(before, packet, rest),
        is_unshown: unshown_by(before, packet, rest),
        is_repeated: is_repeated(packet, rest),
    }
}

fn never_shown(packet: &[u8], unshown: bool) -> Option<Trouble>
    ensures { result ≡ never_shown packet.now unshown }
{
    if !is_shown(packet) && unshown {
        Some(Trouble::NeverShown)
    } else {
        None
    }
}

fn emptiness(packet: &[u8]) -> Option<Trouble>
    ensures { result ≡ emptiness packet.now }
{
    if packet.is_empty() {
        Some(Trouble::NoBytes)
    } else {
        None
    }
}

/// What is wrong with a number that names no reference.
fn undefined_copy(trouble: Trouble, number: u8) -> Option<Trouble>
    ensures { result ≡ undefined_copy trouble number }
{
    if number == 3 { Some(trouble) } else { None }
}

/// Whether a packet has the time stamp and the bytes of the next one.
pub fn is_same(stamp: u64, packet: &[u8], next_stamp: u64, next: &[u8]) -> bool
    ensures { result ≡ is_same (record { stamp = stamp; bytes = packet.now }) (record { stamp = next_stamp; bytes = next.now }) }
{
    stamp == next_stamp && packet == next
}

/// Whether the next packet is the same again.
fn is_repeated(packet: &Packet, rest: &[Packet]) -> bool
    ensures { result ≡ is_repeated packet.now rest.now }
{
    let Some((next, _)) = rest.split_first() else {
        return false;
    };
    is_same(
        packet.stamp,
        packet.bytes.as_slice(),
        next.stamp,
        next.bytes.as_slice(),
    )
}

fn repetition(pace: Pace, packet: &[u8], repeated: bool) -> Option<Trouble>
    ensures { result ≡ repetition pace packet.now repeated }
{
    if repeated && !packet.is_empty() {
        Some(Trouble::ComesTwice {
            breaks_step: pace.is_constant && !has_key_tag(packet),
        })
    } else {
        None
    }
}

fn newer(size: Option<(u16, u16)>, before: Option<(u16, u16)>) -> Option<(u16, u16)>
    ensures { result ≡ newer size before }
{
    match size {
        Some(size) => Some(size),
        None => before,
    }
}

impl PacketsBefore {
    pub fn first() -> PacketsBefore
        ensures { result ≡ first_position }
    {
        PacketsBefore {
            packets: 0,
            frames: 0,
            stamps: None,
            size: None,
        }
    }

    /// The packet after this position, and the frame that it is shown as.
    pub(crate) fn spot(self, packet: &[u8]) -> Spot
        ensures { result ≡ spot_of self packet.now }
    {
        let frame = if is_shown(packet) {
            Some(self.frames)
        } else {
            None
        };
        Spot {
            packet: self.packets,
            frame,
        }
    }

    /// The position after a packet with this time stamp. `step` is that of the stream's pace.
    pub fn after(self, step: u64, stamp: u64, packet: &[u8]) -> PacketsBefore
        requires room { self.packets + 1 < 2 ^ 64 }
        requires frames { self.frames ≤ self.packets }
        requires step { 1 ≤ step }
        ensures after { result ≡ position_after step self (record { stamp = stamp; bytes = packet.now }) }
        ensures frames { result.frames ≤ result.packets }
    {
        PacketsBefore {
            packets: self.packets + 1,
            frames: self.frames + usize::from(is_shown(packet)),
            stamps: stamps_after(step, self.packets, self.stamps, stamp, packet),
            size: newer(key_size(packet), self.size),
        }
    }

    /// What is wrong with the packet after this position, of which reading says this.
    pub(crate) fn found(
        self,
        pace: Pace,
        stamp: u64,
        packet: &[u8],
        ahead: Ahead,
        read: Read,
    ) -> Found
        requires { 1 ≤ pace.step }
        ensures { result ≡ found_at pace self (record { stamp = stamp; bytes = packet.now }) ahead read }
    {
        Found {
            refused: refusal(read.cause, ahead.lost),
            empty: emptiness(packet),
            to_golden: undefined_copy(Trouble::GoldenCopiesNone, read.copies.golden),
            to_altref: undefined_copy(Trouble::AltrefCopiesNone, read.copies.altref),
            twice: repetition(pace, packet, ahead.is_repeated),
            stamp: stamp_trouble(pace, self.packets, self.stamps, stamp, packet),
            size: size_change(self.size, key_size(packet)),
            hidden: never_shown(packet, ahead.is_unshown),
        }
    }
}
