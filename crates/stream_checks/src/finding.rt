//! What may be wrong with a stream.

ghost use Rattle.std.specs.Prelude.{◌≡◌, ◌+◌, ◌<◌, ◌≤◌, ◌^◌, []};
ghost use Rattle.stream_checks.specs.Severity.{is_damage, plus, tally_of};
ghost use Rattle.stream_checks.specs.Listed.{listed};

use crate::webm_trouble::WebmTrouble;
use frame_header::Cause;

/// A packet, and the frame that it is shown as; `None` if it is hidden. Both are counted from 0.
#[derive(Clone, Copy, Debug, PartialEq, Eq)]
pub struct Spot {
    pub packet: usize,
    pub frame: Option<usize>,
}

/// What is found. Partitions are counted from 0.
#[derive(Clone, Copy, Debug)]
pub enum Trouble {
    /// The header of the file gives a number of frames that is not the number of packets.
    FrameCount {
        claimed: u32,
        packets: usize,
    },
    /// The header of the file gives another size than the first key packet with a size.
    FrameSize {
        claimed: (u16, u16),
        size: (u16, u16),
    },
    /// The header of the file gives no frame rate: one of its two numbers is 0.
    NoRate {
        rate: u32,
        scale: u32,
    },
    /// The packet is refused, and this many packets after it are lost with it.
    Refused {
        cause: Cause,
        lost: usize,
    },
    /// Decoding the packet reads so many bytes past the end of its first partition.
    PastFirst {
        bytes: usize,
    },
    /// Decoding the packet reads so many bytes past the end of this token partition.
    PastToken {
        partition: usize,
        bytes: usize,
    },
    /// Decoding the packet leaves so many bytes of its first partition, of `size` bytes, unread.
    UnreadFirst {
        bytes: usize,
        size: usize,
    },
    /// Decoding the packet leaves so many bytes of this token partition, of `size` bytes, unread.
    UnreadToken {
        partition: usize,
        bytes: usize,
        size: usize,
    },
    /// A token partition has no bytes, and none is read.
    EmptyToken {
        partition: usize,
    },
    /// The packet has no bytes: it repeats the frame before it.
    NoBytes,
    /// A shown packet has the time stamp of the shown packet before it.
    StampRepeats {
        stamp: u64,
    },
    /// A packet has a lower time stamp than the shown packet before it.
    StampGoesBack {
        stamp: u64,
        before: u64,
    },
    /// The time stamps of a shown packet and of the shown packet before it leave room for a frame.
    StampSkips {
        stamp: u64,
        before: u64,
    },
    /// The next packet has the same bytes and the same time stamp: an inter packet of a stream with a constant step, or any other.
    ComesTwice {
        breaks_step: bool,
    },
    /// The header's `copy_buffer_to_golden` is 3, which names no reference.
    GoldenCopiesNone,
    /// The header's `copy_buffer_to_arf` is 3, which names no reference.
    AltrefCopiesNone,
    /// The step to a shown inter packet from the shown packet before it is not 0, and not the one that all other steps of the stream
    /// are, except next to it.
    BreaksStep {
        stamp: u64,
        before: u64,
        step: u64,
    },
    /// A key packet has another size than the last key packet with a size.
    SizeChanges {
        before: (u16, u16),
        size: (u16, u16),
    },
    /// A hidden packet with no shown packet between it and the next key packet, or the end.
    NeverShown,
    /// The end of the file cuts off a record: the number of whole records, the index of its first
    /// byte in the file, the bytes that it claims for its packet, if these four bytes are there,
    /// and the number of its bytes that are there, its head of 12 bytes included.
    CutRecord {
        number: usize,
        begins: usize,
        claimed: Option<u32>,
        left: u64,
    },
    /// Something in a WebM file besides its packets.
    InWebm(WebmTrouble),
}

impl Trouble {
    /// Whether samples are lost or not those that were coded. Anything else is only worth a note.
    pub fn is_damage(self) -> bool
        ensures { result ≡ is_damage self }
    {
        match self {
            Trouble::Refused { .. }
            | Trouble::PastFirst { .. }
            | Trouble::PastToken { .. }
            | Trouble::UnreadFirst { .. }
            | Trouble::UnreadToken { .. }
            | Trouble::BreaksStep { .. }
            | Trouble::CutRecord { .. } => true,
            Trouble::InWebm(trouble) => trouble.is_damage(),
            Trouble::ComesTwice { breaks_step } => breaks_step,
            _ => false,
        }
    }
}

/// What is found, and where: at a packet, or else at the header or the end of the file.
#[derive(Clone, Copy, Debug)]
pub struct Finding {
    pub spot: Option<Spot>,
    pub trouble: Trouble,
}

/// How many findings are damage, and how many are notes.
#[derive(Clone, Copy, Debug, PartialEq, Eq)]
pub struct Tally {
    pub damage: u64,
    pub notes: u64,
}

impl Tally {
    /// Of no findings.
    pub fn none() -> Tally
        ensures { result ≡ tally_of [] }
    {
        Tally {
            damage: 0,
            notes: 0,
        }
    }

    /// Of one finding, or of none.
    pub(crate) fn of(found: Option<Finding>) -> Tally
        ensures tally { result ≡ tally_of (listed found) }
        ensures few { result.damage + result.notes ≤ 1 }
    {
        match found {
            None => Tally::none(),
            Some(finding) if finding.trouble.is_damage() => Tally {
                damage: 1,
                notes: 0,
            },
            Some(_) => Tally {
                damage: 0,
                notes: 1,
            },
        }
    }

    /// Of these findings and others.
    pub fn plus(self, other: Tally) -> Tally
        requires { self.damage + self.notes + (other.damage + other.notes) < 2 ^ 64 }
        ensures { result ≡ plus self other }
    {
        Tally {
            damage: self.damage + other.damage,
            notes: self.notes + other.notes,
        }
    }
}
