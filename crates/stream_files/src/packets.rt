// Packets and their bytes as values.
ghost use Rattle.std.specs.Prelude.{◌≡◌, ◌+◌, ◌≤◌, IfOk, drop, length, slice_get, take};
ghost use Rattle.std.specs.Option.{option_copied};
ghost use Rattle.std.specs.Rc.{rc_slice_items};

use super::parts::{Part, Storage};
use pixel_planes::NoMemory;
use std::alloc::Global;
use std::fmt::{self, Debug, Formatter, Write};
use std::marker::Model;
use std::rc::RcSlice;

/// The most packets that a file may have.
pub const MAX_PACKETS: usize = 1_048_576;

/// A packet's bytes: in memory of their own, or a part of a file that other packets share. A contract sees
/// them as a list of bytes.
#[derive(Drop)]
pub struct Bytes {
    place: Storage,
}

impl Model for Bytes {
    ghost use Rattle.std.specs.Prelude.{List, ℕ};
    ghost use Rattle.stream_files.specs.Parts.{bytes_at};

    ghost Value = { List ℕ };

    ghost view = { λ b. bytes_at b.place };
}

impl Bytes {
    /// The bytes of a list.
    pub fn new(bytes: Vec<u8>) -> Self
        ensures { result ≡ bytes.items }
    {
        Bytes {
            place: Storage::Own(bytes),
        }
    }

    /// A copy of some bytes.
    pub fn from_slice(alloc: Global, bytes: &[u8]) -> Result<Self, NoMemory>
        ensures { IfOk result (λ copy. copy ≡ bytes.now) }
    {
        Ok(Bytes::new(Vec::from_slice(alloc, bytes)?))
    }

    /// The `size` bytes of a shared file from index `start` on, without a copy. `NoMemory` if the file has too
    /// many owners.
    pub(crate) fn part(file: &RcSlice<u8>, start: usize, size: usize) -> Result<Self, NoMemory>
        requires { start + size ≤ length (rc_slice_items file.now) }
        ensures { IfOk result (λ part. part ≡ take size (drop start (rc_slice_items file.now))) }
    {
        Ok(Bytes {
            place: Storage::Shared(Part::new(file, start, size)?),
        })
    }

    /// The same bytes again: without a copy if they are a part of a shared file.
    pub fn share(&self, alloc: Global) -> Result<Self, NoMemory>
        ensures { IfOk result (λ same. same ≡ self.now) }
    {
        match &self.place {
            Storage::Own(bytes) => Bytes::from_slice(alloc, bytes.as_slice()),
            Storage::Shared(part) => Ok(Bytes {
                place: Storage::Shared(part.share()?),
            }),
        }
    }

    /// The bytes as a slice.
    pub fn as_slice(&self) -> &[u8]
        ensures { result.now ≡ self.now }
    {
        match &self.place {
            Storage::Own(bytes) => bytes.as_slice(),
            Storage::Shared(part) => part.as_slice(),
        }
    }
}

impl Debug for Bytes {
    fn fmt<W: Write>(&self, f: &mut Formatter<W>) -> fmt::Result {
        f.debug_struct("Bytes")
            .field("bytes", &self.as_slice())
            .finish()
    }
}

/// A packet of a stream: its time stamp, in units of `scale / rate` seconds, and its bytes.
#[derive(Debug, Drop)]
pub struct Packet {
    pub stamp: u64,
    pub bytes: Bytes,
}

/// Packets in the order of the stream. A contract sees them as a list.
#[derive(Debug, Drop)]
pub struct Packets {
    packets: Vec<Packet>,
}

impl Model for Packets {
    ghost use Rattle.std.specs.Prelude.{List};
    ghost use Rattle.stream_files.specs.declared.packets.Packet.{Packet};

    ghost Value = { List Packet };

    ghost view = { λ p. p.packets.items };
}

impl Packets {
    /// The packets of a list.
    pub fn new(packets: Vec<Packet>) -> Self
        ensures { result ≡ packets.items }
    {
        Packets { packets }
    }

    /// The packets as a slice.
    pub fn as_slice(&self) -> &[Packet]
        ensures { result.now ≡ self.now }
    {
        self.packets.as_slice()
    }

    /// The number of packets.
    pub fn len(&self) -> usize
        ensures { result ≡ length self.now }
    {
        self.packets.len()
    }

    /// The packet at index `i`, or `None` past the last.
    pub fn get(&self, i: usize) -> Option<&Packet>
        ensures { option_copied result ≡ slice_get self.now i }
    {
        self.packets.get(i)
    }

    /// The packets as a list.
    pub fn into_vec(self) -> Vec<Packet>
        ensures { result.items ≡ self }
    {
        self.packets
    }
}
