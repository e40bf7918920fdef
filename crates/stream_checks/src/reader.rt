//! Reading of one packet after another, without samples, for the breaks of the stream and the ends of
//! its partitions.

ghost use Rattle.std.specs.Prelude.{◌≡◌, ◌≤◌, IfOk, OnOk, length};
ghost use Rattle.macroblock_lists.specs.Known.{progress_after};
ghost use Rattle.macroblock_lists.specs.PartitionEnds.{ends_before};
ghost use Rattle.stream_checks.specs.Breaks.{break_in};
ghost use Rattle.stream_checks.specs.Packets.{copies_in, read_in};

use crate::packets::Read;
use frame_header::Cause;
use header_bits::{CopyNumbers, copy_numbers};
use macroblock_lists::{Knowledge, PartitionEnds, read_packet};
use pixel_planes::NoMemory;
use std::alloc::Global;
use std::marker::Model;
use std::mem;
use vp8_tables::Tables;

/// A reader between two packets: what is known after the packets before it, nothing before the first,
/// or the break of the stream.
#[derive(Drop)]
pub struct Reader {
    alloc: Global,
    progress: Knowledge,
}

impl Model for Reader {
    ghost use Rattle.macroblock_lists.specs.Known.{Knowledge};

    ghost Value = { Knowledge };

    ghost view = { λ r. r.progress };
}

impl Reader {
    /// Where decoding knows so much.
    pub fn new(alloc: Global, progress: Knowledge) -> Reader
        ensures { result ≡ progress }
    {
        Reader { alloc, progress }
    }

    /// What is known there.
    pub fn into_progress(self) -> Knowledge
        ensures { result ≡ self }
    {
        self.progress
    }

    /// Reads the packet at index `place`: where decoding ends in each of its partitions. A packet that
    /// is refused or lost has none.
    pub fn next(
        &mut self,
        tables: &Tables,
        place: usize,
        packet: &[u8],
    ) -> Result<PartitionEnds, NoMemory>
        ensures ends { IfOk result (λ ends. ends ≡ ends_before tables.now self.old packet.now) }
        ensures few { IfOk result (λ ends. length ends.tokens.items ≤ 8) }
        ensures after { OnOk result (self.new ≡ progress_after tables.now place self.old packet.now) }
    {
        let before = mem::replace(&mut self.progress, Ok(None));
        let (ends, after) = read_packet(self.alloc, tables, place, before, packet)?;
        self.progress = after;
        Ok(ends)
    }

    /// The numbers of the copies of a packet, 0 if it was not decoded.
    fn copies(&self, packet: &[u8]) -> CopyNumbers
        ensures { result ≡ copies_in self.now packet.now }
    {
        match &self.progress {
            Ok(_) => copy_numbers(packet),
            Err(_) => CopyNumbers {
                golden: 0,
                altref: 0,
            },
        }
    }

    /// What reading the packet at index `place` says, after it was read.
    pub(crate) fn read_at(&self, place: usize, packet: &[u8]) -> Read
        ensures { result ≡ read_in place self.now packet.now }
    {
        Read {
            cause: self.break_at(place),
            copies: self.copies(packet),
        }
    }

    /// The cause, if the stream breaks at this index.
    fn break_at(&self, place: usize) -> Option<Cause>
        ensures { result ≡ break_in place self.now }
    {
        match &self.progress {
            Ok(_) => None,
            Err(broken) => {
                if broken.place == place {
                    Some(broken.cause)
                } else {
                    None
                }
            }
        }
    }
}
