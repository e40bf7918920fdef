//! The findings at one packet after another.

ghost use Rattle.std.specs.Prelude.{◌≡◌, ◌+◌, ◌<◌, ◌≤◌, ◌^◌, ◌++◌, IfErr, IfOk, OnOk, length};
ghost use Rattle.std.specs.Io.KnownBytes.{Appends};
ghost use Rattle.stream_checks.specs.Packets.{listed_of, position_after};
ghost use Rattle.stream_checks.specs.Partitions.{partition_findings};
ghost use Rattle.stream_checks.specs.Severity.{tally_of};
ghost use Rattle.stream_checks.specs.Texts.{texts_of};
ghost use Rattle.stream_checks.specs.Checks.{findings_next, progress_next};

use crate::fault::CheckFault;
use crate::finding::{Spot, Tally};
use crate::packets::{Ahead, Found, PacketsBefore};
use crate::partitions::{found, write_partitions};
use crate::reader::Reader;
use crate::stamps::Pace;
use crate::texts::write_found;
use macroblock_lists::{Form, Knowledge, PartitionEnds};
use std::alloc::Global;
use std::io::Write;
use stream_files::WriteFault;
use vp8_tables::Tables;

/// A position between two packets of a stream, with the reader there.
#[derive(Drop)]
pub struct Checker {
    pub form: Form,
    pub pace: Pace,
    pub position: PacketsBefore,
    pub reader: Reader,
}

/// Writes the findings at a packet by the packets around it, and returns their tally.
fn write_around<W: Write>(
    w: &mut W,
    form: Form,
    spot: Spot,
    all: Found,
) -> Result<Tally, WriteFault>
    ensures written { OnOk result (Appends (W.contents w.old) (W.contents w.new) (texts_of form (listed_of spot all))) }
    ensures counted { IfOk result (λ tally. tally ≡ tally_of (listed_of spot all)) }
    ensures few { IfOk result (λ tally. tally.damage + tally.notes ≤ 8) }
{
    let refused = write_found(w, form, found(spot, all.refused))?;
    let empty = write_found(w, form, found(spot, all.empty))?;
    let to_golden = write_found(w, form, found(spot, all.to_golden))?;
    let to_altref = write_found(w, form, found(spot, all.to_altref))?;
    let twice = write_found(w, form, found(spot, all.twice))?;
    let stamp = write_found(w, form, found(spot, all.stamp))?;
    let size = write_found(w, form, found(spot, all.size))?;
    let hidden = write_found(w, form, found(spot, all.hidden))?;
    let read = refused.plus(empty).plus(to_golden).plus(to_altref);
    Ok(read.plus(twice).plus(stamp).plus(size).plus(hidden))
}

/// Writes the findings at a packet, and returns their tally.
fn write_all<W: Write>(
    w: &mut W,
    form: Form,
    spot: Spot,
    ends: &PartitionEnds,
    all: Found,
) -> Result<Tally, WriteFault>
    requires { length ends.now.tokens.items ≤ 8 }
    ensures written { OnOk result (Appends (W.contents w.old) (W.contents w.new) (texts_of form (partition_findings spot ends.now ++ listed_of spot all))) }
    ensures counted { IfOk result (λ tally. tally ≡ tally_of (partition_findings spot ends.now ++ listed_of spot all)) }
    ensures few { IfOk result (λ tally. tally.damage + tally.notes ≤ 17) }
{
    let partitions = write_partitions(w, form, spot, ends)?;
    let around = write_around(w, form, spot, all)?;
    Ok(partitions.plus(around))
}

impl Checker {
    /// At this position of a stream whose time stamps go on so, with what decoding knows there.
    pub fn new(
        alloc: Global,
        form: Form,
        pace: Pace,
        position: PacketsBefore,
        progress: Knowledge,
    ) -> Checker
        ensures { result ≡ record { form = form; pace = pace; position = position; reader = progress } }
    {
        Checker {
            form,
            pace,
            position,
            reader: Reader::new(alloc, progress),
        }
    }

    /// Reads the next packet, writes its findings, and returns their tally. `NoMemory` comes before the first finding.
    pub fn next<W: Write>(
        &mut self,
        w: &mut W,
        tables: &Tables,
        stamp: u64,
        packet: &[u8],
        ahead: Ahead,
    ) -> Result<Tally, CheckFault>
        requires room { self.old.position.packets + 1 < 2 ^ 64 }
        requires frames { self.old.position.frames ≤ self.old.position.packets }
        requires step { 1 ≤ self.old.pace.step }
        ensures written { OnOk result (Appends (W.contents w.old) (W.contents w.new) (texts_of self.old.form (findings_next tables.now self.old (record { stamp = stamp; bytes = packet.now }) ahead))) }
        ensures counted { IfOk result (λ tally. tally ≡ tally_of (findings_next tables.now self.old (record { stamp = stamp; bytes = packet.now }) ahead)) }
        ensures few { IfOk result (λ tally. tally.damage + tally.notes ≤ 17) }
        ensures early { IfErr result (λ fault. fault ≡ CheckFault.NoMemory → W.contents w.new ≡ W.contents w.old) }
        ensures form { self.new.form ≡ self.old.form }
        ensures pace { self.new.pace ≡ self.old.pace }
        ensures position { OnOk result (self.new.position ≡ position_after self.old.pace.step self.old.position (record { stamp = stamp; bytes = packet.now })) }
        ensures frames { OnOk result (self.new.position.frames ≤ self.new.position.packets) }
        ensures reader { OnOk result (self.new.reader ≡ progress_next tables.now self.old (record { stamp = stamp; bytes = packet.now })) }
    {
        let place = self.position.packets;
        let Ok(ends) = self.reader.next(tables, place, packet) else {
            return Err(CheckFault::NoMemory);
        };
        let read = self.reader.read_at(place, packet);
        let spot = self.position.spot(packet);
        let all = self.position.found(self.pace, stamp, packet, ahead, read);
        self.position = self.position.after(self.pace.step, stamp, packet);
        match write_all(w, self.form, spot, &ends, all) {
            Ok(tally) => Ok(tally),
            Err(_) => Err(CheckFault::Write),
        }
    }
}
