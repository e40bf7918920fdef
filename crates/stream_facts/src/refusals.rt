//! The packets that decoding refuses.

ghost use Rattle.std.specs.Prelude.{◌≡◌, ◌+◌, ◌^◌, ◌<◌, OnOk};
ghost use Rattle.std.specs.Io.KnownBytes.{Appends};
ghost use Rattle.stream_facts.specs.Refusals.{is_refused, own_refusal, refusal_of, refusal_start, refusals_of, refuses_one};

use crate::facts::{Facts, Position};
use crate::lines::{write_cause, write_text};
use frame_header::{Cause, Outline};
use std::io::Write;
use stream_files::{Packet, WriteFault};

fn write_start<W: Write>(w: &mut W, packet: usize) -> Result<(), WriteFault>
    ensures { OnOk result (Appends (W.contents w.old) (W.contents w.new) (refusal_start packet)) }
{
    write!(w, "vp8list: packet {packet}: refused ").map_err(|_| WriteFault::Write)
}

fn write_own<W: Write>(
    w: &mut W,
    packet: usize,
    header: Result<Option<Outline>, Cause>,
) -> Result<(), WriteFault>
    ensures { OnOk result (Appends (W.contents w.old) (W.contents w.new) (own_refusal packet header)) }
{
    match header {
        Ok(_) => Ok(()),
        Err(cause) => {
            write_start(w, packet)?;
            write_cause(w, cause)?;
            write_text(w, "\n")
        }
    }
}

/// Writes the line of a packet, if it is refused of its own.
fn write_refusal<W: Write>(w: &mut W, facts: &Facts) -> Result<(), WriteFault>
    ensures { OnOk result (Appends (W.contents w.old) (W.contents w.new) (refusal_of facts.now)) }
{
    if facts.is_lost {
        Ok(())
    } else {
        write_own(w, facts.packet, facts.header)
    }
}

fn is_refused(facts: &Facts) -> bool
    ensures { result ≡ is_refused facts.now }
{
    !facts.is_lost && facts.header.is_err()
}

/// Whether decoding refuses one of these packets of its own.
pub fn has_refused(packets: &[Packet]) -> bool
    ensures { result ≡ refuses_one packets.now }
{
    let mut position = Position::first(0);
    for packet in packets {
        if is_refused(&position.next(packet)) {
            return true;
        }
    }
    false
}

/// Writes a line for each of these packets that decoding refuses, except for those that are lost with an earlier one. Only headers are read.
pub fn write_refusals<W: Write>(w: &mut W, packets: &[Packet]) -> Result<(), WriteFault>
    ensures { OnOk result (Appends (W.contents w.old) (W.contents w.new) (refusals_of packets.now)) }
{
    let mut position = Position::first(0);
    for packet in packets {
        write_refusal(w, &position.next(packet))?;
    }
    Ok(())
}
