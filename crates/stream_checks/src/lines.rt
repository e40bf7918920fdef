//! The line of a finding.

ghost use Rattle.std.specs.Prelude.{◌≡◌, ◌++◌, OnOk, codes};
ghost use Rattle.std.specs.Fmt.{decimal};
ghost use Rattle.std.specs.Io.KnownBytes.{Appends};
ghost use Rattle.stream_facts.specs.Lines.{cause_text};
ghost use Rattle.stream_checks.specs.Lines.{back_text, breaks_text, change_text, claimed_size_text, claimed_text, copy_text, count_text, counts_text, cut_start, cut_text, first_text, left_text, line_of, lost_text, partition_text, past_text, rate_text, refused_text, severity_text, size_text, skips_text, spot_text, stamp_text, summary_line, trouble_text, unread_text};

use crate::finding::{Finding, Spot, Tally, Trouble};
use crate::webm_trouble::write_webm;
use frame_header::Cause;
use std::io::Write;
use stream_facts::{write_cause, write_text};
use stream_files::WriteFault;

fn write_number<W: Write>(w: &mut W, n: u64) -> Result<(), WriteFault>
    ensures { OnOk result (Appends (W.contents w.old) (W.contents w.new) (decimal n)) }
{
    write!(w, "{n}").map_err(|_| WriteFault::Write)
}

fn write_severity<W: Write>(w: &mut W, trouble: Trouble) -> Result<(), WriteFault>
    ensures { OnOk result (Appends (W.contents w.old) (W.contents w.new) (severity_text trouble)) }
{
    if trouble.is_damage() {
        write_text(w, "damage: ")
    } else {
        write_text(w, "note: ")
    }
}

fn write_spot<W: Write>(w: &mut W, spot: Option<Spot>) -> Result<(), WriteFault>
    ensures { OnOk result (Appends (W.contents w.old) (W.contents w.new) (spot_text spot)) }
{
    match spot {
        None => Ok(()),
        Some(spot) => {
            let packet = spot.packet;
            write!(w, "packet {packet}: ").map_err(|_| WriteFault::Write)
        }
    }
}

fn write_size<W: Write>(w: &mut W, size: (u16, u16)) -> Result<(), WriteFault>
    ensures { OnOk result (Appends (W.contents w.old) (W.contents w.new) (size_text size)) }
{
    let (width, height) = size;
    write!(w, "{width}x{height}").map_err(|_| WriteFault::Write)
}

fn write_count<W: Write>(w: &mut W, claimed: u32, packets: usize) -> Result<(), WriteFault>
    ensures { OnOk result (Appends (W.contents w.old) (W.contents w.new) (count_text claimed packets)) }
{
    write!(w, "header: {claimed} frames, {packets} packets").map_err(|_| WriteFault::Write)
}

fn write_claimed_size<W: Write>(
    w: &mut W,
    claimed: (u16, u16),
    size: (u16, u16),
) -> Result<(), WriteFault>
    ensures { OnOk result (Appends (W.contents w.old) (W.contents w.new) (claimed_size_text claimed size)) }
{
    write_text(w, "header: size ")?;
    write_size(w, claimed)?;
    write_text(w, ", first key packet ")?;
    write_size(w, size)
}

fn write_rate<W: Write>(w: &mut W, rate: u32, scale: u32) -> Result<(), WriteFault>
    ensures { OnOk result (Appends (W.contents w.old) (W.contents w.new) (rate_text rate scale)) }
{
    write_text(w, "header: rate ")?;
    write_number(w, rate as u64)?;
    write_text(w, ", scale ")?;
    write_number(w, scale as u64)
}

fn write_lost<W: Write>(w: &mut W, lost: usize) -> Result<(), WriteFault>
    ensures { OnOk result (Appends (W.contents w.old) (W.contents w.new) (lost_text lost)) }
{
    write!(w, ", packets lost with it: {lost}").map_err(|_| WriteFault::Write)
}

fn write_refused<W: Write>(w: &mut W, cause: Cause, lost: usize) -> Result<(), WriteFault>
    ensures { OnOk result (Appends (W.contents w.old) (W.contents w.new) (refused_text (cause_text cause) lost)) }
{
    write_text(w, "refused ")?;
    write_cause(w, cause)?;
    write_lost(w, lost)
}

fn write_first<W: Write>(w: &mut W) -> Result<(), WriteFault>
    ensures { OnOk result (Appends (W.contents w.old) (W.contents w.new) first_text) }
{
    write_text(w, "first partition: ")
}

fn write_partition<W: Write>(w: &mut W, partition: usize) -> Result<(), WriteFault>
    ensures { OnOk result (Appends (W.contents w.old) (W.contents w.new) (partition_text partition)) }
{
    write!(w, "token partition {partition}: ").map_err(|_| WriteFault::Write)
}

fn write_past<W: Write>(w: &mut W, bytes: usize) -> Result<(), WriteFault>
    ensures { OnOk result (Appends (W.contents w.old) (W.contents w.new) (past_text bytes)) }
{
    write!(w, "{bytes} bytes read past its end").map_err(|_| WriteFault::Write)
}

fn write_unread<W: Write>(w: &mut W, bytes: usize, size: usize) -> Result<(), WriteFault>
    ensures { OnOk result (Appends (W.contents w.old) (W.contents w.new) (unread_text bytes size)) }
{
    write!(w, "{bytes} of {size} bytes are not read").map_err(|_| WriteFault::Write)
}

fn write_past_first<W: Write>(w: &mut W, bytes: usize) -> Result<(), WriteFault>
    ensures { OnOk result (Appends (W.contents w.old) (W.contents w.new) (first_text ++ past_text bytes)) }
{
    write_first(w)?;
    write_past(w, bytes)
}

fn write_past_token<W: Write>(w: &mut W, partition: usize, bytes: usize) -> Result<(), WriteFault>
    ensures { OnOk result (Appends (W.contents w.old) (W.contents w.new) (partition_text partition ++ past_text bytes)) }
{
    write_partition(w, partition)?;
    write_past(w, bytes)
}

fn write_unread_first<W: Write>(w: &mut W, bytes: usize, size: usize) -> Result<(), WriteFault>
    ensures { OnOk result (Appends (W.contents w.old) (W.contents w.new) (first_text ++ unread_text bytes size)) }
{
    write_first(w)?;
    write_unread(w, bytes, size)
}

fn write_unread_token<W: Write>(
    w: &mut W,
    partition: usize,
    bytes: usize,
    size: usize,
) -> Result<(), WriteFault>
    ensures { OnOk result (Appends (W.contents w.old) (W.contents w.new) (partition_text partition ++ unread_text bytes size)) }
{
    write_partition(w, partition)?;
    write_unread(w, bytes, size)
}

fn write_empty_token<W: Write>(w: &mut W, partition: usize) -> Result<(), WriteFault>
    ensures { OnOk result (Appends (W.contents w.old) (W.contents w.new) (partition_text partition ++ codes "no bytes, which libvpx calls corrupt")) }
{
    write_partition(w, partition)?;
    write_text(w, "no bytes, which libvpx calls corrupt")
}

fn write_stamp<W: Write>(w: &mut W, stamp: u64) -> Result<(), WriteFault>
    ensures { OnOk result (Appends (W.contents w.old) (W.contents w.new) (stamp_text stamp)) }
{
    write!(w, "time stamp {stamp}").map_err(|_| WriteFault::Write)
}

fn write_repeats<W: Write>(w: &mut W, stamp: u64) -> Result<(), WriteFault>
    ensures { OnOk result (Appends (W.contents w.old) (W.contents w.new) (stamp_text stamp ++ codes " repeats")) }
{
    write_stamp(w, stamp)?;
    write_text(w, " repeats")
}

fn write_back<W: Write>(w: &mut W, stamp: u64, before: u64) -> Result<(), WriteFault>
    ensures { OnOk result (Appends (W.contents w.old) (W.contents w.new) (back_text stamp before)) }
{
    write_stamp(w, stamp)?;
    write_text(w, " goes back from ")?;
    write_number(w, before)
}

fn write_skips<W: Write>(w: &mut W, stamp: u64, before: u64) -> Result<(), WriteFault>
    ensures { OnOk result (Appends (W.contents w.old) (W.contents w.new) (skips_text stamp before)) }
{
    write_stamp(w, stamp)?;
    write_text(w, " skips from ")?;
    write_number(w, before)
}

fn write_breaks<W: Write>(w: &mut W, stamp: u64, before: u64, step: u64) -> Result<(), WriteFault>
    ensures { OnOk result (Appends (W.contents w.old) (W.contents w.new) (breaks_text stamp before step)) }
{
    write_stamp(w, stamp)?;
    write_text(w, " follows ")?;
    write_number(w, before)?;
    write_text(w, ", all other steps are ")?;
    write_number(w, step)
}

/// Writes what is wrong with the number of a copy.
fn write_copy<W: Write>(w: &mut W, field: &str) -> Result<(), WriteFault>
    ensures { OnOk result (Appends (W.contents w.old) (W.contents w.new) (copy_text field.now)) }
{
    write_text(w, field)?;
    write_text(w, " 3, at which vpxdec ends")
}

fn write_change<W: Write>(w: &mut W, before: (u16, u16), size: (u16, u16)) -> Result<(), WriteFault>
    ensures { OnOk result (Appends (W.contents w.old) (W.contents w.new) (change_text before size)) }
{
    write_text(w, "size ")?;
    write_size(w, before)?;
    write_text(w, " changes to ")?;
    write_size(w, size)
}

fn write_cut_start<W: Write>(w: &mut W, number: usize, begins: usize) -> Result<(), WriteFault>
    ensures { OnOk result (Appends (W.contents w.old) (W.contents w.new) (cut_start number begins)) }
{
    write!(w, "record {number} at byte {begins}: ").map_err(|_| WriteFault::Write)
}

fn write_claimed<W: Write>(w: &mut W, claimed: u32) -> Result<(), WriteFault>
    ensures { OnOk result (Appends (W.contents w.old) (W.contents w.new) (claimed_text claimed)) }
{
    write!(w, "claims 12 + {claimed} bytes, ").map_err(|_| WriteFault::Write)
}

fn write_left<W: Write>(w: &mut W, claimed: Option<u32>, left: u64) -> Result<(), WriteFault>
    ensures { OnOk result (Appends (W.contents w.old) (W.contents w.new) (left_text claimed left)) }
{
    match claimed {
        None => write!(w, "{left} bytes are there").map_err(|_| WriteFault::Write),
        Some(claimed) => {
            write_claimed(w, claimed)?;
            write_number(w, left)?;
            write_text(w, " are there")
        }
    }
}

fn write_cut<W: Write>(
    w: &mut W,
    number: usize,
    begins: usize,
    claimed: Option<u32>,
    left: u64,
) -> Result<(), WriteFault>
    ensures { OnOk result (Appends (W.contents w.old) (W.contents w.new) (cut_text number begins claimed left)) }
{
    write_cut_start(w, number, begins)?;
    write_left(w, claimed, left)
}

/// Writes what is found.
fn write_trouble<W: Write>(w: &mut W, trouble: Trouble) -> Result<(), WriteFault>
    ensures { OnOk result (Appends (W.contents w.old) (W.contents w.new) (trouble_text trouble)) }
{
    match trouble {
        Trouble::FrameCount { claimed, packets } => write_count(w, claimed, packets),
        Trouble::FrameSize { claimed, size } => write_claimed_size(w, claimed, size),
        Trouble::NoRate { rate, scale } => write_rate(w, rate, scale),
        Trouble::Refused { cause, lost } => write_refused(w, cause, lost),
        Trouble::PastFirst { bytes } => write_past_first(w, bytes),
        Trouble::PastToken { partition, bytes } => write_past_token(w, partition, bytes),
        Trouble::UnreadFirst { bytes, size } => write_unread_first(w, bytes, size),
        Trouble::UnreadToken {
            partition,
            bytes,
            size,
        } => write_unread_token(w, partition, bytes, size),
        Trouble::EmptyToken { partition } => write_empty_token(w, partition),
        Trouble::NoBytes => write_text(w, "no bytes, at which vpxdec ends"),
        Trouble::GoldenCopiesNone => write_copy(w, "copy_buffer_to_golden"),
        Trouble::AltrefCopiesNone => write_copy(w, "copy_buffer_to_arf"),
        Trouble::ComesTwice { .. } => write_text(
            w,
            "the next packet has the same bytes and time stamp",
        ),
        Trouble::StampRepeats { stamp } => write_repeats(w, stamp),
        Trouble::StampGoesBack { stamp, before } => write_back(w, stamp, before),
        Trouble::StampSkips { stamp, before } => write_skips(w, stamp, before),
        Trouble::BreaksStep {
            stamp,
            before,
            step,
        } => write_breaks(w, stamp, before, step),
        Trouble::SizeChanges { before, size } => write_change(w, before, size),
        Trouble::NeverShown => write_text(w, "hidden, never shown"),
        Trouble::CutRecord {
            number,
            begins,
            claimed,
            left,
        } => write_cut(w, number, begins, claimed, left),
        Trouble::InWebm(trouble) => write_webm(w, trouble),
    }
}

/// Writes the line of a finding.
pub(crate) fn write_line<W: Write>(w: &mut W, finding: Finding) -> Result<(), WriteFault>
    ensures { OnOk result (Appends (W.contents w.old) (W.contents w.new) (line_of finding)) }
{
    write_severity(w, finding.trouble)?;
    write_spot(w, finding.spot)?;
    write_trouble(w, finding.trouble)?;
    write_text(w, "\n")
}

fn write_counts<W: Write>(w: &mut W, packets: usize, frames: usize) -> Result<(), WriteFault>
    ensures { OnOk result (Appends (W.contents w.old) (W.contents w.new) (counts_text packets frames)) }
{
    write!(w, "{packets} packets, {frames} frames, ").map_err(|_| WriteFault::Write)
}

/// Writes the last line.
pub(crate) fn write_summary<W: Write>(
    w: &mut W,
    packets: usize,
    frames: usize,
    tally: Tally,
) -> Result<(), WriteFault>
    ensures { OnOk result (Appends (W.contents w.old) (W.contents w.new) (summary_line packets frames tally)) }
{
    let Tally { damage, notes } = tally;
    write_counts(w, packets, frames)?;
    write_text(w, "damage: ")?;
    write_number(w, damage)?;
    write_text(w, ", notes: ")?;
    write_number(w, notes)?;
    write_text(w, "\n")
}
