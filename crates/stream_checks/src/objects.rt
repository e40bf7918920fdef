//! A finding as a JSON object.

ghost use Rattle.std.specs.Prelude.{◌≡◌, ◌++◌, OnOk, codes};
ghost use Rattle.std.specs.Io.KnownBytes.{Appends};
ghost use Rattle.stream_facts.specs.Lines.{cause_text};
ghost use Rattle.stream_facts.specs.Json.{number_member};
ghost use Rattle.stream_checks.specs.Objects.{breaks_members, byte_members, cause_member, copy_members, cut_element_members, cut_members, element_member, field_member, kind_member, laced_members, no_time_members, object_of, partition_members, past_members, refused_members, severity_member, size_member, size_members, skipped_members, spot_members, stamp_members, tally_object, trouble_members, unlisted_members, unread_members, webm_members, wrong_length_members};

use crate::finding::{Finding, Spot, Tally, Trouble};
use crate::webm_trouble::WebmTrouble;
use frame_header::Cause;
use std::io::Write;
use stream_facts::{write_cause, write_member, write_number, write_optional, write_text};
use stream_files::WriteFault;

fn write_spot<W: Write>(w: &mut W, spot: Option<Spot>) -> Result<(), WriteFault>
    ensures { OnOk result (Appends (W.contents w.old) (W.contents w.new) (spot_members spot)) }
{
    match spot {
        None => {
            write_member(w, "packet", "null")?;
            write_member(w, "frame", "null")
        }
        Some(spot) => {
            write_number(w, "packet", spot.packet as u64)?;
            write_optional(w, "frame", wide(spot.frame))
        }
    }
}

/// An index as a number of 64 bits.
fn wide(n: Option<usize>) -> Option<u64>
    ensures { result ≡ n }
{
    match n {
        None => None,
        Some(n) => Some(n as u64),
    }
}

fn write_kind<W: Write>(w: &mut W, kind: &str) -> Result<(), WriteFault>
    ensures { OnOk result (Appends (W.contents w.old) (W.contents w.new) (kind_member kind.now)) }
{
    write_text(w, "\"kind\":\"")?;
    write_text(w, kind)?;
    write_text(w, "\",")
}

fn write_size<W: Write>(w: &mut W, name: &str, size: (u16, u16)) -> Result<(), WriteFault>
    ensures { OnOk result (Appends (W.contents w.old) (W.contents w.new) (size_member name.now size)) }
{
    let (width, height) = size;
    write_text(w, "\"")?;
    write_text(w, name)?;
    write_text(w, "\":\"")?;
    write!(w, "{width}x{height}").map_err(|_| WriteFault::Write)?;
    write_text(w, "\",")
}

fn write_partition<W: Write>(
    w: &mut W,
    kind: &str,
    partition: Option<usize>,
) -> Result<(), WriteFault>
    ensures { OnOk result (Appends (W.contents w.old) (W.contents w.new) (partition_members kind.now partition)) }
{
    write_kind(w, kind)?;
    write_optional(w, "partition", wide(partition))
}

fn write_past<W: Write>(w: &mut W, partition: Option<usize>, bytes: usize) -> Result<(), WriteFault>
    ensures { OnOk result (Appends (W.contents w.old) (W.contents w.new) (past_members partition bytes)) }
{
    write_partition(w, "past_end", partition)?;
    write_number(w, "bytes", bytes as u64)
}

fn write_unread<W: Write>(
    w: &mut W,
    partition: Option<usize>,
    bytes: usize,
    size: usize,
) -> Result<(), WriteFault>
    ensures { OnOk result (Appends (W.contents w.old) (W.contents w.new) (unread_members partition bytes size)) }
{
    write_partition(w, "unread", partition)?;
    write_number(w, "bytes", bytes as u64)?;
    write_number(w, "size", size as u64)
}

fn write_quoted_cause<W: Write>(w: &mut W, cause: Cause) -> Result<(), WriteFault>
    ensures { OnOk result (Appends (W.contents w.old) (W.contents w.new) (cause_member (cause_text cause))) }
{
    write_text(w, "\"cause\":\"")?;
    write_cause(w, cause)?;
    write_text(w, "\",")
}

fn write_refused<W: Write>(w: &mut W, cause: Cause, lost: usize) -> Result<(), WriteFault>
    ensures { OnOk result (Appends (W.contents w.old) (W.contents w.new) (refused_members (cause_text cause) lost)) }
{
    write_kind(w, "refused")?;
    write_quoted_cause(w, cause)?;
    write_number(w, "lost", lost as u64)
}

fn write_stamps<W: Write>(w: &mut W, kind: &str, stamp: u64, before: u64) -> Result<(), WriteFault>
    ensures { OnOk result (Appends (W.contents w.old) (W.contents w.new) (stamp_members kind.now stamp before)) }
{
    write_kind(w, kind)?;
    write_number(w, "stamp", stamp)?;
    write_number(w, "before", before)
}

fn write_breaks<W: Write>(w: &mut W, stamp: u64, before: u64, step: u64) -> Result<(), WriteFault>
    ensures { OnOk result (Appends (W.contents w.old) (W.contents w.new) (breaks_members stamp before step)) }
{
    write_stamps(w, "breaks_step", stamp, before)?;
    write_number(w, "step", step)
}

fn write_field<W: Write>(w: &mut W, field: &str) -> Result<(), WriteFault>
    ensures { OnOk result (Appends (W.contents w.old) (W.contents w.new) (field_member field.now)) }
{
    write_text(w, "\"field\":\"")?;
    write_text(w, field)?;
    write_text(w, "\",")
}

fn write_copy<W: Write>(w: &mut W, field: &str) -> Result<(), WriteFault>
    ensures { OnOk result (Appends (W.contents w.old) (W.contents w.new) (copy_members field.now)) }
{
    write_kind(w, "copies_none")?;
    write_field(w, field)
}

fn write_sizes<W: Write>(
    w: &mut W,
    kind: &str,
    name: &str,
    before: (u16, u16),
    size: (u16, u16),
) -> Result<(), WriteFault>
    ensures { OnOk result (Appends (W.contents w.old) (W.contents w.new) (size_members kind.now name.now before size)) }
{
    write_kind(w, kind)?;
    write_size(w, name, before)?;
    write_size(w, "size", size)
}

fn write_count<W: Write>(w: &mut W, claimed: u32, packets: usize) -> Result<(), WriteFault>
    ensures { OnOk result (Appends (W.contents w.old) (W.contents w.new) (kind_member (codes "frame_count") ++ number_member (codes "claimed") claimed ++ number_member (codes "packets") packets)) }
{
    write_kind(w, "frame_count")?;
    write_number(w, "claimed", claimed as u64)?;
    write_number(w, "packets", packets as u64)
}

fn write_rate<W: Write>(w: &mut W, rate: u32, scale: u32) -> Result<(), WriteFault>
    ensures { OnOk result (Appends (W.contents w.old) (W.contents w.new) (kind_member (codes "no_rate") ++ number_member (codes "rate") rate ++ number_member (codes "scale") scale)) }
{
    write_kind(w, "no_rate")?;
    write_number(w, "rate", rate as u64)?;
    write_number(w, "scale", scale as u64)
}

fn write_repeats<W: Write>(w: &mut W, stamp: u64) -> Result<(), WriteFault>
    ensures { OnOk result (Appends (W.contents w.old) (W.contents w.new) (kind_member (codes "stamp_repeats") ++ number_member (codes "stamp") stamp)) }
{
    write_kind(w, "stamp_repeats")?;
    write_number(w, "stamp", stamp)
}

/// A size in bytes as a number of 64 bits.
fn widened(n: Option<u32>) -> Option<u64>
    ensures { result ≡ n }
{
    match n {
        None => None,
        Some(n) => Some(n as u64),
    }
}

fn write_cut<W: Write>(
    w: &mut W,
    number: usize,
    begins: usize,
    claimed: Option<u32>,
    left: u64,
) -> Result<(), WriteFault>
    ensures { OnOk result (Appends (W.contents w.old) (W.contents w.new) (cut_members number begins claimed left)) }
{
    write_kind(w, "cut_record")?;
    write_number(w, "record", number as u64)?;
    write_number(w, "byte", begins as u64)?;
    write_optional(w, "claimed", widened(claimed))?;
    write_number(w, "left", left)
}

/// Writes the kind of a finding and its numbers.
fn write_byte<W: Write>(w: &mut W, kind: &str, begins: usize) -> Result<(), WriteFault>
    ensures { OnOk result (Appends (W.contents w.old) (W.contents w.new) (byte_members kind.now begins)) }
{
    write_kind(w, kind)?;
    write_number(w, "byte", begins as u64)
}

fn write_cut_element<W: Write>(w: &mut W, begins: usize, left: usize) -> Result<(), WriteFault>
    ensures { OnOk result (Appends (W.contents w.old) (W.contents w.new) (cut_element_members begins left)) }
{
    write_byte(w, "cut_element", begins)?;
    write_number(w, "left", left as u64)
}

fn write_skipped<W: Write>(w: &mut W, begins: usize, bytes: usize) -> Result<(), WriteFault>
    ensures { OnOk result (Appends (W.contents w.old) (W.contents w.new) (skipped_members begins bytes)) }
{
    write_byte(w, "skipped", begins)?;
    write_number(w, "bytes", bytes as u64)
}

fn write_no_time<W: Write>(w: &mut W, begins: usize) -> Result<(), WriteFault>
    ensures { OnOk result (Appends (W.contents w.old) (W.contents w.new) (no_time_members begins)) }
{
    write_byte(w, "cluster_without_time", begins)
}

fn write_element<W: Write>(w: &mut W, is_cluster: bool) -> Result<(), WriteFault>
    ensures { OnOk result (Appends (W.contents w.old) (W.contents w.new) (element_member is_cluster)) }
{
    if is_cluster {
        write_member(w, "element", "\"cluster\"")
    } else {
        write_member(w, "element", "\"segment\"")
    }
}

fn write_wrong_length<W: Write>(
    w: &mut W,
    is_cluster: bool,
    begins: usize,
    says: usize,
    ends: usize,
) -> Result<(), WriteFault>
    ensures { OnOk result (Appends (W.contents w.old) (W.contents w.new) (wrong_length_members is_cluster begins says ends)) }
{
    write_byte(w, "wrong_length", begins)?;
    write_element(w, is_cluster)?;
    write_number(w, "says", says as u64)?;
    write_number(w, "ends", ends as u64)
}

fn write_laced<W: Write>(w: &mut W, begins: usize) -> Result<(), WriteFault>
    ensures { OnOk result (Appends (W.contents w.old) (W.contents w.new) (laced_members begins)) }
{
    write_byte(w, "laced_block", begins)
}

fn write_unlisted<W: Write>(w: &mut W, begins: usize, track: u64) -> Result<(), WriteFault>
    ensures { OnOk result (Appends (W.contents w.old) (W.contents w.new) (unlisted_members begins track)) }
{
    write_byte(w, "unlisted_block", begins)?;
    write_number(w, "track", track)
}

fn write_webm<W: Write>(w: &mut W, trouble: WebmTrouble) -> Result<(), WriteFault>
    ensures { OnOk result (Appends (W.contents w.old) (W.contents w.new) (webm_members trouble)) }
{
    match trouble {
        WebmTrouble::CutElement { begins, left } => write_cut_element(w, begins, left),
        WebmTrouble::Skipped { begins, bytes } => write_skipped(w, begins, bytes),
        WebmTrouble::NoTime { begins } => write_no_time(w, begins),
        WebmTrouble::WrongLength {
            is_cluster,
            begins,
            says,
            ends,
        } => write_wrong_length(w, is_cluster, begins, says, ends),
        WebmTrouble::LacedBlock { begins } => write_laced(w, begins),
        WebmTrouble::UnlistedBlock { begins, track } => write_unlisted(w, begins, track),
    }
}

fn write_trouble<W: Write>(w: &mut W, trouble: Trouble) -> Result<(), WriteFault>
    ensures { OnOk result (Appends (W.contents w.old) (W.contents w.new) (trouble_members trouble)) }
{
    match trouble {
        Trouble::FrameCount { claimed, packets } => write_count(w, claimed, packets),
        Trouble::FrameSize { claimed, size } => {
            write_sizes(w, "frame_size", "claimed", claimed, size)
        }
        Trouble::NoRate { rate, scale } => write_rate(w, rate, scale),
        Trouble::Refused { cause, lost } => write_refused(w, cause, lost),
        Trouble::PastFirst { bytes } => write_past(w, None, bytes),
        Trouble::PastToken { partition, bytes } => write_past(w, Some(partition), bytes),
        Trouble::UnreadFirst { bytes, size } => write_unread(w, None, bytes, size),
        Trouble::UnreadToken {
            partition,
            bytes,
            size,
        } => write_unread(w, Some(partition), bytes, size),
        Trouble::EmptyToken { partition } => write_partition(w, "empty", Some(partition)),
        Trouble::NoBytes => write_kind(w, "no_bytes"),
        Trouble::GoldenCopiesNone => write_copy(w, "copy_buffer_to_golden"),
        Trouble::AltrefCopiesNone => write_copy(w, "copy_buffer_to_arf"),
        Trouble::ComesTwice { .. } => write_kind(w, "comes_twice"),
        Trouble::StampRepeats { stamp } => write_repeats(w, stamp),
        Trouble::StampGoesBack { stamp, before } => {
            write_stamps(w, "stamp_goes_back", stamp, before)
        }
        Trouble::StampSkips { stamp, before } => write_stamps(w, "stamp_skips", stamp, before),
        Trouble::BreaksStep {
            stamp,
            before,
            step,
        } => write_breaks(w, stamp, before, step),
        Trouble::SizeChanges { before, size } => {
            write_sizes(w, "size_changes", "before", before, size)
        }
        Trouble::NeverShown => write_kind(w, "never_shown"),
        Trouble::CutRecord {
            number,
            begins,
            claimed,
            left,
        } => write_cut(w, number, begins, claimed, left),
        Trouble::InWebm(trouble) => write_webm(w, trouble),
    }
}

fn write_severity<W: Write>(w: &mut W, trouble: Trouble) -> Result<(), WriteFault>
    ensures { OnOk result (Appends (W.contents w.old) (W.contents w.new) (severity_member trouble)) }
{
    if trouble.is_damage() {
        write_text(w, "\"severity\":\"damage\"")
    } else {
        write_text(w, "\"severity\":\"note\"")
    }
}

/// Writes the object of a finding.
pub(crate) fn write_object<W: Write>(w: &mut W, finding: Finding) -> Result<(), WriteFault>
    ensures { OnOk result (Appends (W.contents w.old) (W.contents w.new) (object_of finding)) }
{
    write_text(w, "{")?;
    write_spot(w, finding.spot)?;
    write_trouble(w, finding.trouble)?;
    write_severity(w, finding.trouble)?;
    write_text(w, "}\n")
}

/// Writes the object of a tally: how many findings are damage, and how many are notes.
pub fn write_tally<W: Write>(w: &mut W, tally: Tally) -> Result<(), WriteFault>
    ensures { OnOk result (Appends (W.contents w.old) (W.contents w.new) (tally_object tally)) }
{
    write_text(w, "{")?;
    write_number(w, "damage", tally.damage)?;
    write_text(w, "\"notes\":")?;
    write!(w, "{}", tally.notes).map_err(|_| WriteFault::Write)?;
    write_text(w, "}\n")
}
