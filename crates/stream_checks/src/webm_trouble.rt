//! What may be wrong with a WebM file besides its packets.

ghost use Rattle.std.specs.Prelude.{◌≡◌, OnOk};
ghost use Rattle.std.specs.Io.KnownBytes.{Appends};
ghost use Rattle.stream_checks.specs.Lines.{block_start, cut_element_text, end_text, ends_text, laced_text, length_start, no_time_text, says_text, skipped_text, track_text, unlisted_text, webm_text, what_text, wrong_length_text};
ghost use Rattle.stream_checks.specs.Severity.{is_webm_damage};

use std::io::Write;
use stream_facts::write_text;
use stream_files::WriteFault;

/// What is found in a WebM file besides its packets. Each begins at a byte of the file.
#[derive(Clone, Copy, Debug)]
pub enum WebmTrouble {
    /// The end of the file cuts an element, and so many of its bytes are there.
    CutElement {
        begins: usize,
        left: usize,
    },
    /// So many bytes are read as no element.
    Skipped {
        begins: usize,
        bytes: usize,
    },
    /// Of a cluster a block comes before its time, so the block has that of the cluster before.
    NoTime {
        begins: usize,
    },
    /// By the length of a cluster or Segment it ends at byte `says`; an element in it ends at a later byte `ends`, or the next one that
    /// is not in it, or the end of the file, is at an earlier byte `ends`.
    WrongLength {
        is_cluster: bool,
        begins: usize,
        says: usize,
        ends: usize,
    },
    /// A block has several packets of the video.
    LacedBlock {
        begins: usize,
    },
    /// A block is of a track that the file does not list.
    UnlistedBlock {
        begins: usize,
        track: u64,
    },
}

impl WebmTrouble {
    /// Whether samples are lost, or may be.
    pub fn is_damage(self) -> bool
        ensures { result ≡ is_webm_damage self }
    {
        !matches!(self, WebmTrouble::UnlistedBlock { .. })
    }
}

fn write_cut_element<W: Write>(w: &mut W, begins: usize, left: usize) -> Result<(), WriteFault>
    ensures { OnOk result (Appends (W.contents w.old) (W.contents w.new) (cut_element_text begins left)) }
{
    write!(
        w,
        "element at byte {begins}: the file ends within it, {left} bytes are there"
    )
    .map_err(|_| WriteFault::Write)
}

fn write_skipped<W: Write>(w: &mut W, begins: usize, bytes: usize) -> Result<(), WriteFault>
    ensures { OnOk result (Appends (W.contents w.old) (W.contents w.new) (skipped_text begins bytes)) }
{
    write!(
        w,
        "byte {begins}: {bytes} bytes are no element, and are skipped"
    )
    .map_err(|_| WriteFault::Write)
}

fn write_no_time<W: Write>(w: &mut W, begins: usize) -> Result<(), WriteFault>
    ensures { OnOk result (Appends (W.contents w.old) (W.contents w.new) (no_time_text begins)) }
{
    write!(
        w,
        "cluster at byte {begins}: it has no time, so its blocks have that of the cluster before"
    )
    .map_err(|_| WriteFault::Write)
}

fn write_length_start<W: Write>(
    w: &mut W,
    is_cluster: bool,
    begins: usize,
) -> Result<(), WriteFault>
    ensures { OnOk result (Appends (W.contents w.old) (W.contents w.new) (length_start is_cluster begins)) }
{
    write_text(w, if is_cluster { "cluster" } else { "segment" })?;
    write!(w, " at byte {begins}: ").map_err(|_| WriteFault::Write)
}

fn write_says<W: Write>(w: &mut W, says: usize) -> Result<(), WriteFault>
    ensures { OnOk result (Appends (W.contents w.old) (W.contents w.new) (says_text says)) }
{
    write!(w, "its length says that it ends at byte {says}").map_err(|_| WriteFault::Write)
}

fn write_what<W: Write>(w: &mut W, is_within: bool) -> Result<(), WriteFault>
    ensures { OnOk result (Appends (W.contents w.old) (W.contents w.new) (what_text is_within)) }
{
    if is_within {
        write_text(w, ", and an element in it")
    } else {
        write_text(w, ", and it")
    }
}

fn write_end<W: Write>(w: &mut W, ends: usize) -> Result<(), WriteFault>
    ensures { OnOk result (Appends (W.contents w.old) (W.contents w.new) (end_text ends)) }
{
    write!(w, " ends at byte {ends}").map_err(|_| WriteFault::Write)
}

fn write_ends<W: Write>(w: &mut W, is_within: bool, ends: usize) -> Result<(), WriteFault>
    ensures { OnOk result (Appends (W.contents w.old) (W.contents w.new) (ends_text is_within ends)) }
{
    write_what(w, is_within)?;
    write_end(w, ends)
}

fn write_wrong_length<W: Write>(
    w: &mut W,
    is_cluster: bool,
    begins: usize,
    says: usize,
    ends: usize,
) -> Result<(), WriteFault>
    ensures { OnOk result (Appends (W.contents w.old) (W.contents w.new) (wrong_length_text is_cluster begins says ends)) }
{
    write_length_start(w, is_cluster, begins)?;
    write_says(w, says)?;
    write_ends(w, says < ends, ends)
}

fn write_block_start<W: Write>(w: &mut W, begins: usize) -> Result<(), WriteFault>
    ensures { OnOk result (Appends (W.contents w.old) (W.contents w.new) (block_start begins)) }
{
    write!(w, "block at byte {begins}: ").map_err(|_| WriteFault::Write)
}

fn write_laced<W: Write>(w: &mut W, begins: usize) -> Result<(), WriteFault>
    ensures { OnOk result (Appends (W.contents w.old) (W.contents w.new) (laced_text begins)) }
{
    write_block_start(w, begins)?;
    write_text(w, "laced packets of the video, which are left out")
}

fn write_track<W: Write>(w: &mut W, track: u64) -> Result<(), WriteFault>
    ensures { OnOk result (Appends (W.contents w.old) (W.contents w.new) (track_text track)) }
{
    write!(w, "track {track}, which the file does not list").map_err(|_| WriteFault::Write)
}

fn write_unlisted<W: Write>(w: &mut W, begins: usize, track: u64) -> Result<(), WriteFault>
    ensures { OnOk result (Appends (W.contents w.old) (W.contents w.new) (unlisted_text begins track)) }
{
    write_block_start(w, begins)?;
    write_track(w, track)
}

/// Writes what is found, as the line of its finding has it.
pub(crate) fn write_webm<W: Write>(w: &mut W, trouble: WebmTrouble) -> Result<(), WriteFault>
    ensures { OnOk result (Appends (W.contents w.old) (W.contents w.new) (webm_text trouble)) }
{
    match trouble {
        WebmTrouble::CutElement { begins, left } => write_cut_element(w, begins, left),
        WebmTrouble::Skipped { begins, bytes } => write_skipped(w, begins, bytes),
        WebmTrouble::NoTime { begins } => write_no_time(w, begins),
        WebmTrouble::WrongLength {
            is_cluster,
            begins,
            says,
            ends,
        } => write_wrong_length(w, is_cluster, begins, says, ends),
        WebmTrouble::LacedBlock { begins } => write_laced(w, begins),
        WebmTrouble::UnlistedBlock { begins, track } => write_unlisted(w, begins, track),
    }
}
