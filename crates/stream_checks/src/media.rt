//! The findings in a WebM file besides its packets.

ghost use Rattle.std.specs.Prelude.{◌≡◌, ◌+◌, ◌≤◌, IfOk, OnOk, length};
ghost use Rattle.std.specs.Io.KnownBytes.{Appends};
ghost use Rattle.stream_checks.specs.Media.{block_findings, block_trouble, cluster_findings, gap_findings, gap_trouble, length_findings, length_trouble, media_findings};
ghost use Rattle.stream_checks.specs.Severity.{tally_of};
ghost use Rattle.stream_checks.specs.Texts.{texts_of};
ghost use Rattle.webm_files.specs.Media.{IsFewKept};

use crate::file::found;
use crate::finding::{Tally, Trouble};
use crate::texts::write_found;
use crate::webm_trouble::WebmTrouble;
use macroblock_lists::Form;
use std::io::Write;
use stream_files::WriteFault;
use webm_files::{Block, CLUSTER, Gap, Media, WrongLength, is_listed, is_packet};

/// What bytes that are read as no element are, in a file of this size.
fn gap_trouble(size: usize, is_cut: bool, gap: Gap) -> WebmTrouble
    ensures { result ≡ gap_trouble size is_cut gap }
{
    let Gap { start, end } = gap;
    if is_cut && end == size {
        WebmTrouble::CutElement {
            begins: start,
            left: end.saturating_sub(start),
        }
    } else {
        WebmTrouble::Skipped {
            begins: start,
            bytes: end.saturating_sub(start),
        }
    }
}

/// What a length that is wrong is.
fn length_trouble(wrong: WrongLength) -> WebmTrouble
    ensures { result ≡ length_trouble wrong }
{
    let WrongLength {
        id,
        place,
        says,
        ends,
    } = wrong;
    WebmTrouble::WrongLength {
        is_cluster: id == CLUSTER,
        begins: place,
        says,
        ends,
    }
}

/// What is wrong with a block, if the video and all tracks have these numbers.
fn block_trouble(video: u64, numbers: &[u64], block: &Block) -> Option<Trouble>
    ensures { result ≡ block_trouble video numbers.now block.now }
{
    let begins = block.place;
    if block.track == video {
        if is_packet(video, block) {
            None
        } else {
            Some(Trouble::InWebm(WebmTrouble::LacedBlock { begins }))
        }
    } else if is_listed(numbers, block) {
        None
    } else {
        Some(Trouble::InWebm(WebmTrouble::UnlistedBlock {
            begins,
            track: block.track,
        }))
    }
}

/// Writes the findings at gaps, and returns their tally.
fn write_gaps<W: Write>(
    w: &mut W,
    form: Form,
    size: usize,
    is_cut: bool,
    gaps: &[Gap],
) -> Result<Tally, WriteFault>
    requires { length gaps.now ≤ 16777217 }
    ensures written { OnOk result (Appends (W.contents w.old) (W.contents w.new) (texts_of form (gap_findings size is_cut gaps.now))) }
    ensures counted { IfOk result (λ tally. tally ≡ tally_of (gap_findings size is_cut gaps.now)) }
    ensures few { IfOk result (λ tally. tally.damage + tally.notes ≤ 16777217) }
{
    let mut tally = Tally::none();
    let mut rest = gaps;
    while let Some((gap, following)) = rest.split_first() {
        let trouble = gap_trouble(size, is_cut, *gap);
        let more = write_found(w, form, found(Some(Trouble::InWebm(trouble))))?;
        tally = tally.plus(more);
        rest = following;
    }
    Ok(tally)
}

/// Writes the findings at clusters without a time, and returns their tally.
fn write_clusters<W: Write>(w: &mut W, form: Form, places: &[usize]) -> Result<Tally, WriteFault>
    requires { length places.now ≤ 16777216 }
    ensures written { OnOk result (Appends (W.contents w.old) (W.contents w.new) (texts_of form (cluster_findings places.now))) }
    ensures counted { IfOk result (λ tally. tally ≡ tally_of (cluster_findings places.now)) }
    ensures few { IfOk result (λ tally. tally.damage + tally.notes ≤ 16777216) }
{
    let mut tally = Tally::none();
    let mut rest = places;
    while let Some((begins, following)) = rest.split_first() {
        let trouble = WebmTrouble::NoTime { begins: *begins };
        let more = write_found(w, form, found(Some(Trouble::InWebm(trouble))))?;
        tally = tally.plus(more);
        rest = following;
    }
    Ok(tally)
}

/// Writes the findings at lengths that are wrong, and returns their tally.
fn write_lengths<W: Write>(
    w: &mut W,
    form: Form,
    lengths: &[WrongLength],
) -> Result<Tally, WriteFault>
    requires { length lengths.now ≤ 33554432 }
    ensures written { OnOk result (Appends (W.contents w.old) (W.contents w.new) (texts_of form (length_findings lengths.now))) }
    ensures counted { IfOk result (λ tally. tally ≡ tally_of (length_findings lengths.now)) }
    ensures few { IfOk result (λ tally. tally.damage + tally.notes ≤ 33554432) }
{
    let mut tally = Tally::none();
    let mut rest = lengths;
    while let Some((wrong, following)) = rest.split_first() {
        let trouble = length_trouble(*wrong);
        let more = write_found(w, form, found(Some(Trouble::InWebm(trouble))))?;
        tally = tally.plus(more);
        rest = following;
    }
    Ok(tally)
}

/// Writes the findings at blocks, and returns their tally.
fn write_blocks<W: Write>(
    w: &mut W,
    form: Form,
    video: u64,
    numbers: &[u64],
    blocks: &[Block],
) -> Result<Tally, WriteFault>
    requires { length blocks.now ≤ 16777216 }
    ensures written { OnOk result (Appends (W.contents w.old) (W.contents w.new) (texts_of form (block_findings video numbers.now blocks.now))) }
    ensures counted { IfOk result (λ tally. tally ≡ tally_of (block_findings video numbers.now blocks.now)) }
    ensures few { IfOk result (λ tally. tally.damage + tally.notes ≤ 16777216) }
{
    let mut tally = Tally::none();
    let mut rest = blocks;
    while let Some((block, following)) = rest.split_first() {
        let more = write_found(w, form, found(block_trouble(video, numbers, block)))?;
        tally = tally.plus(more);
        rest = following;
    }
    Ok(tally)
}

/// Writes the findings in a file of this size besides its packets, and returns their tally.
pub(crate) fn write_media<W: Write>(
    w: &mut W,
    form: Form,
    size: usize,
    media: &Media,
) -> Result<Tally, WriteFault>
    requires { IsFewKept media.now }
    ensures written { OnOk result (Appends (W.contents w.old) (W.contents w.new) (texts_of form (media_findings size media.now))) }
    ensures counted { IfOk result (λ tally. tally ≡ tally_of (media_findings size media.now)) }
    ensures few { IfOk result (λ tally. tally.damage + tally.notes ≤ 100663297) }
{
    let video = media.video();
    let numbers = media.numbers();
    let gaps = write_gaps(w, form, size, media.is_cut(), media.gaps())?;
    let clusters = write_clusters(w, form, media.timeless())?;
    let lengths = write_lengths(w, form, media.lengths())?;
    let listed = write_blocks(w, form, video, numbers, media.blocks())?;
    let unlisted = write_blocks(w, form, video, numbers, media.unlisted())?;
    Ok(
        gaps.plus(clusters)
            .plus(lengths)
            .plus(listed)
            .plus(unlisted),
    )
}
