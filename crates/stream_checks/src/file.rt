//! The findings at the header and at the end of a file.

ghost use Rattle.std.specs.Prelude.{◌≡◌, ◌+◌, ◌≤◌, IfOk, None, OnOk, length};
ghost use Rattle.std.specs.Option.{ForSome};
ghost use Rattle.std.specs.Io.KnownBytes.{Appends};
ghost use Rattle.stream_checks.specs.Files.{claim_trouble, claimed_frames, claimed_size, count_trouble, cut_trouble, end_findings, head_findings, rate_trouble, size_trouble};
ghost use Rattle.stream_checks.specs.Listed.{found_around};
ghost use Rattle.stream_checks.specs.Severity.{tally_of};
ghost use Rattle.stream_checks.specs.Texts.{texts_of};
ghost use Rattle.webm_files.specs.Media.{IsFewKept};

use crate::finding::{Finding, Tally, Trouble};
use crate::media::write_media;
use crate::texts::write_found;
use byteorder::{ByteOrder, LittleEndian};
use macroblock_lists::Form;
use std::io::Write;
use stream_facts::first_key_size;
use stream_files::{Head, WriteFault};
use stream_sources::Source;
use webm_files::Media;

/// The number of frames that the header of an IVF file gives.
fn claimed_frames(bytes: &[u8]) -> u32
    requires { 32 ≤ length bytes.now }
    ensures { result ≡ claimed_frames bytes.now }
{
    LittleEndian::read_u32(&bytes[24..])
}

/// Compares the number of frames that the header gives with the number of packets.
fn count_trouble(bytes: &[u8], packets: usize) -> Option<Trouble>
    requires { 32 ≤ length bytes.now }
    ensures { result ≡ count_trouble (claimed_frames bytes.now) packets }
{
    let claimed = claimed_frames(bytes);
    if claimed as usize == packets {
        None
    } else {
        Some(Trouble::FrameCount { claimed, packets })
    }
}

/// Compares the number of frames that the header gives, if the file has one, with the number of packets.
fn claim_trouble(bytes: &[u8], media: &Option<Media>, packets: usize) -> Option<Trouble>
    requires { media.now ≡ None → 32 ≤ length bytes.now }
    ensures { result ≡ claim_trouble media.now bytes.now packets }
{
    match media {
        None => count_trouble(bytes, packets),
        Some(_) => None,
    }
}

/// Compares the size that the header gives with that of the first key packet.
fn size_trouble(claimed: (u16, u16), size: Option<(u16, u16)>) -> Option<Trouble>
    ensures { result ≡ size_trouble claimed size }
{
    let Some(size) = size else {
        return None;
    };
    if claimed.0 == size.0 {
        if claimed.1 == size.1 {
            return None;
        }
    }
    Some(Trouble::FrameSize { claimed, size })
}

fn rate_trouble(head: Head) -> Option<Trouble>
    ensures { result ≡ rate_trouble head }
{
    let Head { rate, scale, .. } = head;
    if rate == 0 || scale == 0 {
        Some(Trouble::NoRate { rate, scale })
    } else {
        None
    }
}

/// The number of bytes that the record at the front claims for its packet.
fn claimed_size(rest: &[u8]) -> Option<u32>
    ensures { result ≡ claimed_size rest.now }
{
    if rest.len() < 4 {
        return None;
    }
    Some(LittleEndian::read_u32(rest))
}

/// The record that the trailing bytes of an IVF file begin.
fn cut_trouble(bytes: &[u8], packets: usize, spare: u64) -> Option<Trouble>
    ensures { result ≡ cut_trouble bytes.now packets spare }
{
    if spare == 0 {
        return None;
    }
    let begins = bytes.len().saturating_sub(spare as usize);
    Some(Trouble::CutRecord {
        number: packets,
        begins,
        claimed: claimed_size(&bytes[begins..]),
        left: spare,
    })
}

/// What is found around the packets.
pub(crate) fn found(trouble: Option<Trouble>) -> Option<Finding>
    ensures { result ≡ found_around trouble }
{
    match trouble {
        None => None,
        Some(trouble) => Some(Finding {
            spot: None,
            trouble,
        }),
    }
}

/// Writes the findings at the header, and returns their tally.
pub(crate) fn write_head<W: Write>(
    w: &mut W,
    form: Form,
    bytes: &[u8],
    source: &Source,
) -> Result<Tally, WriteFault>
    requires { source.now.media ≡ None → 32 ≤ length bytes.now }
    ensures written { OnOk result (Appends (W.contents w.old) (W.contents w.new) (texts_of form (head_findings bytes.now source.now))) }
    ensures counted { IfOk result (λ tally. tally ≡ tally_of (head_findings bytes.now source.now)) }
    ensures few { IfOk result (λ tally. tally.damage + tally.notes ≤ 3) }
{
    let head = source.stream.head;
    let packets = source.stream.packets.as_slice();
    let claim = claim_trouble(bytes, &source.media, packets.len());
    let size = size_trouble((head.width, head.height), first_key_size(packets));
    let count = write_found(w, form, found(claim))?;
    let size = write_found(w, form, found(size))?;
    let rate = write_found(w, form, found(rate_trouble(head)))?;
    Ok(count.plus(size).plus(rate))
}

/// Writes the findings at the end, and returns their tally.
pub(crate) fn write_tail<W: Write>(
    w: &mut W,
    form: Form,
    bytes: &[u8],
    source: &Source,
) -> Result<Tally, WriteFault>
    requires { ForSome source.now.media IsFewKept }
    ensures written { OnOk result (Appends (W.contents w.old) (W.contents w.new) (texts_of form (end_findings bytes.now source.now))) }
    ensures counted { IfOk result (λ tally. tally ≡ tally_of (end_findings bytes.now source.now)) }
    ensures few { IfOk result (λ tally. tally.damage + tally.notes ≤ 100663297) }
{
    let Source { stream, media } = source;
    match media {
        None => write_found(
            w,
            form,
            found(cut_trouble(bytes, stream.packets.len(), stream.spare)),
        ),
        Some(media) => write_media(w, form, bytes.len(), media),
    }
}
