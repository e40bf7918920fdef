// WebM and Matroska files.
ghost use Rattle.std.specs.Prelude.{◌≡◌, ◌≤◌, [], true, length, option_map, unwrap_or, IfErr, IfOk, OnOk};
ghost use Rattle.std.specs.Option.{ForSome};
ghost use Rattle.std.specs.Rc.{rc_slice_items};
ghost use Rattle.webm_files.specs.Blocks.{content};
ghost use Rattle.webm_files.specs.Children.{field, number_or};
ghost use Rattle.webm_files.specs.Files.{HasDocType, IsCodec, WebmAnswers, WebmRefuses, is_doc_type, is_marked, webm_fault_word};
ghost use Rattle.webm_files.specs.Starts.{IsRead, IsStart};

use super::children::{field, number_or, text_field};
use super::elements::{Element, element_at};
use super::gaps::read_gaps;
use super::ids::{DEFAULT_DURATION, DOC_TYPE, EBML, ENCODINGS, TIMESTAMP_SCALE};
use super::lengths::read_lengths;
use super::media::Media;
use super::packets::{count_packets, read_blocks};
use super::surveys::read_survey;
use super::tracks::{codec_in, count_entries, head_of, number_of, numbers_of, video_in};
use pixel_planes::NoMemory;
use std::alloc::Global;
use std::rc::RcSlice;
use stream_files::{FileBytes, Head, MAX_PACKETS, Packets};
use thiserror::Error;

/// The most elements that a file may have.
pub const MAX_ELEMENTS: usize = 16_777_216;

/// The most tracks that a file may have.
pub const MAX_TRACKS: usize = 127;

/// Why bytes are not a WebM or Matroska file with a stream of VP8, in the order of the checks.
#[derive(Clone, Copy, Debug, PartialEq, Eq, Error)]
pub enum WebmFault {
    /// The file does not begin with a whole EBML header.
    #[error("the file does not begin with a whole EBML header")]
    Header,
    /// The kind of file is neither `webm` nor `matroska`.
    #[error("the kind of file is neither webm nor matroska")]
    DocType,
    /// The file has no Tracks.
    #[error("the file has no tracks")]
    NoTracks,
    /// No track has the codec `V_VP8`.
    #[error("the file has no VP8 video")]
    NoVideo,
    /// The packets of the video are compressed or encrypted once more.
    #[error("the file's video is compressed or encrypted once more")]
    Encoded,
    /// The unit of time is 0, or 2^32 nanoseconds or more.
    #[error("the file's unit of time is 0, or 2^32 nanoseconds or more")]
    Scale,
    /// The file has more than `MAX_PACKETS` packets of the video, `MAX_ELEMENTS` elements or `MAX_TRACKS` tracks.
    #[error("the file has too many packets")]
    TooMany,
    /// Out of memory for the packets and what is kept.
    #[error("out of memory for the packets")]
    NoMemory,
}

impl WebmFault {
    /// The error's name.
    pub const fn word(self) -> &'static str
        ensures { result.now ≡ webm_fault_word self }
    {
        match self {
            WebmFault::Header => "Header",
            WebmFault::DocType => "DocType",
            WebmFault::NoTracks => "NoTracks",
            WebmFault::NoVideo => "NoVideo",
            WebmFault::Encoded => "Encoded",
            WebmFault::Scale => "Scale",
            WebmFault::TooMany => "TooMany",
            WebmFault::NoMemory => "NoMemory",
        }
    }
}

/// A WebM or Matroska file: the head of its video, whose time base is the file's unit of time, its packets, the number of
/// bytes that are read as no element, and what else is kept of it.
#[derive(Debug, Drop)]
pub struct Webm {
    pub head: Head,
    pub packets: Packets,
    pub spare: u64,
    pub media: Media,
}

/// Whether bytes begin with the name of an EBML header, as each WebM and Matroska file does.
pub fn is_marked(bytes: &[u8]) -> bool
    ensures { result ≡ is_marked bytes.now }
{
    bytes.starts_with(&[0x1A, 0x45, 0xDF, 0xA3])
}

/// Whether a kind of file is read.
fn is_doc_type(text: &[u8]) -> bool
    ensures { result ≡ is_doc_type text.now }
{
    text == b"webm".as_slice() || text == b"matroska".as_slice()
}

/// Checks that a file begins with an EBML header of a kind of file that is read.
fn check_doc_type(bytes: &[u8]) -> Result<(), WebmFault>
    ensures ok { OnOk result (HasDocType bytes.now) }
    ensures refused { IfErr result (WebmRefuses bytes.now) }
{
    let Some(header) = element_at(bytes, 0) else {
        return Err(WebmFault::Header);
    };
    if header.id != EBML {
        return Err(WebmFault::Header);
    }
    if !is_doc_type(text_field(&bytes[header.start..header.end], DOC_TYPE)) {
        return Err(WebmFault::DocType);
    }
    Ok(())
}

/// The nanoseconds of a unit of time, by the Info of a file, if it has one.
fn scale_of(bytes: &[u8], info: Option<Element>) -> u64
    requires order { ForSome info (λ found. found.start ≤ found.end) }
    requires inside { ForSome info (λ found. found.end ≤ length bytes.now) }
    ensures { result ≡ number_or 1000000 (field TIMESTAMP_SCALE (unwrap_or (option_map (content bytes.now) info) [])) }
{
    match info {
        Some(found) => number_or(
            field(&bytes[found.start..found.end], TIMESTAMP_SCALE),
            1_000_000,
        ),
        None => 1_000_000,
    }
}

/// Finds the Tracks of a file, the entry of its video and the head of it. The errors are those up to `TooMany`, which comes for
/// too many elements or tracks.
fn find_stream(bytes: &[u8]) -> Result<(&[u8], &[u8], Head), WebmFault>
    ensures found { IfOk result (λ found. IsStart bytes.now found.0.now found.1.now found.2) }
    ensures refused { IfErr result (WebmRefuses bytes.now) }
{
    check_doc_type(bytes)?;
    let survey = read_survey(bytes);
    let Some(element) = survey.tracks else {
        return Err(WebmFault::NoTracks);
    };
    let tracks = &bytes[element.start..element.end];
    let Some(entry) = video_in(tracks) else {
        return Err(WebmFault::NoVideo);
    };
    if !field(entry, ENCODINGS).is_empty() {
        return Err(WebmFault::Encoded);
    }
    let scale = scale_of(bytes, survey.info);
    if scale == 0 || scale > 4_294_967_295 {
        return Err(WebmFault::Scale);
    }
    if survey.elements > MAX_ELEMENTS || count_entries(tracks) > MAX_TRACKS {
        return Err(WebmFault::TooMany);
    }
    Ok((tracks, entry, head_of(entry, scale as u32)))
}

/// The codec of the first track of a file that is video, for a message about a file that has no VP8 video; nothing if there is none.
pub fn codec_there(bytes: &[u8]) -> &[u8]
    ensures { IsCodec bytes.now result.now }
{
    match read_survey(bytes).tracks {
        Some(found) => codec_in(&bytes[found.start..found.end]),
        None => &bytes[..0],
    }
}

/// Reads the packets of a video whose head and number of packets are known, and what is kept of its file.
fn read_contents<B: FileBytes>(
    alloc: Global,
    file: &B,
    tracks: &[u8],
    entry: &[u8],
    head: Head,
    count: usize,
) -> Result<Webm, NoMemory>
    ensures { IfOk result (IsRead (B.bytes file.now) tracks.now entry.now head) }
{
    let numbers = numbers_of(alloc, tracks)?;
    let video = number_of(entry);
    let blocks = read_blocks(alloc, file, numbers.as_slice(), video, count)?;
    let gaps = read_gaps(alloc, file.whole())?;
    let lengths = read_lengths(alloc, file.whole(), gaps.is_cut)?;
    Ok(Webm {
        head,
        packets: blocks.packets,
        spare: gaps.spare,
        media: Media {
            video,
            default_duration: number_or(field(entry, DEFAULT_DURATION), 0),
            numbers,
            blocks: blocks.listed,
            unlisted: blocks.unlisted,
            gaps: gaps.gaps,
            parts: gaps.parts,
            timeless: gaps.timeless,
            lengths,
            is_cut: gaps.is_cut,
        },
    })
}

/// Reads a WebM or Matroska file from bytes that are borrowed or shared: the packets of shared bytes are not copied.
///
/// Errors come in the order of [`WebmFault`]; `NoMemory` only if none of the others holds. Damage is not an error: it is read as
/// gaps. A file that its writer or a copy did not end is read up to its last whole block.
pub fn webm_read_from<B: FileBytes>(alloc: Global, file: &B) -> Result<Webm, WebmFault>
    ensures { WebmAnswers (B.bytes file.now) result }
{
    let bytes = file.whole();
    let (tracks, entry, head) = find_stream(bytes)?;
    let count = count_packets(bytes, number_of(entry));
    if count > MAX_PACKETS {
        return Err(WebmFault::TooMany);
    }
    let Ok(webm) = read_contents(alloc, file, tracks, entry, head, count) else {
        return Err(WebmFault::NoMemory);
    };
    Ok(webm)
}

/// Reads a WebM or Matroska file as [`webm_read_from`] does, without a copy of its packets' bytes: each packet has a part of
/// `file`, whose bytes stay in memory as long as `file` or one of the packets.
pub fn webm_share(alloc: Global, file: &RcSlice<u8>) -> Result<Webm, WebmFault>
    ensures { WebmAnswers (rc_slice_items file.now) result }
{
    webm_read_from(alloc, file)
}
