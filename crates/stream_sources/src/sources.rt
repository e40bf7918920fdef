// Reads the files of sources.
ghost use Rattle.std.specs.Prelude.{◌≡◌, ◌↔◌, IfOk, IfErr, IsTrue, None, Some, false, true};
ghost use Rattle.std.specs.Rc.{rc_slice_items};
ghost use Rattle.webm_files.specs.Files.{is_marked};
ghost use Rattle.stream_sources.specs.Sources.{IsIvfRate, IsIvfSource, IsPlausible, IsRated, IsVideo, IsWebmSource, SourceAnswers, StreamAnswers};
ghost use Rattle.stream_sources.specs.Faults.{RefusedAsIvf, RefusedAsWebm};

use crate::faults::StreamFault;
use packet_times::median_step;
use pixel_planes::NoMemory;
use std::alloc::Global;
use std::rc::RcSlice;
use stream_files::{FileBytes, FrameRate, Head, Packet, Stream, ivf_read_from};
use webm_files::{Media, Webm, frame_rate, is_marked, webm_read_from};

/// The most units per second of a time base that is taken for a frame rate.
pub const MAX_FRAME_RATE: u64 = 240;

/// A stream, and what is kept of its file if that is a WebM or Matroska file.
#[derive(Debug, Drop)]
pub struct Source {
    pub stream: Stream,
    pub media: Option<Media>,
}

/// The video of a WebM file as a stream, and what is kept of the file. The rate of its frames is that of the duration that its track gives a frame, or of the median step
/// between the time stamps of shown packets, or of its time base.
fn video_of(alloc: Global, file: Webm) -> Result<Source, NoMemory>
    ensures video { IfOk result (λ source. IsVideo file source.stream) }
    ensures media { IfOk result (λ source. source.media ≡ Some file.media) }
{
    let Webm {
        head,
        packets,
        spare,
        media,
    } = file;
    let step = median_step(alloc, packets.as_slice())?;
    Ok(Source {
        stream: Stream {
            head,
            frame_rate: frame_rate(&head, media.default_duration(), step),
            packets,
            spare,
        },
        media: Some(media),
    })
}

/// Reads the video of a WebM or Matroska file.
fn read_webm<B: FileBytes>(alloc: Global, file: &B) -> Result<Source, StreamFault>
    ensures read { IfOk result (IsWebmSource (B.bytes file.now)) }
    ensures refused { IfErr result (RefusedAsWebm (B.bytes file.now)) }
{
    let webm = match webm_read_from(alloc, file) {
        Ok(webm) => webm,
        Err(fault) => return Err(StreamFault::of_webm(fault)),
    };
    match video_of(alloc, webm) {
        Ok(source) => Ok(source),
        Err(_) => Err(StreamFault::NoMemory),
    }
}

/// Whether the time base of an IVF file can be its frame rate.
fn is_plausible(head: &Head) -> bool
    ensures { IsTrue result ↔ IsPlausible head.now }
{
    u64::from(head.rate) <= MAX_FRAME_RATE * u64::from(head.scale)
}

/// The frame rate of an IVF file: its time base if that can be one, or else that of the median step between the time stamps of shown packets.
fn ivf_rate(alloc: Global, head: &Head, packets: &[Packet]) -> Result<FrameRate, NoMemory>
    ensures { IfOk result (IsIvfRate head.now packets.now) }
{
    if is_plausible(head) {
        return Ok(head.frame_rate());
    }
    let step = median_step(alloc, packets)?;
    Ok(frame_rate(head, 0, step))
}

/// An IVF file as a stream, with the rate of its frames.
fn rated(alloc: Global, file: Stream) -> Result<Source, NoMemory>
    ensures rated { IfOk result (λ source. IsRated file source.stream) }
    ensures media { IfOk result (λ source. source.media ≡ None) }
{
    let Stream {
        head,
        frame_rate: _,
        packets,
        spare,
    } = file;
    let frame_rate = ivf_rate(alloc, &head, packets.as_slice())?;
    Ok(Source {
        stream: Stream {
            head,
            frame_rate,
            packets,
            spare,
        },
        media: None,
    })
}

/// Reads an IVF file.
fn read_ivf<B: FileBytes>(alloc: Global, file: &B) -> Result<Source, StreamFault>
    ensures read { IfOk result (IsIvfSource (B.bytes file.now)) }
    ensures refused { IfErr result (RefusedAsIvf (B.bytes file.now)) }
{
    let stream = match ivf_read_from(alloc, file) {
        Ok(stream) => stream,
        Err(fault) => return Err(StreamFault::of_ivf(fault)),
    };
    match rated(alloc, stream) {
        Ok(source) => Ok(source),
        Err(_) => Err(StreamFault::NoMemory),
    }
}

/// Reads a stream from bytes that are borrowed or shared, and what is kept of its file: the packets of shared bytes are not copied. Bytes that begin
/// with EBML's mark are read as a WebM or Matroska file, all others as an IVF file.
///
/// Errors come in the order of the reader's own: [`IvfFault`](stream_files::IvfFault) or [`WebmFault`](webm_files::WebmFault); `NoMemory` only if
/// none of the others holds.
pub fn source_read_from<B: FileBytes>(alloc: Global, file: &B) -> Result<Source, StreamFault>
    ensures { SourceAnswers (B.bytes file.now) result }
{
    if is_marked(file.whole()) {
        read_webm(alloc, file)
    } else {
        read_ivf(alloc, file)
    }
}

/// Reads a source as [`source_read_from`] does, without a copy of its packets' bytes: each packet has a part of `file`, whose bytes
/// stay in memory as long as `file` or one of the packets.
pub fn source_share(alloc: Global, file: &RcSlice<u8>) -> Result<Source, StreamFault>
    ensures { SourceAnswers (rc_slice_items file.now) result }
{
    source_read_from(alloc, file)
}

/// Reads a stream as [`source_read_from`] does, and keeps nothing else of its file.
pub fn stream_read_from<B: FileBytes>(alloc: Global, file: &B) -> Result<Stream, StreamFault>
    ensures { StreamAnswers (B.bytes file.now) result }
{
    let source = source_read_from(alloc, file)?;
    let Source { stream, media: _ } = source;
    Ok(stream)
}

/// Reads a stream as [`source_share`] does, and keeps nothing else of its file.
pub fn stream_share(alloc: Global, file: &RcSlice<u8>) -> Result<Stream, StreamFault>
    ensures { StreamAnswers (rc_slice_items file.now) result }
{
    stream_read_from(alloc, file)
}
