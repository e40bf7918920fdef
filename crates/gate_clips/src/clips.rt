//! What is reported of a clip.

ghost use Rattle.std.specs.Prelude.{◌≤◌, length};

use crate::frame_texts::FrameTexts;
use frame_session::{RunFault, run};
use md5::{Digest, Md5};
use std::alloc::{AllocError, Global};
use std::io::{self, Write};
use std::str::Utf8Error;
use stream_files::ReadFault;
use vp8_tables::Tables;

/// The number of decoded states that a session caches.
const CAPACITY: u16 = 8;

/// Why nothing is reported.
#[derive(Debug, Drop)]
pub enum Fault {
    /// A file was not read, or the output not written.
    Io(io::Error),
    /// A file was too long, or not read to its end.
    Read(ReadFault),
    /// The names of the clips are no UTF-8.
    Names(Utf8Error),
    /// The stream is no IVF file.
    Run(RunFault),
    /// There was no memory.
    Memory(AllocError),
    /// Not all frames were served, or one of them differs the second time.
    Frames,
}

impl From<io::Error> for Fault {
    fn from(error: io::Error) -> Fault {
        Fault::Io(error)
    }
}

impl From<ReadFault> for Fault {
    fn from(fault: ReadFault) -> Fault {
        Fault::Read(fault)
    }
}

impl From<Utf8Error> for Fault {
    fn from(error: Utf8Error) -> Fault {
        Fault::Names(error)
    }
}

impl From<RunFault> for Fault {
    fn from(fault: RunFault) -> Fault {
        Fault::Run(fault)
    }
}

impl From<AllocError> for Fault {
    fn from(error: AllocError) -> Fault {
        Fault::Memory(error)
    }
}

/// The number of the n-th frame in a request out of order, among this many: each comes once.
fn shuffled(n: usize, count: usize) -> usize {
    let step = if count % 7 == 0 { 11 } else { 7 };
    n.wrapping_mul(step).wrapping_add(3) % count.max(1)
}

/// The requests for all frames, in order or out of it, after these lines.
pub fn requests(
    alloc: Global,
    lines: &[u8],
    count: usize,
    in_order: bool,
) -> Result<Vec<u8>, Fault> {
    let mut text = Vec::from_slice(alloc, lines)?;
    for n in 0..count {
        let frame = if in_order { n } else { shuffled(n, count) };
        writeln!(text, "frame {frame}")?;
    }
    Ok(text)
}

/// The frames that a run over these sources serves for these requests.
pub fn served(
    alloc: Global,
    capacity: u16,
    sources: &[&[u8]],
    requests: &[u8],
) -> Result<Vec<u8>, Fault>
    requires capacity { (1 ≤ capacity) × (capacity ≤ 4096) }
    requires sources { (1 ≤ length sources.now) × (length sources.now ≤ 8) }
{
    let mut frames = Vec::new(alloc);
    let mut replies = io::sink();
    run(
        alloc,
        Tables::rfc(),
        capacity,
        sources,
        requests,
        &mut frames,
        &mut replies,
    )?;
    Ok(frames)
}

/// The number of packets of a stream, and of its frames.
pub fn count_of(alloc: Global, stream: &[u8]) -> Result<(usize, usize), Fault> {
    let session = run(
        alloc,
        Tables::rfc(),
        CAPACITY,
        &[stream],
        b"",
        &mut io::sink(),
        &mut io::sink(),
    )?;
    let (packets, frames) = session.count();
    Ok((packets as usize, frames as usize))
}

/// The MD5 of the samples of all frames.
pub fn digest_of(frames: FrameTexts, count: usize) -> Option<[u8; 16]> {
    let mut hasher = Md5::new();
    for n in 0..count {
        hasher.update(frames.samples(n)?);
    }
    Some(hasher.finalize())
}

/// Whether the frames that were served out of order are those in order.
pub fn are_same(in_order: FrameTexts, out_of_order: FrameTexts, count: usize) -> bool {
    (0..count).all(|n| out_of_order.samples(n) == in_order.samples(shuffled(n, count)))
}

/// Reports one clip: its name, how many frames it has, and the MD5 of their samples.
pub fn report<O: Write>(
    alloc: Global,
    name: &str,
    stream: &[u8],
    output: &mut O,
) -> Result<(), Fault> {
    let (_, count) = count_of(alloc, stream)?;
    let in_order = requests(alloc, b"", count, true)?;
    let out_of_order = requests(alloc, b"", count, false)?;
    let text = served(alloc, CAPACITY, &[stream], in_order.as_slice())?;
    let again = served(alloc, CAPACITY, &[stream], out_of_order.as_slice())?;
    let frames = FrameTexts::new(text.as_slice(), count).ok_or(Fault::Frames)?;
    let others = FrameTexts::new(again.as_slice(), count).ok_or(Fault::Frames)?;
    if !are_same(frames, others, count) {
        return Err(Fault::Frames);
    }
    write_digest(output, name, frames, count)
}

/// Writes a line: a name, the number of frames, and the MD5 of their samples.
pub fn write_digest<O: Write>(
    output: &mut O,
    name: &str,
    frames: FrameTexts,
    count: usize,
) -> Result<(), Fault> {
    write!(output, "{name} {count} ")?;
    for byte in digest_of(frames, count).ok_or(Fault::Frames)? {
        write!(output, "{byte:02x}")?;
    }
    writeln!(output)?;
    Ok(())
}
