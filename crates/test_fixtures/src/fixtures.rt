ghost use Rattle.std.specs.Prelude.{◌≤◌, length};

use frame_session::{RunFault, run};
use std::alloc::{AllocError, Global};
use stream_files::{IvfFault, WriteFault};
use vp8_tables::Tables;

/// A key packet of 16 by 16 samples whose partitions are empty: every bit reads 0.
pub const KEY: &[u8] = &[0x10, 0, 0, 0x9D, 1, 0x2A, 0x10, 0, 0x10, 0];

/// The same of 32 by 16 samples.
pub const WIDE_KEY: &[u8] = &[0x10, 0, 0, 0x9D, 1, 0x2A, 0x20, 0, 0x10, 0];

/// A shown packet with no key tag, and nothing in its partitions.
pub const INTER: &[u8] = &[0x11, 0, 0];

/// The same, hidden.
pub const HIDDEN: &[u8] = &[1, 0, 0];

/// The result of a run: the bytes of the frames and of the replies, and the number of bytes after the
/// file's records, or the run's error.
#[derive(Drop)]
pub struct Ran {
    pub frames: Vec<u8>,
    pub replies: Vec<u8>,
    pub spare: Result<u64, RunFault>,
}

/// An IVF file of rate 30 and scale 1 with these packets.
pub fn ivf_of(alloc: Global, packets: &[&[u8]]) -> Result<Vec<u8>, AllocError> {
    let mut file = Vec::new(alloc);
    file.extend_from_slice(b"DKIF\0\0\x20\0VP80\x10\0\x10\0\x1E\0\0\0\x01\0\0\0")?;
    file.extend_from_slice(&[packets.len().min(255) as u8, 0, 0, 0, 0, 0, 0, 0])?;
    for packet in packets {
        file.extend_from_slice(&[packet.len().min(255) as u8, 0, 0, 0])?;
        file.extend_from_slice(&[0; 8])?;
        file.extend_from_slice(packet)?;
    }
    Ok(file)
}

/// Runs requests over the bytes of a file, with a cache of `capacity` states.
pub fn run_with(alloc: Global, capacity: u16, file: &[u8], requests: &[u8]) -> Ran {
    run_sources(alloc, capacity, &[file], requests)
}

/// Runs requests over the bytes of 1 to 8 files, with a cache of `capacity` states.
pub fn run_sources(alloc: Global, capacity: u16, files: &[&[u8]], requests: &[u8]) -> Ran
    requires { (1 ≤ length files.now) × (length files.now ≤ 8) }
{
    let mut frames = Vec::new(alloc);
    let mut replies = Vec::new(alloc);
    let spare = match run(
        alloc,
        Tables::flat(),
        capacity.clamp(1, 4096),
        files,
        requests,
        &mut frames,
        &mut replies,
    ) {
        Ok(session) => Ok(session.spare()),
        Err(fault) => Err(fault),
    };
    Ran {
        frames,
        replies,
        spare,
    }
}

/// Whether two texts of replies have the same lines, except the numbers of steps.
fn reply_alike(one: &[u8], other: &[u8]) -> bool {
    let mut others = other.split(|byte| *byte == b'\n');
    for line in one.split(|byte| *byte == b'\n') {
        let Some(beside) = others.next() else {
            return false;
        };
        let are_steps = line.starts_with(b"decoded ") && beside.starts_with(b"decoded ");
        if line != beside && !are_steps {
            return false;
        }
    }
    others.next().is_none()
}

/// Runs requests over the bytes of a file, with a cache of 8 states. If a run with one cached state
/// differs, except in numbers of steps, that run is returned, so the caller's comparison shows it.
pub fn run_over(alloc: Global, file: &[u8], requests: &[u8]) -> Ran {
    let ran = run_with(alloc, 8, file, requests);
    let one = run_with(alloc, 1, file, requests);
    let is_same = ran.frames.as_slice() == one.frames.as_slice() && ran.spare == one.spare;
    if is_same && reply_alike(ran.replies.as_slice(), one.replies.as_slice()) {
        ran
    } else {
        one
    }
}

/// Runs requests over a file of these packets.
pub fn run_packets(alloc: Global, packets: &[&[u8]], requests: &[u8]) -> Result<Ran, AllocError> {
    let file = ivf_of(alloc, packets)?;
    Ok(run_over(alloc, file.as_slice(), requests))
}

/// A Y4M text: its line, and frames of one value a run of samples.
pub fn y4m_of(
    alloc: Global,
    line: &[u8],
    frames: &[&[(usize, u8)]],
) -> Result<Vec<u8>, AllocError> {
    let mut text = Vec::new(alloc);
    text.extend_from_slice(line)?;
    for runs in frames {
        text.extend_from_slice(b"FRAME\n")?;
        for (count, value) in *runs {
            for _ in 0..*count {
                text.push(*value)?;
            }
        }
    }
    Ok(text)
}

/// The line of a Y4M text, and frames of one value a run of samples.
pub type Frames = (&'static [u8], &'static [&'static [(usize, u8)]]);

/// A run over a file of these packets, and what it must give: the replies, and the frames if these are
/// compared.
pub struct Run {
    pub packets: &'static [&'static [u8]],
    pub requests: &'static [u8],
    pub replies: &'static [u8],
    pub frames: Option<Frames>,
}

/// Whether a text is that of these frames, if these are compared.
fn shows(alloc: Global, text: &[u8], frames: Option<Frames>) -> Result<bool, AllocError> {
    let Some((line, frames)) = frames else {
        return Ok(true);
    };
    let want = y4m_of(alloc, line, frames)?;
    Ok(text == want.as_slice())
}

/// The replies of a run, or `frames differ` if its frames are others.
pub fn replies_of(alloc: Global, run: &Run) -> Result<Vec<u8>, AllocError> {
    let Ran {
        frames,
        replies,
        ..
    } = run_packets(alloc, run.packets, run.requests)?;
    if shows(alloc, &frames, run.frames)? {
        Ok(replies)
    } else {
        Vec::from_slice(alloc, b"frames differ")
    }
}
