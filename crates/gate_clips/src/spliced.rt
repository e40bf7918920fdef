//! What is reported of three clips as the sources of one session.

use crate::clips::{Fault, are_same, count_of, requests, served, write_digest};
use crate::frame_texts::FrameTexts;
use std::alloc::Global;
use std::io::Write;

/// The script that serves the frames of three sources, one source after another.
const SPLICE: &[u8] = b"script source 1; source 2; splice 0 1; splice 3 2\n";

/// The lines that copy all packets of source 1 to the end of source 0.
fn copies(alloc: Global, end: usize, packets: usize) -> Result<Vec<u8>, Fault> {
    let mut text = Vec::new(alloc);
    for n in 0..packets {
        let at = end.wrapping_add(n);
        writeln!(text, "copy 1 {n} {at}")?;
    }
    Ok(text)
}

/// The number of frames of some clips.
fn count_all(alloc: Global, clips: &[&[u8]]) -> Result<usize, Fault> {
    let mut all: usize = 0;
    for clip in clips {
        all = all.saturating_add(count_of(alloc, clip)?.1);
    }
    Ok(all)
}

/// Reports three clips of one size: their names, the number of their frames, and the MD5 of the samples
/// that a script serves which splices them. The frames are served in order, out of order, and out of order
/// with one cached state. Copied to the end of the first clip, the packets of the second must show the same
/// frames.
pub fn report_spliced<O: Write>(
    alloc: Global,
    names: &str,
    clips: [&[u8]; 3],
    output: &mut O,
) -> Result<(), Fault> {
    let count = count_all(alloc, &clips)?;
    let in_order = requests(alloc, SPLICE, count, true)?;
    let text = served(alloc, 8, &clips, in_order.as_slice())?;
    let frames = FrameTexts::new(text.as_slice(), count).ok_or(Fault::Frames)?;
    let out_of_order = requests(alloc, SPLICE, count, false)?;
    for capacity in [8, 1] {
        let again = served(alloc, capacity, &clips, out_of_order.as_slice())?;
        let others = FrameTexts::new(again.as_slice(), count).ok_or(Fault::Frames)?;
        if !are_same(frames, others, count) {
            return Err(Fault::Frames);
        }
    }
    if !are_copied(alloc, clips, frames)? {
        return Err(Fault::Frames);
    }
    write_digest(output, names, frames, count)
}

/// Whether the packets of the second clip, copied to the end of the first, show the spliced frames.
fn are_copied(alloc: Global, clips: [&[u8]; 3], spliced: FrameTexts) -> Result<bool, Fault> {
    let (end, first) = count_of(alloc, clips[0])?;
    let (packets, second) = count_of(alloc, clips[1])?;
    let count = first.saturating_add(second);
    let lines = copies(alloc, end, packets)?;
    let all = requests(alloc, lines.as_slice(), count, true)?;
    let text = served(alloc, 8, &clips, all.as_slice())?;
    let copied = FrameTexts::new(text.as_slice(), count).ok_or(Fault::Frames)?;
    Ok((0..count).all(|n| copied.samples(n) == spliced.samples(n)))
}
