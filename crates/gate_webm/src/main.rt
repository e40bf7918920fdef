//! Reads the WebM files that standard input names, and prints of each what was read or the error.
#![tactic(auto)]

use std::fs::File;
use std::io::{self, BufWriter, Write};
use std::process::ExitCode;
use std::str::Utf8Error;
use stream_files::{Packet, ReadFault, read_all};
use thiserror::Error;
use webm_files::{Block, Media, Webm, WrongLength, webm_read_from};

/// The most bytes that a file, or the list of their names, may have.
const LIMIT: usize = 1_073_741_824;

/// Why the files are not read.
#[derive(Debug, Drop, Error)]
enum Fault {
    #[error("input or output")]
    Io(#[from] io::Error),
    #[error("reading")]
    Read(#[from] ReadFault),
    #[error("names")]
    Names(#[from] Utf8Error),
}

/// A number that differs for most different bytes.
fn hash_of(bytes: &[u8]) -> u32 {
    let mut hash = 0u32;
    for byte in bytes {
        hash = hash.wrapping_mul(16_777_619).wrapping_add(u32::from(*byte));
    }
    hash
}

/// Prints blocks after a word.
fn print_blocks<O: Write>(output: &mut O, word: &str, blocks: &[Block]) -> io::Result<()> {
    for block in blocks {
        let Block {
            track,
            stamp,
            flags,
            place,
            start,
            end,
        } = *block;
        writeln!(
            output,
            "{word} {track} {stamp} {flags} {place} {start} {end}"
        )?;
    }
    Ok(())
}

/// Prints packets.
fn print_packets<O: Write>(output: &mut O, packets: &[Packet]) -> io::Result<()> {
    for packet in packets {
        let stamp = packet.stamp;
        let bytes = packet.bytes.as_slice();
        let size = bytes.len();
        let hash = hash_of(bytes);
        writeln!(output, "packet {stamp} {size} {hash}")?;
    }
    Ok(())
}

/// Prints the numbers of tracks.
fn print_numbers<O: Write>(output: &mut O, numbers: &[u64]) -> io::Result<()> {
    for number in numbers {
        writeln!(output, "track {number}")?;
    }
    Ok(())
}

/// Prints gaps and the elements that are kept whole.
fn print_places<O: Write>(output: &mut O, media: &Media) -> io::Result<()> {
    for gap in media.gaps() {
        let start = gap.start;
        let end = gap.end;
        writeln!(output, "gap {start} {end}")?;
    }
    for part in media.parts() {
        let id = part.id;
        let place = part.place;
        let end = part.end;
        writeln!(output, "part {id} {place} {end}")?;
    }
    Ok(())
}

/// Prints clusters without a time and lengths that are wrong.
fn print_troubles<O: Write>(output: &mut O, media: &Media) -> io::Result<()> {
    for place in media.timeless() {
        writeln!(output, "timeless {place}")?;
    }
    for wrong in media.lengths() {
        let WrongLength {
            id,
            place,
            says,
            ends,
        } = *wrong;
        writeln!(output, "length {id} {place} {says} {ends}")?;
    }
    Ok(())
}

/// Prints what was read of a file.
fn print_file<O: Write>(output: &mut O, file: &Webm) -> io::Result<()> {
    let head = file.head;
    let width = head.width;
    let height = head.height;
    let rate = head.rate;
    let scale = head.scale;
    let spare = file.spare;
    let video = file.media.video();
    let duration = file.media.default_duration();
    writeln!(output, "head {width} {height} {rate} {scale}")?;
    writeln!(output, "video {video} {duration}")?;
    print_numbers(output, file.media.numbers())?;
    print_packets(output, file.packets.as_slice())?;
    print_blocks(output, "block", file.media.blocks())?;
    print_blocks(output, "unlisted", file.media.unlisted())?;
    print_places(output, &file.media)?;
    print_troubles(output, &file.media)?;
    writeln!(output, "spare {spare}")?;
    if file.media.is_cut() {
        writeln!(output, "cut")?;
    }
    Ok(())
}

/// Reads and prints the file of this name.
fn report<O: Write>(rt: &HostRuntime, name: &str, output: &mut O) -> Result<(), Fault> {
    let mut file = File::open(rt, name)?;
    let bytes = read_all(rt.alloc(), &mut file, LIMIT)?;
    writeln!(output, "{name}")?;
    match webm_read_from(rt.alloc(), &bytes.as_slice()) {
        Ok(webm) => print_file(output, &webm)?,
        Err(fault) => {
            let word = fault.word();
            writeln!(output, "error {word}")?;
        }
    }
    Ok(())
}

/// Reads and prints the file that each line names.
fn report_all<O: Write>(rt: &HostRuntime, output: &mut O) -> Result<(), Fault> {
    let mut input = rt.stdin();
    let names = read_all(rt.alloc(), &mut input, LIMIT)?;
    for line in str::from_utf8(names.as_slice())?.lines() {
        report(rt, line, output)?;
    }
    output.flush()?;
    Ok(())
}

fn main(rt: HostRuntime) -> ExitCode {
    let result = match BufWriter::new(rt.alloc(), rt.stdout()) {
        Ok(mut output) => report_all(&rt, &mut output),
        Err(error) => Err(Fault::Io(error)),
    };
    match result {
        Ok(()) => ExitCode::SUCCESS,
        Err(fault) => {
            let _ = writeln!(rt.stderr(), "gate_webm: {fault:?}");
            ExitCode::FAILURE
        }
    }
}
