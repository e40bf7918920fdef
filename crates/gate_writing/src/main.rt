//! Writes the IVF files that standard input names as WebM, and prints of each the bytes in hexadecimal or the error.
#![tactic(auto)]

ghost use Rattle.std.specs.Prelude.{◌<◌};

use frame_header::has_key_tag;
use pixel_planes::NoMemory;
use std::alloc::Global;
use std::fs::File;
use std::io::{self, BufWriter, Write};
use std::process::ExitCode;
use std::str::Utf8Error;
use stream_files::{Head, IvfFault, Packets, ReadFault, Stream, ivf_read, read_all};
use thiserror::Error;
use webm_writing::{Sample, fits, info_of, time_of, tracks_of, write_webm};

/// The most bytes that a file, or the list of their names, may have.
const LIMIT: usize = 1_073_741_824;

/// The nanoseconds of a unit of time, and the most units of a cluster.
const SCALE: u32 = 1_000_000;

const MOST: u64 = 5_000;

/// Why the files are not written.
#[derive(Debug, Drop, Error)]
enum Fault {
    #[error("input or output")]
    Io(#[from] io::Error),
    #[error("reading")]
    Read(#[from] ReadFault),
    #[error("names")]
    Names(#[from] Utf8Error),
    #[error("not an IVF file")]
    Ivf(#[from] IvfFault),
    #[error("out of memory")]
    NoMemory(#[from] NoMemory),
}

/// The samples of packets, or `None` if a time has more than 64 bits.
fn samples_of(alloc: Global, head: Head, packets: Packets) -> Result<Option<Vec<Sample>>, NoMemory>
    requires { 0 < head.rate }
{
    let mut samples = Vec::new(alloc);
    for packet in packets.into_vec() {
        let Some(stamp) = time_of(head, packet.stamp) else {
            return Ok(None);
        };
        samples.push(Sample {
            track: 1,
            stamp,
            is_key: has_key_tag(packet.bytes.as_slice()),
            bytes: packet.bytes,
        })?;
    }
    Ok(Some(samples))
}

/// Writes a file, or nothing if it cannot be written.
fn write_file<O: Write>(output: &mut O, alloc: Global, stream: Stream) -> Result<(), Fault> {
    let head = stream.head;
    if head.rate == 0 {
        return Ok(());
    }
    let Some(samples) = samples_of(alloc, head, stream.packets)? else {
        return Ok(());
    };
    let parts = [
        info_of(alloc, SCALE)?,
        tracks_of(alloc, head, head.frame_rate())?,
    ];
    if fits(&parts, MOST, samples.as_slice()) {
        write_webm(output, &parts, MOST, samples.as_slice())?;
    }
    Ok(())
}

/// Writes the file of this name, and prints what was written.
fn report<O: Write>(rt: &HostRuntime, name: &str, output: &mut O) -> Result<(), Fault> {
    let mut file = File::open(rt, name)?;
    let bytes = read_all(rt.alloc(), &mut file, LIMIT)?;
    let mut written = Vec::new(rt.alloc());
    writeln!(output, "{name}")?;
    write_file(
        &mut written,
        rt.alloc(),
        ivf_read(rt.alloc(), bytes.as_slice())?,
    )?;
    for row in written.as_slice().chunks(32) {
        for byte in row {
            write!(output, "{byte:02x}")?;
        }
        writeln!(output)?;
    }
    Ok(())
}

/// Writes the file that each line names.
fn report_all<O: Write>(rt: &HostRuntime, output: &mut O) -> Result<(), Fault> {
    let mut input = rt.stdin();
    let names = read_all(rt.alloc(), &mut input, LIMIT)?;
    for line in str::from_utf8(names.as_slice())?.lines() {
        report(rt, line, output)?;
    }
    output.flush()?;
    Ok(())
}

fn main(rt: HostRuntime) -> ExitCode {
    let result = match BufWriter::new(rt.alloc(), rt.stdout()) {
        Ok(mut output) => report_all(&rt, &mut output),
        Err(error) => Err(Fault::Io(error)),
    };
    match result {
        Ok(()) => ExitCode::SUCCESS,
        Err(fault) => {
            let _ = writeln!(rt.stderr(), "gate_writing: {fault:?}");
            ExitCode::FAILURE
        }
    }
}
