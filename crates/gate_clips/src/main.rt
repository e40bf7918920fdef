//! Serves every frame of the clips that standard input names, first in order and then in another
//! order, and prints for each how many frames it has and the MD5 of their samples in order. A line with
//! three names serves the three clips as the sources of one session, one after another.
//!
//! It must print what vpxdec printed for the same clips (`compare/gate_clips.py`).
#![tactic(auto)]

mod clips;
mod frame_texts;
mod spliced;

use clips::{Fault, report};
use spliced::report_spliced;
use std::fs::File;
use std::io::{BufWriter, Write};
use std::process::ExitCode;
use stream_files::read_all;

/// The most bytes that a clip, or the list of their names, may have.
const LIMIT: usize = 1_048_576;

/// The bytes of the file of this name.
fn read_file(rt: &HostRuntime, name: &str) -> Result<Vec<u8>, Fault> {
    let mut file = File::open(rt, name)?;
    Ok(read_all(rt.alloc(), &mut file, LIMIT)?)
}

/// Reports the clips that a line names, one or three.
fn report_line<O: Write>(rt: &HostRuntime, line: &str, output: &mut O) -> Result<(), Fault> {
    let mut names = line.split(' ');
    let (Some(first), Some(second), Some(third)) = (names.next(), names.next(), names.next()) else {
        return report(rt.alloc(), line, read_file(rt, line)?.as_slice(), output);
    };
    let first = read_file(rt, first)?;
    let second = read_file(rt, second)?;
    let third = read_file(rt, third)?;
    let clips = [first.as_slice(), second.as_slice(), third.as_slice()];
    report_spliced(rt.alloc(), line, clips, output)
}

/// Reports the clips of each line.
fn report_all<O: Write>(rt: &HostRuntime, output: &mut O) -> Result<(), Fault> {
    let mut input = rt.stdin();
    let names = read_all(rt.alloc(), &mut input, LIMIT)?;
    for line in str::from_utf8(names.as_slice())?.lines() {
        report_line(rt, line, output)?;
    }
    output.flush()?;
    Ok(())
}

fn main(rt: HostRuntime) -> ExitCode {
    let mut output = rt.stdout();
    match report_all(&rt, &mut output) {
        Ok(()) => ExitCode::SUCCESS,
        Err(fault) => {
            let _ = writeln!(rt.stderr(), "gate_clips: {fault:?}");
            ExitCode::FAILURE
        }
    }
}
