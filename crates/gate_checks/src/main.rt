//! Checks the streams that standard input names, and prints for each its name and its findings.
#![tactic(auto)]

use std::fs::File;
use std::io::{self, Write};
use std::process::ExitCode;
use std::str::Utf8Error;
use stream_checks::{CheckFault, CheckedFile, Form, Unwatched, check};
use stream_files::{ReadFault, read_all};
use stream_sources::{StreamFault, source_read_from};
use thiserror::Error;
use vp8_tables::Tables;

/// The most bytes that a stream, or the list of their names, may have.
const LIMIT: usize = 1_048_576;

/// Why the streams are not checked.
#[derive(Debug, Drop, Error)]
enum Fault {
    #[error("input or output")]
    Io(#[from] io::Error),
    #[error("reading")]
    Read(#[from] ReadFault),
    #[error("names")]
    Names(#[from] Utf8Error),
    #[error("not a stream")]
    Stream(#[from] StreamFault),
    #[error("check")]
    Check(#[from] CheckFault),
}

/// Checks the stream of this name.
fn report<O: Write>(rt: &HostRuntime, name: &str, output: &mut O) -> Result<(), Fault> {
    let mut file = File::open(rt, name)?;
    let bytes = read_all(rt.alloc(), &mut file, LIMIT)?;
    let source = source_read_from(rt.alloc(), &bytes.as_slice())?;
    writeln!(output, "{name}")?;
    let tally = check(
        output,
        rt.alloc(),
        Form::Lines,
        &Tables::rfc(),
        CheckedFile {
            bytes: bytes.as_slice(),
            source: &source,
        },
        &mut Unwatched,
    )?;
    let damage = tally.damage;
    let notes = tally.notes;
    writeln!(output, "returned {damage} {notes}")?;
    Ok(())
}

/// Checks the stream that each line names.
fn report_all<O: Write>(rt: &HostRuntime, output: &mut O) -> Result<(), Fault> {
    let mut input = rt.stdin();
    let names = read_all(rt.alloc(), &mut input, LIMIT)?;
    for line in str::from_utf8(names.as_slice())?.lines() {
        report(rt, line, output)?;
    }
    output.flush()?;
    Ok(())
}

fn main(rt: HostRuntime) -> ExitCode {
    let mut output = rt.stdout();
    match report_all(&rt, &mut output) {
        Ok(()) => ExitCode::SUCCESS,
        Err(fault) => {
            let _ = writeln!(rt.stderr(), "gate_checks: {fault:?}");
            ExitCode::FAILURE
        }
    }
}
