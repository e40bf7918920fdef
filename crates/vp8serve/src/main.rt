//! Serves the frames of VP8 streams: IVF files and a list of requests in, a YUV4MPEG2 text and
//! replies out.
#![tactic(auto)]

use command_lines::{MessageWriter, exit_status, given, touch_stack};
use serve_program::{Fault, name_explain, name_help, parse, serve};
use std::fs::File;
use std::io::{BufWriter, IsTerminal, Write};
use std::os::fd::AsRawFd;
use std::process::ExitCode;

/// Takes the number of a standard descriptor that the caller closed, if there is one: a file that is opened later would get it, and replies
/// or messages would be among its bytes.
fn standard_file(rt: &HostRuntime) -> Option<File> {
    match File::open(rt, "/dev/null") {
        Ok(file) if file.as_raw_fd() <= 2 => Some(file),
        _ => None,
    }
}

/// Runs the program on its arguments. A user at a terminal is told of `--explain` after an error, and how to begin if there are no arguments.
fn start<E: Write>(
    rt: &HostRuntime,
    errors: &mut E,
    is_terminal: bool,
) -> Result<u8, Fault<'static>> {
    let words = given(rt)?;
    if rt.stdin().is_terminal() {
        let _ = name_help(words.as_slice(), errors);
    }
    let mut output = BufWriter::new(rt.alloc(), rt.stdout()).map_err(|_| Fault::NoMemory)?;
    let mut input = rt.stdin();
    let parsed = parse(rt.alloc(), words.as_slice());
    let status = serve(
        rt,
        words.as_slice(),
        parsed,
        &mut input,
        &mut output,
        errors,
    );
    if is_terminal {
        let _ = name_explain(words.as_slice(), status, errors);
    }
    Ok(status)
}

fn main(rt: HostRuntime) -> ExitCode {
    touch_stack(&rt);
    let _standard = (standard_file(&rt), standard_file(&rt), standard_file(&rt));
    let is_terminal = rt.stderr().is_terminal();
    let mut errors = MessageWriter::new(rt.stderr());
    let ended = start(&rt, &mut errors, is_terminal);
    ExitCode::from(exit_status(ended, &mut errors))
}
