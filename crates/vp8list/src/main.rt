//! Lists the packets of a VP8 stream: an IVF file in, a line a packet out.
#![tactic(auto)]

use command_lines::{MessageWriter, exit_status, given, touch_stack};
use list_program::{BYTES_AT_ONCE, Fault, ProgressLine, answer, parse};
use std::io::{BufWriter, Write};
use std::process::ExitCode;

/// Runs the program on its arguments.
fn start<E: Write>(rt: &HostRuntime, errors: &mut E) -> Result<u8, Fault<'static>> {
    let words = given(rt)?;
    let mut output = BufWriter::with_capacity(rt.alloc(), BYTES_AT_ONCE, rt.stdout()).map_err(
        |_| Fault::NoMemory,
    )?;
    let mut progress = ProgressLine::new(rt, rt.stderr());
    let parsed = parse(rt.alloc(), words.as_slice());
    Ok(answer(
        rt,
        parsed,
        &mut rt.stdin(),
        &mut output,
        errors,
        &mut progress,
    ))
}

fn main(rt: HostRuntime) -> ExitCode {
    touch_stack(&rt);
    let mut errors = MessageWriter::new(rt.stderr());
    let ended = start(&rt, &mut errors);
    ExitCode::from(exit_status(ended, &mut errors))
}
