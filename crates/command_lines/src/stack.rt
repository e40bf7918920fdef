// The stack of a program.

use std::fs::File;
use std::io::Read;

/// A part of the stack.
const PART: usize = 16_384;

/// So many parts are more than any run needs.
const PARTS: u32 = 20;

/// Reads into a part of the stack, and into so many below it.
fn touch(nothing: &mut File, below: u32) -> usize {
    let mut part = [0u8; PART];
    let read = nothing.read(&mut part).unwrap_or(0);
    if below == 0 {
        return read;
    }
    touch(nothing, below - 1).max(read)
}

/// Touches the stack that a run needs, so that the system gives it before anything else is asked for. Under a limit on memory a stack that grows
/// later would end the program in place of an error that says so.
pub fn touch_stack(rt: &HostRuntime) {
    if let Ok(mut nothing) = File::open(rt, "/dev/null") {
        let _ = touch(&mut nothing, PARTS);
    }
}
