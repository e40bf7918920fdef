//! Makes each call of a packet list, a live run and a session that takes memory, also in worked lists of requests, and makes it again if memory is refused: it must
//! then answer as if it had not been made before.
//!
//! It prints the same with ample memory and with one refused request (`compare/growths.py`). That script also counts
//! the requests for memory between two lines, so each line is written when its call has returned.
#![tactic(auto)]

mod fault;
mod frames;
mod lists;
mod live;
mod rows;
mod sessions;

use fault::Fault;
use frame_session::Session;
use std::alloc::Global;
use std::io::Write;
use std::process::ExitCode;

/// Makes the calls of a session, and steps without one after the first of them.
fn run_session<O: Write>(
    alloc: Global,
    session: &mut Session,
    output: &mut O,
) -> Result<(), Fault> {
    sessions::decode(alloc, session, output)?;
    sessions::step_directly(alloc, output)?;
    sessions::insert_all(alloc, session, output)?;
    sessions::edit_frames(session, output)
}

/// Makes all calls.
fn make_all<O: Write>(alloc: Global, output: &mut O) -> Result<(), Fault> {
    lists::grow(alloc, output)?;
    live::run(alloc, output)?;
    let mut session = sessions::start(alloc)?;
    run_session(alloc, &mut session, output)?;
    rows::answer_all(alloc, output)
}

fn main(rt: HostRuntime) -> ExitCode {
    let mut output = rt.stdout();
    match make_all(rt.alloc(), &mut output) {
        Ok(()) => ExitCode::SUCCESS,
        Err(fault) => {
            let _ = writeln!(rt.stderr(), "gate_memory: {fault:?}");
            ExitCode::FAILURE
        }
    }
}
