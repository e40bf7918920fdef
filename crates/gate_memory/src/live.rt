//! A live run whose lines take memory: one for which it runs out is refused, and the next line is answered.

use crate::fault::Fault;
use frame_session::{Capacity, LiveFault, Settings, Unobserved, run_live_over};
use std::alloc::Global;
use std::io::{self, BufReader, Write};
use std::str;
use stream_files::EMPTY;
use vp8_tables::Tables;

/// Lines that change nothing, of which the third, fourth and fifth have no reply. They are read in parts of four bytes.
const LINES: &[u8] =
    b"use 0\ncount\n\n# a comment that is longer than a part\n    \r\n        use 0\nstats";

/// Their replies.
const REPLIES: &str = "ok 0\npackets 0 frames 0\nok 0\ndecoded 0\n";

/// Room for the replies: also if each is `refused NoMemory`.
const ROOM: usize = 128;

/// Answers the lines, in one attempt.
fn try_answer(alloc: Global, replies: &mut Vec<u8>) -> Result<(), LiveFault> {
    let mut requests = BufReader::with_capacity(alloc, 4, LINES).map_err(|_| LiveFault::NoMemory)?;
    let settings = Settings {
        tables: Tables::rfc(),
        capacity: Capacity::of_states(1),
    };
    run_live_over(
        alloc,
        settings,
        &[EMPTY.as_slice()],
        &mut requests,
        &mut io::sink(),
        replies,
        &mut Unobserved {},
    )?;
    Ok(())
}

/// Whether an error is out of memory.
fn is_refused(fault: LiveFault) -> bool {
    matches!(fault, LiveFault::NoMemory | LiveFault::Source { .. })
}

/// Whether these are the replies, of which one is `refused NoMemory`.
fn is_one_refused(replies: &str) -> bool {
    let mut refused = 0u8;
    let mut wanted = REPLIES.lines();
    for reply in replies.lines() {
        let want = wanted.next();
        if reply == "refused NoMemory" {
            refused = refused.saturating_add(1);
        } else if want != Some(reply) {
            return false;
        }
    }
    refused == 1 && wanted.next().is_none()
}

/// The replies to the lines, after a line that was refused was asked again.
fn answer(alloc: Global, replies: &mut Vec<u8>) -> Result<(), Fault> {
    match try_answer(alloc, replies) {
        Ok(()) => {}
        Err(fault) if is_refused(fault) => try_answer(alloc, replies)?,
        Err(fault) => return Err(Fault::Live(fault)),
    }
    if replies.as_slice() == REPLIES.as_bytes() {
        return Ok(());
    }
    if !is_one_refused(str::from_utf8(replies.as_slice()).unwrap_or("")) {
        return Err(Fault::Replies);
    }
    replies.clear();
    Ok(try_answer(alloc, replies)?)
}

/// An empty text with room for the replies.
fn room(alloc: Global) -> Result<Vec<u8>, Fault> {
    if let Ok(replies) = Vec::with_capacity(alloc, ROOM) {
        return Ok(replies);
    }
    Vec::with_capacity(alloc, ROOM).map_err(|_| Fault::NoMemory)
}

/// Answers the lines, and prints the replies.
pub fn run<O: Write>(alloc: Global, output: &mut O) -> Result<(), Fault> {
    let mut replies = room(alloc)?;
    answer(alloc, &mut replies)?;
    for reply in str::from_utf8(replies.as_slice()).unwrap_or("").lines() {
        writeln!(output, "a live line: {reply}")?;
    }
    Ok(())
}
