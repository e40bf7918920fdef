//! Worked requests that take memory: fades, scripts, key packets, edits after frames and forged packets.

use crate::fault::Fault;
use crate::sessions::{
    KEY, frame, insert, insert_blank, insert_hold, print_count, print_frame, set_script, start,
};
use frame_session::{Edit, Refusal, Session};
use std::alloc::Global;
use std::io::Write;

/// The number of packets of the stream.
const PACKETS: u64 = 4;

/// A session over so many packets of the stream, the first ones.
fn start_with(alloc: Global, count: u64) -> Result<Session, Fault> {
    let mut session = start(alloc)?;
    for _ in count..PACKETS {
        session.edit(Edit::Delete { at: count })?;
    }
    Ok(session)
}

/// Prints why a request was refused.
fn print_refusal<T: Drop, O: Write>(
    output: &mut O,
    name: &str,
    answer: Result<T, Refusal>,
) -> Result<(), Fault> {
    let word = match answer {
        Ok(_) => "not refused",
        Err(refusal) => refusal.word(),
    };
    writeln!(output, "{name}: {word}")?;
    Ok(())
}

/// Fades a key packet.
fn fade<O: Write>(session: &mut Session, output: &mut O) -> Result<(), Fault> {
    set_script(session, b"fade 0 0 1 128 128")?;
    print_frame(output, "a faded frame", session, 0)
}

/// Trims and splices a key packet and two others, and keeps the script after texts that are refused.
fn splice<O: Write>(session: &mut Session, output: &mut O) -> Result<(), Fault> {
    set_script(session, b"trim 0 1 2; splice 1 0")?;
    print_count(output, "a spliced script", session)?;
    print_frame(output, "its third frame", session, 2)?;
    print_refusal(
        output,
        "a node that is unknown",
        set_script(session, b"blur 0"),
    )?;
    print_refusal(output, "a later node", set_script(session, b"trim 1 0 1"))?;
    print_refusal(
        output,
        "an odd column",
        set_script(session, b"crop 0 1 0 4 4"),
    )?;
    print_frame(output, "its third frame again", session, 2)?;
    join_parts(session, output)
}

/// Serves parts of a key packet and two others, one after the other.
fn join_parts<O: Write>(session: &mut Session, output: &mut O) -> Result<(), Fault> {
    set_script(session, b"parts 0 1 2 0 0 2")?;
    print_count(output, "a script of parts", session)?;
    print_frame(output, "its third frame", session, 2)
}

/// Inserts a key packet after frames were decoded.
fn insert_key<O: Write>(alloc: Global, session: &mut Session, output: &mut O) -> Result<(), Fault> {
    print_frame(output, "frame 2", session, 2)?;
    insert(alloc, session, 1, KEY)?;
    print_count(output, "a key packet inserted", session)?;
    print_frame(output, "frame 3 after it", session, 3)
}

/// Deletes and moves packets after frames were decoded.
fn rearrange<O: Write>(session: &mut Session, output: &mut O) -> Result<(), Fault> {
    print_frame(output, "frame 3 of four", session, 3)?;
    session.edit(Edit::Delete { at: 1 })?;
    print_frame(output, "frame 2 after a deletion", session, 2)?;
    session.edit(Edit::Move { from: 1, to: 2 })?;
    print_frame(output, "frame 2 after a move", session, 2)?;
    session.edit(Edit::Move { from: 0, to: 2 })?;
    print_refusal(output, "frame 0 without a key frame", frame(session, 0))?;
    print_frame(output, "frame 2, the key packet", session, 2)
}

/// Forges packets where there are none.
fn forge<O: Write>(session: &mut Session, output: &mut O) -> Result<(), Fault> {
    insert_blank(session, 0)?;
    insert_hold(session, 1)?;
    print_count(output, "two forged packets", session)?;
    print_frame(output, "the repeat", session, 1)?;
    let deleted = session.edit(Edit::Delete { at: 5 });
    print_refusal(output, "a packet that is not there", deleted)?;
    print_refusal(output, "a frame that is not there", frame(session, 9))?;
    print_refusal(output, "a repeat of nothing", insert_hold(session, 0))
}

/// Answers all requests, each list over a session of its own.
pub fn answer_all<O: Write>(alloc: Global, output: &mut O) -> Result<(), Fault> {
    fade(&mut start_with(alloc, 1)?, output)?;
    splice(&mut start_with(alloc, 3)?, output)?;
    insert_key(alloc, &mut start_with(alloc, 3)?, output)?;
    rearrange(&mut start_with(alloc, 4)?, output)?;
    forge(&mut start_with(alloc, 0)?, output)
}
