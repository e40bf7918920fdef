//! The calls of a session that take memory.

use crate::fault::Fault;
use crate::frames;
use crate::lists::{INTER, copied, stream};
use frame_session::{Edit, Refusal, Session};
use pixel_planes::{NoMemory, Picture};
use reference_frames::{State, StepFault, step};
use std::alloc::Global;
use std::io::Write;
use vp8_tables::Tables;

/// The most cached states of the session.
const CAPACITY: u16 = 8;

/// A key packet of 16x16 samples.
pub const KEY: &[u8] = &[0x10, 0, 0, 0x9D, 0x01, 0x2A, 16, 0, 16, 0];

/// A session over the stream, in one attempt.
fn try_start(alloc: Global) -> Result<Result<Session, NoMemory>, Fault> {
    let file = stream(alloc)?;
    let Ok(files) = vec![in alloc; file] else {
        return Ok(Err(NoMemory));
    };
    Ok(Session::new(alloc, Tables::rfc(), CAPACITY, files))
}

/// A session over the stream.
pub fn start(alloc: Global) -> Result<Session, Fault> {
    if let Ok(session) = try_start(alloc)? {
        return Ok(session);
    }
    try_start(alloc)?.map_err(|_| Fault::NoMemory)
}

/// Frame `n`.
pub fn frame(session: &mut Session, n: u64) -> Result<Picture, Refusal> {
    match session.frame(n) {
        Err(Refusal::NoMemory) => session.frame(n),
        served => served,
    }
}

/// The state after a packet, and its picture.
fn step_over(
    alloc: Global,
    tables: &Tables,
    state: Option<&State>,
    packet: &[u8],
) -> Result<(State, Picture), StepFault> {
    match step(alloc, tables, state, packet) {
        Err(StepFault::NoMemory) => step(alloc, tables, state, packet),
        answer => answer,
    }
}

/// The state after the key packet, and its picture.
fn key_state(alloc: Global) -> Result<(State, Picture), StepFault> {
    step_over(alloc, &Tables::rfc(), None, KEY)
}

/// The state after a packet with no key tag, and its picture.
fn stepped(alloc: Global, state: &State) -> Result<(State, Picture), StepFault> {
    step_over(alloc, &Tables::rfc(), Some(state), INTER)
}

/// Prints the number of packets and of frames.
pub fn print_count<O: Write>(output: &mut O, name: &str, session: &Session) -> Result<(), Fault> {
    let (packets, frames) = session.count();
    writeln!(output, "{name}: {packets} packets, {frames} frames")?;
    Ok(())
}

/// Prints a frame.
pub fn print_frame<O: Write>(
    output: &mut O,
    name: &str,
    session: &mut Session,
    n: u64,
) -> Result<(), Fault> {
    let picture = frame(session, n)?;
    frames::print(output, name, &picture)
}

/// The picture of the last of three packets after a state.
fn third_picture(alloc: Global, state: &State) -> Result<Picture, StepFault> {
    let (first, _) = stepped(alloc, state)?;
    let (second, _) = stepped(alloc, &first)?;
    let (_, picture) = stepped(alloc, &second)?;
    Ok(picture)
}

/// Makes three steps from a state.
fn step_from<O: Write>(alloc: Global, state: &State, output: &mut O) -> Result<(), Fault> {
    let picture = third_picture(alloc, state)?;
    frames::print(output, "three steps from its state", &picture)
}

/// Makes the steps of the stream without a session.
pub fn step_directly<O: Write>(alloc: Global, output: &mut O) -> Result<(), Fault> {
    let (state, picture) = key_state(alloc)?;
    frames::print(output, "the key packet", &picture)?;
    step_from(alloc, &state, output)
}

/// Decodes a frame, reads it from the cache, and decodes it again after a replacement.
pub fn decode<O: Write>(alloc: Global, session: &mut Session, output: &mut O) -> Result<(), Fault> {
    print_count(output, "a session", session)?;
    print_frame(output, "frame 3", session, 3)?;
    print_frame(output, "frame 3 again", session, 3)?;
    let bytes = copied(alloc, INTER)?;
    session.edit(Edit::Replace { at: 1, bytes })?;
    print_count(output, "packet 1 replaced", session)?;
    print_frame(output, "frame 3 after that", session, 3)
}

/// Inserts a packet of these bytes.
pub fn insert(alloc: Global, session: &mut Session, at: u64, packet: &[u8]) -> Result<u64, Fault> {
    let edit = || -> Result<Edit, Fault> {
        Ok(Edit::Insert {
            at,
            stamp: 9,
            bytes: copied(alloc, packet)?,
        })
    };
    match session.edit(edit()?) {
        Err(Refusal::NoMemory) => Ok(session.edit(edit()?)?),
        inserted => Ok(inserted?),
    }
}

/// Inserts a grey key frame.
pub fn insert_blank(session: &mut Session, at: u64) -> Result<u64, Refusal> {
    let (width, height) = (16, 16);
    match session.edit(Edit::Blank { at, width, height }) {
        Err(Refusal::NoMemory) => session.edit(Edit::Blank { at, width, height }),
        inserted => inserted,
    }
}

/// Inserts a packet that repeats the picture.
pub fn insert_hold(session: &mut Session, at: u64) -> Result<u64, Refusal> {
    match session.edit(Edit::Hold { at }) {
        Err(Refusal::NoMemory) => session.edit(Edit::Hold { at }),
        inserted => inserted,
    }
}

/// Sets a show bit, or clears it.
fn set_show_bit(session: &mut Session, at: u64, shown: bool) -> Result<u64, Refusal> {
    match session.edit(Edit::ShowBit { at, shown }) {
        Err(Refusal::NoMemory) => session.edit(Edit::ShowBit { at, shown }),
        set => set,
    }
}

/// Inserts a packet and two forged ones, and hides one.
pub fn insert_all<O: Write>(
    alloc: Global,
    session: &mut Session,
    output: &mut O,
) -> Result<(), Fault> {
    insert(alloc, session, 4, &[])?;
    print_count(output, "a dropped frame inserted", session)?;
    print_frame(output, "frame 4", session, 4)?;
    insert_blank(session, 5)?;
    print_count(output, "a blank frame inserted", session)?;
    insert_hold(session, 6)?;
    print_count(output, "a repeat inserted", session)?;
    print_frame(output, "frame 6", session, 6)?;
    set_show_bit(session, 1, false)?;
    print_count(output, "a packet hidden", session)?;
    print_frame(output, "frame 5", session, 5)?;
    set_show_bit(session, 1, true)?;
    print_count(output, "a packet shown", session)
}

/// Sets a script.
pub fn set_script(session: &mut Session, text: &[u8]) -> Result<u64, Refusal> {
    match session.set_script(text) {
        Err(Refusal::NoMemory) => session.set_script(text),
        set => set,
    }
}

/// Sets a script, and serves frames of it.
pub fn edit_frames<O: Write>(session: &mut Session, output: &mut O) -> Result<(), Fault> {
    set_script(session, b"trim 0 0 4; fade 1 1 2 256 64; splice 2 0")?;
    print_count(output, "a script", session)?;
    for n in [1, 3, 4] {
        print_frame(output, "a frame of the script", session, n)?;
    }
    set_script(session, b"crop 0 2 4 8 6")?;
    print_count(output, "another script", session)
}
