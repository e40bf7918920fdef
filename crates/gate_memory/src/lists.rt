//! The calls of a packet list that take memory.
ghost use Rattle.std.specs.Prelude.{◌≤◌, IfOk, length};

use crate::fault::Fault;
use packet_edits::{EditFault, Store};
use packet_times::Duration;
use std::alloc::Global;
use std::io::Write;
use stream_files::{Bytes, IvfFault, Stream, ivf_read};

/// A packet with no key tag, whose picture is 128 throughout after any packet of 16x16 samples.
pub const INTER: &[u8] = &[0x11, 0, 0];

/// An IVF file of a key packet of 16x16 samples and three times `INTER`.
const STREAM: [u8; 99] = [
    b'D', b'K', b'I', b'F', 0, 0, 32, 0, b'V', b'P', b'8', b'0', 16, 0, 16, 0, 30, 0, 0, 0, 1, 0,
    0, 0, 4, 0, 0, 0, 0, 0, 0, 0, //
    10, 0, 0, 0, 0, 0, 0, 0, 0, 0, 0, 0, //
    0x10, 0, 0, 0x9D, 0x01, 0x2A, 16, 0, 16, 0, //
    3, 0, 0, 0, 1, 0, 0, 0, 0, 0, 0, 0, 0x11, 0, 0, //
    3, 0, 0, 0, 2, 0, 0, 0, 0, 0, 0, 0, 0x11, 0, 0, //
    3, 0, 0, 0, 3, 0, 0, 0, 0, 0, 0, 0, 0x11, 0, 0,
];

/// A frame of 30 a second.
const USUAL: Duration = Duration {
    units: 1,
    rate: 30,
    scale: 1,
};

/// The packets of an IVF file, in one attempt.
fn try_read(alloc: Global, bytes: &[u8]) -> Result<Stream, IvfFault>
    ensures few { IfOk result (λ file. length file.packets ≤ 1048576) }
{
    ivf_read(alloc, bytes)
}

/// The packets of an IVF file.
fn read(alloc: Global, bytes: &[u8]) -> Result<Stream, IvfFault>
    ensures few { IfOk result (λ file. length file.packets ≤ 1048576) }
{
    match try_read(alloc, bytes) {
        Err(IvfFault::NoMemory) => try_read(alloc, bytes),
        read => read,
    }
}

/// The packets of the stream.
pub fn stream(alloc: Global) -> Result<Stream, IvfFault>
    ensures few { IfOk result (λ file. length file.packets ≤ 1048576) }
{
    read(alloc, &STREAM)
}

/// A copy of some bytes.
pub fn copied(alloc: Global, bytes: &[u8]) -> Result<Bytes, Fault> {
    if let Ok(copy) = Bytes::from_slice(alloc, bytes) {
        return Ok(copy);
    }
    Bytes::from_slice(alloc, bytes).map_err(|_| Fault::NoMemory)
}

/// Appends the packets of the stream.
fn push_all(alloc: Global, list: &mut Store) -> Result<(), Fault> {
    match list.push_all(stream(alloc)?.packets) {
        Err(EditFault::NoMemory) => Ok(list.push_all(stream(alloc)?.packets)?),
        pushed => Ok(pushed?),
    }
}

/// Inserts a packet.
fn insert(alloc: Global, list: &mut Store, at: u64) -> Result<(), Fault> {
    match list.insert(at, 7, copied(alloc, INTER)?) {
        Err(EditFault::NoMemory) => Ok(list.insert(at, 7, copied(alloc, INTER)?)?),
        inserted => Ok(inserted?),
    }
}

/// Prints the ids of a list, with a star after those that are marked, and the number of frames.
fn print<O: Write>(output: &mut O, name: &str, list: &Store) -> Result<(), Fault> {
    write!(output, "{name}:")?;
    for i in 0..list.len() {
        let mark = if list.marked(i) { "*" } else { "" };
        write!(output, " {}{mark}", list.id(i))?;
    }
    writeln!(output, ", {} frames", list.frames())?;
    Ok(())
}

/// Appends the packets of the stream twice.
fn append<O: Write>(alloc: Global, list: &mut Store, output: &mut O) -> Result<(), Fault> {
    for _ in 0..2 {
        push_all(alloc, list)?;
        print(output, "packets appended", list)?;
    }
    Ok(())
}

/// Inserts packets.
fn insert_each<O: Write>(alloc: Global, list: &mut Store, output: &mut O) -> Result<(), Fault> {
    for at in [0, 4, 10] {
        insert(alloc, list, at)?;
        print(output, "a packet inserted", list)?;
    }
    Ok(())
}

/// Replaces a packet.
fn replace<O: Write>(alloc: Global, list: &mut Store, output: &mut O) -> Result<(), Fault> {
    list.replace(1, copied(alloc, INTER)?)?;
    print(output, "a packet replaced", list)
}

/// Makes the calls of a packet list.
fn grow_list<O: Write>(alloc: Global, list: &mut Store, output: &mut O) -> Result<(), Fault> {
    append(alloc, list, output)?;
    insert_each(alloc, list, output)?;
    replace(alloc, list, output)
}

/// Makes the calls of a packet list, and prints the list after each.
pub fn grow<O: Write>(alloc: Global, output: &mut O) -> Result<(), Fault> {
    let mut list = Store::starting(alloc, 0, USUAL);
    grow_list(alloc, &mut list, output)
}
