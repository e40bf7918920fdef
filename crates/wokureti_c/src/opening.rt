//! A session over the bytes of files.
ghost use Rattle.std.specs.Prelude.{◌≡◌, ◌≤◌, IfErr, IfOk, IfSome, None, Some, [], Err, false, length, map};
ghost use Rattle.std.specs.List.{All};
ghost use Rattle.vp8_tables.specs.Tables.{TableEntries, entries_of};
ghost use Rattle.frame_session.specs.Answers.{Means, texts_of};
ghost use Rattle.frame_session.specs.Cached.{begun};
ghost use Rattle.wokureti_c.specs.Openings.{AreHeads, AreTables, OpenRefuses, Reports, are_ends_from, files_in};

use crate::frames::Fault;
use crate::statuses::{ARGUMENT, FILE, MEMORY, TABLES, number_of_file_fault};
use arrayvec::ArrayVec;
use frame_session::{Capacity, RunFault, Session, read_sources};
use std::alloc::Global;
use stream_files::{Head, Stream};
use stream_sources::StreamFault;
use vp8_tables::{TableFault, Tables};

/// A session, and the head of the file of each source.
#[derive(Drop)]
pub struct Opened {
    pub session: Session,
    pub heads: Vec<Head>,
}

/// Why no session is opened.
#[derive(Clone, Copy)]
pub enum OpenFault {
    /// A number is outside its range.
    Argument,
    /// The tables do not have 3,012 bytes.
    Tables,
    /// The bytes of a source are not a stream, or there is no memory for its packets.
    File { source: usize, fault: StreamFault },
    /// Out of memory.
    Memory,
}

impl OpenFault {
    /// The number of the error. The source of a file and the number of its error are reported.
    pub fn report(self, reported: &mut Fault) -> u32
        ensures { Reports self result reported.new }
    {
        match self {
            OpenFault::Argument => ARGUMENT,
            OpenFault::Tables => TABLES,
            OpenFault::Memory => MEMORY,
            OpenFault::File { source, fault } => {
                reported.source = source as u64;
                reported.cause = number_of_file_fault(fault);
                FILE
            }
        }
    }
}

/// The tables that these bytes are; no bytes are the tables of RFC 6386.
fn tables_of(bytes: &[u8]) -> Result<Tables, TableFault>
    ensures tables { IfOk result (AreTables bytes.now) }
    ensures refused { IfErr result (λ fault. entries_of bytes.now ≡ Err fault) }
{
    if bytes.is_empty() {
        return Ok(Tables::rfc());
    }
    Tables::read(bytes)
}

/// The files that lie one after the other in these bytes. `None` if an end is before the one before it or past the
/// end of the bytes.
fn files_in<'a>(bytes: &'a [u8], ends: &[usize]) -> Option<ArrayVec<&'a [u8], 8>>
    requires { length ends.now ≤ 8 }
    ensures files { IfSome result (λ files. texts_of files.items ≡ files_in bytes.now ends.now) }
    ensures count { IfSome result (λ files. length files.items ≡ length ends.now) }
    ensures refused { result ≡ None → are_ends_from 0 bytes.now ends.now ≡ false }
{
    let mut files = ArrayVec::new();
    let mut start = 0;
    for end in ends {
        if *end < start || *end > bytes.len() {
            return None;
        }
        files.push(&bytes[start..*end]);
        start = *end;
    }
    Some(files)
}

/// The heads of streams, if there is memory for them.
fn heads_of(alloc: Global, streams: &[Stream]) -> Option<Vec<Head>>
    ensures { IfSome result (λ heads. heads.items ≡ map (λ stream. stream.head) streams.now) }
{
    let mut heads = Vec::new(alloc);
    for stream in streams {
        let Ok(()) = heads.push(stream.head) else {
            return None;
        };
    }
    Some(heads)
}

/// A session over streams, with no request answered, and their heads.
fn open_streams(
    alloc: Global,
    tables: Tables,
    capacity: Capacity,
    streams: Vec<Stream>,
) -> Result<Opened, OpenFault>
    requires capacity { (1 ≤ capacity.states) × (capacity.states ≤ 4096) }
    requires count { (1 ≤ length streams.items) × (length streams.items ≤ 8) }
    requires few { All (λ stream. length stream.packets ≤ 1048576) streams.items }
    ensures session { IfOk result (λ opened. opened.session ≡ begun tables capacity streams.items) }
    ensures heads { IfOk result (λ opened. opened.heads.items ≡ map (λ stream. stream.head) streams.items) }
    ensures refused { IfErr result (λ fault. fault ≡ OpenFault.Memory) }
{
    let Some(heads) = heads_of(alloc, &streams) else {
        return Err(OpenFault::Memory);
    };
    match Session::within(alloc, tables, capacity, streams) {
        Ok(session) => Ok(Opened { session, heads }),
        Err(_) => Err(OpenFault::Memory),
    }
}

/// A session over files that lie one after the other, with no request answered.
pub fn open(
    alloc: Global,
    bytes: &[u8],
    ends: &[usize],
    capacity: Capacity,
    tables: &[u8],
) -> Result<Opened, OpenFault>
    ensures opened { IfOk result (λ opened. (entries : TableEntries) × AreTables tables.now entries × Means entries (files_in bytes.now ends.now) [] None None None None opened.session.state) }
    ensures capacity { IfOk result (λ opened. opened.session.cache.capacity ≡ capacity) }
    ensures heads { IfOk result (λ opened. AreHeads (files_in bytes.now ends.now) opened.heads.items) }
    ensures refused { IfErr result (OpenRefuses bytes.now ends.now capacity.states tables.now) }
{
    if ends.is_empty() || ends.len() > 8 || capacity.states == 0 || capacity.states > 4096 {
        return Err(OpenFault::Argument);
    }
    let tables = tables_of(tables).map_err(|_| OpenFault::Tables)?;
    let Some(files) = files_in(bytes, ends) else {
        return Err(OpenFault::Argument);
    };
    let streams = match read_sources(alloc, files.as_slice()) {
        Ok(streams) => streams,
        Err(RunFault::Source { source, fault }) => return Err(OpenFault::File { source, fault }),
        Err(_) => return Err(OpenFault::Memory),
    };
    open_streams(alloc, tables, capacity, streams)
}
