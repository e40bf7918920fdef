// The MD5 of each frame of a file.
ghost use Rattle.std.specs.Prelude.{◌≡◌, ◌≤◌, IfErr, IfOk};
ghost use Rattle.std.specs.Rc.{rc_slice_items};
ghost use Rattle.list_program.specs.HashedFiles.{IsFileHashed, IsFileHashFault, hash_status};

use crate::fault::Fault;
use std::alloc::Global;
use std::io::Write;
use std::rc::RcSlice;
use stream_checks::{HashFault, Watch, write_hashes};
use stream_facts::{has_refused, write_refusals};
use stream_sources::stream_share;
use vp8_tables::Tables;

fn hash_status(is_refused: bool) -> u8
    ensures value { result ≡ hash_status is_refused }
    ensures few { result ≤ 1 }
{
    if is_refused { 1 } else { 0 }
}

/// Writes the MD5 of each frame of a file, flushes the writer, and returns the exit status: 1 if a
/// packet is refused, else 0. A line for each such packet goes to `errors`; if it refuses the text, only
/// the status reports them.
pub fn hash_to<O: Write, E: Write, G: Watch>(
    alloc: Global,
    tables: &Tables,
    bytes: &RcSlice<u8>,
    output: &mut O,
    errors: &mut E,
    progress: &mut G,
) -> Result<u8, Fault<'static>>
    ensures hashed { IfOk result (λ status. IsFileHashed tables.now (rc_slice_items bytes.now) status (O.contents output.old) (O.contents output.new)) }
    ensures fault { IfErr result (IsFileHashFault tables.now (rc_slice_items bytes.now) (O.contents output.old) (O.contents output.new)) }
    ensures status { IfOk result (λ status. status ≤ 1) }
{
    let file = match stream_share(alloc, bytes) {
        Ok(file) => file,
        Err(fault) => return Err(Fault::Input(fault)),
    };
    match write_hashes(output, alloc, tables, &file, progress) {
        Ok(()) => {}
        Err(HashFault::NoMemory) => return Err(Fault::NoMemory),
        Err(HashFault::Write) => return Err(Fault::CannotWrite),
    }
    let Ok(()) = output.flush() else {
        return Err(Fault::CannotWrite);
    };
    let packets = file.packets.as_slice();
    let _ = write_refusals(errors, packets);
    Ok(hash_status(has_refused(packets)))
}
