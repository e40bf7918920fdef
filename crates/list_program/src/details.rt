// The macroblocks of packets of a file, or their headers.
ghost use Rattle.std.specs.Prelude.{◌≤◌, IfErr, IfOk, OnOk};
ghost use Rattle.std.specs.Rc.{rc_slice_items};
ghost use Rattle.list_program.specs.Details.{IsAbsent, IsDetailFault, IsDetailed, IsWanted};

use crate::fault::Fault;
use macroblock_lists::{Form, ListFault, Wanted, What, write_list};
use std::alloc::Global;
use std::io::Write;
use std::rc::RcSlice;
use stream_sources::stream_share;
use vp8_tables::Tables;

/// What is asked for of which packets.
#[derive(Clone, Copy, Debug, PartialEq, Eq)]
pub struct Asked {
    /// Macroblocks, or headers.
    pub what: What,
    /// Lines, or JSON objects.
    pub form: Form,
    /// The index of the first packet.
    pub first: usize,
    /// The index of the last packet; `None` if it is the last of the stream.
    pub last: Option<usize>,
}

/// The packets that are asked for, in a stream of so many.
fn wanted_of(asked: Asked, count: usize) -> Result<Wanted, Fault<'static>>
    requires { count ≤ 1048576 }
    ensures wanted { IfOk result (IsWanted asked count) }
    ensures fault { IfErr result (IsAbsent asked count) }
{
    let Asked {
        what,
        form,
        first,
        last,
    } = asked;
    let end = match last {
        None if first > count => {
            return Err(Fault::NoPacket {
                packet: first,
                count,
            });
        }
        None => count,
        Some(last) if last >= count => {
            return Err(Fault::NoPacket {
                packet: last,
                count,
            });
        }
        Some(last) => last + 1,
    };
    let start = first.min(end);
    Ok(Wanted {
        what,
        form,
        first: start,
        count: end - start,
    })
}

/// Writes the macroblocks of packets of a file, or their headers, and flushes the writer.
///
/// `NoPacket` if the stream has no such packet: nothing is written then. `NoMemory` if memory runs out: the front of the
/// text was written, and is not flushed. `CannotWrite` if the writer returns an error.
pub fn details_to<O: Write>(
    alloc: Global,
    asked: Asked,
    tables: &Tables,
    bytes: &RcSlice<u8>,
    output: &mut O,
) -> Result<(), Fault<'static>>
    ensures detailed { OnOk result (IsDetailed asked tables.now (rc_slice_items bytes.now) (O.contents output.old) (O.contents output.new)) }
    ensures fault { IfErr result (IsDetailFault asked tables.now (rc_slice_items bytes.now) (O.contents output.old) (O.contents output.new)) }
{
    let file = match stream_share(alloc, bytes) {
        Ok(file) => file,
        Err(fault) => return Err(Fault::Input(fault)),
    };
    let packets = file.packets.as_slice();
    let wanted = wanted_of(asked, packets.len())?;
    match write_list(output, alloc, tables, wanted, packets) {
        Ok(()) => {}
        Err(ListFault::NoMemory) => return Err(Fault::NoMemory),
        Err(ListFault::Write) => return Err(Fault::CannotWrite),
    }
    let Ok(()) = output.flush() else {
        return Err(Fault::CannotWrite);
    };
    Ok(())
}
