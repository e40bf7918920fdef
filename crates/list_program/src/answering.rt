// Everything that the program writes for the bytes of a file.
ghost use Rattle.std.specs.Prelude.{◌≡◌, ◌≤◌, [], IfErr, IfOk, OnOk};
ghost use Rattle.std.specs.Io.Buffered.{writer_buffer, writer_contents};
ghost use Rattle.std.specs.Rc.{rc_slice_items};
ghost use Rattle.list_program.specs.Answers.{IsAnswered, IsAnswerFault};

use crate::checking::{Checking, check_to};
use crate::details::{Asked, details_to};
use crate::fault::Fault;
use crate::hashing::hash_to;
use crate::listing::list_to;
use macroblock_lists::Form;
use std::alloc::Global;
use std::io::{BufWriter, Write};
use std::rc::RcSlice;
use stream_checks::Watch;
use vp8_tables::Tables;

/// What is written of a file.
#[derive(Clone, Copy, Debug, PartialEq, Eq)]
pub enum Output {
    /// A line or a JSON object for each packet.
    List(Form),
    /// The MD5 of each frame.
    Hashes,
    /// What is wrong with the stream.
    Findings(Checking),
    /// The macroblocks of packets, or their headers.
    Details(Asked),
}

/// A file that is answered for: its bytes, and the long tables by which it is decoded.
#[derive(Clone, Copy)]
pub struct InputFile<'a> {
    pub bytes: &'a RcSlice<u8>,
    pub tables: &'a Tables,
}

/// Writes an output of a file and returns the exit status.
fn write_output<O: Write, E: Write, G: Watch>(
    alloc: Global,
    output: Output,
    file: InputFile<'_>,
    w: &mut O,
    errors: &mut E,
    progress: &mut G,
) -> Result<u8, Fault<'static>>
    ensures answered { IfOk result (λ status. IsAnswered output file.entry.tables.now (rc_slice_items file.entry.bytes.now) status (O.contents w.old) (O.contents w.new)) }
    ensures fault { IfErr result (IsAnswerFault output file.entry.tables.now (rc_slice_items file.entry.bytes.now) (O.contents w.old) (O.contents w.new)) }
    ensures status { IfOk result (λ status. status ≤ 1) }
{
    let InputFile { bytes, tables } = file;
    match output {
        Output::List(form) => {
            list_to(alloc, form, bytes, w)?;
            Ok(0)
        }
        Output::Hashes => hash_to(alloc, tables, bytes, w, errors, progress),
        Output::Findings(checking) => check_to(alloc, checking, tables, bytes, w, progress),
        Output::Details(asked) => {
            details_to(alloc, asked, tables, bytes, w)?;
            Ok(0)
        }
    }
}

/// Writes an output of a file through a buffer, flushes it, and returns the exit status: 1
/// for damage that a check finds, for a note if it is strict, and for a packet without a frame in the
/// list of hashes; else 0. Lines that name such packets go to `errors`.
///
/// `Fault::Input` if the bytes are neither an IVF file nor a WebM or Matroska file with VP8, `Fault::NoPacket` if a packet that is asked for is not there: nothing is written then. `Fault::NoMemory` if memory
/// runs out: the begin of the output was written, and is not flushed. `Fault::CannotWrite` if the writer
/// returns an error.
pub fn answer_to<W: Write + Drop, E: Write, G: Watch>(
    alloc: Global,
    output: Output,
    file: InputFile<'_>,
    w: &mut BufWriter<W>,
    errors: &mut E,
    progress: &mut G,
) -> Result<u8, Fault<'static>>
    ensures answered { IfOk result (λ status. IsAnswered output file.entry.tables.now (rc_slice_items file.entry.bytes.now) status (writer_contents W.contents w.old) (writer_contents W.contents w.new)) }
    ensures flushed { OnOk result (writer_buffer w.new ≡ []) }
    ensures fault { IfErr result (IsAnswerFault output file.entry.tables.now (rc_slice_items file.entry.bytes.now) (writer_contents W.contents w.old) (writer_contents W.contents w.new)) }
    ensures status { IfOk result (λ status. status ≤ 1) }
{
    let status = write_output(alloc, output, file, w, errors, progress)?;
    let Ok(()) = w.flush() else {
        return Err(Fault::CannotWrite);
    };
    Ok(status)
}
