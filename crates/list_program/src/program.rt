// The program over two writers.
ghost use Rattle.std.specs.Prelude.{◌≡◌, ◌≤◌, [], IfErr, IfOk};
ghost use Rattle.std.specs.Io.Buffered.{writer_buffer, writer_contents};
ghost use Rattle.std.specs.Io.KnownBytes.{Keeps};
ghost use Rattle.list_program.specs.Done.{IsEnded, IsExitStatus, IsRead, IsStatus, IsUnparsedStatus, IsUnread};

use crate::answering::{InputFile, answer_to};
use crate::arguments::Arguments;
use crate::fault::Fault;
use command_lines::{
    FileFault, NamedFiles, format_of, help_or_mistake, read_input, read_tables, tell, write_format,
    write_webm_fault,
};
use std::io::{BufWriter, Read, Write};
use std::rc::RcSlice;
use stream_checks::Watch;
use stream_sources::StreamFault;
use vp8_tables::Tables;
use webm_files::is_marked;

/// The number of bytes of the list that are buffered.
pub const BYTES_AT_ONCE: usize = 65_536;

/// Shows why the bytes of a file are not a stream: for a WebM file what is missing, for a file of another format the command that
/// converts it. Returns the exit status.
fn tell_input<E: Write>(path: &str, bytes: &[u8], fault: StreamFault, errors: &mut E) -> u8
    ensures { result ≡ 2 }
{
    let status = tell(Fault::Input(fault), errors);
    if is_marked(bytes) {
        let _ = write_webm_fault(errors, path, bytes, fault);
    } else if let Some(format) = format_of(bytes) {
        let _ = write_format(errors, path, format);
    }
    status
}

/// What is read for a command line.
#[derive(Drop)]
struct FilesRead {
    tables: Tables,
    /// The bytes of IN.
    bytes: Vec<u8>,
}

/// Reads the files of a command line: the tables, then IN.
#[tactic(auto, using(crate::proofs::Ended::tables_unread, crate::proofs::Ended::input_unread))]
fn read_given<'a, R: NamedFiles + AllocGlobal, I: Read>(
    rt: &R,
    given: Arguments<'a>,
    input: &mut I,
) -> Result<FilesRead, FileFault<'a>>
    ensures read { IfOk result (λ read. IsRead (R.bytes_at rt.now) given.entry (I.remaining input.old) (I.remaining input.new) read.tables read.bytes.items) }
    ensures fault { IfErr result (IsUnread (R.bytes_at rt.now) given.entry (I.remaining input.old) (I.remaining input.new)) }
{
    let tables = read_tables(rt, given.tables)?;
    let bytes = read_input(rt, given.stream, input)?;
    Ok(FilesRead { tables, bytes })
}

/// Writes what the arguments ask for, and returns the exit status, which is 2 if the bytes are not a stream.
#[tactic(auto, using(crate::proofs::Ended::unread, crate::proofs::Ended::unheld, crate::proofs::Ended::answered, crate::proofs::Ended::unanswered, crate::proofs::Ended::no_stream))]
fn answer_given<'a, R: NamedFiles + AllocGlobal, I: Read, O: Write + Drop, E: Write, G: Watch>(
    rt: &R,
    given: Arguments<'a>,
    input: &mut I,
    output: &mut BufWriter<O>,
    errors: &mut E,
    progress: &mut G,
) -> Result<u8, Fault<'a>>
    ensures status { IfOk result (IsStatus (R.bytes_at rt.now) given.entry (I.remaining input.old) (I.remaining input.new) (writer_contents O.contents output.old) (writer_contents O.contents output.new)) }
    ensures range { IfOk result (λ status. status ≤ 2) }
    ensures flushed { IfOk result (λ status. status ≤ 1 → writer_buffer output.new ≡ []) }
    ensures ended { IfErr result (IsEnded (R.bytes_at rt.now) given.entry (I.remaining input.old) (I.remaining input.new) (writer_contents O.contents output.old) (writer_contents O.contents output.new)) }
{
    let Some(kind) = given.output else {
        return Err(Fault::CommandLine);
    };
    let FilesRead { tables, bytes } = match read_given(rt, given, input) {
        Ok(read) => read,
        Err(fault) => return Err(Fault::from(fault)),
    };
    let Ok(bytes) = RcSlice::from_vec(bytes) else {
        return Err(Fault::NoMemory);
    };
    let file = InputFile {
        bytes: &bytes,
        tables: &tables,
    };
    match answer_to(rt.alloc(), kind, file, output, errors, progress) {
        Ok(status) => Ok(status),
        Err(Fault::Input(fault)) => {
            Ok(tell_input(given.stream, bytes.as_slice(), fault, errors))
        }
        Err(fault) => Err(fault),
    }
}

/// Ends a command line that was not done: what was written is flushed, and the error is shown. Returns the exit status.
fn end_badly<O: Write + Drop, E: Write>(
    fault: Fault<'_>,
    output: &mut BufWriter<O>,
    errors: &mut E,
) -> u8
    ensures status { result ≡ 2 }
    ensures kept { Keeps (writer_contents O.contents output.old) (writer_contents O.contents output.new) }
{
    // Findings that were written before memory ran out.
    let _ = output.flush();
    tell(fault, errors)
}

/// Answers arguments that could not be parsed, and returns the exit status.
#[tactic(auto, using(crate::proofs::Ended::helped, crate::proofs::Ended::not_helped))]
fn answer_unparsed<O: Write + Drop, E: Write>(
    error: &clap::Error,
    output: &mut BufWriter<O>,
    errors: &mut E,
) -> u8
    ensures status { IsUnparsedStatus error.now (writer_contents O.contents output.old) (writer_contents O.contents output.new) result }
    ensures flushed { result ≤ 1 → writer_buffer output.new ≡ [] }
{
    match help_or_mistake(error, output) {
        Ok(()) => 0,
        Err(fault) => end_badly(Fault::from(fault), output, errors),
    }
}

/// Runs the program on a command line that was parsed by `parse`, and returns its exit status: 0 if the list was written or a check found no
/// damage, also for help and the version, 1 if a check found damage, or with `--strict` a note, or if `--hash` met a refused packet, and 2 for
/// every error. At 0 and 1 nothing is left in the buffer of `output`.
///
/// The file, or the input for `-`, is read whole, up to 1,073,741,824 bytes, before the first line is written. The list,
/// findings, help and the version go to `output`; the text of an error goes to `errors`. `progress` is
/// called after each packet that is decoded.
#[tactic(auto, using(crate::proofs::Ended::failed))]
pub fn answer<'a, R: NamedFiles + AllocGlobal, I: Read, O: Write + Drop, E: Write, G: Watch>(
    rt: &R,
    parsed: Result<Arguments<'a>, clap::Error>,
    input: &mut I,
    output: &mut BufWriter<O>,
    errors: &mut E,
    progress: &mut G,
) -> u8
    ensures status { IsExitStatus (R.bytes_at rt.now) parsed.entry (I.remaining input.old) (I.remaining input.new) (writer_contents O.contents output.old) (writer_contents O.contents output.new) result }
    ensures range { result ≤ 2 }
    ensures flushed { result ≤ 1 → writer_buffer output.new ≡ [] }
{
    let given = match parsed {
        Ok(given) => given,
        Err(error) => return answer_unparsed(&error, output, errors),
    };
    let answer = answer_given(rt, given, input, output, errors, progress);
    progress.end();
    match answer {
        Ok(status) => status,
        Err(fault) => end_badly(fault, output, errors),
    }
}
