// Explains the errors that end the program.
ghost use Rattle.std.specs.Prelude.{◌≡◌, ◌≤◌, ◌==◌, ◌||◌, [], IfOk, OnOk, codes, if◌then◌else◌, length, nat_lt};
ghost use Rattle.std.specs.Io.KnownBytes.{Appends};
ghost use Rattle.frame_session.specs.Sessions.{frame_count};
ghost use Rattle.serve_program.specs.Done.{names_option};
ghost use Rattle.serve_program.specs.Reports.{export_line, export_report, numbers_line};

use crate::exports::Answered;
use crate::messages::{Messages, UnsavedFile};
use command_lines::{InLine, NO_FILE, write_format, write_webm_fault};
use explanations::{CutRecord, StreamReason, cut_record, stream_reason};
use frame_session::Export;
use output_files::{Taken, Unsaved};
use serve_arguments::{Argument, Fault, Mistake, NotExported, Words};
use std::convert::AsStr;
use std::fs::{self, File};
use std::io::{self, Read, Write};
use std::rc::RcSlice;
use std::rt::Files;
use std::str;
use stream_files::read_all;
use stream_sources::StreamFault;
use webm_files::is_marked;

/// Whether the option `--explain` is among the arguments.
pub fn is_asked<S: AsStr>(words: &[S]) -> bool
    ensures { result ≡ names_option S.text (codes "--explain") words.now }
{
    words.iter().any(|word| word.as_str() == "--explain")
}

/// Names the option `--explain` after a run that ended with an error, unless it was given. A refused frame is no error.
pub fn name_explain<S: AsStr, E: Write>(words: &[S], status: u8, errors: &mut E) -> io::Result<()>
    ensures { OnOk result (Appends (E.contents errors.old) (E.contents errors.new) (if status == 0 || status == 3 || names_option S.text (codes "--explain") words.now then [] else codes "with --explain the next line says why, and what to do\n")) }
{
    if status == 0 || status == 3 || is_asked(words) {
        return Ok(());
    }
    errors.write_all(b"with --explain the next line says why, and what to do\n")
}

/// Says how to begin, to a user who called the program without arguments at a terminal.
pub fn name_help<S: AsStr, E: Write>(words: &[S], errors: &mut E) -> io::Result<()>
    ensures { OnOk result (Appends (E.contents errors.old) (E.contents errors.new) (if nat_lt 1 (length words.now) then [] else codes "vp8serve reads requests, a line each, for example: blank 0 64 48. Ctrl-D ends them\nvp8serve --help shows all of them, and a line to copy\n")) }
{
    if words.len() > 1 {
        return Ok(());
    }
    errors.write_all(
        b"vp8serve reads requests, a line each, for example: blank 0 64 48. Ctrl-D ends them\nvp8serve --help shows all of them, and a line to copy\n",
    )
}

/// Explains the error that ends the program over a command line that was parsed. An error of `messages` is ignored.
pub fn explain_fault<R: Files + AllocGlobal, E: Write>(
    rt: &R,
    parsed: &Result<Words<'_>, clap::Error>,
    fault: Fault<'_>,
    messages: &mut Messages<'_, E>,
) {
    let _ = match parsed {
        Ok(words) => explain_in(rt, *words, fault, messages),
        Err(error) => writeln!(messages.errors, "{error}try vp8serve --help"),
    };
}

/// Explains an error over the values of the arguments.
fn explain_in<R: Files + AllocGlobal, E: Write>(
    rt: &R,
    words: Words<'_>,
    fault: Fault<'_>,
    messages: &mut Messages<'_, E>,
) -> io::Result<()> {
    match fault {
        Fault::CommandLine(mistake) => explain_mistake(mistake, messages.errors),
        Fault::NamedTwice(_) => writeln!(messages.errors, "try vp8serve --help"),
        Fault::CannotRead(path) => explain_unread(rt, words, path, messages),
        Fault::TooLong(path) => explain_long(words, path, messages),
        Fault::Tables => explain_tables(rt, words, messages),
        Fault::Input { source, fault } => explain_input(rt, words, source, fault, messages),
        Fault::NotExported(why) => explain_not_exported(words, why, messages.errors),
        Fault::CannotWrite => explain_unwritten(words, messages),
        Fault::NoMemory => writeln!(
            messages.errors,
            "try a smaller --cache or --cache-bytes, or shorter files"
        ),
    }
}

/// Explains a mistake of the command line.
fn explain_mistake<E: Write>(mistake: Mistake, errors: &mut E) -> io::Result<()> {
    match mistake {
        Mistake::Arguments => writeln!(errors, "try vp8serve --help"),
        Mistake::Cache => writeln!(
            errors,
            "--cache-bytes takes 1 byte or more, for example 64M, 512K or 5000000: try vp8serve --help"
        ),
        Mistake::Pad => writeln!(
            errors,
            "--pad is for the packets of --save or --export: name a file for them by --save FILE or --export FILE"
        ),
        Mistake::Restamp => writeln!(
            errors,
            "--restamp is for the packets of --save: name a file for them by --save FILE"
        ),
        Mistake::Sources => writeln!(
            errors,
            "--sources takes 1 to 7 paths, none of them empty: try vp8serve --help"
        ),
    }
}

/// Whether these are requests that are answered as they come.
fn is_live(words: Words<'_>, path: &str) -> bool {
    words.is_live && words.requests == path
}

/// Explains which lines of requests that are answered as they come were answered, and why the next one was not.
fn explain_unanswered<E: Write>(why: &str, messages: &mut Messages<'_, E>) -> io::Result<()> {
    let line = messages.next_line();
    write!(messages.errors, "line {line} was not answered: {why}; ")?;
    match line {
        1 => {}
        2 => write!(messages.errors, "line 1 was, and ")?,
        _ => write!(messages.errors, "lines 1 to {} were, and ", line - 1)?,
    }
    writeln!(messages.errors, "nothing is saved")
}

/// Explains why a file was not read.
fn explain_unread<R: Files + AllocGlobal, E: Write>(
    rt: &R,
    words: Words<'_>,
    path: &str,
    messages: &mut Messages<'_, E>,
) -> io::Result<()> {
    let shown = InLine(path);
    if path != NO_FILE && !is_read_once(rt, path) {
        if let Err(error) = probe(rt, path) {
            return writeln!(messages.errors, "{shown}: {error}");
        }
    }
    if is_live(words, path) {
        return explain_unanswered("reading it failed", messages);
    }
    writeln!(messages.errors, "{shown}: reading it failed")
}

/// Whether this is a pipe or a device: its bytes may be gone, and opening a pipe may wait for a writer.
fn is_read_once<R: Files>(rt: &R, path: &str) -> bool {
    match fs::metadata(rt, path) {
        Ok(known) => !known.is_file() && !known.is_dir(),
        Err(_) => false,
    }
}

/// Says that a pipe or a device is not looked at.
fn explain_read_once<E: Write>(path: &str, errors: &mut E) -> io::Result<()> {
    let shown = InLine(path);
    writeln!(
        errors,
        "{shown} is a pipe or a device and is not read again: copy it to a file, and try that"
    )
}

/// Opens a file, and reads a byte.
fn probe<R: Files>(rt: &R, path: &str) -> io::Result<()> {
    let mut file = File::open(rt, path)?;
    let mut byte = [0];
    file.read(&mut byte)?;
    Ok(())
}

/// Reads the first bytes of a file, and returns their number.
fn read_head<R: Files>(rt: &R, path: &str, head: &mut [u8; 4096]) -> io::Result<usize>
    ensures { IfOk result (λ count. count ≤ 4096) }
{
    let mut file = File::open(rt, path)?;
    file.read(head)
}

/// Whether a path that was read is that of a stream.
fn is_stream(words: Words<'_>, path: &str) -> bool {
    let Some(tables) = words.tables else {
        return path != words.requests;
    };
    path != words.requests && path != tables
}

/// Explains what was too long, and how a stream is cut.
fn explain_long<E: Write>(
    words: Words<'_>,
    path: &str,
    messages: &mut Messages<'_, E>,
) -> io::Result<()> {
    if is_live(words, path) {
        return explain_unanswered("it has more than 1073741824 bytes", messages);
    }
    let shown = InLine(path);
    if !is_stream(words, path) {
        return writeln!(messages.errors, "{shown} has more than 1073741824 bytes");
    }
    writeln!(
        messages.errors,
        "{shown} has more than 1073741824 bytes: cut it at key packets, for example by ffmpeg -i {shown} -c copy -f segment -segment_time 600 part%03d.ivf"
    )
}

/// Explains what the file of the tables is.
fn explain_tables<R: Files + AllocGlobal, E: Write>(
    rt: &R,
    words: Words<'_>,
    messages: &mut Messages<'_, E>,
) -> io::Result<()> {
    let Some(path) = words.tables else {
        return Ok(());
    };
    if is_read_once(rt, path) {
        return explain_read_once(path, messages.errors);
    }
    let shown = InLine(path);
    let mut file = File::open(rt, path)?;
    match read_all(rt.alloc(), &mut file, 1_073_741_824) {
        Ok(bytes) => {
            let count = bytes.len();
            writeln!(messages.errors, "{shown} has {count} bytes")
        }
        Err(_) => writeln!(messages.errors, "{shown} has too many bytes"),
    }
}

/// The path of a source, which the arguments name.
fn path_of<'a>(words: Words<'a>, source: usize) -> &'a str {
    if source == 0 {
        return words.stream;
    }
    match words.sources {
        Some(list) => list.split(':').nth(source - 1).unwrap_or(NO_FILE),
        None => NO_FILE,
    }
}

/// Explains why the bytes of a source are not a stream, with the first bytes of its file, which is opened
/// again.
fn explain_input<R: Files + AllocGlobal, E: Write>(
    rt: &R,
    words: Words<'_>,
    source: usize,
    fault: StreamFault,
    messages: &mut Messages<'_, E>,
) -> io::Result<()> {
    let path = path_of(words, source);
    if is_read_once(rt, path) {
        return explain_read_once(path, messages.errors);
    }
    let mut bytes = [0; 4096];
    let count = read_head(rt, path, &mut bytes)?;
    explain_head(path, &bytes[..count], fault, messages)
}

/// Explains why the bytes of a file that begins like this are not a stream.
fn explain_head<E: Write>(
    path: &str,
    head: &[u8],
    fault: StreamFault,
    messages: &mut Messages<'_, E>,
) -> io::Result<()> {
    let shown = InLine(path);
    match stream_reason(&head[..head.len().min(32)], fault) {
        StreamReason::Other(format) => write_format(messages.errors, path, format),
        StreamReason::Gzip => writeln!(
            messages.errors,
            "{shown} is compressed by gzip: gzip -dc {shown} > out.ivf"
        ),
        StreamReason::Zeros => writeln!(
            messages.errors,
            "{shown} begins with zeros: its first bytes, where an IVF file says DKIF, are lost or were never written"
        ),
        StreamReason::Text => writeln!(
            messages.errors,
            "{shown} begins as a text: IN, the IVF file, is the first argument, REQUESTS the second"
        ),
        StreamReason::Codec => explain_codec(path, head, messages),
        StreamReason::Short => writeln!(
            messages.errors,
            "{shown} has {} bytes, an IVF header 32",
            head.len()
        ),
        StreamReason::NoIvf => explain_unknown(path, messages.errors),
        StreamReason::HeaderLength(length) => writeln!(
            messages.errors,
            "{shown} claims a header of {length} bytes, not 32 to the length of the file"
        ),
        StreamReason::TooMany => writeln!(messages.errors, "{shown} has more than 1048576 packets"),
        StreamReason::NoMemory => writeln!(
            messages.errors,
            "{shown}: out of memory for its packets"
        ),
        _ => write_webm_fault(messages.errors, path, head, fault),
    }
}

/// Explains how the packets of a file of an unknown format become an IVF file.
fn explain_unknown<E: Write>(path: &str, errors: &mut E) -> io::Result<()> {
    let shown = InLine(path);
    writeln!(
        errors,
        "{shown} is not an IVF file, it does not begin with DKIF; if its video is VP8: ffmpeg -i {shown} -an -c copy out.ivf"
    )?;
    writeln!(
        errors,
        "any other video has to be coded again, which changes each frame: ffmpeg -i {shown} -an -c:v libvpx out.ivf"
    )
}

/// Explains which codec a file has.
fn explain_codec<E: Write>(
    path: &str,
    head: &[u8],
    messages: &mut Messages<'_, E>,
) -> io::Result<()> {
    let codec = head.get(8..12).unwrap_or(b"");
    let codec = InLine(str::from_utf8(codec).unwrap_or("unknown"));
    let shown = InLine(path);
    writeln!(
        messages.errors,
        "{shown} has the codec {codec}, not VP80, and has to be coded again, which changes each frame: ffmpeg -i {shown} -an -c:v libvpx out.ivf"
    )
}

/// Explains which file was not written.
fn explain_unwritten<E: Write>(words: Words<'_>, messages: &mut Messages<'_, E>) -> io::Result<()> {
    if let Some(file) = messages.unsaved {
        return explain_unsaved_file(words, file, messages.errors);
    }
    let path = words.frames;
    let shown = InLine(path);
    if let Some(error) = messages.refused {
        return writeln!(messages.errors, "OUT {shown} cannot be created: {error}");
    }
    writeln!(
        messages.errors,
        "standard output or OUT {shown} takes no more bytes: its reader has gone, or the disk is full"
    )?;
    match messages.taken {
        Some(taken) => explain_taken(path, taken, messages),
        None => Ok(()),
    }
}

/// Says how many whole frames are in the file for the frames.
fn explain_taken<E: Write>(
    path: &str,
    taken: Taken,
    messages: &mut Messages<'_, E>,
) -> io::Result<()> {
    let shown = InLine(path);
    match messages.whole_frames(taken) {
        Some(count) => writeln!(messages.errors, "OUT {shown} took {count} whole frames"),
        None => writeln!(
            messages.errors,
            "OUT {shown} took {} bytes, at most one frame",
            taken.bytes
        ),
    }
}

/// The path of an option that names a file that is saved.
fn saved_path<'a>(words: Words<'a>, option: Argument) -> &'a str {
    match option {
        Argument::Export => words.exported.unwrap_or(NO_FILE),
        _ => words.saved.unwrap_or(NO_FILE),
    }
}

/// Explains why a file was not saved.
fn explain_unsaved_file<E: Write>(
    words: Words<'_>,
    file: UnsavedFile,
    errors: &mut E,
) -> io::Result<()> {
    let option = file.option.name();
    let shown = InLine(saved_path(words, file.option));
    match file.why {
        Unsaved::Make(error) => writeln!(errors, "{option} {shown} cannot be created: {error}"),
        Unsaved::Write | Unsaved::NoMemory => writeln!(
            errors,
            "{option} {shown} was not written: the disk may be full. A file that was there is as it was"
        ),
        Unsaved::Sync(error) | Unsaved::Rename(error) => writeln!(
            errors,
            "{option} {shown} was not written: {error}. A file that was there is as it was"
        ),
    }
}

/// Explains why the frames were not exported, and what to do. The replies are written, and nothing is saved.
fn explain_not_exported<E: Write>(
    words: Words<'_>,
    why: NotExported,
    errors: &mut E,
) -> io::Result<()> {
    let shown = InLine(saved_path(words, Argument::Export));
    match why {
        NotExported::Changed { frame, node } => writeln!(
            errors,
            "--export {shown} keeps packets as they are, and node {node} of the script changes samples of frame {frame}: leave the node out, or pipe OUT into an encoder. Nothing is saved"
        ),
        NotExported::Broken {
            frame,
            source,
            place,
            ..
        } => writeln!(
            errors,
            "--export {shown}: frame {frame} needs packet {place} of source {source}, which is broken: repair the packet, or leave the frame out by a trim. Nothing is saved"
        ),
        NotExported::CropOutside { frame } => writeln!(
            errors,
            "--export {shown}: a crop of the script reaches past the picture of frame {frame}: leave the crop out. Nothing is saved"
        ),
        NotExported::Full => writeln!(
            errors,
            "--export {shown} would have more than 1048576 packets or 1073741824 bytes: export the script in parts, by a trim for each. Nothing is saved"
        ),
        NotExported::NoHold => writeln!(
            errors,
            "--export {shown}: with these tables no packet repeats a frame. Nothing is saved"
        ),
    }
}

/// Explains the end of a run without an error: the trailing bytes of sources, which the arguments name, and the edits
/// that are not saved.
pub fn explain_end<E: Write>(
    words: Words<'_>,
    sources: &[RcSlice<u8>],
    messages: &mut Messages<'_, E>,
) -> io::Result<()> {
    explain_spare(words, sources, messages.errors)?;
    explain_unsaved(words, sources.len(), messages)
}

/// Writes the numbers of an export.
fn write_numbers<E: Write>(
    frames: u64,
    packets: usize,
    hidden: usize,
    bytes: u64,
    steps: u64,
    errors: &mut E,
) -> io::Result<()>
    ensures { OnOk result (Appends (E.contents errors.old) (E.contents errors.new) (numbers_line frames packets hidden bytes steps)) }
{
    write!(
        errors,
        "exported {frames} frames as {packets} packets, {hidden} of them hidden, "
    )?;
    writeln!(errors, "{bytes} bytes; {steps} decoding steps")
}

/// Says what was exported, with the number of frames of the script and of decoding steps of the run.
fn write_export<E: Write>(
    export: &Export,
    frames: u64,
    steps: u64,
    errors: &mut E,
) -> io::Result<()>
    ensures { OnOk result (Appends (E.contents errors.old) (E.contents errors.new) (export_line export.now frames steps)) }
{
    let packets = export.len();
    let hidden = export.hidden();
    let bytes = export.bytes();
    write_numbers(frames, packets, hidden, bytes, steps, errors)
}

/// Says what was exported, if that was asked for.
pub fn explain_export<E: Write>(done: &Answered, errors: &mut E) -> io::Result<()>
    ensures { OnOk result (Appends (E.contents errors.old) (E.contents errors.new) (export_report done.now.export (frame_count done.now.session.state) done.now.session.state.decoded)) }
{
    match &done.export {
        None => Ok(()),
        Some(export) => {
            let frames = done.session.count().1;
            let steps = done.session.decoded();
            write_export(export, frames, steps, errors)
        }
    }
}

/// Says which sources have edits that `--save` leaves out.
fn explain_unsaved<E: Write>(
    words: Words<'_>,
    count: usize,
    messages: &mut Messages<'_, E>,
) -> io::Result<()> {
    if words.saved.is_none() {
        return Ok(());
    }
    for source in 1..count {
        if messages.is_edited(source) {
            writeln!(
                messages.errors,
                "the edits of source {source} are not saved: --save writes source 0"
            )?;
        }
    }
    Ok(())
}

/// Explains the trailing bytes of IVF files of sources, which the arguments name.
fn explain_spare<E: Write>(
    words: Words<'_>,
    sources: &[RcSlice<u8>],
    errors: &mut E,
) -> io::Result<()> {
    for (source, bytes) in sources.iter().enumerate() {
        if is_marked(bytes.as_slice()) {
            continue;
        }
        if let Some(cut) = cut_record(bytes.as_slice()) {
            write_cut(path_of(words, source), bytes.len(), cut, errors)?;
        }
    }
    Ok(())
}

/// Writes which record the end of a file of this length cuts off.
fn write_cut<E: Write>(
    path: &str,
    length: usize,
    cut: CutRecord,
    errors: &mut E,
) -> io::Result<()> {
    let CutRecord {
        number,
        begins,
        size,
    } = cut;
    let left = length.saturating_sub(begins);
    let shown = InLine(path);
    match size {
        Some(size) => writeln!(
            errors,
            "{shown}: record {number} begins at byte {begins} and claims 12 + {size} bytes, {left} are left"
        ),
        None => writeln!(
            errors,
            "{shown}: record {number} begins at byte {begins}, {left} bytes are left"
        ),
    }
}
