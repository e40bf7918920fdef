// Answers requests as they come.
ghost use Rattle.std.specs.Prelude.{◌≡◌, ◌≤◌, ◌+◌, ◌++◌, ℕ, List, [], IfOk, IfErr, OnOk, false, if◌then◌else◌, length, map};
ghost use Rattle.std.specs.Io.KnownBytes.{Consumes};
ghost use Rattle.std.specs.Str.Lines.{strip_carriage_return};
ghost use Rattle.frame_session.specs.LineCosts.{LiveMeansAtCost};
ghost use Rattle.frame_session.specs.Live.{IsAsked, LiveEnds, LiveMeans, LiveStops, live_fault_by, longest_line};
ghost use Rattle.frame_session.specs.Noted.{LiveMeansNoted};
ghost use Rattle.frame_session.specs.LiveSteps.{IsRead, IsShort, ReadsLine, ReadsPart, RunsText};
ghost use Rattle.frame_session.specs.Replies.{live_fault_word};

use crate::observer::Observer;
use crate::serving::{Flushing, RunFault, read_sources, serve_line};
use crate::session::Session;
use crate::settings::Settings;
use request_lines::{Beginning, Line, read_line, without_carriage_return};
use std::alloc::Global;
use std::io::{self, BufRead, ErrorKind, Write};
use stream_files::FileBytes;
use stream_sources::StreamFault;
use text_words::length_before;
use thiserror::Error;
use vp8_tables::Tables;

/// The most bytes of a line, its newline not counted.
const LONGEST_LINE: usize = 1_073_741_824;

/// Why a live run returns no session.
#[derive(Clone, Copy, Debug, PartialEq, Eq, Error)]
pub enum LiveFault {
    /// The bytes of a source are not a stream, or out of memory for its packets. It is the first such
    /// source. Nothing was read or written.
    #[error("source {source} cannot be read: {fault}")]
    Source { source: usize, fault: StreamFault },
    /// The reader returned an error, or 2^64 - 1 times within a line that it was interrupted. The lines before it were
    /// answered.
    #[error("the reader returned an error")]
    Read,
    /// A line has more than 1,073,741,824 bytes. The lines before it were answered.
    #[error("a line is longer than 1 GiB")]
    TooLong,
    /// The reader has given 2^64 - 1 lines. All were answered.
    #[error("the reader gives more lines than can be counted")]
    Endless,
    /// A writer returned an error. How much was written is left open.
    #[error("a writer returned an error")]
    Write,
    /// Out of memory at the start. Nothing was read or written.
    #[error("out of memory")]
    NoMemory,
}

impl LiveFault {
    /// The error's name; that of a source that is not read is `Source`.
    pub fn word(self) -> &'static str
        ensures { result.now ≡ live_fault_word self }
    {
        match self {
            LiveFault::Source { .. } => "Source",
            LiveFault::Read => "Read",
            LiveFault::TooLong => "TooLong",
            LiveFault::Endless => "Endless",
            LiveFault::Write => "Write",
            LiveFault::NoMemory => "NoMemory",
        }
    }
}

impl From<RunFault> for LiveFault {
    ghost from_gives = { λ run live. live ≡ live_fault_by run };

    fn from(fault: RunFault) -> Self {
        match fault {
            RunFault::Source { source, fault } => LiveFault::Source { source, fault },
            RunFault::Write => LiveFault::Write,
            RunFault::NoMemory => LiveFault::NoMemory,
        }
    }
}

/// How far a line is read.
#[derive(Clone, Copy, PartialEq, Eq)]
enum Reached {
    /// More of its bytes may follow.
    Within,
    /// The newline that follows it.
    Newline,
    /// The end of all bytes.
    End,
}

/// A line as far as it is read, without its newline.
#[derive(Drop)]
struct LineRead {
    /// Its bytes; if memory ran out, as many of the first ones as there was memory for.
    held: Vec<u8>,
    /// Whether all its bytes are stored.
    is_held: bool,
    beginning: Beginning,
    /// The number of its bytes.
    length: usize,
}

impl LineRead {
    /// A line of which nothing is read.
    fn new(alloc: Global) -> LineRead
        ensures { IsRead result [] }
    {
        LineRead {
            held: Vec::new(alloc),
            is_held: true,
            beginning: Beginning::empty(),
            length: 0,
        }
    }

    /// Takes more bytes of the line. If memory runs out, they and all later ones are dropped.
    fn add(&mut self, part: &[u8])
        requires { self.old.length + length part.now ≤ longest_line }
        ensures { (line : List ℕ) → IsRead self.old line → IsRead self.new (line ++ part.now) }
    {
        self.beginning = self.beginning.with(part);
        self.length += part.len();
        if self.is_held {
            self.is_held = self.held.extend_from_slice(part).is_ok();
        }
    }

    /// The bytes that are stored, without the carriage return before a newline.
    fn text(&self, is_terminated: bool) -> &[u8]
        ensures { result.now ≡ (if is_terminated then strip_carriage_return self.now.held.items else self.now.held.items) }
    {
        let held = self.held.as_slice();
        if is_terminated {
            without_carriage_return(held)
        } else {
            held
        }
    }

    /// The request of the line, which is lost if not all its bytes are stored.
    fn request(&self, is_terminated: bool) -> Line<'_>
        ensures { (line : List ℕ) → IsRead self.now line → IsAsked (if is_terminated then strip_carriage_return line else line) result }
    {
        if self.is_held {
            read_line(self.text(is_terminated)).unwrap_or(Line::Unknown)
        } else {
            self.beginning.request(is_terminated)
        }
    }
}

/// The result of a read that failed: an interrupted one is repeated.
fn unread(error: &io::Error) -> Result<Reached, LiveFault>
    ensures again { IfOk result (λ reached. reached ≡ Reached.Within) }
    ensures fault { IfErr result (λ fault. fault ≡ LiveFault.Read) }
{
    if error.kind() == ErrorKind::Interrupted {
        return Ok(Reached::Within);
    }
    Err(LiveFault::Read)
}

/// Reads the bytes that a reader has ready, up to a newline and with it, and adds them to a line.
fn read_part<I: BufRead>(input: &mut I, line: &mut LineRead) -> Result<Reached, LiveFault>
    requires { line.old.length ≤ longest_line }
    ensures { (text : List ℕ) → IsRead line.old text → IsShort text → (part : List ℕ) × Consumes (I.remaining input.old) (I.remaining input.new) part × ReadsPart (I.remaining input.old) (I.remaining input.new) line.new text part result }
{
    let ready = match input.fill_buf() {
        Ok(ready) => ready,
        Err(error) => return unread(&error),
    };
    let end = length_before(b'\n', ready);
    if end > LONGEST_LINE - line.length {
        input.consume(end);
        return Err(LiveFault::TooLong);
    }
    line.add(&ready[..end]);
    if end < ready.len() {
        input.consume(end + 1);
        return Ok(Reached::Newline);
    }
    input.consume(end);
    Ok(if end == 0 {
        Reached::End
    } else {
        Reached::Within
    })
}

/// Reads a line. Returns whether a newline follows it; otherwise no bytes are left.
fn read_whole_line<I: BufRead>(input: &mut I, line: &mut LineRead) -> Result<bool, LiveFault>
    requires { IsRead line.old [] }
    ensures { ReadsLine (I.remaining input.old) (I.remaining input.new) line.new result }
{
    'parts: for _ in 0..u64::MAX {
        match read_part(input, line)? {
            Reached::Within => {}
            Reached::Newline => return Ok(true),
            Reached::End => return Ok(false),
        }
    }
    Err(LiveFault::Read)
}

/// Reads the next line and answers it. Returns whether a line may follow it.
fn answer_next<I: BufRead, F: Write, P: Write, V: Observer>(
    alloc: Global,
    session: &mut Session,
    input: &mut I,
    frames: &mut F,
    replies: &mut P,
    observer: &mut V,
) -> Result<bool, LiveFault>
    ensures ok { IfOk result (λ more. RunsText (if more then 1 else 0) session.old session.new (I.remaining input.old) (I.remaining input.new) (F.contents frames.old) (F.contents frames.new) (P.contents replies.old) (P.contents replies.new) more (V.has_refused observer.old) (V.has_refused observer.new)) }
    ensures err { IfErr result (LiveEnds session.old.state (I.remaining input.old) (I.remaining input.new) (F.contents frames.old) (F.contents frames.new) (P.contents replies.old) (P.contents replies.new)) }
    ensures capacity { session.new.cache.capacity ≡ session.old.cache.capacity }
{
    let mut line = LineRead::new(alloc);
    let is_terminated = read_whole_line(input, &mut line)?;
    if !is_terminated && line.length == 0 {
        return Ok(false);
    }
    let request = line.request(is_terminated);
    let asks_frame = matches!(request, Line::Frame(_));
    match serve_line(session, request, frames, replies, Flushing::EachAnswer) {
        Ok(told) => {
            observer.answered(session, line.text(is_terminated), asks_frame, told);
            Ok(is_terminated)
        }
        Err(_) => Err(LiveFault::Write),
    }
}

/// Answers the lines of a reader up to its end.
fn serve_live<I: BufRead, F: Write, P: Write, V: Observer>(
    alloc: Global,
    session: &mut Session,
    input: &mut I,
    frames: &mut F,
    replies: &mut P,
    observer: &mut V,
) -> Result<(), LiveFault>
    ensures ok { OnOk result (RunsText 0 session.old session.new (I.remaining input.old) (I.remaining input.new) (F.contents frames.old) (F.contents frames.new) (P.contents replies.old) (P.contents replies.new) false (V.has_refused observer.old) (V.has_refused observer.new)) }
    ensures err { IfErr result (LiveEnds session.old.state (I.remaining input.old) (I.remaining input.new) (F.contents frames.old) (F.contents frames.new) (P.contents replies.old) (P.contents replies.new)) }
    ensures capacity { session.new.cache.capacity ≡ session.old.cache.capacity }
{
    'lines: for _answered in 0..u64::MAX {
        if !answer_next(alloc, session, input, frames, replies, observer)? {
            return Ok(());
        }
    }
    Err(LiveFault::Endless)
}

/// Runs requests over files, 1 to 8, as `run_over` does, but answers each line of `input` when its newline is read:
/// its frame is written and flushed, then its reply is written and flushed, the observer is called, and only then the next line is read.
///
/// The last line may be unterminated. A line has at most 1,073,741,824 bytes, its newline not counted. The memory
/// is that of the session and of one line, however many lines there are. A line for which there is no memory is refused as
/// NoMemory, its bytes are dropped, and the next line is answered.
///
/// `LiveFault::Source` with the first source whose bytes are no stream, or for whose packets there is no
/// memory, and `LiveFault::NoMemory` if out of memory for the session: nothing is read or written then. `LiveFault::Read` if the
/// reader fails, `LiveFault::TooLong` if a line is too long, and `LiveFault::Endless` after 2^64 - 1 lines: the lines
/// before that were answered. `LiveFault::Write` if a writer fails: nothing was read after the line whose answer could not be
/// written.
pub fn run_live_over<B: FileBytes, I: BufRead, F: Write, P: Write, V: Observer>(
    alloc: Global,
    settings: Settings,
    files: &[B],
    input: &mut I,
    frames: &mut F,
    replies: &mut P,
    observer: &mut V,
) -> Result<Session, LiveFault>
    requires capacity { (1 ≤ settings.capacity.states) × (settings.capacity.states ≤ 4096) }
    requires sources { (1 ≤ length files.now) × (length files.now ≤ 8) }
    ensures means { IfOk result (λ session. LiveMeans settings.tables (map B.bytes files.now) (I.remaining input.old) (I.remaining input.new) (F.contents frames.old) (F.contents frames.new) (P.contents replies.old) (P.contents replies.new) session.state) }
    ensures costs { IfOk result (LiveMeansAtCost settings.tables settings.capacity (map B.bytes files.now) (I.remaining input.old) (I.remaining input.new) (F.contents frames.old) (F.contents frames.new) (P.contents replies.old) (P.contents replies.new)) }
    ensures noted { IfOk result (λ session. LiveMeansNoted settings.tables (map B.bytes files.now) (I.remaining input.old) (I.remaining input.new) (F.contents frames.old) (F.contents frames.new) (P.contents replies.old) (P.contents replies.new) session.state (V.has_refused observer.old) (V.has_refused observer.new)) }
    ensures capacity { IfOk result (λ session. session.cache.capacity ≡ settings.capacity) }
    ensures stops { IfErr result (LiveStops settings.tables (map B.bytes files.now) (I.remaining input.old) (I.remaining input.new) (F.contents frames.old) (F.contents frames.new) (P.contents replies.old) (P.contents replies.new)) }
{
    let Settings { tables, capacity } = settings;
    let streams = read_sources(alloc, files)?;
    let mut session = match Session::within(alloc, tables, capacity, streams) {
        Ok(session) => session,
        Err(_) => return Err(LiveFault::NoMemory),
    };
    serve_live(alloc, &mut session, input, frames, replies, observer)?;
    Ok(session)
}
