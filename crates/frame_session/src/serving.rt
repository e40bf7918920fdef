ghost use Rattle.std.specs.Prelude.{◌≡◌, ◌⊎◌, ℕ, ◌≤◌, ◌++◌, true, IfOk, OnOk, IfErr, OnErr, Result, length, map};
ghost use Rattle.std.specs.List.{All};
ghost use Rattle.std.specs.Io.KnownBytes.{Appends, Keeps};
ghost use Rattle.stream_files.specs.Y4m.{frame_text};
ghost use Rattle.frame_session.specs.declared.refusal.Refusal.{Refusal};
ghost use Rattle.frame_session.specs.Questions.{is_question};
ghost use Rattle.frame_session.specs.Replies.{count_line, served_line};
ghost use Rattle.frame_session.specs.Sessions.{frame_count, packet_count};
ghost use Rattle.request_lines.specs.Requests.{asked_by};
ghost use Rattle.state_cache.specs.Reaching.{of_states};
ghost use Rattle.frame_session.specs.Noted.{MeansNoted, RunsNoted};
ghost use Rattle.frame_session.specs.Told.{Tells};
ghost use Rattle.frame_session.specs.Answers.{AreStreams, IsSourceRefused, Means, RunStops, WritesAnswers, WritesAnswer, WritesUntilError, WritesFrameFirst, opening, requests_of, texts_of};
ghost use Rattle.frame_session.specs.LineCosts.{AnswersAtCost, MeansAtCost, RunsAtCost};

use crate::observer::{Observer, Unobserved};
use crate::refusal::Refusal;
use crate::replies::{write_count, write_edited, write_refused, write_served, write_stats};
use crate::session::Session;
use crate::settings::Settings;
use pixel_planes::Picture;
use request_lines::{Line, next_line, read_line};
use state_cache::Capacity;
use std::alloc::Global;
use std::io::Write;
use stream_files::{FileBytes, FrameRate, Stream, WriteFault, y4m_frame, y4m_header};
use stream_sources::{StreamFault, stream_read_from};
use thiserror::Error;
use vp8_tables::Tables;

/// Why a run returns no session.
#[derive(Clone, Copy, Debug, PartialEq, Eq, Error)]
pub enum RunFault {
    /// The bytes of a source are not a stream, or out of memory for its packets. It is the first such
    /// source.
    #[error("source {source} cannot be read: {fault}")]
    Source { source: usize, fault: StreamFault },
    /// A writer returned an error. How much was written is left open.
    #[error("a writer returned an error")]
    Write,
    /// Out of memory at the start.
    #[error("out of memory")]
    NoMemory,
}

impl RunFault {
    ghost use Rattle.frame_session.specs.Replies.{run_fault_word};

    /// The error's name; that of a source that is not read is `Source`.
    pub fn word(self) -> &'static str
        ensures { result.now ≡ run_fault_word self }
    {
        match self {
            RunFault::Source { .. } => "Source",
            RunFault::Write => "Write",
            RunFault::NoMemory => "NoMemory",
        }
    }
}

/// When the writers are flushed.
#[derive(Clone, Copy)]
pub(crate) enum Flushing {
    /// By the caller, after the last answer.
    AtEnd,
    /// Each frame before its reply is written, and each reply before the next line is read.
    EachAnswer,
}

impl Flushing {
    /// Flushes a writer, if its part of an answer is due.
    fn flush<W: Write>(self, w: &mut W) -> Result<(), WriteFault>
        ensures { Keeps (W.contents w.old) (W.contents w.new) }
    {
        match self {
            Flushing::AtEnd => Ok(()),
            Flushing::EachAnswer => w.flush().map_err(|_| WriteFault::Write),
        }
    }
}

/// Writes the line that opens the frames, if it is due.
fn write_opening<F: Write>(
    frames: &mut F,
    rate_due: Option<FrameRate>,
    picture: &Picture,
) -> Result<(), WriteFault>
    ensures { OnOk result (Appends (F.contents frames.old) (F.contents frames.new) (opening rate_due picture.now.width picture.now.height)) }
{
    match rate_due {
        Some(rate) => y4m_header(
            frames,
            picture.width(),
            picture.height(),
            rate.rate,
            rate.scale,
        ),
        None => Ok(()),
    }
}

/// Writes a frame, after the line that opens the frames if it is due.
fn write_frame<F: Write>(
    frames: &mut F,
    rate_due: Option<FrameRate>,
    picture: &Picture,
) -> Result<(), WriteFault>
    ensures { OnOk result (Appends (F.contents frames.old) (F.contents frames.new) (opening rate_due picture.now.width picture.now.height ++ frame_text picture.now)) }
{
    write_opening(frames, rate_due, picture)?;
    y4m_frame(frames, picture)
}

/// Writes frame `n`, and then its reply: if a writer fails, no byte of the reply was written before the
/// whole frame.
fn write_answer<F: Write, P: Write>(
    frames: &mut F,
    replies: &mut P,
    rate_due: Option<FrameRate>,
    picture: &Picture,
    n: u64,
    flushing: Flushing,
) -> Result<Option<Refusal>, WriteFault>
    ensures frame { OnOk result (Appends (F.contents frames.old) (F.contents frames.new) (opening rate_due picture.now.width picture.now.height ++ frame_text picture.now)) }
    ensures reply { OnOk result (Appends (P.contents replies.old) (P.contents replies.new) (served_line n)) }
    ensures frame_first { Keeps (P.contents replies.old) (P.contents replies.new) ⊎ Appends (F.contents frames.old) (F.contents frames.new) (opening rate_due picture.now.width picture.now.height ++ frame_text picture.now) }
    ensures told { IfOk result (Tells (P.contents replies.old) (P.contents replies.new)) }
    ensures none { IfOk result (λ refusal. refusal ≡ None) }
{
    write_frame(frames, rate_due, picture)?;
    flushing.flush(frames)?;
    write_served(replies, n)
}

/// Serves frame `n`, or reports why it is refused.
fn serve_frame<F: Write, P: Write>(
    session: &mut Session,
    n: u64,
    frames: &mut F,
    replies: &mut P,
    flushing: Flushing,
) -> Result<Option<Refusal>, WriteFault>
    ensures serves { OnOk result (WritesAnswer session.old.state (Line.Frame n) (F.contents frames.old) (F.contents frames.new) (P.contents replies.old) (P.contents replies.new) session.new.state) }
    ensures frame_first { WritesFrameFirst session.old.state (Line.Frame n) (F.contents frames.old) (F.contents frames.new) (P.contents replies.old) (P.contents replies.new) session.new.state }
    ensures costs { AnswersAtCost session.old (Line.Frame n) (F.contents frames.old) (F.contents frames.new) (P.contents replies.old) (P.contents replies.new) result session.new }
    ensures capacity { session.new.cache.capacity ≡ session.old.cache.capacity }
    ensures told { IfOk result (Tells (P.contents replies.old) (P.contents replies.new)) }
{
    let rate_due = session.rate_due();
    match session.frame(n) {
        Ok(picture) => write_answer(frames, replies, rate_due, &picture, n, flushing),
        Err(refusal) => write_refused(replies, refusal),
    }
}

/// Reports the number of packets and the number of frames served.
fn report_count<P: Write>(session: &Session, replies: &mut P) -> Result<Option<Refusal>, WriteFault>
    ensures wrote { OnOk result (Appends (P.contents replies.old) (P.contents replies.new) (count_line (packet_count session.now.state) (frame_count session.now.state))) }
    ensures told { IfOk result (Tells (P.contents replies.old) (P.contents replies.new)) }
{
    let (packets, frames) = session.count();
    write_count(replies, packets, frames)
}

/// Answers one line. Returns the refusal that the reply reports, if it reports one.
#[tactic(auto, using(crate::proofs::ToldKept::same_capacity))]
fn serve<F: Write, P: Write>(
    session: &mut Session,
    line: Line<'_>,
    frames: &mut F,
    replies: &mut P,
    flushing: Flushing,
) -> Result<Option<Refusal>, WriteFault>
    ensures serves { OnOk result (WritesAnswer session.old.state line.entry (F.contents frames.old) (F.contents frames.new) (P.contents replies.old) (P.contents replies.new) session.new.state) }
    ensures frame_first { WritesFrameFirst session.old.state line.entry (F.contents frames.old) (F.contents frames.new) (P.contents replies.old) (P.contents replies.new) session.new.state }
    ensures costs { AnswersAtCost session.old line.entry (F.contents frames.old) (F.contents frames.new) (P.contents replies.old) (P.contents replies.new) result session.new }
    ensures capacity { session.new.cache.capacity ≡ session.old.cache.capacity }
    ensures question { is_question line.entry ≡ true → session.new ≡ session.old }
    ensures told { IfOk result (Tells (P.contents replies.old) (P.contents replies.new)) }
{
    match line {
        Line::Silent => Ok(None),
        Line::Unknown => write_refused(replies, Refusal::Line),
        Line::Frame(n) => serve_frame(session, n, frames, replies, flushing),
        Line::Use(source) => {
            let chosen = session.choose(source);
            write_edited(replies, chosen)
        }
        Line::Edit(edit) => {
            let edited = session.edit_written(edit);
            write_edited(replies, edited)
        }
        Line::Script(text) => {
            let set = session.set_script(text.as_slice());
            write_edited(replies, set)
        }
        Line::Count => report_count(session, replies),
        Line::Stats => write_stats(replies, session.decoded()),
        Line::Ask(question) => session.answer(replies, question),
        Line::Lost => write_refused(replies, Refusal::NoMemory),
    }
}

/// Answers one line, and flushes the reply if that is due. Returns the refusal that the reply reports, if it reports one.
#[tactic(auto, using(crate::proofs::ToldKept::tells_kept))]
pub(crate) fn serve_line<F: Write, P: Write>(
    session: &mut Session,
    line: Line<'_>,
    frames: &mut F,
    replies: &mut P,
    flushing: Flushing,
) -> Result<Option<Refusal>, WriteFault>
    ensures serves { OnOk result (WritesAnswer session.old.state line.entry (F.contents frames.old) (F.contents frames.new) (P.contents replies.old) (P.contents replies.new) session.new.state) }
    ensures frame_first { WritesFrameFirst session.old.state line.entry (F.contents frames.old) (F.contents frames.new) (P.contents replies.old) (P.contents replies.new) session.new.state }
    ensures costs { AnswersAtCost session.old line.entry (F.contents frames.old) (F.contents frames.new) (P.contents replies.old) (P.contents replies.new) result session.new }
    ensures capacity { session.new.cache.capacity ≡ session.old.cache.capacity }
    ensures question { is_question line.entry ≡ true → session.new ≡ session.old }
    ensures told { IfOk result (Tells (P.contents replies.old) (P.contents replies.new)) }
{
    let told = serve(session, line, frames, replies, flushing)?;
    flushing.flush(replies)?;
    Ok(told)
}

/// Answers one request line, without its newline, and flushes nothing. Returns the refusal that the reply reports, if it
/// reports one.
///
/// An error if a writer returns one. No byte of the reply was written then, or all bytes of the frame were.
pub fn answer_line<F: Write, P: Write>(
    session: &mut Session,
    line: &[u8],
    frames: &mut F,
    replies: &mut P,
) -> Result<Option<Refusal>, WriteFault>
    ensures serves { OnOk result (WritesAnswer session.old.state (asked_by line.now) (F.contents frames.old) (F.contents frames.new) (P.contents replies.old) (P.contents replies.new) session.new.state) }
    ensures frame_first { WritesFrameFirst session.old.state (asked_by line.now) (F.contents frames.old) (F.contents frames.new) (P.contents replies.old) (P.contents replies.new) session.new.state }
    ensures costs { AnswersAtCost session.old (asked_by line.now) (F.contents frames.old) (F.contents frames.new) (P.contents replies.old) (P.contents replies.new) result session.new }
    ensures capacity { session.new.cache.capacity ≡ session.old.cache.capacity }
    ensures told { IfOk result (Tells (P.contents replies.old) (P.contents replies.new)) }
{
    let request = read_line(line).unwrap_or(Line::Unknown);
    serve_line(session, request, frames, replies, Flushing::AtEnd)
}

/// Answers all lines of a text.
pub(crate) fn serve_all<F: Write, P: Write, V: Observer>(
    session: &mut Session,
    requests: &[u8],
    frames: &mut F,
    replies: &mut P,
    flushing: Flushing,
    observer: &mut V,
) -> Result<(), WriteFault>
    ensures runs { OnOk result (WritesAnswers session.old.state (requests_of requests.now) (F.contents frames.old) (F.contents frames.new) (P.contents replies.old) (P.contents replies.new) session.new.state) }
    ensures stops { OnErr result (WritesUntilError session.old.state (requests_of requests.now) (F.contents frames.old) (F.contents frames.new) (P.contents replies.old) (P.contents replies.new)) }
    ensures costs { OnOk result (RunsAtCost session.old (requests_of requests.now) (F.contents frames.old) (F.contents frames.new) (P.contents replies.old) (P.contents replies.new) session.new) }
    ensures noted { OnOk result (RunsNoted session.old.state (requests_of requests.now) (F.contents frames.old) (F.contents frames.new) (P.contents replies.old) (P.contents replies.new) session.new.state (V.has_refused observer.old) (V.has_refused observer.new)) }
    ensures capacity { session.new.cache.capacity ≡ session.old.cache.capacity }
{
    let mut rest = requests;
    'lines: loop {
        let Some((line, following)) = next_line(rest) else {
            return Ok(());
        };
        let request = read_line(line).unwrap_or(Line::Unknown);
        let asks_frame = matches!(request, Line::Frame(_));
        let told = serve_line(session, request, frames, replies, flushing)?;
        observer.answered(session, line, asks_frame, told);
        rest = following;
    }
}

/// Reads the file of each source: an IVF file, or the video of a WebM or Matroska file.
///
/// `RunFault::Source` with the first source whose bytes are no stream, or for whose packets there is no
/// memory.
pub fn read_sources<B: FileBytes>(alloc: Global, sources: &[B]) -> Result<Vec<Stream>, RunFault>
    ensures are { IfOk result (λ files. AreStreams (map B.bytes sources.now) files.items) }
    ensures count { IfOk result (λ files. length files.items ≡ length sources.now) }
    ensures few { IfOk result (λ files. All (λ file. length file.packets ≤ 1048576) files.items) }
    ensures refused { IfErr result (IsSourceRefused (map B.bytes sources.now)) }
{
    stream_sources::laws::streams_are_few();
    let mut files = Vec::new(alloc);
    for bytes in sources {
        let source = files.len();
        let file = match stream_read_from(alloc, bytes) {
            Ok(file) => file,
            Err(fault) => return Err(RunFault::Source { source, fault }),
        };
        let Ok(()) = files.push(file) else {
            return Err(RunFault::Source {
                source,
                fault: StreamFault::NoMemory,
            });
        };
    }
    Ok(files)
}

/// Runs a request list as `run` does, over bytes that are borrowed or shared, and calls an observer after the reply to each line is
/// written. The packets of shared bytes are not copied.
pub fn run_over<B: FileBytes, F: Write, P: Write, V: Observer>(
    alloc: Global,
    settings: Settings,
    files: &[B],
    requests: &[u8],
    frames: &mut F,
    replies: &mut P,
    observer: &mut V,
) -> Result<Session, RunFault>
    requires capacity { (1 ≤ settings.capacity.states) × (settings.capacity.states ≤ 4096) }
    requires sources { (1 ≤ length files.now) × (length files.now ≤ 8) }
    ensures means { IfOk result (λ session. Means settings.tables (map B.bytes files.now) requests.now (F.contents frames.old) (F.contents frames.new) (P.contents replies.old) (P.contents replies.new) session.state) }
    ensures costs { IfOk result (MeansAtCost settings.tables settings.capacity (map B.bytes files.now) requests.now (F.contents frames.old) (F.contents frames.new) (P.contents replies.old) (P.contents replies.new)) }
    ensures noted { IfOk result (λ session. MeansNoted settings.tables (map B.bytes files.now) requests.now (F.contents frames.old) (F.contents frames.new) (P.contents replies.old) (P.contents replies.new) session.state (V.has_refused observer.old) (V.has_refused observer.new)) }
    ensures capacity { IfOk result (λ session. session.cache.capacity ≡ settings.capacity) }
    ensures stops { IfErr result (RunStops settings.tables (map B.bytes files.now) requests.now (F.contents frames.old) (F.contents frames.new) (P.contents replies.old) (P.contents replies.new)) }
{
    let Settings { tables, capacity } = settings;
    let streams = read_sources(alloc, files)?;
    let mut session = match Session::within(alloc, tables, capacity, streams) {
        Ok(session) => session,
        Err(_) => return Err(RunFault::NoMemory),
    };
    match serve_all(
        &mut session,
        requests,
        frames,
        replies,
        Flushing::AtEnd,
        observer,
    ) {
        Ok(()) => Ok(session),
        Err(_) => Err(RunFault::Write),
    }
}

/// Runs a request list over files, 1 to 8: one source for each, numbered from 0. Each is an IVF, WebM or Matroska file.
///
/// `capacity`, 1 to 4,096, is the most decoded states that are cached. Served frames go to
/// `frames` as a YUV4MPEG2 text, whose first line is written with the first frame; a reply for each line
/// that is neither empty nor a comment goes to `replies`. The session is returned as it is after the last
/// line.
///
/// `RunFault::Source` with the first source whose bytes are no stream, or for whose packets there is no
/// memory; `RunFault::NoMemory` if out of memory for the session: nothing is written then.
/// `RunFault::Write` if a writer fails; the run ends there.
pub fn run<F: Write, P: Write>(
    alloc: Global,
    tables: Tables,
    capacity: u16,
    files: &[&[u8]],
    requests: &[u8],
    frames: &mut F,
    replies: &mut P,
) -> Result<Session, RunFault>
    requires capacity { (1 ≤ capacity) × (capacity ≤ 4096) }
    requires sources { (1 ≤ length files.now) × (length files.now ≤ 8) }
    ensures means { IfOk result (λ session. Means tables (texts_of files.now) requests.now (F.contents frames.old) (F.contents frames.new) (P.contents replies.old) (P.contents replies.new) session.state) }
    ensures costs { IfOk result (MeansAtCost tables (of_states capacity) (texts_of files.now) requests.now (F.contents frames.old) (F.contents frames.new) (P.contents replies.old) (P.contents replies.new)) }
    ensures capacity { IfOk result (λ session. session.cache.capacity ≡ of_states capacity) }
    ensures stops { IfErr result (RunStops tables (texts_of files.now) requests.now (F.contents frames.old) (F.contents frames.new) (P.contents replies.old) (P.contents replies.new)) }
{
    let settings = Settings {
        tables,
        capacity: Capacity::of_states(capacity),
    };
    run_over(
        alloc,
        settings,
        files,
        requests,
        frames,
        replies,
        &mut Unobserved {},
    )
}
