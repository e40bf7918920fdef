// The program over a reader and two writers.
ghost use Rattle.std.specs.Prelude.{◌≡◌, ◌≤◌, ◌⊎◌, [], false, true, IfOk, IfErr, IfSome, OnOk, codes, is_some, length, map};
ghost use Rattle.std.specs.Io.Buffered.{writer_buffer, writer_contents};
ghost use Rattle.std.specs.Io.KnownBytes.{Appends, Keeps};
ghost use Rattle.std.specs.Rc.{rc_slice_items};
ghost use Rattle.frame_session.specs.Answers.{Means};
ghost use Rattle.frame_session.specs.Noted.{MeansNoted};
ghost use Rattle.command_lines.specs.Endings.{IsHelp};
ghost use Rattle.serve_arguments.specs.Capacities.{IsGiven};
ghost use Rattle.serve_program.specs.Done.{IsDone, IsEndedAs, IsExitStatus, IsLineDone, IsLineFault, IsRunFault, IsServedAs, names_option};
ghost use Rattle.serve_program.specs.Endings.{AreReplied, IsBatchEnded, IsEndedOver, IsExportFault, IsFinished, IsOut, IsOver, IsRefused, IsReplied, IsSaveFault, IsServed, IsStopped, IsUnreplied, OverSources, spare_text, cached_by};
ghost use Rattle.serve_program.specs.Noted.{AreNoted, IsNoted, IsNotedAs, status_after};
ghost use Rattle.serve_program.specs.Saved.{ArePacketsSaved, AreSaved, IsExportSaved};

use crate::explain::{explain_end, explain_export, explain_fault, is_asked};
use crate::exports::{Answered, with_export};
use crate::frames::{Unmade, end_frames, make_frames};
use crate::host::RunHost;
use crate::live::answer_live;
use crate::messages::Messages;
use crate::runs::{Over, run_fault, settings_with, shared};
use crate::saving::{Saves, begin_saves, finish_saves};
use command_lines::{NamedFiles, exit_status, help_or_mistake};
use frame_session::{Observer, Session, run_over};
use output_files::SavedFiles;
use serve_arguments::{
    Accepted, Fault, FilesRead, Inputs, Words, check_places, read_inputs, report_cache,
};
use std::alloc::Global;
use std::convert::AsStr;
use std::io::{self, BufWriter, Read, Write};
use std::rc::RcSlice;
use stream_files::FileBytes;

/// Runs the requests over the files of the sources, 1 to 8, whose bytes are borrowed or shared, and flushes the frames and then the replies. The
/// packets of shared bytes are not copied. Returns the session after the last request.
#[tactic(auto, using(crate::proofs::Ended::run_refused, crate::proofs::Flushed::unflushed))]
pub fn run_to<B: FileBytes, F: Write, P: Write, V: Observer>(
    alloc: Global,
    over: Over<'_, B>,
    requests: &[u8],
    frames: &mut F,
    replies: &mut P,
    observer: &mut V,
) -> Result<Session, Fault<'static>>
    requires capacity { (1 ≤ over.settings.capacity.states) × (over.settings.capacity.states ≤ 4096) }
    requires sources { (1 ≤ length over.sources.now) × (length over.sources.now ≤ 8) }
    ensures answered { IfOk result (λ end. Means over.entry.settings.tables (map B.bytes over.entry.sources.now) requests.now (F.contents frames.old) (F.contents frames.new) (P.contents replies.old) (P.contents replies.new) end.state) }
    ensures noted { IfOk result (λ end. MeansNoted over.entry.settings.tables (map B.bytes over.entry.sources.now) requests.now (F.contents frames.old) (F.contents frames.new) (P.contents replies.old) (P.contents replies.new) end.state (V.has_refused observer.old) (V.has_refused observer.new)) }
    ensures capacity { IfOk result (λ session. session.cache.capacity ≡ over.entry.settings.capacity) }
    ensures refused { IfErr result (IsRefused over.entry.settings.tables (map B.bytes over.entry.sources.now) requests.now (F.contents frames.old) (F.contents frames.new) (P.contents replies.old) (P.contents replies.new)) }
{
    let Over { settings, sources } = over;
    let session = match run_over(
        alloc, settings, sources, requests, frames, replies, observer,
    ) {
        Ok(session) => session,
        Err(fault) => return Err(run_fault(fault)),
    };
    if frames.flush().is_err() {
        return Err(Fault::CannotWrite);
    }
    if replies.flush().is_err() {
        return Err(Fault::CannotWrite);
    }
    Ok(session)
}

/// Runs the requests with frames that go to the file at `path`, which is created now, or nowhere.
#[tactic(auto, using(crate::proofs::Ended::unreplied, crate::proofs::Ended::unmade, crate::proofs::Ended::unheld, crate::proofs::Ended::unflushed_out, crate::proofs::Finished::dropped, crate::proofs::Finished::gained))]
fn run_to_path<R: NamedFiles + AllocGlobal, P: Write, E: Write>(
    rt: &R,
    over: Over<'_, RcSlice<u8>>,
    requests: &[u8],
    path: &str,
    replies: &mut P,
    messages: &mut Messages<'_, E>,
) -> Result<Session, Fault<'static>>
    requires capacity { (1 ≤ over.settings.capacity.states) × (over.settings.capacity.states ≤ 4096) }
    requires sources { (1 ≤ length over.sources.now) × (length over.sources.now ≤ 8) }
    ensures replied { IfOk result (λ session. IsReplied (IsOut R.Made.contents (R.is_made_at rt.now) path.now) over.entry.settings.tables (map rc_slice_items over.entry.sources.now) requests.now (P.contents replies.old) (P.contents replies.new) session.state) }
    ensures noted { IfOk result (λ session. IsNoted over.entry.settings.tables (map rc_slice_items over.entry.sources.now) requests.now (P.contents replies.old) (P.contents replies.new) messages.old.has_refused messages.new.has_refused) }
    ensures capacity { IfOk result (λ session. session.cache.capacity ≡ over.entry.settings.capacity) }
    ensures refused { IfErr result (IsUnreplied (map rc_slice_items over.entry.sources.now) (IsStopped over.entry.settings.tables (map rc_slice_items over.entry.sources.now) requests.now (P.contents replies.old) (P.contents replies.new)) (P.contents replies.old) (P.contents replies.new)) }
{
    let mut frames = match make_frames(rt, path, messages) {
        Ok(Some(frames)) => frames,
        Ok(None) => {
            let alloc = rt.alloc();
            return run_to(alloc, over, requests, &mut io::sink(), replies, messages);
        }
        Err(Unmade::File) => return Err(Fault::CannotWrite),
        Err(Unmade::Memory) => return Err(Fault::NoMemory),
    };
    let answered = run_to(rt.alloc(), over, requests, &mut frames, replies, messages);
    end_frames(&mut frames, answered, Fault::CannotWrite, messages)
}

/// Flushes a buffer.
pub fn flush_buffer<O: Write + Drop>(output: &mut BufWriter<O>) -> Result<(), Fault<'static>>
    ensures flushed { OnOk result (writer_buffer output.new ≡ []) }
    ensures kept { Keeps (writer_contents O.contents output.old) (writer_contents O.contents output.new) }
    ensures fault { IfErr result (λ fault. fault ≡ Fault.CannotWrite) }
{
    output.flush().map_err(|_| Fault::CannotWrite)
}

/// Reports the number of trailing bytes of all sources, if there are any.
pub fn report_spare<E: Write>(session: &Session, errors: &mut E) -> io::Result<()>
    ensures { OnOk result (Appends (E.contents errors.old) (E.contents errors.new) (spare_text session.now.state.spare)) }
{
    let spare = session.spare();
    if spare == 0 {
        return Ok(());
    }
    writeln!(errors, "spare {spare}")
}

/// Reports trailing bytes after a run without an error. If `errors` refuses the text, they are not reported.
/// With `--explain` they are explained, and what was exported and what a cached state takes are reported.
fn end<E: Write>(
    alloc: Global,
    done: &Answered,
    line: &Accepted<'_>,
    sources: &[RcSlice<u8>],
    messages: &mut Messages<'_, E>,
)
    requires { IsGiven line.now.capacity }
{
    let _ = report_spare(&done.session, messages.errors);
    if messages.explains {
        let _ = explain_end(line.words, sources, messages);
        let _ = explain_export(done, messages.errors);
        if let Some(stream) = sources.first() {
            let decoded = done.session.decoded();
            let _ = report_cache(alloc, line.capacity, stream, decoded, messages.errors);
        }
    }
}

/// Saves the packets of source 0 and the export of the frames as they were begun, and reports trailing bytes. Returns the session.
pub fn finish<R: SavedFiles + AllocGlobal, E: Write>(
    rt: &R,
    done: Answered,
    line: &Accepted<'_>,
    sources: &[RcSlice<u8>],
    saves: Saves<R::Begun>,
    messages: &mut Messages<'_, E>,
) -> Result<Session, Fault<'static>>
    requires capacity { IsGiven line.now.capacity }
    requires packets { is_some saves.packets ≡ is_some line.now.words.saved }
    requires frames { is_some saves.frames ≡ is_some line.now.words.exported }
    ensures session { IfOk result (λ session. session ≡ done.session) }
    ensures packets { OnOk result (ArePacketsSaved (R.is_saved_at rt.now) line.now.words done.session.state) }
    ensures frames { OnOk result (IfSome done.export (IsExportSaved (R.is_saved_at rt.now) line.now.words)) }
    ensures fault { IfErr result IsSaveFault }
{
    finish_saves(rt, &done, line.words, saves, messages)?;
    end(rt.alloc(), &done, line, sources, messages);
    let Answered { session, export: _ } = done;
    Ok(session)
}

/// Exports the frames if that is asked for, then begins the saves and finishes them. Returns the session.
#[tactic(auto, using(crate::proofs::Finished::all_saved))]
fn finish_batch<R: SavedFiles + AllocGlobal, E: Write>(
    rt: &R,
    session: Session,
    line: &Accepted<'_>,
    sources: &[RcSlice<u8>],
    messages: &mut Messages<'_, E>,
) -> Result<Session, Fault<'static>>
    requires { IsGiven line.now.capacity }
    ensures saved { IfOk result (λ new. AreSaved (R.is_saved_at rt.now) line.now.words session.state new.state) }
    ensures capacity { IfOk result (λ new. new.cache.capacity ≡ session.cache.capacity) }
    ensures fault { IfErr result (λ fault. IsSaveFault fault ⊎ IsExportFault session.state fault) }
{
    let done = with_export(session, line.words)?;
    let saves = begin_saves(rt, line.words, messages)?;
    finish(rt, done, line, sources, saves, messages)
}

/// What was asked is done: the session after that, and whether a request for a frame was refused.
#[derive(Drop)]
pub struct Served {
    pub session: Session,
    pub has_refused: bool,
}

/// Answers the requests over what was read, exports the frames and saves the packets of source 0 if that is asked for.
#[tactic(auto, using(crate::proofs::Ended::memory_ended))]
fn answer_inputs<R: NamedFiles + SavedFiles + AllocGlobal, O: Write, E: Write>(
    rt: &R,
    line: &Accepted<'_>,
    inputs: Inputs,
    output: &mut O,
    messages: &mut Messages<'_, E>,
) -> Result<Served, Fault<'static>>
    requires capacity { IsGiven line.now.capacity }
    requires paths { length line.now.more.items ≤ 7 }
    requires read { IsOver (⟦<R as RunHost>⟧.files rt.now) line.now inputs.files.tables (map (λ bytes. bytes.items) inputs.files.sources.items) }
    ensures replied { IfOk result (λ served. IsFinished (⟦<R as RunHost>⟧.files rt.now) line.now inputs.files.tables (map (λ bytes. bytes.items) inputs.files.sources.items) inputs.requests.items (O.contents output.old) (O.contents output.new) served.session.state) }
    ensures noted { IfOk result (λ served. IsNoted inputs.files.tables (map (λ bytes. bytes.items) inputs.files.sources.items) inputs.requests.items (O.contents output.old) (O.contents output.new) messages.old.has_refused served.has_refused) }
    ensures capacity { IfOk result (λ served. served.session.cache.capacity ≡ cached_by line.now.capacity) }
    ensures ended { IfErr result (IsEndedOver (⟦<R as RunHost>⟧.files rt.now) line.now inputs.requests.items (O.contents output.old) (O.contents output.new)) }
{
    let Inputs { files, requests } = inputs;
    let FilesRead { tables, sources } = files;
    let sources = shared(rt.alloc(), sources)?;
    let settings = settings_with(tables, line.capacity);
    let over = Over {
        settings,
        sources: sources.as_slice(),
    };
    let session = run_to_path(
        rt,
        over,
        requests.as_slice(),
        line.words.frames,
        output,
        messages,
    )?;
    let has_refused = messages.has_refused();
    let session = finish_batch(rt, session, line, sources.as_slice(), messages)?;
    Ok(Served {
        session,
        has_refused,
    })
}

/// Does what an accepted command line asks for.
fn answer<'a, R: NamedFiles + SavedFiles + AllocGlobal, I: Read, O: Write, E: Write>(
    rt: &R,
    line: &Accepted<'a>,
    input: &mut I,
    output: &mut O,
    messages: &mut Messages<'_, E>,
) -> Result<Served, Fault<'a>>
    requires capacity { IsGiven line.now.capacity }
    requires paths { length line.now.more.items ≤ 7 }
    ensures served { IfOk result (λ served. IsServed (⟦<R as RunHost>⟧.files rt.now) line.now (AreReplied (⟦<R as RunHost>⟧.files rt.now) line.now (I.remaining input.old) (O.contents output.old) (O.contents output.new)) served.session.state) }
    ensures capacity { IfOk result (λ served. served.session.cache.capacity ≡ cached_by line.now.capacity) }
    ensures noted { IfOk result (λ served. OverSources (⟦<R as RunHost>⟧.files rt.now) line.now (AreNoted (⟦<R as RunHost>⟧.files rt.now) line.now (I.remaining input.old) (O.contents output.old) (O.contents output.new) messages.old.has_refused served.has_refused)) }
    ensures ended { IfErr result (IsBatchEnded (⟦<R as RunHost>⟧.files rt.now) line.now (I.remaining input.old) (I.remaining input.new) (O.contents output.old) (O.contents output.new)) }
{
    let inputs = read_inputs(rt, line, input)?;
    answer_inputs(rt, line, inputs, output, messages)
}

/// Does what an accepted command line asks for, as its requests come or after all of them were read.
fn answer_accepted<'a, R: NamedFiles + SavedFiles + AllocGlobal, I: Read, O: Write, E: Write>(
    rt: &R,
    line: &Accepted<'a>,
    input: &mut I,
    output: &mut O,
    messages: &mut Messages<'_, E>,
) -> Result<Served, Fault<'a>>
    requires capacity { IsGiven line.now.capacity }
    requires paths { length line.now.more.items ≤ 7 }
    ensures served { IfOk result (λ served. IsServedAs (⟦<R as RunHost>⟧.files rt.now) line.now (I.remaining input.old) (O.contents output.old) (O.contents output.new) served.session.state) }
    ensures capacity { IfOk result (λ served. served.session.cache.capacity ≡ cached_by line.now.capacity) }
    ensures noted { IfOk result (λ served. IsNotedAs (⟦<R as RunHost>⟧.files rt.now) line.now (I.remaining input.old) (O.contents output.old) (O.contents output.new) messages.old.has_refused served.has_refused) }
    ensures ended { IfErr result (IsEndedAs (⟦<R as RunHost>⟧.files rt.now) line.now (I.remaining input.old) (I.remaining input.new) (O.contents output.old) (O.contents output.new)) }
{
    if line.words.is_live {
        answer_live(rt, line, input, output, messages)
    } else {
        answer(rt, line, input, output, messages)
    }
}

/// Does what the values of a command line ask for, and flushes the replies. Returns whether a request for a frame was refused.
#[tactic(auto, using(crate::proofs::Finished::mistaken, crate::proofs::Finished::misplaced, crate::proofs::Finished::given_up, crate::proofs::Finished::unflushed_replies))]
fn answer_words<'a, R: NamedFiles + SavedFiles + AllocGlobal, I: Read, O: Write + Drop, E: Write>(
    rt: &R,
    words: Words<'a>,
    input: &mut I,
    output: &mut BufWriter<O>,
    messages: &mut Messages<'_, E>,
) -> Result<bool, Fault<'a>>
    requires fresh { messages.now.has_refused ≡ false }
    ensures done { IfOk result (IsDone (⟦<R as RunHost>⟧.files rt.now) words.entry (I.remaining input.old) (writer_contents O.contents output.old) (writer_contents O.contents output.new)) }
    ensures fault { IfErr result (IsRunFault (⟦<R as RunHost>⟧.files rt.now) words.entry (I.remaining input.old) (I.remaining input.new) (writer_contents O.contents output.old) (writer_contents O.contents output.new)) }
    ensures flushed { OnOk result (writer_buffer output.new ≡ []) }
{
    let line = words.accept(rt.alloc())?;
    check_places(rt, &line)?;
    let served = answer_accepted(rt, &line, input, output, messages)?;
    flush_buffer(output)?;
    Ok(served.has_refused)
}

/// Whether the option `--fail-refused` is among the arguments.
fn names_fail_refused<S: AsStr>(words: &[S]) -> bool
    ensures { result ≡ names_option S.text (codes "--fail-refused") words.now }
{
    words.iter().any(|word| word.as_str() == "--fail-refused")
}

/// The exit status after all requests were answered.
fn status_after(fails_refused: bool, has_refused: bool) -> u8
    ensures value { result ≡ status_after fails_refused has_refused }
    ensures either { (result ≡ 0) ⊎ (result ≡ 3) }
{
    if fails_refused && has_refused { 3 } else { 0 }
}

/// Does what a parsed command line asks for, flushes the replies, and returns the exit status. `is_named` says whether `--fail-refused` is among
/// the arguments: no contract says which argument sets the flag of an option.
#[tactic(auto, using(crate::proofs::Finished::unanswered))]
fn answer_line<'a, R: NamedFiles + SavedFiles + AllocGlobal, I: Read, O: Write + Drop, E: Write>(
    rt: &R,
    parsed: &Result<Words<'a>, clap::Error>,
    is_named: bool,
    input: &mut I,
    output: &mut BufWriter<O>,
    messages: &mut Messages<'_, E>,
) -> Result<u8, Fault<'a>>
    requires fresh { messages.now.has_refused ≡ false }
    ensures status { IfOk result (λ status. (status ≡ 0) ⊎ (status ≡ 3)) }
    ensures asked { IfOk result (λ status. status ≡ 3 → is_named ≡ true) }
    ensures done { IfOk result (IsLineDone (⟦<R as RunHost>⟧.files rt.now) parsed.now is_named (I.remaining input.old) (writer_contents O.contents output.old) (writer_contents O.contents output.new)) }
    ensures fault { IfErr result (IsLineFault (⟦<R as RunHost>⟧.files rt.now) parsed.now (I.remaining input.old) (I.remaining input.new) (writer_contents O.contents output.old) (writer_contents O.contents output.new)) }
    ensures flushed { OnOk result (writer_buffer output.new ≡ []) }
{
    match parsed {
        Ok(words) => {
            let has_refused = answer_words(rt, *words, input, output, messages)?;
            Ok(status_after(is_named && words.fails_refused, has_refused))
        }
        Err(error) => {
            help_or_mistake(error, output)?;
            Ok(0)
        }
    }
}

/// Runs the program on a command line, whose first argument is the program's name and which was parsed by `parse`, and returns its exit
/// status: 0 if every request was answered, also by a refusal, and for help and the version; with `--fail-refused` 3 instead of 0 if a
/// request for a frame was refused; 2 for a mistake on the command line; 1 for every other error. At 0 and 3 nothing is left in the
/// buffer of `output`.
///
/// All files are read whole, up to 1,073,741,824 bytes each, before the file for the frames is created: the
/// tables, IN, the files of `--sources` in their order, the requests. The packets of source 0 are saved after the last
/// request: a new file is made in the folder of the file, and replaces it when it is whole and on the disk. The frames are exported before that, and
/// their file is saved after it; if they are not exported, nothing is saved. With `--live`
/// the new files are made after the files were read, and the requests are not read before: each line is answered when its
/// newline is read, and a line has at most 1,073,741,824 bytes. Replies, help and the version go to `output`; the text of an error, and after a
/// run without one the number of trailing bytes of all sources together, if there are any, go to `errors`. With `--explain`
/// each of them is followed by a line that explains it, each refused request has a line, and after a run that made as many decoding steps as
/// states are cached a line says what a state takes.
#[tactic(auto, using(crate::proofs::Finished::exits))]
pub fn serve<
    'a,
    R: NamedFiles + SavedFiles + AllocGlobal,
    S: AsStr,
    I: Read,
    O: Write + Drop,
    E: Write,
>(
    rt: &R,
    words: &'a [S],
    parsed: Result<Words<'a>, clap::Error>,
    input: &mut I,
    output: &mut BufWriter<O>,
    errors: &mut E,
) -> u8
    ensures status { result ≤ 3 }
    ensures done { IsExitStatus (⟦<R as RunHost>⟧.files rt.now) parsed.entry (names_option S.text (codes "--fail-refused") words.now) (I.remaining input.old) (I.remaining input.new) (writer_contents O.contents output.old) (writer_contents O.contents output.new) result }
    ensures flushed { result ≡ 0 → writer_buffer output.new ≡ [] }
    ensures failed { result ≡ 3 → writer_buffer output.new ≡ [] }
    ensures asked { result ≡ 3 → names_option S.text (codes "--fail-refused") words.now ≡ true }
{
    let mut messages = Messages::new(errors, is_asked(words));
    let is_named = names_fail_refused(words);
    let answer = answer_line(rt, &parsed, is_named, input, output, &mut messages);
    let status = exit_status(answer, messages.errors);
    if messages.explains {
        if let Err(fault) = answer {
            explain_fault(rt, &parsed, fault, &mut messages);
        }
    }
    status
}
