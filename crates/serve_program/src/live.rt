// Requests that are answered as they come.
ghost use Rattle.std.specs.Prelude.{◌≡◌, ◌≤◌, ◌⊎◌, IfErr, IfOk, is_some, length, map};
ghost use Rattle.std.specs.Rc.{rc_slice_items};
ghost use Rattle.serve_arguments.specs.Capacities.{IsGiven};
ghost use Rattle.serve_program.specs.Endings.{AreLiveReplied, IsExportFault, IsLiveEnded, IsLiveFault, IsLiveFinished, IsLiveRefused, IsLiveReplied, IsOut, IsSaveFault, IsServed, IsUnfinished, OverSources, cached_by};
ghost use Rattle.serve_program.specs.Noted.{AreLiveNoted, IsLiveNoted};
ghost use Rattle.serve_program.specs.Saved.{AreSaved};

use crate::exports::with_export;
use crate::frames::{Unmade, end_frames, make_frames};
use crate::host::RunHost;
use crate::messages::Messages;
use crate::program::{Served, finish};
use crate::runs::{Over, live_fault, settings_with, shared};
use crate::saving::{Saves, abandon_saves, begin_saves};
use command_lines::{NO_FILE, NamedFiles};
use frame_session::{LiveFault, Session, run_live_over};
use output_files::SavedFiles;
use serve_arguments::{Accepted, Fault, FilesRead, read_files};
use std::io::{self, BufRead, BufReader, Read, Write};
use std::rc::RcSlice;

/// Answers the lines of `requests` with frames that go to the file at `path`, which is created now, or nowhere.
#[tactic(auto, using(crate::proofs::LiveEnded::live_stopped, crate::proofs::LiveEnded::live_unmade, crate::proofs::LiveEnded::live_unheld, crate::proofs::LiveEnded::live_unflushed, crate::proofs::Finished::live_dropped, crate::proofs::Finished::live_gained))]
fn run_to_path<R: NamedFiles + AllocGlobal, I: BufRead, P: Write, E: Write>(
    rt: &R,
    over: Over<'_, RcSlice<u8>>,
    requests: &mut I,
    path: &str,
    replies: &mut P,
    messages: &mut Messages<'_, E>,
) -> Result<Session, LiveFault>
    requires capacity { (1 ≤ over.settings.capacity.states) × (over.settings.capacity.states ≤ 4096) }
    requires sources { (1 ≤ length over.sources.now) × (length over.sources.now ≤ 8) }
    ensures replied { IfOk result (λ session. IsLiveReplied (IsOut R.Made.contents (R.is_made_at rt.now) path.now) over.entry.settings.tables (map rc_slice_items over.entry.sources.now) (I.remaining requests.old) (P.contents replies.old) (P.contents replies.new) session.state) }
    ensures noted { IfOk result (λ session. IsLiveNoted over.entry.settings.tables (map rc_slice_items over.entry.sources.now) (I.remaining requests.old) (P.contents replies.old) (P.contents replies.new) messages.old.has_refused messages.new.has_refused) }
    ensures capacity { IfOk result (λ session. session.cache.capacity ≡ over.entry.settings.capacity) }
    ensures fault { IfErr result (IsLiveFault over.entry.settings.tables (map rc_slice_items over.entry.sources.now) (I.remaining requests.old) (P.contents replies.old) (P.contents replies.new)) }
{
    let Over { settings, sources } = over;
    let mut frames = match make_frames(rt, path, messages) {
        Ok(Some(frames)) => frames,
        Ok(None) => {
            return run_live_over(
                rt.alloc(),
                settings,
                sources,
                requests,
                &mut io::sink(),
                replies,
                messages,
            );
        }
        Err(Unmade::File) => return Err(LiveFault::Write),
        Err(Unmade::Memory) => return Err(LiveFault::NoMemory),
    };
    let answered = run_live_over(
        rt.alloc(),
        settings,
        sources,
        requests,
        &mut frames,
        replies,
        messages,
    );
    end_frames(&mut frames, answered, LiveFault::Write, messages)
}

/// Answers the lines of a reader that is not buffered, through a buffer.
fn run_over<R: NamedFiles + AllocGlobal, I: Read, P: Write, E: Write>(
    rt: &R,
    over: Over<'_, RcSlice<u8>>,
    reader: &mut I,
    path: &str,
    replies: &mut P,
    messages: &mut Messages<'_, E>,
) -> Result<Session, LiveFault>
    requires capacity { (1 ≤ over.settings.capacity.states) × (over.settings.capacity.states ≤ 4096) }
    requires sources { (1 ≤ length over.sources.now) × (length over.sources.now ≤ 8) }
    ensures replied { IfOk result (λ session. IsLiveReplied (IsOut R.Made.contents (R.is_made_at rt.now) path.now) over.entry.settings.tables (map rc_slice_items over.entry.sources.now) (I.remaining reader.old) (P.contents replies.old) (P.contents replies.new) session.state) }
    ensures noted { IfOk result (λ session. IsLiveNoted over.entry.settings.tables (map rc_slice_items over.entry.sources.now) (I.remaining reader.old) (P.contents replies.old) (P.contents replies.new) messages.old.has_refused messages.new.has_refused) }
    ensures capacity { IfOk result (λ session. session.cache.capacity ≡ over.entry.settings.capacity) }
    ensures fault { IfErr result (IsLiveFault over.entry.settings.tables (map rc_slice_items over.entry.sources.now) (I.remaining reader.old) (P.contents replies.old) (P.contents replies.new)) }
{
    let mut requests = BufReader::new(rt.alloc(), reader).map_err(|_| LiveFault::NoMemory)?;
    run_to_path(rt, over, &mut requests, path, replies, messages)
}

/// Answers the request lines as they come: those of `input` if no file is given.
#[tactic(auto, using(crate::proofs::LiveEnded::unopened))]
fn run_requests<'a, R: NamedFiles + SavedFiles + AllocGlobal, I: Read, P: Write, E: Write>(
    rt: &R,
    line: &Accepted<'a>,
    over: Over<'_, RcSlice<u8>>,
    input: &mut I,
    replies: &mut P,
    messages: &mut Messages<'_, E>,
) -> Result<Session, Fault<'a>>
    requires capacity { (1 ≤ over.settings.capacity.states) × (over.settings.capacity.states ≤ 4096) }
    requires sources { (1 ≤ length over.sources.now) × (length over.sources.now ≤ 8) }
    ensures replied { IfOk result (λ session. AreLiveReplied (⟦<R as RunHost>⟧.files rt.now) line.now (I.remaining input.old) (P.contents replies.old) (P.contents replies.new) session.state over.entry.settings.tables (map rc_slice_items over.entry.sources.now)) }
    ensures noted { IfOk result (λ session. AreLiveNoted (⟦<R as RunHost>⟧.files rt.now) line.now (I.remaining input.old) (P.contents replies.old) (P.contents replies.new) messages.old.has_refused messages.new.has_refused over.entry.settings.tables (map rc_slice_items over.entry.sources.now)) }
    ensures capacity { IfOk result (λ session. session.cache.capacity ≡ over.entry.settings.capacity) }
    ensures refused { IfErr result (IsLiveRefused (⟦<R as RunHost>⟧.files rt.now) line.now over.entry.settings.tables (map rc_slice_items over.entry.sources.now) (I.remaining input.old) (P.contents replies.old) (P.contents replies.new)) }
{
    let path = line.words.requests;
    let frames = line.words.frames;
    if path == NO_FILE {
        return match run_over(rt, over, input, frames, replies, messages) {
            Ok(session) => Ok(session),
            Err(fault) => Err(live_fault(fault, path)),
        };
    }
    let mut file = match rt.open_named(path) {
        Ok(file) => file,
        Err(_) => return Err(Fault::CannotRead(path)),
    };
    match run_over(rt, over, &mut file, frames, replies, messages) {
        Ok(session) => Ok(session),
        Err(fault) => Err(live_fault(fault, path)),
    }
}

/// Exports the frames if that is asked for, saves what was begun, and reports trailing bytes. If the frames are not exported, what was begun is given
/// up. Returns the session.
#[tactic(auto, using(crate::proofs::Finished::all_saved))]
fn finish_live<R: SavedFiles + AllocGlobal, E: Write>(
    rt: &R,
    session: Session,
    line: &Accepted<'_>,
    sources: &[RcSlice<u8>],
    saves: Saves<R::Begun>,
    messages: &mut Messages<'_, E>,
) -> Result<Session, Fault<'static>>
    requires capacity { IsGiven line.now.capacity }
    requires packets { is_some saves.packets ≡ is_some line.now.words.saved }
    requires frames { is_some saves.frames ≡ is_some line.now.words.exported }
    ensures saved { IfOk result (λ new. AreSaved (R.is_saved_at rt.now) line.now.words session.state new.state) }
    ensures capacity { IfOk result (λ new. new.cache.capacity ≡ session.cache.capacity) }
    ensures fault { IfErr result (λ fault. IsSaveFault fault ⊎ IsExportFault session.state fault) }
{
    match with_export(session, line.words) {
        Ok(done) => finish(rt, done, line, sources, saves, messages),
        Err(fault) => {
            abandon_saves(rt, saves);
            Err(fault)
        }
    }
}

/// Answers the request lines over the files that were read, as they come, exports the frames and saves the packets of source 0 if that is asked for:
/// the new files are made before the first line is read.
fn answer_files<'a, R: NamedFiles + SavedFiles + AllocGlobal, I: Read, O: Write, E: Write>(
    rt: &R,
    line: &Accepted<'a>,
    files: FilesRead,
    input: &mut I,
    output: &mut O,
    messages: &mut Messages<'_, E>,
) -> Result<Served, Fault<'a>>
    requires capacity { IsGiven line.now.capacity }
    requires sources { (1 ≤ length files.sources.items) × (length files.sources.items ≤ 8) }
    ensures replied { IfOk result (λ served. IsLiveFinished (⟦<R as RunHost>⟧.files rt.now) line.now files.tables (map (λ bytes. bytes.items) files.sources.items) (I.remaining input.old) (O.contents output.old) (O.contents output.new) served.session.state) }
    ensures noted { IfOk result (λ served. AreLiveNoted (⟦<R as RunHost>⟧.files rt.now) line.now (I.remaining input.old) (O.contents output.old) (O.contents output.new) messages.old.has_refused served.has_refused files.tables (map (λ bytes. bytes.items) files.sources.items)) }
    ensures capacity { IfOk result (λ served. served.session.cache.capacity ≡ cached_by line.now.capacity) }
    ensures refused { IfErr result (IsUnfinished (⟦<R as RunHost>⟧.files rt.now) line.now files.tables (map (λ bytes. bytes.items) files.sources.items) (I.remaining input.old) (O.contents output.old) (O.contents output.new)) }
{
    let FilesRead { tables, sources } = files;
    let sources = shared(rt.alloc(), sources)?;
    let settings = settings_with(tables, line.capacity);
    let saves = begin_saves(rt, line.words, messages)?;
    let over = Over {
        settings,
        sources: sources.as_slice(),
    };
    let answered = run_requests(rt, line, over, input, output, messages);
    let has_refused = messages.has_refused();
    match answered {
        Ok(session) => {
            let session = finish_live(rt, session, line, sources.as_slice(), saves, messages)?;
            Ok(Served {
                session,
                has_refused,
            })
        }
        Err(fault) => {
            abandon_saves(rt, saves);
            Err(fault)
        }
    }
}

/// Does what an accepted command line with `--live` asks for.
pub fn answer_live<'a, R: NamedFiles + SavedFiles + AllocGlobal, I: Read, O: Write, E: Write>(
    rt: &R,
    line: &Accepted<'a>,
    input: &mut I,
    output: &mut O,
    messages: &mut Messages<'_, E>,
) -> Result<Served, Fault<'a>>
    requires capacity { IsGiven line.now.capacity }
    requires paths { length line.now.more.items ≤ 7 }
    ensures served { IfOk result (λ served. IsServed (⟦<R as RunHost>⟧.files rt.now) line.now (AreLiveReplied (⟦<R as RunHost>⟧.files rt.now) line.now (I.remaining input.old) (O.contents output.old) (O.contents output.new)) served.session.state) }
    ensures capacity { IfOk result (λ served. served.session.cache.capacity ≡ cached_by line.now.capacity) }
    ensures noted { IfOk result (λ served. OverSources (⟦<R as RunHost>⟧.files rt.now) line.now (AreLiveNoted (⟦<R as RunHost>⟧.files rt.now) line.now (I.remaining input.old) (O.contents output.old) (O.contents output.new) messages.old.has_refused served.has_refused)) }
    ensures ended { IfErr result (IsLiveEnded (⟦<R as RunHost>⟧.files rt.now) line.now (I.remaining input.old) (I.remaining input.new) (O.contents output.old) (O.contents output.new)) }
{
    let files = read_files(rt, line)?;
    answer_files(rt, line, files, input, output, messages)
}
