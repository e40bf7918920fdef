// Saves the packets of a session, and the export of its frames.
ghost use Rattle.std.specs.Prelude.{◌≡◌, ◌≢◌, ◌⊎◌, IfErr, IfOk, IfSome, OnOk, is_some, true};
ghost use Rattle.std.specs.IoError.{error_kind};
ghost use Rattle.serve_program.specs.Endings.{IsSaveFault};
ghost use Rattle.serve_program.specs.Saved.{ArePacketsSaved, IsExportSaved, exported_text, saved_text};

use crate::exports::Answered;
use crate::messages::{Messages, UnsavedFile};
use frame_session::{Export, Session};
use output_files::{OneUnsaved, Save, SavedFiles, SavedText, Unsaved};
use packet_edits::RestampFault;
use serve_arguments::{Argument, Fault, Words};
use std::io::{self, BufWriter, ErrorKind, Write};

/// Why packets were not saved with new time stamps.
fn unrestamped(fault: RestampFault) -> Unsaved
    ensures { (result ≡ Unsaved.NoMemory) ⊎ (result ≡ Unsaved.Write) }
{
    match fault {
        RestampFault::Write => Unsaved::Write,
        RestampFault::NoMemory => Unsaved::NoMemory,
    }
}

/// The packets of source 0 as they are saved.
#[derive(Clone, Copy)]
struct Packets<'a> {
    session: &'a Session,
    pads: bool,
    restamps: bool,
}

impl SavedText for Packets<'_> {
    ghost text = { λ packets. saved_text packets.pads packets.restamps packets.session.now.state };

    fn write_to<W: Write + Drop>(&self, w: &mut BufWriter<W>) -> Result<(), Unsaved> {
        if self.restamps {
            self.session
                .save_restamped(w, self.pads)
                .map_err(unrestamped)?;
        } else if self.pads {
            self.session.save_padded(w).map_err(|_| Unsaved::Write)?;
        } else {
            self.session.save(w).map_err(|_| Unsaved::Write)?;
        }
        w.flush().map_err(|_| Unsaved::Write)
    }
}

/// The export of the frames as it is saved.
#[derive(Clone, Copy)]
struct Frames<'a> {
    export: &'a Export,
}

impl SavedText for Frames<'_> {
    ghost text = { λ frames. exported_text frames.export.now };

    fn write_to<W: Write + Drop>(&self, w: &mut BufWriter<W>) -> Result<(), Unsaved> {
        match self.export.save(w) {
            Ok(()) => w.flush().map_err(|_| Unsaved::Write),
            Err(_) => Err(Unsaved::Write),
        }
    }
}

/// The saves that are begun: of the packets, and of the export of the frames.
#[derive(Drop)]
pub struct Saves<B> {
    packets: Option<B>,
    frames: Option<B>,
}

/// Gives up a save, if one was begun.
fn abandon<R: SavedFiles + AllocGlobal>(rt: &R, begun: Option<R::Begun>) {
    if let Some(begun) = begun {
        rt.abandon_save(rt.alloc(), begun);
    }
}

/// Gives up the saves that were begun.
pub(crate) fn abandon_saves<R: SavedFiles + AllocGlobal>(rt: &R, saves: Saves<R::Begun>) {
    let Saves { packets, frames } = saves;
    abandon(rt, packets);
    abandon(rt, frames);
}

/// Begins a save at the path of this option, if there is one: the new file is made, unless a device or a pipe is there.
#[tactic(auto, using(crate::proofs::Ended::save_fault))]
fn begin_at<R: SavedFiles + AllocGlobal, E: Write>(
    rt: &R,
    option: Argument,
    path: Option<&str>,
    messages: &mut Messages<'_, E>,
) -> Result<Option<R::Begun>, Fault<'static>>
    ensures begun { IfOk result (λ begun. is_some begun ≡ is_some path.entry) }
    ensures fault { IfErr result IsSaveFault }
    ensures has_refused { messages.new.has_refused ≡ messages.old.has_refused }
{
    let Some(path) = path else {
        return Ok(None);
    };
    match rt.begin_save(rt.alloc(), path) {
        Ok(begun) => Ok(Some(begun)),
        Err(error) => Err(messages.not_saved(UnsavedFile {
            option,
            why: unmade(error),
        })),
    }
}

/// Begins the saves that the arguments ask for. If the second cannot be begun, the first is given up.
pub fn begin_saves<R: SavedFiles + AllocGlobal, E: Write>(
    rt: &R,
    words: Words<'_>,
    messages: &mut Messages<'_, E>,
) -> Result<Saves<R::Begun>, Fault<'static>>
    ensures packets { IfOk result (λ saves. is_some saves.packets ≡ is_some words.entry.saved) }
    ensures frames { IfOk result (λ saves. is_some saves.frames ≡ is_some words.entry.exported) }
    ensures fault { IfErr result IsSaveFault }
    ensures has_refused { messages.new.has_refused ≡ messages.old.has_refused }
{
    let packets = begin_at(rt, Argument::Save, words.saved, messages)?;
    match begin_at(rt, Argument::Export, words.exported, messages) {
        Ok(frames) => Ok(Saves { packets, frames }),
        Err(fault) => {
            abandon(rt, packets);
            Err(fault)
        }
    }
}

/// Why a new file could not be made.
fn unmade(error: io::Error) -> Unsaved
    ensures { error_kind error ≢ ErrorKind.OutOfMemory → result ≡ Unsaved.Make error }
{
    if error.kind() == ErrorKind::OutOfMemory {
        return Unsaved::NoMemory;
    }
    Unsaved::Make(error)
}

/// Saves a text at a path, if there is one, as it was begun.
fn finish_one<R: SavedFiles + AllocGlobal, T: SavedText>(
    rt: &R,
    path: Option<&str>,
    begun: Option<R::Begun>,
    text: &T,
) -> Result<(), Unsaved>
    requires { is_some begun ≡ is_some path }
    ensures { OnOk result (IfSome path.entry (λ path. R.is_saved_at rt.now path.now (T.text text.now))) }
{
    let Some(path) = path else {
        return Ok(());
    };
    match begun {
        Some(begun) => rt.finish_save(rt.alloc(), path, begun, text),
        None => Ok(()),
    }
}

/// Saves the packets of source 0 of a session as it was begun.
fn finish_packets<R: SavedFiles + AllocGlobal>(
    rt: &R,
    session: &Session,
    words: Words<'_>,
    begun: Option<R::Begun>,
) -> Result<(), Unsaved>
    requires { is_some begun ≡ is_some words.saved }
    ensures { OnOk result (ArePacketsSaved (R.is_saved_at rt.now) words.entry session.now.state) }
{
    let packets = Packets {
        session,
        pads: words.pads,
        restamps: words.restamps,
    };
    finish_one(rt, words.saved, begun, &packets)
}

/// Saves the export of the frames as it was begun.
fn finish_frames<R: SavedFiles + AllocGlobal>(
    rt: &R,
    export: Option<&Export>,
    words: Words<'_>,
    begun: Option<R::Begun>,
) -> Result<(), Unsaved>
    requires { is_some begun ≡ is_some words.exported }
    ensures { OnOk result (IfSome export.entry (λ export. IsExportSaved (R.is_saved_at rt.now) words.entry export.now)) }
{
    let Some(export) = export else {
        abandon(rt, begun);
        return Ok(());
    };
    let frames = Frames { export };
    finish_one(rt, words.exported, begun, &frames)
}

/// Saves the packets of source 0 of a session and the export of its frames, as they were begun, at both paths: both files are whole before either
/// is replaced.
fn finish_two<R: SavedFiles + AllocGlobal>(
    rt: &R,
    session: &Session,
    export: &Export,
    words: Words<'_>,
    begun: (R::Begun, R::Begun),
) -> Result<(), OneUnsaved>
    requires packets { is_some words.saved ≡ true }
    requires frames { is_some words.exported ≡ true }
    ensures packets { OnOk result (ArePacketsSaved (R.is_saved_at rt.now) words.entry session.now.state) }
    ensures frames { OnOk result (IsExportSaved (R.is_saved_at rt.now) words.entry export.now) }
{
    let (Some(saved), Some(exported)) = (words.saved, words.exported) else {
        return Ok(());
    };
    let packets = Packets {
        session,
        pads: words.pads,
        restamps: words.restamps,
    };
    let frames = Frames { export };
    let first = Save {
        path: saved,
        begun: begun.0,
        text: &packets,
    };
    let second = Save {
        path: exported,
        begun: begun.1,
        text: &frames,
    };
    rt.finish_both(rt.alloc(), first, second)
}

/// Saves the packets of source 0 of a session, or the export of its frames, as they were begun.
fn finish_each<R: SavedFiles + AllocGlobal>(
    rt: &R,
    done: &Answered,
    words: Words<'_>,
    saves: Saves<R::Begun>,
) -> Result<(), OneUnsaved>
    requires packets { is_some saves.packets ≡ is_some words.saved }
    requires frames { is_some saves.frames ≡ is_some words.exported }
    ensures packets { OnOk result (ArePacketsSaved (R.is_saved_at rt.now) words.entry done.now.session.state) }
    ensures frames { OnOk result (IfSome done.now.export (IsExportSaved (R.is_saved_at rt.now) words.entry)) }
{
    let Saves { packets, frames } = saves;
    if let Err(why) = finish_packets(rt, &done.session, words, packets) {
        abandon(rt, frames);
        return Err(OneUnsaved::First(why));
    }
    finish_frames(rt, done.export.as_ref(), words, frames).map_err(OneUnsaved::Second)
}

/// Saves what was begun.
fn finish_begun<R: SavedFiles + AllocGlobal>(
    rt: &R,
    done: &Answered,
    words: Words<'_>,
    saves: Saves<R::Begun>,
) -> Result<(), OneUnsaved>
    requires packets { is_some saves.packets ≡ is_some words.saved }
    requires frames { is_some saves.frames ≡ is_some words.exported }
    ensures packets { OnOk result (ArePacketsSaved (R.is_saved_at rt.now) words.entry done.now.session.state) }
    ensures frames { OnOk result (IfSome done.now.export (IsExportSaved (R.is_saved_at rt.now) words.entry)) }
{
    let Saves { packets, frames } = saves;
    let Some(export) = done.export.as_ref() else {
        return finish_each(rt, done, words, Saves { packets, frames });
    };
    let Some(first) = packets else {
        let packets = None;
        return finish_each(rt, done, words, Saves { packets, frames });
    };
    let Some(second) = frames else {
        let packets = Some(first);
        let frames = None;
        return finish_each(rt, done, words, Saves { packets, frames });
    };
    finish_two(rt, &done.session, export, words, (first, second))
}

/// Saves the packets of source 0 of a session and the export of its frames, as they were begun. If both are saved, both files are whole and on the
/// disk before either is replaced; if one fails, neither is replaced, unless the second could not be.
#[tactic(auto, using(crate::proofs::Ended::save_fault))]
pub fn finish_saves<R: SavedFiles + AllocGlobal, E: Write>(
    rt: &R,
    done: &Answered,
    words: Words<'_>,
    saves: Saves<R::Begun>,
    messages: &mut Messages<'_, E>,
) -> Result<(), Fault<'static>>
    requires packets { is_some saves.packets ≡ is_some words.saved }
    requires frames { is_some saves.frames ≡ is_some words.exported }
    ensures packets { OnOk result (ArePacketsSaved (R.is_saved_at rt.now) words.entry done.now.session.state) }
    ensures frames { OnOk result (IfSome done.now.export (IsExportSaved (R.is_saved_at rt.now) words.entry)) }
    ensures fault { IfErr result IsSaveFault }
{
    match finish_begun(rt, done, words, saves) {
        Ok(()) => Ok(()),
        Err(OneUnsaved::First(why)) => Err(messages.not_saved(UnsavedFile {
            option: Argument::Save,
            why,
        })),
        Err(OneUnsaved::Second(why)) => Err(messages.not_saved(UnsavedFile {
            option: Argument::Export,
            why,
        })),
    }
}
