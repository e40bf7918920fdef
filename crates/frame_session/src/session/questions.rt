// The answers to questions.
ghost use Rattle.std.specs.Prelude.{◌≡◌, ◌⊎◌, ◌+◌, ◌++◌, ◌<◌, ◌≤◌, IfOk, IfSome, OnOk, length};
ghost use Rattle.std.specs.List.{concat};
ghost use Rattle.std.specs.Io.KnownBytes.{Appends};
ghost use Rattle.session_questions.specs.Details.{detail_text};
ghost use Rattle.session_questions.specs.Findings.{check_lines};
ghost use Rattle.session_questions.specs.Kept.{IsListed, IsLister};
ghost use Rattle.vp8_tables.specs.Tables.{TableEntries};
ghost use Rattle.frame_session.specs.Questions.{GainsAnswer, check_answer, detail_answer, list_answer, packet_answer};
ghost use Rattle.frame_session.specs.Replies.{lines_line, newlines, refused_line, text_reply};
ghost use Rattle.frame_session.specs.Sessions.{current_list};
ghost use Rattle.frame_session.specs.Told.{Tells};

use super::Session;
use crate::refusal::Refusal;
use crate::replies::{write_lines_line, write_packet, write_refused, write_script};
use macroblock_lists::What;
use packet_edits::Store;
use pixel_planes::NoMemory;
use request_lines::Question;
use session_questions::Lister;
use std::alloc::Global;
use std::io::Write;
use stream_files::WriteFault;
use vp8_tables::Tables;

/// Writes the packet at index `at` of a source, or that there is none.
#[tactic(auto, using(crate::proofs::Asked::packet_wrote, crate::proofs::Asked::none_wrote))]
fn write_packet_at<W: Write>(
    w: &mut W,
    store: &Store,
    at: u64,
) -> Result<Option<Refusal>, WriteFault>
    ensures wrote { OnOk result (Appends (W.contents w.old) (W.contents w.new) (packet_answer store.now.list at)) }
    ensures told { IfOk result (Tells (W.contents w.old) (W.contents w.new)) }
{
    if at < store.len() as u64 {
        write_packet(w, store.stamp(at as usize), store.packet(at as usize))
    } else {
        write_refused(w, Refusal::Place)
    }
}

/// Writes the lines of at most `count` packets of a source, starting at index `first`, or that there is no such index.
fn write_list<W: Write>(
    w: &mut W,
    lister: &mut Lister,
    store: &Store,
    first: u64,
    count: u64,
) -> Result<Option<Refusal>, WriteFault>
    requires { IfSome lister.old.listed (IsListed store.now.list) }
    ensures kept { (tables : TableEntries) → IsLister tables store.now.list lister.old → IsLister tables store.now.list lister.new }
    ensures wrote { OnOk result (Appends (W.contents w.old) (W.contents w.new) (list_answer store.now.list first count)) }
    ensures told { IfOk result (Tells (W.contents w.old) (W.contents w.new)) }
{
    let len = store.len() as u64;
    if len < first {
        return write_refused(w, Refusal::Place);
    }
    let count = count.min(len - first);
    write_lines_line(w, count)?;
    lister.write_lines(w, store, first as usize, count as usize)?;
    Ok(None)
}

/// The number of newlines in a text.
fn newlines(text: &[u8]) -> u64
    ensures { result ≡ newlines text.now }
{
    text.iter().filter(|byte| **byte == b'\n').count() as u64
}

/// The macroblocks or the header of the packet at index `at`. `NoMemory` if memory runs out for them.
fn detail_text(
    alloc: Global,
    lister: &mut Lister,
    tables: &Tables,
    what: What,
    store: &Store,
    at: usize,
) -> Result<Vec<u8>, NoMemory>
    requires within { at < length store.now.list.entries }
    requires kept { IsLister tables.now store.now.list lister.old }
    ensures text { IfOk result (λ text. text.items ≡ detail_text what tables.now store.now.list at) }
    ensures kept { IsLister tables.now store.now.list lister.new }
{
    let mut text = Vec::new(alloc);
    match lister.write_details(&mut text, tables, what, store, at) {
        Ok(()) => Ok(text),
        Err(_) => Err(NoMemory),
    }
}

/// The lines of a check of `count` packets, starting at index `first`, and their number. `NoMemory` if memory runs out for them.
fn check_text(
    alloc: Global,
    lister: &mut Lister,
    tables: &Tables,
    store: &Store,
    first: usize,
    count: usize,
) -> Result<(Vec<u8>, u64), NoMemory>
    requires within { first + count ≤ length store.now.list.entries }
    requires kept { IsLister tables.now store.now.list lister.old }
    ensures text { IfOk result (λ made. made.0.items ≡ concat (check_lines tables.now store.now.list first count)) }
    ensures lines { IfOk result (λ made. made.1 ≡ length (check_lines tables.now store.now.list first count)) }
    ensures kept { IsLister tables.now store.now.list lister.new }
{
    let mut text = Vec::new(alloc);
    match lister.write_check(&mut text, tables, store, first, count) {
        Ok(lines) => Ok((text, lines)),
        Err(_) => Err(NoMemory),
    }
}

/// Writes a text of so many lines, after their number.
fn write_whole<W: Write>(w: &mut W, lines: u64, text: &[u8]) -> Result<Option<Refusal>, WriteFault>
    ensures wrote { OnOk result (Appends (W.contents w.old) (W.contents w.new) (lines_line lines ++ text.now)) }
    ensures told { IfOk result (Tells (W.contents w.old) (W.contents w.new)) }
{
    write_lines_line(w, lines)?;
    w.write_all(text).map_err(|_| WriteFault::Write)?;
    Ok(None)
}

/// Writes a text of several lines, after their number.
fn write_counted<W: Write>(w: &mut W, text: &[u8]) -> Result<Option<Refusal>, WriteFault>
    ensures wrote { OnOk result (Appends (W.contents w.old) (W.contents w.new) (text_reply text.now)) }
    ensures told { IfOk result (Tells (W.contents w.old) (W.contents w.new)) }
{
    write_whole(w, newlines(text), text)
}

impl Session {
    /// Writes the macroblocks or the header of the packet at index `at` of the current source, or that there is none, or that memory
    /// ran out for them.
    fn answer_details<W: Write>(
        &mut self,
        w: &mut W,
        what: What,
        at: u64,
    ) -> Result<Option<Refusal>, WriteFault>
        ensures wrote { OnOk result (Appends (W.contents w.old) (W.contents w.new) (detail_answer what self.old.state.tables (current_list self.old.state) at) ⊎ Appends (W.contents w.old) (W.contents w.new) (refused_line Refusal.NoMemory)) }
        ensures told { IfOk result (Tells (W.contents w.old) (W.contents w.new)) }
        ensures same { self.new ≡ self.old }
    {
        let store = &self.stores[self.current];
        if store.len() as u64 <= at {
            return write_refused(w, Refusal::Place);
        }
        match detail_text(
            self.alloc,
            &mut self.lister,
            &self.tables,
            what,
            store,
            at as usize,
        ) {
            Ok(text) => write_counted(w, text.as_slice()),
            Err(_) => write_refused(w, Refusal::NoMemory),
        }
    }

    /// Writes the findings at at most `count` packets of the current source, starting at index `first`, and how many they are, or that
    /// there is no such index, or that memory ran out for them.
    fn answer_check<W: Write>(
        &mut self,
        w: &mut W,
        first: u64,
        count: u64,
    ) -> Result<Option<Refusal>, WriteFault>
        ensures wrote { OnOk result (Appends (W.contents w.old) (W.contents w.new) (check_answer self.old.state.tables (current_list self.old.state) first count) ⊎ Appends (W.contents w.old) (W.contents w.new) (refused_line Refusal.NoMemory)) }
        ensures told { IfOk result (Tells (W.contents w.old) (W.contents w.new)) }
        ensures same { self.new ≡ self.old }
    {
        let store = &self.stores[self.current];
        let len = store.len() as u64;
        if len < first {
            return write_refused(w, Refusal::Place);
        }
        let cut = count.min(len - first);
        match check_text(
            self.alloc,
            &mut self.lister,
            &self.tables,
            store,
            first as usize,
            cut as usize,
        ) {
            Ok((text, lines)) => write_whole(w, lines, text.as_slice()),
            Err(_) => write_refused(w, Refusal::NoMemory),
        }
    }

    /// Writes the reply to a question, and returns the refusal that it reports, if it reports one. Nothing of the session changes that
    /// an answer depends on: it keeps what reading the packets found, for the next question.
    pub(crate) fn answer<W: Write>(
        &mut self,
        w: &mut W,
        question: Question,
    ) -> Result<Option<Refusal>, WriteFault>
        ensures wrote { OnOk result (GainsAnswer self.old.state question (W.contents w.old) (W.contents w.new)) }
        ensures told { IfOk result (Tells (W.contents w.old) (W.contents w.new)) }
        ensures same { self.new ≡ self.old }
    {
        match question {
            Question::Packet { at } => write_packet_at(w, &self.stores[self.current], at),
            Question::Macroblocks { at } => self.answer_details(w, What::Macroblocks, at),
            Question::Header { at } => self.answer_details(w, What::Header, at),
            Question::Script => write_script(w, &self.script),
            Question::List { first, count } => {
                let store = &self.stores[self.current];
                write_list(w, &mut self.lister, store, first, count)
            }
            Question::Check { first, count } => self.answer_check(w, first, count),
            Question::Origins { first, count } => self.write_origins(w, first, count),
        }
    }
}
