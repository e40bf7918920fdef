// Request lines, and how each is read by the form of its command.
ghost use Rattle.std.specs.Prelude.{◌≡◌, [], Err, IfErr, IfOk, Ok, codes, drop, is_some};
ghost use Rattle.text_words.specs.Words.{words_of};
ghost use Rattle.request_lines.specs.Requests.{asked_by, edit_commands, question_commands, first_bytes, first_number, form_in, is_unknown, misfit_of, no_bytes, read_after, read_form, read_of, read_words};

use crate::edit::Edit;
use crate::hex_text::Hex;
use crate::misfit::Misfit;
use crate::part::Part;
use crate::question::Question;
use text_words::{next_word, number};

/// A request line.
#[derive(Drop)]
pub enum Line<'a> {
    /// No words, or a comment: no reply.
    Silent,
    /// Not a request: refused.
    Unknown,
    /// Serves the frame with this number, counted from 0.
    Frame(u64),
    /// Chooses the source on which edits act.
    Use(u64),
    /// Edits the packets of the current source.
    Edit(Edit<Hex<'a>>),
    /// Sets another script.
    Script(Part<'a>),
    /// Reports the number of packets and the number of frames that the script serves.
    Count,
    /// Reports the number of decoding steps made.
    Stats,
    /// Answers a question. Nothing changes.
    Ask(Question),
    /// A line for whose bytes there was no memory: refused as out of memory.
    Lost,
}

/// The number that is the next word, and the text after it.
fn next_number(line: &[u8]) -> Result<(u64, &[u8]), Misfit<'_>>
    ensures found { IfOk result (λ found. first_number (words_of line.now) ≡ Ok found.0) }
    ensures following { IfOk result (λ found. drop 1 (words_of line.now) ≡ words_of found.1.now) }
    ensures misfit { IfErr result (λ misfit. first_number (words_of line.now) ≡ Err misfit) }
{
    let Some((word, rest)) = next_word(line) else {
        return Err(Misfit::Missing);
    };
    match number(word) {
        Some(n) => Ok((n, rest)),
        None => Err(Misfit::NoNumber(Part::new(word))),
    }
}

/// The bytes that are the next word, and the text after it.
fn next_bytes(line: &[u8]) -> Result<(Hex<'_>, &[u8]), Misfit<'_>>
    ensures found { IfOk result (λ found. first_bytes (words_of line.now) ≡ Ok found.0) }
    ensures following { IfOk result (λ found. drop 1 (words_of line.now) ≡ words_of found.1.now) }
    ensures misfit { IfErr result (λ misfit. first_bytes (words_of line.now) ≡ Err misfit) }
{
    let Some((word, rest)) = next_word(line) else {
        return Err(Misfit::Missing);
    };
    match Hex::of_word(word) {
        Some(bytes) => Ok((bytes, rest)),
        None => Err(no_bytes(word)),
    }
}

/// Why a word does not write bytes.
fn no_bytes(word: &[u8]) -> Misfit<'_>
    ensures { result ≡ no_bytes word.now }
{
    if word.len() % 2 == 1 {
        Misfit::OddDigits(Part::new(word))
    } else {
        Misfit::NoBytes(Part::new(word))
    }
}

/// The request, if no word is left.
fn ended<'a>(request: Line<'a>, rest: &'a [u8]) -> Result<Line<'a>, Misfit<'a>>
    ensures { result ≡ read_words [] request.entry (words_of rest.now) }
{
    match next_word(rest) {
        None => Ok(request),
        Some((word, _)) => Err(Misfit::TooMany(Part::new(word))),
    }
}

/// The request of a line, or why it is not one: the first of its words that does not fit.
///
/// A line without words, or whose first word begins with `#`, has no reply. The requests are
/// `frame N`, `use K`, `script TEXT`, `count`, `stats`, the questions `packet N`, `macroblocks N`, `header N`, `list FIRST COUNT`, `check FIRST COUNT`, `origins FIRST COUNT` and `script`, and the edits `insert AT STAMP HEX`,
/// `replace AT HEX`, `delete AT`, `move FROM TO`, `copy S FROM AT`, `blank AT W H`, `hold AT`, `hide N` and `show N`. HEX is `-`
/// or an even number of hexadecimal digits, TEXT is the rest of the line with at least one word, and the others are numbers.
pub fn read_line(line: &[u8]) -> Result<Line<'_>, Misfit<'_>>
    ensures { result ≡ read_of line.now }
{
    let Some((command, words)) = next_word(line) else {
        return Ok(Line::Silent);
    };
    if command.starts_with(b"#") {
        Ok(Line::Silent)
    } else if command == b"frame".as_slice() {
        frame_line(words)
    } else if command == b"use".as_slice() {
        use_line(words)
    } else if command == b"script".as_slice() {
        script_line(words)
    } else if command == b"count".as_slice() {
        ended(Line::Count, words)
    } else if command == b"stats".as_slice() {
        ended(Line::Stats, words)
    } else {
        read_question(command, words)
    }
}

/// The request of a command that only asks or edits, from the text after it.
fn read_question<'a>(command: &[u8], words: &'a [u8]) -> Result<Line<'a>, Misfit<'a>>
    ensures { result ≡ read_form (form_in question_commands command.now) words.now (words_of words.now) }
{
    if command == b"packet".as_slice() {
        packet_line(words)
    } else if command == b"macroblocks".as_slice() {
        macroblocks_line(words)
    } else if command == b"header".as_slice() {
        header_line(words)
    } else if command == b"list".as_slice() {
        list_line(words)
    } else if command == b"check".as_slice() {
        check_line(words)
    } else if command == b"origins".as_slice() {
        origins_line(words)
    } else {
        read_edit(command, words)
    }
}

/// The request of a command that edits, from the text after it.
fn read_edit<'a>(command: &[u8], words: &'a [u8]) -> Result<Line<'a>, Misfit<'a>>
    ensures { result ≡ read_form (form_in edit_commands command.now) words.now (words_of words.now) }
{
    if command == b"insert".as_slice() {
        insert_line(words)
    } else if command == b"replace".as_slice() {
        replace_line(words)
    } else if command == b"delete".as_slice() {
        delete_line(words)
    } else if command == b"move".as_slice() {
        move_line(words)
    } else if command == b"copy".as_slice() {
        copy_line(words)
    } else if command == b"blank".as_slice() {
        blank_line(words)
    } else if command == b"hold".as_slice() {
        hold_line(words)
    } else if command == b"hide".as_slice() {
        hide_line(words)
    } else if command == b"show".as_slice() {
        show_line(words)
    } else {
        Err(Misfit::NoRequest)
    }
}

/// Why a line is not a request. It has a reason exactly if it is not one; a line without words and a comment have none.
#[tactic(auto, using(crate::proofs::Exact::read_exact))]
pub fn line_misfit(line: &[u8]) -> Option<Misfit<'_>>
    ensures misfit { result ≡ misfit_of line.now }
    ensures exact { is_some result ≡ is_unknown (asked_by line.now) }
{
    read_line(line).err()
}

fn frame_line(words: &[u8]) -> Result<Line<'_>, Misfit<'_>>
    ensures { result ≡ read_after (codes "frame") words.now }
{
    let (n, rest) = next_number(words)?;
    ended(Line::Frame(n), rest)
}

fn use_line(words: &[u8]) -> Result<Line<'_>, Misfit<'_>>
    ensures { result ≡ read_after (codes "use") words.now }
{
    let (source, rest) = next_number(words)?;
    ended(Line::Use(source), rest)
}

fn packet_line(words: &[u8]) -> Result<Line<'_>, Misfit<'_>>
    ensures { result ≡ read_after (codes "packet") words.now }
{
    let (at, rest) = next_number(words)?;
    ended(Line::Ask(Question::Packet { at }), rest)
}

fn macroblocks_line(words: &[u8]) -> Result<Line<'_>, Misfit<'_>>
    ensures { result ≡ read_after (codes "macroblocks") words.now }
{
    let (at, rest) = next_number(words)?;
    ended(Line::Ask(Question::Macroblocks { at }), rest)
}

fn header_line(words: &[u8]) -> Result<Line<'_>, Misfit<'_>>
    ensures { result ≡ read_after (codes "header") words.now }
{
    let (at, rest) = next_number(words)?;
    ended(Line::Ask(Question::Header { at }), rest)
}

fn list_line(words: &[u8]) -> Result<Line<'_>, Misfit<'_>>
    ensures { result ≡ read_after (codes "list") words.now }
{
    let (first, rest) = next_number(words)?;
    let (count, rest) = next_number(rest)?;
    ended(Line::Ask(Question::List { first, count }), rest)
}

fn check_line(words: &[u8]) -> Result<Line<'_>, Misfit<'_>>
    ensures { result ≡ read_after (codes "check") words.now }
{
    let (first, rest) = next_number(words)?;
    let (count, rest) = next_number(rest)?;
    ended(Line::Ask(Question::Check { first, count }), rest)
}

fn origins_line(words: &[u8]) -> Result<Line<'_>, Misfit<'_>>
    ensures { result ≡ read_after (codes "origins") words.now }
{
    let (first, rest) = next_number(words)?;
    let (count, rest) = next_number(rest)?;
    ended(Line::Ask(Question::Origins { first, count }), rest)
}

fn insert_line(words: &[u8]) -> Result<Line<'_>, Misfit<'_>>
    ensures { result ≡ read_after (codes "insert") words.now }
{
    let (at, rest) = next_number(words)?;
    let (stamp, rest) = next_number(rest)?;
    let (bytes, rest) = next_bytes(rest)?;
    ended(Line::Edit(Edit::Insert { at, stamp, bytes }), rest)
}

fn replace_line(words: &[u8]) -> Result<Line<'_>, Misfit<'_>>
    ensures { result ≡ read_after (codes "replace") words.now }
{
    let (at, rest) = next_number(words)?;
    let (bytes, rest) = next_bytes(rest)?;
    ended(Line::Edit(Edit::Replace { at, bytes }), rest)
}

fn delete_line(words: &[u8]) -> Result<Line<'_>, Misfit<'_>>
    ensures { result ≡ read_after (codes "delete") words.now }
{
    let (at, rest) = next_number(words)?;
    ended(Line::Edit(Edit::Delete { at }), rest)
}

fn move_line(words: &[u8]) -> Result<Line<'_>, Misfit<'_>>
    ensures { result ≡ read_after (codes "move") words.now }
{
    let (from, rest) = next_number(words)?;
    let (to, rest) = next_number(rest)?;
    ended(Line::Edit(Edit::Move { from, to }), rest)
}

fn copy_line(words: &[u8]) -> Result<Line<'_>, Misfit<'_>>
    ensures { result ≡ read_after (codes "copy") words.now }
{
    let (source, rest) = next_number(words)?;
    let (from, rest) = next_number(rest)?;
    let (at, rest) = next_number(rest)?;
    ended(Line::Edit(Edit::Copy { source, from, at }), rest)
}

fn blank_line(words: &[u8]) -> Result<Line<'_>, Misfit<'_>>
    ensures { result ≡ read_after (codes "blank") words.now }
{
    let (at, rest) = next_number(words)?;
    let (width, rest) = next_number(rest)?;
    let (height, rest) = next_number(rest)?;
    ended(Line::Edit(Edit::Blank { at, width, height }), rest)
}

fn hold_line(words: &[u8]) -> Result<Line<'_>, Misfit<'_>>
    ensures { result ≡ read_after (codes "hold") words.now }
{
    let (at, rest) = next_number(words)?;
    ended(Line::Edit(Edit::Hold { at }), rest)
}

fn hide_line(words: &[u8]) -> Result<Line<'_>, Misfit<'_>>
    ensures { result ≡ read_after (codes "hide") words.now }
{
    let (at, rest) = next_number(words)?;
    ended(Line::Edit(Edit::ShowBit { at, shown: false }), rest)
}

fn show_line(words: &[u8]) -> Result<Line<'_>, Misfit<'_>>
    ensures { result ≡ read_after (codes "show") words.now }
{
    let (at, rest) = next_number(words)?;
    ended(Line::Edit(Edit::ShowBit { at, shown: true }), rest)
}

fn script_line(text: &[u8]) -> Result<Line<'_>, Misfit<'_>>
    ensures { result ≡ read_after (codes "script") text.now }
{
    match next_word(text) {
        None => Ok(Line::Ask(Question::Script)),
        Some(_) => Ok(Line::Script(Part::new(text))),
    }
}
