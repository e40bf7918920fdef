// Why a line is not a request.
ghost use Rattle.std.specs.Prelude.{◌≡◌, ◌++◌, ◌==◌, OnOk, is_some, option_map};
ghost use Rattle.std.specs.List.{list_any};
ghost use Rattle.std.specs.Io.KnownBytes.{Appends};
ghost use Rattle.request_lines.specs.Requests.{asked_by, is_unknown};
ghost use Rattle.explanations.specs.Words.{shown_word};
ghost use Rattle.explanations.specs.Lines.{has_no_break_space, hidden_reason, is_binary, misfit_text, reason_of, reason_text};

use crate::words::{write_text, write_word};
use request_lines::{Misfit, Part, line_misfit};
use std::io::{self, Write};

/// Why a line is not a request, or why a part of a script is not a node.
#[derive(Drop)]
pub enum Reason<'a> {
    /// The line has a byte that no text has.
    NoText,
    /// The line begins with a byte order mark.
    OrderMark,
    /// The line has a tab.
    Tab,
    /// The line has a no-break space.
    NoBreakSpace,
    /// A word that does not fit.
    Word(Misfit<'a>),
    /// This word is not a number of 1 to 10 digits.
    NoShortNumber(Part<'a>),
}

/// Whether no text has this byte.
pub fn is_binary(byte: u8) -> bool
    ensures { result ≡ is_binary byte }
{
    (byte < 32 && byte != b'\t' && byte != b'\r')
        || byte == 127
        || byte == 0xC0
        || byte == 0xC1
        || 0xF5 <= byte
}

/// Whether a line has a byte that no text has.
pub fn is_no_text(line: &[u8]) -> bool
    ensures { result ≡ list_any is_binary line.now }
{
    line.iter().any(|byte| is_binary(*byte))
}

fn has_tab(line: &[u8]) -> bool
    ensures { result ≡ list_any (λ byte. byte == 9) line.now }
{
    line.iter().any(|byte| *byte == b'\t')
}

fn has_no_break_space(line: &[u8]) -> bool
    ensures { result ≡ has_no_break_space line.now }
{
    let mut left = line;
    while let [_, rest @ ..] = left {
        if left.starts_with(&[0xC2, 0xA0]) {
            return true;
        }
        left = rest;
    }
    false
}

/// The bytes of a line that an editor may not show, if it has such.
pub fn hidden_reason(line: &[u8]) -> Option<Reason<'_>>
    ensures { option_map reason_text result ≡ hidden_reason line.now }
{
    if is_no_text(line) {
        Some(Reason::NoText)
    } else if line.starts_with(&[0xEF, 0xBB, 0xBF]) {
        Some(Reason::OrderMark)
    } else if has_tab(line) {
        Some(Reason::Tab)
    } else if has_no_break_space(line) {
        Some(Reason::NoBreakSpace)
    } else {
        None
    }
}

/// Why a line is not a request. It has a reason exactly if it is not one; a line without words and a comment have none.
pub fn line_reason(line: &[u8]) -> Option<Reason<'_>>
    ensures reason { option_map reason_text result ≡ reason_of line.now }
    ensures exact { is_some result ≡ is_unknown (asked_by line.now) }
{
    let Some(misfit) = line_misfit(line) else {
        return None;
    };
    match hidden_reason(line) {
        Some(hidden) => Some(hidden),
        None => Some(Reason::Word(misfit)),
    }
}

/// Writes a reason.
pub fn write_reason<W: Write>(w: &mut W, reason: Reason<'_>) -> io::Result<()>
    ensures { OnOk result (Appends (W.contents w.old) (W.contents w.new) (reason_text reason.entry)) }
{
    match reason {
        Reason::NoText => write_text(w, "the line is not text"),
        Reason::OrderMark => {
            write_text(
                w,
                "the line begins with a byte order mark, EF BB BF: leave it out",
            )
        }
        Reason::Tab => write_text(w, "the line has a tab: use spaces"),
        Reason::NoBreakSpace => write_text(w, "the line has a no-break space, C2 A0: use spaces"),
        Reason::Word(misfit) => write_misfit(w, misfit),
        Reason::NoShortNumber(word) => {
            write_about(w, &word, " is not a number of 1 to 10 digits")
        }
    }
}

/// Writes how a word does not fit.
fn write_misfit<W: Write>(w: &mut W, misfit: Misfit<'_>) -> io::Result<()>
    ensures { OnOk result (Appends (W.contents w.old) (W.contents w.new) (misfit_text misfit.entry)) }
{
    match misfit {
        Misfit::Missing => write_text(w, "a word is missing"),
        Misfit::NoRequest => write_text(w, "there is no such request"),
        Misfit::TooMany(word) => write_about(w, &word, " is one word too many"),
        Misfit::NoNumber(word) => write_about(w, &word, " is not a number below 2^64"),
        Misfit::OddDigits(word) => write_about(w, &word, " has an odd number of digits"),
        Misfit::NoBytes(word) => write_about(w, &word, " is not hexadecimal"),
    }
}

/// Writes a word and a text about it.
fn write_about<W: Write>(w: &mut W, word: &Part<'_>, text: &str) -> io::Result<()>
    ensures { OnOk result (Appends (W.contents w.old) (W.contents w.new) (shown_word word.now ++ text.now)) }
{
    write_word(w, word.as_slice())?;
    write_text(w, text)
}
