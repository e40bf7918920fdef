// Lines for whose bytes there was no memory.
ghost use Rattle.std.specs.Prelude.{◌≡◌, ℕ, List, [], ◌++◌, if◌then◌else◌};
ghost use Rattle.std.specs.Str.Lines.{strip_carriage_return};
ghost use Rattle.text_words.specs.Words.{from_word};
ghost use Rattle.request_lines.specs.Lost.{beginning_at, beginning_of, is_return, lost_by};

use crate::lines::Line;
use text_words::leading_spaces;

/// How a line begins: enough to know whether it has a reply.
#[derive(Clone, Copy)]
pub struct Beginning {
    /// The first byte that is not a space, if there is one.
    first: Option<u8>,
    /// Whether bytes follow it.
    has_more: bool,
}

/// The text after leading spaces.
fn from_word(text: &[u8]) -> &[u8]
    ensures { result.now ≡ from_word text.now }
{
    let (_, words) = text.split_at(leading_spaces(text));
    words
}

/// The beginning of a text without leading spaces.
fn beginning_at(words: &[u8]) -> Beginning
    ensures { result ≡ beginning_at words.now }
{
    match words {
        [] => Beginning {
            first: None,
            has_more: false,
        },
        [first, rest @ ..] => Beginning {
            first: Some(*first),
            has_more: !rest.is_empty(),
        },
    }
}

impl Beginning {
    /// The beginning of a line of which nothing is read.
    pub fn empty() -> Beginning
        ensures { result ≡ beginning_of [] }
    {
        Beginning {
            first: None,
            has_more: false,
        }
    }

    /// The beginning of the line after more of its bytes are read.
    pub fn with(self, part: &[u8]) -> Beginning
        ensures { (line : List ℕ) → self ≡ beginning_of line → result ≡ beginning_of (line ++ part.now) }
    {
        if self.first.is_none() {
            return beginning_at(from_word(part));
        }
        Beginning {
            first: self.first,
            has_more: self.has_more || !part.is_empty(),
        }
    }

    /// Whether the line has only a carriage return after its spaces.
    fn is_return(self) -> bool
        ensures { result ≡ is_return self }
    {
        self.first == Some(b'\r') && !self.has_more
    }

    /// The request of the line, whose other bytes are not known. `is_terminated` is whether a newline follows the line: then a carriage
    /// return at its end is not part of it.
    pub fn request(self, is_terminated: bool) -> Line<'static>
        ensures { (line : List ℕ) → self ≡ beginning_of line → result ≡ lost_by (if is_terminated then strip_carriage_return line else line) }
    {
        let Some(first) = self.first else {
            return Line::Silent;
        };
        if first == b'#' {
            return Line::Silent;
        }
        if is_terminated && self.is_return() {
            return Line::Silent;
        }
        Line::Lost
    }
}
