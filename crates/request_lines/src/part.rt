ghost use Rattle.std.specs.Prelude.{◌≡◌};

use std::marker::Model;

/// A part of a request line: a word, or the text of a script. A contract sees its bytes.
#[derive(Drop)]
pub struct Part<'a> {
    text: &'a [u8],
}

impl<'a> Model for Part<'a> {
    ghost use Rattle.std.specs.Prelude.{ℕ, List};

    ghost Value = { List ℕ };

    ghost view = { λ s. s.text.now };
}

impl<'a> Part<'a> {
    /// The part with these bytes.
    pub fn new(text: &'a [u8]) -> Part<'a>
        ensures { result ≡ text.now }
    {
        Part { text }
    }

    /// Its bytes.
    pub fn as_slice(&self) -> &[u8]
        ensures { result.now ≡ self.now }
    {
        self.text
    }
}
