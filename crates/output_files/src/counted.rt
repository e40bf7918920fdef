// How much of a text a file took.
ghost use Rattle.std.specs.Prelude.{◌≡◌, IfOk, None, OnErr, take};
ghost use Rattle.std.specs.Io.{WritesAtMost};
ghost use Rattle.std.specs.Io.KnownBytes.{WriteAppends};
ghost use Rattle.output_files.specs.Counts.{IsTakenAfter, whole_pieces};

use memchr::memchr;
use std::io::{self, Write};

/// How many bytes a writer took.
#[derive(Clone, Copy, Debug, Default, PartialEq, Eq)]
pub struct Taken {
    /// All of them, at most 18,446,744,073,709,551,615.
    pub bytes: u64,
    /// Those of the first line, with its newline, once that was taken.
    pub first_line: Option<u64>,
}

impl Taken {
    /// The number of whole pieces of this length after the first line.
    pub fn whole_pieces(self, length: u64) -> u64
        ensures { result ≡ whole_pieces self length }
    {
        match self.first_line {
            Some(line) if length > 0 => self.bytes.saturating_sub(line) / length,
            _ => 0,
        }
    }

    /// What was taken after more bytes were.
    fn after(self, more: &[u8]) -> Taken
        ensures { IsTakenAfter self more.now result }
    {
        let first_line = match self.first_line {
            Some(line) => Some(line),
            None => match memchr(b'\n', more) {
                Some(at) => Some(self.bytes.saturating_add(at as u64).saturating_add(1)),
                None => None,
            },
        };
        Taken {
            bytes: self.bytes.saturating_add(more.len() as u64),
            first_line,
        }
    }
}

/// A writer that counts the bytes that it took.
#[derive(Drop)]
pub struct Counted<W> {
    inner: W,
    taken: Taken,
}

impl<W: Write> Counted<W> {
    /// Counts what this writer takes from now on.
    pub fn new(inner: W) -> Counted<W>
        ensures inner { result.inner ≡ inner }
        ensures none { result.taken ≡ record { bytes = 0; first_line = None } }
    {
        Counted {
            inner,
            taken: Taken {
                bytes: 0,
                first_line: None,
            },
        }
    }

    /// How many bytes it took.
    pub fn taken(&self) -> Taken
        ensures { result ≡ self.now.taken }
    {
        self.taken
    }
}

impl<W: Write> Write for Counted<W> {
    ghost contents = { λ w. W.contents w.inner };

    fn write(&mut self, buf: &[u8]) -> io::Result<usize>
        ensures bound { WritesAtMost result buf.now }
        ensures bytes { WriteAppends (W.contents self.old.inner) (W.contents self.new.inner) result buf.now }
        ensures counted { IfOk result (λ count. IsTakenAfter self.old.taken (take count buf.now) self.new.taken) }
        ensures uncounted { OnErr result (self.new.taken ≡ self.old.taken) }
    {
        let count = self.inner.write(buf)?;
        self.taken = self.taken.after(&buf[..count]);
        Ok(count)
    }

    fn flush(&mut self) -> io::Result<()> {
        self.inner.flush()
    }
}
