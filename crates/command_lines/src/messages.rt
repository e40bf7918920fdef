// A writer of messages for a terminal: a control character of a path or of a file is written as `?`.
ghost use Rattle.std.specs.Prelude.{◌≡◌, ◌≤◌, length};
ghost use Rattle.command_lines.specs.Controls.{control_length, is_control, is_control_end, plain_length};

use std::io::{self, Write};

/// A writer that writes `?` for each control character and passes on all other bytes, also a newline.
///
/// A message with the name of a file cannot clear a terminal, or move its cursor.
#[derive(Drop)]
pub struct MessageWriter<W> {
    inner: W,
}

/// Whether a byte is a control character other than the newline.
fn is_control(byte: u8) -> bool
    ensures { result ≡ is_control byte }
{
    (byte < 32 && byte != b'\n') || byte == 127
}

/// Whether a byte after C2 makes a control character with it.
fn is_control_end(byte: u8) -> bool
    ensures { result ≡ is_control_end byte }
{
    0x80 <= byte && byte <= 0x9F
}

/// The number of bytes of the control character at the front of a text, and 0 if another character is there.
pub fn control_length(text: &[u8]) -> usize
    ensures value { result ≡ control_length text.now }
    ensures within { result ≤ length text.now }
{
    match text {
        [byte, ..] if is_control(*byte) => 1,
        [0xC2, next, ..] if is_control_end(*next) => 2,
        _ => 0,
    }
}

/// The number of bytes before the first control character.
pub fn plain_length(text: &[u8]) -> usize
    ensures value { result ≡ plain_length text.now }
    ensures within { result ≤ length text.now }
{
    let mut count = 0;
    let mut left = text;
    while let [_, rest @ ..] = left {
        if control_length(left) > 0 {
            return count;
        }
        count += 1;
        left = rest;
    }
    count
}

impl<W: Write> MessageWriter<W> {
    /// Messages that go to this writer.
    pub fn new(inner: W) -> MessageWriter<W>
        ensures { result.inner ≡ inner }
    {
        MessageWriter { inner }
    }
}

impl<W: Write> Write for MessageWriter<W> {
    fn write(&mut self, buf: &[u8]) -> io::Result<usize> {
        let plain = plain_length(buf);
        if plain > 0 {
            return self.inner.write(&buf[..plain]);
        }
        let skipped = control_length(buf);
        if skipped > 0 {
            self.inner.write_all(b"?")?;
        }
        Ok(skipped)
    }

    fn flush(&mut self) -> io::Result<()> {
        self.inner.flush()
    }
}
