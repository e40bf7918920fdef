// Texts within a line of a message.
ghost use Rattle.std.specs.Prelude.{◌≡◌, ◌≤◌, OnOk, length};
ghost use Rattle.std.specs.Io.KnownBytes.{Appends};
ghost use Rattle.command_lines.specs.InLine.{in_line, line_length};

use std::fmt;
use std::io::{self, Write};

/// A text that a message shows, for example a path: a newline in it is shown as `?`, so it cannot pass for a line of its own. The
/// writer of messages does the same with other control characters.
#[derive(Clone, Copy)]
pub struct InLine<'a>(pub &'a str);

impl fmt::Display for InLine<'_> {
    fn fmt<W: fmt::Write>(&self, f: &mut fmt::Formatter<W>) -> fmt::Result {
        for (number, part) in self.0.split('\n').enumerate() {
            if number > 0 {
                f.write_str("?")?;
            }
            f.write_str(part)?;
        }
        Ok(())
    }
}

/// The number of bytes before the first newline.
fn line_length(text: &[u8]) -> usize
    ensures value { result ≡ line_length text.now }
    ensures within { result ≤ length text.now }
{
    let mut count = 0;
    let mut left = text;
    while let [byte, rest @ ..] = left {
        if *byte == b'\n' {
            return count;
        }
        count += 1;
        left = rest;
    }
    count
}

/// Writes a text that a message shows.
pub(crate) fn write_in_line<E: Write>(errors: &mut E, text: &str) -> io::Result<()>
    ensures { OnOk result (Appends (E.contents errors.old) (E.contents errors.new) (in_line text.now)) }
{
    let mut left = text.as_bytes();
    while !left.is_empty() {
        let (front, after) = left.split_at(line_length(left));
        errors.write_all(front)?;
        left = after;
        if let [_, rest @ ..] = after {
            errors.write_all(b"?")?;
            left = rest;
        }
    }
    Ok(())
}
