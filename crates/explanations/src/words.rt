// Words of a request line in a message.
ghost use Rattle.std.specs.Prelude.{◌≡◌, ◌<◌, OnOk, length};
ghost use Rattle.std.specs.Io.KnownBytes.{Appends};
ghost use Rattle.explanations.specs.Words.{hex_digit, is_shown, shown_byte, shown_within, shown_word};

use std::io::{self, Write};

/// The number of characters of a word that are shown.
const MOST_SHOWN: usize = 200;

/// Whether a byte is shown as it is.
fn is_shown(byte: u8) -> bool
    ensures { result ≡ is_shown byte }
{
    33 <= byte && byte <= 126
}

/// A hexadecimal digit.
fn hex_digit(n: u8) -> u8
    requires { n < 16 }
    ensures { result ≡ hex_digit n }
{
    if n < 10 { b'0' + n } else { b'A' - 10 + n }
}

/// Writes a text.
pub fn write_text<W: Write>(w: &mut W, text: &str) -> io::Result<()>
    ensures { OnOk result (Appends (W.contents w.old) (W.contents w.new) text.now) }
{
    w.write_all(text.as_bytes())
}

/// Writes a byte: as `\x` and two digits if it is no printable ASCII character.
fn write_byte<W: Write>(w: &mut W, byte: u8) -> io::Result<()>
    ensures { OnOk result (Appends (W.contents w.old) (W.contents w.new) (shown_byte byte)) }
{
    if is_shown(byte) {
        return w.write_all(&[byte]);
    }
    w.write_all(&[b'\\', b'x', hex_digit(byte / 16), hex_digit(byte % 16)])
}

/// The number of characters that show a byte.
fn shown_length(byte: u8) -> usize
    ensures { result ≡ length (shown_byte byte) }
{
    if is_shown(byte) { 1 } else { 4 }
}

/// Writes the bytes of a text that fit into `room` characters, each as `write_byte` does, and dots if it has more. The last
/// byte may take three characters more.
fn write_within<W: Write>(w: &mut W, bytes: &[u8], room: usize) -> io::Result<()>
    ensures { OnOk result (Appends (W.contents w.old) (W.contents w.new) (shown_within room bytes.now)) }
{
    match bytes {
        [] => Ok(()),
        [first, rest @ ..] => {
            if room == 0 {
                return write_text(w, "...");
            }
            write_byte(w, *first)?;
            write_within(w, rest, room.saturating_sub(shown_length(*first)))
        }
    }
}

/// Writes a word: each byte that is no printable ASCII character as `\x` and two digits, and dots after the first 200
/// characters of a longer one.
pub fn write_word<W: Write>(w: &mut W, word: &[u8]) -> io::Result<()>
    ensures { OnOk result (Appends (W.contents w.old) (W.contents w.new) (shown_word word.now)) }
{
    write_within(w, word, MOST_SHOWN)
}
