// The lines of a request list.
ghost use Rattle.std.specs.Prelude.{◌≡◌, ◌<◌, [], ◌∷◌, length, MatchOption, IfSome};
ghost use Rattle.std.specs.Str.Lines.{lines, strip_carriage_return};

use text_words::length_before;

/// The first line of a text and the text after it, or `None` if no line is left.
///
/// A line ends at a newline; the last line may be unterminated. One carriage return before the newline is
/// dropped; at the end of an unterminated last line it is part of that line, as in Rust's `lines`.
pub fn next_line(text: &[u8]) -> Option<(&[u8], &[u8])>
    ensures next { MatchOption result (lines text.now ≡ []) (λ found. lines text.now ≡ found.0.now ∷ lines found.1.now) }
    ensures shorter { IfSome result (λ found. length found.1.now < length text.now) }
{
    if text.is_empty() {
        return None;
    }
    let end = length_before(b'\n', text);
    let (line, following) = text.split_at(end);
    match following {
        [_, rest @ ..] => Some((without_carriage_return(line), rest)),
        [] => Some((line, following)),
    }
}

/// A line without the carriage return at its end, if it has one.
pub fn without_carriage_return(line: &[u8]) -> &[u8]
    ensures { result.now ≡ strip_carriage_return line.now }
{
    line.strip_suffix(b"\r").unwrap_or(line)
}
