// The packets that an option asks for.
ghost use Rattle.std.specs.Prelude.{◌≡◌, ◌==◌, ◌≤◌, length, not};
ghost use Rattle.std.specs.List.{prefix_len};
ghost use Rattle.list_program.specs.Ranges.{dash_at, more_of, numbers_of, one_of, ordered, range_of};

use text_words::number;

/// Packets of a stream.
#[derive(Clone, Copy, Debug, PartialEq, Eq)]
pub struct Range {
    /// The index of the first.
    pub first: usize,
    /// The index of the last; `None` if it is the last of the stream.
    pub last: Option<usize>,
}

fn one_of(packet: Option<u64>) -> Option<Range>
    ensures { result ≡ one_of packet }
{
    match packet {
        None => None,
        Some(packet) => Some(Range {
            first: packet as usize,
            last: Some(packet as usize),
        }),
    }
}

fn ordered(first: u64, last: u64) -> Option<Range>
    ensures { result ≡ ordered first last }
{
    if first <= last {
        Some(Range {
            first: first as usize,
            last: Some(last as usize),
        })
    } else {
        None
    }
}

fn more_of(first: Option<u64>, last: Option<u64>) -> Option<Range>
    ensures { result ≡ more_of first last }
{
    match first {
        None => None,
        Some(first) => match last {
            None => None,
            Some(last) => ordered(first, last),
        },
    }
}

/// The index of the first `-`, or the length.
fn dash_at(text: &[u8]) -> usize
    ensures value { result ≡ dash_at text.now }
    ensures within { result ≤ length text.now }
{
    text.iter().take_while(|byte| **byte != b'-').count()
}

fn numbers_of(text: &[u8]) -> Option<Range>
    ensures { result ≡ numbers_of text.now }
{
    let dash = dash_at(text);
    if dash == text.len() {
        return one_of(number(text));
    }
    more_of(number(&text[..dash]), number(&text[dash + 1..]))
}

/// The packets that a text asks for: `12` for one, `12-15` for several, `all`. `None` for any other text.
pub fn range_of(text: &str) -> Option<Range>
    ensures { result ≡ range_of text.now }
{
    if text.as_bytes() == b"all".as_slice() {
        Some(Range {
            first: 0,
            last: None,
        })
    } else {
        numbers_of(text.as_bytes())
    }
}
