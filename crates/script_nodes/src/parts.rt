//! Reads one node of a script's text.
ghost use Rattle.std.specs.Prelude.{◌≡◌, ℕ, List, Option, None, IfSome, IfNone};
ghost use Rattle.text_words.specs.Words.{at_end, words_of};
ghost use Rattle.script_nodes.specs.Nodes.{short_number_of, with_short_number, source_by, trim_by, splice_by, crop_by, fade_by, node_of};
ghost use Rattle.script_nodes.specs.Reading.{drafted, drafted_of};
ghost use Rattle.script_nodes.specs.declared.nodes.Node.{Node};

use crate::drafts::Draft;
use crate::nodes::{Area, Ramp};
use text_words::{next_word, number};

/// The most digits of a number.
const MOST_DIGITS: usize = 10;

/// The number that a word writes: 1 to 10 decimal digits.
pub(crate) fn short_number(word: &[u8]) -> Option<u64>
    ensures { result ≡ short_number_of word.now }
{
    if word.len() > MOST_DIGITS {
        return None;
    }
    number(word)
}

/// The number that is the next word and the text after it, or `None` if there is none.
fn next_number(text: &[u8]) -> Option<(u64, &[u8])>
    ensures none { IfNone result ((next : ℕ → List (List ℕ) → Option Node) → with_short_number next (words_of text.now) ≡ None) }
    ensures some { IfSome result (λ found. (next : ℕ → List (List ℕ) → Option Node) → with_short_number next (words_of text.now) ≡ next found.0 (words_of found.1.now)) }
{
    let (word, rest) = next_word(text)?;
    match short_number(word) {
        Some(n) => Some((n, rest)),
        None => None,
    }
}

/// The node, if no word is left.
fn ended<'a>(draft: Draft<'a>, rest: &[u8]) -> Option<Draft<'a>>
    ensures { drafted_of result ≡ at_end None (drafted draft.entry) (words_of rest.now) }
{
    match next_word(rest) {
        None => Some(draft),
        Some(_) => None,
    }
}

fn source_node(words: &[u8]) -> Option<Draft<'_>>
    ensures { drafted_of result ≡ source_by (words_of words.now) }
{
    let (number, rest) = next_number(words)?;
    ended(Draft::Source { number }, rest)
}

fn trim_node(words: &[u8]) -> Option<Draft<'_>>
    ensures { drafted_of result ≡ trim_by (words_of words.now) }
{
    let (clip, rest) = next_number(words)?;
    let (first, rest) = next_number(rest)?;
    let (count, rest) = next_number(rest)?;
    ended(Draft::Trim { clip, first, count }, rest)
}

fn splice_node(words: &[u8]) -> Option<Draft<'_>>
    ensures { drafted_of result ≡ splice_by (words_of words.now) }
{
    let (front, rest) = next_number(words)?;
    let (back, rest) = next_number(rest)?;
    ended(Draft::Splice { front, back }, rest)
}

fn crop_node(words: &[u8]) -> Option<Draft<'_>>
    ensures { drafted_of result ≡ crop_by (words_of words.now) }
{
    let (clip, rest) = next_number(words)?;
    let (x, rest) = next_number(rest)?;
    let (y, rest) = next_number(rest)?;
    let (width, rest) = next_number(rest)?;
    let (height, rest) = next_number(rest)?;
    let area = Area {
        x,
        y,
        width,
        height,
    };
    ended(Draft::Crop { clip, area }, rest)
}

fn fade_node(words: &[u8]) -> Option<Draft<'_>>
    ensures { drafted_of result ≡ fade_by (words_of words.now) }
{
    let (clip, rest) = next_number(words)?;
    let (first, rest) = next_number(rest)?;
    let (count, rest) = next_number(rest)?;
    let (start, rest) = next_number(rest)?;
    let (end, rest) = next_number(rest)?;
    let ramp = Ramp {
        first,
        count,
        start,
        end,
    };
    ended(Draft::Fade { clip, ramp }, rest)
}

/// The node that a text writes, or `None` if it does not write one.
pub(crate) fn read_draft(text: &[u8]) -> Option<Draft<'_>>
    ensures { drafted_of result ≡ node_of text.now }
{
    let (name, words) = next_word(text)?;
    if name == b"source".as_slice() {
        source_node(words)
    } else if name == b"trim".as_slice() {
        trim_node(words)
    } else if name == b"splice".as_slice() {
        splice_node(words)
    } else if name == b"crop".as_slice() {
        crop_node(words)
    } else if name == b"fade".as_slice() {
        fade_node(words)
    } else if name == b"parts".as_slice() {
        Some(Draft::Parts { words })
    } else {
        None
    }
}
