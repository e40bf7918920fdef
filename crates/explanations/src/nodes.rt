// Why the text of a script is not a list of nodes.
ghost use Rattle.std.specs.Prelude.{◌≡◌, ◌<◌, ◌++◌, IfSome, OnOk, codes, is_some, length, option_map};
ghost use Rattle.std.specs.Io.KnownBytes.{Appends};
ghost use Rattle.script_nodes.specs.Nodes.{short_number_of};
ghost use Rattle.script_nodes.specs.Reading.{IsCut};
ghost use Rattle.text_words.specs.Words.{words_of};
ghost use Rattle.explanations.specs.Lines.{reason_text};
ghost use Rattle.explanations.specs.Nodes.{form_text, line_syntax_reason, misfit, name_of, node_reason, node_reason_text, numbered, syntax_reason, wrong_number, wrong_part};

use crate::lines::{Reason, write_reason};
use crate::words::{write_text, write_word};
use request_lines::{Misfit, Part};
use std::io::{self, Write};
use text_words::{length_before, next_word, number};

/// The kinds of nodes.
#[derive(Clone, Copy)]
pub enum NodeName {
    Source,
    Trim,
    Splice,
    Crop,
    Fade,
    Parts,
}

/// Why a part of a script is not a node.
#[derive(Drop)]
pub enum NodeReason<'a> {
    /// It has no word.
    Empty,
    /// Its first word is not the name of a node.
    NoNode(Part<'a>),
    /// The words after the name do not have its form.
    Misfit { name: NodeName, reason: Reason<'a> },
}

/// The first part of a script that is not a node.
#[derive(Drop)]
pub struct WrongNode<'a> {
    /// The number of the node, counted from 1.
    pub number: u64,
    pub reason: NodeReason<'a>,
}

/// The most digits of a number of a script.
const MOST_DIGITS: usize = 10;

impl NodeName {
    /// The node with this name, if there is one.
    fn of(word: &[u8]) -> Option<NodeName>
        ensures { result ≡ name_of word.now }
    {
        if word == b"source".as_slice() {
            Some(NodeName::Source)
        } else if word == b"trim".as_slice() {
            Some(NodeName::Trim)
        } else if word == b"splice".as_slice() {
            Some(NodeName::Splice)
        } else if word == b"crop".as_slice() {
            Some(NodeName::Crop)
        } else if word == b"fade".as_slice() {
            Some(NodeName::Fade)
        } else if word == b"parts".as_slice() {
            Some(NodeName::Parts)
        } else {
            None
        }
    }

    /// The first reason why the words after the name do not have its form, if they do not.
    fn misfit(self, words: &[u8]) -> Option<Reason<'_>>
        ensures { option_map reason_text result ≡ misfit self (words_of words.now) }
    {
        match self {
            NodeName::Source => wrong_number(1, words),
            NodeName::Trim => wrong_number(3, words),
            NodeName::Splice => wrong_number(2, words),
            NodeName::Crop | NodeName::Fade => wrong_number(5, words),
            NodeName::Parts => wrong_part(words),
        }
    }

    /// The node as it is written.
    fn form(self) -> &'static str
        ensures { result.now ≡ form_text self }
    {
        match self {
            NodeName::Source => "source S",
            NodeName::Trim => "trim A FIRST COUNT",
            NodeName::Splice => "splice A B",
            NodeName::Crop => "crop A X Y W H",
            NodeName::Fade => "fade A FIRST COUNT FROM TO",
            NodeName::Parts => "parts A FIRST COUNT A FIRST COUNT ..",
        }
    }
}

/// Whether a word is a number of a script.
fn is_short_number(word: &[u8]) -> bool
    ensures { result ≡ is_some (short_number_of word.now) }
{
    word.len() <= MOST_DIGITS && number(word).is_some()
}

/// The first reason why some words are not this many numbers of a script, if they are not.
fn wrong_number(count: u8, words: &[u8]) -> Option<Reason<'_>>
    ensures { option_map reason_text result ≡ wrong_number count (words_of words.now) }
{
    let Some((word, following)) = next_word(words) else {
        return if count == 0 {
            None
        } else {
            Some(Reason::Word(Misfit::Missing))
        };
    };
    if count == 0 {
        return Some(Reason::Word(Misfit::TooMany(Part::new(word))));
    }
    if !is_short_number(word) {
        return Some(Reason::NoShortNumber(Part::new(word)));
    }
    wrong_number(count - 1, following)
}

/// The first reason why some words are not parts, three numbers each, if they are not.
fn wrong_part(words: &[u8]) -> Option<Reason<'_>>
    ensures { option_map reason_text result ≡ wrong_part 3 (words_of words.now) }
{
    let mut missing: u8 = 3;
    let mut left = words;
    while let Some((word, following)) = next_word(left) {
        if !is_short_number(word) {
            return Some(Reason::NoShortNumber(Part::new(word)));
        }
        missing = if missing == 0 { 2 } else { missing - 1 };
        left = following;
    }
    if missing == 0 {
        None
    } else {
        Some(Reason::Word(Misfit::Missing))
    }
}

/// Why a part of a script is not a node, if it is not.
fn node_reason(part: &[u8]) -> Option<NodeReason<'_>>
    ensures { option_map node_reason_text result ≡ node_reason (words_of part.now) }
{
    let Some((word, words)) = next_word(part) else {
        return Some(NodeReason::Empty);
    };
    let Some(name) = NodeName::of(word) else {
        return Some(NodeReason::NoNode(Part::new(word)));
    };
    match name.misfit(words) {
        Some(reason) => Some(NodeReason::Misfit { name, reason }),
        None => None,
    }
}

/// The text before the first `;`, and the text after it if there is one.
fn cut_part(text: &[u8]) -> (&[u8], Option<&[u8]>)
    ensures cut { IsCut text.now result.0.now result.1 }
    ensures shorter { IfSome result.1 (λ rest. length rest.now < length text.now) }
{
    let (part, following) = text.split_at(length_before(b';', text));
    match following {
        [_, rest @ ..] => (part, Some(rest)),
        [] => (part, None),
    }
}

/// The first part of a script's text that is not a node, if one is not.
fn wrong_node(text: &[u8]) -> Option<WrongNode<'_>>
    ensures { option_map (λ wrong. numbered wrong.number (node_reason_text wrong.reason)) result ≡ syntax_reason text.now }
{
    let mut number = 1;
    let mut left = Some(text);
    while let Some(text) = left {
        let (part, following) = cut_part(text);
        if let Some(reason) = node_reason(part) {
            return Some(WrongNode { number, reason });
        }
        number += 1;
        left = following;
    }
    None
}

/// The first part of a line's script that is not a node; `None` also if the line has no word.
pub fn wrong_node_of_line(line: &[u8]) -> Option<WrongNode<'_>>
    ensures { option_map (λ wrong. numbered wrong.number (node_reason_text wrong.reason)) result ≡ line_syntax_reason line.now }
{
    let (_, text) = next_word(line)?;
    wrong_node(text)
}

/// Writes why a part of a script is not a node.
fn write_node_reason<W: Write>(w: &mut W, reason: NodeReason<'_>) -> io::Result<()>
    ensures { OnOk result (Appends (W.contents w.old) (W.contents w.new) (node_reason_text reason.entry)) }
{
    match reason {
        NodeReason::Empty => write_text(w, "the node is empty"),
        NodeReason::NoNode(word) => {
            write_word(w, word.as_slice())?;
            write_text(w, " is not source, trim, splice, crop, fade or parts")
        }
        NodeReason::Misfit { name, reason } => {
            write_reason(w, reason)?;
            write_text(w, ": ")?;
            write_text(w, name.form())
        }
    }
}

/// Writes the number of a node and why it is not one.
pub fn write_wrong<W: Write>(w: &mut W, wrong: WrongNode<'_>) -> io::Result<()>
    ensures { OnOk result (Appends (W.contents w.old) (W.contents w.new) (numbered wrong.entry.number (node_reason_text wrong.entry.reason))) }
{
    let WrongNode { number, reason } = wrong;
    write!(w, "node {number}: ")?;
    write_node_reason(w, reason)
}
