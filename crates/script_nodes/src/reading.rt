//! Reads the nodes of a script's text.
ghost use Rattle.std.specs.Prelude.{◌≡◌, ℕ, ◌<◌, ◌≤◌, ◌==◌, [], ◌∷◌, true, None, Some, Ok, MatchOption, length, slice_index, IfOk, IfErr, IfSome, OnOk, option_map};
ghost use Rattle.std.specs.List.{slice_split};
ghost use Rattle.text_words.specs.Words.{words_of};
ghost use Rattle.script_nodes.specs.Nodes.{is_dash, node_of, nodes_by_parts, script_of};
ghost use Rattle.script_nodes.specs.PartLists.{too_many};
ghost use Rattle.script_nodes.specs.Reading.{IsAccepted, IsCut, RefusesNodes, facts_of, flags_before, flags_with, verdict_of};
ghost use Rattle.script_nodes.specs.Faults.{RefusesText};

use crate::drafts::{Facts, SOURCE_FRAMES};
use crate::faults::ScriptFault;
use crate::nodes::Node;
use crate::part_list::MOST_FRAMES;
use crate::parts::read_draft;
use arrayvec::ArrayVec;
use std::alloc::{AllocError, Global};
use text_words::{length_before, next_word};

/// The text before the first `;`, and the text after it if there is one.
fn cut_part(text: &[u8]) -> (&[u8], Option<&[u8]>)
    ensures cut { IsCut text.now result.0.now result.1 }
    ensures shorter { IfSome result.1 (λ rest. length rest.now < length text.now) }
{
    let (part, following) = text.split_at(length_before(b';', text));
    match following {
        [_, rest @ ..] => (part, Some(rest)),
        [] => (part, None),
    }
}

/// The facts of the node that a text writes, or `None` if it writes none.
fn check_node(text: &[u8], own: u64, sources: u64, below: &[u64]) -> Option<Facts>
    requires { (k : ℕ) → slice_index below.now k ≤ too_many }
    ensures { result ≡ option_map (facts_of own sources below.now) (node_of text.now) }
{
    read_draft(text)?.facts(own, sources, below)
}

/// The node that a text writes, or `None` if it writes none.
fn read_node(alloc: Global, text: &[u8]) -> Result<Option<Node>, AllocError>
    ensures { IfOk result (λ node. node ≡ node_of text.now) }
{
    match read_draft(text) {
        Some(draft) => draft.node(alloc),
        None => Ok(None),
    }
}

/// Whether nodes are those of a script.
#[derive(Clone, Copy, Debug)]
struct Flags {
    /// There are more than 16 nodes. The others speak of the first 16.
    more: bool,
    /// The clips and sources that they use exist.
    references: bool,
    /// Their numbers are allowed, and they are not too long.
    numbers: bool,
}

impl Flags {
    /// Of no nodes.
    fn new() -> Flags
        ensures { result ≡ flags_before }
    {
        Flags {
            more: false,
            references: true,
            numbers: true,
        }
    }

    /// With one more node.
    fn with(self, facts: Facts) -> Flags
        ensures { result ≡ flags_with self facts }
    {
        Flags {
            more: self.more,
            references: self.references && facts.references,
            numbers: self.numbers && facts.numbers && facts.most <= MOST_FRAMES,
        }
    }

    /// With a node after 16.
    fn with_more(self) -> Flags
        ensures { result.more ≡ true }
    {
        Flags { more: true, ..self }
    }

    /// The first error.
    fn verdict(self) -> Result<(), ScriptFault>
        ensures { result ≡ verdict_of self }
    {
        if self.more {
            Err(ScriptFault::Nodes)
        } else if !self.references {
            Err(ScriptFault::Reference)
        } else if !self.numbers {
            Err(ScriptFault::Number)
        } else {
            Ok(())
        }
    }
}

/// The most frames of source 0.
fn first_most() -> ArrayVec<u64, 17>
    ensures { result.items ≡ 1048576 ∷ [] }
{
    let mut most = ArrayVec::new();
    most.push(SOURCE_FRAMES);
    most
}

/// Whether the text is the single word `-`.
fn is_dash(text: &[u8]) -> bool
    ensures { result ≡ is_dash (words_of text.now) }
{
    let Some((word, rest)) = next_word(text) else {
        return false;
    };
    next_word(rest).is_none() && word == b"-".as_slice()
}

/// Whether the parts of a text between `;` are the nodes of a script over this many sources, or the first error. It takes no memory.
fn check_text(text: &[u8], sources: u64) -> Result<(), ScriptFault>
    ensures ok { OnOk result (IsAccepted sources (nodes_by_parts (slice_split (λ b. b == 59) text.now))) }
    ensures refused { IfErr result (RefusesNodes sources (nodes_by_parts (slice_split (λ b. b == 59) text.now))) }
{
    let mut most = first_most();
    let mut flags = Flags::new();
    let mut left = Some(text);
    while let Some(text) = left {
        let (part, following) = cut_part(text);
        let facts = check_node(part, most.len() as u64, sources, &most).ok_or(ScriptFault::Syntax)?;
        if most.is_full() {
            flags = flags.with_more();
        } else {
            flags = flags.with(facts);
            most.push(facts.most);
        }
        left = following;
    }
    flags.verdict()
}

/// The nodes that are the parts of a text between `;`, or `None` if one of them is not a node.
fn read_parts(alloc: Global, text: &[u8]) -> Result<Option<Vec<Node>>, AllocError>
    ensures { IfOk result (λ found. MatchOption found (nodes_by_parts (slice_split (λ b. b == 59) text.now) ≡ None) (λ nodes. nodes_by_parts (slice_split (λ b. b == 59) text.now) ≡ Some nodes.items)) }
{
    let mut nodes = Vec::new(alloc);
    let mut left = Some(text);
    while let Some(text) = left {
        let (part, following) = cut_part(text);
        let Some(node) = read_node(alloc, part)? else {
            return Ok(None);
        };
        nodes.push(node)?;
        left = following;
    }
    Ok(Some(nodes))
}

/// The nodes of the script that a text writes over this many sources, or its first error: none for `-`, otherwise the nodes of its parts.
pub(crate) fn read_script(
    alloc: Global,
    text: &[u8],
    sources: u64,
) -> Result<Vec<Node>, ScriptFault>
    ensures value { IfOk result (λ nodes. script_of sources text.now ≡ Ok nodes.items) }
    ensures refused { IfErr result (RefusesText sources text.now) }
{
    if is_dash(text) {
        return Ok(Vec::new(alloc));
    }
    check_text(text, sources)?;
    match read_parts(alloc, text) {
        Ok(Some(nodes)) => Ok(nodes),
        Ok(None) => Err(ScriptFault::Syntax),
        Err(_) => Err(ScriptFault::NoMemory),
    }
}
