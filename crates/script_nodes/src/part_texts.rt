//! Reads the parts of a node from its words.
ghost use Rattle.std.specs.Prelude.{◌≡◌, ◌<◌, ◌≤◌, [], None, Some, length, IfNone, IfOk, IfSome, MatchOption, option_map};
ghost use Rattle.text_words.specs.Words.{words_of};
ghost use Rattle.script_nodes.specs.Nodes.{node_of_parts, part_before, part_of, parts_by};
ghost use Rattle.script_nodes.specs.declared.nodes.Node.TheVariants as nodes;
ghost use Rattle.script_nodes.specs.PartLists.{too_many};
ghost use Rattle.script_nodes.specs.Reading.{IsNextPart, facts_before, facts_of, facts_with};

use crate::drafts::Facts;
use crate::nodes::MOST_NUMBER;
use crate::part_list::{Part, PartList, added, length_at};
use crate::parts::short_number;
use std::alloc::{AllocError, Global};
use text_words::next_word;

/// The part of three words.
fn read_part(clip: &[u8], first: &[u8], count: &[u8]) -> Option<Part>
    ensures { result ≡ part_of clip.now first.now count.now }
{
    let clip = short_number(clip)?;
    let first = short_number(first)?;
    let count = short_number(count)?;
    Some(Part { clip, first, count })
}

/// The first part of a text and the text after it; `Some(None)` if no word is left, and `None` if the words are no part.
fn next_part(text: &[u8]) -> Option<Option<(Part, &[u8])>>
    ensures wrong { IfNone result (parts_by (words_of text.now) ≡ None) }
    ensures next { IfSome result (IsNextPart text.now) }
    ensures shorter { IfSome result (λ found. IfSome found (λ next. length next.1.now < length text.now)) }
{
    let Some((clip, rest)) = next_word(text) else {
        return Some(None);
    };
    let (first, rest) = next_word(rest)?;
    let (count, rest) = next_word(rest)?;
    let part = read_part(clip, first, count)?;
    Some(Some((part, rest)))
}

impl Facts {
    /// Before the first part.
    fn of_none() -> Facts
        ensures { result ≡ facts_before }
    {
        Facts {
            references: true,
            numbers: true,
            most: 0,
        }
    }

    /// With one more part.
    fn with_part(&self, part: &Part, own: u64, below: &[u64]) -> Facts
        requires { self.now.most ≤ too_many }
        ensures { result ≡ facts_with own below.now self.now part.now }
    {
        Facts {
            references: self.references && part.clip < own,
            numbers: self.numbers && part.first <= MOST_NUMBER && part.count <= MOST_NUMBER,
            most: added(self.most, part.count.min(length_at(below, part.clip))),
        }
    }
}

/// The facts of the node that these words write, or `None` if they write none.
pub(crate) fn check_parts(words: &[u8], own: u64, sources: u64, below: &[u64]) -> Option<Facts>
    ensures { result ≡ option_map (facts_of own sources below.now) (node_of_parts (parts_by (words_of words.now))) }
{
    next_word(words)?;
    let mut facts = Facts::of_none();
    let mut left = words;
    while let Some((part, rest)) = next_part(left)? {
        facts = facts.with_part(&part, own, below);
        left = rest;
    }
    Some(facts)
}

/// The parts that these words write, or `None` if they write none.
pub(crate) fn read_list(alloc: Global, words: &[u8]) -> Result<Option<PartList>, AllocError>
    ensures { IfOk result (λ found. option_map (λ parts. nodes.Parts parts) found ≡ node_of_parts (parts_by (words_of words.now))) }
{
    let mut parts = Vec::new(alloc);
    let mut left = words;
    while let Some(next) = next_part(left) {
        let Some((part, rest)) = next else {
            return list_of(alloc, parts);
        };
        parts.push(part)?;
        left = rest;
    }
    Ok(None)
}

/// A list of these parts, or `None` if there are none.
fn list_of(alloc: Global, parts: Vec<Part>) -> Result<Option<PartList>, AllocError>
    ensures { IfOk result (λ found. option_map (λ parts. nodes.Parts parts) found ≡ node_of_parts (Some parts.items)) }
{
    if parts.is_empty() {
        return Ok(None);
    }
    Ok(Some(PartList::new(alloc, parts)?))
}
