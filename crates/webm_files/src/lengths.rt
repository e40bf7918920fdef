// Lengths of Segments and Clusters that are wrong.
ghost use Rattle.std.specs.Prelude.{◌≡◌, ◌++◌, ◌≤◌, [], drop, length, IfOk, IfSome, OnOk};
ghost use Rattle.webm_files.specs.Elements.{HasHead};
ghost use Rattle.webm_files.specs.Lengths.{AddsLengths, HasLengths, closes, end_by, ends_after, open_after, span_of, still_open, wrong_before, wrong_by_element};

use super::elements::Element;
use super::heads::first_head;
use super::ids::{CLUSTER, CRC_32, EBML, SEGMENT, VOID};
use super::walks::next_element;
use std::alloc::{AllocError, Global};

/// Where a Segment or Cluster begins, and where its content ends by its length.
#[derive(Clone, Copy)]
pub(crate) struct Span {
    pub(crate) place: usize,
    pub(crate) says: usize,
}

/// The length of a Segment or Cluster that is wrong: its name, where it begins, where it ends by its length, and where it ends
/// as it is read: at the first element or end of the file that contradicts the length.
#[derive(Clone, Copy, Debug, PartialEq, Eq)]
pub struct WrongLength {
    pub id: u64,
    pub place: usize,
    pub says: usize,
    pub ends: usize,
}

/// The span of an element, if it has the name and its length is known.
fn span_of(bytes: &[u8], level: u64, element: &Element) -> Option<Span>
    requires place { element.now.place ≤ length bytes.now }
    requires start { element.now.start ≤ length bytes.now }
    requires head { HasHead (drop element.now.place bytes.now) }
    ensures { result ≡ span_of bytes.now level element.now }
{
    if element.id != level {
        return None;
    }
    let head = first_head(&bytes[element.place..])?;
    if !head.is_sized {
        return None;
    }
    Some(Span {
        place: element.place,
        says: element.start + head.size as usize,
    })
}

/// Whether an element of this name is not in the Segment or Cluster before it.
fn closes(level: u64, id: u64) -> bool
    ensures { result ≡ closes level id }
{
    id == level
        || (if level == CLUSTER {
            id >= 0x1000_0000
        } else {
            id == EBML
        })
}

/// Whether an element that is in one ends after its end by its length.
fn ends_after(says: usize, element: &Element) -> bool
    ensures { result ≡ ends_after says element.now }
{
    !(element.id == VOID || element.id == CRC_32) && element.end > says
}

/// Where it ends by an element, if that is not where its length says.
fn end_by(level: u64, says: usize, element: &Element) -> Option<usize>
    ensures { result ≡ end_by level says element.now }
{
    if closes(level, element.id) {
        if element.place < says {
            return Some(element.place);
        }
        return None;
    }
    if ends_after(says, element) {
        return Some(element.end);
    }
    None
}

/// Adds what an element decides.
fn push_by_element(
    lengths: &mut Vec<WrongLength>,
    level: u64,
    span: Option<Span>,
    element: &Element,
) -> Result<(), AllocError>
    ensures { OnOk result (lengths.new.items ≡ lengths.old.items ++ wrong_by_element level span element.now) }
{
    if let Some(Span { place, says }) = span {
        if let Some(ends) = end_by(level, says, element) {
            lengths.push(WrongLength {
                id: level,
                place,
                says,
                ends,
            })?;
        }
    }
    Ok(())
}

/// Adds what the end of the file decides.
fn push_by_file(
    lengths: &mut Vec<WrongLength>,
    level: u64,
    span: Option<Span>,
    size: usize,
    is_cut: bool,
) -> Result<(), AllocError>
    ensures { OnOk result (lengths.new.items ≡ lengths.old.items ++ wrong_before size is_cut level span []) }
{
    if let Some(Span { place, says }) = span {
        if !is_cut && size < says {
            lengths.push(WrongLength {
                id: level,
                place,
                says,
                ends: size,
            })?;
        }
    }
    Ok(())
}

/// What is not decided after an element.
fn still_open(level: u64, span: Option<Span>, element: &Element) -> Option<Span>
    ensures { result ≡ still_open level span element.now }
{
    let found = span?;
    if closes(level, element.id) || ends_after(found.says, element) {
        return None;
    }
    Some(found)
}

/// What is not decided after an element that may itself have the name.
fn open_after(bytes: &[u8], level: u64, span: Option<Span>, element: &Element) -> Option<Span>
    requires place { element.now.place ≤ length bytes.now }
    requires start { element.now.start ≤ length bytes.now }
    requires head { HasHead (drop element.now.place bytes.now) }
    ensures { result ≡ open_after bytes.now level span element.now }
{
    if element.id == level {
        span_of(bytes, level, element)
    } else {
        still_open(level, span, element)
    }
}

/// Adds the wrong lengths of the elements of one of the two names.
fn push_lengths(
    lengths: &mut Vec<WrongLength>,
    bytes: &[u8],
    level: u64,
    is_cut: bool,
) -> Result<(), AllocError>
    ensures { OnOk result (AddsLengths bytes.now is_cut level lengths.old.items lengths.new.items) }
{
    let mut span = None;
    let mut at = 0;
    'elements: while let Some(element) = next_element(bytes, at) {
        push_by_element(lengths, level, span, &element)?;
        span = open_after(bytes, level, span, &element);
        at = element.end;
    }
    push_by_file(lengths, level, span, bytes.len(), is_cut)
}

/// Reads the lengths of Segments and Clusters that are wrong.
pub(crate) fn read_lengths(
    alloc: Global,
    bytes: &[u8],
    is_cut: bool,
) -> Result<Vec<WrongLength>, AllocError>
    ensures { IfOk result (λ lengths. HasLengths bytes.now is_cut lengths.items) }
{
    let mut lengths = Vec::new(alloc);
    push_lengths(&mut lengths, bytes, SEGMENT, is_cut)?;
    push_lengths(&mut lengths, bytes, CLUSTER, is_cut)?;
    Ok(lengths)
}
