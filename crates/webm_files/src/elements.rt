// Elements at a position of a file.
ghost use Rattle.std.specs.Prelude.{◌≡◌, ◌<◌, ◌≤◌, drop, length, IfNone, IfSome};
ghost use Rattle.webm_files.specs.Elements.{HasElement, element_size, head_size, id_of};
ghost use Rattle.webm_files.specs.Walks.{element_of};

use super::heads::first_head;
use super::ids::{is_known, is_opened};

/// An element of a file: its name, and the positions where it begins, where its content begins, and where reading continues:
/// after its content, or at its content if that is read as elements.
#[derive(Clone, Copy, Debug, PartialEq, Eq)]
pub struct Element {
    pub id: u64,
    pub place: usize,
    pub start: usize,
    pub end: usize,
}

/// The element at the front, with positions counted from there; `None` if there is none.
fn first_element(text: &[u8]) -> Option<Element>
    ensures none { IfNone result (¬ HasElement text.now) }
    ensures has { IfSome result (λ found. HasElement text.now) }
    ensures id { IfSome result (λ found. found.id ≡ id_of text.now) }
    ensures start { IfSome result (λ found. found.start ≡ head_size text.now) }
    ensures end { IfSome result (λ found. found.end ≡ element_size text.now) }
    ensures least { IfSome result (λ found. 0 < found.end) }
    ensures order { IfSome result (λ found. found.start ≤ found.end) }
    ensures inside { IfSome result (λ found. found.end ≤ length text.now) }
{
    let head = first_head(text)?;
    if !is_known(head.id) {
        return None;
    }
    if is_opened(head.id) {
        return Some(Element {
            id: head.id,
            place: 0,
            start: head.start,
            end: head.start,
        });
    }
    if !head.is_sized || head.size > (text.len() - head.start) as u64 {
        return None;
    }
    Some(Element {
        id: head.id,
        place: 0,
        start: head.start,
        end: head.start + head.size as usize,
    })
}

/// The element at a position of a file; `None` if there is none.
pub(crate) fn element_at(bytes: &[u8], place: usize) -> Option<Element>
    requires { place ≤ length bytes.now }
    ensures none { IfNone result (¬ HasElement (drop place bytes.now)) }
    ensures has { IfSome result (λ found. HasElement (drop place bytes.now)) }
    ensures is { IfSome result (λ found. found ≡ element_of bytes.now place) }
    ensures place { IfSome result (λ found. found.place ≡ place) }
    ensures least { IfSome result (λ found. place < found.end) }
    ensures order { IfSome result (λ found. found.start ≤ found.end) }
    ensures inside { IfSome result (λ found. found.end ≤ length bytes.now) }
{
    let found = first_element(&bytes[place..])?;
    Some(Element {
        id: found.id,
        place,
        start: place + found.start,
        end: place + found.end,
    })
}
