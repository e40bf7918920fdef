// From one element of a file to the next.
ghost use Rattle.std.specs.Prelude.{◌≡◌, ◌<◌, ◌≤◌, ◌↔◌, length, IfNone, IfSome, IsTrue};
ghost use Rattle.webm_files.specs.Walks.{CanGoOn, Follows, IsCut, IsEnd, IsFollowed, IsNext, element_of};

use super::elements::{Element, element_at};
use super::heads::first_head;
use super::ids::{CLUSTER, is_block, is_known, is_resumed};

/// Whether the end of the file cuts an element at the front of a text.
pub(crate) fn is_cut(text: &[u8]) -> bool
    ensures { IsTrue result ↔ IsCut text.now }
{
    match first_head(text) {
        Some(head) => {
            is_known(head.id) && head.is_sized && head.size > (text.len() - head.start) as u64
        }
        None => false,
    }
}

/// Whether a block is followed at a position.
fn is_followed(bytes: &[u8], place: usize) -> bool
    requires { place ≤ length bytes.now }
    ensures { IsTrue result ↔ IsFollowed bytes.now place }
{
    is_cut(&bytes[place..]) || follows_one(bytes, place)
}

/// Whether an element follows at a position, or the end.
fn follows_one(bytes: &[u8], place: usize) -> bool
    requires { place ≤ length bytes.now }
    ensures { IsTrue result ↔ Follows bytes.now 1 place }
{
    place == bytes.len() || element_at(bytes, place).is_some()
}

/// Whether two elements follow each other at a position, or fewer up to the end.
fn follows_two(bytes: &[u8], place: usize) -> bool
    requires { place ≤ length bytes.now }
    ensures { IsTrue result ↔ Follows bytes.now 2 place }
{
    if place == bytes.len() {
        return true;
    }
    match element_at(bytes, place) {
        Some(found) => follows_one(bytes, found.end),
        None => false,
    }
}

/// The element at a position, if reading that has come to `at` can continue there.
fn element_from(bytes: &[u8], at: usize, place: usize) -> Option<Element>
    requires { place ≤ length bytes.now }
    ensures none { IfNone result (¬ CanGoOn bytes.now at place) }
    ensures some { IfSome result (λ found. CanGoOn bytes.now at place) }
    ensures is { IfSome result (λ found. found ≡ element_of bytes.now place) }
    ensures place { IfSome result (λ found. found.place ≡ place) }
    ensures least { IfSome result (λ found. place < found.end) }
    ensures order { IfSome result (λ found. found.start ≤ found.end) }
    ensures inside { IfSome result (λ found. found.end ≤ length bytes.now) }
{
    let found = element_at(bytes, place)?;
    if place == at {
        if is_block(found.id) && !is_followed(bytes, found.end) {
            return None;
        }
        return Some(found);
    }
    if found.id == CLUSTER {
        return Some(found);
    }
    if is_resumed(found.id) && follows_two(bytes, found.end) {
        return Some(found);
    }
    None
}

/// The element with which reading continues from a position: the element there, or else the first one with which it can;
/// `None` if there is none.
pub(crate) fn next_element(bytes: &[u8], at: usize) -> Option<Element>
    requires { at ≤ length bytes.now }
    ensures none { IfNone result (IsEnd bytes.now at) }
    ensures some { IfSome result (IsNext bytes.now at) }
    ensures later { IfSome result (λ found. at ≤ found.place) }
    ensures least { IfSome result (λ found. found.place < found.end) }
    ensures order { IfSome result (λ found. found.start ≤ found.end) }
    ensures inside { IfSome result (λ found. found.end ≤ length bytes.now) }
{
    let mut place = at;
    'places: while place < bytes.len() {
        if let Some(found) = element_from(bytes, at, place) {
            return Some(found);
        }
        place += 1;
    }
    None
}
