// The elements in the content of an element.
ghost use Rattle.std.specs.Prelude.{◌≡◌, ◌+◌, ◌<◌, ◌≤◌, length, IfNone, IfSome};
ghost use Rattle.webm_files.specs.Children.{HasChild, field, number_or, text_field};
ghost use Rattle.webm_files.specs.Elements.{content_size, head_size, id_of};

use super::blocks::whole_number;
use super::heads::first_head;
use text_words::length_before;

/// A child of a content: its name, and the positions where its own content begins and ends.
#[derive(Clone, Copy)]
pub(crate) struct Child {
    pub(crate) id: u64,
    pub(crate) start: usize,
    pub(crate) end: usize,
}

/// The child at the front; `None` if there is no whole one.
pub(crate) fn first_child(text: &[u8]) -> Option<Child>
    ensures none { IfNone result (¬ HasChild text.now) }
    ensures has { IfSome result (λ found. HasChild text.now) }
    ensures id { IfSome result (λ found. found.id ≡ id_of text.now) }
    ensures start { IfSome result (λ found. found.start ≡ head_size text.now) }
    ensures end { IfSome result (λ found. found.end ≡ head_size text.now + content_size text.now) }
    ensures least { IfSome result (λ found. 0 < found.end) }
    ensures order { IfSome result (λ found. found.start ≤ found.end) }
    ensures inside { IfSome result (λ found. found.end ≤ length text.now) }
{
    let head = first_head(text)?;
    if !head.is_sized || head.size > (text.len() - head.start) as u64 {
        return None;
    }
    Some(Child {
        id: head.id,
        start: head.start,
        end: head.start + head.size as usize,
    })
}

/// The content of the first child of a name, or nothing.
pub(crate) fn field(text: &[u8], id: u64) -> &[u8]
    ensures { result.now ≡ field id text.now }
{
    let mut rest = text;
    'children: while let Some(child) = first_child(rest) {
        if child.id == id {
            return &rest[child.start..child.end];
        }
        rest = &rest[child.end..];
    }
    &text[..0]
}

/// The value of the first child of a name that is a string, or nothing: writers may end a string with a 0.
pub(crate) fn text_field(text: &[u8], id: u64) -> &[u8]
    ensures { result.now ≡ text_field id text.now }
{
    let found = field(text, id);
    &found[..length_before(0, found)]
}

/// The number of a content, or another one if it is empty.
pub(crate) fn number_or(text: &[u8], other: u64) -> u64
    ensures { result ≡ number_or other text.now }
{
    if text.is_empty() {
        return other;
    }
    whole_number(text)
}
