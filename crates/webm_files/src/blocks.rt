// The blocks of a file.
ghost use Rattle.std.specs.Prelude.{◌≡◌, ◌+◌, ◌^◌, ◌<◌, ◌≤◌, length, IfSome};
ghost use Rattle.webm_files.specs.Blocks.{base_after, block_in, block_of, whole_number};

use super::elements::Element;
use super::heads::mark_of;
use super::ids::{TIMESTAMP, is_block};
use super::numbers::first_number;
use byteorder::{BigEndian, ByteOrder};

/// A block: the number of its track, its time, its flags, the position of its element in the file, and the positions where its
/// packet or packets begin and end.
#[derive(Clone, Copy, Debug, PartialEq, Eq)]
pub struct Block {
    pub track: u64,
    pub stamp: u64,
    pub flags: u8,
    pub place: usize,
    pub start: usize,
    pub end: usize,
}

/// The number of a content; of more than 8 bytes the first 8.
pub(crate) fn whole_number(text: &[u8]) -> u64
    ensures { result ≡ whole_number text.now }
{
    if text.is_empty() {
        0
    } else if text.len() > 8 {
        BigEndian::read_uint(text, 8)
    } else {
        BigEndian::read_uint(text, text.len())
    }
}

/// The time from which blocks count theirs, after an element.
pub(crate) fn base_after(bytes: &[u8], base: u64, element: &Element) -> u64
    requires order { element.now.start ≤ element.now.end }
    requires inside { element.now.end ≤ length bytes.now }
    ensures { result ≡ base_after bytes.now base element.now }
{
    if element.id != TIMESTAMP {
        return base;
    }
    whole_number(&bytes[element.start..element.end])
}

/// The block of a content that begins at position `start`, in an element that begins at `place`.
fn block_in(base: u64, place: usize, start: usize, text: &[u8]) -> Option<Block>
    requires { start + length text.now < 2 ^ 64 }
    ensures block { result ≡ block_in base place start text.now }
    ensures order { IfSome result (λ block. block.start ≤ block.end) }
    ensures end { IfSome result (λ block. block.end ≡ start + length text.now) }
{
    let (marked, size) = first_number(text, 8)?;
    if text.len() < size + 3 {
        return None;
    }
    Some(Block {
        track: marked % mark_of(size),
        stamp: base.saturating_add_signed(i64::from(BigEndian::read_i16(&text[size..]))),
        flags: text[size + 2],
        place,
        start: start + (size + 3),
        end: start + text.len(),
    })
}

/// The block that an element is, if it is one.
pub(crate) fn block_of(bytes: &[u8], base: u64, element: &Element) -> Option<Block>
    requires order { element.now.start ≤ element.now.end }
    requires inside { element.now.end ≤ length bytes.now }
    ensures block { result ≡ block_of bytes.now base element.now }
    ensures range_order { IfSome result (λ block. block.start ≤ block.end) }
    ensures range_inside { IfSome result (λ block. block.end ≤ length bytes.now) }
{
    if is_block(element.id) {
        block_in(
            base,
            element.place,
            element.start,
            &bytes[element.start..element.end],
        )
    } else {
        None
    }
}
