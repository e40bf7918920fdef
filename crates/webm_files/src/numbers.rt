// Numbers whose first byte says how many bytes they have.
ghost use Rattle.std.specs.Prelude.{◌≡◌, ◌+◌, ◌≤◌, length, IfNone, IfSome};
ghost use Rattle.webm_files.specs.Elements.{HasNumber, marked, width};

use byteorder::{BigEndian, ByteOrder};

/// The number at the front with its mark, and its width in bytes; `None` if there is no whole one of at most `most`
/// bytes.
pub(crate) fn first_number(text: &[u8], most: usize) -> Option<(u64, usize)>
    requires { most ≤ 8 }
    ensures none { IfNone result (¬ HasNumber most text.now) }
    ensures has { IfSome result (λ found. HasNumber most text.now) }
    ensures value { IfSome result (λ found. found.0 ≡ marked text.now) }
    ensures size { IfSome result (λ found. found.1 ≡ width text.now) }
{
    if text.is_empty() {
        return None;
    }
    let size = text[0].leading_zeros() as usize + 1;
    if size > most || size > text.len() {
        return None;
    }
    Some((BigEndian::read_uint(text, size), size))
}
