// How much a session caches.
ghost use Rattle.std.specs.Prelude.{◌≡◌, ◌≤◌, length};
ghost use Rattle.serve_arguments.specs.Capacities.{bytes_in, digits_in, letter_unit, size_of, unit_of};

use text_words::number;

/// The most cached states of a session.
#[derive(Clone, Copy, Debug, PartialEq, Eq)]
pub enum Capacity {
    /// This number of states, 1 to 4,096.
    States(u16),
    /// As many as take this number of bytes together, 1 or more.
    Bytes(u64),
}

/// The number of bytes that a letter stands for.
fn letter_unit(letter: u8) -> Option<u64>
    ensures { result ≡ letter_unit letter }
{
    match letter {
        b'K' => Some(1_024),
        b'M' => Some(1_048_576),
        b'G' => Some(1_073_741_824),
        _ => None,
    }
}

/// The unit of a number with these bytes after it.
fn unit_of(suffix: &[u8]) -> Option<u64>
    ensures { result ≡ unit_of suffix.now }
{
    match suffix {
        [] => Some(1),
        [letter] => letter_unit(*letter),
        _ => None,
    }
}

/// So many units in bytes.
fn bytes_in(count: Option<u64>, unit: Option<u64>) -> Option<u64>
    ensures { result ≡ bytes_in count unit }
{
    match count?.checked_mul(unit?) {
        Some(bytes) if bytes > 0 => Some(bytes),
        _ => None,
    }
}

/// The number of digits that a text begins with.
fn digits_in(text: &[u8]) -> usize
    ensures value { result ≡ digits_in text.now }
    ensures within { result ≤ length text.now }
{
    text.iter().take_while(|byte| byte.is_ascii_digit()).count()
}

/// The number of bytes of a SIZE: a decimal number below 2^64, and `K`, `M` or `G` after it if it counts KiB, MiB or GiB.
/// `None` for any other text, for 0, and for 2^64 bytes or more.
pub(crate) fn size_of(text: &str) -> Option<u64>
    ensures { result ≡ size_of text.now }
{
    let (digits, suffix) = text.as_bytes().split_at(digits_in(text.as_bytes()));
    bytes_in(number(digits), unit_of(suffix))
}
