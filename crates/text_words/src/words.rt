// Reads words and numbers.
ghost use Rattle.std.specs.Prelude.{◌≡◌, ◌<◌, ◌≤◌, ◌==◌, [], ◌∷◌, length, MatchOption, IfSome};
ghost use Rattle.std.specs.Char.{is_ascii_digit};
ghost use Rattle.std.specs.List.{list_all, position_or_len, prefix_len};
ghost use Rattle.text_words.specs.Words.{words_of, number_of, after_word};

use std::str;

/// The most digits of a number.
const MOST_DIGITS: usize = 20;

/// The number of bytes before the first of this value, or before the end.
pub fn length_before(byte: u8, text: &[u8]) -> usize
    ensures value { result ≡ position_or_len (λ b. b == byte) text.now }
    ensures within { result ≤ length text.now }
{
    text.iter().take_while(|b| **b != byte).count()
}

/// The first word of a text and the text after it, or `None` if no word is left.
///
/// Words are separated by one or more spaces, and spaces at both ends of the text are dropped. Only
/// byte 32 is a space.
pub fn next_word(text: &[u8]) -> Option<(&[u8], &[u8])>
    ensures next { MatchOption result (words_of text.now ≡ []) (λ found. words_of text.now ≡ found.0.now ∷ words_of found.1.now) }
    ensures following { IfSome result (λ found. found.1.now ≡ after_word text.now) }
    ensures shorter { IfSome result (λ found. length found.1.now < length text.now) }
{
    let (_, words) = text.split_at(leading_spaces(text));
    if words.is_empty() {
        return None;
    }
    Some(words.split_at(length_before(b' ', words)))
}

/// The number of spaces at the start of a text.
pub fn leading_spaces(text: &[u8]) -> usize
    ensures value { result ≡ prefix_len (λ b. b == 32) text.now }
    ensures within { result ≤ length text.now }
{
    text.iter().take_while(|byte| **byte == b' ').count()
}

/// The number that a word writes: 1 to 20 decimal digits, with a value that fits 64 bits.
pub fn number(word: &[u8]) -> Option<u64>
    ensures { result ≡ number_of word.now }
{
    if word.len() > MOST_DIGITS {
        return None;
    }
    if !has_only_digits(word) {
        return None;
    }
    match str::from_utf8(word) {
        Ok(digits) => digits.parse().ok(),
        Err(_) => None,
    }
}

fn has_only_digits(word: &[u8]) -> bool
    ensures { result ≡ list_all is_ascii_digit word.now }
{
    word.iter().all(|byte| byte.is_ascii_digit())
}
