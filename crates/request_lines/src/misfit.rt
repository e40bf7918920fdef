use crate::part::Part;

/// Why a line is not a request: the first of its words that does not fit.
#[derive(Drop)]
pub enum Misfit<'a> {
    /// The first word is not a command.
    NoRequest,
    /// The line ends before its last word.
    Missing,
    /// This word comes after the last one.
    TooMany(Part<'a>),
    /// This word is not a number below 2^64.
    NoNumber(Part<'a>),
    /// This word has an odd number of digits.
    OddDigits(Part<'a>),
    /// This word is not hexadecimal.
    NoBytes(Part<'a>),
}
