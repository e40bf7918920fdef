//! The words of a text, and the numbers that words write.
#![tactic(auto)]

mod words;

pub use words::{leading_spaces, length_before, next_word, number};
