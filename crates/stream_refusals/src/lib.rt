//! Which packets of a stream decoding refuses, by their bytes, and what the pictures of the others are.
#![tactic(auto)]

pub mod laws;
mod refusals;

pub use refusals::cause_against;
