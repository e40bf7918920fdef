//! The coefficient tokens of a macroblock (RFC 6386, section 13).
#![tactic(auto)]

mod block_position;
mod block_tokens;
pub mod laws;
mod macroblocks;
mod places;
mod rows;
mod sizes;
mod tokens;

pub use macroblocks::{read_macroblock, read_next_macroblock, skip_macroblock};
pub use rows::Rows;
pub use tokens::Tokens;
