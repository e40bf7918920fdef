//! Inter prediction of VP8 (RFC 6386, section 18).
#![tactic(auto)]

mod blocks;
mod gathering;
mod kept;
mod kinds;
mod lanes;
pub mod laws;
mod lines;
mod passes;
mod pieces;
mod rows;
mod samples;
mod sources;
mod strips;
mod sums;
mod taps;
mod weights;
mod windows;

pub use blocks::{block, block_in, pair_in};
pub use kinds::Kind;
pub use sources::Source;
