//! The boolean entropy coder of VP8 (RFC 6386, section 7).
#![tactic(auto)]

mod bytes;
mod decoder;
mod encoder;
pub mod laws;
mod odds;
pub mod round_trip;
mod window;

pub use decoder::Decoder;
pub use encoder::Encoder;
pub use odds::Odds;
/// An allocation was refused.
pub use std::alloc::AllocError as NoMemory;
