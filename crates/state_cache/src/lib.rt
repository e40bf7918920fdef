//! A cache of decoded states. After an edit, decoding continues until a new state equals the cached
//! state of the same packet; the states cached after that packet are then reused. One cache serves
//! several *sources*, packet lists with ids counted from 0, which share its capacity.
//!
//! A *cut* is index 0, a packet with a key tag, or a marked packet. A *run* is the packets from one
//! cut up to the next. The cache is *coherent* if each cached outcome results by steps from the
//! nearest one cached before it in its run. An index is *usable* if its outcome is cached and its
//! run begins at a key tag, or at index 0 with no mark: its outcome is then the result of decoding
//! from the start of the stream.
#![tactic(auto)]

mod bytes;
mod cache;
mod capacity;
mod counted_steps;
pub mod laws;
mod outcomes;
mod savings;

pub use cache::Cache;
pub use capacity::Capacity;
pub use outcomes::{Kept, ReachFault};
