//! A list in chunks of 1,024 elements: an edit moves elements of one chunk, and one element of each chunk after it.
#![tactic(auto)]

mod chunks;
mod list;
mod passing;

pub use chunks::CHUNK;
pub use list::ChunkedList;
