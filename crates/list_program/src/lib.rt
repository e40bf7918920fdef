//! The program vp8list over its arguments, a reader and two writers: the bytes of an IVF, WebM or Matroska file in, and out the list of its
//! packets, as lines or as JSON, the MD5 of its frames, what is wrong with it, or the macroblocks and headers of its packets.
#![tactic(auto)]

mod answering;
mod arguments;
mod checking;
mod details;
mod fault;
mod hashing;
pub mod laws;
mod listing;
mod program;
mod progress_line;
mod ranges;

pub use answering::{InputFile, Output, answer_to};
pub use arguments::{Arguments, parse};
pub use checking::{Checking, check_to};
pub use details::{Asked, details_to};
pub use fault::Fault;
pub use hashing::hash_to;
pub use listing::list_to;
pub use program::{BYTES_AT_ONCE, answer};
pub use progress_line::ProgressLine;
