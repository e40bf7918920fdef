//! Why a request was refused, and why a file was not read, in words that a user can act on.
#![tactic(auto)]

mod details;
mod files;
mod lines;
mod nodes;
mod refusals;
mod words;

pub use details::{Detail, detail_of};
pub use files::{CutRecord, StreamReason, cut_record, stream_reason};
pub use lines::{Reason, is_no_text, line_reason};
pub use refusals::write_refused;
