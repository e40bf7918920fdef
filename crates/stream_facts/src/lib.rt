//! The facts of a stream's packets, read from their headers only, and the lines that list them.
#![tactic(auto)]

mod facts;
mod json;
pub mod laws;
mod lines;
mod listing;
mod places;
mod refusals;

pub use facts::{Facts, Position, end_of_record, first_key_size};
pub use json::{write_member, write_number, write_object, write_objects, write_optional};
pub use lines::{write_cause, write_text};
pub use listing::write_listing;
pub use places::Places;
pub use refusals::{has_refused, write_refusals};
