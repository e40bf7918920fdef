//! The lines of a request list, and the request of each line, or why it is not one.
#![tactic(auto)]

mod edit;
mod hex_text;
pub mod laws;
mod lines;
mod lost;
mod misfit;
mod part;
mod question;
mod text_lines;

pub use edit::Edit;
pub use hex_text::{Hex, write_hex_word};
pub use lines::{Line, line_misfit, read_line};
pub use lost::Beginning;
pub use misfit::Misfit;
pub use part::Part;
pub use question::Question;
pub use text_lines::{next_line, without_carriage_return};
