//! The current packets of a stream: edits, marks, shown packets and saving them as a file.
#![tactic(auto)]

mod entry;
mod fault;
mod flag_index;
pub mod laws;
mod marks;
mod packet_index;
mod saving;
mod starts;
mod store;

pub use entry::Entry;
pub use fault::{EditFault, RestampFault};
pub use store::Store;
