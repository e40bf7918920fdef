//! What a command line of vp8serve asks for: its arguments and help, the files that they name, and the program's errors.
#![tactic(auto)]

mod arguments;
mod capacities;
mod exports;
mod fault;
mod files;
mod help;
mod inputs;
pub mod laws;
mod located;
mod states;
mod words;

pub use arguments::parse;
pub use capacities::Capacity;
pub use exports::NotExported;
pub use fault::{Fault, Mistake};
pub use files::{Argument, SameFile};
pub use inputs::{FilesRead, Inputs, read_files, read_inputs};
pub use located::{Located, check_located, check_places};
pub use states::report_cache;
pub use words::{Accepted, Words};
