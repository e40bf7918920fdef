//! The packets of a store, as vp8list lists those of a file.
#![tactic(auto)]

mod ahead;
mod details;
mod findings;
pub mod laws;
mod lines;
mod lister;
mod places;
mod reached;

pub use lister::Lister;
