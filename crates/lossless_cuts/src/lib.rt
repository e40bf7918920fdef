//! Frames of a script as packets: a clip begins and ends anywhere, and nothing is coded again.
#![tactic(auto)]

mod accepts;
mod cuts;
mod exports;
mod faults;
pub mod laws;
mod sizes;
mod targets;

pub use accepts::{break_at, run_size};
pub use exports::export_packets;
pub use faults::CutFault;
pub use targets::Target;
