//! Forged packets: a grey key frame, and a frame that repeats the last reference.
#![tactic(auto)]

mod faults;
pub mod laws;
mod packets;
mod pairs;

pub use faults::ForgeFault;
pub use packets::{blank, hold};
