//! One step of decoding: the state that a packet leaves for the packets after it, and its picture,
//! predicted macroblock by macroblock (RFC 6386, sections 9 to 18).
#![tactic(auto)]

mod comparison;
mod corners;
mod frame_tokens;
mod frames;
mod inter;
mod kept_blocks;
pub mod laws;
mod prediction;
mod references;
mod residuals;
mod states;
mod step_fault;
mod steps;

pub use frame_tokens::partition_readers;
pub use kept_blocks::has_y2;
pub use references::References;
pub use states::{State, same_state};
pub use step_fault::StepFault;
pub use steps::{step, step_with};
