//! How long packets are shown: durations, from the time stamps of a file, and time stamps, from durations.
#![tactic(auto)]

mod clocks;
mod durations;
mod heads;
pub mod laws;
mod medians;
mod stamps;

pub use clocks::Clock;
pub use durations::{Duration, durations_of};
pub use heads::head_for;
pub use medians::{median_of, median_step, usual_duration};
pub use stamps::{stamped, stamps_of};
