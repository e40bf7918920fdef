//! Steps by which edits and scripts are undone and redone. A step owns what it puts back, so a history takes memory for what was
//! removed and for nothing else.
#![tactic(auto)]

mod change;
pub mod laws;
mod making;
mod places;
mod step;

pub use change::Change;
pub use making::travel;
pub use step::Step;
