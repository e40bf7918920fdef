//! Intra prediction of VP8 (RFC 6386, section 12).
#![tactic(auto)]

mod corners;
mod in_place;
mod lanes;
pub mod laws;
mod means;
mod modes;
mod sub_blocks;
mod whole_blocks;

pub use corners::Corner;
pub use in_place::whole_in_place;
pub use modes::{BlockSize, SubMode, WholeMode};
pub use sub_blocks::sub;
pub use whole_blocks::whole;
