//! Planes of samples and the pictures made of them.
#![tactic(auto)]

mod borders;
pub mod laws;
mod pictures;
mod planes;
mod recycled;
mod sides;

pub use pictures::{Component, Picture, Planes, same};
pub use planes::{Plane, Window};
pub use recycled::Recycled;
pub use sides::{is_side, macroblocks};
/// An allocation was refused.
pub use std::alloc::AllocError as NoMemory;
