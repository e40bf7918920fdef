//! The loop filter of VP8 (RFC 6386, section 15).
#![tactic(auto)]

mod blocks;
mod columns;
mod columns_inner;
mod edge_limits;
mod edges;
mod four_samples;
mod frames;
mod joined_edges;
mod kernels;
mod lanes;
pub mod laws;
mod levels;
mod macroblocks;
mod pairs;
mod rows_inner;
mod strengths;
mod taps;
mod wide_columns;

pub use edge_limits::Limits;
pub use four_samples::simple;
pub use frames::{RowFilter, frame};
pub use levels::level;
pub use strengths::{has_subblock_modes, limits};
