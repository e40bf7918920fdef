//! The session as a C library: a handle that C holds, and calls on it.
#![tactic(auto)]

mod engine;
mod exporting;
mod exports;
mod frames;
mod handle;
mod opening;
mod requests;
mod rooms;
mod saving;
mod statuses;
mod unboxed;

pub use exporting::Unexported;
pub use exports::{
    wk_close, wk_export, wk_frame, wk_open, wk_open_bytes, wk_request, wk_save, wk_save_source,
    wk_text, wk_version, wk_why,
};
pub use frames::{Fault, Shown};
pub use handle::Handle;
pub use unboxed::Unboxed;
