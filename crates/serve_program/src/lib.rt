//! The program vp8serve over its arguments, a reader and two writers: IVF files and request lines in, a YUV4MPEG2 text and
//! replies out, and on standard error why a request or the program failed.
#![tactic(auto)]

mod explain;
mod exports;
mod frames;
mod host;
pub mod laws;
mod live;
mod messages;
mod program;
mod runs;
mod saving;

pub use explain::{name_explain, name_help};
pub use host::RunHost;
pub use program::{run_to, serve};
pub use runs::Over;
pub use serve_arguments::{Argument, Fault, Mistake, NotExported, SameFile, parse};
