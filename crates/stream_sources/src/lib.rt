//! What a source is read as: an IVF file, or the video of a WebM or Matroska file.
#![tactic(auto)]

mod faults;
pub mod laws;
mod sources;

pub use faults::StreamFault;
pub use sources::{Source, source_read_from, source_share, stream_read_from, stream_share};
