//! WebM and Matroska files as they are written (RFC 8794, RFC 9559): elements in sequence, of which every length is known before it is written.
#![tactic(auto)]

mod checks;
mod clusters;
mod entries;
mod files;
mod heads;
mod indexes;
pub mod laws;
mod samples;
mod sizes;

pub use checks::fits;
pub use entries::{info_of, time_of, tracks_of};
pub use files::write_webm;
pub use samples::{Part, Sample};
