//! The prediction modes and motion vectors of a frame's macroblocks (RFC 6386, sections 8.2, 11, 16,
//! 17 and 19.3).
#![tactic(auto)]

mod chroma_vectors;
mod frame_modes;
mod frame_records;
mod inter_modes;
mod key_modes;
mod key_sub_modes;
pub mod laws;
mod nearby;
mod neighbours;
mod places;
mod record_facts;
mod record_list;
mod records;
mod segments;
mod split_vectors;
mod vector_reading;
mod vectors;

pub use chroma_vectors::chroma_vector;
pub use frame_modes::{Modes, read_modes};
pub use nearby::{MbPosition, Near, near_vectors};
pub use record_facts::{RecordFacts, read_modes_with_facts};
pub use record_list::{Record, Records};
pub use records::{MbMode, Split, VectorMode, YMode};
pub use vectors::Vector;
