//! The header of a VP8 frame: its tag, its fields and the positions of its partitions (RFC 6386,
//! sections 7, 9 and 19).
#![tactic(auto)]

mod cause;
mod context;
mod fields;
mod header;
mod inter_fields;
pub mod laws;
mod outline;
mod padding;
mod places;
mod references;
mod show_bits;
mod show_fault;
pub mod show_laws;
mod start;
mod tag_fields;
mod tags;
mod trailing_fields;

pub use cause::Cause;
pub use context::{Context, FilterDeltas, Probabilities, Segments, SignBiases};
pub use fields::{Colors, Filter, Segmentation};
pub use header::{Header, first_partition, read_header, read_header_over};
pub use inter_fields::ReferenceProbabilities;
pub use outline::{Outline, key_scales, read_outline};
pub use padding::ends_empty;
pub use places::PartitionRange;
pub use references::{Reference, ReferenceUpdates};
pub use show_bits::{has_show_bit, set_show_bit, with_show_bit};
pub use show_fault::ShowFault;
pub use tag_fields::Tag;
pub use tags::{has_key_tag, is_shown, key_size, tag};
pub use trailing_fields::Quantizers;
