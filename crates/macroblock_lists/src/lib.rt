//! The macroblocks of a packet and the fields of its header, as text: what each macroblock is made of, by the
//! records, tokens, filter limits and quantizers that decoding has.
#![tactic(auto)]

mod changes;
mod coefficients;
mod fields;
mod frames;
mod known;
pub mod laws;
mod layouts;
mod lines;
mod listing;
mod macroblocks;
mod names;
mod objects;
mod packet_texts;
mod partition_ends;
mod parts;
mod readings;
mod records;
mod segment_fields;
mod texts;
mod tokens;
mod values;

pub use known::{Knowledge, Known, progress_after};
pub use layouts::{Form, Target, What};
pub use listing::{ListFault, Wanted, write_list};
pub use macroblocks::Macroblock;
pub use packet_texts::write_packet;
pub use partition_ends::{PartitionEnd, PartitionEnds, read_packet};
