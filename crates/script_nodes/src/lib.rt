//! Scripts: clips of one or more sources that are trimmed, spliced, cropped and faded, given by frame
//! numbers, and the pictures that they make.
#![tactic(auto)]

mod drafts;
mod faults;
pub mod laws;
mod node_steps;
mod nodes;
mod origins;
mod part_list;
mod part_texts;
mod parts;
mod pictures;
mod planes;
mod reading;
mod rows;
mod scripts;
mod traces;
mod writing;

pub use faults::{ApplyFault, CropOutside, ScriptFault};
pub use node_steps::NodeStep;
pub use nodes::{Area, Node, Ramp};
pub use origins::{FrameOrigin, changed_nodes, keeps_samples, write_origin};
pub use part_list::{Part, PartList};
pub use pictures::apply;
pub use scripts::Script;
pub use traces::{Step, Trace};
