//! What decoding a whole stream shows: the MD5 of each frame, in the text of ffmpeg's muxer `framemd5`, and what is wrong with
//! a file and its packets.
#![tactic(auto)]

mod checker;
mod checking;
mod decoding;
mod fault;
mod file;
mod finding;
mod hash_lines;
mod hashes;
pub mod laws;
mod lines;
mod media;
mod objects;
mod packets;
mod partitions;
mod progress;
mod reader;
mod samples;
mod stamps;
mod texts;
mod time_bases;
mod webm_trouble;

pub use checker::Checker;
pub use checking::{CheckedFile, check};
pub use fault::CheckFault;
pub use finding::{Finding, Spot, Tally, Trouble};
pub use hashes::{HashFault, write_hashes};
pub use macroblock_lists::Form;
pub use objects::write_tally;
pub use packets::{Ahead, PacketsBefore, is_same};
pub use progress::{Unwatched, Watch};
pub use reader::Reader;
pub use stamps::{Pace, Stamps, add_stamp, pace_over};
pub use webm_trouble::WebmTrouble;
