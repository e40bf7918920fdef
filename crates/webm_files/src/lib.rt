//! WebM and Matroska files (RFC 8794, RFC 9559): elements, blocks, tracks, and the video as a stream of packets.
#![tactic(auto)]

mod blocks;
mod children;
mod elements;
mod files;
mod gaps;
mod heads;
mod ids;
pub mod laws;
mod lengths;
mod media;
mod numbers;
mod packets;
mod rates;
mod surveys;
mod tracks;
mod walks;

pub use blocks::Block;
pub use elements::Element;
pub use files::{
    MAX_ELEMENTS, MAX_TRACKS, Webm, WebmFault, codec_there, is_marked, webm_read_from, webm_share,
};
pub use gaps::Gap;
pub use ids::{CLUSTER, SEGMENT};
pub use lengths::WrongLength;
pub use media::Media;
pub use packets::{is_listed, is_packet};
pub use rates::frame_rate;
