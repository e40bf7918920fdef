//! What the text of a VP8 header has besides the decoder's header: how many bits its optional fields take, and the numbers
//! that decoding does not use (RFC 6386, section 19.2).
#![tactic(auto)]

mod bits;
mod coded;
mod copies;
pub mod laws;
mod reading;

pub use bits::{DeltaBits, HeaderBits, InterBits, SegmentBits, read_header_bits};
pub use coded::{Coded, read_coded};
pub use copies::{CopyNumbers, copy_numbers};
