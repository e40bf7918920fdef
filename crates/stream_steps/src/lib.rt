//! Decoding of a stream: one step after another over its packets, from no state. A packet with a key tag is
//! decoded from no state, and a stream that a packet broke is broken up to the next one (RFC 6386, section 5).
#![tactic(auto)]

mod broken;
mod bytes;
pub mod laws;

pub use broken::Broken;
pub use bytes::plane_bytes;
