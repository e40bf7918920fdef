//! Why decoding refuses a packet, without decoding it.
ghost use Rattle.std.specs.Prelude.{◌≡◌};
ghost use Rattle.stream_refusals.specs.Refusals.{cause_against};

use frame_header::{Cause, read_outline};

/// The cause against a packet, if decoding refuses it. `follows` says whether a packet was accepted since the last
/// key tag or the start. Only the first fields of its header are read.
pub fn cause_against(follows: bool, packet: &[u8]) -> Option<Cause>
    ensures { result ≡ cause_against follows packet.now }
{
    if packet.is_empty() {
        return if follows {
            None
        } else {
            Some(Cause::NoKeyFrame)
        };
    }
    match read_outline(follows, packet) {
        Ok(_) => None,
        Err(cause) => Some(cause),
    }
}
