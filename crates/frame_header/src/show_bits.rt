//! The show bit of a packet: bit 4 of its first byte says that the frame is shown (RFC 6386, section 9.1).
ghost use Rattle.std.specs.Prelude.{◌≡◌, true, IfErr, IfOk};
ghost use Rattle.frame_header.specs.ShowFaults.{ShowRefuses};
ghost use Rattle.frame_header.specs.ShowBits.{byte_showing, has_show_bit, with_show_bit};

use crate::show_fault::ShowFault;
use std::alloc::Global;

/// A byte with bit 4 set or cleared, and its other bits as they are.
fn byte_showing(shown: bool, byte: u8) -> u8
    ensures { result ≡ byte_showing shown byte }
{
    let others = byte / 32 * 32 + byte % 16;
    if shown { others + 16 } else { others }
}

/// Whether a packet has a show bit: it has 3 bytes or more.
pub fn has_show_bit(packet: &[u8]) -> bool
    ensures { result ≡ has_show_bit packet.now }
{
    3 <= packet.len()
}

/// Sets or clears the show bit of a packet in place, and returns whether the packet has one. A packet of
/// fewer than 3 bytes has none and is unchanged.
pub fn set_show_bit(packet: &mut [u8], shown: bool) -> bool
    ensures answers { result ≡ has_show_bit packet.old }
    ensures after { packet.new ≡ with_show_bit shown packet.old }
{
    if packet.len() < 3 {
        return false;
    }
    packet[0] = byte_showing(shown, packet[0]);
    true
}

/// A copy of a packet with its show bit set or cleared.
///
/// `NoBit` if the packet has fewer than 3 bytes; `NoMemory` if the allocation fails.
pub fn with_show_bit(alloc: Global, packet: &[u8], shown: bool) -> Result<Vec<u8>, ShowFault>
    ensures has_bit { IfOk result (λ copy. has_show_bit packet.now ≡ true) }
    ensures value { IfOk result (λ copy. copy.items ≡ with_show_bit shown packet.now) }
    ensures refused { IfErr result (ShowRefuses packet.now) }
{
    if !has_show_bit(packet) {
        return Err(ShowFault::NoBit);
    }
    let Ok(mut copy) = Vec::from_slice(alloc, packet) else {
        return Err(ShowFault::NoMemory);
    };
    set_show_bit(&mut copy, shown);
    Ok(copy)
}
