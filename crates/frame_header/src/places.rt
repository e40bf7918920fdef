ghost use Rattle.std.specs.Prelude.{◌≡◌, ◌<◌, ◌≤◌, ◌+◌, length, IfOk, All};
ghost use Rattle.frame_header.specs.Places.{token_ranges};

use crate::cause::Cause;
use crate::tags::number_at;
use arrayvec::ArrayVec;

/// The position of a partition in its packet, in bytes.
#[derive(Clone, Copy, Debug, Default, PartialEq, Eq)]
pub struct PartitionRange {
    /// The index of its first byte.
    pub start: usize,
    /// How many bytes it has.
    pub length: usize,
}

/// The positions of the `count` token partitions, 1 to 8, whose sizes start at index `at`.
pub(crate) fn token_ranges(
    packet: &[u8],
    at: usize,
    count: usize,
) -> Result<ArrayVec<PartitionRange, 8>, Cause>
    requires some { 0 < count }
    requires few { count ≤ 8 }
    requires inside { at ≤ length packet.now }
    ensures value { result ≡ token_ranges packet.now at count }
    ensures some { IfOk result (λ places. 0 < length places.items) }
    ensures inside { IfOk result (λ places. All (λ place. place.start + place.length ≤ length packet.now) places.items) }
{
    let sizes = 3 * (count - 1);
    if packet.len() - at < sizes {
        return Err(Cause::TokenSizes);
    }
    let mut places = ArrayVec::new();
    let mut start = at + sizes;
    for k in 0..count - 1 {
        let length = number_at(packet, at + 3 * k) as usize;
        if length > packet.len() - start {
            return Err(Cause::TokenPartition(k as u8));
        }
        places.push(PartitionRange { start, length });
        start += length;
    }
    let length = packet.len() - start;
    places.push(PartitionRange { start, length });
    Ok(places)
}
