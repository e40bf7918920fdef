// The bytes of the packets of frames, before any is copied.
ghost use Rattle.std.specs.Prelude.{◌≡◌, ◌+◌, ◌<◌, ◌≤◌, ◌∷◌, [], IfNone, IfSome, length, slice_range};
ghost use Rattle.packet_edits.specs.Shown.{stream_of};
ghost use Rattle.lossless_cuts.specs.Limits.{record_size, records_size};
ghost use Rattle.lossless_cuts.specs.Plans.{hidden, planned};

use crate::cuts::Plan;
use frame_header::ends_empty;
use packet_edits::Store;

/// The number of bytes of a record before those of its packet.
const RECORD_HEAD: u64 = 12;

/// The bytes of the record of a packet as it is written: padded if it ends empty.
fn record_size(packet: &[u8]) -> u64
    ensures { result ≡ record_size packet.now }
{
    let padding = if ends_empty(packet) { 1 } else { 0 };
    RECORD_HEAD + packet.len() as u64 + padding
}

/// The bytes of the record of a packet that is hidden: none if the packet has no bytes, since it is left out.
fn hidden_size(packet: &[u8]) -> u64
    ensures { result ≡ records_size (hidden (packet.now ∷ [])) }
{
    frame_header::show_laws::only_the_show_bit_changes();
    if packet.is_empty() {
        0
    } else {
        record_size(packet)
    }
}

/// What is left of a number of bytes after the records of hidden packets, if it is enough for them.
fn left_after_lead(list: &Store, first: usize, end: usize, bytes: u64) -> Option<u64>
    requires { (first ≤ end) × (end ≤ length list.now.list.entries) }
    ensures some { IfSome result (λ left. left + records_size (hidden (slice_range (stream_of list.now.list) first end)) ≡ bytes) }
    ensures none { IfNone result (bytes < records_size (hidden (slice_range (stream_of list.now.list) first end))) }
{
    let mut left = bytes;
    for place in first..end {
        left = left.checked_sub(hidden_size(list.packet(place)))?;
    }
    Some(left)
}

/// What is left of a number of bytes after the records of the packets of a plan, if it is enough for them.
pub(crate) fn left_after(list: &Store, plan: &Plan, bytes: u64) -> Option<u64>
    requires { (plan.now.first ≤ plan.now.end) × (plan.now.end ≤ length list.now.list.entries) }
    ensures some { IfSome result (λ left. left + records_size (planned (stream_of list.now.list) plan.now) ≡ bytes) }
    ensures none { IfNone result (bytes < records_size (planned (stream_of list.now.list) plan.now)) }
{
    let left = left_after_lead(list, plan.first, plan.end, bytes)?;
    left.checked_sub(record_size(plan.shown.as_slice()))
}
