// The packets that decoding accepts, without decoding them.
ghost use Rattle.std.specs.Prelude.{◌≡◌, ◌+◌, ◌<◌, ◌≤◌, [], IfNone, IfSome, length, slice_index_or};
ghost use Rattle.frame_header.specs.Tags.{key_size_of};
ghost use Rattle.packet_edits.specs.Shown.{stream_of};
ghost use Rattle.stream_refusals.specs.Refusals.{HaveNoCause, IsBreak, run_start};

use crate::cuts::key_place;
use frame_header::key_size;
use packet_edits::Store;
use stream_refusals::cause_against;
use stream_steps::Broken;

/// The break at an index, if the packets before another one of the same run are accepted. Only the outlines of the
/// packets from there on are read.
fn break_from(list: &Store, first: usize, from: usize, place: usize) -> Option<Broken>
    requires place { place < length list.now.list.entries }
    requires first { first ≡ run_start (stream_of list.now.list) place }
    requires from { (first ≤ from) × (from ≤ place + 1) }
    requires accepted { HaveNoCause (stream_of list.now.list) first from }
    ensures broken { IfSome result (IsBreak (stream_of list.now.list) place) }
    ensures accepted { IfNone result (HaveNoCause (stream_of list.now.list) first (place + 1)) }
{
    list.prove_few();
    'packets: for k in from..place + 1 {
        if let Some(cause) = cause_against(first < k, list.packet(k)) {
            return Some(Broken { place: k, cause });
        }
    }
    None
}

/// Where the reading of outlines begins: after an earlier packet that is accepted, if it is of the same run, or at
/// the start of the run.
fn unread_from(list: &Store, first: usize, before: Option<usize>, place: usize) -> usize
    requires place { place < length list.now.list.entries }
    requires first { (first ≡ run_start (stream_of list.now.list) place) × (first ≤ place) }
    requires before { IfSome before (λ earlier. HaveNoCause (stream_of list.now.list) (run_start (stream_of list.now.list) earlier) (earlier + 1)) }
    ensures within { (first ≤ result) × (result ≤ place + 1) }
    ensures accepted { HaveNoCause (stream_of list.now.list) first result }
{
    list.prove_few();
    match before {
        Some(earlier) if first <= earlier && earlier <= place => earlier + 1,
        _ => first,
    }
}

/// The break of the stream at the packet at an index, which exists, if decoding refuses that packet.
///
/// `before` is the index of a packet that decoding accepts, if one is known. Only outlines are read: those after that packet,
/// if no key tag is between, else those from the last key tag on.
pub fn break_at(list: &Store, before: Option<usize>, place: usize) -> Option<Broken>
    requires place { place < length list.now.list.entries }
    requires before { IfSome before (λ earlier. HaveNoCause (stream_of list.now.list) (run_start (stream_of list.now.list) earlier) (earlier + 1)) }
    ensures broken { IfSome result (IsBreak (stream_of list.now.list) place) }
    ensures accepted { IfNone result (HaveNoCause (stream_of list.now.list) (run_start (stream_of list.now.list) place) (place + 1)) }
{
    let first = key_place(list, place);
    let from = unread_from(list, first, before, place);
    break_from(list, first, from, place)
}

/// The width and height in the first packet of the run that an index is in, if they are there.
pub fn run_size(list: &Store, place: usize) -> Option<(u16, u16)>
    requires { place < length list.now.list.entries }
    ensures { result ≡ key_size_of (slice_index_or (stream_of list.now.list) (run_start (stream_of list.now.list) place) []) }
{
    key_size(list.packet(key_place(list, place)))
}
