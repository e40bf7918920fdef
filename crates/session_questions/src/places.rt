// The position before a packet, from the last key packet before it.
ghost use Rattle.std.specs.Prelude.{◌≡◌, ◌≤◌, IfSome, length};
ghost use Rattle.packet_edits.specs.Shown.{stream_of};
ghost use Rattle.session_questions.specs.Kept.{IsListed};
ghost use Rattle.session_questions.specs.Places.{IsAfterKey, position_at};

use frame_header::read_outline;
use packet_edits::Store;
use stream_facts::{Position, end_of_record};

/// The byte at which the first record of a saved file begins.
const FIRST_RECORD: usize = 32;

/// About how many lengths are added in the time in which a header is read, by measurement: a position after a key packet costs the
/// lengths of all packets before it, a known one only headers.
const LENGTHS_PER_HEADER: usize = 50;

/// The byte at which the record of the packet at index `at` begins in a saved file.
fn begins_before(store: &Store, at: usize) -> usize
    requires { at ≤ length store.now.list.entries }
    ensures { result ≡ (position_at store.now.list at).begins }
{
    let mut begins = FIRST_RECORD;
    for place in 0..at {
        begins = end_of_record(begins, store.packet(place));
    }
    begins
}

/// The index after the last packet before `at` that has a key tag and an accepted header; 0 if there is none.
fn after_key_before(store: &Store, at: usize) -> usize
    requires { at ≤ length store.now.list.entries }
    ensures within { result ≤ at }
    ensures key { IsAfterKey (stream_of store.now.list) result }
{
    let mut end = at;
    'keys: while let Some(place) = store.last_key(end) {
        if read_outline(true, store.packet(place)).is_ok() {
            return place + 1;
        }
        end = place;
    }
    0
}

/// The position at index `at`, which comes after a key packet with an accepted header, or is 0.
fn position_after_key(store: &Store, at: usize) -> Position
    requires within { at ≤ length store.now.list.entries }
    requires key { IsAfterKey (stream_of store.now.list) at }
    ensures { result ≡ position_at store.now.list at }
{
    if at == 0 {
        Position::first(FIRST_RECORD)
    } else {
        Position::after_key(at, store.shown_before(at), begins_before(store, at))
    }
}

/// The position from which headers are read for index `at`: after the last accepted key packet before it, or the known one, if that is
/// nearer, or if the headers from it up to that key packet are read sooner than the lengths before the key packet are added.
fn nearest_before(store: &Store, known: Option<Position>, at: usize) -> Position
    requires within { at ≤ length store.now.list.entries }
    requires known { IfSome known (IsListed store.now.list) }
    ensures listed { IsListed store.now.list result }
    ensures before { result.packets ≤ at }
{
    let start = after_key_before(store, at);
    if let Some(known) = known {
        let more = start.saturating_sub(known.packets());
        if known.packets() <= at && more <= start / LENGTHS_PER_HEADER {
            return known;
        }
    }
    position_after_key(store, start)
}

/// The position before the packet at index `at`, or after the last packet. `known` is another position of the list, if one is known.
pub(crate) fn position_before(store: &Store, known: Option<Position>, at: usize) -> Position
    requires within { at ≤ length store.now.list.entries }
    requires known { IfSome known (IsListed store.now.list) }
    ensures is { result ≡ position_at store.now.list at }
    ensures packets { result.packets ≡ at }
{
    store.prove_few();
    let mut position = nearest_before(store, known, at);
    let start = position.packets();
    for place in start..at {
        let _facts = position.next_of(store.stamp(place), store.packet(place));
    }
    position
}
