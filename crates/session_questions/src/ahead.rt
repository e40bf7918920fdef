// What is known of the packets after one, by the indexes of key packets and of shown ones.
ghost use Rattle.std.specs.Prelude.{◌≡◌, ◌+◌, ◌<◌, ◌≤◌, Some, drop, length, slice_get};
ghost use Rattle.stream_files.specs.declared.packets.Packet.{Packet};
ghost use Rattle.packet_edits.specs.Saved.{packets_of};
ghost use Rattle.stream_checks.specs.Packets.{ahead_of, is_repeated, is_unshown, lost_after};

use packet_edits::Store;
use stream_checks::{Ahead, is_same};

/// The index of the first packet with a key tag from index `from` on, or else the number of packets.
fn next_key(store: &Store, from: usize) -> usize
    requires { from ≤ length store.now.list.entries }
    ensures { result ≡ from + lost_after (drop from (packets_of store.now.list)) }
{
    match store.next_key(from, store.len()) {
        Some(place) => place,
        None => store.len(),
    }
}

/// Whether no shown packet comes from index `from` on before index `key`, that of the next key tag.
fn is_unshown(store: &Store, from: usize, key: usize) -> bool
    requires { key ≡ from + lost_after (drop from (packets_of store.now.list)) }
    ensures { result ≡ is_unshown (drop from (packets_of store.now.list)) }
{
    store.shown_before(from) == store.shown_before(key)
}

/// Whether the packet after the one at index `at` has its time stamp and its bytes.
fn is_repeated(store: &Store, at: usize) -> bool
    requires { at < length store.now.list.entries }
    ensures { (packet : Packet) → slice_get (packets_of store.now.list) at ≡ Some packet → result ≡ is_repeated packet (drop (at + 1) (packets_of store.now.list)) }
{
    store.prove_few();
    let next = at + 1;
    if next < store.len() {
        is_same(
            store.stamp(at),
            store.packet(at),
            store.stamp(next),
            store.packet(next),
        )
    } else {
        false
    }
}

/// What is known of the packets after the one at index `at`. No packet is read but these two.
pub(crate) fn ahead_at(store: &Store, at: usize) -> Ahead
    requires { at < length store.now.list.entries }
    ensures { (packet : Packet) → slice_get (packets_of store.now.list) at ≡ Some packet → result ≡ ahead_of packet (drop (at + 1) (packets_of store.now.list)) }
{
    store.prove_few();
    let next = at + 1;
    let key = next_key(store, next);
    Ahead {
        lost: key - next,
        is_unshown: is_unshown(store, next, key),
        is_repeated: is_repeated(store, at),
    }
}
