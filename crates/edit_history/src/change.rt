ghost use Rattle.std.specs.Prelude.{◌≡◌};
ghost use Rattle.edit_history.specs.Changes.{IsReady, back, store_made};

use packet_edits::{Entry, Store};

/// A change of the packets of a source. It owns the packet that it puts into the list.
#[derive(Drop)]
pub enum Change {
    /// A packet returns to index `at`. It has no mark, and the packet after it is marked.
    Put { at: usize, entry: Entry },
    /// The packet at index `at` is removed, and the packet that is there then is marked.
    Take { at: usize },
    /// The packet at index `at` is exchanged for another one. If `cuts`, the new one has no mark, and the packet after it is
    /// marked; else they differ at most in the show bit, and the marks stay.
    Exchange { at: usize, entry: Entry, cuts: bool },
    /// The packet at index `from` is moved to index `to`, with the marks of a move.
    Move { from: usize, to: usize },
}

/// Makes a change, and returns the one that leads back. A packet that returns has a place at the end of the list, which is
/// removed. It allocates nothing.
pub(crate) fn make(store: &mut Store, change: Change) -> Change
    requires { IsReady change store.old }
    ensures after { store.new ≡ store_made change store.old }
    ensures back { result ≡ back change store.old.list.entries }
{
    store.prove_few();
    match change {
        Change::Put { at, entry } => {
            let place = store.len() - 1;
            store.put_back(place, at, entry);
            Change::Take { at }
        }
        Change::Take { at } => {
            let entry = store.take(at);
            Change::Put { at, entry }
        }
        Change::Exchange { at, entry, cuts } => {
            let entry = store.exchange(at, entry, cuts);
            Change::Exchange { at, entry, cuts }
        }
        Change::Move { from, to } => {
            let _moved = store.move_to(from as u64, to as u64);
            Change::Move { from: to, to: from }
        }
    }
}
