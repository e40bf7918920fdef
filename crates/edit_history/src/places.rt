// Places for packets that return, which are made before the first step, so that no step takes memory.
ghost use Rattle.std.specs.Prelude.{◌≡◌, List, if◌then◌else◌, is_ok};
ghost use Rattle.packet_edits.specs.Marks.{StoreValue};
ghost use Rattle.edit_history.specs.Laws.{AreMarked};
ghost use Rattle.edit_history.specs.Places.{ArePlaceable, IsDroppable, IsPlaceable, with_place, with_places, without_place};

use crate::change::Change;
use crate::step::Step;
use packet_edits::Store;
use pixel_planes::NoMemory;
use stream_files::MAX_PACKETS;

/// Makes a place for the packet that a step puts back, if it puts one back. If memory is refused, or the list has the greatest
/// number of packets, nothing changes.
fn make_place(stores: &mut [Store], step: &Step) -> Result<(), NoMemory>
    requires { IsPlaceable step.now stores.old }
    ensures { stores.new ≡ (if is_ok result then with_place step.now stores.old else stores.old) }
{
    match step {
        Step::Packets {
            source,
            change: Change::Put { entry, .. },
            ..
        } => {
            if stores[*source].len() >= MAX_PACKETS {
                return Err(NoMemory);
            }
            stores[*source].make_place(entry)
        }
        _ => Ok(()),
    }
}

/// Removes the place that was made for a step, which is the last packet of its source.
fn drop_place(stores: &mut [Store], step: &Step)
    requires { IsDroppable step.now stores.old }
    ensures { stores.new ≡ without_place step.now stores.old }
{
    match step {
        Step::Packets {
            source,
            change: Change::Put { .. },
            ..
        } => {
            let last = stores[*source].len() - 1;
            let _place = stores[*source].take(last);
        }
        _ => {}
    }
}

/// Makes places for the packets that steps put back. If memory is refused, nothing changes.
pub(crate) fn make_places(stores: &mut [Store], steps: &[Step]) -> Result<(), NoMemory>
    requires { ArePlaceable steps.now stores.old }
    ensures { stores.new ≡ (if is_ok result then with_places steps.now stores.old else stores.old) }
{
    for i in 0..steps.len() {
        let Ok(()) = make_place(stores, &steps[i]) else {
            drop_places(stores, &steps[..i]);
            return Err(NoMemory);
        };
    }
    Ok(())
}

/// Removes the places that were made for steps.
fn drop_places(stores: &mut [Store], steps: &[Step])
    requires { (before : List StoreValue) × ArePlaceable steps.now before × (stores.old ≡ with_places steps.now before) }
    ensures { (before : List StoreValue) → ArePlaceable steps.now before → stores.old ≡ with_places steps.now before → stores.new ≡ before }
{
    for i in (0..steps.len()).rev() {
        prove_marked(stores);
        drop_place(stores, &steps[i]);
    }
}

/// Does nothing. Its contract: each source has as many marks as packets.
pub(crate) fn prove_marked(stores: &[Store])
    ensures { AreMarked stores.now }
{
    for i in 0..stores.len() {
        stores[i].prove_few();
    }
}
