ghost use Rattle.std.specs.Prelude.{◌≡◌, ◌+◌, ◌-◌, ◌≤◌, ◌++◌, OnErr, OnOk, drop, length, take, vec_capacity, vec_len};
ghost use Rattle.edit_history.specs.Places.{HaveOwnHeld};
ghost use Rattle.edit_history.specs.Steps.{ArePossible, AreReady, HaveSources, after_steps, all_made, content_of, last_first, ways_back, ways_made};

use crate::laws::steps_need_no_memory;
use crate::places::{make_places, prove_marked};
use crate::step::{Step, make_step};
use packet_edits::Store;
use pixel_planes::NoMemory;
use script_nodes::Script;

/// Makes the last `count` steps of a list, the last one first, and moves the steps that lead back to the end of another list.
///
/// `NoMemory` if out of memory for the places of the packets that return or for the steps that lead back: nothing changes then.
pub fn travel(
    from: &mut Vec<Step>,
    to: &mut Vec<Step>,
    stores: &mut [Store],
    script: &mut Script,
    current: &mut usize,
    count: usize,
) -> Result<(), NoMemory>
    requires count { count ≤ vec_len from.old }
    requires sources { HaveSources (length stores.old) (drop (vec_len from.old - count) from.old.items) }
    requires possible { ArePossible (last_first (drop (vec_len from.old - count) from.old.items)) (content_of stores.old script.old current.old) }
    requires own { HaveOwnHeld (last_first (drop (vec_len from.old - count) from.old.items)) stores.old }
    ensures content { OnOk result (content_of stores.new script.new current.new ≡ after_steps (last_first (drop (vec_len from.old - count) from.old.items)) (content_of stores.old script.old current.old)) }
    ensures from { OnOk result (from.new.items ≡ take (vec_len from.old - count) from.old.items) }
    ensures to { OnOk result (to.new.items ≡ to.old.items ++ ways_back (last_first (drop (vec_len from.old - count) from.old.items)) (content_of stores.old script.old current.old)) }
    ensures refused { OnErr result (content_of stores.new script.new current.new ≡ content_of stores.old script.old current.old) }
    ensures kept { OnErr result ((from.new.items ≡ from.old.items) × (to.new.items ≡ to.old.items)) }
{
    steps_need_no_memory();
    prove_marked(stores);
    let Ok(()) = to.reserve(count) else {
        return Err(NoMemory);
    };
    let first = from.len() - count;
    let Ok(()) = make_places(stores, &from[first..]) else {
        return Err(NoMemory);
    };
    make_steps(from, to, stores, script, current, count);
    Ok(())
}

/// Makes the last `count` steps of a list, for which there are places, and moves the steps that lead back to the end of another
/// list, which has room for them.
fn make_steps(
    from: &mut Vec<Step>,
    to: &mut Vec<Step>,
    stores: &mut [Store],
    script: &mut Script,
    current: &mut usize,
    count: usize,
)
    requires count { count ≤ vec_len from.old }
    requires room { vec_len to.old + count ≤ vec_capacity to.old }
    requires ready { AreReady (last_first (drop (vec_len from.old - count) from.old.items)) (content_of stores.old script.old current.old) }
    ensures content { content_of stores.new script.new current.new ≡ all_made (last_first (drop (vec_len from.old - count) from.old.items)) (content_of stores.old script.old current.old) }
    ensures from { from.new.items ≡ take (vec_len from.old - count) from.old.items }
    ensures to { to.new.items ≡ to.old.items ++ ways_made (last_first (drop (vec_len from.old - count) from.old.items)) (content_of stores.old script.old current.old) }
{
    'steps: for _made in 0..count {
        let Some(step) = from.pop() else {
            unreachable!()
        };
        let back = make_step(stores, script, current, step);
        to.push_reserved(back);
    }
}
