ghost use Rattle.std.specs.Prelude.{◌≡◌};
ghost use Rattle.edit_history.specs.Steps.{IsReadyStep, content_of, made, way_back};

use crate::change::{Change, make};
use packet_edits::Store;
use script_nodes::Script;
use std::mem::replace;

/// A step to an earlier or a later value: a change of the packets of a source, or another script; and the source that is current
/// in that value.
#[derive(Drop)]
pub enum Step {
    Packets {
        source: usize,
        change: Change,
        current: usize,
    },
    Script {
        script: Script,
        current: usize,
    },
}

/// Makes a step, and returns the one that leads back. It allocates nothing.
pub(crate) fn make_step(
    stores: &mut [Store],
    script: &mut Script,
    current: &mut usize,
    step: Step,
) -> Step
    requires { IsReadyStep step (content_of stores.old script.old current.old) }
    ensures after { content_of stores.new script.new current.new ≡ made step (content_of stores.old script.old current.old) }
    ensures back { result ≡ way_back step (content_of stores.old script.old current.old) }
{
    match step {
        Step::Packets {
            source,
            change,
            current: other,
        } => {
            let change = make(&mut stores[source], change);
            let current = replace(current, other);
            Step::Packets {
                source,
                change,
                current,
            }
        }
        Step::Script {
            script: other_script,
            current: other,
        } => {
            let script = replace(script, other_script);
            let current = replace(current, other);
            Step::Script { script, current }
        }
    }
}
