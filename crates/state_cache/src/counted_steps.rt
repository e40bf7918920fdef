//! Counted decoding steps.
ghost use Rattle.std.specs.Prelude.{◌≡◌, ◌+◌, ◌≤◌, min};
ghost use Rattle.std.specs.Option.{option_copied};
ghost use Rattle.reference_frames.specs.Steps.{StepAnswers, step_of};
ghost use Rattle.state_cache.specs.Costs.{most_steps};

use pixel_planes::{Picture, Recycled};
use reference_frames::{State, StepFault, step_with};
use std::alloc::Global;
use std::marker::Model;
use vp8_tables::Tables;

/// The number of decoding steps made, at most 18,446,744,073,709,551,615. `decode_counted` is the only
/// function of this crate that decodes a packet, so each step is counted.
#[derive(Drop)]
pub struct StepCount {
    made: u64,
}

impl Model for StepCount {
    ghost use Rattle.std.specs.Prelude.{ℕ};

    ghost Value = { ℕ };

    ghost view = { λ c. c.made };
}

impl StepCount {
    /// No step.
    pub fn new() -> StepCount
        ensures { result ≡ 0 }
    {
        StepCount { made: 0 }
    }

    /// The number of steps made.
    pub fn made(&self) -> u64
        ensures value { result ≡ self.now }
        ensures most { result ≤ most_steps }
    {
        self.made
    }
}

/// Decodes a packet by `reference_frames::step_with` and counts the step, refused or not.
pub fn decode_counted(
    steps: &mut StepCount,
    alloc: Global,
    tables: &Tables,
    recycled: &mut Recycled,
    state: Option<&State>,
    packet: &[u8],
) -> Result<(State, Picture), StepFault>
    ensures counted { steps.new ≡ min (steps.old + 1) most_steps }
    ensures answers { StepAnswers (step_of tables.now (option_copied state.entry) packet.now) result }
{
    steps.made = steps.made.saturating_add(1);
    step_with(alloc, tables, recycled, state, packet)
}
