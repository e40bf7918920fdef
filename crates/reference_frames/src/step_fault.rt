ghost use Rattle.std.specs.Prelude.{◌≡◌};
ghost use Rattle.reference_frames.specs.Faults.{step_fault_word};

use frame_header::Cause;
use thiserror::Error;

/// Why a step returns no state.
#[derive(Clone, Copy, Debug, PartialEq, Eq, Error)]
pub enum StepFault {
    /// The packet is refused by this cause.
    #[error("the packet is refused: {0}")]
    Refused(Cause),
    /// Memory was refused.
    #[error("memory was refused")]
    NoMemory,
}

impl StepFault {
    /// The error's name; the name of a refusal is its cause's.
    pub fn word(self) -> &'static str
        ensures { result.now ≡ step_fault_word self }
    {
        match self {
            StepFault::Refused(cause) => cause.word(),
            StepFault::NoMemory => "NoMemory",
        }
    }
}
