ghost use Rattle.std.specs.Prelude.{◌≡◌};
ghost use Rattle.frame_header.specs.ShowFaults.{show_fault_word};

use thiserror::Error;

/// Why a packet's show bit is not changed, in the order of the checks.
#[derive(Clone, Copy, Debug, PartialEq, Eq, Error)]
pub enum ShowFault {
    /// The packet has fewer than 3 bytes, so it has no show bit.
    #[error("the packet has no show bit")]
    NoBit,
    /// Memory was refused.
    #[error("memory was refused")]
    NoMemory,
}

impl ShowFault {
    /// The name of the error.
    pub fn word(self) -> &'static str
        ensures { result.now ≡ show_fault_word self }
    {
        match self {
            ShowFault::NoBit => "NoBit",
            ShowFault::NoMemory => "NoMemory",
        }
    }
}
