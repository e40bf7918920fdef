ghost use Rattle.std.specs.Prelude.{◌≡◌};
ghost use Rattle.packet_forge.specs.Faults.{forge_fault_word};

use thiserror::Error;

/// Why a packet is not forged, in the order of the checks.
#[derive(Clone, Copy, Debug, PartialEq, Eq, Error)]
pub enum ForgeFault {
    /// The width or height is 0 or above 16,383.
    #[error("no frame has this size")]
    Size,
    /// The first partition has more than 524,287 bytes, the most that a tag can give.
    #[error("the first partition is too large")]
    TooLarge,
    /// Out of memory for the packet.
    #[error("out of memory for the packet")]
    NoMemory,
}

impl ForgeFault {
    /// The error's name.
    pub const fn word(self) -> &'static str
        ensures { result.now ≡ forge_fault_word self }
    {
        match self {
            ForgeFault::Size => "Size",
            ForgeFault::TooLarge => "TooLarge",
            ForgeFault::NoMemory => "NoMemory",
        }
    }
}
