ghost use Rattle.std.specs.Prelude.{◌≡◌};
ghost use Rattle.lossless_cuts.specs.Faults.{cut_fault_by, cut_fault_word};

use packet_forge::ForgeFault;
use thiserror::Error;

/// Why frames are not exported.
#[derive(Clone, Copy, Debug, PartialEq, Eq, Error)]
pub enum CutFault {
    /// A frame's source or packet does not exist.
    #[error("there is no packet at the index")]
    Place,
    /// There would be more than 1,048,576 packets, or more than 1,073,741,824 bytes as an IVF file.
    #[error("there would be more than 1048576 packets or 1073741824 bytes")]
    Full,
    /// A hold packet was needed for a width or height of 0 or above 16,383.
    #[error("no frame has this size")]
    Size,
    /// The first partition of a hold packet would have more than 524,287 bytes.
    #[error("the first partition of a hold packet is too large")]
    TooLarge,
    /// Memory was refused.
    #[error("memory was refused")]
    NoMemory,
}

impl CutFault {
    /// The name of the error.
    pub fn word(self) -> &'static str
        ensures { result.now ≡ cut_fault_word self }
    {
        match self {
            CutFault::Place => "Place",
            CutFault::Full => "Full",
            CutFault::Size => "Size",
            CutFault::TooLarge => "TooLarge",
            CutFault::NoMemory => "NoMemory",
        }
    }

    /// The error of an export whose hold packet is not forged.
    pub(crate) fn by(fault: ForgeFault) -> CutFault
        ensures { result ≡ cut_fault_by fault }
    {
        match fault {
            ForgeFault::Size => CutFault::Size,
            ForgeFault::TooLarge => CutFault::TooLarge,
            ForgeFault::NoMemory => CutFault::NoMemory,
        }
    }
}
