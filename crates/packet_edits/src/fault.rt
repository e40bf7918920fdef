ghost use Rattle.std.specs.Prelude.{◌≡◌};
ghost use Rattle.packet_edits.specs.Faults.{edit_fault_word};

use thiserror::Error;

/// Why an edit is refused. The errors are checked in this order.
#[derive(Clone, Copy, Debug, PartialEq, Eq, Error)]
pub enum EditFault {
    /// There is no packet at the index.
    #[error("there is no packet at the index")]
    Place,
    /// The list has 1,048,576 packets, or would have more.
    #[error("the list has the greatest number of packets")]
    Full,
    /// No id is left for another packet.
    #[error("no id is left")]
    Spent,
    /// The packet has fewer than 3 bytes, so it has no show bit.
    #[error("the packet has no show bit")]
    NoBit,
    /// Memory was refused.
    #[error("memory was refused")]
    NoMemory,
}

impl EditFault {
    /// The name of the error.
    pub fn word(self) -> &'static str
        ensures { result.now ≡ edit_fault_word self }
    {
        match self {
            EditFault::Place => "Place",
            EditFault::Full => "Full",
            EditFault::Spent => "Spent",
            EditFault::NoBit => "NoBit",
            EditFault::NoMemory => "NoMemory",
        }
    }
}

/// Why packets are not saved with new time stamps.
#[derive(Clone, Copy, Debug, PartialEq, Eq, Error)]
pub enum RestampFault {
    /// The writer returned an error.
    #[error("the writer returned an error")]
    Write,
    /// Memory was refused.
    #[error("memory was refused")]
    NoMemory,
}
