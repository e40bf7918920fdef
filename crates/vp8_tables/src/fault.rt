ghost use Rattle.std.specs.Prelude.{◌≡◌};
ghost use Rattle.vp8_tables.specs.Fault.{fault_word};

use thiserror::Error;

/// Why a text is not a set of long tables.
#[derive(Clone, Copy, Debug, PartialEq, Eq, Error)]
pub enum TableFault {
    /// The text does not have 3,012 bytes.
    #[error("the tables do not have 3012 bytes")]
    Length,
}

impl TableFault {
    /// The error's name.
    pub fn word(self) -> &'static str
        ensures { result.now ≡ fault_word self }
    {
        match self {
            TableFault::Length => "Length",
        }
    }
}
