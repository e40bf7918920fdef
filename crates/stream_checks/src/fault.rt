use thiserror::Error;

/// Why a check ends early.
#[derive(Clone, Copy, Debug, PartialEq, Eq, Error)]
pub enum CheckFault {
    /// Out of memory for a step of decoding.
    #[error("out of memory for a step of decoding")]
    NoMemory,
    /// The writer returned an error.
    #[error("the writer returned an error")]
    Write,
}
