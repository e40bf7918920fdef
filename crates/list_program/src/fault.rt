// The errors that end the program early.
ghost use Rattle.std.specs.Prelude.{◌≡◌};
ghost use Rattle.list_program.specs.Statuses.{argument_fault, file_fault};

use command_lines::{ArgumentFault, Ending, FileFault, InLine};
use std::fmt;
use stream_sources::StreamFault;
use thiserror::Error;

/// Why the program exits without its list. Its `Display` is the text that the user sees after the
/// program's name. A path is the argument as given.
#[derive(Clone, Copy, Debug, PartialEq, Eq, Error)]
pub enum Fault<'a> {
    /// The arguments are not the program's.
    #[error("command line")]
    CommandLine,
    /// A file cannot be opened, or reading it failed.
    #[error("cannot read {path}", path = InLine(*.0))]
    CannotRead(&'a str),
    /// A file has more bytes than are allowed.
    #[error("{path} is too long", path = InLine(*.0))]
    TooLong(&'a str),
    /// The file of the tables does not have 3012 bytes.
    #[error("tables are not 3012 bytes")]
    Tables,
    /// The bytes are neither an IVF file nor a WebM or Matroska file with VP8, or out of memory for its packets.
    #[error("input {word}", word = .0.word())]
    Input(StreamFault),
    /// The stream has no packet at this index.
    #[error("no packet {packet}, the stream has {count} packets")]
    NoPacket { packet: usize, count: usize },
    /// The writer returned an error.
    #[error("cannot write")]
    CannotWrite,
    /// Out of memory.
    #[error("no memory")]
    NoMemory,
}

impl Ending for Fault<'_> {
    ghost exits_with = { λ _. 2 };

    fn program(self) -> &'static str {
        "vp8list"
    }

    /// 2: 0 and 1 are those of a list that was written.
    fn status(self) -> u8 {
        2
    }
}

impl From<ArgumentFault> for Fault<'_> {
    ghost from_gives = { λ why told. told ≡ argument_fault why };

    fn from(why: ArgumentFault) -> Self {
        match why {
            ArgumentFault::CommandLine => Fault::CommandLine,
            ArgumentFault::CannotWrite => Fault::CannotWrite,
            ArgumentFault::NoMemory => Fault::NoMemory,
        }
    }
}

impl<'a> From<FileFault<'a>> for Fault<'a> {
    ghost from_gives = { λ why told. told ≡ file_fault why };

    fn from(why: FileFault<'a>) -> Self {
        match why {
            FileFault::CannotRead(path) => Fault::CannotRead(path),
            FileFault::TooLong(path) => Fault::TooLong(path),
            FileFault::Tables => Fault::Tables,
            FileFault::NoMemory => Fault::NoMemory,
        }
    }
}
