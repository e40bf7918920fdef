// The errors that end the program early.
ghost use Rattle.std.specs.Prelude.{◌≡◌};
ghost use Rattle.serve_arguments.specs.Statuses.{argument_fault, fault_of, file_fault, status_of};

use crate::exports::NotExported;
use crate::files::SameFile;
use command_lines::{ArgumentFault, Ending, FileFault, InLine};
use output_files::Unsaved;
use std::fmt;
use stream_sources::StreamFault;
use thiserror::Error;

/// A source as the text of an error names it: `input` for source 0, which is IN.
#[derive(Clone, Copy)]
struct SourceName(usize);

impl fmt::Display for SourceName {
    fn fmt<W: fmt::Write>(&self, f: &mut fmt::Formatter<W>) -> fmt::Result {
        match self.0 {
            0 => f.write_str("input"),
            number => write!(f, "source {number}"),
        }
    }
}

/// What is wrong with a command line.
#[derive(Clone, Copy, Debug, PartialEq, Eq)]
pub enum Mistake {
    /// The arguments are not the program's.
    Arguments,
    /// The number of cached states is not 1 to 4,096, the size of `--cache-bytes` is not one, or both are given.
    Cache,
    /// `--pad` is given without `--save` and `--export`.
    Pad,
    /// `--restamp` is given without `--save`.
    Restamp,
    /// `--sources` has more than seven paths, or an empty one.
    Sources,
}

/// Why the program exits before all requests were answered. Its `Display` is the text that the user
/// sees after the program's name. A path is the argument as given, `-` for standard input.
#[derive(Clone, Copy, Debug, PartialEq, Eq, Error)]
pub enum Fault<'a> {
    /// The command line has this mistake.
    #[error("command line")]
    CommandLine(Mistake),
    /// A file that would be written is named by another argument too.
    #[error("command line: {0}")]
    NamedTwice(SameFile<'a>),
    /// A file cannot be opened, or reading it failed.
    #[error("cannot read {path}", path = InLine(*.0))]
    CannotRead(&'a str),
    /// A file has more bytes than are allowed.
    #[error("{path} is too long", path = InLine(*.0))]
    TooLong(&'a str),
    /// The file of the tables does not have 3012 bytes.
    #[error("tables are not 3012 bytes")]
    Tables,
    /// The bytes of a source are not a stream, or out of memory for its packets. It is the first such
    /// source.
    #[error("{name} {word}", name = SourceName(*.source), word = .fault.word())]
    Input { source: usize, fault: StreamFault },
    /// The frames of the script are not exported.
    #[error("{0}")]
    NotExported(NotExported),
    /// The file for the frames or for the packets cannot be created, or a writer returned an error.
    #[error("cannot write")]
    CannotWrite,
    /// Out of memory.
    #[error("no memory")]
    NoMemory,
}

impl Ending for Fault<'_> {
    ghost exits_with = { status_of };

    fn program(self) -> &'static str {
        "vp8serve"
    }

    /// 2 for the command line, 1 for all else.
    fn status(self) -> u8 {
        match self {
            Fault::CommandLine(_) | Fault::NamedTwice(_) => 2,
            _ => 1,
        }
    }
}

impl From<ArgumentFault> for Fault<'_> {
    ghost from_gives = { λ why told. told ≡ argument_fault why };

    fn from(why: ArgumentFault) -> Self {
        match why {
            ArgumentFault::CommandLine => Fault::CommandLine(Mistake::Arguments),
            ArgumentFault::CannotWrite => Fault::CannotWrite,
            ArgumentFault::NoMemory => Fault::NoMemory,
        }
    }
}

impl<'a> From<FileFault<'a>> for Fault<'a> {
    ghost from_gives = { λ why told. told ≡ file_fault why };

    fn from(why: FileFault<'a>) -> Self {
        match why {
            FileFault::CannotRead(path) => Fault::CannotRead(path),
            FileFault::TooLong(path) => Fault::TooLong(path),
            FileFault::Tables => Fault::Tables,
            FileFault::NoMemory => Fault::NoMemory,
        }
    }
}

impl From<Unsaved> for Fault<'_> {
    ghost from_gives = { λ why told. told ≡ fault_of why };

    fn from(why: Unsaved) -> Self {
        match why {
            Unsaved::NoMemory => Fault::NoMemory,
            Unsaved::Make(_) | Unsaved::Write | Unsaved::Sync(_) | Unsaved::Rename(_) => {
                Fault::CannotWrite
            }
        }
    }
}
