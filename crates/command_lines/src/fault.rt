// The errors of the parts. The text of each is the program's own.

/// Why there are no arguments to work with.
#[derive(Clone, Copy, Debug, PartialEq, Eq)]
pub enum ArgumentFault {
    /// The arguments are not the program's.
    CommandLine,
    /// The writer of help returned an error.
    CannotWrite,
    /// Out of memory.
    NoMemory,
}

/// Why a file that the command line names was not read. A path is the argument as given, `-` for standard input.
#[derive(Clone, Copy, Debug, PartialEq, Eq)]
pub enum FileFault<'a> {
    /// It cannot be opened, or reading it failed.
    CannotRead(&'a str),
    /// It has more bytes than are allowed.
    TooLong(&'a str),
    /// The file of the tables does not have 3012 bytes.
    Tables,
    /// Out of memory.
    NoMemory,
}
