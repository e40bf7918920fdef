//! The ways in which a list is written.

/// How a list is written.
#[derive(Clone, Copy, Debug, PartialEq, Eq)]
pub enum Form {
    /// A line for each element.
    Lines,
    /// A JSON object for each element, on a line of its own.
    Objects,
}

/// What is written of a packet.
#[derive(Clone, Copy, Debug, PartialEq, Eq)]
pub enum What {
    /// Its macroblocks, after a comment with its header.
    Macroblocks,
    /// The fields of its header.
    Header,
}

/// What is written of a packet, how, and its index.
#[derive(Clone, Copy)]
pub struct Target {
    pub what: What,
    pub form: Form,
    pub place: usize,
}

/// How the fields of a header are written.
#[derive(Clone, Copy, Debug, PartialEq, Eq)]
pub enum Layout {
    /// In one line, after spaces: ` version=0`.
    Words,
    /// A line for each: the name, the value and its bits, with tabs between them.
    Lines,
    /// As the members of a JSON object, each with a comma after it.
    Members,
    /// As the members of a JSON object whose values are the numbers of their bits.
    Bits,
}
