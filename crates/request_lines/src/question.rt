/// A question about a session: its answer changes nothing. Indices are counted from 0.
#[derive(Clone, Copy, Debug, PartialEq, Eq)]
pub enum Question {
    /// The time stamp and the bytes of the packet at index `at` of the current source.
    Packet { at: u64 },
    /// The macroblocks of the packet at index `at` of the current source.
    Macroblocks { at: u64 },
    /// The header of the packet at index `at` of the current source.
    Header { at: u64 },
    /// The current script.
    Script,
    /// The origins of at most `count` frames of the current script, starting at frame `first`.
    Origins { first: u64, count: u64 },
    /// The facts of at most `count` packets of the current source, starting at index `first`.
    List { first: u64, count: u64 },
    /// The findings at at most `count` packets of the current source, starting at index `first`.
    Check { first: u64, count: u64 },
}
