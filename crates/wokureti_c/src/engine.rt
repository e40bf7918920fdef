use frame_session::{Refusal, Session};
use stream_files::Head;

/// A request line that was refused: its number, counted from 1, and why.
#[derive(Drop)]
pub struct RefusedLine {
    pub number: u64,
    pub line: Vec<u8>,
    pub refusal: Refusal,
}

/// A session, and what its calls left.
#[derive(Drop)]
pub struct Engine {
    pub session: Session,
    /// The head of the file of each source.
    pub heads: Vec<Head>,
    /// The text of the last call that made one: a reply, a file, or a reason.
    pub text: Vec<u8>,
    /// The number of lines that were answered.
    pub answered: u64,
    /// The last line, if it was refused and there was memory to keep it.
    pub refused: Option<RefusedLine>,
}
