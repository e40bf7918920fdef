use frame_header::Cause;

/// A break of the stream: the index of the packet, counted from 0, and the cause.
#[derive(Clone, Copy, Debug, PartialEq, Eq)]
pub struct Broken {
    pub place: usize,
    pub cause: Cause,
}
