/// Rows of samples to read: the first begins at index `start`, and each further one `stride` after
/// the last.
#[derive(Clone, Copy)]
pub struct Rows<S> {
    pub samples: S,
    pub start: usize,
    pub stride: usize,
}

/// A strip of samples to write: it begins at column `first`, and has `height` rows, `stride` samples
/// apart. The writer sets the width.
#[derive(Clone, Copy)]
pub struct Strip {
    pub first: usize,
    pub height: usize,
    pub stride: usize,
}
