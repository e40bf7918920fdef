/// How samples between the whole samples of a plane are interpolated (RFC 6386, sections 5 and 18.3).
#[derive(Clone, Copy, Debug, PartialEq, Eq)]
pub enum Kind {
    /// Six samples of a line are weighed.
    SixTap,
    /// Two samples of a line are weighed by how near they are.
    Bilinear,
}
