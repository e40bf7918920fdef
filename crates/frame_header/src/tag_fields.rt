/// The three bytes with which each packet begins (RFC 6386, section 9.1).
#[derive(Clone, Copy, Debug, PartialEq, Eq)]
pub struct Tag {
    /// The packet is a key frame.
    pub key: bool,
    /// The version, 0 to 7.
    pub version: u8,
    /// The frame is to be shown.
    pub shown: bool,
    /// The size of the first partition in bytes, below 2^19.
    pub first_partition: u32,
}
