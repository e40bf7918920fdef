/// The factors by which the tokens of each kind of coefficient are multiplied (RFC 6386, sections
/// 9.6 and 14.1). Each is 4 to 440.
#[derive(Clone, Copy, Debug, PartialEq, Eq)]
pub struct Factors {
    /// For the first coefficient of a luma block: 4 to 157.
    pub y_dc: i16,
    /// For the others of a luma block: 4 to 284.
    pub y_ac: i16,
    /// For the first coefficient of a Y2 block: 8 to 314.
    pub y2_dc: i16,
    /// For the others of a Y2 block: 8 to 440.
    pub y2_ac: i16,
    /// For the first coefficient of a chroma block: 4 to 132.
    pub uv_dc: i16,
    /// For the others of a chroma block: 4 to 284.
    pub uv_ac: i16,
}
