//! The tree and the fixed probabilities of motion vectors (RFC 6386, sections 17.1 and 17.2).
//!
//! A component has 19 probabilities: 0 that it is short, 1 for its sign, 2 to 8 for the nodes of
//! `SHORT_VECTOR_TREE`, and starting at 9 for the bits of a long one, bit 0 first.

/// The probabilities of the parts of a motion vector with which inter frames begin after a key
/// frame: the row component, then the column component (RFC 6386, section 17.2).
pub const DEFAULT_VECTOR_PROBABILITIES: [[u8; 19]; 2] = [
    [
        162, 128, 225, 146, 172, 147, 214, 39, 156, 128, 129, 132, 75, 145, 178, 206, 239, 254, 254,
    ],
    [
        164, 128, 204, 170, 119, 235, 140, 230, 228, 128, 130, 130, 74, 148, 180, 203, 236, 254,
        254,
    ],
];

/// The tree of a short component's size. Leaves are the sizes 0 to 7 (RFC 6386, section 17.1).
pub const SHORT_VECTOR_TREE: [i8; 14] = [2, 8, 4, 6, 0, -1, -2, -3, 10, 12, -4, -5, -6, -7];

/// The bits of a long component's size in the order in which they are read, before bit 3, which
/// comes last (RFC 6386, section 17.1).
pub const LONG_VECTOR_BITS: [u8; 9] = [0, 1, 2, 9, 8, 7, 6, 5, 4];

/// The probability that a frame changes each of them (RFC 6386, section 17.2), row, then column.
pub const VECTOR_UPDATE_PROBABILITIES: [[u8; 19]; 2] = [
    [
        237, 246, 253, 253, 254, 254, 254, 254, 254, 254, 254, 254, 254, 254, 250, 250, 252, 254,
        254,
    ],
    [
        231, 243, 245, 253, 254, 254, 254, 254, 254, 254, 254, 254, 254, 254, 251, 251, 254, 254,
        254,
    ],
];
