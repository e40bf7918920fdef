//! The filters that inter prediction interpolates with (RFC 6386, section 18.3).

/// The six-tap filters, by the eighths of a sample after a whole sample. The taps are for the six
/// samples from two before that sample to three after it; they add up to 128 (RFC 6386, section
/// 18.3).
pub const SIX_TAP_FILTERS: [[i16; 6]; 8] = [
    [0, 0, 128, 0, 0, 0],
    [0, -6, 123, 12, -1, 0],
    [2, -11, 108, 36, -8, 1],
    [0, -9, 93, 50, -6, 0],
    [3, -16, 77, 77, -16, 3],
    [0, -6, 50, 93, -9, 0],
    [1, -8, 36, 108, -11, 2],
    [0, -1, 12, 123, -6, 0],
];

/// The bilinear filters, by the eighths of a sample after a whole sample. The taps are for that
/// sample and the next; they add up to 128 (RFC 6386, section 18.3).
pub const BILINEAR_FILTERS: [[u8; 2]; 8] = [
    [128, 0],
    [112, 16],
    [96, 32],
    [80, 48],
    [64, 64],
    [48, 80],
    [32, 96],
    [16, 112],
];
