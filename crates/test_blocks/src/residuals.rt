use frame_header::{Quantizers, read_header};
use transforms::{Factors, dct_add, dct_add_first, dequantise, factors, wht};
use vp8_tables::Tables;

/// 100 at index 1 is the only coefficient in its column, and the first pass leaves 100 in each row.
/// In each row 100 + (100 * 20091 >> 16) = 130 and 100 * 35468 >> 16 = 54, so the residuals are
/// (130 + 4) >> 3 = 16, (54 + 4) >> 3 = 7, (-54 + 4) >> 3 = -7 and (-130 + 4) >> 3 = -16.
#[test]
fn a_lone_coefficient_is_as_worked_by_hand(rt: HostRuntime) {
    let mut coefficients = [0; 16];
    coefficients[1] = 100;
    let mut samples = [128; 16];
    dct_add(&coefficients, &mut samples, 4);
    let expected = [
        144, 135, 121, 112, 144, 135, 121, 112, 144, 135, 121, 112, 144, 135, 121, 112,
    ];
    assert_eq!(rt; samples, expected);
}

#[test]
fn a_block_keeps_what_stands_beside_it(rt: HostRuntime) {
    let mut samples = [200; 30];
    dct_add_first(800, &mut samples, 8);
    let mut expected = [200; 30];
    for row in 0..4 {
        for column in 0..4 {
            expected[row * 8 + column] = 255;
        }
    }
    assert_eq!(rt; samples, expected);
    dct_add_first(-4004, &mut samples, 8);
    for row in 0..4 {
        for column in 0..4 {
            expected[row * 8 + column] = 0;
        }
    }
    assert_eq!(rt; samples, expected);
}

#[test]
fn a_lone_second_order_coefficient_is_shared(rt: HostRuntime) {
    let mut coefficients = [0; 16];
    coefficients[0] = 5;
    assert_eq!(rt; wht(&coefficients), [1; 16]);
    coefficients[0] = -3;
    assert_eq!(rt; wht(&coefficients), [0; 16]);
}

#[test]
fn products_keep_sixteen_bits(rt: HostRuntime) {
    let mut tokens = [2048; 16];
    tokens[1] = -2;
    tokens[15] = 1117;
    // 2048 * 157 = 321536 = 4 * 65536 + 59392, which represents -6144; 2048 * 440 = 901120 = 13 *
    // 65536 + 49152, which represents -16384; 1117 * 440 = 491480 = 7 * 65536 + 32728.
    let mut expected = [-16384; 16];
    expected[0] = -6144;
    expected[1] = -880;
    expected[15] = 32728;
    assert_eq!(rt; dequantise(&tokens, 157, 440), expected);
}

/// Quantizers of a header, and the factors of a macroblock without a segment.
const FACTORS: &[(Quantizers, Factors)] = &[
    (
        Quantizers {
            y_ac_index: 0,
            y_dc_delta: 0,
            y2_dc_delta: 0,
            y2_ac_delta: 0,
            uv_dc_delta: 0,
            uv_ac_delta: 0,
        },
        Factors {
            y_dc: 4,
            y_ac: 4,
            y2_dc: 8,
            y2_ac: 8,
            uv_dc: 4,
            uv_ac: 4,
        },
    ),
    (
        Quantizers {
            y_ac_index: 127,
            y_dc_delta: 0,
            y2_dc_delta: 0,
            y2_ac_delta: 0,
            uv_dc_delta: 0,
            uv_ac_delta: 0,
        },
        Factors {
            y_dc: 157,
            y_ac: 284,
            y2_dc: 314,
            y2_ac: 440,
            uv_dc: 132,
            uv_ac: 284,
        },
    ),
    (
        Quantizers {
            y_ac_index: 120,
            y_dc_delta: 15,
            y2_dc_delta: -15,
            y2_ac_delta: 3,
            uv_dc_delta: -3,
            uv_ac_delta: 1,
        },
        Factors {
            y_dc: 157,
            y_ac: 249,
            y2_dc: 212,
            y2_ac: 409,
            uv_dc: 132,
            uv_ac: 254,
        },
    ),
];

#[test]
fn factors_are_held(rt: HostRuntime) {
    let packet = [0x10, 0, 0, 0x9D, 0x01, 0x2A, 16, 0, 16, 0];
    let mut header = read_header(&Tables::flat(), None, &packet).expect(
        &rt,
        "a key frame of zeros",
    );
    for (quantizers, expected) in FACTORS {
        header.quantizers = *quantizers;
        assert!(rt; factors(&header, 0) == *expected, "{quantizers:?}");
    }
}

/// Factors of luma only, which show the index: 4 + index for both while it is below 7.
#[test]
fn segments_change_the_index(rt: HostRuntime) {
    let packet = [0x10, 0, 0, 0x9D, 0x01, 0x2A, 16, 0, 16, 0];
    let mut header = read_header(&Tables::flat(), None, &packet).expect(
        &rt,
        "a key frame of zeros",
    );
    let mut quantizers = header.quantizers;
    quantizers.y_ac_index = 3;
    header.quantizers = quantizers;
    let mut segments = header.context.segments;
    segments.quantizers = [2, -4, 127, -127];
    let mut context = header.context;
    context.segments = segments;
    header.context = context;
    assert_eq!(rt; factors(&header, 0).y_ac, 7);
    let mut segmentation = header.segmentation;
    segmentation.is_enabled = true;
    header.segmentation = segmentation;
    for (segment, expected) in [(0, 9), (1, 4), (2, 284), (3, 4)] {
        assert_eq!(rt; factors(&header, segment).y_ac, expected);
    }
    segments.is_absolute = true;
    context.segments = segments;
    header.context = context;
    for (segment, expected) in [(0, 6), (1, 4), (2, 284), (3, 4)] {
        assert_eq!(rt; factors(&header, segment).y_ac, expected);
    }
}

/// The low 16 bits of a number, calculated by its remainder.
fn plain_reduced(x: i64) -> i64 {
    let low = x.rem_euclid(65536);
    if low < 32768 { low } else { low - 65536 }
}

/// One pass of the inverse DCT as in RFC 6386, section 14.3.
fn plain_dct(i0: i64, i1: i64, i2: i64, i3: i64) -> [i64; 4] {
    let a = i0.wrapping_add(i2);
    let b = i0.wrapping_sub(i2);
    let sine = i1.wrapping_mul(35468) >> 16;
    let cosine = i3.wrapping_add(i3.wrapping_mul(20091) >> 16);
    let c = sine.wrapping_sub(cosine);
    let cosine = i1.wrapping_add(i1.wrapping_mul(20091) >> 16);
    let sine = i3.wrapping_mul(35468) >> 16;
    let d = cosine.wrapping_add(sine);
    [
        a.wrapping_add(d),
        b.wrapping_add(c),
        b.wrapping_sub(c),
        a.wrapping_sub(d),
    ]
}

/// One pass of the inverse WHT as in RFC 6386, section 14.3.
fn plain_wht(i0: i64, i1: i64, i2: i64, i3: i64) -> [i64; 4] {
    let a = i0.wrapping_add(i3);
    let b = i1.wrapping_add(i2);
    let c = i1.wrapping_sub(i2);
    let d = i0.wrapping_sub(i3);
    [
        a.wrapping_add(b),
        c.wrapping_add(d),
        a.wrapping_sub(b),
        d.wrapping_sub(c),
    ]
}

/// Both passes, in numbers of 64 bits; `is_dct` chooses the transform.
pub fn plain_transform(is_dct: bool, coefficients: &[i16; 16]) -> [i64; 16] {
    let mut between = [0; 16];
    for column in 0..4 {
        let i0 = i64::from(coefficients[column]);
        let i1 = i64::from(coefficients[4 + column]);
        let i2 = i64::from(coefficients[8 + column]);
        let i3 = i64::from(coefficients[12 + column]);
        let out = if is_dct {
            plain_dct(i0, i1, i2, i3)
        } else {
            plain_wht(i0, i1, i2, i3)
        };
        for row in 0..4 {
            between[4 * row + column] = plain_reduced(out[row]);
        }
    }
    let mut result = [0; 16];
    for row in 0..4 {
        let start = 4 * row;
        let (i0, i1) = (between[start], between[start + 1]);
        let (i2, i3) = (between[start + 2], between[start + 3]);
        let (out, half) = if is_dct {
            (plain_dct(i0, i1, i2, i3), 4)
        } else {
            (plain_wht(i0, i1, i2, i3), 3)
        };
        for column in 0..4 {
            result[start + column] = out[column].wrapping_add(half) >> 3;
        }
    }
    result
}

/// Whether both transforms of the coefficients equal the plain ones.
fn is_plain(coefficients: &[i16; 16], sample: u8) -> bool {
    let mut samples = [sample; 16];
    dct_add(coefficients, &mut samples, 4);
    let residuals = plain_transform(true, coefficients);
    for place in 0..16 {
        let sum = residuals[place].wrapping_add(i64::from(sample));
        if i64::from(samples[place]) != sum.clamp(0, 255) {
            return false;
        }
    }
    let numbers = wht(coefficients);
    let expected = plain_transform(false, coefficients);
    for place in 0..16 {
        if i64::from(numbers[place]) != expected[place] {
            return false;
        }
    }
    true
}

#[test]
fn transforms_are_those_of_plain_formulas(rt: HostRuntime) {
    for place in 0..16 {
        for value in [32767, -32768, 1000, -77] {
            let mut coefficients = [0; 16];
            coefficients[place] = value;
            assert!(rt; is_plain(&coefficients, 128));
            let mut coefficients = [value; 16];
            coefficients[place] = 32767;
            assert!(rt; is_plain(&coefficients, 0));
            coefficients[place] = -32768;
            assert!(rt; is_plain(&coefficients, 255));
        }
    }
}

/// The next number of a linear congruential generator.
pub fn mixed(state: u64) -> u64 {
    state
        .wrapping_mul(6364136223846793005)
        .wrapping_add(1442695040888963407)
}

/// A number of 16 bits down to 5, depending on the iteration.
pub fn narrowed(state: u64, turn: u32) -> i16 {
    let value = i64::from((state >> 48) as u16) - 32768;
    (value >> (turn % 12)) as i16
}

#[test]
fn transforms_of_mixed_numbers_are_those_of_plain_formulas(rt: HostRuntime) {
    let mut state = 1;
    for turn in 0..2000 {
        let mut coefficients = [0; 16];
        for coefficient in &mut coefficients {
            state = mixed(state);
            *coefficient = narrowed(state, turn);
        }
        assert!(rt; is_plain(&coefficients, (state >> 56) as u8));
    }
}
