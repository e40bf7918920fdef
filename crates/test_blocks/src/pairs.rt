use crate::residuals::{mixed, narrowed, plain_transform};
use transforms::dct_add_two;

/// Whether two blocks next to each other get their plain residuals, in rows of 12 samples, and the
/// four samples to their right stay.
fn is_plain_pair(first: &[i16; 16], second: &[i16; 16], sample: u8) -> bool {
    let mut samples = [sample; 48];
    dct_add_two(first, second, &mut samples, 12);
    let left = plain_transform(true, first);
    let right = plain_transform(true, second);
    for place in 0..48 {
        let (column, row) = (place % 12, place / 12);
        let residual = if column < 4 {
            left[4 * row + column]
        } else if column < 8 {
            right[4 * row + column - 4]
        } else {
            0
        };
        let sum = residual.wrapping_add(i64::from(sample));
        if i64::from(samples[place]) != sum.clamp(0, 255) {
            return false;
        }
    }
    true
}

#[test]
fn pairs_are_plain_at_the_bounds_of_sixteen_bits(rt: HostRuntime) {
    for place in 0..16 {
        for value in [32767, -32768, 8192, -8193, 1000, -77] {
            let mut lone = [0; 16];
            lone[place] = value;
            let mut full = [value; 16];
            full[15 - place] = -32768;
            assert!(rt; is_plain_pair(&lone, &full, 128));
            assert!(rt; is_plain_pair(&full, &lone, 0));
            assert!(rt; is_plain_pair(&lone, &lone, 255));
        }
    }
}

/// The first pass leaves a row of coefficients as it is if the other rows are 0. The second adds up
/// to 3.85 times these numbers, so that 8520 is too large for 16 bits.
const NEAR: [i16; 6] = [8191, 8192, -8192, -8193, 8520, 0];

#[test]
fn pairs_are_plain_near_the_bound_of_the_first_pass(rt: HostRuntime) {
    for turn in 0..1296 {
        let mut near = [0; 16];
        near[0] = NEAR[turn % 6];
        near[1] = NEAR[turn / 6 % 6];
        near[2] = NEAR[turn / 36 % 6];
        near[3] = NEAR[turn / 216];
        let mut other = [0; 16];
        other[turn % 16] = 800;
        assert!(rt; is_plain_pair(&near, &other, 128));
        assert!(rt; is_plain_pair(&other, &near, 64));
    }
}

#[test]
fn pairs_of_mixed_numbers_are_plain(rt: HostRuntime) {
    let mut state = 2;
    for turn in 0..2000 {
        let (mut first, mut second) = ([0; 16], [0; 16]);
        for place in 0..16 {
            state = mixed(state);
            first[place] = narrowed(state, turn);
            state = mixed(state);
            second[place] = narrowed(state, turn);
        }
        assert!(rt; is_plain_pair(&first, &second, (state >> 56) as u8));
    }
}
