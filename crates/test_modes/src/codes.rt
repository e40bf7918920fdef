use bool_coder::{Decoder, Encoder, NoMemory};
use std::alloc::Global;
use std::process::Abort;
use std::test::Fail;

fn text(alloc: Global, pairs: &[(bool, u8)]) -> Result<Vec<u8>, NoMemory> {
    let mut encoder = Encoder::new(alloc);
    for (bit, prob) in pairs {
        encoder.bit(*bit, *prob)?;
    }
    encoder.finish()
}

#[test]
fn no_bits_are_a_byte_of_zeros(rt: HostRuntime) -> Result<(), Fail> {
    let text = text(rt.alloc(), &[])?;
    assert_eq!(rt; text.as_slice(), [0x00].as_slice());
    Ok(())
}

// split = 1 + (254 * 128 >> 8) = 128: low is 128 and the range 127, doubled once to 254:
// 1 0000 0000 in 9 bits.
#[test]
fn one_bit(rt: HostRuntime) -> Result<(), Fail> {
    let text = text(rt.alloc(), &[(true, 128)])?;
    assert_eq!(rt; text.as_slice(), [0x80, 0x00].as_slice());
    Ok(())
}

// After the first bit low is 256 of range 254. The split is 127: bit 0 leaves range 127, and
// low is 512 of range 254. Bit 1 adds 127: 639 of range 127, doubled to 1278:
// 100 1111 1110 in 11 bits.
#[test]
fn three_bits(rt: HostRuntime) -> Result<(), Fail> {
    let text = text(rt.alloc(), &[(true, 128), (false, 128), (true, 128)])?;
    assert_eq!(rt; text.as_slice(), [0x9F, 0xC0].as_slice());
    Ok(())
}

// Steps of a linear congruential generator, of which the high bits are used.
fn next(state: u32) -> u32 {
    state.wrapping_mul(1_664_525).wrapping_add(1_013_904_223)
}

fn pair(state: u32) -> (bool, u8) {
    let prob = match (state >> 16) % 8 {
        0 => 0,
        1 => 255,
        2 => 128,
        3 => 1,
        4 => 254,
        _ => (state >> 24) as u8,
    };
    ((state >> 20) % 2 == 1, prob)
}

/// 400 such pairs.
fn mixed_pairs(alloc: Global) -> Result<Vec<(bool, u8)>, NoMemory> {
    let mut pairs = Vec::new(alloc);
    let mut state = 6386;
    for _ in 0..400 {
        state = next(state);
        pairs.push(pair(state))?;
    }
    Ok(pairs)
}

/// Checks that these bits are read from a text at these probabilities.
fn expect_bits<R: Abort>(rt: &R, text: &[u8], pairs: &[(bool, u8)]) {
    let mut decoder = Decoder::new(text);
    for (bit, prob) in pairs {
        assert_eq!(rt; decoder.bit(*prob), *bit);
    }
}

#[test]
fn mixed_pairs_are_read_back(rt: HostRuntime) -> Result<(), Fail> {
    let pairs = mixed_pairs(rt.alloc())?;
    let text = text(rt.alloc(), &pairs)?;
    expect_bits(&rt, &text, &pairs);
    Ok(())
}

// The bits of a text that begins 80 00 00 00 00: low stays below that number, at 7F FF FF FF
// FF, until the bit that passes it.
#[test]
fn carries_run_through_full_bytes(rt: HostRuntime) -> Result<(), Fail> {
    let pairs = full_pairs(rt.alloc())?;
    let text = text(rt.alloc(), &pairs)?;
    assert!(rt; text.starts_with(&[0x80, 0, 0, 0, 0]));
    expect_bits(&rt, &text, &pairs);
    Ok(())
}

fn full_pairs(alloc: Global) -> Result<Vec<(bool, u8)>, NoMemory> {
    let mut read = Decoder::new(&[0x80, 0, 0, 0, 0, 1]);
    let mut pairs = Vec::new(alloc);
    for _ in 0..60 {
        pairs.push((read.bit(200), 200))?;
    }
    Ok(pairs)
}
