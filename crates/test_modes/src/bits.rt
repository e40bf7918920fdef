use bool_coder::Decoder;
use std::process::Abort;
use std::test::Fail;

/// The reader of RFC 6386, section 7.3, a bit at a time. Its d is not clamped to the range: it
/// stops at the largest `u32`, which is far above every range.
#[derive(Drop)]
struct PlainReader<'a> {
    bytes: &'a [u8],
    place: usize,
    d: u32,
    range: u32,
}

impl<'a> PlainReader<'a> {
    fn new(bytes: &'a [u8]) -> PlainReader<'a> {
        PlainReader {
            bytes,
            place: 8,
            d: bytes.first().copied().unwrap_or(0) as u32,
            range: 255,
        }
    }

    fn next(&mut self) -> u32 {
        let byte = self.bytes.get(self.place / 8).copied().unwrap_or(0);
        let bit = (byte >> (7 - self.place % 8)) % 2;
        self.place = self.place.wrapping_add(1);
        bit as u32
    }

    fn bit(&mut self, prob: u8) -> bool {
        let split = 1 + (self.range.wrapping_sub(1).wrapping_mul(prob as u32) >> 8);
        let bit = self.d >= split;
        if bit {
            self.d -= split;
            self.range = self.range.wrapping_sub(split);
        } else {
            self.range = split;
        }
        for _doubling in 0..7 {
            if self.range < 128 {
                self.range *= 2;
                self.d = self.d.saturating_mul(2).saturating_add(self.next());
            }
        }
        bit
    }
}

/// Bytes of a linear congruential generator.
#[derive(Drop)]
struct Bytes(u32);

impl Bytes {
    fn next(&mut self) -> u8 {
        self.0 = self.0.wrapping_mul(1_664_525).wrapping_add(1_013_904_223);
        (self.0 >> 24) as u8
    }

    /// Certain, likely and unlikely bits, even ones and others.
    fn next_prob(&mut self) -> u8 {
        match self.next() % 8 {
            0 => 0,
            1 => 255,
            2 => 128,
            3 => 1,
            4 => 254,
            _ => self.next(),
        }
    }
}

#[test]
fn window_reads_as_bit_by_bit(rt: HostRuntime) {
    let mut bytes = Bytes(1);
    for ones in 0..4 {
        for length in 0..=40 {
            let mut text = [255; 40];
            for byte in text.iter_mut().skip(ones) {
                *byte = bytes.next();
            }
            let text = &text[..length];
            let mut decoder = Decoder::new(text);
            let mut reader = PlainReader::new(text);
            for _bit in 0..8 * length + 40 {
                let prob = bytes.next_prob();
                assert_eq!(rt;
                    decoder.bit(prob),
                    reader.bit(prob),
                    "behind {ones} of {length}"
                );
            }
        }
    }
}

// The plain reader counts the bits that it takes in. The text is read as if four zero bytes and a
// mark came after it, which are 40 bits more.
#[test]
fn mark_counts_bits_taken_in(rt: HostRuntime) {
    let mut bytes = Bytes(3);
    let mut text = [0; 13];
    text[12] = 1;
    for byte in text.iter_mut().take(8) {
        *byte = bytes.next();
    }
    let mut decoder = Decoder::new(&text);
    let mut reader = PlainReader::new(&text[..8]);
    expect_marks(&rt, &mut decoder, &mut reader, bytes);
    assert_eq!(rt; decoder.left(), 0);
}

fn expect_marks<R: Abort>(
    rt: &R,
    decoder: &mut Decoder<'_>,
    reader: &mut PlainReader<'_>,
    mut bytes: Bytes,
) {
    for _bit in 0..1_000 {
        let left = 104usize.saturating_sub(reader.place);
        assert_eq!(rt; decoder.left(), left as u128);
        let prob = bytes.next_prob();
        let _bits = (decoder.bit(prob), reader.bit(prob));
    }
}

/// How many bits are left before any is read.
const LEFT: &[(&[u8], u128)] = &[(&[], 0), (&[0xFF], 0), (&[0, 0x40, 0], 2)];

#[test]
fn mark_is_the_last_one(rt: HostRuntime) {
    for (text, bits) in LEFT {
        assert!(rt; Decoder::new(text).left() == *bits, "{text:?}");
    }
}

#[test]
fn text_of_ones_reads_ones(rt: HostRuntime) {
    for prob in [0, 128, 255] {
        let mut decoder = Decoder::new(&[0xFF; 4]);
        for _bit in 0..100 {
            assert!(rt; decoder.bit(prob));
        }
    }
}

#[test]
fn reads_written_bits(rt: HostRuntime) {
    // 0x9F is 159: at 128 the range 255 is split at 128, so 1 leaves 31 of 127, doubled 63 of 254
    // with the next bit, 1. That is split at 127, so 0 leaves 63 of 127, doubled 127 of 254 with a
    // 1, and then 1 is read.
    let mut decoder = Decoder::new(&[0x9F, 0xC0]);
    let bits = [decoder.bit(128), decoder.bit(128), decoder.bit(128)];
    assert_eq!(rt; bits, [true, false, true]);
    assert!(rt; Decoder::new(&[0x80, 0]).bit(128));
    let mut zeros = Decoder::new(&[0]);
    for _bit in 0..100 {
        assert!(rt; !zeros.flag());
    }
}

const STEPS: [i8; 6] = [0, 2, -1, 4, -2, -3];

/// A leaf read with probabilities from the caller, as a frame's header has them.
fn step_of(text: &[u8], probs: [u8; 3]) -> u8 {
    Decoder::new(text).tree(&STEPS, &probs)
}

/// Numbers of so many bits.
const NUMBERS: &[(&[u8], u32, u16)] = &[
    (&[0x9F, 0xC0], 3, 0b101),
    (&[0xFF; 4], 16, 0xFFFF),
    (&[], 16, 0),
];

/// Signed numbers of so many bits without the sign.
const SIGNED: &[(&[u8], u32, i16)] = &[(&[0xC0], 1, 1), (&[0xFF; 4], 15, -32_767), (&[], 15, 0)];

const LEAVES: &[(&[u8], u8)] = &[(&[], 0), (&[0x9F, 0xC0], 1), (&[0xC0], 2), (&[0xFF; 4], 3)];

// The bits are those of the test above. 0xC0 is 192: 1 leaves 64 of 127, doubled 128 of 254; 1
// leaves 1 of 127, doubled 2 of 254, which is below the split at 127.
#[test]
fn reads_numbers_and_leaves(rt: HostRuntime) {
    for (text, count, number) in NUMBERS {
        assert!(rt;
            Decoder::new(text).literal((*count).min(16)) == *number,
            "{text:?}"
        );
    }
    for (text, count, number) in SIGNED {
        assert!(rt;
            Decoder::new(text).signed((*count).min(15)) == *number,
            "{text:?}"
        );
    }
    for (text, leaf) in LEAVES {
        assert!(rt; step_of(text, [128; 3]) == *leaf, "{text:?}");
    }
}
