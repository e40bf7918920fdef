use bool_coder::{Decoder, Encoder};
use std::alloc::{AllocError, Global};
use std::test::Fail;
use token_parser::{Rows, Tokens, read_macroblock, read_next_macroblock, skip_macroblock};

/// The bits of each token from the root of the tree, and the node of each bit: 0 to 4, the six
/// categories, the end of a block (RFC 6386, section 13.2).
const TOKENS: [(&[u8], &[u8]); 12] = [
    (b"10", &[0, 1]),
    (b"110", &[0, 1, 2]),
    (b"11100", &[0, 1, 2, 3, 4]),
    (b"111010", &[0, 1, 2, 3, 4, 5]),
    (b"111011", &[0, 1, 2, 3, 4, 5]),
    (b"111100", &[0, 1, 2, 3, 6, 7]),
    (b"111101", &[0, 1, 2, 3, 6, 7]),
    (b"1111100", &[0, 1, 2, 3, 6, 8, 9]),
    (b"1111101", &[0, 1, 2, 3, 6, 8, 9]),
    (b"1111110", &[0, 1, 2, 3, 6, 8, 10]),
    (b"1111111", &[0, 1, 2, 3, 6, 8, 10]),
    (b"0", &[0]),
];

const END: usize = 11;

const CATEGORY_5: [u8; 5] = [180, 157, 141, 134, 130];

const CATEGORY_6: [u8; 11] = [254, 254, 243, 230, 196, 177, 153, 140, 133, 130, 129];

/// The least and the greatest size of each token, its extra bits, which are all equal, and their
/// probabilities (section 13.2).
const SIZES: [(i16, usize, bool, &[u8]); 16] = [
    (1, 1, false, &[]),
    (2, 2, false, &[]),
    (3, 3, false, &[]),
    (4, 4, false, &[]),
    (5, 5, false, &[159]),
    (6, 5, true, &[159]),
    (7, 6, false, &[165, 145]),
    (10, 6, true, &[165, 145]),
    (11, 7, false, &[173, 148, 140]),
    (18, 7, true, &[173, 148, 140]),
    (19, 8, false, &[176, 155, 140, 135]),
    (34, 8, true, &[176, 155, 140, 135]),
    (35, 9, false, &CATEGORY_5),
    (66, 9, true, &CATEGORY_5),
    (67, 10, false, &CATEGORY_6),
    (2114, 10, true, &CATEGORY_6),
];

/// The context in which a token is read: the kind of its block, its band and its context number.
#[derive(Clone, Copy)]
struct NodeTable {
    kind: u8,
    band: u8,
    context: u8,
}

fn nodes(kind: u8, band: u8, context: u8) -> NodeTable {
    NodeTable {
        kind,
        band,
        context,
    }
}

/// Probability i is 1 + (37 i + i div 256) modulo 255, so few neighbours are equal.
fn counted_probabilities() -> [u8; 1056] {
    let mut probabilities = [0; 1056];
    for (i, probability) in probabilities.iter_mut().enumerate() {
        *probability = (1 + (i % 256 * 37 + i / 256) % 255) as u8;
    }
    probabilities
}

fn counted_rows() -> Rows {
    Rows::of(&counted_probabilities())
}

/// Writes the bits of a token; after a 0 the first bit is left out.
fn write_token(
    encoder: &mut Encoder,
    at: NodeTable,
    token: usize,
    after_zero: bool,
) -> Result<(), AllocError> {
    let probabilities = counted_probabilities();
    let start = ((at.kind as usize * 8 + at.band as usize) * 3 + at.context as usize) * 11;
    let (bits, numbers) = TOKENS[token % 12];
    for (bit, node) in bits.iter().zip(numbers).skip(after_zero as usize) {
        encoder.bit(*bit == b'1', probabilities[(start + *node as usize) % 1056])?;
    }
    Ok(())
}

fn write_extra(encoder: &mut Encoder, bit: bool, probs: &[u8]) -> Result<(), AllocError> {
    for prob in probs {
        encoder.bit(bit, *prob)?;
    }
    Ok(())
}

/// Blocks that end immediately.
fn write_ends(encoder: &mut Encoder, kind: u8, count: u32) -> Result<(), AllocError> {
    for _block in 0..count {
        write_token(encoder, nodes(kind, 0, 0), END, false)?;
    }
    Ok(())
}

/// A token of a size in a luma block, and then the size with the other sign.
fn write_size(
    encoder: &mut Encoder,
    has_y2: bool,
    flags: u8,
    row: &(i16, usize, bool, &[u8]),
) -> Result<(), AllocError> {
    let (size, token, bit, probs) = *row;
    let (kind, first) = if has_y2 { (0, 1) } else { (3, 0) };
    let large = if size > 1 { 2 } else { 1 };
    write_token(encoder, nodes(kind, first, flags), token, false)?;
    write_extra(encoder, bit, probs)?;
    encoder.bit(false, 128)?;
    write_token(encoder, nodes(kind, first + 1, large), token, false)?;
    write_extra(encoder, bit, probs)?;
    encoder.bit(true, 128)?;
    write_token(encoder, nodes(kind, first + 2, large), END, false)
}

fn write_sizes(encoder: &mut Encoder, has_y2: bool) -> Result<(), AllocError> {
    if has_y2 {
        write_ends(encoder, 1, 1)?;
    }
    for (n, row) in SIZES.iter().enumerate() {
        let flags = (n % 4 > 0) as u8 + (n > 3) as u8;
        write_size(encoder, has_y2, flags, row)?;
    }
    write_ends(encoder, 2, 8)
}

/// In luma block n the n-th of `SIZES` is at the first index, and its negative at the second; no
/// other block has a token.
fn sizes_text(alloc: Global, has_y2: bool) -> Result<Vec<u8>, AllocError> {
    let mut encoder = Encoder::new(alloc);
    write_sizes(&mut encoder, has_y2)?;
    encoder.finish()
}

fn expected_sizes(has_y2: bool) -> Tokens {
    let mut expected = Tokens::new();
    for (block, (size, _, _, _)) in expected.coefficients.iter_mut().zip(&SIZES) {
        block[has_y2 as usize] = *size;
        block[if has_y2 { 4 } else { 1 }] = size.wrapping_neg();
    }
    for end in expected.ends.iter_mut().take(16) {
        *end = 2 + has_y2 as u8;
    }
    expected.above = [true, true, true, true, false, false, false, false, false];
    expected.left = expected.above;
    expected
}

/// The tokens of a macroblock next to blocks without tokens.
fn read_back(text: &[u8], has_y2: bool) -> Tokens {
    let mut decoder = Decoder::new(text);
    let mut tokens = Tokens::new();
    read_macroblock(&mut decoder, &counted_rows(), has_y2, &mut tokens);
    tokens
}

#[test]
fn each_size_is_read_back(rt: HostRuntime) -> Result<(), Fail> {
    for has_y2 in [false, true] {
        let text = sizes_text(rt.alloc(), has_y2)?;
        assert!(rt;
            read_back(&text, has_y2) == expected_sizes(has_y2),
            "{has_y2}"
        );
    }
    Ok(())
}

/// A 0 at each index from 0 on, the first of them in a context.
fn write_zeros(
    encoder: &mut Encoder,
    kind: u8,
    context: u8,
    count: usize,
) -> Result<(), AllocError> {
    for (place, band) in BANDS.iter().take(count).enumerate() {
        let context = if place == 0 { context } else { 0 };
        write_token(encoder, nodes(kind, *band, context), 0, place > 0)?;
    }
    Ok(())
}

/// The band of each index of a block (section 13.3).
const BANDS: [u8; 16] = [0, 1, 2, 3, 6, 4, 5, 6, 6, 6, 6, 6, 6, 6, 6, 7];

/// Y2 has a 0 at all indices except the last, and luma nothing.
fn write_luma(encoder: &mut Encoder) -> Result<(), AllocError> {
    write_zeros(encoder, 1, 2, 15)?;
    write_token(encoder, nodes(1, 7, 0), 1, true)?;
    encoder.bit(true, 128)?;
    for _block in 0..16 {
        write_token(encoder, nodes(0, 1, 0), END, false)?;
    }
    Ok(())
}

/// The last block of U has one 0 and then 1,091 = 67 + 1,024, and the first block of V sixteen times
/// 0.
fn write_chroma(encoder: &mut Encoder) -> Result<(), AllocError> {
    write_token(encoder, nodes(2, 0, 1), END, false)?;
    write_ends(encoder, 2, 2)?;
    write_token(encoder, nodes(2, 0, 0), 0, false)?;
    write_token(encoder, nodes(2, 1, 0), 10, true)?;
    encoder.bit(true, 254)?;
    write_extra(encoder, false, &CATEGORY_6[1..])?;
    encoder.bit(false, 128)?;
    write_token(encoder, nodes(2, 2, 2), END, false)?;
    write_zeros(encoder, 2, 1, 16)?;
    write_token(encoder, nodes(2, 0, 1), END, false)?;
    write_token(encoder, nodes(2, 0, 2), END, false)?;
    write_ends(encoder, 2, 1)
}

fn order_text(alloc: Global) -> Result<Vec<u8>, AllocError> {
    let mut encoder = Encoder::new(alloc);
    write_luma(&mut encoder)?;
    write_chroma(&mut encoder)?;
    encoder.finish()
}

/// The flags that `order_text` is written for.
fn set_order_flags(tokens: &mut Tokens) {
    tokens.above = [false, false, false, false, true, false, false, false, true];
    tokens.left = [false, false, false, false, false, false, true, true, true];
}

fn expected_order() -> Tokens {
    let mut expected = Tokens::new();
    expected.coefficients[24][15] = -1;
    expected.coefficients[19][1] = 1091;
    expected.ends = [
        1, 1, 1, 1, 1, 1, 1, 1, 1, 1, 1, 1, 1, 1, 1, 1, 0, 0, 0, 2, 16, 0, 0, 0, 16,
    ];
    expected.above = [false, false, false, false, false, true, false, false, true];
    expected.left = [false, false, false, false, false, true, false, false, true];
    expected
}

#[test]
fn blocks_come_in_order(rt: HostRuntime) -> Result<(), Fail> {
    let text = order_text(rt.alloc())?;
    let mut decoder = Decoder::new(&text);
    let mut tokens = Tokens::new();
    set_order_flags(&mut tokens);
    read_macroblock(&mut decoder, &counted_rows(), true, &mut tokens);
    assert_eq!(rt; tokens, expected_order());
    skip_macroblock(false, &mut tokens);
    assert_eq!(rt;
        tokens.above,
        [false, false, false, false, false, false, false, false, true]
    );
    skip_macroblock(true, &mut tokens);
    tokens.clear();
    assert_eq!(rt; tokens, Tokens::new());
    Ok(())
}

/// The tokens without what is kept of other macroblocks: a block without a token has no coefficient.
fn own_tokens(tokens: &Tokens, has_y2: bool) -> Tokens {
    let mut own = *tokens;
    for (k, coefficients) in own.coefficients.iter_mut().enumerate() {
        let first = if has_y2 && k < 16 { 1 } else { 0 };
        if k < 25 && tokens.ends[k] <= first {
            *coefficients = [0; 16];
        }
    }
    own
}

// Each macroblock is read over the tokens of the one before, and the first over blocks that are full.
#[test]
fn old_coefficients_do_not_count(rt: HostRuntime) -> Result<(), Fail> {
    let order = order_text(rt.alloc())?;
    let mut tokens = Tokens::new();
    tokens.coefficients = [[9; 16]; 25];
    tokens.ends = [16; 25];
    set_order_flags(&mut tokens);
    let mut decoder = Decoder::new(&order);
    read_next_macroblock(&mut decoder, &counted_rows(), true, &mut tokens);
    assert_eq!(rt; own_tokens(&tokens, true), expected_order());
    for has_y2 in [true, false, true] {
        let text = sizes_text(rt.alloc(), has_y2)?;
        (tokens.above, tokens.left) = ([false; 9], [false; 9]);
        let mut decoder = Decoder::new(&text);
        read_next_macroblock(&mut decoder, &counted_rows(), has_y2, &mut tokens);
        assert!(rt;
            own_tokens(&tokens, has_y2) == expected_sizes(has_y2),
            "{has_y2}"
        );
    }
    set_order_flags(&mut tokens);
    let mut decoder = Decoder::new(&order);
    read_next_macroblock(&mut decoder, &counted_rows(), true, &mut tokens);
    assert_eq!(rt; own_tokens(&tokens, true), expected_order());
    Ok(())
}

// After the end of a partition every bit is 0, which is the end of each block.
#[test]
fn no_bytes_are_ends(rt: HostRuntime) -> Result<(), Fail> {
    let mut decoder = Decoder::new(&[]);
    let mut tokens = Tokens::new();
    tokens.above = [true; 9];
    read_macroblock(&mut decoder, &counted_rows(), false, &mut tokens);
    let mut expected = Tokens::new();
    expected.above[8] = true;
    assert_eq!(rt; tokens, expected);
    Ok(())
}
