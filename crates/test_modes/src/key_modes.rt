use bool_coder::Encoder;
use frame_header::read_header;
use intra_predict::{SubMode, WholeMode};
use mode_parser::{MbMode, Records, Vector, YMode, read_modes};
use std::alloc::{AllocError, Global};
use std::process::Abort;
use std::test::Fail;
use vp8_tables::Tables;

const WHOLE: [WholeMode; 4] = [WholeMode::Dc, WholeMode::V, WholeMode::H, WholeMode::Tm];

const SUB: [SubMode; 10] = [
    SubMode::Dc,
    SubMode::Tm,
    SubMode::Ve,
    SubMode::He,
    SubMode::Ld,
    SubMode::Rd,
    SubMode::Vr,
    SubMode::Vl,
    SubMode::Hd,
    SubMode::Hu,
];

/// The bits of each luma mode, DC, V, H, TM, B, with their probabilities (RFC 6386, section 11.2).
const LUMA_BITS: [&[(bool, u8)]; 5] = [
    &[(true, 145), (false, 156), (false, 163)],
    &[(true, 145), (false, 156), (true, 163)],
    &[(true, 145), (true, 156), (false, 128)],
    &[(true, 145), (true, 156), (true, 128)],
    &[(false, 145)],
];

/// The same of each chroma mode (section 11.4).
const CHROMA_BITS: [&[(bool, u8)]; 4] = [
    &[(false, 142)],
    &[(true, 142), (false, 114)],
    &[(true, 142), (true, 114), (false, 183)],
    &[(true, 142), (true, 114), (true, 183)],
];

/// The bits of each sub mode, in the order of `SUB`, and the node of each bit (section 11.2).
const SUB_BITS: [(&[u8], &[u8]); 10] = [
    (b"0", b"0"),
    (b"10", b"01"),
    (b"110", b"012"),
    (b"11100", b"01234"),
    (b"11110", b"01236"),
    (b"111010", b"012345"),
    (b"111011", b"012345"),
    (b"111110", b"012367"),
    (b"1111110", b"0123678"),
    (b"1111111", b"0123678"),
];

/// The sub modes of the macroblocks of `frame` that have them, row by row. A sub mode is the last
/// of three digits, after the modes above and to its left.
const SUBS: [[&[u8]; 4]; 4] = [
    [
        b"024 045 056 067",
        b"428 589 690 701",
        b"822 923 034 149",
        b"225 357 478 986",
    ],
    [
        b"201 213 230 209",
        b"100 300 002 922",
        b"006 061 218 285",
        b"607 174 849 593",
    ],
    [
        b"590 700 800 600",
        b"021 011 011 011",
        b"159 198 187 176",
        b"932 822 722 622",
    ],
    [
        b"103 133 133 133",
        b"303 333 333 333",
        b"303 333 333 333",
        b"303 333 333 333",
    ],
];

/// A macroblock by the indices of its modes in the lists above; without sub modes its rows are
/// empty.
#[derive(Clone, Copy)]
struct Written {
    is_skipped: bool,
    luma: usize,
    subs: [&'static [u8]; 4],
    chroma: usize,
}

fn whole(is_skipped: bool, luma: usize, chroma: usize) -> Written {
    Written {
        is_skipped,
        luma,
        subs: [&[]; 4],
        chroma,
    }
}

fn split(subs: [&'static [u8]; 4], chroma: usize) -> Written {
    Written {
        is_skipped: false,
        luma: 4,
        subs,
        chroma,
    }
}

/// Four by two macroblocks: V, sub blocks, H, TM, and below them sub blocks twice, DC, sub blocks.
/// They have each mode of each kind, and sub blocks next to the end of the frame, whole blocks and
/// sub blocks.
fn frame() -> [Written; 8] {
    [
        whole(true, 1, 0),
        split(SUBS[0], 1),
        whole(false, 2, 2),
        whole(true, 3, 3),
        split(SUBS[1], 3),
        split(SUBS[2], 2),
        whole(false, 0, 1),
        split(SUBS[3], 0),
    ]
}

/// The value of a digit.
fn number(digit: u8) -> usize {
    (digit % 16 % 10) as usize
}

/// Tables in which byte i is 37 i + i div 256, modulo 256, so few neighbours are equal.
fn counted_tables() -> Option<Tables> {
    let mut text = [0u8; 3012];
    for (i, byte) in text.iter_mut().enumerate() {
        *byte = ((i % 256 * 37 + i / 256) % 256) as u8;
    }
    Tables::read(&text).ok()
}

fn write_pairs(encoder: &mut Encoder, pairs: &[(bool, u8)]) -> Result<(), AllocError> {
    for (bit, prob) in pairs {
        encoder.bit(*bit, *prob)?;
    }
    Ok(())
}

/// Writes 0 at each of these probabilities.
fn write_zeros(encoder: &mut Encoder, probabilities: &[u8]) -> Result<(), AllocError> {
    for prob in probabilities {
        encoder.bit(false, *prob)?;
    }
    Ok(())
}

/// Writes bits at even odds.
fn write_bits(encoder: &mut Encoder, bits: &[bool]) -> Result<(), AllocError> {
    for bit in bits {
        encoder.bit(*bit, 128)?;
    }
    Ok(())
}

/// A header whose fields are 0, except a probability of skipping of 200 if requested.
fn write_header(encoder: &mut Encoder, tables: &Tables, skips: bool) -> Result<(), AllocError> {
    write_zeros(encoder, &[128; 29])?;
    write_zeros(encoder, tables.updates().as_slice())?;
    write_bits(encoder, &[skips])?;
    if skips {
        write_bits(
            encoder,
            &[true, true, false, false, true, false, false, false],
        )?;
    }
    Ok(())
}

fn write_sub_mode(
    encoder: &mut Encoder,
    tables: &Tables,
    above: usize,
    left: usize,
    mode: usize,
) -> Result<(), AllocError> {
    let (bits, nodes) = SUB_BITS[mode % 10];
    for (bit, node) in bits.iter().zip(nodes) {
        let prob = tables.key_sub(above % 10, left % 10, number(*node) % 9);
        encoder.bit(*bit == b'1', prob)?;
    }
    Ok(())
}

fn write_macroblock(
    encoder: &mut Encoder,
    tables: &Tables,
    skips: bool,
    macroblock: &Written,
) -> Result<(), AllocError> {
    if skips {
        encoder.bit(macroblock.is_skipped, 200)?;
    }
    write_pairs(encoder, LUMA_BITS[macroblock.luma % 5])?;
    for row in macroblock.subs {
        for sub in row.chunks(4) {
            if let [above, left, mode, ..] = sub {
                write_sub_mode(
                    encoder,
                    tables,
                    number(*above),
                    number(*left),
                    number(*mode),
                )?;
            }
        }
    }
    write_pairs(encoder, CHROMA_BITS[macroblock.chroma % 4])
}

/// A key packet of 64 by 32 samples with the modes of `frame`.
fn packet_of(alloc: Global, tables: &Tables, skips: bool) -> Result<Vec<u8>, AllocError> {
    let mut encoder = Encoder::new(alloc);
    write_header(&mut encoder, tables, skips)?;
    for macroblock in &frame() {
        write_macroblock(&mut encoder, tables, skips, macroblock)?;
    }
    let first = encoder.finish()?;
    let size = 0x10 + 32 * (first.len() % 524_288) as u32;
    let mut packet = Vec::new(alloc);
    packet.extend_from_slice(&size.to_le_bytes()[..3])?;
    packet.extend_from_slice(&[0x9D, 1, 0x2A, 64, 0, 32, 0])?;
    packet.extend_from_slice(first.as_slice())?;
    Ok(packet)
}

/// The sub mode of block `n` by rows of digits, which may be empty.
fn sub_mode_of(rows: &[&[u8]; 4], n: usize) -> SubMode {
    let place = n % 4 * 4 + 2;
    match rows[n / 4 % 4].get(place) {
        Some(digit) => SUB[number(*digit) % 10],
        None => SubMode::Dc,
    }
}

fn record_of(macroblock: &Written, skips: bool) -> MbMode {
    let mut sub_modes = [SubMode::Dc; 16];
    for n in 0..16usize {
        sub_modes[n] = sub_mode_of(&macroblock.subs, n);
    }
    MbMode {
        segment: 0,
        is_skipped: skips && macroblock.is_skipped,
        y_mode: if macroblock.luma == 4 {
            YMode::B
        } else {
            YMode::Whole(WHOLE[macroblock.luma % 4])
        },
        sub_modes,
        uv_mode: WHOLE[macroblock.chroma % 4],
        vectors: [Vector::ZERO; 16],
    }
}

/// Writes the frame, and reads it.
fn expect_frame<R: Abort>(
    rt: &R,
    alloc: Global,
    tables: &Tables,
    skips: bool,
) -> Result<(), AllocError> {
    let packet = packet_of(alloc, tables, skips)?;
    let header = read_header(tables, None, &packet).expect(rt, "a key packet");
    let modes = read_modes(alloc, tables, &header, 4, 2, None)?;
    expect_records(rt, modes.records(), skips);
    assert!(rt; modes.segment_map() == [0; 8].as_slice());
    Ok(())
}

fn expect_records<R: Abort>(rt: &R, records: &Records, skips: bool) {
    assert!(rt; records.len() == 8);
    let frame = frame();
    for n in 0..8 {
        let record = records.at(n).mode();
        assert!(rt; record == record_of(&frame[n], skips), "{record:?}");
    }
}

#[test]
fn reads_what_was_written(rt: HostRuntime) -> Result<(), Fail> {
    let tables = counted_tables().expect(&rt, "3012 bytes");
    expect_frame(&rt, rt.alloc(), &tables, true)?;
    expect_frame(&rt, rt.alloc(), &tables, false)?;
    Ok(())
}
