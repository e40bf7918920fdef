use bool_coder::Encoder;
use frame_header::{Header, Reference, read_header};
use intra_predict::{SubMode, WholeMode};
use mode_parser::{
    MbMode, Records, Split, Vector, VectorMode, YMode, chroma_vector, read_modes,
    read_modes_with_facts,
};
use std::alloc::{AllocError, Global};
use std::process::Abort;
use std::test::Fail;
use vp8_tables::{Tables, VECTOR_UPDATE_PROBABILITIES};

/// A bit, and the probability with which it is written.
type Pair = (u8, u8);

/// The index, from 0, of the sign bias of golden among the first bits of an inter frame whose
/// fields are 0: after 14 bits of segments, filter and partitions, 12 of quantizers and 6 of
/// references (RFC 6386, section 19.2).
const GOLDEN_BIAS: usize = 32;

fn write_pairs(encoder: &mut Encoder, pairs: &[Pair]) -> Result<(), AllocError> {
    for (bit, prob) in pairs {
        encoder.bit(*bit == 1, *prob)?;
    }
    Ok(())
}

fn write_byte(encoder: &mut Encoder, byte: u8) -> Result<(), AllocError> {
    let mut rest = byte;
    for _place in 0..8 {
        encoder.bit(rest >= 128, 128)?;
        rest = rest.wrapping_mul(2);
    }
    Ok(())
}

/// The probabilities of skipping, of a reference, of the last frame and of golden, and no change of the
/// others.
fn write_probabilities(encoder: &mut Encoder, probabilities: [u8; 4]) -> Result<(), AllocError> {
    for probability in probabilities {
        write_byte(encoder, probability)?;
    }
    write_pairs(encoder, &[(0, 128), (0, 128)])?;
    for component in &VECTOR_UPDATE_PROBABILITIES {
        for prob in component {
            encoder.bit(false, *prob)?;
        }
    }
    Ok(())
}

/// So many bits of 0, but 1 for the sign bias of golden, no change of coefficients, the probabilities
/// if there are any, and the macroblocks.
fn write_frame(
    encoder: &mut Encoder,
    tables: &Tables,
    zeros: usize,
    rest: &[&[Pair]],
    probabilities: Option<[u8; 4]>,
) -> Result<(), AllocError> {
    for field in 0..zeros {
        encoder.bit(field == GOLDEN_BIAS, 128)?;
    }
    for prob in tables.updates() {
        encoder.bit(false, *prob)?;
    }
    encoder.bit(probabilities.is_some(), 128)?;
    if let Some(probabilities) = probabilities {
        write_probabilities(encoder, probabilities)?;
    }
    for part in rest {
        write_pairs(encoder, part)?;
    }
    Ok(())
}

/// A packet of a tag and a first partition.
fn joined(alloc: Global, is_inter: bool, tag: &[u8], first: &[u8]) -> Result<Vec<u8>, AllocError> {
    let size = 0x10 + is_inter as u32 + 32 * (first.len() % 524_288) as u32;
    let mut packet = Vec::new(alloc);
    packet.extend_from_slice(&size.to_le_bytes()[..3])?;
    packet.extend_from_slice(tag)?;
    packet.extend_from_slice(first)?;
    Ok(packet)
}

/// A packet of a tag, and of a first partition that begins with so many bits of 0, but 1 for the
/// sign bias of golden, and without a change of coefficients.
fn packet_of(
    alloc: Global,
    tables: &Tables,
    tag: &[u8],
    zeros: usize,
    rest: &[&[Pair]],
    probabilities: Option<[u8; 4]>,
) -> Result<Vec<u8>, AllocError> {
    let mut encoder = Encoder::new(alloc);
    write_frame(&mut encoder, tables, zeros, rest, probabilities)?;
    let first = encoder.finish()?;
    joined(alloc, probabilities.is_some(), tag, &first)
}

/// Whether an inter frame after a key frame has these records, if its probabilities of skipping, of
/// a reference, of the last frame and of golden are these and only golden has a sign bias. The
/// segment map of threes before it remains.
fn check_frame(
    rt: &impl Abort,
    alloc: Global,
    columns: usize,
    probabilities: [u8; 4],
    macroblocks: &[&[Pair]],
    records: &[MbMode],
) -> Result<(), AllocError> {
    let tables = Tables::rfc();
    let key_tag = [0x9D, 1, 0x2A, 16, 0, 16, 0];
    let key = packet_of(alloc, &tables, &key_tag, 29, &[], None)?;
    let key = read_header(&tables, None, key.as_slice()).expect(rt, "a key packet");
    let packet = packet_of(alloc, &tables, &[], 36, macroblocks, Some(probabilities))?;
    let header = read_header(&tables, Some(&key.context_after), packet.as_slice());
    let header = header.expect(rt, "an inter packet");
    assert!(rt; !header.is_key);
    expect_modes(rt, alloc, &header, columns, records)
}

/// Whether these are the records that were read.
fn are_records(found: &Records, expected: &[MbMode]) -> bool {
    for n in 0..found.len() {
        if expected.get(n) != Some(&found.at(n).mode()) {
            return false;
        }
    }
    found.len() == expected.len()
}

/// The records of a frame whose map before it is of threes.
fn expect_modes<R: Abort>(
    rt: &R,
    alloc: Global,
    header: &Header,
    columns: usize,
    records: &[MbMode],
) -> Result<(), AllocError> {
    assert!(rt; 1 <= columns && columns <= 16);
    assert!(rt; records.len() <= 16);
    let rows = records.len() / columns;
    assert!(rt; 1 <= rows);
    let map = [3; 16];
    assert!(rt; columns * rows <= 16);
    let map = &map[..columns * rows];
    let modes = read_modes(alloc, &Tables::rfc(), header, columns, rows, Some(map))?;
    assert!(rt; are_records(modes.records(), records) && modes.segment_map() == map);
    Ok(())
}

/// The splits of a frame that `check_frame` checks.
fn expect_splits<R: Abort>(
    rt: &R,
    alloc: Global,
    columns: usize,
    macroblocks: &[&[Pair]],
    splits: &[Option<Split>],
) -> Result<(), AllocError> {
    let tables = Tables::rfc();
    let key_tag = [0x9D, 1, 0x2A, 16, 0, 16, 0];
    let key = packet_of(alloc, &tables, &key_tag, 29, &[], None)?;
    let key = read_header(&tables, None, key.as_slice()).expect(rt, "a key packet");
    let packet = packet_of(alloc, &tables, &[], 36, macroblocks, Some(PROBABILITIES))?;
    let header = read_header(&tables, Some(&key.context_after), packet.as_slice());
    let header = header.expect(rt, "an inter packet");
    assert!(rt; 1 <= columns && columns <= 16 && splits.len() <= 16);
    let rows = splits.len() / columns;
    assert!(rt; 1 <= rows && columns * rows <= 16);
    let map = [3; 16];
    let map = &map[..columns * rows];
    let (modes, facts) = read_modes_with_facts(alloc, &tables, &header, columns, rows, Some(map))?;
    let alone = read_modes(alloc, &tables, &header, columns, rows, Some(map))?;
    assert_eq!(rt; modes.segment_map(), alone.segment_map());
    assert_eq!(rt; modes.left(), alone.left());
    assert_eq!(rt; modes.records().len(), splits.len());
    for n in 0..splits.len() {
        assert_eq!(rt; modes.records().at(n).mode(), alone.records().at(n).mode());
    }
    assert_eq!(rt; facts.len(), splits.len());
    for (fact, split) in facts.iter().zip(splits) {
        assert_eq!(rt; fact.split, *split);
    }
    Ok(())
}

/// The vectors that blocks have by the letters a to d of their parts.
fn by_letter(letters: &[u8; 16], vectors: [(i32, i32); 4]) -> [Vector; 16] {
    let mut result = [Vector::ZERO; 16];
    for (n, letter) in letters.iter().enumerate() {
        let (x, y) = vectors[(*letter as usize + 3) % 4];
        if n < 16 {
            result[n] = Vector::new(x.clamp(-70_000, 70_000), y.clamp(-70_000, 70_000));
        }
    }
    result
}

fn all(x: i32, y: i32) -> [Vector; 16] {
    by_letter(b"aaaaaaaaaaaaaaaa", [(x, y); 4])
}

fn inter(reference: Reference, mode: VectorMode, vectors: [Vector; 16]) -> MbMode {
    MbMode {
        segment: 0,
        is_skipped: false,
        y_mode: YMode::Inter(reference, mode),
        sub_modes: [SubMode::Dc; 16],
        uv_mode: WholeMode::Dc,
        vectors,
    }
}

fn skipped(mode: MbMode) -> MbMode {
    let mut mode = mode;
    mode.is_skipped = true;
    mode
}

fn intra(y_mode: YMode, sub_modes: [SubMode; 16], uv_mode: WholeMode) -> MbMode {
    MbMode {
        segment: 0,
        is_skipped: false,
        y_mode,
        sub_modes,
        uv_mode,
        vectors: [Vector::ZERO; 16],
    }
}

/// The probabilities of the frames below: of skipping, of a reference, of the last frame and of
/// golden.
const PROBABILITIES: [u8; 4] = [77, 200, 100, 150];

const INTRA: &[Pair] = &[(0, 77), (0, 200)];

const LAST: &[Pair] = &[(0, 77), (1, 200), (0, 100)];

const GOLDEN: &[Pair] = &[(0, 77), (1, 200), (1, 100), (0, 150)];

const SKIPPED_GOLDEN: &[Pair] = &[(1, 77), (1, 200), (1, 100), (0, 150)];

const ALTREF: &[Pair] = &[(0, 77), (1, 200), (1, 100), (1, 150)];

// The modes without neighbours that count, and with one near vector of weight 2.
const NEW_OF_NONE: &[Pair] = &[(1, 7), (1, 1), (1, 1), (0, 143)];

const ZERO_OF_ONE: &[Pair] = &[(0, 7)];

const NEAREST_OF_ONE: &[Pair] = &[(1, 7), (0, 64)];

const NEAR_OF_ONE: &[Pair] = &[(1, 7), (1, 64), (0, 1)];

const NEW_OF_ONE: &[Pair] = &[(1, 7), (1, 64), (1, 1), (0, 143)];

const SPLIT_OF_ONE: &[Pair] = &[(1, 7), (1, 64), (1, 1), (1, 143)];

// Components of vectors: rows and columns.
const ROW_0: &[Pair] = &[(0, 162), (0, 225), (0, 146), (0, 172)];

const ROW_1: &[Pair] = &[(0, 162), (0, 225), (0, 146), (1, 172), (0, 128)];

const ROW_MINUS_3: &[Pair] = &[(0, 162), (0, 225), (1, 146), (1, 147), (1, 128)];

const ROW_16: &[Pair] = &[
    (1, 162),
    (0, 128),
    (0, 129),
    (0, 132),
    (0, 254),
    (0, 254),
    (0, 239),
    (0, 206),
    (0, 178),
    (1, 145),
    (0, 75),
    (0, 128),
];

const ROW_MINUS_700: &[Pair] = &[
    (1, 162),
    (0, 128),
    (0, 129),
    (1, 132),
    (1, 254),
    (0, 254),
    (1, 239),
    (0, 206),
    (1, 178),
    (1, 145),
    (1, 75),
    (1, 128),
];

const COLUMN_0: &[Pair] = &[(0, 164), (0, 204), (0, 170), (0, 119)];

const COLUMN_5: &[Pair] = &[(0, 164), (1, 204), (0, 140), (1, 230), (0, 128)];

const COLUMN_8: &[Pair] = &[
    (1, 164),
    (0, 128),
    (0, 130),
    (0, 130),
    (0, 254),
    (0, 254),
    (0, 236),
    (0, 203),
    (0, 180),
    (0, 148),
    (0, 128),
];

const COLUMN_MINUS_9: &[Pair] = &[
    (1, 164),
    (1, 128),
    (0, 130),
    (0, 130),
    (0, 254),
    (0, 254),
    (0, 236),
    (0, 203),
    (0, 180),
    (0, 148),
    (1, 128),
];

const COLUMN_1000: &[Pair] = &[
    (1, 164),
    (0, 128),
    (0, 130),
    (0, 130),
    (1, 254),
    (1, 254),
    (1, 236),
    (1, 203),
    (1, 180),
    (0, 148),
    (1, 74),
    (0, 128),
];

/// A frame that moves down by four samples, of which the second macroblock stays.
#[test]
fn moves_a_macroblock(rt: HostRuntime) -> Result<(), Fail> {
    let macroblocks: [&[Pair]; 5] = [
        &[(1, 1), (1, 1), (0, 255)],
        NEW_OF_NONE,
        ROW_16,
        COLUMN_0,
        &[(1, 1), (1, 1), (0, 255), (0, 7)],
    ];
    let records = [
        skipped(inter(Reference::Last, VectorMode::New, all(0, 16))),
        skipped(inter(Reference::Last, VectorMode::Zero, all(0, 0))),
    ];
    check_frame(&rt, rt.alloc(), 2, [1, 1, 255, 128], &macroblocks, &records)?;
    Ok(())
}

/// Golden vectors count with the other sign. The fifth macroblock has the first neighbour's vector
/// again as the third, and a split neighbour.
#[test]
fn counts_references_and_parts(rt: HostRuntime) -> Result<(), Fail> {
    let macroblocks: [&[Pair]; 26] = [
        LAST,
        NEW_OF_NONE,
        ROW_0,
        COLUMN_8,
        SKIPPED_GOLDEN,
        NEAREST_OF_ONE,
        GOLDEN,
        NEAR_OF_ONE,
        // Left and right half: the vector above, and a new one.
        LAST,
        SPLIT_OF_ONE,
        &[(1, 110), (1, 111), (1, 150)],
        &[(1, 106), (0, 145)],
        &[(1, 223), (1, 1), (1, 34)],
        ROW_MINUS_3,
        COLUMN_0,
        // Quarters: the vector to the left, the one above, zero, and a new one.
        ALTREF,
        &[(1, 7), (1, 56), (1, 57), (1, 68)],
        &[(1, 110), (0, 111)],
        &[(0, 147)],
        &[(1, 147), (0, 136)],
        &[(1, 223), (1, 1), (0, 34)],
        &[(1, 106), (1, 145), (1, 1)],
        ROW_0,
        COLUMN_MINUS_9,
        GOLDEN,
        &[(1, 135), (1, 64), (0, 14)],
    ];
    let halves = by_letter(b"aabbaabbaabbaabb", [(8, 0), (8, -3), (0, 0), (0, 0)]);
    let quarters = by_letter(b"aabbaabbccddccdd", [(8, -3), (-8, 0), (0, 0), (-1, 0)]);
    let records = [
        inter(Reference::Last, VectorMode::New, all(8, 0)),
        skipped(inter(Reference::Golden, VectorMode::Nearest, all(-8, 0))),
        inter(Reference::Golden, VectorMode::Near, all(0, 0)),
        inter(Reference::Last, VectorMode::Split, halves),
        inter(Reference::Altref, VectorMode::Split, quarters),
        inter(Reference::Golden, VectorMode::Near, all(-8, 0)),
    ];
    check_frame(&rt, rt.alloc(), 3, PROBABILITIES, &macroblocks, &records)?;
    let splits = [
        None,
        None,
        None,
        Some(Split::LeftRight),
        Some(Split::Quarters),
        None,
    ];
    expect_splits(&rt, rt.alloc(), 3, &macroblocks, &splits)?;
    Ok(())
}

/// Near vectors are clamped to at most one macroblock past the frame's edges, and a sum is not.
#[test]
fn holds_vectors_at_the_edges(rt: HostRuntime) -> Result<(), Fail> {
    let macroblocks: [&[Pair]; 12] = [
        LAST,
        NEW_OF_NONE,
        ROW_MINUS_700,
        COLUMN_1000,
        LAST,
        NEAREST_OF_ONE,
        LAST,
        NEW_OF_ONE,
        ROW_1,
        COLUMN_5,
        LAST,
        &[(1, 7), (1, 64), (0, 57)],
    ];
    let records = [
        inter(Reference::Last, VectorMode::New, all(1000, -700)),
        inter(Reference::Last, VectorMode::Nearest, all(64, -64)),
        inter(Reference::Last, VectorMode::New, all(133, -127)),
        inter(Reference::Last, VectorMode::Near, all(64, -127)),
    ];
    check_frame(&rt, rt.alloc(), 2, PROBABILITIES, &macroblocks, &records)?;
    Ok(())
}

/// Two halves one above the other, and sixteen parts with each kind of vector between each kind of
/// neighbours.
#[test]
fn splits_into_halves_and_sixteenths(rt: HostRuntime) -> Result<(), Fail> {
    let macroblocks: [&[Pair]; 37] = [
        LAST,
        NEW_OF_NONE,
        ROW_0,
        COLUMN_8,
        LAST,
        SPLIT_OF_ONE,
        &[(1, 110), (1, 111), (0, 150)],
        &[(0, 179)],
        &[(1, 223), (1, 1), (1, 34)],
        ROW_1,
        COLUMN_5,
        LAST,
        ZERO_OF_ONE,
        LAST,
        &[(1, 135), (1, 64), (1, 14), (1, 68)],
        &[(0, 110)],
        &[(1, 106), (0, 145)],
        &[(0, 223)],
        &[(0, 223)],
        &[(0, 223)],
        &[(0, 106)],
        &[(1, 106), (1, 145), (0, 1)],
        &[(1, 106), (1, 145), (1, 1)],
        ROW_0,
        COLUMN_8,
        &[(1, 147), (1, 136), (1, 18)],
        ROW_MINUS_3,
        COLUMN_0,
        &[(0, 208)],
        &[(1, 208), (0, 1)],
        &[(0, 106)],
        &[(1, 106), (0, 145)],
        &[(1, 208), (1, 1), (0, 1)],
        &[(0, 208)],
        &[(0, 208)],
        &[(1, 106)],
        &[(0, 145)],
    ];
    let halves = by_letter(b"aaaaaaaabbbbbbbb", [(8, 0), (13, 1), (0, 0), (0, 0)]);
    let sixteenths = by_letter(b"aaaabbcdbbbdbbbd", [(13, 1), (0, 0), (21, 1), (13, -2)]);
    let records = [
        inter(Reference::Last, VectorMode::New, all(8, 0)),
        inter(Reference::Last, VectorMode::Split, halves),
        inter(Reference::Last, VectorMode::Zero, all(0, 0)),
        inter(Reference::Last, VectorMode::Split, sixteenths),
    ];
    check_frame(&rt, rt.alloc(), 2, PROBABILITIES, &macroblocks, &records)?;
    let splits = [None, Some(Split::TopBottom), None, Some(Split::Sixteenths)];
    expect_splits(&rt, rt.alloc(), 2, &macroblocks, &splits)?;
    Ok(())
}

/// The second of `near_mvs` weighs more than the first.
#[test]
fn ranks_by_weight(rt: HostRuntime) -> Result<(), Fail> {
    let macroblocks: [&[Pair]; 12] = [
        LAST,
        NEW_OF_NONE,
        ROW_0,
        COLUMN_8,
        LAST,
        NEW_OF_ONE,
        ROW_1,
        COLUMN_5,
        LAST,
        NEAREST_OF_ONE,
        LAST,
        &[(1, 7), (0, 56)],
    ];
    let records = [
        inter(Reference::Last, VectorMode::New, all(8, 0)),
        inter(Reference::Last, VectorMode::New, all(13, 1)),
        inter(Reference::Last, VectorMode::Nearest, all(8, 0)),
        inter(Reference::Last, VectorMode::Nearest, all(8, 0)),
    ];
    check_frame(&rt, rt.alloc(), 2, PROBABILITIES, &macroblocks, &records)?;
    Ok(())
}

// The sub modes of an inter frame.
const SUB_DC: &[Pair] = &[(0, 120)];

const SUB_TM: &[Pair] = &[(1, 120), (0, 90)];

const SUB_VE: &[Pair] = &[(1, 120), (1, 90), (0, 79)];

const SUB_HE: &[Pair] = &[(1, 120), (1, 90), (1, 79), (0, 133), (0, 87)];

const SUB_LD: &[Pair] = &[(1, 120), (1, 90), (1, 79), (1, 133), (0, 80)];

const SUB_RD: &[Pair] = &[(1, 120), (1, 90), (1, 79), (0, 133), (1, 87), (0, 85)];

const SUB_VR: &[Pair] = &[(1, 120), (1, 90), (1, 79), (0, 133), (1, 87), (1, 85)];

const SUB_VL: &[Pair] = &[(1, 120), (1, 90), (1, 79), (1, 133), (1, 80), (0, 111)];

const SUB_HD: &[Pair] = &[
    (1, 120),
    (1, 90),
    (1, 79),
    (1, 133),
    (1, 80),
    (1, 111),
    (0, 151),
];

const SUB_HU: &[Pair] = &[
    (1, 120),
    (1, 90),
    (1, 79),
    (1, 133),
    (1, 80),
    (1, 111),
    (1, 151),
];

/// Each luma and chroma mode of a macroblock without a reference, one of them with each sub mode.
#[test]
fn reads_modes_without_a_reference(rt: HostRuntime) -> Result<(), Fail> {
    let macroblocks: [&[Pair]; 27] = [
        INTRA,
        &[(1, 112), (0, 86), (0, 140), (1, 162), (1, 101), (0, 204)],
        INTRA,
        &[(1, 112), (1, 86), (1, 37)],
        SUB_DC,
        SUB_TM,
        SUB_VE,
        SUB_HE,
        SUB_LD,
        SUB_RD,
        SUB_VR,
        SUB_VL,
        SUB_HD,
        SUB_HU,
        SUB_HU,
        SUB_HD,
        SUB_VL,
        SUB_VR,
        SUB_RD,
        SUB_LD,
        &[(0, 162)],
        INTRA,
        &[(0, 112), (1, 162), (0, 101)],
        INTRA,
        &[(1, 112), (0, 86), (1, 140), (1, 162), (1, 101), (1, 204)],
        INTRA,
        &[(1, 112), (1, 86), (0, 37), (0, 162)],
    ];
    let sub_modes = [
        SubMode::Dc,
        SubMode::Tm,
        SubMode::Ve,
        SubMode::He,
        SubMode::Ld,
        SubMode::Rd,
        SubMode::Vr,
        SubMode::Vl,
        SubMode::Hd,
        SubMode::Hu,
        SubMode::Hu,
        SubMode::Hd,
        SubMode::Vl,
        SubMode::Vr,
        SubMode::Rd,
        SubMode::Ld,
    ];
    let none = [SubMode::Dc; 16];
    let records = [
        intra(YMode::Whole(WholeMode::V), none, WholeMode::H),
        intra(YMode::B, sub_modes, WholeMode::Dc),
        intra(YMode::Whole(WholeMode::Dc), none, WholeMode::V),
        intra(YMode::Whole(WholeMode::H), none, WholeMode::Tm),
        intra(YMode::Whole(WholeMode::Tm), none, WholeMode::Dc),
    ];
    check_frame(&rt, rt.alloc(), 5, PROBABILITIES, &macroblocks, &records)?;
    Ok(())
}

#[test]
fn chroma_vectors_are_rounded_means(rt: HostRuntime) {
    let sums = [1, 2, -1, -2, 6, -6, 38, -38, i32::MIN, i32::MAX];
    let eighths = [0, 1, 0, -1, 2, -2, 10, -10, -536_870_912, 536_870_912];
    for (sum, expected) in sums.iter().zip(&eighths) {
        assert_eq!(rt; chroma_vector(*sum, 0), *expected);
    }
    assert_eq!(rt; chroma_vector(38, 3), 8);
    assert_eq!(rt; chroma_vector(-38, 3), -16);
}
