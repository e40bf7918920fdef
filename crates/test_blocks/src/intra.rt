use intra_predict::{BlockSize, SubMode, WholeMode, sub, whole};
use std::process::Abort;

/// The samples to the left of the worked sub blocks (L0 to L3).
const LEFT: [u8; 4] = [7, 20, 4, 100];

/// The sample above the left side of the worked sub blocks (P).
const CORNER: u8 = 40;

/// The samples above the worked sub blocks (A0 to A7).
const ABOVE: [u8; 8] = [60, 13, 90, 200, 31, 8, 5, 251];

/// Sub blocks worked manually from the formulas of RFC 6386, section 12.3.
///
/// The edge from L3 up over P to A3 is 100, 4, 20, 7, 40, 60, 13, 90, 200, and 31, 8, 5, 251 follow.
/// Its means of two are (100 + 4 + 1) / 2 = 52, (4 + 20 + 1) / 2 = 12, (20 + 7 + 1) / 2 = 14,
/// (7 + 40 + 1) / 2 = 24, (40 + 60 + 1) / 2 = 50, (60 + 13 + 1) / 2 = 37, (13 + 90 + 1) / 2 = 52,
/// (90 + 200 + 1) / 2 = 145, (200 + 31 + 1) / 2 = 116.
/// Its means of three are (100 + 8 + 20 + 2) / 4 = 32, (4 + 40 + 7 + 2) / 4 = 13,
/// (20 + 14 + 40 + 2) / 4 = 19, (7 + 80 + 60 + 2) / 4 = 37, (40 + 120 + 13 + 2) / 4 = 43,
/// (60 + 26 + 90 + 2) / 4 = 44, (13 + 180 + 200 + 2) / 4 = 98, (90 + 400 + 31 + 2) / 4 = 130,
/// (200 + 62 + 8 + 2) / 4 = 68, (31 + 16 + 5 + 2) / 4 = 13, (8 + 10 + 251 + 2) / 4 = 67, and at the
/// two ends (4 + 200 + 100 + 2) / 4 = 76 and (5 + 502 + 251 + 2) / 4 = 190.
#[test]
fn sub_blocks_are_as_worked_by_hand(rt: HostRuntime) {
    // DC: (60 + 13 + 90 + 200 + 7 + 20 + 4 + 100 + 4) / 8 = 62.
    let mean = [62; 16];
    // TM: left + above - 40; 20 + 13 - 40 = -7, 7 + 13 - 40 and 4 + 13 - 40 are clamped at 0, and
    // 100 + 200 - 40 = 260 at 255.
    let true_motion = [
        27, 0, 57, 167, 40, 0, 70, 180, 24, 0, 54, 164, 120, 73, 150, 255,
    ];
    let vertical = [
        43, 44, 98, 130, 43, 44, 98, 130, 43, 44, 98, 130, 43, 44, 98, 130,
    ];
    let horizontal = [
        19, 19, 19, 19, 13, 13, 13, 13, 32, 32, 32, 32, 76, 76, 76, 76,
    ];
    let left_down = [
        44, 98, 130, 68, 98, 130, 68, 13, 130, 68, 13, 67, 68, 13, 67, 190,
    ];
    let right_down = [
        37, 43, 44, 98, 19, 37, 43, 44, 13, 19, 37, 43, 32, 13, 19, 37,
    ];
    let vertical_right = [
        50, 37, 52, 145, 37, 43, 44, 98, 19, 50, 37, 52, 13, 37, 43, 44,
    ];
    let vertical_left = [
        37, 52, 145, 116, 44, 98, 130, 68, 52, 145, 116, 13, 98, 130, 68, 67,
    ];
    let horizontal_down = [
        24, 37, 43, 44, 14, 19, 24, 37, 12, 13, 14, 19, 52, 32, 12, 13,
    ];
    let horizontal_up = [
        14, 13, 12, 32, 12, 32, 52, 76, 52, 76, 100, 100, 100, 100, 100, 100,
    ];
    for (mode, block) in [
        (SubMode::Dc, mean),
        (SubMode::Tm, true_motion),
        (SubMode::Ve, vertical),
        (SubMode::He, horizontal),
        (SubMode::Ld, left_down),
        (SubMode::Rd, right_down),
        (SubMode::Vr, vertical_right),
        (SubMode::Vl, vertical_left),
        (SubMode::Hd, horizontal_down),
        (SubMode::Hu, horizontal_up),
    ] {
        assert_eq!(rt; sub(mode, LEFT, CORNER, ABOVE), block, "{mode:?}");
    }
}

/// Each row is the row above, smoothed: (10 + 40 + 30 + 2) / 4 = 20.5, (20 + 60 + 40 + 2) / 4 = 30.5, ..
#[test]
fn vertical_sub_block_repeats_the_row_above(rt: HostRuntime) {
    let above = [20, 30, 40, 50, 60, 70, 80, 90];
    let block = [
        20, 30, 40, 50, 20, 30, 40, 50, 20, 30, 40, 50, 20, 30, 40, 50,
    ];
    assert_eq!(rt; sub(SubMode::Ve, [1, 2, 3, 4], 10, above), block);
}

/// The means of two and three of 10, 20, 30, 40 in turn; after them 40 repeats.
#[test]
fn horizontal_up_sub_block_ends_in_the_last_sample(rt: HostRuntime) {
    let block = [
        15, 20, 25, 30, 25, 30, 35, 38, 35, 38, 40, 40, 40, 40, 40, 40,
    ];
    assert_eq!(rt; sub(SubMode::Hu, [10, 20, 30, 40], 0, ABOVE), block);
}

/// The modes of a sub block are numbered in the order of RFC 6386, section 11.2.
#[test]
fn sub_modes_are_numbered(rt: HostRuntime) {
    assert_eq!(rt;
        (SubMode::Dc as u8, SubMode::Tm as u8, SubMode::Ve as u8),
        (0, 1, 2)
    );
    assert_eq!(rt;
        (SubMode::He as u8, SubMode::Ld as u8, SubMode::Rd as u8),
        (3, 4, 5)
    );
    assert_eq!(rt; (SubMode::Vr as u8, SubMode::Vl as u8), (6, 7));
    assert_eq!(rt; (SubMode::Hd as u8, SubMode::Hu as u8), (8, 9));
}

/// The samples above the worked chroma blocks: its sum is 360.
const ROW: [u8; 8] = [10, 20, 30, 40, 50, 60, 70, 80];

/// The samples to the left of the worked chroma blocks: its sum is 80.
const COLUMN: [u8; 8] = [3, 5, 7, 9, 11, 13, 15, 17];

/// A chroma block between these sides.
fn chroma(mode: WholeMode, above: bool, left: bool, corner: u8) -> [u8; 64] {
    let mut block = [0; 64];
    let above = if above { Some(ROW.as_slice()) } else { None };
    let left = if left { Some(COLUMN.as_slice()) } else { None };
    whole(mode, BlockSize::Eight, above, left, corner, &mut block, 8);
    block
}

/// A chroma block between sides that are inside the frame or not, and its first and its last row.
struct ChromaCase {
    mode: WholeMode,
    above: bool,
    left: bool,
    corner: u8,
    first: [u8; 8],
    last: [u8; 8],
}

/// Worked manually from RFC 6386, section 12.2.
const CHROMA: &[ChromaCase] = &[
    // (360 + 80 + 8) / 16, (360 + 4) / 8 = 45.5, (80 + 4) / 8 = 10.5, and 128 with no side.
    ChromaCase {
        mode: WholeMode::Dc,
        above: true,
        left: true,
        corner: 0,
        first: [28; 8],
        last: [28; 8],
    },
    ChromaCase {
        mode: WholeMode::Dc,
        above: true,
        left: false,
        corner: 0,
        first: [45; 8],
        last: [45; 8],
    },
    ChromaCase {
        mode: WholeMode::Dc,
        above: false,
        left: true,
        corner: 0,
        first: [10; 8],
        last: [10; 8],
    },
    ChromaCase {
        mode: WholeMode::Dc,
        above: false,
        left: false,
        corner: 0,
        first: [128; 8],
        last: [128; 8],
    },
    // 127 above the frame, and 129 to its left.
    ChromaCase {
        mode: WholeMode::V,
        above: true,
        left: false,
        corner: 0,
        first: ROW,
        last: ROW,
    },
    ChromaCase {
        mode: WholeMode::V,
        above: false,
        left: true,
        corner: 0,
        first: [127; 8],
        last: [127; 8],
    },
    ChromaCase {
        mode: WholeMode::H,
        above: false,
        left: true,
        corner: 0,
        first: [3; 8],
        last: [17; 8],
    },
    ChromaCase {
        mode: WholeMode::H,
        above: true,
        left: false,
        corner: 0,
        first: [129; 8],
        last: [129; 8],
    },
    // 3 + 10 - 40, .., 3 + 80 - 40; 17 + 10 - 40, .., 17 + 80 - 40.
    ChromaCase {
        mode: WholeMode::Tm,
        above: true,
        left: true,
        corner: 40,
        first: [0, 0, 0, 3, 13, 23, 33, 43],
        last: [0, 0, 7, 17, 27, 37, 47, 57],
    },
    // 3 + 127 - 40, 17 + 127 - 40; 129 + 10 - 40, .., 129 + 80 - 40; 129 + 127 - 127.
    ChromaCase {
        mode: WholeMode::Tm,
        above: false,
        left: true,
        corner: 40,
        first: [90; 8],
        last: [104; 8],
    },
    ChromaCase {
        mode: WholeMode::Tm,
        above: true,
        left: false,
        corner: 40,
        first: [99, 109, 119, 129, 139, 149, 159, 169],
        last: [99, 109, 119, 129, 139, 149, 159, 169],
    },
    ChromaCase {
        mode: WholeMode::Tm,
        above: false,
        left: false,
        corner: 127,
        first: [129; 8],
        last: [129; 8],
    },
];

#[test]
fn chroma_blocks_are_as_worked_by_hand(rt: HostRuntime) {
    for case in CHROMA {
        expect_chroma(&rt, case);
    }
}

fn expect_chroma<R: Abort>(rt: &R, case: &ChromaCase) {
    let (mode, above, left) = (case.mode, case.above, case.left);
    let block = chroma(mode, above, left, case.corner);
    assert!(rt;
        &block[..8] == case.first.as_slice(),
        "{mode:?} {above} {left}"
    );
    assert!(rt;
        &block[56..] == case.last.as_slice(),
        "{mode:?} {above} {left}"
    );
}

/// Luma blocks whose sides are all 200 above and all 101 to the left: the mode, the corner, and the
/// value of all samples.
const LUMA: &[(WholeMode, u8, u8)] = &[
    // (16 * 200 + 16 * 101 + 16) / 32 = 151; 101 + 200 - 46 = 255; 101 + 200 - 20 = 281 is
    // clamped.
    (WholeMode::Dc, 0, 151),
    (WholeMode::V, 0, 200),
    (WholeMode::H, 0, 101),
    (WholeMode::Tm, 46, 255),
    (WholeMode::Tm, 47, 254),
    (WholeMode::Tm, 20, 255),
];

fn luma(mode: WholeMode, corner: u8) -> [u8; 256] {
    let mut block = [0; 256];
    let (above, left) = (Some([200; 16].as_slice()), Some([101; 16].as_slice()));
    whole(
        mode,
        BlockSize::Sixteen,
        above,
        left,
        corner,
        &mut block,
        16,
    );
    block
}

#[test]
fn luma_blocks_are_as_worked_by_hand(rt: HostRuntime) {
    for (mode, corner, value) in LUMA {
        assert!(rt; luma(*mode, *corner) == [*value; 256], "{mode:?}");
    }
}

/// The samples between the rows of a block and below it are unchanged: 10 samples a row, of which
/// the block has the first 8, and a last row of which it has none.
#[test]
fn samples_round_a_block_are_unchanged(rt: HostRuntime) {
    let samples = among_sevens();
    for row in samples.chunks(10).take(8) {
        assert!(rt; row == [10, 20, 30, 40, 50, 60, 70, 80, 7, 7].as_slice());
    }
    assert!(rt; &samples[80..] == [7; 10].as_slice());
}

fn among_sevens() -> [u8; 90] {
    let mut samples = [7; 90];
    let above = Some(ROW.as_slice());
    whole(
        WholeMode::V,
        BlockSize::Eight,
        above,
        None,
        0,
        &mut samples,
        10,
    );
    samples
}
