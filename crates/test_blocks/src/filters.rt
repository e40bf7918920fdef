ghost use Rattle.std.specs.Prelude.{◌≤◌};

use frame_header::{Filter, FilterDeltas, Header, Reference, Segments, read_header};
use intra_predict::{SubMode, WholeMode};
use loop_filter::{Limits, frame, level, limits, simple};
use mode_parser::{MbMode, Vector, VectorMode, YMode, read_modes};
use pixel_planes::{Plane, Planes};
use std::alloc::Global;
use std::process::Abort;
use std::test::Fail;
use vp8_tables::Tables;

/// A key frame of 48 by 32 samples whose bits are all 0.
const KEY: [u8; 10] = [0x10, 0, 0, 0x9D, 0x01, 0x2A, 48, 0, 32, 0];

/// A frame after it whose bits are all 0.
const NEXT: [u8; 3] = [0x11, 0, 0];

#[test]
fn four_samples_of_a_step_of_ten(rt: HostRuntime) {
    let mut samples = [100, 100, 110, 110];
    simple(&mut samples, 24);
    assert!(rt; samples == [100, 100, 110, 110]);
    simple(&mut samples, 25);
    assert!(rt; samples == [100, 102, 107, 110]);
}

/// The limits at level 20 of a key frame without sharpness.
const SOFT: Limits = Limits {
    interior: 20,
    variance: 1,
    macroblock_edge: 64,
    inner_edge: 60,
};

/// The same with a sharpness of 5.
const SHARP: Limits = Limits {
    interior: 4,
    variance: 1,
    macroblock_edge: 48,
    inner_edge: 44,
};

#[test]
fn limits_of_level_20(rt: HostRuntime) {
    let soft_inter = Limits {
        variance: 2,
        ..SOFT
    };
    assert!(rt; limits(20, 0, true) == SOFT);
    assert!(rt; limits(20, 5, true) == SHARP);
    assert!(rt; limits(20, 0, false) == soft_inter);
}

/// The level of a macroblock of this mode in segment 1.
fn level_of(header: &Header, y_mode: YMode) -> u8 {
    let mode = MbMode {
        segment: 1,
        is_skipped: false,
        y_mode,
        sub_modes: [SubMode::Dc; 16],
        uv_mode: WholeMode::Dc,
        vectors: [Vector::ZERO; 16],
    };
    level(header, &mode)
}

/// A filter of this kind, level and sharpness.
fn filter_of(is_simple: bool, level: u8, sharpness: u8) -> Filter {
    Filter {
        is_simple,
        level,
        sharpness,
    }
}

/// The levels and quantizers of segments, as changes or absolute.
fn segments_of(is_absolute: bool) -> Segments {
    Segments {
        is_absolute,
        quantizers: [0; 4],
        levels: [-60, 20, -20, 0],
    }
}

const DELTAS: FilterDeltas = FilterDeltas {
    reference: [2, 0, -2, -3],
    mode: [4, -2, 1, 5],
};

/// Whether macroblocks of a header have these levels, each by its mode.
fn has_levels(header: &Header, levels: &[(YMode, u8)]) -> bool {
    levels
        .iter()
        .all(|(mode, level)| level_of(header, *mode) == *level)
}

const MOVED: YMode = YMode::Inter(Reference::Altref, VectorMode::Zero);

/// With changes by segment, 60 + 20 is clamped to 63; then -3 for altref and -2 for a zero vector.
const CHANGED: &[(YMode, u8)] = &[
    (MOVED, 58),
    (YMode::Inter(Reference::Golden, VectorMode::Near), 62),
];

/// 20 + 2, 20 + 2 + 4 and 20 + 0 + 5.
const ABSOLUTE: &[(YMode, u8)] = &[
    (YMode::Whole(WholeMode::V), 22),
    (YMode::B, 26),
    (YMode::Inter(Reference::Last, VectorMode::Split), 25),
];

#[test]
fn levels_of_modes_and_segments(rt: HostRuntime) {
    let mut header = read_header(&Tables::flat(), None, &KEY).expect(&rt, "a key frame of zeros");
    header.filter = filter_of(false, 60, 0);
    let mut context = header.context;
    context.segments = segments_of(false);
    context.deltas = DELTAS;
    header.context = context;
    assert!(rt; has_levels(&header, &[(MOVED, 60)]));
    let mut segmentation = header.segmentation;
    segmentation.is_enabled = true;
    header.segmentation = segmentation;
    assert!(rt; has_levels(&header, &[(MOVED, 63)]));
    header.adjusts_level = true;
    assert!(rt; has_levels(&header, CHANGED));
    context.segments = segments_of(true);
    header.context = context;
    assert!(rt; has_levels(&header, ABSOLUTE));
}

/// Fills samples with numbers starting at `least` that look random, `count` of them.
fn fill(samples: &mut [u8], seed: u32, least: u8, count: u32) {
    let mut number = seed;
    for sample in samples {
        number = number.wrapping_mul(1_103_515_245).wrapping_add(12_345);
        *sample = least.wrapping_add(((number >> 16) % count.max(1) % 256) as u8);
    }
}

/// A number that distinguishes planes: 31 times its previous value, plus the sample, in 32 bits.
fn total(plane: &Plane) -> u32 {
    let mut total = 0u32;
    for y in 0..plane.height() {
        for sample in plane.row(y) {
            total = total.wrapping_mul(31).wrapping_add(u32::from(*sample));
        }
    }
    total
}

/// A frame of zero bits: a key frame, whose macroblocks all have inner edges, or another, whose
/// macroblocks have them if they have tokens. Its samples look random, `count` of them starting at
/// `least`. Its planes have these totals after the filter.
struct Case {
    is_key: bool,
    is_simple: bool,
    level: u8,
    sharpness: u8,
    least: u8,
    count: u32,
    totals: [u32; 3],
}

/// The header of a frame of zero bits with this filter.
fn header_of(rt: &impl Abort, is_key: bool, filter: Filter) -> Header<'static> {
    let tables = Tables::flat();
    let key = read_header(&tables, None, &KEY).expect(rt, "a key frame of zeros");
    let next = read_header(&tables, Some(&key.context), &NEXT).expect(rt, "a frame of zeros");
    let mut header = if is_key { key } else { next };
    header.filter = filter;
    header
}

/// The widths of the borders of the three planes.
type Borders = (usize, usize, usize);

/// The totals of the planes of a filtered frame with these borders, each at most 64.
fn filtered(rt: &impl Abort, alloc: Global, case: &Case, borders: Borders) -> Result<[u32; 3], Fail>
    requires { (borders.0 ≤ 64) × (borders.1 ≤ 64) × (borders.2 ≤ 64) }
{
    let filter = filter_of(case.is_simple, case.level, case.sharpness);
    let header = header_of(rt, case.is_key, filter);
    let modes = read_modes(alloc, &Tables::flat(), &header, 3, 2, Some(&[0; 6]))?;
    let mut planes = Planes {
        luma: Plane::make_bordered(alloc, 48, 32, 0, borders.0)?,
        cb: Plane::make_bordered(alloc, 24, 16, 0, borders.1)?,
        cr: Plane::make_bordered(alloc, 24, 16, 0, borders.2)?,
    };
    fill(planes.luma.samples_mut(), 1, case.least, case.count);
    fill(planes.cb.samples_mut(), 2, case.least, case.count);
    fill(planes.cr.samples_mut(), 3, case.least, case.count);
    let flags = [true, false, true, false, false, true];
    frame(&header, &modes, &flags, &mut planes);
    Ok([total(&planes.luma), total(&planes.cb), total(&planes.cr)])
}

fn expect_totals(
    rt: &impl Abort,
    alloc: Global,
    cases: &[Case],
    borders: Borders,
) -> Result<(), Fail>
    requires { (borders.0 ≤ 64) × (borders.1 ≤ 64) × (borders.2 ≤ 64) }
{
    for case in cases {
        let totals = filtered(rt, alloc, case, borders)?;
        assert!(rt; totals == case.totals, "{} {}", case.level, case.sharpness);
    }
    Ok(())
}

#[test]
fn frames_are_as_filtered_line_by_line(rt: HostRuntime) -> Result<(), Fail> {
    expect_totals(&rt, rt.alloc(), CASES, (32, 32, 32))
}

#[test]
fn frames_with_borders_of_other_widths(rt: HostRuntime) -> Result<(), Fail> {
    expect_totals(&rt, rt.alloc(), CASES, (0, 16, 16))?;
    expect_totals(&rt, rt.alloc(), CASES, (32, 8, 64))
}

/// The totals are those that compare/filters.py prints, a plain program of RFC 6386, section 15: each
/// sharpness, levels on both sides of each threshold of high edge variance, and samples of any value,
/// most of which are clamped.
const CASES: &[Case] = &[
    Case {
        is_key: false,
        is_simple: false,
        level: 0,
        sharpness: 0,
        least: 100,
        count: 32,
        totals: [786408946, 1544107334, 364200630],
    },
    Case {
        is_key: false,
        is_simple: false,
        level: 44,
        sharpness: 3,
        least: 100,
        count: 12,
        totals: [2031546071, 4039600438, 4042443032],
    },
    Case {
        is_key: false,
        is_simple: false,
        level: 15,
        sharpness: 0,
        least: 100,
        count: 5,
        totals: [4030613884, 1550251042, 3872902944],
    },
    Case {
        is_key: true,
        is_simple: false,
        level: 44,
        sharpness: 0,
        least: 100,
        count: 32,
        totals: [4001412256, 2907775819, 3147428101],
    },
    Case {
        is_key: true,
        is_simple: false,
        level: 16,
        sharpness: 6,
        least: 100,
        count: 5,
        totals: [60536307, 2998177979, 2386045581],
    },
    Case {
        is_key: false,
        is_simple: true,
        level: 9,
        sharpness: 0,
        least: 100,
        count: 32,
        totals: [1622233841, 1544107334, 364200630],
    },
    Case {
        is_key: true,
        is_simple: true,
        level: 30,
        sharpness: 7,
        least: 100,
        count: 32,
        totals: [1571220149, 1544107334, 364200630],
    },
    Case {
        is_key: true,
        is_simple: false,
        level: 14,
        sharpness: 0,
        least: 100,
        count: 8,
        totals: [586093027, 66646957, 2022955612],
    },
    Case {
        is_key: true,
        is_simple: false,
        level: 15,
        sharpness: 1,
        least: 100,
        count: 8,
        totals: [529812735, 2200776867, 3440649561],
    },
    Case {
        is_key: true,
        is_simple: false,
        level: 39,
        sharpness: 2,
        least: 100,
        count: 12,
        totals: [4097652807, 999180964, 516880103],
    },
    Case {
        is_key: true,
        is_simple: false,
        level: 40,
        sharpness: 3,
        least: 100,
        count: 8,
        totals: [3724689025, 2666535980, 2019064568],
    },
    Case {
        is_key: true,
        is_simple: false,
        level: 63,
        sharpness: 4,
        least: 100,
        count: 8,
        totals: [1645354413, 2383333841, 1123179709],
    },
    Case {
        is_key: false,
        is_simple: false,
        level: 14,
        sharpness: 5,
        least: 100,
        count: 6,
        totals: [2682590152, 598164574, 2731040328],
    },
    Case {
        is_key: false,
        is_simple: false,
        level: 19,
        sharpness: 6,
        least: 100,
        count: 6,
        totals: [1995416575, 542247996, 2434181900],
    },
    Case {
        is_key: false,
        is_simple: false,
        level: 20,
        sharpness: 7,
        least: 100,
        count: 6,
        totals: [4179730534, 2560786097, 2667124295],
    },
    Case {
        is_key: false,
        is_simple: false,
        level: 39,
        sharpness: 0,
        least: 100,
        count: 40,
        totals: [3409012110, 1353064136, 3374449160],
    },
    Case {
        is_key: false,
        is_simple: false,
        level: 63,
        sharpness: 0,
        least: 100,
        count: 60,
        totals: [947703617, 94949045, 2739550224],
    },
    Case {
        is_key: false,
        is_simple: true,
        level: 1,
        sharpness: 0,
        least: 100,
        count: 4,
        totals: [861219478, 2011438886, 1097816822],
    },
    Case {
        is_key: true,
        is_simple: true,
        level: 63,
        sharpness: 5,
        least: 100,
        count: 90,
        totals: [3990051985, 2105251358, 10914590],
    },
    Case {
        is_key: true,
        is_simple: false,
        level: 63,
        sharpness: 0,
        least: 0,
        count: 256,
        totals: [593762426, 799672262, 3184405006],
    },
    Case {
        is_key: false,
        is_simple: false,
        level: 63,
        sharpness: 0,
        least: 0,
        count: 256,
        totals: [944169392, 799672262, 3184405006],
    },
    Case {
        is_key: true,
        is_simple: true,
        level: 63,
        sharpness: 0,
        least: 0,
        count: 256,
        totals: [2181467190, 799672262, 1114306678],
    },
    Case {
        is_key: true,
        is_simple: false,
        level: 63,
        sharpness: 0,
        least: 200,
        count: 56,
        totals: [22624441, 1901991917, 3579708983],
    },
    Case {
        is_key: true,
        is_simple: false,
        level: 63,
        sharpness: 0,
        least: 0,
        count: 40,
        totals: [1038135273, 874800930, 453971024],
    },
];
