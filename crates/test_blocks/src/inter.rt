ghost use Rattle.std.specs.Prelude.{◌≡◌, ◌<◌, ◌≤◌, IfOk};

use inter_predict::{Kind, Source, block, block_in, pair_in};
use pixel_planes::{NoMemory, Picture, Plane, Planes};
use std::alloc::Global;
use std::test::Fail;

/// The taps of RFC 6386, section 18.3, from two samples before a position to three after it.
const SIX_TAPS: [[i64; 6]; 8] = [
    [0, 0, 128, 0, 0, 0],
    [0, -6, 123, 12, -1, 0],
    [2, -11, 108, 36, -8, 1],
    [0, -9, 93, 50, -6, 0],
    [3, -16, 77, 77, -16, 3],
    [0, -6, 50, 93, -9, 0],
    [1, -8, 36, 108, -11, 2],
    [0, -1, 12, 123, -6, 0],
];

/// A plain reading of section 18.3: the sample that six samples of a line make.
fn filtered(kind: Kind, eighths: i32, samples: &[u8; 6]) -> u8 {
    let fraction = eighths.rem_euclid(8) as usize;
    let near = 16 * fraction as i64;
    let taps = match kind {
        Kind::SixTap => SIX_TAPS[fraction],
        Kind::Bilinear => [0, 0, 128 - near, near, 0, 0],
    };
    let mut sum: i64 = 64;
    for (tap, sample) in taps.iter().zip(samples) {
        sum = sum.wrapping_add(tap.wrapping_mul(i64::from(*sample)));
    }
    (sum >> 7).clamp(0, 255) as u8
}

/// A plain reading of section 18: the sample that a vector predicts at column `x` of row `y`.
fn predicted(plane: &Plane, x: i64, y: i64, vector: (i32, i32), kind: Kind) -> u8 {
    let left = x.wrapping_add(i64::from(vector.0 >> 3)).wrapping_sub(2);
    let top = y.wrapping_add(i64::from(vector.1 >> 3)).wrapping_sub(2);
    let mut column = [0; 6];
    for j in 0..6 {
        let mut row = [0; 6];
        for i in 0..6 {
            row[i] = plane.sample(left.wrapping_add(i as i64), top.wrapping_add(j as i64));
        }
        column[j] = filtered(kind, vector.0, &row);
    }
    filtered(kind, vector.1, &column)
}

/// Whether a block of these sides among samples of 7, in rows of 16, is as read plainly, and whether
/// every other sample is 7 still.
fn holds_block(out: &[u8; 256], source: Source, width: usize, height: usize) -> bool {
    let Source {
        plane,
        x,
        y,
        vector,
        kind,
    } = source;
    for row in 0..16 {
        for column in 0..16 {
            let expected = if row < height && column < width {
                let (x, y) = (i64::from(x), i64::from(y));
                predicted(plane, x + column as i64, y + row as i64, vector, kind)
            } else {
                7
            };
            if out[row * 16 + column] != expected {
                return false;
            }
        }
    }
    true
}

/// Whether `block_in` predicts a block of these sides as it is read plainly.
fn is_right(source: Source, width: usize, height: usize) -> bool
    requires wide { (0 < width) × (width ≤ 16) }
    requires high { (0 < height) × (height ≤ 16) }
{
    let mut out = [7; 256];
    block_in(source, width, height, &mut out, 16);
    holds_block(&out, source, width, height)
}

/// Whether `pair_in` predicts blocks of both planes as they are read plainly.
fn is_pair_right(source: Source, second: &Plane) -> bool {
    let mut out = [7; 256];
    let mut other = [7; 256];
    pair_in(source, second, &mut out, &mut other, 16);
    let plane = second;
    holds_block(&out, source, 8, 8) && holds_block(&other, Source { plane, ..source }, 8, 8)
}

/// A picture of 32 by 48 samples whose luma plane has this border and pseudo-random samples.
fn picture(alloc: Global, border: usize) -> Result<Picture, NoMemory>
    requires { border ≤ 64 }
{
    let mut luma = Plane::make_bordered(alloc, 32, 48, 0, border)?;
    let mut state: u32 = 12345;
    for sample in luma.samples_mut() {
        state = state.wrapping_mul(1_103_515_245).wrapping_add(12345);
        *sample = (state / 65536 % 256) as u8;
    }
    let planes = Planes {
        luma,
        cb: Plane::make(alloc, 16, 24, 0)?,
        cr: Plane::make(alloc, 16, 24, 0)?,
    };
    Picture::share(alloc, planes, 32, 48)
}

#[test]
fn all_fractions_are_as_read_plainly(rt: HostRuntime) -> Result<(), Fail> {
    let picture = picture(rt.alloc(), 32)?;
    let plane = picture.luma();
    for fractions in 0..64u32 {
        let right = (fractions % 8) as i32 - 16;
        let below = (fractions / 8) as i32 + 24;
        for kind in [Kind::SixTap, Kind::Bilinear] {
            let source = Source {
                plane,
                x: 20,
                y: 30,
                vector: (right, below),
                kind,
            };
            let holds = is_right(source, 16, 3)
                && is_right(Source { x: 3, ..source }, 8, 3)
                && is_right(Source { y: 2, ..source }, 4, 4);
            assert!(rt; holds, "{kind:?} {right} {below}");
        }
    }
    Ok(())
}

#[test]
fn all_widths_are_as_read_plainly(rt: HostRuntime) -> Result<(), Fail> {
    let picture = picture(rt.alloc(), 32)?;
    for width in 1..17 {
        let height = 17 - width;
        let source = Source {
            plane: picture.luma(),
            x: -4,
            y: 7,
            vector: (-13, 30),
            kind: Kind::SixTap,
        };
        let holds = is_right(source, width, height);
        assert!(rt; holds, "{width}");
        let source = Source {
            plane: picture.luma(),
            x: 3,
            y: 2,
            vector: (21, -37),
            kind: Kind::Bilinear,
        };
        let holds = is_right(source, width, height);
        assert!(rt; holds, "{width}");
    }
    Ok(())
}

/// A plane of 16 by 24 samples with this border and pseudo-random samples.
fn chroma_plane(alloc: Global, border: usize, seed: u32) -> Result<Plane, NoMemory>
    requires { border ≤ 64 }
    ensures { IfOk result (λ plane. (plane.shown.width ≡ 16) × (plane.shown.height ≡ 24)) }
{
    let mut plane = Plane::make_bordered(alloc, 16, 24, 0, border)?;
    let mut state = seed;
    for sample in plane.samples_mut() {
        state = state.wrapping_mul(1_103_515_245).wrapping_add(12345);
        *sample = (state / 65536 % 256) as u8;
    }
    Ok(plane)
}

/// A picture of 32 by 48 samples whose chroma planes have these borders.
fn chroma_picture(alloc: Global, border: usize, second: usize) -> Result<Picture, NoMemory>
    requires { (border ≤ 64) × (second ≤ 64) }
{
    let planes = Planes {
        luma: Plane::make(alloc, 32, 48, 0)?,
        cb: chroma_plane(alloc, border, 1)?,
        cr: chroma_plane(alloc, second, 2)?,
    };
    Picture::share(alloc, planes, 32, 48)
}

#[test]
fn pairs_are_as_read_plainly(rt: HostRuntime) -> Result<(), Fail> {
    let picture = chroma_picture(rt.alloc(), 32, 32)?;
    for fractions in 0..64u32 {
        let vector = ((fractions % 8) as i32 - 16, (fractions / 8) as i32 + 8);
        for kind in [Kind::SixTap, Kind::Bilinear] {
            let source = Source {
                plane: picture.cb(),
                x: 8,
                y: 8,
                vector,
                kind,
            };
            assert!(rt; is_pair_right(source, picture.cr()), "{kind:?} {vector:?}");
        }
    }
    Ok(())
}

/// If a block is outside a border, or the borders differ, the blocks are the same.
#[test]
fn pairs_do_not_depend_on_the_borders(rt: HostRuntime) -> Result<(), Fail> {
    for (border, second) in [(32, 31), (0, 32), (32, 0), (0, 0)] {
        let picture = chroma_picture(rt.alloc(), border, second)?;
        for vector in [(0, 0), (11, -3), (-4000, 4000), (-131, 8)] {
            let source = Source {
                plane: picture.cb(),
                x: 8,
                y: 16,
                vector,
                kind: Kind::SixTap,
            };
            assert!(rt;
                is_pair_right(source, picture.cr()),
                "{border} {second} {vector:?}"
            );
        }
    }
    Ok(())
}

/// If the border is too narrow, or out of date, the block is the same.
#[test]
fn blocks_do_not_depend_on_the_border(rt: HostRuntime) -> Result<(), Fail> {
    let bordered = picture(rt.alloc(), 32)?;
    for border in [0, 1, 64] {
        let other = picture(rt.alloc(), border)?;
        for vector in [(0, 0), (-4000, 4000), (63, -63), (-131, 40)] {
            for kind in [Kind::SixTap, Kind::Bilinear] {
                let mut one = [1; 256];
                let mut two = [2; 256];
                block(bordered.luma(), 16, 16, vector, kind, 16, 16, &mut one);
                block(other.luma(), 16, 16, vector, kind, 16, 16, &mut two);
                assert_eq!(rt; one.as_slice(), two.as_slice(), "{border} {vector:?}");
            }
        }
    }
    Ok(())
}

/// A plane whose rows were written and not shared yet has no border: its samples are read one at a
/// time.
#[test]
fn a_plane_being_written_is_read(rt: HostRuntime) -> Result<(), Fail> {
    let mut plane = Plane::make(rt.alloc(), 16, 16, 9)?;
    plane.row_mut(0).fill(200);
    let source = Source {
        plane: &plane,
        x: 0,
        y: 0,
        vector: (3, -5),
        kind: Kind::SixTap,
    };
    assert!(rt; is_right(source, 16, 16));
    let source = Source {
        plane: &plane,
        x: -7,
        y: 5,
        vector: (2, 2),
        kind: Kind::Bilinear,
    };
    assert!(rt; is_right(source, 5, 9));
    Ok(())
}

#[test]
fn places_far_outside_repeat_the_corners(rt: HostRuntime) -> Result<(), Fail> {
    let picture = picture(rt.alloc(), 32)?;
    let plane = picture.luma();
    for kind in [Kind::SixTap, Kind::Bilinear] {
        for (place, column) in [(i32::MIN, 0), (i32::MAX, 31)] {
            for (other, row) in [(i32::MIN, 0), (i32::MAX, 47)] {
                let mut out = [0; 256];
                block(plane, place, other, (place, other), kind, 16, 16, &mut out);
                assert_eq!(rt; out.as_slice(), [plane.sample(column, row); 256].as_slice());
            }
        }
    }
    Ok(())
}

/// A plane of these samples.
fn plane_of(alloc: Global, width: usize, height: usize, samples: &[u8]) -> Result<Plane, NoMemory>
    requires wide { (0 < width) × (width ≤ 16384) }
    requires high { (0 < height) × (height ≤ 16384) }
{
    let mut plane = Plane::make(alloc, width, height, 0)?;
    for (to, from) in plane.samples_mut().iter_mut().zip(samples) {
        *to = *from;
    }
    Ok(plane)
}

/// Half a sample to the right: 64 * 255 / 128 = 127.5 is rounded up, -13 * 255 / 128 is clamped at
/// 0 and 154 * 255 / 128 at 255.
#[test]
fn rows_are_as_worked_by_hand(rt: HostRuntime) -> Result<(), Fail> {
    for (row, sample) in [
        ([0, 0, 0, 255, 255, 255], 128),
        ([255, 255, 0, 0, 0, 0], 0),
        ([0, 0, 255, 255, 0, 0], 255),
    ] {
        let plane = plane_of(rt.alloc(), 6, 1, &row)?;
        let mut out = [1];
        block(&plane, 2, 0, (4, 0), Kind::SixTap, 1, 1, &mut out);
        assert_eq!(rt; out, [sample]);
    }
    Ok(())
}

/// A picture of 32 by 32 samples whose luma plane repeats six columns and six rows of 0 and 255: the
/// filters of these fractions have their greatest sums in it, or their least.
fn picture_of_extremes(
    alloc: Global,
    right: usize,
    below: usize,
    is_greatest: bool,
) -> Result<Picture, NoMemory>
    requires { (right < 8) × (below < 8) }
{
    let mut luma = Plane::make_bordered(alloc, 32, 32, 0, 32)?;
    for (place, sample) in luma.samples_mut().iter_mut().enumerate() {
        let (x, y) = (place % 32 % 6, place / 32 % 6);
        let row_is_greatest = (SIX_TAPS[below][y] > 0) == is_greatest;
        if (SIX_TAPS[right][x] > 0) == row_is_greatest {
            *sample = 255;
        }
    }
    let planes = Planes {
        luma,
        cb: Plane::make(alloc, 16, 16, 0)?,
        cr: Plane::make(alloc, 16, 16, 0)?,
    };
    Picture::share(alloc, planes, 32, 32)
}

/// Where each sample is 255 or 0 by the sign of its tap, the sums of both filters are at their greatest
/// and their least, and are clamped. The taps of column 14 begin at column 12, a multiple of six.
#[test]
fn extreme_sums_are_clamped(rt: HostRuntime) -> Result<(), Fail> {
    for fractions in 0..64 {
        let (right, below) = (fractions % 8, fractions / 8);
        for (is_greatest, expected) in [(true, 255), (false, 0)] {
            let picture = picture_of_extremes(rt.alloc(), right, below, is_greatest)?;
            let source = Source {
                plane: picture.luma(),
                x: 14,
                y: 14,
                vector: (right as i32, below as i32),
                kind: Kind::SixTap,
            };
            let mut out = [7; 16];
            block_in(source, 16, 1, &mut out, 16);
            assert_eq!(rt; out[0], expected, "{right} {below}");
            let holds = is_right(source, 16, 2) && is_right(source, 8, 2) && is_right(source, 4, 2);
            assert!(rt; holds, "{right} {below} {is_greatest}");
        }
    }
    Ok(())
}

/// Blocks of more than 16 columns or rows are made in pieces, and those without samples are empty.
#[test]
fn large_blocks_are_as_read_plainly(rt: HostRuntime) -> Result<(), Fail> {
    let picture = picture(rt.alloc(), 32)?;
    let plane = picture.luma();
    for (width, height) in [(40, 21), (21, 40), (840, 1), (1, 840)] {
        let mut out = [7; 840];
        block(
            plane,
            -5,
            30,
            (13, -21),
            Kind::SixTap,
            width,
            height,
            &mut out,
        );
        for (index, sample) in out.iter().enumerate() {
            let (column, row) = (index % width, index / width);
            let (x, y) = (-5 + column as i64, 30 + row as i64);
            let expected = predicted(plane, x, y, (13, -21), Kind::SixTap);
            assert_eq!(rt; *sample, expected, "{width} {column} {row}");
        }
    }
    block(plane, 3, 4, (5, 6), Kind::Bilinear, 0, 9, &mut []);
    block(plane, 3, 4, (5, 6), Kind::Bilinear, 9, 0, &mut []);
    Ok(())
}
