ghost use Rattle.std.specs.Prelude.{◌≡◌, ◌<◌, ◌≤◌, length};

use pixel_planes::{NoMemory, Picture, Plane, Planes};
use std::alloc::Global;
use std::process::Abort;
use std::test::Fail;

/// Writes 1, 2, 3 and so on, and 0 after 255.
fn number(samples: &mut [u8]) {
    let mut number = 0u8;
    for sample in samples {
        number = number.wrapping_add(1);
        *sample = number;
    }
}

/// A plane whose samples are 1, 2, 3 and so on, row by row.
fn numbered(alloc: Global, width: usize, height: usize, border: usize) -> Result<Plane, NoMemory>
    requires wide { (0 < width) × (width ≤ 16384) }
    requires high { (0 < height) × (height ≤ 16384) }
    requires border { border ≤ 64 }
{
    let mut plane = Plane::make_bordered(alloc, width, height, 0, border)?;
    number(plane.samples_mut());
    Ok(plane)
}

/// How the samples of a plane are written.
#[derive(Clone, Copy, Debug)]
enum Way {
    /// All of them, row directly after row.
    Samples,
    /// All of them, with the border's between the rows.
    Rows,
    /// The first way, and then row 1 by the second one.
    SamplesThenRows,
    /// The second way, and then row 1 alone.
    RowsThenRow,
}

const WAYS: [Way; 4] = [
    Way::Samples,
    Way::Rows,
    Way::SamplesThenRows,
    Way::RowsThenRow,
];

/// Row 1 of a numbered plane of 16 by 16 samples.
const SECOND: [u8; 16] = [
    17, 18, 19, 20, 21, 22, 23, 24, 25, 26, 27, 28, 29, 30, 31, 32,
];

/// Writes 1, 2, 3 and so on over the first 16 samples of each row, and 255 over the others.
fn number_rows(rows: &mut [u8], stride: usize)
    requires { 0 < stride }
{
    rows.fill(255);
    let mut number = 0u8;
    for row in rows.chunks_exact_mut(stride) {
        for sample in row.iter_mut().take(16) {
            number = number.wrapping_add(1);
            *sample = number;
        }
    }
}

/// Numbers a plane of 16 by 16 samples.
fn write(plane: &mut Plane, way: Way)
    requires { (plane.old.shown.width ≡ 16) × (plane.old.shown.height ≡ 16) }
    ensures { (plane.new.shown.width ≡ 16) × (plane.new.shown.height ≡ 16) }
{
    let stride = plane.stride();
    match way {
        Way::Samples => number(plane.samples_mut()),
        Way::Rows => number_rows(plane.rows_mut(), stride),
        Way::SamplesThenRows => {
            number(plane.samples_mut());
            plane.samples_mut()[16..32].fill(0);
            plane.rows_mut()[stride..stride + 16].copy_from_slice(&SECOND);
        }
        Way::RowsThenRow => {
            number_rows(plane.rows_mut(), stride);
            plane.rows_mut()[stride..stride + 16].fill(0);
            plane.row_mut(1).copy_from_slice(&SECOND);
        }
    }
}

/// A picture of one macroblock whose luma plane is numbered in this way and has this border.
fn numbered_picture(alloc: Global, border: usize, way: Way) -> Result<Picture, NoMemory>
    requires { border ≤ 64 }
{
    let mut luma = Plane::make_bordered(alloc, 16, 16, 0, border)?;
    write(&mut luma, way);
    let planes = Planes {
        luma,
        cb: Plane::make(alloc, 8, 8, 0)?,
        cr: Plane::make(alloc, 8, 8, 0)?,
    };
    Picture::share(alloc, planes, 16, 16)
}

/// The number in a numbered plane of 16 by 16 samples, or the edge's.
fn number_at(x: i64, y: i64) -> i64 {
    y.clamp(0, 15)
        .wrapping_mul(16)
        .wrapping_add(x.clamp(0, 15))
        .wrapping_add(1)
        % 256
}

/// Whether the span of these samples begins at this position.
fn has_span(plane: &Plane, x: i64, y: i64, samples: &[u8]) -> bool
    requires { 0 < length samples.now }
{
    plane.span(x, y, samples.len()) == Some(samples)
}

/// Whether there is a span of `n` samples at this position.
fn is_within(plane: &Plane, x: i64, y: i64, n: usize) -> bool
    requires { 0 < n }
{
    plane.span(x, y, n).is_some()
}

/// Whether a window of two rows begins with these samples.
fn has_window(plane: &Plane, x: i64, y: i64, rows: [[u8; 5]; 2]) -> bool {
    match plane.window(x, y, 5, 2) {
        None => false,
        Some(window) => {
            window.samples.starts_with(&rows[0])
                && window.samples.get(window.stride..) == Some(rows[1].as_slice())
        }
    }
}

/// Whether there is a span outside the border of 32 of a plane of 16 by 16 samples.
fn leaves_the_border(plane: &Plane) -> bool {
    is_within(plane, -32, -32, 81)
        || is_within(plane, -33, 0, 1)
        || is_within(plane, 48, 0, 1)
        || is_within(plane, 0, -33, 1)
        || is_within(plane, 0, 48, 1)
        || is_within(plane, i64::MIN, 0, 1)
        || is_within(plane, 0, i64::MAX, 1)
        || is_within(plane, 0, 0, usize::MAX)
}

/// Whether every span of one sample of a numbered plane, in it and in its border, is that sample,
/// and no span leaves the border.
fn spans_are_samples(plane: &Plane, border: usize) -> bool
    requires { border ≤ 64 }
{
    let side = border as i64;
    for y in -side..16 + side {
        for x in -side..16 + side {
            let sample = plane.sample(x, y);
            if i64::from(sample) != number_at(x, y) || !has_span(plane, x, y, &[sample]) {
                return false;
            }
        }
    }
    !is_within(plane, -side - 1, 0, 1) && !is_within(plane, -side, 0, 17 + 2 * border)
}

/// Whether rows, windows and spans of a plane are those of a numbered one.
fn is_numbered(plane: &Plane, border: usize) -> bool
    requires { border ≤ 64 }
{
    let last = [[236, 237, 238, 239, 240], [252, 253, 254, 255, 0]];
    plane.height() == 16
        && plane.row(1) == SECOND.as_slice()
        && has_window(plane, 11, 14, last)
        && spans_are_samples(plane, border)
}

#[test]
fn samples_are_the_same_in_whatever_way_they_are_written(rt: HostRuntime) -> Result<(), Fail> {
    for way in WAYS {
        for border in [0, 1, 32, 64] {
            let picture = numbered_picture(rt.alloc(), border, way)?;
            assert!(rt; is_numbered(picture.luma(), border), "{way:?} {border}");
        }
    }
    Ok(())
}

#[test]
fn a_window_has_the_samples_of_its_rows(rt: HostRuntime) -> Result<(), Fail> {
    let picture = numbered_picture(rt.alloc(), 32, Way::Rows)?;
    let rows = [[1, 1, 2, 3, 4], [17, 17, 18, 19, 20]];
    assert!(rt; has_window(picture.luma(), -1, 0, rows));
    Ok(())
}

#[test]
fn a_span_ends_with_the_border(rt: HostRuntime) -> Result<(), Fail> {
    let mut plane = Plane::make_bordered(rt.alloc(), 16, 16, 5, 32)?;
    let has_all = plane.border() == 32 && has_span(&plane, -32, -32, &[5; 80]);
    assert!(rt; has_all && !leaves_the_border(&plane));
    plane.row_mut(0).fill(6);
    let has_none = !is_within(&plane, 0, 0, 1) && plane.window(0, 0, 1, 1).is_none();
    assert!(rt; has_none && !plane.is_current());
    Ok(())
}

/// Samples far outside a plane of 3 by 2 samples, and one in it.
const FAR: &[(i64, i64, u8)] = &[
    (i64::MIN, i64::MIN, 1),
    (i64::MAX, i64::MIN, 3),
    (i64::MIN, i64::MAX, 4),
    (i64::MAX, i64::MAX, 6),
    (1, 1, 5),
];

fn expect_samples<R: Abort>(rt: &R, plane: &Plane, samples: &[(i64, i64, u8)]) {
    for (x, y, sample) in samples {
        assert!(rt; plane.sample(*x, *y) == *sample, "{x} {y}");
    }
}

#[test]
fn samples_far_outside_are_those_of_the_edge(rt: HostRuntime) -> Result<(), Fail> {
    let plane = numbered(rt.alloc(), 3, 2, 32)?;
    expect_samples(&rt, &plane, FAR);
    Ok(())
}

/// Inverts the highest bit of one sample.
fn turn(plane: &mut Plane, place: usize) {
    if let Some(sample) = plane.samples_mut().get_mut(place) {
        *sample ^= 128;
    }
}

/// Whether a plane equals another one, and no longer once one sample of that differs.
fn differ_in_one_sample(plane: &Plane, other: &mut Plane, count: usize) -> bool {
    for place in 0..count {
        if !plane.same(other) {
            return false;
        }
        turn(other, place);
        if plane.same(other) {
            return false;
        }
        turn(other, place);
    }
    true
}

#[test]
fn planes_that_differ_in_one_sample_are_not_the_same(rt: HostRuntime) -> Result<(), Fail> {
    let alloc = rt.alloc();
    for width in 1..41 {
        let plane = numbered(alloc, width, 2, 0)?;
        let mut other = numbered(alloc, width, 2, 32)?;
        assert!(rt;
            differ_in_one_sample(&plane, &mut other, 2 * width),
            "{width}"
        );
        let wide = numbered(alloc, width + 1, 2, 0)?;
        let high = numbered(alloc, width, 3, 0)?;
        assert!(rt; !plane.same(&wide) && !plane.same(&high), "{width}");
    }
    Ok(())
}
