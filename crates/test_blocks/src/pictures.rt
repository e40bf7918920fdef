ghost use Rattle.std.specs.Prelude.{◌<◌, ◌≤◌, length};

use pixel_planes::{Component, NoMemory, Picture, Plane, Planes, Recycled, same};
use std::alloc::Global;
use std::process::Abort;
use std::test::Fail;

/// A picture of one macroblock, each component of one value.
fn one_macroblock(alloc: Global, luma: u8, cb: u8, cr: u8) -> Result<Picture, NoMemory> {
    let planes = Planes {
        luma: Plane::make(alloc, 16, 16, luma)?,
        cb: Plane::make(alloc, 8, 8, cb)?,
        cr: Plane::make(alloc, 8, 8, cr)?,
    };
    Picture::share(alloc, planes, 16, 16)
}

/// Whether the span of these samples begins at this position.
fn has_span(plane: &Plane, x: i64, y: i64, samples: &[u8]) -> bool
    requires { 0 < length samples.now }
{
    plane.span(x, y, samples.len()) == Some(samples)
}

/// A picture of one shown sample, whose luma row 0 is 7.
fn one_sample(alloc: Global) -> Result<Picture, NoMemory> {
    let mut luma = Plane::make(alloc, 16, 16, 128)?;
    luma.row_mut(0).fill(7);
    let planes = Planes {
        luma,
        cb: Plane::make(alloc, 8, 8, 9)?,
        cr: Plane::make(alloc, 8, 8, 11)?,
    };
    Picture::share(alloc, planes, 1, 1)
}

/// Whether a picture shows one sample of each component, with these values.
fn shows_only(picture: &Picture, luma: u8, cb: u8, cr: u8) -> bool {
    picture.width() == 1
        && picture.height() == 1
        && picture.shown_row(Component::Luma, 0) == [luma].as_slice()
        && picture.shown_row(Component::Cb, 0) == [cb].as_slice()
        && picture.shown_row(Component::Cr, 0) == [cr].as_slice()
}

#[test]
fn one_sample_of_a_macroblock_is_shown(rt: HostRuntime) -> Result<(), Fail> {
    let picture = one_sample(rt.alloc())?;
    assert!(rt; shows_only(&picture, 7, 9, 11));
    assert_eq!(rt; picture.luma().row(0), [7; 16].as_slice());
    assert_eq!(rt; picture.luma().row(1), [128; 16].as_slice());
    Ok(())
}

#[test]
fn planes_of_a_picture_have_their_border(rt: HostRuntime) -> Result<(), Fail> {
    let picture = one_macroblock(rt.alloc(), 1, 2, 3)?;
    assert!(rt; has_span(picture.luma(), -32, 47, &[1; 80]));
    assert!(rt; has_span(picture.cb(), -32, -32, &[2; 72]));
    assert!(rt; has_span(picture.cr(), 39, 39, &[3]));
    Ok(())
}

/// Values of a picture of one macroblock that differ from 1, 2 and 3 in one component.
const OTHERS: [(u8, u8, u8); 3] = [(9, 2, 3), (1, 9, 3), (1, 2, 9)];

/// Whether a picture equals one of these values.
fn is_same(alloc: Global, picture: &Picture, values: (u8, u8, u8)) -> Result<bool, NoMemory> {
    let other = one_macroblock(alloc, values.0, values.1, values.2)?;
    Ok(same(picture, &other))
}

/// Whether a picture equals itself, taken again.
fn is_same_again(picture: &Picture) -> Result<bool, NoMemory> {
    let again = picture.again()?;
    Ok(same(picture, &again))
}

/// Checks that a picture equals one of values 1, 2 and 3, and none of the others.
fn expect_same<R: Abort>(rt: &R, alloc: Global, picture: &Picture) -> Result<(), NoMemory> {
    assert!(rt; is_same_again(picture)?);
    assert!(rt; is_same(alloc, picture, (1, 2, 3))?);
    for values in OTHERS {
        assert!(rt; !is_same(alloc, picture, values)?);
    }
    Ok(())
}

#[test]
fn pictures_are_the_same_in_every_component(rt: HostRuntime) -> Result<(), Fail> {
    let picture = one_macroblock(rt.alloc(), 1, 2, 3)?;
    Ok(expect_same(&rt, rt.alloc(), &picture)?)
}

/// A picture of one macroblock of values 1, 2 and 3, whose last column is not shown.
fn narrow(alloc: Global) -> Result<Picture, NoMemory> {
    let planes = Planes {
        luma: Plane::make(alloc, 16, 16, 1)?,
        cb: Plane::make(alloc, 8, 8, 2)?,
        cr: Plane::make(alloc, 8, 8, 3)?,
    };
    Picture::share(alloc, planes, 15, 16)
}

#[test]
fn pictures_of_two_shown_sizes_are_not_the_same(rt: HostRuntime) -> Result<(), Fail> {
    let narrow = narrow(rt.alloc())?;
    assert!(rt; !is_same(rt.alloc(), &narrow, (1, 2, 3))?);
    Ok(())
}

/// Whether these planes are 0 and have these sides, with a border that is up to date.
fn are_zeros(planes: &Planes, luma: &Plane, chroma: &Plane) -> bool {
    planes.luma.same(luma)
        && planes.cb.same(chroma)
        && planes.cr.same(chroma)
        && has_span(&planes.luma, -32, -32, &[0; 64])
        && has_span(&planes.cb, -32, 39, &[0; 72])
        && has_span(&planes.cr, 39, 39, &[0])
}

/// Whether planes are 0, with a border that is up to date, for this many macroblocks each way.
fn are_zeros_of(planes: &Planes, alloc: Global, side: usize) -> Result<bool, NoMemory>
    requires { (0 < side) × (side ≤ 1024) }
{
    let luma = Plane::make(alloc, 16 * side, 16 * side, 0)?;
    let chroma = Plane::make(alloc, 8 * side, 8 * side, 0)?;
    Ok(are_zeros(planes, &luma, &chroma))
}

/// Whether the recycled planes, made again for this many macroblocks each way, have these sides and
/// are 0, with a border that is up to date.
fn makes_zeros(recycled: &mut Recycled, alloc: Global, side: usize) -> Result<bool, NoMemory>
    requires { (0 < side) × (side ≤ 1024) }
{
    let planes = recycled.make_zero_planes(alloc, side, side)?;
    are_zeros_of(&planes, alloc, side)
}

/// Puts a picture to the recycled planes.
fn put_one(recycled: &mut Recycled, alloc: Global) -> Result<(), NoMemory> {
    let picture = one_macroblock(alloc, 7, 8, 9)?;
    recycled.put(picture);
    Ok(())
}

#[test]
fn spare_planes_are_made_again(rt: HostRuntime) -> Result<(), Fail> {
    let mut recycled = Recycled::new();
    expect_made_again(&rt, rt.alloc(), &mut recycled)
}

fn expect_made_again<R: Abort>(rt: &R, alloc: Global, recycled: &mut Recycled) -> Result<(), Fail> {
    assert!(rt; makes_zeros(recycled, alloc, 1)?);
    for side in [1, 1, 2, 1] {
        put_one(recycled, alloc)?;
        assert!(rt; makes_zeros(recycled, alloc, side)?);
    }
    Ok(())
}

/// Recycled planes to which a picture was put that is still shared.
fn spare_of_shared(picture: &Picture) -> Result<Recycled, NoMemory> {
    let mut recycled = Recycled::new();
    recycled.put(picture.again()?);
    Ok(recycled)
}

/// Planes taken from the recycled ones, with other samples in row 0.
fn written_planes(recycled: &mut Recycled, alloc: Global) -> Result<Planes, NoMemory> {
    let mut planes = recycled.make_zero_planes(alloc, 1, 1)?;
    planes.luma.row_mut(0).fill(1);
    Ok(planes)
}

#[test]
fn planes_of_a_shared_picture_are_no_spare_ones(rt: HostRuntime) -> Result<(), Fail> {
    let picture = one_macroblock(rt.alloc(), 7, 8, 9)?;
    assert!(rt; keeps_its_samples(rt.alloc(), &picture)?);
    Ok(())
}

/// Whether a picture keeps its samples if it is put to recycled planes while it is shared.
fn keeps_its_samples(alloc: Global, picture: &Picture) -> Result<bool, NoMemory> {
    let mut recycled = spare_of_shared(picture)?;
    let _planes = written_planes(&mut recycled, alloc)?;
    is_same(alloc, picture, (7, 8, 9))
}
