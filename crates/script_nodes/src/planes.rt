//! Makes the planes of a cropped and of a faded picture.
ghost use Rattle.std.specs.Prelude.{◌≡◌, ◌<◌, ◌≤◌, true, IfOk};
ghost use Rattle.pixel_planes.specs.Pictures.{IsWholePicture, side_of};
ghost use Rattle.script_nodes.specs.Shown.{is_inside, position_in, black, cut_to, faded_to, shown_in};
ghost use Rattle.script_nodes.specs.Planes.{block_side, IsCodedPlane, HasRows};

use crate::nodes::Area;
use crate::rows::{copy_row, fade_row};
use pixel_planes::{Component, NoMemory, Picture, Plane};
use std::alloc::Global;

/// The width and height of a macroblock in this component.
fn block_side(component: Component) -> usize
    ensures value { result ≡ block_side component }
    ensures small { (0 < result) × (result ≤ 16) }
{
    match component {
        Component::Luma => 16,
        Component::Cb | Component::Cr => 8,
    }
}

/// A luma width or height in this component: half of it in chroma, rounded up.
fn side_of(component: Component, side: usize) -> usize
    requires { side ≤ 16383 }
    ensures { result ≡ side_of component side }
{
    match component {
        Component::Luma => side,
        Component::Cb | Component::Cr => side.div_ceil(2),
    }
}

/// A luma position in this component: half of it in chroma.
fn position_in(component: Component, place: usize) -> usize
    ensures { result ≡ position_in component place }
{
    match component {
        Component::Luma => place,
        Component::Cb | Component::Cr => place / 2,
    }
}

/// The sample of a black picture.
fn black(component: Component) -> u8
    ensures { result ≡ black component }
{
    match component {
        Component::Luma => 16,
        Component::Cb | Component::Cr => 128,
    }
}

/// A plane of the coded size of this component of a picture of this shown size. It has no border, since
/// nothing is predicted from it.
fn blank(
    alloc: Global,
    component: Component,
    width: usize,
    height: usize,
) -> Result<Plane, NoMemory>
    requires wide { (0 < width) × (width ≤ 16383) }
    requires high { (0 < height) × (height ≤ 16383) }
    ensures { IfOk result (IsCodedPlane component width height) }
{
    let side = block_side(component);
    Plane::make_bordered(
        alloc,
        side * width.div_ceil(16),
        side * height.div_ceil(16),
        0,
        0,
    )
}

/// A component of an area inside a picture.
pub(crate) fn cut_plane(
    alloc: Global,
    picture: &Picture,
    component: Component,
    area: &Area,
) -> Result<Plane, NoMemory>
    requires inside { is_inside area.now picture.now.width picture.now.height ≡ true }
    requires wide { (0 < area.now.width) × (area.now.width ≤ 16383) }
    requires high { (0 < area.now.height) × (area.now.height ≤ 16383) }
    ensures { IfOk result (HasRows component area.now.width area.now.height ((cut_to area.now (shown_in picture.now)).sample component) (side_of component area.now.height)) }
{
    picture.prove_whole();
    let mut plane = blank(alloc, component, area.width as usize, area.height as usize)?;
    let left = position_in(component, area.x as usize);
    let top = position_in(component, area.y as usize);
    let width = side_of(component, area.width as usize);
    for y in 0..side_of(component, area.height as usize) {
        copy_row(
            picture.shown_row(component, top + y),
            left,
            width,
            plane.row_mut(y),
        );
    }
    Ok(plane)
}

/// A component of a picture at a weight in 256ths, at most 256.
pub(crate) fn faded_plane(
    alloc: Global,
    picture: &Picture,
    component: Component,
    weight: u16,
) -> Result<Plane, NoMemory>
    requires { weight ≤ 256 }
    ensures { IfOk result (HasRows component picture.now.width picture.now.height ((faded_to weight (shown_in picture.now)).sample component) (side_of component picture.now.height)) }
{
    let width = usize::from(picture.width());
    let height = usize::from(picture.height());
    let mut plane = blank(alloc, component, width, height)?;
    let dark = black(component);
    for y in 0..side_of(component, height) {
        let row = picture.shown_row(component, y);
        fade_row(row, weight, dark, plane.row_mut(y));
    }
    Ok(plane)
}
