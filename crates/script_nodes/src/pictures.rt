//! Makes the pictures of traces.
ghost use Rattle.std.specs.Prelude.{◌≡◌, ◌<◌, ◌≤◌, [], true, IfOk, IfErr, IsSome};
ghost use Rattle.script_nodes.specs.Shown.{Shows, shown_in, cut_to, faded_to, is_inside, step_shown, step_size, steps_shown};
ghost use Rattle.script_nodes.specs.Planes.{ShowsMade, RefusesMade};
ghost use Rattle.script_nodes.specs.Traces.{IsStep};

use crate::faults::ApplyFault;
use crate::nodes::Area;
use crate::planes::{cut_plane, faded_plane};
use crate::traces::{Step, Trace};
use pixel_planes::{Component, NoMemory, Picture, Planes};
use std::alloc::Global;

/// An area of a picture, inside it.
fn cut(alloc: Global, picture: &Picture, area: &Area) -> Result<Picture, NoMemory>
    requires inside { is_inside area.now picture.now.width picture.now.height ≡ true }
    requires wide { (0 < area.now.width) × (area.now.width ≤ 16383) }
    requires high { (0 < area.now.height) × (area.now.height ≤ 16383) }
    ensures { IfOk result (λ made. Shows made (cut_to area.now (shown_in picture.now))) }
{
    let planes = Planes {
        luma: cut_plane(alloc, picture, Component::Luma, area)?,
        cb: cut_plane(alloc, picture, Component::Cb, area)?,
        cr: cut_plane(alloc, picture, Component::Cr, area)?,
    };
    Picture::share(alloc, planes, area.width as u16, area.height as u16)
}

/// A picture at a weight in 256ths, at most 256.
fn fade(alloc: Global, picture: &Picture, weight: u16) -> Result<Picture, NoMemory>
    requires { weight ≤ 256 }
    ensures { IfOk result (λ made. Shows made (faded_to weight (shown_in picture.now))) }
{
    let planes = Planes {
        luma: faded_plane(alloc, picture, Component::Luma, weight)?,
        cb: faded_plane(alloc, picture, Component::Cb, weight)?,
        cr: faded_plane(alloc, picture, Component::Cr, weight)?,
    };
    Picture::share(alloc, planes, picture.width(), picture.height())
}

/// A step applied to a picture, when its area is inside it.
fn stepped(alloc: Global, picture: &Picture, step: &Step) -> Result<Picture, NoMemory>
    requires allowed { IsStep step.now }
    requires inside { IsSome (step_size step.now (picture.now.width, picture.now.height)) }
    ensures { IfOk result (ShowsMade (step_shown step.now (shown_in picture.now))) }
{
    match step {
        Step::Cut(area) => cut(alloc, picture, area),
        Step::Weigh(weight) => fade(alloc, picture, *weight),
    }
}

/// The steps of a trace applied to a picture in sequence.
///
/// Without steps it is the same picture, whose planes are shared, and no memory is taken.
/// Its coded samples outside the shown size are left open. `CropOutside` if a crop
/// reaches past the size of its picture, and otherwise `NoMemory` if the memory of a plane or of its shared block
/// is refused, or a plane of the picture cannot be shared again.
pub fn apply(alloc: Global, picture: &Picture, trace: &Trace) -> Result<Picture, ApplyFault>
    ensures shown { IfOk result (ShowsMade (steps_shown trace.now (shown_in picture.now))) }
    ensures same { trace.now ≡ [] → IfOk result (λ made. made ≡ picture.now) }
    ensures refused { IfErr result (RefusesMade (steps_shown trace.now (shown_in picture.now))) }
{
    if trace.size(picture.width(), picture.height()).is_err() {
        return Err(ApplyFault::CropOutside);
    }
    let Ok(mut made) = picture.again() else {
        return Err(ApplyFault::NoMemory);
    };
    for step in trace.steps() {
        let Ok(next) = stepped(alloc, &made, step) else {
            return Err(ApplyFault::NoMemory);
        };
        made = next;
    }
    Ok(made)
}
