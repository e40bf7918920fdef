//! The planes of dropped pictures, whose memory is used again.

ghost use Rattle.std.specs.Prelude.{◌≡◌, ◌*◌, ◌<◌, ◌≤◌, ◌↔◌, IfOk, IfSome, IsTrue};
ghost use Rattle.pixel_planes.specs.Samples.{IsWhole, uniform};
ghost use Rattle.pixel_planes.specs.Pictures.{HasBlocks};
ghost use Rattle.pixel_planes.specs.PlaneSamples.{AreWhole, shown_of, zero_planes};

use crate::NoMemory;
use crate::pictures::{Picture, Planes};
use crate::planes::Plane;
use std::alloc::Global;
use std::marker::Model;

/// The planes of two dropped pictures, of one, or none. The next pictures of the same size are made
/// in their memory, without the allocations and the page faults of fresh planes.
///
/// A frame that replaces a reference leaves two pictures that nobody needs, and another frame leaves
/// none. No contract sees which planes they are: nothing that is made of them depends on it.
#[derive(Debug, Drop)]
pub struct Recycled {
    latest: Option<Planes>,
    earlier: Option<Planes>,
}

impl Model for Recycled {
    ghost Value = { Unit {0} };

    ghost view = { λ _. tt };
}

impl Recycled {
    /// No planes.
    pub fn new() -> Recycled {
        Recycled {
            latest: None,
            earlier: None,
        }
    }

    /// Drops a picture. If no other picture shares its planes, they are recycled ones from now on, and
    /// so are those that were the latest before.
    pub fn put(&mut self, picture: Picture) {
        if let Some(planes) = picture.into_planes() {
            self.earlier = self.latest.replace(planes);
        }
    }

    /// Takes the latest planes of this many macroblocks each way. If those have another size, all
    /// recycled planes are dropped.
    fn take(&mut self, columns: usize, rows: usize) -> Option<Planes>
        requires { (columns ≤ 1024) × (rows ≤ 1024) }
        ensures luma { IfSome result (λ planes. HasBlocks planes.luma.shown 16 columns rows) }
        ensures cb { IfSome result (λ planes. HasBlocks planes.cb.shown 8 columns rows) }
        ensures cr { IfSome result (λ planes. HasBlocks planes.cr.shown 8 columns rows) }
    {
        let planes = with_size(self.latest.take(), columns, rows);
        let earlier = self.earlier.take();
        if planes.is_some() {
            self.latest = earlier;
        }
        planes
    }

    /// Makes the planes of a picture of `columns` by `rows` macroblocks, 1 to 1,024 each way. What
    /// their samples are is not known: they are to be written before they are read.
    ///
    /// They are recycled planes if there are any of that size, which takes no memory. Recycled planes of
    /// another size are dropped first. `NoMemory` if the block of a plane is refused.
    pub fn make_planes(
        &mut self,
        alloc: Global,
        columns: usize,
        rows: usize,
    ) -> Result<Planes, NoMemory>
        requires wide { (0 < columns) × (columns ≤ 1024) }
        requires high { (0 < rows) × (rows ≤ 1024) }
        ensures { IfOk result (λ planes. AreWhole columns rows (shown_of planes)) }
    {
        match self.take(columns, rows) {
            Some(mut planes) => {
                give_up_samples(&mut planes);
                Ok(planes)
            }
            None => fresh(alloc, columns, rows),
        }
    }

    /// The same with all their samples 0.
    pub fn make_zero_planes(
        &mut self,
        alloc: Global,
        columns: usize,
        rows: usize,
    ) -> Result<Planes, NoMemory>
        requires wide { (0 < columns) × (columns ≤ 1024) }
        requires high { (0 < rows) × (rows ≤ 1024) }
        ensures { IfOk result (λ planes. shown_of planes ≡ zero_planes columns rows) }
    {
        match self.take(columns, rows) {
            Some(mut planes) => {
                clear(&mut planes);
                Ok(planes)
            }
            None => fresh(alloc, columns, rows),
        }
    }
}

/// Makes planes of their own memory, whose samples are all 0.
fn fresh(alloc: Global, columns: usize, rows: usize) -> Result<Planes, NoMemory>
    requires wide { (0 < columns) × (columns ≤ 1024) }
    requires high { (0 < rows) × (rows ≤ 1024) }
    ensures { IfOk result (λ planes. shown_of planes ≡ zero_planes columns rows) }
{
    Ok(Planes {
        luma: Plane::make(alloc, 16 * columns, 16 * rows, 0)?,
        cb: Plane::make(alloc, 8 * columns, 8 * rows, 0)?,
        cr: Plane::make(alloc, 8 * columns, 8 * rows, 0)?,
    })
}

/// Whether a plane has this many squares of these sides each way.
fn has_squares(plane: &Plane, side: usize, columns: usize, rows: usize) -> bool
    requires side { side ≤ 16 }
    requires few { (columns ≤ 1024) × (rows ≤ 1024) }
    ensures { IsTrue result ↔ HasBlocks plane.now.shown side columns rows }
{
    plane.width() == side * columns && plane.height() == side * rows
}

/// The planes if they are those of a picture of this many macroblocks. Otherwise they are dropped.
fn with_size(planes: Option<Planes>, columns: usize, rows: usize) -> Option<Planes>
    requires { (columns ≤ 1024) × (rows ≤ 1024) }
    ensures luma { IfSome result (λ planes. HasBlocks planes.luma.shown 16 columns rows) }
    ensures cb { IfSome result (λ planes. HasBlocks planes.cb.shown 8 columns rows) }
    ensures cr { IfSome result (λ planes. HasBlocks planes.cr.shown 8 columns rows) }
{
    let planes = planes?;
    let has_size = has_squares(&planes.luma, 16, columns, rows)
        && has_squares(&planes.cb, 8, columns, rows)
        && has_squares(&planes.cr, 8, columns, rows);
    if has_size { Some(planes) } else { None }
}

/// Writes 0 over each sample of the planes.
fn clear(planes: &mut Planes)
    ensures luma { planes.new.luma.shown ≡ uniform planes.old.luma.shown.width planes.old.luma.shown.height 0 }
    ensures cb { planes.new.cb.shown ≡ uniform planes.old.cb.shown.width planes.old.cb.shown.height 0 }
    ensures cr { planes.new.cr.shown ≡ uniform planes.old.cr.shown.width planes.old.cr.shown.height 0 }
{
    planes.luma.clear(0);
    planes.cb.clear(0);
    planes.cr.clear(0);
}

/// Gives up the samples of the planes.
fn give_up_samples(planes: &mut Planes)
    ensures luma { (planes.new.luma.shown.width ≡ planes.old.luma.shown.width) × (planes.new.luma.shown.height ≡ planes.old.luma.shown.height) × IsWhole planes.new.luma.shown }
    ensures cb { (planes.new.cb.shown.width ≡ planes.old.cb.shown.width) × (planes.new.cb.shown.height ≡ planes.old.cb.shown.height) × IsWhole planes.new.cb.shown }
    ensures cr { (planes.new.cr.shown.width ≡ planes.old.cr.shown.width) × (planes.new.cr.shown.height ≡ planes.old.cr.shown.height) × IsWhole planes.new.cr.shown }
{
    planes.luma.give_up_samples();
    planes.luma.prove_whole();
    planes.cb.give_up_samples();
    planes.cb.prove_whole();
    planes.cr.give_up_samples();
    planes.cr.prove_whole();
}
