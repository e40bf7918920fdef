ghost use Rattle.std.specs.Prelude.{◌≡◌, ◌<◌, ◌≤◌, ◌↔◌, length, IfOk, IfSome, IsTrue};
ghost use Rattle.pixel_planes.specs.Pictures.{IsWholePicture, AreCoded, shown_height, shown_width, shown_row_of};
ghost use Rattle.pixel_planes.specs.PlaneSamples.{shown_of, picture_of};

use crate::NoMemory;
use crate::planes::Plane;
use std::alloc::Global;
use std::marker::Model;
use std::rc::Rc;

/// One of the three parts of a picture.
#[derive(Clone, Copy, Debug, PartialEq, Eq)]
pub enum Component {
    /// Brightness, a sample for each position of the picture.
    Luma,
    /// The blue difference, a sample for each two by two positions.
    Cb,
    /// The red difference, a sample for each two by two positions.
    Cr,
}

/// The three planes of a picture under construction, whose chroma planes have half the sides of its
/// luma plane.
#[derive(Debug, Drop)]
pub struct Planes {
    /// The plane of `Component::Luma`.
    pub luma: Plane,
    /// The plane of `Component::Cb`.
    pub cb: Plane,
    /// The plane of `Component::Cr`.
    pub cr: Plane,
}

/// A finished picture, whose planes may be shared with other pictures.
///
/// The shown size is 1 to 16,383 each way. The planes have the coded size: luma has the whole
/// macroblocks of 16 by 16 samples that cover the shown size, and chroma has half its sides. Their
/// borders are up to date.
#[derive(Debug, Drop)]
pub struct Picture {
    width: u16,
    height: u16,
    luma: Rc<Plane>,
    cb: Rc<Plane>,
    cr: Rc<Plane>,
}

impl Model for Picture {
    ghost use Rattle.std.specs.Prelude.{IsTrue};
    ghost use Rattle.pixel_planes.specs.Pictures.{PictureSamples, IsWholePicture};

    ghost Value = { PictureSamples };

    ghost view = { λ p. record { width = p.width; height = p.height; luma = p.luma.value.shown; cb = p.cb.value.shown; cr = p.cr.value.shown } };

    ghost invariant = { λ p. IsWholePicture (record { width = p.width; height = p.height; luma = p.luma.value.shown; cb = p.cb.value.shown; cr = p.cr.value.shown }) × IsTrue p.luma.value.is_current × IsTrue p.cb.value.is_current × IsTrue p.cr.value.is_current };
}

impl Picture {
    /// Makes a picture of these planes, to be shown at `width` by `height`, 1 to 16,383 each.
    ///
    /// The planes have the coded size of that picture. Their borders are brought up to date.
    /// `NoMemory` if a plane's shared block is refused; the planes are then dropped.
    pub fn share(
        alloc: Global,
        planes: Planes,
        width: u16,
        height: u16,
    ) -> Result<Picture, NoMemory>
        requires wide { (0 < width) × (width ≤ 16383) }
        requires high { (0 < height) × (height ≤ 16383) }
        requires coded { AreCoded width height planes.luma.shown planes.cb.shown planes.cr.shown }
        ensures { IfOk result (λ p. p ≡ picture_of width height (shown_of planes)) }
    {
        let Planes {
            mut luma,
            mut cb,
            mut cr,
        } = planes;
        luma.prove_whole();
        cb.prove_whole();
        cr.prove_whole();
        luma.refill();
        cb.refill();
        cr.refill();
        Ok(Picture {
            width,
            height,
            luma: Rc::new(alloc, luma)?,
            cb: Rc::new(alloc, cb)?,
            cr: Rc::new(alloc, cr)?,
        })
    }

    /// Does nothing. It says that the picture is whole: three whole planes of its coded size, and shown sides
    /// of 1 to 16,383 samples.
    pub fn prove_whole(&self)
        ensures { IsWholePicture self.now }
    {
        let _width = self.width;
    }

    /// The shown width in luma samples, 1 to 16,383.
    pub fn width(&self) -> u16
        ensures value { result ≡ self.now.width }
        ensures whole { IsWholePicture self.now }
    {
        self.width
    }

    /// The shown height in luma samples, 1 to 16,383.
    pub fn height(&self) -> u16
        ensures value { result ≡ self.now.height }
        ensures whole { IsWholePicture self.now }
    {
        self.height
    }

    /// The brightness at coded size, with its border up to date.
    pub fn luma(&self) -> &Plane
        ensures shown { result.now.shown ≡ self.now.luma }
        ensures current { IsTrue result.now.is_current }
    {
        &self.luma
    }

    /// The blue difference at coded size, with its border up to date.
    pub fn cb(&self) -> &Plane
        ensures shown { result.now.shown ≡ self.now.cb }
        ensures current { IsTrue result.now.is_current }
    {
        &self.cb
    }

    /// The red difference at coded size, with its border up to date.
    pub fn cr(&self) -> &Plane
        ensures shown { result.now.shown ≡ self.now.cr }
        ensures current { IsTrue result.now.is_current }
    {
        &self.cr
    }

    /// The same picture, which shares its planes and takes no memory.
    ///
    /// `NoMemory` if a plane is shared so often that no further share can be counted.
    pub fn again(&self) -> Result<Picture, NoMemory>
        ensures { IfOk result (λ p. p ≡ self.now) }
    {
        Ok(Picture {
            width: self.width,
            height: self.height,
            luma: self.luma.clone()?,
            cb: self.cb.clone()?,
            cr: self.cr.clone()?,
        })
    }

    /// The planes, if the picture shares them with no other.
    pub(crate) fn into_planes(self) -> Option<Planes>
        ensures { IfSome result (λ planes. picture_of self.width self.height (shown_of planes) ≡ self) }
    {
        let Picture {
            width: _,
            height: _,
            luma,
            cb,
            cr,
        } = self;
        let luma = Rc::into_inner(luma);
        let cb = Rc::into_inner(cb);
        let cr = Rc::into_inner(cr);
        Some(Planes {
            luma: luma?,
            cb: cb?,
            cr: cr?,
        })
    }

    /// Shown row `y` of a component, counted from the top.
    ///
    /// It has the shown width in luma, and half of that, rounded up, in chroma. `y` is below the
    /// component's shown height, which follows the same rule.
    pub fn shown_row(&self, component: Component, y: usize) -> &[u8]
        requires { y < shown_height self.now component }
        ensures value { result.now ≡ shown_row_of self.now component y }
        ensures len { length result.now ≡ shown_width self.now component }
    {
        let width = usize::from(self.width);
        match component {
            Component::Luma => &self.luma.row(y)[..width],
            Component::Cb => &self.cb.row(y)[..width.div_ceil(2)],
            Component::Cr => &self.cr.row(y)[..width.div_ceil(2)],
        }
    }
}

/// Whether two pictures have the same shown size and the same samples at coded size.
pub fn same(a: &Picture, b: &Picture) -> bool
    ensures { IsTrue result ↔ (a.now ≡ b.now) }
{
    a.width == b.width
        && a.height == b.height
        && a.luma.same(&b.luma)
        && a.cb.same(&b.cb)
        && a.cr.same(&b.cr)
}
