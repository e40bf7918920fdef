ghost use Rattle.std.specs.Prelude.{◌≡◌, ◌+◌, ◌*◌, ◌<◌, ◌≤◌, ◌↔◌, length, is_some, IfOk, IfSome, IsTrue};
ghost use Rattle.std.specs.Borrow.{sem};
ghost use Rattle.pixel_planes.specs.Samples.{IsWhole, uniform, row_of, bordered, brought_up_to_date};
ghost use Rattle.pixel_planes.specs.ReferenceSamples.{reference_sample, is_within_border, IsSpan, IsWindow};
ghost use Rattle.pixel_planes.specs.Layout.{bordered_side, cropped};
ghost use Rattle.pixel_planes.specs.Lending.{LendsRow, LendsRows, LendsSamples};

use crate::NoMemory;
use crate::borders::{held, join, part, place, surround};
use std::alloc::Global;
use std::marker::Model;

/// A rectangle of 8-bit samples with a border around it, in one block of memory.
///
/// Both sides are 1 to 16,384 samples, and only shown samples are compared. The border is 0 to 64
/// samples wide and repeats the samples at the edges; it is up to date until samples are lent for
/// writing.
///
/// The rows are inside the border from the start, so that nothing but the border is written when it
/// is brought up to date. Only `samples_mut` and `row_mut` move them to the front of the block, one
/// directly after the other; they are moved back by the next `rows_mut` or with the border.
#[derive(Debug, Drop)]
pub struct Plane {
    width: usize,
    height: usize,
    border: usize,
    first: usize,
    stride: usize,
    is_current: bool,
    samples: Vec<u8>,
}

/// Rows of samples in a plane or in its border.
///
/// Row `y` of the window begins at `samples[y * stride]`. The samples between its rows are not part
/// of it.
#[derive(Clone, Copy, Debug)]
pub struct Window<'a> {
    /// The samples starting at the first one of the window.
    pub samples: &'a [u8],
    /// The distance to the start of the next row, in samples, at most 16,512.
    pub stride: usize,
}

impl Model for Plane {
    ghost use Rattle.std.specs.Prelude.{IsTrue};
    ghost use Rattle.pixel_planes.specs.Samples.{PlaneValue};
    ghost use Rattle.pixel_planes.specs.Layout.{layout_of, shown_in, IsLaidOut, IsBordered};

    ghost Value = { PlaneValue };

    ghost view = { λ p. record { shown = shown_in (layout_of p.width p.height p.border p.first p.stride) p.samples.items; border = p.border; is_current = p.is_current } };

    ghost invariant = { λ p. IsLaidOut (layout_of p.width p.height p.border p.first p.stride) p.samples.items × (IsTrue p.is_current → IsBordered (shown_in (layout_of p.width p.height p.border p.first p.stride) p.samples.items) p.border p.samples.items) };
}

impl Plane {
    /// Makes a plane of `width` by `height` samples with a border of 32, each of them `value`, in
    /// one allocation.
    ///
    /// The sides are 1 to 16,384. The border is up to date. `NoMemory` if the block is refused.
    pub fn make(alloc: Global, width: usize, height: usize, value: u8) -> Result<Plane, NoMemory>
        requires wide { (0 < width) × (width ≤ 16384) }
        requires high { (0 < height) × (height ≤ 16384) }
        ensures { IfOk result (λ p. p ≡ bordered (uniform width height value) 32) }
    {
        Plane::make_bordered(alloc, width, height, value, 32)
    }

    /// Makes a plane of `width` by `height` samples with a border of `border`, each of them
    /// `value`, in one allocation.
    ///
    /// The sides are 1 to 16,384, and the border is 0 to 64. The border is up to date. `NoMemory`
    /// if the block is refused.
    pub fn make_bordered(
        alloc: Global,
        width: usize,
        height: usize,
        value: u8,
        border: usize,
    ) -> Result<Plane, NoMemory>
        requires wide { (0 < width) × (width ≤ 16384) }
        requires high { (0 < height) × (height ≤ 16384) }
        requires border { border ≤ 64 }
        ensures { IfOk result (λ p. p ≡ bordered (uniform width height value) border) }
    {
        let stride = width + 2 * border;
        let samples = vec![in alloc; value; stride * (height + 2 * border)]?;
        Ok(Plane {
            width,
            height,
            border,
            first: border * stride + border,
            stride,
            is_current: true,
            samples,
        })
    }

    /// Does nothing. It says that the plane is whole: a sample for each column and row, and sides of 1 to
    /// 16,384 samples.
    pub(crate) fn prove_whole(&self)
        ensures { IsWhole self.now.shown }
    {
        let _width = self.width();
    }

    /// The number of samples in a row, 1 to 16,384.
    pub fn width(&self) -> usize
        ensures value { result ≡ self.now.shown.width }
        ensures whole { IsWhole self.now.shown }
    {
        self.width
    }

    /// The number of rows, 1 to 16,384.
    pub fn height(&self) -> usize
        ensures value { result ≡ self.now.shown.height }
        ensures whole { IsWhole self.now.shown }
    {
        self.height
    }

    /// The number of columns and of rows around the shown samples at each side.
    pub fn border(&self) -> usize
        ensures value { result ≡ self.now.border }
        ensures small { result ≤ 64 }
    {
        self.border
    }

    /// The distance from the start of a row to the start of the next one in `rows_mut`, in samples:
    /// the width with the border on both sides, at most 16,512.
    pub fn stride(&self) -> usize
        ensures value { result ≡ bordered_side self.now.shown.width self.now.border }
        ensures wide { self.now.shown.width ≤ result }
        ensures small { result ≤ 16512 }
    {
        self.width + 2 * self.border
    }

    /// Whether the border repeats the current edges of the shown samples.
    pub fn is_current(&self) -> bool
        ensures { result ≡ self.now.is_current }
    {
        self.is_current
    }

    /// The sample at these coordinates, clamped to the plane: past an edge its samples continue
    /// (section 18 of RFC 6386).
    pub fn sample(&self, x: i64, y: i64) -> u8
        ensures { result ≡ reference_sample self.now.shown x y }
    {
        let column = held(x, self.width);
        let row = held(y, self.height);
        self.samples[self.first + row * self.stride + column]
    }

    /// For other programs: prediction takes windows. The `n` samples from (`x`, `y`) to the right, each as
    /// `sample` returns it. `n` is at least 1.
    ///
    /// None exactly if the border is out of date or a sample is outside the border.
    pub fn span(&self, x: i64, y: i64, n: usize) -> Option<&[u8]>
        requires { 0 < n }
        ensures within { is_some result ≡ is_within_border self.now x y n 1 }
        ensures samples { IfSome result (λ found. IsSpan self.now.shown x y n found.now) }
    {
        if !self.is_current {
            return None;
        }
        let column = place(x, n, self.width, self.border)?;
        let row = place(y, 1, self.height, self.border)?;
        let start = row * (self.width + 2 * self.border) + column;
        Some(&self.samples[start..start + n])
    }

    /// The samples of `width` columns and `height` rows from (`x`, `y`) to the right and down, each
    /// as `sample` returns it. Both sides are at least 1.
    ///
    /// None exactly if the border is out of date or a sample is outside the border.
    pub fn window(&self, x: i64, y: i64, width: usize, height: usize) -> Option<Window<'_>>
        requires wide { 0 < width }
        requires high { 0 < height }
        ensures within { is_some result ≡ is_within_border self.now x y width height }
        ensures samples { IfSome result (λ found. IsWindow self.now.shown x y width height found.samples.now found.stride) }
    {
        if !self.is_current {
            return None;
        }
        let column = place(x, width, self.width, self.border)?;
        let row = place(y, height, self.height, self.border)?;
        let stride = self.width + 2 * self.border;
        let start = row * stride + column;
        let end = start + (height - 1) * stride + width;
        Some(Window {
            samples: &self.samples[start..end],
            stride,
        })
    }

    /// Shown row `y`, counted from the top: `width` samples. `y` is below the height.
    pub fn row(&self, y: usize) -> &[u8]
        requires { y < self.now.shown.height }
        ensures value { result.now ≡ row_of self.now.shown y }
        ensures len { length result.now ≡ self.now.shown.width }
    {
        let start = self.first + y * self.stride;
        &self.samples[start..start + self.width]
    }

    /// Shown row `y` to be written, counted from the top: `width` samples. `y` is below the height.
    ///
    /// The border is then out of date.
    pub fn row_mut(&mut self, y: usize) -> &mut [u8]
        requires { y < self.old.shown.height }
        ensures* writes_back { sem 𝓛 (LendsRow self.entry y result) }
        ensures value { result.now ≡ row_of self.old.shown y }
        ensures len { length result.now ≡ self.old.shown.width }
    {
        join(
            &mut self.samples,
            self.first,
            self.stride,
            self.width,
            self.height,
        );
        self.first = 0;
        self.stride = self.width;
        self.is_current = false;
        let start = y * self.width;
        let end = start + self.width;
        self.samples.slice_mut(start..end)
    }

    /// All shown rows to be written: row `y` starts at index `y * stride`, and the samples between
    /// two rows are the border's, which is out of date then.
    pub fn rows_mut(&mut self) -> &mut [u8]
        ensures* writes_back { sem 𝓛 (LendsRows self.entry result) }
        ensures value { cropped self.old.shown.width self.old.shown.height (bordered_side self.old.shown.width self.old.border) result.now ≡ self.old.shown }
        ensures len { length result.now ≡ self.old.shown.height * bordered_side self.old.shown.width self.old.border }
    {
        let stride = self.width + 2 * self.border;
        part(
            &mut self.samples,
            self.stride,
            self.width,
            self.height,
            self.border,
        );
        self.first = self.border * stride + self.border;
        self.stride = stride;
        self.is_current = false;
        let end = self.first + self.height * stride;
        self.samples.slice_mut(self.first..end)
    }

    /// All shown samples to be written, row by row from the top, each row directly after the one
    /// above it.
    ///
    /// The border is then out of date.
    pub fn samples_mut(&mut self) -> &mut [u8]
        ensures* writes_back { sem 𝓛 (LendsSamples self.entry result) }
        ensures value { result.now ≡ self.old.shown.samples }
        ensures len { length result.now ≡ self.old.shown.width * self.old.shown.height }
    {
        join(
            &mut self.samples,
            self.first,
            self.stride,
            self.width,
            self.height,
        );
        self.first = 0;
        self.stride = self.width;
        self.is_current = false;
        let end = self.width * self.height;
        self.samples.slice_mut(0..end)
    }

    /// Whether the other plane has the same sides and the same shown samples.
    pub fn same(&self, other: &Plane) -> bool
        ensures { IsTrue result ↔ (self.now.shown ≡ other.now.shown) }
    {
        if self.width != other.width || self.height != other.height {
            return false;
        }
        for y in 0..self.height {
            if self.row(y) != other.row(y) {
                return false;
            }
        }
        true
    }

    /// Brings the border up to date, which takes no memory.
    pub(crate) fn refill(&mut self)
        ensures { self.new ≡ brought_up_to_date self.old }
    {
        if !self.is_current {
            let stride = self.width + 2 * self.border;
            surround(
                &mut self.samples,
                self.stride,
                self.width,
                self.height,
                self.border,
            );
            self.first = self.border * stride + self.border;
            self.stride = stride;
            self.is_current = true;
        }
    }

    /// Writes `value` over each sample. The border is then up to date, and no memory is taken.
    pub(crate) fn clear(&mut self, value: u8)
        ensures { self.new ≡ bordered (uniform self.old.shown.width self.old.shown.height value) self.old.border }
    {
        let stride = self.width + 2 * self.border;
        self.samples.fill(value);
        self.first = self.border * stride + self.border;
        self.stride = stride;
        self.is_current = true;
    }

    /// Gives up the samples: any are shown from now on, and the border is out of date. The sides and
    /// the border's width stay, and no memory is taken or moved.
    pub(crate) fn give_up_samples(&mut self)
        ensures { (self.new.shown.width ≡ self.old.shown.width) × (self.new.shown.height ≡ self.old.shown.height) }
    {
        let stride = self.width + 2 * self.border;
        self.first = self.border * stride + self.border;
        self.stride = stride;
        self.is_current = false;
    }
}
