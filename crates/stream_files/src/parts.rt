// Parts of a file whose bytes are shared.
ghost use Rattle.std.specs.Prelude.{◌≡◌, ◌+◌, ◌≤◌, IfOk, drop, length, take};
ghost use Rattle.std.specs.Rc.{rc_slice_items};

use pixel_planes::NoMemory;
use std::marker::Model;
use std::rc::RcSlice;

/// A part of a file whose bytes are shared. A contract sees it as a list of bytes.
#[derive(Drop)]
pub(crate) struct Part {
    file: RcSlice<u8>,
    start: usize,
    size: usize,
}

impl Model for Part {
    ghost use Rattle.std.specs.Prelude.{List, ℕ, ◌+◌, ◌≤◌, drop, length, take};
    ghost use Rattle.std.specs.Rc.{rc_slice_items};

    ghost Value = { List ℕ };

    ghost view = { λ p. take p.size (drop p.start (rc_slice_items p.file)) };

    ghost invariant = { λ p. p.start + p.size ≤ length (rc_slice_items p.file) };
}

impl Part {
    /// The `size` bytes of a file from index `start` on.
    pub(crate) fn new(file: &RcSlice<u8>, start: usize, size: usize) -> Result<Self, NoMemory>
        requires { start + size ≤ length (rc_slice_items file.now) }
        ensures { IfOk result (λ part. part ≡ take size (drop start (rc_slice_items file.now))) }
    {
        Ok(Part {
            file: file.clone()?,
            start,
            size,
        })
    }

    /// The same part again.
    pub(crate) fn share(&self) -> Result<Self, NoMemory>
        ensures { IfOk result (λ part. part ≡ self.now) }
    {
        Part::new(&self.file, self.start, self.size)
    }

    /// The bytes as a slice.
    pub(crate) fn as_slice(&self) -> &[u8]
        ensures { result.now ≡ self.now }
    {
        &self.file.as_slice()[self.start..self.start + self.size]
    }
}

/// Where a packet's bytes lie.
#[derive(Drop)]
pub(crate) enum Storage {
    /// In memory of their own.
    Own(Vec<u8>),
    /// In a file that other packets share.
    Shared(Part),
}
