// The bytes of a file, as packets take them.
ghost use Rattle.std.specs.Prelude.{◌≡◌, ◌+◌, ◌≤◌, List, ℕ, IfOk, drop, length, take};
ghost use Rattle.std.specs.Rc.{rc_slice_items};

use super::packets::Bytes;
use pixel_planes::NoMemory;
use std::alloc::Global;
use std::rc::RcSlice;

/// The bytes of a file, borrowed or shared, and how a packet takes a part of them.
pub trait FileBytes {
    /// The bytes.
    ghost bytes: { Self → List ℕ };

    /// All bytes.
    fn whole(&self) -> &[u8]
        ensures { result.now ≡ bytes self.now };

    /// The `size` bytes from index `start` on. `NoMemory` if out of memory for a copy, or if shared bytes have too many
    /// owners.
    fn part(&self, alloc: Global, start: usize, size: usize) -> Result<Bytes, NoMemory>
        requires { start + size ≤ length (bytes self.now) }
        ensures { IfOk result (λ part. part ≡ take size (drop start (bytes self.now))) };
}

/// Borrowed bytes: a packet takes a copy.
impl<'a> FileBytes for &'a [u8] {
    ghost bytes = { λ borrowed. borrowed.now };

    fn whole(&self) -> &[u8] {
        self
    }

    fn part(&self, alloc: Global, start: usize, size: usize) -> Result<Bytes, NoMemory> {
        Bytes::from_slice(alloc, &self[start..start + size])
    }
}

/// Shared bytes: a packet takes no copy, and they stay in memory as long as one of their owners.
impl FileBytes for RcSlice<u8> {
    ghost bytes = { rc_slice_items };

    fn whole(&self) -> &[u8] {
        self.as_slice()
    }

    fn part(&self, _alloc: Global, start: usize, size: usize) -> Result<Bytes, NoMemory> {
        Bytes::part(self, start, size)
    }
}
