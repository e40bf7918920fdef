ghost use Rattle.std.specs.Prelude.{◌≡◌, ◌<◌, ◌≤◌, ◌++◌, ◌∷◌, [], Some, is_ok, if◌then◌else◌, length, slice_get, slice_set, take};
ghost use Rattle.std.specs.List.{insert, remove};
ghost use Rattle.chunked_list.specs.Moves.{moved};

use crate::chunks::{CHUNK, drop_empty, make_room, put_in, take_out};
use std::alloc::{AllocError, Global};
use std::collections::VecDeque;
use std::marker::Model;
use std::mem::replace;

/// A list of any length. An insertion or a removal moves at most 1,024 elements, and one element of
/// each 1,024 that follow. An element is found at once.
///
/// Contracts see the list of the elements.
#[derive(Drop)]
pub struct ChunkedList<T> {
    /// Chunks of 1,024 elements. The last chunk may have fewer, or none.
    chunks: Vec<VecDeque<T>>,
    len: usize,
    alloc: Global,
}

impl<T> Model for ChunkedList<T> {
    ghost use Rattle.std.specs.Prelude.{List};
    ghost use Rattle.chunked_list.specs.Chunks.{IsStored, joined};

    ghost Value = { List T };

    ghost view = { λ l. joined l.chunks.items };

    ghost invariant = { λ l. IsStored 1024 l.chunks.items l.len };
}

impl<T: Drop> ChunkedList<T> {
    /// An empty list. It allocates nothing.
    pub fn new(alloc: Global) -> ChunkedList<T>
        ensures { result ≡ [] }
    {
        ChunkedList {
            chunks: Vec::new(alloc),
            len: 0,
            alloc,
        }
    }

    /// The number of elements.
    pub fn len(&self) -> usize
        ensures { result ≡ length self.now }
    {
        self.len
    }

    /// The element at index `at`, which exists.
    pub fn get(&self, at: usize) -> &T
        requires { at < length self.now }
        ensures { slice_get self.now at ≡ Some result.now }
    {
        &self.chunks[at / CHUNK][at % CHUNK]
    }

    /// Replaces the element at index `at`, which exists.
    pub fn set(&mut self, at: usize, x: T)
        requires { at < length self.old }
        ensures { self.new ≡ slice_set self.old at x }
    {
        self.chunks[at / CHUNK][at % CHUNK] = x;
    }

    /// Replaces the element at index `at`, which exists, and returns it.
    pub fn replace(&mut self, at: usize, x: T) -> T
        requires { at < length self.old }
        ensures value { slice_get self.old at ≡ Some result }
        ensures items { self.new ≡ slice_set self.old at x }
    {
        replace(&mut self.chunks[at / CHUNK][at % CHUNK], x)
    }

    /// Inserts an element at index `at`, which is at most the length. If memory is refused, nothing
    /// changes.
    pub fn insert(&mut self, at: usize, x: T) -> Result<(), AllocError>
        requires { at ≤ length self.old }
        ensures { self.new ≡ (if is_ok result then insert self.old at x else self.old) }
    {
        if self.len == usize::MAX {
            return Err(AllocError);
        }
        make_room(&mut self.chunks, self.alloc)?;
        let last = self.chunks.len() - 1;
        put_in(&mut self.chunks, at / CHUNK, at % CHUNK, x, last);
        self.len += 1;
        Ok(())
    }

    /// Appends an element. If memory is refused, nothing changes.
    pub fn push(&mut self, x: T) -> Result<(), AllocError>
        ensures { self.new ≡ (if is_ok result then self.old ++ x ∷ [] else self.old) }
    {
        let end = self.len;
        self.insert(end, x)
    }

    /// Removes the element at index `at`, which exists.
    pub fn remove(&mut self, at: usize) -> T
        requires { at < length self.old }
        ensures value { slice_get self.old at ≡ Some result }
        ensures items { self.new ≡ remove self.old at }
    {
        drop_empty(&mut self.chunks);
        let last = self.chunks.len() - 1;
        let x = take_out(&mut self.chunks, at / CHUNK, at % CHUNK, last);
        self.len -= 1;
        x
    }

    /// Removes the element at index `from` and inserts it at index `to` of the shortened list. It
    /// allocates nothing.
    pub fn move_to(&mut self, from: usize, to: usize)
        requires { (from < length self.old) × (to < length self.old) }
        ensures { self.new ≡ moved from to self.old }
    {
        let last = from.max(to) / CHUNK;
        let x = take_out(&mut self.chunks, from / CHUNK, from % CHUNK, last);
        put_in(&mut self.chunks, to / CHUNK, to % CHUNK, x, last);
    }

    /// Keeps the first `len` elements.
    pub fn truncate(&mut self, len: usize)
        ensures { self.new ≡ take len self.old }
    {
        'pops: while self.len() > len {
            let end = self.len() - 1;
            self.remove(end);
        }
    }
}
