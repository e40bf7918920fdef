//! Edits of a list of chunks.
ghost use Rattle.std.specs.Prelude.{◌≡◌, ℕ, [], ◌∷◌, ◌++◌, ◌+◌, ◌-◌, ◌<◌, ◌≤◌, OnOk, Some, is_ok, if◌then◌else◌, slice_get, slice_index, slice_set, vec_len};
ghost use Rattle.std.specs.List.{insert, remove};
ghost use Rattle.chunked_list.specs.Chunks.{AreFull, before, joined, rooms, sizes};

use crate::passing::{pass_down, pass_up, put, put_over, take, take_over};
use std::alloc::{AllocError, Global};
use std::collections::VecDeque;

/// The number of elements of each chunk except for the last.
pub const CHUNK: usize = 1024;

/// Inserts `x` at index `at` of chunk `first`. Each chunk from there passes its last element on to
/// the next one, up to chunk `last`, which has room for it.
pub(crate) fn put_in<T: Drop>(
    chunks: &mut Vec<VecDeque<T>>,
    first: usize,
    at: usize,
    x: T,
    last: usize,
)
    requires order { (first ≤ last) × (last < vec_len chunks.old) }
    requires full { (k : ℕ) → k < last → slice_index (sizes chunks.old.items) k ≡ 1024 }
    requires within { at ≤ slice_index (sizes chunks.old.items) first }
    requires below { first < last → at < 1024 }
    requires room { 0 < slice_index (rooms chunks.old.items) last }
    ensures items { joined chunks.new.items ≡ insert (joined chunks.old.items) (before first (sizes chunks.old.items) + at) x }
    ensures sizes { sizes chunks.new.items ≡ slice_set (sizes chunks.old.items) last (slice_index (sizes chunks.old.items) last + 1) }
{
    if first == last {
        put(&mut chunks[last], at, x);
        return;
    }
    let mut carried = put_over(&mut chunks[first], at, x);
    for k in first + 1..last {
        carried = pass_up(&mut chunks[k], carried);
    }
    chunks[last].push_front_reserved(carried);
}

/// Removes the element at index `at` of chunk `first`. Each chunk from there takes the first
/// element of the next one, up to chunk `last`.
pub(crate) fn take_out<T: Drop>(
    chunks: &mut Vec<VecDeque<T>>,
    first: usize,
    at: usize,
    last: usize,
) -> T
    requires order { (first ≤ last) × (last < vec_len chunks.old) }
    requires full { (k : ℕ) → k < last → slice_index (sizes chunks.old.items) k ≡ 1024 }
    requires within { at < slice_index (sizes chunks.old.items) first }
    requires filled { 0 < slice_index (sizes chunks.old.items) last }
    ensures value { slice_get (joined chunks.old.items) (before first (sizes chunks.old.items) + at) ≡ Some result }
    ensures items { joined chunks.new.items ≡ remove (joined chunks.old.items) (before first (sizes chunks.old.items) + at) }
    ensures sizes { sizes chunks.new.items ≡ slice_set (sizes chunks.old.items) last (slice_index (sizes chunks.old.items) last - 1) }
    ensures room { 0 < slice_index (rooms chunks.new.items) last }
{
    if first == last {
        return take(&mut chunks[last], at);
    }
    let mut carried = take(&mut chunks[last], 0);
    for k in (first + 1..last).rev() {
        carried = pass_down(&mut chunks[k], carried);
    }
    take_over(&mut chunks[first], at, carried)
}

/// Makes sure that there is a last chunk with room for one more element. If memory is refused, the
/// elements stay.
pub(crate) fn make_room<T: Drop>(
    chunks: &mut Vec<VecDeque<T>>,
    alloc: Global,
) -> Result<(), AllocError>
    requires { AreFull 1024 (sizes chunks.old.items) }
    ensures items { joined chunks.new.items ≡ joined chunks.old.items }
    ensures full { AreFull 1024 (sizes chunks.new.items) }
    ensures some { OnOk result (0 < vec_len chunks.new) }
    ensures below { OnOk result (slice_index (sizes chunks.new.items) (vec_len chunks.new - 1) < 1024) }
    ensures room { OnOk result (0 < slice_index (rooms chunks.new.items) (vec_len chunks.new - 1)) }
{
    let count = chunks.len();
    if count == 0 || chunks[count - 1].len() >= CHUNK {
        return add_chunk(chunks, alloc);
    }
    chunks[count - 1].reserve(1)
}

/// Appends an empty chunk with room. If memory is refused, nothing changes.
fn add_chunk<T: Drop>(chunks: &mut Vec<VecDeque<T>>, alloc: Global) -> Result<(), AllocError>
    ensures items { joined chunks.new.items ≡ joined chunks.old.items }
    ensures sizes { sizes chunks.new.items ≡ (if is_ok result then sizes chunks.old.items ++ 0 ∷ [] else sizes chunks.old.items) }
    ensures some { OnOk result (0 < vec_len chunks.new) }
    ensures room { OnOk result (0 < slice_index (rooms chunks.new.items) (vec_len chunks.new - 1)) }
{
    let room = if chunks.is_empty() { 1 } else { CHUNK };
    let chunk = VecDeque::with_capacity(alloc, room)?;
    let Ok(()) = chunks.push(chunk) else {
        return Err(AllocError);
    };
    Ok(())
}

/// Removes the last chunk if it has no elements.
pub(crate) fn drop_empty<T: Drop>(chunks: &mut Vec<VecDeque<T>>)
    requires { AreFull 1024 (sizes chunks.old.items) }
    ensures items { joined chunks.new.items ≡ joined chunks.old.items }
    ensures full { AreFull 1024 (sizes chunks.new.items) }
    ensures filled { 0 < vec_len chunks.new → 0 < slice_index (sizes chunks.new.items) (vec_len chunks.new - 1) }
{
    let count = chunks.len();
    if count != 0 && chunks[count - 1].is_empty() {
        chunks.pop();
    }
}
