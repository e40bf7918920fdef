//! Elements that enter a chunk at one place while another leaves it.
ghost use Rattle.std.specs.Prelude.{◌≡◌, ◌+◌, ◌<◌, ◌≤◌, [], Some, ◌∷◌, ◌++◌, slice_get};
ghost use Rattle.std.specs.List.{insert, remove};
ghost use Rattle.std.specs.VecDeque.{deque_capacity, deque_len};

use std::collections::VecDeque;

/// Inserts `x` before the first element and removes the last one.
pub(crate) fn pass_up<T: Drop>(chunk: &mut VecDeque<T>, x: T) -> T
    requires { 0 < deque_len chunk.old }
    ensures items { x ∷ chunk.old.items ≡ chunk.new.items ++ result ∷ [] }
    ensures len { deque_len chunk.new ≡ deque_len chunk.old }
    ensures capacity { deque_capacity chunk.new ≡ deque_capacity chunk.old }
{
    let Some(last) = chunk.pop_back() else {
        unreachable!()
    };
    chunk.push_front_reserved(x);
    last
}

/// Appends `x` and removes the first element.
pub(crate) fn pass_down<T: Drop>(chunk: &mut VecDeque<T>, x: T) -> T
    requires { 0 < deque_len chunk.old }
    ensures items { result ∷ chunk.new.items ≡ chunk.old.items ++ x ∷ [] }
    ensures len { deque_len chunk.new ≡ deque_len chunk.old }
    ensures capacity { deque_capacity chunk.new ≡ deque_capacity chunk.old }
{
    let Some(first) = chunk.pop_front() else {
        unreachable!()
    };
    chunk.push_back_reserved(x);
    first
}

/// Inserts `x` at index `at` of a chunk that has room for it.
pub(crate) fn put<T: Drop>(chunk: &mut VecDeque<T>, at: usize, x: T)
    requires within { at ≤ deque_len chunk.old }
    requires room { deque_len chunk.old < deque_capacity chunk.old }
    ensures items { chunk.new.items ≡ insert chunk.old.items at x }
    ensures len { deque_len chunk.new ≡ deque_len chunk.old + 1 }
{
    match chunk.insert(at, x) {
        Ok(()) => {}
        Err(_) => unreachable!(),
    }
}

/// Inserts `x` at index `at` and removes the element that is then the last.
pub(crate) fn put_over<T: Drop>(chunk: &mut VecDeque<T>, at: usize, x: T) -> T
    requires { at < deque_len chunk.old }
    ensures items { insert chunk.old.items at x ≡ chunk.new.items ++ result ∷ [] }
    ensures len { deque_len chunk.new ≡ deque_len chunk.old }
{
    let Some(last) = chunk.pop_back() else {
        unreachable!()
    };
    put(chunk, at, x);
    last
}

/// Removes the element at index `at`.
pub(crate) fn take<T: Drop>(chunk: &mut VecDeque<T>, at: usize) -> T
    requires { at < deque_len chunk.old }
    ensures value { slice_get chunk.old.items at ≡ Some result }
    ensures items { chunk.new.items ≡ remove chunk.old.items at }
    ensures len { deque_len chunk.new + 1 ≡ deque_len chunk.old }
    ensures capacity { deque_capacity chunk.new ≡ deque_capacity chunk.old }
{
    let Some(x) = chunk.remove(at) else {
        unreachable!()
    };
    x
}

/// Removes the element at index `at` and appends `x`.
pub(crate) fn take_over<T: Drop>(chunk: &mut VecDeque<T>, at: usize, x: T) -> T
    requires { at < deque_len chunk.old }
    ensures value { slice_get chunk.old.items at ≡ Some result }
    ensures items { chunk.new.items ≡ remove chunk.old.items at ++ x ∷ [] }
    ensures len { deque_len chunk.new ≡ deque_len chunk.old }
{
    let taken = take(chunk, at);
    chunk.push_back_reserved(x);
    taken
}
