ghost use Rattle.std.specs.Prelude.{◌≡◌, ◌+◌, ◌*◌, ◌%◌, ◌<◌, ◌≤◌, ◌++◌, ◌∷◌, [], Some, drop, is_ok, if◌then◌else◌, length, slice_get, slice_set, take};
ghost use Rattle.std.specs.List.{insert, remove};
ghost use Rattle.chunked_list.specs.Moves.{moved};
ghost use Rattle.packet_edits.specs.FlagCounts.{flag_at, flagged_before, indexes_from};
ghost use Rattle.packet_edits.specs.Nearest.{HoldsNowhere, IsFirst, IsLast};

use crate::starts::{count_of_runs, count_on, moved_down, moved_up, recount, with_flag};
use chunked_list::{CHUNK, ChunkedList};
use pixel_planes::NoMemory;
use std::alloc::Global;
use std::marker::Model;

/// Which packets have a flag, as the shown or the marked ones. A flagged packet is found without
/// reading the packets. Contracts see one flag per packet.
#[derive(Drop)]
pub struct FlagIndex {
    flags: ChunkedList<bool>,
    /// For each whole run of 1,024 packets, how many packets are flagged up to its end.
    counts: Vec<u32>,
}

impl Model for FlagIndex {
    ghost use Rattle.std.specs.Prelude.{List, Bool};
    ghost use Rattle.packet_edits.specs.FlagCounts.{AreCounts};

    ghost Value = { List Bool };

    ghost view = { λ i. i.flags };

    ghost invariant = { λ i. AreCounts i.counts.items i.flags };
}

impl FlagIndex {
    /// The index of no packets.
    pub fn new(alloc: Global) -> FlagIndex
        ensures { result ≡ [] }
    {
        FlagIndex {
            flags: ChunkedList::new(alloc),
            counts: Vec::new(alloc),
        }
    }

    /// The number of packets.
    pub fn len(&self) -> usize
        ensures { result ≡ length self.now }
    {
        self.flags.len()
    }

    /// The flag of the packet at index `at`.
    pub fn get(&self, at: usize) -> bool
        requires { at < length self.now }
        ensures { slice_get self.now at ≡ Some result }
    {
        *self.flags.get(at)
    }

    /// How many of the first `at` packets are flagged.
    pub fn count_before(&self, at: usize) -> u32
        requires { at ≤ length self.now }
        ensures { result ≡ flagged_before at self.now }
    {
        let whole = at / CHUNK;
        let before = count_of_runs(&self.counts, whole);
        count_on(&self.flags, before, whole * CHUNK, at)
    }

    /// Sets or clears the flag of the packet at index `at`.
    pub fn set(&mut self, at: usize, flag: bool)
        requires { at < length self.old }
        ensures { self.new ≡ slice_set self.old at flag }
    {
        let was = *self.flags.get(at);
        self.flags.set(at, flag);
        recount(&mut self.counts, at / CHUNK, was, flag);
    }

    /// Appends a packet. If memory is refused, nothing changes.
    pub fn push(&mut self, flag: bool) -> Result<(), NoMemory>
        requires { length self.old < 1048576 }
        ensures { self.new ≡ (if is_ok result then self.old ++ flag ∷ [] else self.old) }
    {
        if (self.flags.len() + 1) % CHUNK == 0 {
            return self.push_last(flag);
        }
        match self.flags.push(flag) {
            Ok(()) => Ok(()),
            Err(_) => Err(NoMemory),
        }
    }

    /// Appends the last packet of a run. If memory is refused, nothing changes.
    fn push_last(&mut self, flag: bool) -> Result<(), NoMemory>
        requires few { length self.old < 1048576 }
        requires last { (length self.old + 1) % 1024 ≡ 0 }
        ensures { self.new ≡ (if is_ok result then self.old ++ flag ∷ [] else self.old) }
    {
        let len = self.flags.len();
        let count = with_flag(self.count_before(len), flag);
        let Ok(()) = self.flags.push(flag) else {
            return Err(NoMemory);
        };
        if self.counts.push(count).is_err() {
            self.flags.truncate(len);
            return Err(NoMemory);
        }
        Ok(())
    }

    /// Moves the packet at index `from` to index `to`.
    pub fn move_to(&mut self, from: usize, to: usize)
        requires { (from < length self.old) × (to < length self.old) }
        ensures { self.new ≡ moved from to self.old }
    {
        let flag = *self.flags.get(from);
        self.flags.move_to(from, to);
        if from < to {
            moved_up(
                &mut self.counts,
                &self.flags,
                from / CHUNK,
                to / CHUNK,
                flag,
            );
        } else {
            moved_down(
                &mut self.counts,
                &self.flags,
                to / CHUNK,
                from / CHUNK,
                flag,
            );
        }
    }

    /// Keeps the first `len` packets.
    pub fn truncate(&mut self, len: usize)
        ensures { self.new ≡ take len self.old }
    {
        self.flags.truncate(len);
        self.counts.truncate(len / CHUNK);
    }

    /// Inserts a packet at index `at`. If memory is refused, nothing changes.
    pub fn insert(&mut self, at: usize, flag: bool) -> Result<(), NoMemory>
        requires place { at ≤ length self.old }
        requires few { length self.old < 1048576 }
        ensures { self.new ≡ (if is_ok result then insert self.old at flag else self.old) }
    {
        let len = self.len();
        self.push(flag)?;
        self.move_to(len, at);
        Ok(())
    }

    /// Removes the packet at index `at`.
    pub fn remove(&mut self, at: usize)
        requires { at < length self.old }
        ensures { self.new ≡ remove self.old at }
    {
        let last = self.len() - 1;
        self.move_to(at, last);
        self.truncate(last);
    }

    /// The index of flagged packet `n`, counted from 0, or `None` if fewer are flagged.
    pub fn place(&self, n: u64) -> Option<usize>
        ensures { result ≡ slice_get (indexes_from 0 self.now) n }
    {
        let whole = self.runs_within(n);
        let before = count_of_runs(&self.counts, whole);
        nth_flagged(&self.flags, whole * CHUNK, n - u64::from(before))
    }

    /// How many whole runs there are up to whose end at most `n` packets are flagged.
    fn runs_within(&self, n: u64) -> usize
        ensures whole { result * 1024 ≤ length self.now }
        ensures up_to { flagged_before (result * 1024) self.now ≤ n }
        ensures after { (result + 1) * 1024 ≤ length self.now → n < flagged_before ((result + 1) * 1024) self.now }
    {
        self.counts.partition_point(|count| u64::from(*count) <= n)
    }

    /// The last flagged packet before index `at`, or `None`. It looks at the flags of two runs.
    pub fn last_before(&self, at: usize) -> Option<usize>
        requires { at ≤ length self.now }
        ensures { IsLast (flag_at self.now) 0 at result }
    {
        let runs = at / CHUNK;
        match last_flagged(&self.flags, runs * CHUNK, at) {
            Some(place) => Some(place),
            None => last_flagged(&self.flags, 0, self.end_of_flagged(runs)),
        }
    }

    /// The end of the last of the first `runs` runs that has a flagged packet, or 0.
    fn end_of_flagged(&self, runs: usize) -> usize
        requires { runs * 1024 ≤ length self.now }
        ensures within { result ≤ runs * 1024 }
        ensures none { HoldsNowhere (flag_at self.now) result (runs * 1024) }
    {
        let count = count_of_runs(&self.counts, runs);
        if count == 0 {
            return 0;
        }
        let before = self.runs_within(u64::from(count - 1));
        ((before + 1) * CHUNK).min(runs * CHUNK)
    }

    /// The first flagged packet from index `from` up to `end`, or `None`. It looks at the flags of
    /// two runs.
    pub fn first_in(&self, from: usize, end: usize) -> Option<usize>
        requires { (from ≤ end) × (end ≤ length self.now) }
        ensures { IsFirst (flag_at self.now) from end result }
    {
        let rest = CHUNK - from % CHUNK;
        if end - from <= rest {
            return first_flagged(&self.flags, from, end);
        }
        let next = from + rest;
        match first_flagged(&self.flags, from, next) {
            Some(place) => Some(place),
            None => {
                let start = self.start_of_flagged(next / CHUNK);
                first_flagged(&self.flags, start.min(end), end)
            }
        }
    }

    /// The start of the first run from run `run` on that has a flagged packet, or of the packets
    /// after the last whole run.
    fn start_of_flagged(&self, run: usize) -> usize
        requires { run * 1024 ≤ length self.now }
        ensures from { run * 1024 ≤ result }
        ensures none { HoldsNowhere (flag_at self.now) (run * 1024) result }
    {
        let count = count_of_runs(&self.counts, run);
        let before = self.runs_within(u64::from(count));
        (before * CHUNK).max(run * CHUNK)
    }

    /// The number of flagged packets.
    pub fn count(&self) -> usize
        ensures { result ≡ length (indexes_from 0 self.now) }
    {
        self.count_before(self.len()) as usize
    }
}

/// The index of flagged packet `n` of those starting at index `from`.
fn nth_flagged(flags: &ChunkedList<bool>, from: usize, n: u64) -> Option<usize>
    requires { from ≤ length flags.now }
    ensures { result ≡ slice_get (indexes_from from (drop from flags.now)) n }
{
    let mut left = n;
    for at in from..flags.len() {
        if *flags.get(at) {
            if left == 0 {
                return Some(at);
            }
            left -= 1;
        }
    }
    None
}

/// The last flagged packet from index `from` up to `end`.
fn last_flagged(flags: &ChunkedList<bool>, from: usize, end: usize) -> Option<usize>
    requires { (from ≤ end) × (end ≤ length flags.now) }
    ensures { IsLast (flag_at flags.now) from end result }
{
    let mut at = end;
    while at > from {
        at -= 1;
        if *flags.get(at) {
            return Some(at);
        }
    }
    None
}

/// The first flagged packet from index `from` up to `end`.
fn first_flagged(flags: &ChunkedList<bool>, from: usize, end: usize) -> Option<usize>
    requires { (from ≤ end) × (end ≤ length flags.now) }
    ensures { IsFirst (flag_at flags.now) from end result }
{
    for at in from..end {
        if *flags.get(at) {
            return Some(at);
        }
    }
    None
}
