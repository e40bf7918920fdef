//! What each cached outcome saves: from this the one that a full cache drops is chosen.
ghost use Rattle.std.specs.Prelude.{◌≡◌, ◌↔◌, ◌+◌, ◌-◌, ◌*◌, ◌^◌, ◌<◌, ◌≤◌, ℕ, IfOk, IfSome, IsSome, IsTrue, false, if◌then◌else◌, is_some, length, map, min, slice_get, slice_set, take};
ghost use Rattle.state_cache.specs.Evictions.{IsOtherVictim, IsVictim, age, last_use, one_use_more, saved};
ghost use Rattle.state_cache.specs.ProofsOnly.{IsLeastBetween, Lesser, NoneIsLess, Searched};

use pixel_planes::NoMemory;
use std::alloc::Global;
use std::marker::Model;

/// The index of no outcome.
const NONE: u16 = u16::MAX;

/// The greatest age, less 1.
const MOST_USES: u64 = u32::MAX as u64 - 1;

/// How many outcomes are compared at a time.
const GROUP: usize = 32;

/// What one cached outcome saves. It counts packets as they were when they were decoded: an edit
/// leaves the numbers as they are, and then they are estimates.
#[derive(Clone, Copy)]
pub(crate) struct Saving {
    /// The number of uses of the cache once it was last used.
    pub used: u64,
    /// How many packets it is after the outcome cached before it in its run; for the first one, after
    /// the packet before the run.
    pub before: u16,
    /// How many packets it is before the outcome cached after it in its run; for the last one, how
    /// many packets of the run were cached from its own on.
    pub after: u16,
    /// The indexes of these two outcomes, or `NONE`.
    pub previous: u16,
    pub next: u16,
}

/// What an outcome saves with none next to it.
const ALONE: Saving = Saving {
    used: 0,
    before: 1,
    after: 1,
    previous: NONE,
    next: NONE,
};

impl Saving {
    /// What the outcome is worth after this number of uses.
    #[inline]
    fn worth(&self, uses: u64) -> Worth
        ensures saved { result.saved ≡ saved self.now }
        ensures age { result.age ≡ age uses self.now }
    {
        worth_of(self.steps(), self.used, uses)
    }

    /// The steps that it saves.
    #[inline]
    fn steps(&self) -> u32
        ensures { result ≡ saved self.now }
    {
        self.before as u32 * self.after as u32
    }
}

/// What an outcome that saves so many steps and was last used so long ago is worth.
#[inline]
fn worth_of(steps: u32, used: u64, uses: u64) -> Worth
    ensures saved { result.saved ≡ steps }
    ensures age { result.age ≡ min (uses - used) (2 ^ 32 - 2) + 1 }
{
    let since = uses.saturating_sub(used);
    Worth {
        saved: steps,
        age: since.min(MOST_USES) as u32 + 1,
    }
}

/// The worth of a cached outcome: the steps that it saves over its age.
#[derive(Clone, Copy)]
struct Worth {
    saved: u32,
    age: u32,
}

impl Worth {
    /// Whether this is less than another.
    #[inline]
    fn is_less(self, other: Worth) -> bool
        ensures { IsTrue result ↔ (self.saved * other.age < other.saved * self.age) }
    {
        self.saved as u64 * (other.age as u64) < other.saved as u64 * self.age as u64
    }
}

/// What each cached outcome saves, in the order of the outcomes, and the number of uses of the cache.
/// An outcome is used when it is cached, served again, or when a packet is stepped from it.
#[derive(Drop)]
pub(crate) struct Savings {
    list: Vec<Saving>,
    // The steps that each one saves and its last use, apart from the rest, so that many are compared at a time.
    steps: Vec<u32>,
    used: Vec<u64>,
    uses: u64,
}

impl Model for Savings {
    ghost use Rattle.std.specs.Prelude.{◌≡◌, map};
    ghost use Rattle.state_cache.specs.Evictions.{SavingsValue, last_use, saved};

    ghost Value = { SavingsValue };

    ghost view = { λ s. record { list = s.list.items; uses = s.uses } };

    ghost invariant = { λ s. (s.steps.items ≡ map saved s.list.items) × (s.used.items ≡ map last_use s.list.items) };
}

impl Savings {
    /// For so many outcomes, of which none is cached yet. `NoMemory` if memory was refused.
    pub fn new(alloc: Global, len: usize) -> Result<Savings, NoMemory>
        ensures { IfOk result (λ savings. length savings.list ≡ len) }
    {
        let list = vec![in alloc; ALONE; len]?;
        let steps = vec![in alloc; 1u32; len]?;
        let used = vec![in alloc; 0u64; len]?;
        Ok(Savings {
            list,
            steps,
            used,
            uses: 0,
        })
    }

    /// The index of the outcome of least worth among the first `len`, the first among equals; none
    /// if `len` is 0.
    pub fn least(&self, len: usize) -> Option<usize>
        requires { len ≤ length self.now.list }
        ensures victim { IfSome result (IsVictim (take len self.now.list) self.now.uses) }
        ensures some { 0 < len → IsSome result }
    {
        least_of(
            &self.list[..len],
            &self.steps[..len],
            &self.used[..len],
            self.uses,
        )
    }

    /// The index of the outcome of least worth among the first `len` other than the one at `newest`,
    /// the first among equals; none if there is no other.
    pub fn least_other(&self, len: usize, newest: usize) -> Option<usize>
        requires few { len ≤ length self.now.list }
        requires within { newest < len }
        ensures victim { IfSome result (IsOtherVictim self.now.list self.now.uses len newest) }
        ensures some { 1 < len → IsSome result }
    {
        let before = self.least_between(0, newest);
        let Some(after) = self.least_between(newest + 1, len) else {
            return before;
        };
        let Some(before) = before else {
            return Some(after);
        };
        Some(self.lesser(before, after))
    }

    /// The index of the outcome of least worth from `from` up to `to`, the first among equals; none if
    /// there is none.
    fn least_between(&self, from: usize, to: usize) -> Option<usize>
        requires { (from ≤ to) × (to ≤ length self.now.list) }
        ensures victim { IfSome result (IsLeastBetween self.now.list self.now.uses from to) }
        ensures some { from < to → IsSome result }
    {
        let least = least_of(
            &self.list[from..to],
            &self.steps[from..to],
            &self.used[from..to],
            self.uses,
        )?;
        Some(from + least)
    }

    /// The one of two indexes whose outcome has less worth, the first among equals.
    fn lesser(&self, first: usize, second: usize) -> usize
        ensures { Lesser self.now.list self.now.uses first second result }
    {
        let is_second = self
            .saving_at(second)
            .worth(self.uses)
            .is_less(self.saving_at(first).worth(self.uses));
        if is_second { second } else { first }
    }

    /// Counts a use of the outcome at `index`.
    #[inline]
    pub fn touch(&mut self, index: usize)
        ensures len { length self.new.list ≡ length self.old.list }
        ensures youngest { IfSome (slice_get self.new.list index) (λ saving. age self.new.uses saving ≡ 1) }
        ensures others { (n : ℕ) → (n ≡ index → ⊥) → slice_get self.new.list n ≡ slice_get self.old.list n }
        ensures counted { self.new.uses ≡ one_use_more self.old.uses }
    {
        let uses = self.uses.saturating_add(1);
        self.uses = uses;
        let saving = self.saving_at(index);
        self.put(
            index,
            Saving {
                used: uses,
                ..saving
            },
        );
    }

    /// Counts a use of the outcome from which a packet is stepped, if there is one.
    pub fn touch_any(&mut self, index: Option<usize>)
        ensures len { length self.new.list ≡ length self.old.list }
        ensures youngest { IfSome index (λ index. IfSome (slice_get self.new.list index) (λ saving. age self.new.uses saving ≡ 1)) }
        ensures counted { self.new.uses ≡ (if is_some index then one_use_more self.old.uses else self.old.uses) }
    {
        if let Some(index) = index {
            self.touch(index);
        }
    }

    /// Notes that an outcome was cached at `index`. It was stepped from the outcome at `from`, or from
    /// none.
    pub fn cached(&mut self, index: usize, from: Option<usize>)
        ensures len { length self.new.list ≡ length self.old.list }
        ensures youngest { IfSome (slice_get self.new.list index) (λ saving. age self.new.uses saving ≡ 1) }
        ensures others { (n : ℕ) → (n ≡ index → ⊥) → slice_get (map last_use self.new.list) n ≡ slice_get (map last_use self.old.list) n }
        ensures counted { self.new.uses ≡ one_use_more self.old.uses }
    {
        self.unlink(index);
        let saving = match from {
            Some(from) => self.saving_after(from),
            None => ALONE,
        };
        self.put(index, saving);
        self.set_next(saving.previous, link_to(index), 1);
        self.set_previous(saving.next, link_to(index), saving.after);
        self.touch(index);
    }

    /// Notes that the outcome at `index` was dropped, and that the one at `last` moved there.
    pub fn swap_remove(&mut self, index: usize, last: usize)
        ensures len { length self.new.list ≡ length self.old.list }
        ensures moved { (index ≡ last → ⊥) → index < length self.old.list → last < length self.old.list → slice_get (map last_use self.new.list) index ≡ slice_get (map last_use self.old.list) last }
        ensures others { (n : ℕ) → (n ≡ index → ⊥) → (n ≡ last → ⊥) → slice_get (map last_use self.new.list) n ≡ slice_get (map last_use self.old.list) n }
        ensures counted { self.new.uses ≡ self.old.uses }
    {
        self.unlink(index);
        let moved = self.saving_at(last);
        self.put(index, moved);
        self.put(last, ALONE);
        if index != last {
            self.set_next(moved.previous, link_to(index), moved.before);
            self.set_previous(moved.next, link_to(index), moved.after);
        }
    }

    /// What the outcome at `index` saves.
    fn saving_at(&self, index: usize) -> Saving
        ensures { IfSome (slice_get self.now.list index) (λ saving. saving ≡ result) }
    {
        match self.list.get(index) {
            Some(saving) => *saving,
            None => ALONE,
        }
    }

    /// What an outcome saves that was stepped from the one at `from`: it is between this one and the
    /// next one of its run.
    fn saving_after(&self, from: usize) -> Saving {
        let before = self.saving_at(from);
        Saving {
            before: 1,
            after: one_less(before.after),
            previous: link_to(from),
            ..before
        }
    }

    /// Takes the outcome at `index` out of its run: the ones before and after it are next to each
    /// other then, at the sum of their distances.
    fn unlink(&mut self, index: usize)
        ensures len { length self.new.list ≡ length self.old.list }
        ensures uses { map last_use self.new.list ≡ map last_use self.old.list }
        ensures counted { self.new.uses ≡ self.old.uses }
    {
        let saving = self.saving_at(index);
        let distance = saving.before.saturating_add(saving.after);
        self.set_next(saving.previous, saving.next, distance);
        self.set_previous(saving.next, saving.previous, distance);
    }

    /// Sets what the outcome at `index` saves, if the index exists.
    fn put(&mut self, index: usize, new: Saving)
        ensures { self.new ≡ record self.old { list = slice_set self.old.list index new } }
    {
        if index < self.list.len() {
            self.list[index] = new;
            self.steps[index] = new.steps();
            self.used[index] = new.used;
        }
    }

    /// Sets the outcome after the one at `index`, if there is one, and how many packets it is after it.
    fn set_next(&mut self, index: u16, next: u16, after: u16)
        ensures len { length self.new.list ≡ length self.old.list }
        ensures uses { map last_use self.new.list ≡ map last_use self.old.list }
        ensures counted { self.new.uses ≡ self.old.uses }
    {
        let saving = self.saving_at(index as usize);
        self.put(
            index as usize,
            Saving {
                next,
                after,
                ..saving
            },
        );
    }

    /// Sets the outcome before the one at `index`, if there is one, and how many packets it is before it.
    fn set_previous(&mut self, index: u16, previous: u16, before: u16)
        ensures len { length self.new.list ≡ length self.old.list }
        ensures uses { map last_use self.new.list ≡ map last_use self.old.list }
        ensures counted { self.new.uses ≡ self.old.uses }
    {
        let saving = self.saving_at(index as usize);
        self.put(
            index as usize,
            Saving {
                previous,
                before,
                ..saving
            },
        );
    }
}

/// The least worth so far, and its index.
#[derive(Clone, Copy)]
struct Least {
    victim: usize,
    worth: Worth,
}

/// The index of the least worth after this number of uses, the first among equals; none if there is
/// none. `steps` and `used` are those of the savings.
fn least_of(savings: &[Saving], steps: &[u32], used: &[u64], uses: u64) -> Option<usize>
    requires steps { steps.now ≡ map saved savings.now }
    requires used { used.now ≡ map last_use savings.now }
    ensures victim { IfSome result (IsVictim savings.now uses) }
    ensures some { 0 < length savings.now → IsSome result }
{
    let mut least = Least {
        victim: 0,
        worth: savings.first()?.worth(uses),
    };
    let mut at = 0;
    while at < savings.len() {
        let end = savings.len().min(at + GROUP);
        if is_any_less(&steps[at..end], &used[at..end], uses, least.worth) {
            least = least_in(savings, uses, at, end, least);
        }
        at = end;
    }
    Some(least.victim)
}

/// Whether any of these is worth less.
#[inline]
fn is_any_less(steps: &[u32], used: &[u64], uses: u64, least: Worth) -> bool
    requires { length used.now ≡ length steps.now }
    ensures { result ≡ false → NoneIsLess steps.now used.now uses least.saved least.age }
{
    let mut any = false;
    for index in 0..steps.len() {
        any |= worth_of(steps[index], used[index], uses).is_less(least);
    }
    any
}

/// The least worth of the savings before `end`, from that of those before `at`.
fn least_in(savings: &[Saving], uses: u64, at: usize, end: usize, least: Least) -> Least
    requires within { (at ≤ end) × (end ≤ length savings.now) }
    requires searched { Searched savings.now uses at least.victim least.worth.saved least.worth.age }
    ensures { Searched savings.now uses end result.victim result.worth.saved result.worth.age }
{
    let mut least = least;
    for index in at..end {
        let worth = savings[index].worth(uses);
        if worth.is_less(least.worth) {
            least = Least {
                victim: index,
                worth,
            };
        }
    }
    least
}

/// An index as it is stored.
fn link_to(index: usize) -> u16 {
    index.min(NONE as usize) as u16
}

/// The distance of a packet from the one after it, from that of the packet before it.
fn one_less(distance: u16) -> u16 {
    distance.saturating_sub(1).max(1)
}
