ghost use Rattle.std.specs.Prelude.{◌≡◌, ◌+◌, ◌-◌, ◌^◌, ◌<◌, ◌≤◌, ◌&&◌, ◌⊎◌, ℕ, [], cond, length, nat_eq, not, IfErr, IfOk, IfSome, IsSome, None, OnErr, OnOk, Result, Some, false, is_ok, is_some, min, option_copied, option_map, true};
ghost use Rattle.std.specs.Map.{lookup};
ghost use Rattle.frame_header.specs.declared.cause.Cause.{Cause};
ghost use Rattle.packet_edits.specs.Nearest.{IsLast};
ghost use Rattle.pixel_planes.specs.Pictures.{PictureSamples};
ghost use Rattle.reference_frames.specs.Steps.{StepAnswers};
ghost use Rattle.reference_frames.specs.States.{StateValue};
ghost use Rattle.state_cache.specs.Bytes.{IsWithinBytes, bytes_in, cached_bytes, outcome_bytes};
ghost use Rattle.state_cache.specs.Costs.{Costs, most_steps};
ghost use Rattle.state_cache.specs.Evictions.{Evicts};
ghost use Rattle.state_cache.specs.Faults.{is_share_fault};
ghost use Rattle.state_cache.specs.Reaching.{Begins, IsNext, Converged, OthersDrop, OthersStay, Reaches, passed_marks, view_of};
ghost use Rattle.state_cache.specs.ProofsOnly.{next_of, outcome_from, Advances, IsAfterCached, IsCounted, IsNewest, IsShed, IsWithout, AnswersAt, CachedAnswers, IterationAnswers, Reports};
ghost use Rattle.state_cache.specs.Walks.{HasRoomFor, IsPut, IsIteration, IsWalk, IsWalkStep, ConvergesWithSame};
ghost use Rattle.state_cache.specs.Views.{Drops, IsCoherent, is_usable, cached_at, cached_in, key_at, marked_packets, same_key, with_cached, mark_at};

use crate::bytes::{bytes_in, is_over, outcome_bytes};
use crate::capacity::Capacity;
use crate::counted_steps::{StepCount, decode_counted};
use crate::outcomes::{Kept, PacketKey, ReachFault};
use crate::savings::Savings;
use indexmap::IndexMap;
use packet_edits::Store;
use pixel_planes::{NoMemory, Picture, Recycled};
use reference_frames::{State, StepFault, same_state};
use std::alloc::Global;
use std::marker::Model;
use stream_steps::Broken;
use vp8_tables::Tables;

/// Good outcomes of packets, cached by source and id, and the number of steps made.
#[derive(Drop)]
pub struct Cache {
    alloc: Global,
    capacity: Capacity,
    // The bytes of the cached outcomes, counted only if the capacity has a limit in bytes.
    bytes: u64,
    kept: IndexMap<PacketKey, Kept>,
    savings: Savings,
    steps: StepCount,
    // The planes of an outcome that was dropped, for the next step.
    recycled: Recycled,
}

impl Model for Cache {
    ghost use Rattle.std.specs.Prelude.{◌<◌, ◌≤◌, length};
    ghost use Rattle.state_cache.specs.ProofsOnly.{IsCounted};
    ghost use Rattle.state_cache.specs.Reaching.{CacheValue};

    ghost Value = { CacheValue };

    ghost view = { λ c. record { entries = c.kept.entries; capacity = c.capacity; decoded = c.steps } };

    ghost invariant = { λ c. (length c.kept.entries ≤ c.capacity.states) × (0 < c.capacity.states) × (c.capacity.states < length c.savings.list) × IsCounted c.capacity.bytes c.bytes c.kept.entries };
}

impl Cache {
    /// An empty cache of this capacity, of 1 to 4,096 outcomes.
    ///
    /// `NoMemory` if memory for its table was refused.
    pub fn new(alloc: Global, capacity: Capacity) -> Result<Cache, NoMemory>
        requires { (1 ≤ capacity.states) × (capacity.states ≤ 4096) }
        ensures { IfOk result (λ cache. cache ≡ record { entries = []; capacity = capacity; decoded = 0 }) }
    {
        let states = capacity.states as usize;
        // One more, since an outcome is dropped only after another was inserted.
        let kept = IndexMap::with_capacity(alloc, states + 1)?;
        let savings = Savings::new(alloc, states + 1)?;
        Ok(Cache {
            alloc,
            capacity,
            bytes: 0,
            kept,
            savings,
            steps: StepCount::new(),
            recycled: Recycled::new(),
        })
    }

    /// The number of decoding steps made, refused ones included; at most
    /// 18,446,744,073,709,551,615.
    pub fn decoded(&self) -> u64
        ensures value { result ≡ self.now.decoded }
        ensures most { result ≤ most_steps }
    {
        self.steps.made()
    }

    /// Does nothing. Its contract: the cached outcomes are within the capacity, and the number of
    /// steps is a `u64`.
    fn prove_few(&self)
        ensures bounded { length self.now.entries ≤ self.now.capacity.states }
        ensures within { IsWithinBytes self.now.capacity.bytes self.now.entries }
        ensures most { self.now.decoded ≤ most_steps }
    {
        let _most = self.steps.made();
    }

    /// The outcome at index `place`, which exists, of the packets of `source`: the result of
    /// decoding from the start of the stream up to this packet. It continues from cached outcomes
    /// of the same source, one step at a time.
    ///
    /// Each packet after the greatest usable index, up to `place`, is stepped at most once, and
    /// none if `place` is usable. If the new outcomes fit next to the cached ones of all sources, and
    /// the capacity has no limit in bytes, exactly the indexes that are not settled are stepped, and
    /// nothing is dropped. Otherwise outcomes of any source may be dropped, but not the newest one.
    /// No outcome of another source changes.
    ///
    /// `Refused` if the stream is broken there, with the index and the cause of the break;
    /// `NoMemory` if a step was refused memory first; `TooManyShares` if the outcome is cached, as at
    /// a usable index, but a part of it is shared as often as can be counted. In every case the
    /// packets are unchanged, the cache stays valid, and without a limit in bytes it has no fewer
    /// outcomes. A refused step changes only the number of steps.
    pub fn reach(
        &mut self,
        tables: &Tables,
        source: usize,
        store: &mut Store,
        place: usize,
    ) -> Result<Kept, ReachFault>
        requires place { place < length store.old.list.entries }
        requires coherent { IsCoherent tables.now (marked_packets store.old) (view_of source self.old) }
        ensures reaches { Reaches tables.now store.old.list place result }
        ensures fault { IfErr result (λ fault. is_usable (marked_packets store.new) (view_of source self.new) place ≡ is_share_fault fault) }
        ensures list { store.new.list ≡ store.old.list }
        ensures coherent { IsCoherent tables.now (marked_packets store.new) (view_of source self.new) }
        ensures others { OthersDrop source self.old self.new }
        ensures costs { Costs tables.now source store.old self.old place (is_ok result) store.new self.new }
        ensures walks { IsWalk tables.now source store.old self.old place (is_ok result) store.new self.new }
    {
        self.prove_few();
        let mut next = self.next_step(source, store, place);
        while next <= place {
            match self.advance(tables, source, store, place, next) {
                Ok(further) => next = further,
                Err(fault) => {
                    self.prove_few();
                    return Err(fault);
                }
            }
        }
        self.answer(source, store, place)
    }

    /// The cached outcome of the packet at `place`. It counts as used. `NoMemory` if none is cached.
    fn answer(&mut self, source: usize, store: &Store, place: usize) -> Result<Kept, ReachFault>
        requires { place < length store.now.list.entries }
        ensures kept { CachedAnswers (marked_packets store.now) (view_of source self.old) place result }
        ensures bounded { length self.old.entries ≤ self.old.capacity.states }
        ensures within { IsWithinBytes self.old.capacity.bytes self.old.entries }
        ensures same { self.new ≡ self.old }
    {
        self.prove_few();
        let id = store.id(place);
        let Some((index, _, kept)) = self.kept.get_full(&PacketKey { source, id }) else {
            return Err(ReachFault::NoMemory);
        };
        self.savings.touch(index);
        match kept.again() {
            Ok(kept) => Ok(kept),
            Err(_) => Err(ReachFault::TooManyShares),
        }
    }

    /// Steps the packet at `next`, the first index to step on the way to `place`, and returns the
    /// index to step next.
    fn advance(
        &mut self,
        tables: &Tables,
        source: usize,
        store: &mut Store,
        place: usize,
        next: usize,
    ) -> Result<usize, ReachFault>
        requires place { place < length store.old.list.entries }
        requires coherent { IsCoherent tables.now (marked_packets store.old) (view_of source self.old) }
        requires first { IsNext (marked_packets store.old) (view_of source self.old) place next }
        requires low { next ≤ place }
        ensures list { store.new.list ≡ store.old.list }
        ensures coherent { IsCoherent tables.now (marked_packets store.new) (view_of source self.new) }
        ensures step_result { IfErr result (λ fault. Reports tables.now store.old.list next fault) }
        ensures refused { OnErr result ((store.new ≡ store.old) × (self.new.entries ≡ self.old.entries)) }
        ensures counted { self.new.decoded ≡ min (self.old.decoded + 1) most_steps }
        ensures capacity { self.new.capacity ≡ self.old.capacity }
        ensures advances { IfOk result (λ further. Advances tables.now source store.old self.old place next store.new self.new further) }
        ensures walks { IfOk result (λ further. IsWalkStep tables.now source store.old self.old place next store.new self.new further) }
    {
        store.prove_few();
        let is_joined = match self.iterate(tables, source, store, next) {
            Ok(is_joined) => is_joined,
            Err(fault) => return Err(fault),
        };
        if is_joined {
            Ok(self.after_cached(source, store, next, place))
        } else {
            Ok(next + 1)
        }
    }

    /// Steps the packet at `place`, caches its outcome and passes its mark. Returns whether its
    /// mark was a cut and is removed because the states converge.
    fn iterate(
        &mut self,
        tables: &Tables,
        source: usize,
        store: &mut Store,
        place: usize,
    ) -> Result<bool, ReachFault>
        requires place { place < length store.old.list.entries }
        requires coherent { IsCoherent tables.now (marked_packets store.old) (view_of source self.old) }
        requires begins { Begins (marked_packets store.old) (view_of source self.old) place }
        requires missing { is_usable (marked_packets store.old) (view_of source self.old) place ≡ false }
        ensures list { store.new.list ≡ store.old.list }
        ensures coherent { IsCoherent tables.now (marked_packets store.new) (view_of source self.new) }
        ensures usable { OnOk result (is_usable (marked_packets store.new) (view_of source self.new) place ≡ true) }
        ensures step_result { IfErr result (λ fault. Reports tables.now store.old.list place fault) }
        ensures refused { OnErr result ((store.new ≡ store.old) × (self.new.entries ≡ self.old.entries)) }
        ensures counted { self.new.decoded ≡ min (self.old.decoded + 1) most_steps }
        ensures capacity { self.new.capacity ≡ self.old.capacity }
        ensures number { self.old.capacity.bytes ≡ None → length self.old.entries ≤ length self.new.entries }
        ensures iterated { IfOk result (λ joined. IsIteration source store.old self.old place joined store.new self.new) }
    {
        store.prove_few();
        self.prove_few();
        let new = match self.stepped(tables, source, store, place) {
            Ok(new) => new,
            Err(fault) => return Err(fault),
        };
        let is_cut = is_cut(store, place);
        let id = store.id(place);
        let from = index_before(&self.kept, source, store, place);
        let Ok(has_converged) = self.keep(PacketKey { source, id }, new, from) else {
            return Err(ReachFault::NoMemory);
        };
        Ok(pass_mark(store, place, is_cut, has_converged))
    }

    /// The index after the last cached one of a run, from `first`, which is cached, up to `place`.
    fn after_cached(&self, source: usize, store: &Store, first: usize, place: usize) -> usize
        requires within { (first ≤ place) × (place < length store.now.list.entries) }
        requires kept { cached_at (marked_packets store.now) (view_of source self.now) first ≡ true }
        ensures { IsAfterCached (marked_packets store.now) (view_of source self.now) first place result }
    {
        store.prove_few();
        let key = store.next_key(first + 1, place + 1);
        let run = key.unwrap_or(place + 1);
        let mark = store.next_mark(first + 1, run);
        let last = self.last_cached(source, store, first, mark.unwrap_or(run));
        last.unwrap_or(first) + 1
    }

    /// Steps the packet at `place`, and counts the step.
    fn stepped(
        &mut self,
        tables: &Tables,
        source: usize,
        store: &Store,
        place: usize,
    ) -> Result<Kept, ReachFault>
        requires { place < length store.now.list.entries }
        ensures gives { IterationAnswers tables.now (marked_packets store.now) (view_of source self.old) place result }
        ensures counted { self.new ≡ record self.old { decoded = min (self.old.decoded + 1) most_steps } }
    {
        let before = outcome_before(&self.kept, source, store, place);
        let state = state_of(before);
        let packet = store.packet(place);
        let recycled = &mut self.recycled;
        let answer = decode_counted(&mut self.steps, self.alloc, tables, recycled, state, packet);
        outcome_of_step(place, answer)
    }

    /// Caches an outcome, stepped from the one at the index `from`, if there is one; if the cache is
    /// full, it then drops the victim, and if it is over its limit in bytes, one victim after the other,
    /// but not the new outcome. Returns whether an outcome with the same state was cached for this key.
    /// If memory is refused, no outcome changes.
    fn keep(&mut self, key: PacketKey, new: Kept, from: Option<usize>) -> Result<bool, NoMemory>
        ensures drops { OnOk result ((q : ℕ) → Drops (view_of key.source self.new q) (with_cached (view_of key.source self.old) key.id new q)) }
        ensures others { OnOk result (OthersDrop key.source self.old self.new) }
        ensures kept { OnOk result (view_of key.source self.new key.id ≡ Some new) }
        ensures converged { IfOk result (λ converged. Converged converged (view_of key.source self.old key.id) new) }
        ensures converges_with_same { IfOk result (λ converged. ConvergesWithSame converged (view_of key.source self.old key.id) new) }
        ensures room { OnOk result (HasRoomFor key.source self.old key.id new → IsPut key.source self.old key.id new self.new) }
        ensures number { self.old.capacity.bytes ≡ None → length self.old.entries ≤ length self.new.entries }
        ensures same { OnErr result (self.new ≡ self.old) }
        ensures rest { (self.new.capacity ≡ self.old.capacity) × (self.new.decoded ≡ self.old.decoded) }
    {
        let has_converged = self.converges(key, &new);
        self.savings.touch_any(from);
        let states = self.capacity.states as usize;
        let victim = victim_of(&self.savings, &self.kept, states, key);
        let bytes = outcome_bytes(&new);
        match self.kept.insert_full(key, new) {
            Ok((index, replaced)) => {
                self.savings.cached(index, from);
                let evicted = evict(&mut self.savings, &mut self.kept, victim);
                let others = self
                    .bytes
                    .saturating_sub(bytes_in(&replaced))
                    .saturating_sub(bytes_in(&evicted));
                let limit = self.capacity.bytes;
                let newest = Newest { key, bytes };
                self.bytes = shed(
                    &mut self.savings,
                    &mut self.kept,
                    &mut self.recycled,
                    newest,
                    others,
                    limit,
                );
                drop_into(replaced, &mut self.recycled);
                drop_into(evicted, &mut self.recycled);
                Ok(has_converged)
            }
            Err(_) => Err(NoMemory),
        }
    }

    /// Whether the outcome cached for a key has the same state as this outcome.
    fn converges(&self, key: PacketKey, new: &Kept) -> bool
        ensures converged { Converged result (view_of key.source self.now key.id) new.now }
        ensures converges_with_same { ConvergesWithSame result (view_of key.source self.now key.id) new.now }
    {
        match self.kept.get(&key) {
            Some(old) => same_state(&old.state, &new.state),
            None => false,
        }
    }

    /// Drops the outcome cached for an id of a source. All others are unchanged.
    pub fn edited(&mut self, source: usize, id: u64)
        ensures dropped { view_of source self.new id ≡ None }
        ensures others { (q : ℕ) → (q ≡ id → ⊥) → view_of source self.new q ≡ view_of source self.old q }
        ensures other_sources { OthersStay source self.old self.new }
        ensures bounded { length self.new.entries ≤ self.new.capacity.states }
        ensures within { IsWithinBytes self.new.capacity.bytes self.new.entries }
        ensures rest { (self.new.capacity ≡ self.old.capacity) × (self.new.decoded ≡ self.old.decoded) }
    {
        let dropped = remove(&mut self.savings, &mut self.kept, PacketKey { source, id });
        self.bytes = self.bytes.saturating_sub(bytes_in(&dropped));
        drop_into(dropped, &mut self.recycled);
    }

    /// Whether an outcome of the packet at `place` is cached.
    fn holds(&self, source: usize, store: &Store, place: usize) -> bool
        requires { place < length store.now.list.entries }
        ensures { result ≡ cached_at (marked_packets store.now) (view_of source self.now) place }
    {
        let id = store.id(place);
        self.kept.contains_key(&PacketKey { source, id })
    }

    /// The last index from `from` up to `end` at which an outcome is cached, or `None`.
    fn last_cached(&self, source: usize, store: &Store, from: usize, end: usize) -> Option<usize>
        requires { (from ≤ end) × (end ≤ length store.now.list.entries) }
        ensures { IsLast (cached_at (marked_packets store.now) (view_of source self.now)) from end result }
    {
        let mut at = end;
        while at > from {
            at -= 1;
            if self.holds(source, store, at) {
                return Some(at);
            }
        }
        None
    }

    /// The first index to step on the way to `place`. A usable index is a cached one from the last
    /// key tag on, or from index 0 if there is none, and before the next mark; a mark on the packet
    /// with the key tag has no effect.
    fn next_step(&self, source: usize, store: &Store, place: usize) -> usize
        requires { place < length store.now.list.entries }
        ensures { IsNext (marked_packets store.now) (view_of source self.now) place result }
    {
        store.prove_few();
        let key = store.last_key(place + 1);
        let first = next_after(key, 0);
        let mark = store.next_mark(first, place + 1);
        let from = key.unwrap_or(0);
        let found = self.last_cached(source, store, from, mark.unwrap_or(place + 1));
        next_after(found, from)
    }
}

/// The index of the outcome to drop once another is inserted for `key`: none if an outcome is cached
/// for `key`, or there is room.
fn victim_of(
    savings: &Savings,
    kept: &IndexMap<PacketKey, Kept>,
    capacity: usize,
    key: PacketKey,
) -> Option<usize>
    requires few { length kept.now.entries ≤ capacity }
    requires some { 0 < capacity }
    requires savings { capacity < length savings.now.list }
    ensures { Evicts savings.now kept.now.entries capacity key result }
{
    if kept.contains_key(&key) || kept.len() < capacity {
        return None;
    }
    savings.least(kept.len())
}

/// Removes the outcome at the index of the victim, if there is one to drop, and returns it.
fn evict(
    savings: &mut Savings,
    kept: &mut IndexMap<PacketKey, Kept>,
    victim: Option<usize>,
) -> Option<Kept>
    requires { IfSome victim (λ index. index < length kept.old.entries) }
    ensures without { IsWithout victim kept.old.entries kept.new.entries }
    ensures bytes { cached_bytes kept.new.entries + bytes_in result ≡ cached_bytes kept.old.entries }
    ensures savings { length savings.new.list ≡ length savings.old.list }
{
    let victim = victim?;
    let (_, outcome) = kept.swap_remove_index(victim)?;
    savings.swap_remove(victim, kept.len());
    Some(outcome)
}

/// The newest outcome: its key, and the bytes of its pictures.
#[derive(Clone, Copy)]
struct Newest {
    key: PacketKey,
    bytes: u64,
}

/// Drops the victim among the outcomes other than the newest one, as long as they are over the limit
/// and there is another one. `others` are the bytes of the others. Nothing is dropped without a limit.
/// Returns the bytes of the outcomes that remain, or 0 without a limit.
fn shed(
    savings: &mut Savings,
    kept: &mut IndexMap<PacketKey, Kept>,
    recycled: &mut Recycled,
    newest: Newest,
    others: u64,
    limit: Option<u64>,
) -> u64
    requires savings { length kept.old.entries ≤ length savings.old.list }
    requires newest { IsNewest newest.key newest.bytes kept.old.entries }
    requires counted { IfSome limit (λ limit. others + newest.bytes ≡ cached_bytes kept.old.entries) }
    ensures shed { IsShed newest.key kept.old.entries kept.new.entries }
    ensures counted { IsCounted limit result kept.new.entries }
    ensures fits { ((bytes : ℕ) → limit ≡ Some bytes → cached_bytes kept.old.entries ≤ bytes) → kept.new.entries ≡ kept.old.entries }
    ensures savings { length savings.new.list ≡ length savings.old.list }
{
    match limit {
        Some(limit) => shed_to(savings, kept, recycled, newest, others, limit),
        None => 0,
    }
}

/// The same with a limit.
fn shed_to(
    savings: &mut Savings,
    kept: &mut IndexMap<PacketKey, Kept>,
    recycled: &mut Recycled,
    newest: Newest,
    others: u64,
    limit: u64,
) -> u64
    requires savings { length kept.old.entries ≤ length savings.old.list }
    requires newest { IsNewest newest.key newest.bytes kept.old.entries }
    requires counted { others + newest.bytes ≡ cached_bytes kept.old.entries }
    ensures shed { IsShed newest.key kept.old.entries kept.new.entries }
    ensures counted { result ≡ cached_bytes kept.new.entries }
    ensures within { (result ≤ limit) ⊎ (length kept.new.entries ≤ 1) }
    ensures fits { cached_bytes kept.old.entries ≤ limit → kept.new.entries ≡ kept.old.entries }
    ensures savings { length savings.new.list ≡ length savings.old.list }
{
    let mut others = others;
    while kept.len() > 1 && is_over(newest.bytes, others, limit) {
        let dropped = drop_other(savings, kept, newest.key);
        others -= bytes_in(&dropped);
        drop_into(dropped, recycled);
    }
    others + newest.bytes
}

/// Removes the victim among the outcomes other than the one cached for a key, and returns it.
fn drop_other(
    savings: &mut Savings,
    kept: &mut IndexMap<PacketKey, Kept>,
    key: PacketKey,
) -> Option<Kept>
    requires savings { length kept.old.entries ≤ length savings.old.list }
    requires some { IsSome (lookup (same_key key) kept.old.entries) }
    ensures shed { IsShed key kept.old.entries kept.new.entries }
    ensures bytes { cached_bytes kept.new.entries + bytes_in result ≡ cached_bytes kept.old.entries }
    ensures fewer { 1 < length kept.old.entries → length kept.new.entries + 1 ≡ length kept.old.entries }
    ensures savings { length savings.new.list ≡ length savings.old.list }
{
    let newest = kept.get_index_of(&key)?;
    let victim = savings.least_other(kept.len(), newest);
    evict(savings, kept, victim)
}

/// Removes the outcome cached for a key, if there is one, and returns it.
fn remove(
    savings: &mut Savings,
    kept: &mut IndexMap<PacketKey, Kept>,
    key: PacketKey,
) -> Option<Kept>
    ensures without { (other : PacketKey) → lookup (same_key other) kept.new.entries ≡ cond (same_key key other) None (lookup (same_key other) kept.old.entries) }
    ensures fewer { length kept.new.entries ≤ length kept.old.entries }
    ensures bytes { cached_bytes kept.new.entries + bytes_in result ≡ cached_bytes kept.old.entries }
    ensures savings { length savings.new.list ≡ length savings.old.list }
{
    let index = kept.get_index_of(&key);
    evict(savings, kept, index)
}

/// Drops an outcome, if there is one. Planes that nothing else shares become the recycled ones.
fn drop_into(outcome: Option<Kept>, recycled: &mut Recycled) {
    if let Some(outcome) = outcome {
        outcome.drop_into(recycled);
    }
}

/// The answer of the step at `place` as an outcome of its packet.
fn outcome_of_step(
    place: usize,
    answer: Result<(State, Picture), StepFault>,
) -> Result<Kept, ReachFault>
    ensures { (want : Result (StateValue × PictureSamples) Cause) → StepAnswers want answer → AnswersAt place want result }
{
    match answer {
        Ok((state, picture)) => Ok(Kept { state, picture }),
        Err(StepFault::Refused(cause)) => Err(ReachFault::Refused(Broken { place, cause })),
        Err(StepFault::NoMemory) => Err(ReachFault::NoMemory),
    }
}

/// The state of an outcome.
fn state_of(outcome: Option<&Kept>) -> Option<&State>
    ensures { option_copied result ≡ option_map (λ kept. kept.state) (option_copied outcome.entry) }
{
    match outcome {
        Some(kept) => Some(&kept.state),
        None => None,
    }
}

/// The outcome from whose state the packet at `place` is stepped.
fn outcome_before<'a>(
    kept: &'a IndexMap<PacketKey, Kept>,
    source: usize,
    store: &Store,
    place: usize,
) -> Option<&'a Kept>
    requires { place < length store.now.list.entries }
    ensures { option_copied result ≡ outcome_from (marked_packets store.now) (cached_in kept.now.entries source) place }
{
    if has_key(store, place) {
        return None;
    }
    if place == 0 {
        return None;
    }
    let id = store.id(place - 1);
    kept.get(&PacketKey { source, id })
}

/// The index in the map of the outcome from whose state the packet at `place` is stepped.
fn index_before(
    kept: &IndexMap<PacketKey, Kept>,
    source: usize,
    store: &Store,
    place: usize,
) -> Option<usize>
    requires { place < length store.now.list.entries }
{
    if has_key(store, place) {
        return None;
    }
    if place == 0 {
        return None;
    }
    let id = store.id(place - 1);
    kept.get_index_of(&PacketKey { source, id })
}

/// Whether the packet at `place` has a key tag.
fn has_key(store: &Store, place: usize) -> bool
    requires { place < length store.now.list.entries }
    ensures { result ≡ key_at (marked_packets store.now) place }
{
    store.has_key_tag(place)
}

/// Whether the packet at `place` is marked.
fn is_marked(store: &Store, place: usize) -> bool
    requires { place < length store.now.list.entries }
    ensures { result ≡ mark_at (marked_packets store.now) place }
{
    store.marked(place)
}

/// Whether the packet at `place` is a cut because of its mark: marked, with no key tag.
fn is_cut(store: &Store, place: usize) -> bool
    requires { place < length store.now.list.entries }
    ensures { result ≡ (mark_at (marked_packets store.now) place && not (key_at (marked_packets store.now) place)) }
{
    let is_key = has_key(store, place);
    is_marked(store, place) && !is_key
}

/// Passes the mark of a packet that was stepped: removes it if the states converge, else moves it
/// to the next packet. Returns whether the runs on both sides of the packet are now one.
fn pass_mark(store: &mut Store, place: usize, is_cut: bool, has_converged: bool) -> bool
    requires { place < length store.old.list.entries }
    ensures marks { store.new ≡ record store.old { marks = passed_marks is_cut has_converged place store.old.marks } }
    ensures joined { result ≡ (is_cut && has_converged) }
{
    if !is_cut {
        return false;
    }
    store.clear_mark(place);
    if has_converged {
        return true;
    }
    let len = store.len();
    if place < len - 1 {
        store.set_mark(place + 1);
    }
    false
}

/// The index after the one that a search found, or `place` if it found none.
fn next_after(found: Option<usize>, place: usize) -> usize
    requires { IfSome found (λ found. found < 2 ^ 63) }
    ensures { result ≡ next_of found place }
{
    match found {
        Some(found) => found + 1,
        None => place,
    }
}
