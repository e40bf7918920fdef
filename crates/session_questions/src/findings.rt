// The findings at packets of a store.
ghost use Rattle.std.specs.Prelude.{◌≡◌, ◌+◌, ◌≤◌, IfOk, IfSome, OnOk, drop, length, take, true};
ghost use Rattle.std.specs.List.{concat};
ghost use Rattle.std.specs.Io.KnownBytes.{Appends};
ghost use Rattle.macroblock_lists.specs.declared.layouts.Form.TheVariants as forms;
ghost use Rattle.packet_edits.specs.Saved.{packets_of};
ghost use Rattle.packet_edits.specs.Shown.{stream_of};
ghost use Rattle.packet_edits.specs.Sizes.{key_tag_at};
ghost use Rattle.macroblock_lists.specs.Known.{progress_over};
ghost use Rattle.session_questions.specs.Findings.{check_lines};
ghost use Rattle.session_questions.specs.Kept.{IsCheckedBy, IsKnownFor, IsLister, IsPace, IsReached, LeadsTo};
ghost use Rattle.stream_checks.specs.Checks.{each_after};
ghost use Rattle.stream_checks.specs.Packets.{findings_of_each, joined};
ghost use Rattle.stream_checks.specs.Severity.{tally_of};
ghost use Rattle.stream_checks.specs.Stamps.{pace_of};
ghost use Rattle.stream_checks.specs.Texts.{texts_of};

use crate::ahead::ahead_at;
use crate::lister::Lister;
use crate::reached::Reached;
use frame_header::has_key_tag;
use macroblock_lists::{Form, Knowledge};
use packet_edits::Store;
use pixel_planes::NoMemory;
use std::alloc::Global;
use std::io::Write;
use stream_checks::{
    CheckFault, Checker, Pace, PacketsBefore, Tally, add_stamp, pace_over, write_tally,
};
use vp8_tables::Tables;

/// How the time stamps of the shown packets go on.
fn pace_of(alloc: Global, store: &Store) -> Result<Pace, NoMemory>
    ensures pace { IfOk result (λ pace. pace ≡ pace_of (packets_of store.now.list)) }
    ensures positive { IfOk result (λ pace. 1 ≤ pace.step) }
{
    let mut stamps = Vec::new(alloc);
    for place in 0..store.len() {
        add_stamp(&mut stamps, store.stamp(place), store.packet(place))?;
    }
    pace_over(alloc, stamps.as_slice())
}

/// The known position, if it is no later than index `at`, or the first one.
fn nearest_before(
    store: &Store,
    known: Option<PacketsBefore>,
    step: u64,
    at: usize,
) -> PacketsBefore
    requires { IfSome known (IsCheckedBy step store.now.list) }
    ensures is { IsCheckedBy step store.now.list result }
    ensures before { result.packets ≤ at }
{
    if let Some(known) = known {
        if known.packets <= at {
            return known;
        }
    }
    PacketsBefore::first()
}

/// What the packets before index `at` are to the findings after them. `known` is what those before another index are, if that is known.
fn position_at(store: &Store, known: Option<PacketsBefore>, step: u64, at: usize) -> PacketsBefore
    requires within { at ≤ length store.now.list.entries }
    requires step { 1 ≤ step }
    requires known { IfSome known (IsCheckedBy step store.now.list) }
    ensures is { IsCheckedBy step store.now.list result }
    ensures packets { result.packets ≡ at }
{
    store.prove_few();
    let mut position = nearest_before(store, known, step, at);
    for place in position.packets..at {
        position = position.after(step, store.stamp(place), store.packet(place));
    }
    position
}

/// Whether decoding can start at the first of `count` packets: it has a key tag.
fn starts_at(store: &Store, first: usize, count: usize) -> bool
    requires { first + count ≤ length store.now.list.entries }
    ensures some { result ≡ true → 1 ≤ count }
    ensures key { result ≡ true → key_tag_at (stream_of store.now.list) first ≡ true }
{
    count > 0 && has_key_tag(store.packet(first))
}

/// Writes the findings at `count` packets, the first of which has the index `first` and comes after the checker's position, and returns their tally.
fn write_each<W: Write>(
    w: &mut W,
    tables: &Tables,
    store: &Store,
    checker: &mut Checker,
    first: usize,
    count: usize,
) -> Result<Tally, CheckFault>
    requires within { first + count ≤ length store.now.list.entries }
    requires packets { checker.old.position.packets ≡ first }
    requires frames { checker.old.position.frames ≤ first }
    requires step { 1 ≤ checker.old.pace.step }
    ensures written { OnOk result (Appends (W.contents w.old) (W.contents w.new) (texts_of checker.old.form (joined (take count (each_after tables.now checker.old (drop first (packets_of store.now.list))))))) }
    ensures counted { IfOk result (λ tally. tally ≡ tally_of (joined (take count (each_after tables.now checker.old (drop first (packets_of store.now.list)))))) }
    ensures few { IfOk result (λ tally. tally.damage + tally.notes ≤ 17825792) }
    ensures reader { OnOk result (checker.new.reader ≡ progress_over tables.now first checker.old.reader (take count (drop first (stream_of store.now.list)))) }
{
    store.prove_few();
    let mut tally = Tally::none();
    for at in first..first + count {
        let ahead = ahead_at(store, at);
        let more = checker.next(w, tables, store.stamp(at), store.packet(at), ahead)?;
        tally = tally.plus(more);
    }
    Ok(tally)
}

impl Lister {
    /// How the time stamps of the shown packets go on.
    fn known_pace(&mut self, store: &Store) -> Result<Pace, NoMemory>
        requires { IfSome self.old.pace (IsPace store.now.list) }
        ensures pace { IfOk result (IsPace store.now.list) }
        ensures kept { IfSome self.new.pace (IsPace store.now.list) }
        ensures rest { self.new ≡ record self.old { pace = self.new.pace } }
    {
        if let Some(pace) = self.pace {
            return Ok(pace);
        }
        let pace = pace_of(self.alloc, store)?;
        self.pace = Some(pace);
        Ok(pace)
    }

    /// What decoding knows before the first of `count` packets. Nothing is needed if it has a key tag.
    fn known_for(
        &mut self,
        tables: &Tables,
        store: &Store,
        first: usize,
        count: usize,
    ) -> Result<Knowledge, NoMemory>
        requires within { first + count ≤ length store.now.list.entries }
        requires kept { IfSome self.old.reached (IsReached tables.now store.now.list) }
        ensures known { IfOk result (IsKnownFor tables.now store.now.list first count) }
        ensures kept { IfSome self.new.reached (IsReached tables.now store.now.list) }
        ensures rest { self.new ≡ record self.old { reached = self.new.reached } }
    {
        if starts_at(store, first, count) {
            return Ok(Ok(None));
        }
        let Reached { progress, .. } = self.reach(tables, store, first)?;
        Ok(progress)
    }

    /// A checker before the first of `count` packets.
    fn checker_before(
        &mut self,
        tables: &Tables,
        store: &Store,
        first: usize,
        count: usize,
    ) -> Result<Checker, NoMemory>
        requires within { first + count ≤ length store.now.list.entries }
        requires kept { IsLister tables.now store.now.list self.old }
        ensures each { IfOk result (λ checker. each_after tables.now checker (drop first (packets_of store.now.list)) ≡ drop first (findings_of_each tables.now (packets_of store.now.list))) }
        ensures leads { IfOk result (λ checker. LeadsTo tables.now store.now.list (record { at = first; progress = checker.reader }) (first + count)) }
        ensures form { IfOk result (λ checker. checker.form ≡ forms.Objects) }
        ensures packets { IfOk result (λ checker. checker.position.packets ≡ first) }
        ensures frames { IfOk result (λ checker. checker.position.frames ≤ first) }
        ensures step { IfOk result (λ checker. 1 ≤ checker.pace.step) }
        ensures kept { IsLister tables.now store.now.list self.new }
    {
        let pace = self.known_pace(store)?;
        let position = position_at(store, self.checked, pace.step, first);
        self.checked = Some(position);
        let progress = self.known_for(tables, store, first, count)?;
        Ok(Checker::new(self.alloc, Form::Objects, pace, position, progress))
    }

    /// Writes the findings at `count` packets, the first of which has the index `first`, as JSON objects, a line each, as `vp8list --check
    /// --json` writes them of the file to which the packets are saved; then a line with how many are damage and how many are notes.
    /// It returns the number of these lines.
    ///
    /// The first question reads time stamps and sizes of all packets. Any question reads those from the packet on with which the last
    /// one began, headers and modes starting at the last packet with a key tag before `first`, or where the last question ended, if that
    /// is nearer, and the tokens of these packets. No sample is made. `NoMemory` if memory runs out for them, or for the time stamps: the
    /// findings at the packets before were written. `Write` if the writer returns an error: part of the lines may have been written.
    pub fn write_check<W: Write>(
        &mut self,
        w: &mut W,
        tables: &Tables,
        store: &Store,
        first: usize,
        count: usize,
    ) -> Result<u64, CheckFault>
        requires within { first + count ≤ length store.now.list.entries }
        requires kept { IsLister tables.now store.now.list self.old }
        ensures written { OnOk result (Appends (W.contents w.old) (W.contents w.new) (concat (check_lines tables.now store.now.list first count))) }
        ensures lines { IfOk result (λ lines. lines ≡ length (check_lines tables.now store.now.list first count)) }
        ensures kept { IsLister tables.now store.now.list self.new }
    {
        let Ok(checker) = self.checker_before(tables, store, first, count) else {
            return Err(CheckFault::NoMemory);
        };
        store.prove_few();
        let mut checker = checker;
        let tally = write_each(w, tables, store, &mut checker, first, count)?;
        self.reached = Some(Reached {
            at: first + count,
            progress: checker.reader.into_progress(),
        });
        match write_tally(w, tally) {
            Ok(()) => Ok(tally.damage + tally.notes + 1),
            Err(_) => Err(CheckFault::Write),
        }
    }
}
