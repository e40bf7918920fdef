// The macroblocks and the header of a packet of a store.
ghost use Rattle.std.specs.Prelude.{◌≡◌, ◌⊎◌, ℕ, ◌<◌, ◌≤◌, IfErr, IfOk, IfSome, None, OnOk, length, slice_get, true};
ghost use Rattle.std.specs.Io.KnownBytes.{Appends};
ghost use Rattle.frame_header.specs.Tags.{has_key_tag};
ghost use Rattle.macroblock_lists.specs.Fronts.{IsListEnd};
ghost use Rattle.packet_edits.specs.Saved.{packets_of};
ghost use Rattle.vp8_tables.specs.Tables.{TableEntries};
ghost use Rattle.session_questions.specs.Details.{detail_text};
ghost use Rattle.session_questions.specs.Kept.{IsLister, IsReached, LeadsTo};

use crate::lister::Lister;
use crate::reached::Reached;
use frame_header::has_key_tag;
use macroblock_lists::{Form, ListFault, Target, What, progress_after, write_packet};
use packet_edits::Store;
use pixel_planes::NoMemory;
use std::io::Write;
use std::mem;
use vp8_tables::Tables;

/// The index of the last packet with a key tag before index `at`, or 0.
fn key_before(store: &Store, at: usize) -> usize
    requires { at ≤ length store.now.list.entries }
    ensures within { result ≤ at }
    ensures key { (result ≡ 0) ⊎ (result < at) × IfSome (slice_get (packets_of store.now.list) result) (λ packet. has_key_tag packet.bytes ≡ true) }
{
    match store.last_key(at) {
        Some(place) => place,
        None => 0,
    }
}

/// Where headers and modes are read from for index `at`: the last packet with a key tag before it, before which nothing is needed, or
/// the packet before which so much is known, if that is nearer.
fn nearest_before(store: &Store, known: Option<Reached>, at: usize) -> Reached
    requires { at ≤ length store.now.list.entries }
    ensures { (tables : TableEntries) → IfSome known (IsReached tables store.now.list) → LeadsTo tables store.now.list result at }
{
    let key = key_before(store, at);
    if let Some(known) = known {
        if key <= known.at && known.at <= at {
            return known;
        }
    }
    Reached {
        at: key,
        progress: Ok(None),
    }
}

impl Lister {
    /// What decoding knows before the packet at index `at`. It is no longer kept then.
    pub(crate) fn reach(
        &mut self,
        tables: &Tables,
        store: &Store,
        at: usize,
    ) -> Result<Reached, NoMemory>
        requires within { at ≤ length store.now.list.entries }
        requires kept { IfSome self.old.reached (IsReached tables.now store.now.list) }
        ensures at { IfOk result (λ reached. reached.at ≡ at) }
        ensures reached { IfOk result (IsReached tables.now store.now.list) }
        ensures kept { self.new ≡ record self.old { reached = None } }
    {
        let known = mem::replace(&mut self.reached, None);
        let Reached {
            at: start,
            progress,
        } = nearest_before(store, known, at);
        let mut progress = progress;
        for place in start..at {
            progress = progress_after(self.alloc, tables, place, progress, store.packet(place))?;
        }
        Ok(Reached { at, progress })
    }

    /// Writes what the packet at index `at` is made of, its macroblocks or its header, as JSON objects, a line each: the text that
    /// `vp8list --macroblocks` and `--header` write with `--json` of the file to which the packets are saved.
    ///
    /// Headers and modes are read of the packets before it, starting at the last packet with a key tag, or at the last packet for which
    /// this was asked, if that is nearer, and its tokens. A packet with a key tag is read alone. No sample is made. `NoMemory` if memory
    /// runs out for records, partitions or flags: the front of the text was written. `Write` if the writer returns an error: part of
    /// the text may have been written.
    pub fn write_details<W: Write>(
        &mut self,
        w: &mut W,
        tables: &Tables,
        what: What,
        store: &Store,
        at: usize,
    ) -> Result<(), ListFault>
        requires within { at < length store.now.list.entries }
        requires kept { IsLister tables.now store.now.list self.old }
        ensures written { OnOk result (Appends (W.contents w.old) (W.contents w.new) (detail_text what tables.now store.now.list at)) }
        ensures early { IfErr result (IsListEnd (detail_text what tables.now store.now.list at) (W.contents w.old) (W.contents w.new)) }
        ensures kept { IsLister tables.now store.now.list self.new }
    {
        let packet = store.packet(at);
        let target = Target {
            what,
            form: Form::Objects,
            place: at,
        };
        if has_key_tag(packet) {
            let nothing = Ok(None);
            return write_packet(w, self.alloc, tables, target, &nothing, packet);
        }
        let reached = self.reach(tables, store, at)?;
        let written = write_packet(w, self.alloc, tables, target, &reached.progress, packet);
        self.reached = Some(reached);
        written
    }
}
