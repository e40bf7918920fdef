ghost use Rattle.std.specs.Prelude.{◌≡◌, ◌<◌, List, if◌then◌else◌, is_ok, length, slice_set};
ghost use Rattle.packet_edits.specs.Edits.{Listing, refused_copy};
ghost use Rattle.packet_edits.specs.Faults.{IsFirstOrNoMemory};
ghost use Rattle.frame_session.specs.Cached.{lists_of, marks_after, store_at, store_copied, stores_after};
ghost use Rattle.vp8_tables.specs.declared.tables.Tables.{Tables};
ghost use Rattle.frame_session.specs.Edits.{EditAnswers, after_edit, edit_of};
ghost use Rattle.frame_session.specs.IsOrNoMemory.{IsOrNoMemory};

use crate::forged::{insert_blank, insert_hold};
use crate::refusal::Refusal;
use packet_edits::{EditFault, Store};
use request_lines::Edit;
use std::alloc::Global;
use stream_files::Bytes;
use vp8_tables::Tables;

/// Makes an edit of the packets of source `current`, and returns their new number.
///
/// Refusals come in this order. An insertion: `Place`, `Full`, `Spent`, `NoMemory`. A copy: `Source`, and
/// then those of an insertion. A forged packet: `Place`, `Full`, `Spent`, `Size`, `TooLarge`, `NoMemory`;
/// `NoMemory` may also come instead of `TooLarge`. A replacement: `Place`, `Spent`. A change of a show bit: `Place`,
/// `NoBit`, `NoMemory`. The others: `Place`. A refused edit changes nothing, and no edit changes another source.
pub fn make_edit(
    alloc: Global,
    tables: &Tables,
    stores: &mut [Store],
    current: usize,
    edit: Edit,
) -> Result<u64, Refusal>
    requires { current < length stores.old }
    ensures returned { EditAnswers tables.now (lists_of stores.old) (store_at stores.old current).list edit result }
    ensures after { stores.new ≡ stores_after tables.now current edit stores.old result }
{
    match edit {
        Edit::Insert { at, stamp, bytes } => insert(&mut stores[current], at, stamp, bytes),
        Edit::Replace { at, bytes } => replace(&mut stores[current], at, bytes),
        Edit::Delete { at } => delete(&mut stores[current], at),
        Edit::Move { from, to } => move_to(&mut stores[current], from, to),
        Edit::Copy { source, from, at } => copy(stores, current, source, from, at),
        Edit::Blank { at, width, height } => {
            insert_blank(alloc, tables, &mut stores[current], at, width, height)
        }
        Edit::Hold { at } => insert_hold(alloc, tables, &mut stores[current], at),
        Edit::ShowBit { at, shown } => set_show_bit(&mut stores[current], at, shown),
    }
}

/// Inserts a copy of packet `from` of a source at index `at` of source `current`.
fn copy(
    stores: &mut [Store],
    current: usize,
    source: u64,
    from: u64,
    at: u64,
) -> Result<u64, Refusal>
    requires { current < length stores.old }
    ensures returned { (tables : Tables) → IsOrNoMemory (edit_of tables (lists_of stores.old) (store_at stores.old current).list (Edit.Copy source from at)) result }
    ensures after { (tables : Tables) → stores.new ≡ stores_after tables current (Edit.Copy source from at) stores.old result }
{
    if source >= stores.len() as u64 {
        return Err(Refusal::Source);
    }
    match copy_packet(stores, current, source as usize, from, at) {
        Ok(()) => Ok(stores[current].len() as u64),
        Err(fault) => Err(Refusal::by(fault)),
    }
}

/// Inserts a copy of packet `from` of source `source` at index `at` of source `current`. Both exist.
fn copy_packet(
    stores: &mut [Store],
    current: usize,
    source: usize,
    from: u64,
    at: u64,
) -> Result<(), EditFault>
    requires current { current < length stores.old }
    requires source { source < length stores.old }
    ensures answers { IsFirstOrNoMemory (refused_copy (store_at stores.old current).list at (store_at stores.old source).list from) result }
    ensures after { stores.new ≡ (if is_ok result then slice_set stores.old current (store_copied at (store_at stores.old source).list from (store_at stores.old current)) else stores.old) }
{
    if source == current {
        return stores[current].copy_within(at, from);
    }
    if source < current {
        let (front, back) = stores.split_at_mut(current);
        return back[0].copy_from(at, &front[source], from);
    }
    let (front, back) = stores.split_at_mut(source);
    front[current].copy_from(at, &back[0], from)
}

pub(crate) fn insert(list: &mut Store, at: u64, stamp: u64, bytes: Bytes) -> Result<u64, Refusal>
    ensures returned { (tables : Tables) (lists : List Listing) → IsOrNoMemory (edit_of tables lists list.old.list (Edit.Insert at stamp bytes)) result }
    ensures after { (tables : Tables) (lists : List Listing) → list.new.list ≡ after_edit tables lists (Edit.Insert at stamp bytes) list.old.list result }
    ensures marks { list.new.marks ≡ marks_after (Edit.Insert at stamp bytes) list.old.marks result }
{
    match list.insert(at, stamp, bytes) {
        Ok(()) => Ok(list.len() as u64),
        Err(fault) => Err(Refusal::by(fault)),
    }
}

fn replace(list: &mut Store, at: u64, bytes: Bytes) -> Result<u64, Refusal>
    ensures returned { (tables : Tables) (lists : List Listing) → result ≡ edit_of tables lists list.old.list (Edit.Replace at bytes) }
    ensures after { (tables : Tables) (lists : List Listing) → list.new.list ≡ after_edit tables lists (Edit.Replace at bytes) list.old.list result }
    ensures marks { list.new.marks ≡ marks_after (Edit.Replace at bytes) list.old.marks result }
{
    match list.replace(at, bytes) {
        Ok(()) => Ok(list.len() as u64),
        Err(fault) => Err(Refusal::by(fault)),
    }
}

fn delete(list: &mut Store, at: u64) -> Result<u64, Refusal>
    ensures returned { (tables : Tables) (lists : List Listing) → result ≡ edit_of tables lists list.old.list (Edit.Delete at) }
    ensures after { (tables : Tables) (lists : List Listing) → list.new.list ≡ after_edit tables lists (Edit.Delete at) list.old.list result }
    ensures marks { list.new.marks ≡ marks_after (Edit.Delete at) list.old.marks result }
{
    match list.delete(at) {
        Ok(()) => Ok(list.len() as u64),
        Err(fault) => Err(Refusal::by(fault)),
    }
}

fn move_to(list: &mut Store, from: u64, to: u64) -> Result<u64, Refusal>
    ensures returned { (tables : Tables) (lists : List Listing) → result ≡ edit_of tables lists list.old.list (Edit.Move from to) }
    ensures after { (tables : Tables) (lists : List Listing) → list.new.list ≡ after_edit tables lists (Edit.Move from to) list.old.list result }
    ensures marks { list.new.marks ≡ marks_after (Edit.Move from to) list.old.marks result }
{
    match list.move_to(from, to) {
        Ok(()) => Ok(list.len() as u64),
        Err(fault) => Err(Refusal::by(fault)),
    }
}

fn set_show_bit(list: &mut Store, at: u64, shown: bool) -> Result<u64, Refusal>
    ensures returned { (tables : Tables) (lists : List Listing) → IsOrNoMemory (edit_of tables lists list.old.list (Edit.ShowBit at shown)) result }
    ensures after { (tables : Tables) (lists : List Listing) → list.new.list ≡ after_edit tables lists (Edit.ShowBit at shown) list.old.list result }
    ensures marks { list.new.marks ≡ marks_after (Edit.ShowBit at shown) list.old.marks result }
{
    match list.set_show_bit(at, shown) {
        Ok(()) => Ok(list.len() as u64),
        Err(fault) => Err(Refusal::by(fault)),
    }
}
