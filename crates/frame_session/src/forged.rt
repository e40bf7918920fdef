// Edits that insert a forged packet.
ghost use Rattle.std.specs.Prelude.{◌≡◌, List, Ok, IfOk, IfErr};
ghost use Rattle.packet_edits.specs.Edits.{Listing};
ghost use Rattle.packet_forge.specs.Faults.{ForgeRefuses};
ghost use Rattle.packet_forge.specs.Packets.{blank_of};
ghost use Rattle.frame_session.specs.Edits.{after_edit, edit_of, hold_bytes, stamp_before};
ghost use Rattle.frame_session.specs.Cached.{marks_after};
ghost use Rattle.frame_session.specs.IsOrNoMemory.{IsOrNoMemory};
ghost use Rattle.request_lines.specs.declared.edit.Edit.TheVariants.{Blank, Hold};

use crate::edit::insert;
use crate::refusal::Refusal;
use packet_edits::Store;
use packet_forge::{ForgeFault, blank, hold};
use pixel_planes::is_side;
use std::alloc::Global;
use stream_files::Bytes;
use vp8_tables::Tables;

/// The time stamp of the packet before index `at`, or 0 if there is none.
fn stamp_before(list: &Store, at: u64) -> u64
    ensures { result ≡ stamp_before at list.now.list }
{
    if at == 0 {
        return 0;
    }
    if list.len() as u64 <= at - 1 {
        return 0;
    }
    list.stamp((at - 1) as usize)
}

/// A blank packet of any size: width and height may be any numbers.
fn forge_blank(
    alloc: Global,
    tables: &Tables,
    width: u64,
    height: u64,
) -> Result<Vec<u8>, ForgeFault>
    ensures bytes { IfOk result (λ packet. blank_of tables.now width height ≡ Ok packet.items) }
    ensures refused { IfErr result (ForgeRefuses (blank_of tables.now width height)) }
{
    if !is_side(width) || !is_side(height) {
        return Err(ForgeFault::Size);
    }
    blank(alloc, tables, width as u16, height as u16)
}

/// A hold packet for a picture of this size.
fn forge_hold(
    alloc: Global,
    tables: &Tables,
    size: Option<(u16, u16)>,
) -> Result<Vec<u8>, ForgeFault>
    ensures bytes { IfOk result (λ packet. hold_bytes tables.now size ≡ Ok packet.items) }
    ensures refused { IfErr result (ForgeRefuses (hold_bytes tables.now size)) }
{
    match size {
        Some((width, height)) => hold(alloc, tables, width, height),
        None => Err(ForgeFault::Size),
    }
}

/// Inserts a blank packet, which is forged only if its insertion is not refused.
pub(crate) fn insert_blank(
    alloc: Global,
    tables: &Tables,
    list: &mut Store,
    at: u64,
    width: u64,
    height: u64,
) -> Result<u64, Refusal>
    ensures returned { (lists : List Listing) → IsOrNoMemory (edit_of tables.now lists list.old.list (Blank at width height)) result }
    ensures after { (lists : List Listing) → list.new.list ≡ after_edit tables.now lists (Blank at width height) list.old.list result }
    ensures marks { list.new.marks ≡ marks_after (Blank at width height) list.old.marks result }
{
    if let Err(fault) = list.may_insert(at) {
        return Err(Refusal::by(fault));
    }
    match forge_blank(alloc, tables, width, height) {
        Ok(packet) => insert(list, at, stamp_before(list, at), Bytes::new(packet)),
        Err(fault) => Err(Refusal::by_forging(fault)),
    }
}

/// Inserts a packet that repeats the last reference, which is forged only if its insertion is not
/// refused.
pub(crate) fn insert_hold(
    alloc: Global,
    tables: &Tables,
    list: &mut Store,
    at: u64,
) -> Result<u64, Refusal>
    ensures returned { (lists : List Listing) → IsOrNoMemory (edit_of tables.now lists list.old.list (Hold at)) result }
    ensures after { (lists : List Listing) → list.new.list ≡ after_edit tables.now lists (Hold at) list.old.list result }
    ensures marks { list.new.marks ≡ marks_after (Hold at) list.old.marks result }
{
    if let Err(fault) = list.may_insert(at) {
        return Err(Refusal::by(fault));
    }
    match forge_hold(alloc, tables, list.size_at(at)) {
        Ok(packet) => insert(list, at, stamp_before(list, at), Bytes::new(packet)),
        Err(fault) => Err(Refusal::by_forging(fault)),
    }
}
