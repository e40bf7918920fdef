// The packets that show a frame.
ghost use Rattle.std.specs.Prelude.{◌≡◌, ◌≢◌, ◌<◌, ◌≤◌, ◌++◌, ◌&&◌, [], ◌∷◌, false, IfErr, IfOk, None, OnOk, Some, length, slice_range};
ghost use Rattle.packet_edits.specs.Shown.{stream_of};
ghost use Rattle.frame_header.specs.ShowBits.{with_show_bit};
ghost use Rattle.stream_refusals.specs.Refusals.{run_start};
ghost use Rattle.lossless_cuts.specs.Faults.{frame_fault, shown_fault};
ghost use Rattle.lossless_cuts.specs.Plans.{first_place, frame_packets, hidden, key_place, lead_if, leaves_last, packet_shown, planned, repeats as repeats_before};

use crate::faults::CutFault;
use crate::targets::{Target, continues, repeats};
use frame_header::{is_shown, read_outline, set_show_bit};
use packet_edits::Store;
use packet_forge::{ForgeFault, hold};
use pixel_planes::NoMemory;
use std::alloc::Global;
use stream_files::Bytes;
use vp8_tables::Tables;

/// The packets of a frame before any is copied: those of its lead, from one index up to another, and the one that shows it.
#[derive(Drop)]
pub(crate) struct Plan {
    pub(crate) first: usize,
    pub(crate) end: usize,
    pub(crate) shown: Bytes,
}

/// Whether the picture of a packet is the last reference after it.
fn leaves_last(packet: &[u8]) -> bool
    ensures { result ≡ leaves_last packet.now }
{
    if packet.is_empty() {
        return true;
    }
    match read_outline(true, packet) {
        Ok(outline) => outline.references.refreshes_last,
        Err(_) => false,
    }
}

/// The index of the last packet with a key tag at an index or before it, or 0 if there is none.
pub(crate) fn key_place(list: &Store, place: usize) -> usize
    requires { place < length list.now.list.entries }
    ensures value { result ≡ key_place (stream_of list.now.list) place }
    ensures run { result ≡ run_start (stream_of list.now.list) place }
    ensures within { result ≤ place }
{
    list.prove_few();
    list.last_key(place + 1).unwrap_or(0)
}

/// The index at which the packets of a frame begin.
fn first_place(list: &Store, before: Option<Target>, target: Target) -> usize
    requires { target.place < length list.now.list.entries }
    ensures value { result ≡ first_place (stream_of list.now.list) before target }
    ensures within { result ≤ target.place }
{
    let key = key_place(list, target.place);
    match before {
        Some(earlier) if continues(before, target) => key.max(earlier.place + 1),
        _ => key,
    }
}

/// The index at which the lead of a frame begins: that of its own packet, so that the lead is empty, if the frame before it is held.
fn lead_start(list: &Store, before: Option<Target>, target: Target, is_held: bool) -> usize
    requires { target.place < length list.now.list.entries }
    ensures lead { hidden (slice_range (stream_of list.now.list) result target.place) ≡ lead_if (stream_of list.now.list) before target is_held }
    ensures within { result ≤ target.place }
{
    if is_held {
        target.place
    } else {
        first_place(list, before, target)
    }
}

/// A packet with bytes, with its show bit cleared. It is new only if that bit is set, and shared with the source else.
fn hidden_packet(alloc: Global, packet: &Bytes) -> Result<Bytes, NoMemory>
    ensures { IfOk result (λ bytes. bytes ≡ with_show_bit false packet.now) }
{
    frame_header::show_laws::last_show_bit_counts();
    if !is_shown(packet.as_slice()) {
        return packet.share(alloc);
    }
    let mut copy = Vec::from_slice(alloc, packet.as_slice())?;
    set_show_bit(&mut copy, false);
    Ok(Bytes::new(copy))
}

/// Appends a packet with its show bit cleared, unless it has no bytes.
fn push_hidden(alloc: Global, packet: &Bytes, out: &mut Vec<Bytes>) -> Result<(), NoMemory>
    ensures { OnOk result (out.new.items ≡ out.old.items ++ hidden (packet.now ∷ [])) }
{
    if packet.as_slice().is_empty() {
        return Ok(());
    }
    let bytes = hidden_packet(alloc, packet)?;
    match out.push(bytes) {
        Ok(()) => Ok(()),
        Err(_) => Err(NoMemory),
    }
}

/// Appends the packets from one index up to another, hidden.
fn push_lead(
    alloc: Global,
    list: &Store,
    first: usize,
    end: usize,
    out: &mut Vec<Bytes>,
) -> Result<(), NoMemory>
    requires { (first ≤ end) × (end ≤ length list.now.list.entries) }
    ensures { OnOk result (out.new.items ≡ out.old.items ++ hidden (slice_range (stream_of list.now.list) first end)) }
{
    for place in first..end {
        push_hidden(alloc, list.bytes(place), out)?;
    }
    Ok(())
}

/// The packet that shows a frame: its own, which is shared with the source, or a hold packet.
fn shown_packet(
    alloc: Global,
    tables: &Tables,
    packet: &Bytes,
    target: Target,
    is_held: bool,
) -> Result<Bytes, ForgeFault>
    ensures value { IfOk result (λ bytes. bytes ≡ packet_shown tables.now packet.now target is_held) }
    ensures forged { OnOk result (shown_fault tables.now packet.now target is_held ≡ None) }
    ensures refused { IfErr result (λ fault. fault ≢ ForgeFault.NoMemory → shown_fault tables.now packet.now target is_held ≡ Some fault) }
{
    if is_held || packet.as_slice().is_empty() {
        let packet = hold(alloc, tables, target.width, target.height)?;
        return Ok(Bytes::new(packet));
    }
    match packet.share(alloc) {
        Ok(bytes) => Ok(bytes),
        Err(_) => Err(ForgeFault::NoMemory),
    }
}

/// Whether a frame is shown by holding the frame before it: it is that frame again, and its picture is the last
/// reference.
fn is_held(before: Option<Target>, target: Target, packet: &[u8]) -> bool
    ensures { result ≡ (repeats_before before target && leaves_last packet.now) }
{
    repeats(before, target) && leaves_last(packet)
}

/// The packets of a frame after the frame before it: those of its lead, which are to be hidden, and the packet that shows it.
///
/// `Size` or `TooLarge` if a hold packet of the frame's size cannot be forged, and `NoMemory`.
pub(crate) fn plan_of(
    alloc: Global,
    tables: &Tables,
    list: &Store,
    before: Option<Target>,
    target: Target,
) -> Result<Plan, CutFault>
    requires { target.place < length list.now.list.entries }
    ensures packets { IfOk result (λ plan. planned (stream_of list.now.list) plan ≡ frame_packets tables.now (stream_of list.now.list) before target) }
    ensures within { IfOk result (λ plan. (plan.first ≤ plan.end) × (plan.end ≤ length list.now.list.entries)) }
    ensures forged { OnOk result (frame_fault tables.now (stream_of list.now.list) before target ≡ None) }
    ensures refused { IfErr result (λ fault. fault ≢ CutFault.NoMemory → frame_fault tables.now (stream_of list.now.list) before target ≡ Some fault) }
{
    let packet = list.bytes(target.place);
    let held = is_held(before, target, packet.as_slice());
    let first = lead_start(list, before, target, held);
    match shown_packet(alloc, tables, packet, target, held) {
        Ok(shown) => Ok(Plan {
            first,
            end: target.place,
            shown,
        }),
        Err(fault) => Err(CutFault::by(fault)),
    }
}

/// Appends the packets of a plan.
pub(crate) fn push_plan(
    alloc: Global,
    list: &Store,
    plan: Plan,
    out: &mut Vec<Bytes>,
) -> Result<(), NoMemory>
    requires { (plan.first ≤ plan.end) × (plan.end ≤ length list.now.list.entries) }
    ensures { OnOk result (out.new.items ≡ out.old.items ++ planned (stream_of list.now.list) plan) }
{
    let Plan { first, end, shown } = plan;
    push_lead(alloc, list, first, end, out)?;
    match out.push(shown) {
        Ok(()) => Ok(()),
        Err(_) => Err(NoMemory),
    }
}
