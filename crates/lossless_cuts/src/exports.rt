// The packets of all frames of a script.
ghost use Rattle.std.specs.Prelude.{◌≡◌, ◌≢◌, ◌+◌, ◌≤◌, ◌++◌, IfErr, IfOk, None, OnOk, Some, false, length, true};
ghost use Rattle.packet_edits.specs.Shown.{stream_of};
ghost use Rattle.lossless_cuts.specs.Faults.{export_fault, target_fault};
ghost use Rattle.lossless_cuts.specs.Limits.{IsTooLarge, file_size, is_too_large, records_size};
ghost use Rattle.lossless_cuts.specs.Plans.{exported, frame_packets, planned, stream_at, streams_of};

use crate::cuts::{Plan, plan_of, push_plan};
use crate::faults::CutFault;
use crate::sizes::left_after;
use crate::targets::Target;
use packet_edits::Store;
use std::alloc::Global;
use stream_files::{Bytes, MAX_PACKETS};
use vp8_tables::Tables;

/// The most bytes of the records of an IVF file that is read again: 1,073,741,824 without its header.
const MOST_BYTES: u64 = 1_073_741_792;

/// The packets of an export as far as it has come, and the bytes that are left for the records of more.
#[derive(Drop)]
struct Output {
    packets: Vec<Bytes>,
    left: u64,
}

impl Output {
    /// Appends the packets of a plan. Their bytes are counted before any is copied.
    ///
    /// `Full` if there would be too many packets or bytes, and `NoMemory`.
    fn push_plan(&mut self, alloc: Global, list: &Store, plan: Plan) -> Result<(), CutFault>
        requires plan { (plan.first ≤ plan.end) × (plan.end ≤ length list.now.list.entries) }
        requires room { self.old.left + records_size self.old.packets.items ≡ 1073741792 }
        ensures value { OnOk result (self.new.packets.items ≡ self.old.packets.items ++ planned (stream_of list.now.list) plan) }
        ensures room { OnOk result (self.new.left + records_size self.new.packets.items ≡ 1073741792) }
        ensures fits { OnOk result (is_too_large (self.old.packets.items ++ planned (stream_of list.now.list) plan) ≡ false) }
        ensures full { IfErr result (λ fault. fault ≢ CutFault.NoMemory → (fault ≡ CutFault.Full) × (is_too_large (self.old.packets.items ++ planned (stream_of list.now.list) plan) ≡ true)) }
    {
        let Some(left) = left_after(list, &plan, self.left) else {
            return Err(CutFault::Full);
        };
        let Ok(()) = push_plan(alloc, list, plan, &mut self.packets) else {
            return Err(CutFault::NoMemory);
        };
        if self.packets.len() > MAX_PACKETS {
            return Err(CutFault::Full);
        }
        self.left = left;
        Ok(())
    }
}

/// Appends the packets of a frame of one of these sources, after the frame before it.
fn push_target(
    alloc: Global,
    tables: &Tables,
    stores: &[Store],
    before: Option<Target>,
    target: Target,
    out: &mut Output,
) -> Result<(), CutFault>
    requires { out.old.left + records_size out.old.packets.items ≡ 1073741792 }
    ensures value { OnOk result (out.new.packets.items ≡ out.old.packets.items ++ frame_packets tables.now (stream_at (streams_of stores.now) target.source) before target) }
    ensures room { OnOk result (out.new.left + records_size out.new.packets.items ≡ 1073741792) }
    ensures fits { OnOk result (is_too_large out.new.packets.items ≡ false) }
    ensures allowed { OnOk result (target_fault tables.now (streams_of stores.now) out.old.packets.items before target ≡ None) }
    ensures refused { IfErr result (λ fault. fault ≢ CutFault.NoMemory → target_fault tables.now (streams_of stores.now) out.old.packets.items before target ≡ Some fault) }
{
    if target.source >= stores.len() {
        return Err(CutFault::Place);
    }
    let list = &stores[target.source];
    if target.place >= list.len() {
        return Err(CutFault::Place);
    }
    let plan = plan_of(alloc, tables, list, before, target)?;
    out.push_plan(alloc, list, plan)
}

/// The packets of frames, each after the one before it: packets of the sources, which share their bytes, hidden ones, of which
/// only the show bit changes, and hold packets. The bytes of a frame's packets are counted before any is copied.
///
/// The error is that of the first frame that has one, in this order: `Place` if the frame's packet does not exist, `Size` or `TooLarge`
/// if its hold packet cannot be forged, and `Full` if there would be more than 1,048,576 packets with its own, or more than 1,073,741,824
/// bytes as an IVF file once each packet that ends empty is padded. `NoMemory` may come in place of each of them, and of packets.
pub fn export_packets(
    alloc: Global,
    tables: &Tables,
    stores: &[Store],
    targets: &[Target],
) -> Result<Vec<Bytes>, CutFault>
    ensures value { IfOk result (λ packets. packets.items ≡ exported tables.now (streams_of stores.now) None targets.now) }
    ensures few { IfOk result (λ packets. length packets.items ≤ 1048576) }
    ensures small { IfOk result (λ packets. file_size packets.items ≤ 1073741824) }
    ensures allowed { OnOk result (export_fault tables.now (streams_of stores.now) targets.now ≡ None) }
    ensures refused { IfErr result (λ fault. fault ≢ CutFault.NoMemory → export_fault tables.now (streams_of stores.now) targets.now ≡ Some fault) }
    ensures full { IfErr result (λ fault. fault ≡ CutFault.Full → IsTooLarge (exported tables.now (streams_of stores.now) None targets.now)) }
{
    let mut out = Output {
        packets: Vec::new(alloc),
        left: MOST_BYTES,
    };
    let mut before = None;
    for target in targets {
        push_target(alloc, tables, stores, before, *target, &mut out)?;
        before = Some(*target);
    }
    let Output { packets, left: _ } = out;
    Ok(packets)
}
