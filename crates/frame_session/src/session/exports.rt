// The frames of a session as packets.
ghost use Rattle.std.specs.Prelude.{◌≡◌, ◌≢◌, ◌<◌, ◌≤◌, [], Err, None, IfErr, IfOk, IfSome, OnOk, Some, length, map, slice_get};
ghost use Rattle.std.specs.List.{All};
ghost use Rattle.lossless_cuts.specs.Laws.{ExportsShowTheirFrames};
ghost use Rattle.lossless_cuts.specs.Limits.{IsTooLarge, file_size};
ghost use Rattle.lossless_cuts.specs.Faults.{export_fault};
ghost use Rattle.lossless_cuts.specs.Plans.{exported};
ghost use Rattle.frame_session.specs.Exported.{HasPicture, HasTarget, HaveTargets, IsChanged, IsExportFile, IsFrameFault, IsNotExported, IsPackingFault, export_head, index_in, streams_in, duration_at, unsized};
ghost use Rattle.frame_session.specs.Cached.{store_at};
ghost use Rattle.frame_session.specs.Edits.{list_at};
ghost use Rattle.frame_session.specs.Sessions.{frame_count, frame_of, picture_from, shown_counts};
ghost use Rattle.packet_edits.specs.Shown.{stream_of};
ghost use Rattle.stream_steps.specs.Decoding.{outcomes};
ghost use Rattle.packet_times.specs.Durations.{one_frame};
ghost use Rattle.packet_times.specs.Heads.{IsHeadFor};
ghost use Rattle.packet_times.specs.Stamps.{stamped};
ghost use Rattle.packet_times.specs.Sums.{bases_of, stamps_of};
ghost use Rattle.std.specs.Option.{option_map_or};

use super::Session;
use crate::export::Export;
use crate::refusal::Refusal;
use lossless_cuts::laws::exports_show_their_frames;
use lossless_cuts::{CutFault, Target, break_at, export_packets, run_size};
use packet_edits::Store;
use packet_times::{Duration, head_for, stamped, stamps_of};
use pixel_planes::NoMemory;
use script_nodes::changed_nodes;
use stream_files::{Bytes, Head, MAX_PACKETS};
use thiserror::Error;

/// Why the frames of a session are not exported.
#[derive(Clone, Copy, Debug, PartialEq, Eq, Error)]
pub enum ExportFault {
    /// A request for this frame would be refused, not for its size.
    #[error("frame {frame} is refused: {refusal}")]
    Frame { frame: u64, refusal: Refusal },
    /// The script changes samples of this frame: `node` is the number of the first node that does, 1 for the first one of the script.
    #[error("frame {frame} is changed by node {node}")]
    Changed { frame: u64, node: u64 },
    /// There would be too many packets or bytes, or no memory for them.
    #[error("{0}")]
    Packets(CutFault),
}

/// The packet of a frame, and the number of the first node that changes samples of it, if one does.
#[derive(Clone, Copy)]
struct Origin {
    target: Target,
    changed: Option<u64>,
}

/// How long the packet at an index is shown; one frame of 30 a second if there is no such packet.
fn duration_of_packet(list: &Store, place: usize) -> Duration
    ensures { result ≡ option_map_or (λ entry. entry.duration) (slice_get list.now.list.entries place) one_frame }
{
    if place < list.len() {
        list.duration(place)
    } else {
        Duration {
            units: 1,
            rate: 30,
            scale: 1,
        }
    }
}

/// The first of some numbers, if there is one.
fn first_of(numbers: &[u64]) -> Option<u64>
    ensures { result ≡ slice_get numbers.now 0 }
{
    match numbers {
        [first, ..] => Some(*first),
        [] => None,
    }
}

/// The index of the packet of the frame before, if it is of this source.
fn index_in(before: Option<Target>, source: usize) -> Option<usize>
    ensures { result ≡ index_in before source }
{
    match before {
        Some(target) if target.source == source => Some(target.place),
        _ => None,
    }
}

impl Session {
    /// The size of the picture of the packet at index `place` of a source, if decoding accepts it. Only outlines are read, from
    /// the packet of the frame before or from the last key packet on, and nothing is decoded.
    fn size_of_packet(
        &self,
        before: Option<Target>,
        source: usize,
        place: usize,
    ) -> Result<(u16, u16), Refusal>
        requires source { source < length self.now.stores }
        requires place { place < length (store_at self.now.stores source).list.entries }
        requires before { IfSome before (λ target. HasPicture self.now.state target.source target.place (target.width, target.height)) }
        ensures accepted { IfOk result (HasPicture self.now.state source place) }
        ensures refused { IfErr result (λ refusal. picture_from source (slice_get (outcomes self.now.state.tables (stream_of (list_at self.now.state.lists source))) place) ≡ Err refusal) }
    {
        stream_refusals::laws::refusals_are_by_bytes();
        stream_refusals::laws::pictures_are_of_runs();
        let list = &self.stores[source];
        match break_at(list, index_in(before, source), place) {
            Some(broken) => Err(Refusal::Packet {
                source,
                place: broken.place,
                cause: broken.cause,
            }),
            None => Ok(run_size(list, place).unwrap_or((0, 0))),
        }
    }

    /// The packet of frame `n`, and the number of the first node that changes samples of it. `counts` has the number of shown packets of each
    /// source, and `before` is the packet of an earlier frame that is exported.
    fn origin_of(&self, counts: &[u64], before: Option<Target>, n: u64) -> Result<Origin, Refusal>
        requires counts { counts.now ≡ shown_counts self.now.state }
        requires few { All (λ count. count ≤ 1048576) counts.now }
        requires sources { length counts.now ≡ length self.now.stores }
        requires before { IfSome before (λ target. HasPicture self.now.state target.source target.place (target.width, target.height)) }
        ensures target { IfOk result (λ found. found.changed ≡ None → HasTarget self.now.state n found.target) }
        ensures changed { IfOk result (λ found. IfSome found.changed (IsChanged self.now.state n)) }
        ensures refused { IfErr result (λ refusal. frame_of (unsized self.now.state) n ≡ Err refusal) }
    {
        let Some((source, frame, trace)) = self.script.trace(counts, n) else {
            return Err(Refusal::NoSuchFrame);
        };
        let Some(steps) = self.script.node_steps(counts, n) else {
            return Err(Refusal::NoSuchFrame);
        };
        self.script.prove_nodes();
        let Some(place) = self.shown_place(source, frame) else {
            return Err(Refusal::NoSuchFrame);
        };
        let sides = self.size_of_packet(before, source, place)?;
        let (width, height) = sides;
        packet_edits::laws::shown_list_is_of_shown_packets();
        script_nodes::laws::steps_are_of_nodes();
        if trace.size(width, height).is_err() {
            return Err(Refusal::CropOutside);
        }
        let nodes = changed_nodes(&steps, width, height);
        let changed = first_of(&nodes);
        let target = Target {
            source,
            place,
            width,
            height,
        };
        Ok(Origin { target, changed })
    }

    /// The packet of frame `n`, if the script changes no sample of it. `counts` and `before` are as for `origin_of`.
    fn export_target(
        &self,
        counts: &[u64],
        before: Option<Target>,
        n: u64,
    ) -> Result<Target, ExportFault>
        requires counts { counts.now ≡ shown_counts self.now.state }
        requires few { All (λ count. count ≤ 1048576) counts.now }
        requires sources { length counts.now ≡ length self.now.stores }
        requires before { IfSome before (λ target. HasPicture self.now.state target.source target.place (target.width, target.height)) }
        ensures target { IfOk result (HasTarget self.now.state n) }
        ensures fault { IfErr result (IsFrameFault self.now.state n) }
    {
        match self.origin_of(counts, before, n) {
            Ok(found) => match found.changed {
                Some(node) => Err(ExportFault::Changed { frame: n, node }),
                None => Ok(found.target),
            },
            Err(refusal) => Err(ExportFault::Frame { frame: n, refusal }),
        }
    }

    /// No frames yet.
    fn no_targets(&self) -> Vec<Target>
        ensures { result.items ≡ [] }
    {
        Vec::new(self.alloc)
    }

    /// The packets of the first frames, this many.
    fn export_targets(&self, count: u64) -> Result<Vec<Target>, ExportFault>
        requires { count ≤ frame_count self.now.state }
        ensures targets { IfOk result (λ targets. HaveTargets self.now.state 0 targets.items) }
        ensures count { IfOk result (λ targets. length targets.items ≡ count) }
        ensures fault { IfErr result (IsNotExported self.now.state) }
    {
        let counts = self.shown_counts();
        let mut targets = self.no_targets();
        let mut before = None;
        'frames: for n in 0..count {
            let target = self.export_target(&counts, before, n)?;
            let Ok(()) = targets.push(target) else {
                return Err(ExportFault::Packets(CutFault::NoMemory));
            };
            before = Some(target);
        }
        Ok(targets)
    }

    /// The packets that show these frames.
    fn packets_of(&self, targets: &[Target]) -> Result<Vec<Bytes>, CutFault>
        ensures value { IfOk result (λ packets. packets.items ≡ exported self.now.state.tables (streams_in self.now.state) None targets.now) }
        ensures few { IfOk result (λ packets. length packets.items ≤ 1048576) }
        ensures small { IfOk result (λ packets. file_size packets.items ≤ 1073741824) }
        ensures allowed { OnOk result (export_fault self.now.state.tables (streams_in self.now.state) targets.now ≡ None) }
        ensures refused { IfErr result (λ fault. fault ≢ CutFault.NoMemory → export_fault self.now.state.tables (streams_in self.now.state) targets.now ≡ Some fault) }
        ensures full { IfErr result (λ fault. fault ≡ CutFault.Full → IsTooLarge (exported self.now.state.tables (streams_in self.now.state) None targets.now)) }
    {
        export_packets(self.alloc, &self.tables, &self.stores, targets)
    }

    /// The same, with the error of an export.
    fn export_packed(&self, targets: &[Target]) -> Result<Vec<Bytes>, ExportFault>
        ensures value { IfOk result (λ packets. packets.items ≡ exported self.now.state.tables (streams_in self.now.state) None targets.now) }
        ensures few { IfOk result (λ packets. length packets.items ≤ 1048576) }
        ensures small { IfOk result (λ packets. file_size packets.items ≤ 1073741824) }
        ensures allowed { OnOk result (export_fault self.now.state.tables (streams_in self.now.state) targets.now ≡ None) }
        ensures fault { IfErr result (IsPackingFault self.now.state targets.now) }
    {
        match self.packets_of(targets) {
            Ok(packets) => Ok(packets),
            Err(fault) => Err(ExportFault::Packets(fault)),
        }
    }

    /// How long the packet of a frame is shown.
    fn duration_at(&self, target: Target) -> Duration
        ensures { result ≡ duration_at self.now.state target }
    {
        if target.source < self.stores.len() {
            duration_of_packet(&self.stores[target.source], target.place)
        } else {
            Duration {
                units: 1,
                rate: 30,
                scale: 1,
            }
        }
    }

    /// How long the packets of frames are shown.
    fn durations_of(&self, targets: &[Target]) -> Result<Vec<Duration>, NoMemory>
        ensures { IfOk result (λ durations. durations.items ≡ map (duration_at self.now.state) targets.now) }
    {
        let mut durations = Vec::with_capacity(self.alloc, targets.len())?;
        for target in targets {
            durations.push(self.duration_at(*target))?;
        }
        Ok(durations)
    }

    /// The head of an export of these frames, with the time base of source 0.
    fn export_head(&self, targets: &[Target]) -> Head
        ensures { result ≡ export_head self.now.state.head targets.now }
    {
        let (width, height) = match targets.first() {
            Some(target) => (target.width, target.height),
            None => (0, 0),
        };
        Head {
            width,
            height,
            rate: self.head.rate,
            scale: self.head.scale,
        }
    }

    /// The file of packets that show frames with these durations: its head, and the time stamps of the packets.
    fn file_of(
        &self,
        head: Head,
        durations: &[Duration],
        packets: Vec<Bytes>,
    ) -> Result<Export, NoMemory>
        requires few { length packets.items ≤ 1048576 }
        ensures head { IfOk result (λ file. IsHeadFor head (bases_of durations.now) file.head) }
        ensures packets { IfOk result (λ file. file.packets ≡ stamped (stamps_of file.head durations.now) packets.items) }
    {
        let head = head_for(self.alloc, head, durations)?;
        let stamps = stamps_of(self.alloc, head, durations)?;
        let packets = stamped(self.alloc, packets, &stamps)?;
        Ok(Export { head, packets })
    }

    /// The file of the packets that show these frames.
    fn stamp_packets(&self, targets: &[Target], packets: Vec<Bytes>) -> Result<Export, ExportFault>
        requires few { length packets.items ≤ 1048576 }
        ensures head { IfOk result (λ file. IsHeadFor (export_head self.now.state.head targets.now) (bases_of (map (duration_at self.now.state) targets.now)) file.head) }
        ensures packets { IfOk result (λ file. file.packets ≡ stamped (stamps_of file.head (map (duration_at self.now.state) targets.now)) packets.items) }
        ensures fault { IfErr result (λ fault. fault ≡ ExportFault.Packets CutFault.NoMemory) }
    {
        let Ok(durations) = self.durations_of(targets) else {
            return Err(ExportFault::Packets(CutFault::NoMemory));
        };
        match self.file_of(self.export_head(targets), &durations, packets) {
            Ok(file) => Ok(file),
            Err(_) => Err(ExportFault::Packets(CutFault::NoMemory)),
        }
    }

    /// Does nothing. Its contract: packets of frames show these frames, with the tables of the session.
    fn prove_exports(&self)
        ensures { ExportsShowTheirFrames self.now.state.tables }
    {
        exports_show_their_frames(&self.tables);
    }

    /// The number of frames that the script serves.
    fn frames(&self) -> u64
        ensures { result ≡ frame_count self.now.state }
    {
        self.count().1
    }

    /// Packets that show the frames of the current script over the current packets. Nothing is coded and nothing is decoded: only
    /// headers are read, and the session stays as it is. They are packets of the sources, in which nothing but the show bit changes,
    /// and hold packets; those that do not change share the bytes of the source. As the file is written, with a byte 00 after each
    /// packet that ends empty, decoding refuses none of them, and their shown frames are exactly the frames of the session, whatever
    /// size was served before. The first
    /// frame has time stamp 0, and each other one the time after the frames before it, each as long as its packet is shown: the
    /// units of their durations are summed for each time base, and each sum is rounded half up. The head has the time base of
    /// source 0, or, if a duration is not a whole number of its units, the greatest unit of which all are, if it fits 32 bits. A
    /// hidden packet has the time stamp of the next frame.
    ///
    /// Errors, in this order: `Packets` with `Full` if there are more than 1,048,576 frames; for the first frame that cannot be
    /// exported, `Frame` if a request for it would be refused, not for its size, or `Changed` with the first node of the script that
    /// changes samples of it; for the first frame that has no packets, `Packets` with `Size` or `TooLarge` if its hold packet cannot be
    /// forged, or with `Full` if with its own there would be more than 1,048,576 packets, or more than 1,073,741,824 bytes as the file is
    /// written. `Packets` with `NoMemory` may come in place of the others.
    pub fn export(&self) -> Result<Export, ExportFault>
        ensures file { IfOk result (IsExportFile self.now.state) }
        ensures fault { IfErr result (IsNotExported self.now.state) }
    {
        self.prove_exports();
        let count = self.frames();
        if count > MAX_PACKETS as u64 {
            return Err(ExportFault::Packets(CutFault::Full));
        }
        let targets = self.export_targets(count)?;
        let bytes = self.export_packed(&targets)?;
        let file = self.stamp_packets(&targets, bytes)?;
        Ok(file)
    }
}
