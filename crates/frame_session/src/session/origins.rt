// The origins of frames of the current script.
ghost use Rattle.std.specs.Prelude.{◌≡◌, ◌+◌, ◌<◌, ◌≤◌, ◌^◌, IfOk, OnOk, length, map};
ghost use Rattle.std.specs.Io.KnownBytes.{Appends};
ghost use Rattle.std.specs.List.{All, concat, range_with_len};
ghost use Rattle.script_nodes.specs.NodeSteps.{IsNodeStep, node_steps};
ghost use Rattle.frame_session.specs.Origins.{origin_from, origin_line, origin_object, origins_answer, size_up_to};
ghost use Rattle.frame_session.specs.Sessions.{shown_counts};
ghost use Rattle.frame_session.specs.Told.{Tells};

use super::Session;
use crate::refusal::Refusal;
use crate::replies::{write_lines_line, write_refused, write_text};
use script_nodes::{FrameOrigin, NodeStep, changed_nodes, write_origin};
use std::io::Write;
use stream_files::WriteFault;

impl Session {
    /// The origin of frame `n` of the current script, which is this frame of this source.
    fn origin_from(&self, n: u64, source: usize, frame: u64) -> FrameOrigin
        requires { source < length self.now.stores }
        ensures value { result ≡ origin_from self.now.state n source frame }
        ensures few { result.packet ≤ 1048576 }
    {
        self.stores[source].prove_few();
        FrameOrigin {
            frame: n,
            source: source as u64,
            source_frame: frame,
            packet: self.shown_place(source, frame).unwrap_or(0) as u64,
        }
    }

    /// The size in the last packet with a key tag of a source, up to the packet at this index; 0x0 if there is none.
    fn size_up_to(&self, source: usize, packet: u64) -> (u16, u16)
        requires source { source < length self.now.stores }
        requires packet { packet ≤ 1048576 }
        ensures { result ≡ size_up_to self.now.state source packet }
    {
        self.stores[source].size_at(packet + 1).unwrap_or((0, 0))
    }

    /// Writes the object of frame `n` of the current script, which is this frame of this source, changed by these steps.
    fn write_origin_of<W: Write>(
        &self,
        w: &mut W,
        n: u64,
        source: usize,
        frame: u64,
        steps: &[NodeStep],
    ) -> Result<(), WriteFault>
        requires source { source < length self.now.stores }
        requires few { length steps.now ≤ 16 }
        requires allowed { All IsNodeStep steps.now }
        requires steps { steps.now ≡ node_steps (shown_counts self.now.state) self.now.state.script n }
        ensures { OnOk result (Appends (W.contents w.old) (W.contents w.new) (origin_object self.now.state n source frame)) }
    {
        let origin = self.origin_from(n, source, frame);
        let (width, height) = self.size_up_to(source, origin.packet);
        let changed = changed_nodes(steps, width, height);
        write_origin(w, origin, &changed).map_err(|_| WriteFault::Write)?;
        Ok(())
    }

    /// Writes the line of frame `n` of the current script: a JSON object with its origin; an empty line if there is no such frame.
    fn write_origin_line<W: Write>(&self, w: &mut W, n: u64) -> Result<(), WriteFault>
        ensures { OnOk result (Appends (W.contents w.old) (W.contents w.new) (origin_line self.now.state n)) }
    {
        let counts = self.shown_counts();
        let Some(steps) = self.script.node_steps(&counts, n) else {
            return write_text(w, "\n");
        };
        let Some((source, frame, _)) = self.script.trace(&counts, n) else {
            return write_text(w, "\n");
        };
        self.write_origin_of(w, n, source, frame, &steps)?;
        write_text(w, "\n")
    }

    /// Writes the origins of this many frames, starting at frame `first`, a line each.
    fn write_origin_lines<W: Write>(
        &self,
        w: &mut W,
        first: u64,
        count: u64,
    ) -> Result<(), WriteFault>
        requires { first + count < 2 ^ 64 }
        ensures { OnOk result (Appends (W.contents w.old) (W.contents w.new) (concat (map (origin_line self.now.state) (range_with_len first count)))) }
    {
        for n in first..first + count {
            self.write_origin_line(w, n)?;
        }
        Ok(())
    }

    /// Writes the reply to `origins`: the origins of at most `count` frames, starting at frame `first`.
    ///
    /// Refused as `NoSuchFrame` if the script serves fewer than `first` frames.
    pub(super) fn write_origins<W: Write>(
        &self,
        w: &mut W,
        first: u64,
        count: u64,
    ) -> Result<Option<Refusal>, WriteFault>
        ensures wrote { OnOk result (Appends (W.contents w.old) (W.contents w.new) (origins_answer self.now.state first count)) }
        ensures told { IfOk result (Tells (W.contents w.old) (W.contents w.new)) }
    {
        let frames = self.count().1;
        if frames < first {
            return write_refused(w, Refusal::NoSuchFrame);
        }
        let count = count.min(frames - first);
        write_lines_line(w, count)?;
        self.write_origin_lines(w, first, count)?;
        Ok(None)
    }
}
