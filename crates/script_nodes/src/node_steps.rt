//! The steps of a frame with the numbers of their nodes.
ghost use Rattle.std.specs.Prelude.{◌≡◌, ℕ, ◌≤◌, ◌<◌, [], List, length, slice_index};
ghost use Rattle.std.specs.List.{All};
ghost use Rattle.script_nodes.specs.NodeSteps.{IsNodeStep, steps_of_clip};
ghost use Rattle.script_nodes.specs.Scripts.{Given};

use crate::nodes::Node;
use crate::traces::Step;
use arrayvec::ArrayVec;

/// A step, and the number of the node that makes it: 1 for the first node of the script.
#[derive(Clone, Copy, Debug, Default, PartialEq, Eq)]
pub struct NodeStep {
    pub node: u64,
    pub step: Step,
}

/// The steps of a frame of a clip, in order. The frame is one of the clip's. The depth is at least the clip's number.
pub(crate) fn steps_of_clip(
    depth: u64,
    nodes: &[Node],
    lengths: &[u64],
    clip: u64,
    frame: u64,
) -> ArrayVec<NodeStep, 16>
    requires given { (counts : List ℕ) × Given counts nodes.now lengths.now }
    requires clip { (clip ≤ length nodes.now) × (clip ≤ depth) }
    requires inside { frame < slice_index lengths.now clip }
    ensures value { result.items ≡ steps_of_clip depth nodes.now lengths.now clip frame }
    ensures few { length result.items ≤ clip }
    ensures allowed { All IsNodeStep result.items }
{
    if clip == 0 {
        return ArrayVec::new();
    }
    let below = depth - 1;
    match nodes[clip as usize - 1] {
        Node::Source { .. } => ArrayVec::new(),
        Node::Trim {
            clip: used,
            first,
            ..
        } => steps_of_clip(below, nodes, lengths, used, first + frame),
        Node::Splice { front, back } => {
            let before = lengths[front as usize];
            if frame < before {
                steps_of_clip(below, nodes, lengths, front, frame)
            } else {
                steps_of_clip(below, nodes, lengths, back, frame - before)
            }
        }
        Node::Crop { clip: used, area } => {
            let mut found = steps_of_clip(below, nodes, lengths, used, frame);
            found.push(NodeStep {
                node: clip,
                step: Step::Cut(area),
            });
            found
        }
        Node::Fade { clip: used, ramp } => {
            let mut found = steps_of_clip(below, nodes, lengths, used, frame);
            found.push(NodeStep {
                node: clip,
                step: Step::Weigh(ramp.weight(frame)),
            });
            found
        }
        Node::Parts { ref parts } => {
            let (used, frame) = parts.place(lengths, frame);
            steps_of_clip(below, nodes, lengths, used, frame)
        }
    }
}
