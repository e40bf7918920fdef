ghost use Rattle.std.specs.Prelude.{◌≡◌, ℕ, ◌+◌, ◌<◌, ◌≤◌, [], List, Ok, IfOk, IfErr, IfSome, IfNone, None, OnOk, Some, length, slice_index, slice_index_or};
ghost use Rattle.std.specs.List.{All};
ghost use Rattle.std.specs.Io.KnownBytes.{Appends};
ghost use Rattle.script_nodes.specs.Nodes.{script_of};
ghost use Rattle.script_nodes.specs.Faults.{RefusesText};
ghost use Rattle.script_nodes.specs.Lengths.{lengths, script_length};
ghost use Rattle.script_nodes.specs.Frames.{frames, with_step, origin, traced};
ghost use Rattle.script_nodes.specs.Shown.{IsFollowed};
ghost use Rattle.script_nodes.specs.Traces.{IsStep};
ghost use Rattle.script_nodes.specs.Scripts.{IsScript, Given, origin_of};
ghost use Rattle.script_nodes.specs.NodeSteps.{IsNodeStep, node_steps};
ghost use Rattle.script_nodes.specs.Written.{script_text};

use crate::faults::ScriptFault;
use crate::node_steps::{NodeStep, steps_of_clip};
use crate::nodes::Node;
use crate::part_list::length_at;
use crate::reading::read_script;
use crate::traces::{Step, Trace};
use crate::writing::write_nodes;
use arrayvec::ArrayVec;
use std::alloc::Global;
use std::io::{self, Write};
use std::marker::Model;

/// A script: at most 16 nodes, each of which uses sources and earlier nodes. The last one is served, or
/// source 0 if there is none.
#[derive(Debug, Drop)]
pub struct Script {
    nodes: Vec<Node>,
}

impl Model for Script {
    ghost use Rattle.std.specs.Prelude.{List};
    ghost use Rattle.script_nodes.specs.declared.nodes.Node.{Node};
    ghost use Rattle.script_nodes.specs.Scripts.{IsScript};

    ghost Value = { List Node };

    ghost view = { λ s. s.nodes.items };

    ghost invariant = { λ s. IsScript s.nodes.items };
}

/// The origin of a frame: a source, a frame of it, and the steps to apply to it.
#[derive(Drop)]
struct Found {
    source: u64,
    frame: u64,
    steps: ArrayVec<Step, 16>,
}

impl Found {
    /// A frame of a source as it is.
    fn new(source: u64, frame: u64) -> Found
        ensures source { result.source ≡ source }
        ensures frame { result.frame ≡ frame }
        ensures steps { result.steps.items ≡ [] }
    {
        Found {
            source,
            frame,
            steps: ArrayVec::new(),
        }
    }
}

/// The number of frames of each clip, source 0 first. `counts` has the number of frames of each source.
fn lengths_of(nodes: &[Node], counts: &[u64]) -> ArrayVec<u64, 17>
    requires script { IsScript nodes.now }
    requires few { All (λ count. count ≤ 1048576) counts.now }
    ensures value { result.items ≡ lengths counts.now nodes.now }
    ensures long { length result.items ≡ length nodes.now + 1 }
    ensures given { Given counts.now nodes.now result.items }
{
    let mut found = ArrayVec::new();
    found.push(length_at(counts, 0));
    for node in nodes {
        let length = node.length(counts, &found);
        found.push(length);
    }
    found
}

/// The origin of a frame of a clip. The frame is one of the clip's.
fn found_in(nodes: &[Node], lengths: &[u64], clip: u64, frame: u64) -> Found
    requires given { (counts : List ℕ) × Given counts nodes.now lengths.now }
    requires clip { clip ≤ length nodes.now }
    requires inside { frame < slice_index lengths.now clip }
    ensures value { origin_of result.source result.frame result.steps.items ≡ slice_index_or (frames with_step lengths.now origin nodes.now) clip (origin 0) frame }
    ensures inside { (counts : List ℕ) → Given counts nodes.now lengths.now → result.frame < slice_index counts result.source }
    ensures few { length result.steps.items ≤ clip }
    ensures steps { All IsStep result.steps.items }
{
    if clip == 0 {
        return Found::new(0, frame);
    }
    match nodes[clip as usize - 1] {
        Node::Source { number } => Found::new(number, frame),
        Node::Trim { clip, first, .. } => found_in(nodes, lengths, clip, first + frame),
        Node::Splice { front, back } => {
            let before = lengths[front as usize];
            if frame < before {
                found_in(nodes, lengths, front, frame)
            } else {
                found_in(nodes, lengths, back, frame - before)
            }
        }
        Node::Crop { clip, area } => {
            let mut found = found_in(nodes, lengths, clip, frame);
            found.steps.push(Step::Cut(area));
            found
        }
        Node::Fade { clip, ramp } => {
            let mut found = found_in(nodes, lengths, clip, frame);
            found.steps.push(Step::Weigh(ramp.weight(frame)));
            found
        }
        Node::Parts { ref parts } => {
            let (clip, frame) = parts.place(lengths, frame);
            found_in(nodes, lengths, clip, frame)
        }
    }
}

impl Script {
    /// The script without nodes, which serves source 0 as it is. It takes no memory.
    pub fn empty(alloc: Global) -> Script
        ensures { result ≡ [] }
    {
        Script {
            nodes: Vec::new(alloc),
        }
    }

    /// The script that a text writes over this many sources: nodes separated by `;`, or none for `-`.
    ///
    /// Errors come in the order of [`ScriptFault`], each over the whole text, and `NoMemory` only
    /// if none of the others holds.
    pub fn parse(alloc: Global, text: &[u8], sources: u64) -> Result<Script, ScriptFault>
        ensures value { IfOk result (λ script. script_of sources text.now ≡ Ok script) }
        ensures refused { IfErr result (RefusesText sources text.now) }
    {
        let nodes = read_script(alloc, text, sources)?;
        Ok(Script { nodes })
    }

    /// Writes the text of the script, from which `parse` reads it again: `-` without nodes, otherwise one space between two words
    /// and `;` between two nodes.
    pub fn write_text<W: Write>(&self, w: &mut W) -> io::Result<()>
        ensures { OnOk result (Appends (W.contents w.old) (W.contents w.new) (script_text self.now)) }
    {
        write_nodes(w, &self.nodes)
    }

    /// The number of frames that the script serves. `counts` has the number of frames of each source, at most
    /// 1,048,576; a source that it does not have has 0 frames.
    pub fn length(&self, counts: &[u64]) -> u64
        requires { All (λ count. count ≤ 1048576) counts.now }
        ensures { result ≡ script_length counts.now self.now }
    {
        let lengths = lengths_of(&self.nodes, counts);
        lengths[self.nodes.len()]
    }

    /// The source that a frame of the script comes from, the frame of that source, both counted from 0, and
    /// the steps to apply to it. `counts` has the number of frames of each source, at most 1,048,576; a
    /// source that it does not have has 0 frames.
    ///
    /// `None` if the script serves at most `frame` frames. Time depends on the number of nodes,
    /// and not on the numbers of frames.
    pub fn trace(&self, counts: &[u64], frame: u64) -> Option<(usize, u64, Trace)>
        requires { All (λ count. count ≤ 1048576) counts.now }
        ensures none { IfNone result (traced counts.now self.now frame ≡ None) }
        ensures some { IfSome result (λ found. traced counts.now self.now frame ≡ Some (origin_of found.0 found.1 found.2)) }
        ensures followed { IfSome result (λ found. IsFollowed counts.now self.now frame (origin_of found.0 found.1 found.2)) }
        ensures source { IfSome result (λ found. found.0 < length counts.now) }
        ensures inside { IfSome result (λ found. found.1 < slice_index counts.now found.0) }
    {
        let lengths = lengths_of(&self.nodes, counts);
        let last = self.nodes.len();
        if frame >= lengths[last] {
            return None;
        }
        let found = found_in(&self.nodes, &lengths, last as u64, frame);
        Some((found.source as usize, found.frame, Trace::new(found.steps)))
    }

    /// Does nothing. It says what holds of the nodes of each script.
    pub fn prove_nodes(&self)
        ensures { IsScript self.now }
    {
        let _ = &self.nodes;
    }

    /// The steps of a frame of the script, in order, with the numbers of their nodes: 1 for the first one. They are the steps of its
    /// trace (law `steps_are_of_nodes`). `counts` is as for [`trace`](Script::trace).
    ///
    /// `None` if the script serves at most `frame` frames.
    pub fn node_steps(&self, counts: &[u64], frame: u64) -> Option<ArrayVec<NodeStep, 16>>
        requires { All (λ count. count ≤ 1048576) counts.now }
        ensures none { IfNone result (script_length counts.now self.now ≤ frame) }
        ensures some { IfSome result (λ steps. steps.items ≡ node_steps counts.now self.now frame) }
        ensures few { IfSome result (λ steps. length steps.items ≤ 16) }
        ensures allowed { IfSome result (λ steps. All IsNodeStep steps.items) }
    {
        let lengths = lengths_of(&self.nodes, counts);
        let last = self.nodes.len();
        if frame >= lengths[last] {
            return None;
        }
        Some(steps_of_clip(last as u64, &self.nodes, &lengths, last as u64, frame))
    }
}
