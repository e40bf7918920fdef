//! The origin of a frame: the nodes that change it, and its JSON object.
ghost use Rattle.std.specs.Prelude.{◌≡◌, ◌+◌, ◌<◌, ◌≤◌, ◌++◌, ◌∷◌, [], OnOk, if◌then◌else◌, length, unwrap_or};
ghost use Rattle.std.specs.List.{All, flat_map};
ghost use Rattle.std.specs.Io.KnownBytes.{Appends};
ghost use Rattle.script_nodes.specs.NodeSteps.{IsNodeStep, changed_nodes, keeps_samples};
ghost use Rattle.script_nodes.specs.Shown.{step_size};
ghost use Rattle.script_nodes.specs.Traces.{IsStep};
ghost use Rattle.script_nodes.specs.OriginTexts.{later_number, numbers_text, origin_members, origin_text};

use crate::node_steps::NodeStep;
use crate::traces::Step;
use arrayvec::ArrayVec;
use std::io::{self, Write};

/// Where a frame of a script comes from: a frame of a source, and the index of its packet. All are counted from 0.
#[derive(Clone, Copy, Debug, PartialEq, Eq)]
pub struct FrameOrigin {
    pub frame: u64,
    pub source: u64,
    pub source_frame: u64,
    pub packet: u64,
}

/// Whether a step changes no sample of a picture of this size.
pub fn keeps_samples(step: &Step, width: u16, height: u16) -> bool
    ensures { result ≡ keeps_samples width height step.now }
{
    match step {
        Step::Cut(area) => {
            area.x == 0
                && area.y == 0
                && area.width == u64::from(width)
                && area.height == u64::from(height)
        }
        Step::Weigh(weight) => *weight == 256,
    }
}

/// Appends the number of a node that changes a sample of a picture of this size.
fn push_changed(changed: &mut ArrayVec<u64, 16>, made: &NodeStep, size: (u16, u16))
    requires { length changed.old.items < 16 }
    ensures after { changed.new.items ≡ changed.old.items ++ (if keeps_samples size.0 size.1 made.now.step then [] else made.now.node ∷ []) }
    ensures few { length changed.new.items ≤ length changed.old.items + 1 }
{
    if !keeps_samples(&made.step, size.0, size.1) {
        changed.push(made.node);
    }
}

/// The size after a step. A crop past the size leaves it.
fn size_after(step: &Step, size: (u16, u16)) -> (u16, u16)
    requires { IsStep step.now }
    ensures { result ≡ unwrap_or (step_size step.now size) size }
{
    step.size(size.0, size.1).unwrap_or(size)
}

/// The numbers of the nodes that change a sample of a picture of this size, by the steps of a frame of it, at most 16. A crop past
/// the size leaves it.
pub fn changed_nodes(steps: &[NodeStep], width: u16, height: u16) -> ArrayVec<u64, 16>
    requires few { length steps.now ≤ 16 }
    requires allowed { All IsNodeStep steps.now }
    ensures { result.items ≡ changed_nodes (width, height) steps.now }
{
    let mut changed = ArrayVec::new();
    let mut size = (width, height);
    for made in steps {
        push_changed(&mut changed, made, size);
        size = size_after(&made.step, size);
    }
    changed
}

/// Writes numbers, each after a comma.
fn write_later_numbers<W: Write>(w: &mut W, numbers: &[u64]) -> io::Result<()>
    ensures { OnOk result (Appends (W.contents w.old) (W.contents w.new) (flat_map later_number numbers.now)) }
{
    for number in numbers {
        write!(w, ",{number}")?;
    }
    Ok(())
}

/// Writes numbers, with a comma between two of them.
fn write_numbers<W: Write>(w: &mut W, numbers: &[u64]) -> io::Result<()>
    ensures { OnOk result (Appends (W.contents w.old) (W.contents w.new) (numbers_text numbers.now)) }
{
    match numbers.split_first() {
        None => Ok(()),
        Some((first, rest)) => {
            write!(w, "{first}")?;
            write_later_numbers(w, rest)
        }
    }
}

/// Writes the members of an origin before its nodes.
fn write_members<W: Write>(w: &mut W, origin: FrameOrigin) -> io::Result<()>
    ensures { OnOk result (Appends (W.contents w.old) (W.contents w.new) (origin_members origin)) }
{
    let FrameOrigin {
        frame,
        source,
        source_frame,
        packet,
    } = origin;
    write!(
        w,
        "{{\"frame\":{frame},\"source\":{source},\"source_frame\":{source_frame},\"packet\":{packet}"
    )
}

/// Writes the origin of a frame that these nodes change as a JSON object (RFC 8259).
pub fn write_origin<W: Write>(w: &mut W, origin: FrameOrigin, changed: &[u64]) -> io::Result<()>
    ensures { OnOk result (Appends (W.contents w.old) (W.contents w.new) (origin_text origin changed.now)) }
{
    write_members(w, origin)?;
    w.write_all(b",\"changed\":[")?;
    write_numbers(w, changed)?;
    w.write_all(b"]}")
}
