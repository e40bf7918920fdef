//! Writes the text of a script.
ghost use Rattle.std.specs.Prelude.{◌≡◌, OnOk};
ghost use Rattle.std.specs.List.{flat_map};
ghost use Rattle.std.specs.Io.KnownBytes.{Appends};
ghost use Rattle.script_nodes.specs.declared.nodes.Node.TheVariants as nodes;
ghost use Rattle.script_nodes.specs.Written.{later_part, later_text, node_text, script_text};

use crate::nodes::{Area, Node, Ramp};
use crate::part_list::Part;
use std::io::{self, Write};

fn write_trim<W: Write>(w: &mut W, clip: u64, first: u64, count: u64) -> io::Result<()>
    ensures { OnOk result (Appends (W.contents w.old) (W.contents w.new) (node_text (nodes.Trim clip first count))) }
{
    write!(w, "trim {clip} {first} {count}")
}

fn write_splice<W: Write>(w: &mut W, front: u64, back: u64) -> io::Result<()>
    ensures { OnOk result (Appends (W.contents w.old) (W.contents w.new) (node_text (nodes.Splice front back))) }
{
    write!(w, "splice {front} {back}")
}

fn write_crop<W: Write>(w: &mut W, clip: u64, area: Area) -> io::Result<()>
    ensures { OnOk result (Appends (W.contents w.old) (W.contents w.new) (node_text (nodes.Crop clip area))) }
{
    let Area {
        x,
        y,
        width,
        height,
    } = area;
    write!(w, "crop {clip} {x} {y} {width} {height}")
}

fn write_fade<W: Write>(w: &mut W, clip: u64, ramp: Ramp) -> io::Result<()>
    ensures { OnOk result (Appends (W.contents w.old) (W.contents w.new) (node_text (nodes.Fade clip ramp))) }
{
    let Ramp {
        first,
        count,
        start,
        end,
    } = ramp;
    write!(w, "fade {clip} {first} {count} {start} {end}")
}

fn write_part<W: Write>(w: &mut W, part: Part) -> io::Result<()>
    ensures { OnOk result (Appends (W.contents w.old) (W.contents w.new) (later_part part)) }
{
    let Part { clip, first, count } = part;
    write!(w, " {clip} {first} {count}")
}

fn write_parts<W: Write>(w: &mut W, parts: &[Part]) -> io::Result<()>
    ensures { OnOk result (Appends (W.contents w.old) (W.contents w.new) (node_text (nodes.Parts parts.now))) }
{
    w.write_all(b"parts")?;
    for part in parts {
        write_part(w, *part)?;
    }
    Ok(())
}

/// Writes the text of a node.
fn write_node<W: Write>(w: &mut W, node: &Node) -> io::Result<()>
    ensures { OnOk result (Appends (W.contents w.old) (W.contents w.new) (node_text node.now)) }
{
    match *node {
        Node::Source { number } => write!(w, "source {number}"),
        Node::Trim { clip, first, count } => write_trim(w, clip, first, count),
        Node::Splice { front, back } => write_splice(w, front, back),
        Node::Crop { clip, area } => write_crop(w, clip, area),
        Node::Fade { clip, ramp } => write_fade(w, clip, ramp),
        Node::Parts { ref parts } => write_parts(w, parts.parts()),
    }
}

/// Writes the texts of nodes after another one.
fn write_later<W: Write>(w: &mut W, nodes: &[Node]) -> io::Result<()>
    ensures { OnOk result (Appends (W.contents w.old) (W.contents w.new) (flat_map later_text nodes.now)) }
{
    for node in nodes {
        w.write_all(b";")?;
        write_node(w, node)?;
    }
    Ok(())
}

/// Writes the text of nodes: `-` for none.
pub(crate) fn write_nodes<W: Write>(w: &mut W, nodes: &[Node]) -> io::Result<()>
    ensures { OnOk result (Appends (W.contents w.old) (W.contents w.new) (script_text nodes.now)) }
{
    match nodes.split_first() {
        None => w.write_all(b"-"),
        Some((first, rest)) => {
            write_node(w, first)?;
            write_later(w, rest)
        }
    }
}
