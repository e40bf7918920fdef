//! A node as its text is read: its parts are still words.
ghost use Rattle.std.specs.Prelude.{◌≡◌, ℕ, ◌≤◌, Some, IfOk, option_map, slice_index};
ghost use Rattle.script_nodes.specs.Reading.{drafted, drafted_of, facts_of};
ghost use Rattle.script_nodes.specs.Nodes.{node_of};
ghost use Rattle.script_nodes.specs.PartLists.{too_many};

use crate::nodes::{Area, MOST_NUMBER, Node, Ramp};
use crate::part_list::{added, length_at};
use crate::part_texts::{check_parts, read_list};
use std::alloc::{AllocError, Global};

/// The most frames of a source.
pub(crate) const SOURCE_FRAMES: u64 = 1_048_576;

/// A node whose parts are words, which may be no parts.
#[derive(Clone, Copy, Debug)]
pub(crate) enum Draft<'a> {
    Source { number: u64 },
    Trim { clip: u64, first: u64, count: u64 },
    Splice { front: u64, back: u64 },
    Crop { clip: u64, area: Area },
    Fade { clip: u64, ramp: Ramp },
    Parts { words: &'a [u8] },
}

/// Whether a node may be one of a script, and how long it can be.
#[derive(Clone, Copy, Debug, PartialEq, Eq)]
pub(crate) struct Facts {
    /// The clips and the source that it uses exist.
    pub references: bool,
    /// Its numbers are allowed.
    pub numbers: bool,
    /// The most frames that it can have, counted up to 68,719,476,737.
    pub most: u64,
}

impl Draft<'_> {
    /// The facts of the node with this number, or `None` if its parts are none. `below` has the most frames of each clip below it.
    pub(crate) fn facts(&self, own: u64, sources: u64, below: &[u64]) -> Option<Facts>
        requires { (k : ℕ) → slice_index below.now k ≤ too_many }
        ensures { result ≡ option_map (facts_of own sources below.now) (drafted self.now) }
    {
        let (references, numbers, most) = match *self {
            Draft::Source { number } => (number < sources, true, SOURCE_FRAMES),
            Draft::Trim { clip, first, count } => (
                clip < own,
                first <= MOST_NUMBER && count <= MOST_NUMBER,
                count.min(length_at(below, clip)),
            ),
            Draft::Splice { front, back } => (
                front < own && back < own,
                true,
                added(length_at(below, front), length_at(below, back)),
            ),
            Draft::Crop { clip, area } => (clip < own, area.is_allowed(), length_at(below, clip)),
            Draft::Fade { clip, ramp } => (clip < own, ramp.is_allowed(), length_at(below, clip)),
            Draft::Parts { words } => return check_parts(words, own, sources, below),
        };
        Some(Facts {
            references,
            numbers,
            most,
        })
    }

    /// The node, or `None` if its parts are none.
    pub(crate) fn node(&self, alloc: Global) -> Result<Option<Node>, AllocError>
        ensures { IfOk result (λ node. node ≡ drafted self.now) }
    {
        Ok(Some(match *self {
            Draft::Source { number } => Node::Source { number },
            Draft::Trim { clip, first, count } => Node::Trim { clip, first, count },
            Draft::Splice { front, back } => Node::Splice { front, back },
            Draft::Crop { clip, area } => Node::Crop { clip, area },
            Draft::Fade { clip, ramp } => Node::Fade { clip, ramp },
            Draft::Parts { words } => match read_list(alloc, words)? {
                Some(parts) => Node::Parts { parts },
                None => return Ok(None),
            },
        }))
    }
}
