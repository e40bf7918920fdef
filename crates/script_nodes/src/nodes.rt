ghost use Rattle.std.specs.Prelude.{◌≡◌, ℕ, ◌≤◌, true, length, slice_index};
ghost use Rattle.script_nodes.specs.Nodes.{uses_below, is_place, is_area, is_ramp};
ghost use Rattle.script_nodes.specs.Lengths.{node_length};
ghost use Rattle.script_nodes.specs.PartLists.{most_frames};
ghost use Rattle.script_nodes.specs.Frames.{weight_at};

use crate::part_list::{PartList, length_at};
use pixel_planes::is_side;

/// The largest number in a script.
pub(crate) const MOST_NUMBER: u64 = 4_294_967_295;

/// The weight of a picture that is not faded.
pub(crate) const WHOLE: u64 = 256;

/// A part of a picture, in luma samples.
///
/// In a script the position is even and at most 4,294,967,295 each way, and width and height are 1 to 16,383.
#[derive(Clone, Copy, Debug, Default, PartialEq, Eq)]
pub struct Area {
    /// The column of its first sample.
    pub x: u64,
    /// The row of its first sample.
    pub y: u64,
    /// The number of its columns.
    pub width: u64,
    /// The number of its rows.
    pub height: u64,
}

/// The weights of a fade, in 256ths, over the frames of its clip.
///
/// In a script `first` and `count` are at most 4,294,967,295, `count` is not 0, and the weights are
/// at most 256.
#[derive(Clone, Copy, Debug, Default, PartialEq, Eq)]
pub struct Ramp {
    /// The frame at which the weight starts to change.
    pub first: u64,
    /// The number of frames over which it changes.
    pub count: u64,
    /// The weight of the frames before these.
    pub start: u64,
    /// The weight of the frames after these.
    pub end: u64,
}

/// A clip that is a source, or is made of other clips, which are given by their numbers: 0 is source 0,
/// and the nodes of a script are numbered from 1 in their order.
///
/// A source is a stream that the script is applied to, with the frames that it shows. Sources are
/// numbered from 0.
#[derive(Debug, Drop)]
pub enum Node {
    /// All frames of the source with this number.
    Source { number: u64 },
    /// At most `count` frames of a clip, starting at frame `first`.
    Trim { clip: u64, first: u64, count: u64 },
    /// The frames of one clip, followed by the frames of another.
    Splice { front: u64, back: u64 },
    /// An area of each frame of a clip.
    Crop { clip: u64, area: Area },
    /// The frames of a clip, each at its weight with black at the rest.
    Fade { clip: u64, ramp: Ramp },
    /// The frames of parts of clips, one part after the other.
    Parts { parts: PartList },
}

impl Area {
    /// Whether a script may have this area.
    pub(crate) fn is_allowed(&self) -> bool
        ensures { result ≡ is_area self.now }
    {
        is_place(self.x) && is_place(self.y) && is_side(self.width) && is_side(self.height)
    }
}

fn is_place(n: u64) -> bool
    ensures { result ≡ is_place n }
{
    n <= MOST_NUMBER && n % 2 == 0
}

impl Ramp {
    /// Whether a script may have this ramp.
    pub(crate) fn is_allowed(&self) -> bool
        ensures { result ≡ is_ramp self.now }
    {
        self.first <= MOST_NUMBER
            && self.count <= MOST_NUMBER
            && 0 < self.count
            && self.start <= WHOLE
            && self.end <= WHOLE
    }

    /// The weight of a frame, 0 to 256, for a ramp that a script may have.
    pub(crate) fn weight(&self, frame: u64) -> u16
        requires { is_ramp self.now ≡ true }
        ensures value { result ≡ weight_at self.now frame }
        ensures small { result ≤ 256 }
    {
        if frame < self.first {
            return self.start as u16;
        }
        let passed = frame - self.first;
        if passed >= self.count {
            return self.end as u16;
        }
        ((self.start * (self.count - passed) + self.end * passed) / self.count) as u16
    }
}

impl Node {
    /// The number of frames of the node. `counts` has the number of frames of each source, and `below` that
    /// of each clip below the node, source 0 first.
    pub(crate) fn length(&self, counts: &[u64], below: &[u64]) -> u64
        requires uses { uses_below (length below.now) self.now ≡ true }
        requires few { length below.now ≤ 17 }
        requires small { (k : ℕ) → slice_index below.now k ≤ most_frames }
        requires within { node_length counts.now below.now self.now ≤ most_frames }
        ensures { result ≡ node_length counts.now below.now self.now }
    {
        match self {
            Node::Source { number } => length_at(counts, *number),
            Node::Trim { clip, first, count } => {
                (*count).min(below[*clip as usize].saturating_sub(*first))
            }
            Node::Splice { front, back } => below[*front as usize] + below[*back as usize],
            Node::Crop { clip, .. } | Node::Fade { clip, .. } => below[*clip as usize],
            Node::Parts { parts } => parts.length(below),
        }
    }
}
