//! The parts of a node: frames of clips, one part after the other.
ghost use Rattle.std.specs.Prelude.{◌≡◌, ℕ, ◌+◌, ◌-◌, ◌<◌, ◌≤◌, min, true, IfOk, length, slice_index};
ghost use Rattle.std.specs.List.{All};
ghost use Rattle.script_nodes.specs.PartLists.{AreNeeds, ends_from, most_frames, too_many};
ghost use Rattle.script_nodes.specs.Lengths.{AreWhole, has_clip, part_length, parts_length, place_in};

use std::alloc::{AllocError, Global};
use std::marker::Model;

/// The most frames of a clip of a script.
pub(crate) const MOST_FRAMES: u64 = 68_719_476_736;

/// More frames than a clip of a script may have.
const TOO_MANY: u64 = MOST_FRAMES + 1;

/// The number of clips of a script of 16 nodes, with source 0.
const CLIPS: usize = 17;

/// At most `count` frames of a clip, starting at frame `first`.
#[derive(Clone, Copy, Debug, PartialEq, Eq)]
pub struct Part {
    /// The number of the clip.
    pub clip: u64,
    pub first: u64,
    pub count: u64,
}

/// Parts, one after the other.
#[derive(Debug, Drop)]
pub struct PartList {
    parts: Vec<Part>,
    /// The sum of the counts up to each part, counted up to `TOO_MANY`.
    ends: Vec<u64>,
    /// For each clip the number of frames with which none of its parts is cut short.
    needs: [u64; 17],
}

impl Model for PartList {
    ghost use Rattle.std.specs.Prelude.{◌≡◌, List};
    ghost use Rattle.script_nodes.specs.declared.part_list.Part.{Part};
    ghost use Rattle.script_nodes.specs.PartLists.{AreSums};

    ghost Value = { List Part };

    ghost view = { λ l. l.parts.items };

    ghost invariant = { λ l. AreSums l.parts.items l.ends.items l.needs };
}

/// The number of frames of a clip: 0 if the list does not have it.
pub(crate) fn length_at(lengths: &[u64], clip: u64) -> u64
    ensures { result ≡ slice_index lengths.now clip }
{
    if clip < lengths.len() as u64 {
        lengths[clip as usize]
    } else {
        0
    }
}

/// A sum that is counted up to `TOO_MANY`.
pub(crate) fn added(total: u64, count: u64) -> u64
    requires { total ≤ too_many }
    ensures value { result ≡ min too_many (total + count) }
    ensures small { result ≤ too_many }
{
    (total + count.min(TOO_MANY)).min(TOO_MANY)
}

impl Part {
    /// The number of frames of the part.
    fn length(&self, lengths: &[u64]) -> u64
        ensures { result ≡ part_length lengths.now self.now }
    {
        let left = length_at(lengths, self.clip).saturating_sub(self.first);
        self.count.min(left)
    }
}

/// The sum of the counts up to each part.
fn ends_of(alloc: Global, parts: &[Part]) -> Result<Vec<u64>, AllocError>
    ensures { IfOk result (λ ends. ends.items ≡ ends_from 0 parts.now) }
{
    let mut ends = Vec::with_capacity(alloc, parts.len())?;
    let mut total = 0;
    for part in parts {
        total = added(total, part.count);
        ends.push(total)?;
    }
    Ok(ends)
}

/// For each clip the number of frames with which none of its parts is cut short.
fn needs_of(parts: &[Part]) -> [u64; 17]
    ensures { AreNeeds parts.now result }
{
    let mut needs = [0; 17];
    for part in parts {
        let clip = part.clip.min(16) as usize;
        let need = added(added(0, part.first), part.count);
        needs[clip] = needs[clip].max(need);
    }
    needs
}

/// The first frame of a part, or of what is after the last part, if no part is cut short.
fn start_at(ends: &[u64], at: usize) -> u64
    requires { at ≤ length ends.now }
    ensures first { at ≡ 0 → result ≡ 0 }
    ensures later { 0 < at → result ≡ slice_index ends.now (at - 1) }
{
    if at == 0 { 0 } else { ends[at - 1] }
}

/// Whether each clip has at least the number of frames that its parts need.
fn are_met(needs: &[u64; 17], lengths: &[u64]) -> bool
    ensures { result ≡ true → (k : ℕ) → k < 17 → slice_index needs.now k ≤ slice_index lengths.now k }
{
    for clip in 0..CLIPS {
        if needs[clip] > length_at(lengths, clip as u64) {
            return false;
        }
    }
    true
}

/// The number of frames of parts.
fn length_by_parts(parts: &[Part], lengths: &[u64]) -> u64
    requires { parts_length lengths.now parts.now ≤ most_frames }
    ensures { result ≡ parts_length lengths.now parts.now }
{
    let mut total = 0;
    for part in parts {
        total += part.length(lengths);
    }
    total
}

/// The clip and its frame that are a frame of parts.
fn place_by_parts(parts: &[Part], lengths: &[u64], frame: u64) -> (u64, u64)
    requires inside { frame < parts_length lengths.now parts.now }
    requires small { (k : ℕ) → slice_index lengths.now k ≤ most_frames }
    ensures { result ≡ place_in lengths.now parts.now frame }
{
    let mut left = frame;
    for part in parts {
        let length = part.length(lengths);
        if left < length {
            return (part.clip, part.first + left);
        }
        left -= length;
    }
    (0, left)
}

impl PartList {
    /// A list of these parts.
    pub(crate) fn new(alloc: Global, parts: Vec<Part>) -> Result<PartList, AllocError>
        ensures { IfOk result (λ list. list ≡ parts.items) }
    {
        let ends = ends_of(alloc, &parts)?;
        let needs = needs_of(&parts);
        Ok(PartList { parts, ends, needs })
    }

    pub(crate) fn parts(&self) -> &[Part]
        ensures { result.now ≡ self.now }
    {
        &self.parts
    }

    /// Whether no part is cut short, as far as the needs of the clips show it.
    fn are_whole(&self, lengths: &[u64]) -> bool
        requires few { length lengths.now ≤ 17 }
        requires uses { All (has_clip (length lengths.now)) self.now }
        requires small { (k : ℕ) → slice_index lengths.now k ≤ most_frames }
        ensures { result ≡ true → AreWhole lengths.now self.now }
    {
        are_met(&self.needs, lengths)
    }

    /// The number of frames of the parts. `lengths` has that of each clip below the node, source 0 first.
    pub(crate) fn length(&self, lengths: &[u64]) -> u64
        requires few { length lengths.now ≤ 17 }
        requires uses { All (has_clip (length lengths.now)) self.now }
        requires small { (k : ℕ) → slice_index lengths.now k ≤ most_frames }
        requires within { parts_length lengths.now self.now ≤ most_frames }
        ensures { result ≡ parts_length lengths.now self.now }
    {
        if !self.are_whole(lengths) {
            return length_by_parts(&self.parts, lengths);
        }
        start_at(&self.ends, self.ends.len())
    }

    /// The clip and its frame that are a frame of the parts.
    pub(crate) fn place(&self, lengths: &[u64], frame: u64) -> (u64, u64)
        requires few { length lengths.now ≤ 17 }
        requires uses { All (has_clip (length lengths.now)) self.now }
        requires small { (k : ℕ) → slice_index lengths.now k ≤ most_frames }
        requires within { parts_length lengths.now self.now ≤ most_frames }
        requires inside { frame < parts_length lengths.now self.now }
        ensures { result ≡ place_in lengths.now self.now frame }
    {
        if !self.are_whole(lengths) {
            return place_by_parts(&self.parts, lengths, frame);
        }
        let at = self.ends.partition_point(|end| *end <= frame);
        let start = start_at(&self.ends, at);
        let part = self.parts[at];
        (part.clip, part.first + (frame - start))
    }
}
