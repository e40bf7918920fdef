//! The records of a frame as they are stored: the modes and the vectors that only some macroblocks have are in lists
//! of their own, so that most records take 24 bytes.

ghost use Rattle.std.specs.Prelude.{◌≡◌, ◌==◌, ◌<◌, ◌++◌, ◌∷◌, [], false, Some, None, length, IfOk, OnOk, map, slice_get, slice_index_or, replicate};
ghost use Rattle.intra_predict.specs.declared.modes.WholeMode.TheVariants.{Dc};
ghost use Rattle.mode_parser.specs.InterRecords.{vector_in};
ghost use Rattle.mode_parser.specs.SubModes.{context_in, counterpart};
ghost use Rattle.mode_parser.specs.Records.{no_sub_modes, no_vectors};
ghost use Rattle.mode_parser.specs.NearVectors.{is_split_mode};
ghost use Rattle.mode_parser.specs.SplitModes.{is_split};
ghost use Rattle.mode_parser.specs.Vectors.{zero_vector};
ghost use Rattle.mode_parser.specs.RecordList.{HasLastVector, as_moved, mode_of, moved_mode, neighbour_of, stored_with};
ghost use Rattle.mode_parser.specs.declared.records.VectorMode.TheVariants.{Split};
ghost use Rattle.mode_parser.specs.declared.records.YMode.TheVariants.{Whole, B, Inter};

use crate::records::{MbMode, VectorMode, YMode};
use crate::vectors::Vector;
use bool_coder::NoMemory;
use frame_header::Reference;
use intra_predict::{SubMode, WholeMode};
use std::alloc::Global;
use std::marker::Model;

/// A record as it is stored.
#[derive(Clone, Copy)]
pub(crate) struct Stored {
    pub(crate) segment: u8,
    pub(crate) is_skipped: bool,
    pub(crate) y_mode: YMode,
    pub(crate) uv_mode: WholeMode,
    /// The vector of all its luma blocks; if it is split, of the last one.
    pub(crate) vector: Vector,
    /// The index of its modes of sub blocks, or of its vectors, if it has a list of them.
    pub(crate) side: usize,
}

/// The modes of sub blocks and the vectors that only some macroblocks have.
#[derive(Drop)]
pub(crate) struct Lists {
    pub(crate) sub_modes: Vec<[SubMode; 16]>,
    pub(crate) vectors: Vec<[Vector; 16]>,
}

/// How a macroblock is predicted: a `MbMode` that is read where it is stored.
#[derive(Clone, Copy)]
pub struct Record<'a> {
    pub(crate) stored: Stored,
    pub(crate) lists: &'a Lists,
}

/// Whether each luma block has a vector of its own.
#[inline]
fn is_split_mode(mode: YMode) -> bool
    ensures { result ≡ is_split_mode mode }
{
    match mode {
        YMode::Inter(_, VectorMode::Split) => true,
        YMode::Whole(_) | YMode::B | YMode::Inter(..) => false,
    }
}

/// The modes of the sub blocks of a stored record.
#[inline]
fn sub_modes_in(lists: &Lists, stored: Stored) -> [SubMode; 16]
    ensures { result ≡ (stored_with lists.now.sub_modes.items lists.now.vectors.items stored).sub_modes }
{
    if let YMode::B = stored.y_mode
        && let Some(modes) = lists.sub_modes.get(stored.side)
    {
        return *modes;
    }
    [SubMode::Dc; 16]
}

/// The vector of luma block `n` of a stored record.
#[inline]
fn vector_in(lists: &Lists, stored: Stored, n: usize) -> Vector
    requires { n < 16 }
    ensures { result ≡ slice_index_or (stored_with lists.now.sub_modes.items lists.now.vectors.items stored).vectors n zero_vector }
{
    if !is_split_mode(stored.y_mode) {
        return stored.vector;
    }
    match lists.vectors.get(stored.side) {
        Some(vectors) => vectors[n],
        None => Vector::ZERO,
    }
}

impl<'a> Record<'a> {
    /// The segment, 0 to 3; 0 if the frame has no segments (RFC 6386, section 9.3).
    #[inline]
    #[tactic(auto, unfolding(crate::specs::RecordList::mode_of))]
    pub fn segment(&self) -> u8
        ensures { result ≡ (mode_of self.now).segment }
    {
        self.stored.segment
    }

    /// Whether no coefficients are read for it (RFC 6386, section 11.1).
    #[inline]
    #[tactic(auto, unfolding(crate::specs::RecordList::mode_of))]
    pub fn is_skipped(&self) -> bool
        ensures { result ≡ (mode_of self.now).is_skipped }
    {
        self.stored.is_skipped
    }

    /// How its luma is predicted.
    #[inline]
    #[tactic(auto, unfolding(crate::specs::RecordList::mode_of))]
    pub fn y_mode(&self) -> YMode
        ensures { result ≡ (mode_of self.now).y_mode }
    {
        self.stored.y_mode
    }

    /// How each of its chroma blocks is predicted; DC if its luma is predicted from a reference.
    #[inline]
    #[tactic(auto, unfolding(crate::specs::RecordList::mode_of))]
    pub fn uv_mode(&self) -> WholeMode
        ensures { result ≡ (mode_of self.now).uv_mode }
    {
        self.stored.uv_mode
    }

    /// The modes of its luma sub blocks in raster order; all DC if its mode is not `B`.
    #[inline]
    #[tactic(auto, unfolding(crate::specs::RecordList::mode_of))]
    pub fn sub_modes(&self) -> [SubMode; 16]
        ensures { result ≡ (mode_of self.now).sub_modes }
    {
        sub_modes_in(self.lists, self.stored)
    }

    /// The vector of its luma block `n`, 0 to 15 in raster order; zero if it has no reference.
    #[inline]
    #[tactic(auto, unfolding(crate::specs::RecordList::mode_of))]
    pub fn vector(&self, n: usize) -> Vector
        requires { n < 16 }
        ensures { result ≡ slice_index_or (mode_of self.now).vectors n zero_vector }
    {
        vector_in(self.lists, self.stored, n)
    }

    /// The vectors of its luma blocks in raster order; all zero if it has no reference.
    #[inline]
    #[tactic(auto, unfolding(crate::specs::RecordList::mode_of))]
    pub fn vectors(&self) -> [Vector; 16]
        ensures { result ≡ (mode_of self.now).vectors }
    {
        if !is_split_mode(self.stored.y_mode) {
            return [self.stored.vector; 16];
        }
        match self.lists.vectors.get(self.stored.side) {
            Some(vectors) => *vectors,
            None => [Vector::ZERO; 16],
        }
    }

    /// The whole record.
    #[tactic(auto, unfolding(crate::specs::RecordList::mode_of))]
    pub fn mode(&self) -> MbMode
        ensures { result ≡ mode_of self.now }
    {
        let (sub_modes, vectors) = (self.sub_modes(), self.vectors());
        let stored = self.stored;
        MbMode {
            segment: stored.segment,
            is_skipped: stored.is_skipped,
            y_mode: stored.y_mode,
            sub_modes,
            uv_mode: stored.uv_mode,
            vectors,
        }
    }
}

/// The sub block mode as which a whole block's mode counts (RFC 6386, section 11.3).
#[inline]
fn counterpart(mode: WholeMode) -> SubMode
    ensures { result ≡ counterpart mode }
{
    match mode {
        WholeMode::Dc => SubMode::Dc,
        WholeMode::V => SubMode::Ve,
        WholeMode::H => SubMode::He,
        WholeMode::Tm => SubMode::Tm,
    }
}

/// A macroblock next to another one, or outside the frame.
#[derive(Clone, Copy)]
pub(crate) struct Neighbour<'a> {
    pub(crate) is_inside: bool,
    pub(crate) stored: Stored,
    pub(crate) lists: &'a Lists,
}

/// The part of a neighbour on which near vectors depend: its mode, and the vector of its last luma block.
#[derive(Clone, Copy)]
pub(crate) struct Moved {
    pub(crate) is_inside: bool,
    pub(crate) y_mode: YMode,
    pub(crate) vector: Vector,
}

impl<'a> Neighbour<'a> {
    /// The part of it on which near vectors depend.
    #[inline(always)]
    pub(crate) fn moved(&self) -> Moved
        requires { HasLastVector self.now }
        ensures { moved_mode result ≡ as_moved (neighbour_of self.now) }
    {
        Moved {
            is_inside: self.is_inside,
            y_mode: self.stored.y_mode,
            vector: self.stored.vector,
        }
    }

    /// The vector of its luma block `n`; zero outside the frame.
    #[inline]
    pub(crate) fn vector(&self, n: usize) -> Vector
        requires { n < 16 }
        ensures { result ≡ vector_in (neighbour_of self.now) n }
    {
        if self.is_inside {
            vector_in(self.lists, self.stored, n)
        } else {
            Vector::ZERO
        }
    }

    /// The mode of its sub block `n`, as its neighbours take it; DC outside the frame.
    #[inline]
    pub(crate) fn sub_mode(&self, n: usize) -> SubMode
        requires { n < 16 }
        ensures { result ≡ context_in (neighbour_of self.now) n }
    {
        if !self.is_inside {
            return SubMode::Dc;
        }
        match self.stored.y_mode {
            YMode::Whole(mode) => counterpart(mode),
            YMode::B => sub_modes_in(self.lists, self.stored)[n],
            YMode::Inter(_, _) => SubMode::Dc,
        }
    }
}

/// The records of a frame's macroblocks, in raster order. A contract sees the list of them.
#[derive(Drop)]
pub struct Records {
    stored: Vec<Stored>,
    lists: Lists,
}

impl Model for Records {
    ghost use Rattle.std.specs.Prelude.{List, map, All};
    ghost use Rattle.mode_parser.specs.declared.records.MbMode.{MbMode};
    ghost use Rattle.mode_parser.specs.RecordList.{IsInside, stored_with};

    ghost Value = { List MbMode };

    ghost view = { λ r. map (stored_with r.lists.sub_modes.items r.lists.vectors.items) r.stored.items };

    ghost invariant = { λ r. All (IsInside r.lists.sub_modes.items r.lists.vectors.items) r.stored.items };
}

/// The first fields of a record, which are read before its modes.
#[derive(Clone, Copy)]
pub(crate) struct Start {
    pub(crate) segment: u8,
    pub(crate) is_skipped: bool,
}

/// The segment of each stored record.
fn segments_in(alloc: Global, stored: &[Stored]) -> Result<Vec<u8>, NoMemory>
    ensures { IfOk result (λ segments. segments.items ≡ map (λ r. r.segment) stored.now) }
{
    let mut segments = Vec::with_capacity(alloc, stored.len())?;
    for record in stored {
        segments.push(record.segment)?;
    }
    Ok(segments)
}

impl Records {
    /// No records. The first `count` that are appended take no further memory, except for the modes and
    /// vectors that only some have.
    pub(crate) fn with_capacity(alloc: Global, count: usize) -> Result<Records, NoMemory>
        ensures { IfOk result (λ records. records ≡ []) }
    {
        Ok(Records {
            stored: Vec::with_capacity(alloc, count)?,
            lists: Lists {
                sub_modes: Vec::new(alloc),
                vectors: Vec::new(alloc),
            },
        })
    }

    /// The number of records.
    #[inline]
    pub fn len(&self) -> usize
        ensures { result ≡ length self.now }
    {
        self.stored.len()
    }

    /// Whether there are none.
    pub fn is_empty(&self) -> bool
        ensures { result ≡ (length self.now == 0) }
    {
        self.stored.is_empty()
    }

    /// The record at index `n`, which exists.
    #[inline]
    #[tactic(auto, unfolding(crate::specs::RecordList::mode_of))]
    pub fn at(&self, n: usize) -> Record<'_>
        requires { n < length self.now }
        ensures { slice_get self.now n ≡ Some (mode_of result) }
    {
        Record {
            stored: self.stored[n],
            lists: &self.lists,
        }
    }

    /// The record at index `n` as that of a neighbour, which is outside if there are not so many.
    #[inline]
    pub(crate) fn neighbour(&self, n: usize) -> Neighbour<'_>
        ensures value { neighbour_of result ≡ slice_get self.now n }
        ensures last { HasLastVector result }
    {
        if n >= self.len() {
            return self.outside();
        }
        Neighbour {
            is_inside: true,
            stored: self.stored[n],
            lists: &self.lists,
        }
    }

    /// A macroblock outside the frame.
    #[inline]
    pub(crate) fn outside(&self) -> Neighbour<'_>
        ensures value { neighbour_of result ≡ None }
        ensures last { HasLastVector result }
    {
        let stored = Stored {
            segment: 0,
            is_skipped: false,
            y_mode: YMode::B,
            uv_mode: WholeMode::Dc,
            vector: Vector::ZERO,
            side: 0,
        };
        Neighbour {
            is_inside: false,
            stored,
            lists: &self.lists,
        }
    }

    /// Appends the record of a macroblock whose luma is predicted as one block.
    #[inline]
    pub(crate) fn push_whole(
        &mut self,
        start: Start,
        mode: WholeMode,
        uv_mode: WholeMode,
    ) -> Result<(), NoMemory>
        ensures { OnOk result (self.new ≡ self.old ++ record { segment = start.segment; is_skipped = start.is_skipped; y_mode = Whole mode; sub_modes = no_sub_modes; uv_mode = uv_mode; vectors = no_vectors } ∷ []) }
    {
        self.stored.push(Stored {
            segment: start.segment,
            is_skipped: start.is_skipped,
            y_mode: YMode::Whole(mode),
            uv_mode,
            vector: Vector::ZERO,
            side: 0,
        })?;
        Ok(())
    }

    /// Appends the record of a macroblock whose sub blocks have modes of their own.
    #[inline]
    pub(crate) fn push_sub_modes(
        &mut self,
        start: Start,
        sub_modes: [SubMode; 16],
        uv_mode: WholeMode,
    ) -> Result<(), NoMemory>
        ensures { OnOk result (self.new ≡ self.old ++ record { segment = start.segment; is_skipped = start.is_skipped; y_mode = B; sub_modes = sub_modes; uv_mode = uv_mode; vectors = no_vectors } ∷ []) }
    {
        let side = self.lists.sub_modes.len();
        self.lists.sub_modes.push(sub_modes)?;
        self.stored.push(Stored {
            segment: start.segment,
            is_skipped: start.is_skipped,
            y_mode: YMode::B,
            uv_mode,
            vector: Vector::ZERO,
            side,
        })?;
        Ok(())
    }

    /// Appends the record of a macroblock that is predicted from a reference, by one vector.
    #[inline]
    pub(crate) fn push_moved(
        &mut self,
        start: Start,
        reference: Reference,
        mode: VectorMode,
        vector: Vector,
    ) -> Result<(), NoMemory>
        requires { is_split mode ≡ false }
        ensures { OnOk result (self.new ≡ self.old ++ record { segment = start.segment; is_skipped = start.is_skipped; y_mode = Inter reference mode; sub_modes = no_sub_modes; uv_mode = Dc; vectors = replicate 16 vector } ∷ []) }
    {
        self.stored.push(Stored {
            segment: start.segment,
            is_skipped: start.is_skipped,
            y_mode: YMode::Inter(reference, mode),
            uv_mode: WholeMode::Dc,
            vector,
            side: 0,
        })?;
        Ok(())
    }

    /// Appends the record of a split macroblock.
    #[inline]
    pub(crate) fn push_split(
        &mut self,
        start: Start,
        reference: Reference,
        vectors: [Vector; 16],
    ) -> Result<(), NoMemory>
        ensures { OnOk result (self.new ≡ self.old ++ record { segment = start.segment; is_skipped = start.is_skipped; y_mode = Inter reference Split; sub_modes = no_sub_modes; uv_mode = Dc; vectors = vectors } ∷ []) }
    {
        let side = self.lists.vectors.len();
        self.lists.vectors.push(vectors)?;
        self.stored.push(Stored {
            segment: start.segment,
            is_skipped: start.is_skipped,
            y_mode: YMode::Inter(reference, VectorMode::Split),
            uv_mode: WholeMode::Dc,
            vector: vectors[15],
            side,
        })?;
        Ok(())
    }

    /// The segment of each record, in raster order.
    pub(crate) fn segments(&self, alloc: Global) -> Result<Vec<u8>, NoMemory>
        ensures { IfOk result (λ segments. segments.items ≡ map (λ macroblock. macroblock.segment) self.now) }
    {
        segments_in(alloc, &self.stored)
    }
}
