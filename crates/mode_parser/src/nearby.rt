//! The vectors of a macroblock's neighbours, from which its own are predicted: `near_mvs` (RFC
//! 6386, section 16.3).

ghost use Rattle.std.specs.Prelude.{◌≡◌, ◌<◌, ◌≤◌, All};
ghost use Rattle.std.specs.Option.{option_copied};
ghost use Rattle.vp8_tables.specs.Bounds.{IsWithin};
ghost use Rattle.mode_parser.specs.NearVectors.{clamped_component, clamped, best_in, near_in, near_of};
ghost use Rattle.mode_parser.specs.RecordList.{HasLastVector, as_moved, moved_mode, neighbour_of};
ghost use Rattle.mode_parser.specs.Candidates.{near_by, AreLight};

use crate::neighbours::{Weighted, neighbours_of};
use crate::record_list::{Moved, Neighbour};
use crate::records::{MbMode, YMode};
use crate::vectors::Vector;
use frame_header::{Reference, SignBiases};

/// The position of a macroblock in a frame of so many columns and rows of macroblocks.
#[derive(Clone, Copy, Debug, PartialEq, Eq)]
pub struct MbPosition {
    /// Its column, from 0.
    pub column: usize,
    /// Its row, from 0.
    pub row: usize,
    /// How many columns the frame has.
    pub columns: usize,
    /// How many rows the frame has.
    pub rows: usize,
}

/// The vectors that the macroblocks above, to the left, and above and to the left predict for a
/// macroblock: `near_mvs` (RFC 6386, section 16.3). Each vector is clamped to point at most one
/// macroblock out of the frame.
#[derive(Clone, Copy, Debug, PartialEq, Eq)]
pub struct Near {
    /// The weights, each 0 to 5, by which its mode is read: of zero vectors, of `nearest`, of
    /// `near`, and of split macroblocks.
    pub counts: [u8; 4],
    /// The vector to which a new one is added.
    pub best: Vector,
    /// The vector of most weight, or zero.
    pub nearest: Vector,
    /// The vector of second most weight, or zero.
    pub near: Vector,
}

/// A component of a vector, clamped to move a macroblock along a row or column of `count` at most
/// one macroblock out of the frame.
#[inline(always)]
fn clamped_component(place: usize, count: usize, component: i32) -> i32
    requires inside { place < count }
    requires most { count ≤ 1024 }
    ensures value { result ≡ clamped_component place count component }
    ensures within { IsWithin 65536 result }
{
    let least = -64 * (place as i32 + 1);
    let most = 64 * (count - place) as i32;
    component.clamp(least, most)
}

/// The vector clamped to move a macroblock at `place` at most one macroblock out of the frame.
#[inline(always)]
fn clamped(place: MbPosition, vector: Vector) -> Vector
    requires across { (place.column < place.columns) × (place.columns ≤ 1024) }
    requires down { (place.row < place.rows) × (place.rows ≤ 1024) }
    ensures value { result ≡ clamped place vector }
    ensures x { IsWithin 65536 result.x }
    ensures y { IsWithin 65536 result.y }
{
    let x = clamped_component(place.column, place.columns, vector.x());
    let y = clamped_component(place.row, place.rows, vector.y());
    Vector::new(x, y)
}

/// The nearest vector, or zero if zero vectors weigh more.
#[inline(always)]
fn best_in(zeros: u32, nearest: &Weighted) -> Vector
    ensures { result ≡ best_in zeros nearest.now }
{
    if zeros <= nearest.weight {
        nearest.vector
    } else {
        Vector::ZERO
    }
}

/// The vectors from which a macroblock has its own, with their weights, not clamped. Most
/// macroblocks use one of them at most, so each is clamped only when it is used.
#[derive(Clone, Copy)]
pub(crate) struct Candidates {
    pub(crate) zeros: u32,
    pub(crate) nearest: Weighted,
    pub(crate) near: Weighted,
    pub(crate) split: u32,
}

impl Candidates {
    /// The best vector for a macroblock at `place`.
    #[inline(always)]
    pub(crate) fn best(&self, place: MbPosition) -> Vector
        requires across { (place.column < place.columns) × (place.columns ≤ 1024) }
        requires down { (place.row < place.rows) × (place.rows ≤ 1024) }
        ensures value { result ≡ (near_by place self.now).best }
        ensures x { IsWithin 65536 result.x }
        ensures y { IsWithin 65536 result.y }
    {
        clamped(place, best_in(self.zeros, &self.nearest))
    }

    /// The nearest vector for a macroblock at `place`.
    #[inline(always)]
    pub(crate) fn nearest(&self, place: MbPosition) -> Vector
        requires across { (place.column < place.columns) × (place.columns ≤ 1024) }
        requires down { (place.row < place.rows) × (place.rows ≤ 1024) }
        ensures { result ≡ (near_by place self.now).nearest }
    {
        clamped(place, self.nearest.vector)
    }

    /// The near vector for a macroblock at `place`.
    #[inline(always)]
    pub(crate) fn near(&self, place: MbPosition) -> Vector
        requires across { (place.column < place.columns) × (place.columns ≤ 1024) }
        requires down { (place.row < place.rows) × (place.rows ≤ 1024) }
        ensures { result ≡ (near_by place self.now).near }
    {
        clamped(place, self.near.vector)
    }
}

/// The candidates of a macroblock whose neighbours are `above`, `left` and `above_left` and which is
/// predicted from `reference` (RFC 6386, section 16.3).
#[inline(always)]
pub(crate) fn candidates_of(
    above: Moved,
    left: Moved,
    above_left: Moved,
    reference: Reference,
    biases: SignBiases,
) -> Candidates
    ensures value { (place : MbPosition) → near_by place result ≡ near_of (moved_mode above) (moved_mode left) (moved_mode above_left) reference biases place }
    ensures light { AreLight result }
{
    let neighbours = neighbours_of(above, left, above_left, reference, biases);
    let first = neighbours.first();
    let second = neighbours.second();
    let zeros = neighbours.weights[0];
    let split = neighbours.split;
    if first.weight < second.weight {
        Candidates {
            zeros,
            nearest: second,
            near: first,
            split,
        }
    } else {
        Candidates {
            zeros,
            nearest: first,
            near: second,
            split,
        }
    }
}

/// The same for the neighbours of a macroblock whose own record is not read yet.
#[inline(always)]
pub(crate) fn candidates_beside(
    above: &Neighbour,
    left: &Neighbour,
    above_left: &Neighbour,
    reference: Reference,
    biases: SignBiases,
) -> Candidates
    requires above { HasLastVector above.now }
    requires left { HasLastVector left.now }
    requires above_left { HasLastVector above_left.now }
    ensures value { (place : MbPosition) → near_by place result ≡ near_of (neighbour_of above.now) (neighbour_of left.now) (neighbour_of above_left.now) reference biases place }
    ensures light { AreLight result }
{
    candidates_of(
        above.moved(),
        left.moved(),
        above_left.moved(),
        reference,
        biases,
    )
}

/// The part of a macroblock, or of the outside of the frame, on which near vectors depend.
fn moved_of(mode: Option<&MbMode>) -> Moved
    ensures { moved_mode result ≡ as_moved (option_copied mode.entry) }
{
    match mode {
        Some(mode) => Moved {
            is_inside: true,
            y_mode: mode.y_mode,
            vector: mode.vectors[15],
        },
        None => Moved {
            is_inside: false,
            y_mode: YMode::B,
            vector: Vector::ZERO,
        },
    }
}

/// The near vectors of a macroblock at `place`, whose neighbours are `above`, `left` and
/// `above_left` and which is predicted from `reference` (RFC 6386, section 16.3). A neighbour
/// outside the frame is `None`.
pub fn near_vectors(
    above: Option<&MbMode>,
    left: Option<&MbMode>,
    above_left: Option<&MbMode>,
    reference: Reference,
    biases: SignBiases,
    place: MbPosition,
) -> Near
    requires across { (place.column < place.columns) × (place.columns ≤ 1024) }
    requires down { (place.row < place.rows) × (place.rows ≤ 1024) }
    ensures value { result ≡ near_of (option_copied above.entry) (option_copied left.entry) (option_copied above_left.entry) reference biases place }
    ensures few { All (λ count. count ≤ 5) result.counts }
    ensures across { IsWithin 65536 result.best.x }
    ensures down { IsWithin 65536 result.best.y }
{
    let (above, left) = (moved_of(above), moved_of(left));
    let above_left = moved_of(above_left);
    let found = candidates_of(above, left, above_left, reference, biases);
    Near {
        counts: [
            found.zeros as u8,
            found.nearest.weight as u8,
            found.near.weight as u8,
            found.split as u8,
        ],
        best: found.best(place),
        nearest: found.nearest(place),
        near: found.near(place),
    }
}
