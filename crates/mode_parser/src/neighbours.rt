//! The vectors of a macroblock's neighbours (RFC 6386, section 16.3).

ghost use Rattle.std.specs.Prelude.{◌≡◌, ◌+◌, ◌*◌, ◌<◌, ◌≤◌, replicate};
ghost use Rattle.mode_parser.specs.RecordList.{moved_mode};
ghost use Rattle.mode_parser.specs.Vectors.{is_biased, with_sign_bias, zero_vector};
ghost use Rattle.mode_parser.specs.NearVectors.{with_vector, with_neighbour, listing_of, listed_at, first_in, splits};
ghost use Rattle.mode_parser.specs.Neighbours.{listing_in, weight_in, ThirdWeighs, AreListed};

use crate::record_list::Moved;
use crate::records::{VectorMode, YMode};
use crate::vectors::Vector;
use frame_header::{Reference, SignBiases};

/// A vector that neighbours have, with their weights together.
#[derive(Clone, Copy)]
pub(crate) struct Weighted {
    pub(crate) vector: Vector,
    pub(crate) weight: u32,
}

/// The vectors of the neighbours, `near_mvs`: the zero vector, then the others in the order in
/// which they were found, each with its weight, then zeros.
#[derive(Clone, Copy)]
pub(crate) struct Neighbours {
    pub(crate) vectors: [Vector; 4],
    pub(crate) weights: [u32; 4],
    /// The index of the vector that was found last, or 0.
    pub(crate) newest: usize,
    /// The weight of split macroblocks.
    pub(crate) split: u32,
}

/// The sign bias of a reference (`mv_bias`): whether vectors to it are stored with the other sign
/// (RFC 6386, section 9.7).
#[inline(always)]
fn is_biased(biases: SignBiases, reference: Reference) -> bool
    ensures { result ≡ is_biased biases reference }
{
    match reference {
        Reference::Last => false,
        Reference::Golden => biases.golden,
        Reference::Altref => biases.altref,
    }
}

/// A vector to `other` with the sign bias applied for `reference`.
#[inline(always)]
fn with_sign_bias(
    biases: SignBiases,
    reference: Reference,
    other: Reference,
    vector: Vector,
) -> Vector
    ensures { result ≡ with_sign_bias biases reference other vector }
{
    if other == reference || is_biased(biases, other) == is_biased(biases, reference) {
        vector
    } else {
        vector.opposite()
    }
}

impl Neighbours {
    /// The vectors of no neighbours.
    #[inline(always)]
    fn none() -> Neighbours
        ensures value { result ≡ record { vectors = replicate 4 zero_vector; weights = replicate 4 0; newest = 0; split = 0 } }
    {
        Neighbours {
            vectors: [Vector::ZERO; 4],
            weights: [0; 4],
            newest: 0,
            split: 0,
        }
    }

    /// Counts a vector.
    #[inline(always)]
    fn add_vector(&mut self, vector: Vector, weight: u32)
        requires room { self.old.newest < 3 }
        requires light { weight_in (listing_in self.old) + weight ≤ 255 }
        requires listed { AreListed self.old.vectors self.old.weights self.old.newest }
        ensures value { listing_in self.new ≡ with_vector (listing_in self.old) vector weight }
        ensures listed { AreListed self.new.vectors self.new.weights self.new.newest }
        ensures newest { self.new.newest ≤ self.old.newest + 1 }
        ensures split { self.new.split ≡ self.old.split }
    {
        if vector.is_same(Vector::ZERO) {
            self.weights[0] += weight;
        } else if vector.is_same(self.vectors[self.newest]) {
            self.weights[self.newest] += weight;
        } else {
            self.newest += 1;
            self.vectors[self.newest] = vector;
            self.weights[self.newest] = weight;
        }
    }

    /// Counts a macroblock, which weighs `weight`. One outside the frame or without a reference is
    /// passed over.
    #[inline(always)]
    fn add(&mut self, macroblock: Moved, weight: u32, reference: Reference, biases: SignBiases)
        requires room { self.old.newest < 3 }
        requires light { weight_in (listing_in self.old) + weight ≤ 255 }
        requires few { self.old.split + weight ≤ 255 }
        requires listed { AreListed self.old.vectors self.old.weights self.old.newest }
        ensures value { listing_in self.new ≡ with_neighbour biases reference (listing_in self.old) (moved_mode macroblock) weight }
        ensures listed { AreListed self.new.vectors self.new.weights self.new.newest }
        ensures newest { self.new.newest ≤ self.old.newest + 1 }
        ensures split { self.new.split ≡ self.old.split + weight * splits (moved_mode macroblock) }
        ensures few { self.new.split ≤ self.old.split + weight }
    {
        if !macroblock.is_inside {
            return;
        }
        match macroblock.y_mode {
            YMode::Whole(_) | YMode::B => (),
            YMode::Inter(other, mode) => {
                if mode == VectorMode::Split {
                    self.split += weight;
                }
                let vector = with_sign_bias(biases, reference, other, macroblock.vector);
                self.add_vector(vector, weight);
            }
        }
    }

    /// The first vector of `near_mvs`, which weighs 1 more if it is the third too.
    #[inline(always)]
    pub(crate) fn first(&self) -> Weighted
        requires most { self.now.newest ≤ 3 }
        requires light { weight_in (listing_in self.now) ≤ 5 }
        requires third { ThirdWeighs 1 (listing_in self.now).listed }
        requires listed { AreListed self.now.vectors self.now.weights self.now.newest }
        ensures value { result ≡ first_in (listing_in self.now).listed }
        ensures light { result.weight ≤ 5 }
    {
        let is_again = self.newest == 3 && self.vectors[3].is_same(self.vectors[1]);
        Weighted {
            vector: self.vectors[1],
            weight: self.weights[1] + u32::from(is_again),
        }
    }

    /// The second vector of `near_mvs`.
    #[inline(always)]
    pub(crate) fn second(&self) -> Weighted
        requires most { self.now.newest ≤ 3 }
        requires light { weight_in (listing_in self.now) ≤ 5 }
        requires listed { AreListed self.now.vectors self.now.weights self.now.newest }
        ensures value { result ≡ listed_at (listing_in self.now).listed 1 }
        ensures light { result.weight ≤ 5 }
    {
        Weighted {
            vector: self.vectors[2],
            weight: self.weights[2],
        }
    }
}

/// The vectors of the macroblocks above, to the left, and above and to the left.
#[inline(always)]
#[tactic(auto, unfolding(crate::specs::NearVectors::listing_of))]
pub(crate) fn neighbours_of(
    above: Moved,
    left: Moved,
    above_left: Moved,
    reference: Reference,
    biases: SignBiases,
) -> Neighbours
    ensures value { listing_in result ≡ listing_of (moved_mode above) (moved_mode left) (moved_mode above_left) reference biases }
    ensures weight { weight_in (listing_in result) ≤ 5 }
    ensures third { ThirdWeighs 1 (listing_in result).listed }
    ensures listed { AreListed result.vectors result.weights result.newest }
    ensures most { result.newest ≤ 3 }
    ensures split { result.split ≡ 2 * (splits (moved_mode above) + splits (moved_mode left)) + splits (moved_mode above_left) }
    ensures few { result.split ≤ 5 }
{
    let mut found = Neighbours::none();
    found.add(above, 2, reference, biases);
    found.add(left, 2, reference, biases);
    found.add(above_left, 1, reference, biases);
    found
}
