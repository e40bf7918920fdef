//! The vectors of a split macroblock (RFC 6386, section 16.4).

ghost use Rattle.std.specs.Prelude.{◌≡◌, ◌<◌, ◌≤◌, take, IsTrue};
ghost use Rattle.mode_parser.specs.RecordList.{neighbour_of};
ghost use Rattle.vp8_tables.specs.Bounds.{IsWithin};
ghost use Rattle.mode_parser.specs.InterRecords.{vector_above, vector_left, part_row, part_vector, block_vector, first_vectors, split_starts, split_vectors, are_starts};

use crate::record_list::Neighbour;
use crate::vector_reading::read_vector;
use crate::vectors::Vector;
use bool_coder::Decoder;
use vp8_tables::{PART_VECTOR_PROBABILITIES, SPLIT_PROBABILITIES, SPLIT_STARTS};

/// The vector above block `n`, in its own macroblock or in the one above.
#[inline]
fn vector_above(above: &Neighbour, vectors: &[Vector; 16], n: usize) -> Vector
    requires { n < 16 }
    ensures { result ≡ vector_above (neighbour_of above.now) (take n vectors.now) n }
{
    if n < 4 {
        above.vector(n + 12)
    } else {
        vectors[n - 4]
    }
}

/// The vector to the left of block `n`, in its own macroblock or in the one to the left.
#[inline]
fn vector_left(left: &Neighbour, vectors: &[Vector; 16], n: usize) -> Vector
    requires { n < 16 }
    ensures { result ≡ vector_left (neighbour_of left.now) (take n vectors.now) n }
{
    if n % 4 == 0 {
        left.vector(n + 3)
    } else {
        vectors[n - 1]
    }
}

/// The row of probabilities of a part's vector between these.
#[inline]
fn part_row(left: Vector, above: Vector) -> usize
    ensures value { result ≡ part_row left above }
    ensures small { result < 5 }
{
    let is_above_zero = above.is_same(Vector::ZERO);
    if left.is_same(above) {
        return if is_above_zero { 4 } else { 3 };
    }
    if is_above_zero {
        return 2;
    }
    if left.is_same(Vector::ZERO) { 1 } else { 0 }
}

/// The vector of a part between these; a new one is added to `best`.
#[inline]
fn read_part_vector(
    reader: &mut Decoder,
    probabilities: &[[u8; 19]; 2],
    best: Vector,
    left: Vector,
    above: Vector,
) -> Vector
    requires across { IsWithin 65536 best.x }
    requires down { IsWithin 65536 best.y }
    ensures { part_vector probabilities.now best left above reader.old ≡ (result, reader.new) }
{
    let nodes = &PART_VECTOR_PROBABILITIES[part_row(left, above)];
    if !reader.bit(nodes[0]) {
        return left;
    }
    if !reader.bit(nodes[1]) {
        return above;
    }
    if !reader.bit(nodes[2]) {
        return Vector::ZERO;
    }
    best.plus(read_vector(reader, probabilities))
}

/// The vector of block `n`, whose part begins at block `start`, after the blocks before it.
#[inline]
fn read_block_vector(
    reader: &mut Decoder,
    start: usize,
    probabilities: &[[u8; 19]; 2],
    best: Vector,
    above: &Neighbour,
    left: &Neighbour,
    vectors: &[Vector; 16],
    n: usize,
) -> Vector
    requires inside { n < 16 }
    requires starts { start ≤ n }
    requires across { IsWithin 65536 best.x }
    requires down { IsWithin 65536 best.y }
    ensures { block_vector start probabilities.now best (neighbour_of above.now) (neighbour_of left.now) (take n vectors.now) n reader.old ≡ (result, reader.new) }
{
    if start < n {
        return vectors[start];
    }
    let neighbour = vector_left(left, vectors, n);
    let over = vector_above(above, vectors, n);
    read_part_vector(reader, probabilities, best, neighbour, over)
}

/// The vectors of all blocks of a macroblock whose parts begin at these blocks.
fn read_block_vectors(
    reader: &mut Decoder,
    starts: &[u8; 16],
    probabilities: &[[u8; 19]; 2],
    best: Vector,
    above: &Neighbour,
    left: &Neighbour,
) -> [Vector; 16]
    requires starts { IsTrue (are_starts 0 starts.now) }
    requires across { IsWithin 65536 best.x }
    requires down { IsWithin 65536 best.y }
    ensures { first_vectors 16 starts.now probabilities.now best (neighbour_of above.now) (neighbour_of left.now) reader.old ≡ (result, reader.new) }
{
    // A copy of its own keeps the reader in registers.
    let mut local = reader.copied();
    let mut vectors = [Vector::ZERO; 16];
    for n in 0..16usize {
        let start = starts[n] as usize;
        vectors[n] = read_block_vector(
            &mut local,
            start,
            probabilities,
            best,
            above,
            left,
            &vectors,
            n,
        );
    }
    *reader = local;
    vectors
}

/// The way in which a macroblock is split, as the block at which the part of each block begins: the
/// leaf of its tree.
#[inline]
fn read_split_starts(reader: &mut Decoder) -> &'static [u8; 16]
    ensures value { split_starts reader.old ≡ (result.now, reader.new) }
    ensures starts { IsTrue (are_starts 0 result.now) }
{
    if !reader.bit(SPLIT_PROBABILITIES[0]) {
        return &SPLIT_STARTS[3];
    }
    if !reader.bit(SPLIT_PROBABILITIES[1]) {
        return &SPLIT_STARTS[2];
    }
    if reader.bit(SPLIT_PROBABILITIES[2]) {
        &SPLIT_STARTS[1]
    } else {
        &SPLIT_STARTS[0]
    }
}

/// The vectors of a split macroblock below and to the right of these.
#[inline]
#[tactic(auto, unfolding(crate::specs::InterRecords::split_vectors))]
pub(crate) fn read_split_vectors(
    reader: &mut Decoder,
    probabilities: &[[u8; 19]; 2],
    best: Vector,
    above: &Neighbour,
    left: &Neighbour,
) -> [Vector; 16]
    requires across { IsWithin 65536 best.x }
    requires down { IsWithin 65536 best.y }
    ensures { split_vectors probabilities.now best (neighbour_of above.now) (neighbour_of left.now) reader.old ≡ (result, reader.new) }
{
    let starts = read_split_starts(reader);
    read_block_vectors(reader, starts, probabilities, best, above, left)
}
