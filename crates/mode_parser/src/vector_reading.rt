//! How a motion vector is read (RFC 6386, section 17.1).

ghost use Rattle.std.specs.Prelude.{◌≡◌, ◌<◌, ◌≤◌, ◌+◌, ◌*◌, ◌^◌};
ghost use Rattle.std.specs.Int.{from_bool};
ghost use Rattle.bool_coder.specs.Reader.{read};
ghost use Rattle.vp8_tables.specs.Bounds.{IsWithin};
ghost use Rattle.mode_parser.specs.VectorReading.{long_size, short_size, vector_size, vector_component, new_vector};

use crate::vectors::Vector;
use bool_coder::Decoder;

/// The size of a short component: the leaf of its tree.
#[inline]
fn read_short_size(reader: &mut Decoder, probabilities: &[u8; 19]) -> u16
    ensures value { short_size probabilities.now reader.old ≡ (result, reader.new) }
    ensures small { result ≤ 7 }
{
    let nodes = &probabilities[2..9];
    if !reader.bit(nodes[0]) {
        if !reader.bit(nodes[1]) {
            return reader.bit(nodes[2]) as u16;
        }
        return 2 + reader.bit(nodes[3]) as u16;
    }
    if !reader.bit(nodes[4]) {
        return 4 + reader.bit(nodes[5]) as u16;
    }
    6 + reader.bit(nodes[6]) as u16
}

/// The size of a long component: bits 0 to 2, bits 9 to 4, and bit 3, which is 1, and not read, if
/// no bit above it is set.
#[inline]
#[tactic(auto, unfolding(crate::specs::VectorReading::long_size, crate::specs::VectorReading::bits_at))]
fn read_long_size(reader: &mut Decoder, probabilities: &[u8; 19]) -> u16
    ensures value { long_size probabilities.now reader.old ≡ (result, reader.new) }
    ensures small { result ≤ 1023 }
{
    let ones = reader.bit(probabilities[9]) as u16;
    let twos = reader.bit(probabilities[10]) as u16;
    let fours = reader.bit(probabilities[11]) as u16;
    let bit_9 = reader.bit(probabilities[18]) as u16;
    let bit_8 = reader.bit(probabilities[17]) as u16;
    let bit_7 = reader.bit(probabilities[16]) as u16;
    let bit_6 = reader.bit(probabilities[15]) as u16;
    let bit_5 = reader.bit(probabilities[14]) as u16;
    let bit_4 = reader.bit(probabilities[13]) as u16;
    let high = 512 * bit_9 + 256 * bit_8 + 128 * bit_7 + 64 * bit_6 + 32 * bit_5 + 16 * bit_4;
    let size = ones + 2 * twos + 4 * fours + high;
    if size < 16 {
        size + 8
    } else {
        size + 8 * reader.bit(probabilities[12]) as u16
    }
}

#[inline]
#[tactic(auto, unfolding(crate::specs::VectorReading::vector_size))]
fn read_size(reader: &mut Decoder, probabilities: &[u8; 19]) -> u16
    ensures value { vector_size probabilities.now reader.old ≡ (result, reader.new) }
    ensures small { result ≤ 1023 }
{
    if reader.bit(probabilities[0]) {
        read_long_size(reader, probabilities)
    } else {
        read_short_size(reader, probabilities)
    }
}

/// A component of a vector: its size, and if that is not 0 its sign, 1 for minus.
#[inline]
#[tactic(auto, unfolding(crate::specs::VectorReading::vector_component))]
fn read_component(reader: &mut Decoder, probabilities: &[u8; 19]) -> i32
    ensures value { vector_component probabilities.now reader.old ≡ (result, reader.new) }
    ensures within { IsWithin 1023 result }
{
    let size = read_size(reader, probabilities) as i32;
    if size == 0 {
        return 0;
    }
    if reader.bit(probabilities[1]) {
        -size
    } else {
        size
    }
}

/// A vector by the probabilities of its row and of its column: its row, then its column.
#[inline]
#[tactic(auto, unfolding(crate::specs::VectorReading::new_vector))]
pub(crate) fn read_vector(reader: &mut Decoder, probabilities: &[[u8; 19]; 2]) -> Vector
    ensures value { new_vector probabilities.now reader.old ≡ (result, reader.new) }
    ensures across { IsWithin 1023 result.x }
    ensures down { IsWithin 1023 result.y }
{
    let mut local = reader.copied();
    let down = read_component(&mut local, &probabilities[0]);
    let right = read_component(&mut local, &probabilities[1]);
    *reader = local;
    Vector::new(right, down)
}
