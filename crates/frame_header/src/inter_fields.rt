//! The fields after the probability of skipping, which only inter frames have (RFC 6386, sections
//! 9.10, 16.2 and 17.2).

ghost use Rattle.std.specs.Prelude.{◌≡◌};
ghost use Rattle.frame_header.specs.Updates.{first_updated};
ghost use Rattle.frame_header.specs.InterFields.{reference_probabilities, y_modes, uv_modes, vector_probability, vectors, inter_fields};

use crate::context::Probabilities;
use bool_coder::Decoder;
use vp8_tables::VECTOR_UPDATE_PROBABILITIES;

/// The probabilities of a macroblock's reference (RFC 6386, sections 9.10 and 16.1), for one frame;
/// each 0 on a key frame.
#[derive(Clone, Copy, Debug, PartialEq, Eq)]
pub struct ReferenceProbabilities {
    /// The probability of a 0, for intra prediction; 1 is inter prediction (prob_intra).
    pub intra: u8,
    /// The probability of a 0, for the last frame; 1 is golden or altref (prob_last).
    pub last: u8,
    /// The probability of a 0, for the golden frame; 1 is altref (prob_gf).
    pub golden: u8,
}

#[tactic(auto, unfolding(crate::specs::InterFields::reference_probabilities))]
fn read_reference_probabilities(reader: &mut Decoder) -> ReferenceProbabilities
    ensures { reference_probabilities reader.old ≡ (result, reader.new) }
{
    let intra = reader.literal(8) as u8;
    let last = reader.literal(8) as u8;
    let golden = reader.literal(8) as u8;
    ReferenceProbabilities {
        intra,
        last,
        golden,
    }
}

#[tactic(auto, unfolding(crate::specs::InterFields::y_modes))]
fn read_y_modes(reader: &mut Decoder, before: [u8; 4]) -> [u8; 4]
    ensures { y_modes before reader.old ≡ (result, reader.new) }
{
    if !reader.flag() {
        return before;
    }
    let first = reader.literal(8) as u8;
    let second = reader.literal(8) as u8;
    let third = reader.literal(8) as u8;
    let fourth = reader.literal(8) as u8;
    [first, second, third, fourth]
}

#[tactic(auto, unfolding(crate::specs::InterFields::uv_modes))]
fn read_uv_modes(reader: &mut Decoder, before: [u8; 3]) -> [u8; 3]
    ensures { uv_modes before reader.old ≡ (result, reader.new) }
{
    if !reader.flag() {
        return before;
    }
    let first = reader.literal(8) as u8;
    let second = reader.literal(8) as u8;
    let third = reader.literal(8) as u8;
    [first, second, third]
}

/// A probability of a vector after its update, whose probability is `update`.
#[inline]
#[tactic(auto, unfolding(crate::specs::InterFields::vector_probability))]
fn read_vector_probability(reader: &mut Decoder, update: u8, before: u8) -> u8
    ensures { vector_probability update before reader.old ≡ (result, reader.new) }
{
    if !reader.bit(update) {
        return before;
    }
    let half = reader.literal(7) as u8;
    if half == 0 { 1 } else { 2 * half }
}

/// The probabilities of one component of a vector after their updates.
fn read_component(reader: &mut Decoder, updates: &[u8; 19], probabilities: [u8; 19]) -> [u8; 19]
    ensures { first_updated vector_probability 19 updates.now probabilities reader.old ≡ (result, reader.new) }
{
    let mut local = reader.copied();
    let mut updated = probabilities;
    for place in 0..19 {
        updated[place] = read_vector_probability(&mut local, updates[place], updated[place]);
    }
    *reader = local;
    updated
}

#[tactic(auto, unfolding(crate::specs::InterFields::vectors))]
fn read_vectors(reader: &mut Decoder, before: [[u8; 19]; 2]) -> [[u8; 19]; 2]
    ensures { vectors before reader.old ≡ (result, reader.new) }
{
    let row = read_component(reader, &VECTOR_UPDATE_PROBABILITIES[0], before[0]);
    let column = read_component(reader, &VECTOR_UPDATE_PROBABILITIES[1], before[1]);
    [row, column]
}

/// The probabilities of the references, and the probabilities of modes and vectors with their
/// updates.
#[tactic(auto, unfolding(crate::specs::InterFields::inter_fields))]
pub(crate) fn read_inter_fields(
    reader: &mut Decoder,
    probabilities: &mut Probabilities,
) -> ReferenceProbabilities
    ensures { inter_fields probabilities.old reader.old ≡ ((result, probabilities.new), reader.new) }
{
    let references = read_reference_probabilities(reader);
    probabilities.y_modes = read_y_modes(reader, probabilities.y_modes);
    probabilities.uv_modes = read_uv_modes(reader, probabilities.uv_modes);
    probabilities.vectors = read_vectors(reader, probabilities.vectors);
    references
}
