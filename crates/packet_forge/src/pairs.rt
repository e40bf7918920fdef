// Bits written to a first partition, each with its probability.
ghost use Rattle.std.specs.Prelude.{◌≡◌, ◌<◌, OnOk};
ghost use Rattle.bool_coder.specs.CodeText.{all_written};
ghost use Rattle.packet_forge.specs.Pairs.{blank_header, blank_macroblock, byte_pairs, hold_header, hold_macroblock, macroblock_pairs, reference_pairs, skip_pairs, vector_updates, zero_vector_probability, zeros_at};

use bool_coder::{Encoder, NoMemory};
use vp8_tables::VECTOR_UPDATE_PROBABILITIES;

/// Writes bits, each with its probability.
fn write_pairs(encoder: &mut Encoder, pairs: &[(bool, u8)]) -> Result<(), NoMemory>
    ensures { OnOk result (encoder.new ≡ all_written pairs.now encoder.old) }
{
    for (bit, probability) in pairs {
        encoder.bit(*bit, *probability)?;
    }
    Ok(())
}

/// Writes a zero at each probability.
fn write_zeros(encoder: &mut Encoder, probabilities: &[u8]) -> Result<(), NoMemory>
    ensures { OnOk result (encoder.new ≡ all_written (zeros_at probabilities.now) encoder.old) }
{
    for probability in probabilities {
        encoder.bit(false, *probability)?;
    }
    Ok(())
}

/// Writes a number of 8 bits at even odds, most significant first.
fn write_byte(encoder: &mut Encoder, number: u8) -> Result<(), NoMemory>
    ensures { OnOk result (encoder.new ≡ all_written (byte_pairs number) encoder.old) }
{
    encoder.bit(number / 128 % 2 == 1, 128)?;
    encoder.bit(number / 64 % 2 == 1, 128)?;
    encoder.bit(number / 32 % 2 == 1, 128)?;
    encoder.bit(number / 16 % 2 == 1, 128)?;
    encoder.bit(number / 8 % 2 == 1, 128)?;
    encoder.bit(number / 4 % 2 == 1, 128)?;
    encoder.bit(number / 2 % 2 == 1, 128)?;
    encoder.bit(number % 2 == 1, 128)
}

/// Writes mb_no_coeff_skip and prob_skip_false: macroblocks may be skipped.
fn write_skip(encoder: &mut Encoder) -> Result<(), NoMemory>
    ensures { OnOk result (encoder.new ≡ all_written skip_pairs encoder.old) }
{
    encoder.bit(true, 128)?;
    write_byte(encoder, 1)
}

/// Writes the header of a blank frame, with the update probabilities of coefficients.
#[tactic(auto, unfolding(crate::specs::Pairs::blank_header))]
pub(crate) fn write_blank_header(encoder: &mut Encoder, updates: &[u8]) -> Result<(), NoMemory>
    ensures { OnOk result (encoder.new ≡ all_written (blank_header updates.now) encoder.old) }
{
    write_zeros(encoder, &[128; 29])?;
    write_zeros(encoder, updates)?;
    write_skip(encoder)
}

/// Writes a macroblock of a blank frame.
const BLANK_MACROBLOCK: [(bool, u8); 5] = [
    (true, 1),
    (true, 145),
    (false, 156),
    (false, 163),
    (false, 142),
];

/// Writes this many macroblocks of a blank frame.
pub(crate) fn write_blank_macroblocks(encoder: &mut Encoder, count: usize) -> Result<(), NoMemory>
    ensures { OnOk result (encoder.new ≡ all_written
        (macroblock_pairs (λ place. blank_macroblock) count) encoder.old) }
{
    for _place in 0..count {
        write_pairs(encoder, &BLANK_MACROBLOCK)?;
    }
    Ok(())
}

/// Writes prob_intra, prob_last and prob_gf, and that the probabilities of the modes are not updated.
fn write_references(encoder: &mut Encoder) -> Result<(), NoMemory>
    ensures { OnOk result (encoder.new ≡ all_written reference_pairs encoder.old) }
{
    write_byte(encoder, 1)?;
    write_byte(encoder, 255)?;
    write_byte(encoder, 128)?;
    write_zeros(encoder, &[128; 2])
}

/// Writes that the probabilities of vectors are not updated.
fn write_vector_updates(encoder: &mut Encoder) -> Result<(), NoMemory>
    ensures { OnOk result (encoder.new ≡ all_written (zeros_at vector_updates) encoder.old) }
{
    let [row, column] = &VECTOR_UPDATE_PROBABILITIES;
    write_zeros(encoder, row)?;
    write_zeros(encoder, column)
}

/// Writes the header of a hold frame, with the update probabilities of coefficients.
#[tactic(auto, unfolding(crate::specs::Pairs::hold_header))]
pub(crate) fn write_hold_header(encoder: &mut Encoder, updates: &[u8]) -> Result<(), NoMemory>
    ensures { OnOk result (encoder.new ≡ all_written (hold_header updates.now) encoder.old) }
{
    write_zeros(encoder, &[128; 36])?;
    write_zeros(encoder, updates)?;
    write_skip(encoder)?;
    write_references(encoder)?;
    write_vector_updates(encoder)
}

/// The probability of a zero vector, given the macroblocks above and to the left.
fn zero_vector_odds(has_above: bool, has_left: bool) -> u8
    ensures { result ≡ zero_vector_probability has_above has_left }
{
    match (has_above, has_left) {
        (true, true) => 234,
        (true, false) | (false, true) => 135,
        (false, false) => 7,
    }
}

/// Writes a macroblock of a hold frame with this many columns.
fn write_hold_macroblock(
    encoder: &mut Encoder,
    columns: usize,
    place: usize,
) -> Result<(), NoMemory>
    requires { 0 < columns }
    ensures { OnOk result (encoder.new ≡ all_written (hold_macroblock columns place) encoder.old) }
{
    let odds = zero_vector_odds(place / columns > 0, place % columns > 0);
    write_pairs(encoder, &[(true, 1), (true, 1), (false, 255)])?;
    encoder.bit(false, odds)
}

/// Writes this many macroblocks of a hold frame with this many columns.
pub(crate) fn write_hold_macroblocks(
    encoder: &mut Encoder,
    columns: usize,
    count: usize,
) -> Result<(), NoMemory>
    requires { 0 < columns }
    ensures { OnOk result (encoder.new ≡ all_written
        (macroblock_pairs (hold_macroblock columns) count) encoder.old) }
{
    for place in 0..count {
        write_hold_macroblock(encoder, columns, place)?;
    }
    Ok(())
}
