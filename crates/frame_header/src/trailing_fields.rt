//! The fields of the first partition after the number of token partitions (RFC 6386, sections 9.6
//! to 9.11 and 19.2).

ghost use Rattle.std.specs.Prelude.{◌≡◌};
ghost use Rattle.frame_header.specs.Updates.{first_updated};
ghost use Rattle.frame_header.specs.InterFields.{no_reference_probabilities};
ghost use Rattle.frame_header.specs.TrailingFields.{quantizers, updated, skip_probability, after_skip, trailing_fields};

use crate::context::{Context, Probabilities};
use crate::fields::read_signed;
use crate::inter_fields::{ReferenceProbabilities, read_inter_fields};
use crate::references::{ReferenceUpdates, read_refreshes};
use bool_coder::Decoder;

/// The quantizer index and the change added to it for each kind of coefficient (RFC 6386, section
/// 9.6). Each change is -15 to 15.
#[derive(Clone, Copy, Debug, PartialEq, Eq)]
pub struct Quantizers {
    /// The index itself, 0 to 127, which is the index of luma AC.
    pub y_ac_index: u8,
    /// The change for luma DC.
    pub y_dc_delta: i8,
    /// The change for Y2 DC.
    pub y2_dc_delta: i8,
    /// The change for Y2 AC.
    pub y2_ac_delta: i8,
    /// The change for chroma DC.
    pub uv_dc_delta: i8,
    /// The change for chroma AC.
    pub uv_ac_delta: i8,
}

/// The fields after the number of token partitions.
#[derive(Clone, Copy)]
pub(crate) struct TrailingFields {
    pub(crate) quantizers: Quantizers,
    pub(crate) references: ReferenceUpdates,
    pub(crate) refreshes_entropy: bool,
    pub(crate) skip_probability: Option<u8>,
    pub(crate) reference_probabilities: ReferenceProbabilities,
}

#[tactic(auto, unfolding(crate::specs::TrailingFields::quantizers))]
pub(crate) fn read_quantizers(reader: &mut Decoder) -> Quantizers
    ensures { quantizers reader.old ≡ (result, reader.new) }
{
    let y_ac_index = reader.literal(7) as u8;
    let y_dc_delta = read_signed(reader, 4);
    let y2_dc_delta = read_signed(reader, 4);
    let y2_ac_delta = read_signed(reader, 4);
    let uv_dc_delta = read_signed(reader, 4);
    let uv_ac_delta = read_signed(reader, 4);
    Quantizers {
        y_ac_index,
        y_dc_delta,
        y2_dc_delta,
        y2_ac_delta,
        uv_dc_delta,
        uv_ac_delta,
    }
}

/// A probability after its update, whose probability is `update`.
#[inline]
#[tactic(auto, unfolding(crate::specs::TrailingFields::updated))]
fn read_updated(reader: &mut Decoder, update: u8, before: u8) -> u8
    ensures { updated update before reader.old ≡ (result, reader.new) }
{
    if reader.bit(update) {
        reader.literal(8) as u8
    } else {
        before
    }
}

fn read_updates(reader: &mut Decoder, updates: &[u8; 1056], probabilities: &mut [u8; 1056])
    ensures { first_updated updated 1056 updates.now probabilities.old reader.old ≡ (probabilities.new, reader.new) }
{
    // A copy of its own keeps the reader in registers.
    let mut local = reader.copied();
    for place in 0..1056 {
        probabilities[place] = read_updated(&mut local, updates[place], probabilities[place]);
    }
    *reader = local;
}

#[tactic(auto, unfolding(crate::specs::TrailingFields::skip_probability))]
fn read_skip_probability(reader: &mut Decoder) -> Option<u8>
    ensures { skip_probability reader.old ≡ (result, reader.new) }
{
    if reader.flag() {
        Some(reader.literal(8) as u8)
    } else {
        None
    }
}

/// The probabilities of the references of a key frame, which has no references.
fn no_reference_probabilities() -> ReferenceProbabilities
    ensures { result ≡ no_reference_probabilities }
{
    ReferenceProbabilities {
        intra: 0,
        last: 0,
        golden: 0,
    }
}

/// The fields after the probability of skipping, which a key frame does not have.
fn read_after_skip(
    reader: &mut Decoder,
    is_key: bool,
    probabilities: &mut Probabilities,
) -> ReferenceProbabilities
    ensures { after_skip is_key probabilities.old reader.old ≡ ((result, probabilities.new), reader.new) }
{
    if is_key {
        no_reference_probabilities()
    } else {
        read_inter_fields(reader, probabilities)
    }
}

/// The fields after the number of token partitions, of a key frame or another, with their changes
/// of its context; `updates` has the probability of each update of a coefficient's probability.
#[tactic(auto, unfolding(crate::specs::TrailingFields::trailing_fields))]
pub(crate) fn read_trailing_fields(
    reader: &mut Decoder,
    is_key: bool,
    updates: &[u8; 1056],
    context: &mut Context,
) -> TrailingFields
    ensures { trailing_fields is_key updates.now context.old reader.old ≡ ((result, context.new), reader.new) }
{
    let quantizers = read_quantizers(reader);
    let kept = read_refreshes(reader, is_key, &mut context.sign_biases);
    read_updates(reader, updates, &mut context.probabilities.coefficients);
    let skip_probability = read_skip_probability(reader);
    let reference_probabilities = read_after_skip(reader, is_key, &mut context.probabilities);
    TrailingFields {
        quantizers,
        references: kept.references,
        refreshes_entropy: kept.refreshes_entropy,
        skip_probability,
        reference_probabilities,
    }
}
