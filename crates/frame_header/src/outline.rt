// The fields that a list of packets shows, without the probabilities after them.
ghost use Rattle.std.specs.Prelude.{◌≡◌};
ghost use Rattle.frame_header.specs.Outlines.{key_scales_of, outline_of};

use crate::cause::Cause;
use crate::fields::{Colors, read_fields};
use crate::header::first_end;
use crate::padding::zero_context;
use crate::places::token_ranges;
use crate::references::{ReferenceUpdates, read_refreshes};
use crate::start::start_of;
use crate::tags::key_size;
use crate::trailing_fields::read_quantizers;
use bool_coder::Decoder;

/// The fields of a header that come before its probabilities (RFC 6386, sections 9.3 to 9.7).
#[derive(Clone, Copy, Debug, PartialEq, Eq)]
pub struct Outline {
    /// The color space and clamping bits of a key frame; both 0 of any other.
    pub colors: Colors,
    /// The number of token partitions: 1, 2, 4 or 8.
    pub partitions: usize,
    /// The quantizer index, 0 to 127.
    pub quantizer: u8,
    /// The loop filter level, 0 to 63.
    pub level: u8,
    /// How the frame updates the references.
    pub references: ReferenceUpdates,
}

/// The outline of the header of a packet, or the first cause against it. `follows` says whether a key
/// frame came before. It is the same for all tables and contexts (`laws::outlines_are_headers`), and the
/// updates of the probabilities, more than a thousand bits, are not read.
#[tactic(auto, unfolding(crate::specs::Outlines::outline_of))]
pub fn read_outline(follows: bool, packet: &[u8]) -> Result<Outline, Cause>
    ensures { result ≡ outline_of follows packet.now }
{
    let mut context = zero_context();
    let before = if follows { Some(&context) } else { None };
    let start = start_of(before, packet)?;
    let end = first_end(&start, packet)?;
    let is_key = start.tag.key;
    let mut reader = Decoder::new(&packet[start.place..end]);
    let fields = read_fields(&mut reader, is_key, &mut context);
    let partitions = token_ranges(packet, end, fields.partition_count)?;
    let quantizers = read_quantizers(&mut reader);
    let kept = read_refreshes(&mut reader, is_key, &mut context.sign_biases);
    Ok(Outline {
        colors: fields.colors,
        partitions: partitions.len(),
        quantizer: quantizers.y_ac_index,
        level: fields.filter.level,
        references: kept.references,
    })
}

/// The horizontal and vertical scale of a packet that has a key size, 0 to 3 each: how much larger
/// the frame is to be shown (RFC 6386, section 9.1). Decoding does not use them. `None` for any other.
pub fn key_scales(packet: &[u8]) -> Option<(u8, u8)>
    ensures { result ≡ key_scales_of packet.now }
{
    if packet.len() < 10 || key_size(packet).is_none() {
        return None;
    }
    Some((packet[7] / 64, packet[9] / 64))
}
