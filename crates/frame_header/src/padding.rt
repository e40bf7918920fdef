// Packets that some players do not show, since their last token partition is empty.
ghost use Rattle.std.specs.Prelude.{◌≡◌};
ghost use Rattle.frame_header.specs.Padding.{ends_empty, is_last_empty, partitions_of, zero_context};

use crate::cause::Cause;
use crate::context::{Context, FilterDeltas, Probabilities, Segments, SignBiases};
use crate::fields::read_fields;
use crate::header::first_end;
use crate::places::{PartitionRange, token_ranges};
use crate::start::start_of;
use arrayvec::ArrayVec;
use bool_coder::Decoder;

/// A context whose numbers are all 0.
pub(crate) fn zero_context() -> Context
    ensures { result ≡ zero_context }
{
    Context {
        probabilities: Probabilities {
            coefficients: [0; 1056],
            vectors: [[0; 19]; 2],
            y_modes: [0; 4],
            uv_modes: [0; 3],
        },
        segments: Segments {
            is_absolute: false,
            quantizers: [0; 4],
            levels: [0; 4],
        },
        deltas: FilterDeltas {
            reference: [0; 4],
            mode: [0; 4],
        },
        sign_biases: SignBiases {
            golden: false,
            altref: false,
        },
    }
}

/// The token partitions of a packet after a key frame, or the first cause against it.
fn read_partitions(packet: &[u8]) -> Result<ArrayVec<PartitionRange, 8>, Cause>
    ensures { result ≡ partitions_of packet.now }
{
    let mut context = zero_context();
    let start = start_of(Some(&context), packet)?;
    let end = first_end(&start, packet)?;
    let mut reader = Decoder::new(&packet[start.place..end]);
    let fields = read_fields(&mut reader, start.tag.key, &mut context);
    token_ranges(packet, end, fields.partition_count)
}

/// Whether the last of these partitions is empty.
fn is_last_empty(places: &[PartitionRange]) -> bool
    ensures { result ≡ is_last_empty places.now }
{
    places.last().is_some_and(|place| place.length == 0)
}

/// Whether a packet is accepted after a key frame, and its last token partition is empty. Decoders of
/// libvpx want a byte there; a byte 00 changes nothing (`laws::zeros_keep_headers`).
#[tactic(auto, unfolding(crate::specs::Padding::ends_empty))]
pub fn ends_empty(packet: &[u8]) -> bool
    ensures { result ≡ ends_empty packet.now }
{
    match read_partitions(packet) {
        Ok(partitions) => is_last_empty(partitions.as_slice()),
        Err(_) => false,
    }
}
