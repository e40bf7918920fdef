ghost use Rattle.std.specs.Prelude.{◌≡◌, ◌<◌, ◌≤◌, ◌+◌, ◌*◌, false, length, IsTrue, IsSome, IfOk, All};
ghost use Rattle.std.specs.Option.{option_copied};
ghost use Rattle.frame_header.specs.Contexts.{first_context};
ghost use Rattle.frame_header.specs.Header.{first_end, first_partition, header_from, header_of, header_over};
ghost use Rattle.frame_header.specs.Tags.{has_key_tag};

use crate::cause::Cause;
use crate::context::{Context, first_context};
use crate::fields::{Colors, Filter, Segmentation, read_fields};
use crate::inter_fields::ReferenceProbabilities;
use crate::places::{PartitionRange, token_ranges};
use crate::references::ReferenceUpdates;
use crate::start::{Start, start_of};
use crate::trailing_fields::{Quantizers, read_trailing_fields};
use arrayvec::ArrayVec;
use bool_coder::Decoder;
use vp8_tables::Tables;

/// The header of a frame (RFC 6386, sections 9 and 19). It borrows the packet.
#[derive(Drop)]
pub struct Header<'a> {
    /// The frame is a key frame.
    pub is_key: bool,
    /// The version, 0 to 3.
    pub version: u8,
    /// The frame is to be shown.
    pub is_shown: bool,
    /// The width of a key frame in samples, 1 to 16,383; 0 on another frame.
    pub width: u16,
    /// The height of a key frame in samples, 1 to 16,383; 0 on another frame.
    pub height: u16,
    /// The color space and clamping bits.
    pub colors: Colors,
    /// The segment fields.
    pub segmentation: Segmentation,
    /// The kind and strength of the loop filter.
    pub filter: Filter,
    /// The level of the loop filter is changed by reference and mode.
    pub adjusts_level: bool,
    /// The quantizer index and its changes.
    pub quantizers: Quantizers,
    /// How the frame updates the references for the frames after it.
    pub references: ReferenceUpdates,
    /// The probabilities of the frame are saved for the next one (`refresh_entropy_probs`).
    pub refreshes_entropy: bool,
    /// The probability that a macroblock is not skipped; `None` if none is.
    pub skip_probability: Option<u8>,
    /// The probabilities of a macroblock's reference; each 0 on a key frame.
    pub reference_probabilities: ReferenceProbabilities,
    /// The positions of the 1 to 8 token partitions in the packet.
    pub partitions: ArrayVec<PartitionRange, 8>,
    /// The context for this frame.
    pub context: Context,
    /// The context that the frame leaves for the next: its own, but with the probabilities before
    /// it if it does not refresh them.
    pub context_after: Context,
    /// The reader of the first partition after these fields.
    pub reader: Decoder<'a>,
}

/// The position after the first partition; `FirstPartition` if the packet ends before it.
pub(crate) fn first_end(start: &Start, packet: &[u8]) -> Result<usize, Cause>
    requires { start.now.place ≤ length packet.now }
    ensures value { result ≡ first_end start.now packet.now }
    ensures following { IfOk result (λ end. start.now.place ≤ end) }
    ensures inside { IfOk result (λ end. end ≤ length packet.now) }
{
    let size = start.tag.first_partition as usize;
    if size > packet.len() - start.place {
        return Err(Cause::FirstPartition);
    }
    Ok(start.place + size)
}

/// The header of a packet after its start and the end of its first partition, whose text is `first`.
#[inline]
fn header_from<'a>(
    tables: &Tables,
    context: Option<&Context>,
    packet: &[u8],
    start: &Start,
    end: usize,
    first: &'a [u8],
) -> Result<Header<'a>, Cause>
    requires { end ≤ length packet.now }
    ensures value { result ≡ header_from tables.now (first_context tables.now start.now.tag.key (option_copied context.entry)) packet.now start.now end first.now }
    ensures key { IfOk result (λ header. header.is_key ≡ start.now.tag.key) }
    ensures size { IfOk result (λ header. (header.width ≡ start.now.width) × (header.height ≡ start.now.height)) }
    ensures inside { IfOk result (λ header. All (λ place. place.start + place.length ≤ length packet.now) header.partitions.items) }
    ensures some { IfOk result (λ header. 0 < length header.partitions.items) }
{
    let is_key = start.tag.key;
    let mut reader = Decoder::new(first);
    let mut context = first_context(tables, is_key, context);
    let fields = read_fields(&mut reader, is_key, &mut context);
    let partitions = token_ranges(packet, end, fields.partition_count)?;
    let probabilities = context.probabilities;
    let trailing = read_trailing_fields(&mut reader, is_key, tables.updates(), &mut context);
    let mut context_after = context;
    if !trailing.refreshes_entropy {
        context_after.probabilities = probabilities;
    }
    Ok(Header {
        is_key,
        version: start.tag.version,
        is_shown: start.tag.shown,
        width: start.width,
        height: start.height,
        colors: fields.colors,
        segmentation: fields.segmentation,
        filter: fields.filter,
        adjusts_level: fields.adjusts_level,
        quantizers: trailing.quantizers,
        references: trailing.references,
        refreshes_entropy: trailing.refreshes_entropy,
        skip_probability: trailing.skip_probability,
        reference_probabilities: trailing.reference_probabilities,
        partitions,
        context,
        context_after,
        reader,
    })
}

/// The position of a packet's first partition, which follows its tag (RFC 6386, section 9.1), after a
/// context or none. An `Err` is the first cause against the packet up to the end of it.
pub fn first_partition(context: Option<&Context>, packet: &[u8]) -> Result<PartitionRange, Cause>
    ensures value { result ≡ first_partition (option_copied context.entry) packet.now }
    ensures inside { IfOk result (λ place. place.start + place.length ≤ length packet.now) }
{
    let start = start_of(context, packet)?;
    let end = first_end(&start, packet)?;
    Ok(PartitionRange {
        start: start.place,
        length: end - start.place,
    })
}

/// The header of a packet after a context, or after none if no key frame came before. An `Err` is
/// the first cause, in the order of `Cause`, whose condition holds.
#[tactic(auto, unfolding(crate::specs::Header::header_of))]
pub fn read_header<'a>(
    tables: &Tables,
    context: Option<&Context>,
    packet: &'a [u8],
) -> Result<Header<'a>, Cause>
    ensures value { result ≡ header_of tables.now (option_copied context.entry) packet.now }
    ensures wide { IfOk result (λ header. IsTrue header.is_key → (1 ≤ header.width) × (header.width ≤ 16383)) }
    ensures high { IfOk result (λ header. IsTrue header.is_key → (1 ≤ header.height) × (header.height ≤ 16383)) }
    ensures inside { IfOk result (λ header. All (λ place. place.start + place.length ≤ length packet.now) header.partitions.items) }
    ensures some { IfOk result (λ header. 0 < length header.partitions.items) }
    ensures key { IfOk result (λ header. header.is_key ≡ has_key_tag packet.now) }
    ensures whole { IfOk result (λ header. IsTrue header.is_key → 10 ≤ length packet.now) }
    ensures following { IfOk result (λ header. header.is_key ≡ false → IsSome (option_copied context.entry)) }
{
    let start = start_of(context, packet)?;
    let end = first_end(&start, packet)?;
    let own = &packet[start.place..end];
    header_from(tables, context, packet, &start, end, own)
}

/// The header of a packet whose first partition is read from another text. The first partition's own
/// text gives the packet's header (`laws::headers_are_over_their_own`).
#[tactic(auto, unfolding(crate::specs::Header::header_over))]
pub fn read_header_over<'a>(
    tables: &Tables,
    context: Option<&Context>,
    packet: &[u8],
    first: &'a [u8],
) -> Result<Header<'a>, Cause>
    ensures value { result ≡ header_over tables.now (option_copied context.entry) packet.now first.now }
    ensures wide { IfOk result (λ header. IsTrue header.is_key → (1 ≤ header.width) × (header.width ≤ 16383)) }
    ensures high { IfOk result (λ header. IsTrue header.is_key → (1 ≤ header.height) × (header.height ≤ 16383)) }
    ensures inside { IfOk result (λ header. All (λ place. place.start + place.length ≤ length packet.now) header.partitions.items) }
    ensures some { IfOk result (λ header. 0 < length header.partitions.items) }
    ensures key { IfOk result (λ header. header.is_key ≡ has_key_tag packet.now) }
    ensures whole { IfOk result (λ header. IsTrue header.is_key → 10 ≤ length packet.now) }
    ensures following { IfOk result (λ header. header.is_key ≡ false → IsSome (option_copied context.entry)) }
{
    let start = start_of(context, packet)?;
    let end = first_end(&start, packet)?;
    header_from(tables, context, packet, &start, end, first)
}
