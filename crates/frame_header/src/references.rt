//! How a frame updates the references for the frames after it (RFC 6386, sections 9.7, 9.8 and
//! 19.2).

ghost use Rattle.std.specs.Prelude.{◌≡◌};
ghost use Rattle.frame_header.specs.References.{all_refreshed, golden_copy, altref_copy, inter_refreshes, refreshes};

use crate::context::SignBiases;
use bool_coder::Decoder;

/// A picture of an earlier frame (RFC 6386, section 9.7).
#[derive(Clone, Copy, Debug, PartialEq, Eq)]
pub enum Reference {
    /// The frame before, unless that did not refresh it.
    Last,
    /// The golden frame.
    Golden,
    /// The altref frame.
    Altref,
}

/// How a frame updates the references for the frames after it (RFC 6386, sections 9.7 and 9.8):
/// altref is copied first, then golden, and then the refreshes are done. A key frame refreshes all
/// three.
#[derive(Clone, Copy, Debug, PartialEq, Eq)]
pub struct ReferenceUpdates {
    /// The frame becomes the last frame (`refresh_last`).
    pub refreshes_last: bool,
    /// The frame becomes the golden frame (`refresh_golden_frame`).
    pub refreshes_golden: bool,
    /// The frame becomes the altref frame (`refresh_alternate_frame`).
    pub refreshes_altref: bool,
    /// Which reference golden becomes a copy of if it is not refreshed: last or altref.
    pub golden_copy: Option<Reference>,
    /// Which reference altref becomes a copy of if it is not refreshed: last or golden.
    pub altref_copy: Option<Reference>,
}

/// The parts of a frame that are saved for the next ones: its picture and its probabilities.
#[derive(Clone, Copy)]
pub(crate) struct Refreshes {
    pub(crate) references: ReferenceUpdates,
    pub(crate) refreshes_entropy: bool,
}

/// How a key frame updates the references: it becomes each of them.
fn all_refreshed() -> ReferenceUpdates
    ensures { result ≡ all_refreshed }
{
    ReferenceUpdates {
        refreshes_last: true,
        refreshes_golden: true,
        refreshes_altref: true,
        golden_copy: None,
        altref_copy: None,
    }
}

#[tactic(auto, unfolding(crate::specs::References::golden_copy))]
fn read_golden_copy(reader: &mut Decoder, is_refreshed: bool) -> Option<Reference>
    ensures { golden_copy is_refreshed reader.old ≡ (result, reader.new) }
{
    if is_refreshed {
        return None;
    }
    match reader.literal(2) {
        1 => Some(Reference::Last),
        2 => Some(Reference::Altref),
        _ => None,
    }
}

#[tactic(auto, unfolding(crate::specs::References::altref_copy))]
fn read_altref_copy(reader: &mut Decoder, is_refreshed: bool) -> Option<Reference>
    ensures { altref_copy is_refreshed reader.old ≡ (result, reader.new) }
{
    if is_refreshed {
        return None;
    }
    match reader.literal(2) {
        1 => Some(Reference::Last),
        2 => Some(Reference::Golden),
        _ => None,
    }
}

#[tactic(auto, unfolding(crate::specs::References::inter_refreshes))]
fn read_inter_refreshes(reader: &mut Decoder, biases: &mut SignBiases) -> Refreshes
    ensures { inter_refreshes reader.old ≡ ((result, biases.new), reader.new) }
{
    let refreshes_golden = reader.flag();
    let refreshes_altref = reader.flag();
    let golden_copy = read_golden_copy(reader, refreshes_golden);
    let altref_copy = read_altref_copy(reader, refreshes_altref);
    let golden = reader.flag();
    let altref = reader.flag();
    let refreshes_entropy = reader.flag();
    let refreshes_last = reader.flag();
    *biases = SignBiases { golden, altref };
    Refreshes {
        references: ReferenceUpdates {
            refreshes_last,
            refreshes_golden,
            refreshes_altref,
            golden_copy,
            altref_copy,
        },
        refreshes_entropy,
    }
}

/// The parts of a frame that are saved, and the sign biases; a key frame has no sign biases.
#[tactic(auto, unfolding(crate::specs::References::refreshes))]
pub(crate) fn read_refreshes(
    reader: &mut Decoder,
    is_key: bool,
    biases: &mut SignBiases,
) -> Refreshes
    ensures { refreshes is_key biases.old reader.old ≡ ((result, biases.new), reader.new) }
{
    if !is_key {
        return read_inter_refreshes(reader, biases);
    }
    let refreshes_entropy = reader.flag();
    Refreshes {
        references: all_refreshed(),
        refreshes_entropy,
    }
}
