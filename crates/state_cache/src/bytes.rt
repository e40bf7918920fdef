//! The bytes of the pictures of cached outcomes.
ghost use Rattle.std.specs.Prelude.{◌≡◌, ◌+◌, ◌<◌, ◌^◌, ◌↔◌, IsTrue};
ghost use Rattle.state_cache.specs.Bytes.{bytes_in, outcome_bytes, picture_bytes};

use crate::outcomes::Kept;
use pixel_planes::Picture;
use stream_steps::plane_bytes;

/// The bytes of the planes of a picture.
fn picture_bytes(picture: &Picture) -> u64
    ensures value { result ≡ picture_bytes picture.now }
    ensures few { result < 2 ^ 31 }
{
    plane_bytes(picture.luma()) + plane_bytes(picture.cb()) + plane_bytes(picture.cr())
}

/// The bytes of the pictures of an outcome: its own and the three references of its state, each
/// counted, although they may share their planes.
pub(crate) fn outcome_bytes(outcome: &Kept) -> u64
    ensures value { result ≡ outcome_bytes outcome.now }
    ensures few { result < 2 ^ 33 }
{
    let references = outcome.state.references();
    picture_bytes(&outcome.picture)
        + picture_bytes(&references.last)
        + picture_bytes(&references.golden)
        + picture_bytes(&references.altref)
}

/// The bytes of the pictures of an outcome, if there is one.
pub(crate) fn bytes_in(outcome: &Option<Kept>) -> u64
    ensures value { result ≡ bytes_in outcome.now }
{
    match outcome {
        Some(outcome) => outcome_bytes(outcome),
        None => 0,
    }
}

/// Whether the newest outcome and the others, of these bytes, are over the limit.
pub(crate) fn is_over(newest: u64, others: u64, limit: u64) -> bool
    ensures { IsTrue result ↔ (limit < others + newest) }
{
    newest > limit || others > limit - newest
}
