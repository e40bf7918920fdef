//! The references of a frame (RFC 6386, section 9.7).

ghost use Rattle.std.specs.Prelude.{◌≡◌, IfOk, IsTrue, if◌then◌else◌, ◌↔◌};
ghost use Rattle.reference_frames.specs.References.{copied, picture_in, references_after};

use frame_header::{Reference, ReferenceUpdates};
use pixel_planes::{NoMemory, Picture, same};

/// The pictures from which later frames are predicted. They may share their planes.
#[derive(Debug, Drop)]
pub struct References {
    /// The last frame that refreshed it.
    pub last: Picture,
    /// The golden frame.
    pub golden: Picture,
    /// The altref frame.
    pub altref: Picture,
}

/// One of two pictures.
fn either<'a>(is_new: bool, new: &'a Picture, old: &'a Picture) -> &'a Picture
    ensures { result.now ≡ (if is_new then new.now else old.now) }
{
    if is_new { new } else { old }
}

impl References {
    /// The picture of a reference.
    pub fn picture(&self, reference: Reference) -> &Picture
        ensures { result.now ≡ picture_in self.now reference }
    {
        match reference {
            Reference::Last => &self.last,
            Reference::Golden => &self.golden,
            Reference::Altref => &self.altref,
        }
    }

    /// The picture that a reference becomes by a copy; without one it stays `own`.
    fn copied<'a>(&'a self, copy: Option<Reference>, own: &'a Picture) -> &'a Picture
        ensures { result.now ≡ copied self.now copy own.now }
    {
        match copy {
            Some(reference) => self.picture(reference),
            None => own,
        }
    }

    /// References that are all one picture.
    pub(crate) fn all_of(picture: &Picture) -> Result<References, NoMemory>
        ensures { IfOk result (λ r. r ≡ record { last = picture.now; golden = picture.now; altref = picture.now }) }
    {
        Ok(References {
            last: picture.again()?,
            golden: picture.again()?,
            altref: picture.again()?,
        })
    }

    /// A second share of the same references, which takes no memory. `NoMemory` if the share count
    /// of one of their pictures is at its maximum.
    pub(crate) fn again(&self) -> Result<References, NoMemory>
        ensures { IfOk result (λ r. r ≡ self.now) }
    {
        Ok(References {
            last: self.last.again()?,
            golden: self.golden.again()?,
            altref: self.altref.again()?,
        })
    }

    /// The references after a frame of this picture: first altref is copied, then golden, and then
    /// the refreshes are done (RFC 6386, section 9.7). It takes no memory; `NoMemory` as for
    /// `again`.
    pub(crate) fn after(
        &self,
        updates: &ReferenceUpdates,
        picture: &Picture,
    ) -> Result<References, NoMemory>
        ensures { IfOk result (λ r. r ≡ references_after updates.now picture.now self.now) }
    {
        let altref = self.copied(updates.altref_copy, &self.altref);
        let golden = match updates.golden_copy {
            None => &self.golden,
            Some(Reference::Altref) => altref,
            Some(reference) => self.picture(reference),
        };
        Ok(References {
            last: either(updates.refreshes_last, picture, &self.last).again()?,
            golden: either(updates.refreshes_golden, picture, golden).again()?,
            altref: either(updates.refreshes_altref, picture, altref).again()?,
        })
    }

    /// Whether two have the same samples in each reference.
    pub(crate) fn same(&self, other: &References) -> bool
        ensures { IsTrue result ↔ (self.now ≡ other.now) }
    {
        same(&self.last, &other.last)
            && same(&self.golden, &other.golden)
            && same(&self.altref, &other.altref)
    }
}
