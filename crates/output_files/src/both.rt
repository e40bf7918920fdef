// Two saves, of which both replace their files or neither does.
ghost use Rattle.std.specs.Prelude.{◌≡◌, ◌∷◌, [], IfErr, OnOk};
ghost use Rattle.output_files.specs.Both.{AreGivenUp};
ghost use Rattle.output_files.specs.Steps.{IsSaved};
ghost use Rattle.output_files.specs.Steps.Step.{Made};

use crate::saving::{OneUnsaved, SavePlace, SavedText, abandon, replace, write_new};
use std::alloc::Global;

/// Ends two saves whose new files were made: both texts are written and brought to the disk before either new file replaces its file. If one of
/// these fails, the new files that are left are removed, and the first error is returned. Neither file was replaced then, unless the second one
/// could not be.
pub fn finish_both<P: SavePlace, Q: SavePlace, T: SavedText, U: SavedText>(
    alloc: Global,
    first: &mut P,
    second: &mut Q,
    files: (P::File, Q::File),
    texts: (&T, &U),
) -> Result<(), OneUnsaved>
    requires first { P.steps first.old ≡ Made ∷ [] }
    requires second { Q.steps second.old ≡ Made ∷ [] }
    ensures first { OnOk result (IsSaved (P.File.contents files.0) (T.text texts.entry.0.now) (P.steps first.new)) }
    ensures second { OnOk result (IsSaved (Q.File.contents files.1) (U.text texts.entry.1.now) (Q.steps second.new)) }
    ensures given_up { IfErr result (AreGivenUp (record { made = P.File.contents files.0; text = T.text texts.entry.0.now; steps = P.steps first.new }) (record { made = Q.File.contents files.1; text = U.text texts.entry.1.now; steps = Q.steps second.new })) }
{
    let (first_file, second_file) = files;
    if let Err(why) = write_new(alloc, first, first_file, texts.0) {
        abandon(second);
        return Err(OneUnsaved::First(why));
    }
    if let Err(why) = write_new(alloc, second, second_file, texts.1) {
        abandon(first);
        return Err(OneUnsaved::Second(why));
    }
    if let Err(why) = replace(first) {
        abandon(second);
        return Err(OneUnsaved::First(why));
    }
    replace(second).map_err(OneUnsaved::Second)
}
