// Laws on saves.
ghost use Rattle.std.specs.Prelude.{◌≡◌, [], ℕ, List, None, Some, codes, nat_eq, take, true};
ghost use Rattle.std.specs.List.{starts_with};
ghost use Rattle.output_files.specs.Both.{AreGivenUp, SaveCalls, is_first_kept};
ghost use Rattle.output_files.specs.Disks.{Disk, IsNeverLost, after_all};
ghost use Rattle.output_files.specs.Links.{IsFollowed, KnownLinks};
ghost use Rattle.output_files.specs.Steps.{IsGivenUp, IsSaved, Step};
ghost use Rattle.output_files.specs.declared.saving.OneUnsaved.{OneUnsaved};
ghost use Rattle.output_files.specs.declared.saving.Unsaved.{Unsaved};

#[tactic(auto, using(crate::proofs::Saves::saved_end))]
/// A save that ended well: at each moment the file is the old one or the whole text, at the end it is the text, and no new file remains.
pub fn saved_is_whole()
    ensures never_lost { (disk : Disk) (text : List ℕ) (steps : List Step) → IsSaved (Some []) text steps → IsNeverLost disk text steps }
    ensures end { (disk : Disk) (text : List ℕ) (steps : List Step) → IsSaved (Some []) text steps → after_all disk steps ≡ record { file = Some text; fresh = None } }
{}

/// A save that failed: at each moment, and at the end, the file is the old one.
pub fn given_up_changes_nothing()
    ensures { (disk : Disk) (text : List ℕ) (steps : List Step) (why : Unsaved) → IsGivenUp (Some []) text steps why → (n : ℕ) → (after_all disk (take n steps)).file ≡ disk.file }
{}

/// Two saves of which one failed: at each moment, and at the end, the second file is the old one, and so is the first one, unless the second new
/// file could not replace its file.
pub fn given_up_changes_neither()
    ensures second { (disk : Disk) (first second : SaveCalls) (why : OneUnsaved) → second.made ≡ Some [] → AreGivenUp first second why → (n : ℕ) → (after_all disk (take n second.steps)).file ≡ disk.file }
    ensures first { (disk : Disk) (first second : SaveCalls) (why : OneUnsaved) → first.made ≡ Some [] → is_first_kept why ≡ true → AreGivenUp first second why → (n : ℕ) → (after_all disk (take n first.steps)).file ≡ disk.file }
{}

/// A path at which there is no link leads to itself alone, and a link to an absolute path at which there is none leads to that path alone.
pub fn links_lead_to_one_path()
    ensures none { (known : KnownLinks) (path to : List ℕ) → known path ≡ Some None → IsFollowed known path to → to ≡ path }
    ensures absolute { (known : KnownLinks) (path link to : List ℕ) → known path ≡ Some (Some link) → starts_with nat_eq link (codes "/") ≡ true → known link ≡ Some None → IsFollowed known path to → to ≡ link }
{}
