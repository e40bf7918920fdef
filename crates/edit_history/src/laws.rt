//! Laws about the definitions of this crate. Each law is the contract of a function that does nothing.

ghost use Rattle.std.specs.Prelude.{◌≡◌, [], ◌∷◌, None, Some, false, length, true};
ghost use Rattle.edit_history.specs.Histories.{DropTakesChangesBack, RedoTakesUndoBack, changed_to, drop_times, numbers, redo, redo_times, undo, undo_times, values_of};
ghost use Rattle.edit_history.specs.Laws.{ChangesLeadBack, StepsNeedNoMemory};
ghost use Rattle.edit_history.specs.Trails.{StepsKeepNextIds, TrailsAreHistories, TrailsStaySound, redo_steps, undo_steps};
ghost use Rattle.edit_history.specs.Values.{StepsAreOfValues, StepsKeepHistories, StepsLeadBack};
ghost use Rattle.edit_history.specs.Worked.{after_deletion, ids_of, source_of};

/// A change leads back to the packets before it.
pub fn changes_lead_back()
    ensures { ChangesLeadBack }
{}

/// Once each packet that returns has a place, steps lead where they lead without memory.
pub fn steps_need_no_memory()
    ensures { StepsNeedNoMemory }
{}

/// A step leads back to the value before it.
pub fn steps_lead_back()
    ensures { StepsLeadBack }
{}

/// Steps of lists with marks are those of the values.
pub fn steps_are_of_values()
    ensures { StepsAreOfValues }
{}

/// An undo, a redo, a change and a drop of a history by its steps are those of its values.
pub fn steps_keep_histories()
    ensures { StepsKeepHistories }
{}

/// Undo, redo and drop of a trail are those of its history.
pub fn trails_are_histories()
    ensures { TrailsAreHistories }
{}

/// A trail stays sound by a change, and by undo, redo and drop.
pub fn trails_stay_sound()
    ensures { TrailsStaySound }
{}

/// Undo, redo and drop change no next id.
pub fn steps_keep_next_ids()
    ensures { StepsKeepNextIds }
{}

/// A redo takes an undo back.
pub fn redo_takes_undo_back()
    ensures { RedoTakesUndoBack }
{}

/// After changes a drop of so many leaves what was before them, with what was undone then.
pub fn drop_takes_changes_back()
    ensures { DropTakesChangesBack }
{}

/// Worked examples: of the values 0, 1, 2 and 3 two are undone and one is redone; a change empties what was undone, and a drop of it
/// gives it back.
pub fn worked_histories()
    ensures undo { (undo_times 2 numbers).now ≡ 1 }
    ensures undone { (undo_times 2 numbers).undone ≡ 2 ∷ 3 ∷ [] }
    ensures redo { (redo_times 1 (undo_times 2 numbers)).now ≡ 2 }
    ensures earlier { values_of (redo_times 1 (undo_times 2 numbers)).earlier ≡ 1 ∷ 0 ∷ [] }
    ensures change { (changed_to 4 (undo_times 2 numbers)).undone ≡ [] }
    ensures dropped { drop_times 1 (changed_to 4 (undo_times 2 numbers)) ≡ undo_times 2 numbers }
    ensures nothing { undo 0 numbers ≡ Some numbers }
    ensures too_many { undo 4 numbers ≡ None }
    ensures no_redo { redo 1 numbers ≡ None }
{}

/// A worked trail: a deletion is undone and made again. The packet returns with its id and without a mark, the next id stays, and the
/// step back owns the packet.
pub fn worked_trails()
    ensures deleted { ids_of after_deletion ≡ 0 ∷ 2 ∷ [] }
    ensures undone { ids_of (undo_steps 1 after_deletion) ≡ 0 ∷ 1 ∷ 2 ∷ [] }
    ensures marks { (source_of (undo_steps 1 after_deletion)).marks ≡ false ∷ false ∷ true ∷ [] }
    ensures next { (source_of (undo_steps 1 after_deletion)).list.next_id ≡ 5 }
    ensures redone { ids_of (redo_steps 1 (undo_steps 1 after_deletion)) ≡ 0 ∷ 2 ∷ [] }
    ensures earlier { length (redo_steps 1 (undo_steps 1 after_deletion)).steps.earlier ≡ 1 }
{}
