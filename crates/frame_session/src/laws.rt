//! Laws over the definitions of this crate: each is the contract of a function that does nothing.

ghost use Rattle.std.specs.Prelude.{◌≡◌, [], ◌∷◌, codes, false, Ok, Err};
ghost use Rattle.packet_edits.specs.Laws.{packet, three};
ghost use Rattle.request_lines.specs.declared.edit.Edit.TheVariants as edits;
ghost use Rattle.frame_session.specs.declared.refusal.Refusal.TheVariants as refusals;
ghost use Rattle.frame_session.specs.Edits.{edited, edit_of, stamp_before};
ghost use Rattle.frame_session.specs.Laws.{AnswersAreOne, AnswersExist, QuestionsChangeNothing, RefusedLinesChangeNothing, StepsNeverFall};

use vp8_tables::Tables;

/// Each request list of which no line was lost has a meaning in which nothing is out of memory.
pub fn answers_exist()
    ensures { AnswersExist }
{}

/// If nothing is out of memory, a request list has one meaning, except for the number of steps that
/// `stats` reports.
pub fn answers_are_one()
    ensures { AnswersAreOne }
{}

/// The number that `stats` reports never falls.
pub fn steps_never_fall()
    ensures { StepsNeverFall }
{}

/// A refused line changes only the number of steps: neither packets nor ids nor the script
/// nor the fixed size.
pub fn refused_lines_change_nothing()
    ensures { RefusedLinesChangeNothing }
{}

/// A question changes nothing, whatever its reply.
pub fn questions_change_nothing()
    ensures { QuestionsChangeNothing }
{}

/// Each edit of three packets, none of which has a key tag, and refusals in their order.
pub fn worked_edits(tables: &Tables)
    ensures insert { (edited tables.now [] (edits.Insert 1 5 (68 ∷ [])) three).entries ≡ packet 0 10 65 ∷ packet 3 5 68 ∷ packet 1 20 66 ∷ packet 2 30 67 ∷ [] }
    ensures replace { (edited tables.now [] (edits.Replace 1 (68 ∷ [])) three).entries ≡ packet 0 10 65 ∷ packet 3 20 68 ∷ packet 2 30 67 ∷ [] }
    ensures delete { (edited tables.now [] (edits.Delete 1) three).entries ≡ packet 0 10 65 ∷ packet 2 30 67 ∷ [] }
    ensures move_up { (edited tables.now [] (edits.Move 0 2) three).entries ≡ packet 1 20 66 ∷ packet 2 30 67 ∷ packet 0 10 65 ∷ [] }
    ensures move_down { (edited tables.now [] (edits.Move 2 1) three).entries ≡ packet 0 10 65 ∷ packet 2 30 67 ∷ packet 1 20 66 ∷ [] }
    ensures copy { (edited tables.now (three ∷ []) (edits.Copy 0 2 0) three).entries ≡ packet 3 30 67 ∷ packet 0 10 65 ∷ packet 1 20 66 ∷ packet 2 30 67 ∷ [] }
    ensures no_source { edit_of tables.now (three ∷ []) three (edits.Copy 1 3 4) ≡ Err refusals.Source }
    ensures no_packet { edit_of tables.now (three ∷ []) three (edits.Copy 0 3 0) ≡ Err refusals.Place }
    ensures stays { (edited tables.now [] (edits.Move 1 1) three).entries ≡ three.entries }
    ensures next { (edited tables.now [] (edits.Insert 3 5 []) three).next_id ≡ 4 }
    ensures reply_only { edit_of tables.now [] three (edits.Insert 3 5 []) ≡ Ok 4 }
    ensures place { edit_of tables.now [] (record three { next_id = 0xFFFF_FFFF_FFFF_FFFF }) (edits.Insert 4 5 []) ≡ Err refusals.Place }
    ensures spent { edit_of tables.now [] (record three { next_id = 0xFFFF_FFFF_FFFF_FFFF }) (edits.Replace 2 []) ≡ Err refusals.Spent }
    ensures stamp { (stamp_before 0 three ≡ 0) × (stamp_before 1 three ≡ 10) × (stamp_before 3 three ≡ 30) }
    ensures place_before_size { edit_of tables.now [] three (edits.Blank 4 0 0) ≡ Err refusals.Place }
    ensures spent_before_size { edit_of tables.now [] (record three { next_id = 0xFFFF_FFFF_FFFF_FFFF }) (edits.Blank 3 0 16) ≡ Err refusals.Spent }
    ensures no_side { edit_of tables.now [] three (edits.Blank 3 0 16) ≡ Err refusals.Size }
    ensures wide_side { edit_of tables.now [] three (edits.Blank 0 16 16384) ≡ Err refusals.Size }
    ensures no_bit { edit_of tables.now [] three (edits.ShowBit 2 false) ≡ Err refusals.NoBit }
    ensures nothing_to_hide { edit_of tables.now [] three (edits.ShowBit 3 false) ≡ Err refusals.Place }
    ensures no_key { edit_of tables.now [] three (edits.Hold 3) ≡ Err refusals.Size }
{}
