// Laws and worked lines, as functions without code.
ghost use Rattle.std.specs.Prelude.{◌≡◌, ◌∷◌, [], None, Some, codes, false, true};
ghost use Rattle.request_lines.specs.declared.edit.Edit.TheVariants as edits;
ghost use Rattle.request_lines.specs.declared.lines.Line.TheVariants as requests;
ghost use Rattle.request_lines.specs.HexWords.{WordsAreReadBack, hex_word};
ghost use Rattle.request_lines.specs.Lost.{lost_by};
ghost use Rattle.request_lines.specs.Requests.{asked_by, misfit_of};
ghost use Rattle.request_lines.specs.declared.misfit.Misfit.TheVariants as misfits;
ghost use Rattle.request_lines.specs.declared.question.Question.TheVariants as questions;

/// The requests of worked lines.
#[tactic(auto, unfolding(hex::specs::Hex::decode_pairs))]
pub fn worked_lines()
    ensures insert { asked_by (codes "insert 1 2 0aF9") ≡ requests.Edit (edits.Insert 1 2 (10 ∷ 249 ∷ [])) }
    ensures replace { asked_by (codes "  replace  3  - ") ≡ requests.Edit (edits.Replace 3 []) }
    ensures delete { asked_by (codes "delete 18446744073709551615") ≡ requests.Edit (edits.Delete 18446744073709551615) }
    ensures move_up { asked_by (codes "move 0 2") ≡ requests.Edit (edits.Move 0 2) }
    ensures choose { asked_by (codes "use 1") ≡ requests.Use 1 }
    ensures copy { asked_by (codes "copy 0 1 2") ≡ requests.Edit (edits.Copy 0 1 2) }
    ensures copy_without_index { asked_by (codes "copy 0 1") ≡ requests.Unknown }
    ensures blank { asked_by (codes "blank 0 16 9") ≡ requests.Edit (edits.Blank 0 16 9) }
    ensures hold { asked_by (codes "hold 1") ≡ requests.Edit (edits.Hold 1) }
    ensures no_height { asked_by (codes "blank 0 16") ≡ requests.Unknown }
    ensures count { asked_by (codes "count") ≡ requests.Count }
    ensures stats { asked_by (codes "stats") ≡ requests.Stats }
    ensures script { asked_by (codes "script trim 0 1 2; splice 1 0") ≡ requests.Script (codes " trim 0 1 2; splice 1 0") }
    ensures script_alone { asked_by (codes "script  ") ≡ requests.Ask questions.Script }
    ensures list { asked_by (codes "list 3 10") ≡ requests.Ask (questions.List 3 10) }
    ensures check { asked_by (codes "check 3 10") ≡ requests.Ask (questions.Check 3 10) }
    ensures origins { asked_by (codes "origins 3 10") ≡ requests.Ask (questions.Origins 3 10) }
    ensures packet { asked_by (codes "packet 3") ≡ requests.Ask (questions.Packet 3) }
    ensures macroblocks { asked_by (codes "macroblocks 3") ≡ requests.Ask (questions.Macroblocks 3) }
    ensures header { asked_by (codes "header 3") ≡ requests.Ask (questions.Header 3) }
    ensures hide { asked_by (codes "hide 4") ≡ requests.Edit (edits.ShowBit 4 false) }
    ensures show { asked_by (codes "show 4") ≡ requests.Edit (edits.ShowBit 4 true) }
    ensures odd { asked_by (codes "insert 0 0 1") ≡ requests.Unknown }
    ensures wide { asked_by (codes "delete 18446744073709551616") ≡ requests.Unknown }
    ensures long { asked_by (codes "delete 000000000000000000001") ≡ requests.Unknown }
{}

/// Why worked lines are not requests.
#[tactic(auto, unfolding(hex::specs::Hex::decode_pairs))]
pub fn worked_misfits()
    ensures no_request { misfit_of (codes "play 1") ≡ Some misfits.NoRequest }
    ensures missing { misfit_of (codes "move 1") ≡ Some misfits.Missing }
    ensures too_many { misfit_of (codes "frame 1 2 x") ≡ Some (misfits.TooMany (codes "2")) }
    ensures no_number { misfit_of (codes "insert 1 b 0G") ≡ Some (misfits.NoNumber (codes "b")) }
    ensures odd_digits { misfit_of (codes "insert 1 2 0aF") ≡ Some (misfits.OddDigits (codes "0aF")) }
    ensures no_bytes { misfit_of (codes "insert 1 2 0G 3") ≡ Some (misfits.NoBytes (codes "0G")) }
    ensures request { misfit_of (codes "copy 0 1 2") ≡ None }
    ensures comment { misfit_of (codes " # frame") ≡ None }
    ensures empty { misfit_of [] ≡ None }
{}

/// The word of bytes is read as these bytes.
pub fn words_are_read_back()
    ensures { WordsAreReadBack }
{}

/// The words of worked bytes.
#[tactic(auto, unfolding(hex::specs::Hex::encode_with))]
pub fn worked_words()
    ensures none { hex_word [] ≡ codes "-" }
    ensures two { hex_word (10 ∷ 249 ∷ []) ≡ codes "0af9" }
{}

/// The requests of worked lines for whose bytes there was no memory.
pub fn worked_lost_lines()
    ensures empty { lost_by [] ≡ requests.Silent }
    ensures spaces { lost_by (codes "   ") ≡ requests.Silent }
    ensures comment { lost_by (codes "  # x") ≡ requests.Silent }
    ensures count { lost_by (codes "count") ≡ requests.Lost }
    ensures unknown { lost_by (codes " play #") ≡ requests.Lost }
{}
