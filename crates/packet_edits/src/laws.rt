//! Laws about the definitions of this crate. Each law is the contract of a function that does
//! nothing.

ghost use Rattle.std.specs.Prelude.{◌≡◌, [], ◌∷◌, None, Some, true, false};
ghost use Rattle.packet_edits.specs.declared.fault.EditFault.TheVariants as faults;
ghost use Rattle.packet_edits.specs.Edits.{copied, deleted, inserted, pushed, refused_copy, refused_insertion, refused_push, refused_replacement, refused_show_bit, replaced, starting, with_move, with_show_bit_at};
ghost use Rattle.packet_edits.specs.Laws.{IdsStayOwn, IsShownList, PushesAreInsertions, SizeIsOfLastKey, packet, three, unmarked};
ghost use Rattle.packet_edits.specs.Marks.{marks_deleted, marks_inserted, marks_moved, marks_replaced};
ghost use Rattle.packet_edits.specs.Returns.{ReturnsKeepIdsOwn, ReturnsRestore, exchanged, returned};
ghost use Rattle.packet_edits.specs.Shown.{shown_indexes};

/// The shown list has the indexes of exactly the shown packets, in ascending order.
pub fn shown_list_is_of_shown_packets()
    ensures { IsShownList }
{}

/// Each packet has its own id, before and after every edit.
pub fn ids_stay_own()
    ensures { IdsStayOwn }
{}

/// Each edit is undone by a return, a removal, an exchange or a move.
pub fn returns_restore()
    ensures { ReturnsRestore }
{}

/// Each packet has its own id after a return or an exchange exactly if the packet may return.
pub fn returns_keep_ids_own()
    ensures { ReturnsKeepIdsOwn }
{}

/// Appending packets is inserting them at the end in sequence.
pub fn pushes_are_insertions()
    ensures { PushesAreInsertions }
{}

/// The size before an index is that of the last packet with a key tag before it.
pub fn size_is_of_last_key()
    ensures { SizeIsOfLastKey }
{}

/// Worked examples: each edit of three packets, and the order of the errors.
pub fn worked_edits()
    ensures insert { (inserted 1 5 (68 ∷ []) three).entries ≡ packet 0 10 65 ∷ packet 3 5 68 ∷ packet 1 20 66 ∷ packet 2 30 67 ∷ [] }
    ensures copy { (copied 0 (record three { entries = packet 9 40 68 ∷ [] }) 0 three).entries ≡ packet 3 40 68 ∷ packet 0 10 65 ∷ packet 1 20 66 ∷ packet 2 30 67 ∷ [] }
    ensures copy_within { (copied 1 three 2 three).entries ≡ packet 0 10 65 ∷ packet 3 30 67 ∷ packet 1 20 66 ∷ packet 2 30 67 ∷ [] }
    ensures replace { (replaced 1 (68 ∷ []) three).entries ≡ packet 0 10 65 ∷ packet 3 20 68 ∷ packet 2 30 67 ∷ [] }
    ensures delete { (deleted 1 three).entries ≡ packet 0 10 65 ∷ packet 2 30 67 ∷ [] }
    ensures move_up { (with_move 0 2 three).entries ≡ packet 1 20 66 ∷ packet 2 30 67 ∷ packet 0 10 65 ∷ [] }
    ensures move_down { (with_move 2 1 three).entries ≡ packet 0 10 65 ∷ packet 2 30 67 ∷ packet 1 20 66 ∷ [] }
    ensures stays { (with_move 1 1 three).entries ≡ three.entries }
    ensures hide { (with_show_bit_at 1 false (record three { entries = packet 0 10 65 ∷ record (packet 1 20 0) { bytes = 0x31 ∷ 2 ∷ 3 ∷ [] } ∷ [] })).entries ≡ packet 0 10 65 ∷ record (packet 1 20 0) { bytes = 0x21 ∷ 2 ∷ 3 ∷ [] } ∷ [] }
    ensures next { (inserted 3 5 [] three).next_id ≡ 4 }
    ensures accepted { refused_insertion three 3 ≡ None }
    ensures place { refused_insertion (record three { next_id = 0xFFFF_FFFF_FFFF_FFFF }) 4 ≡ Some faults.Place }
    ensures no_source { refused_copy three 3 three 3 ≡ Some faults.Place }
    ensures copy_spent { refused_copy (record three { next_id = 0xFFFF_FFFF_FFFF_FFFF }) 3 three 2 ≡ Some faults.Spent }
    ensures no_bit { refused_show_bit three 2 ≡ Some faults.NoBit }
    ensures no_packet { refused_show_bit three 3 ≡ Some faults.Place }
    ensures spent { refused_replacement (record three { next_id = 0xFFFF_FFFF_FFFF_FFFF }) 2 ≡ Some faults.Spent }
    ensures last_id { refused_push (record three { next_id = 0xFFFF_FFFF_FFFF_FFFE }) (record { stamp = 0; bytes = [] } ∷ []) ≡ None }
    ensures one_too_many { refused_push (record three { next_id = 0xFFFF_FFFF_FFFF_FFFE }) (record { stamp = 0; bytes = [] } ∷ record { stamp = 0; bytes = [] } ∷ []) ≡ Some faults.Spent }
{}

/// Worked examples: a packet that was deleted returns with its id, and so does one that was replaced; the next id stays.
pub fn worked_returns()
    ensures deleted { returned 1 (packet 1 20 66) (deleted 1 three) ≡ three }
    ensures replaced { exchanged 1 (packet 1 20 66) (replaced 1 (68 ∷ []) three) ≡ record three { next_id = 4 } }
{}

/// Worked examples: the marks after each edit of four packets. An insertion and a replacement mark
/// the next packet, a deletion the packet now at the index, and a move the packet after the old
/// index, the moved packet and the packet after it.
pub fn worked_marks()
    ensures insert { marks_inserted 1 unmarked ≡ false ∷ false ∷ true ∷ false ∷ false ∷ [] }
    ensures insert_last { marks_inserted 4 unmarked ≡ false ∷ false ∷ false ∷ false ∷ false ∷ [] }
    ensures replace { marks_replaced 1 (true ∷ true ∷ false ∷ false ∷ []) ≡ true ∷ false ∷ true ∷ false ∷ [] }
    ensures delete { marks_deleted 1 unmarked ≡ false ∷ true ∷ false ∷ [] }
    ensures delete_last { marks_deleted 3 unmarked ≡ false ∷ false ∷ false ∷ [] }
    ensures move_up { marks_moved 0 2 unmarked ≡ true ∷ false ∷ true ∷ true ∷ [] }
    ensures move_down { marks_moved 2 0 unmarked ≡ true ∷ true ∷ false ∷ true ∷ [] }
{}

/// Worked example: a shown packet, a hidden one and an empty one, which counts as shown.
pub fn worked_shown_list()
    ensures { shown_indexes ((0x11 ∷ 0 ∷ 0 ∷ []) ∷ (0x01 ∷ 0 ∷ 0 ∷ []) ∷ [] ∷ []) ≡ 0 ∷ 2 ∷ [] }
{}
