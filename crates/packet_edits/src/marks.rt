//! Lists of marks, one per packet.
ghost use Rattle.std.specs.Prelude.{◌≡◌, ◌<◌, ◌≤◌, length};
ghost use Rattle.packet_edits.specs.Marks.{marked_at, marks_moved};

use crate::flag_index::FlagIndex;

/// Marks the packet at index `at`, if there is one.
pub fn mark(marks: &mut FlagIndex, at: usize)
    ensures { marks.new ≡ marked_at at marks.old }
{
    if at < marks.len() {
        marks.set(at, true);
    }
}

/// Moves the packet at index `from` to index `to`, and marks it, the packet that followed it and
/// the packet that follows it now.
pub fn move_marked(marks: &mut FlagIndex, from: usize, to: usize)
    requires places { (from < length marks.old) × (to < length marks.old) }
    requires few { length marks.old ≤ 1048576 }
    ensures { marks.new ≡ marks_moved from to marks.old }
{
    mark(marks, from);
    mark(marks, from + 1);
    marks.move_to(from, to);
    mark(marks, to + 1);
}
