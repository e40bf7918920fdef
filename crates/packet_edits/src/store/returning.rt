// Packets that leave a store and return to it, as when an edit is undone.
ghost use Rattle.std.specs.Prelude.{◌≡◌, ◌<◌, ◌≤◌, Some, is_ok, if◌then◌else◌, length, slice_get};
ghost use Rattle.std.specs.List.{remove};
ghost use Rattle.packet_edits.specs.Returns.{vacant};

use super::Store;
use crate::entry::Entry;
use crate::marks::mark;
use pixel_planes::NoMemory;
use std::alloc::Global;
use stream_files::Bytes;

impl Store {
    ghost use Rattle.packet_edits.specs.Edits.{deleted};
    ghost use Rattle.packet_edits.specs.Marks.{marks_deleted, marks_inserted, marks_replaced};
    ghost use Rattle.packet_edits.specs.Returns.{MayReturn, exchanged, returned};

    /// Removes the packet at index `at`, which exists, and returns it. The packet that is at the index now is marked.
    pub fn take(&mut self, at: usize) -> Entry
        requires { at < length self.old.list.entries }
        ensures value { slice_get self.old.list.entries at ≡ Some result }
        ensures list { self.new.list ≡ deleted at self.old.list }
        ensures marks { self.new.marks ≡ marks_deleted at self.old.marks }
    {
        self.index.remove(at);
        let entry = self.entries.remove(at);
        self.marks.remove(at);
        mark(&mut self.marks, at);
        entry
    }

    /// Makes room for a packet that is to return: appends a packet with its id and without bytes, which has no mark. If memory is
    /// refused, nothing changes.
    pub fn make_place(&mut self, entry: &Entry) -> Result<(), NoMemory>
        requires few { length self.old.list.entries < 1048576 }
        requires may { MayReturn entry.now self.old.list.next_id self.old.list.entries }
        ensures list { self.new.list ≡ (if is_ok result then returned (length self.old.list.entries) (vacant entry.now) self.old.list else self.old.list) }
        ensures marks { self.new.marks ≡ (if is_ok result then marks_inserted (length self.old.list.entries) self.old.marks else self.old.marks) }
    {
        let end = self.entries.len();
        let vacant = vacant(self.alloc, entry);
        let Ok(()) = self.marks.insert(end, false) else {
            return Err(NoMemory);
        };
        let Ok(()) = self.index.insert(end, vacant.bytes.as_slice()) else {
            self.marks.remove(end);
            return Err(NoMemory);
        };
        let Ok(()) = self.entries.insert(end, vacant) else {
            self.index.remove(end);
            self.marks.remove(end);
            return Err(NoMemory);
        };
        Ok(())
    }

    /// Puts a packet that returns at index `at`, in place of the packet at index `place`, which has its id. It has no mark, and the
    /// packet after it is marked. It allocates nothing.
    pub fn put_back(&mut self, place: usize, at: usize, entry: Entry)
        requires place { place < length self.old.list.entries }
        requires at { at < length self.old.list.entries }
        requires may { MayReturn entry self.old.list.next_id (remove self.old.list.entries place) }
        ensures list { self.new.list ≡ returned at entry (deleted place self.old.list) }
        ensures marks { self.new.marks ≡ marks_inserted at (remove self.old.marks place) }
    {
        self.index.set(place, entry.bytes.as_slice());
        self.index.move_to(place, at);
        self.entries.set(place, entry);
        self.entries.move_to(place, at);
        self.marks.set(place, false);
        self.marks.move_to(place, at);
        mark(&mut self.marks, at + 1);
    }

    /// Exchanges the packet at index `at`, which exists, for another one, which has its own id, and returns it. If `cuts`, the new one has
    /// no mark, and the packet after it is marked; else the marks stay. It allocates nothing.
    pub fn exchange(&mut self, at: usize, entry: Entry, cuts: bool) -> Entry
        requires place { at < length self.old.list.entries }
        requires may { MayReturn entry self.old.list.next_id (remove self.old.list.entries at) }
        ensures value { slice_get self.old.list.entries at ≡ Some result }
        ensures list { self.new.list ≡ exchanged at entry self.old.list }
        ensures marks { self.new.marks ≡ (if cuts then marks_replaced at self.old.marks else self.old.marks) }
    {
        self.index.set(at, entry.bytes.as_slice());
        let old = self.entries.replace(at, entry);
        if cuts {
            self.marks.set(at, false);
            mark(&mut self.marks, at + 1);
        }
        old
    }
}

/// A packet without bytes, with the id, the time stamp and the duration of a packet. It allocates nothing.
fn vacant(alloc: Global, entry: &Entry) -> Entry
    ensures { result ≡ vacant entry.now }
{
    Entry {
        id: entry.id,
        stamp: entry.stamp,
        duration: entry.duration,
        bytes: Bytes::new(Vec::new(alloc)),
    }
}
