ghost use Rattle.std.specs.Prelude.{◌≡◌, ◌+◌, ◌^◌, ◌++◌, ◌<◌, ◌≤◌, [], Err, IfErr, IfOk, IfSome, None, OnOk, Some, is_ok, if◌then◌else◌, length, option_map, slice_get, take};
ghost use Rattle.std.specs.Io.KnownBytes.{Appends};
ghost use Rattle.packet_edits.specs.Edits.{numbered};
ghost use Rattle.packet_edits.specs.Faults.{IsFirstOrNoMemory, unless_refused};
ghost use Rattle.packet_edits.specs.Marks.{marks_pushed};
ghost use Rattle.stream_files.specs.Texts.{written_text};

mod returning;

use crate::entry::Entry;
use crate::fault::{EditFault, RestampFault};
use crate::flag_index::FlagIndex;
use crate::marks::{mark, move_marked};
use crate::packet_index::PacketIndex;
use crate::saving::{write_padded_records, write_records, write_restamped_records};
use chunked_list::ChunkedList;
use frame_header::{ShowFault, key_size, with_show_bit};
use packet_times::{Duration, durations_of};
use pixel_planes::NoMemory;
use std::alloc::Global;
use std::io::Write;
use std::marker::Model;
use stream_files::{Bytes, Head, MAX_PACKETS, Packets, WriteFault, ivf_start};

/// The id that no packet gets.
const SPENT_ID: u64 = u64::MAX;

/// The packets of a stream, at most 1,048,576, and the id of the next inserted packet.
///
/// A packet of a file is shown up to the time stamp of the next shown one; a packet that has no such duration is shown
/// for the usual one.
///
/// A refused edit changes nothing. Indexes are counted from 0. Only `push_all`, `insert`,
/// `copy_from`, `copy_within`, `set_show_bit` and `make_place` allocate.
#[derive(Drop)]
pub struct Store {
    alloc: Global,
    entries: ChunkedList<Entry>,
    marks: FlagIndex,
    index: PacketIndex,
    next_id: u64,
    usual: Duration,
}

impl Model for Store {
    ghost use Rattle.packet_edits.specs.Marks.{StoreValue};
    ghost use Rattle.packet_edits.specs.Stores.{IsWhole};

    ghost Value = { StoreValue };

    ghost view = { λ s. record { list = record { entries = s.entries; next_id = s.next_id; usual = s.usual }; marks = s.marks } };

    ghost invariant = { λ s. IsWhole s.entries s.next_id s.marks s.index };
}

impl Store {
    ghost use Rattle.packet_edits.specs.Edits.{copied, deleted, inserted, inserted_for, pushed, refused_copy, refused_deletion, refused_id, refused_insertion, refused_move, refused_push, refused_replacement, refused_show_bit, replaced, showing, starting, with_move, with_show_bit_at};
    ghost use Rattle.packet_edits.specs.Laws.{HasOwnIds};
    ghost use Rattle.packet_edits.specs.Marks.{marked_at, marks_deleted, marks_inserted, marks_moved, marks_replaced, unmarked_at};
    ghost use Rattle.packet_edits.specs.Saved.{packets_of, padded_packets_of, restamped};
    ghost use Rattle.packet_edits.specs.Shown.{shown_indexes, stream_of};
    ghost use Rattle.packet_edits.specs.Nearest.{IsFirst, IsLast};
    ghost use Rattle.packet_edits.specs.FlagCounts.{flag_at};
    ghost use Rattle.packet_edits.specs.Sizes.{key_tag_at, size_at};

    /// An empty store whose first packet gets the id `first_id`. `usual` is the duration of a packet that has none of its
    /// own, in the units of the file. It allocates nothing.
    pub fn starting(alloc: Global, first_id: u64, usual: Duration) -> Store
        ensures { result ≡ record { list = starting first_id usual; marks = [] } }
    {
        Store {
            alloc,
            entries: ChunkedList::new(alloc),
            marks: FlagIndex::new(alloc),
            index: PacketIndex::new(alloc),
            next_id: first_id,
            usual,
        }
    }

    /// Appends packets of a file, in their order.
    ///
    /// Errors, in this order: `Full` if there would be more than 1,048,576 packets, `Spent` if one
    /// of them would get the id 18,446,744,073,709,551,615, and `NoMemory`.
    pub fn push_all(&mut self, packets: Packets) -> Result<(), EditFault>
        ensures answers { IsFirstOrNoMemory (refused_push self.old.list packets) result }
        ensures after { self.new.list ≡ (if is_ok result then pushed packets self.old.list else self.old.list) }
        ensures marks { self.new.marks ≡ (if is_ok result then marks_pushed packets self.old.marks else self.old.marks) }
    {
        self.may_push(&packets)?;
        let len = self.entries.len();
        let next_id = self.next_id + packets.len() as u64;
        let Ok(()) = self.index.push_all(&packets) else {
            return Err(EditFault::NoMemory);
        };
        let Ok(()) = push_marks(&mut self.marks, &packets) else {
            self.index.truncate(len);
            return Err(EditFault::NoMemory);
        };
        let Ok(()) = push_entries(
            self.alloc,
            &mut self.entries,
            self.next_id,
            self.usual,
            packets,
        ) else {
            self.index.truncate(len);
            self.marks.truncate(len);
            return Err(EditFault::NoMemory);
        };
        self.next_id = next_id;
        Ok(())
    }

    /// Inserts a packet at index `at`, which is at most the number of packets. The packet has the usual duration and no
    /// mark, and the packet after it is marked.
    ///
    /// Errors, in this order: `Place`, `Full` if there are 1,048,576 packets, `Spent` if no id is
    /// left, and `NoMemory`.
    pub fn insert(&mut self, at: u64, stamp: u64, bytes: Bytes) -> Result<(), EditFault>
        ensures answers { IsFirstOrNoMemory (refused_insertion self.old.list at) result }
        ensures after { self.new.list ≡ (if is_ok result then inserted at stamp bytes self.old.list else self.old.list) }
        ensures marks { self.new.marks ≡ (if is_ok result then marks_inserted at self.old.marks else self.old.marks) }
    {
        self.insert_for(at, stamp, self.usual, bytes)
    }

    /// Inserts a packet that is shown for a duration, as `insert` does.
    fn insert_for(
        &mut self,
        at: u64,
        stamp: u64,
        duration: Duration,
        bytes: Bytes,
    ) -> Result<(), EditFault>
        ensures answers { IsFirstOrNoMemory (refused_insertion self.old.list at) result }
        ensures after { self.new.list ≡ (if is_ok result then inserted_for duration at stamp bytes self.old.list else self.old.list) }
        ensures marks { self.new.marks ≡ (if is_ok result then marks_inserted at self.old.marks else self.old.marks) }
    {
        self.may_insert(at)?;
        let place = at as usize;
        let Ok(()) = self.marks.insert(place, false) else {
            return Err(EditFault::NoMemory);
        };
        let Ok(()) = self.index.insert(place, bytes.as_slice()) else {
            self.marks.remove(place);
            return Err(EditFault::NoMemory);
        };
        let entry = Entry {
            id: self.next_id,
            stamp,
            duration,
            bytes,
        };
        let Ok(()) = self.entries.insert(place, entry) else {
            self.index.remove(place);
            self.marks.remove(place);
            return Err(EditFault::NoMemory);
        };
        mark(&mut self.marks, place + 1);
        self.next_id += 1;
        Ok(())
    }

    /// Inserts a copy of packet `from` of another store at index `at`, which is at most the number
    /// of packets. The copy has the packet's time stamp, duration and bytes and a new id. It has no mark, and
    /// the packet after it is marked.
    ///
    /// Errors, in this order: `Place`, also if `source` has no packet `from`, `Full` if there are
    /// 1,048,576 packets, `Spent` if no id is left, and `NoMemory`.
    pub fn copy_from(&mut self, at: u64, source: &Store, from: u64) -> Result<(), EditFault>
        ensures answers { IsFirstOrNoMemory (refused_copy self.old.list at source.now.list from) result }
        ensures after { self.new.list ≡ (if is_ok result then copied at source.now.list from self.old.list else self.old.list) }
        ensures marks { self.new.marks ≡ (if is_ok result then marks_inserted at self.old.marks else self.old.marks) }
    {
        self.may_copy(at, source, from)?;
        let Ok(copy) = source.copy_of(self.alloc, from as usize) else {
            return Err(EditFault::NoMemory);
        };
        self.insert_for(at, copy.stamp, copy.duration, copy.bytes)
    }

    /// Inserts a copy of packet `from` of this store at index `at`, as `copy_from` does. `from` is
    /// the packet's index before the insertion.
    pub fn copy_within(&mut self, at: u64, from: u64) -> Result<(), EditFault>
        ensures answers { IsFirstOrNoMemory (refused_copy self.old.list at self.old.list from) result }
        ensures after { self.new.list ≡ (if is_ok result then copied at self.old.list from self.old.list else self.old.list) }
        ensures marks { self.new.marks ≡ (if is_ok result then marks_inserted at self.old.marks else self.old.marks) }
    {
        self.may_copy(at, self, from)?;
        let Ok(copy) = self.copy_of(self.alloc, from as usize) else {
            return Err(EditFault::NoMemory);
        };
        self.insert_for(at, copy.stamp, copy.duration, copy.bytes)
    }

    /// Replaces the bytes of the packet at index `at` and gives it a new id. Its time stamp and its duration stay.
    /// The packet has no mark afterwards, and the packet after it is marked.
    ///
    /// Errors, in this order: `Place` if there is no packet at the index, and `Spent` if no id is
    /// left.
    pub fn replace(&mut self, at: u64, bytes: Bytes) -> Result<(), EditFault>
        ensures reported { result ≡ unless_refused (refused_replacement self.old.list at) }
        ensures after { self.new.list ≡ (if is_ok result then replaced at bytes self.old.list else self.old.list) }
        ensures marks { self.new.marks ≡ (if is_ok result then marks_replaced at self.old.marks else self.old.marks) }
    {
        self.may_replace(at)?;
        let place = at as usize;
        self.index.set(place, bytes.as_slice());
        let old = self.entries.get(place);
        let entry = Entry {
            id: self.next_id,
            stamp: old.stamp,
            duration: old.duration,
            bytes,
        };
        self.entries.set(place, entry);
        self.marks.set(place, false);
        mark(&mut self.marks, place + 1);
        self.next_id += 1;
        Ok(())
    }

    /// Removes the packet at index `at`, and marks the packet that is at the index now. `Place` if
    /// there is no packet at the index.
    pub fn delete(&mut self, at: u64) -> Result<(), EditFault>
        ensures reported { result ≡ unless_refused (refused_deletion self.old.list at) }
        ensures after { self.new.list ≡ (if is_ok result then deleted at self.old.list else self.old.list) }
        ensures marks { self.new.marks ≡ (if is_ok result then marks_deleted at self.old.marks else self.old.marks) }
    {
        if at >= self.entries.len() as u64 {
            return Err(EditFault::Place);
        }
        self.index.remove(at as usize);
        self.entries.remove(at as usize);
        self.marks.remove(at as usize);
        mark(&mut self.marks, at as usize);
        Ok(())
    }

    /// Removes the packet at index `from` and inserts it at index `to` of the shortened list. The
    /// packet keeps its id. It is marked, and so are the packet after its old index and the packet
    /// after it now. `Place` if there is no packet at one of the two indexes.
    pub fn move_to(&mut self, from: u64, to: u64) -> Result<(), EditFault>
        ensures reported { result ≡ unless_refused (refused_move self.old.list from to) }
        ensures after { self.new.list ≡ (if is_ok result then with_move from to self.old.list else self.old.list) }
        ensures marks { self.new.marks ≡ (if is_ok result then marks_moved from to self.old.marks else self.old.marks) }
    {
        let len = self.entries.len() as u64;
        if from >= len {
            return Err(EditFault::Place);
        }
        if to >= len {
            return Err(EditFault::Place);
        }
        self.index.move_to(from as usize, to as usize);
        self.entries.move_to(from as usize, to as usize);
        move_marked(&mut self.marks, from as usize, to as usize);
        Ok(())
    }

    /// Sets the show bit of the packet at index `at`, or clears it, in a copy of its bytes. The packet keeps its id, its time
    /// stamp and its mark, and no other packet is marked.
    ///
    /// Errors, in this order: `Place` if there is no packet at the index, `NoBit` if it has fewer than 3 bytes, and `NoMemory`.
    pub fn set_show_bit(&mut self, at: u64, shown: bool) -> Result<(), EditFault>
        ensures answers { IsFirstOrNoMemory (refused_show_bit self.old.list at) result }
        ensures after { self.new.list ≡ (if is_ok result then with_show_bit_at at shown self.old.list else self.old.list) }
        ensures marks { self.new.marks ≡ self.old.marks }
    {
        if at >= self.entries.len() as u64 {
            return Err(EditFault::Place);
        }
        let place = at as usize;
        let entry = self.showing(place, shown)?;
        self.index.set(place, entry.bytes.as_slice());
        self.entries.set(place, entry);
        Ok(())
    }

    /// The packet at index `i`, which exists, with its show bit set or cleared.
    fn showing(&self, i: usize, shown: bool) -> Result<Entry, EditFault>
        requires { i < length self.now.list.entries }
        ensures copy { IfOk result (λ entry. option_map (showing shown) (slice_get self.now.list.entries i) ≡ Some entry) }
        ensures allowed { OnOk result (refused_show_bit self.now.list i ≡ None) }
        ensures refused { IfErr result (λ fault. IsFirstOrNoMemory (refused_show_bit self.now.list i) (Err fault)) }
    {
        let entry = self.entries.get(i);
        match with_show_bit(self.alloc, entry.bytes.as_slice(), shown) {
            Ok(bytes) => Ok(Entry {
                id: entry.id,
                stamp: entry.stamp,
                duration: entry.duration,
                bytes: Bytes::new(bytes),
            }),
            Err(ShowFault::NoBit) => Err(EditFault::NoBit),
            Err(ShowFault::NoMemory) => Err(EditFault::NoMemory),
        }
    }

    /// Whether these packets may be appended: `Full` or `Spent` if not, in this order.
    fn may_push(&self, packets: &Packets) -> Result<(), EditFault>
        ensures { result ≡ unless_refused (refused_push self.now.list packets.now) }
    {
        if MAX_PACKETS - self.entries.len() < packets.len() {
            Err(EditFault::Full)
        } else if SPENT_ID - self.next_id < packets.len() as u64 {
            Err(EditFault::Spent)
        } else {
            Ok(())
        }
    }

    /// Whether a packet may be inserted at index `at`: `Place`, `Full` or `Spent` if not, in this
    /// order.
    pub fn may_insert(&self, at: u64) -> Result<(), EditFault>
        ensures { result ≡ unless_refused (refused_insertion self.now.list at) }
    {
        if (self.entries.len() as u64) < at {
            Err(EditFault::Place)
        } else if self.entries.len() >= MAX_PACKETS {
            Err(EditFault::Full)
        } else {
            self.may_number()
        }
    }

    /// Whether a copy of packet `from` of a store may be inserted at index `at`: `Place`, `Full` or
    /// `Spent` if not, in this order.
    fn may_copy(&self, at: u64, source: &Store, from: u64) -> Result<(), EditFault>
        ensures { result ≡ unless_refused (refused_copy self.now.list at source.now.list from) }
    {
        if from < source.entries.len() as u64 {
            self.may_insert(at)
        } else {
            Err(EditFault::Place)
        }
    }

    /// A copy of the packet at index `i`, which exists.
    fn copy_of(&self, alloc: Global, i: usize) -> Result<Entry, NoMemory>
        requires { i < length self.now.list.entries }
        ensures { IfOk result (λ copy. slice_get self.now.list.entries i ≡ Some copy) }
    {
        let entry = self.entries.get(i);
        Ok(Entry {
            id: entry.id,
            stamp: entry.stamp,
            duration: entry.duration,
            bytes: entry.bytes.share(alloc)?,
        })
    }

    /// Whether the packet at index `at` may be replaced: `Place` or `Spent` if not, in this order.
    pub fn may_replace(&self, at: u64) -> Result<(), EditFault>
        ensures { result ≡ unless_refused (refused_replacement self.now.list at) }
    {
        if at < self.entries.len() as u64 {
            self.may_number()
        } else {
            Err(EditFault::Place)
        }
    }

    /// Whether a packet may get a new id: `Spent` if not.
    fn may_number(&self) -> Result<(), EditFault>
        ensures { result ≡ unless_refused (refused_id self.now.list) }
    {
        if self.next_id == SPENT_ID {
            Err(EditFault::Spent)
        } else {
            Ok(())
        }
    }

    /// The number of packets, at most 1,048,576.
    pub fn len(&self) -> usize
        ensures value { result ≡ length self.now.list.entries }
        ensures few { result ≤ 1048576 }
        ensures marks { length self.now.marks ≡ result }
        ensures own_ids { HasOwnIds self.now.list }
    {
        self.entries.len()
    }

    /// Does nothing. Its contract: there are at most 1,048,576 packets, as many marks as packets,
    /// and each packet has its own id, below the next one.
    pub fn prove_few(&self)
        ensures few { length self.now.list.entries ≤ 1048576 }
        ensures marks { length self.now.marks ≡ length self.now.list.entries }
        ensures own_ids { HasOwnIds self.now.list }
    {
        let _entries = &self.entries;
    }

    /// The bytes of the packet at index `i`, which exists.
    pub fn packet(&self, i: usize) -> &[u8]
        requires { i < length self.now.list.entries }
        ensures { slice_get (stream_of self.now.list) i ≡ Some result.now }
    {
        self.entries.get(i).bytes.as_slice()
    }

    /// The same bytes, which may be shared without a copy.
    pub fn bytes(&self, i: usize) -> &Bytes
        requires { i < length self.now.list.entries }
        ensures { slice_get (stream_of self.now.list) i ≡ Some result.now }
    {
        &self.entries.get(i).bytes
    }

    /// The time stamp of the packet at index `i`, which exists, in units of `scale / rate` seconds.
    pub fn stamp(&self, i: usize) -> u64
        requires { i < length self.now.list.entries }
        ensures { option_map (λ entry. entry.stamp) (slice_get self.now.list.entries i) ≡ Some result }
    {
        self.entries.get(i).stamp
    }

    /// How long the packet at index `i`, which exists, is shown.
    pub fn duration(&self, i: usize) -> Duration
        requires { i < length self.now.list.entries }
        ensures { option_map (λ entry. entry.duration) (slice_get self.now.list.entries i) ≡ Some result }
    {
        self.entries.get(i).duration
    }

    /// The id of the packet at index `i`, which exists.
    pub fn id(&self, i: usize) -> u64
        requires { i < length self.now.list.entries }
        ensures { option_map (λ entry. entry.id) (slice_get self.now.list.entries i) ≡ Some result }
    {
        self.entries.get(i).id
    }

    /// Whether the packet at index `i`, which exists, is marked: its cached outcome may no longer
    /// follow from the packet before it.
    pub fn marked(&self, i: usize) -> bool
        requires { i < length self.now.list.entries }
        ensures { slice_get self.now.marks i ≡ Some result }
    {
        self.marks.get(i)
    }

    /// Marks the packet at index `i`, which exists.
    pub fn set_mark(&mut self, i: usize)
        requires { i < length self.old.list.entries }
        ensures { self.new ≡ record self.old { marks = marked_at i self.old.marks } }
    {
        self.marks.set(i, true);
    }

    /// Removes the mark of the packet at index `i`, which exists.
    pub fn clear_mark(&mut self, i: usize)
        requires { i < length self.old.list.entries }
        ensures { self.new ≡ record self.old { marks = unmarked_at i self.old.marks } }
    {
        self.marks.set(i, false);
    }

    /// The index of the first marked packet from index `from` up to `end`, which is at most the
    /// number of packets; `None` if there is none. No packet is read.
    pub fn next_mark(&self, from: usize, end: usize) -> Option<usize>
        requires { (from ≤ end) × (end ≤ length self.now.list.entries) }
        ensures { IsFirst (flag_at self.now.marks) from end result }
    {
        self.marks.first_in(from, end)
    }

    /// Whether the packet at index `place`, which exists, has a key tag. The packet is not read.
    pub fn has_key_tag(&self, place: usize) -> bool
        requires { place < length self.now.list.entries }
        ensures { result ≡ key_tag_at (stream_of self.now.list) place }
    {
        self.index.keys.get(place)
    }

    /// The index of the first packet with a key tag from index `from` up to `end`, which is at most
    /// the number of packets; `None` if there is none. No packet is read.
    pub fn next_key(&self, from: usize, end: usize) -> Option<usize>
        requires { (from ≤ end) × (end ≤ length self.now.list.entries) }
        ensures { IsFirst (key_tag_at (stream_of self.now.list)) from end result }
    {
        self.index.keys.first_in(from, end)
    }

    /// The index of the last packet with a key tag before index `at`, which is at most the number
    /// of packets; `None` if there is none. No packet is read.
    pub fn last_key(&self, at: usize) -> Option<usize>
        requires { at ≤ length self.now.list.entries }
        ensures { IsLast (key_tag_at (stream_of self.now.list)) 0 at result }
    {
        self.index.keys.last_before(at)
    }

    /// The index of shown packet `n`, counted from 0, or `None` if fewer are shown. A packet is
    /// shown if its tag has the show bit, or if it has fewer than 3 bytes (RFC 6386, section 9.1).
    /// No packet is read: a search makes about 20 comparisons at most.
    pub fn shown(&self, n: u64) -> Option<usize>
        ensures place { result ≡ slice_get (shown_indexes (stream_of self.now.list)) n }
        ensures within { IfSome result (λ place. place < length self.now.list.entries) }
    {
        self.index.shown.place(n)
    }

    /// The number of shown packets before index `at`, which may be any number: all of them, 1,048,576 at most, if it is after the
    /// last packet. No packet is read, and the flags of at most 1,023 are.
    pub fn shown_before(&self, at: usize) -> usize
        ensures { result ≡ length (shown_indexes (take at (stream_of self.now.list))) }
    {
        let end = at.min(self.entries.len());
        self.index.shown.count_before(end) as usize
    }

    /// The number of shown packets.
    pub fn frames(&self) -> usize
        ensures { result ≡ length (shown_indexes (stream_of self.now.list)) }
    {
        self.index.shown.count()
    }

    /// The width and height, in luma samples, in the last packet with a key tag before index `at`.
    /// A packet has a key tag if it has 3 bytes or more and bit 0 of the first is 0. `None` if
    /// there is no such packet, or if it has fewer than 10 bytes, no start code, or a side of 0.
    /// `at` may be any number.
    pub fn size_at(&self, at: u64) -> Option<(u16, u16)>
        ensures { result ≡ size_at at self.now.list }
    {
        let end = at.min(self.entries.len() as u64) as usize;
        let place = self.last_key(end)?;
        key_size(self.entries.get(place).bytes.as_slice())
    }

    /// Writes the packets as an IVF file with this head: version 0, a header of 32 bytes with the
    /// number of packets, and one record per packet. It allocates nothing.
    ///
    /// `Write` if the writer returns an error. How much was written is then not known.
    pub fn save<W: Write>(&self, w: &mut W, head: Head) -> Result<(), WriteFault>
        ensures { OnOk result (Appends (W.contents w.old) (W.contents w.new) (written_text head (packets_of self.now.list))) }
    {
        ivf_start(w, head, self.len() as u32)?;
        write_records(w, &self.entries)
    }

    /// Writes the packets as an IVF file, as [`save`](Store::save) does, with a byte 00 after each packet
    /// whose last token partition is empty. Decoding such a packet is the same with the byte, but players
    /// that use libvpx do not show it without one. It allocates nothing.
    ///
    /// `Write` if the writer returns an error. How much was written is then not known.
    pub fn save_padded<W: Write>(&self, w: &mut W, head: Head) -> Result<(), WriteFault>
        ensures { OnOk result (Appends (W.contents w.old) (W.contents w.new) (written_text head (padded_packets_of self.now.list))) }
    {
        ivf_start(w, head, self.len() as u32)?;
        write_padded_records(w, &self.entries)
    }

    /// Writes the packets as an IVF file with new time stamps, in the units of its head: the first shown packet has time
    /// stamp 0, and each other one the time after the shown packets before it, or one more than the time stamp before it if that is
    /// greater, at most 18,446,744,073,709,551,615. For the time the units of the durations are summed for each time base, and each sum is
    /// rounded half up. A hidden packet has the time stamp of the next shown one. With `pads` packets are padded as in
    /// [`save_padded`](Store::save_padded).
    ///
    /// `Write` if the writer returns an error, and `NoMemory` if memory for the sums of the time bases is refused. How much was written is
    /// then not known.
    pub fn save_restamped<W: Write>(
        &self,
        w: &mut W,
        head: Head,
        pads: bool,
    ) -> Result<(), RestampFault>
        ensures { OnOk result (Appends (W.contents w.old) (W.contents w.new) (written_text head (restamped pads head self.now.list.entries))) }
    {
        let Ok(()) = ivf_start(w, head, self.len() as u32) else {
            return Err(RestampFault::Write);
        };
        write_restamped_records(w, self.alloc, &self.entries, head, pads)
    }
}

/// Appends to a list of marks that these packets have none. If memory is refused, nothing changes.
fn push_marks(marks: &mut FlagIndex, packets: &Packets) -> Result<(), NoMemory>
    requires { length marks.old + length packets.now ≤ 1048576 }
    ensures { marks.new ≡ (if is_ok result then marks_pushed packets.now marks.old else marks.old) }
{
    let len = marks.len();
    for _packet in packets.as_slice() {
        if marks.push(false).is_err() {
            marks.truncate(len);
            return Err(NoMemory);
        }
    }
    Ok(())
}

/// Appends these packets to a list, with ids starting at `first_id`. If memory is refused, nothing
/// changes.
fn push_entries(
    alloc: Global,
    entries: &mut ChunkedList<Entry>,
    first_id: u64,
    usual: Duration,
    packets: Packets,
) -> Result<(), NoMemory>
    requires { first_id + length packets < 2 ^ 64 }
    ensures { entries.new ≡ (if is_ok result then entries.old ++ numbered usual first_id packets else entries.old) }
{
    let len = entries.len();
    let durations = durations_of(alloc, usual, packets.as_slice())?;
    let mut id = first_id;
    for packet in packets.into_vec() {
        let entry = Entry {
            id,
            stamp: packet.stamp,
            duration: durations[(id - first_id) as usize],
            bytes: packet.bytes,
        };
        let Ok(()) = entries.push(entry) else {
            entries.truncate(len);
            return Err(NoMemory);
        };
        id += 1;
    }
    Ok(())
}
