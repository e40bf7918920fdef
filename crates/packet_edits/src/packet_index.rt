ghost use Rattle.std.specs.Prelude.{◌≡◌, ◌+◌, ◌<◌, ◌≤◌, [], is_ok, if◌then◌else◌, length};

use crate::flag_index::FlagIndex;
use frame_header::{has_key_tag, is_shown};
use pixel_planes::NoMemory;
use std::alloc::Global;
use stream_files::Packets;

/// Which packets are shown, and which have a key tag.
#[derive(Drop)]
pub struct PacketIndex {
    pub shown: FlagIndex,
    pub keys: FlagIndex,
}

impl PacketIndex {
    ghost use Rattle.packet_edits.specs.Indexes.{appended_to, inserted_to, kept_of, moved_in, pushed_to, removed_from, set_in};

    /// The index of no packets.
    pub fn new(alloc: Global) -> PacketIndex
        ensures { result ≡ record { shown = []; keys = [] } }
    {
        PacketIndex {
            shown: FlagIndex::new(alloc),
            keys: FlagIndex::new(alloc),
        }
    }

    /// Replaces the packet at index `at`.
    pub fn set(&mut self, at: usize, packet: &[u8])
        requires { (at < length self.old.shown) × (at < length self.old.keys) }
        ensures { self.new ≡ set_in at packet.now self.old }
    {
        self.shown.set(at, is_shown(packet));
        self.keys.set(at, has_key_tag(packet));
    }

    /// Inserts a packet at index `at`. If memory is refused, nothing changes.
    pub fn insert(&mut self, at: usize, packet: &[u8]) -> Result<(), NoMemory>
        requires places { (at ≤ length self.old.shown) × (at ≤ length self.old.keys) }
        requires few { (length self.old.shown < 1048576) × (length self.old.keys < 1048576) }
        ensures { self.new ≡ (if is_ok result then inserted_to at packet.now self.old else self.old) }
    {
        self.shown.insert(at, is_shown(packet))?;
        if self.keys.insert(at, has_key_tag(packet)).is_err() {
            self.shown.remove(at);
            return Err(NoMemory);
        }
        Ok(())
    }

    /// Removes the packet at index `at`.
    pub fn remove(&mut self, at: usize)
        requires { (at < length self.old.shown) × (at < length self.old.keys) }
        ensures { self.new ≡ removed_from at self.old }
    {
        self.shown.remove(at);
        self.keys.remove(at);
    }

    /// Moves the packet at index `from` to index `to`.
    pub fn move_to(&mut self, from: usize, to: usize)
        requires shown { (from < length self.old.shown) × (to < length self.old.shown) }
        requires keys { (from < length self.old.keys) × (to < length self.old.keys) }
        ensures { self.new ≡ moved_in from to self.old }
    {
        self.shown.move_to(from, to);
        self.keys.move_to(from, to);
    }

    /// Keeps the first `len` packets.
    pub fn truncate(&mut self, len: usize)
        ensures { self.new ≡ kept_of len self.old }
    {
        self.shown.truncate(len);
        self.keys.truncate(len);
    }

    /// Appends packets. If memory is refused, nothing changes.
    pub fn push_all(&mut self, packets: &Packets) -> Result<(), NoMemory>
        requires few { (length self.old.shown + length packets.now ≤ 1048576) × (length self.old.keys + length packets.now ≤ 1048576) }
        requires same { length self.old.shown ≡ length self.old.keys }
        ensures { self.new ≡ (if is_ok result then appended_to packets.now self.old else self.old) }
    {
        let len = self.shown.len();
        for packet in packets.as_slice() {
            if self.push(packet.bytes.as_slice()).is_err() {
                self.truncate(len);
                return Err(NoMemory);
            }
        }
        Ok(())
    }

    /// Appends a packet. If memory is refused, nothing changes.
    fn push(&mut self, packet: &[u8]) -> Result<(), NoMemory>
        requires few { (length self.old.shown < 1048576) × (length self.old.keys < 1048576) }
        requires same { length self.old.shown ≡ length self.old.keys }
        ensures { self.new ≡ (if is_ok result then pushed_to packet.now self.old else self.old) }
    {
        let len = self.shown.len();
        self.shown.push(is_shown(packet))?;
        if self.keys.push(has_key_tag(packet)).is_err() {
            self.shown.truncate(len);
            return Err(NoMemory);
        }
        Ok(())
    }
}
