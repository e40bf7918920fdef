//! The facts of one packet after another.

ghost use Rattle.std.specs.Prelude.{◌≡◌, ◌+◌, ◌<◌, ◌≤◌, ◌^◌, false, true};
ghost use Rattle.stream_facts.specs.Facts.{end_of_record, facts_of, first_key_size, first_position, follows_after, header_facts, position_after};

use frame_header::{
    Cause, Outline, Tag, has_key_tag, is_shown, key_scales, key_size, read_outline, tag,
};
use stream_files::Packet;

/// The length of a record's head.
const HEAD: usize = 12;

/// The facts of a packet.
#[derive(Drop)]
pub struct Facts {
    /// The index of the packet.
    pub packet: usize,
    /// The index of the frame that it is shown as; `None` if it is hidden.
    pub frame: Option<usize>,
    /// The time stamp, in units of the file's `scale / rate` seconds.
    pub stamp: u64,
    /// The length in bytes.
    pub bytes: usize,
    /// The byte of the file at which the packet's bytes begin, at most 18,446,744,073,709,551,615.
    pub byte: usize,
    /// The tag; `None` with fewer than 3 bytes.
    pub tag: Option<Tag>,
    /// The width and height of a key packet; `None` if it has none, or for any other packet.
    pub size: Option<(u16, u16)>,
    /// The horizontal and vertical scale of a key packet with a size, 0 to 3 each; `None` for any other.
    pub scales: Option<(u8, u8)>,
    /// The fields of the header, or the first cause against it. A packet of no bytes repeats the
    /// frame before it and has none.
    pub header: Result<Option<Outline>, Cause>,
    /// Decoding refuses the packet because of an earlier one.
    pub is_lost: bool,
}

/// A position between two packets of a stream: the number of packets and of shown packets before
/// it, the byte of the file at which the next record begins, whether a header before it was accepted,
/// and whether the packets after it are lost up to the next key tag.
#[derive(Clone, Copy)]
pub struct Position {
    packets: usize,
    frames: usize,
    begins: usize,
    follows: bool,
    is_broken: bool,
}

impl Position {
    /// The position before the first packet, whose record begins at this byte of the file.
    pub fn first(begins: usize) -> Position
        ensures { result ≡ first_position begins }
    {
        Position {
            packets: 0,
            frames: 0,
            begins,
            follows: false,
            is_broken: false,
        }
    }

    /// The number of packets before it.
    pub fn packets(self) -> usize
        ensures { result ≡ self.packets }
    {
        self.packets
    }

    /// Reads the outline of a packet's header, after which packets without a key tag may follow.
    fn read(&mut self, bytes: &[u8]) -> Result<Option<Outline>, Cause>
        ensures header { result ≡ header_facts self.old.follows bytes.now }
        ensures follows { self.new.follows ≡ follows_after self.old.follows bytes.now }
        ensures packets { self.new.packets ≡ self.old.packets }
        ensures frames { self.new.frames ≡ self.old.frames }
        ensures begins { self.new.begins ≡ self.old.begins }
        ensures is_broken { self.new.is_broken ≡ self.old.is_broken }
    {
        if bytes.is_empty() {
            return if self.follows {
                Ok(None)
            } else {
                Err(Cause::NoKeyFrame)
            };
        }
        let outline = read_outline(self.follows, bytes)?;
        self.follows = true;
        Ok(Some(outline))
    }

    /// The position after a packet with a key tag whose header is accepted: the number of packets and of shown packets up to
    /// it, it among them, and the byte at which the record after it begins.
    pub fn after_key(packets: usize, frames: usize, begins: usize) -> Position
        ensures { result ≡ record { packets = packets; frames = frames; begins = begins; follows = true; is_broken = false } }
    {
        Position {
            packets,
            frames,
            begins,
            follows: true,
            is_broken: false,
        }
    }

    /// The facts of the next packet; the position is then after it.
    pub fn next(&mut self, packet: &Packet) -> Facts
        requires room { self.old.packets + 1 < 2 ^ 64 }
        requires frames { self.old.frames ≤ self.old.packets }
        ensures facts { result ≡ facts_of self.old packet.now }
        ensures after { self.new ≡ position_after self.old packet.now }
        ensures frames { self.new.frames ≤ self.new.packets }
    {
        self.next_of(packet.stamp, packet.bytes.as_slice())
    }

    /// The facts of the next packet, which has this time stamp and these bytes; the position is then after it.
    pub fn next_of(&mut self, stamp: u64, bytes: &[u8]) -> Facts
        requires room { self.old.packets + 1 < 2 ^ 64 }
        requires frames { self.old.frames ≤ self.old.packets }
        ensures facts { result ≡ facts_of self.old (record { stamp = stamp; bytes = bytes.now }) }
        ensures after { self.new ≡ position_after self.old (record { stamp = stamp; bytes = bytes.now }) }
        ensures frames { self.new.frames ≤ self.new.packets }
    {
        let is_lost = self.is_broken && !has_key_tag(bytes);
        let header = self.read(bytes);
        let is_shown = is_shown(bytes);
        let frame = if is_shown { Some(self.frames) } else { None };
        let number = self.packets;
        let byte = self.begins.saturating_add(HEAD);
        self.packets += 1;
        self.frames += usize::from(is_shown);
        self.begins = end_of_record(self.begins, bytes);
        self.is_broken = is_lost || header.is_err();
        Facts {
            packet: number,
            frame,
            stamp,
            bytes: bytes.len(),
            byte,
            tag: tag(bytes),
            size: key_size(bytes),
            scales: key_scales(bytes),
            header,
            is_lost,
        }
    }
}

/// The byte after the record of a packet with these bytes, which begins at this byte; at most 18,446,744,073,709,551,615.
pub fn end_of_record(begins: usize, bytes: &[u8]) -> usize
    ensures { result ≡ end_of_record begins bytes.now }
{
    begins.saturating_add(HEAD).saturating_add(bytes.len())
}

/// The width and height of the first packet that has a key frame's start with a size (RFC 6386, section 9.1).
pub fn first_key_size(packets: &[Packet]) -> Option<(u16, u16)>
    ensures { result ≡ first_key_size packets.now }
{
    for packet in packets {
        if let Some(size) = key_size(packet.bytes.as_slice()) {
            return Some(size);
        }
    }
    None
}
