//! The text of a file's frames.

ghost use Rattle.std.specs.Prelude.{◌≡◌, ◌+◌, ◌^◌, ◌<◌, ◌||◌, [], Err, IfErr, OnErr, OnOk, Some, if◌then◌else◌, is_some};
ghost use Rattle.std.specs.Io.KnownBytes.{Appends};
ghost use Rattle.stream_checks.specs.Hashes.{IsHashFault, IsHashed, added_by};
ghost use Rattle.stream_steps.specs.Decoding.{left_by, outcome};
ghost use Rattle.stream_checks.specs.Frames.{frame_of};
ghost use Rattle.stream_checks.specs.HashLines.{head_lines};

use crate::decoding::Decoding;
use crate::hash_lines::{write_head, write_line};
use crate::progress::Watch;
use crate::time_bases::{TimeBase, time_base};
use pixel_planes::Picture;
use std::alloc::Global;
use std::io::Write;
use stream_files::{Packet, Stream, WriteFault};
use thiserror::Error;
use vp8_tables::Tables;

/// Why the text was not written whole.
#[derive(Clone, Copy, Debug, PartialEq, Eq, Error)]
pub enum HashFault {
    /// Memory was refused.
    #[error("memory was refused")]
    NoMemory,
    /// The writer returned an error.
    #[error("the writer returned an error")]
    Write,
}

/// The text of frames that is being written.
#[derive(Drop)]
struct Writing {
    base: TimeBase,
    // Whether a frame was written.
    has_begun: bool,
    decoding: Decoding,
}

impl Writing {
    /// Writes the lines before the first frame, unless a frame was written.
    fn write_head_once<W: Write>(&self, w: &mut W, width: u16, height: u16) -> Result<(), HashFault>
        ensures head { OnOk result (Appends (W.contents w.old) (W.contents w.new) (if self.now.has_begun then [] else head_lines self.now.base width height)) }
        ensures fault { OnErr result (result ≡ Err HashFault.Write) }
    {
        if self.has_begun {
            return Ok(());
        }
        match write_head(w, self.base, width, height) {
            Ok(()) => Ok(()),
            Err(WriteFault::Write) => Err(HashFault::Write),
        }
    }

    /// Writes the line of a frame, after the lines before the first one.
    fn write_frame<W: Write>(
        &self,
        w: &mut W,
        stamp: u64,
        picture: &Picture,
    ) -> Result<(), HashFault>
        ensures added { OnOk result (Appends (W.contents w.old) (W.contents w.new) (added_by self.now.base self.now.has_begun (Some (record { stamp = stamp; picture = picture.now })))) }
        ensures fault { OnErr result (result ≡ Err HashFault.Write) }
    {
        self.write_head_once(w, picture.width(), picture.height())?;
        match write_line(w, stamp, picture) {
            Ok(()) => Ok(()),
            Err(WriteFault::Write) => Err(HashFault::Write),
        }
    }

    /// Decodes a packet, and writes the line of its frame, if it has one.
    fn add<W: Write>(
        &mut self,
        w: &mut W,
        tables: &Tables,
        packet: &Packet,
    ) -> Result<(), HashFault>
        requires { self.old.decoding.place + 1 < 2 ^ 64 }
        ensures added { OnOk result (Appends (W.contents w.old) (W.contents w.new)
            (added_by self.old.base self.old.has_begun (frame_of packet.now (outcome tables.now self.old.decoding.place self.old.decoding.progress packet.now.bytes)))) }
        ensures begun { OnOk result (self.new.has_begun ≡ (self.old.has_begun || is_some (frame_of packet.now (outcome tables.now self.old.decoding.place self.old.decoding.progress packet.now.bytes)))) }
        ensures base { OnOk result (self.new.base ≡ self.old.base) }
        ensures place { OnOk result (self.new.decoding.place ≡ self.old.decoding.place + 1) }
        ensures progress { OnOk result (self.new.decoding.progress ≡ left_by (outcome tables.now self.old.decoding.place self.old.decoding.progress packet.now.bytes)) }
        ensures memory { result ≡ Err HashFault.NoMemory → W.contents w.new ≡ W.contents w.old }
    {
        let Ok(shown) = self.decoding.next(tables, packet) else {
            return Err(HashFault::NoMemory);
        };
        let Some(picture) = shown else {
            return Ok(());
        };
        self.write_frame(w, packet.stamp, &picture)?;
        self.has_begun = true;
        self.decoding.put(picture);
        Ok(())
    }
}

/// Writes the MD5 of each shown frame of a file that decodes, as ffmpeg's muxer `framemd5` does.
/// Each packet is decoded once, and no sample is copied. `progress` is called after each packet.
///
/// A packet that is hidden, or that does not decode, has no line.
///
/// `NoMemory` if memory for decoding was refused; the front of the text is then written. `Write` if
/// the writer returns an error; part of the text may have been written.
pub fn write_hashes<W: Write, G: Watch>(
    w: &mut W,
    alloc: Global,
    tables: &Tables,
    file: &Stream,
    progress: &mut G,
) -> Result<(), HashFault>
    ensures hashed { OnOk result (IsHashed tables.now file.now (W.contents w.old) (W.contents w.new)) }
    ensures fault { IfErr result (IsHashFault tables.now file.now (W.contents w.old) (W.contents w.new)) }
{
    let mut writing = Writing {
        base: time_base(file.head),
        has_begun: false,
        decoding: Decoding::new(alloc),
    };
    for packet in file.packets.as_slice() {
        if let Err(fault) = writing.add(w, tables, packet) {
            return Err(fault);
        }
        progress.packet_done(file.packets.len());
    }
    writing.write_head_once(w, file.head.width, file.head.height)?;
    Ok(())
}
