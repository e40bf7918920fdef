// Writes the index of the parts, and that of the clusters.
ghost use Rattle.std.specs.Prelude.{◌≡◌, ◌+◌, ◌^◌, ◌<◌, ◌≤◌, ◌++◌, length, map, OnOk};
ghost use Rattle.std.specs.Io.KnownBytes.{Appends};
ghost use Rattle.webm_writing.specs.Fitting.{SamplesFit};
ghost use Rattle.webm_writing.specs.Pieces.{piece_text, text_of};
ghost use Rattle.webm_writing.specs.Written.{clusters_in, cue, cue_of, cues_from, groups, part_piece, seek, seeks_from, whole};

use super::clusters::{cluster_bytes, group_end};
use super::heads::write_head;
use super::samples::{Part, Sample};
use super::sizes::{cues_size, part_size};
use byteorder::{BigEndian, WriteBytesExt};
use std::io::{self, Write};

/// The name of the index of the parts, SeekHead, and of that of the clusters, Cues.
const SEEK_HEAD: u32 = 0x114D_9B74;

pub(crate) const CUES: u32 = 0x1C53_BB6B;

/// The head of Seek, with 24 bytes, and that of SeekID in it, with 4.
const SEEK: [u8; 12] = [0x4D, 0xBB, 0x10, 0, 0, 24, 0x53, 0xAB, 0x10, 0, 0, 4];
/// The head of SeekPosition, with 8 bytes.
const SEEK_POSITION: [u8; 6] = [0x53, 0xAC, 0x10, 0, 0, 8];

/// The head of CuePoint, with 37 bytes, and that of CueTime in it, with 8.
const CUE: [u8; 10] = [0xBB, 0x10, 0, 0, 37, 0xB3, 0x10, 0, 0, 8];
/// The head of CueTrackPositions, with 19 bytes, and that of CueTrack in it, with 1.
const CUE_TRACK: [u8; 10] = [0xB7, 0x10, 0, 0, 19, 0xF7, 0x10, 0, 0, 1];
/// The head of CueClusterPosition, with 8 bytes.
const CUE_POSITION: [u8; 5] = [0xF1, 0x10, 0, 0, 8];

/// Writes the entry of the index for an element of this name at this position.
fn write_seek<W: Write>(w: &mut W, id: u32, at: u64) -> io::Result<()>
    ensures { OnOk result (Appends (W.contents w.old) (W.contents w.new) (seek id at)) }
{
    w.write_all(&SEEK)?;
    w.write_u32::<BigEndian>(id)?;
    w.write_all(&SEEK_POSITION)?;
    w.write_u64::<BigEndian>(at)
}

/// Writes the entries of parts that begin at a position.
fn write_seeks<W: Write>(w: &mut W, first: u64, parts: &[Part]) -> io::Result<()>
    requires { first + length (text_of (map part_piece parts.now)) < 2 ^ 64 }
    ensures { OnOk result (Appends (W.contents w.old) (W.contents w.new) (seeks_from first (map part_piece parts.now))) }
{
    let mut at = first;
    for part in parts {
        write_seek(w, part.id, at)?;
        at += part_size(part);
    }
    Ok(())
}

/// Writes the index of parts, which begin at a position, and of the cues, which begin at another one.
pub(crate) fn write_index<W: Write>(
    w: &mut W,
    first: u64,
    parts: &[Part],
    cues: u64,
) -> io::Result<()>
    requires few { length parts.now < 2 ^ 20 }
    requires size { first + length (text_of (map part_piece parts.now)) < 2 ^ 64 }
    ensures { OnOk result (Appends (W.contents w.old) (W.contents w.new)
        (piece_text (whole 0x114D9B74 4 (seeks_from first (map part_piece parts.now) ++ seek 0x1C53BB6B cues)))) }
{
    write_head(w, SEEK_HEAD, 30 * (parts.len() + 1) as u32)?;
    write_seeks(w, first, parts)?;
    write_seek(w, CUES, cues)
}

/// Writes the entry of a cluster at this position, for a track and a time.
fn write_cue<W: Write>(w: &mut W, track: u8, stamp: u64, at: u64) -> io::Result<()>
    ensures { OnOk result (Appends (W.contents w.old) (W.contents w.new) (cue track stamp at)) }
{
    w.write_all(&CUE)?;
    w.write_u64::<BigEndian>(stamp)?;
    w.write_all(&CUE_TRACK)?;
    w.write_u8(track)?;
    w.write_all(&CUE_POSITION)?;
    w.write_u64::<BigEndian>(at)
}

/// Writes the entry of a cluster at this position, if decoding can begin there.
fn write_cue_of<W: Write>(w: &mut W, at: u64, group: &[Sample]) -> io::Result<()>
    ensures { OnOk result (Appends (W.contents w.old) (W.contents w.new) (cue_of at group.now)) }
{
    match group.first() {
        Some(first) if first.is_key => write_cue(w, first.track, first.stamp, at),
        _ => Ok(()),
    }
}

/// Writes the entries of the clusters of samples, which begin at a position.
#[tactic(auto, using(crate::proofs::Indexed::cues_end))]
fn write_cues_from<W: Write>(w: &mut W, first: u64, most: u64, samples: &[Sample]) -> io::Result<()>
    requires samples { SamplesFit samples.now }
    requires clusters { length (text_of (clusters_in most samples.now)) < 2 ^ 56 }
    requires first { first < 2 ^ 63 }
    ensures { OnOk result (Appends (W.contents w.old) (W.contents w.new) (cues_from first (groups most samples.now))) }
{
    let mut rest = samples;
    let mut at = first;
    'cues: while !rest.is_empty() {
        let (group, others) = rest.split_at(group_end(rest, most));
        write_cue_of(w, at, group)?;
        at += 12 + cluster_bytes(group);
        rest = others;
    }
    Ok(())
}

/// Writes the index of the clusters of samples, which begin at a position.
pub(crate) fn write_cues<W: Write>(
    w: &mut W,
    first: u64,
    most: u64,
    samples: &[Sample],
) -> io::Result<()>
    requires samples { SamplesFit samples.now }
    requires clusters { length (text_of (clusters_in most samples.now)) < 2 ^ 56 }
    requires first { first < 2 ^ 63 }
    requires few { length (cues_from 0 (groups most samples.now)) + 1 < 2 ^ 28 }
    ensures { OnOk result (Appends (W.contents w.old) (W.contents w.new) (piece_text (whole 0x1C53BB6B 4 (cues_from first (groups most samples.now))))) }
{
    write_head(w, CUES, cues_size(samples, most) as u32)?;
    write_cues_from(w, first, most, samples)
}
