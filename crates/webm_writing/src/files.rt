// Writes whole files.
ghost use Rattle.std.specs.Prelude.{◌≡◌, ◌+◌, ◌^◌, ◌<◌, ◌≤◌, length, map, OnOk};
ghost use Rattle.std.specs.Io.KnownBytes.{Appends};
ghost use Rattle.webm_writing.specs.Fitting.{FileFits, PartsFit};
ghost use Rattle.webm_writing.specs.Pieces.{piece_text, text_of};
ghost use Rattle.webm_writing.specs.Written.{header, part_piece, webm_text};

use super::clusters::write_clusters;
use super::heads::{write_open, write_part};
use super::indexes::{write_cues, write_index};
use super::samples::{Part, Sample};
use super::sizes::{clusters_size, cues_size, index_size, parts_size};
use std::io::{self, Write};

/// The name of everything after the header.
const SEGMENT: u32 = 0x1853_8067;

/// The header: EBML with EBMLVersion 1, EBMLReadVersion 1, EBMLMaxIDLength 4, EBMLMaxSizeLength 8, DocType `webm`, DocTypeVersion 4
/// and DocTypeReadVersion 2.
const HEADER: [u8; 60] = [
    0x1A, 0x45, 0xDF, 0xA3, 0x10, 0, 0, 52, 0x42, 0x86, 0x10, 0, 0, 1, 1, 0x42, 0xF7, 0x10, 0, 0,
    1, 1, 0x42, 0xF2, 0x10, 0, 0, 1, 4, 0x42, 0xF3, 0x10, 0, 0, 1, 8, 0x42, 0x82, 0x10, 0, 0, 4,
    b'w', b'e', b'b', b'm', 0x42, 0x87, 0x10, 0, 0, 1, 4, 0x42, 0x85, 0x10, 0, 0, 1, 2,
];

/// Writes the header.
fn write_header<W: Write>(w: &mut W) -> io::Result<()>
    ensures { OnOk result (Appends (W.contents w.old) (W.contents w.new) (piece_text header)) }
{
    w.write_all(&HEADER)
}

/// Writes parts.
fn write_parts<W: Write>(w: &mut W, parts: &[Part]) -> io::Result<()>
    requires { PartsFit parts.now }
    ensures { OnOk result (Appends (W.contents w.old) (W.contents w.new) (text_of (map part_piece parts.now))) }
{
    for part in parts {
        write_part(w, part)?;
    }
    Ok(())
}

/// Writes a WebM file (RFC 8794, RFC 9559): the EBML header, and a Segment with a SeekHead, the parts in their order, clusters with the
/// samples in their order, and Cues. Every length is known before it is written, so nothing is sought and nothing is allocated.
///
/// A part is Info, Tracks, Tags, Chapters or Attachments, and a part may come more than once; its content is written as it is. A cluster begins with each sample at
/// which decoding can begin, and with one whose time is before that of the cluster or more than `most` units after it; `most` is below 32,768. Cues has the clusters
/// that begin with a sample at which decoding can begin.
///
/// An error is that of the writer; a part of the file may have been written.
pub fn write_webm<W: Write>(
    w: &mut W,
    parts: &[Part],
    most: u64,
    samples: &[Sample],
) -> io::Result<()>
    requires { FileFits (record { parts = parts.now; most = most; samples = samples.now }) }
    ensures { OnOk result (Appends (W.contents w.old) (W.contents w.new) (webm_text (record { parts = parts.now; most = most; samples = samples.now }))) }
{
    let first = index_size(parts.len() + 1);
    let clusters = first + parts_size(parts);
    let cues = clusters + clusters_size(samples, most);
    write_header(w)?;
    write_open(w, SEGMENT, cues + 8 + cues_size(samples, most))?;
    write_index(w, first, parts, cues)?;
    write_parts(w, parts)?;
    write_clusters(w, most, samples)?;
    write_cues(w, clusters, most, samples)
}
