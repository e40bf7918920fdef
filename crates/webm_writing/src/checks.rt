// Whether a file can be written.
ghost use Rattle.std.specs.Prelude.{◌≡◌, ◌-◌, ◌^◌, ◌<◌, ◌↔◌, IsTrue, length, min};
ghost use Rattle.std.specs.List.{list_all};
ghost use Rattle.webm_writing.specs.Fitting.{FileFits, PartsFit, SamplesFit};
ghost use Rattle.webm_writing.specs.Tests.{each_fits, is_name, part_fits, sample_fits};
ghost use Rattle.webm_writing.specs.Written.{cues_from, groups, webm_text};

use super::samples::{Part, Sample};
use super::sizes::{clusters_size, count_keys, cues_size, index_size, parts_size};

/// The names of four bytes of elements that are neither read as elements nor blocks: EBML, SeekHead, Info, Tracks, Chapters, Cues, Attachments
/// and Tags.
pub const NAMES: [u32; 8] = [
    0x1A45_DFA3,
    0x114D_9B74,
    0x1549_A966,
    0x1654_AE6B,
    0x1043_A770,
    0x1C53_BB6B,
    0x1941_A469,
    0x1254_C367,
];

/// Whether a part can have this name.
fn is_name(id: u32) -> bool
    ensures { result ≡ is_name id }
{
    NAMES.contains(&id)
}

/// Whether a part can be written.
fn part_fits(part: &Part) -> bool
    ensures { result ≡ part_fits part.now }
{
    is_name(part.id) && part.content.as_slice().len() < 268_435_455
}

/// Whether a sample can be written.
fn sample_fits(sample: &Sample) -> bool
    ensures value { result ≡ sample_fits sample.now }
    ensures stamp { sample.now.stamp < 2 ^ 64 }
{
    // A proof knows the range of a field that is read.
    let _stamp = sample.stamp;
    sample.track < 127 && sample.bytes.as_slice().len() < 72_057_594_037_927_931
}

/// Whether parts can be written.
fn parts_fit(parts: &[Part]) -> bool
    ensures { result ≡ list_all part_fits parts.now }
{
    parts.iter().all(|part| part_fits(part))
}

/// Whether samples can be written.
fn samples_fit(samples: &[Sample]) -> bool
    ensures { IsTrue result ↔ SamplesFit samples.now }
{
    for sample in samples {
        if !sample_fits(sample) {
            return false;
        }
    }
    true
}

/// Whether a file can be written but for its samples and its length.
fn each_fits(parts: &[Part], most: u64, samples: &[Sample]) -> bool
    ensures { result ≡ each_fits (record { parts = parts.now; most = most; samples = samples.now }) }
{
    parts_fit(parts) && most < 32_768 && parts.len() < 1_048_576 && count_keys(samples) < 6_391_321
}

/// The number of bytes of a file; 2^64 - 1 if there are more.
fn file_size(parts: &[Part], most: u64, samples: &[Sample]) -> u64
    requires few { length parts.now < 2 ^ 20 }
    requires parts { PartsFit parts.now }
    requires samples { SamplesFit samples.now }
    requires cues { length (cues_from 0 (groups most samples.now)) < 2 ^ 32 }
    ensures { result ≡ min (length (webm_text (record { parts = parts.now; most = most; samples = samples.now }))) (2 ^ 64 - 1) }
{
    let others = 80 + index_size(parts.len() + 1) + parts_size(parts) + cues_size(samples, most);
    clusters_size(samples, most).saturating_add(others)
}

/// Whether a file can be written: each part is EBML, SeekHead, Info, Tracks, Chapters, Cues, Attachments or Tags and has fewer than 268,435,455 bytes, and there are
/// fewer than 1,048,576; each track has a number below 127, and each sample fewer than 2^56 - 5 bytes; `most` is below 32,768; Cues has fewer than
/// 268,435,455 bytes, and the file fewer than 2^56 - 1.
pub fn fits(parts: &[Part], most: u64, samples: &[Sample]) -> bool
    ensures { IsTrue result ↔ FileFits (record { parts = parts.now; most = most; samples = samples.now }) }
{
    if !each_fits(parts, most, samples) {
        return false;
    }
    if !samples_fit(samples) {
        return false;
    }
    file_size(parts, most, samples) < 72_057_594_037_927_935
}
