// The lengths of elements before they are written.
ghost use Rattle.std.specs.Prelude.{◌≡◌, ℕ, ◌+◌, ◌-◌, ◌^◌, ◌<◌, ◌≤◌, count_by, length, map, min};
ghost use Rattle.webm_writing.specs.Fitting.{SamplesFit};
ghost use Rattle.webm_writing.specs.Pieces.{piece_text, text_of};
ghost use Rattle.webm_writing.specs.Written.{clusters_in, cues_from, groups, index_size, part_piece};

use super::clusters::{cluster_bytes, group_end};
use super::samples::{Part, Sample};

/// The number of bytes of a part.
pub(crate) fn part_size(part: &Part) -> u64
    requires { length part.now.content + 8 < 2 ^ 64 }
    ensures { result ≡ length (piece_text (part_piece part.now)) }
{
    8 + part.content.as_slice().len() as u64
}

/// The number of bytes of parts.
pub(crate) fn parts_size(parts: &[Part]) -> u64
    requires { length (text_of (map part_piece parts.now)) < 2 ^ 64 }
    ensures { result ≡ length (text_of (map part_piece parts.now)) }
{
    let mut size = 0;
    for part in parts {
        size += part_size(part);
    }
    size
}

/// The number of bytes of the index of so many elements.
pub(crate) fn index_size(count: usize) -> u64
    requires { count < 2 ^ 32 }
    ensures { result ≡ index_size count }
{
    8 + 30 * count as u64
}

/// The number of bytes of the clusters of samples; 2^64 - 1 if there are more.
pub(crate) fn clusters_size(samples: &[Sample], most: u64) -> u64
    requires { SamplesFit samples.now }
    ensures { result ≡ min (length (text_of (clusters_in most samples.now))) (2 ^ 64 - 1) }
{
    let mut rest = samples;
    let mut size: u64 = 0;
    'clusters: while !rest.is_empty() {
        let (group, others) = rest.split_at(group_end(rest, most));
        size = size.saturating_add(12).saturating_add(cluster_bytes(group));
        rest = others;
    }
    size
}

/// The number of samples at which decoding can begin.
pub(crate) fn count_keys(samples: &[Sample]) -> usize
    ensures { result ≡ count_by (λ sample. sample.is_key) samples.now }
{
    samples.iter().filter(|sample| sample.is_key).count()
}

/// The number of bytes of the content of the cues: each sample at which decoding can begin begins a cluster, and has an entry of 42 bytes.
pub(crate) fn cues_size(samples: &[Sample], most: u64) -> u64
    requires { length (cues_from 0 (groups most samples.now)) < 2 ^ 32 }
    ensures { (at : ℕ) → result ≡ length (cues_from at (groups most samples.now)) }
{
    42 * count_keys(samples) as u64
}
