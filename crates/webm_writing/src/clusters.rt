// Writes clusters.
ghost use Rattle.std.specs.Prelude.{◌≡◌, ◌+◌, ◌-◌, ◌^◌, ◌<◌, ◌≤◌, ◌∷◌, not, drop, length, map, min, take, OnOk};
ghost use Rattle.std.specs.Io.KnownBytes.{Appends};
ghost use Rattle.std.specs.List.{prefix_len};
ghost use Rattle.webm_writing.specs.Fitting.{AllStay, GroupFits, SamplesFit};
ghost use Rattle.webm_writing.specs.Pieces.{text_of};
ghost use Rattle.webm_writing.specs.Written.{begins, block_bytes, block_piece, cluster_bytes, cluster_pieces, clusters_in, groups};

use super::heads::{write_block, write_open, write_time};
use super::samples::Sample;
use std::io::{self, Write};

/// The name of a cluster.
const CLUSTER: u32 = 0x1F43_B675;

/// Whether a sample begins a cluster after one with this time.
fn begins(most: u64, base: u64, sample: &Sample) -> bool
    ensures { result ≡ begins most base sample.now }
{
    sample.is_key || sample.stamp < base || sample.stamp - base > most
}

/// The number of samples that stay in a cluster with this time.
pub(crate) fn staying(samples: &[Sample], most: u64, base: u64) -> usize
    ensures value { result ≡ prefix_len (λ next. not (begins most base next)) samples.now }
    ensures within { result ≤ length samples.now }
{
    samples
        .iter()
        .take_while(|next| !begins(most, base, next))
        .count()
}

/// The number of samples of the first cluster.
pub(crate) fn group_end(samples: &[Sample], most: u64) -> usize
    requires { 0 < length samples.now }
    ensures groups { groups most samples.now ≡ take result samples.now ∷ groups most (drop result samples.now) }
    ensures least { 0 < result }
    ensures within { result ≤ length samples.now }
{
    match samples.split_first() {
        Some((first, others)) => 1 + staying(others, most, first.stamp),
        None => 0,
    }
}

/// The number of bytes of a block.
fn block_bytes(sample: &Sample) -> u64
    requires { length sample.now.bytes + 5 < 2 ^ 56 }
    ensures { result ≡ block_bytes sample.now }
{
    let size = 4 + sample.bytes.as_slice().len() as u64;
    if size + 1 < 268_435_456 {
        size + 5
    } else {
        size + 9
    }
}

/// The number of bytes of the content of a cluster; 2^64 - 1 if there are more.
pub(crate) fn cluster_bytes(samples: &[Sample]) -> u64
    requires { SamplesFit samples.now }
    ensures { result ≡ min (cluster_bytes samples.now) (2 ^ 64 - 1) }
{
    let mut size: u64 = 13;
    for sample in samples {
        size = size.saturating_add(block_bytes(sample));
    }
    size
}

/// Writes the packets of a cluster with this time.
fn write_blocks<W: Write>(w: &mut W, base: u64, samples: &[Sample]) -> io::Result<()>
    requires { AllStay base samples.now }
    ensures { OnOk result (Appends (W.contents w.old) (W.contents w.new) (text_of (map (block_piece base) samples.now))) }
{
    for sample in samples {
        write_block(w, base, sample)?;
    }
    Ok(())
}

/// Writes a cluster.
pub(crate) fn write_cluster<W: Write>(w: &mut W, samples: &[Sample]) -> io::Result<()>
    requires group { GroupFits samples.now }
    requires size { cluster_bytes samples.now < 2 ^ 56 }
    ensures { OnOk result (Appends (W.contents w.old) (W.contents w.new) (text_of (cluster_pieces samples.now))) }
{
    let Some(first) = samples.first() else {
        return Ok(());
    };
    write_open(w, CLUSTER, cluster_bytes(samples))?;
    write_time(w, first.stamp)?;
    write_blocks(w, first.stamp, samples)
}

/// Writes the clusters of samples.
pub(crate) fn write_clusters<W: Write>(w: &mut W, most: u64, samples: &[Sample]) -> io::Result<()>
    requires most { most < 32768 }
    requires samples { SamplesFit samples.now }
    requires size { length (text_of (clusters_in most samples.now)) < 2 ^ 56 }
    ensures { OnOk result (Appends (W.contents w.old) (W.contents w.new) (text_of (clusters_in most samples.now))) }
{
    let mut rest = samples;
    'clusters: while !rest.is_empty() {
        let (group, others) = rest.split_at(group_end(rest, most));
        write_cluster(w, group)?;
        rest = others;
    }
    Ok(())
}
