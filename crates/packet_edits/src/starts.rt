//! Counts of flagged packets after each run of 1,024 packets.
ghost use Rattle.std.specs.Prelude.{◌≡◌, ℕ, ◌*◌, ◌+◌, ◌-◌, ◌<◌, ◌≤◌, ◌∷◌, All, Bool, Some, length, slice_get, slice_index, vec_len};
ghost use Rattle.packet_edits.specs.FlagCounts.{count_with, flagged_before};

use chunked_list::{CHUNK, ChunkedList};

/// How many packets of the first `runs` runs are flagged.
pub(crate) fn count_of_runs(counts: &[u32], runs: usize) -> u32
    requires { runs ≤ length counts.now }
    ensures { result ≡ slice_index (0 ∷ counts.now) runs }
{
    if runs == 0 { 0 } else { counts[runs - 1] }
}

/// How many packets from index `from` up to `to` are flagged, and `before` more.
pub(crate) fn count_on(flags: &ChunkedList<bool>, before: u32, from: usize, to: usize) -> u32
    requires range { (from ≤ to) × (to ≤ length flags.now) }
    requires few { length flags.now ≤ 1048576 }
    requires counted { before ≡ flagged_before from flags.now }
    ensures { result ≡ flagged_before to flags.now }
{
    let mut count = before;
    for at in from..to {
        count = with_flag(count, *flags.get(at));
    }
    count
}

/// Changes the counts starting at run `first` by a packet whose flag was `was` and is `flag`.
pub(crate) fn recount(counts: &mut Vec<u32>, first: usize, was: bool, flag: bool)
    requires small { All (λ count. count < 4294967295) counts.old.items }
    ensures len { vec_len counts.new ≡ vec_len counts.old }
    ensures before { (k : ℕ) → k < first → slice_index counts.new.items k ≡ slice_index counts.old.items k }
    ensures after { (k : ℕ) → first ≤ k → k < vec_len counts.old → slice_index counts.new.items k ≡ count_with (slice_index counts.old.items k) flag - count_with 0 was }
{
    for k in first..counts.len() {
        counts[k] = exchange(counts[k], was, flag);
    }
}

/// Changes the counts of runs `first` to `end` by a packet that was moved down past their last
/// packets, which left the runs. `flags` are the flags after the move.
pub(crate) fn moved_down(
    counts: &mut Vec<u32>,
    flags: &ChunkedList<bool>,
    first: usize,
    end: usize,
    flag: bool,
)
    requires small { All (λ count. count < 4294967295) counts.old.items }
    requires within { (first ≤ end) × (end ≤ vec_len counts.old) × (end * 1024 < length flags.now) }
    requires few { length flags.now ≤ 1048576 }
    ensures len { vec_len counts.new ≡ vec_len counts.old }
    ensures before { (k : ℕ) → k < first → slice_index counts.new.items k ≡ slice_index counts.old.items k }
    ensures within { (k : ℕ) (was : Bool) → first ≤ k → k < end → slice_get flags.now ((k + 1) * 1024) ≡ Some was → slice_index counts.new.items k ≡ count_with (slice_index counts.old.items k) flag - count_with 0 was }
    ensures after { (k : ℕ) → end ≤ k → slice_index counts.new.items k ≡ slice_index counts.old.items k }
{
    for k in first..end {
        counts[k] = exchange(counts[k], *flags.get((k + 1) * CHUNK), flag);
    }
}

/// Changes the counts of runs `first` to `end` by a packet that was moved up out of them, so each
/// run has one more packet at its end. `flags` are the flags after the move.
pub(crate) fn moved_up(
    counts: &mut Vec<u32>,
    flags: &ChunkedList<bool>,
    first: usize,
    end: usize,
    flag: bool,
)
    requires small { All (λ count. count < 4294967295) counts.old.items }
    requires within { (first ≤ end) × (end ≤ vec_len counts.old) × (end * 1024 ≤ length flags.now) }
    requires few { length flags.now ≤ 1048576 }
    ensures len { vec_len counts.new ≡ vec_len counts.old }
    ensures before { (k : ℕ) → k < first → slice_index counts.new.items k ≡ slice_index counts.old.items k }
    ensures within { (k : ℕ) (now : Bool) → first ≤ k → k < end → slice_get flags.now ((k + 1) * 1024 - 1) ≡ Some now → slice_index counts.new.items k ≡ count_with (slice_index counts.old.items k) now - count_with 0 flag }
    ensures after { (k : ℕ) → end ≤ k → slice_index counts.new.items k ≡ slice_index counts.old.items k }
{
    for k in first..end {
        counts[k] = exchange(counts[k], flag, *flags.get((k + 1) * CHUNK - 1));
    }
}

/// A count with a packet whose flag was `was` and is `flag`.
fn exchange(count: u32, was: bool, flag: bool) -> u32
    requires { count < 4294967295 }
    ensures { result ≡ count_with count flag - count_with 0 was }
{
    with_flag(count, flag).saturating_sub(with_flag(0, was))
}

/// One more if the packet is flagged.
pub(crate) fn with_flag(count: u32, flag: bool) -> u32
    requires { count < 4294967295 }
    ensures { result ≡ count_with count flag }
{
    if flag { count + 1 } else { count }
}
