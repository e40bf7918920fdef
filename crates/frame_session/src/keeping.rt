//! The state of a session between requests: the packets of its sources with their marks, and a cache that is
//! coherent with them.
ghost use Rattle.std.specs.Prelude.{◌≡◌, ◌<◌, ◌≤◌, OnErr, is_ok, length, slice_get, slice_set};
ghost use Rattle.packet_edits.specs.Laws.{HasOwnIds};
ghost use Rattle.packet_edits.specs.Shown.{stream_of};
ghost use Rattle.state_cache.specs.Costs.{Costs};
ghost use Rattle.stream_steps.specs.Decoding.{outcomes};
ghost use Rattle.state_cache.specs.EditLaws.{id_at};
ghost use Rattle.state_cache.specs.Reaching.{OthersDrop};
ghost use Rattle.state_cache.specs.Walks.{IsWalk};
ghost use Rattle.frame_session.specs.Cached.{CacheWithout, IsSound, leaving, id_removed, lists_of, needs_picture, store_at, stores_after};
ghost use Rattle.frame_session.specs.Edits.{EditAnswers};
ghost use Rattle.frame_session.specs.IsOrNoMemory.{IsOrNoMemory};
ghost use Rattle.frame_session.specs.Sessions.{picture_from};

use crate::edit::make_edit;
use crate::refusal::Refusal;
use packet_edits::Store;
use pixel_planes::Picture;
use request_lines::Edit;
use state_cache::{Cache, ReachFault, laws};
use std::alloc::Global;
use vp8_tables::Tables;

/// The picture of the packet at index `place` of a source. Nothing of another source changes, except that
/// its cached outcomes may be dropped.
#[tactic(auto, using(crate::proofs::Sound::reached_sound, crate::proofs::Sound::picture_given, crate::proofs::Sound::break_given, crate::proofs::Sound::nothing_given, crate::proofs::Sound::unshared_given))]
pub(crate) fn picture_at(
    tables: &Tables,
    stores: &mut [Store],
    cache: &mut Cache,
    source: usize,
    place: usize,
) -> Result<Picture, Refusal>
    requires source { source < length stores.old }
    requires place { place < length (store_at stores.old source).list.entries }
    requires sound { IsSound tables.now stores.old cache.old }
    ensures returned { IsOrNoMemory (picture_from source (slice_get (outcomes tables.now (stream_of (store_at stores.old source).list)) place)) result }
    ensures lists { lists_of stores.new ≡ lists_of stores.old }
    ensures length { length stores.new ≡ length stores.old }
    ensures packets { stores.new ≡ slice_set stores.old source (store_at stores.new source) }
    ensures others { OthersDrop source cache.old cache.new }
    ensures costs { Costs tables.now source (store_at stores.old source) cache.old place (is_ok result) (store_at stores.new source) cache.new }
    ensures walks { IsWalk tables.now source (store_at stores.old source) cache.old place (is_ok result) (store_at stores.new source) cache.new }
    ensures reached { needs_picture result ≡ is_ok result }
    ensures rises { cache.old.decoded ≤ cache.new.decoded }
    ensures sound { IsSound tables.now stores.new cache.new }
{
    laws::drops_keep_coherence(tables);
    match cache.reach(tables, source, &mut stores[source], place) {
        Ok(kept) => Ok(kept.picture),
        Err(ReachFault::Refused(broken)) => Err(Refusal::Packet {
            source,
            place: broken.place,
            cause: broken.cause,
        }),
        Err(ReachFault::NoMemory) => Err(Refusal::NoMemory),
        Err(ReachFault::TooManyShares) => Err(Refusal::NoMemory),
    }
}

/// The id of the packet at index `at`, if there is one.
#[tactic(auto, using(crate::proofs::Sound::no_id))]
fn id_at(list: &Store, at: u64) -> Option<u64>
    ensures { result ≡ id_at list.now.list.entries at }
{
    if at < list.len() as u64 {
        Some(list.id(at as usize))
    } else {
        None
    }
}

/// The id of the packet that an edit removes from the list, if it removes one.
fn leaving(list: &Store, edit: &Edit) -> Option<u64>
    ensures { result ≡ leaving edit.now list.now.list }
{
    match edit {
        Edit::Replace { at, .. } => id_at(list, *at),
        Edit::Delete { at } => id_at(list, *at),
        _ => None,
    }
}

/// Drops the cached outcome of the packet of a source that was removed, if one was.
fn drop_left(cache: &mut Cache, source: usize, left: Option<u64>)
    ensures without { CacheWithout source left cache.old cache.new }
    ensures bounded { length cache.old.entries ≤ cache.old.capacity.states → length cache.new.entries ≤ cache.new.capacity.states }
    ensures capacity { cache.new.capacity ≡ cache.old.capacity }
    ensures steps { cache.new.decoded ≡ cache.old.decoded }
{
    if let Some(id) = left {
        cache.edited(source, id);
    }
}

/// Makes an edit of source `current`, drops the cached outcome of a packet that it removes, and returns
/// the new number of packets. A refused edit changes nothing.
pub(crate) fn edit_cached(
    alloc: Global,
    tables: &Tables,
    stores: &mut [Store],
    cache: &mut Cache,
    current: usize,
    edit: Edit,
) -> Result<u64, Refusal>
    requires current { current < length stores.old }
    requires sound { IsSound tables.now stores.old cache.old }
    ensures returned { EditAnswers tables.now (lists_of stores.old) (store_at stores.old current).list edit result }
    ensures after { stores.new ≡ stores_after tables.now current edit stores.old result }
    ensures length { length stores.new ≡ length stores.old }
    ensures cache { CacheWithout current (id_removed edit (store_at stores.old current).list result) cache.old cache.new }
    ensures capacity { cache.new.capacity ≡ cache.old.capacity }
    ensures steps { cache.new.decoded ≡ cache.old.decoded }
    ensures sound { IsSound tables.now stores.new cache.new }
    ensures refused { OnErr result ((stores.new ≡ stores.old) × (cache.new ≡ cache.old)) }
{
    laws::drops_keep_coherence(tables);
    laws::edits_keep_coherence(tables);
    laws::edits_keep_ids();
    laws::next_id_is_not_cached();
    stores[current].prove_few();
    let left = leaving(&stores[current], &edit);
    let count = make_edit(alloc, tables, stores, current, edit)?;
    drop_left(cache, current, left);
    Ok(count)
}
