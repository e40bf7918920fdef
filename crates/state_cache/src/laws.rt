//! Laws about the definitions of this crate. Each law is the contract of a function that does
//! nothing.

ghost use Rattle.state_cache.specs.CostLaws.{UnsettledAreListed};
ghost use Rattle.state_cache.specs.EvictionLaws.{VictimIsUnique, WorkedVictims};
ghost use Rattle.state_cache.specs.EditLaws.{DropsKeepCoherence, EditsKeepCoherence, EditsKeepIds, LaterIdsAreNotCached, NextIdIsNotCached};
ghost use Rattle.state_cache.specs.ReturnLaws.{ReturningIsNotCached, ReturnsKeepCoherence, ReturnsKeepIds};
ghost use Rattle.state_cache.specs.CacheViews.{CoherentIsCacheView};
ghost use Rattle.state_cache.specs.WalkLaws.{NextIsUnique, WalksSettle, WalksStepInOrder};

use vp8_tables::Tables;

/// After each edit the cache is coherent with the new packets and marks, once the outcomes of
/// removed packets are dropped. A packet keeps its outcome when its show bit is set or cleared.
pub fn edits_keep_coherence(tables: &Tables)
    ensures { EditsKeepCoherence tables.now }
{
    frame_header::show_laws::only_the_show_bit_changes();
    stream_steps::laws::show_bits_keep_steps();
}

/// Once any outcomes are dropped, the cache is still coherent.
pub fn drops_keep_coherence(tables: &Tables)
    ensures { DropsKeepCoherence tables.now }
{}

/// After each edit outcomes are cached only for packets of the list.
pub fn edits_keep_ids()
    ensures { EditsKeepIds }
{}

/// If outcomes are cached only for packets of the list, none is cached for the next id.
pub fn next_id_is_not_cached()
    ensures { NextIdIsNotCached }
{}

/// Nor is one cached for any later id, so appended packets have none.
pub fn later_ids_are_not_cached()
    ensures { LaterIdsAreNotCached }
{}

/// After a return of a packet that has no cached outcome the cache is coherent: the packet has no mark, and the packet after it is
/// marked. The same holds of an exchange, and of a show bit that is set back.
pub fn returns_keep_coherence(tables: &Tables)
    ensures { ReturnsKeepCoherence tables.now }
{
    frame_header::show_laws::only_the_show_bit_changes();
    stream_steps::laws::show_bits_keep_steps();
}

/// After a return or an exchange outcomes are cached only for packets of the list.
pub fn returns_keep_ids()
    ensures { ReturnsKeepIds }
{}

/// A packet that may return has no cached outcome.
pub fn returning_is_not_cached()
    ensures { ReturningIsNotCached }
{}

/// A view is coherent exactly if each cached outcome results from the nearest one cached before it
/// in its run by steps. With none cached before it, it results from no state if its run begins at a
/// key tag or at index 0 with no mark.
pub fn coherent_views_are_cache_views()
    ensures { CoherentIsCacheView }
{}

/// The indexes of a walk that are not settled have a list.
pub fn unsettled_indexes_are_listed()
    ensures { UnsettledAreListed }
{}

/// The first index to step on the way to an index is unique.
pub fn next_is_unique()
    ensures { NextIsUnique }
{}

/// A walk steps its indexes in ascending order, and changes only the marks of these indexes and of
/// the index after the last one.
pub fn walks_step_in_order()
    ensures { WalksStepInOrder }
{}

/// With room, each step of a walk leaves exactly one index fewer that is not settled, so a walk steps exactly the indexes that are
/// not settled.
pub fn walks_settle(tables: &Tables)
    ensures { WalksSettle tables.now }
{}

/// A full cache drops one outcome, which is unique.
pub fn victim_is_unique()
    ensures { VictimIsUnique }
{}

/// Of evenly spaced outcomes the one used longest ago is dropped, one that saves much outlives one
/// that saves little, and of equals the first is dropped.
pub fn worked_victims()
    ensures { WorkedVictims }
{}
