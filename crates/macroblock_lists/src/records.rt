//! The records of a frame: their modes, how macroblocks are split, and the bits that records take.

ghost use Rattle.std.specs.Prelude.{◌≡◌, ◌≤◌, ◌*◌, false, length, IfOk, IsSome, IsTrue};
ghost use Rattle.std.specs.Option.{option_copied};
ghost use Rattle.pixel_planes.specs.Pictures.{macroblocks as macroblocks_of};
ghost use Rattle.macroblock_lists.specs.Known.{frame_modes, height_of, width_of};
ghost use Rattle.macroblock_lists.specs.Records.{combined as combined_of, facts_in as facts_in_of, own_facts};

use crate::known::{Known, map_of, size_of};
use frame_header::Header;
use mode_parser::{Modes, RecordFacts, read_modes_with_facts};
use pixel_planes::{NoMemory, macroblocks};
use std::alloc::Global;
use vp8_tables::Tables;

/// The records of a frame.
#[derive(Drop)]
pub(crate) struct Records {
    pub(crate) modes: Modes,
    /// The facts of each, in raster order.
    pub(crate) facts: Vec<RecordFacts>,
}

/// The records that follow this header.
pub(crate) fn read_records(
    alloc: Global,
    tables: &Tables,
    header: &Header,
    before: Option<&Known>,
) -> Result<Records, NoMemory>
    requires following { header.now.is_key ≡ false → IsSome before }
    requires wide { IsTrue header.now.is_key → (1 ≤ header.now.width) × (header.now.width ≤ 16383) }
    requires high { IsTrue header.now.is_key → (1 ≤ header.now.height) × (header.now.height ≤ 16383) }
    ensures modes { IfOk result (λ records. records.modes ≡ frame_modes tables.now header.now (option_copied before.entry)) }
    ensures segments { IfOk result (λ records. length records.modes.segment_map ≡ macroblocks_of (width_of header.now (option_copied before.entry)) * macroblocks_of (height_of header.now (option_copied before.entry))) }
    ensures facts { IfOk result (λ records. records.facts.items ≡ own_facts tables.now header.now (option_copied before.entry)) }
{
    let (width, height) = size_of(header, before);
    let map = map_of(before);
    let columns = macroblocks(width);
    let rows = macroblocks(height);
    let (modes, facts) = read_modes_with_facts(alloc, tables, header, columns, rows, map)?;
    Ok(Records { modes, facts })
}

/// The facts at an index; past the last, no split and no bits.
pub(crate) fn facts_in(facts: &[RecordFacts], place: usize) -> RecordFacts
    ensures { result ≡ facts_in_of facts.now place }
{
    match facts.get(place) {
        Some(facts) => *facts,
        None => RecordFacts {
            bits: 0,
            split: None,
        },
    }
}

/// The splits of the first, with the bits of the second.
fn combined(
    alloc: Global,
    own: &[RecordFacts],
    marked: &[RecordFacts],
) -> Result<Vec<RecordFacts>, NoMemory>
    ensures { IfOk result (λ facts. facts.items ≡ combined_of own.now marked.now) }
{
    let mut facts = Vec::with_capacity(alloc, own.len())?;
    for place in 0..own.len() {
        let counted = facts_in(marked, place);
        let read = facts_in(own, place);
        facts.push(RecordFacts {
            bits: counted.bits,
            split: read.split,
        })?;
    }
    Ok(facts)
}

/// The records that follow a packet's own header, with the bits that `marked` has of them.
pub(crate) fn read_own(
    alloc: Global,
    tables: &Tables,
    header: &Header,
    before: Option<&Known>,
    marked: &[RecordFacts],
) -> Result<Records, NoMemory>
    requires following { header.now.is_key ≡ false → IsSome before }
    requires wide { IsTrue header.now.is_key → (1 ≤ header.now.width) × (header.now.width ≤ 16383) }
    requires high { IsTrue header.now.is_key → (1 ≤ header.now.height) × (header.now.height ≤ 16383) }
    ensures modes { IfOk result (λ records. records.modes ≡ frame_modes tables.now header.now (option_copied before.entry)) }
    ensures segments { IfOk result (λ records. length records.modes.segment_map ≡ macroblocks_of (width_of header.now (option_copied before.entry)) * macroblocks_of (height_of header.now (option_copied before.entry))) }
    ensures facts { IfOk result (λ records. records.facts.items ≡ combined_of (own_facts tables.now header.now (option_copied before.entry)) marked.now) }
{
    let Records { modes, facts } = read_records(alloc, tables, header, before)?;
    let facts = combined(alloc, &facts, marked)?;
    Ok(Records { modes, facts })
}
