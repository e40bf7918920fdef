//! The modes of a frame with what they take: the bits of each record, and how its macroblock is split.
//! Decoding reads modes without this.

ghost use Rattle.std.specs.Prelude.{◌≡◌, ◌<◌, ◌≤◌, ◌*◌, false, length, IfOk, IsSomeAnd};
ghost use Rattle.std.specs.Option.{option_copied};
ghost use Rattle.mode_parser.specs.FrameModes.{place_of, record_above as record_above_of, record_left as record_left_of, record_above_left as record_above_left_of};
ghost use Rattle.mode_parser.specs.FrameModes.{first_modes, modes_of};
ghost use Rattle.mode_parser.specs.RecordFacts.{facts_of, inter_split, referenced_split, split_at, split_by, which_split};

use crate::frame_modes::Modes;
use crate::frame_records::push_mode;
use crate::inter_modes::{read_reference, read_vector_mode};
use crate::key_modes::read_skip;
use crate::nearby::{MbPosition, candidates_beside};
use crate::places::{next_place, record_above, record_above_left, record_left};
use crate::record_list::Records;
use crate::records::{Split, VectorMode};
use crate::segments::{map_after, read_segment};
use bool_coder::{Decoder, NoMemory};
use frame_header::Header;
use std::alloc::Global;
use vp8_tables::{SPLIT_PROBABILITIES, Tables};

/// What the record of a macroblock takes, and how the macroblock is split.
#[derive(Clone, Copy, Debug, PartialEq, Eq)]
pub struct RecordFacts {
    /// The number of bits that its reader takes in, of those that `Decoder::left` counts before it.
    pub bits: u128,
    /// The parts of the macroblock; `None` if its mode is not `mv_split`.
    pub split: Option<Split>,
}

/// The parts of a split macroblock: the leaf of their tree (RFC 6386, section 16.4).
fn read_which_split(reader: &mut Decoder) -> Split
    ensures { which_split reader.old ≡ (result, reader.new) }
{
    if !reader.bit(SPLIT_PROBABILITIES[0]) {
        return Split::Sixteenths;
    }
    if !reader.bit(SPLIT_PROBABILITIES[1]) {
        return Split::Quarters;
    }
    if reader.bit(SPLIT_PROBABILITIES[2]) {
        Split::LeftRight
    } else {
        Split::TopBottom
    }
}

/// The split that follows a vector mode.
#[tactic(auto, unfolding(crate::specs::RecordFacts::split_by))]
fn read_split(reader: &mut Decoder, mode: VectorMode) -> Option<Split>
    ensures { split_by mode reader.old ≡ (result, reader.new) }
{
    match mode {
        VectorMode::Split => Some(read_which_split(reader)),
        VectorMode::Zero | VectorMode::Nearest | VectorMode::Near | VectorMode::New => None,
    }
}

/// The split of a macroblock with a reference, at `place`, the index after these.
#[tactic(auto, unfolding(crate::specs::RecordFacts::referenced_split))]
fn read_referenced_split(
    reader: &mut Decoder,
    header: &Header,
    place: MbPosition,
    records: &Records,
) -> Option<Split>
    requires at { place ≡ place_of place.columns place.rows (length records.now) }
    requires across { (place.column < place.columns) × (place.columns ≤ 1024) }
    requires down { (place.row < place.rows) × (place.rows ≤ 1024) }
    ensures { referenced_split header.now place (record_above_of records.now place.columns (length records.now)) (record_left_of records.now place.columns (length records.now)) (record_above_left_of records.now place.columns (length records.now)) reader.old ≡ (result, reader.new) }
{
    let above = record_above(records, place.columns);
    let left = record_left(records, place);
    let above_left = record_above_left(records, place);
    let reference = read_reference(reader, header.reference_probabilities);
    let biases = header.context.sign_biases;
    let found = candidates_beside(&above, &left, &above_left, reference, biases);
    let mode = read_vector_mode(reader, &found);
    read_split(reader, mode)
}

/// The split of a macroblock of an inter frame, at `place`, the index after these, after its segment.
#[tactic(auto, unfolding(crate::specs::RecordFacts::inter_split))]
fn read_inter_split(
    reader: &mut Decoder,
    header: &Header,
    place: MbPosition,
    records: &Records,
) -> Option<Split>
    requires at { place ≡ place_of place.columns place.rows (length records.now) }
    requires across { (place.column < place.columns) × (place.columns ≤ 1024) }
    requires down { (place.row < place.rows) × (place.rows ≤ 1024) }
    ensures { inter_split header.now place (record_above_of records.now place.columns (length records.now)) (record_left_of records.now place.columns (length records.now)) (record_above_left_of records.now place.columns (length records.now)) reader.old ≡ (result, reader.new) }
{
    let _is_skipped = read_skip(reader, header.skip_probability);
    if reader.bit(header.reference_probabilities.intra) {
        read_referenced_split(reader, header, place, records)
    } else {
        None
    }
}

/// The split of the macroblock at `place`, the index after these, whose record is next.
#[tactic(auto, unfolding(crate::specs::RecordFacts::split_at))]
fn next_split(
    reader: &Decoder,
    header: &Header,
    map: Option<&[u8]>,
    place: MbPosition,
    records: &Records,
) -> Option<Split>
    requires at { place ≡ place_of place.columns place.rows (length records.now) }
    requires across { (place.column < place.columns) × (place.columns ≤ 1024) }
    requires down { (place.row < place.rows) × (place.rows ≤ 1024) }
    ensures { result ≡ (split_at header.now place.columns place.rows (option_copied map.entry) (length records.now) records.now reader.now).0 }
{
    let mut reader = reader.copied();
    let _segment = read_segment(&mut reader, header, map, records.len());
    if header.is_key {
        None
    } else {
        read_inter_split(&mut reader, header, place, records)
    }
}

/// The records of a frame with their facts.
#[derive(Drop)]
struct RecordsWithFacts {
    records: Records,
    facts: Vec<RecordFacts>,
    /// The number of bits that their reader has left.
    left: u128,
}

/// The records of a frame of 1 to 1,024 macroblocks each way, which follow its header, with the facts of each; `map` is the segment
/// map before it.
fn read_records(
    alloc: Global,
    tables: &Tables,
    header: &Header,
    columns: usize,
    rows: usize,
    map: Option<&[u8]>,
) -> Result<RecordsWithFacts, NoMemory>
    requires wide { (1 ≤ columns) × (columns ≤ 1024) }
    requires high { (1 ≤ rows) × (rows ≤ 1024) }
    ensures records { IfOk result (λ read. read.records ≡ (first_modes (columns * rows) tables.now header.now columns rows (option_copied map.entry) header.now.reader).0) }
    ensures left { IfOk result (λ read. read.left ≡ length (first_modes (columns * rows) tables.now header.now columns rows (option_copied map.entry) header.now.reader).1.rest) }
    ensures count { IfOk result (λ read. length read.records ≡ columns * rows) }
    ensures facts { IfOk result (λ read. read.facts.items ≡ facts_of tables.now header.now columns rows (option_copied map.entry)) }
{
    let mut reader = header.reader.copied();
    let mut records = Records::with_capacity(alloc, columns * rows)?;
    let mut facts = Vec::with_capacity(alloc, columns * rows)?;
    let mut place = MbPosition {
        column: 0,
        row: 0,
        columns,
        rows,
    };
    for _number in 0..columns * rows {
        let split = next_split(&reader, header, map, place, &records);
        let left = reader.left();
        push_mode(&mut reader, tables, header, map, place, &mut records)?;
        let bits = left.saturating_sub(reader.left());
        facts.push(RecordFacts { bits, split })?;
        place = next_place(place);
    }
    Ok(RecordsWithFacts {
        records,
        facts,
        left: reader.left(),
    })
}

/// Reads the modes of a frame that has `columns` by `rows` macroblocks, each 1 to 1,024, as `read_modes` does, and in the same pass the
/// facts of each record, in raster order. `map` is the segment map before the frame; a key frame does not read it. `NoMemory` if memory
/// for the records, the facts or the map is refused.
pub fn read_modes_with_facts(
    alloc: Global,
    tables: &Tables,
    header: &Header,
    columns: usize,
    rows: usize,
    map: Option<&[u8]>,
) -> Result<(Modes, Vec<RecordFacts>), NoMemory>
    requires wide { (1 ≤ columns) × (columns ≤ 1024) }
    requires high { (1 ≤ rows) × (rows ≤ 1024) }
    requires map { header.now.is_key ≡ false → IsSomeAnd (option_copied map) (λ before. length before ≡ columns * rows) }
    ensures modes { IfOk result (λ read. read.0 ≡ modes_of tables.now header.now columns rows (option_copied map.entry)) }
    ensures segments { IfOk result (λ read. length read.0.segment_map ≡ columns * rows) }
    ensures facts { IfOk result (λ read. read.1.items ≡ facts_of tables.now header.now columns rows (option_copied map.entry)) }
{
    let RecordsWithFacts {
        records,
        facts,
        left,
    } = read_records(alloc, tables, header, columns, rows, map)?;
    let segment_map = map_after(alloc, header, columns * rows, map, &records)?;
    Ok((Modes::new(records, segment_map, left), facts))
}
