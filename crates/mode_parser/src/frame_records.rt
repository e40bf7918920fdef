//! The records of a frame, in raster order.

ghost use Rattle.std.specs.Prelude.{◌≡◌, ◌<◌, ◌≤◌, ◌*◌, length, IfOk, OnOk};
ghost use Rattle.std.specs.Option.{option_copied};
ghost use Rattle.mode_parser.specs.FrameModes.{place_of, prediction_at, first_modes};
ghost use Rattle.mode_parser.specs.Appending.{appended, one_more};

use crate::inter_modes::push_inter_mode;
use crate::key_modes::push_key_mode;
use crate::nearby::MbPosition;
use crate::places::next_place;
use crate::record_list::Records;
use crate::segments::read_segment;
use bool_coder::{Decoder, NoMemory};
use frame_header::Header;
use std::alloc::Global;
use vp8_tables::Tables;

/// Reads the record at `place`, the index after these, except its segment, which is before the
/// rest, and appends it to them.
#[inline]
fn push_prediction(
    reader: &mut Decoder,
    tables: &Tables,
    header: &Header,
    segment: u8,
    place: MbPosition,
    records: &mut Records,
) -> Result<(), NoMemory>
    requires at { place ≡ place_of place.columns place.rows (length records.old) }
    requires across { (place.column < place.columns) × (place.columns ≤ 1024) }
    requires down { (place.row < place.rows) × (place.rows ≤ 1024) }
    ensures { OnOk result (appended segment records.old (prediction_at tables.now header.now place.columns place.rows (length records.old) records.old) reader.old ≡ (records.new, reader.new)) }
{
    if !header.is_key {
        return push_inter_mode(reader, header, segment, place, records);
    }
    let mut local = reader.copied();
    let skip_probability = header.skip_probability;
    push_key_mode(
        &mut local,
        tables,
        skip_probability,
        segment,
        place,
        records,
    )?;
    *reader = local;
    Ok(())
}

/// Reads the record at `place`, the index after these, and appends it to them.
#[inline]
#[tactic(auto, unfolding(crate::specs::FrameModes::mode_at))]
pub(crate) fn push_mode(
    reader: &mut Decoder,
    tables: &Tables,
    header: &Header,
    map: Option<&[u8]>,
    place: MbPosition,
    records: &mut Records,
) -> Result<(), NoMemory>
    requires at { place ≡ place_of place.columns place.rows (length records.old) }
    requires across { (place.column < place.columns) × (place.columns ≤ 1024) }
    requires down { (place.row < place.rows) × (place.rows ≤ 1024) }
    ensures { OnOk result (one_more tables.now header.now place.columns place.rows (option_copied map.entry) records.old reader.old ≡ (records.new, reader.new)) }
{
    let segment = read_segment(reader, header, map, records.len());
    push_prediction(reader, tables, header, segment, place, records)
}

/// The records of a frame of 1 to 1,024 macroblocks each way, which follow its header, and the
/// number of bits that their reader has left; `map` is the segment map before it.
pub(crate) fn read_records(
    alloc: Global,
    tables: &Tables,
    header: &Header,
    columns: usize,
    rows: usize,
    map: Option<&[u8]>,
) -> Result<(Records, u128), NoMemory>
    requires some { 1 ≤ columns }
    requires wide { columns ≤ 1024 }
    requires high { rows ≤ 1024 }
    ensures value { IfOk result (λ read. read.0 ≡ (first_modes (columns * rows) tables.now header.now columns rows (option_copied map.entry) header.now.reader).0) }
    ensures left { IfOk result (λ read. read.1 ≡ length (first_modes (columns * rows) tables.now header.now columns rows (option_copied map.entry) header.now.reader).1.rest) }
    ensures count { IfOk result (λ read. length read.0 ≡ columns * rows) }
{
    // A copy of its own keeps the reader in registers.
    let mut reader = header.reader.copied();
    let mut records = Records::with_capacity(alloc, columns * rows)?;
    // The index is incremented: a division for each macroblock is slow.
    let mut place = MbPosition {
        column: 0,
        row: 0,
        columns,
        rows,
    };
    for _number in 0..columns * rows {
        push_mode(&mut reader, tables, header, map, place, &mut records)?;
        place = next_place(place);
    }
    Ok((records, reader.left()))
}
