//! The modes of a frame.

ghost use Rattle.std.specs.Prelude.{◌≡◌, ◌≤◌, ◌*◌, false, length, IfOk, IsSomeAnd};
ghost use Rattle.std.specs.Option.{option_copied};
ghost use Rattle.mode_parser.specs.FrameModes.{modes_of};

use crate::frame_records::read_records;
use crate::record_list::Records;
use crate::segments::map_after;
use bool_coder::NoMemory;
use frame_header::Header;
use std::alloc::Global;
use std::marker::Model;
use vp8_tables::Tables;

/// The modes of a frame: a record for each macroblock, and the segment map after the frame.
#[derive(Drop)]
pub struct Modes {
    records: Records,
    segment_map: Vec<u8>,
    left: u128,
}

impl Model for Modes {
    ghost use Rattle.mode_parser.specs.FrameModes.{FrameModes};

    ghost Value = { FrameModes };

    ghost view = { λ m. record { records = m.records; segment_map = m.segment_map.items; left = m.left } };
}

impl Modes {
    /// Of these records, with this segment map after them, and so many bits left.
    pub(crate) fn new(records: Records, segment_map: Vec<u8>, left: u128) -> Modes
        ensures { result ≡ record { records = records; segment_map = segment_map.items; left = left } }
    {
        Modes {
            records,
            segment_map,
            left,
        }
    }

    /// One record for each macroblock, in raster order.
    pub fn records(&self) -> &Records
        ensures { result.now ≡ self.now.records }
    {
        &self.records
    }

    /// The segment map itself, without the records.
    pub fn into_segment_map(self) -> Vec<u8>
        ensures { result.items ≡ self.segment_map }
    {
        self.segment_map
    }

    /// The number of bits of the first partition that its reader has not taken in after the
    /// records, as `Decoder::left` counts them.
    pub fn left(&self) -> u128
        ensures { result ≡ self.now.left }
    {
        self.left
    }

    /// The segment of each macroblock, in raster order.
    pub fn segment_map(&self) -> &[u8]
        ensures { result.now ≡ self.now.segment_map }
    {
        &self.segment_map
    }
}

/// The modes of a frame that has `columns` by `rows` macroblocks, each 1 to 1,024 (RFC 6386,
/// section 19.3): one record for each, in raster order, and the segment map after the frame. `map`
/// is the segment map before it, of one segment for each macroblock; a key frame does not read it.
/// `NoMemory` if memory for the records or for the map is refused.
pub fn read_modes(
    alloc: Global,
    tables: &Tables,
    header: &Header,
    columns: usize,
    rows: usize,
    map: Option<&[u8]>,
) -> Result<Modes, NoMemory>
    requires wide { (1 ≤ columns) × (columns ≤ 1024) }
    requires high { (1 ≤ rows) × (rows ≤ 1024) }
    requires map { header.now.is_key ≡ false → IsSomeAnd (option_copied map) (λ before. length before ≡ columns * rows) }
    ensures value { IfOk result (λ modes. modes ≡ modes_of tables.now header.now columns rows (option_copied map.entry)) }
    ensures count { IfOk result (λ modes. length modes.records ≡ columns * rows) }
    ensures segments { IfOk result (λ modes. length modes.segment_map ≡ columns * rows) }
{
    let (records, left) = read_records(alloc, tables, header, columns, rows, map)?;
    let segment_map = map_after(alloc, header, columns * rows, map, &records)?;
    Ok(Modes::new(records, segment_map, left))
}
