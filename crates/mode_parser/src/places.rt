//! The indices of macroblocks in raster order, and the records next to one.

ghost use Rattle.std.specs.Prelude.{◌≡◌, ◌<◌, ◌≤◌, ◌+◌, ℕ, length};
ghost use Rattle.mode_parser.specs.RecordList.{HasLastVector, neighbour_of};
ghost use Rattle.mode_parser.specs.FrameModes.{record_above, record_left, record_above_left, place_of};

use crate::nearby::MbPosition;
use crate::record_list::{Neighbour, Records};

/// The record above the index after these, or the outside of the frame.
#[inline]
pub(crate) fn record_above(records: &Records, columns: usize) -> Neighbour<'_>
    ensures value { neighbour_of result ≡ record_above records.now columns (length records.now) }
    ensures last { HasLastVector result }
{
    let number = records.len();
    if number < columns {
        records.outside()
    } else {
        records.neighbour(number - columns)
    }
}

/// The record to the left of `place`, the index after these, or the outside of the frame.
#[inline]
pub(crate) fn record_left(records: &Records, place: MbPosition) -> Neighbour<'_>
    requires { place ≡ place_of place.columns place.rows (length records.now) }
    ensures value { neighbour_of result ≡ record_left records.now place.columns (length records.now) }
    ensures last { HasLastVector result }
{
    if place.column == 0 {
        records.outside()
    } else {
        records.neighbour(records.len() - 1)
    }
}

/// The record above and to the left of `place`, the index after these, or the outside of the frame.
#[inline]
pub(crate) fn record_above_left(records: &Records, place: MbPosition) -> Neighbour<'_>
    requires { place ≡ place_of place.columns place.rows (length records.now) }
    ensures value { neighbour_of result ≡ record_above_left records.now place.columns (length records.now) }
    ensures last { HasLastVector result }
{
    let number = records.len();
    if number < place.columns || place.column == 0 {
        records.outside()
    } else {
        records.neighbour(number - place.columns - 1)
    }
}

/// The next index in raster order.
#[inline]
pub(crate) fn next_place(place: MbPosition) -> MbPosition
    requires across { place.column < place.columns }
    requires wide { place.columns ≤ 1024 }
    requires down { place.row < 1024 }
    ensures { (number : ℕ) → place ≡ place_of place.columns place.rows number → result ≡ place_of place.columns place.rows (number + 1) }
{
    let column = place.column + 1;
    if column < place.columns {
        MbPosition {
            column,
            row: place.row,
            columns: place.columns,
            rows: place.rows,
        }
    } else {
        MbPosition {
            column: 0,
            row: place.row + 1,
            columns: place.columns,
            rows: place.rows,
        }
    }
}
