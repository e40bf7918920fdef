//! Laws on the definitions of this crate: each is the contract of a function that does nothing.

ghost use Rattle.pixel_planes.specs.Samples.{WritesOneRow};
ghost use Rattle.pixel_planes.specs.ReferenceSamples.{GoesOnPastItsEdges, BorderOf16By16};
ghost use Rattle.pixel_planes.specs.Layout.{RowsArePlaced, WrittenRowsAreCropped};

/// A row that is written has the samples written, and every other row is unchanged.
pub fn row_write_is_local()
    ensures { WritesOneRow }
{}

/// A reference sample inside a plane is the plane's own, and past an edge it is the edge's.
pub fn edges_go_on()
    ensures { GoesOnPastItsEdges }
{}

/// The rows that a block shows are rows of it, a stride apart.
pub fn rows_are_placed()
    ensures { RowsArePlaced }
{}

/// Once all its rows are written from enough samples, a plane shows those rows.
pub fn written_rows_are_cropped()
    ensures { WrittenRowsAreCropped }
{}

/// The spans of a plane of 16 by 16 samples with a border of 32.
pub fn border_of_16_by_16()
    ensures { BorderOf16By16 }
{}
