//! The list of a stream's packets.

ghost use Rattle.std.specs.Prelude.{◌+◌, ◌^◌, ◌<◌, OnOk};
ghost use Rattle.std.specs.Io.KnownBytes.{Appends};
ghost use Rattle.stream_facts.specs.Lists.{list_text};
ghost use Rattle.stream_facts.specs.Lines.{head_line};

use crate::lines::{write_line, write_text};
use crate::places::Places;
use std::io::Write;
use stream_files::{Packet, WriteFault};

/// The names of the columns.
const HEAD: &str =
    "packet\tframe\tstamp\tbytes\tkind\tshow\tversion\tsize\tfirst\tpartitions\tquantizer\tlevel\tlast\tgolden\taltref\tcause\tbyte\tscale\tcolor\tclamp\n";

/// Writes a line with the names of the columns, and a line with its facts for each packet of a file, where they are at these places.
/// Only headers are read.
pub fn write_listing<W: Write>(
    w: &mut W,
    places: &Places,
    packets: &[Packet],
) -> Result<(), WriteFault>
    ensures { OnOk result (Appends (W.contents w.old) (W.contents w.new) (list_text places.now packets.now)) }
{
    write_text(w, HEAD)?;
    let mut position = places.start();
    for packet in packets {
        let facts = places.next(&mut position, packet);
        write_line(w, facts)?;
    }
    Ok(())
}
