//! The texts of a packet that are not of one macroblock: of its header, of one that is refused, and of one that repeats a frame.

ghost use Rattle.std.specs.Prelude.{◌≡◌, ◌<◌, length, OnOk};
ghost use Rattle.std.specs.Fmt.{decimal};
ghost use Rattle.std.specs.List.{flat_map};
ghost use Rattle.std.specs.Option.{option_copied};
ghost use Rattle.std.specs.Io.KnownBytes.{Appends};
ghost use Rattle.macroblock_lists.specs.Parts.{after_comma, joined};
ghost use Rattle.header_bits.specs.Coded.{coded_in};
ghost use Rattle.macroblock_lists.specs.Texts.{broken_text, comment_of, comment_start, header_text, packet_line, repeat_by, repeat_text, sizes_bits};

use crate::fields::write_header_fields;
use crate::known::Known;
use crate::layouts::{Form, Layout};
use frame_header::{Cause, Header, PartitionRange};
use header_bits::{Coded, read_coded};
use std::io::Write;
use stream_facts::{write_cause, write_number, write_text};
use stream_files::WriteFault;
use stream_steps::Broken;
use vp8_tables::Tables;

fn write_start<W: Write>(w: &mut W, place: usize) -> Result<(), WriteFault>
    ensures { OnOk result (Appends (W.contents w.old) (W.contents w.new) (comment_start place)) }
{
    write!(w, "# packet {place}:").map_err(|_| WriteFault::Write)
}

fn write_broken_line<W: Write>(w: &mut W, place: usize, broken: Broken) -> Result<(), WriteFault>
    ensures { OnOk result (Appends (W.contents w.old) (W.contents w.new) (broken_text Form.Lines place broken)) }
{
    let number = broken.place;
    write_start(w, place)?;
    write!(w, " refused packet {number} ").map_err(|_| WriteFault::Write)?;
    write_cause(w, broken.cause)?;
    write_text(w, "\n")
}

fn write_broken_object<W: Write>(w: &mut W, place: usize, broken: Broken) -> Result<(), WriteFault>
    ensures { OnOk result (Appends (W.contents w.old) (W.contents w.new) (broken_text Form.Objects place broken)) }
{
    write_text(w, "{")?;
    write_number(w, "packet", place as u64)?;
    write_number(w, "refused", broken.place as u64)?;
    write_text(w, "\"cause\":\"")?;
    write_cause(w, broken.cause)?;
    write_text(w, "\"}\n")
}

/// Writes that decoding refuses the packet at this index.
pub(crate) fn write_broken<W: Write>(
    w: &mut W,
    form: Form,
    place: usize,
    broken: Broken,
) -> Result<(), WriteFault>
    ensures { OnOk result (Appends (W.contents w.old) (W.contents w.new) (broken_text form place broken)) }
{
    match form {
        Form::Lines => write_broken_line(w, place, broken),
        Form::Objects => write_broken_object(w, place, broken),
    }
}

fn write_repeat<W: Write>(w: &mut W, form: Form, place: usize) -> Result<(), WriteFault>
    ensures { OnOk result (Appends (W.contents w.old) (W.contents w.new) (repeat_text form place)) }
{
    match form {
        Form::Lines => {
            write_start(w, place)?;
            write_text(w, " no bytes, the last frame is shown again\n")
        }
        Form::Objects => {
            write_text(w, "{")?;
            write_number(w, "packet", place as u64)?;
            write_text(w, "\"repeats\":true}\n")
        }
    }
}

/// Writes a packet of no bytes, before which this is known.
pub(crate) fn write_repeat_by<W: Write>(
    w: &mut W,
    form: Form,
    place: usize,
    known: Option<&Known>,
) -> Result<(), WriteFault>
    ensures { OnOk result (Appends (W.contents w.old) (W.contents w.new) (repeat_by form place (option_copied known.entry))) }
{
    match known {
        Some(_) => write_repeat(w, form, place),
        None => {
            let cause = Cause::NoKeyFrame;
            write_broken(w, form, place, Broken { place, cause })
        }
    }
}

/// Writes the comment before the macroblocks of a packet with this header. Objects have none.
pub(crate) fn write_comment<W: Write>(
    w: &mut W,
    form: Form,
    place: usize,
    tables: &Tables,
    packet: &[u8],
    header: &Header,
) -> Result<(), WriteFault>
    ensures { OnOk result (Appends (W.contents w.old) (W.contents w.new) (comment_of form place header.now (coded_in tables.now packet.now))) }
{
    match form {
        Form::Lines => {
            let coded = read_coded(tables, packet);
            write_start(w, place)?;
            write_header_fields(w, Layout::Words, header, &coded)?;
            write_text(w, "\n")
        }
        Form::Objects => Ok(()),
    }
}

fn write_length<W: Write>(w: &mut W, partition: PartitionRange) -> Result<(), WriteFault>
    ensures { OnOk result (Appends (W.contents w.old) (W.contents w.new) (decimal partition.length)) }
{
    let length = partition.length;
    write!(w, "{length}").map_err(|_| WriteFault::Write)
}

fn write_more_lengths<W: Write>(w: &mut W, partitions: &[PartitionRange]) -> Result<(), WriteFault>
    ensures { OnOk result (Appends (W.contents w.old) (W.contents w.new) (flat_map (after_comma (λ partition. decimal partition.length)) partitions.now)) }
{
    for partition in partitions {
        write_text(w, ",")?;
        write_length(w, *partition)?;
    }
    Ok(())
}

fn write_lengths<W: Write>(w: &mut W, partitions: &[PartitionRange]) -> Result<(), WriteFault>
    ensures { OnOk result (Appends (W.contents w.old) (W.contents w.new) (joined (λ partition. decimal partition.length) partitions.now)) }
{
    match partitions.split_first() {
        None => Ok(()),
        Some((first, rest)) => {
            write_length(w, *first)?;
            write_more_lengths(w, rest)
        }
    }
}

fn write_packet_line<W: Write>(w: &mut W, place: usize) -> Result<(), WriteFault>
    ensures { OnOk result (Appends (W.contents w.old) (W.contents w.new) (packet_line place)) }
{
    write!(w, "packet\t{place}\n").map_err(|_| WriteFault::Write)
}

/// Writes the bits of the sizes of these token partitions.
fn write_sizes_bits<W: Write>(w: &mut W, header: &Header) -> Result<(), WriteFault>
    requires { 0 < length header.now.partitions.items }
    ensures { OnOk result (Appends (W.contents w.old) (W.contents w.new) (sizes_bits header.now)) }
{
    let bits = 24 * (header.partitions.len() - 1);
    write!(w, "{bits}").map_err(|_| WriteFault::Write)
}

fn write_header_lines<W: Write>(
    w: &mut W,
    place: usize,
    header: &Header,
    coded: &Coded,
) -> Result<(), WriteFault>
    requires { 0 < length header.now.partitions.items }
    ensures { OnOk result (Appends (W.contents w.old) (W.contents w.new) (header_text Form.Lines place header.now coded.now)) }
{
    write_packet_line(w, place)?;
    write_header_fields(w, Layout::Lines, header, coded)?;
    write_text(w, "token_partition_sizes\t")?;
    write_lengths(w, header.partitions.as_slice())?;
    write_text(w, "\t")?;
    write_sizes_bits(w, header)?;
    write_text(w, "\n")
}

fn write_header_object<W: Write>(
    w: &mut W,
    place: usize,
    header: &Header,
    coded: &Coded,
) -> Result<(), WriteFault>
    requires { 0 < length header.now.partitions.items }
    ensures { OnOk result (Appends (W.contents w.old) (W.contents w.new) (header_text Form.Objects place header.now coded.now)) }
{
    write_text(w, "{")?;
    write_number(w, "packet", place as u64)?;
    write_header_fields(w, Layout::Members, header, coded)?;
    write_text(w, "\"token_partition_sizes\":[")?;
    write_lengths(w, header.partitions.as_slice())?;
    write_text(w, "],\"bits\":{")?;
    write_header_fields(w, Layout::Bits, header, coded)?;
    write_text(w, "\"token_partition_sizes\":")?;
    write_sizes_bits(w, header)?;
    write_text(w, "}}\n")
}

/// Writes the header of the packet at this index, without the probabilities that it changes.
pub(crate) fn write_header<W: Write>(
    w: &mut W,
    form: Form,
    place: usize,
    header: &Header,
    coded: &Coded,
) -> Result<(), WriteFault>
    requires { 0 < length header.now.partitions.items }
    ensures { OnOk result (Appends (W.contents w.old) (W.contents w.new) (header_text form place header.now coded.now)) }
{
    match form {
        Form::Lines => write_header_lines(w, place, header, coded),
        Form::Objects => write_header_object(w, place, header, coded),
    }
}
