//! The line of a packet's facts.

ghost use Rattle.std.specs.Prelude.{◌≡◌, OnOk};
ghost use Rattle.std.specs.Io.KnownBytes.{Appends};
ghost use Rattle.stream_facts.specs.Lines.{bit_text, bits_text, cause_column, cause_text, color_columns, copy_column, field_columns, file_columns, first_column, frame_column, header_columns, kind_column, line_of, outline_bits, own_cause, place_columns, reference_columns, scale_column, show_column, size_column, size_columns, tag_columns, update_column, version_column};

use crate::facts::Facts;
use frame_header::{Cause, Colors, Outline, Reference, ReferenceUpdates, Tag};
use std::io::Write;
use stream_files::WriteFault;

/// Writes a text.
pub fn write_text<W: Write>(w: &mut W, text: &str) -> Result<(), WriteFault>
    ensures { OnOk result (Appends (W.contents w.old) (W.contents w.new) text.now) }
{
    w.write_all(text.as_bytes()).map_err(|_| WriteFault::Write)
}

/// The column of a fact that a packet does not have.
const NONE: &str = "-\t";

fn write_frame<W: Write>(w: &mut W, frame: Option<usize>) -> Result<(), WriteFault>
    ensures { OnOk result (Appends (W.contents w.old) (W.contents w.new) (frame_column frame)) }
{
    match frame {
        Some(frame) => write!(w, "{frame}\t").map_err(|_| WriteFault::Write),
        None => write_text(w, NONE),
    }
}

fn write_place<W: Write>(w: &mut W, facts: &Facts) -> Result<(), WriteFault>
    ensures { OnOk result (Appends (W.contents w.old) (W.contents w.new) (place_columns facts.now)) }
{
    let packet = facts.packet;
    write!(w, "{packet}\t").map_err(|_| WriteFault::Write)?;
    write_frame(w, facts.frame)?;
    let stamp = facts.stamp;
    let bytes = facts.bytes;
    write!(w, "{stamp}\t{bytes}\t").map_err(|_| WriteFault::Write)
}

/// The columns of a tag: its kind, and after the column of `shown` its version.
fn kind_of(tag: Option<Tag>) -> &'static str
    ensures { result.now ≡ kind_column tag }
{
    match tag {
        None => NONE,
        Some(tag) if tag.key => "key\t",
        Some(_) => "inter\t",
    }
}

fn show_of(frame: Option<usize>) -> &'static str
    ensures { result.now ≡ show_column frame }
{
    match frame {
        None => "hidden\t",
        Some(_) => "shown\t",
    }
}

fn write_version<W: Write>(w: &mut W, tag: Option<Tag>) -> Result<(), WriteFault>
    ensures { OnOk result (Appends (W.contents w.old) (W.contents w.new) (version_column tag)) }
{
    match tag {
        Some(tag) => {
            let version = tag.version;
            write!(w, "{version}\t").map_err(|_| WriteFault::Write)
        }
        None => write_text(w, NONE),
    }
}

fn write_tag<W: Write>(w: &mut W, facts: &Facts) -> Result<(), WriteFault>
    ensures { OnOk result (Appends (W.contents w.old) (W.contents w.new) (tag_columns facts.now)) }
{
    write_text(w, kind_of(facts.tag))?;
    write_text(w, show_of(facts.frame))?;
    write_version(w, facts.tag)
}

fn write_key_size<W: Write>(w: &mut W, size: Option<(u16, u16)>) -> Result<(), WriteFault>
    ensures { OnOk result (Appends (W.contents w.old) (W.contents w.new) (size_column size)) }
{
    match size {
        Some((width, height)) => { write!(w, "{width}x{height}\t").map_err(|_| WriteFault::Write) }
        None => write_text(w, NONE),
    }
}

fn write_first<W: Write>(w: &mut W, tag: Option<Tag>) -> Result<(), WriteFault>
    ensures { OnOk result (Appends (W.contents w.old) (W.contents w.new) (first_column tag)) }
{
    match tag {
        Some(tag) => {
            let first = tag.first_partition;
            write!(w, "{first}\t").map_err(|_| WriteFault::Write)
        }
        None => write_text(w, NONE),
    }
}

fn write_sizes<W: Write>(w: &mut W, facts: &Facts) -> Result<(), WriteFault>
    ensures { OnOk result (Appends (W.contents w.old) (W.contents w.new) (size_columns facts.now)) }
{
    write_key_size(w, facts.size)?;
    write_first(w, facts.tag)
}

fn copy_of(copy: Option<Reference>) -> &'static str
    ensures { result.now ≡ copy_column copy }
{
    match copy {
        None => NONE,
        Some(Reference::Last) => "last\t",
        Some(Reference::Golden) => "golden\t",
        Some(Reference::Altref) => "altref\t",
    }
}

fn update_of(refreshed: bool, copy: Option<Reference>) -> &'static str
    ensures { result.now ≡ update_column refreshed copy }
{
    if refreshed { "new\t" } else { copy_of(copy) }
}

fn write_references<W: Write>(w: &mut W, updates: ReferenceUpdates) -> Result<(), WriteFault>
    ensures { OnOk result (Appends (W.contents w.old) (W.contents w.new) (reference_columns updates)) }
{
    write_text(w, update_of(updates.refreshes_last, None))?;
    write_text(w, update_of(updates.refreshes_golden, updates.golden_copy))?;
    write_text(w, update_of(updates.refreshes_altref, updates.altref_copy))
}

fn write_fields<W: Write>(w: &mut W, fields: Outline) -> Result<(), WriteFault>
    ensures { OnOk result (Appends (W.contents w.old) (W.contents w.new) (field_columns fields)) }
{
    let Outline {
        partitions,
        quantizer,
        level,
        references,
        ..
    } = fields;
    write!(w, "{partitions}\t{quantizer}\t{level}\t").map_err(|_| WriteFault::Write)?;
    write_references(w, references)
}

/// Writes the name of a cause; that of `TokenPartition` is followed by its number.
pub fn write_cause<W: Write>(w: &mut W, cause: Cause) -> Result<(), WriteFault>
    ensures { OnOk result (Appends (W.contents w.old) (W.contents w.new) (cause_text cause)) }
{
    match cause {
        Cause::TokenPartition(k) => {
            write!(w, "TokenPartition {k}").map_err(|_| WriteFault::Write)
        }
        _ => write_text(w, cause.word()),
    }
}

fn write_header<W: Write>(
    w: &mut W,
    header: Result<Option<Outline>, Cause>,
) -> Result<(), WriteFault>
    ensures { OnOk result (Appends (W.contents w.old) (W.contents w.new) (header_columns header)) }
{
    match header {
        Ok(Some(fields)) => write_fields(w, fields),
        Ok(None) | Err(_) => write_text(w, "-\t-\t-\t-\t-\t-\t"),
    }
}

fn write_own_cause<W: Write>(
    w: &mut W,
    header: Result<Option<Outline>, Cause>,
) -> Result<(), WriteFault>
    ensures { OnOk result (Appends (W.contents w.old) (W.contents w.new) (own_cause header)) }
{
    match header {
        Ok(_) => write_text(w, NONE),
        Err(cause) => {
            write_cause(w, cause)?;
            write_text(w, "\t")
        }
    }
}

fn write_cause_column<W: Write>(w: &mut W, facts: &Facts) -> Result<(), WriteFault>
    ensures { OnOk result (Appends (W.contents w.old) (W.contents w.new) (cause_column facts.now)) }
{
    if facts.is_lost {
        write_text(w, "lost\t")
    } else {
        write_own_cause(w, facts.header)
    }
}

fn write_scale<W: Write>(w: &mut W, scales: Option<(u8, u8)>) -> Result<(), WriteFault>
    ensures { OnOk result (Appends (W.contents w.old) (W.contents w.new) (scale_column scales)) }
{
    match scales {
        Some((across, down)) => write!(w, "{across}x{down}\t").map_err(|_| WriteFault::Write),
        None => write_text(w, NONE),
    }
}

fn write_file<W: Write>(w: &mut W, facts: &Facts) -> Result<(), WriteFault>
    ensures { OnOk result (Appends (W.contents w.old) (W.contents w.new) (file_columns facts.now)) }
{
    let byte = facts.byte;
    write!(w, "{byte}\t").map_err(|_| WriteFault::Write)?;
    write_scale(w, facts.scales)
}

fn bit_text(bit: bool) -> &'static str
    ensures { result.now ≡ bit_text bit }
{
    if bit { "1" } else { "0" }
}

fn write_bits<W: Write>(w: &mut W, colors: Colors) -> Result<(), WriteFault>
    ensures { OnOk result (Appends (W.contents w.old) (W.contents w.new) (bits_text colors)) }
{
    write_text(w, bit_text(colors.color_space))?;
    write_text(w, "\t")?;
    write_text(w, bit_text(colors.clamping_type))?;
    write_text(w, "\n")
}

fn write_outline_bits<W: Write>(
    w: &mut W,
    tag: Option<Tag>,
    fields: Outline,
) -> Result<(), WriteFault>
    ensures { OnOk result (Appends (W.contents w.old) (W.contents w.new) (outline_bits tag fields)) }
{
    match tag {
        Some(tag) if tag.key => write_bits(w, fields.colors),
        _ => write_text(w, "-\t-\n"),
    }
}

fn write_colors<W: Write>(
    w: &mut W,
    tag: Option<Tag>,
    header: Result<Option<Outline>, Cause>,
) -> Result<(), WriteFault>
    ensures { OnOk result (Appends (W.contents w.old) (W.contents w.new) (color_columns tag header)) }
{
    match header {
        Ok(Some(fields)) => write_outline_bits(w, tag, fields),
        Ok(None) | Err(_) => write_text(w, "-\t-\n"),
    }
}

/// Writes the line of a packet's facts.
pub(crate) fn write_line<W: Write>(w: &mut W, facts: Facts) -> Result<(), WriteFault>
    ensures { OnOk result (Appends (W.contents w.old) (W.contents w.new) (line_of facts)) }
{
    write_place(w, &facts)?;
    write_tag(w, &facts)?;
    write_sizes(w, &facts)?;
    write_header(w, facts.header)?;
    write_cause_column(w, &facts)?;
    write_file(w, &facts)?;
    write_colors(w, facts.tag, facts.header)
}
