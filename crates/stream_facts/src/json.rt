//! The line of a packet's facts as a JSON object.

ghost use Rattle.std.specs.Prelude.{◌≡◌, ◌+◌, ◌^◌, ◌<◌, OnOk, codes};
ghost use Rattle.std.specs.Io.KnownBytes.{Appends};
ghost use Rattle.stream_facts.specs.Json.{bit_members, bit_value, cause_member, color_members, copy_value, field_members, first_of, header_members, kind_value, member, number_member, object_of, optional_member, outline_bits, own_cause, place_members, reference_members, scale_member, show_value, size_member, size_members, some_fields, tag_members, update_value, version_of};
ghost use Rattle.stream_facts.specs.Lists.{objects_of};

use crate::facts::Facts;
use crate::lines::{write_cause, write_text};
use crate::places::Places;
use frame_header::{Cause, Colors, Outline, Reference, ReferenceUpdates, Tag};
use std::io::Write;
use stream_files::{Packet, WriteFault};

const NO_FIELDS: &str =
    "\"partitions\":null,\"quantizer\":null,\"level\":null,\"last\":null,\"golden\":null,\"altref\":null,";

const NO_BITS: &str = "\"color\":null,\"clamp\":null,";

/// Writes a member whose value is this text, and a comma.
pub fn write_member<W: Write>(w: &mut W, name: &str, value: &str) -> Result<(), WriteFault>
    ensures { OnOk result (Appends (W.contents w.old) (W.contents w.new) (member name.now value.now)) }
{
    write_text(w, "\"")?;
    write_text(w, name)?;
    write_text(w, "\":")?;
    write_text(w, value)?;
    write_text(w, ",")
}

/// Writes a member whose value is a number, and a comma.
pub fn write_number<W: Write>(w: &mut W, name: &str, n: u64) -> Result<(), WriteFault>
    ensures { OnOk result (Appends (W.contents w.old) (W.contents w.new) (number_member name.now n)) }
{
    write_text(w, "\"")?;
    write_text(w, name)?;
    write_text(w, "\":")?;
    write!(w, "{n}").map_err(|_| WriteFault::Write)?;
    write_text(w, ",")
}

/// Writes a member whose value is a number or null, and a comma.
pub fn write_optional<W: Write>(w: &mut W, name: &str, n: Option<u64>) -> Result<(), WriteFault>
    ensures { OnOk result (Appends (W.contents w.old) (W.contents w.new) (optional_member name.now n)) }
{
    match n {
        None => write_member(w, name, "null"),
        Some(n) => write_number(w, name, n),
    }
}

/// An index as a number of 64 bits.
fn wide(n: Option<usize>) -> Option<u64>
    ensures { result ≡ n }
{
    match n {
        None => None,
        Some(n) => Some(n as u64),
    }
}

fn write_place<W: Write>(w: &mut W, facts: &Facts) -> Result<(), WriteFault>
    ensures { OnOk result (Appends (W.contents w.old) (W.contents w.new) (place_members facts.now)) }
{
    write_number(w, "packet", facts.packet as u64)?;
    write_optional(w, "frame", wide(facts.frame))?;
    write_number(w, "stamp", facts.stamp)?;
    write_number(w, "byte", facts.byte as u64)?;
    write_number(w, "bytes", facts.bytes as u64)
}

fn kind_of(tag: Option<Tag>) -> &'static str
    ensures { result.now ≡ kind_value tag }
{
    match tag {
        None => "null",
        Some(tag) if tag.key => "\"key\"",
        Some(_) => "\"inter\"",
    }
}

fn show_of(frame: Option<usize>) -> &'static str
    ensures { result.now ≡ show_value frame }
{
    match frame {
        None => "\"hidden\"",
        Some(_) => "\"shown\"",
    }
}

fn version_of(tag: Option<Tag>) -> Option<u64>
    ensures { result ≡ version_of tag }
{
    match tag {
        None => None,
        Some(tag) => Some(u64::from(tag.version)),
    }
}

fn first_of(tag: Option<Tag>) -> Option<u64>
    ensures { result ≡ first_of tag }
{
    match tag {
        None => None,
        Some(tag) => Some(u64::from(tag.first_partition)),
    }
}

fn write_tag<W: Write>(w: &mut W, facts: &Facts) -> Result<(), WriteFault>
    ensures { OnOk result (Appends (W.contents w.old) (W.contents w.new) (tag_members facts.now)) }
{
    write_member(w, "kind", kind_of(facts.tag))?;
    write_member(w, "show", show_of(facts.frame))?;
    write_optional(w, "version", version_of(facts.tag))
}

fn write_size<W: Write>(w: &mut W, size: Option<(u16, u16)>) -> Result<(), WriteFault>
    ensures { OnOk result (Appends (W.contents w.old) (W.contents w.new) (size_member size)) }
{
    match size {
        None => write_text(w, "\"size\":null,"),
        Some((width, height)) => {
            write!(w, "\"size\":\"{width}x{height}\",").map_err(|_| WriteFault::Write)
        }
    }
}

fn write_scale<W: Write>(w: &mut W, scales: Option<(u8, u8)>) -> Result<(), WriteFault>
    ensures { OnOk result (Appends (W.contents w.old) (W.contents w.new) (scale_member scales)) }
{
    match scales {
        None => write_text(w, "\"scale\":null,"),
        Some((across, down)) => {
            write!(w, "\"scale\":\"{across}x{down}\",").map_err(|_| WriteFault::Write)
        }
    }
}

fn write_sizes<W: Write>(w: &mut W, facts: &Facts) -> Result<(), WriteFault>
    ensures { OnOk result (Appends (W.contents w.old) (W.contents w.new) (size_members facts.now)) }
{
    write_size(w, facts.size)?;
    write_scale(w, facts.scales)?;
    write_optional(w, "first", first_of(facts.tag))
}

fn copy_of(copy: Option<Reference>) -> &'static str
    ensures { result.now ≡ copy_value copy }
{
    match copy {
        None => "null",
        Some(Reference::Last) => "\"last\"",
        Some(Reference::Golden) => "\"golden\"",
        Some(Reference::Altref) => "\"altref\"",
    }
}

fn update_of(refreshed: bool, copy: Option<Reference>) -> &'static str
    ensures { result.now ≡ update_value refreshed copy }
{
    if refreshed { "\"new\"" } else { copy_of(copy) }
}

fn write_references<W: Write>(w: &mut W, updates: ReferenceUpdates) -> Result<(), WriteFault>
    ensures { OnOk result (Appends (W.contents w.old) (W.contents w.new) (reference_members updates)) }
{
    let last = update_of(updates.refreshes_last, None);
    let golden = update_of(updates.refreshes_golden, updates.golden_copy);
    let altref = update_of(updates.refreshes_altref, updates.altref_copy);
    write_member(w, "last", last)?;
    write_member(w, "golden", golden)?;
    write_member(w, "altref", altref)
}

fn write_fields<W: Write>(w: &mut W, fields: Outline) -> Result<(), WriteFault>
    ensures { OnOk result (Appends (W.contents w.old) (W.contents w.new) (field_members fields)) }
{
    write_number(w, "partitions", fields.partitions as u64)?;
    write_number(w, "quantizer", u64::from(fields.quantizer))?;
    write_number(w, "level", u64::from(fields.level))?;
    write_references(w, fields.references)
}

fn write_some_fields<W: Write>(w: &mut W, fields: Option<Outline>) -> Result<(), WriteFault>
    ensures { OnOk result (Appends (W.contents w.old) (W.contents w.new) (some_fields fields)) }
{
    match fields {
        None => write_text(w, NO_FIELDS),
        Some(fields) => write_fields(w, fields),
    }
}

fn write_header<W: Write>(
    w: &mut W,
    header: Result<Option<Outline>, Cause>,
) -> Result<(), WriteFault>
    ensures { OnOk result (Appends (W.contents w.old) (W.contents w.new) (header_members header)) }
{
    match header {
        Ok(fields) => write_some_fields(w, fields),
        Err(_) => write_text(w, NO_FIELDS),
    }
}

fn bit_of(bit: bool) -> &'static str
    ensures { result.now ≡ bit_value bit }
{
    if bit { "1" } else { "0" }
}

fn write_bits<W: Write>(w: &mut W, colors: Colors) -> Result<(), WriteFault>
    ensures { OnOk result (Appends (W.contents w.old) (W.contents w.new) (bit_members colors)) }
{
    write_member(w, "color", bit_of(colors.color_space))?;
    write_member(w, "clamp", bit_of(colors.clamping_type))
}

fn write_outline_bits<W: Write>(
    w: &mut W,
    tag: Option<Tag>,
    fields: Outline,
) -> Result<(), WriteFault>
    ensures { OnOk result (Appends (W.contents w.old) (W.contents w.new) (outline_bits tag fields)) }
{
    match tag {
        Some(tag) if tag.key => write_bits(w, fields.colors),
        _ => write_text(w, NO_BITS),
    }
}

fn write_colors<W: Write>(
    w: &mut W,
    tag: Option<Tag>,
    header: Result<Option<Outline>, Cause>,
) -> Result<(), WriteFault>
    ensures { OnOk result (Appends (W.contents w.old) (W.contents w.new) (color_members tag header)) }
{
    match header {
        Ok(Some(fields)) => write_outline_bits(w, tag, fields),
        Ok(None) | Err(_) => write_text(w, NO_BITS),
    }
}

fn write_own_cause<W: Write>(
    w: &mut W,
    header: Result<Option<Outline>, Cause>,
) -> Result<(), WriteFault>
    ensures { OnOk result (Appends (W.contents w.old) (W.contents w.new) (own_cause header)) }
{
    match header {
        Ok(_) => write_text(w, "\"cause\":null"),
        Err(cause) => {
            write_text(w, "\"cause\":\"")?;
            write_cause(w, cause)?;
            write_text(w, "\"")
        }
    }
}

fn write_cause_member<W: Write>(w: &mut W, facts: &Facts) -> Result<(), WriteFault>
    ensures { OnOk result (Appends (W.contents w.old) (W.contents w.new) (cause_member facts.now)) }
{
    if facts.is_lost {
        write_text(w, "\"cause\":\"lost\"")
    } else {
        write_own_cause(w, facts.header)
    }
}

/// Writes the object of a packet's facts, with its newline.
pub fn write_object<W: Write>(w: &mut W, facts: Facts) -> Result<(), WriteFault>
    ensures { OnOk result (Appends (W.contents w.old) (W.contents w.new) (object_of facts)) }
{
    write_text(w, "{")?;
    write_place(w, &facts)?;
    write_tag(w, &facts)?;
    write_sizes(w, &facts)?;
    write_header(w, facts.header)?;
    write_colors(w, facts.tag, facts.header)?;
    write_cause_member(w, &facts)?;
    write_text(w, "}\n")
}

/// Writes a line for each packet of a file, where they are at these places: a JSON object with its facts. Only headers are read.
pub fn write_objects<W: Write>(
    w: &mut W,
    places: &Places,
    packets: &[Packet],
) -> Result<(), WriteFault>
    ensures { OnOk result (Appends (W.contents w.old) (W.contents w.new) (objects_of places.now packets.now)) }
{
    let mut position = places.start();
    for packet in packets {
        let facts = places.next(&mut position, packet);
        write_object(w, facts)?;
    }
    Ok(())
}
