//! A field of a header, its value and its bits.

ghost use Rattle.std.specs.Prelude.{◌≡◌, ◌++◌, OnOk};
ghost use Rattle.std.specs.Fmt.{decimal, signed_decimal};
ghost use Rattle.std.specs.List.{flat_map};
ghost use Rattle.std.specs.Io.KnownBytes.{Appends};
ghost use Rattle.macroblock_lists.specs.Fields.{bits_part, field_end, field_start, flag_field, list_end, list_of, list_start, number_field, numbers_field, signed_field, signed_numbers_field, update_field, value_part};
ghost use Rattle.macroblock_lists.specs.Parts.{after_comma, joined};

use crate::layouts::Layout;
use std::io::Write;
use stream_facts::write_text;
use stream_files::WriteFault;

/// Writes what is before the value of a field.
fn write_start<W: Write>(w: &mut W, layout: Layout, name: &str) -> Result<(), WriteFault>
    ensures { OnOk result (Appends (W.contents w.old) (W.contents w.new) (field_start layout name.now)) }
{
    match layout {
        Layout::Words => write!(w, " {name}=").map_err(|_| WriteFault::Write),
        Layout::Lines => write!(w, "{name}\t").map_err(|_| WriteFault::Write),
        Layout::Members => write!(w, "\"{name}\":").map_err(|_| WriteFault::Write),
        Layout::Bits => write!(w, "\"{name}\":").map_err(|_| WriteFault::Write),
    }
}

/// The text after the bits of a field.
fn field_end(layout: Layout) -> &'static str
    ensures { result.now ≡ field_end layout }
{
    match layout {
        Layout::Words => "",
        Layout::Lines => "\n",
        Layout::Members => ",",
        Layout::Bits => ",",
    }
}

/// The text before a list.
fn list_start(layout: Layout) -> &'static str
    ensures { result.now ≡ list_start layout }
{
    match layout {
        Layout::Words => "",
        Layout::Lines => "",
        Layout::Members => "[",
        Layout::Bits => "[",
    }
}

/// The text after a list.
fn list_end(layout: Layout) -> &'static str
    ensures { result.now ≡ list_end layout }
{
    match layout {
        Layout::Words => "",
        Layout::Lines => "",
        Layout::Members => "]",
        Layout::Bits => "]",
    }
}

/// Writes a value that is a number.
fn write_value<W: Write>(w: &mut W, layout: Layout, n: u64) -> Result<(), WriteFault>
    ensures { OnOk result (Appends (W.contents w.old) (W.contents w.new) (value_part layout (decimal n))) }
{
    match layout {
        Layout::Words | Layout::Lines | Layout::Members => {
            write!(w, "{n}").map_err(|_| WriteFault::Write)
        }
        Layout::Bits => Ok(()),
    }
}

/// Writes the number of bits of a value.
fn write_bits<W: Write>(w: &mut W, layout: Layout, bits: u32) -> Result<(), WriteFault>
    ensures { OnOk result (Appends (W.contents w.old) (W.contents w.new) (bits_part layout (decimal bits))) }
{
    match layout {
        Layout::Words | Layout::Members => Ok(()),
        Layout::Lines => write!(w, "\t{bits}").map_err(|_| WriteFault::Write),
        Layout::Bits => write!(w, "{bits}").map_err(|_| WriteFault::Write),
    }
}

/// Writes a field whose value is a number.
pub(crate) fn write_number_field<W: Write>(
    w: &mut W,
    layout: Layout,
    name: &str,
    n: u64,
    bits: u32,
) -> Result<(), WriteFault>
    ensures { OnOk result (Appends (W.contents w.old) (W.contents w.new) (number_field layout name.now n bits)) }
{
    write_start(w, layout, name)?;
    write_value(w, layout, n)?;
    write_bits(w, layout, bits)?;
    write_text(w, field_end(layout))
}

/// Writes a field whose value is 0 or 1.
pub(crate) fn write_flag_field<W: Write>(
    w: &mut W,
    layout: Layout,
    name: &str,
    flag: bool,
) -> Result<(), WriteFault>
    ensures { OnOk result (Appends (W.contents w.old) (W.contents w.new) (flag_field layout name.now flag)) }
{
    write_number_field(w, layout, name, u64::from(flag), 1)
}

/// Writes a field of updates, if bits are written.
pub(crate) fn write_update_field<W: Write>(
    w: &mut W,
    layout: Layout,
    name: &str,
    n: u64,
    bits: u32,
) -> Result<(), WriteFault>
    ensures { OnOk result (Appends (W.contents w.old) (W.contents w.new) (update_field layout name.now n bits)) }
{
    match layout {
        Layout::Words | Layout::Members => Ok(()),
        Layout::Lines | Layout::Bits => write_number_field(w, layout, name, n, bits),
    }
}

fn write_signed_value<W: Write>(w: &mut W, layout: Layout, n: &i8) -> Result<(), WriteFault>
    ensures { OnOk result (Appends (W.contents w.old) (W.contents w.new) (value_part layout (signed_decimal n.now))) }
{
    match layout {
        Layout::Words | Layout::Lines | Layout::Members => write_signed_number(w, n),
        Layout::Bits => Ok(()),
    }
}

/// Writes a field whose value is a number with a sign.
pub(crate) fn write_signed_field<W: Write>(
    w: &mut W,
    layout: Layout,
    name: &str,
    n: &i8,
    bits: u8,
) -> Result<(), WriteFault>
    ensures { OnOk result (Appends (W.contents w.old) (W.contents w.new) (signed_field layout name.now n.now bits)) }
{
    write_start(w, layout, name)?;
    write_signed_value(w, layout, n)?;
    write_bits(w, layout, u32::from(bits))?;
    write_text(w, field_end(layout))
}

fn write_number<W: Write>(w: &mut W, n: u8) -> Result<(), WriteFault>
    ensures { OnOk result (Appends (W.contents w.old) (W.contents w.new) (decimal n)) }
{
    write!(w, "{n}").map_err(|_| WriteFault::Write)
}

fn write_more_numbers<W: Write>(w: &mut W, numbers: &[u8]) -> Result<(), WriteFault>
    ensures { OnOk result (Appends (W.contents w.old) (W.contents w.new) (flat_map (after_comma decimal) numbers.now)) }
{
    for n in numbers {
        write_text(w, ",")?;
        write_number(w, *n)?;
    }
    Ok(())
}

/// Writes numbers with commas between them.
fn write_numbers<W: Write>(w: &mut W, numbers: &[u8]) -> Result<(), WriteFault>
    ensures { OnOk result (Appends (W.contents w.old) (W.contents w.new) (joined decimal numbers.now)) }
{
    match numbers.split_first() {
        None => Ok(()),
        Some((first, rest)) => {
            write_number(w, *first)?;
            write_more_numbers(w, rest)
        }
    }
}

fn write_list<W: Write>(w: &mut W, layout: Layout, numbers: &[u8]) -> Result<(), WriteFault>
    ensures { OnOk result (Appends (W.contents w.old) (W.contents w.new) (list_of layout (joined decimal numbers.now))) }
{
    write_text(w, list_start(layout))?;
    write_numbers(w, numbers)?;
    write_text(w, list_end(layout))
}

fn write_list_value<W: Write>(w: &mut W, layout: Layout, numbers: &[u8]) -> Result<(), WriteFault>
    ensures { OnOk result (Appends (W.contents w.old) (W.contents w.new) (value_part layout (list_of layout (joined decimal numbers.now)))) }
{
    match layout {
        Layout::Words | Layout::Lines | Layout::Members => write_list(w, layout, numbers),
        Layout::Bits => Ok(()),
    }
}

/// Writes the number of bits of each value of a list.
fn write_list_bits<W: Write>(w: &mut W, layout: Layout, bits: &[u8]) -> Result<(), WriteFault>
    ensures { OnOk result (Appends (W.contents w.old) (W.contents w.new) (bits_part layout (list_of layout (joined decimal bits.now)))) }
{
    match layout {
        Layout::Words | Layout::Members => Ok(()),
        Layout::Lines => {
            write_text(w, "\t")?;
            write_list(w, layout, bits)
        }
        Layout::Bits => write_list(w, layout, bits),
    }
}

/// Writes a field whose value is a list of numbers.
pub(crate) fn write_numbers_field<W: Write>(
    w: &mut W,
    layout: Layout,
    name: &str,
    numbers: &[u8],
    bits: &[u8],
) -> Result<(), WriteFault>
    ensures { OnOk result (Appends (W.contents w.old) (W.contents w.new) (numbers_field layout name.now numbers.now bits.now)) }
{
    write_start(w, layout, name)?;
    write_list_value(w, layout, numbers)?;
    write_list_bits(w, layout, bits)?;
    write_text(w, field_end(layout))
}

fn write_signed_number<W: Write>(w: &mut W, n: &i8) -> Result<(), WriteFault>
    ensures { OnOk result (Appends (W.contents w.old) (W.contents w.new) (signed_decimal n.now)) }
{
    let n = *n;
    write!(w, "{n}").map_err(|_| WriteFault::Write)
}

fn write_more_signed<W: Write>(w: &mut W, numbers: &[i8]) -> Result<(), WriteFault>
    ensures { OnOk result (Appends (W.contents w.old) (W.contents w.new) (flat_map (after_comma signed_decimal) numbers.now)) }
{
    for n in numbers {
        write_text(w, ",")?;
        write_signed_number(w, n)?;
    }
    Ok(())
}

/// Writes numbers with signs, with commas between them.
fn write_signed<W: Write>(w: &mut W, numbers: &[i8]) -> Result<(), WriteFault>
    ensures { OnOk result (Appends (W.contents w.old) (W.contents w.new) (joined signed_decimal numbers.now)) }
{
    match numbers.split_first() {
        None => Ok(()),
        Some((first, rest)) => {
            write_signed_number(w, first)?;
            write_more_signed(w, rest)
        }
    }
}

fn write_signed_list<W: Write>(w: &mut W, layout: Layout, numbers: &[i8]) -> Result<(), WriteFault>
    ensures { OnOk result (Appends (W.contents w.old) (W.contents w.new) (list_of layout (joined signed_decimal numbers.now))) }
{
    write_text(w, list_start(layout))?;
    write_signed(w, numbers)?;
    write_text(w, list_end(layout))
}

fn write_signed_list_value<W: Write>(
    w: &mut W,
    layout: Layout,
    numbers: &[i8],
) -> Result<(), WriteFault>
    ensures { OnOk result (Appends (W.contents w.old) (W.contents w.new) (value_part layout (list_of layout (joined signed_decimal numbers.now)))) }
{
    match layout {
        Layout::Words | Layout::Lines | Layout::Members => write_signed_list(w, layout, numbers),
        Layout::Bits => Ok(()),
    }
}

/// Writes a field whose value is a list of numbers with signs.
pub(crate) fn write_signed_numbers_field<W: Write>(
    w: &mut W,
    layout: Layout,
    name: &str,
    numbers: &[i8],
    bits: &[u8],
) -> Result<(), WriteFault>
    ensures { OnOk result (Appends (W.contents w.old) (W.contents w.new) (signed_numbers_field layout name.now numbers.now bits.now)) }
{
    write_start(w, layout, name)?;
    write_signed_list_value(w, layout, numbers)?;
    write_list_bits(w, layout, bits)?;
    write_text(w, field_end(layout))
}
