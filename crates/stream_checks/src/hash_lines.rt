//! The lines of the text.

ghost use Rattle.std.specs.Prelude.{◌≡◌, OnOk};
ghost use Rattle.std.specs.Io.KnownBytes.{Appends};
ghost use Rattle.hex.specs.Hex.{encode_lower};
ghost use Rattle.stream_checks.specs.HashLines.{head_lines, line_of, number_column, sample_columns, samples_of, time_columns};

use crate::samples::{sample_count, samples_md5};
use crate::time_bases::TimeBase;
use pixel_planes::Picture;
use std::io::Write;
use stream_facts::write_text;
use stream_files::WriteFault;

/// Writes the lines before the frames.
pub(crate) fn write_head<W: Write>(
    w: &mut W,
    base: TimeBase,
    width: u16,
    height: u16,
) -> Result<(), WriteFault>
    ensures { OnOk result (Appends (W.contents w.old) (W.contents w.new) (head_lines base width height)) }
{
    let TimeBase {
        numerator,
        denominator,
    } = base;
    match write!(
        w,
        "#format: frame checksums\n#version: 2\n#hash: MD5\n#tb 0: {numerator}/{denominator}\n#media_type 0: video\n#codec_id 0: rawvideo\n#dimensions 0: {width}x{height}\n#sar 0: 0/1\n#stream#, dts,        pts, duration,     size, hash\n"
    ) {
        Ok(()) => Ok(()),
        Err(_) => Err(WriteFault::Write),
    }
}

/// Writes a time stamp, and a comma.
fn write_time<W: Write>(w: &mut W, stamp: u64) -> Result<(), WriteFault>
    ensures { OnOk result (Appends (W.contents w.old) (W.contents w.new) (number_column 10 stamp)) }
{
    match write!(w, "{stamp:>10}, ") {
        Ok(()) => Ok(()),
        Err(_) => Err(WriteFault::Write),
    }
}

fn write_times<W: Write>(w: &mut W, stamp: u64) -> Result<(), WriteFault>
    ensures { OnOk result (Appends (W.contents w.old) (W.contents w.new) (time_columns stamp)) }
{
    write_text(w, "0, ")?;
    write_time(w, stamp)?;
    write_time(w, stamp)?;
    write_text(w, "       1, ")
}

/// The two digits of each byte of a digest.
fn hex_text(digest: [u8; 16]) -> [u8; 32]
    ensures { result ≡ encode_lower digest }
{
    let mut text = [0; 32];
    let _ = hex::encode_to_slice(digest, &mut text);
    text
}

/// Writes the number of bytes of a frame's samples, and a comma.
fn write_length<W: Write>(w: &mut W, length: usize) -> Result<(), WriteFault>
    ensures { OnOk result (Appends (W.contents w.old) (W.contents w.new) (number_column 8 length)) }
{
    match write!(w, "{length:>8}, ") {
        Ok(()) => Ok(()),
        Err(_) => Err(WriteFault::Write),
    }
}

fn write_samples<W: Write>(w: &mut W, picture: &Picture) -> Result<(), WriteFault>
    ensures { OnOk result (Appends (W.contents w.old) (W.contents w.new) (sample_columns (samples_of picture.now))) }
{
    let digits = hex_text(samples_md5(picture));
    write_length(w, sample_count(picture))?;
    w.write_all(&digits).map_err(|_| WriteFault::Write)?;
    write_text(w, "\n")
}

/// Writes the line of a frame.
pub(crate) fn write_line<W: Write>(
    w: &mut W,
    stamp: u64,
    picture: &Picture,
) -> Result<(), WriteFault>
    ensures { OnOk result (Appends (W.contents w.old) (W.contents w.new) (line_of (record { stamp = stamp; picture = picture.now }))) }
{
    write_times(w, stamp)?;
    write_samples(w, picture)
}
