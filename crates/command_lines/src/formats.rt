// The formats of files that are given for a file that is read.
ghost use Rattle.std.specs.Prelude.{◌≡◌, OnOk};
ghost use Rattle.std.specs.Io.KnownBytes.{Appends};
ghost use Rattle.command_lines.specs.Formats.{around_text, coding_text, container_text, copy_text, format_of, format_text, is_avi, is_mp4, is_y4m, line_text};

use crate::in_line::write_in_line;
use std::io::{self, Write};

/// The format of a file.
#[derive(Clone, Copy, Debug, PartialEq, Eq)]
pub enum Format {
    /// MP4.
    Mp4,
    /// AVI.
    Avi,
    /// YUV4MPEG2: frames that are not coded.
    Y4m,
}

fn is_mp4(bytes: &[u8]) -> bool
    ensures { result ≡ is_mp4 bytes.now }
{
    match bytes.get(4..) {
        Some(name) => name.starts_with(b"ftyp"),
        None => false,
    }
}

fn is_avi(bytes: &[u8]) -> bool
    ensures { result ≡ is_avi bytes.now }
{
    match bytes.get(8..) {
        Some(form) => bytes.starts_with(b"RIFF") && form.starts_with(b"AVI "),
        None => false,
    }
}

fn is_y4m(bytes: &[u8]) -> bool
    ensures { result ≡ is_y4m bytes.now }
{
    bytes.starts_with(b"YUV4MPEG2")
}

/// The format of a file that begins with these bytes, if it is one of `Format`; 12 bytes are enough.
/// A file that is read has none of them.
pub fn format_of(bytes: &[u8]) -> Option<Format>
    ensures { result ≡ format_of bytes.now }
{
    if is_mp4(bytes) {
        Some(Format::Mp4)
    } else if is_avi(bytes) {
        Some(Format::Avi)
    } else if is_y4m(bytes) {
        Some(Format::Y4m)
    } else {
        None
    }
}

fn write_copy_command<E: Write>(errors: &mut E, path: &str, name: &str) -> io::Result<()>
    ensures { OnOk result (Appends (E.contents errors.old) (E.contents errors.new) (copy_text path.now name.now)) }
{
    write_in_line(errors, path)?;
    write!(errors, " is {name}; if its video is VP8: ffmpeg -i ")?;
    write_in_line(errors, path)?;
    errors.write_all(b" -an -c copy out.ivf\n")
}

fn write_around<E: Write>(errors: &mut E, start: &str, path: &str, end: &str) -> io::Result<()>
    ensures { OnOk result (Appends (E.contents errors.old) (E.contents errors.new) (around_text start.now path.now end.now)) }
{
    write!(errors, "{start}")?;
    write_in_line(errors, path)?;
    write!(errors, "{end}")
}

fn write_coding_command<E: Write>(errors: &mut E, path: &str) -> io::Result<()>
    ensures { OnOk result (Appends (E.contents errors.old) (E.contents errors.new) (coding_text path.now)) }
{
    write_around(
        errors,
        "any other video has to be coded again, which changes each frame: ffmpeg -i ",
        path,
        " -an -c:v libvpx out.ivf\n",
    )
}

fn write_container<E: Write>(errors: &mut E, path: &str, name: &str) -> io::Result<()>
    ensures { OnOk result (Appends (E.contents errors.old) (E.contents errors.new) (container_text path.now name.now)) }
{
    write_copy_command(errors, path, name)?;
    write_coding_command(errors, path)
}

fn write_line<E: Write>(errors: &mut E, path: &str, name: &str, options: &str) -> io::Result<()>
    ensures { OnOk result (Appends (E.contents errors.old) (E.contents errors.new) (line_text path.now name.now options.now)) }
{
    write_in_line(errors, path)?;
    write!(errors, " is {name}: ffmpeg -i ")?;
    write_in_line(errors, path)?;
    writeln!(errors, " {options} out.ivf")
}

/// Writes which format the file at `path` has, and the `ffmpeg` command that makes an IVF file of it.
pub fn write_format<E: Write>(errors: &mut E, path: &str, format: Format) -> io::Result<()>
    ensures { OnOk result (Appends (E.contents errors.old) (E.contents errors.new) (format_text path.now format)) }
{
    match format {
        Format::Mp4 => write_container(errors, path, "an MP4 file"),
        Format::Avi => write_container(errors, path, "an AVI file"),
        Format::Y4m => write_line(
            errors,
            path,
            "a YUV4MPEG2 file, whose frames are not coded",
            "-c:v libvpx",
        ),
    }
}
