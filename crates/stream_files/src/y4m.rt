// Writes YUV4MPEG2.
ghost use Rattle.std.specs.Prelude.{◌≡◌, OnOk};
ghost use Rattle.std.specs.Io.KnownBytes.{Appends};
ghost use Rattle.pixel_planes.specs.Pictures.{shown_height, shown_plane};
ghost use Rattle.stream_files.specs.Y4m.{fraction, frame_text, line_of, write_fault_word, y4m_line};

use pixel_planes::{Component, Picture};
use std::io::Write;
use thiserror::Error;

/// Why a text was not written.
#[derive(Clone, Copy, Debug, PartialEq, Eq, Error)]
pub enum WriteFault {
    /// The writer returned an error.
    #[error("the writer returned an error")]
    Write,
}

impl WriteFault {
    /// The error's name.
    pub const fn word(self) -> &'static str
        ensures { result.now ≡ write_fault_word self }
    {
        match self {
            WriteFault::Write => "Write",
        }
    }
}

/// Writes the first line, with a frame rate that is a fraction.
fn write_line<W: Write>(
    w: &mut W,
    width: u16,
    height: u16,
    rate: u32,
    scale: u32,
) -> Result<(), WriteFault>
    ensures { OnOk result (Appends (W.contents w.old) (W.contents w.new)
        (line_of width height (fraction rate scale))) }
{
    match writeln!(
        w,
        "YUV4MPEG2 W{width} H{height} F{rate}:{scale} Ip C420jpeg"
    ) {
        Ok(()) => Ok(()),
        Err(_) => Err(WriteFault::Write),
    }
}

/// Writes the first line of a stream of frames of `width` by `height` shown luma samples and
/// `rate / scale` frames per second, or 30 if either of them is 0.
///
/// `Write` if the writer returns an error; part of the line may have been written.
pub fn y4m_header<W: Write>(
    w: &mut W,
    width: u16,
    height: u16,
    rate: u32,
    scale: u32,
) -> Result<(), WriteFault>
    ensures { OnOk result (Appends (W.contents w.old) (W.contents w.new)
        (y4m_line width height rate scale)) }
{
    if rate == 0 || scale == 0 {
        write_line(w, width, height, 30, 1)
    } else {
        write_line(w, width, height, rate, scale)
    }
}

/// The number of shown rows of a component.
fn row_count(picture: &Picture, component: Component) -> usize
    ensures { result ≡ shown_height picture.now component }
{
    let height = usize::from(picture.height());
    match component {
        Component::Luma => height,
        Component::Cb | Component::Cr => height.div_ceil(2),
    }
}

/// Writes the shown rows of a component in sequence.
fn write_plane<W: Write>(
    w: &mut W,
    picture: &Picture,
    component: Component,
) -> Result<(), WriteFault>
    ensures { OnOk result (Appends (W.contents w.old) (W.contents w.new)
        (shown_plane picture.now component)) }
{
    for y in 0..row_count(picture, component) {
        w.write_all(picture.shown_row(component, y))
            .map_err(|_| WriteFault::Write)?;
    }
    Ok(())
}

/// Writes a frame: `FRAME`, a newline, and the shown Y, Cb and Cr samples by rows. The chroma
/// planes have half the shown width and height, rounded up.
///
/// `Write` if the writer returns an error; part of the frame may have been written.
pub fn y4m_frame<W: Write>(w: &mut W, picture: &Picture) -> Result<(), WriteFault>
    ensures { OnOk result (Appends (W.contents w.old) (W.contents w.new) (frame_text picture.now)) }
{
    w.write_all(b"FRAME\n").map_err(|_| WriteFault::Write)?;
    write_plane(w, picture, Component::Luma)?;
    write_plane(w, picture, Component::Cb)?;
    write_plane(w, picture, Component::Cr)
}
