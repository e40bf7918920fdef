//! Frames as lines of text.

use crate::fault::Fault;
use md5::{Digest, Md5};
use pixel_planes::Picture;
use std::io::{self, Write};
use stream_files::y4m_frame;

/// Hashes what is written.
#[derive(Drop)]
struct Hashed {
    hasher: Md5,
}

impl Write for Hashed {
    fn write(&mut self, buf: &[u8]) -> io::Result<usize> {
        self.hasher.update(buf);
        Ok(buf.len())
    }

    fn flush(&mut self) -> io::Result<()> {
        Ok(())
    }
}

/// Prints what a picture is, its size and the MD5 of its frame in a YUV4MPEG2 file.
pub fn print<O: Write>(output: &mut O, name: &str, picture: &Picture) -> Result<(), Fault> {
    let mut hashed = Hashed { hasher: Md5::new() };
    y4m_frame(&mut hashed, picture)?;
    let (width, height) = (picture.width(), picture.height());
    write!(output, "{name}: {width}x{height} ")?;
    for byte in hashed.hasher.finalize() {
        write!(output, "{byte:02x}")?;
    }
    writeln!(output)?;
    Ok(())
}
