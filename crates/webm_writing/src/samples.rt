// What is written of a file.
use stream_files::Bytes;

/// A part of a Segment that is written as it is, such as Info, Tracks or Tags: its name, a number of four bytes (RFC 9559, section 27), and its content.
#[derive(Drop)]
pub struct Part {
    pub id: u32,
    pub content: Bytes,
}

/// A packet of a track: the number of the track, the time in units of the file, whether decoding can begin there, which is said of the video only, and the bytes.
#[derive(Drop)]
pub struct Sample {
    pub track: u8,
    pub stamp: u64,
    pub is_key: bool,
    pub bytes: Bytes,
}
