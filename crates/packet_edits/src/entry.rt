use packet_times::Duration;
use stream_files::Bytes;

/// A packet of a store: an id that no other packet of the store has or had, a time stamp in units
/// of `scale / rate` seconds, how long the packet is shown, and the bytes.
#[derive(Debug, Drop)]
pub struct Entry {
    pub id: u64,
    pub stamp: u64,
    pub duration: Duration,
    pub bytes: Bytes,
}
