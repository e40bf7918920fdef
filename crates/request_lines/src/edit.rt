use stream_files::Bytes;

/// An edit of the packet list of the current source. Indices are counted from 0. `B` is what holds the bytes of a packet:
/// a request line has them as hexadecimal digits.
#[derive(Debug, Drop)]
pub enum Edit<B = Bytes> {
    /// Inserts a packet with a new id at index `at`, which is at most the number of packets.
    Insert { at: u64, stamp: u64, bytes: B },
    /// Gives the packet at index `at` other bytes and a new id; its time stamp stays.
    Replace { at: u64, bytes: B },
    /// Removes the packet at index `at`.
    Delete { at: u64 },
    /// Removes the packet at index `from` and inserts it at index `to` of the shortened list.
    Move { from: u64, to: u64 },
    /// Inserts a copy of packet `from` of source `source` at index `at`, with its time stamp and a new id.
    /// The packet is the one before the edit, if the source is the current one.
    Copy { source: u64, from: u64, at: u64 },
    /// Inserts a packet whose picture is 128 throughout at index `at`: a key frame of `width` by
    /// `height` luma samples, each 1 to 16,383. It has the time stamp of the packet before it, or 0.
    Blank { at: u64, width: u64, height: u64 },
    /// Inserts a packet that shows the last reference again at index `at`. Its size is the one of the last
    /// packet with a key tag before `at`. It has the time stamp of the packet before it, or 0.
    Hold { at: u64 },
    /// Sets the show bit of the packet at index `at`, or clears it. The packet keeps its id and its time stamp.
    ShowBit { at: u64, shown: bool },
}
