// Progress through the packets of a stream.

/// Follows the decoding of a stream, packet after packet.
pub trait Watch {
    /// Is called after each packet. `count` is the number of packets of the whole stream.
    fn packet_done(&mut self, count: usize);

    /// Is called after the last packet, or after the one at which decoding ended.
    fn end(&mut self);
}

/// Shows nothing.
#[derive(Clone, Copy, Debug)]
pub struct Unwatched;

impl Watch for Unwatched {
    fn packet_done(&mut self, _count: usize) {}

    fn end(&mut self) {}
}
