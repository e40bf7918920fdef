//! Where the packets of a stream are in its file.

ghost use Rattle.std.specs.Prelude.{◌≡◌, ◌+◌, ◌^◌, ◌<◌, ◌≤◌, length};
ghost use Rattle.stream_files.specs.Ivf.{header_length};
ghost use Rattle.stream_facts.specs.Facts.{facts_of, first_position, position_after};
ghost use Rattle.stream_facts.specs.Places.{byte_in, first_record, placed};
ghost use Rattle.stream_facts.specs.declared.places.Places.TheVariants.{Records};

use crate::facts::{Facts, Position};
use byteorder::{ByteOrder, LittleEndian};
use stream_files::Packet;

/// Where the bytes of each packet of a stream begin in its file.
#[derive(Drop)]
pub enum Places {
    /// After the heads of an IVF file's records, the first of which begins at this byte.
    Records(usize),
    /// At these bytes, one for each packet.
    Listed(Vec<usize>),
}

impl Places {
    /// The places in an IVF file with these bytes, whose header gives its own length.
    pub fn of_ivf(bytes: &[u8]) -> Places
        requires { 32 ≤ length bytes.now }
        ensures { result ≡ Records (header_length bytes.now) }
    {
        Places::Records(usize::from(LittleEndian::read_u16(&bytes[6..])))
    }

    /// The position before the first packet.
    pub(crate) fn start(&self) -> Position
        ensures { result ≡ first_position (first_record self.now) }
    {
        match self {
            Places::Records(begins) => Position::first(*begins),
            Places::Listed(_) => Position::first(0),
        }
    }

    /// The byte at which the bytes of a packet with these facts begin.
    fn byte(&self, facts: &Facts) -> usize
        ensures { result ≡ byte_in self.now facts.now }
    {
        match self {
            Places::Records(_) => facts.byte,
            Places::Listed(bytes) => match bytes.get(facts.packet) {
                Some(byte) => *byte,
                None => 0,
            },
        }
    }

    /// The facts of the next packet; the position is then after it.
    pub(crate) fn next(&self, position: &mut Position, packet: &Packet) -> Facts
        requires room { position.old.packets + 1 < 2 ^ 64 }
        requires frames { position.old.frames ≤ position.old.packets }
        ensures facts { result ≡ placed self.now (facts_of position.old packet.now) }
        ensures after { position.new ≡ position_after position.old packet.now }
        ensures frames { position.new.frames ≤ position.new.packets }
    {
        let facts = position.next(packet);
        let byte = self.byte(&facts);
        Facts { byte, ..facts }
    }
}
