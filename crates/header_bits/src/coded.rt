//! What the text of a header has besides the decoder's header.

ghost use Rattle.std.specs.Prelude.{◌≡◌};
ghost use Rattle.header_bits.specs.Coded.{coded_in, first_size, scales_of};

use crate::bits::{HeaderBits, read_bits_and_copies};
use crate::copies::CopyNumbers;
use frame_header::{key_scales, tag};
use vp8_tables::Tables;

/// What the text of a header has besides the decoder's header: the bits of its fields, and numbers that decoding does not use.
#[derive(Clone, Copy, Debug, PartialEq, Eq)]
pub struct Coded {
    /// The bits of its optional fields.
    pub bits: HeaderBits,
    /// `copy_buffer_to_golden` and `copy_buffer_to_arf`.
    pub copies: CopyNumbers,
    /// The bytes of the first partition that the tag gives (`first_part_size`); 0 without a tag.
    pub first_size: u32,
    /// The horizontal and the vertical scale of a key frame, 0 to 3 each; 0 of any other packet.
    pub scales: (u8, u8),
}

fn first_size(packet: &[u8]) -> u32
    ensures { result ≡ first_size packet.now }
{
    match tag(packet) {
        None => 0,
        Some(tag) => tag.first_partition,
    }
}

fn scales(packet: &[u8]) -> (u8, u8)
    ensures { result ≡ scales_of packet.now }
{
    match key_scales(packet) {
        None => (0, 0),
        Some(scales) => scales,
    }
}

/// Reads what the text of a packet's header has besides the decoder's header, in one pass over its fields.
pub fn read_coded(tables: &Tables, packet: &[u8]) -> Coded
    ensures { result ≡ coded_in tables.now packet.now }
{
    let (bits, copies) = read_bits_and_copies(tables, packet);
    Coded {
        bits,
        copies,
        first_size: first_size(packet),
        scales: scales(packet),
    }
}
