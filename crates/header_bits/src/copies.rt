//! The numbers of the references that golden and altref become copies of.

ghost use Rattle.std.specs.Prelude.{◌≡◌};
ghost use Rattle.header_bits.specs.Copies.{copies_in, copy_number, copy_numbers, inter_copies, no_copies};

use crate::bits::{first_text, read_first, read_quantizers};
use bool_coder::Decoder;
use frame_header::has_key_tag;

/// `copy_buffer_to_golden` and `copy_buffer_to_arf` as they are coded, 0 to 3 each: 1 is the last frame, 2 is altref for golden and
/// golden for altref, 0 and 3 are none (RFC 6386, section 9.7). 0 if the number is not coded.
#[derive(Clone, Copy, Debug, PartialEq, Eq)]
pub struct CopyNumbers {
    /// Of golden.
    pub golden: u8,
    /// Of altref.
    pub altref: u8,
}

impl CopyNumbers {
    /// Those of a header that has none.
    pub(crate) fn none() -> CopyNumbers
        ensures { result ≡ no_copies }
    {
        CopyNumbers {
            golden: 0,
            altref: 0,
        }
    }
}

#[tactic(auto, unfolding(crate::specs::Copies::copy_number))]
fn read_number(reader: &mut Decoder, is_refreshed: bool) -> u8
    ensures { copy_number is_refreshed reader.old ≡ (result, reader.new) }
{
    if is_refreshed {
        0
    } else {
        reader.literal(2) as u8
    }
}

#[tactic(auto, unfolding(crate::specs::Copies::inter_copies))]
pub(crate) fn read_inter_copies(reader: &mut Decoder) -> CopyNumbers
    ensures { inter_copies reader.old ≡ (result, reader.new) }
{
    let refreshes_golden = reader.flag();
    let refreshes_altref = reader.flag();
    let golden = read_number(reader, refreshes_golden);
    let altref = read_number(reader, refreshes_altref);
    CopyNumbers { golden, altref }
}

#[tactic(auto, unfolding(crate::specs::Copies::copies_in))]
fn read_copies(reader: &mut Decoder, is_key: bool) -> CopyNumbers
    ensures { copies_in is_key reader.old ≡ (result, reader.new) }
{
    let _first = read_first(reader, is_key);
    let _quantizers = read_quantizers(reader);
    if is_key {
        CopyNumbers::none()
    } else {
        read_inter_copies(reader)
    }
}

/// The numbers of a packet that `frame_header::read_header` accepts: law `copies_are_named`. Of any other packet they are read of a
/// first partition with zeros after the end of the packet.
#[tactic(auto, unfolding(crate::specs::Copies::copy_numbers))]
pub fn copy_numbers(packet: &[u8]) -> CopyNumbers
    ensures { result ≡ copy_numbers packet.now }
{
    let mut reader = Decoder::new(first_text(packet));
    read_copies(&mut reader, has_key_tag(packet))
}
