ghost use Rattle.std.specs.Prelude.{◌≡◌, ◌<◌, ◌≤◌, ◌+◌, length};
ghost use Rattle.frame_header.specs.Tags.{number_at, tag_of, has_key_tag, is_shown, has_start_code, width_of, height_of, key_size_of};

use crate::tag_fields::Tag;

/// The number in three bytes starting at index `at`, least significant first.
pub(crate) fn number_at(bytes: &[u8], at: usize) -> u32
    requires { at + 3 ≤ length bytes.now }
    ensures value { result ≡ number_at bytes.now at }
    ensures small { result < 16777216 }
{
    bytes[at] as u32 + 256 * bytes[at + 1] as u32 + 65536 * bytes[at + 2] as u32
}

/// The tag of a packet; `None` if it has fewer than 3 bytes.
pub fn tag(packet: &[u8]) -> Option<Tag>
    ensures { result ≡ tag_of packet.now }
{
    if packet.len() < 3 {
        return None;
    }
    let number = number_at(packet, 0);
    Some(Tag {
        key: number % 2 == 0,
        version: (number / 2 % 8) as u8,
        shown: number / 16 % 2 == 1,
        first_partition: number / 32,
    })
}

/// Whether a packet has 3 bytes or more and the tag of a key frame.
pub fn has_key_tag(packet: &[u8]) -> bool
    ensures { result ≡ has_key_tag packet.now }
{
    tag(packet).is_some_and(|tag| tag.key)
}

/// Whether a packet counts as a shown frame: its tag says so, or it has fewer than 3 bytes.
pub fn is_shown(packet: &[u8]) -> bool
    ensures { result ≡ is_shown packet.now }
{
    tag(packet).is_none_or(|tag| tag.shown)
}

/// Whether the start code of a key frame follows the tag (RFC 6386, section 9.1).
pub(crate) fn has_start_code(packet: &[u8]) -> bool
    requires { 10 ≤ length packet.now }
    ensures { result ≡ has_start_code packet.now }
{
    packet[3] == 0x9D && packet[4] == 0x01 && packet[5] == 0x2A
}

/// The size of a key frame, 14 bits a side, without the scale bits (RFC 6386, section 9.1).
pub(crate) fn size_of(packet: &[u8]) -> (u16, u16)
    requires { 10 ≤ length packet.now }
    ensures width { result.0 ≡ width_of packet.now }
    ensures height { result.1 ≡ height_of packet.now }
    ensures narrow { result.0 < 16384 }
    ensures low { result.1 < 16384 }
{
    let width = (packet[6] as u16 + 256 * packet[7] as u16) % 16384;
    let height = (packet[8] as u16 + 256 * packet[9] as u16) % 16384;
    (width, height)
}

/// The width and height of a packet that has a key tag, 10 bytes or more, the start code and no
/// side of 0; `None` for any other.
pub fn key_size(packet: &[u8]) -> Option<(u16, u16)>
    ensures { result ≡ key_size_of packet.now }
{
    if !has_key_tag(packet) || packet.len() < 10 || !has_start_code(packet) {
        return None;
    }
    let (width, height) = size_of(packet);
    if width == 0 || height == 0 {
        return None;
    }
    Some((width, height))
}
