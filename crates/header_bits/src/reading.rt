//! Fields that are read for their bits alone.

ghost use Rattle.std.specs.Prelude.{◌≡◌, ◌+◌, ◌*◌, ◌≤◌};
ghost use Rattle.header_bits.specs.Bits.{four_optional, optional, optional_at, skip, three_optional, update_bits};

use bool_coder::Decoder;

/// Reads `count` bits at even odds.
pub(crate) fn skip(reader: &mut Decoder, count: u32) -> u32
    ensures value { skip count reader.old ≡ (result, reader.new) }
    ensures all { result ≡ count }
{
    for _bits in 0..count {
        let _bit = reader.flag();
    }
    count
}

/// Reads an optional field: a bit, and if it is set `more` bits at even odds.
#[tactic(auto, unfolding(crate::specs::Bits::optional_at))]
fn read_optional_at(reader: &mut Decoder, prob: u8, more: u32) -> u32
    requires { more ≤ 32 }
    ensures value { optional_at prob more reader.old ≡ (result, reader.new) }
    ensures most { result ≤ 1 + more }
{
    if !reader.bit(prob) {
        return 1;
    }
    1 + skip(reader, more)
}

/// Reads an optional field of at most 33 bits.
pub(crate) fn read_optional(reader: &mut Decoder, more: u32) -> u8
    requires { more ≤ 32 }
    ensures { optional more reader.old ≡ (result, reader.new) }
{
    read_optional_at(reader, 128, more) as u8
}

#[tactic(auto, unfolding(crate::specs::Bits::three_optional))]
pub(crate) fn three_optional(reader: &mut Decoder, more: u32) -> [u8; 3]
    requires { more ≤ 32 }
    ensures { three_optional more reader.old ≡ (result, reader.new) }
{
    let first = read_optional(reader, more);
    let second = read_optional(reader, more);
    let third = read_optional(reader, more);
    [first, second, third]
}

#[tactic(auto, unfolding(crate::specs::Bits::four_optional))]
pub(crate) fn four_optional(reader: &mut Decoder, more: u32) -> [u8; 4]
    requires { more ≤ 32 }
    ensures { four_optional more reader.old ≡ (result, reader.new) }
{
    let first = read_optional(reader, more);
    let second = read_optional(reader, more);
    let third = read_optional(reader, more);
    let fourth = read_optional(reader, more);
    [first, second, third, fourth]
}

/// Reads the updates of probabilities, each of which is optional, and `updates` its probability.
pub(crate) fn read_updates(reader: &mut Decoder, more: u32, updates: &[u8; 1056]) -> u32
    requires { more ≤ 32 }
    ensures value { update_bits more 1056 updates.now reader.old ≡ (result, reader.new) }
{
    let mut bits = 0;
    for place in 0..1056 {
        bits += read_optional_at(reader, updates[place], more);
    }
    bits
}

/// Reads the updates of the probabilities of one component of a vector.
pub(crate) fn read_component(reader: &mut Decoder, more: u32, updates: &[u8; 19]) -> u32
    requires { more ≤ 32 }
    ensures value { update_bits more 19 updates.now reader.old ≡ (result, reader.new) }
    ensures most { result ≤ 627 }
{
    let mut bits = 0;
    for place in 0..19 {
        bits += read_optional_at(reader, updates[place], more);
    }
    bits
}
