//! The sizes of coefficients: the token tree below its second node (RFC 6386, section 13.2).

ghost use Rattle.std.specs.Prelude.{◌≡◌, ◌+◌, ◌^◌, ◌<◌, ◌≤◌, length};
ghost use Rattle.token_parser.specs.TokenTree.{size_in};
ghost use Rattle.token_parser.specs.Walks.{size_below};

use crate::rows::Nodes;
use bool_coder::Decoder;

/// A size of a category whose least is `least`: a bit for each probability.
#[inline(always)]
fn read_size_in(reader: &mut Decoder, least: u16, probs: &[u8]) -> u16
    requires least { least ≤ 67 }
    requires few { length probs.now ≤ 11 }
    ensures value { size_in least probs.now reader.old ≡ (result, reader.new) }
    ensures least { least ≤ result }
    ensures most { result < least + 2 ^ length probs.now }
{
    let mut extra = 0;
    for prob in probs {
        extra = 2 * extra + reader.bit(*prob) as u16;
    }
    least + extra
}

/// The size of a token of category 3 or above.
#[inline(always)]
fn read_largest(reader: &mut Decoder, nodes: &Nodes) -> u16
    ensures value { size_below 3 nodes.now 16 reader.old ≡ (result, reader.new) }
    ensures some { 2 ≤ result }
    ensures most { result ≤ 2114 }
{
    if !nodes.bit(reader, 8) {
        return if nodes.bit(reader, 9) {
            read_size_in(reader, 19, &[176, 155, 140, 135])
        } else {
            read_size_in(reader, 11, &[173, 148, 140])
        };
    }
    if nodes.bit(reader, 10) {
        read_size_in(
            reader,
            67,
            &[254, 254, 243, 230, 196, 177, 153, 140, 133, 130, 129],
        )
    } else {
        read_size_in(reader, 35, &[180, 157, 141, 134, 130])
    }
}

/// The size of a token above 1.
#[inline(always)]
fn read_larger(reader: &mut Decoder, nodes: &Nodes) -> u16
    ensures value { size_below 5 nodes.now 6 reader.old ≡ (result, reader.new) }
    ensures some { 2 ≤ result }
    ensures most { result ≤ 2114 }
{
    if !nodes.bit(reader, 3) {
        if !nodes.bit(reader, 4) {
            return 2;
        }
        return if nodes.bit(reader, 5) { 4 } else { 3 };
    }
    if nodes.bit(reader, 6) {
        return read_largest(reader, nodes);
    }
    if nodes.bit(reader, 7) {
        read_size_in(reader, 7, &[165, 145])
    } else {
        read_size_in(reader, 5, &[159])
    }
}

/// The size of a token that is neither 0 nor the end of the block.
#[inline(always)]
pub(crate) fn read_size(reader: &mut Decoder, nodes: &Nodes) -> u16
    ensures value { size_below 6 nodes.now 4 reader.old ≡ (result, reader.new) }
    ensures some { 1 ≤ result }
    ensures most { result ≤ 2114 }
{
    if nodes.bit(reader, 2) {
        read_larger(reader, nodes)
    } else {
        1
    }
}
