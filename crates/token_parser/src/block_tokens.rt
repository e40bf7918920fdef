//! The tokens of one block.

ghost use Rattle.std.specs.Prelude.{◌≡◌, ◌-◌, ◌<◌, ◌≤◌, false, true, nat_lt, pos, replicate, if◌then◌else◌};
ghost use Rattle.token_parser.specs.Tokens.{signed_size, tokens_from};

use crate::block_position::BlockPosition;
use crate::places::ZIGZAG;
use crate::rows::Rows;
use crate::sizes::read_size;
use bool_coder::Decoder;

/// The coefficient of a size, whose sign is the next bit.
#[inline(always)]
#[tactic(auto, unfolding(crate::specs::Tokens::signed_size))]
fn read_sign(reader: &mut Decoder, size: u16) -> i16
    requires { size ≤ 2114 }
    ensures { signed_size size reader.old ≡ (result, reader.new) }
{
    let value = size as i16;
    if reader.flag() { -value } else { value }
}

/// The coefficients of a block starting at the index `first`, where the block is known not to end,
/// and the index after its last token (eob). Others are unchanged.
#[inline(always)]
fn read_more_tokens(
    reader: &mut Decoder,
    rows: &Rows,
    kind: usize,
    first: usize,
    flags: usize,
    coefficients: &mut [i16; 16],
) -> usize
    requires kind { kind < 4 }
    requires first { first < 16 }
    requires context { flags < 3 }
    ensures value { tokens_from (16 - first) rows.now kind first flags true coefficients.old reader.old ≡ ((coefficients.new, result), reader.new) }
    ensures least { first < result }
    ensures most { result ≤ 16 }
{
    let mut place = first;
    let mut context = flags;
    let mut nodes = rows.nodes_at(kind, place, context);
    'tokens: loop {
        if nodes.bit(reader, 1) {
            let size = read_size(reader, &nodes);
            coefficients[ZIGZAG[place]] = read_sign(reader, size);
            place += 1;
            if place == 16 {
                return 16;
            }
            context = if size > 1 { 2 } else { 1 };
            nodes = rows.nodes_at(kind, place, context);
            if !nodes.bit(reader, 0) {
                return place;
            }
        } else {
            place += 1;
            if place == 16 {
                return 16;
            }
            context = 0;
            nodes = rows.nodes_at(kind, place, context);
        }
    }
}

/// The coefficients of a block in the context of so many flags, and the index after its last token
/// (eob). If `clears`, they are cleared before its first token, and unchanged if it has none; otherwise they
/// are written over the previous ones.
#[inline(always)]
pub(crate) fn read_tokens(
    reader: &mut Decoder,
    rows: &Rows,
    at: BlockPosition,
    flags: usize,
    clears: bool,
    coefficients: &mut [i16; 16],
) -> usize
    requires kind { at.kind < 4 }
    requires first { at.first < 16 }
    requires context { flags < 3 }
    ensures over { clears ≡ false → tokens_from (16 - at.first) rows.now at.kind at.first flags false coefficients.old reader.old ≡ ((coefficients.new, result), reader.new) }
    ensures cleared { clears ≡ true → tokens_from (16 - at.first) rows.now at.kind at.first flags false (replicate 16 (pos 0)) reader.old ≡ ((if nat_lt at.first result then coefficients.new else replicate 16 (pos 0), result), reader.new) }
    ensures most { result ≤ 16 }
{
    let nodes = rows.nodes_at(at.kind, at.first, flags);
    if !nodes.bit(reader, 0) {
        return at.first;
    }
    if clears {
        *coefficients = [0; 16];
    }
    read_more_tokens(reader, rows, at.kind, at.first, flags, coefficients)
}
