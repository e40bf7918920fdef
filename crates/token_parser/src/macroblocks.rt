//! The blocks of a macroblock, in the order of their tokens.

ghost use Rattle.std.specs.Prelude.{◌≡◌, ℕ, ◌+◌, ◌-◌, ◌<◌, ◌≤◌, Bool, true, replicate, slice_index_or};
ghost use Rattle.bool_coder.specs.Reader.{Reader};
ghost use Rattle.token_parser.specs.Blocks.{IsInside, block, first_blocks, macroblock, no_flags, skipped, no_tokens, cleared, first_position, has_tokens};
ghost use Rattle.token_parser.specs.Groups.{IsGroup, luma_group};
ghost use Rattle.token_parser.specs.Stale.{without_stale, seen};

use crate::block_position::BlockPosition;
use crate::block_tokens::read_tokens;
use crate::rows::Rows;
use crate::tokens::Tokens;
use bool_coder::Decoder;

/// The number of the flag above each block.
const ABOVE: [usize; 25] = [
    0, 1, 2, 3, 0, 1, 2, 3, 0, 1, 2, 3, 0, 1, 2, 3, 4, 5, 4, 5, 6, 7, 6, 7, 8,
];

/// The number of the flag to its left.
const LEFT: [usize; 25] = [
    0, 0, 0, 0, 1, 1, 1, 1, 2, 2, 2, 2, 3, 3, 3, 3, 4, 4, 5, 5, 6, 6, 7, 7, 8,
];

/// The blocks from number `start` to before number `end`, whose tokens follow each other. All are of a kind, and
/// the index of their first tokens is the same.
#[derive(Clone, Copy)]
struct Group {
    kind: usize,
    first: usize,
    start: usize,
    end: usize,
}

/// The block Y2, whose tokens come first.
const Y2: Group = Group {
    kind: 1,
    first: 0,
    start: 24,
    end: 25,
};

/// The 4 blocks of U and the 4 of V, whose tokens come last.
const CHROMA: Group = Group {
    kind: 2,
    first: 0,
    start: 16,
    end: 24,
};

/// The 16 blocks of luma.
#[inline]
fn luma(has_y2: bool) -> Group
    ensures { result ≡ luma_group has_y2 }
{
    Group {
        kind: if has_y2 { 0 } else { 3 },
        first: has_y2 as usize,
        start: 0,
        end: 16,
    }
}

impl Tokens {
    /// No block has a token or a coefficient: the state at the start of a frame.
    pub fn new() -> Tokens
        ensures { result ≡ no_tokens }
    {
        Tokens {
            above: [false; 9],
            left: [false; 9],
            coefficients: [[0; 16]; 25],
            ends: [0; 25],
        }
    }

    /// Sets all coefficients and ends to 0, and leaves the flags unchanged.
    #[inline]
    pub fn clear(&mut self)
        ensures { self.new ≡ cleared self.old }
    {
        self.coefficients = [[0; 16]; 25];
        self.ends = [0; 25];
    }

    /// Whether one of the blocks of a macroblock that was read has a token, whatever its values are
    /// (RFC 6386, section 13.3). Its ends were 0 before it was read.
    pub fn has_tokens(&self, has_y2: bool) -> bool
        ensures { result ≡ has_tokens has_y2 self.now }
    {
        let mut found = false;
        for k in 0..25usize {
            found |= usize::from(self.ends[k]) > first_position(has_y2, k);
        }
        found
    }
}

/// The index of a block's first token: luma after Y2 begins at index 1.
#[inline]
fn first_position(has_y2: bool, index: usize) -> usize
    ensures { result ≡ first_position has_y2 index }
{
    if has_y2 && index < 16 { 1 } else { 0 }
}

/// One block. If `clears`, it is cleared before its first token.
#[inline(always)]
fn read_block(
    reader: &mut Decoder,
    rows: &Rows,
    at: BlockPosition,
    clears: bool,
    tokens: &mut Tokens,
)
    requires { IsInside at }
    ensures { (has_y2 : Bool) → first_position has_y2 at.index ≡ at.first → (clears ≡ true → slice_index_or tokens.old.ends at.index 0 ≡ 0) → block rows.now at (seen clears has_y2 tokens.old) reader.old ≡ (seen clears has_y2 tokens.new, reader.new) }
{
    let flags = tokens.left[at.left] as usize + tokens.above[at.above] as usize;
    let coefficients = &mut tokens.coefficients[at.index];
    let end = read_tokens(reader, rows, at, flags, clears, coefficients);
    let has_token = end > at.first;
    tokens.above[at.above] = has_token;
    tokens.left[at.left] = has_token;
    tokens.ends[at.index] = end as u8;
}

/// The blocks of a group. They are read in one loop through a copy of the reader, which stays in registers. If
/// `clears`, each is cleared before its first token; all ends were 0 before the macroblock.
#[inline(never)]
fn read_group(decoder: &mut Decoder, rows: &Rows, group: Group, clears: bool, tokens: &mut Tokens)
    requires kind { group.kind < 4 }
    requires first { group.first ≤ 1 }
    requires end { (group.start ≤ group.end) × (group.end ≤ 25) }
    ensures { (has_y2 : Bool) (k : ℕ) → IsGroup has_y2 k group → (before : Tokens) (r : Reader) → (clears ≡ true → before.ends ≡ replicate 25 0) → first_blocks k rows.now has_y2 before r ≡ (seen clears has_y2 tokens.old, decoder.old) → first_blocks (k + (group.end - group.start)) rows.now has_y2 before r ≡ (seen clears has_y2 tokens.new, decoder.new) }
{
    let mut reader = decoder.copied();
    for index in group.start..group.end {
        let at = BlockPosition {
            kind: group.kind,
            first: group.first,
            index,
            above: ABOVE[index],
            left: LEFT[index],
        };
        read_block(&mut reader, rows, at, clears, tokens);
    }
    *decoder = reader;
}

/// All blocks. If `clears`, each is cleared before its first token; all ends were 0 before.
fn read_blocks(reader: &mut Decoder, rows: &Rows, has_y2: bool, clears: bool, tokens: &mut Tokens)
    requires { clears ≡ true → tokens.old.ends ≡ replicate 25 0 }
    ensures { macroblock rows.now has_y2 (seen clears has_y2 tokens.old) reader.old ≡ (seen clears has_y2 tokens.new, reader.new) }
{
    if has_y2 {
        read_group(reader, rows, Y2, clears, tokens);
    }
    read_group(reader, rows, luma(has_y2), clears, tokens);
    read_group(reader, rows, CHROMA, clears, tokens);
}

/// Reads the tokens of a macroblock: of Y2 if it has one, of 16 blocks of luma, 4 of U and 4 of V
/// (RFC 6386, section 13), with the odds of the frame's probabilities.
///
/// `tokens.above` and `tokens.left` are the flags of the macroblocks above and to the left, and
/// become its own. Each coefficient that is not 0 is written over the previous value, and no other
/// is: the caller passes lists of zeros.
pub fn read_macroblock(decoder: &mut Decoder, rows: &Rows, has_y2: bool, tokens: &mut Tokens)
    ensures { macroblock rows.now has_y2 tokens.old decoder.old ≡ (tokens.new, decoder.new) }
{
    read_blocks(decoder, rows, has_y2, false, tokens);
}

/// The same over the tokens of another macroblock, whose coefficients and ends do not count. Blocks
/// without a token have no coefficients, and the ones that `tokens` holds for them are stale: a block
/// has a token if its end is past the index of its first, which is 1 for luma after Y2 and otherwise 0.
pub fn read_next_macroblock(decoder: &mut Decoder, rows: &Rows, has_y2: bool, tokens: &mut Tokens)
    ensures { macroblock rows.now has_y2 (cleared tokens.old) decoder.old ≡ (without_stale has_y2 tokens.new, decoder.new) }
{
    tokens.ends = [0; 25];
    read_blocks(decoder, rows, has_y2, true, tokens);
}

/// The flags of a macroblock without tokens.
#[inline]
fn no_flags(has_y2: bool, flags: &[bool; 9]) -> [bool; 9]
    ensures { result ≡ no_flags has_y2 flags.now }
{
    let y2 = !has_y2 && flags[8];
    [false, false, false, false, false, false, false, false, y2]
}

/// Clears the flags of a macroblock without tokens: all 9 if it has Y2, otherwise those of luma and
/// chroma (RFC 6386, section 13.3). Coefficients and ends are unchanged.
pub fn skip_macroblock(has_y2: bool, tokens: &mut Tokens)
    ensures { tokens.new ≡ skipped has_y2 tokens.old }
{
    tokens.above = no_flags(has_y2, &tokens.above);
    tokens.left = no_flags(has_y2, &tokens.left);
}
