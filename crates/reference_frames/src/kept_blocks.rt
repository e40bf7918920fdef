//! The residual of a macroblock, as it is kept between its tokens and its samples (RFC 6386,
//! sections 13 and 14).

ghost use Rattle.std.specs.Prelude.{◌≡◌, ℕ, ◌+◌, ◌*◌, ◌<◌, ◌≤◌, [], ◌∷◌, length, replicate, pos, ◌*ℤ◌, false, nat_lt, if◌then◌else◌, IfSome, None, Some, slice_index_or};
ghost use Rattle.token_parser.specs.Ends.{EndsHold, IsFirstAlone};
ghost use Rattle.token_parser.specs.Stale.{own_coefficients, without_stale};
ghost use Rattle.transforms.specs.Factors.{factors_of};
ghost use Rattle.transforms.specs.Residuals.{IsAdded, pair_residual};
ghost use Rattle.transforms.specs.Transforms.{inverse_dct, reduced};
ghost use Rattle.mode_parser.specs.RecordList.{mode_of};
ghost use Rattle.reference_frames.specs.FrameTokens.{has_y2 as has_y2_of, block_with, y2_results, block_of, firsts_of, flag_with, residual_with};
ghost use Rattle.reference_frames.specs.KeptBlocks.{AreTablesOf, flags_with, frame_factors, tokens_by};

use crate::inter::is_split;
use bool_coder::Decoder;
use frame_header::Header;
use mode_parser::{Record, YMode};
use std::marker::Model;
use token_parser::{Rows, Tokens, read_next_macroblock, skip_macroblock};
use transforms::{
    Factors, dct_add, dct_add_first, dct_add_two, dequantise, dequantise_others, factors, wht,
    wht_first,
};

/// Whether a macroblock has a block Y2, of the first coefficients of its luma (RFC 6386, section 13).
#[inline]
pub fn has_y2(mode: YMode) -> bool
    ensures { result ≡ has_y2_of mode }
{
    match mode {
        YMode::Whole(_) => true,
        YMode::B => false,
        YMode::Inter(_, mode) => !is_split(mode),
    }
}

/// A block, dequantised (RFC 6386, section 14.1).
#[inline]
#[tactic(auto, unfolding(crate::specs::FrameTokens::block_with))]
fn block_with(coefficients: &[i16; 16], dc: i16, ac: i16) -> [i16; 16]
    ensures { result ≡ block_with coefficients.now dc ac }
{
    dequantise(coefficients, dc, ac)
}

/// The results of Y2, which are the first coefficients of the luma blocks (RFC 6386, section 14.3).
#[inline]
#[tactic(auto, unfolding(crate::specs::FrameTokens::y2_results))]
fn y2_results(factors: Factors, coefficients: &[i16; 16]) -> [i16; 16]
    ensures { result ≡ y2_results factors coefficients.now }
{
    wht(&block_with(coefficients, factors.y2_dc, factors.y2_ac))
}

/// A coefficient, dequantised.
#[inline(always)]
fn product(coefficient: i16, factor: i16) -> i16
    ensures { result ≡ reduced (coefficient *ℤ factor) }
{
    coefficient.wrapping_mul(factor)
}

/// The same by the index after the last token of the block: one that ends at index 1 or before has at
/// most its first coefficient, and one without a token has none, whatever is kept for it.
#[inline(always)]
fn y2_results_by(factors: Factors, end: u8, coefficients: &[i16; 16]) -> [i16; 16]
    requires { end ≤ 1 → IsFirstAlone (if nat_lt 0 end then coefficients.now else replicate 16 (pos 0)) }
    ensures { result ≡ y2_results factors (if nat_lt 0 end then coefficients.now else replicate 16 (pos 0)) }
{
    if end > 1 {
        return y2_results(factors, coefficients);
    }
    if end == 0 {
        return [0; 16];
    }
    let first = product(coefficients[0], factors.y2_dc);
    wht_first(first)
}

/// Writes the first coefficients of the blocks from `start` to before `end`, dequantised. A block
/// without a token has none, whatever is kept for it.
#[inline(always)]
fn write_firsts(tokens: &Tokens, start: usize, end: usize, dc: i16, firsts: &mut [i16; 24])
    requires { (start ≤ end) × (end ≤ 24) }
    ensures inside { (k : ℕ) → start ≤ k → k < end → slice_index_or firsts.new k (pos 0) ≡ reduced (slice_index_or (own_coefficients false tokens.now k) 0 (pos 0) *ℤ dc) }
    ensures before { (k : ℕ) → k < start → slice_index_or firsts.new k (pos 0) ≡ slice_index_or firsts.old k (pos 0) }
{
    for k in start..end {
        firsts[k] = if tokens.ends[k] > 0 {
            tokens.coefficients[k][0].wrapping_mul(dc)
        } else {
            0
        };
    }
}

/// Writes the first coefficients of the blocks that have samples: of luma the results of Y2, if there
/// is one, and otherwise their own, dequantised (RFC 6386, sections 14.1 and 14.3).
#[inline(always)]
fn write_first_coefficients(factors: Factors, has_y2: bool, tokens: &Tokens, firsts: &mut [i16; 24])
    requires { EndsHold (without_stale has_y2 tokens.now) }
    ensures { (k : ℕ) → k < 24 → slice_index_or firsts.new k (pos 0) ≡ slice_index_or (block_of factors (firsts_of factors has_y2 (without_stale has_y2 tokens.now).coefficients) (without_stale has_y2 tokens.now).coefficients k) 0 (pos 0) }
{
    if has_y2 {
        let results = y2_results_by(factors, tokens.ends[24], &tokens.coefficients[24]);
        firsts[..16].copy_from_slice(&results);
    } else {
        write_firsts(tokens, 0, 16, factors.y_dc, firsts);
    }
    write_firsts(tokens, 16, 24, factors.uv_dc, firsts);
}

/// What is made of a frame's header once, for the tokens of all its macroblocks.
#[derive(Drop)]
pub struct TokenTables {
    /// The odds of its probabilities.
    pub rows: Rows,
    /// The factors of its four segments (RFC 6386, section 9.6).
    pub factors: [Factors; 4],
}

impl TokenTables {
    /// Those of this header.
    pub fn of(header: &Header) -> TokenTables
        ensures { AreTablesOf header.now result }
    {
        TokenTables {
            rows: Rows::of(&header.context.probabilities.coefficients),
            factors: [
                factors(header, 0),
                factors(header, 1),
                factors(header, 2),
                factors(header, 3),
            ],
        }
    }
}

/// The factors of a segment among those of the frame.
#[inline]
fn factors_in(all: &[Factors; 4], header: &Header, segment: u8) -> Factors
    requires { all.now ≡ frame_factors header.now }
    ensures { result ≡ factors_of header.now segment }
{
    match all.get(usize::from(segment)) {
        Some(found) => *found,
        None => factors(header, segment),
    }
}

/// The flags of a macroblock: those above it and to its left before its tokens, and its own after
/// them.
#[derive(Clone, Copy)]
pub struct Flags {
    pub above: [bool; 9],
    pub left: [bool; 9],
    /// One of its blocks has a token.
    pub has_tokens: bool,
}

/// Writes the flags after a macroblock, each by itself: a struct that is returned would be copied.
#[inline(always)]
fn write_flags(tokens: &Tokens, has_tokens: bool, flags: &mut Flags)
    ensures { flags.new ≡ record { above = tokens.now.above; left = tokens.now.left; has_tokens = has_tokens } }
{
    flags.above = tokens.above;
    flags.left = tokens.left;
    flags.has_tokens = has_tokens;
}

/// The residual of a macroblock: 16 blocks of luma, 4 of U and 4 of V, each in raster order. A block
/// is dequantised where it is added to its samples, if it has more than a first coefficient.
#[derive(Drop)]
pub struct Blocks {
    /// The coefficients as they were read, and where each block ends. Those of a block without a token are
    /// of a macroblock before.
    tokens: Tokens,
    /// The first coefficients, dequantised, or results of Y2.
    firsts: [i16; 24],
    factors: Factors,
}

impl Model for Blocks {
    ghost use Rattle.std.specs.Prelude.{List, ℤ};
    ghost use Rattle.reference_frames.specs.KeptBlocks.{kept_blocks};

    ghost Value = { List (List ℤ) };

    ghost view = { λ b. kept_blocks b.tokens b.firsts b.factors };
}

impl Blocks {
    /// No block has a coefficient.
    pub fn new() -> Blocks {
        Blocks {
            tokens: Tokens::new(),
            firsts: [0; 24],
            factors: Factors {
                y_dc: 0,
                y_ac: 0,
                y2_dc: 0,
                y2_ac: 0,
                uv_dc: 0,
                uv_ac: 0,
            },
        }
    }

    /// Reads the tokens of a macroblock after its flags, which become its own, and keeps its residual,
    /// with the tables of the header. If it is skipped, nothing is read.
    pub fn read(
        &mut self,
        reader: &mut Decoder,
        header: &Header,
        tables: &TokenTables,
        mode: &Record,
        flags: &mut Flags,
    )
        requires { AreTablesOf header.now tables.now }
        ensures reader { reader.new ≡ (tokens_by header.now.context.probabilities.coefficients (mode_of mode.now) flags.old reader.old).1 }
        ensures flags { flags.new ≡ flags_with (mode_of mode.now) (tokens_by header.now.context.probabilities.coefficients (mode_of mode.now) flags.old reader.old).0 }
        ensures residual { (if (mode_of mode.now).is_skipped then None else Some self.new) ≡ residual_with (factors_of header.now (mode_of mode.now).segment) (mode_of mode.now) (tokens_by header.now.context.probabilities.coefficients (mode_of mode.now) flags.old reader.old).0 }
    {
        let has_y2 = has_y2(mode.y_mode());
        self.tokens.above = flags.above;
        self.tokens.left = flags.left;
        if mode.is_skipped() {
            skip_macroblock(has_y2, &mut self.tokens);
            write_flags(&self.tokens, false, flags);
            return;
        }
        read_next_macroblock(reader, &tables.rows, has_y2, &mut self.tokens);
        let factors = factors_in(&tables.factors, header, mode.segment());
        write_first_coefficients(factors, has_y2, &self.tokens, &mut self.firsts);
        self.factors = factors;
        write_flags(&self.tokens, self.tokens.has_tokens(has_y2), flags);
    }

    /// Block `k`, dequantised. If it has only its first coefficient, what is kept for the others is
    /// multiplied by 0: zeros would be written in parts, and read back wider at once.
    #[inline(always)]
    fn dequantised(&self, k: usize) -> [i16; 16]
        requires { k < 24 }
        ensures { result ≡ slice_index_or self.now k [] }
    {
        let factor = if k < 16 {
            self.factors.y_ac
        } else {
            self.factors.uv_ac
        };
        let ac = if self.tokens.ends[k] > 1 { factor } else { 0 };
        dequantise_others(&self.tokens.coefficients[k], self.firsts[k], ac)
    }

    /// Adds the residual of block `k` to its 4 by 4 samples at the start of `samples`, in rows
    /// `stride` apart.
    #[inline(always)]
    pub fn add(&self, k: usize, samples: &mut [u8], stride: usize)
        requires block { k < 24 }
        requires wide { (4 ≤ stride) × (stride ≤ 16512) }
        requires room { 3 * stride + 4 ≤ length samples.old }
        ensures { IsAdded (inverse_dct (slice_index_or self.now k [])) 4 stride samples.old samples.new }
    {
        if self.tokens.ends[k] > 1 {
            dct_add(&self.dequantised(k), samples, stride);
            return;
        }
        let first = self.firsts[k];
        if first != 0 {
            dct_add_first(first, samples, stride);
        }
    }

    /// Adds the residuals of blocks `k` and `k + 1` to their 8 by 4 samples at the start of `samples`,
    /// in rows `stride` apart.
    #[inline(never)]
    pub fn add_pair(&self, k: usize, samples: &mut [u8], stride: usize)
        requires blocks { k + 2 ≤ 24 }
        requires wide { 8 ≤ stride }
        requires room { 3 * stride + 8 ≤ length samples.old }
        ensures { IsAdded (pair_residual (slice_index_or self.now k []) (slice_index_or self.now (k + 1) [])) 8 stride samples.old samples.new }
    {
        let first = self.dequantised(k);
        let second = self.dequantised(k + 1);
        dct_add_two(&first, &second, samples, stride);
    }

    /// The first coefficients of four blocks, starting with block `k`, if none of these has others.
    #[inline(always)]
    pub fn four_firsts(&self, k: usize) -> Option<[i16; 4]>
        requires { k + 4 ≤ 24 }
        ensures { IfSome result (λ firsts. (n : ℕ) → n < 4 → slice_index_or self.now (k + n) [] ≡ slice_index_or firsts n (pos 0) ∷ replicate 15 (pos 0)) }
    {
        let ends = &self.tokens.ends;
        let last = ends[k].max(ends[k + 1]).max(ends[k + 2]).max(ends[k + 3]);
        if last > 1 {
            return None;
        }
        let firsts = &self.firsts;
        Some([firsts[k], firsts[k + 1], firsts[k + 2], firsts[k + 3]])
    }

    /// The first coefficients of two blocks, starting with block `k`, if none of these has others.
    #[inline(always)]
    pub fn two_firsts(&self, k: usize) -> Option<[i16; 2]>
        requires { k + 2 ≤ 24 }
        ensures { IfSome result (λ firsts. (n : ℕ) → n < 2 → slice_index_or self.now (k + n) [] ≡ slice_index_or firsts n (pos 0) ∷ replicate 15 (pos 0)) }
    {
        let ends = &self.tokens.ends;
        if ends[k].max(ends[k + 1]) > 1 {
            return None;
        }
        Some([self.firsts[k], self.firsts[k + 1]])
    }
}
