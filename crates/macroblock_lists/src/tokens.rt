//! The tokens of a frame, one macroblock after another, over readers of its token partitions.

ghost use Rattle.std.specs.Prelude.{◌≡◌, ◌+◌, ◌%◌, ◌<◌, ◌≤◌, [], length, map, replicate, slice_index_or, All, IfOk};
ghost use Rattle.bool_coder.specs.Reader.{started};
ghost use Rattle.bool_coder.specs.Taken.{marked};
ghost use Rattle.reference_frames.specs.FrameTokens.{flag_with, outside, partition_of, state_with, token_state, tokens_at, tokens_start};
ghost use Rattle.macroblock_lists.specs.PartitionEnds.{marked_start, marked_text};
ghost use Rattle.macroblock_lists.specs.Macroblocks.{left_at};

use bool_coder::Decoder;
use frame_header::{Header, PartitionRange};
use mode_parser::{MbMode, Records};
use pixel_planes::NoMemory;
use reference_frames::{has_y2, partition_readers};
use std::alloc::Global;
use std::marker::Model;
use token_parser::{Rows, Tokens, read_macroblock, skip_macroblock};

/// The state between two macroblocks of a frame.
#[derive(Drop)]
pub(crate) struct FrameTokens<'a> {
    readers: Vec<Decoder<'a>>,
    /// The flags above each column of macroblocks.
    above: Vec<[bool; 9]>,
    /// The flags to the left.
    left: [bool; 9],
}

impl<'a> Model for FrameTokens<'a> {
    ghost use Rattle.reference_frames.specs.FrameTokens.{TokenState};

    ghost Value = { TokenState };

    ghost view = { λ t. record { readers = t.readers.items; above = t.above.items; left = t.left } };
}

/// Whether a block of a macroblock has a token.
pub(crate) fn flag_with(mode: &MbMode, tokens: &Tokens) -> bool
    ensures { result ≡ flag_with mode.now tokens.now }
{
    if mode.is_skipped {
        false
    } else {
        tokens.has_tokens(has_y2(mode.y_mode))
    }
}

/// A text, so many zero bytes after it, and a mark.
pub(crate) fn marked(alloc: Global, zeros: usize, bytes: &[u8]) -> Result<Vec<u8>, NoMemory>
    requires { zeros ≤ 4194368 }
    ensures { IfOk result (λ text. text.items ≡ marked zeros bytes.now) }
{
    let mut text = Vec::from_slice(alloc, bytes)?;
    text.resize(text.len() + zeros, 0)?;
    text.push(1)?;
    Ok(text)
}

/// The token partitions of a packet, each with its zeros and its mark.
pub(crate) fn marked_texts(
    alloc: Global,
    zeros: usize,
    packet: &[u8],
    partitions: &[PartitionRange],
) -> Result<Vec<Vec<u8>>, NoMemory>
    requires few { zeros ≤ 4194368 }
    requires inside { All (λ place. place.start + place.length ≤ length packet.now) partitions.now }
    ensures { IfOk result (λ texts. map (λ text. text.items) texts.items ≡ map (marked_text zeros packet.now) partitions.now) }
{
    let mut texts = Vec::with_capacity(alloc, partitions.len())?;
    for place in partitions {
        let end = place.start + place.length;
        texts.push(marked(alloc, zeros, &packet[place.start..end])?)?;
    }
    Ok(texts)
}

/// A reader at the start of each text.
fn readers_of<'a>(alloc: Global, texts: &'a [Vec<u8>]) -> Result<Vec<Decoder<'a>>, NoMemory>
    ensures { IfOk result (λ readers. readers.items ≡ map (λ text. started text.items) texts.now) }
{
    let mut readers = Vec::with_capacity(alloc, texts.len())?;
    for text in texts {
        readers.push(Decoder::new(text.as_slice()))?;
    }
    Ok(readers)
}

impl<'a> FrameTokens<'a> {
    /// Before the first macroblock of a frame of so many columns, over these readers.
    fn over(
        alloc: Global,
        readers: Vec<Decoder<'a>>,
        columns: usize,
    ) -> Result<FrameTokens<'a>, NoMemory>
        ensures { IfOk result (λ tokens. tokens ≡ record { readers = readers.entry.items; above = replicate columns outside; left = outside }) }
    {
        Ok(FrameTokens {
            readers,
            above: vec![in alloc; [false; 9]; columns]?,
            left: [false; 9],
        })
    }

    /// The tokens before the first macroblock, over the token partitions of a packet.
    pub(crate) fn new(
        alloc: Global,
        packet: &'a [u8],
        partitions: &[PartitionRange],
        columns: usize,
    ) -> Result<FrameTokens<'a>, NoMemory>
        requires { All (λ place. place.start + place.length ≤ length packet.now) partitions.now }
        ensures { IfOk result (λ tokens. tokens ≡ tokens_start partitions.now packet.now columns) }
    {
        let readers = partition_readers(alloc, packet, partitions)?;
        FrameTokens::over(alloc, readers, columns)
    }

    /// The tokens before the first macroblock, over texts.
    pub(crate) fn over_texts(
        alloc: Global,
        texts: &'a [Vec<u8>],
        columns: usize,
    ) -> Result<FrameTokens<'a>, NoMemory>
        ensures { IfOk result (λ tokens. tokens ≡ record { readers = map (λ text. started text.items) texts.now; above = replicate columns outside; left = outside }) }
    {
        let readers = readers_of(alloc, texts)?;
        FrameTokens::over(alloc, readers, columns)
    }

    /// The number of bits that the reader of a token partition has left.
    pub(crate) fn left(&self, partition: usize) -> u128
        requires { partition < length self.now.readers }
        ensures { result ≡ length (slice_index_or self.now.readers partition (started [])).rest }
    {
        self.readers[partition].left()
    }

    /// How many bits the reader of a row's partition has left.
    pub(crate) fn left_at(&self, row: usize) -> u128
        requires { 0 < length self.now.readers }
        ensures { result ≡ left_at self.now row }
    {
        self.readers[row % self.readers.len()].left()
    }

    /// Reads the tokens of the macroblock in column `mx` of row `my`, which is next, by the odds of its frame.
    /// Nothing is read of one that is skipped.
    #[tactic(auto, unfolding(reference_frames::specs::FrameTokens::tokens_at))]
    pub(crate) fn read(&mut self, odds: &Rows, mx: usize, my: usize, mode: &MbMode) -> Tokens
        requires some { 0 < length self.old.readers }
        requires column { mx < length self.old.above }
        ensures tokens { result ≡ (tokens_at odds.now self.old mx my mode.now).0 }
        ensures state { self.new ≡ state_with self.old mx my (tokens_at odds.now self.old mx my mode.now) }
    {
        let partition = my % self.readers.len();
        let mut tokens = Tokens::new();
        tokens.above = self.above[mx];
        tokens.left = if mx == 0 { [false; 9] } else { self.left };
        let has_y2 = has_y2(mode.y_mode);
        if mode.is_skipped {
            skip_macroblock(has_y2, &mut tokens);
        } else {
            read_macroblock(&mut self.readers[partition], odds, has_y2, &mut tokens);
        }
        self.above[mx] = tokens.above;
        self.left = tokens.left;
        tokens
    }

    /// Reads the tokens of the first `count` of the macroblocks with these records, in raster order, in a frame of so many columns.
    pub(crate) fn read_first(
        &mut self,
        header: &Header,
        columns: usize,
        records: &Records,
        count: usize,
    )
        requires columns { 0 < columns }
        requires some { 0 < length self.old.readers }
        requires above { length self.old.above ≡ columns }
        requires count { count ≤ length records.now }
        ensures value { self.new ≡ token_state header.now columns self.old records.now count }
        ensures readers { length self.new.readers ≡ length self.old.readers }
        ensures above { length self.new.above ≡ columns }
    {
        let odds = Rows::of(&header.context.probabilities.coefficients);
        for n in 0..count {
            let mode = records.at(n).mode();
            self.read(&odds, n % columns, n / columns, &mode);
        }
    }
}
