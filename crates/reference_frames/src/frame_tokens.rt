//! The tokens of a frame: the state between its macroblocks, and the residual of each (RFC 6386,
//! sections 9.5 and 13).

ghost use Rattle.std.specs.Prelude.{◌≡◌, ◌+◌, ◌%◌, ◌<◌, ◌≤◌, [], length, map, replicate, slice_index_or, All, IfOk};
ghost use Rattle.std.specs.Option.{option_copied};
ghost use Rattle.bool_coder.specs.Reader.{started};
ghost use Rattle.transforms.specs.Factors.{factors_of};
ghost use Rattle.mode_parser.specs.RecordList.{mode_of};
ghost use Rattle.reference_frames.specs.FrameTokenValue.{state_of, kept_residual};
ghost use Rattle.reference_frames.specs.KeptBlocks.{AreTablesOf};
ghost use Rattle.reference_frames.specs.FrameTokens.{outside, reader_of, tokens_at, tokens_start, state_with, residual_with, flag_with};

use crate::kept_blocks::{Blocks, Flags, TokenTables};
use bool_coder::Decoder;
use frame_header::{Header, PartitionRange};
use mode_parser::Record;
use pixel_planes::NoMemory;
use std::alloc::Global;

/// The number of the partition of a row: the row modulo their count, which is a power of two (RFC
/// 6386, section 9.5).
#[inline]
fn partition_of(row: usize, count: usize) -> usize
    requires { 0 < count }
    ensures { result ≡ row % count }
{
    match count {
        1 => 0,
        2 => row % 2,
        4 => row % 4,
        8 => row % 8,
        _ => row % count,
    }
}

/// The readers of the token partitions of a packet, each from its start. `NoMemory` if memory for them
/// is refused.
pub fn partition_readers<'a>(
    alloc: Global,
    packet: &'a [u8],
    partitions: &[PartitionRange],
) -> Result<Vec<Decoder<'a>>, NoMemory>
    requires { All (λ place. place.start + place.length ≤ length packet.now) partitions.now }
    ensures { IfOk result (λ readers. readers.items ≡ map (reader_of packet.now) partitions.now) }
{
    let mut readers = Vec::with_capacity(alloc, partitions.len())?;
    for place in partitions {
        let end = place.start + place.length;
        readers.push(Decoder::new(&packet[place.start..end]))?;
    }
    Ok(readers)
}

/// The state between the macroblocks of a frame.
#[derive(Drop)]
pub struct FrameTokens<'a> {
    /// The readers of the token partitions.
    readers: Vec<Decoder<'a>>,
    /// The flags above each column of macroblocks.
    above: Vec<[bool; 9]>,
    /// The flags to the left.
    left: [bool; 9],
    /// The residual of the last macroblock that was not skipped.
    blocks: Blocks,
    /// One of the blocks of the macroblock that was read last has a token.
    pub has_tokens: bool,
}

impl<'a> FrameTokens<'a> {
    /// The state before the first macroblock of a frame of so many columns. `NoMemory` if memory
    /// for the readers or the flags is refused.
    pub fn new(
        alloc: Global,
        packet: &'a [u8],
        partitions: &[PartitionRange],
        columns: usize,
    ) -> Result<FrameTokens<'a>, NoMemory>
        requires { All (λ place. place.start + place.length ≤ length packet.now) partitions.now }
        ensures { IfOk result (λ tokens. state_of tokens ≡ tokens_start partitions.now packet.now columns) }
    {
        let readers = partition_readers(alloc, packet, partitions)?;
        FrameTokens::over(alloc, readers, columns)
    }

    /// The same over readers of the token partitions.
    fn over(
        alloc: Global,
        readers: Vec<Decoder<'a>>,
        columns: usize,
    ) -> Result<FrameTokens<'a>, NoMemory>
        ensures { IfOk result (λ tokens. state_of tokens ≡ record { readers = readers.entry.items; above = replicate columns outside; left = outside }) }
    {
        Ok(FrameTokens {
            readers,
            above: vec![in alloc; [false; 9]; columns]?,
            left: [false; 9],
            blocks: Blocks::new(),
            has_tokens: false,
        })
    }

    /// Reads the tokens of the macroblock in column `mx` of row `my`, which is next, and keeps its
    /// residual, with the tables of the header. If it is skipped, nothing is read.
    #[tactic(auto, unfolding(crate::specs::FrameTokens::tokens_at))]
    pub fn read(
        &mut self,
        header: &Header,
        tables: &TokenTables,
        mx: usize,
        my: usize,
        mode: &Record,
    )
        requires tables { AreTablesOf header.now tables.now }
        requires some { 0 < length (state_of self.old).readers }
        requires column { mx < length (state_of self.old).above }
        ensures state { state_of self.new ≡ state_with (state_of self.old) mx my (tokens_at header.now.context.probabilities.coefficients (state_of self.old) mx my (mode_of mode.now)) }
        ensures flag { self.new.has_tokens ≡ flag_with (mode_of mode.now) (tokens_at header.now.context.probabilities.coefficients (state_of self.old) mx my (mode_of mode.now)).0 }
        ensures residual { kept_residual self.new (mode_of mode.now) ≡ residual_with (factors_of header.now (mode_of mode.now).segment) (mode_of mode.now) (tokens_at header.now.context.probabilities.coefficients (state_of self.old) mx my (mode_of mode.now)).0 }
    {
        let partition = partition_of(my, self.readers.len());
        let reader = &mut self.readers[partition];
        let above = self.above[mx];
        let left = if mx == 0 { [false; 9] } else { self.left };
        let mut flags = Flags {
            above,
            left,
            has_tokens: false,
        };
        self.blocks.read(reader, header, tables, mode, &mut flags);
        self.above[mx] = flags.above;
        self.left = flags.left;
        self.has_tokens = flags.has_tokens;
    }

    /// The residual of the macroblock that was read last, of which this is the record. A skipped
    /// macroblock has none.
    #[inline]
    pub fn residual(&self, mode: &Record) -> Option<&Blocks>
        ensures { option_copied result ≡ kept_residual self.now (mode_of mode.now) }
    {
        if mode.is_skipped() {
            None
        } else {
            Some(&self.blocks)
        }
    }
}
