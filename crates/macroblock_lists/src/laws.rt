//! Laws about the definitions of this crate. Each law is the contract of a function that does
//! nothing.

ghost use Rattle.std.specs.Prelude.{◌≡◌, ◌<◌, ◌∷◌, [], length, Option, IfSome};
ghost use Rattle.std.specs.Option.{option_copied};
ghost use Rattle.bool_coder.specs.Chains.{AreProbabilities};
ghost use Rattle.bool_coder.specs.Worked.{even_bits};
ghost use Rattle.vp8_tables.specs.Tables.{TableEntries};
ghost use Rattle.mode_parser.specs.Chains.{AreRows};
ghost use Rattle.macroblock_lists.specs.ChainEnds.{end_by};
ghost use Rattle.macroblock_lists.specs.FirstChains.{AreBytes, FirstEndIsOfChain, FirstIsChain, FirstIsReadSo};
ghost use Rattle.macroblock_lists.specs.FilterLaws.{FiltersAreUsed};
ghost use Rattle.macroblock_lists.specs.Known.{Known};
ghost use Rattle.macroblock_lists.specs.KnownLaws.{KnownIsDecoded, ModesAreDecoded};
ghost use Rattle.macroblock_lists.specs.ModeBits.{ModeBitsAreOfChains, RecordsAreChains};
ghost use Rattle.macroblock_lists.specs.PartitionEnds.{bytes_past, bytes_unread};
ghost use Rattle.macroblock_lists.specs.PartitionEndLaws.{CountsBits, CountsBitsOfNone, CountsUnread};
ghost use Rattle.macroblock_lists.specs.TokenBits.{TokenBitsAreOfChains};
ghost use Rattle.macroblock_lists.specs.TokenChains.{TokenEndsAreOfChains, TokensAreChains, TokensAreReadSo};

use crate::known::Known;
use frame_header::{Context, Header};
use vp8_tables::Tables;

/// What is known before a packet, without samples, is what decoding has there: the same context, the
/// same segment map and size, and the same break of the stream with its cause. So what is listed is
/// what decoding reads.
pub fn known_is_decoded()
    ensures progress { KnownIsDecoded }
    ensures modes { ModesAreDecoded }
{}

/// The limits and the inner edges that are listed of a macroblock are those by which `filtered_planes` of loop_filter filters it: none
/// in a frame of level 0, and none of a macroblock of level 0.
pub fn filters_are_used()
    ensures { FiltersAreUsed }
{}

/// The bytes past the end of a text are the bits that any chain of reads takes in after it, in bytes
/// and rounded up, as far as the zeros go.
pub fn past_ends_count_bits<T>(bytes: &[u8])
    requires { 0 < length bytes.now }
    ensures { CountsBits T bytes.now }
{
    bool_coder::laws::marks_count_bits::<T>(bytes);
}

/// Of an empty text they are the bits that a chain of reads takes in, without the eight that are in its window before the first bit is
/// read.
pub fn past_ends_of_none_count_bits<T>()
    ensures { CountsBitsOfNone T }
{
    bool_coder::laws::marks_count_bits::<T>(&[]);
}

/// The unread bytes of a text are the whole bytes that a chain of reads does not take in.
pub fn unread_bytes_count_bits<T>(bytes: &[u8])
    ensures { CountsUnread T bytes.now }
{
    bool_coder::laws::marks_count_bits::<T>(bytes);
}

/// Partitions with 64 zero bytes and a mark after them. Of two bytes, all of the mark and the zeros
/// are left, 520 bits: none was read past its end. One bit less is a byte read past its end, and so
/// are eight; with none left all 64 were read. An empty partition of which nothing is read has 512
/// bits left, and the first bit that is taken in is one past its end. Of 20 bytes with 600 bits left, 80
/// are of the partition: its last ten bytes are not read.
pub fn worked_past_ends()
    ensures inside { bytes_past 64 2 520 ≡ 0 }
    ensures more { bytes_past 64 2 533 ≡ 0 }
    ensures one_bit { bytes_past 64 2 519 ≡ 1 }
    ensures eight_bits { bytes_past 64 2 512 ≡ 1 }
    ensures nine_bits { bytes_past 64 2 511 ≡ 2 }
    ensures all { bytes_past 64 2 0 ≡ 64 }
    ensures empty { bytes_past 64 0 512 ≡ 0 }
    ensures first_bit { bytes_past 64 0 511 ≡ 1 }
    ensures unread { bytes_unread 64 20 600 ≡ 10 }
    ensures part_of_a_byte { bytes_unread 64 20 599 ≡ 9 }
    ensures all_read { bytes_unread 64 20 519 ≡ 0 }
{}

/// Every number of a list of bytes is a byte.
pub(crate) fn prove_bytes(bytes: &[u8])
    ensures { AreProbabilities bytes.now }
{}

/// So is every number of two lists.
fn prove_rows(rows: &[[u8; 19]; 2])
    ensures { AreRows rows.now }
{
    prove_bytes(&rows[0]);
    prove_bytes(&rows[1]);
}

/// And each probability of a context.
fn prove_probabilities(context: &Context)
    ensures { AreBytes context.now.probabilities }
{
    prove_bytes(&context.probabilities.y_modes);
    prove_bytes(&context.probabilities.uv_modes);
    prove_rows(&context.probabilities.vectors);
}

/// And of the context that is known.
pub(crate) fn prove_known(known: Option<&Known>)
    ensures { IfSome (option_copied known.entry) (λ k. AreBytes k.context.probabilities) }
{
    if let Some(known) = known {
        prove_probabilities(known.context());
    }
}

/// What decoding reads of a first partition, the fields of the header and then a record for each
/// macroblock, is one chain of reads, and decoding ends in the partition where this chain does: the
/// bytes past the end are the bits that it takes in after the end. Up to the record of each macroblock it is a chain too, and the
/// bits that are listed of the record (`mode_bits`) are those that this chain takes in of the packet's own bytes.
pub fn first_partitions_are_chains(tables: &Tables, known: Option<&Known>)
    ensures chain { FirstIsChain tables.now (option_copied known.entry) }
    ensures read { FirstIsReadSo tables.now (option_copied known.entry) }
    ensures end { FirstEndIsOfChain tables.now (option_copied known.entry) }
    ensures records { RecordsAreChains tables.now (option_copied known.entry) }
    ensures bits { ModeBitsAreOfChains tables.now (option_copied known.entry) }
{
    frame_header::laws::headers_are_chains(tables.updates());
    frame_header::laws::headers_are_over_their_own();
    mode_parser::laws::records_are_chains();
    prove_bytes(tables.key_subs());
    prove_known(known);
}

/// What decoding reads of a token partition, the tokens of the macroblocks whose rows read it, is one
/// chain of reads, whatever the other partitions hold (RFC 6386, section 9.5). Decoding ends in the
/// partition where this chain does, if no other one is read past all the zeros that follow it. The bits that are listed of the
/// tokens of a macroblock (`token_bits`) are those that such chains take in of the packet's own bytes.
pub fn token_partitions_are_chains(header: &Header)
    ensures chain { TokensAreChains header.now }
    ensures read { TokensAreReadSo }
    ensures end { (tables : TableEntries) (known : Option Known) → TokenEndsAreOfChains tables known header.now }
    ensures bits { (tables : TableEntries) (known : Option Known) → TokenBitsAreOfChains tables known header.now }
{
    token_parser::laws::tokens_are_chains(&header.context.probabilities.coefficients);
}

/// Where bits at even odds end. Nine bits of the byte 80 end nine bits past its end, in the second byte
/// after it, or as far as it is counted. Before the first bit is read, the window has the first of three
/// bytes, so two are not read; the window of an empty text does not count.
pub fn worked_chain_ends()
    ensures past { end_by 64 (even_bits 9) (0x80 ∷ []) ≡ record { size = 1; past = 2; unread = 0 } }
    ensures inside { end_by 64 (even_bits 8) (0x9F ∷ 0xC0 ∷ []) ≡ record { size = 2; past = 0; unread = 0 } }
    ensures unread { end_by 64 (even_bits 0) (0 ∷ 0 ∷ 0 ∷ []) ≡ record { size = 3; past = 0; unread = 2 } }
    ensures empty { end_by 64 (even_bits 0) [] ≡ record { size = 0; past = 0; unread = 0 } }
    ensures most { end_by 1 (even_bits 9) (0x80 ∷ []) ≡ record { size = 1; past = 1; unread = 0 } }
{}
