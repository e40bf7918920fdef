//! Key packets written with an encoder, from the modes of their macroblocks. All of them have flat
//! tables in mind, skip each macroblock, and leave each field of the header 0 that is not said.

use bool_coder::Encoder;
use std::alloc::{AllocError, Global};
use vp8_tables::VECTOR_UPDATE_PROBABILITIES;

/// The pairs of bit and probability of each luma mode of a key frame: DC, V, H, TM, B.
const LUMA: [&[(bool, u8)]; 5] = [
    &[(true, 145), (false, 156), (false, 163)],
    &[(true, 145), (false, 156), (true, 163)],
    &[(true, 145), (true, 156), (false, 128)],
    &[(true, 145), (true, 156), (true, 128)],
    &[(false, 145)],
];

/// The same of each chroma mode: DC, V, H, TM.
const CHROMA: [&[(bool, u8)]; 4] = [
    &[(false, 142)],
    &[(true, 142), (false, 114)],
    &[(true, 142), (true, 114), (false, 183)],
    &[(true, 142), (true, 114), (true, 183)],
];

/// The bits of each sub block mode, all at 128 with flat tables: DC, TM, VE, HE, LD, RD, VR, VL,
/// HD, HU.
const SUB: [&[u8]; 10] = [
    b"0", b"10", b"110", b"11100", b"11110", b"111010", b"111011", b"111110", b"1111110",
    b"1111111",
];

/// The index of mode B among the luma modes.
pub const B: usize = 4;

/// The modes of a macroblock, by their places in the lists above.
#[derive(Clone, Copy)]
pub struct Macroblock {
    pub luma: usize,
    pub subs: [usize; 16],
    pub chroma: usize,
}

/// Writes bits at even odds, each a digit.
pub fn write_bits(encoder: &mut Encoder, digits: &[u8]) -> Result<(), AllocError> {
    for digit in digits {
        encoder.bit(*digit == b'1', 128)?;
    }
    Ok(())
}

fn write_pairs(encoder: &mut Encoder, pairs: &[(bool, u8)]) -> Result<(), AllocError> {
    for (bit, prob) in pairs {
        encoder.bit(*bit, *prob)?;
    }
    Ok(())
}

fn write_macroblock(encoder: &mut Encoder, macroblock: &Macroblock) -> Result<(), AllocError> {
    encoder.bit(true, 1)?;
    write_pairs(encoder, LUMA[macroblock.luma % 5])?;
    if macroblock.luma == B {
        for sub in macroblock.subs {
            write_bits(encoder, SUB[sub % 10])?;
        }
    }
    write_pairs(encoder, CHROMA[macroblock.chroma % 4])
}

/// The tag of a shown packet whose first partition has this size.
fn tag(is_key: bool, size: usize) -> [u8; 3] {
    let low = if is_key { 0x10 } else { 0x11 };
    let size = size as u64 % 524_288;
    [
        (low + size % 8 * 32) as u8,
        (size / 8 % 256) as u8,
        (size / 2048) as u8,
    ]
}

/// Appends each of these texts.
fn append(packet: &mut Vec<u8>, texts: &[&[u8]]) -> Result<(), AllocError> {
    for text in texts {
        packet.extend_from_slice(text)?;
    }
    Ok(())
}

/// A key packet with this first partition and these bytes after it.
pub fn packet_of(
    alloc: Global,
    width: u16,
    height: u16,
    first: &[u8],
    following: &[u8],
) -> Result<Vec<u8>, AllocError> {
    let tag = tag(true, first.len());
    let (width, height) = (width.to_le_bytes(), height.to_le_bytes());
    let mut packet = Vec::new(alloc);
    append(
        &mut packet,
        &[&tag, &[0x9D, 1, 0x2A], &width, &height, first, following],
    )?;
    Ok(packet)
}

/// The digits of a key frame's header up to the deltas of the filter level, if it has neither
/// segments nor a loop filter.
pub const PLAIN: &[u8] = b"00000000000000";

/// Writes a key frame's header: the fields up to the deltas of the filter level (14 digits if
/// there are no segments), how many token partitions there are (two), the quantizer index (seven), and
/// the skip fields (one, and eight more for a probability).
fn write_header(
    encoder: &mut Encoder,
    fields: &[u8],
    partitions: &[u8],
    quantizer: &[u8],
    skipping: &[u8],
) -> Result<(), AllocError> {
    write_bits(encoder, fields)?;
    write_bits(encoder, partitions)?;
    write_bits(encoder, quantizer)?;
    write_bits(encoder, b"000000")?;
    for _ in 0..1056 {
        encoder.bit(false, 128)?;
    }
    write_bits(encoder, skipping)
}

/// A key packet of these macroblocks in raster order, with an empty token partition.
pub fn key_packet(
    alloc: Global,
    width: u16,
    height: u16,
    macroblocks: &[Macroblock],
) -> Result<Vec<u8>, AllocError> {
    let mut encoder = Encoder::new(alloc);
    write_header(&mut encoder, PLAIN, b"00", b"0000000", b"100000001")?;
    for macroblock in macroblocks {
        write_macroblock(&mut encoder, macroblock)?;
    }
    let first = encoder.finish()?;
    packet_of(alloc, width, height, first.as_slice(), &[])
}

/// A first partition with quantizer index 127 in which no macroblock is skipped, and `count`
/// macroblocks of modes DC. `partitions` are the two digits of their number.
pub fn first_partition(
    alloc: Global,
    partitions: &[u8],
    count: usize,
) -> Result<Vec<u8>, AllocError> {
    let mut encoder = Encoder::new(alloc);
    write_header(&mut encoder, PLAIN, partitions, b"1111111", b"0")?;
    for _ in 0..count {
        write_pairs(&mut encoder, LUMA[0])?;
        write_pairs(&mut encoder, CHROMA[0])?;
    }
    encoder.finish()
}

/// A key packet with these fields up to the deltas of the filter level and this quantizer index
/// (seven digits), in which no macroblock is skipped. Each of `macroblocks` is a luma mode by its
/// index, a segment's pairs before it, and the first coefficient of its Y2 block: 1, -1 or none.
pub fn filtered_packet(
    alloc: Global,
    width: u16,
    fields: &[u8],
    quantizer: &[u8],
    macroblocks: &[(usize, &[(bool, u8)], i8)],
) -> Result<Vec<u8>, AllocError> {
    let first = filtered_partition(alloc, fields, quantizer, macroblocks)?;
    let tokens = y2_partition(alloc, macroblocks)?;
    packet_of(alloc, width, 16, first.as_slice(), tokens.as_slice())
}

/// The first partition of a filtered packet.
fn filtered_partition(
    alloc: Global,
    fields: &[u8],
    quantizer: &[u8],
    macroblocks: &[(usize, &[(bool, u8)], i8)],
) -> Result<Vec<u8>, AllocError> {
    let mut encoder = Encoder::new(alloc);
    write_header(&mut encoder, fields, b"00", quantizer, b"0")?;
    write_filtered(&mut encoder, macroblocks)?;
    encoder.finish()
}

fn write_filtered(
    encoder: &mut Encoder,
    macroblocks: &[(usize, &[(bool, u8)], i8)],
) -> Result<(), AllocError> {
    for (luma, segment, _) in macroblocks {
        write_pairs(encoder, segment)?;
        write_pairs(encoder, LUMA[*luma % 5])?;
        write_pairs(encoder, CHROMA[0])?;
    }
    Ok(())
}

/// The token partition of a filtered packet.
fn y2_partition(
    alloc: Global,
    macroblocks: &[(usize, &[(bool, u8)], i8)],
) -> Result<Vec<u8>, AllocError> {
    let mut encoder = Encoder::new(alloc);
    for (_, _, first) in macroblocks {
        write_y2(&mut encoder, *first)?;
    }
    encoder.finish()
}

/// Writes the tokens of a macroblock whose Y2 block has a first coefficient of 1, of -1 or none, and
/// whose other 24 blocks have nothing.
pub fn write_y2(encoder: &mut Encoder, first: i8) -> Result<(), AllocError> {
    if first > 0 {
        write_bits(encoder, b"11000")?;
    } else if first < 0 {
        write_bits(encoder, b"11010")?;
    } else {
        write_bits(encoder, b"0")?;
    }
    write_bits(encoder, b"000000000000000000000000")
}

/// A shown packet with no key tag that changes no probability and refreshes nothing, of these
/// macroblocks, each a list of bits with their probabilities, with an empty token partition. All of
/// them are skipped.
pub fn inter_packet(alloc: Global, macroblocks: &[&[(bool, u8)]]) -> Result<Vec<u8>, AllocError> {
    inter_packet_of(alloc, b"000000000000", b"100000001", macroblocks, &[])
}

/// Such a packet with these fields up to the deltas of the filter level (12 digits if there are no
/// segments), the skip fields, and this token partition. The probability of a reference is
/// 1, that of the last frame 255, golden's 128.
pub fn inter_packet_of(
    alloc: Global,
    fields: &[u8],
    skipping: &[u8],
    macroblocks: &[&[(bool, u8)]],
    tokens: &[u8],
) -> Result<Vec<u8>, AllocError> {
    let first = inter_partition(alloc, fields, skipping, macroblocks)?;
    let tag = tag(false, first.len());
    let mut packet = Vec::new(alloc);
    append(&mut packet, &[&tag, first.as_slice(), tokens])?;
    Ok(packet)
}

/// The first partition of such a packet.
fn inter_partition(
    alloc: Global,
    fields: &[u8],
    skipping: &[u8],
    macroblocks: &[&[(bool, u8)]],
) -> Result<Vec<u8>, AllocError> {
    let mut encoder = Encoder::new(alloc);
    write_inter_header(&mut encoder, fields, skipping)?;
    write_each(&mut encoder, macroblocks)?;
    encoder.finish()
}

/// Writes an inter frame's header.
fn write_inter_header(
    encoder: &mut Encoder,
    fields: &[u8],
    skipping: &[u8],
) -> Result<(), AllocError> {
    write_bits(encoder, fields)?;
    write_bits(encoder, &[b'0'; 24])?;
    for _ in 0..1056 {
        encoder.bit(false, 128)?;
    }
    write_bits(encoder, skipping)?;
    write_bits(encoder, b"000000011111111110000000")?;
    write_bits(encoder, b"00")?;
    for component in VECTOR_UPDATE_PROBABILITIES {
        for prob in component {
            encoder.bit(false, prob)?;
        }
    }
    Ok(())
}

fn write_each(encoder: &mut Encoder, lists: &[&[(bool, u8)]]) -> Result<(), AllocError> {
    for pairs in lists {
        write_pairs(encoder, pairs)?;
    }
    Ok(())
}
