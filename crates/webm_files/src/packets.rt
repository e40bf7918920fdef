// The packets of the video, and the blocks of a file.
ghost use Rattle.std.specs.Prelude.{◌≡◌, ◌++◌, ◌≤◌, length, option_to_list, IfOk, OnOk};
ghost use Rattle.std.specs.List.{filter};
ghost use Rattle.std.specs.Option.{ForSome};
ghost use Rattle.webm_files.specs.Packets.{HasBlocks, HasCount, is_listed, is_packet, listed_in, packets_in, unlisted_in};

use super::blocks::{Block, base_after, block_of};
use super::walks::next_element;
use pixel_planes::NoMemory;
use std::alloc::{AllocError, Global};
use stream_files::{FileBytes, Packet, Packets};

/// The packets of the video, the blocks of tracks that the file lists, and those of other track numbers.
#[derive(Drop)]
pub(crate) struct Blocks {
    pub(crate) packets: Packets,
    pub(crate) listed: Vec<Block>,
    pub(crate) unlisted: Vec<Block>,
}

/// Whether a block is a packet of the video with this track number. A laced block of the video is none.
pub fn is_packet(video: u64, block: &Block) -> bool
    ensures { result ≡ is_packet video block.now }
{
    block.track == video && block.flags / 2 % 4 == 0
}

/// Whether a block has one of these track numbers.
pub fn is_listed(numbers: &[u64], block: &Block) -> bool
    ensures { result ≡ is_listed numbers.now block.now }
{
    numbers.contains(&block.track)
}

/// The number of packets of the video that a block is.
fn count_one(video: u64, block: Option<Block>) -> usize
    ensures count { result ≡ length (filter (is_packet video) (option_to_list block)) }
    ensures most { result ≤ 1 }
{
    match block {
        Some(block) => { if is_packet(video, &block) { 1 } else { 0 } }
        None => 0,
    }
}

/// The number of packets of the video of a file.
pub(crate) fn count_packets(bytes: &[u8], video: u64) -> usize
    ensures { HasCount bytes.now video result }
{
    let mut count = 0;
    let mut base = 0;
    let mut at = 0;
    'elements: while let Some(element) = next_element(bytes, at) {
        count += count_one(video, block_of(bytes, base, &element));
        base = base_after(bytes, base, &element);
        at = element.end;
    }
    count
}

/// Adds the packet of the video that a block is, if it is one.
fn push_packet<B: FileBytes>(
    alloc: Global,
    file: &B,
    video: u64,
    packets: &mut Vec<Packet>,
    block: Option<Block>,
) -> Result<(), NoMemory>
    requires order { ForSome block (λ block. block.start ≤ block.end) }
    requires inside { ForSome block (λ block. block.end ≤ length (B.bytes file.now)) }
    ensures { OnOk result (packets.new.items ≡ packets.old.items ++ packets_in (B.bytes file.now) video (option_to_list block)) }
{
    if let Some(block) = block {
        if is_packet(video, &block) {
            packets.push(Packet {
                stamp: block.stamp,
                bytes: file.part(alloc, block.start, block.end - block.start)?,
            })?;
        }
    }
    Ok(())
}

/// Adds a block to one of two lists.
fn push_block(
    numbers: &[u64],
    listed: &mut Vec<Block>,
    unlisted: &mut Vec<Block>,
    block: Option<Block>,
) -> Result<(), AllocError>
    ensures listed { OnOk result (listed.new.items ≡ listed.old.items ++ listed_in numbers.now (option_to_list block)) }
    ensures unlisted { OnOk result (unlisted.new.items ≡ unlisted.old.items ++ unlisted_in numbers.now (option_to_list block)) }
{
    if let Some(block) = block {
        if is_listed(numbers, &block) {
            listed.push(block)?;
        } else {
            unlisted.push(block)?;
        }
    }
    Ok(())
}

/// Reads the packets of the video, with room for `count` from the start, and the blocks of a file.
pub(crate) fn read_blocks<B: FileBytes>(
    alloc: Global,
    file: &B,
    numbers: &[u64],
    video: u64,
    count: usize,
) -> Result<Blocks, NoMemory>
    ensures { IfOk result (HasBlocks (B.bytes file.now) numbers.now video) }
{
    let bytes = file.whole();
    let mut packets = Vec::with_capacity(alloc, count)?;
    let mut listed = Vec::new(alloc);
    let mut unlisted = Vec::new(alloc);
    let mut base = 0;
    let mut at = 0;
    'elements: while let Some(element) = next_element(bytes, at) {
        let block = block_of(bytes, base, &element);
        push_packet(alloc, file, video, &mut packets, block)?;
        push_block(numbers, &mut listed, &mut unlisted, block)?;
        base = base_after(bytes, base, &element);
        at = element.end;
    }
    Ok(Blocks {
        packets: Packets::new(packets),
        listed,
        unlisted,
    })
}
