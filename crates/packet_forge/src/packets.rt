// Forged packets.
ghost use Rattle.std.specs.Prelude.{◌≡◌, ◌<◌, ◌≤◌, ◌++◌, length, Ok, IfOk, IfErr, IsTrue};
ghost use Rattle.packet_forge.specs.Faults.{ForgeRefuses, PartitionRefuses};
ghost use Rattle.packet_forge.specs.Packets.{blank_of, blank_partition, hold_of, hold_partition, key_start as key_start_of, tag_bytes};

use crate::faults::ForgeFault;
use crate::pairs::{
    write_blank_header, write_blank_macroblocks, write_hold_header, write_hold_macroblocks,
};
use bool_coder::{Encoder, NoMemory};
use pixel_planes::{is_side, macroblocks};
use std::alloc::Global;
use vp8_tables::Tables;

/// The most bytes of a first partition: its size has 19 bits.
const MAX_PARTITION: usize = 524_287;

/// The first partition of a blank frame.
#[tactic(auto, unfolding(crate::specs::Packets::blank_partition))]
fn write_blank(alloc: Global, tables: &Tables, width: u16, height: u16) -> Result<Vec<u8>, NoMemory>
    requires wide { width ≤ 16383 }
    requires high { height ≤ 16383 }
    ensures { IfOk result (λ bytes. bytes.items ≡ blank_partition tables.now width height) }
{
    let mut encoder = Encoder::new(alloc);
    write_blank_header(&mut encoder, tables.updates())?;
    write_blank_macroblocks(&mut encoder, macroblocks(width) * macroblocks(height))?;
    encoder.finish()
}

/// The first partition of a hold frame.
#[tactic(auto, unfolding(crate::specs::Packets::hold_partition))]
fn write_hold(alloc: Global, tables: &Tables, width: u16, height: u16) -> Result<Vec<u8>, NoMemory>
    requires wide { (0 < width) × (width ≤ 16383) }
    requires high { height ≤ 16383 }
    ensures { IfOk result (λ bytes. bytes.items ≡ hold_partition tables.now width height) }
{
    let mut encoder = Encoder::new(alloc);
    let columns = macroblocks(width);
    write_hold_header(&mut encoder, tables.updates())?;
    write_hold_macroblocks(&mut encoder, columns, columns * macroblocks(height))?;
    encoder.finish()
}

/// The tag of a shown frame of version 0, with this bit 0 and the size of its first partition.
fn tag(later: u32, size: usize) -> [u8; 3]
    requires later { later ≤ 1 }
    requires size { size ≤ 524287 }
    ensures { result ≡ tag_bytes later size }
{
    let tag = later + 16 + 32 * size as u32;
    [
        (tag % 256) as u8,
        (tag / 256 % 256) as u8,
        (tag / 65536 % 256) as u8,
    ]
}

/// The bytes after the tag of a key frame of this size.
fn key_start(width: u16, height: u16) -> [u8; 7]
    ensures { result ≡ key_start_of width height }
{
    [
        0x9D,
        0x01,
        0x2A,
        (width % 256) as u8,
        (width / 256) as u8,
        (height % 256) as u8,
        (height / 256) as u8,
    ]
}

/// Three texts in sequence.
fn joined(alloc: Global, tag: &[u8], start: &[u8], first: &[u8]) -> Result<Vec<u8>, NoMemory>
    ensures { IfOk result (λ packet. packet.items ≡ tag.now ++ start.now ++ first.now) }
{
    let mut packet = Vec::from_slice(alloc, tag)?;
    packet.extend_from_slice(start)?;
    packet.extend_from_slice(first)?;
    Ok(packet)
}

/// A packet with this bit 0 of the tag, these bytes after its tag, and this first partition.
fn packet_of(alloc: Global, later: u32, start: &[u8], first: &[u8]) -> Result<Vec<u8>, ForgeFault>
    requires { later ≤ 1 }
    ensures value { IfOk result (λ packet. packet.items ≡ tag_bytes later (length first.now) ++ start.now ++ first.now) }
    ensures small { IfOk result (λ packet. length first.now ≤ 524287) }
    ensures refused { IfErr result (PartitionRefuses (length first.now)) }
{
    if first.len() > MAX_PARTITION {
        return Err(ForgeFault::TooLarge);
    }
    joined(alloc, &tag(later, first.len()), start, first).map_err(|_| ForgeFault::NoMemory)
}

/// Forges a key frame packet of `width` by `height` shown luma samples, which decodes, with the same tables, to a picture whose
/// samples are all 128 (RFC 6386, sections 9 and 19).
///
/// The frame is shown, of version 0 and without scaling; its fields are 0, all its macroblocks are skipped
/// and predicted by mode DC, and its only token partition is empty.
///
/// `Size` if the width or height is 0 or above 16,383; then `TooLarge` if the first partition has more
/// bytes than a tag can give; `NoMemory` if an allocation fails, also instead of `TooLarge`.
pub fn blank(alloc: Global, tables: &Tables, width: u16, height: u16) -> Result<Vec<u8>, ForgeFault>
    ensures bytes { IfOk result (λ packet. blank_of tables.now width height ≡ Ok packet.items) }
    ensures refused { IfErr result (ForgeRefuses (blank_of tables.now width height)) }
{
    if !is_side(u64::from(width)) || !is_side(u64::from(height)) {
        return Err(ForgeFault::Size);
    }
    let Ok(first) = write_blank(alloc, tables, width, height) else {
        return Err(ForgeFault::NoMemory);
    };
    packet_of(alloc, 0, &key_start(width, height), &first)
}

/// Forges a packet that shows the last reference again and changes no reference, when it follows a state
/// of `width` by `height` shown luma samples and is decoded with the same tables (RFC 6386, sections 9 and 19).
///
/// The frame is shown and of version 0; all its macroblocks are skipped and predicted from the last frame
/// by zero vectors, and its only token partition is empty.
///
/// `Size` if the width or height is 0 or above 16,383; then `TooLarge` if the first partition has more
/// bytes than a tag can give; `NoMemory` if an allocation fails, also instead of `TooLarge`.
pub fn hold(alloc: Global, tables: &Tables, width: u16, height: u16) -> Result<Vec<u8>, ForgeFault>
    ensures bytes { IfOk result (λ packet. hold_of tables.now width height ≡ Ok packet.items) }
    ensures refused { IfErr result (ForgeRefuses (hold_of tables.now width height)) }
{
    if !is_side(u64::from(width)) || !is_side(u64::from(height)) {
        return Err(ForgeFault::Size);
    }
    let Ok(first) = write_hold(alloc, tables, width, height) else {
        return Err(ForgeFault::NoMemory);
    };
    packet_of(alloc, 1, &[], &first)
}
