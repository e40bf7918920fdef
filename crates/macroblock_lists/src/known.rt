//! What decoding knows before a packet, without its samples.

ghost use Rattle.std.specs.Prelude.{◌≡◌, ◌<◌, ◌≤◌, ◌*◌, false, length, IfOk, IsSome, IsTrue};
ghost use Rattle.std.specs.Option.{ForSome, option_copied, option_map};
ghost use Rattle.pixel_planes.specs.Pictures.{macroblocks as macroblocks_of};
ghost use Rattle.macroblock_lists.specs.Known.{frame_modes, header_after, height_of, known_after, known_before, known_by, left_at, progress_after, step_of, width_of};

use frame_header::{Cause, Context, Header, has_key_tag, read_header};
use mode_parser::{Modes, read_modes};
use pixel_planes::{NoMemory, macroblocks};
use std::alloc::Global;
use std::marker::Model;
use stream_steps::Broken;
use vp8_tables::Tables;

/// What decoding knows before a packet, without samples: the context of the last header, the segment of each
/// macroblock, and the size of the frames.
#[derive(Drop)]
pub struct Known {
    context: Context,
    segment_map: Vec<u8>,
    width: u16,
    height: u16,
}

impl Model for Known {
    ghost use Rattle.macroblock_lists.specs.Known.{Known as KnownValue, IsKnown};

    ghost Value = { KnownValue };

    ghost view = { λ k. record { context = k.context; segment_map = k.segment_map.items; width = k.width; height = k.height } };

    ghost invariant = { λ k. IsKnown (record { context = k.context; segment_map = k.segment_map.items; width = k.width; height = k.height }) };
}

impl Known {
    /// The context of the last header.
    pub fn context(&self) -> &Context
        ensures { result.now ≡ self.now.context }
    {
        &self.context
    }

    /// The size of the frames.
    pub(crate) fn size(&self) -> (u16, u16)
        ensures value { result ≡ (self.now.width, self.now.height) }
        ensures wide { (1 ≤ result.0) × (result.0 ≤ 16383) }
        ensures high { (1 ≤ result.1) × (result.1 ≤ 16383) }
    {
        (self.width, self.height)
    }
}

/// What is known before a packet, or where the stream is broken.
pub type Knowledge = Result<Option<Known>, Broken>;

/// The context before a packet.
pub(crate) fn context_of(known: Option<&Known>) -> Option<&Context>
    ensures { option_copied result ≡ option_map (λ k. k.context) (option_copied known.entry) }
{
    match known {
        Some(known) => Some(&known.context),
        None => None,
    }
}

/// The shown size of a frame.
pub(crate) fn size_of(header: &Header, before: Option<&Known>) -> (u16, u16)
    requires following { header.now.is_key ≡ false → IsSome before }
    requires wide { IsTrue header.now.is_key → (1 ≤ header.now.width) × (header.now.width ≤ 16383) }
    requires high { IsTrue header.now.is_key → (1 ≤ header.now.height) × (header.now.height ≤ 16383) }
    ensures width { result.0 ≡ width_of header.now (option_copied before.entry) }
    ensures height { result.1 ≡ height_of header.now (option_copied before.entry) }
    ensures wide { (1 ≤ result.0) × (result.0 ≤ 16383) }
    ensures high { (1 ≤ result.1) × (result.1 ≤ 16383) }
{
    match before {
        None => (header.width, header.height),
        Some(before) => before.size(),
    }
}

/// The segment map before a frame.
pub(crate) fn map_of(before: Option<&Known>) -> Option<&[u8]>
    ensures value { option_copied result ≡ option_map (λ k. k.segment_map) (option_copied before.entry) }
    ensures whole { ForSome before.entry (λ k. length k.now.segment_map ≡ macroblocks_of k.now.width * macroblocks_of k.now.height) }
{
    match before {
        Some(before) => Some(before.segment_map.as_slice()),
        None => None,
    }
}

/// The modes of a frame.
pub(crate) fn frame_modes(
    alloc: Global,
    tables: &Tables,
    header: &Header,
    before: Option<&Known>,
) -> Result<Modes, NoMemory>
    requires following { header.now.is_key ≡ false → IsSome before }
    requires wide { IsTrue header.now.is_key → (1 ≤ header.now.width) × (header.now.width ≤ 16383) }
    requires high { IsTrue header.now.is_key → (1 ≤ header.now.height) × (header.now.height ≤ 16383) }
    ensures value { IfOk result (λ modes. modes ≡ frame_modes tables.now header.now (option_copied before.entry)) }
    ensures segments { IfOk result (λ modes. length modes.segment_map ≡ macroblocks_of (width_of header.now (option_copied before.entry)) * macroblocks_of (height_of header.now (option_copied before.entry))) }
{
    let (width, height) = size_of(header, before);
    let map = map_of(before);
    let columns = macroblocks(width);
    let rows = macroblocks(height);
    read_modes(alloc, tables, header, columns, rows, map)
}

/// What is known after a frame with these modes.
pub(crate) fn known_after(header: &Header, modes: Modes, before: Option<&Known>) -> Known
    requires following { header.now.is_key ≡ false → IsSome before }
    requires wide { IsTrue header.now.is_key → (1 ≤ header.now.width) × (header.now.width ≤ 16383) }
    requires high { IsTrue header.now.is_key → (1 ≤ header.now.height) × (header.now.height ≤ 16383) }
    requires segments { length modes.segment_map ≡ macroblocks_of (width_of header.now (option_copied before)) * macroblocks_of (height_of header.now (option_copied before)) }
    ensures { result ≡ record { context = header.now.context_after; segment_map = modes.segment_map; width = width_of header.now (option_copied before.entry); height = height_of header.now (option_copied before.entry) } }
{
    let (width, height) = size_of(header, before);
    Known {
        context: header.context_after,
        segment_map: modes.into_segment_map(),
        width,
        height,
    }
}

/// What is known after a packet with bytes.
fn step_coded(
    alloc: Global,
    tables: &Tables,
    place: usize,
    known: Option<&Known>,
    packet: &[u8],
) -> Result<Knowledge, NoMemory>
    ensures { IfOk result (λ progress. progress ≡ left_at place (known_by tables.now (known_before packet.now (option_copied known.entry)) (header_after tables.now (option_copied known.entry) packet.now))) }
{
    let header = match read_header(tables, context_of(known), packet) {
        Ok(header) => header,
        Err(cause) => return Ok(Err(Broken { place, cause })),
    };
    let before = if header.is_key { None } else { known };
    let modes = frame_modes(alloc, tables, &header, before)?;
    Ok(Ok(Some(known_after(&header, modes, before))))
}

/// What is known after a packet before which this is known.
pub(crate) fn step(
    alloc: Global,
    tables: &Tables,
    place: usize,
    known: Option<Known>,
    packet: &[u8],
) -> Result<Knowledge, NoMemory>
    ensures { IfOk result (λ progress. progress ≡ left_at place (step_of tables.now known packet.now)) }
{
    if !packet.is_empty() {
        return step_coded(alloc, tables, place, known.as_ref(), packet);
    }
    match known {
        Some(known) => Ok(Ok(Some(known))),
        None => Ok(Err(Broken {
            place,
            cause: Cause::NoKeyFrame,
        })),
    }
}

/// What is known after the packet at index `place`, before which `progress` is known. Its header and its modes are read, and no tokens.
///
/// `NoMemory` if memory for its records was refused.
pub fn progress_after(
    alloc: Global,
    tables: &Tables,
    place: usize,
    progress: Knowledge,
    packet: &[u8],
) -> Result<Knowledge, NoMemory>
    ensures { IfOk result (λ after. after ≡ progress_after tables.now place progress packet.now) }
{
    if has_key_tag(packet) {
        return step(alloc, tables, place, None, packet);
    }
    match progress {
        Ok(known) => step(alloc, tables, place, known, packet),
        Err(broken) => Ok(Err(broken)),
    }
}
