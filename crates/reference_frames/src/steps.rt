ghost use Rattle.std.specs.Prelude.{◌≡◌, false, ◌+◌, ◌<◌, ◌≤◌, ◌*◌, length, All, IfOk, IsTrue, IsSome, None};
ghost use Rattle.std.specs.Option.{option_copied, option_map, ForSome};
ghost use Rattle.reference_frames.specs.Steps.{StepAnswers, coded_step, decoded, height_of, references_before, references_after_frame, repeated, step_of, width_of};
ghost use Rattle.reference_frames.specs.States.{HasMap, HaveOneSize};
ghost use Rattle.reference_frames.specs.Unfiltered.{empty_planes};
ghost use Rattle.pixel_planes.specs.PlaneSamples.{AreWhole, shown_of};

use crate::frames::{Blank, decoded_picture};
use crate::references::References;
use crate::states::State;
use crate::step_fault::StepFault;
use frame_header::{Cause, Header, read_header};
use mode_parser::read_modes;
use pixel_planes::{NoMemory, Picture, Planes, Recycled, macroblocks};
use std::alloc::Global;
use vp8_tables::Tables;

/// The shown size of a frame: its references' size, or a key frame's own.
pub(crate) fn size_of(header: &Header, before: Option<&State>) -> (u16, u16)
    requires following { header.now.is_key ≡ false → IsSome before }
    requires wide { IsTrue header.now.is_key → (1 ≤ header.now.width) × (header.now.width ≤ 16383) }
    requires high { IsTrue header.now.is_key → (1 ≤ header.now.height) × (header.now.height ≤ 16383) }
    ensures width { result.0 ≡ width_of header.now (option_copied before.entry) }
    ensures height { result.1 ≡ height_of header.now (option_copied before.entry) }
    ensures wide { (0 < result.0) × (result.0 ≤ 16383) }
    ensures high { (0 < result.1) × (result.1 ≤ 16383) }
{
    match before {
        None => (header.width, header.height),
        Some(before) => {
            let last = &before.references().last;
            (last.width(), last.height())
        }
    }
}

/// The segment map before a frame, if it has a state before it.
pub(crate) fn map_before(before: Option<&State>) -> Option<&[u8]>
    ensures value { option_copied result ≡ option_map (λ s. s.segment_map) (option_copied before.entry) }
    ensures whole { ForSome before.entry (λ s. HasMap s.now) }
{
    match before {
        Some(before) => Some(before.segment_map()),
        None => None,
    }
}

/// The references before a frame, if it has a state before it.
fn references_before(before: Option<&State>) -> Option<&References>
    ensures value { option_copied result ≡ references_before (option_copied before.entry) }
    ensures one_size { ForSome (option_copied before.entry) (λ s. HaveOneSize s.references) }
{
    match before {
        Some(before) => Some(before.references()),
        None => None,
    }
}

/// The references after a frame of this picture.
fn references_after_frame(
    header: &Header,
    picture: &Picture,
    before: Option<&State>,
) -> Result<References, NoMemory>
    ensures { IfOk result (λ r. r ≡ references_after_frame header.now picture.now (option_copied before.entry)) }
{
    match before {
        None => References::all_of(picture),
        Some(before) => before.references().after(&header.references, picture),
    }
}

/// The planes for the picture of a frame: without references all their samples are 0.
fn planes_for(
    alloc: Global,
    recycled: &mut Recycled,
    references: Option<&References>,
    columns: usize,
    rows: usize,
) -> Result<Planes, NoMemory>
    requires wide { (0 < columns) × (columns ≤ 1024) }
    requires high { (0 < rows) × (rows ≤ 1024) }
    ensures shape { IfOk result (λ planes. AreWhole columns rows (shown_of planes)) }
    ensures empty { IfOk result (λ planes. option_copied references.entry ≡ None → shown_of planes ≡ empty_planes columns rows) }
{
    match references {
        Some(_) => recycled.make_planes(alloc, columns, rows),
        None => recycled.make_zero_planes(alloc, columns, rows),
    }
}

/// Decodes a frame after its header: the state after it, and its picture.
fn decode(
    alloc: Global,
    tables: &Tables,
    recycled: &mut Recycled,
    packet: &[u8],
    header: &Header,
    before: Option<&State>,
) -> Result<(State, Picture), NoMemory>
    requires following { header.now.is_key ≡ false → IsSome before }
    requires wide { IsTrue header.now.is_key → (1 ≤ header.now.width) × (header.now.width ≤ 16383) }
    requires high { IsTrue header.now.is_key → (1 ≤ header.now.height) × (header.now.height ≤ 16383) }
    requires some { 0 < length header.now.partitions.items }
    requires inside { All (λ place. place.start + place.length ≤ length packet.now) header.now.partitions.items }
    ensures { IfOk result (λ d. d ≡ decoded tables.now packet.now header.now (option_copied before.entry)) }
{
    let (width, height) = size_of(header, before);
    let map = map_before(before);
    let references = references_before(before);
    let columns = macroblocks(width);
    let rows = macroblocks(height);
    let modes = read_modes(alloc, tables, header, columns, rows, map)?;
    let planes = planes_for(alloc, recycled, references, columns, rows)?;
    let blank = Blank {
        planes,
        width,
        height,
    };
    let picture = decoded_picture(alloc, packet, header, references, blank, &modes)?;
    let references = references_after_frame(header, &picture, before)?;
    let segment_map = modes.into_segment_map();
    let state = State::new(alloc, header.context_after, segment_map, references)?;
    Ok((state, picture))
}

/// The same state again, and the picture of its last reference. It takes no memory; `NoMemory` if one of
/// its parts is shared as often as can be counted.
fn shown_again(state: &State) -> Result<(State, Picture), NoMemory>
    ensures { IfOk result (λ d. d ≡ (state.now, state.now.references.last)) }
{
    let last = state.references().last.again()?;
    Ok((state.again()?, last))
}

/// A packet of no bytes drops a frame: the state stays and its last reference is shown.
///
/// `Refused` with `NoKeyFrame` if there is no state.
fn repeat(state: Option<&State>) -> Result<(State, Picture), StepFault>
    ensures { StepAnswers (repeated (option_copied state.entry)) result }
{
    let Some(state) = state else {
        return Err(StepFault::Refused(Cause::NoKeyFrame));
    };
    match shown_again(state) {
        Ok(shown) => Ok(shown),
        Err(_) => Err(StepFault::NoMemory),
    }
}

/// The step of a packet with bytes: its header, and the frame after it.
fn step_coded(
    alloc: Global,
    tables: &Tables,
    recycled: &mut Recycled,
    state: Option<&State>,
    packet: &[u8],
) -> Result<(State, Picture), StepFault>
    ensures { StepAnswers (coded_step tables.now (option_copied state.entry) packet.now) result }
{
    let context = match state {
        Some(state) => Some(state.context()),
        None => None,
    };
    let header = match read_header(tables, context, packet) {
        Ok(header) => header,
        Err(cause) => return Err(StepFault::Refused(cause)),
    };
    let before = if header.is_key { None } else { state };
    match decode(alloc, tables, recycled, packet, &header, before) {
        Ok(decoded) => Ok(decoded),
        Err(_) => Err(StepFault::NoMemory),
    }
}

/// One step of decoding (RFC 6386, section 9): the state after `packet` and its picture, from the
/// state before it, or from none. A packet of no bytes leaves the state as it is and shows its last
/// reference.
///
/// `Refused` with the first cause against the packet; `NoMemory` if memory runs out for the modes, the
/// readers of the token partitions, the flags between macroblocks, a plane, a shared block or one more
/// share of a plane.
pub fn step(
    alloc: Global,
    tables: &Tables,
    state: Option<&State>,
    packet: &[u8],
) -> Result<(State, Picture), StepFault>
    ensures { StepAnswers (step_of tables.now (option_copied state.entry) packet.now) result }
{
    step_with(alloc, tables, &mut Recycled::new(), state, packet)
}

/// The same step, with the recycled planes for its picture, if they have its size.
#[tactic(auto, unfolding(crate::specs::Steps::step_of))]
pub fn step_with(
    alloc: Global,
    tables: &Tables,
    recycled: &mut Recycled,
    state: Option<&State>,
    packet: &[u8],
) -> Result<(State, Picture), StepFault>
    ensures { StepAnswers (step_of tables.now (option_copied state.entry) packet.now) result }
{
    if packet.is_empty() {
        return repeat(state);
    }
    step_coded(alloc, tables, recycled, state, packet)
}
