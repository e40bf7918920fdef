//! The record of a macroblock in an inter frame (RFC 6386, sections 16 and 19.3).

ghost use Rattle.std.specs.Prelude.{◌≡◌, ◌<◌, ◌≤◌, length, OnOk};
ghost use Rattle.vp8_tables.specs.Bounds.{IsWithin};
ghost use Rattle.mode_parser.specs.InterRecords.{inter_y_mode, first_inter_sub_modes, which_reference, vector_mode, split_vectors, intra_mode};
ghost use Rattle.mode_parser.specs.FrameModes.{place_of, record_above as record_above_of, record_left as record_left_of};
ghost use Rattle.mode_parser.specs.Appending.{appended, appended_split, referenced_mode_at, inter_mode_at};
ghost use Rattle.mode_parser.specs.RecordList.{own_or_whole};
ghost use Rattle.mode_parser.specs.Candidates.{AreLight, counts_of};

use crate::key_modes::{read_skip, read_uv_mode};
use crate::key_sub_modes::read_sub_mode;
use crate::nearby::{Candidates, MbPosition, candidates_beside};
use crate::places::{record_above, record_above_left, record_left};
use crate::record_list::{Records, Start};
use crate::records::VectorMode;
use crate::split_vectors::read_split_vectors;
use crate::vector_reading::read_vector;
use crate::vectors::Vector;
use bool_coder::{Decoder, NoMemory};
use frame_header::{Header, Probabilities, Reference, ReferenceProbabilities};
use intra_predict::{SubMode, WholeMode};
use vp8_tables::{INTER_SUB_PROBABILITIES, VECTOR_MODE_PROBABILITIES};

/// The luma mode of a macroblock without a reference: the leaf of its tree. `None` if the sub blocks
/// have modes of their own.
#[inline]
fn read_y_mode(reader: &mut Decoder, probabilities: &[u8; 4]) -> Option<WholeMode>
    ensures { inter_y_mode probabilities.now reader.old ≡ (own_or_whole result, reader.new) }
{
    if !reader.bit(probabilities[0]) {
        return Some(WholeMode::Dc);
    }
    if !reader.bit(probabilities[1]) {
        return if reader.bit(probabilities[2]) {
            Some(WholeMode::H)
        } else {
            Some(WholeMode::V)
        };
    }
    if reader.bit(probabilities[3]) {
        None
    } else {
        Some(WholeMode::Tm)
    }
}

/// The modes of all sub blocks of a macroblock, whatever is next to it.
fn read_sub_modes(reader: &mut Decoder) -> [SubMode; 16]
    ensures { first_inter_sub_modes 16 reader.old ≡ (result, reader.new) }
{
    // A copy of its own keeps the reader in registers.
    let mut local = reader.copied();
    let mut modes = [SubMode::Dc; 16];
    for n in 0..16usize {
        modes[n] = read_sub_mode(&mut local, &INTER_SUB_PROBABILITIES);
    }
    *reader = local;
    modes
}

/// The reference of a macroblock that has one.
#[inline]
#[tactic(auto, unfolding(crate::specs::InterRecords::which_reference))]
pub(crate) fn read_reference(
    reader: &mut Decoder,
    probabilities: ReferenceProbabilities,
) -> Reference
    ensures { which_reference probabilities reader.old ≡ (result, reader.new) }
{
    if !reader.bit(probabilities.last) {
        return Reference::Last;
    }
    if reader.bit(probabilities.golden) {
        Reference::Altref
    } else {
        Reference::Golden
    }
}

/// The vector mode of a macroblock with these candidates: the leaf of its tree, whose probabilities
/// are each in the row of their count.
#[inline]
pub(crate) fn read_vector_mode(reader: &mut Decoder, found: &Candidates) -> VectorMode
    requires { AreLight found.now }
    ensures { vector_mode (counts_of found.now) reader.old ≡ (result, reader.new) }
{
    if !reader.bit(VECTOR_MODE_PROBABILITIES[found.zeros as usize][0]) {
        return VectorMode::Zero;
    }
    if !reader.bit(VECTOR_MODE_PROBABILITIES[found.nearest.weight as usize][1]) {
        return VectorMode::Nearest;
    }
    if !reader.bit(VECTOR_MODE_PROBABILITIES[found.near.weight as usize][2]) {
        return VectorMode::Near;
    }
    if reader.bit(VECTOR_MODE_PROBABILITIES[found.split as usize][3]) {
        VectorMode::Split
    } else {
        VectorMode::New
    }
}

/// Reads the rest of the record of a macroblock without a reference, and appends it to these. It is a
/// function of its own, so that the modes of sub blocks need no memory where there are none.
#[inline(never)]
#[tactic(auto, unfolding(crate::specs::InterRecords::intra_mode, crate::specs::InterRecords::inter_sub_modes))]
fn push_intra_mode(
    reader: &mut Decoder,
    start: Start,
    probabilities: &Probabilities,
    records: &mut Records,
) -> Result<(), NoMemory>
    ensures { OnOk result (appended start.segment records.old (intra_mode start.is_skipped probabilities.now) reader.old ≡ (records.new, reader.new)) }
{
    match read_y_mode(reader, &probabilities.y_modes) {
        Some(mode) => {
            let uv_mode = read_uv_mode(reader, &probabilities.uv_modes);
            records.push_whole(start, mode, uv_mode)
        }
        None => {
            let sub_modes = read_sub_modes(reader);
            let uv_mode = read_uv_mode(reader, &probabilities.uv_modes);
            records.push_sub_modes(start, sub_modes, uv_mode)
        }
    }
}

/// What the vectors of a split macroblock refer to: its reference, and its best near vector.
#[derive(Clone, Copy)]
struct SplitStart {
    reference: Reference,
    best: Vector,
}

/// Reads the vectors of a split macroblock at `place`, the index after these, and appends its record to them. It
/// is a function of its own for the same reason.
#[inline(never)]
fn push_split_mode(
    reader: &mut Decoder,
    start: Start,
    moved: SplitStart,
    probabilities: &[[u8; 19]; 2],
    place: MbPosition,
    records: &mut Records,
) -> Result<(), NoMemory>
    requires at { place ≡ place_of place.columns place.rows (length records.old) }
    requires across { IsWithin 65536 moved.best.x }
    requires down { IsWithin 65536 moved.best.y }
    ensures { OnOk result (appended_split start moved.reference records.old (split_vectors probabilities.now moved.best (record_above_of records.old place.columns (length records.old)) (record_left_of records.old place.columns (length records.old))) reader.old ≡ (records.new, reader.new)) }
{
    let above = record_above(records, place.columns);
    let left = record_left(records, place);
    let vectors = read_split_vectors(reader, probabilities, moved.best, &above, &left);
    records.push_split(start, moved.reference, vectors)
}

/// Reads the record of a macroblock with a reference, at `place`, the index after these, and
/// appends it to them.
#[inline]
#[tactic(auto, unfolding(crate::specs::InterRecords::referenced_mode, crate::specs::InterRecords::vectors_by))]
fn push_referenced_mode(
    reader: &mut Decoder,
    start: Start,
    header: &Header,
    place: MbPosition,
    records: &mut Records,
) -> Result<(), NoMemory>
    requires at { place ≡ place_of place.columns place.rows (length records.old) }
    requires across { (place.column < place.columns) × (place.columns ≤ 1024) }
    requires down { (place.row < place.rows) × (place.rows ≤ 1024) }
    ensures { OnOk result (appended start.segment records.old (referenced_mode_at start.is_skipped header.now place records.old) reader.old ≡ (records.new, reader.new)) }
{
    let context = &header.context;
    let above = record_above(records, place.columns);
    let left = record_left(records, place);
    let above_left = record_above_left(records, place);
    let reference = read_reference(reader, header.reference_probabilities);
    let found = candidates_beside(&above, &left, &above_left, reference, context.sign_biases);
    let probabilities = &context.probabilities.vectors;
    let mode = read_vector_mode(reader, &found);
    let vector = match mode {
        VectorMode::Zero => Vector::ZERO,
        VectorMode::Nearest => found.nearest(place),
        VectorMode::Near => found.near(place),
        VectorMode::New => found.best(place).plus(read_vector(reader, probabilities)),
        VectorMode::Split => {
            let best = found.best(place);
            let moved = SplitStart { reference, best };
            let mut local = reader.copied();
            push_split_mode(&mut local, start, moved, probabilities, place, records)?;
            *reader = local;
            return Ok(());
        }
    };
    records.push_moved(start, reference, mode, vector)?;
    Ok(())
}

/// Reads the record of a macroblock in an inter frame, at `place`, the index after these, and
/// appends it to them. Calls get copies of the reader, so it stays in registers here.
#[inline]
#[tactic(auto, unfolding(crate::specs::InterRecords::inter_mode))]
pub(crate) fn push_inter_mode(
    reader: &mut Decoder,
    header: &Header,
    segment: u8,
    place: MbPosition,
    records: &mut Records,
) -> Result<(), NoMemory>
    requires at { place ≡ place_of place.columns place.rows (length records.old) }
    requires across { (place.column < place.columns) × (place.columns ≤ 1024) }
    requires down { (place.row < place.rows) × (place.rows ≤ 1024) }
    ensures { OnOk result (appended segment records.old (inter_mode_at header.now place records.old) reader.old ≡ (records.new, reader.new)) }
{
    let is_skipped = read_skip(reader, header.skip_probability);
    let start = Start {
        segment,
        is_skipped,
    };
    if reader.bit(header.reference_probabilities.intra) {
        return push_referenced_mode(reader, start, header, place, records);
    }
    let mut local = reader.copied();
    let probabilities = &header.context.probabilities;
    push_intra_mode(&mut local, start, probabilities, records)?;
    *reader = local;
    Ok(())
}
