//! The record of a macroblock in a key frame.

ghost use Rattle.std.specs.Prelude.{◌≡◌, length, OnOk};
ghost use Rattle.mode_parser.specs.Appending.{appended, key_mode_at};
ghost use Rattle.mode_parser.specs.FrameModes.{place_of};
ghost use Rattle.mode_parser.specs.RecordList.{own_or_whole};
ghost use Rattle.mode_parser.specs.Records.{skip, key_y_mode, chroma_mode};

use crate::key_sub_modes::read_key_sub_modes;
use crate::nearby::MbPosition;
use crate::places::{record_above, record_left};
use crate::record_list::{Records, Start};
use bool_coder::{Decoder, NoMemory};
use intra_predict::WholeMode;
use vp8_tables::{KEY_UV_PROBABILITIES, KEY_Y_PROBABILITIES, Tables};

#[inline]
#[tactic(auto, unfolding(crate::specs::Records::skip))]
pub(crate) fn read_skip(reader: &mut Decoder, probability: Option<u8>) -> bool
    ensures { skip probability reader.old ≡ (result, reader.new) }
{
    match probability {
        Some(probability) => reader.bit(probability),
        None => false,
    }
}

/// The luma mode: the leaf of its tree. `None` if the sub blocks have modes of their own.
#[inline]
fn read_y_mode(reader: &mut Decoder) -> Option<WholeMode>
    ensures { key_y_mode reader.old ≡ (own_or_whole result, reader.new) }
{
    if !reader.bit(KEY_Y_PROBABILITIES[0]) {
        return None;
    }
    if !reader.bit(KEY_Y_PROBABILITIES[1]) {
        return if reader.bit(KEY_Y_PROBABILITIES[2]) {
            Some(WholeMode::V)
        } else {
            Some(WholeMode::Dc)
        };
    }
    if reader.bit(KEY_Y_PROBABILITIES[3]) {
        Some(WholeMode::Tm)
    } else {
        Some(WholeMode::H)
    }
}

/// The chroma mode: the leaf of its tree.
#[inline]
pub(crate) fn read_uv_mode(reader: &mut Decoder, probabilities: &[u8; 3]) -> WholeMode
    ensures { chroma_mode probabilities.now reader.old ≡ (result, reader.new) }
{
    if !reader.bit(probabilities[0]) {
        return WholeMode::Dc;
    }
    if !reader.bit(probabilities[1]) {
        return WholeMode::V;
    }
    if reader.bit(probabilities[2]) {
        WholeMode::Tm
    } else {
        WholeMode::H
    }
}

/// Reads the record of a macroblock in a key frame, at `place`, the index after these, and appends
/// it to them. It is a function of its own, so other frames clear no memory for it.
#[inline(never)]
#[tactic(auto, unfolding(crate::specs::Records::key_mode, crate::specs::Records::key_sub_modes))]
pub(crate) fn push_key_mode(
    reader: &mut Decoder,
    tables: &Tables,
    skip_probability: Option<u8>,
    segment: u8,
    place: MbPosition,
    records: &mut Records,
) -> Result<(), NoMemory>
    requires { place ≡ place_of place.columns place.rows (length records.old) }
    ensures { OnOk result (appended segment records.old (key_mode_at tables.now skip_probability place records.old) reader.old ≡ (records.new, reader.new)) }
{
    let is_skipped = read_skip(reader, skip_probability);
    let start = Start {
        segment,
        is_skipped,
    };
    match read_y_mode(reader) {
        Some(mode) => {
            let uv_mode = read_uv_mode(reader, &KEY_UV_PROBABILITIES);
            records.push_whole(start, mode, uv_mode)
        }
        None => {
            let above = record_above(records, place.columns);
            let left = record_left(records, place);
            let sub_modes = read_key_sub_modes(reader, tables, &above, &left);
            let uv_mode = read_uv_mode(reader, &KEY_UV_PROBABILITIES);
            records.push_sub_modes(start, sub_modes, uv_mode)
        }
    }
}
