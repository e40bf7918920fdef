//! The modes of a macroblock's sub blocks in a key frame.

ghost use Rattle.std.specs.Prelude.{◌≡◌, ◌<◌, length, take};
ghost use Rattle.mode_parser.specs.RecordList.{neighbour_of};
ghost use Rattle.mode_parser.specs.SubModes.{number_of, mode_above, mode_left, sub_mode, key_sub_mode, first_sub_modes};

use crate::record_list::Neighbour;
use bool_coder::Decoder;
use intra_predict::SubMode;
use vp8_tables::Tables;

/// The number of a mode in the tables of a key frame.
#[inline]
fn number_of(mode: SubMode) -> usize
    ensures value { result ≡ number_of mode }
    ensures small { result < 10 }
{
    match mode {
        SubMode::Dc => 0,
        SubMode::Tm => 1,
        SubMode::Ve => 2,
        SubMode::He => 3,
        SubMode::Ld => 4,
        SubMode::Rd => 5,
        SubMode::Vr => 6,
        SubMode::Vl => 7,
        SubMode::Hd => 8,
        SubMode::Hu => 9,
    }
}

/// The mode above sub block `n`, in its own macroblock or in the one above.
#[inline]
fn mode_above(above: &Neighbour, modes: &[SubMode; 16], n: usize) -> SubMode
    requires { n < 16 }
    ensures { result ≡ mode_above (neighbour_of above.now) (take n modes.now) n }
{
    if n < 4 {
        above.sub_mode(n + 12)
    } else {
        modes[n - 4]
    }
}

/// The mode to the left of sub block `n`, in its own macroblock or in the one to the left.
#[inline]
fn mode_left(left: &Neighbour, modes: &[SubMode; 16], n: usize) -> SubMode
    requires { n < 16 }
    ensures { result ≡ mode_left (neighbour_of left.now) (take n modes.now) n }
{
    if n % 4 == 0 {
        left.sub_mode(n + 3)
    } else {
        modes[n - 1]
    }
}

/// A mode of a sub block by the 9 probabilities of its tree: the leaf of the tree, whose nodes are
/// numbered from 0.
#[inline]
pub(crate) fn read_sub_mode(reader: &mut Decoder, nodes: &[u8]) -> SubMode
    requires { length nodes.now ≡ 9 }
    ensures { sub_mode nodes.now reader.old ≡ (result, reader.new) }
{
    if !reader.bit(nodes[0]) {
        return SubMode::Dc;
    }
    if !reader.bit(nodes[1]) {
        return SubMode::Tm;
    }
    if !reader.bit(nodes[2]) {
        return SubMode::Ve;
    }
    if !reader.bit(nodes[3]) {
        if !reader.bit(nodes[4]) {
            return SubMode::He;
        }
        return if reader.bit(nodes[5]) {
            SubMode::Vr
        } else {
            SubMode::Rd
        };
    }
    if !reader.bit(nodes[6]) {
        return SubMode::Ld;
    }
    if !reader.bit(nodes[7]) {
        return SubMode::Vl;
    }
    if reader.bit(nodes[8]) {
        SubMode::Hu
    } else {
        SubMode::Hd
    }
}

/// The mode of a sub block below and to the right of these.
#[inline]
fn read_key_sub_mode(
    reader: &mut Decoder,
    tables: &Tables,
    above: SubMode,
    left: SubMode,
) -> SubMode
    ensures { key_sub_mode tables.now above left reader.old ≡ (result, reader.new) }
{
    let nodes = tables.key_sub_nodes(number_of(above), number_of(left));
    read_sub_mode(reader, nodes)
}

/// The modes of all sub blocks of a macroblock below and to the right of these.
#[inline]
pub(crate) fn read_key_sub_modes(
    reader: &mut Decoder,
    tables: &Tables,
    above: &Neighbour,
    left: &Neighbour,
) -> [SubMode; 16]
    ensures { first_sub_modes 16 tables.now (neighbour_of above.now) (neighbour_of left.now) reader.old ≡ (result, reader.new) }
{
    let mut modes = [SubMode::Dc; 16];
    for n in 0..16usize {
        let over = mode_above(above, &modes, n);
        let neighbour = mode_left(left, &modes, n);
        modes[n] = read_key_sub_mode(reader, tables, over, neighbour);
    }
    modes
}
