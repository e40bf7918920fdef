//! The names of modes and references.

ghost use Rattle.std.specs.Prelude.{◌≡◌};
ghost use Rattle.macroblock_lists.specs.Names.{luma_name, reference_name, split_name, sub_name, vector_mode_name, which_name, whole_name};

use frame_header::Reference;
use intra_predict::{SubMode, WholeMode};
use mode_parser::{Split, VectorMode, YMode};

pub(crate) fn whole_name(mode: WholeMode) -> &'static str
    ensures { result.now ≡ whole_name mode }
{
    match mode {
        WholeMode::Dc => "DC_PRED",
        WholeMode::V => "V_PRED",
        WholeMode::H => "H_PRED",
        WholeMode::Tm => "TM_PRED",
    }
}

pub(crate) fn sub_name(mode: SubMode) -> &'static str
    ensures { result.now ≡ sub_name mode }
{
    match mode {
        SubMode::Dc => "B_DC_PRED",
        SubMode::Tm => "B_TM_PRED",
        SubMode::Ve => "B_VE_PRED",
        SubMode::He => "B_HE_PRED",
        SubMode::Ld => "B_LD_PRED",
        SubMode::Rd => "B_RD_PRED",
        SubMode::Vr => "B_VR_PRED",
        SubMode::Vl => "B_VL_PRED",
        SubMode::Hd => "B_HD_PRED",
        SubMode::Hu => "B_HU_PRED",
    }
}

fn vector_mode_name(mode: VectorMode) -> &'static str
    ensures { result.now ≡ vector_mode_name mode }
{
    match mode {
        VectorMode::Zero => "mv_zero",
        VectorMode::Nearest => "mv_nearest",
        VectorMode::Near => "mv_near",
        VectorMode::New => "mv_new",
        VectorMode::Split => "mv_split",
    }
}

pub(crate) fn split_name(split: Split) -> &'static str
    ensures { result.now ≡ split_name split }
{
    match split {
        Split::TopBottom => "mv_top_bottom",
        Split::LeftRight => "mv_left_right",
        Split::Quarters => "mv_quarters",
        Split::Sixteenths => "MV_16",
    }
}

pub(crate) fn luma_name(mode: YMode) -> &'static str
    ensures { result.now ≡ luma_name mode }
{
    match mode {
        YMode::Whole(mode) => whole_name(mode),
        YMode::B => "B_PRED",
        YMode::Inter(_, mode) => vector_mode_name(mode),
    }
}

fn which_name(reference: Reference) -> &'static str
    ensures { result.now ≡ which_name reference }
{
    match reference {
        Reference::Last => "last",
        Reference::Golden => "golden",
        Reference::Altref => "altref",
    }
}

pub(crate) fn reference_name(mode: YMode) -> &'static str
    ensures { result.now ≡ reference_name mode }
{
    match mode {
        YMode::Whole(_) => "intra",
        YMode::B => "intra",
        YMode::Inter(reference, _) => which_name(reference),
    }
}
