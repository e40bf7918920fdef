ghost use Rattle.std.specs.Prelude.{◌≡◌};
ghost use Rattle.intra_predict.specs.WholeSample.{side_of};

/// How a whole block is predicted (RFC 6386, sections 8.2 and 12.2).
#[derive(Clone, Copy, Debug, PartialEq, Eq)]
pub enum WholeMode {
    /// `DC_PRED`: each sample is the mean of the samples above and to the left.
    Dc,
    /// `V_PRED`: each row is the row above the block.
    V,
    /// `H_PRED`: each column is the column to the left of the block.
    H,
    /// `TM_PRED`: the differences along the row above continue from the column to the left.
    Tm,
}

/// How a sub block of 4 by 4 samples is predicted (RFC 6386, sections 11.2 and 12.3).
///
/// The modes are numbered from 0 in this order.
#[derive(Clone, Copy, Debug, PartialEq, Eq)]
pub enum SubMode {
    /// `B_DC_PRED`: each sample is the mean of the samples above and to the left.
    Dc,
    /// `B_TM_PRED`: the differences along the row above continue from the column to the left.
    Tm,
    /// `B_VE_PRED`: each row is the smoothed row above.
    Ve,
    /// `B_HE_PRED`: each column is the smoothed column to the left.
    He,
    /// `B_LD_PRED`: the row above continues left and down, at 45 degrees.
    Ld,
    /// `B_RD_PRED`: the edge continues right and down, at 45 degrees.
    Rd,
    /// `B_VR_PRED`: the edge continues down and a little right.
    Vr,
    /// `B_VL_PRED`: the row above continues down and a little left.
    Vl,
    /// `B_HD_PRED`: the edge continues right and a little down.
    Hd,
    /// `B_HU_PRED`: the column to the left continues right and a little up.
    Hu,
}

/// The size of a whole block.
#[derive(Clone, Copy, Debug, PartialEq, Eq)]
pub enum BlockSize {
    /// 16 by 16 samples, as a macroblock has in luma.
    Sixteen,
    /// 8 by 8 samples, as a macroblock has in each chroma plane.
    Eight,
}

impl BlockSize {
    /// How many samples a row of the block has, and how many rows there are.
    pub fn side(self) -> usize
        ensures { result ≡ side_of self }
    {
        match self {
            BlockSize::Sixteen => 16,
            BlockSize::Eight => 8,
        }
    }
}
