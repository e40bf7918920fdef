//! The vectors of chroma blocks (RFC 6386, section 18).

ghost use Rattle.std.specs.Prelude.{◌≡◌};
ghost use Rattle.mode_parser.specs.ChromaVectors.{chroma_component};

/// A component of the vector of a chroma block, in eighths of a chroma sample: the rounded mean of
/// its four luma blocks' components, whose sum in quarters of a luma sample is `sum`. In version 3
/// it is rounded down to whole samples (RFC 6386, sections 5 and 18).
#[inline]
pub fn chroma_vector(sum: i32, version: u8) -> i32
    ensures { result ≡ chroma_component sum version }
{
    let size = ((sum.unsigned_abs() + 2) / 4) as i32;
    let mean = if sum < 0 { -size } else { size };
    if version == 3 { (mean >> 3) << 3 } else { mean }
}
