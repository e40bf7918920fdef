// The shown width and height of a frame.
ghost use Rattle.std.specs.Prelude.{◌≡◌, ◌<◌, ◌≤◌};
ghost use Rattle.pixel_planes.specs.Pictures.{is_side, macroblocks};

/// The most samples of a shown side: its field has 14 bits (RFC 6386, section 9.1).
const MOST_SIDE: u64 = 16_383;

/// Whether a frame can have this width or height: 1 to 16,383 samples (RFC 6386, section 9.1).
pub fn is_side(side: u64) -> bool
    ensures { result ≡ is_side side }
{
    0 < side && side <= MOST_SIDE
}

/// How many macroblocks cover a shown side: 1,024 at most for a side that a frame can have.
pub fn macroblocks(side: u16) -> usize
    ensures value { result ≡ macroblocks side }
    ensures bound { side ≤ 16383 → result ≤ 1024 }
    ensures few { result ≤ 4096 }
    ensures some { 0 < side → 0 < result }
{
    usize::from(side).div_ceil(16)
}
