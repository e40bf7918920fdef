// Frames by their packets.
ghost use Rattle.std.specs.Prelude.{◌≡◌};
ghost use Rattle.lossless_cuts.specs.Plans.{continues, repeats};

/// The origin of a frame: the packet at an index of a source, and the frame's shown size in luma samples.
#[derive(Clone, Copy, Debug, PartialEq, Eq)]
pub struct Target {
    pub source: usize,
    pub place: usize,
    pub width: u16,
    pub height: u16,
}

/// Whether a frame is of the same source as the frame before it, and of a later packet.
pub(crate) fn continues(before: Option<Target>, target: Target) -> bool
    ensures { result ≡ continues before target }
{
    match before {
        Some(before) => before.source == target.source && before.place < target.place,
        None => false,
    }
}

/// Whether a frame is the frame before it again.
pub(crate) fn repeats(before: Option<Target>, target: Target) -> bool
    ensures { result ≡ repeats before target }
{
    match before {
        Some(before) => before.source == target.source && before.place == target.place,
        None => false,
    }
}
