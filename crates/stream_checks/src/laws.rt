//! Laws about the definitions of this crate. Each law is the contract of a function that does
//! nothing.

ghost use Rattle.std.specs.Prelude.{◌≡◌, ◌∷◌, ◌++◌, [], codes};
ghost use Rattle.pixel_planes.specs.Pictures.{PictureSamples};
ghost use Rattle.stream_files.specs.Y4m.{frame_text};
ghost use Rattle.stream_checks.specs.HashLines.{samples_of};
ghost use Rattle.stream_checks.specs.Laws.{BreaksAreDecoded, LostAreBroken, WorkedBreaks, WorkedEnds, WorkedOddStamps, WorkedPaces, WorkedStamps};

/// Each packet that is counted as lost after a break has this break as its outcome.
pub fn lost_are_broken()
    ensures { LostAreBroken }
{}

/// What a check knows after each packet is what decoding leaves after it, except the samples: its breaks
/// are those of decoding, with their causes.
pub fn breaks_are_decoded()
    ensures { BreaksAreDecoded }
{}

/// Steps of 33 and 34 do not skip, and one of 66 does. A hidden packet may have a time stamp of its
/// own, or that of the packet after it.
pub fn worked_stamps()
    ensures { WorkedStamps }
{}

/// One odd time stamp is one finding, and so is a gap, or a start from 0.
pub fn worked_odd_stamps()
    ensures { WorkedOddStamps }
{}

/// Where the step is constant, an odd step to an inter packet is damage, and so is an inter packet that comes twice; of a key packet
/// both are notes.
pub fn worked_breaks()
    ensures { WorkedBreaks }
{}

/// A step is constant if it is one of 16 or more, and the others are three in a row at most.
pub fn worked_paces()
    ensures { WorkedPaces }
{}

/// A partition that is read past its end has a finding of its own, and so has one of which more than
/// three bytes are not read, and one of no bytes.
pub fn worked_ends()
    ensures { WorkedEnds }
{}

/// The YUV4MPEG2 text of a frame is its mark and its samples.
pub fn samples_follow_the_mark()
    ensures { (picture : PictureSamples) → frame_text picture ≡ (codes "FRAME" ++ 10 ∷ []) ++ samples_of picture }
{}
