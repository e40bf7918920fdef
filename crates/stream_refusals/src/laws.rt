//! Laws of refusals and of pictures. Each law is the contract of a function that does nothing.

ghost use Rattle.stream_refusals.specs.GoodPictures.{PicturesAreOfRuns};
ghost use Rattle.stream_refusals.specs.Refusals.{AcceptsAreByBytes, RefusalsAreByBytes};

/// Whether decoding refuses a packet, and for which cause, is decided by the bytes of the packets of its
/// run up to it: there is no need to decode them.
pub fn refusals_are_by_bytes()
    ensures refused { RefusalsAreByBytes }
    ensures accepted { AcceptsAreByBytes }
{
    frame_header::laws::outlines_are_headers();
}

/// The picture of each accepted packet is whole, its samples are bytes, and it has the size in the last key
/// packet at its index or before it.
pub fn pictures_are_of_runs()
    ensures { PicturesAreOfRuns }
{}
