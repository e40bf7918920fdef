//! Laws of decoding a stream. Each law is the contract of a function that does nothing.

ghost use Rattle.stream_steps.specs.DecodingLaws.{BreaksAreNamed, EachHasOutcome, KeysDependOnNothing};
ghost use Rattle.stream_steps.specs.Hidden.{ShowBitKeepsSteps};

/// Each packet of a stream has one outcome.
pub fn each_has_outcome()
    ensures { EachHasOutcome }
{}

/// A broken outcome names the packet that broke the stream.
pub fn breaks_are_named()
    ensures { BreaksAreNamed }
{}

/// The outcome of a packet with a key tag does not depend on the packets before it.
pub fn keys_depend_on_nothing()
    ensures { KeysDependOnNothing }
{}

/// A packet with its show bit set or cleared steps to the same state and picture, or is refused for the
/// same cause, from any state or from none.
pub fn show_bits_keep_steps()
    ensures { ShowBitKeepsSteps }
{
    frame_header::show_laws::only_the_show_bit_changes();
}
