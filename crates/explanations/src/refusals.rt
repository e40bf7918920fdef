// Why a request was refused.
ghost use Rattle.std.specs.Prelude.{◌≡◌, ◌++◌, ◌∷◌, [], OnOk, codes, nat_lt, if◌then◌else◌, unwrap_or};
ghost use Rattle.std.specs.Fmt.{decimal};
ghost use Rattle.std.specs.Io.KnownBytes.{Appends};
ghost use Rattle.frame_session.specs.Replies.{source_text};
ghost use Rattle.text_words.specs.Words.{words_of};
ghost use Rattle.explanations.specs.Lines.{reason_of};
ghost use Rattle.explanations.specs.Refusals.{bitless_text, cause_reason, command_text, bytes_of_detail, detail_or, explained, packets_text, refusal_reason, script_reason, short_text, sides_text, why_text};

use crate::details::Detail;
use crate::lines::{hidden_reason, line_reason, write_reason};
use crate::nodes::{write_wrong, wrong_node_of_line};
use crate::words::{write_text, write_word};
use frame_header::Cause;
use frame_session::Refusal;
use std::io::{self, Write};
use text_words::next_word;

/// Writes why a packet of this many bytes is too short.
fn write_short<W: Write>(w: &mut W, count: Option<usize>) -> io::Result<()>
    ensures { OnOk result (Appends (W.contents w.old) (W.contents w.new) (short_text count)) }
{
    match count {
        None => write_text(w, "is too short"),
        Some(count) if count < 3 => write!(w, "has {count} bytes, a tag needs 3"),
        Some(count) => write!(w, "has {count} bytes, a key frame needs 10"),
    }
}

/// Writes the cause that breaks a packet of this many bytes.
fn write_cause<W: Write>(w: &mut W, count: Option<usize>, cause: Cause) -> io::Result<()>
    ensures { OnOk result (Appends (W.contents w.old) (W.contents w.new) (cause_reason count cause)) }
{
    match cause {
        Cause::ShortPacket => write_short(w, count),
        Cause::Version => write_text(w, "has a version above 3"),
        Cause::StartCode => write_text(w, "has a key tag without the start code 9D 01 2A"),
        Cause::Size => write_text(w, "has width or height 0"),
        Cause::NoKeyFrame => write_text(w, "has no key frame before it"),
        Cause::FirstPartition => write_text(w, "ends within its first partition"),
        Cause::TokenSizes => write_text(w, "ends within the sizes of its token partitions"),
        Cause::TokenPartition(k) => write!(w, "ends within token partition {k}"),
    }
}

/// Writes the source of a packet; source 0 is not named.
fn write_source<W: Write>(w: &mut W, source: usize) -> io::Result<()>
    ensures { OnOk result (Appends (W.contents w.old) (W.contents w.new) (source_text source)) }
{
    if source == 0 {
        return Ok(());
    }
    write!(w, "source {source} ")
}

/// Writes a number of packets, and the source that has them.
fn write_packets<W: Write>(w: &mut W, source: u64, count: u64) -> io::Result<()>
    ensures { OnOk result (Appends (W.contents w.old) (W.contents w.new) (packets_text source count)) }
{
    write!(w, "source {source} has {count} packets")
}

/// Writes the sides of a size.
fn write_sides<W: Write>(w: &mut W, width: u16, height: u16) -> io::Result<()>
    ensures { OnOk result (Appends (W.contents w.old) (W.contents w.new) (sides_text width height)) }
{
    write!(w, "{width}x{height}")
}

/// Writes what the numbers of a refusal say, or another text if there are none.
fn write_detail_or<W: Write>(w: &mut W, text: &str, detail: Detail) -> io::Result<()>
    ensures { OnOk result (Appends (W.contents w.old) (W.contents w.new) (detail_or text.now detail)) }
{
    match detail {
        Detail::Nothing | Detail::Bytes(_) => write_text(w, text),
        Detail::NoPacket { at, source, count } => {
            write!(w, "packet {at} does not exist: ")?;
            write_packets(w, source, count)
        }
        Detail::PastEnd { at, source, count } => {
            write!(w, "index {at} is past the end: ")?;
            write_packets(w, source, count)
        }
        Detail::Width(width) => write!(w, "width {width} is not 1 to 16383"),
        Detail::Height(height) => write!(w, "height {height} is not 1 to 16383"),
        Detail::NoKey(at) => {
            write!(
                w,
                "before {at} no packet has a key tag, so there is no size"
            )
        }
        Detail::NoSize { key, at } => {
            write!(
                w,
                "packet {key}, the last one with a key tag before {at}, has no size"
            )
        }
        Detail::NoFrame { n, count } => {
            write!(
                w,
                "frame {n} does not exist: the script serves {count} frames"
            )
        }
        Detail::Sizes { asked, first } => {
            write_sides(w, asked.0, asked.1)?;
            write_text(w, " is not ")?;
            write_sides(w, first.width, first.height)?;
            write_text(w, ", the size of the first frame served")
        }
    }
}

/// Writes why a packet of this many bytes has no show bit.
fn write_bitless<W: Write>(w: &mut W, count: Option<usize>) -> io::Result<()>
    ensures { OnOk result (Appends (W.contents w.old) (W.contents w.new) (bitless_text count)) }
{
    match count {
        None => write_text(w, "the packet has no show bit"),
        Some(0) => {
            write_text(
                w,
                "the packet has no bytes: delete it instead, which changes no other frame",
            )
        }
        Some(count) => write!(w, "the packet has {count} bytes, a show bit needs 3"),
    }
}

/// The number of bytes of the packet that is broken or has no show bit, if it is known.
fn bytes_of(detail: Detail) -> Option<usize>
    ensures { result ≡ bytes_of_detail detail }
{
    match detail {
        Detail::Bytes(count) => Some(count),
        _ => None,
    }
}

/// Writes what a refusal means.
fn write_meaning<W: Write>(w: &mut W, detail: Detail, refusal: Refusal) -> io::Result<()>
    ensures { OnOk result (Appends (W.contents w.old) (W.contents w.new) (refusal_reason detail refusal)) }
{
    match refusal {
        Refusal::Packet {
            source,
            place,
            cause,
        } => {
            write_source(w, source)?;
            write!(w, "packet {place} ")?;
            write_cause(w, bytes_of(detail), cause)
        }
        Refusal::Line => write_text(w, "the line is not a request"),
        Refusal::Source => write_text(w, "there is no such source"),
        Refusal::Place => write_detail_or(w, "there is no such packet", detail),
        Refusal::Full => write_text(w, "there are 1048576 packets already"),
        Refusal::Spent => write_text(w, "no packet id is left"),
        Refusal::NoBit => write_bitless(w, bytes_of(detail)),
        Refusal::Size => write_detail_or(w, "there is no such size", detail),
        Refusal::TooLarge => write_text(w, "the first partition would have over 524287 bytes"),
        Refusal::NoSuchFrame => write_detail_or(w, "there is no such frame", detail),
        Refusal::CropOutside => write_text(w, "a crop reaches past the edge of the picture"),
        Refusal::SizeDiffers => {
            write_detail_or(
                w,
                "the frame has another size than the first one served",
                detail,
            )
        }
        Refusal::Syntax => write_text(w, "the text is not a list of nodes"),
        Refusal::Nodes => write_text(w, "the script has more than 16 nodes"),
        Refusal::Reference => {
            write_text(w, "a node names a source or node that is not before it")
        }
        Refusal::Number => write_text(
            w,
            "a number of the script is out of range, or a node has more than 68719476736 frames",
        ),
        Refusal::NoMemory => write_text(w, "out of memory"),
    }
}

/// Writes the command of a line, and a colon.
fn write_command<W: Write>(w: &mut W, line: &[u8]) -> io::Result<()>
    ensures { OnOk result (Appends (W.contents w.old) (W.contents w.new) (command_text (words_of line.now))) }
{
    let Some((command, _)) = next_word(line) else {
        return Ok(());
    };
    write_word(w, command)?;
    write_text(w, ": ")
}

/// Writes why a line is not a request.
fn write_line_reason<W: Write>(w: &mut W, line: &[u8]) -> io::Result<()>
    ensures { OnOk result (Appends (W.contents w.old) (W.contents w.new) (unwrap_or (reason_of line.now) (codes "the line is not a request"))) }
{
    match line_reason(line) {
        Some(reason) => write_reason(w, reason),
        None => write_text(w, "the line is not a request"),
    }
}

/// Writes why the text after the first word of a line is not a list of nodes.
fn write_script_reason<W: Write>(w: &mut W, line: &[u8]) -> io::Result<()>
    ensures { OnOk result (Appends (W.contents w.old) (W.contents w.new) (unwrap_or (script_reason line.now) (codes "the text is not a list of nodes"))) }
{
    if let Some(hidden) = hidden_reason(line) {
        return write_reason(w, hidden);
    }
    match wrong_node_of_line(line) {
        Some(wrong) => write_wrong(w, wrong),
        None => write_text(w, "the text is not a list of nodes"),
    }
}

/// Writes the reason of a refusal: for `Line` and `Syntax` the reason of the text of the line.
fn write_why<W: Write>(w: &mut W, line: &[u8], detail: Detail, refusal: Refusal) -> io::Result<()>
    ensures { OnOk result (Appends (W.contents w.old) (W.contents w.new) (why_text line.now detail refusal)) }
{
    match refusal {
        Refusal::Line => write_line_reason(w, line),
        Refusal::Syntax => write_script_reason(w, line),
        _ => write_meaning(w, detail, refusal),
    }
}

/// Writes the line that explains a refusal: the number of the request line, counted from 1, its command and the reason.
/// `detail` has the numbers of the reason, if it has some.
///
/// An error if the writer returns one.
pub fn write_refused<W: Write>(
    w: &mut W,
    number: u64,
    line: &[u8],
    detail: Detail,
    refusal: Refusal,
) -> io::Result<()>
    ensures { OnOk result (Appends (W.contents w.old) (W.contents w.new) (explained number line.now detail refusal)) }
{
    write!(w, "line {number}: ")?;
    write_command(w, line)?;
    write_why(w, line, detail, refusal)?;
    write_text(w, "\n")
}
