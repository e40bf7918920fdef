// Writes replies. A function that writes a whole reply returns the refusal that it reports, if it reports one.
ghost use Rattle.std.specs.Prelude.{◌≡◌, IfOk, OnOk, None, Some};
ghost use Rattle.std.specs.Io.KnownBytes.{Appends};
ghost use Rattle.frame_session.specs.Replies.{cause_text, count_line, edit_line, lines_line, ok_line, packet_line, refusal_text, refused_line, script_line, served_line, source_text, stats_line};
ghost use Rattle.frame_session.specs.Told.{Tells};

use crate::refusal::Refusal;
use frame_header::Cause;
use request_lines::write_hex_word;
use script_nodes::Script;
use std::io::Write;
use stream_files::WriteFault;

/// Writes the reply to a frame that was served.
pub fn write_served<W: Write>(w: &mut W, n: u64) -> Result<Option<Refusal>, WriteFault>
    ensures wrote { OnOk result (Appends (W.contents w.old) (W.contents w.new) (served_line n)) }
    ensures told { IfOk result (Tells (W.contents w.old) (W.contents w.new)) }
    ensures none { IfOk result (λ refusal. refusal ≡ None) }
{
    writeln!(w, "served {n}").map_err(|_| WriteFault::Write)?;
    Ok(None)
}

/// Writes the reply to an edit, made or refused.
pub fn write_edited<W: Write>(
    w: &mut W,
    answer: Result<u64, Refusal>,
) -> Result<Option<Refusal>, WriteFault>
    ensures wrote { OnOk result (Appends (W.contents w.old) (W.contents w.new) (edit_line answer)) }
    ensures told { IfOk result (Tells (W.contents w.old) (W.contents w.new)) }
{
    match answer {
        Ok(count) => write_ok(w, count),
        Err(refusal) => write_refused(w, refusal),
    }
}

fn write_ok<W: Write>(w: &mut W, count: u64) -> Result<Option<Refusal>, WriteFault>
    ensures wrote { OnOk result (Appends (W.contents w.old) (W.contents w.new) (ok_line count)) }
    ensures told { IfOk result (Tells (W.contents w.old) (W.contents w.new)) }
{
    writeln!(w, "ok {count}").map_err(|_| WriteFault::Write)?;
    Ok(None)
}

/// Writes the number of packets and the number of frames served.
pub fn write_count<W: Write>(
    w: &mut W,
    packets: u64,
    frames: u64,
) -> Result<Option<Refusal>, WriteFault>
    ensures wrote { OnOk result (Appends (W.contents w.old) (W.contents w.new) (count_line packets frames)) }
    ensures told { IfOk result (Tells (W.contents w.old) (W.contents w.new)) }
{
    writeln!(w, "packets {packets} frames {frames}").map_err(|_| WriteFault::Write)?;
    Ok(None)
}

/// Writes the number of decoding steps made.
pub fn write_stats<W: Write>(w: &mut W, steps: u64) -> Result<Option<Refusal>, WriteFault>
    ensures wrote { OnOk result (Appends (W.contents w.old) (W.contents w.new) (stats_line steps)) }
    ensures told { IfOk result (Tells (W.contents w.old) (W.contents w.new)) }
{
    writeln!(w, "decoded {steps}").map_err(|_| WriteFault::Write)?;
    Ok(None)
}

/// Writes the time stamp of a packet, and its bytes as hexadecimal digits.
pub fn write_packet<W: Write>(
    w: &mut W,
    stamp: u64,
    bytes: &[u8],
) -> Result<Option<Refusal>, WriteFault>
    ensures wrote { OnOk result (Appends (W.contents w.old) (W.contents w.new) (packet_line stamp bytes.now)) }
    ensures told { IfOk result (Tells (W.contents w.old) (W.contents w.new)) }
{
    write!(w, "packet {stamp} ").map_err(|_| WriteFault::Write)?;
    write_hex_word(w, bytes).map_err(|_| WriteFault::Write)?;
    write_text(w, "\n")?;
    Ok(None)
}

/// Writes the first line of a reply of several lines.
pub fn write_lines_line<W: Write>(w: &mut W, count: u64) -> Result<(), WriteFault>
    ensures { OnOk result (Appends (W.contents w.old) (W.contents w.new) (lines_line count)) }
{
    writeln!(w, "lines {count}").map_err(|_| WriteFault::Write)
}

/// Writes a script.
pub fn write_script<W: Write>(w: &mut W, script: &Script) -> Result<Option<Refusal>, WriteFault>
    ensures wrote { OnOk result (Appends (W.contents w.old) (W.contents w.new) (script_line script.now)) }
    ensures told { IfOk result (Tells (W.contents w.old) (W.contents w.new)) }
{
    write_text(w, "script ")?;
    script.write_text(w).map_err(|_| WriteFault::Write)?;
    write_text(w, "\n")?;
    Ok(None)
}

/// Writes the reply to a refused line.
pub fn write_refused<W: Write>(w: &mut W, refusal: Refusal) -> Result<Option<Refusal>, WriteFault>
    ensures wrote { OnOk result (Appends (W.contents w.old) (W.contents w.new) (refused_line refusal)) }
    ensures told { IfOk result (Tells (W.contents w.old) (W.contents w.new)) }
    ensures refusal { IfOk result (λ told. told ≡ Some refusal) }
{
    write_text(w, "refused ")?;
    write_refusal(w, refusal)?;
    write_text(w, "\n")?;
    Ok(Some(refusal))
}

fn write_refusal<W: Write>(w: &mut W, refusal: Refusal) -> Result<(), WriteFault>
    ensures { OnOk result (Appends (W.contents w.old) (W.contents w.new) (refusal_text refusal)) }
{
    match refusal {
        Refusal::Packet {
            source,
            place,
            cause,
        } => {
            write_source(w, source)?;
            write!(w, "packet {place} ").map_err(|_| WriteFault::Write)?;
            write_cause(w, cause)
        }
        _ => write_text(w, refusal.word()),
    }
}

/// Writes the source of a packet; source 0 is not named.
fn write_source<W: Write>(w: &mut W, source: usize) -> Result<(), WriteFault>
    ensures { OnOk result (Appends (W.contents w.old) (W.contents w.new) (source_text source)) }
{
    if source == 0 {
        return Ok(());
    }
    write!(w, "source {source} ").map_err(|_| WriteFault::Write)
}

fn write_cause<W: Write>(w: &mut W, cause: Cause) -> Result<(), WriteFault>
    ensures { OnOk result (Appends (W.contents w.old) (W.contents w.new) (cause_text cause)) }
{
    match cause {
        Cause::TokenPartition(k) => {
            write!(w, "TokenPartition {k}").map_err(|_| WriteFault::Write)
        }
        _ => write_text(w, cause.word()),
    }
}

pub fn write_text<W: Write>(w: &mut W, text: &str) -> Result<(), WriteFault>
    ensures { OnOk result (Appends (W.contents w.old) (W.contents w.new) text.now) }
{
    w.write_all(text.as_bytes()).map_err(|_| WriteFault::Write)
}
