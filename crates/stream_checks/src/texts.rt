//! Findings as lines or as JSON objects.

ghost use Rattle.std.specs.Prelude.{◌≡◌, ◌+◌, ◌≤◌, IfOk, OnOk};
ghost use Rattle.std.specs.Io.KnownBytes.{Appends};
ghost use Rattle.stream_checks.specs.Listed.{listed};
ghost use Rattle.stream_checks.specs.Severity.{tally_of};
ghost use Rattle.stream_checks.specs.Texts.{end_of, text_of, texts_of};

use crate::finding::{Finding, Tally};
use crate::lines::{write_line, write_summary};
use crate::objects::write_object;
use macroblock_lists::Form;
use std::io::Write;
use stream_files::WriteFault;

/// Writes a finding.
fn write_finding<W: Write>(w: &mut W, form: Form, finding: Finding) -> Result<(), WriteFault>
    ensures { OnOk result (Appends (W.contents w.old) (W.contents w.new) (text_of form finding)) }
{
    match form {
        Form::Lines => write_line(w, finding),
        Form::Objects => write_object(w, finding),
    }
}

/// Writes a finding, if there is one, and returns its tally.
pub(crate) fn write_found<W: Write>(
    w: &mut W,
    form: Form,
    found: Option<Finding>,
) -> Result<Tally, WriteFault>
    ensures written { OnOk result (Appends (W.contents w.old) (W.contents w.new) (texts_of form (listed found))) }
    ensures counted { IfOk result (λ tally. tally ≡ tally_of (listed found)) }
    ensures few { IfOk result (λ tally. tally.damage + tally.notes ≤ 1) }
{
    match found {
        None => Ok(Tally::of(None)),
        Some(finding) => {
            write_finding(w, form, finding)?;
            Ok(Tally::of(found))
        }
    }
}

/// Writes what follows the findings: after lines, one with their numbers.
pub(crate) fn write_end<W: Write>(
    w: &mut W,
    form: Form,
    packets: usize,
    frames: usize,
    tally: Tally,
) -> Result<(), WriteFault>
    ensures { OnOk result (Appends (W.contents w.old) (W.contents w.new) (end_of form packets frames tally)) }
{
    match form {
        Form::Lines => write_summary(w, packets, frames, tally),
        Form::Objects => Ok(()),
    }
}
