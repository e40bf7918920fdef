//! The findings in the partitions of a packet.

ghost use Rattle.std.specs.Prelude.{◌≡◌, ◌≤◌, ◌+◌, IfOk, OnOk, length};
ghost use Rattle.std.specs.Io.KnownBytes.{Appends};
ghost use Rattle.stream_checks.specs.Listed.{found as found_of};
ghost use Rattle.stream_checks.specs.Partitions.{first_trouble, partition_findings, token_findings, token_trouble};
ghost use Rattle.stream_checks.specs.Severity.{tally_of};
ghost use Rattle.stream_checks.specs.Texts.{texts_of};

use crate::finding::{Finding, Spot, Tally, Trouble};
use crate::texts::write_found;
use macroblock_lists::{Form, PartitionEnd, PartitionEnds};
use std::io::Write;
use stream_files::WriteFault;

/// The most bytes at the end of a partition that a sound one may leave unread.
const MOST_UNREAD: usize = 3;

/// What is found at a packet.
pub(crate) fn found(spot: Spot, trouble: Option<Trouble>) -> Option<Finding>
    ensures { result ≡ found_of spot trouble }
{
    match trouble {
        None => None,
        Some(trouble) => Some(Finding {
            spot: Some(spot),
            trouble,
        }),
    }
}

fn first_trouble(end: PartitionEnd) -> Option<Trouble>
    ensures { result ≡ first_trouble end }
{
    if end.past > 0 {
        Some(Trouble::PastFirst { bytes: end.past })
    } else if end.unread > MOST_UNREAD {
        Some(Trouble::UnreadFirst {
            bytes: end.unread,
            size: end.size,
        })
    } else {
        None
    }
}

fn token_trouble(partition: usize, end: PartitionEnd) -> Option<Trouble>
    ensures { result ≡ token_trouble partition end }
{
    if end.past > 0 {
        Some(Trouble::PastToken {
            partition,
            bytes: end.past,
        })
    } else if end.unread > MOST_UNREAD {
        Some(Trouble::UnreadToken {
            partition,
            bytes: end.unread,
            size: end.size,
        })
    } else if end.size == 0 {
        Some(Trouble::EmptyToken { partition })
    } else {
        None
    }
}

/// Writes the findings in token partitions, and returns their tally.
fn write_tokens<W: Write>(
    w: &mut W,
    form: Form,
    spot: Spot,
    tokens: &[PartitionEnd],
) -> Result<Tally, WriteFault>
    requires { length tokens.now ≤ 8 }
    ensures written { OnOk result (Appends (W.contents w.old) (W.contents w.new) (texts_of form (token_findings spot 0 tokens.now))) }
    ensures counted { IfOk result (λ tally. tally ≡ tally_of (token_findings spot 0 tokens.now)) }
    ensures few { IfOk result (λ tally. tally.damage + tally.notes ≤ 8) }
{
    let mut tally = Tally::none();
    let mut partition = 0;
    let mut rest = tokens;
    while let Some((end, following)) = rest.split_first() {
        let more = write_found(w, form, found(spot, token_trouble(partition, *end)))?;
        tally = tally.plus(more);
        partition += 1;
        rest = following;
    }
    Ok(tally)
}

/// Writes the findings in the partitions of a packet, and returns their tally.
pub(crate) fn write_partitions<W: Write>(
    w: &mut W,
    form: Form,
    spot: Spot,
    ends: &PartitionEnds,
) -> Result<Tally, WriteFault>
    requires { length ends.now.tokens.items ≤ 8 }
    ensures written { OnOk result (Appends (W.contents w.old) (W.contents w.new) (texts_of form (partition_findings spot ends.now))) }
    ensures counted { IfOk result (λ tally. tally ≡ tally_of (partition_findings spot ends.now)) }
    ensures few { IfOk result (λ tally. tally.damage + tally.notes ≤ 9) }
{
    let first = write_found(w, form, found(spot, first_trouble(ends.first)))?;
    let tokens = write_tokens(w, form, spot, ends.tokens.as_slice())?;
    Ok(first.plus(tokens))
}
