// The findings of a file.
ghost use Rattle.std.specs.Prelude.{◌≡◌, ◌≤◌, IfErr, IfOk};
ghost use Rattle.std.specs.Rc.{rc_slice_items};
ghost use Rattle.list_program.specs.CheckedFiles.{IsCheckedFault, IsFileChecked, status_of};

use crate::fault::Fault;
use std::alloc::Global;
use std::io::Write;
use std::rc::RcSlice;
use stream_checks::{CheckFault, CheckedFile, Form, Tally, Watch, check};
use stream_sources::source_share;
use vp8_tables::Tables;

/// How a file is checked.
#[derive(Clone, Copy, Debug, PartialEq, Eq)]
pub struct Checking {
    /// How findings are written.
    pub form: Form,
    /// A note is as bad as damage.
    pub is_strict: bool,
}

/// The exit status of a check whose findings have this tally.
fn status_of(is_strict: bool, tally: Tally) -> u8
    ensures value { result ≡ status_of is_strict tally }
    ensures few { result ≤ 1 }
{
    if tally.damage == 0 && (!is_strict || tally.notes == 0) {
        0
    } else {
        1
    }
}

/// Writes the findings of a file, flushes the writer, and returns the exit status: 1 for damage,
/// and with `is_strict` for a note too, else 0. If memory runs out, the findings before are written and
/// not flushed.
pub fn check_to<O: Write, G: Watch>(
    alloc: Global,
    checking: Checking,
    tables: &Tables,
    bytes: &RcSlice<u8>,
    output: &mut O,
    progress: &mut G,
) -> Result<u8, Fault<'static>>
    ensures checked { IfOk result (λ status. IsFileChecked checking.form checking.is_strict tables.now (rc_slice_items bytes.now) status (O.contents output.old) (O.contents output.new)) }
    ensures fault { IfErr result (IsCheckedFault checking.form tables.now (rc_slice_items bytes.now) (O.contents output.old) (O.contents output.new)) }
    ensures status { IfOk result (λ status. status ≤ 1) }
{
    let source = match source_share(alloc, bytes) {
        Ok(source) => source,
        Err(fault) => return Err(Fault::Input(fault)),
    };
    let tally = match check(
        output,
        alloc,
        checking.form,
        tables,
        CheckedFile {
            bytes: bytes.as_slice(),
            source: &source,
        },
        progress,
    ) {
        Ok(tally) => tally,
        Err(CheckFault::Write) => return Err(Fault::CannotWrite),
        Err(CheckFault::NoMemory) => return Err(Fault::NoMemory),
    };
    let Ok(()) = output.flush() else {
        return Err(Fault::CannotWrite);
    };
    Ok(status_of(checking.is_strict, tally))
}
