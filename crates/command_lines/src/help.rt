// Help.
ghost use Rattle.std.specs.Prelude.{◌≡◌, ◌≢◌, [], IfErr, IsOkUnless, OnOk, Err};
ghost use Rattle.std.specs.Io.Buffered.{writer_buffer, writer_contents};
ghost use Rattle.clap.specs.Values.{kind_of};
ghost use Rattle.command_lines.specs.Endings.{IsHelp, IsHelpFault};

use crate::fault::ArgumentFault;
use clap::error::ErrorKind;
use std::io::{BufWriter, Write};

/// Answers arguments that could not be parsed: help or the version, if that was asked for, goes to `output`, which is flushed.
pub fn help_or_mistake<O: Write + Drop>(
    error: &clap::Error,
    output: &mut BufWriter<O>,
) -> Result<(), ArgumentFault>
    ensures help { kind_of error.now ≡ ErrorKind.DisplayHelp → IsOkUnless result ArgumentFault.CannotWrite }
    ensures version { kind_of error.now ≡ ErrorKind.DisplayVersion → IsOkUnless result ArgumentFault.CannotWrite }
    ensures asked { OnOk result (IsHelp error.now) }
    ensures fault { IfErr result (IsHelpFault error.now (writer_contents O.contents output.old) (writer_contents O.contents output.new)) }
    ensures flushed { OnOk result (writer_buffer output.new ≡ []) }
    ensures memory { kind_of error.now ≡ ErrorKind.OutOfMemory → result ≡ Err ArgumentFault.NoMemory }
    ensures mistake { kind_of error.now ≢ ErrorKind.DisplayHelp → kind_of error.now ≢ ErrorKind.DisplayVersion → kind_of error.now ≢ ErrorKind.OutOfMemory → result ≡ Err ArgumentFault.CommandLine }
{
    match error.kind() {
        ErrorKind::DisplayHelp | ErrorKind::DisplayVersion => {
            write!(output, "{error}").map_err(|_| ArgumentFault::CannotWrite)?;
            output.flush().map_err(|_| ArgumentFault::CannotWrite)
        }
        ErrorKind::OutOfMemory => Err(ArgumentFault::NoMemory),
        _ => Err(ArgumentFault::CommandLine),
    }
}
