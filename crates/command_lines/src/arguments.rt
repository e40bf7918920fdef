// The arguments of a command line.
ghost use Rattle.std.specs.Prelude.{◌≡◌, ◌⊎◌, IfErr, Some};

use crate::fault::ArgumentFault;
use clap::{Arg, ArgAction};
use std::alloc::Global;
use std::env::{self, Env};
use std::io::ErrorKind;

/// The version of both programs.
pub const VERSION: &str = "0.16.0";

/// The program's arguments, its name first.
///
/// `CommandLine` if one of them is not UTF-8; `NoMemory`.
pub fn given<R: Env + AllocGlobal>(rt: &R) -> Result<Vec<String>, ArgumentFault>
    ensures { IfErr result (λ fault. (fault ≡ ArgumentFault.CommandLine) ⊎ (fault ≡ ArgumentFault.NoMemory)) }
{
    let words = match env::args(rt) {
        Ok(words) => words,
        Err(error) if error.kind() == ErrorKind::OutOfMemory => return Err(ArgumentFault::NoMemory),
        Err(_) => return Err(ArgumentFault::CommandLine),
    };
    words
        .collect(rt.alloc())
        .map_err(|_| ArgumentFault::NoMemory)
}

/// An option `--id` that has no value.
pub fn flag<'a>(alloc: Global, id: &'a str, help: &'a str) -> Arg<'a>
    ensures id { result.id ≡ id.entry }
    ensures long { result.long ≡ Some id.entry }
    ensures action { result.action ≡ Some ArgAction.SetTrue }
    ensures help { result.help ≡ Some help.entry }
{
    Arg::new(alloc, id)
        .long(id)
        .action(ArgAction::SetTrue)
        .help(help)
}
