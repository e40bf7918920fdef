//! Laws about how the program ends. A law is a function that does nothing: its contract is the law.
ghost use Rattle.std.specs.Prelude.{◌≡◌, ℕ, List, Option};
ghost use Rattle.serve_arguments.specs.Statuses.{status_of};
ghost use Rattle.serve_arguments.specs.declared.fault.Fault.{Fault};
ghost use Rattle.serve_arguments.specs.declared.words.Words.{Words};
ghost use Rattle.serve_program.specs.Done.{IsNotBegun, IsRunFault};

use crate::host::RunHost;
use command_lines::NamedFiles;
use output_files::SavedFiles;

/// At an error with the exit status 2 no request was answered, and nothing was read or written, whatever the files are.
pub fn mistakes_begin_nothing<R: NamedFiles + SavedFiles>(rt: &R)
    ensures { (words : Words) (left left' replies replies' : Option (List ℕ)) (fault : Fault) → status_of fault ≡ 2 → IsRunFault (⟦<R as RunHost>⟧.files rt.now) words left left' replies replies' fault → IsNotBegun (⟦<R as RunHost>⟧.files rt.now) words fault × (left' ≡ left) × (replies' ≡ replies) }
{
    let _ = rt;
}
