// How a program ends.
ghost use Rattle.std.specs.Prelude.{◌≡◌, ℕ};
ghost use Rattle.command_lines.specs.Endings.{exit_status};

use std::fmt::Display;
use std::io::Write;

/// An error that ends a program. Its `Display` is the text that the user sees after the program's name.
pub trait Ending: Display + Copy {
    /// The exit status of the program.
    ghost exits_with: { Self → ℕ };

    /// The program's name.
    fn program(self) -> &'static str;

    /// The exit status of the program.
    fn status(self) -> u8
        ensures { result ≡ exits_with self };
}

/// Shows an error to the user, and returns its exit status. If `errors` refuses the text, only the status reports it.
pub fn tell<F: Ending, E: Write>(fault: F, errors: &mut E) -> u8
    ensures { result ≡ F.exits_with fault }
{
    let program = fault.program();
    let _ = writeln!(errors, "{program}: {fault}");
    fault.status()
}

/// The exit status of a program that ended like this; an error is shown to the user.
pub fn exit_status<F: Ending, E: Write>(ended: Result<u8, F>, errors: &mut E) -> u8
    ensures { result ≡ exit_status F.exits_with ended }
{
    match ended {
        Ok(status) => status,
        Err(fault) => tell(fault, errors),
    }
}
