//! What both programs have: the arguments of a command line and its help, the files that it names, the error that ends a program, and the
//! formats of files that are given for a file that is read, and why a WebM file is not read.
#![tactic(auto)]

mod arguments;
mod endings;
mod fault;
mod formats;
mod help;
mod in_line;
mod inputs;
mod messages;
mod stack;
mod webm_faults;

pub use arguments::{VERSION, flag, given};
pub use endings::{Ending, exit_status, tell};
pub use fault::{ArgumentFault, FileFault};
pub use formats::{Format, format_of, write_format};
pub use help::help_or_mistake;
pub use in_line::InLine;
pub use inputs::{NO_FILE, NamedFiles, read_file, read_input, read_tables};
pub use messages::{MessageWriter, control_length, plain_length};
pub use stack::touch_stack;
pub use webm_faults::write_webm_fault;
