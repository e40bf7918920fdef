//! The files that a program writes: a file that is replaced by a whole new one, and what a path names.
#![tactic(auto)]

mod both;
mod counted;
mod host;
mod laws;
mod links;
mod log;
mod places;
mod saving;

pub use both::finish_both;
pub use counted::{Counted, Taken};
pub use host::{Begun, NewFile, Replaced, Target};
pub use links::LinkedFiles;
pub use log::Log;
pub use places::{Kind, Place, PlacedFiles};
pub use saving::{
    Call, OneUnsaved, Save, SavePlace, SavedFiles, SavedText, Unsaved, abandon, finish, replace,
    write_new,
};
