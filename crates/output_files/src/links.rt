// The parts of a path, and where links at its end lead.
ghost use Rattle.std.specs.Prelude.{◌≡◌, ◌++◌, IfOk, None, option_map, string_bytes};
ghost use Rattle.output_files.specs.Places.{IsFolderOf, IsFolderPart, IsName};
ghost use Rattle.output_files.specs.Links.{IsFollowed, IsLedTo, IsLinkSaid, KnownLinks};

use std::alloc::{AllocError, Global};
use std::fs;
use std::io::{self, ErrorKind};
use std::rt::Files;

/// The most links that are followed, as in Linux.
const MOST_LINKS: usize = 40;

/// The links of files.
///
/// The kit's files have no model. A contract over this trait says to which texts paths are links, where that is known. Nothing is known of the
/// system's files.
pub trait LinkedFiles {
    /// The text of the link at a path, or that none is there, where that is known.
    ghost link_at: { Self → KnownLinks } = { λ _ _. None };

    /// The text of the link at a path. `None` if none is there, or if it cannot be read.
    fn link_of(&self, alloc: Global, path: &str) -> Option<String>
        ensures { IsLinkSaid (link_at self.now) path.now (option_map string_bytes result) };
}

impl LinkedFiles for HostRuntime {
    fn link_of(&self, alloc: Global, path: &str) -> Option<String> {
        match self.read_link(alloc, path) {
            Ok(link) => Some(link.into_string()),
            Err(_) => None,
        }
    }
}

/// The folder of a path with its last `/`, which is empty for a bare name, and the name in it.
pub fn parts_of(path: &str) -> (&str, &str)
    ensures whole { result.0.now ++ result.1.now ≡ path.now }
    ensures folder { IsFolderPart result.0.now }
    ensures name { IsName result.1.now }
{
    match path.rfind('/') {
        Some(at) => path.split_at(at + 1),
        None => ("", path),
    }
}

/// The path of the folder of a path: `.` for a bare name.
pub fn folder_of(path: &str) -> &str
    ensures { IsFolderOf path.now result.now }
{
    match parts_of(path).0 {
        "" => ".",
        folder => folder,
    }
}

/// The path that a link with this text at this path leads to: the text if it is absolute, else the folder of the path and the text.
fn led_to(alloc: Global, path: &str, link: &str) -> Result<String, AllocError>
    ensures { IfOk result (λ to. IsLedTo path.now link.now (string_bytes to)) }
{
    if link.as_bytes().starts_with(b"/") {
        return String::from_str(alloc, link);
    }
    let (folder, _) = parts_of(path);
    format!(in alloc; "{folder}{link}")
}

/// The path that a path leads to once the links at its end are followed, whether or not something is there.
///
/// `FilesystemLoop` after 40 links; `OutOfMemory`.
pub fn followed<L: LinkedFiles>(files: &L, alloc: Global, path: &str) -> io::Result<String>
    ensures { IfOk result (λ to. IsFollowed (L.link_at files.now) path.now (string_bytes to)) }
{
    let mut path = String::from_str(alloc, path)?;
    for _ in 0..MOST_LINKS {
        let Some(link) = files.link_of(alloc, path.as_str()) else {
            return Ok(path);
        };
        path = led_to(alloc, path.as_str(), link.as_str())?;
    }
    Err(ErrorKind::FilesystemLoop.into())
}
