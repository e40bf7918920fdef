// What a path names, however it is spelled.
ghost use Rattle.std.specs.Prelude.{◌≡◌, IfOk, None, option_map, string_bytes};
ghost use Rattle.output_files.specs.Places.{IsPlaceSaid, KnownPlaces, is_null, is_one_file, is_same_place, spot_of};

use crate::links::{LinkedFiles, folder_of, followed, parts_of};
use std::alloc::{AllocError, Global};
use std::fs::{self, Metadata};
use std::os::unix::fs::{FileTypeExt, MetadataExt};
use std::rt::Files;

/// The device number of `/dev/null`.
const NULL: u64 = 0x103;

/// A kind of file.
#[derive(Clone, Copy, Debug, PartialEq, Eq)]
pub enum Kind {
    /// A file, a folder, a pipe or a socket, or nothing yet.
    File,
    /// A device, except `/dev/null`.
    Device,
    /// `/dev/null`, which drops what it is given.
    Null,
}

/// What a path names: the device and the inode of what is there, or, if nothing is there yet, the device and the inode of its folder, and
/// its name in it.
#[derive(Debug, Drop)]
pub struct Place {
    device: u64,
    inode: u64,
    name: String,
    kind: Kind,
}

impl Place {
    /// A file with this name in the folder with this device and inode, or, with no name, the file that has both.
    pub fn of_file(device: u64, inode: u64, name: String) -> Place
        ensures { spot_of result ≡ record { device = device; inode = inode; name = string_bytes name; kind = Kind.File } }
    {
        Place {
            device,
            inode,
            name,
            kind: Kind::File,
        }
    }

    /// Whether both are the same.
    pub fn is_same(&self, other: &Place) -> bool
        ensures { result ≡ is_same_place (spot_of self.now) (spot_of other.now) }
    {
        self.device == other.device
            && self.inode == other.inode
            && self.name.as_str() == other.name.as_str()
    }

    /// Whether both are one file, which is not a device: writing one of them changes the other.
    pub fn is_one_file(&self, other: &Place) -> bool
        ensures { result ≡ is_one_file (spot_of self.now) (spot_of other.now) }
    {
        self.kind == Kind::File && self.is_same(other)
    }

    /// Whether this drops what it is given.
    pub fn is_null(&self) -> bool
        ensures { result ≡ is_null (spot_of self.now) }
    {
        self.kind == Kind::Null
    }
}

/// The kind of file that is there.
fn kind_of(known: &Metadata) -> Kind {
    let kind = known.file_type();
    if kind.is_char_device() && known.rdev() == NULL {
        return Kind::Null;
    }
    if kind.is_char_device() || kind.is_block_device() {
        return Kind::Device;
    }
    Kind::File
}

/// The place of what is there.
fn place_there(alloc: Global, known: &Metadata) -> Place {
    Place {
        device: known.dev(),
        inode: known.ino(),
        name: String::new(alloc),
        kind: kind_of(known),
    }
}

/// The place of a path with nothing there, if its folder is there.
fn place_to_be<R: Files + LinkedFiles>(
    files: &R,
    alloc: Global,
    path: &str,
) -> Result<Option<Place>, AllocError> {
    let Ok(path) = followed(files, alloc, path) else {
        return Ok(None);
    };
    let Ok(folder) = fs::metadata(files, folder_of(path.as_str())) else {
        return Ok(None);
    };
    let name = String::from_str(alloc, parts_of(path.as_str()).1)?;
    Ok(Some(Place::of_file(folder.dev(), folder.ino(), name)))
}

/// What paths name.
///
/// The kit's files have no model. A contract over this trait says what paths name, where that is known. Nothing is known of the system's files.
pub trait PlacedFiles {
    /// What a path names, where that is known.
    ghost place_at: { Self → KnownPlaces } = { λ _ _. None };

    /// What a path names, with links followed. `None` if neither the path nor its folder is there.
    fn place_of(&self, alloc: Global, path: &str) -> Result<Option<Place>, AllocError>
        ensures { IfOk result (λ place. IsPlaceSaid (place_at self.now) path.now (option_map spot_of place)) };
}

impl PlacedFiles for HostRuntime {
    fn place_of(&self, alloc: Global, path: &str) -> Result<Option<Place>, AllocError> {
        match fs::metadata(self, path) {
            Ok(known) => Ok(Some(place_there(alloc, &known))),
            Err(_) => place_to_be(self, alloc, path),
        }
    }
}
