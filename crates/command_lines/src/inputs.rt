// The files that a command line names.
ghost use Rattle.std.specs.Prelude.{◌≡◌, ◌≢◌, ◌≤◌, ℕ, List, Option, IfErr, IfOk, IfSome, None, Ok, Some, codes, false, is_some, option_map, vec_len};
ghost use Rattle.std.specs.Io.KnownBytes.{IsAtEnd};
ghost use Rattle.vp8_tables.specs.Rfc.{rfc_entries};
ghost use Rattle.vp8_tables.specs.Tables.{entries_of};
ghost use Rattle.command_lines.specs.Readings.{AreTables, IsArgumentFault, IsPathFault, IsReadFault, IsTableFault, IsTablesFault, IsUnreadAt, limit};

use crate::fault::FileFault;
use std::alloc::Global;
use std::fs::File;
use std::io::{self, Read, Write};
use std::rt::Files;
use stream_files::{ReadFault, read_all};
use vp8_tables::Tables;

/// The argument for standard input, or for no file.
pub const NO_FILE: &str = "-";

/// The most bytes that a file may have.
const LIMIT: usize = 1_073_741_824;

/// The files that a program reads and makes by their paths.
///
/// The kit's files have no model. A contract over this trait says which bytes a path gave, where they are known, and which file was made at a
/// path and what it took. Nothing is known of the system's files, and all may be known of files in memory.
pub trait NamedFiles: Files {
    /// The bytes of the file at a path, where they are known. Such a file can be read.
    ghost bytes_at: { Self → List ℕ → Option (List ℕ) } = { λ _ _. None };

    /// All bytes of the file at a path, if there are at most `most`.
    ///
    /// `Read` if it cannot be opened or reading it fails, `TooLong` if it has more bytes, `NoMemory`.
    fn read_named(&self, alloc: Global, path: &str, most: usize) -> Result<Vec<u8>, ReadFault>
        ensures within { IfOk result (λ all. vec_len all ≤ most) }
        ensures whole { IfOk result (λ all. IfSome (bytes_at self.now path.now) (λ bytes. all.items ≡ bytes)) }
        ensures fault { IfErr result (IsUnreadAt most (bytes_at self.now path.now)) };

    /// A file that is open to read it.
    type Opened: Read + Drop;

    /// Opens the file at a path, to read it part by part.
    fn open_named(&self, path: &str) -> io::Result<Self::Opened>
        ensures whole { IfOk result (λ file. IfSome (bytes_at self.now path.now) (λ bytes. Self.Opened.remaining file ≡ Some bytes)) }
        ensures failed { IfErr result (λ error. bytes_at self.now path.now ≡ None) };

    /// A file that was made.
    type Made: Write + Drop;

    /// The file that was made at a path.
    ghost is_made_at: { Self → List ℕ → Self.Made → Type 0 } = { λ _ _ _. Unit {0} };

    /// Makes the file at a path, or makes it empty.
    fn make_named(&self, path: &str) -> io::Result<Self::Made>
        ensures made { IfOk result (is_made_at self.now path.now) }
        ensures empty { IfOk result (λ file. IsAtEnd (Self.Made.contents file)) };
}

impl NamedFiles for HostRuntime {
    #[tactic(auto, using(crate::proofs::Known::unknown_unread))]
    fn read_named(&self, alloc: Global, path: &str, most: usize) -> Result<Vec<u8>, ReadFault> {
        match File::open(self, path) {
            Ok(mut file) => read_all(alloc, &mut file, most),
            Err(_) => Err(ReadFault::Read),
        }
    }

    type Opened = File;

    fn open_named(&self, path: &str) -> io::Result<File> {
        File::open(self, path)
    }

    type Made = File;

    fn make_named(&self, path: &str) -> io::Result<File> {
        File::create(self, path)
    }
}

/// All bytes of a reader that the command line names `path`.
fn read_whole<'a, I: Read>(
    alloc: Global,
    reader: &mut I,
    path: &'a str,
) -> Result<Vec<u8>, FileFault<'a>>
    ensures within { IfOk result (λ all. vec_len all ≤ limit) }
    ensures whole { IfOk result (λ all. IfSome (I.remaining reader.old) (λ left. all.items ≡ left)) }
    ensures fault { IfErr result (IsReadFault path.now (I.remaining reader.old)) }
{
    match read_all(alloc, reader, LIMIT) {
        Ok(all) => Ok(all),
        Err(ReadFault::Read) => Err(FileFault::CannotRead(path)),
        Err(ReadFault::TooLong) => Err(FileFault::TooLong(path)),
        Err(ReadFault::NoMemory) => Err(FileFault::NoMemory),
    }
}

/// The bytes of a file.
///
/// `CannotRead`, `TooLong` if it has more than 1,073,741,824 bytes, `NoMemory`.
pub fn read_file<'a, R: NamedFiles + AllocGlobal>(
    rt: &R,
    path: &'a str,
) -> Result<Vec<u8>, FileFault<'a>>
    ensures within { IfOk result (λ all. vec_len all ≤ limit) }
    ensures whole { IfOk result (λ all. IfSome (R.bytes_at rt.now path.now) (λ bytes. all.items ≡ bytes)) }
    ensures fault { IfErr result (IsPathFault (R.bytes_at rt.now) path.now) }
{
    match rt.read_named(rt.alloc(), path, LIMIT) {
        Ok(all) => Ok(all),
        Err(ReadFault::Read) => Err(FileFault::CannotRead(path)),
        Err(ReadFault::TooLong) => Err(FileFault::TooLong(path)),
        Err(ReadFault::NoMemory) => Err(FileFault::NoMemory),
    }
}

/// The bytes of a file, or of `input` if the path is `-`. Nothing is read from `input` otherwise.
///
/// `CannotRead`, `TooLong` if there are more than 1,073,741,824 bytes, `NoMemory`.
#[tactic(auto, using(crate::proofs::Known::input_unread, crate::proofs::Known::path_unread))]
pub fn read_input<'a, R: NamedFiles + AllocGlobal, I: Read>(
    rt: &R,
    path: &'a str,
    input: &mut I,
) -> Result<Vec<u8>, FileFault<'a>>
    ensures within { IfOk result (λ all. vec_len all ≤ limit) }
    ensures input { path.now ≡ codes "-" → IfOk result (λ all. IfSome (I.remaining input.old) (λ left. all.items ≡ left)) }
    ensures named { path.now ≢ codes "-" → IfOk result (λ all. IfSome (R.bytes_at rt.now path.now) (λ bytes. all.items ≡ bytes)) }
    ensures unread { path.now ≢ codes "-" → I.remaining input.new ≡ I.remaining input.old }
    ensures fault { IfErr result (IsArgumentFault (R.bytes_at rt.now) (I.remaining input.old) path.now) }
{
    if path == NO_FILE {
        read_whole(rt.alloc(), input, path)
    } else {
        read_file(rt, path)
    }
}

/// The tables whose entries are the bytes of a text.
fn tables_of(bytes: &[u8]) -> Result<Tables, FileFault<'static>>
    ensures read { IfOk result (λ tables. entries_of bytes.now ≡ Ok tables) }
    ensures fault { IfErr result (IsTableFault bytes.now) }
{
    Tables::read(bytes).map_err(|_| FileFault::Tables)
}

/// The tables of a file, or the tables of RFC 6386 if none is given.
///
/// The errors of `read_file`, and `Tables` if it does not have 3012 bytes.
#[tactic(auto, using(crate::proofs::Known::known_tables, crate::proofs::Known::path_tables, crate::proofs::Known::bytes_tables))]
pub fn read_tables<'a, R: NamedFiles + AllocGlobal>(
    rt: &R,
    path: Option<&'a str>,
) -> Result<Tables, FileFault<'a>>
    ensures tables { IfOk result (AreTables (R.bytes_at rt.now) (option_map (λ path. path.now) path.entry)) }
    ensures rfc { is_some path.entry ≡ false → result ≡ Ok rfc_entries }
    ensures fault { IfErr result (IsTablesFault (R.bytes_at rt.now) (option_map (λ path. path.now) path.entry)) }
{
    match path {
        Some(path) => {
            let bytes = read_file(rt, path)?;
            tables_of(bytes.as_slice())
        }
        None => Ok(Tables::rfc()),
    }
}
