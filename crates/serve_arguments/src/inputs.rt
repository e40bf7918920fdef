// The files that the program reads.
ghost use Rattle.std.specs.Prelude.{◌≡◌, ◌∷◌, ℕ, List, Option, IfOk, IfErr, map};
ghost use Rattle.command_lines.specs.Readings.{IsPathFault};
ghost use Rattle.serve_arguments.specs.CommandLines.{names_of, source_names, tables_name};
ghost use Rattle.serve_arguments.specs.Readings.{AreNamed, AreRead, AreRequests, AreUnread, IsInputFault, IsNamed, contents_of};

use crate::words::Accepted;
use command_lines::{FileFault, NO_FILE, NamedFiles, read_file, read_input, read_tables};
use std::io::Read;
use stream_files::EMPTY;
use vp8_tables::Tables;

/// The bytes of a source: those of a file with no packets if no file is given.
fn read_source<'a, R: NamedFiles + AllocGlobal>(
    rt: &R,
    path: &'a str,
) -> Result<Vec<u8>, FileFault<'a>>
    ensures named { IfOk result (λ all. IsNamed (contents_of (R.bytes_at rt.now) EMPTY) path.now all.items) }
    ensures fault { IfErr result (IsPathFault (R.bytes_at rt.now) path.now) }
{
    if path == NO_FILE {
        Vec::from_slice(rt.alloc(), &EMPTY).map_err(|_| FileFault::NoMemory)
    } else {
        read_file(rt, path)
    }
}

/// The bytes of the sources: of source 0, and then of those with these paths.
fn read_sources<'a, R: NamedFiles + AllocGlobal>(
    rt: &R,
    first: &'a str,
    more: &[&'a str],
) -> Result<Vec<Vec<u8>>, FileFault<'a>>
    ensures named { IfOk result (λ all. AreNamed (contents_of (R.bytes_at rt.now) EMPTY) (first.now ∷ names_of more.now) (map (λ bytes. bytes.items) all.items)) }
    ensures fault { IfErr result (AreUnread (contents_of (R.bytes_at rt.now) EMPTY) (first.now ∷ names_of more.now)) }
{
    let bytes = read_source(rt, first)?;
    let mut all = vec![in rt.alloc(); bytes].map_err(|_| FileFault::NoMemory)?;
    for path in more {
        let bytes = read_source(rt, path)?;
        let Ok(()) = all.push(bytes) else {
            return Err(FileFault::NoMemory);
        };
    }
    Ok(all)
}

/// The files that are read before the requests.
#[derive(Drop)]
pub struct FilesRead {
    pub tables: Tables,
    /// The bytes of each source.
    pub sources: Vec<Vec<u8>>,
}

/// What is read before the first request is answered, if requests are not answered as they come.
#[derive(Drop)]
pub struct Inputs {
    pub files: FilesRead,
    pub requests: Vec<u8>,
}

/// Reads the files of an accepted command line that come before the requests: the tables, then the sources in their order.
#[tactic(auto, using(crate::proofs::Unread::tables_unread, crate::proofs::Unread::sources_unread))]
pub fn read_files<'a, R: NamedFiles + AllocGlobal>(
    rt: &R,
    line: &Accepted<'a>,
) -> Result<FilesRead, FileFault<'a>>
    ensures read { IfOk result (λ files. AreRead (contents_of (R.bytes_at rt.now) EMPTY) (tables_name line.now) (source_names line.now) files.tables (map (λ bytes. bytes.items) files.sources.items)) }
    ensures fault { IfErr result (λ fault. (left : Option (List ℕ)) → IsInputFault (contents_of (R.bytes_at rt.now) EMPTY) (tables_name line.now) (source_names line.now) line.now.words.requests.now left left fault) }
{
    let tables = read_tables(rt, line.words.tables)?;
    let sources = read_sources(rt, line.words.stream, line.more.as_slice())?;
    Ok(FilesRead { tables, sources })
}

/// Reads the files of an accepted command line, and then the requests.
#[tactic(auto, using(crate::proofs::Unread::requests_unread))]
pub fn read_inputs<'a, R: NamedFiles + AllocGlobal, I: Read>(
    rt: &R,
    line: &Accepted<'a>,
    input: &mut I,
) -> Result<Inputs, FileFault<'a>>
    ensures read { IfOk result (λ inputs. AreRead (contents_of (R.bytes_at rt.now) EMPTY) (tables_name line.now) (source_names line.now) inputs.files.tables (map (λ bytes. bytes.items) inputs.files.sources.items)) }
    ensures requests { IfOk result (λ inputs. AreRequests (contents_of (R.bytes_at rt.now) EMPTY) line.now.words.requests.now (I.remaining input.old) inputs.requests.items) }
    ensures fault { IfErr result (IsInputFault (contents_of (R.bytes_at rt.now) EMPTY) (tables_name line.now) (source_names line.now) line.now.words.requests.now (I.remaining input.old) (I.remaining input.new)) }
{
    let files = read_files(rt, line)?;
    let requests = read_input(rt, line.words.requests, input)?;
    Ok(Inputs { files, requests })
}
