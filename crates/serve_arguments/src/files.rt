// The files that the command line names: a file that is written is not named twice.
ghost use Rattle.std.specs.Prelude.{◌≡◌, ◌⊎◌, ◌↔◌, ◌∷◌, [], IfErr, IfOk, IsTrue, OnOk, Some, map, option_map};
ghost use Rattle.serve_arguments.specs.CommandLines.{AreApart, argument_name, IsApart, IsFileFault, IsNamedTwice, IsSameFile, file_of, is_device, exported_file, kept_files, named_file, names_of, out_file, read_files, saved_file};

use crate::fault::Fault;
use crate::words::Words;
use command_lines::{InLine, NO_FILE};
use std::alloc::{AllocError, Global};
use std::fmt;

/// An argument of the command line that names a file.
#[derive(Clone, Copy, Debug, PartialEq, Eq)]
pub enum Argument {
    In,
    Sources,
    Requests,
    Out,
    Tables,
    Save,
    Export,
    /// Standard output, which no argument names.
    Replies,
    /// Standard error, which no argument names.
    Errors,
}

impl Argument {
    /// The name that help gives it.
    pub fn name(self) -> &'static str
        ensures { result.now ≡ argument_name self }
    {
        match self {
            Argument::In => "IN",
            Argument::Sources => "--sources",
            Argument::Requests => "REQUESTS",
            Argument::Out => "OUT",
            Argument::Tables => "--tables",
            Argument::Save => "--save",
            Argument::Export => "--export",
            Argument::Replies => "standard output",
            Argument::Errors => "standard error",
        }
    }

    /// What is written to its file.
    fn content(self) -> &'static str {
        match self {
            Argument::Save | Argument::Export => "packets",
            _ => "frames",
        }
    }
}

/// An argument, and the path of the file that it names, if it names one.
#[derive(Clone, Copy)]
pub struct Named<'a> {
    pub argument: Argument,
    pub path: Option<&'a str>,
}

impl Named<'_> {
    /// Whether the file is the one at `path`.
    fn is_at(self, path: &str) -> bool
        ensures { IsTrue result ↔ ((named_file self.entry).1 ≡ Some path.now) }
    {
        match self.path {
            Some(own) => own == path,
            None => false,
        }
    }
}

/// Two arguments that name one file, which would be written for the first. `Display` says so to the user.
#[derive(Clone, Copy, Debug, PartialEq, Eq)]
pub struct SameFile<'a> {
    pub written: Argument,
    pub other: Argument,
    pub path: &'a str,
}

impl fmt::Display for SameFile<'_> {
    fn fmt<W: fmt::Write>(&self, f: &mut fmt::Formatter<W>) -> fmt::Result {
        let written = self.written.name();
        let other = self.other.name();
        let path = InLine(self.path);
        let content = self.written.content();
        match self.other {
            Argument::Replies => write!(
                f,
                "{written} {path} is {other}, so replies would be among the {content}: name /dev/fd/3 3>&1 >replies"
            ),
            Argument::Errors => write!(
                f,
                "{written} {path} is {other}, so messages would be among the {content}: name another file for {written}"
            ),
            _ => write!(
                f,
                "{written} and {other} are both {path}: name another file for {written}"
            ),
        }
    }
}

/// The file that an argument names: `-` names none.
fn file_of(word: &str) -> Option<&str>
    ensures { option_map (λ path. path.now) result ≡ file_of word.now }
{
    if word == NO_FILE { None } else { Some(word) }
}

/// Whether a path is a device's, for example `/dev/null` or `/dev/fd/3`.
fn is_device(path: &str) -> bool
    ensures { result ≡ is_device path.now }
{
    path.as_bytes().starts_with(b"/dev/")
}

/// Checks that none of some arguments names the file that is written for another. If one does, the first
/// that does is returned.
fn check_apart<'a>(written: Named<'a>, others: &[Named<'a>]) -> Result<(), SameFile<'a>>
    ensures apart { OnOk result (IsApart (named_file written.entry) (map named_file others.now)) }
    ensures found { IfErr result (IsSameFile (named_file written.entry) (map named_file others.now)) }
{
    let Some(path) = written.path else {
        return Ok(());
    };
    if is_device(path) {
        return Ok(());
    }
    for other in others {
        if other.is_at(path) {
            return Err(SameFile {
                written: written.argument,
                other: other.argument,
                path,
            });
        }
    }
    Ok(())
}

/// The arguments whose files are only read, with these paths of `--sources`.
pub(crate) fn read_files<'a>(
    alloc: Global,
    words: Words<'a>,
    more: &[&'a str],
) -> Result<Vec<Named<'a>>, AllocError>
    ensures { IfOk result (λ named. map named_file named.items ≡ read_files words.entry (names_of more.now)) }
{
    let mut files = vec![in alloc;
        Named {
            argument: Argument::In,
            path: file_of(words.stream),
        },
        Named {
            argument: Argument::Requests,
            path: file_of(words.requests),
        },
        Named {
            argument: Argument::Tables,
            path: words.tables,
        },
    ]?;
    for path in more {
        files.push(Named {
            argument: Argument::Sources,
            path: file_of(path),
        })?;
    }
    Ok(files)
}

/// The arguments whose files are read, and must not be saved.
fn kept_files(words: Words<'_>) -> [Named<'_>; 2]
    ensures { map named_file result ≡ kept_files words.entry }
{
    [
        Named {
            argument: Argument::Requests,
            path: file_of(words.requests),
        },
        Named {
            argument: Argument::Tables,
            path: words.tables,
        },
    ]
}

/// The file for the frames.
pub(crate) fn out_file(words: Words<'_>) -> Named<'_>
    ensures { named_file result ≡ out_file words.entry }
{
    Named {
        argument: Argument::Out,
        path: file_of(words.frames),
    }
}

/// The file for the packets after the run.
pub(crate) fn saved_file(words: Words<'_>) -> Named<'_>
    ensures { named_file result ≡ saved_file words.entry }
{
    Named {
        argument: Argument::Save,
        path: words.saved,
    }
}

/// The file for the frames as packets.
pub(crate) fn exported_file(words: Words<'_>) -> Named<'_>
    ensures { named_file result ≡ exported_file words.entry }
{
    Named {
        argument: Argument::Export,
        path: words.exported,
    }
}

/// Checks that the file of `--export` is not the requests' or the tables', and neither OUT nor the file of `--save`.
fn check_exported(words: Words<'_>) -> Result<(), SameFile<'_>>
    ensures apart { OnOk result (IsApart (exported_file words.entry) (kept_files words.entry)) }
    ensures all { OnOk result (IsApart (exported_file words.entry) (out_file words.entry ∷ saved_file words.entry ∷ [])) }
    ensures found { IfErr result (λ same. IsSameFile (exported_file words.entry) (kept_files words.entry) same ⊎ IsSameFile (exported_file words.entry) (out_file words.entry ∷ saved_file words.entry ∷ []) same) }
{
    let exported = exported_file(words);
    check_apart(exported, &kept_files(words))?;
    check_apart(exported, &[out_file(words), saved_file(words)])?;
    Ok(())
}

/// Checks that the file for the frames is none of these, that the files of `--save` and `--export` are not the requests' or the tables', and that
/// the three are three.
fn check_written<'a>(words: Words<'a>, read: &[Named<'a>]) -> Result<(), SameFile<'a>>
    ensures apart { OnOk result (AreApart words.entry (map named_file read.now)) }
    ensures found { IfErr result (IsNamedTwice words.entry (map named_file read.now)) }
{
    let out = out_file(words);
    let saved = saved_file(words);
    check_apart(out, read)?;
    check_apart(saved, &kept_files(words))?;
    check_apart(saved, &[out])?;
    check_exported(words)?;
    Ok(())
}

/// Checks that no file that is written is named twice, with these paths of `--sources`, by what is written on the command line. The files of
/// `--save` and `--export` may be IN or a source, which are read before they are written.
///
/// `NamedTwice` with two arguments that name one; `NoMemory`.
pub fn check_files<'a>(alloc: Global, words: Words<'a>, more: &[&'a str]) -> Result<(), Fault<'a>>
    ensures apart { OnOk result (AreApart words.entry (read_files words.entry (names_of more.now))) }
    ensures fault { IfErr result (IsFileFault words.entry (read_files words.entry (names_of more.now))) }
{
    let read = read_files(alloc, words, more).map_err(|_| Fault::NoMemory)?;
    check_written(words, read.as_slice()).map_err(Fault::NamedTwice)
}
