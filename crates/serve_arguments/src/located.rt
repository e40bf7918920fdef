// What the paths of the command line name, however they are spelled.
ghost use Rattle.std.specs.Prelude.{◌≡◌, IfErr, IfOk, OnOk, filter, map, option_map};
ghost use Rattle.serve_arguments.specs.CommandLines.{input_file, named_file, names_of, placed_files, standard_files};
ghost use Rattle.output_files.specs.Places.{spot_of};
ghost use Rattle.serve_arguments.specs.Locations.{ArePlaced, AreSaid, AreSeparate, IsApartFrom, IsClash, IsClashAmong, IsPlaceFault, has_path, is_clash, is_kept_from, is_kept_from_export, is_kept_from_out, is_kept_from_save, is_over, located_file};

use crate::fault::Fault;
use crate::files::{Argument, Named, SameFile, exported_file, out_file, read_files, saved_file};
use crate::words::{Accepted, Words};
use command_lines::NO_FILE;
use output_files::{Place, PlacedFiles};
use std::alloc::{AllocError, Global};

/// The system's path of standard input.
const INPUT: &str = "/dev/stdin";

/// The system's path of standard output.
const REPLIES: &str = "/dev/stdout";

/// The system's path of standard error.
const ERRORS: &str = "/dev/stderr";

/// An argument, its path, and what the system says is there, or in its folder if nothing is there yet.
#[derive(Drop)]
pub struct Located<'a> {
    argument: Argument,
    path: &'a str,
    place: Option<Place>,
}

/// The file of the requests if they are not named: standard input.
fn input_file(words: Words<'_>) -> Named<'_>
    ensures { named_file result ≡ input_file words.entry }
{
    Named {
        argument: Argument::Requests,
        path: if words.requests == NO_FILE {
            Some(INPUT)
        } else {
            None
        },
    }
}

/// The files besides those that are only read: standard input, OUT, standard output and error, and the files of `--save` and `--export`.
fn standard_files(words: Words<'_>) -> [Named<'_>; 6]
    ensures { map named_file result ≡ standard_files words.entry }
{
    [
        input_file(words),
        out_file(words),
        Named {
            argument: Argument::Replies,
            path: Some(REPLIES),
        },
        Named {
            argument: Argument::Errors,
            path: Some(ERRORS),
        },
        saved_file(words),
        exported_file(words),
    ]
}

/// The files of which the system is asked what they are, in the order in which an error names them.
fn placed_files<'a>(alloc: Global, line: &Accepted<'a>) -> Result<Vec<Named<'a>>, AllocError>
    ensures { IfOk result (λ files. map named_file files.items ≡ placed_files line.now.words (names_of line.now.more.items)) }
{
    let mut files = read_files(alloc, line.words, line.more.as_slice())?;
    files.extend_from_slice(&standard_files(line.words))?;
    Ok(files)
}

/// Asks the system what is at the paths of these files. Those without a path are left out.
fn locate<'a, R: PlacedFiles + AllocGlobal>(
    rt: &R,
    files: &[Named<'a>],
) -> Result<Vec<Located<'a>>, AllocError>
    ensures said { IfOk result (λ located. AreSaid (R.place_at rt.now) located.items) }
    ensures asked { IfOk result (λ located. map located_file located.items ≡ filter has_path (map named_file files.now)) }
{
    let mut located = Vec::new(rt.alloc());
    for file in files {
        if let Some(path) = file.path {
            let place = rt.place_of(rt.alloc(), path)?;
            located.push(Located {
                argument: file.argument,
                path,
                place,
            })?;
        }
    }
    Ok(located)
}

/// Whether OUT must not be the file of this argument.
fn is_kept_from_out(other: Argument) -> bool
    ensures { result ≡ is_kept_from_out other }
{
    match other {
        Argument::Out | Argument::Save | Argument::Export => false,
        Argument::In
        | Argument::Sources
        | Argument::Requests
        | Argument::Tables
        | Argument::Replies
        | Argument::Errors => true,
    }
}

/// Whether the file of `--save` must not be that of this argument: it may be a source, which is read before.
fn is_kept_from_save(other: Argument) -> bool
    ensures { result ≡ is_kept_from_save other }
{
    match other {
        Argument::In | Argument::Sources | Argument::Save | Argument::Export => false,
        Argument::Requests
        | Argument::Tables
        | Argument::Out
        | Argument::Replies
        | Argument::Errors => true,
    }
}

/// Whether the file of `--export` must not be that of this argument: it may be a source, which is read before.
fn is_kept_from_export(other: Argument) -> bool
    ensures { result ≡ is_kept_from_export other }
{
    match other {
        Argument::In | Argument::Sources | Argument::Export => false,
        Argument::Requests
        | Argument::Tables
        | Argument::Out
        | Argument::Save
        | Argument::Replies
        | Argument::Errors => true,
    }
}

/// Whether the file of one argument is written, and must not be that of the other.
fn is_kept_from(written: Argument, other: Argument) -> bool
    ensures { result ≡ is_kept_from written other }
{
    match written {
        Argument::Out => is_kept_from_out(other),
        Argument::Save => is_kept_from_save(other),
        Argument::Export => is_kept_from_export(other),
        Argument::In
        | Argument::Sources
        | Argument::Requests
        | Argument::Tables
        | Argument::Replies
        | Argument::Errors => false,
    }
}

/// Whether writing at one place changes what this argument has at the other: they are one file, and not a device. A standard stream may
/// only be a device that drops what it is given.
fn is_over(other: Argument, written: &Place, place: &Place) -> bool
    ensures { result ≡ is_over other (spot_of written.now) (spot_of place.now) }
{
    match other {
        Argument::Replies | Argument::Errors => !written.is_null() && written.is_same(place),
        Argument::In
        | Argument::Sources
        | Argument::Requests
        | Argument::Tables
        | Argument::Out
        | Argument::Save
        | Argument::Export => written.is_one_file(place),
    }
}

/// Whether the first file is written, must not be the second, and is it, as the system said.
fn is_clash(written: &Located<'_>, other: &Located<'_>) -> bool
    ensures { result ≡ is_clash written.now other.now }
{
    match (&written.place, &other.place) {
        (Some(place), Some(theirs)) => {
            is_kept_from(written.argument, other.argument) && is_over(other.argument, place, theirs)
        }
        _ => false,
    }
}

/// Checks that a file is none of these that it must not be. Otherwise the first of them is returned.
fn check_apart<'a>(written: &Located<'a>, others: &[Located<'a>]) -> Result<(), SameFile<'a>>
    ensures apart { OnOk result (IsApartFrom written.now others.now) }
    ensures clash { IfErr result (IsClash written.now others.now) }
{
    for other in others {
        if is_clash(written, other) {
            return Err(SameFile {
                written: written.argument,
                other: other.argument,
                path: written.path,
            });
        }
    }
    Ok(())
}

/// Checks that no file among these that is written is one that it must not be. Otherwise the first such file is returned, with the first
/// that it is.
pub fn check_located<'a>(files: &[Located<'a>]) -> Result<(), SameFile<'a>>
    ensures separate { OnOk result (AreSeparate files.now) }
    ensures clash { IfErr result (IsClashAmong files.now) }
{
    for written in files {
        if let Err(same) = check_apart(written, files) {
            return Err(same);
        }
    }
    Ok(())
}

/// Checks that no file that is written is the file of another argument, by what is at the paths: another spelling, a link or a second hard
/// link of a file is that file. The files of `--save` and `--export` may be IN or a source, which are read before they are written. A device may be
/// named twice. None of the files may be standard output's or standard error's, unless it is `/dev/null`.
///
/// `NamedTwice` with two arguments that name one; `NoMemory`.
pub fn check_places<'a, R: PlacedFiles + AllocGlobal>(
    rt: &R,
    line: &Accepted<'a>,
) -> Result<(), Fault<'a>>
    ensures separate { OnOk result (ArePlaced (R.place_at rt.now) line.now AreSeparate) }
    ensures fault { IfErr result (IsPlaceFault (R.place_at rt.now) line.now) }
{
    let files = placed_files(rt.alloc(), line).map_err(|_| Fault::NoMemory)?;
    let located = locate(rt, files.as_slice()).map_err(|_| Fault::NoMemory)?;
    check_located(located.as_slice()).map_err(Fault::NamedTwice)
}
