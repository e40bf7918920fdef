// The arguments of the command line.
ghost use Rattle.std.specs.Prelude.{◌≡◌, IfSome, None, codes};
ghost use Rattle.clap.specs.Matches.{first_value, found_of};

use crate::help::{ABOUT, GRAMMAR};
use crate::words::Words;
use clap::{Arg, ArgMatches, Command};
use command_lines::{NO_FILE, VERSION, flag};
use std::alloc::{AllocError, Global};
use std::convert::AsStr;

/// A positional argument, with its value if it is not given.
fn positional<'a>(alloc: Global, id: &'a str, value: &'a str, help: &'a str) -> Arg<'a> {
    Arg::new(alloc, id).default_value(value).help(help)
}

/// A positional argument that names no file if it is not given.
fn optional<'a>(alloc: Global, id: &'a str, help: &'a str) -> Arg<'a> {
    positional(alloc, id, NO_FILE, help)
}

/// An option that has a value.
fn option<'a>(alloc: Global, id: &'a str, value: &'a str, help: &'a str) -> Arg<'a> {
    Arg::new(alloc, id).long(id).value_name(value).help(help)
}

/// The value of an argument.
fn word_of<'a>(matches: &ArgMatches<'a>, id: &str) -> &'a str
    ensures given { IfSome (first_value (found_of matches.now) id.now) (λ word. result.now ≡ word) }
    ensures missing { first_value (found_of matches.now) id.now ≡ None → result.now ≡ codes "-" }
{
    match matches.get_str(id) {
        Some(word) => word,
        None => NO_FILE,
    }
}

/// The option for the files of the sources after source 0. A list may begin with `-`, which is the empty stream.
fn sources_option<'a>(alloc: Global) -> Arg<'a> {
    option(
        alloc,
        "sources",
        "LIST",
        "IVF or WebM files of sources 1 to 7, separated by `:`",
    )
    .allow_hyphen_values(true)
}

/// The option for the most cached states.
fn cache_option<'a>(alloc: Global) -> Arg<'a> {
    option(
        alloc,
        "cache",
        "N",
        "Most decoded frames to cache, 1 to 4096 [default: 32]",
    )
    .value_parser(clap::value_parser!(u16).range(1..=4096))
}

/// The option for the most bytes of cached pictures.
fn cache_bytes_option<'a>(alloc: Global) -> Result<Arg<'a>, AllocError> {
    option(
        alloc,
        "cache-bytes",
        "SIZE",
        "Most bytes of decoded frames to cache instead, for example 64M (K, M, G)",
    )
    .conflicts_with("cache")
}

/// Adds the options that have no value.
fn with_flags<'a>(alloc: Global, command: Command<'a>) -> Result<Command<'a>, AllocError> {
    command
        .arg(flag(
            alloc,
            "live",
            "Answer each request line as it comes, before the next is read",
        ))?
        .arg(flag(
            alloc,
            "fail-refused",
            "Exit with status 3 if a request for a frame was refused",
        ))?
        .arg(flag(
            alloc,
            "explain",
            "Explain refusals and errors on standard error",
        ))
}

/// Adds the arguments that have a place.
fn with_places<'a>(alloc: Global, command: Command<'a>) -> Result<Command<'a>, AllocError> {
    command
        .arg(optional(
            alloc,
            "IN",
            "IVF or WebM file; `-` for a stream with no packets",
        ))?
        .arg(optional(
            alloc,
            "REQUESTS",
            "File of request lines; `-` for standard input",
        ))?
        .arg(optional(
            alloc,
            "OUT",
            "YUV4MPEG2 file for the frames; `-` drops them",
        ))
}

/// Adds the options for the files that are not always there.
fn with_files<'a>(alloc: Global, command: Command<'a>) -> Result<Command<'a>, AllocError> {
    command
        .arg(option(
            alloc,
            "tables",
            "FILE",
            "3012 bytes to use instead of RFC 6386's long tables",
        ))?
        .arg(option(
            alloc,
            "save",
            "FILE",
            "IVF file for the packets of IN after the last request, not of other sources",
        ))?
        .arg(option(
            alloc,
            "export",
            "FILE",
            "IVF file for the frames of the script after the last request, without coding again",
        ))?
        .arg(flag(
            alloc,
            "pad",
            "With --save or --export: a byte 00 after packets that other players do not show",
        ))?
        .arg(flag(
            alloc,
            "restamp",
            "With --save: new time stamps, without the gaps and jumps of edits",
        ))
}

/// The program's arguments.
fn arguments<'a>(alloc: Global) -> Result<Command<'a>, AllocError> {
    let command = Command::new(alloc, "vp8serve")
        .version(VERSION)
        .about(ABOUT)
        .after_help(GRAMMAR);
    let command = with_places(alloc, command)?
        .arg(sources_option(alloc))?
        .arg(cache_option(alloc))?
        .arg(cache_bytes_option(alloc)?)?;
    with_flags(alloc, with_files(alloc, command)?)
}

/// The values in a command line that was parsed.
fn words_of<'a>(matches: &ArgMatches<'a>) -> Words<'a> {
    Words {
        stream: word_of(matches, "IN"),
        sources: matches.get_str("sources"),
        requests: word_of(matches, "REQUESTS"),
        frames: word_of(matches, "OUT"),
        cache: matches.get_one::<u16>("cache"),
        cache_bytes: matches.get_str("cache-bytes"),
        tables: matches.get_str("tables"),
        saved: matches.get_str("save"),
        exported: matches.get_str("export"),
        pads: matches.get_flag("pad"),
        restamps: matches.get_flag("restamp"),
        is_live: matches.get_flag("live"),
        fails_refused: matches.get_flag("fail-refused"),
    }
}

/// Parses the command line, whose first argument is the program's name.
pub fn parse<'a, S: AsStr>(alloc: Global, words: &'a [S]) -> Result<Words<'a>, clap::Error> {
    let matches = arguments(alloc)?.try_get_matches_from(words)?;
    Ok(words_of(&matches))
}
