// The arguments of the command line.
ghost use Rattle.std.specs.Prelude.{◌≡◌};
ghost use Rattle.list_program.specs.Options.{details_by, form_of, output_by};

use crate::answering::Output;
use crate::checking::Checking;
use crate::details::Asked;
use crate::ranges::{Range, range_of};
use clap::{Arg, ArgMatches, Command};
use command_lines::{VERSION, flag};
use macroblock_lists::{Form, What};
use std::alloc::{AllocError, Global};
use std::convert::AsStr;

/// The purpose of the program.
const ABOUT: &str = "\
Lists the packets of a VP8 stream (IVF, WebM or Matroska): a line with the names of the columns,
and a line a packet, with tabs between columns. Only headers are read.
Each of --json, --hash, --check, --macroblocks and --header replaces the list; give one of them,
or --json with --check, --macroblocks or --header.

  vp8list in.ivf | column -t
  vp8list in.ivf | awk '$5 == \"key\" { print $1, $8 }'

  packet      index of the packet, from 0
  frame       index of the frame that it is shown as, `-` if it is hidden
  stamp       time stamp
  bytes       length
  kind        `key` or `inter`, `-` with fewer than 3 bytes
  show        `shown` or `hidden`
  version     0 to 7
  size        width x height of a key packet
  first       length of the first partition, as the tag gives it
  partitions  number of token partitions
  quantizer   quantizer index, 0 to 127
  level       loop filter level, 0 to 63
  last, golden, altref
              `new` if the frame becomes that reference; `last`, `golden` or
              `altref` if it becomes a copy of that one; `-` if it stays
  cause       why decoding refuses the packet: a name, or `lost` if it is because of an
              earlier packet; else `-`
  byte        index of the packet's first byte in the file
  scale       horizontal x vertical scale of a key packet, 0 to 3
  color       color space bit of a key packet, 0 or 1
  clamp       clamping type bit of a key packet, 0 or 1

--json prints a line a packet, an object with a member for each column, null
instead of `-`:

  vp8list in.ivf --json | jq 'select(.kind == \"key\") | .packet'

--hash prints what ffmpeg prints for the same stream:

  vp8list in.ivf --hash > ours
  ffmpeg -nostdin -v error -copyts -i in.ivf -fps_mode passthrough \\
      -autoscale 0 -bitexact -f framemd5 - | diff - ours

A frame that is hidden or does not decode has no line. A refused packet is named on
standard error, and the exit status is 1 then.
For a time stamp that
goes back ffmpeg prints the greatest one so far, and vp8list the stamp itself.

With --check the headers, modes and tokens of every packet are read, and there is a line for
each finding instead; no samples are made. Damage means that samples are lost, or are not
those that were coded:

  damage: packet 60: refused ShortPacket, packets lost with it: 12
              why a packet is not decoded, and how many packets before the next
              key packet are lost with it
  damage: packet 12: first partition: 2 bytes read past its end
  damage: packet 12: token partition 0: 5 bytes read past its end
              decoding reads zeros after the end of a partition, as it does if
              the packet was cut or changed; libvpx calls a token partition
              corrupt then, and reads on after the end of a first partition
  damage: packet 12: token partition 0: 40 of 900 bytes are not read
              decoding ends too early, as it does if the packet was changed; up
              to 3 bytes are left in sound streams
  damage: packet 31: time stamp 32 follows 30, all other steps are 1
              an inter packet; packets before it are lost or in another order
  damage: packet 31: the next packet has the same bytes and time stamp
              an inter packet, where all other steps are the same; else a note
  damage: record 100 at byte 51234: claims 12 + 900 bytes, 324 are there
              the file ends within a record; 12 bytes are the record's head
  damage: byte 51234: 324 bytes are no element, and are skipped
  damage: element at byte 51234: the file ends within it, 324 bytes are there
              a WebM file is damaged there: blocks may be lost
  damage: block at byte 51234: laced packets of the video, which are left out

Anything else is a note:

  note: header: 100 frames, 99 packets
  note: header: size 320x180, first key packet 640x360
  note: header: rate 0, scale 1
              the header of the file is not that of its packets
  note: block at byte 51234: track 7, which the file does not list
  note: packet 12: token partition 0: no bytes, which libvpx calls corrupt
  note: packet 12: no bytes, at which vpxdec ends
  note: packet 12: copy_buffer_to_golden 3, at which vpxdec ends
              a number that names no reference: nothing is copied
  note: packet 31: time stamp 30 repeats
  note: packet 31: time stamp 28 goes back from 30
              against the shown packet before it
  note: packet 31: time stamp 35 skips from 33
              two or more steps: the median of the steps between shown packets,
              one for each packet
  note: packet 48: size 320x180 changes to 640x360
              against the key packet before it
  note: packet 7: hidden, never shown
              no shown packet comes before the next key packet, or the end
  100 packets, 99 frames, damage: 1, notes: 2

--check --json prints a line a finding, an object:

  vp8list in.ivf --check --json | jq 'select(.severity == \"damage\") | .packet'

--macroblocks lists what each macroblock of a packet is made of, --header the fields of its
header with their bits, by their names in RFC 6386. They take the index of a packet, as 12,
several packets, as 12-15, or all:

  vp8list in.ivf --macroblocks 12 | column -t
  vp8list in.ivf --macroblocks all | awk '$6 == \"golden\" { print $1, $2, $3 }'
  vp8list in.ivf --header 0 --json | jq .y_ac_qi

  packet, column, row
              index of the packet, position of the macroblock
  segment     0 to 3
  skip        1 if it has no tokens
  reference   intra, last, golden or altref
  luma        DC_PRED, V_PRED, H_PRED, TM_PRED or B_PRED; with a reference mv_zero,
              mv_nearest, mv_near, mv_new or mv_split
  chroma      DC_PRED, V_PRED, H_PRED or TM_PRED
  parts       the 16 modes of B_PRED, or the 16 vectors of mv_split
  split       the parts of mv_split: mv_top_bottom, mv_left_right, mv_quarters or MV_16
  vector      x:y in quarters of a sample, to the right and down
  quantizer   quantizer index in force, 0 to 127
  level       filter level in force, 0 to 63
  interior_limit, hev_threshold, mbedge_limit, sub_bedge_limit
              filter limits in force
  inner       1 if its inner edges are filtered
  blocks      a digit for each block: 1 if it has a coefficient that is not 0
  coefficients, greatest
              how many are not 0, and the greatest absolute value
  mode_bits, token_bits
              bits that its record and its tokens take

A line that begins with # has the header of a packet, or why it is refused.

Exit status: 0; 1 if --check finds damage, with --strict also a note, or if --hash meets a refused
packet; 2 for a mistake on the command line, a file that is not IVF, WebM or Matroska
with VP8, a packet that is not there and any other error.";

/// The values of the arguments.
#[derive(Clone, Copy)]
pub struct Arguments<'a> {
    /// The IVF, WebM or Matroska file; `-` is standard input.
    pub stream: &'a str,
    /// The file of the long tables, if given.
    pub tables: Option<&'a str>,
    /// What is written; `None` if the options do not go together.
    pub output: Option<Output>,
}

/// The argument that has a place.
fn stream<'a>(alloc: Global) -> Arg<'a> {
    Arg::new(alloc, "IN")
        .required(true)
        .help("IVF, WebM or Matroska file; - reads standard input")
}

/// The option for the file of the long tables.
fn tables_option<'a>(alloc: Global) -> Arg<'a> {
    Arg::new(alloc, "tables")
        .long("tables")
        .value_name("FILE")
        .help("3012 bytes to use instead of RFC 6386's long tables")
}

/// An option for the packets of which something is listed.
fn packets<'a>(alloc: Global, id: &'a str, help: &'a str) -> Arg<'a> {
    Arg::new(alloc, id)
        .long(id)
        .value_name("N, A-B or all")
        .help(help)
}

/// Adds the options that ask for parts of packets.
fn with_details<'a>(alloc: Global, command: Command<'a>) -> Result<Command<'a>, AllocError> {
    command
        .arg(packets(
            alloc,
            "macroblocks",
            "What each macroblock of these packets is made of",
        ))?
        .arg(packets(alloc, "header", "The header fields of these packets"))
}

/// Adds the options that ask for something else than the list.
fn with_outputs<'a>(alloc: Global, command: Command<'a>) -> Result<Command<'a>, AllocError> {
    command
        .arg(flag(alloc, "hash", "The MD5 of each frame, as ffmpeg's framemd5"))?
        .arg(flag(alloc, "json", "A JSON object a packet"))?
        .arg(flag(
            alloc,
            "check",
            "Report what is wrong with the stream instead",
        ))?
        .arg(flag(alloc, "strict", "With --check: a note is as bad as damage"))
}

/// The program's arguments.
fn command<'a>(alloc: Global) -> Result<Command<'a>, AllocError> {
    let command = Command::new(alloc, "vp8list")
        .version(VERSION)
        .about(ABOUT)
        .arg(stream(alloc))?
        .arg(tables_option(alloc))?;
    with_details(alloc, with_outputs(alloc, command)?)
}

/// The form of what is written.
fn form_of(is_json: bool) -> Form
    ensures { result ≡ form_of is_json }
{
    if is_json { Form::Objects } else { Form::Lines }
}

/// The output that `--json`, `--hash`, `--check` and `--strict` ask for; `None` if they do not go
/// together.
fn output_by(is_json: bool, is_hash: bool, is_check: bool, is_strict: bool) -> Option<Output>
    ensures { result ≡ output_by is_json is_hash is_check is_strict }
{
    match (is_hash, is_check) {
        (true, true) => None,
        (false, true) => Some(Output::Findings(Checking {
            form: form_of(is_json),
            is_strict,
        })),
        (true, false) if !is_json && !is_strict => Some(Output::Hashes),
        (false, false) if !is_strict => Some(Output::List(form_of(is_json))),
        _ => None,
    }
}

/// The flags of a command line.
#[derive(Clone, Copy)]
struct Flags {
    is_json: bool,
    is_hash: bool,
    is_check: bool,
    is_strict: bool,
}

/// The output that asks for parts of these packets; `None` if the flags do not go with it, or for no range.
fn details_by(what: What, range: Option<Range>, flags: Flags) -> Option<Output>
    ensures { result ≡ details_by what range flags }
{
    let Flags {
        is_json,
        is_hash,
        is_check,
        is_strict,
    } = flags;
    if is_hash || is_check || is_strict {
        return None;
    }
    match range {
        None => None,
        Some(Range { first, last }) => Some(Output::Details(Asked {
            what,
            form: form_of(is_json),
            first,
            last,
        })),
    }
}

/// The output that the options ask for.
fn output_of(matches: &ArgMatches<'_>) -> Option<Output> {
    let flags = Flags {
        is_json: matches.get_flag("json"),
        is_hash: matches.get_flag("hash"),
        is_check: matches.get_flag("check"),
        is_strict: matches.get_flag("strict"),
    };
    match (matches.get_str("macroblocks"), matches.get_str("header")) {
        (None, None) => output_by(
            flags.is_json,
            flags.is_hash,
            flags.is_check,
            flags.is_strict,
        ),
        (Some(range), None) => details_by(What::Macroblocks, range_of(range), flags),
        (None, Some(range)) => details_by(What::Header, range_of(range), flags),
        (Some(_), Some(_)) => None,
    }
}

/// The values in a command line that was parsed.
fn values_of<'a>(matches: &ArgMatches<'a>) -> Arguments<'a> {
    Arguments {
        stream: matches.get_str("IN").unwrap_or(""),
        tables: matches.get_str("tables"),
        output: output_of(matches),
    }
}

/// Parses the command line, whose first argument is the program's name.
pub fn parse<'a, S: AsStr>(alloc: Global, words: &'a [S]) -> Result<Arguments<'a>, clap::Error> {
    let matches = command(alloc)?.try_get_matches_from(words)?;
    Ok(values_of(&matches))
}
