// Help and the version.
use crate::expected::expect;
use command_lines::NamedFiles;
use list_program::{answer, parse};
use std::io::BufWriter;
use std::process::Abort;
use stream_checks::Unwatched;

const HELP: &str = "\
Serves frames of a VP8 stream (IVF, WebM or Matroska) as YUV4MPEG2, while you edit
its packets.

Copy this line to see it work. It forges a grey key frame, repeats its picture
in a second packet, saves both as IVF and writes both frames:

  printf 'blank 0 64 48\\nhold 1\\nframe 0\\nframe 1\\n' | vp8serve - - out.y4m --save out.ivf

It prints the replies `ok 1`, `ok 2`, `served 0` and `served 1`.
`ffplay out.y4m` shows the frames, and `vp8serve out.ivf` reads the packets again.

To watch frames as they are served, with the replies in a file:

  vp8serve in.ivf requests /dev/fd/3 3>&1 >replies | ffplay -

To look at a frame before the next edit, answer each line as it comes:

  vp8serve in.ivf - out.y4m --save edited.ivf --live

Type `frame 0`; `served 0` comes when the frame is in out.y4m. `hold 1` repeats
it, `delete 1` removes the repeat. At the end of input (Ctrl-D) the
packets are saved. Ctrl-C ends the program and saves nothing.

If a request is refused or the program ends with an error, run it again with
--explain: a line on standard error says why, and what to do.

The files that are written, OUT and those of --save and --export, must not be
the file of another argument. Paths under /dev/ may be named twice.

Usage: vp8serve [OPTIONS] [IN] [REQUESTS] [OUT]

Arguments:
  [IN]        IVF or WebM file; `-` for a stream with no packets [default: -]
  [REQUESTS]  File of request lines; `-` for standard input [default: -]
  [OUT]       YUV4MPEG2 file for the frames; `-` drops them [default: -]

Options:
      --sources <LIST>      IVF or WebM files of sources 1 to 7, separated by `:`
      --cache <N>           Most decoded frames to cache, 1 to 4096 [default: 32]
      --cache-bytes <SIZE>  Most bytes of decoded frames to cache instead, for example 64M (K, M, G)
      --tables <FILE>       3012 bytes to use instead of RFC 6386's long tables
      --save <FILE>         IVF file for the packets of IN after the last request, not of other sources
      --export <FILE>       IVF file for the frames of the script after the last request, without coding again
      --pad                 With --save or --export: a byte 00 after packets that other players do not show
      --restamp             With --save: new time stamps, without the gaps and jumps of edits
      --live                Answer each request line as it comes, before the next is read
      --fail-refused        Exit with status 3 if a request for a frame was refused
      --explain             Explain refusals and errors on standard error
  -h, --help                Print help
  -V, --version             Print version

Requests, a line each; the reply goes to standard output:
  frame N               write frame N to OUT          served N
  use S                 edit source S                 ok K (K packets now)
  insert AT STAMP HEX   insert a packet               ok K
  replace AT HEX        replace a packet's bytes      ok K
  delete AT             remove a packet               ok K
  move FROM TO          remove one, insert it at TO   ok K
  copy S FROM AT        insert packet FROM of S at AT ok K
  blank AT W H          insert a grey W x H key frame ok K
  hold AT               insert a repeat of the frame  ok K
  hide N                clear packet N's show bit     ok K
  show N                set packet N's show bit       ok K
  script TEXT           edit the frames, see below    ok K
  script                                              script TEXT
  packet N                                            packet STAMP HEX
  list FIRST COUNT                                    lines K, and packets as JSON
  check FIRST COUNT                                   lines K, and findings as JSON
  origins FIRST COUNT                                 lines K, and frames as JSON
  header N                                            lines K, and fields as JSON
  macroblocks N                                       lines K, and macroblocks as JSON
  count                                               packets K frames F
  stats                                               decoded D (packets so far)
Packets, frames and sources are numbered from 0; source 0 is IN. Edits and K are
of the current source: 0 at first, then the one of the last `use`. STAMP is a
packet's time stamp, HEX its bytes as hexadecimal digits, or `-` for none. Empty
lines and lines that begin with # have no reply.
A refused edit changes nothing. The reply to a refused request gives the reason:
  refused Line | Source | Place | Full | Spent | Size | TooLarge | NoMemory
  refused NoBit             the packet has under 3 bytes  (hide, show)
  refused Syntax | Nodes | Reference | Number             (script)
  refused NoSuchFrame | CropOutside | SizeDiffers         (frame)
  refused packet J CAUSE    packet J cannot be decoded    (frame)
  refused source S packet J CAUSE    the same, S above 0  (frame)

Scripts: `-` for none, or nodes separated by `;`. Node 0 is source 0; the
others are numbered from 1, and the last one is served. A and B are earlier
nodes:
  source S                      the frames of source S
  trim A FIRST COUNT            COUNT frames of A, starting at FIRST
  splice A B                    A's frames, then B's
  parts A FIRST COUNT ..        any number of trims, one after the other
  crop A X Y W H                W x H samples from column X, row Y (both even)
  fade A FIRST COUNT FROM TO    mix with black: weight FROM/256 before FIRST,
                                TO/256 after COUNT frames, a ramp between
Example: script trim 0 0 50; fade 1 25 25 256 0
";

const LIST_HELP: &str = "\
Lists the packets of a VP8 stream (IVF, WebM or Matroska): a line with the names of the columns,
and a line a packet, with tabs between columns. Only headers are read.
Each of --json, --hash, --check, --macroblocks and --header replaces the list; give one of them,
or --json with --check, --macroblocks or --header.

  vp8list in.ivf | column -t
  vp8list in.ivf | awk '$5 == \"key\" { print $1, $8 }'

  packet      index of the packet, from 0
  frame       index of the frame that it is shown as, `-` if it is hidden
  stamp       time stamp
  bytes       length
  kind        `key` or `inter`, `-` with fewer than 3 bytes
  show        `shown` or `hidden`
  version     0 to 7
  size        width x height of a key packet
  first       length of the first partition, as the tag gives it
  partitions  number of token partitions
  quantizer   quantizer index, 0 to 127
  level       loop filter level, 0 to 63
  last, golden, altref
              `new` if the frame becomes that reference; `last`, `golden` or
              `altref` if it becomes a copy of that one; `-` if it stays
  cause       why decoding refuses the packet: a name, or `lost` if it is because of an
              earlier packet; else `-`
  byte        index of the packet's first byte in the file
  scale       horizontal x vertical scale of a key packet, 0 to 3
  color       color space bit of a key packet, 0 or 1
  clamp       clamping type bit of a key packet, 0 or 1

--json prints a line a packet, an object with a member for each column, null
instead of `-`:

  vp8list in.ivf --json | jq 'select(.kind == \"key\") | .packet'

--hash prints what ffmpeg prints for the same stream:

  vp8list in.ivf --hash > ours
  ffmpeg -nostdin -v error -copyts -i in.ivf -fps_mode passthrough \\
      -autoscale 0 -bitexact -f framemd5 - | diff - ours

A frame that is hidden or does not decode has no line. A refused packet is named on
standard error, and the exit status is 1 then.
For a time stamp that
goes back ffmpeg prints the greatest one so far, and vp8list the stamp itself.

With --check the headers, modes and tokens of every packet are read, and there is a line for
each finding instead; no samples are made. Damage means that samples are lost, or are not
those that were coded:

  damage: packet 60: refused ShortPacket, packets lost with it: 12
              why a packet is not decoded, and how many packets before the next
              key packet are lost with it
  damage: packet 12: first partition: 2 bytes read past its end
  damage: packet 12: token partition 0: 5 bytes read past its end
              decoding reads zeros after the end of a partition, as it does if
              the packet was cut or changed; libvpx calls a token partition
              corrupt then, and reads on after the end of a first partition
  damage: packet 12: token partition 0: 40 of 900 bytes are not read
              decoding ends too early, as it does if the packet was changed; up
              to 3 bytes are left in sound streams
  damage: packet 31: time stamp 32 follows 30, all other steps are 1
              an inter packet; packets before it are lost or in another order
  damage: packet 31: the next packet has the same bytes and time stamp
              an inter packet, where all other steps are the same; else a note
  damage: record 100 at byte 51234: claims 12 + 900 bytes, 324 are there
              the file ends within a record; 12 bytes are the record's head
  damage: byte 51234: 324 bytes are no element, and are skipped
  damage: element at byte 51234: the file ends within it, 324 bytes are there
              a WebM file is damaged there: blocks may be lost
  damage: block at byte 51234: laced packets of the video, which are left out

Anything else is a note:

  note: header: 100 frames, 99 packets
  note: header: size 320x180, first key packet 640x360
  note: header: rate 0, scale 1
              the header of the file is not that of its packets
  note: block at byte 51234: track 7, which the file does not list
  note: packet 12: token partition 0: no bytes, which libvpx calls corrupt
  note: packet 12: no bytes, at which vpxdec ends
  note: packet 12: copy_buffer_to_golden 3, at which vpxdec ends
              a number that names no reference: nothing is copied
  note: packet 31: time stamp 30 repeats
  note: packet 31: time stamp 28 goes back from 30
              against the shown packet before it
  note: packet 31: time stamp 35 skips from 33
              two or more steps: the median of the steps between shown packets,
              one for each packet
  note: packet 48: size 320x180 changes to 640x360
              against the key packet before it
  note: packet 7: hidden, never shown
              no shown packet comes before the next key packet, or the end
  100 packets, 99 frames, damage: 1, notes: 2

--check --json prints a line a finding, an object:

  vp8list in.ivf --check --json | jq 'select(.severity == \"damage\") | .packet'

--macroblocks lists what each macroblock of a packet is made of, --header the fields of its
header with their bits, by their names in RFC 6386. They take the index of a packet, as 12,
several packets, as 12-15, or all:

  vp8list in.ivf --macroblocks 12 | column -t
  vp8list in.ivf --macroblocks all | awk '$6 == \"golden\" { print $1, $2, $3 }'
  vp8list in.ivf --header 0 --json | jq .y_ac_qi

  packet, column, row
              index of the packet, position of the macroblock
  segment     0 to 3
  skip        1 if it has no tokens
  reference   intra, last, golden or altref
  luma        DC_PRED, V_PRED, H_PRED, TM_PRED or B_PRED; with a reference mv_zero,
              mv_nearest, mv_near, mv_new or mv_split
  chroma      DC_PRED, V_PRED, H_PRED or TM_PRED
  parts       the 16 modes of B_PRED, or the 16 vectors of mv_split
  split       the parts of mv_split: mv_top_bottom, mv_left_right, mv_quarters or MV_16
  vector      x:y in quarters of a sample, to the right and down
  quantizer   quantizer index in force, 0 to 127
  level       filter level in force, 0 to 63
  interior_limit, hev_threshold, mbedge_limit, sub_bedge_limit
              filter limits in force
  inner       1 if its inner edges are filtered
  blocks      a digit for each block: 1 if it has a coefficient that is not 0
  coefficients, greatest
              how many are not 0, and the greatest absolute value
  mode_bits, token_bits
              bits that its record and its tokens take

A line that begins with # has the header of a packet, or why it is refused.

Exit status: 0; 1 if --check finds damage, with --strict also a note, or if --hash meets a refused
packet; 2 for a mistake on the command line, a file that is not IVF, WebM or Matroska
with VP8, a packet that is not there and any other error.

Usage: vp8list [OPTIONS] <IN>

Arguments:
  <IN>  IVF, WebM or Matroska file; - reads standard input

Options:
      --tables <FILE>                3012 bytes to use instead of RFC 6386's long tables
      --hash                         The MD5 of each frame, as ffmpeg's framemd5
      --json                         A JSON object a packet
      --check                        Report what is wrong with the stream instead
      --strict                       With --check: a note is as bad as damage
      --macroblocks <N, A-B or all>  What each macroblock of these packets is made of
      --header <N, A-B or all>       The header fields of these packets
  -h, --help                         Print help
  -V, --version                      Print version
";

/// Checks what vp8list prints for the words of a command line that reads no file.
fn expect_list<R: Abort + NamedFiles + AllocGlobal>(rt: &R, words: &[&str], text: &str) {
    let mut output = Vec::new(rt.alloc());
    let mut errors = Vec::new(rt.alloc());
    let mut input = b"".as_slice();
    let status = {
        let mut buffered = BufWriter::new(rt.alloc(), &mut output).expect(
            rt,
            "memory for a buffer",
        );
        let parsed = parse(rt.alloc(), words);
        answer(
            rt,
            parsed,
            &mut input,
            &mut buffered,
            &mut errors,
            &mut Unwatched {},
        )
    };
    assert!(rt; status == 0 && errors.is_empty(), "status of vp8list");
    assert!(rt; output.as_slice() == text.as_bytes(), "text of vp8list");
}

#[test]
fn shows_help(rt: HostRuntime) {
    expect(&rt, "vp8serve --help", "frame 0\n", HELP, "", 0);
    expect(&rt, "vp8serve -h", "frame 0\n", HELP, "", 0);
}

#[test]
fn shows_its_version(rt: HostRuntime) {
    expect(
        &rt,
        "vp8serve --version",
        "frame 0\n",
        "vp8serve 0.16.0\n",
        "",
        0,
    );
    expect(&rt, "vp8serve -V", "frame 0\n", "vp8serve 0.16.0\n", "", 0);
}

#[test]
fn shows_help_of_the_list(rt: HostRuntime) {
    expect_list(&rt, &["vp8list", "--help"], LIST_HELP);
    expect_list(&rt, &["vp8list", "-h"], LIST_HELP);
}

#[test]
fn shows_the_version_of_the_list(rt: HostRuntime) {
    expect_list(&rt, &["vp8list", "--version"], "vp8list 0.16.0\n");
    expect_list(&rt, &["vp8list", "-V"], "vp8list 0.16.0\n");
}
