// The texts of help.

/// The purpose of the program, with an example.
pub const ABOUT: &str = "\
Serves frames of a VP8 stream (IVF, WebM or Matroska) as YUV4MPEG2, while you edit
its packets.

Copy this line to see it work. It forges a grey key frame, repeats its picture
in a second packet, saves both as IVF and writes both frames:

  printf 'blank 0 64 48\\nhold 1\\nframe 0\\nframe 1\\n' | vp8serve - - out.y4m --save out.ivf

It prints the replies `ok 1`, `ok 2`, `served 0` and `served 1`.
`ffplay out.y4m` shows the frames, and `vp8serve out.ivf` reads the packets again.

To watch frames as they are served, with the replies in a file:

  vp8serve in.ivf requests /dev/fd/3 3>&1 >replies | ffplay -

To look at a frame before the next edit, answer each line as it comes:

  vp8serve in.ivf - out.y4m --save edited.ivf --live

Type `frame 0`; `served 0` comes when the frame is in out.y4m. `hold 1` repeats
it, `delete 1` removes the repeat. At the end of input (Ctrl-D) the
packets are saved. Ctrl-C ends the program and saves nothing.

If a request is refused or the program ends with an error, run it again with
--explain: a line on standard error says why, and what to do.

The files that are written, OUT and those of --save and --export, must not be
the file of another argument. Paths under /dev/ may be named twice.";

/// The lines of requests and the nodes of scripts.
pub const GRAMMAR: &str = "\
Requests, a line each; the reply goes to standard output:
  frame N               write frame N to OUT          served N
  use S                 edit source S                 ok K (K packets now)
  insert AT STAMP HEX   insert a packet               ok K
  replace AT HEX        replace a packet's bytes      ok K
  delete AT             remove a packet               ok K
  move FROM TO          remove one, insert it at TO   ok K
  copy S FROM AT        insert packet FROM of S at AT ok K
  blank AT W H          insert a grey W x H key frame ok K
  hold AT               insert a repeat of the frame  ok K
  hide N                clear packet N's show bit     ok K
  show N                set packet N's show bit       ok K
  script TEXT           edit the frames, see below    ok K
  script                                              script TEXT
  packet N                                            packet STAMP HEX
  list FIRST COUNT                                    lines K, and packets as JSON
  check FIRST COUNT                                   lines K, and findings as JSON
  origins FIRST COUNT                                 lines K, and frames as JSON
  header N                                            lines K, and fields as JSON
  macroblocks N                                       lines K, and macroblocks as JSON
  count                                               packets K frames F
  stats                                               decoded D (packets so far)
Packets, frames and sources are numbered from 0; source 0 is IN. Edits and K are
of the current source: 0 at first, then the one of the last `use`. STAMP is a
packet's time stamp, HEX its bytes as hexadecimal digits, or `-` for none. Empty
lines and lines that begin with # have no reply.
A refused edit changes nothing. The reply to a refused request gives the reason:
  refused Line | Source | Place | Full | Spent | Size | TooLarge | NoMemory
  refused NoBit             the packet has under 3 bytes  (hide, show)
  refused Syntax | Nodes | Reference | Number             (script)
  refused NoSuchFrame | CropOutside | SizeDiffers         (frame)
  refused packet J CAUSE    packet J cannot be decoded    (frame)
  refused source S packet J CAUSE    the same, S above 0  (frame)

Scripts: `-` for none, or nodes separated by `;`. Node 0 is source 0; the
others are numbered from 1, and the last one is served. A and B are earlier
nodes:
  source S                      the frames of source S
  trim A FIRST COUNT            COUNT frames of A, starting at FIRST
  splice A B                    A's frames, then B's
  parts A FIRST COUNT ..        any number of trims, one after the other
  crop A X Y W H                W x H samples from column X, row Y (both even)
  fade A FIRST COUNT FROM TO    mix with black: weight FROM/256 before FIRST,
                                TO/256 after COUNT frames, a ramp between
Example: script trim 0 0 50; fade 1 25 25 256 0";
