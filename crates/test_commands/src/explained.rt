// Refusals and errors that are explained.
use crate::expected::{ONE, clear, expect, expect_from, put, run_line};
use crate::live::Pieces;
use command_lines::{MessageWriter, NamedFiles};
use output_files::SavedFiles;
use serve_program::name_explain;
use std::io::Write;
use std::process::Abort;

/// Requests that are refused, and their replies and explanations. Lines 7 and 8 have no reply.
const REQUESTS: &str = "\
play\r\nframe\nframe x\nframe 1 2\ninsert 0 0 zz\ninsert 0 0 abc\n\n# none\ndelete 18446744073709551616\nframe 0\ninsert 0 0 1100\nframe 0\nreplace 0 1000009D01\nframe 0\nuse 1\ndelete 7\nblank 0 0 16\nscript x\nscript\ncount 1";

const REPLIES: &str = "\
refused Line\nrefused Line\nrefused Line\nrefused Line\nrefused Line\nrefused Line\nrefused Line\nrefused NoSuchFrame\nok 1\nrefused packet 0 ShortPacket\nok 1\nrefused packet 0 ShortPacket\nrefused Source\nrefused Place\nrefused Size\nrefused Syntax\nscript -\nrefused Line\n";

const EXPLANATIONS: &str = "\
line 1: play: there is no such request
line 2: frame: a word is missing
line 3: frame: x is not a number below 2^64
line 4: frame: 2 is one word too many
line 5: insert: zz is not hexadecimal
line 6: insert: abc has an odd number of digits
line 9: delete: 18446744073709551616 is not a number below 2^64
line 10: frame: frame 0 does not exist: the script serves 0 frames
line 12: frame: packet 0 has 2 bytes, a tag needs 3
line 14: frame: packet 0 has 5 bytes, a key frame needs 10
line 15: use: there is no such source
line 16: delete: packet 7 does not exist: source 0 has 1 packets
line 17: blank: width 0 is not 1 to 16383
line 18: script: node 1: x is not source, trim, splice, crop, fade or parts
line 20: count: 1 is one word too many
";

#[test]
fn explains_refusals(rt: HostRuntime) {
    expect(
        &rt,
        "vp8serve --explain",
        REQUESTS,
        REPLIES,
        EXPLANATIONS,
        0,
    );
    expect(
        &rt,
        "vp8serve --explain --live",
        REQUESTS,
        REPLIES,
        EXPLANATIONS,
        0,
    );
    expect(&rt, "vp8serve", REQUESTS, REPLIES, "", 0);
}

/// A byte of a word that is not printable is shown by its two digits.
#[test]
fn shows_words(rt: HostRuntime) {
    let requests =
        "frame 0\r\nframe 0\r\r\nframe 01234567890123456789012345678901234567890\nframe 0\r";
    let replies = "refused NoSuchFrame\nrefused Line\nrefused Line\nrefused Line\n";
    let told = "\
line 1: frame: frame 0 does not exist: the script serves 0 frames
line 2: frame: 0\\x0D is not a number below 2^64
line 3: frame: 01234567890123456789012345678901234567890 is not a number below 2^64
line 4: frame: 0\\x0D is not a number below 2^64
";
    expect(&rt, "vp8serve --explain", requests, replies, told, 0);
}

/// Requests that are refused for an index, a size or a number of a frame. Packet 0 of line 14 has a key tag and no size.
const OUTSIDE: &str = "\
blank 0 64 48\nhold 1\nframe 0\ninsert 9 0 -\nreplace 5 -\nmove 7 0\nmove 0 2\ncopy 1 0 0\ncopy 0 0 9\nhold 3\nblank 0 16384 1\nblank 0 16 0\nhold 0\ninsert 0 0 100000\nhold 1\ndelete 0\nblank 2 16 16\nframe 2\nscript crop 0 0 0 8 6\nframe 2\nframe 3\nuse 1\ndelete 0\nblank 1 16 16\n";

const OUTSIDE_REPLIES: &str = "\
ok 1\nok 2\nserved 0\nrefused Place\nrefused Place\nrefused Place\nrefused Place\nrefused Place\nrefused Place\nrefused Place\nrefused Size\nrefused Size\nrefused Size\nok 3\nrefused Size\nok 2\nok 3\nrefused SizeDiffers\nok 3\nrefused SizeDiffers\nrefused NoSuchFrame\nok 0\nrefused Place\nrefused Place\n";

const OUTSIDE_TOLD: &str = "\
line 4: insert: index 9 is past the end: source 0 has 2 packets
line 5: replace: packet 5 does not exist: source 0 has 2 packets
line 6: move: packet 7 does not exist: source 0 has 2 packets
line 7: move: packet 2 does not exist: source 0 has 2 packets
line 8: copy: packet 0 does not exist: source 1 has 0 packets
line 9: copy: index 9 is past the end: source 0 has 2 packets
line 10: hold: index 3 is past the end: source 0 has 2 packets
line 11: blank: width 16384 is not 1 to 16383
line 12: blank: height 0 is not 1 to 16383
line 13: hold: before 0 no packet has a key tag, so there is no size
line 15: hold: packet 0, the last one with a key tag before 1, has no size
line 18: frame: 16x16 is not 64x48, the size of the first frame served
line 20: frame: 8x6 is not 64x48, the size of the first frame served
line 21: frame: frame 3 does not exist: the script serves 3 frames
line 23: delete: packet 0 does not exist: source 1 has 0 packets
line 24: blank: index 1 is past the end: source 1 has 0 packets
";

#[test]
fn names_numbers(rt: HostRuntime) {
    expect(
        &rt,
        "vp8serve --explain --sources -",
        OUTSIDE,
        OUTSIDE_REPLIES,
        OUTSIDE_TOLD,
        0,
    );
}

/// Packets that are asked for or hidden, and do not exist or have no show bit.
#[test]
fn explains_questions_and_show_bits(rt: HostRuntime) {
    let requests =
        "insert 0 0 -\ninsert 1 0 1100\nhide 0\nshow 1\nhide 2\npacket 2\nuse 1\npacket 0\nscript\npacket\n";
    let replies =
        "ok 1\nok 2\nrefused NoBit\nrefused NoBit\nrefused Place\nrefused Place\nok 0\nrefused Place\nscript -\nrefused Line\n";
    let told = "\
line 3: hide: the packet has no bytes: delete it instead, which changes no other frame
line 4: show: the packet has 2 bytes, a show bit needs 3
line 5: hide: packet 2 does not exist: source 0 has 2 packets
line 6: packet: packet 2 does not exist: source 0 has 2 packets
line 8: packet: packet 0 does not exist: source 1 has 0 packets
line 10: packet: a word is missing
";
    let line = "vp8serve --explain --sources -";
    expect(&rt, line, requests, replies, told, 0);
    let line = "vp8serve --explain --live --sources -";
    expect(&rt, line, requests, replies, told, 0);
}

/// The first node that is wrong, its number and its form.
#[test]
fn names_nodes(rt: HostRuntime) {
    let requests = "\
script trm 0 0 5\nscript trim 0 0\nscript trim 0 0 5; fade 1 0\nscript source 0 1\nscript splice 0 12345678901\nscript crop 0 x 0 8 8\nscript trim 0 0 5;\nscript trim\t0 0 5\n";
    let replies = "\
refused Syntax\nrefused Syntax\nrefused Syntax\nrefused Syntax\nrefused Syntax\nrefused Syntax\nrefused Syntax\nrefused Syntax\n";
    let told = "\
line 1: script: node 1: trm is not source, trim, splice, crop, fade or parts
line 2: script: node 1: a word is missing: trim A FIRST COUNT
line 3: script: node 2: a word is missing: fade A FIRST COUNT FROM TO
line 4: script: node 1: 1 is one word too many: source S
line 5: script: node 1: 12345678901 is not a number of 1 to 10 digits: splice A B
line 6: script: node 1: x is not a number of 1 to 10 digits: crop A X Y W H
line 7: script: node 2: the node is empty
line 8: script: the line has a tab: use spaces
";
    expect(&rt, "vp8serve --explain", requests, replies, told, 0);
}

/// Bytes that an editor does not show.
#[test]
fn names_hidden_bytes(rt: HostRuntime) {
    let requests =
        "\u{feff}frame 0\nframe\t0\nframe\u{a0}0\nframe 0\t\n\tframe 0\ncount \u{a0}\u{e9}\n";
    let replies =
        "refused Line\nrefused Line\nrefused Line\nrefused Line\nrefused Line\nrefused Line\n";
    let told = "\
line 1: \\xEF\\xBB\\xBFframe: the line begins with a byte order mark, EF BB BF: leave it out
line 2: frame\\x090: the line has a tab: use spaces
line 3: frame\\xC2\\xA00: the line has a no-break space, C2 A0: use spaces
line 4: frame: the line has a tab: use spaces
line 5: \\x09frame: the line has a tab: use spaces
line 6: count: the line has a no-break space, C2 A0: use spaces
";
    expect(&rt, "vp8serve --explain", requests, replies, told, 0);
}

/// Of a list that is no text ten lines are explained, and other refusals after them.
#[test]
fn explains_ten_lines_that_are_no_text(rt: HostRuntime) {
    let requests =
        "play\n\u{1}\nplay\n\u{1b}[A\n\u{1}\n\u{1}\n\u{1}\n\u{1}\n\u{1}\n\u{1}\n\u{1}\n\u{1}\nplay\nuse 1\n";
    let replies = "\
refused Line\nrefused Line\nrefused Line\nrefused Line\nrefused Line\nrefused Line\nrefused Line\nrefused Line\nrefused Line\nrefused Line\nrefused Line\nrefused Line\nrefused Line\nrefused Source\n";
    let told = "\
line 1: play: there is no such request
the requests are not text: IN is the first argument, REQUESTS the second
line 2: \\x01: the line is not text
line 3: play: there is no such request
line 4: \\x1B[A: the line is not text
line 5: \\x01: the line is not text
line 6: \\x01: the line is not text
line 7: \\x01: the line is not text
line 8: \\x01: the line is not text
line 9: \\x01: the line is not text
line 10: \\x01: the line is not text
line 11: \\x01: the line is not text
line 14: use: there is no such source
";
    expect(&rt, "vp8serve --explain", requests, replies, told, 0);
}

/// 200 characters of a word are shown.
#[test]
fn cuts_long_words(rt: HostRuntime) {
    let requests = "\
xxxxxxxxxxxxxxxxxxxxxxxxxxxxxxxxxxxxxxxxxxxxxxxxxxxxxxxxxxxxxxxxxxxxxxxxxxxxxxxxxxxxxxxxxxxxxxxxxxxxxxxxxxxxxxxxxxxxxxxxxxxxxxxxxxxxxxxxxxxxxxxxxxxxxxxxxxxxxxxxxxxxxxxxxxxxxxxxxxxxxxxxxxxxxxxxxxxxxxxx
xxxxxxxxxxxxxxxxxxxxxxxxxxxxxxxxxxxxxxxxxxxxxxxxxxxxxxxxxxxxxxxxxxxxxxxxxxxxxxxxxxxxxxxxxxxxxxxxxxxxxxxxxxxxxxxxxxxxxxxxxxxxxxxxxxxxxxxxxxxxxxxxxxxxxxxxxxxxxxxxxxxxxxxxxxxxxxxxxxxxxxxxxxxxxxxxxxxxxxxxyy
";
    let told = "\
line 1: xxxxxxxxxxxxxxxxxxxxxxxxxxxxxxxxxxxxxxxxxxxxxxxxxxxxxxxxxxxxxxxxxxxxxxxxxxxxxxxxxxxxxxxxxxxxxxxxxxxxxxxxxxxxxxxxxxxxxxxxxxxxxxxxxxxxxxxxxxxxxxxxxxxxxxxxxxxxxxxxxxxxxxxxxxxxxxxxxxxxxxxxxxxxxxxxxxxxxxxx: there is no such request
line 2: xxxxxxxxxxxxxxxxxxxxxxxxxxxxxxxxxxxxxxxxxxxxxxxxxxxxxxxxxxxxxxxxxxxxxxxxxxxxxxxxxxxxxxxxxxxxxxxxxxxxxxxxxxxxxxxxxxxxxxxxxxxxxxxxxxxxxxxxxxxxxxxxxxxxxxxxxxxxxxxxxxxxxxxxxxxxxxxxxxxxxxxxxxxxxxxxxxxxxxxx...: there is no such request
";
    let replies = "refused Line\nrefused Line\n";
    expect(&rt, "vp8serve --explain", requests, replies, told, 0);
}

/// Edits of a source that is not saved are named at the end, if packets are saved.
#[test]
fn names_edits_that_are_not_saved(rt: HostRuntime) {
    let requests = "use 2\nblank 0 16 16\nuse 1\ndelete 0\n";
    let replies = "ok 0\nok 1\nok 0\nrefused Place\n";
    let refused = "line 4: delete: packet 0 does not exist: source 1 has 0 packets\n";
    let told = "\
line 4: delete: packet 0 does not exist: source 1 has 0 packets
the edits of source 2 are not saved: --save writes source 0
";
    let line = "vp8serve --explain --sources -:-";
    expect(&rt, line, requests, replies, refused, 0);
    let line = "vp8serve --explain --sources -:- --save unsaved-edits.ivf";
    expect(&rt, line, requests, replies, told, 0);
    let line = "vp8serve --sources -:- --save unsaved-edits.ivf --live";
    expect(&rt, line, requests, replies, "", 0);
    clear(&rt, "unsaved-edits.ivf");
}

/// Checks what a user at a terminal is told after a run.
fn expect_named<R: Abort + AllocGlobal>(rt: &R, words: &[&str], status: u8, want: &str) {
    let mut told = Vec::new(rt.alloc());
    let named = name_explain(words, status, &mut told);
    assert!(rt; named.is_ok() && told.as_slice() == want.as_bytes());
}

/// `--explain` is named after an error, if it was not given.
#[test]
fn names_explain(rt: HostRuntime) {
    let told = "with --explain the next line says why, and what to do\n";
    expect_named(&rt, &["vp8serve", "--pad"], 2, told);
    expect_named(&rt, &["vp8serve", "no.ivf"], 1, told);
    expect_named(&rt, &["vp8serve", "--help"], 0, "");
    expect_named(&rt, &["vp8serve", "--fail-refused"], 3, "");
    expect_named(&rt, &["vp8serve", "--pad", "--explain"], 2, "");
}

/// Control characters of a message are written as `?`, newlines and other characters as they are.
#[test]
fn hides_control_characters(rt: HostRuntime) {
    let mut told = Vec::new(rt.alloc());
    let mut messages = MessageWriter::new(&mut told);
    let text = "a\u{1b}c\u{7}\n\u{9b}1m \u{e9}\t\u{7f}\n";
    assert!(rt; messages.write_all(text.as_bytes()).is_ok() && messages.flush().is_ok());
    assert!(rt; told.as_slice() == "a?c?\n?1m \u{e9}??\n".as_bytes());
}

#[test]
fn names_the_line_that_was_not_answered(rt: HostRuntime) {
    let mut input = Pieces {
        pieces: &["count\n\nstats\nframe", " 0"],
        fails: true,
    };
    let replies = "packets 0 frames 0\ndecoded 0\n";
    let told =
        "vp8serve: cannot read -\nline 4 was not answered: reading it failed; lines 1 to 3 were, and nothing is saved\n";
    expect_from(
        &rt,
        "vp8serve --live --explain",
        &mut input,
        replies,
        told,
        1,
    );
    expect_cut_off(
        &rt,
        &["stats\nhold"],
        "decoded 0\n",
        "line 2 was not answered: reading it failed; line 1 was, and nothing is saved\n",
    );
    expect_cut_off(
        &rt,
        &["hold"],
        "",
        "line 1 was not answered: reading it failed; nothing is saved\n",
    );
}

/// Checks the explanation of a run whose reader fails after some pieces.
fn expect_cut_off<R: Abort + NamedFiles + SavedFiles + AllocGlobal>(
    rt: &R,
    pieces: &[&str],
    replies: &str,
    told: &str,
) {
    let mut input = Pieces {
        pieces,
        fails: true,
    };
    let mut output = Vec::new(rt.alloc());
    let mut errors = Vec::new(rt.alloc());
    let status = run_line(
        rt,
        "vp8serve --live --explain",
        &mut input,
        &mut output,
        &mut errors,
    );
    assert!(rt; status == 1 && output.as_slice() == replies.as_bytes());
    assert!(rt; errors.strip_prefix(b"vp8serve: cannot read -\n") == Some(told.as_bytes()));
}

/// Checks the message of an error and the line after it.
fn expect_end<R: Abort + NamedFiles + SavedFiles + AllocGlobal>(
    rt: &R,
    line: &str,
    told: &str,
    status: u8,
) {
    expect(rt, line, "", "", told, status);
}

#[test]
fn explains_files(rt: HostRuntime) {
    put(&rt, "a.webm", b"\x1A\x45\xDF\xA3 a Matroska file");
    put(
        &rt,
        "b.webm",
        b"\x1A\x45\xDF\xA3 a Matroska file with more than 32 bytes",
    );
    put(
        &rt,
        "c.ivf",
        b"DKIF\0\0\x20\0VP90\x10\0\x10\0\x1E\0\0\0\x01\0\0\0\0\0\0\0\0\0\0\0",
    );
    expect_end(
        &rt,
        "vp8serve a.webm --explain",
        "vp8serve: input Header\na.webm begins as a WebM file, but its EBML header is cut off or damaged\n",
        1,
    );
    expect_end(
        &rt,
        "vp8serve --explain --sources -:b.webm",
        "vp8serve: source 2 Header\nb.webm begins as a WebM file, but its EBML header is cut off or damaged\n",
        1,
    );
    expect_end(
        &rt,
        "vp8serve c.ivf --explain",
        "vp8serve: input FourCc\nc.ivf has the codec VP90, not VP80, and has to be coded again, which changes each frame: ffmpeg -i c.ivf -an -c:v libvpx out.ivf\n",
        1,
    );
    expect_end(
        &rt,
        "vp8serve --explain --tables c.ivf",
        "vp8serve: tables are not 3012 bytes\nc.ivf has 32 bytes\n",
        1,
    );
    expect_end(
        &rt,
        "vp8serve /dev/null --explain",
        "vp8serve: input Header\n/dev/null is a pipe or a device and is not read again: copy it to a file, and try that\n",
        1,
    );
    expect_end(
        &rt,
        "vp8serve --tables /dev/null --explain",
        "vp8serve: tables are not 3012 bytes\n/dev/null is a pipe or a device and is not read again: copy it to a file, and try that\n",
        1,
    );
    clear(&rt, "a.webm b.webm c.ivf");
}

/// Checks the reason for which a file is not read.
fn expect_kind<R: Abort + NamedFiles + SavedFiles + AllocGlobal>(
    rt: &R,
    line: &str,
    name: &str,
    bytes: &[u8],
    told: &str,
) {
    put(rt, name, bytes);
    expect_end(rt, line, told, 1);
    clear(rt, name);
}

/// Files of other kinds.
#[test]
fn explains_kinds_of_files(rt: HostRuntime) {
    expect_kind(
        &rt,
        "vp8serve d.avi --explain",
        "d.avi",
        b"RIFF\x24\xA3\0\0AVI LIST and so on, 32 bytes and more",
        "vp8serve: input Magic\nd.avi is an AVI file; if its video is VP8: ffmpeg -i d.avi -an -c copy out.ivf\nany other video has to be coded again, which changes each frame: ffmpeg -i d.avi -an -c:v libvpx out.ivf\n",
    );
    expect_kind(
        &rt,
        "vp8serve e.ivf.gz --explain",
        "e.ivf.gz",
        b"\x1F\x8B\x08\0\0",
        "vp8serve: input Header\ne.ivf.gz is compressed by gzip: gzip -dc e.ivf.gz > out.ivf\n",
    );
    expect_kind(
        &rt,
        "vp8serve f.ivf --explain",
        "f.ivf",
        &[0; 64],
        "vp8serve: input Magic\nf.ivf begins with zeros: its first bytes, where an IVF file says DKIF, are lost or were never written\n",
    );
    expect_kind(
        &rt,
        "vp8serve g.txt --explain",
        "g.txt",
        b"frame 0\nframe 1\n",
        "vp8serve: input Header\ng.txt begins as a text: IN, the IVF file, is the first argument, REQUESTS the second\n",
    );
    expect_kind(
        &rt,
        "vp8serve h.mp4 --explain",
        "h.mp4",
        b"\0\0\0\x20ftypisom\0\0\x02\0isomiso2avc1mp41 and more",
        "vp8serve: input Magic\nh.mp4 is an MP4 file; if its video is VP8: ffmpeg -i h.mp4 -an -c copy out.ivf\nany other video has to be coded again, which changes each frame: ffmpeg -i h.mp4 -an -c:v libvpx out.ivf\n",
    );
    expect_kind(
        &rt,
        "vp8serve k.y4m --explain",
        "k.y4m",
        b"YUV4MPEG2 W2 H2 F30:1 C420jpeg\nFRAME\n\0\0\0\0\0\0",
        "vp8serve: input Magic\nk.y4m is a YUV4MPEG2 file, whose frames are not coded: ffmpeg -i k.y4m -c:v libvpx out.ivf\n",
    );
    expect_kind(
        &rt,
        "vp8serve l.ogg --explain",
        "l.ogg",
        b"OggS\0\x02\0\0 and so on, with 32 bytes and more",
        "vp8serve: input Magic\nl.ogg is not an IVF file, it does not begin with DKIF; if its video is VP8: ffmpeg -i l.ogg -an -c copy out.ivf\nany other video has to be coded again, which changes each frame: ffmpeg -i l.ogg -an -c:v libvpx out.ivf\n",
    );
    expect_kind(
        &rt,
        "vp8serve i.ivf --explain",
        "i.ivf",
        b"",
        "vp8serve: input Header\ni.ivf has 0 bytes, an IVF header 32\n",
    );
}

#[test]
fn explains_paths(rt: HostRuntime) {
    put(&rt, "cut-off.ivf", &ONE[..51]);
    expect_end(
        &rt,
        "vp8serve cut-off.ivf --explain",
        "spare 19\ncut-off.ivf: record 0 begins at byte 32 and claims 12 + 10 bytes, 19 are left\n",
        0,
    );
    expect_end(
        &rt,
        "vp8serve no.ivf --explain",
        "vp8serve: cannot read no.ivf\nno.ivf: No such file or directory (os error 2)\n",
        1,
    );
    expect_end(
        &rt,
        "vp8serve - - no/out --explain",
        "vp8serve: cannot write\nOUT no/out cannot be created: No such file or directory (os error 2)\n",
        1,
    );
    expect_end(
        &rt,
        "vp8serve --save no/out --live --explain",
        "vp8serve: cannot write\n--save no/out cannot be created: No such file or directory (os error 2)\n",
        1,
    );
    expect_end(
        &rt,
        "vp8serve --export no/out --explain",
        "vp8serve: cannot write\n--export no/out cannot be created: No such file or directory (os error 2)\n",
        1,
    );
    clear(&rt, "cut-off.ivf");
}

/// The argument parser's own text, and then where to look.
#[test]
fn explains_arguments(rt: HostRuntime) {
    expect_end(
        &rt,
        "vp8serve --pad --explain",
        "vp8serve: command line\n--pad is for the packets of --save or --export: name a file for them by --save FILE or --export FILE\n",
        2,
    );
    expect_end(
        &rt,
        "vp8serve --restamp --explain",
        "vp8serve: command line\n--restamp is for the packets of --save: name a file for them by --save FILE\n",
        2,
    );
    expect_end(
        &rt,
        "vp8serve a b c d --explain",
        "vp8serve: command line\nerror: unexpected argument 'd' found\n\nUsage: vp8serve [OPTIONS] [IN] [REQUESTS] [OUT]\n\nFor more information, try '--help'.\ntry vp8serve --help\n",
        2,
    );
    let size =
        "vp8serve: command line\n--cache-bytes takes 1 byte or more, for example 64M, 512K or 5000000: try vp8serve --help\n";
    expect_end(&rt, "vp8serve --cache-bytes 12Q --explain", size, 2);
    expect_end(&rt, "vp8serve --cache-bytes 0 --pad --explain", size, 2);
    expect_end(
        &rt,
        "vp8serve --cache 1 --cache-bytes 1M --explain",
        "vp8serve: command line\nerror: the argument '--cache <N>' cannot be used with '--cache-bytes <SIZE>'\n\nUsage: vp8serve --cache <N> --explain [IN] [REQUESTS] [OUT]\n\nFor more information, try '--help'.\ntry vp8serve --help\n",
        2,
    );
    expect_end(
        &rt,
        "vp8serve --sources a: --explain",
        "vp8serve: command line\n--sources takes 1 to 7 paths, none of them empty: try vp8serve --help\n",
        2,
    );
}
