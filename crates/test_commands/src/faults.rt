// Errors that end the program: their texts, their statuses, and which of two is reported.
use crate::expected::{Broken, ONE, check, clear, expect, expect_fault, put};
use command_lines::{NamedFiles, tell};
use frame_header::Cause;
use output_files::SavedFiles;
use serve_arguments::{Argument, Fault, Mistake, NotExported, SameFile};
use std::fs::hard_link;
use std::os::unix::fs::symlink;
use std::process::Abort;
use std::rt::Files;
use std::test::Fail;
use stream_files::EMPTY;
use stream_sources::StreamFault;

/// Checks the message of an error, and its status also where the message cannot be written.
fn expect_told<R: Abort + Files + AllocGlobal>(rt: &R, fault: Fault<'_>, status: u8, text: &str) {
    let mut errors = Vec::new(rt.alloc());
    assert!(rt; tell(fault, &mut errors) == status, "{text}");
    assert!(rt; errors.as_slice() == text.as_bytes(), "{text}");
    assert!(rt; tell(fault, &mut Broken {}) == status, "{text}");
}

#[test]
fn tells_each_fault(rt: HostRuntime) {
    let same = SameFile {
        written: Argument::Save,
        other: Argument::In,
        path: "a b",
    };
    let twice =
        "vp8serve: command line: --save and IN are both a b: name another file for --save\n";
    let among = SameFile {
        written: Argument::Out,
        other: Argument::Replies,
        path: "/dev/stdout",
    };
    expect_told(
        &rt,
        Fault::NamedTwice(among),
        2,
        "vp8serve: command line: OUT /dev/stdout is standard output, so replies would be among the frames: name /dev/fd/3 3>&1 >replies\n",
    );
    expect_told(
        &rt,
        Fault::CommandLine(Mistake::Pad),
        2,
        "vp8serve: command line\n",
    );
    expect_told(&rt, Fault::NamedTwice(same), 2, twice);
    expect_told(
        &rt,
        Fault::CannotRead("a b"),
        1,
        "vp8serve: cannot read a b\n",
    );
    expect_told(&rt, Fault::TooLong("-"), 1, "vp8serve: - is too long\n");
    expect_told(
        &rt,
        Fault::Tables,
        1,
        "vp8serve: tables are not 3012 bytes\n",
    );
    expect_told(&rt, Fault::CannotWrite, 1, "vp8serve: cannot write\n");
    expect_told(&rt, Fault::NoMemory, 1, "vp8serve: no memory\n");
    let many = Fault::Input {
        source: 0,
        fault: StreamFault::TooMany,
    };
    expect_told(&rt, many, 1, "vp8serve: input TooMany\n");
    let header = Fault::Input {
        source: 7,
        fault: StreamFault::Header,
    };
    expect_told(&rt, header, 1, "vp8serve: source 7 Header\n");
}

/// The reasons why frames are not exported.
#[test]
fn tells_what_is_not_exported(rt: HostRuntime) {
    for (why, text) in [
        (
            NotExported::Changed { frame: 12, node: 2 },
            "vp8serve: frame 12 is changed by node 2\n",
        ),
        (
            NotExported::Broken {
                frame: 7,
                source: 0,
                place: 3,
                cause: Cause::ShortPacket,
            },
            "vp8serve: frame 7 is refused: packet 3 ShortPacket\n",
        ),
        (
            NotExported::Broken {
                frame: 7,
                source: 2,
                place: 3,
                cause: Cause::ShortPacket,
            },
            "vp8serve: frame 7 is refused: source 2 packet 3 ShortPacket\n",
        ),
        (
            NotExported::CropOutside { frame: 0 },
            "vp8serve: frame 0 is refused: CropOutside\n",
        ),
        (NotExported::Full, "vp8serve: too many packets\n"),
        (
            NotExported::NoHold,
            "vp8serve: no packet repeats a frame of this size\n",
        ),
    ] {
        expect_told(&rt, Fault::NotExported(why), 1, text);
    }
}

/// Checks each line of a table: a command line, and the text of its error.
fn expect_table<R: Abort + NamedFiles + SavedFiles + AllocGlobal>(rt: &R, table: &str) {
    for case in table.lines() {
        let (line, text) = case.split_once(" => ").expect(rt, "a case");
        expect_fault(rt, line, text);
    }
}

const TWICE: &str = "\
vp8serve a b a => command line: OUT and IN are both a: name another file for OUT
vp8serve a b b => command line: OUT and REQUESTS are both b: name another file for OUT
vp8serve --tables t a b t => command line: OUT and --tables are both t: name another file for OUT
vp8serve a b --save b => command line: --save and REQUESTS are both b: name another file for --save
vp8serve a b c --save c => command line: --save and OUT are both c: name another file for --save
vp8serve a b --export b => command line: --export and REQUESTS are both b: name another file for --export
vp8serve a b c --export c => command line: --export and OUT are both c: name another file for --export
vp8serve --tables t --export t => command line: --export and --tables are both t: name another file for --export
vp8serve a b --save c --export c => command line: --export and --save are both c: name another file for --export
vp8serve --tables - --save - => command line: --save and --tables are both -: name another file for --save
vp8serve a b c --sources -:d:c => command line: OUT and --sources are both c: name another file for OUT
vp8serve a b /dev --save /dev => command line: --save and OUT are both /dev: name another file for --save
";

/// A command line that names a file to be written twice is refused before anything is read. A path under
/// `/dev/` may be named twice, and `-` is a file only for `--tables` and `--save`.
#[test]
fn refuses_files_named_twice(rt: HostRuntime) {
    expect_table(&rt, TWICE);
}

const SAME: &str = "\
vp8serve same.ivf - ./same.ivf => command line: OUT and IN are both ./same.ivf: name another file for OUT
vp8serve same.ivf - same.link => command line: OUT and IN are both same.link: name another file for OUT
vp8serve same.ivf - same.links => command line: OUT and IN are both same.links: name another file for OUT
vp8serve same.ivf - same.hard => command line: OUT and IN are both same.hard: name another file for OUT
vp8serve same.links - same.hard => command line: OUT and IN are both same.hard: name another file for OUT
vp8serve - - ./same.ivf --sources -:same.ivf => command line: OUT and --sources are both ./same.ivf: name another file for OUT
vp8serve - same.ivf ./same.ivf => command line: OUT and REQUESTS are both ./same.ivf: name another file for OUT
vp8serve - - same.link --tables same.ivf => command line: OUT and --tables are both same.link: name another file for OUT
vp8serve - same.ivf - --save same.hard => command line: --save and REQUESTS are both same.hard: name another file for --save
vp8serve - - - --save same.link --tables ./same.ivf => command line: --save and --tables are both same.link: name another file for --save
vp8serve - - same.new --save ./same.new => command line: --save and OUT are both ./same.new: name another file for --save
vp8serve - same.ivf - --export same.hard => command line: --export and REQUESTS are both same.hard: name another file for --export
vp8serve - - - --save same.link --export ./same.ivf => command line: --export and --save are both ./same.ivf: name another file for --export
vp8serve - - same.new --export ./same.new => command line: --export and OUT are both ./same.new: name another file for --export
vp8serve - - same.none --save same.new => command line: --save and OUT are both same.new: name another file for --save
";

/// Another spelling, a link, a link to a link and a second hard link of a file are that file, also if it is not there yet.
#[test]
fn refuses_other_names_of_a_file(rt: HostRuntime) {
    put(&rt, "same.ivf", ONE);
    assert!(rt; symlink(&rt, "same.ivf", "same.link").is_ok());
    assert!(rt; symlink(&rt, "same.link", "same.links").is_ok());
    assert!(rt; symlink(&rt, "same.new", "same.none").is_ok());
    assert!(rt; hard_link(&rt, "same.ivf", "same.hard").is_ok());
    expect_table(&rt, SAME);
    check(&rt, "same.ivf", ONE);
    clear(&rt, "same.ivf same.link same.links same.none same.hard");
}

#[test]
fn takes_devices_named_twice(rt: HostRuntime) {
    expect(
        &rt,
        "vp8serve - /dev/null /dev/null --save /dev/null --export /dev/null",
        "count\n",
        "",
        "",
        0,
    );
}

const ORDER: &str = "\
vp8serve a b c d => command line
vp8serve --cache => command line
vp8serve --cache 0 => command line
vp8serve --cache 4097 => command line
vp8serve --cache x --tables none => command line
vp8serve --cache 1 --cache 2 => command line
vp8serve --cache-bytes => command line
vp8serve --cache-bytes  => command line
vp8serve --cache-bytes 0 => command line
vp8serve --cache-bytes K => command line
vp8serve --cache-bytes 12Q --tables none => command line
vp8serve --cache-bytes 17179869184G => command line
vp8serve --cache-bytes 1M --cache-bytes 1M => command line
vp8serve --cache 1 --cache-bytes 1M => command line
vp8serve --save => command line
vp8serve --export => command line
vp8serve none.ivf --export a --restamp => command line
vp8serve none.ivf --pad => command line
vp8serve none.ivf --restamp => command line
vp8serve --sources => command line
vp8serve --sources a --sources b => command line
vp8serve --sources -:-:-:-:-:-:-:- => command line
vp8serve --sources  => command line
vp8serve --sources none.ivf: => command line
vp8serve --sources :none.ivf => command line
vp8serve none.ivf --sources -::- => command line
vp8serve --cache 0 none.ivf - none.ivf => command line
vp8serve none.ivf none.txt a --save a --tables none => command line: --save and OUT are both a: name another file for --save
vp8serve none.ivf --cache-bytes 1M => cannot read none.ivf
vp8serve none.ivf --tables none.bin => cannot read none.bin
vp8serve --tables - => cannot read -
vp8serve none.ivf --tables order.ivf => tables are not 3012 bytes
vp8serve none.ivf none.txt none/out => cannot read none.ivf
vp8serve order.ivf none.txt none/out => cannot read none.txt
vp8serve . - => cannot read .
vp8serve none.ivf --sources none => cannot read none.ivf
vp8serve order.ivf none.txt --sources -:none:. => cannot read none
vp8serve - none.txt --sources order.ivf => cannot read none.txt
vp8serve order.ivf --sources order.ivf => input Header
vp8serve --sources order.ivf:order.ivf => source 1 Header
vp8serve --sources -:-:-:-:-:-:order.ivf => source 7 Header
vp8serve order.ivf --cache-bytes 1M --sources order.ivf => input Header
vp8serve order.ivf - none/out => cannot write
vp8serve order.ivf - none/out --cache-bytes 1M => cannot write
";

/// Of two errors the first in order is reported: the command line, the tables, IN, the files of `--sources`,
/// the requests, the file for the frames, the run, the file for the packets.
#[test]
fn finds_faults_in_order(rt: HostRuntime) {
    put(&rt, "order.ivf", b"DKIF");
    expect_table(&rt, ORDER);
    clear(&rt, "order.ivf");
}

/// Checks the word of a header whose byte at an index is another one.
fn expect_word<R: Abort + NamedFiles + SavedFiles + AllocGlobal>(
    rt: &R,
    at: usize,
    byte: u8,
    text: &str,
) {
    let mut file = EMPTY;
    if at < file.len() {
        file[at] = byte;
    }
    put(rt, "faulty.ivf", &file);
    expect_fault(rt, "vp8serve faulty.ivf - faulty.y4m", text);
}

/// Every error in the bytes of a stream that a file can have.
#[test]
fn tells_faults_of_the_stream(rt: HostRuntime) -> Result<(), Fail> {
    expect_word(&rt, 0, b'd', "input Magic");
    expect_word(&rt, 8, b'v', "input FourCc");
    expect_word(&rt, 6, 31, "input HeaderLength");
    expect_word(&rt, 6, 33, "input HeaderLength");
    let mut file = Vec::from_slice(rt.alloc(), &EMPTY)?;
    file.resize(32 + 12 * 1_048_577, 0)?;
    put(&rt, "faulty.ivf", file.as_slice());
    expect_fault(&rt, "vp8serve faulty.ivf - faulty.y4m", "input TooMany");
    put(
        &rt,
        "faulty.ivf",
        b"no IVF file, and longer than its header",
    );
    expect_fault(&rt, "vp8serve --sources -:faulty.ivf", "source 2 Magic");
    clear(&rt, "faulty.ivf faulty.y4m");
    Ok(())
}
