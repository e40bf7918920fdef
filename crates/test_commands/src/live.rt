// Tests of requests that are answered as they come.
use crate::expected::{check, clear, expect, expect_from, put, run_line};
use command_lines::NamedFiles;
use output_files::SavedFiles;
use std::alloc::{AllocError, Global};
use std::cell::Cell;
use std::io::{self, ErrorKind, Read, Write};
use std::process::Abort;
use std::test::Fail;
use stream_files::EMPTY;

/// A writer of replies that counts the lines that are flushed.
#[derive(Drop)]
struct Replies<'a> {
    bytes: Vec<u8>,
    flushed: &'a Cell<usize>,
}

impl Write for Replies<'_> {
    fn write(&mut self, buf: &[u8]) -> io::Result<usize> {
        self.bytes.extend_from_slice(buf)?;
        Ok(buf.len())
    }

    fn flush(&mut self) -> io::Result<()> {
        let lines = self.bytes.iter().filter(|byte| **byte == b'\n').count();
        self.flushed.set(lines);
        Ok(())
    }
}

/// A reader that gives each line in a read of its own, and only after the replies to all lines before it were flushed. Otherwise, where a
/// pipe would wait forever, it returns an error.
#[derive(Drop)]
struct Requests<'a> {
    lines: &'a [&'a str],
    given: usize,
    flushed: &'a Cell<usize>,
}

impl Read for Requests<'_> {
    fn read(&mut self, buf: &mut [u8]) -> io::Result<usize> {
        if self.given >= self.lines.len() {
            return Ok(0);
        }
        if self.flushed.get() < self.given {
            return Err(ErrorKind::WouldBlock.into());
        }
        let line = self.lines[self.given].as_bytes();
        let count = line.len().min(buf.len());
        buf[..count].copy_from_slice(&line[..count]);
        self.given += 1;
        Ok(count)
    }
}

#[test]
fn answers_a_line_before_the_next_is_read(rt: HostRuntime) {
    let lines = [
        "blank 0 16 16\n",
        "frame 0\n",
        "play\r\n",
        "hold 1\n",
        "count",
    ];
    let flushed = Cell::new(0);
    let mut requests = Requests {
        lines: &lines,
        given: 0,
        flushed: &flushed,
    };
    let mut replies = Replies {
        bytes: Vec::new(rt.alloc()),
        flushed: &flushed,
    };
    let mut errors = Vec::new(rt.alloc());
    let status = run_line(
        &rt,
        "vp8serve --live",
        &mut requests,
        &mut replies,
        &mut errors,
    );
    let want = "ok 1\nserved 0\nrefused Line\nok 2\npackets 2 frames 2\n";
    assert!(rt; replies.bytes.as_slice() == want.as_bytes());
    assert!(rt; status == 0 && errors.is_empty());
    assert!(rt; flushed.get() == 5);
}

/// A reader that gives each piece in a read of its own, and then ends, or fails.
#[derive(Drop)]
pub struct Pieces<'a> {
    pub pieces: &'a [&'a str],
    pub fails: bool,
}

impl Read for Pieces<'_> {
    fn read(&mut self, buf: &mut [u8]) -> io::Result<usize> {
        let [piece, rest @ ..] = self.pieces else {
            return if self.fails {
                Err(ErrorKind::Other.into())
            } else {
                Ok(0)
            };
        };
        let count = piece.len().min(buf.len());
        buf[..count].copy_from_slice(&piece.as_bytes()[..count]);
        self.pieces = rest;
        Ok(count)
    }
}

/// A reader that gives one byte a read.
#[derive(Drop)]
struct Bytewise<'a> {
    rest: &'a [u8],
}

impl Read for Bytewise<'_> {
    fn read(&mut self, buf: &mut [u8]) -> io::Result<usize> {
        let [byte, rest @ ..] = self.rest else {
            return Ok(0);
        };
        if buf.is_empty() {
            return Ok(0);
        }
        buf[0] = *byte;
        self.rest = rest;
        Ok(1)
    }
}

/// Requests that any split into reads leaves the same, and their replies: a carriage return is dropped before a
/// newline, and kept in the last line, which has none.
const LINES: &str = "blank 0 16 16\r\n\n# none\nframe 0\r\n\rcount\nhold 1\r\ncount\r";

const ANSWERS: &str = "ok 1\nserved 0\nrefused Line\nok 2\nrefused Line\n";

/// Answers the requests in pieces, the last of which is followed by the end.
fn expect_pieces<R: Abort + NamedFiles + SavedFiles + AllocGlobal>(rt: &R, pieces: &[&str]) {
    let mut input = Pieces {
        pieces,
        fails: false,
    };
    expect_from(rt, "vp8serve --live", &mut input, ANSWERS, "", 0);
}

#[test]
fn joins_lines_that_span_reads(rt: HostRuntime) {
    expect_pieces(&rt, &[LINES]);
    let few = [
        "blank 0 16 16\r",
        "\n\n# none\nfr",
        "ame 0\r\n\rcount\nhold 1\r\ncount\r",
    ];
    expect_pieces(&rt, &few);
    let many = [
        "blank 0 ",
        "16 16",
        "\r",
        "\n",
        "\n#",
        " none\n",
        "frame 0\r",
        "\n\r",
        "count\nhold 1\r\n",
        "count",
        "\r",
    ];
    expect_pieces(&rt, &many);
    let mut bytes = Bytewise {
        rest: LINES.as_bytes(),
    };
    expect_from(&rt, "vp8serve --live", &mut bytes, ANSWERS, "", 0);
}

/// A reader that gives each line in a read of its own, and is interrupted before each read.
#[derive(Drop)]
struct Interrupted<'a> {
    lines: &'a [&'a str],
    was_interrupted: bool,
}

impl Read for Interrupted<'_> {
    fn read(&mut self, buf: &mut [u8]) -> io::Result<usize> {
        self.was_interrupted = !self.was_interrupted;
        if self.was_interrupted {
            return Err(ErrorKind::Interrupted.into());
        }
        let [line, rest @ ..] = self.lines else {
            return Ok(0);
        };
        let count = line.len().min(buf.len());
        buf[..count].copy_from_slice(&line.as_bytes()[..count]);
        self.lines = rest;
        Ok(count)
    }
}

/// A read that a signal interrupts is made again.
#[test]
fn reads_again_after_an_interruption(rt: HostRuntime) {
    let mut input = Interrupted {
        lines: &["blank 0 16 16\n", "frame", " 0\nhold 1\n", "count"],
        was_interrupted: false,
    };
    let replies = "ok 1\nserved 0\nok 2\npackets 2 frames 2\n";
    expect_from(&rt, "vp8serve --live", &mut input, replies, "", 0);
}

/// A number of lines, and of bytes of a line, that no counter of 16 bits has.
const MANY: usize = 70_000;

/// A text some number of times.
fn repeated(alloc: Global, text: &[u8], times: usize) -> Result<Vec<u8>, AllocError> {
    let mut all = Vec::new(alloc);
    for _ in 0..times {
        all.extend_from_slice(text)?;
    }
    Ok(all)
}

/// Answers requests that one read after another gives one byte of, and returns the replies.
fn replies_to<R: Abort + NamedFiles + SavedFiles + AllocGlobal>(
    rt: &R,
    requests: &[u8],
) -> Vec<u8> {
    let mut input = Bytewise { rest: requests };
    let mut replies = Vec::new(rt.alloc());
    let mut errors = Vec::new(rt.alloc());
    let status = run_line(rt, "vp8serve --live", &mut input, &mut replies, &mut errors);
    assert!(rt; errors.is_empty() && status == 0);
    replies
}

#[test]
fn answers_many_lines(rt: HostRuntime) -> Result<(), Fail> {
    let requests = repeated(rt.alloc(), b"stats\n", MANY)?;
    let want = repeated(rt.alloc(), b"decoded 0\n", MANY)?;
    let replies = replies_to(&rt, requests.as_slice());
    assert!(rt; replies.as_slice() == want.as_slice());
    Ok(())
}

/// The spaces before a word come in as many reads as there are.
#[test]
fn answers_a_line_of_many_reads(rt: HostRuntime) -> Result<(), Fail> {
    let mut requests = repeated(rt.alloc(), b" ", MANY)?;
    requests.extend_from_slice(b"stats\n")?;
    let replies = replies_to(&rt, requests.as_slice());
    assert!(rt; replies.as_slice() == b"decoded 0\n".as_slice());
    Ok(())
}

/// The lines before a read error are answered, the line that it cuts off is not, and nothing is saved.
#[test]
fn tells_a_reader_that_fails(rt: HostRuntime) {
    put(&rt, "cut.ivf", b"old");
    let mut input = Pieces {
        pieces: &["blank 0 16 16\nframe", " 0\ndelete 0"],
        fails: true,
    };
    let line = "vp8serve --save cut.ivf --live";
    expect_from(
        &rt,
        line,
        &mut input,
        "ok 1\nserved 0\n",
        "vp8serve: cannot read -\n",
        1,
    );
    check(&rt, "cut.ivf", b"old");
    clear(&rt, "cut.ivf");
}

/// Requests of a file are answered as those of standard input, and then the packets are saved.
#[test]
fn answers_a_file_and_saves(rt: HostRuntime) {
    put(&rt, "lives.txt", b"frame 0\ncount");
    let mut input = b"hold 0\n".as_slice();
    let line = "vp8serve - lives.txt lives.y4m --live --save lives.ivf";
    expect_from(
        &rt,
        line,
        &mut input,
        "refused NoSuchFrame\npackets 0 frames 0\n",
        "",
        0,
    );
    assert!(rt; input.len() == 7);
    check(&rt, "lives.ivf", &EMPTY);
    check(&rt, "lives.y4m", b"");
    let line = "vp8serve - none.txt lives.y4m --live";
    expect(
        &rt,
        line,
        "hold 0\n",
        "",
        "vp8serve: cannot read none.txt\n",
        1,
    );
    clear(&rt, "lives.txt lives.y4m lives.ivf");
}
