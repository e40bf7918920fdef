// Runs the program, and compares what it leaves.
use command_lines::NamedFiles;
use output_files::SavedFiles;
use serve_program::{parse, serve};
use std::alloc::AllocError;
use std::fs;
use std::io::{self, BufWriter, ErrorKind, Read, Write};
use std::process::Abort;
use std::rt::Files;

/// A file of one 16x16 key frame whose bits are 0.
pub const ONE: &[u8] =
    b"DKIF\0\0\x20\0VP80\x10\0\x10\0\x1E\0\0\0\x01\0\0\0\x01\0\0\0\0\0\0\0\x0A\0\0\0\0\0\0\0\0\0\0\0\x10\0\0\x9D\x01\x2A\x10\0\x10\0";

/// A file of no packets: the header of `ONE`, with the number 0.
pub const NONE: &[u8] = b"DKIF\0\0\x20\0VP80\x10\0\x10\0\x1E\0\0\0\x01\0\0\0\0\0\0\0\0\0\0\0";

/// A file of one 16x16 key frame whose residual depends on the token probabilities.
pub const CODED: &[u8] =
    b"DKIF\0\0\x20\0VP80\x10\0\x10\0\x1E\0\0\0\x01\0\0\0\x01\0\0\0\0\0\0\0\x12\0\0\0\0\0\0\0\0\0\0\0\x10\0\0\x9D\x01\x2A\x10\0\x10\0\xA7\x31\xC4\x5E\x92\x0B\xD8\x6F";

/// The line that opens the frames of these files.
pub const OPENING: &[u8] = b"YUV4MPEG2 W16 H16 F30:1 Ip C420jpeg\n";

/// Appends the text of the frame of `ONE`.
pub fn push_frame(frames: &mut Vec<u8>) -> Result<(), AllocError> {
    frames.extend_from_slice(b"FRAME\n")?;
    frames.extend_from_slice(&[0x80; 64])?;
    frames.extend_from_slice(&[0x81; 192])?;
    frames.extend_from_slice(&[0x80; 128])
}

/// Runs the program on a command line, whose words single spaces separate, and checks its replies, its messages and its exit status.
pub fn expect<R: Abort + NamedFiles + SavedFiles + AllocGlobal>(
    rt: &R,
    line: &str,
    requests: &str,
    replies: &str,
    errors: &str,
    status: u8,
) {
    expect_from(rt, line, &mut requests.as_bytes(), replies, errors, status);
}

/// Runs the program with the requests of a reader, and checks its replies, its messages and its exit status.
pub fn expect_from<R: Abort + NamedFiles + SavedFiles + AllocGlobal, I: Read>(
    rt: &R,
    line: &str,
    requests: &mut I,
    replies: &str,
    errors: &str,
    status: u8,
) {
    let mut output = Vec::new(rt.alloc());
    let mut told = Vec::new(rt.alloc());
    let ended = run_line(rt, line, requests, &mut output, &mut told);
    assert!(rt;
        output.as_slice() == replies.as_bytes(),
        "replies of {line}"
    );
    assert!(rt; told.as_slice() == errors.as_bytes(), "messages of {line}");
    assert!(rt; ended == status, "status of {line}");
}

/// Runs the program on a command line, and returns its exit status.
pub fn run_line<R: Abort + NamedFiles + SavedFiles + AllocGlobal, I: Read, O: Write, E: Write>(
    rt: &R,
    line: &str,
    requests: &mut I,
    output: &mut O,
    errors: &mut E,
) -> u8 {
    let words: Result<Vec<&str>, AllocError> = line.split(' ').collect(rt.alloc());
    let words = words.expect(rt, "memory for the words");
    run_words(rt, words.as_slice(), requests, output, errors)
}

/// Runs the program on the words of a command line, with a buffer before `output`, and returns its exit status.
fn run_words<R: Abort + NamedFiles + SavedFiles + AllocGlobal, I: Read, O: Write, E: Write>(
    rt: &R,
    words: &[&str],
    requests: &mut I,
    output: &mut O,
    errors: &mut E,
) -> u8 {
    let mut output = BufWriter::new(rt.alloc(), output).expect(rt, "memory for a buffer");
    let parsed = parse(rt.alloc(), words);
    serve(rt, words, parsed, requests, &mut output, errors)
}

/// Checks that a command line is refused with this text, before any request is answered, and the same with `--live`.
pub fn expect_fault<R: Abort + NamedFiles + SavedFiles + AllocGlobal>(
    rt: &R,
    line: &str,
    text: &str,
) {
    let words: Result<Vec<&str>, AllocError> = line.split(' ').collect(rt.alloc());
    let mut words = words.expect(rt, "memory for the words");
    expect_refused(rt, words.as_slice(), text);
    words.insert(1, "--live").expect(rt, "memory for a word");
    expect_refused(rt, words.as_slice(), text);
}

/// Checks that the words of a command line are refused with this text.
fn expect_refused<R: Abort + NamedFiles + SavedFiles + AllocGlobal>(
    rt: &R,
    words: &[&str],
    text: &str,
) {
    let mut output = Vec::new(rt.alloc());
    let mut told = Vec::new(rt.alloc());
    let mut requests = b"frame 0\n".as_slice();
    let ended = run_words(rt, words, &mut requests, &mut output, &mut told);
    let status = if text.starts_with("command line") {
        2
    } else {
        1
    };
    assert!(rt; is_told(told.as_slice(), text), "{text}");
    assert!(rt; ended == status, "status at {text}");
    assert!(rt; output.is_empty(), "replies at {text}");
}

/// Whether a message has this text after the program's name.
fn is_told(told: &[u8], text: &str) -> bool {
    match told.strip_prefix(b"vp8serve: ") {
        Some(rest) => rest.strip_suffix(b"\n") == Some(text.as_bytes()),
        None => false,
    }
}

/// Makes a file.
pub fn put<R: Abort + Files + AllocGlobal>(rt: &R, name: &str, bytes: &[u8]) {
    assert!(rt; fs::write(rt, name, bytes).is_ok(), "{name}");
}

/// Checks the bytes of a file.
pub fn check<R: Abort + Files + AllocGlobal>(rt: &R, name: &str, want: &[u8]) {
    let bytes = fs::read(rt, name).expect(rt, "a file");
    assert!(rt; bytes.as_slice() == want, "{name}");
}

/// Removes files, whose names single spaces separate.
pub fn clear<R: Abort + Files + AllocGlobal>(rt: &R, names: &str) {
    for name in names.split(' ') {
        assert!(rt; fs::remove_file(rt, name).is_ok(), "{name}");
    }
}

/// A reader and a writer that only return errors.
#[derive(Drop)]
pub struct Broken {}

impl Read for Broken {
    fn read(&mut self, _buf: &mut [u8]) -> io::Result<usize> {
        Err(ErrorKind::Other.into())
    }
}

impl Write for Broken {
    fn write(&mut self, _buf: &[u8]) -> io::Result<usize> {
        Err(ErrorKind::Other.into())
    }

    fn flush(&mut self) -> io::Result<()> {
        Err(ErrorKind::Other.into())
    }
}
