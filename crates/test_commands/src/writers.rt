// Readers and writers that fail.
use crate::expected::{Broken, ONE, OPENING, run_line};
use command_lines::NamedFiles;
use frame_session::{Capacity, LiveFault, Settings, Unobserved, run_live_over};
use output_files::SavedFiles;
use serve_program::{Fault, Over, run_to};
use std::cell::Cell;
use std::io::{self, BufWriter, Read, Write};
use std::process::Abort;
use std::rt::Files;
use std::test::Fail;
use stream_files::EMPTY;
use vp8_tables::Tables;

/// Checks the message of a run whose replies go to this writer.
fn expect_failing<R: Abort + NamedFiles + SavedFiles + AllocGlobal, I: Read, O: Write>(
    rt: &R,
    line: &str,
    requests: &mut I,
    replies: &mut O,
    text: &str,
) {
    let mut errors = Vec::new(rt.alloc());
    let status = run_line(rt, line, requests, replies, &mut errors);
    assert!(rt; errors.as_slice() == text.as_bytes(), "{line}");
    assert!(rt; status == 1, "{line}");
}

#[test]
fn tells_a_reader_and_writers_that_fail(rt: HostRuntime) {
    let unwritten = "vp8serve: cannot write\n";
    expect_failing(
        &rt,
        "vp8serve",
        &mut Broken {},
        &mut Broken {},
        "vp8serve: cannot read -\n",
    );
    expect_failing(
        &rt,
        "vp8serve -",
        &mut b"frame 0\n".as_slice(),
        &mut Broken {},
        unwritten,
    );
    expect_failing(
        &rt,
        "vp8serve --help",
        &mut b"".as_slice(),
        &mut Broken {},
        unwritten,
    );
}

/// The error of a run over the file of one frame, whose frame 0 is served.
fn fault_of<R: Abort + Files + AllocGlobal, F: Write, P: Write>(
    rt: &R,
    frames: &mut F,
    replies: &mut P,
) -> Option<Fault<'static>> {
    let settings = Settings {
        tables: Tables::rfc(),
        capacity: Capacity::of_states(1),
    };
    let nobody = &mut Unobserved {};
    let over = Over {
        settings,
        sources: &[ONE],
    };
    run_to(rt.alloc(), over, b"frame 0\n", frames, replies, nobody).err()
}

/// An error that a buffered writer meets only when it is flushed is reported.
#[test]
fn flushes_its_writers(rt: HostRuntime) -> Result<(), Fail> {
    let mut taken = Vec::new(rt.alloc());
    let mut frames = BufWriter::new(rt.alloc(), Broken {})?;
    let no_frames = fault_of(&rt, &mut frames, &mut taken);
    assert!(rt; no_frames == Some(Fault::CannotWrite));
    let mut replies = BufWriter::new(rt.alloc(), Broken {})?;
    let no_replies = fault_of(&rt, &mut taken, &mut replies);
    assert!(rt; no_replies == Some(Fault::CannotWrite));
    let mut output = BufWriter::new(rt.alloc(), Broken {})?;
    expect_failing(
        &rt,
        "vp8serve",
        &mut b"count\n".as_slice(),
        &mut output,
        "vp8serve: cannot write\n",
    );
    Ok(())
}

/// No line is read after one whose answer a writer refuses, and no reply comes before its frame.
#[test]
fn stops_at_a_writer_that_fails(rt: HostRuntime) {
    let settings = Settings {
        tables: Tables::rfc(),
        capacity: Capacity::of_states(1),
    };
    let mut requests = b"blank 0 16 16\nframe 0\ncount\n".as_slice();
    let mut replies = Vec::new(rt.alloc());
    let run = run_live_over(
        rt.alloc(),
        settings,
        &[EMPTY.as_slice()],
        &mut requests,
        &mut Broken {},
        &mut replies,
        &mut Unobserved {},
    );
    assert!(rt; run.err() == Some(LiveFault::Write));
    assert!(rt; replies.as_slice() == b"ok 1\n".as_slice());
    assert!(rt; requests == b"count\n".as_slice());
}

/// A writer that counts the bytes that it took.
#[derive(Drop)]
struct Counted<'a> {
    taken: &'a Cell<usize>,
}

impl Write for Counted<'_> {
    fn write(&mut self, buf: &[u8]) -> io::Result<usize> {
        self.taken.set(self.taken.get().saturating_add(buf.len()));
        Ok(buf.len())
    }

    fn flush(&mut self) -> io::Result<()> {
        Ok(())
    }
}

/// After a run the frames leave their buffer before the replies leave theirs.
#[test]
fn flushes_frames_before_replies(rt: HostRuntime) -> Result<(), Fail> {
    let taken = Cell::new(0);
    let mut frames = BufWriter::new(rt.alloc(), Broken {})?;
    let mut replies = BufWriter::new(rt.alloc(), Counted { taken: &taken })?;
    let unwritten = fault_of(&rt, &mut frames, &mut replies);
    assert!(rt; unwritten == Some(Fault::CannotWrite));
    assert!(rt; taken.get() == 0);
    Ok(())
}

/// A writer of replies. At each flush it notes how many bytes of frames have left their buffer.
#[derive(Drop)]
struct Noting<'a> {
    frames: &'a Cell<usize>,
    noted: &'a Cell<usize>,
    is_begun: bool,
}

impl Write for Noting<'_> {
    fn write(&mut self, buf: &[u8]) -> io::Result<usize> {
        if !self.is_begun {
            self.noted.set(self.frames.get());
        }
        self.is_begun = true;
        Ok(buf.len())
    }

    fn flush(&mut self) -> io::Result<()> {
        self.is_begun = false;
        Ok(())
    }
}

/// In a live run the bytes of a frame have left a buffered writer when its reply begins.
#[test]
fn flushes_a_frame_before_its_reply(rt: HostRuntime) -> Result<(), Fail> {
    let taken = Cell::new(0);
    let noted = Cell::new(0);
    let mut frames = BufWriter::with_capacity(rt.alloc(), 65_536, Counted { taken: &taken })?;
    let mut replies = Noting {
        frames: &taken,
        noted: &noted,
        is_begun: false,
    };
    let settings = Settings {
        tables: Tables::rfc(),
        capacity: Capacity::of_states(1),
    };
    let run = run_live_over(
        rt.alloc(),
        settings,
        &[ONE],
        &mut b"frame 0\nframe 0\n".as_slice(),
        &mut frames,
        &mut replies,
        &mut Unobserved {},
    );
    assert!(rt; run.is_ok());
    assert!(rt; noted.get() == OPENING.len() + 2 * 390);
    Ok(())
}
