use frame_session::{Capacity, RunFault, Settings, Unobserved, run};
use std::alloc::{AllocError, Global};
use std::io::{self, ErrorKind, Write};
use std::process::Abort;
use std::rc::RcSlice;
use std::test::Fail;
use stream_sources::StreamFault;
use test_fixtures::{INTER, KEY, ivf_of, run_over};
use vp8_tables::Tables;

// A cut last record is dropped, and its bytes are reported as spare.
#[test]
fn a_cut_last_record(rt: HostRuntime) -> Result<(), Fail> {
    let file = ivf_of(rt.alloc(), &[KEY])?;
    let ran = run_over(
        rt.alloc(),
        &file[..file.len().saturating_sub(3)],
        b"frame 0\n",
    );
    assert_eq!(rt; ran.replies.as_slice(), b"refused NoSuchFrame\n".as_slice());
    assert_eq!(rt; ran.spare, Ok(19));
    let two = ivf_of(rt.alloc(), &[KEY, KEY])?;
    let ran = run_over(
        rt.alloc(),
        &two[..two.len().saturating_sub(1)],
        b"frame 0\nframe 1\n",
    );
    assert_eq!(rt;
        ran.replies.as_slice(),
        b"served 0\nrefused NoSuchFrame\n".as_slice()
    );
    assert_eq!(rt; ran.spare, Ok(21));
    Ok(())
}

#[test]
fn no_requests(rt: HostRuntime) -> Result<(), Fail> {
    let file = ivf_of(rt.alloc(), &[KEY])?;
    let ran = run_over(rt.alloc(), file.as_slice(), b"");
    assert!(rt; ran.frames.is_empty());
    assert!(rt; ran.replies.is_empty());
    assert_eq!(rt; ran.spare, Ok(0));
    Ok(())
}

#[test]
fn files_that_are_none(rt: HostRuntime) -> Result<(), Fail> {
    let file = ivf_of(rt.alloc(), &[KEY])?;
    let rows = [
        (0, 31, 0, StreamFault::Header),
        (0, 54, b'd', StreamFault::Magic),
        (8, 54, b'v', StreamFault::FourCc),
        (6, 54, 31, StreamFault::HeaderLength),
        (6, 54, 55, StreamFault::HeaderLength),
    ];
    for (place, length, value, fault) in rows {
        let mut changed = file.clone()?;
        changed.truncate(length);
        if length == 54 && place < changed.len() {
            changed[place] = value;
        }
        let ran = run_over(rt.alloc(), changed.as_slice(), b"frame 0\n");
        assert_eq!(rt; ran.spare, Err(RunFault::Source { source: 0, fault }));
        assert!(rt; ran.replies.is_empty());
    }
    Ok(())
}

// A run whose packets share the bytes of their file writes what one does whose packets are copies.
#[test]
fn shared_bytes(rt: HostRuntime) -> Result<(), Fail> {
    let requests = b"frame 1\ndelete 0\ncount\nframe 0\n";
    let file = ivf_of(rt.alloc(), &[KEY, INTER, KEY])?;
    let copied = run_over(rt.alloc(), file.as_slice(), requests);
    let settings = Settings {
        tables: Tables::flat(),
        capacity: Capacity::of_states(8),
    };
    let mut frames = Vec::new(rt.alloc());
    let mut replies = Vec::new(rt.alloc());
    let ran = frame_session::run_over(
        rt.alloc(),
        settings,
        &[RcSlice::from_vec(file)?],
        requests,
        &mut frames,
        &mut replies,
        &mut Unobserved {},
    );
    assert!(rt; ran.is_ok());
    assert_eq!(rt; frames.len(), 36 + 390);
    assert!(rt; frames == copied.frames);
    assert_eq!(rt;
        replies.as_slice(),
        b"served 1\nok 2\npackets 2 frames 2\nrefused packet 0 NoKeyFrame\n".as_slice()
    );
    Ok(())
}

/// A writer that takes what it is given, but returns an error at one of its calls.
#[derive(Drop)]
pub(crate) struct Refusing {
    /// How many calls are before the one that returns an error.
    failing: u64,
    pub(crate) calls: u64,
    pub(crate) taken: Vec<u8>,
}

impl Refusing {
    pub(crate) fn at(alloc: Global, failing: u64) -> Refusing {
        Refusing {
            failing,
            calls: 0,
            taken: Vec::new(alloc),
        }
    }
}

impl Write for Refusing {
    fn write(&mut self, buf: &[u8]) -> io::Result<usize> {
        let before = self.calls;
        self.calls = self.calls.saturating_add(1);
        if before == self.failing {
            return Err(ErrorKind::BrokenPipe.into());
        }
        match self.taken.extend_from_slice(buf) {
            Ok(()) => Ok(buf.len()),
            Err(_) => Err(ErrorKind::OutOfMemory.into()),
        }
    }

    fn flush(&mut self) -> io::Result<()> {
        Ok(())
    }
}

/// More calls than any writer here gets.
pub(crate) const NEVER: u64 = u64::MAX;

/// A run of two frames and a count. Its error, and what its writers have.
fn run_refused(
    alloc: Global,
    frames: u64,
    replies: u64,
) -> Result<(Option<RunFault>, Refusing, Refusing), AllocError> {
    let file = ivf_of(alloc, &[KEY, INTER])?;
    let mut frames = Refusing::at(alloc, frames);
    let mut replies = Refusing::at(alloc, replies);
    let ran = run(
        alloc,
        Tables::flat(),
        8,
        &[file.as_slice()],
        b"frame 0\ncount\nframe 1\n",
        &mut frames,
        &mut replies,
    );
    Ok((ran.err(), frames, replies))
}

/// Checks what a whole run writes.
fn expect_whole<R: Abort>(rt: &R, frames: &Refusing, replies: &Refusing) {
    assert_eq!(rt; frames.taken.len(), 36 + 2 * 390);
    assert_eq!(rt;
        replies.taken.as_slice(),
        b"served 0\npackets 2 frames 2\nserved 1\n".as_slice()
    );
}

/// Checks that a run whose writers return errors at these calls writes the beginnings of these texts.
fn expect_refused<R: Abort>(
    rt: &R,
    alloc: Global,
    failing: (u64, u64),
    frames: &Refusing,
    replies: &Refusing,
) -> Result<(), Fail> {
    let (fault, begun, replied) = run_refused(alloc, failing.0, failing.1)?;
    assert!(rt; fault == Some(RunFault::Write), "{failing:?}");
    assert!(rt;
        frames.taken.starts_with(begun.taken.as_slice()),
        "{failing:?}"
    );
    assert!(rt;
        replies.taken.starts_with(replied.taken.as_slice()),
        "{failing:?}"
    );
    Ok(())
}

/// Refuses each call of a writer of frames, and then of replies, in turn.
fn expect_each_refused<R: Abort>(
    rt: &R,
    alloc: Global,
    frames: &Refusing,
    replies: &Refusing,
) -> Result<(), Fail> {
    for failing in 0..frames.calls {
        expect_refused(rt, alloc, (failing, NEVER), frames, replies)?;
    }
    for failing in 0..replies.calls {
        expect_refused(rt, alloc, (NEVER, failing), frames, replies)?;
    }
    Ok(())
}

// Each call of a writer of frames, and of replies, refused in turn. What was written before is the
// beginning of what a whole run writes.
#[test]
fn writers_that_refuse(rt: HostRuntime) -> Result<(), Fail> {
    let (fault, frames, replies) = run_refused(rt.alloc(), NEVER, NEVER)?;
    assert!(rt; fault.is_none());
    expect_whole(&rt, &frames, &replies);
    expect_each_refused(&rt, rt.alloc(), &frames, &replies)
}
