//! Several sources: `use`, `copy`, the script node `source K`, and one cache for all of them.

use crate::edits::{expect_edit, expect_refused};
use frame_header::Cause;
use frame_session::{Edit, Refusal, RunFault, Session};
use std::alloc::Global;
use std::process::Abort;
use std::test::Fail;
use stream_files::ivf_read;
use stream_sources::StreamFault;
use test_fixtures::{INTER, KEY, Ran, WIDE_KEY, ivf_of, run_sources, y4m_of};
use vp8_tables::Tables;

const LINE: &[u8] = b"YUV4MPEG2 W16 H16 F30:1 Ip C420jpeg\n";

/// The samples of the key packet's frame.
const KEY_FRAME: &[(usize, u8)] = &[(64, 0x80), (192, 0x81), (128, 0x80)];

const GREY: &[(usize, u8)] = &[(384, 0x80)];

/// Runs requests over two sources of these packets.
fn run_two(
    alloc: Global,
    capacity: u16,
    first: &[&[u8]],
    second: &[&[u8]],
    requests: &[u8],
) -> Result<Ran, Fail> {
    let first = ivf_of(alloc, first)?;
    let second = ivf_of(alloc, second)?;
    Ok(run_sources(
        alloc,
        capacity,
        &[first.as_slice(), second.as_slice()],
        requests,
    ))
}

// Packets are copied between two sources, and a script splices them.
#[test]
fn edits_and_scripts_over_two_sources(rt: HostRuntime) -> Result<(), Fail> {
    let requests =
        b"use 1\ncopy 0 1 1\ncopy 1 0 2\nscript source 1; splice 0 1\ncount\nframe 3\nstats\ndelete 0\nframe 2\nframe 3\nstats\nuse 2\ncopy 2 0 0\ncopy 0 2 0\nscript source 2\n";
    let ran = run_two(rt.alloc(), 8, &[KEY, INTER], &[KEY], requests)?;
    assert_eq!(rt;
        ran.replies.as_slice(),
        b"ok 1\nok 2\nok 3\nok 3\npackets 3 frames 5\nserved 3\ndecoded 2\nok 2\nrefused source 1 packet 0 NoKeyFrame\nserved 3\ndecoded 4\nrefused Source\nrefused Source\nrefused Place\nrefused Reference\n".as_slice()
    );
    let want = y4m_of(rt.alloc(), LINE, &[GREY, KEY_FRAME])?;
    assert_eq!(rt; ran.frames.as_slice(), want.as_slice());
    Ok(())
}

// The second packets have the same id and other bytes, and both are cached.
#[test]
fn each_frame_is_of_its_own_source(rt: HostRuntime) -> Result<(), Fail> {
    let requests =
        b"script source 1; splice 0 1\nframe 1\nframe 3\nframe 1\nframe 3\nstats\ndelete 1\nframe 2\nstats\n";
    let want = y4m_of(
        rt.alloc(),
        LINE,
        &[GREY, KEY_FRAME, GREY, KEY_FRAME, KEY_FRAME],
    )?;
    let ran = run_two(rt.alloc(), 8, &[KEY, INTER], &[KEY, KEY], requests)?;
    assert_eq!(rt;
        ran.replies.as_slice(),
        b"ok 2\nserved 1\nserved 3\nserved 1\nserved 3\ndecoded 3\nok 1\nserved 2\ndecoded 3\n".as_slice()
    );
    assert_eq!(rt; ran.frames.as_slice(), want.as_slice());
    let ran = run_two(rt.alloc(), 1, &[KEY, INTER], &[KEY, KEY], requests)?;
    assert_eq!(rt;
        ran.replies.as_slice(),
        b"ok 2\nserved 1\nserved 3\nserved 1\nserved 3\ndecoded 6\nok 1\nserved 2\ndecoded 6\n".as_slice()
    );
    assert_eq!(rt; ran.frames.as_slice(), want.as_slice());
    Ok(())
}

// A copy within a source is of the packet before the insertion, and a source that does not exist
// changes nothing.
#[test]
fn copies_and_choices(rt: HostRuntime) -> Result<(), Fail> {
    let requests =
        b"copy 0 1 0\nframe 0\nframe 1\ndelete 0\nuse 1\nuse 2\ncount\ncopy 1 1 0\ncopy 0 0 2\n";
    let ran = run_two(rt.alloc(), 8, &[KEY, INTER], &[KEY], requests)?;
    assert_eq!(rt;
        ran.replies.as_slice(),
        b"ok 3\nrefused packet 0 NoKeyFrame\nserved 1\nok 2\nok 1\nrefused Source\npackets 1 frames 2\nrefused Place\nrefused Place\n".as_slice()
    );
    Ok(())
}

// The first frame served fixes the size for all sources.
#[test]
fn sources_of_two_sizes(rt: HostRuntime) -> Result<(), Fail> {
    let requests = b"script source 1; splice 0 1\nframe 0\nframe 1\nscript source 1\nframe 0\n";
    let ran = run_two(rt.alloc(), 8, &[KEY], &[WIDE_KEY], requests)?;
    assert_eq!(rt;
        ran.replies.as_slice(),
        b"ok 1\nserved 0\nrefused SizeDiffers\nok 1\nrefused SizeDiffers\n".as_slice()
    );
    Ok(())
}

// The first source with an error is named, and the trailing bytes of all sources are counted.
#[test]
fn files_of_sources(rt: HostRuntime) -> Result<(), Fail> {
    let alloc = rt.alloc();
    let mut file = ivf_of(alloc, &[KEY])?;
    file.extend_from_slice(&[0; 3])?;
    let sources: &[&[u8]] = &[file.as_slice(), file.as_slice()];
    assert_eq!(rt; run_sources(alloc, 8, sources, b"").spare, Ok(6));
    let sources: &[&[u8]] = &[file.as_slice(), b"RIFF", file.as_slice(), b"RIFF"];
    let ran = run_sources(alloc, 8, sources, b"count\n");
    let fault = StreamFault::Header;
    assert_eq!(rt; ran.spare, Err(RunFault::Source { source: 1, fault }));
    assert!(rt; ran.replies.is_empty());
    Ok(())
}

/// A session over two files of one key packet.
fn session_of_two(alloc: Global) -> Result<Session, Fail> {
    let text = ivf_of(alloc, &[KEY])?;
    let first = ivf_read(alloc, text.as_slice())?;
    let second = ivf_read(alloc, text.as_slice())?;
    let files = vec![in alloc; first, second]?;
    Ok(Session::new(alloc, Tables::flat(), 4096, files)?)
}

// The calls of a session by themselves, with ample memory.
#[test]
fn a_session_has_sources(rt: HostRuntime) -> Result<(), Fail> {
    let mut session = session_of_two(rt.alloc())?;
    expect_copied(&rt, &mut session);
    expect_spliced(&rt, rt.alloc(), &mut session)
}

fn expect_copied<R: Abort>(rt: &R, session: &mut Session) {
    assert!(rt; session.choose(2) == Err(Refusal::Source));
    assert!(rt; session.choose(1) == Ok(1));
    let copy = Edit::Copy {
        source: 0,
        from: 0,
        at: 1,
    };
    expect_edit(rt, session, copy, Ok(2), (2, 1));
    expect_edit(rt, session, Edit::Delete { at: 0 }, Ok(1), (1, 1));
    expect_edit(rt, session, Edit::Delete { at: 0 }, Ok(0), (0, 1));
}

fn expect_spliced<R: Abort>(rt: &R, alloc: Global, session: &mut Session) -> Result<(), Fail> {
    assert!(rt; session.set_script(b"source 1; splice 0 1") == Ok(0));
    let refused = Err(Refusal::Size);
    expect_edit(rt, session, Edit::Hold { at: 0 }, refused, (0, 1));
    let bytes = stream_files::Bytes::from_slice(alloc, INTER)?;
    let insert = Edit::Insert {
        at: 0,
        stamp: 0,
        bytes,
    };
    expect_edit(rt, session, insert, Ok(1), (1, 2));
    let broken = Refusal::Packet {
        source: 1,
        place: 0,
        cause: Cause::NoKeyFrame,
    };
    expect_refused(rt, session, 1, broken);
    assert!(rt; session.frame(0).is_ok());
    Ok(())
}
