use crate::expected::expect_run;
use frame_header::Cause;
use frame_session::{Edit, Refusal, Session};
use std::alloc::Global;
use std::process::Abort;
use std::test::Fail;
use stream_files::{Bytes, EMPTY, ivf_read};
use test_fixtures::{HIDDEN, INTER, KEY, Run, WIDE_KEY, ivf_of, run_over, run_packets};
use vp8_tables::Tables;

#[test]
fn a_bad_packet_goes(rt: HostRuntime) -> Result<(), Fail> {
    expect_run(&rt, rt.alloc(), &BAD_PACKET_GOES)
}

const BAD_PACKET_GOES: Run = Run {
    packets: &[KEY, &[0x11, 0], KEY],
    requests: b"frame 1\nframe 2\ndelete 1\nframe 1\n",
    replies: b"refused packet 1 ShortPacket\nserved 2\nok 2\nserved 1\n",
    frames: None,
};

#[test]
fn the_first_size_stays(rt: HostRuntime) -> Result<(), Fail> {
    expect_run(&rt, rt.alloc(), &THE_FIRST_SIZE_STAYS)
}

const THE_FIRST_SIZE_STAYS: Run = Run {
    packets: &[KEY, WIDE_KEY],
    requests: b"frame 0\nmove 1 0\nframe 0\nframe 1\n",
    replies: b"served 0\nok 2\nrefused SizeDiffers\nserved 1\n",
    frames: None,
};

/// Whether a text is `decoded D` and a newline, with a number D.
fn tells_steps(text: &[u8]) -> bool {
    let Some(number) = text.strip_prefix(b"decoded ") else {
        return false;
    };
    let Some(digits) = number.strip_suffix(b"\n") else {
        return false;
    };
    !digits.is_empty() && digits.iter().all(|digit| digit.is_ascii_digit())
}

#[test]
fn from_nothing(rt: HostRuntime) -> Result<(), Fail> {
    let requests =
        b"insert 0 0 -\nframe 0\nreplace 0 1000009D012A10001000\nframe 0\ndelete 1\nstats\n";
    let ran = run_over(rt.alloc(), &EMPTY, requests);
    let before = b"ok 1\nrefused packet 0 NoKeyFrame\nok 1\nserved 0\nrefused Place\n";
    let stats = ran.replies.as_slice().strip_prefix(before);
    assert!(rt; stats.is_some_and(tells_steps), "at {:?}", ran.replies);
    Ok(())
}

#[test]
fn lines_that_are_refused(rt: HostRuntime) -> Result<(), Fail> {
    let requests = b"insert 1 0 -\ninsert 0 0 1\nreplace 0 -\ndelete 0\nmove 0 0\ncount\n";
    let ran = run_over(rt.alloc(), &EMPTY, requests);
    assert_eq!(rt;
        ran.replies.as_slice(),
        b"refused Place\nrefused Line\nrefused Place\nrefused Place\nrefused Place\npackets 0 frames 0\n".as_slice()
    );
    let requests =
        b"insert 0 0 0g\ninsert 0 18446744073709551616 -\ndelete 0 0\ncount 0\nstats 0\nmove 0\ncount\n";
    let ran = run_packets(rt.alloc(), &[KEY], requests)?;
    assert_eq!(rt;
        ran.replies.as_slice(),
        b"refused Line\nrefused Line\nrefused Line\nrefused Line\nrefused Line\nrefused Line\npackets 1 frames 1\n".as_slice()
    );
    Ok(())
}

#[test]
fn hidden_packets_are_no_frames(rt: HostRuntime) -> Result<(), Fail> {
    expect_run(&rt, rt.alloc(), &HIDDEN_PACKETS_ARE_NO_FRAMES)
}

const HIDDEN_PACKETS_ARE_NO_FRAMES: Run = Run {
    packets: &[KEY, HIDDEN, INTER],
    requests: b"count\nframe 2\ninsert 1 0 -\ncount\ninsert 0 9 010000\ncount\n",
    replies: b"packets 3 frames 2\nrefused NoSuchFrame\nok 4\npackets 4 frames 3\nok 5\npackets 5 frames 3\n",
    frames: None,
};

// Each index of a move, seen by the sizes and the causes of the frames.
#[test]
fn packets_that_are_moved(rt: HostRuntime) -> Result<(), Fail> {
    expect_run(&rt, rt.alloc(), &PACKETS_THAT_ARE_MOVED)
}

const PACKETS_THAT_ARE_MOVED: Run = Run {
    packets: &[KEY, &[0x11, 0], WIDE_KEY],
    requests: b"frame 0\nmove 0 2\nframe 0\nframe 1\nframe 2\nmove 2 1\nframe 0\nframe 1\nframe 2\nmove 1 1\nframe 1\n",
    replies: b"served 0\nok 3\nrefused packet 0 ShortPacket\nrefused SizeDiffers\nserved 2\nok 3\nrefused packet 0 ShortPacket\nserved 1\nrefused SizeDiffers\nok 3\nserved 1\n",
    frames: None,
};

// Hexadecimal digits of either case are the packet's bytes.
#[test]
fn bytes_that_are_written(rt: HostRuntime) -> Result<(), Fail> {
    let requests =
        b"insert 0 7 1000009d012A10001000\n  replace   0  1000009D012a20001000 \nframe 0\n";
    let ran = run_over(rt.alloc(), &EMPTY, requests);
    assert_eq!(rt;
        ran.replies.as_slice(),
        b"ok 1\nok 1\nserved 0\n".as_slice()
    );
    assert!(rt;
        ran.frames
            .starts_with(b"YUV4MPEG2 W32 H16 F30:1 Ip C420jpeg\nFRAME\n")
    );
    assert_eq!(rt; ran.frames.len(), 42 + 768);
    Ok(())
}

/// A session over a file of these packets.
pub(crate) fn session_of(alloc: Global, packets: &[&[u8]]) -> Result<Session, Fail> {
    let text = ivf_of(alloc, packets)?;
    let file = ivf_read(alloc, text.as_slice())?;
    let files = vec![in alloc; file]?;
    Ok(Session::new(alloc, Tables::flat(), 4096, files)?)
}

/// Makes an edit, which is answered so, and leaves so many packets and frames.
pub(crate) fn expect_edit<R: Abort>(
    rt: &R,
    session: &mut Session,
    edit: Edit,
    answer: Result<u64, Refusal>,
    left: (u64, u64),
) {
    assert!(rt; session.edit(edit) == answer, "{answer:?}");
    assert!(rt; session.count() == left, "{left:?}");
}

/// Asks for a frame that is refused.
pub(crate) fn expect_refused<R: Abort>(rt: &R, session: &mut Session, n: u64, refusal: Refusal) {
    assert!(rt; session.frame(n).err() == Some(refusal), "{refusal:?}");
}

// The calls of a session by themselves, with ample memory.
#[test]
fn a_session_is_edited(rt: HostRuntime) -> Result<(), Fail> {
    let mut session = session_of(rt.alloc(), &[KEY])?;
    assert_eq!(rt; (session.count(), session.decoded()), ((1, 1), 0));
    expect_inserted(&rt, rt.alloc(), &mut session)?;
    expect_broken(&rt, rt.alloc(), &mut session)?;
    expect_moved(&rt, &mut session);
    Ok(())
}

fn expect_inserted<R: Abort>(rt: &R, alloc: Global, session: &mut Session) -> Result<(), Fail> {
    let bytes = Bytes::from_slice(alloc, HIDDEN)?;
    let insert = Edit::Insert {
        at: 1,
        stamp: 3,
        bytes,
    };
    expect_edit(rt, session, insert, Ok(2), (2, 1));
    Ok(())
}

fn expect_broken<R: Abort>(rt: &R, alloc: Global, session: &mut Session) -> Result<(), Fail> {
    let bytes = Bytes::from_slice(alloc, &[0x11, 0])?;
    expect_edit(rt, session, Edit::Replace { at: 0, bytes }, Ok(2), (2, 1));
    let broken = Refusal::Packet {
        source: 0,
        place: 0,
        cause: Cause::ShortPacket,
    };
    expect_refused(rt, session, 0, broken);
    assert!(rt; session.decoded() == 1);
    Ok(())
}

fn expect_moved<R: Abort>(rt: &R, session: &mut Session) {
    expect_edit(rt, session, Edit::Move { from: 0, to: 1 }, Ok(2), (2, 1));
    let refused = Err(Refusal::Place);
    expect_edit(rt, session, Edit::Delete { at: 2 }, refused, (2, 1));
    expect_edit(rt, session, Edit::Delete { at: 1 }, Ok(1), (1, 0));
    expect_refused(rt, session, 0, Refusal::NoSuchFrame);
    assert!(rt; session.decoded() == 1);
}
