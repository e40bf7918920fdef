//! Forged packets and saving in a session.

use crate::expected::expect_run;
use crate::files::{NEVER, Refusing};
use frame_session::{Edit, Refusal, RunFault, Session, run};
use std::alloc::Global;
use std::process::Abort;
use std::test::Fail;
use stream_files::{EMPTY, Packet, Stream, WriteFault, ivf_read};
use test_fixtures::{HIDDEN, INTER, KEY, Ran, Run, ivf_of, run_over, run_packets, y4m_of};
use vp8_tables::Tables;

const LINE: &[u8] = b"YUV4MPEG2 W16 H16 F30:1 Ip C420jpeg\n";

/// The samples of the key packet's frame.
const KEY_FRAME: &[(usize, u8)] = &[(64, 0x80), (192, 0x81), (128, 0x80)];

const GREY: &[(usize, u8)] = &[(384, 0x80)];

/// The session after a run over this file.
fn session_after(alloc: Global, file: &[u8], requests: &[u8]) -> Result<Session, RunFault> {
    let mut frames = Vec::new(alloc);
    let mut replies = Vec::new(alloc);
    run(
        alloc,
        Tables::flat(),
        8,
        &[file],
        requests,
        &mut frames,
        &mut replies,
    )
}

/// The packets after a run over this file, saved.
fn saved_by(alloc: Global, file: &[u8], requests: &[u8]) -> Result<Vec<u8>, Fail> {
    let session = session_after(alloc, file, requests)?;
    let mut saved = Vec::new(alloc);
    session.save(&mut saved)?;
    Ok(saved)
}

/// A file of the one key packet.
const ONE: [u8; 54] = [
    b'D', b'K', b'I', b'F', 0, 0, 32, 0, b'V', b'P', b'8', b'0', 16, 0, 16, 0, 30, 0, 0, 0, 1, 0,
    0, 0, 1, 0, 0, 0, 0, 0, 0, 0, //
    10, 0, 0, 0, 0, 0, 0, 0, 0, 0, 0, 0, //
    0x10, 0, 0, 0x9D, 0x01, 0x2A, 16, 0, 16, 0,
];

#[test]
fn a_session_saves_its_file(rt: HostRuntime) -> Result<(), Fail> {
    let saved = saved_by(rt.alloc(), &ONE, b"frame 0\n")?;
    assert_eq!(rt; saved.as_slice(), ONE.as_slice());
    let saved = saved_by(rt.alloc(), &EMPTY, b"")?;
    assert_eq!(rt; saved.as_slice(), EMPTY.as_slice());
    Ok(())
}

#[test]
fn a_hold_shows_the_last_frame(rt: HostRuntime) -> Result<(), Fail> {
    expect_run(&rt, rt.alloc(), &HOLD_SHOWS_THE_LAST_FRAME)
}

const HOLD_SHOWS_THE_LAST_FRAME: Run = Run {
    packets: &[KEY],
    requests: b"hold 1\nframe 1\n",
    replies: b"ok 2\nserved 1\n",
    frames: Some((LINE, &[KEY_FRAME])),
};

#[test]
fn a_blank_frame_is_grey(rt: HostRuntime) -> Result<(), Fail> {
    expect_run(&rt, rt.alloc(), &BLANK_FRAME_IS_GREY)
}

const BLANK_FRAME_IS_GREY: Run = Run {
    packets: &[KEY],
    requests: b"blank 1 16 16\nframe 1\nblank 3 0 0\nblank 0 0 16\ncount\n",
    replies: b"ok 2\nserved 1\nrefused Place\nrefused Size\npackets 2 frames 2\n",
    frames: Some((LINE, &[GREY])),
};

#[test]
fn a_stream_from_nothing(rt: HostRuntime) -> Result<(), Fail> {
    let requests = b"blank 0 16 16\nhold 1\ncount\nframe 1\nstats\ndelete 5\nframe 9\nhold 0\n";
    let ran = run_over(rt.alloc(), &EMPTY, requests);
    assert_eq!(rt;
        ran.replies.as_slice(),
        b"ok 1\nok 2\npackets 2 frames 2\nserved 1\ndecoded 2\nrefused Place\nrefused NoSuchFrame\nrefused Size\n".as_slice()
    );
    let want = y4m_of(rt.alloc(), LINE, &[GREY])?;
    assert_eq!(rt; ran.frames.as_slice(), want.as_slice());
    Ok(())
}

/// Checks that a packet is another one with a byte 00 more, and has its time stamp.
fn expect_longer<R: Abort + AllocGlobal>(
    rt: &R,
    packet: &Packet,
    longer: &Packet,
) -> Result<(), Fail> {
    let mut want = Vec::from_slice(rt.alloc(), packet.bytes.as_slice())?;
    want.push(0)?;
    assert_eq!(rt; longer.bytes.as_slice(), want.as_slice());
    assert_eq!(rt; longer.stamp, packet.stamp);
    Ok(())
}

/// Checks that packets are those of another file, each with a byte 00 more, and have their time stamps.
fn check_padded<R: Abort + AllocGlobal>(
    rt: &R,
    plain: &[Packet],
    padded: &[Packet],
) -> Result<(), Fail> {
    assert_eq!(rt; padded.len(), plain.len());
    for (packet, longer) in plain.iter().zip(padded) {
        expect_longer(rt, packet, longer)?;
    }
    Ok(())
}

/// The packets of a session, saved and read.
fn plain_file(alloc: Global, session: &Session) -> Result<Stream, Fail> {
    let mut plain = Vec::new(alloc);
    session.save(&mut plain)?;
    Ok(ivf_read(alloc, plain.as_slice())?)
}

/// The same, saved padded.
fn padded_file(alloc: Global, session: &Session) -> Result<Stream, Fail> {
    let mut padded = Vec::new(alloc);
    session.save_padded(&mut padded)?;
    Ok(ivf_read(alloc, padded.as_slice())?)
}

/// Checks that a session has two packets, and that each is padded.
fn expect_padded<R: Abort + AllocGlobal>(rt: &R, session: &Session) -> Result<(), Fail> {
    let plain = plain_file(rt.alloc(), session)?;
    let padded = padded_file(rt.alloc(), session)?;
    assert_eq!(rt; plain.packets.len(), 2);
    check_padded(rt, plain.packets.as_slice(), padded.packets.as_slice())
}

// Forged packets have an empty last token partition.
#[test]
fn forged_packets_are_padded(rt: HostRuntime) -> Result<(), Fail> {
    let session = session_after(rt.alloc(), &EMPTY, b"blank 0 16 32\nhold 1\n")?;
    expect_padded(&rt, &session)
}

// A side above 16,383, or above 65,535, is not a size; the size after a key tag may be missing.
#[test]
fn sizes_that_are_refused(rt: HostRuntime) -> Result<(), Fail> {
    let requests =
        b"blank 0 16384 16\nblank 0 16 65552\nblank 0 16 18446744073709551615\nhold 0\nhold 1\nhold 2\nhold 3\nblank 4 0 0\n";
    let no_size: &[u8] = &[0x10, 0, 0];
    let ran = run_packets(rt.alloc(), &[INTER, KEY, no_size], requests)?;
    assert_eq!(rt;
        ran.replies.as_slice(),
        b"refused Size\nrefused Size\nrefused Size\nrefused Size\nrefused Size\nok 4\nok 5\nrefused Size\n".as_slice()
    );
    Ok(())
}

// A forged packet has the stamp of the packet before it, and 0 without one.
#[test]
fn forged_packets_have_stamps(rt: HostRuntime) -> Result<(), Fail> {
    let alloc = rt.alloc();
    let requests = b"insert 1 77 110000\nhold 2\nblank 0 16 16\n";
    let file = ivf_of(alloc, &[KEY])?;
    let saved = saved_by(alloc, file.as_slice(), requests)?;
    let read = ivf_read(alloc, saved.as_slice())?;
    let stamps = [0, 0, 77, 77];
    assert_eq!(rt; (read.packets.len(), read.spare), (4, 0));
    for (packet, stamp) in read.packets.as_slice().iter().zip(stamps) {
        assert_eq!(rt; packet.stamp, stamp);
    }
    Ok(())
}

const EDITS: &[u8] = b"hold 1\nblank 3 16 16\nhold 4\n";

const REQUESTS: &[u8] = b"count\nframe 0\nframe 1\nframe 2\nframe 3\nframe 4\n";

/// A run of edits and of requests over this file.
fn run_edited(alloc: Global, file: &[u8]) -> Result<Ran, Fail> {
    let mut both = Vec::from_slice(alloc, EDITS)?;
    both.extend_from_slice(REQUESTS)?;
    Ok(run_over(alloc, file, both.as_slice()))
}

/// A run of requests over what the edits leave of this file, saved.
fn run_saved(alloc: Global, file: &[u8]) -> Result<Ran, Fail> {
    let saved = saved_by(alloc, file, EDITS)?;
    Ok(run_over(alloc, saved.as_slice(), REQUESTS))
}

fn expect_again<R: Abort>(rt: &R, alloc: Global, edited: &Ran, again: &Ran) -> Result<(), Fail> {
    assert!(rt; again.spare == Ok(0));
    assert!(rt; again.frames.as_slice() == edited.frames.as_slice());
    let want = y4m_of(alloc, LINE, &[KEY_FRAME, KEY_FRAME, GREY, GREY, GREY])?;
    assert!(rt; again.frames.as_slice() == want.as_slice());
    assert_eq!(rt;
        again.replies.as_slice(),
        b"packets 6 frames 5\nserved 0\nserved 1\nserved 2\nserved 3\nserved 4\n".as_slice()
    );
    Ok(())
}

fn expect_same<R: Abort>(rt: &R, alloc: Global, file: &[u8]) -> Result<(), Fail> {
    let edited = run_edited(alloc, file)?;
    let again = run_saved(alloc, file)?;
    expect_again(rt, alloc, &edited, &again)
}

#[test]
fn a_saved_stream_serves_the_same(rt: HostRuntime) -> Result<(), Fail> {
    let file = ivf_of(rt.alloc(), &[KEY, HIDDEN, INTER])?;
    expect_same(&rt, rt.alloc(), file.as_slice())
}

/// A session without packets.
fn session_of_none(alloc: Global) -> Result<Session, Fail> {
    let file = ivf_read(alloc, &EMPTY)?;
    let files = vec![in alloc; file]?;
    Ok(Session::new(alloc, Tables::flat(), 1, files)?)
}

// The calls by themselves, with ample memory: a body that always answers NoMemory fails here.
#[test]
fn a_session_forges_and_saves(rt: HostRuntime) -> Result<(), Fail> {
    let mut session = session_of_none(rt.alloc())?;
    expect_forged(&rt, &mut session);
    expect_saved(&rt, rt.alloc(), &session);
    let picture = session.frame(1)?;
    assert_eq!(rt; (picture.width(), picture.height()), (16, 32));
    Ok(())
}

fn expect_forged<R: Abort>(rt: &R, session: &mut Session) {
    let blank = Edit::Blank {
        at: 0,
        width: 16,
        height: 32,
    };
    assert!(rt; session.edit(blank) == Ok(1));
    assert!(rt; session.edit(Edit::Hold { at: 1 }) == Ok(2));
    assert!(rt; session.edit(Edit::Hold { at: 3 }) == Err(Refusal::Place));
    assert!(rt; session.edit(Edit::Hold { at: 0 }) == Err(Refusal::Size));
}

/// Saves the packets, and then once for each call of the writer, which returns an error there.
fn expect_saved<R: Abort>(rt: &R, alloc: Global, session: &Session) {
    let mut whole = Refusing::at(alloc, NEVER);
    assert!(rt; session.save(&mut whole) == Ok(()));
    for failing in 0..whole.calls {
        expect_begun(rt, alloc, session, &whole, failing);
    }
}

fn expect_begun<R: Abort>(
    rt: &R,
    alloc: Global,
    session: &Session,
    whole: &Refusing,
    failing: u64,
) {
    let mut refusing = Refusing::at(alloc, failing);
    assert!(rt;
        session.save(&mut refusing) == Err(WriteFault::Write),
        "{failing}"
    );
    assert!(rt;
        whole.taken.starts_with(refusing.taken.as_slice()),
        "{failing}"
    );
    assert!(rt; session.count() == (2, 2));
}

#[test]
fn names_of_refusals(rt: HostRuntime) {
    assert_eq!(rt; Refusal::Size.word(), "Size");
    assert_eq!(rt; Refusal::TooLarge.word(), "TooLarge");
}
