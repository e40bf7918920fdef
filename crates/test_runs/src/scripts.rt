//! Scripts in a session.

use crate::expected::expect_run;
use frame_session::{Refusal, Session};
use std::alloc::Global;
use std::process::Abort;
use std::test::Fail;
use stream_files::ivf_read;
use test_fixtures::{INTER, KEY, Run, ivf_of, run_packets, y4m_of};
use vp8_tables::Tables;

const LINE: &[u8] = b"YUV4MPEG2 W16 H16 F30:1 Ip C420jpeg\n";

#[test]
fn a_fade_takes_half(rt: HostRuntime) -> Result<(), Fail> {
    expect_run(&rt, rt.alloc(), &FADE_TAKES_HALF)
}

const FADE_TAKES_HALF: Run = Run {
    packets: &[KEY],
    requests: b"script fade 0 0 1 128 128\nframe 0\n",
    replies: b"ok 1\nserved 0\n",
    frames: Some((LINE, &[&[(64, 0x48), (192, 0x49), (128, 0x80)]])),
};

#[test]
fn a_crop_fixes_its_size(rt: HostRuntime) -> Result<(), Fail> {
    let requests =
        b"script crop 0 8 2 8 4\nframe 0\nscript crop 0 8 0 10 4\nframe 0\nscript -\nframe 0\n";
    let ran = run_packets(rt.alloc(), &[KEY], requests)?;
    assert_eq!(rt;
        ran.replies.as_slice(),
        b"ok 1\nserved 0\nok 1\nrefused CropOutside\nok 1\nrefused SizeDiffers\n".as_slice()
    );
    let line = b"YUV4MPEG2 W8 H4 F30:1 Ip C420jpeg\n";
    let want = y4m_of(rt.alloc(), line, &[&[(16, 0x80), (16, 0x81), (16, 0x80)]])?;
    assert_eq!(rt; ran.frames.as_slice(), want.as_slice());
    Ok(())
}

#[test]
fn clips_are_joined(rt: HostRuntime) -> Result<(), Fail> {
    let requests = b"script trim 0 1 2; splice 1 0\ncount\nframe 2\nframe 5\n";
    let ran = run_packets(rt.alloc(), &[KEY, INTER, INTER], requests)?;
    assert_eq!(rt;
        ran.replies.as_slice(),
        b"ok 3\npackets 3 frames 5\nserved 2\nrefused NoSuchFrame\n".as_slice()
    );
    let want = y4m_of(rt.alloc(), LINE, &[&[(64, 0x80), (192, 0x81), (128, 0x80)]])?;
    assert_eq!(rt; ran.frames.as_slice(), want.as_slice());
    Ok(())
}

// A script that is refused leaves the one before, which serves one frame.
#[test]
fn scripts_that_are_refused(rt: HostRuntime) -> Result<(), Fail> {
    expect_run(&rt, rt.alloc(), &SCRIPTS_THAT_ARE_REFUSED)
}

const SCRIPTS_THAT_ARE_REFUSED: Run = Run {
    packets: &[KEY, INTER, INTER],
    requests: b"script trim 0 0 1\nscript blur 0\ncount\nscript trim 1 0 1\ncount\nscript crop 0 1 0 4 4\ncount\nscript\ncount\n",
    replies: b"ok 3\nrefused Syntax\npackets 3 frames 1\nrefused Reference\npackets 3 frames 1\nrefused Number\npackets 3 frames 1\nscript trim 0 0 1\npackets 3 frames 1\n",
    frames: None,
};

const SIXTEEN: &[u8] =
    b"script trim 0 0 1;trim 0 0 1;trim 0 0 1;trim 0 0 1;trim 0 0 1;trim 0 0 1;trim 0 0 1;trim 0 0 1;trim 0 0 1;trim 0 0 1;trim 0 0 1;trim 0 0 1;trim 0 0 1;trim 0 0 1;trim 0 0 1;trim 0 0 1";

#[test]
fn sixteen_nodes_are_taken(rt: HostRuntime) -> Result<(), Fail> {
    let mut requests = Vec::new(rt.alloc());
    requests.extend_from_slice(SIXTEEN)?;
    requests.extend_from_slice(b"\n")?;
    requests.extend_from_slice(SIXTEEN)?;
    requests.extend_from_slice(b";trim 0 0 1\n")?;
    let ran = run_packets(rt.alloc(), &[KEY, INTER, INTER], requests.as_slice())?;
    assert_eq!(rt; ran.replies.as_slice(), b"ok 3\nrefused Nodes\n".as_slice());
    Ok(())
}

// A broken packet is reported before a crop past the size, and that before another size.
#[test]
fn refusals_in_their_order(rt: HostRuntime) -> Result<(), Fail> {
    expect_run(&rt, rt.alloc(), &REFUSALS_IN_THEIR_ORDER)
}

const REFUSALS_IN_THEIR_ORDER: Run = Run {
    packets: &[KEY, &[0x11, 0]],
    requests: b"frame 0\nscript crop 0 8 0 10 4\nframe 0\nframe 1\nframe 2\nscript crop 0 8 0 8 4\nframe 0\n",
    replies: b"served 0\nok 2\nrefused CropOutside\nrefused packet 1 ShortPacket\nrefused NoSuchFrame\nok 2\nrefused SizeDiffers\n",
    frames: None,
};

fn session_of(alloc: Global, packets: &[&[u8]]) -> Result<Session, Fail> {
    let text = ivf_of(alloc, packets)?;
    let file = ivf_read(alloc, text.as_slice())?;
    let files = vec![in alloc; file]?;
    Ok(Session::new(alloc, Tables::flat(), 1, files)?)
}

// The call by itself, with ample memory.
#[test]
fn a_session_takes_scripts(rt: HostRuntime) -> Result<(), Fail> {
    let mut session = session_of(rt.alloc(), &[KEY])?;
    expect_scripts(&rt, &mut session);
    let picture = session.frame(2)?;
    assert_eq!(rt; (picture.width(), picture.height()), (16, 16));
    expect_script(&rt, &mut session, b" - ", Ok(1), (1, 1));
    Ok(())
}

fn expect_scripts<R: Abort>(rt: &R, session: &mut Session) {
    expect_script(rt, session, b"splice 0 0; splice 1 0", Ok(1), (1, 3));
    let refused = Err(Refusal::Reference);
    expect_script(rt, session, b"splice 0 1", refused, (1, 3));
    assert!(rt; session.frame(3).err() == Some(Refusal::NoSuchFrame));
}

/// Sets a script, which is answered so, and leaves so many packets and frames.
fn expect_script<R: Abort>(
    rt: &R,
    session: &mut Session,
    text: &[u8],
    answer: Result<u64, Refusal>,
    left: (u64, u64),
) {
    assert!(rt; session.set_script(text) == answer, "{answer:?}");
    assert!(rt; session.count() == left, "{left:?}");
}
