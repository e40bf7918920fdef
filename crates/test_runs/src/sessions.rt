use frame_header::Cause;
use frame_session::{Refusal, Session};
use pixel_planes::{Component, Picture};
use std::alloc::Global;
use std::process::Abort;
use std::test::Fail;
use stream_files::ivf_read;
use test_fixtures::{INTER, KEY, WIDE_KEY, ivf_of};
use vp8_tables::Tables;

/// Whether a picture is that of the key packet of 16 by 16 samples, by some of its rows.
fn shows_key(picture: &Picture) -> bool {
    if picture.width() != 16 || picture.height() != 16 {
        return false;
    }
    picture.shown_row(Component::Luma, 3) == [0x80; 16].as_slice()
        && picture.shown_row(Component::Luma, 4) == [0x81; 16].as_slice()
        && picture.shown_row(Component::Cb, 7) == [0x80; 8].as_slice()
        && picture.shown_row(Component::Cr, 0) == [0x80; 8].as_slice()
}

/// Whether a frame is that of the key packet, or its refusal.
fn shown(session: &mut Session, number: u64) -> Result<bool, Refusal> {
    let picture = session.frame(number)?;
    Ok(shows_key(&picture))
}

/// A session over a file of these packets that keeps one state.
fn session_of<R: Abort>(rt: &R, alloc: Global, packets: &[&[u8]]) -> Result<Session, Fail> {
    let text = ivf_of(alloc, packets)?;
    let file = ivf_read(alloc, text.as_slice())?;
    assert_eq!(rt; file.packets.len(), packets.len());
    let files = vec![in alloc; file]?;
    Ok(Session::new(alloc, Tables::flat(), 1, files)?)
}

fn expect_frames<R: Abort>(rt: &R, session: &mut Session, frames: &[(u64, Result<bool, Refusal>)]) {
    for (number, want) in frames {
        assert!(rt; shown(session, *number) == *want, "frame {number}");
    }
    assert!(rt; session.spare() == 0);
}

// The calls of a session by themselves, with ample memory: a body that always answers NoMemory
// fails here, as in each run.
#[test]
fn a_session_gives_pictures(rt: HostRuntime) -> Result<(), Fail> {
    let mut session = session_of(&rt, rt.alloc(), &[INTER, KEY, &[0x11], WIDE_KEY])?;
    expect_frames(&rt, &mut session, FRAMES);
    Ok(())
}

const FRAMES: &[(u64, Result<bool, Refusal>)] = &[
    (0, Err(NO_KEY_FRAME)),
    (1, Ok(true)),
    (2, Err(SHORT_PACKET)),
    (3, Err(Refusal::SizeDiffers)),
    (4, Err(Refusal::NoSuchFrame)),
];

const NO_KEY_FRAME: Refusal = Refusal::Packet {
    source: 0,
    place: 0,
    cause: Cause::NoKeyFrame,
};

const SHORT_PACKET: Refusal = Refusal::Packet {
    source: 0,
    place: 2,
    cause: Cause::ShortPacket,
};
