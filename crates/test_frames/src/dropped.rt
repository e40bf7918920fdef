//! Packets of no bytes, which drop a frame: the last reference is shown again.

use crate::expected::expect_run;
use std::test::Fail;
use test_fixtures::{INTER, KEY, Run, run_packets, y4m_of};

const LINE: &[u8] = b"YUV4MPEG2 W16 H16 F30:1 Ip C420jpeg\n";

/// The samples of the key packet's frame.
const KEY_FRAME: &[(usize, u8)] = &[(64, 0x80), (192, 0x81), (128, 0x80)];

const GREY: &[(usize, u8)] = &[(384, 0x80)];

// It is one step, and its state is cached like any other.
#[test]
fn a_dropped_frame_repeats_the_picture(rt: HostRuntime) -> Result<(), Fail> {
    expect_run(&rt, rt.alloc(), &DROPPED_FRAME_REPEATS_THE_PICTURE)
}

const DROPPED_FRAME_REPEATS_THE_PICTURE: Run = Run {
    packets: &[KEY, &[], INTER],
    requests: b"frame 1\nframe 2\nstats\nreplace 1 110000\nframe 2\nstats\nframe 1\nstats\n",
    replies: b"served 1\nserved 2\ndecoded 3\nok 3\nserved 2\ndecoded 5\nserved 1\ndecoded 5\n",
    frames: Some((LINE, &[KEY_FRAME, GREY, GREY, GREY])),
};

#[test]
fn a_dropped_frame_needs_a_state(rt: HostRuntime) -> Result<(), Fail> {
    let ran = run_packets(rt.alloc(), &[&[]], b"frame 0\n")?;
    assert_eq!(rt;
        ran.replies.as_slice(),
        b"refused packet 0 NoKeyFrame\n".as_slice()
    );
    assert!(rt; ran.frames.is_empty());
    Ok(())
}

// After a break it stays broken at the break.
#[test]
fn a_dropped_frame_after_a_break(rt: HostRuntime) -> Result<(), Fail> {
    let packets: &[&[u8]] = &[KEY, &[0x11, 0], &[], KEY];
    let ran = run_packets(rt.alloc(), packets, b"frame 2\nframe 3\n")?;
    assert_eq!(rt;
        ran.replies.as_slice(),
        b"refused packet 1 ShortPacket\nserved 3\n".as_slice()
    );
    Ok(())
}

// The first bytes of a key packet: none drop a frame, and fewer than ten are too short.
#[test]
fn beginnings_of_a_key_packet(rt: HostRuntime) -> Result<(), Fail> {
    for length in 0..=10 {
        let ran = run_packets(rt.alloc(), &[&KEY[..length]], b"frame 0\n")?;
        let reply = if length == 0 {
            "refused packet 0 NoKeyFrame\n"
        } else if length < 10 {
            "refused packet 0 ShortPacket\n"
        } else {
            "served 0\n"
        };
        assert_eq!(rt; ran.replies.as_slice(), reply.as_bytes());
    }
    Ok(())
}
