//! Frames that are no key frames.

use std::test::Fail;
use test_fixtures::{
    HIDDEN, INTER, KEY, Macroblock, inter_packet, key_packet, run_packets, y4m_of,
};

const LINE: &[u8] = b"YUV4MPEG2 W16 H16 F30:1 Ip C420jpeg\n";

/// What packets that read 0 at every bit make of 16 by 16 samples: a key packet sub blocks of 128 and
/// 129, any other packet one block of 128.
const BLANK: &[(usize, u8)] = &[(64, 0x80), (192, 0x81), (128, 0x80)];

const GREY: &[(usize, u8)] = &[(384, 0x80)];

/// A key packet of 16 by 32 samples that reads 0 at every bit.
const HIGH_KEY: &[u8] = &[0x10, 0, 0, 0x9D, 1, 0x2A, 0x10, 0, 0x20, 0];

/// The pairs of a macroblock that is skipped and has a zero vector into the last frame, if none above
/// it or to its left has one.
const ZERO: &[(bool, u8)] = &[(true, 1), (true, 1), (false, 255), (false, 7)];

/// The pairs of one with no neighbours that takes the samples of the last frame four rows down, which
/// is a new vector: 16 in the row component, in the long form, and 0 in the column component.
const FOUR_DOWN: &[(bool, u8)] = &[
    (true, 1),
    (true, 1),
    (false, 255),
    (true, 7),
    (true, 1),
    (true, 1),
    (false, 143),
    (true, 162),
    (false, 128),
    (false, 129),
    (false, 132),
    (false, 254),
    (false, 254),
    (false, 239),
    (false, 206),
    (false, 178),
    (true, 145),
    (false, 75),
    (false, 128),
    (false, 164),
    (false, 204),
    (false, 170),
    (false, 119),
];

#[test]
fn the_last_frame_holds(rt: HostRuntime) -> Result<(), Fail> {
    let macroblock = Macroblock {
        luma: 1,
        subs: [0; 16],
        chroma: 0,
    };
    let key = key_packet(rt.alloc(), 16, 16, &[macroblock])?;
    let hold = inter_packet(rt.alloc(), &[ZERO])?;
    let packets = &[key.as_slice(), hold.as_slice()];
    let ran = run_packets(rt.alloc(), packets, b"frame 1")?;
    let want = y4m_of(rt.alloc(), LINE, &[&[(256, 0x7F), (128, 0x80)]])?;
    assert_eq!(rt; ran.frames.as_slice(), want.as_slice());
    Ok(())
}

// Of 32 rows the first 4 are 128 and the others 129; taken four rows down they are 129 throughout.
#[test]
fn a_vector_moves_rows(rt: HostRuntime) -> Result<(), Fail> {
    let moved = inter_packet(rt.alloc(), &[FOUR_DOWN, ZERO])?;
    let ran = run_packets(rt.alloc(), &[HIGH_KEY, moved.as_slice()], b"frame 1")?;
    let line = b"YUV4MPEG2 W16 H32 F30:1 Ip C420jpeg\n";
    let want = y4m_of(rt.alloc(), line, &[&[(512, 0x81), (256, 0x80)]])?;
    assert_eq!(rt; ran.frames.as_slice(), want.as_slice());
    Ok(())
}

#[test]
fn zeros_predict_by_dc(rt: HostRuntime) -> Result<(), Fail> {
    let ran = run_packets(rt.alloc(), &[KEY, INTER], b"frame 1\nframe 0")?;
    let want = y4m_of(rt.alloc(), LINE, &[GREY, BLANK])?;
    assert_eq!(rt; ran.frames.as_slice(), want.as_slice());
    Ok(())
}

// A refused packet breaks the stream up to the next key frame, and a deleted one no longer does.
#[test]
fn a_broken_stream_is_mended(rt: HostRuntime) -> Result<(), Fail> {
    let ran = run_packets(
        rt.alloc(),
        &[KEY, &[0x11, 0], INTER, KEY],
        b"frame 1\nframe 2\nframe 3\ndelete 1\nframe 1\n",
    )?;
    let replies =
        b"refused packet 1 ShortPacket\nrefused packet 1 ShortPacket\nserved 3\nok 3\nserved 1\n";
    assert_eq!(rt; ran.replies.as_slice(), replies.as_slice());
    let want = y4m_of(rt.alloc(), LINE, &[BLANK, GREY])?;
    assert_eq!(rt; ran.frames.as_slice(), want.as_slice());
    Ok(())
}

#[test]
fn hidden_packets_are_decoded(rt: HostRuntime) -> Result<(), Fail> {
    let requests = b"count\nframe 1\nframe 2\n";
    let ran = run_packets(rt.alloc(), &[KEY, HIDDEN, INTER], requests)?;
    let replies = b"packets 3 frames 2\nserved 1\nrefused NoSuchFrame\n";
    assert_eq!(rt; ran.replies.as_slice(), replies.as_slice());
    let want = y4m_of(rt.alloc(), LINE, &[GREY])?;
    assert_eq!(rt; ran.frames.as_slice(), want.as_slice());
    Ok(())
}
