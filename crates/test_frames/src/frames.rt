use std::test::Fail;
use test_fixtures::{HIDDEN, INTER, KEY, WIDE_KEY, run_over, run_packets, y4m_of};

/// The line of a stream of 16 by 16 samples at 30 frames a second.
const LINE: &[u8] = b"YUV4MPEG2 W16 H16 F30:1 Ip C420jpeg\n";

/// The picture of a packet of 16 by 16 samples that reads 0 at every bit: 4 rows of 128 and 12 of
/// 129 in luma, 128 in chroma.
const BLANK: &[(usize, u8)] = &[(64, 0x80), (192, 0x81), (128, 0x80)];

/// A file of one key packet, byte by byte.
const ONE_KEY_FILE: [u8; 54] = [
    0x44, 0x4B, 0x49, 0x46, 0, 0, 0x20, 0, 0x56, 0x50, 0x38, 0x30, 0x10, 0, 0x10, 0, 0x1E, 0, 0, 0,
    1, 0, 0, 0, 1, 0, 0, 0, 0, 0, 0, 0, 0x0A, 0, 0, 0, 0, 0, 0, 0, 0, 0, 0, 0, 0x10, 0, 0, 0x9D, 1,
    0x2A, 0x10, 0, 0x10, 0,
];

#[test]
fn one_key_packet(rt: HostRuntime) -> Result<(), Fail> {
    let ran = run_over(rt.alloc(), &ONE_KEY_FILE, b"frame 0\n");
    let want = y4m_of(rt.alloc(), LINE, &[BLANK])?;
    assert_eq!(rt; ran.frames.as_slice(), want.as_slice());
    assert_eq!(rt; ran.frames.len(), 36 + 6 + 384);
    assert_eq!(rt; ran.replies.as_slice(), b"served 0\n".as_slice());
    assert_eq!(rt; ran.spare, Ok(0));
    Ok(())
}

#[test]
fn one_sample(rt: HostRuntime) -> Result<(), Fail> {
    let packet = [0x10, 0, 0, 0x9D, 1, 0x2A, 1, 0, 1, 0];
    let ran = run_packets(rt.alloc(), &[&packet], b"frame 0")?;
    let line = b"YUV4MPEG2 W1 H1 F30:1 Ip C420jpeg\n";
    let want = y4m_of(rt.alloc(), line, &[&[(3, 0x80)]])?;
    assert_eq!(rt; ran.frames.as_slice(), want.as_slice());
    Ok(())
}

#[test]
fn two_macroblock_rows(rt: HostRuntime) -> Result<(), Fail> {
    let packet = [0x10, 0, 0, 0x9D, 1, 0x2A, 0x10, 0, 0x20, 0];
    let ran = run_packets(rt.alloc(), &[&packet], b"frame 0")?;
    let line = b"YUV4MPEG2 W16 H32 F30:1 Ip C420jpeg\n";
    let want = y4m_of(
        rt.alloc(),
        line,
        &[&[(4 * 16, 0x80), (28 * 16, 0x81), (256, 0x80)]],
    )?;
    assert_eq!(rt; ran.frames.as_slice(), want.as_slice());
    Ok(())
}

// The scale bits of a side are read and not applied; an odd side has its chroma rounded up.
#[test]
fn odd_and_scaled_sides(rt: HostRuntime) -> Result<(), Fail> {
    let packet = [0x10, 0, 0, 0x9D, 1, 0x2A, 0x03, 0x40, 0x05, 0xC0];
    let ran = run_packets(rt.alloc(), &[&packet], b"frame 0")?;
    let line = b"YUV4MPEG2 W3 H5 F30:1 Ip C420jpeg\n";
    let want = y4m_of(rt.alloc(), line, &[&[(12, 0x80), (3, 0x81), (12, 0x80)]])?;
    assert_eq!(rt; ran.frames.as_slice(), want.as_slice());
    Ok(())
}

// The line comes once, before the first frame that is served, and a frame may be asked for again.
#[test]
fn the_line_comes_once(rt: HostRuntime) -> Result<(), Fail> {
    let ran = run_packets(
        rt.alloc(),
        &[KEY, KEY],
        b"frame 2\nframe 1\nframe 0\nframe 1",
    )?;
    let want = y4m_of(rt.alloc(), LINE, &[BLANK, BLANK, BLANK])?;
    assert_eq!(rt; ran.frames.as_slice(), want.as_slice());
    let replies = b"refused NoSuchFrame\nserved 1\nserved 0\nserved 1\n";
    assert_eq!(rt; ran.replies.as_slice(), replies.as_slice());
    Ok(())
}

#[test]
fn a_rate_of_zero_is_thirty(rt: HostRuntime) -> Result<(), Fail> {
    for place in [16, 20] {
        let mut file = ONE_KEY_FILE;
        file[place] = 0;
        let ran = run_over(rt.alloc(), &file, b"frame 0");
        let want = y4m_of(rt.alloc(), LINE, &[BLANK])?;
        assert_eq!(rt; ran.frames.as_slice(), want.as_slice());
    }
    Ok(())
}

// A hidden packet has no number among the frames.
#[test]
fn hidden_packets_have_no_number(rt: HostRuntime) -> Result<(), Fail> {
    let ran = run_packets(rt.alloc(), &[KEY, HIDDEN, KEY], b"frame 1\nframe 2\n")?;
    let want = y4m_of(rt.alloc(), LINE, &[BLANK])?;
    assert_eq!(rt; ran.frames.as_slice(), want.as_slice());
    let replies = b"served 1\nrefused NoSuchFrame\n";
    assert_eq!(rt; ran.replies.as_slice(), replies.as_slice());
    Ok(())
}

// The first frame that is served fixes the size; a refused frame does not.
#[test]
fn sizes_that_differ(rt: HostRuntime) -> Result<(), Fail> {
    let ran = run_packets(rt.alloc(), &[KEY, WIDE_KEY], b"frame 0\nframe 1\nframe 0\n")?;
    let want = y4m_of(rt.alloc(), LINE, &[BLANK, BLANK])?;
    assert_eq!(rt; ran.frames.as_slice(), want.as_slice());
    let replies = b"served 0\nrefused SizeDiffers\nserved 0\n";
    assert_eq!(rt; ran.replies.as_slice(), replies.as_slice());
    let turned = run_packets(
        rt.alloc(),
        &[INTER, WIDE_KEY, KEY],
        b"frame 0\nframe 1\nframe 2",
    )?;
    let replies = b"refused packet 0 NoKeyFrame\nserved 1\nrefused SizeDiffers\n";
    assert_eq!(rt; turned.replies.as_slice(), replies.as_slice());
    Ok(())
}

// A picture of more than 1024 by 1024 samples is served like a small one: its first four rows are 128, the others 129
// (vpxdec shows the same).
#[test]
fn a_large_picture(rt: HostRuntime) -> Result<(), Fail> {
    let mut packet = [0; 10];
    packet.copy_from_slice(KEY);
    packet[6] = 0x10;
    packet[7] = 4;
    packet[8] = 0x10;
    packet[9] = 4;
    let ran = run_packets(rt.alloc(), &[&packet], b"frame 0\n")?;
    let frame: &[(usize, u8)] = &[(4160, 0x80), (1_077_440, 0x81), (540_800, 0x80)];
    let line = b"YUV4MPEG2 W1040 H1040 F30:1 Ip C420jpeg\n";
    let want = y4m_of(rt.alloc(), line, &[frame])?;
    assert!(rt; ran.frames.as_slice() == want.as_slice());
    assert_eq!(rt; ran.replies.as_slice(), b"served 0\n".as_slice());
    Ok(())
}

// The widest picture: a blank one, of 128 throughout.
#[test]
fn the_widest_picture(rt: HostRuntime) -> Result<(), Fail> {
    let ran = run_packets(rt.alloc(), &[], b"blank 0 16383 16\nframe 0\n")?;
    let line = b"YUV4MPEG2 W16383 H16 F30:1 Ip C420jpeg\n";
    let want = y4m_of(rt.alloc(), line, &[&[(393_200, 0x80)]])?;
    assert!(rt; ran.frames.as_slice() == want.as_slice());
    assert_eq!(rt; ran.replies.as_slice(), b"ok 1\nserved 0\n".as_slice());
    Ok(())
}
