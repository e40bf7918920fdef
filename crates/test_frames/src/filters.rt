//! Frames with a loop filter, and frames with segments.

use bool_coder::Encoder;
use std::alloc::Global;
use std::test::Fail;
use test_fixtures::{INTER, filtered_packet, inter_packet_of, run_packets, write_y2, y4m_of};

/// The places of the luma modes DC and V.
const DC: usize = 0;

const V: usize = 1;

/// The fields up to the changes of the filter level: level 63, the simple filter and the normal one.
const SIMPLE: &[u8] = b"00011111110000";

const NORMAL: &[u8] = b"00001111110000";

/// Segments with absolute quantizers, 0 for the first and 127 for the second, and a new
/// map, all of whose probabilities are 255.
const NEW_MAP: &[u8] = b"001111011111111000000000000000000000";

/// The same without a map; the first segment has the quantizer 127, or the second.
const FIRST_IS_COARSE: &[u8] = b"001011111111110000000000000000000";

const SECOND_IS_COARSE: &[u8] = b"001011011111111000000000000000000";

/// The fields of a frame that is no key frame, with segments and nothing new of them.
const WITH_SEGMENTS: &[u8] = b"10000000000000";

/// The pairs of the second segment.
const SECOND: &[(bool, u8)] = &[(false, 255), (true, 255)];

/// The pairs of a macroblock of modes DC, in a frame that is no key frame.
const INTRA_DC: &[(bool, u8)] = &[(false, 1), (false, 112), (false, 162)];

/// Serves one frame of two macroblocks, 133 and 127 throughout before the filter, and compares each
/// luma row with these runs.
fn filters(
    rt: &impl std::process::Abort,
    alloc: Global,
    fields: &[u8],
    row: &[(usize, u8)],
) -> Result<(), Fail> {
    let macroblocks: &[(usize, &[(bool, u8)], i8)] = &[(DC, &[], 1), (V, &[], 0)];
    let packet = filtered_packet(alloc, 32, fields, b"1111111", macroblocks)?;
    let ran = run_packets(alloc, &[packet.as_slice()], b"frame 0")?;
    let mut runs = Vec::new(alloc);
    for _ in 0..16 {
        runs.extend_from_slice(row)?;
    }
    runs.push((256, 0x80))?;
    let line = b"YUV4MPEG2 W32 H16 F30:1 Ip C420jpeg\n";
    let want = y4m_of(alloc, line, &[runs.as_slice()])?;
    assert_eq!(rt; ran.frames.as_slice(), want.as_slice());
    Ok(())
}

// The first macroblock is 0x85 by its residual, and the second 0x7F, like the samples above the frame.
#[test]
fn the_simple_filter(rt: HostRuntime) -> Result<(), Fail> {
    let row = &[(15, 0x85), (1, 0x83), (1, 0x80), (15, 0x7F)];
    filters(&rt, rt.alloc(), SIMPLE, row)
}

#[test]
fn the_normal_filter(rt: HostRuntime) -> Result<(), Fail> {
    let row = &[
        (13, 0x85),
        (1, 0x84),
        (1, 0x83),
        (2, 0x82),
        (1, 0x81),
        (1, 0x80),
        (13, 0x7F),
    ];
    filters(&rt, rt.alloc(), NORMAL, row)
}

// The frame's own quantizer index is 0; by the segment's the residual is 5.
#[test]
fn a_segment_has_a_quantizer(rt: HostRuntime) -> Result<(), Fail> {
    let macroblocks: &[(usize, &[(bool, u8)], i8)] = &[(DC, &[], 1)];
    let packet = filtered_packet(rt.alloc(), 16, FIRST_IS_COARSE, b"0000000", macroblocks)?;
    let ran = run_packets(rt.alloc(), &[packet.as_slice()], b"frame 0")?;
    let line = b"YUV4MPEG2 W16 H16 F30:1 Ip C420jpeg\n";
    let want = y4m_of(rt.alloc(), line, &[&[(256, 0x85), (128, 0x80)]])?;
    assert_eq!(rt; ran.frames.as_slice(), want.as_slice());
    Ok(())
}

// A key frame sets the map to the second segment, whose residual is 5; a frame without segments leaves
// it, the next uses it, and a key frame with segments and no map sets it to the first, whose residual
// is nothing.
#[test]
fn the_segment_map_is_kept(rt: HostRuntime) -> Result<(), Fail> {
    let set = filtered_packet(rt.alloc(), 16, NEW_MAP, b"0000000", &[(DC, SECOND, 1)])?;
    let anew = filtered_packet(
        rt.alloc(),
        16,
        SECOND_IS_COARSE,
        b"0000000",
        &[(DC, &[], 1)],
    )?;
    let mut tokens = Encoder::new(rt.alloc());
    write_y2(&mut tokens, 1)?;
    let tokens = tokens.finish()?;
    let used = inter_packet_of(
        rt.alloc(),
        WITH_SEGMENTS,
        b"0",
        &[INTRA_DC],
        tokens.as_slice(),
    )?;
    let packets = &[set.as_slice(), INTER, used.as_slice(), anew.as_slice()];
    let requests = b"frame 0\nframe 1\nframe 2\nframe 3\n";
    let ran = run_packets(rt.alloc(), packets, requests)?;
    let coarse: &[(usize, u8)] = &[(256, 0x85), (128, 0x80)];
    let fine: &[(usize, u8)] = &[(384, 0x80)];
    let line = b"YUV4MPEG2 W16 H16 F30:1 Ip C420jpeg\n";
    let want = y4m_of(rt.alloc(), line, &[coarse, fine, coarse, fine])?;
    assert_eq!(rt; ran.frames.as_slice(), want.as_slice());
    Ok(())
}
