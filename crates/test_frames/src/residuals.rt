//! Key frames with residuals.

use bool_coder::Encoder;
use std::alloc::{AllocError, Global};
use std::test::Fail;
use test_fixtures::{first_partition, packet_of, run_packets, write_y2, y4m_of};

/// The Y2 coefficients of nine macroblocks, one below another.
const FIRSTS: [i8; 9] = [1, -1, 0, 1, 1, -1, 0, -1, 1];

/// The text of one token partition of several: it has the rows from `start` on, `step` apart.
fn token_partition(alloc: Global, start: usize, step: usize) -> Result<Vec<u8>, AllocError> {
    let mut encoder = Encoder::new(alloc);
    for (row, first) in FIRSTS.iter().enumerate() {
        if step > 0 && row % step == start {
            write_y2(&mut encoder, *first)?;
        }
    }
    encoder.finish()
}

/// The text of `count` token partitions: the sizes of all but the last, then themselves. That at
/// `empty` has no bytes.
fn token_partitions(alloc: Global, count: usize, empty: usize) -> Result<Vec<u8>, AllocError> {
    let mut sizes = Vec::new(alloc);
    let mut texts = Vec::new(alloc);
    for k in 0..count {
        let text = token_partition(alloc, k, count)?;
        let size = if k == empty { 0 } else { text.len() };
        if k + 1 < count {
            sizes.extend_from_slice(&[(size % 256) as u8, (size / 256 % 256) as u8, 0])?;
        }
        if k != empty {
            texts.extend_from_slice(text.as_slice())?;
        }
    }
    sizes.extend_from_slice(texts.as_slice())?;
    Ok(sizes)
}

// A Y2 coefficient of 1 is 314 dequantised; the transforms make that 39 for each block, and 5 for each
// of its samples. One of -1 makes -5.
#[test]
fn one_macroblock(rt: HostRuntime) -> Result<(), Fail> {
    let line = b"YUV4MPEG2 W16 H16 F30:1 Ip C420jpeg\n";
    for (first, value) in [(1, 0x85), (-1, 0x7B), (0, 0x80)] {
        let header = first_partition(rt.alloc(), b"00", 1)?;
        let mut encoder = Encoder::new(rt.alloc());
        write_y2(&mut encoder, first)?;
        let tokens = encoder.finish()?;
        let packet = packet_of(rt.alloc(), 16, 16, header.as_slice(), tokens.as_slice())?;
        let ran = run_packets(rt.alloc(), &[packet.as_slice()], b"frame 0")?;
        let want = y4m_of(rt.alloc(), line, &[&[(256, value), (128, 0x80)]])?;
        assert_eq!(rt; ran.frames.as_slice(), want.as_slice());
    }
    Ok(())
}

/// Serves nine macroblocks one below another, with so many token partitions, of which that at
/// `empty` has no bytes. Each is predicted by the row above it, and so each row begins where the
/// last one ended.
fn serves_rows(
    rt: &impl std::process::Abort,
    alloc: Global,
    digits: &[u8],
    count: usize,
    empty: usize,
) -> Result<(), Fail> {
    let header = first_partition(alloc, digits, 9)?;
    let tokens = token_partitions(alloc, count, empty)?;
    let packet = packet_of(alloc, 16, 144, header.as_slice(), tokens.as_slice())?;
    let ran = run_packets(alloc, &[packet.as_slice()], b"frame 0")?;
    let mut runs = [(256, 0x80); 10];
    let mut value = 0x80u8;
    for (row, first) in FIRSTS.iter().enumerate() {
        if count > 0 && row % count != empty && *first != 0 {
            value = if *first > 0 {
                value.wrapping_add(5)
            } else {
                value.wrapping_sub(5)
            };
        }
        runs[row % 9] = (256, value);
    }
    runs[9] = (2 * 8 * 72, 0x80);
    let line = b"YUV4MPEG2 W16 H144 F30:1 Ip C420jpeg\n";
    let want = y4m_of(alloc, line, &[&runs])?;
    assert_eq!(rt; ran.frames.as_slice(), want.as_slice());
    Ok(())
}

// The rows of a frame take the token partitions round robin.
#[test]
fn rows_take_turns(rt: HostRuntime) -> Result<(), Fail> {
    serves_rows(&rt, rt.alloc(), b"00", 1, 9)?;
    serves_rows(&rt, rt.alloc(), b"01", 2, 9)?;
    serves_rows(&rt, rt.alloc(), b"10", 4, 9)?;
    serves_rows(&rt, rt.alloc(), b"11", 8, 9)
}

// A partition that ends early reads zeros: its rows have no residual.
#[test]
fn partitions_that_are_empty(rt: HostRuntime) -> Result<(), Fail> {
    serves_rows(&rt, rt.alloc(), b"00", 1, 0)?;
    serves_rows(&rt, rt.alloc(), b"01", 2, 1)?;
    serves_rows(&rt, rt.alloc(), b"10", 4, 0)?;
    serves_rows(&rt, rt.alloc(), b"11", 8, 5)
}
