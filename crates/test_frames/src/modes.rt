//! Key frames of each prediction mode.

use std::alloc::{AllocError, Global};
use std::test::Fail;
use test_fixtures::{B, Macroblock, key_packet, run_packets, y4m_of};

const LINE: &[u8] = b"YUV4MPEG2 W16 H16 F30:1 Ip C420jpeg\n";

/// A Y4M text of one frame: its line, and rows of samples, each row as often as is said. A sample is
/// a digit, which means 120 more.
fn rows_of(alloc: Global, line: &[u8], rows: &[(usize, &[u8])]) -> Result<Vec<u8>, AllocError> {
    let mut text = Vec::new(alloc);
    text.extend_from_slice(line)?;
    text.extend_from_slice(b"FRAME\n")?;
    for (times, row) in rows {
        for _ in 0..*times {
            for digit in *row {
                text.push(digit.wrapping_sub(b'0').wrapping_add(120))?;
            }
        }
    }
    Ok(text)
}

// One macroblock, with nothing of the frame round it.
#[test]
fn whole_blocks_alone(rt: HostRuntime) -> Result<(), Fail> {
    for (luma, value) in [0x80, 0x7F, 0x81, 0x81].iter().enumerate() {
        let macroblock = Macroblock {
            luma,
            subs: [0; 16],
            chroma: 0,
        };
        let packet = key_packet(rt.alloc(), 16, 16, &[macroblock])?;
        let ran = run_packets(rt.alloc(), &[packet.as_slice()], b"frame 0")?;
        let want = y4m_of(rt.alloc(), LINE, &[&[(256, *value), (128, 0x80)]])?;
        assert_eq!(rt; ran.frames.as_slice(), want.as_slice());
    }
    Ok(())
}

// Partitions of zeros only, and two empty token partitions.
#[test]
fn zero_partitions(rt: HostRuntime) -> Result<(), Fail> {
    let zeros: &[u8] = &[0x50, 0, 0, 0x9D, 1, 0x2A, 0x10, 0, 0x10, 0, 0, 0, 0];
    let two: &[u8] = &[0x50, 0, 0, 0x9D, 1, 0x2A, 0x10, 0, 0x10, 0, 0, 1, 0, 0, 0];
    let want = y4m_of(rt.alloc(), LINE, &[&[(64, 0x80), (192, 0x81), (128, 0x80)]])?;
    for packet in [zeros, two] {
        let ran = run_packets(rt.alloc(), &[packet], b"frame 0")?;
        assert_eq!(rt; ran.frames.as_slice(), want.as_slice());
    }
    Ok(())
}

// Sub block b of macroblock m has mode (48 m + 3 b) mod 10, its chroma mode m. The samples are those
// of vpxdec, as `compare/rows.py TABLES sub_modes` prints them: it writes the same modes with the
// RFC's tables and runs `vpxdec --codec=vp8 --i420` on them.
const SUB_MODES: &[(usize, &[u8])] = &[
    (2, b"88888888777777777777777777777777"),
    (2, b"88888888877777777777777777777777"),
    (1, b"88888888888777777777777777777777"),
    (7, b"88888888888888887777777777777777"),
    (2, b"98888888888888887777777777777777"),
    (2, b"99888888888888887777777777777777"),
    (1, b"99988899888888887777777777777777"),
    (1, b"99989999888888887777777777777777"),
    (2, b"99999999888888887777777777777777"),
    (1, b"99999999888888888777777777777777"),
    (1, b"99999999888888878777777777777777"),
    (1, b"99999999888888878877777777777777"),
    (1, b"99999999888888777877777777777777"),
    (1, b"99999999988888888778888877777777"),
    (1, b"99999999988888888887777777777777"),
    (2, b"99999999998888888888888877777777"),
    (2, b"99999999999999999999999987777777"),
    (2, b"99999999999999999999999998777777"),
    (8, b"8888888877777777"),
    (8, b"9999999988888888"),
    (8, b"8888888877777777"),
    (8, b"9999999988888888"),
];

#[test]
fn sub_modes(rt: HostRuntime) -> Result<(), Fail> {
    let mut macroblocks = [Macroblock {
        luma: B,
        subs: [0; 16],
        chroma: 0,
    }; 4];
    for (m, macroblock) in macroblocks.iter_mut().enumerate() {
        macroblock.chroma = m;
        for (b, sub) in macroblock.subs.iter_mut().enumerate() {
            *sub = (48 * (m % 4) + 3 * (b % 16)) % 10;
        }
    }
    let packet = key_packet(rt.alloc(), 32, 32, &macroblocks)?;
    let ran = run_packets(rt.alloc(), &[packet.as_slice()], b"frame 0")?;
    let line = b"YUV4MPEG2 W32 H32 F30:1 Ip C420jpeg\n";
    let want = rows_of(rt.alloc(), line, SUB_MODES)?;
    assert_eq!(rt; ran.frames.as_slice(), want.as_slice());
    Ok(())
}

// Four rows of four macroblocks in which each luma mode of whole blocks meets each chroma mode: the
// macroblock in column c of row r has luma mode (c + r + 2) mod 4 and chroma mode c. The samples are
// those of vpxdec, as `compare/rows.py TABLES whole_modes` prints them.
const WHOLE_MODES: &[(usize, &[u8])] = &[
    (
        16,
        b"9999999999999999999999999999999999999999999999997777777777777777",
    ),
    (
        48,
        b"9999999999999999999999999999999999999999999999999999999999999999",
    ),
    (32, b"88888888777777777777777777777777"),
    (32, b"88888888777777777777777777777777"),
];

#[test]
fn whole_modes(rt: HostRuntime) -> Result<(), Fail> {
    let mut macroblocks = [Macroblock {
        luma: 0,
        subs: [0; 16],
        chroma: 0,
    }; 16];
    for (m, macroblock) in macroblocks.iter_mut().enumerate() {
        macroblock.luma = (m % 4 + m % 16 / 4 + 2) % 4;
        macroblock.chroma = m % 4;
    }
    let packet = key_packet(rt.alloc(), 64, 64, &macroblocks)?;
    let ran = run_packets(rt.alloc(), &[packet.as_slice()], b"frame 0")?;
    let line = b"YUV4MPEG2 W64 H64 F30:1 Ip C420jpeg\n";
    let want = rows_of(rt.alloc(), line, WHOLE_MODES)?;
    assert_eq!(rt; ran.frames.as_slice(), want.as_slice());
    Ok(())
}
