use bool_coder::Encoder;
use frame_header::key_size;
use std::alloc::Global;
use std::process::Abort;
use std::test::Fail;
use test_fixtures::{INTER, KEY, packet_of, run_packets, write_bits};

/// Asks for frame 0 of a stream of one packet, which is refused with this cause.
fn refuses(rt: &impl Abort, alloc: Global, packet: &[u8], reply: &str) -> Result<(), Fail> {
    let ran = run_packets(alloc, &[packet], b"frame 0\n")?;
    assert_eq!(rt; ran.replies.as_slice(), reply.as_bytes());
    assert!(rt; ran.frames.is_empty());
    Ok(())
}

#[test]
fn no_key_frame(rt: HostRuntime) -> Result<(), Fail> {
    refuses(&rt, rt.alloc(), INTER, "refused packet 0 NoKeyFrame\n")
}

#[test]
fn header_causes(rt: HostRuntime) -> Result<(), Fail> {
    let version = [0x18, 0, 0, 0x9D, 1, 0x2A, 0x10, 0, 0x10, 0];
    refuses(&rt, rt.alloc(), &version, "refused packet 0 Version\n")?;
    let first = [0x30, 0, 0, 0x9D, 1, 0x2A, 0x10, 0, 0x10, 0];
    refuses(&rt, rt.alloc(), &first, "refused packet 0 FirstPartition\n")?;
    let largest = [0xF0, 0xFF, 0xFF, 0x9D, 1, 0x2A, 0x10, 0, 0x10, 0];
    refuses(
        &rt,
        rt.alloc(),
        &largest,
        "refused packet 0 FirstPartition\n",
    )?;
    let short = [0x10, 0, 0, 0x9D, 1, 0x2A];
    refuses(&rt, rt.alloc(), &short, "refused packet 0 ShortPacket\n")?;
    let narrow = [0x10, 0, 0, 0x9D, 1, 0x2A, 0, 0, 0x10, 0];
    refuses(&rt, rt.alloc(), &narrow, "refused packet 0 Size\n")?;
    let low = [0x10, 0, 0, 0x9D, 1, 0x2A, 0x10, 0, 0, 0x40];
    refuses(&rt, rt.alloc(), &low, "refused packet 0 Size\n")?;
    let start = [0x10, 0, 0, 0x9D, 1, 0x2B, 0, 0, 0x10, 0];
    refuses(&rt, rt.alloc(), &start, "refused packet 0 StartCode\n")
}

#[test]
fn versions_from_four_on(rt: HostRuntime) -> Result<(), Fail> {
    for version in 4..8u8 {
        let packet = [0x10 + 2 * version, 0, 0, 0x9D, 1, 0x2A, 0x10, 0, 0x10, 0];
        refuses(&rt, rt.alloc(), &packet, "refused packet 0 Version\n")?;
    }
    for version in 0..4u8 {
        let packet = [0x10 + 2 * version, 0, 0, 0x9D, 1, 0x2A, 0x10, 0, 0x10, 0];
        let ran = run_packets(rt.alloc(), &[&packet], b"frame 0\n")?;
        assert_eq!(rt; ran.replies.as_slice(), b"served 0\n".as_slice());
    }
    Ok(())
}

#[test]
fn token_partitions(rt: HostRuntime) -> Result<(), Fail> {
    let partition = [0x50, 0, 0, 0x9D, 1, 0x2A, 0x10, 0, 0x10, 0, 0, 1, 5, 0, 0];
    let reply = "refused packet 0 TokenPartition 0\n";
    refuses(&rt, rt.alloc(), &partition, reply)
}

// The first bytes of a key packet of two token partitions: its head, a first partition of 2 bytes
// and the size of the first token partition.
#[test]
fn beginnings_of_two_token_partitions(rt: HostRuntime) -> Result<(), Fail> {
    let packet = [0x50, 0, 0, 0x9D, 1, 0x2A, 0x10, 0, 0x10, 0, 0, 1, 0, 0, 0];
    for length in 1..15 {
        let reply = if length < 10 {
            "refused packet 0 ShortPacket\n"
        } else if length < 12 {
            "refused packet 0 FirstPartition\n"
        } else {
            "refused packet 0 TokenSizes\n"
        };
        refuses(&rt, rt.alloc(), &packet[..length], reply)?;
    }
    let ran = run_packets(rt.alloc(), &[&packet], b"frame 0\n")?;
    assert_eq!(rt; ran.replies.as_slice(), b"served 0\n".as_slice());
    Ok(())
}

// A size has 14 bits a side; the two bits above them are for scaling.
#[test]
fn the_largest_size(rt: HostRuntime) {
    let packet = [0x10, 0, 0, 0x9D, 1, 0x2A, 0xFF, 0xFF, 0xFF, 0xFF];
    assert_eq!(rt; key_size(&packet), Some((16_383, 16_383)));
}

// A refused packet breaks the stream at its index up to the next key tag; what does not
// depend on it is still served.
#[test]
fn a_broken_stream(rt: HostRuntime) -> Result<(), Fail> {
    let ran = run_packets(
        rt.alloc(),
        &[KEY, &[0x11, 0], INTER, KEY, &[0x11]],
        b"frame 0\nframe 1\nframe 2\nframe 3\nframe 4\n",
    )?;
    let replies =
        "served 0\nrefused packet 1 ShortPacket\nrefused packet 1 ShortPacket\nserved 3\nrefused packet 4 ShortPacket\n";
    assert_eq!(rt; ran.replies.as_slice(), replies.as_bytes());
    Ok(())
}

#[test]
fn lines_that_are_no_request(rt: HostRuntime) -> Result<(), Fail> {
    let requests =
        b"\n  \n# frame 0\n  # x\r\nframe\nframe 0 0\nframe x\nFRAME 0\ncounts\n frame  0 \r\nframe 0\r";
    let ran = run_packets(rt.alloc(), &[KEY], requests)?;
    let replies =
        "refused Line\nrefused Line\nrefused Line\nrefused Line\nrefused Line\nserved 0\nrefused Line\n";
    assert_eq!(rt; ran.replies.as_slice(), replies.as_bytes());
    Ok(())
}

/// Lines that are not requests.
const UNKNOWN: &[&str] = &[
    "frame",
    "frame 3 4",
    "frame -1",
    "frame +1",
    "FRAME 1",
    "frame\t3",
    "frame 18446744073709551616",
    "frame 000000000000000000001",
    "use",
    "use 0 0",
    "use -",
    "insert 0 0",
    "insert 0 0 1",
    "insert 0 0 0x10",
    "insert 0 0 1g",
    "insert 0 0 --",
    "insert 0 0 00 00",
    "insert 0 18446744073709551616 -",
    "replace 7 0 -",
    "replace 7 a",
    "delete",
    "delete 5 6",
    "move 1",
    "copy 0 1",
    "copy 0 1 -",
    "copy 0 1 2 3",
    "blank 3 16",
    "blank 3 16 9 1",
    "blank 3 16 -",
    "blank 3 16 18446744073709551616",
    "hold",
    "hold 5 6",
    "holds 5",
    "hide",
    "hide 1 2",
    "hide -",
    "show",
    "show x",
    "packet",
    "packet 0 1",
    "packet -",
    "packets 0",
    "scripts -",
    "count 1",
    "stat",
    "frame 0\r\r",
];

#[test]
fn each_unknown_line(rt: HostRuntime) -> Result<(), Fail> {
    expect_unknown(&rt, UNKNOWN)
}

fn expect_unknown<R: Abort + AllocGlobal>(rt: &R, lines: &[&str]) -> Result<(), Fail> {
    for line in lines {
        let ran = run_packets(rt.alloc(), &[KEY], line.as_bytes())?;
        assert!(rt;
            ran.replies.as_slice() == b"refused Line\n".as_slice(),
            "{line}"
        );
    }
    Ok(())
}

// Spaces, leading zeros, the largest number, comments, and carriage returns.
#[test]
fn lines_in_other_words(rt: HostRuntime) -> Result<(), Fail> {
    let requests =
        b"\n   \n# x\n  # x\n#frame 3\n  frame   3  \nframe 18446744073709551615\nframe 00000000000000000001\r\n\r\n insert  1   2  - \ninsert 18446744073709551615 18446744073709551615 00\n blank  0  18446744073709551615  0 \n script  trim 0 1 2; splice 1 0 \nstats ";
    let ran = run_packets(rt.alloc(), &[KEY], requests)?;
    assert_eq!(rt;
        ran.replies.as_slice(),
        b"refused NoSuchFrame\nrefused NoSuchFrame\nrefused NoSuchFrame\nok 2\nrefused Place\nrefused Size\nok 2\ndecoded 0\n".as_slice()
    );
    Ok(())
}
