use std::alloc::Global;
use std::process::Abort;
use std::test::Fail;
use stream_facts::{Places, write_listing};
use stream_files::{Head, ivf_packet, ivf_read, ivf_start};

const HEAD: &str =
    "packet\tframe\tstamp\tbytes\tkind\tshow\tversion\tsize\tfirst\tpartitions\tquantizer\tlevel\tlast\tgolden\taltref\tcause\tbyte\tscale\tcolor\tclamp\n";

/// An IVF file of packets with the time stamps 5, 6 and so on.
fn file_of(alloc: Global, texts: &[&[u8]]) -> Result<Vec<u8>, Fail> {
    let mut bytes = Vec::new(alloc);
    let head = Head {
        width: 16,
        height: 16,
        rate: 30,
        scale: 1,
    };
    ivf_start(&mut bytes, head, 0)?;
    for (number, text) in texts.iter().enumerate() {
        ivf_packet(&mut bytes, (number as u64).wrapping_add(5), text)?;
    }
    Ok(bytes)
}

/// The list of an IVF file.
fn list_of(alloc: Global, bytes: &[u8]) -> Result<Vec<u8>, Fail> {
    let file = ivf_read(alloc, bytes)?;
    let mut output = Vec::new(alloc);
    let places = Places::of_ivf(bytes);
    write_listing(&mut output, &places, file.packets.as_slice())?;
    Ok(output)
}

/// A list must be the names of the columns and these lines.
fn expect_lines(rt: &impl Abort, alloc: Global, texts: &[&[u8]], lines: &str) -> Result<(), Fail> {
    let bytes = file_of(alloc, texts)?;
    let output = list_of(alloc, bytes.as_slice())?;
    let text = str::from_utf8(output.as_slice())?;
    assert_eq!(rt; text.strip_prefix(HEAD), Some(lines));
    Ok(())
}

// Bit 0 of the first byte is 0 for a key packet, bits 1 to 3 are the version, bit 4 shows it, and
// the bits above and two more bytes are the length of the first partition. Fields are 0 here, but for
// the scales of packet 8 and its clamping bit, and the color space bit of packet 11.
#[test]
fn lists_packets(rt: HostRuntime) -> Result<(), Fail> {
    let key = [0x10, 0, 0, 0x9D, 0x01, 0x2A, 0x10, 0, 0x10, 0].as_slice();
    let scaled = [0x30, 0, 0, 0x9D, 0x01, 0x2A, 0x10, 0x40, 0x10, 0xC0, 0x40].as_slice();
    let cut = [
        0x50, 0, 0, 0x9D, 0x01, 0x2A, 0x10, 0, 0x10, 0, 0, 1, 5, 0, 0,
    ]
    .as_slice();
    let colored = [0x30, 0, 0, 0x9D, 0x01, 0x2A, 0x10, 0, 0x10, 0, 0x80].as_slice();
    let texts = [
        [0x11, 0, 0].as_slice(),
        &[],
        key,
        &[0x11, 0, 0],
        &[0x01, 0, 0],
        &[],
        &[0x11, 0],
        &[0x11, 0, 0],
        scaled,
        &[0x19, 0, 0],
        cut,
        colored,
        &[0x31, 0, 0],
    ];
    let lines = "\
        0\t0\t5\t3\tinter\tshown\t0\t-\t0\t-\t-\t-\t-\t-\t-\tNoKeyFrame\t44\t-\t-\t-\n\
        1\t1\t6\t0\t-\tshown\t-\t-\t-\t-\t-\t-\t-\t-\t-\tlost\t59\t-\t-\t-\n\
        2\t2\t7\t10\tkey\tshown\t0\t16x16\t0\t1\t0\t0\tnew\tnew\tnew\t-\t71\t0x0\t0\t0\n\
        3\t3\t8\t3\tinter\tshown\t0\t-\t0\t1\t0\t0\t-\t-\t-\t-\t93\t-\t-\t-\n\
        4\t-\t9\t3\tinter\thidden\t0\t-\t0\t1\t0\t0\t-\t-\t-\t-\t108\t-\t-\t-\n\
        5\t4\t10\t0\t-\tshown\t-\t-\t-\t-\t-\t-\t-\t-\t-\t-\t123\t-\t-\t-\n\
        6\t5\t11\t2\t-\tshown\t-\t-\t-\t-\t-\t-\t-\t-\t-\tShortPacket\t135\t-\t-\t-\n\
        7\t6\t12\t3\tinter\tshown\t0\t-\t0\t1\t0\t0\t-\t-\t-\tlost\t149\t-\t-\t-\n\
        8\t7\t13\t11\tkey\tshown\t0\t16x16\t1\t1\t0\t0\tnew\tnew\tnew\t-\t164\t1x3\t0\t1\n\
        9\t8\t14\t3\tinter\tshown\t4\t-\t0\t-\t-\t-\t-\t-\t-\tVersion\t187\t-\t-\t-\n\
        10\t9\t15\t15\tkey\tshown\t0\t16x16\t2\t-\t-\t-\t-\t-\t-\tTokenPartition 0\t202\t0x0\t-\t-\n\
        11\t10\t16\t11\tkey\tshown\t0\t16x16\t1\t1\t0\t0\tnew\tnew\tnew\t-\t229\t0x0\t1\t0\n\
        12\t11\t17\t3\tinter\tshown\t0\t-\t1\t-\t-\t-\t-\t-\t-\tFirstPartition\t252\t-\t-\t-\n";
    expect_lines(&rt, rt.alloc(), &texts, lines)
}

// Packets that are at other bytes of a file than those of an IVF file's records.
#[test]
fn lists_packets_at_other_bytes(rt: HostRuntime) -> Result<(), Fail> {
    let bytes = file_of(rt.alloc(), &[[0x11, 0, 0].as_slice(), &[]])?;
    let file = ivf_read(rt.alloc(), bytes.as_slice())?;
    let mut begins = Vec::new(rt.alloc());
    begins.push(700)?;
    begins.push(100)?;
    let mut output = Vec::new(rt.alloc());
    write_listing(
        &mut output,
        &Places::Listed(begins),
        file.packets.as_slice(),
    )?;
    let text = str::from_utf8(output.as_slice())?;
    let lines = "\
        0\t0\t5\t3\tinter\tshown\t0\t-\t0\t-\t-\t-\t-\t-\t-\tNoKeyFrame\t700\t-\t-\t-\n\
        1\t1\t6\t0\t-\tshown\t-\t-\t-\t-\t-\t-\t-\t-\t-\tlost\t100\t-\t-\t-\n";
    assert_eq!(rt; text.strip_prefix(HEAD), Some(lines));
    Ok(())
}
