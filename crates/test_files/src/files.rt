ghost use Rattle.std.specs.Prelude.{◌≤◌};

use pixel_planes::{NoMemory, Picture, Plane, Planes};
use std::alloc::{AllocError, Global};
use std::io::{self, ErrorKind, Read};
use std::process::Abort;
use std::rc::RcSlice;
use std::test::Fail;
use stream_files::{
    Bytes, EMPTY, Head, IvfFault, MAX_PACKETS, ReadFault, Stream, WriteFault, ivf_packet, ivf_read,
    ivf_share, ivf_start, read_all, y4m_frame, y4m_header,
};

/// A reader that returns one byte a call, as long as it has one, and an error at a later call.
#[derive(Drop)]
struct Dripping {
    /// The number of bytes that it has.
    bytes: u64,
    /// The number of the call that returns an error, counted from 1.
    failing: u64,
}

impl Read for Dripping {
    fn read(&mut self, buf: &mut [u8]) -> io::Result<usize> {
        self.failing = self.failing.saturating_sub(1);
        if self.failing == 0 {
            return Err(ErrorKind::Interrupted.into());
        }
        if self.bytes == 0 || buf.is_empty() {
            return Ok(0);
        }
        self.bytes -= 1;
        buf[0] = 7;
        Ok(1)
    }
}

/// The error of reading up to a limit.
fn fault_of<I: Read>(alloc: Global, reader: &mut I, limit: usize) -> Option<ReadFault> {
    read_all(alloc, reader, limit).err()
}

/// Reads up to a limit, and checks what is read.
fn expect_read<R: Abort, I: Read>(
    rt: &R,
    alloc: Global,
    reader: &mut I,
    limit: usize,
    want: &[u8],
) -> Result<(), Fail> {
    let all = read_all(alloc, reader, limit)?;
    assert_eq!(rt; all.as_slice(), want);
    Ok(())
}

#[test]
fn reads_up_to_a_limit(rt: HostRuntime) -> Result<(), Fail> {
    let bytes = [1, 2, 3, 4, 5].as_slice();
    for limit in [5, 6, usize::MAX] {
        let mut reader = bytes;
        expect_read(&rt, rt.alloc(), &mut reader, limit, bytes)?;
        assert_eq!(rt; reader.len(), 0);
    }
    let mut reader = bytes;
    assert!(rt; fault_of(rt.alloc(), &mut reader, 4) == Some(ReadFault::TooLong));
    Ok(())
}

// A reader that fails at each of its calls, one that returns a byte a call, and one without an end.
#[test]
fn reads_byte_by_byte(rt: HostRuntime) -> Result<(), Fail> {
    for failing in 1..=4 {
        let mut broken = Dripping { bytes: 3, failing };
        assert!(rt; fault_of(rt.alloc(), &mut broken, 5) == Some(ReadFault::Read));
    }
    let mut endless = Dripping {
        bytes: u64::MAX,
        failing: u64::MAX,
    };
    assert!(rt; fault_of(rt.alloc(), &mut endless, 5) == Some(ReadFault::TooLong));
    let mut whole = Dripping {
        bytes: 3,
        failing: 5,
    };
    expect_read(&rt, rt.alloc(), &mut whole, 5, &[7, 7, 7])
}

/// A header of 34 bytes, two packets and three bytes of a third record.
const FILE: [u8; 67] = [
    b'D', b'K', b'I', b'F', 9, 9, 34, 0, b'V', b'P', b'8', b'0', 64, 1, 240, 0, 25, 0, 0, 0, 2, 0,
    0, 0, 1, 0, 0, 0, 0, 0, 0, 0, 9, 9, //
    3, 0, 0, 0, 1, 0, 0, 0, 1, 0, 0, 0, 10, 11, 12, //
    0, 0, 0, 0, 5, 0, 0, 0, 0, 0, 0, 0, //
    1, 0, 0, 0, 7, 7,
];

const HEAD: Head = Head {
    width: 320,
    height: 240,
    rate: 25,
    scale: 2,
};

/// Whether a file has this packet at an index.
fn has_packet(file: &Stream, place: usize, stamp: u64, bytes: &[u8]) -> bool {
    match file.packets.as_slice().get(place) {
        None => false,
        Some(packet) => packet.stamp == stamp && packet.bytes.as_slice() == bytes,
    }
}

/// Whether a file has this header and so many packets and trailing bytes.
fn has_sizes(file: &Stream, head: Head, packets: usize, spare: u64) -> bool {
    file.head == head && file.packets.len() == packets && file.spare == spare
}

#[test]
fn reads_two_packets_and_reports_the_rest(rt: HostRuntime) -> Result<(), Fail> {
    let file = ivf_read(rt.alloc(), &FILE)?;
    assert!(rt; has_sizes(&file, HEAD, 2, 6));
    assert!(rt; has_packet(&file, 0, 4_294_967_297, &[10, 11, 12]));
    assert!(rt; has_packet(&file, 1, 5, &[]));
    Ok(())
}

/// The packets of a file that is read from shared bytes, which the caller lets go.
fn shared_packets(alloc: Global, bytes: &[u8]) -> Result<Stream, IvfFault> {
    let file = RcSlice::from_slice(alloc, bytes).map_err(|_| IvfFault::NoMemory)?;
    ivf_share(alloc, &file)
}

/// Whether two files have the same heads, packets and numbers of trailing bytes.
fn is_same_file(file: &Stream, other: &Stream) -> bool {
    let same = file.head == other.head && file.spare == other.spare;
    let packets = file.packets.as_slice();
    let others = other.packets.as_slice();
    same && packets.len() == others.len()
        && packets.iter().zip(others).all(|(packet, other)| {
            packet.stamp == other.stamp && packet.bytes.as_slice() == other.bytes.as_slice()
        })
}

// A file with two packets, one of them without bytes, and a cut record, from its whole text and from each beginning of it.
#[test]
fn shared_packets_are_those_that_are_copied(rt: HostRuntime) -> Result<(), Fail> {
    for length in 34..=67 {
        let shared = shared_packets(rt.alloc(), &FILE[..length])?;
        let copied = ivf_read(rt.alloc(), &FILE[..length])?;
        assert!(rt; is_same_file(&shared, &copied), "{length}");
    }
    let shared = shared_packets(rt.alloc(), &FILE)?;
    assert!(rt; has_sizes(&shared, HEAD, 2, 6));
    assert!(rt; has_packet(&shared, 0, 4_294_967_297, &[10, 11, 12]));
    assert!(rt; has_packet(&shared, 1, 5, &[]));
    Ok(())
}

/// The first packet's bytes again, from a file that is let go.
fn first_shared(alloc: Global, file: Stream) -> Result<Bytes, NoMemory> {
    match file.packets.get(0) {
        Some(packet) => packet.bytes.share(alloc),
        None => Err(NoMemory),
    }
}

#[test]
fn bytes_outlast_their_file(rt: HostRuntime) -> Result<(), Fail> {
    for file in [
        shared_packets(rt.alloc(), &FILE)?,
        ivf_read(rt.alloc(), &FILE)?,
    ] {
        let bytes = first_shared(rt.alloc(), file)?;
        assert_eq!(rt; bytes.as_slice(), [10, 11, 12].as_slice());
        let text = format!(in rt.alloc(); "{bytes:?}")?;
        assert_eq!(rt; text.as_str(), "Bytes { bytes: [10, 11, 12] }");
    }
    Ok(())
}

#[test]
fn shared_bytes_are_refused_alike(rt: HostRuntime) {
    let short = shared_packets(rt.alloc(), &FILE[..33]);
    assert!(rt; short.err() == Some(IvfFault::HeaderLength));
    let empty = shared_packets(rt.alloc(), &[]);
    assert!(rt; empty.err() == Some(IvfFault::Header));
}

const EMPTY_HEAD: Head = Head {
    width: 0,
    height: 0,
    rate: 30,
    scale: 1,
};

#[test]
fn reads_a_file_without_packets(rt: HostRuntime) -> Result<(), Fail> {
    let empty = ivf_read(rt.alloc(), &EMPTY)?;
    assert!(rt; has_sizes(&empty, EMPTY_HEAD, 0, 0));
    Ok(())
}

#[test]
fn refuses_what_is_no_file(rt: HostRuntime) {
    let mut codec = EMPTY;
    codec[8] = b'v';
    let mut short = EMPTY;
    short[6] = 31;
    let mut long = EMPTY;
    long[6] = 33;
    let wrong = [
        (&EMPTY[..31], "Header"),
        (&[0; 32], "Magic"),
        (&codec, "FourCc"),
        (&short, "HeaderLength"),
        (&long, "HeaderLength"),
    ];
    for (bytes, word) in wrong {
        let reported = ivf_read(rt.alloc(), bytes).err().map(|fault| fault.word());
        assert_eq!(rt; reported, Some(word));
    }
}

/// A picture of 3 by 1 samples, whose coded planes are larger.
fn picture(alloc: Global) -> Result<Picture, AllocError> {
    let mut luma = Plane::make(alloc, 16, 16, 99)?;
    luma.row_mut(0)[..3].copy_from_slice(b"abc");
    let mut cb = Plane::make(alloc, 8, 8, 99)?;
    cb.row_mut(0)[..2].copy_from_slice(b"de");
    let mut cr = Plane::make(alloc, 8, 8, 99)?;
    cr.row_mut(0)[..2].copy_from_slice(b"fg");
    Picture::share(alloc, Planes { luma, cb, cr }, 3, 1)
}

/// Writes a stream of one frame.
fn write_stream(text: &mut Vec<u8>, picture: &Picture) -> Result<(), WriteFault> {
    y4m_header(text, 3, 1, 25, 2)?;
    y4m_frame(text, picture)
}

#[test]
fn writes_a_stream(rt: HostRuntime) -> Result<(), Fail> {
    let picture = picture(rt.alloc())?;
    let mut text = Vec::new(rt.alloc());
    write_stream(&mut text, &picture)?;
    let want = b"YUV4MPEG2 W3 H1 F25:2 Ip C420jpeg\nFRAME\nabcdefg";
    assert_eq!(rt; text.as_slice(), want.as_slice());
    Ok(())
}

/// Writes a header for a rate without a meaning, and checks that it has 30 frames per second.
fn expect_usual_rate<R: Abort>(
    rt: &R,
    alloc: Global,
    rate: u32,
    scale: u32,
) -> Result<(), WriteFault> {
    let mut line = Vec::new(alloc);
    y4m_header(&mut line, 16, 16, rate, scale)?;
    let want = b"YUV4MPEG2 W16 H16 F30:1 Ip C420jpeg\n";
    assert_eq!(rt; line.as_slice(), want.as_slice());
    Ok(())
}

#[test]
fn a_rate_of_zero_is_thirty(rt: HostRuntime) -> Result<(), Fail> {
    expect_usual_rate(&rt, rt.alloc(), 0, 1)?;
    expect_usual_rate(&rt, rt.alloc(), 30, 0)?;
    Ok(())
}

#[test]
fn a_writer_without_room_refuses(rt: HostRuntime) -> Result<(), Fail> {
    let picture = picture(rt.alloc())?;
    let mut room = [0; 12];
    assert_eq!(rt;
        y4m_header(&mut room.as_mut_slice(), 3, 1, 25, 2),
        Err(WriteFault::Write)
    );
    assert_eq!(rt;
        y4m_frame(&mut room.as_mut_slice(), &picture),
        Err(WriteFault::Write)
    );
    Ok(())
}

/// A key packet of 16 by 16 samples with empty partitions.
const KEY: [u8; 10] = [0x10, 0, 0, 0x9D, 1, 0x2A, 16, 0, 16, 0];

/// The file of only that packet, 30 frames per second.
const KEY_FILE: [u8; 54] = [
    b'D', b'K', b'I', b'F', 0, 0, 32, 0, b'V', b'P', b'8', b'0', 16, 0, 16, 0, 30, 0, 0, 0, 1, 0,
    0, 0, 1, 0, 0, 0, 0, 0, 0, 0, //
    10, 0, 0, 0, 0, 0, 0, 0, 0, 0, 0, 0, //
    0x10, 0, 0, 0x9D, 1, 0x2A, 16, 0, 16, 0,
];

const KEY_HEAD: Head = Head {
    width: 16,
    height: 16,
    rate: 30,
    scale: 1,
};

/// The text of a file with one packet.
fn key_file(alloc: Global) -> Result<Vec<u8>, Fail> {
    let mut text = Vec::new(alloc);
    ivf_start(&mut text, KEY_HEAD, 1)?;
    ivf_packet(&mut text, 0, &KEY)?;
    Ok(text)
}

#[test]
fn writes_a_file_that_is_read(rt: HostRuntime) -> Result<(), Fail> {
    let text = key_file(rt.alloc())?;
    assert!(rt; text.as_slice() == KEY_FILE.as_slice());
    let file = ivf_read(rt.alloc(), &KEY_FILE)?;
    assert!(rt; has_sizes(&file, KEY_HEAD, 1, 0));
    Ok(())
}

#[test]
fn writes_a_record(rt: HostRuntime) -> Result<(), Fail> {
    let mut record = Vec::new(rt.alloc());
    ivf_packet(&mut record, 4_294_967_297, b"ab".as_slice())?;
    let want = [2, 0, 0, 0, 1, 0, 0, 0, 1, 0, 0, 0, b'a', b'b'];
    assert!(rt; record.as_slice() == want.as_slice());
    Ok(())
}

/// The number of packets and of trailing bytes of a file, or its error.
fn counts(alloc: Global, bytes: &[u8]) -> Result<(usize, u64), IvfFault> {
    let file = ivf_read(alloc, bytes)?;
    Ok((file.packets.len(), file.spare))
}

// Each beginning of a file of one packet. A cut record is dropped.
#[test]
fn files_that_are_cut(rt: HostRuntime) {
    for length in 0..=54 {
        let want = if length < 32 {
            Err(IvfFault::Header)
        } else if length < 54 {
            Ok((0, length as u64 - 32))
        } else {
            Ok((1, 0))
        };
        assert_eq!(rt; counts(rt.alloc(), &KEY_FILE[..length]), want, "{length}");
    }
}

/// The counts of a file of this length whose bytes after the header are 0.
fn counts_of_zeros(
    alloc: Global,
    length: usize,
) -> Result<Result<(usize, u64), IvfFault>, AllocError> {
    let mut text = Vec::from_slice(alloc, &EMPTY)?;
    text.resize(length, 0)?;
    Ok(counts(alloc, &text))
}

/// The counts of the file of one packet with four bytes of 255 at a place.
fn counts_with_largest(alloc: Global, place: usize) -> Result<(usize, u64), IvfFault>
    requires { place ≤ 50 }
{
    let mut file = KEY_FILE;
    file[place..place + 4].copy_from_slice(&[0xFF; 4]);
    counts(alloc, &file)
}

// The number of packets in a header may be any number. A record may not be longer than the file.
#[test]
fn the_largest_fields(rt: HostRuntime) {
    assert_eq!(rt; counts_with_largest(rt.alloc(), 24), Ok((1, 0)));
    assert_eq!(rt; counts_with_largest(rt.alloc(), 32), Ok((0, 22)));
}

#[test]
fn the_most_packets(rt: HostRuntime) -> Result<(), Fail> {
    let many = counts_of_zeros(rt.alloc(), 32 + 12 * MAX_PACKETS)?;
    assert_eq!(rt; many, Ok((MAX_PACKETS, 0)));
    let more = counts_of_zeros(rt.alloc(), 32 + 12 * MAX_PACKETS + 12)?;
    assert_eq!(rt; more, Err(IvfFault::TooMany));
    Ok(())
}

#[test]
fn a_file_without_room_is_refused(rt: HostRuntime) {
    let mut room = [0; 31];
    assert_eq!(rt;
        ivf_start(&mut room.as_mut_slice(), KEY_HEAD, 1),
        Err(WriteFault::Write)
    );
    let mut short = [0; 21];
    assert_eq!(rt;
        ivf_packet(&mut short.as_mut_slice(), 0, &KEY),
        Err(WriteFault::Write)
    );
}
