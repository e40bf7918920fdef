//! The MD5s of a clip's frames.

use std::alloc::Global;
use std::io::{self, ErrorKind, Write};
use std::process::Abort;
use std::test::Fail;
use stream_checks::{HashFault, Unwatched, write_hashes};
use stream_files::{Bytes, Head, Packet, Packets, Stream};
use vp8_tables::Tables;

/// A key packet of 7x5 samples, from vpxenc.
const KEY: &str =
    "b004009d012a0700050000070885858885848800281013ad380d181fc01b701b201e91722d03f1cb631eaedea4a800fefffed81ffdfff94cfffea0a3eff9dffffbd48e0c8347ff9133a15a8afe4dffe907a9b1bff46ffeddd7aa5fff0484b4a9f8ac227ec911ff2ef28fffa9157ffbfe4c02b6b37e07ff19941418fffd1bb3ffaa6fa10a3431ffa7f4fff729deea651b4fdd6a3ff7e9efff2a43ff971bf427bff4e7fb511fee15b86dd416a63951ffa37dffeeda4f371f5257c27dfff7f6dbffe2fe7ff74740";

/// An inter packet that follows it.
const FIRST: &str =
    "11020000100d1000c00f6ff19337939b012000e4128c3d9c69be3f7968594ff98397b29f9a3a8b067db15816e169862bf901a0d0bfcc2e6f38b1cc97bfb95c00";

/// An inter packet that follows that.
const SECOND: &str =
    "d101000010092000c00181417fa0010000fe83eac0ada00567862a31aeb8f24088282426a9b7862a439844dc751929b8ce17440cd8a6e0fbf19f676eee9d027bc5b484aec2d000";

/// A hidden inter packet that follows that.
const HIDDEN: &str =
    "a101000010092000c00181417fa012e8cdfdb881732b9bc5495e30141a7d2abdeb016b8a05fcfd29f1ef202fe7e94f8f79017f3f4a7c7bb090adff33ffe5e4deacc445fe493fc9e7fe9fd3a27982e24143968777f400";

/// The text of `ffmpeg -copyts -i IN -fps_mode passthrough -autoscale 0 -bitexact -f framemd5 -` for the clip below.
const TEXT: &str = "\
#format: frame checksums
#version: 2
#hash: MD5
#tb 0: 1001/30000
#media_type 0: video
#codec_id 0: rawvideo
#dimensions 0: 7x5
#sar 0: 0/1
#stream#, dts,        pts, duration,     size, hash
0,          5,          5,        1,       59, e89d23cc9eff68836c7be6fa4032fb9c
0,          8,          8,        1,       59, e7a921ac55dc67e2b0a660278b21c084
0,          9,          9,        1,       59, 106f806f71f2cdc1e28183aff6730049
0,    1000000,    1000000,        1,       59, 2e4d71e01a981495e2acaf2e6cfb8c5a
";

/// A file whose header has another size than its frames, and a rate that is not in lowest terms.
fn file_of(alloc: Global, texts: &[(u64, &str)]) -> Result<Stream, Fail> {
    let mut packets = Vec::new(alloc);
    for (stamp, text) in texts {
        let bytes = Bytes::new(hex::decode(alloc, *text)?);
        packets.push(Packet {
            stamp: *stamp,
            bytes,
        })?;
    }
    let head = Head {
        width: 9,
        height: 9,
        rate: 60_000,
        scale: 2_002,
    };
    Ok(Stream {
        head,
        frame_rate: head.frame_rate(),
        packets: Packets::new(packets),
        spare: 0,
    })
}

/// A packet before the first key packet, frames with and without a gap between their time stamps, a hidden packet, and a packet that
/// is cut to two bytes.
fn clip(alloc: Global) -> Result<Stream, Fail> {
    let texts = [
        (3, FIRST),
        (5, KEY),
        (8, FIRST),
        (9, SECOND),
        (11, HIDDEN),
        (1_000_000, SECOND),
        (1_000_001, "b004"),
    ];
    file_of(alloc, &texts)
}

#[test]
fn hashes_as_ffmpeg(rt: HostRuntime) -> Result<(), Fail> {
    let file = clip(rt.alloc())?;
    let mut output = Vec::new(rt.alloc());
    let hashed = write_hashes(
        &mut output,
        rt.alloc(),
        &Tables::rfc(),
        &file,
        &mut Unwatched,
    );
    assert_eq!(rt; hashed, Ok(()));
    assert_eq!(rt; str::from_utf8(output.as_slice())?, TEXT);
    Ok(())
}

/// The lines before the frames, of a file without a frame.
const NO_FRAMES: &str = "\
#format: frame checksums
#version: 2
#hash: MD5
#tb 0: 1001/30000
#media_type 0: video
#codec_id 0: rawvideo
#dimensions 0: 9x9
#sar 0: 0/1
#stream#, dts,        pts, duration,     size, hash
";

#[test]
fn hashes_no_frames(rt: HostRuntime) -> Result<(), Fail> {
    let file = file_of(rt.alloc(), &[(0, FIRST), (1, "b004")])?;
    let mut output = Vec::new(rt.alloc());
    let hashed = write_hashes(
        &mut output,
        rt.alloc(),
        &Tables::rfc(),
        &file,
        &mut Unwatched,
    );
    assert_eq!(rt; hashed, Ok(()));
    assert_eq!(rt; str::from_utf8(output.as_slice())?, NO_FRAMES);
    Ok(())
}

/// A writer that takes this number of bytes, and then returns errors.
#[derive(Drop)]
struct Filling {
    room: usize,
}

impl Write for Filling {
    fn write(&mut self, buf: &[u8]) -> io::Result<usize> {
        if self.room == 0 {
            return Err(ErrorKind::StorageFull.into());
        }
        let taken = buf.len().min(self.room);
        self.room -= taken;
        Ok(taken)
    }

    fn flush(&mut self) -> io::Result<()> {
        Ok(())
    }
}

#[test]
fn reports_a_failing_writer(rt: HostRuntime) -> Result<(), Fail> {
    let file = clip(rt.alloc())?;
    for room in [0, 100, 250, 300, 400] {
        let mut output = Filling { room };
        let hashed = write_hashes(
            &mut output,
            rt.alloc(),
            &Tables::rfc(),
            &file,
            &mut Unwatched,
        );
        assert_eq!(rt; hashed, Err(HashFault::Write));
    }
    Ok(())
}
