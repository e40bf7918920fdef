//! Questions, and edits that hide and show packets.

use crate::expected::expect_run;
use std::process::Abort;
use std::test::Fail;
use test_fixtures::{HIDDEN, INTER, KEY, Run, ivf_of, run_sources};

const LINE: &[u8] = b"YUV4MPEG2 W16 H16 F30:1 Ip C420jpeg\n";

/// The frame of `KEY`.
const KEY_FRAME: &[(usize, u8)] = &[(64, 0x80), (192, 0x81), (128, 0x80)];

/// The frame of `INTER` after `KEY`, and of `HIDDEN` once it is shown.
const GREY: &[(usize, u8)] = &[(384, 0x80)];

#[test]
fn packets_are_reported(rt: HostRuntime) -> Result<(), Fail> {
    expect_run(&rt, rt.alloc(), &PACKETS)
}

// A packet as it is now: `move` takes its time stamp along, and HEX of either case is reported in lower case.
const PACKETS: Run = Run {
    packets: &[&[0x30, 1, 0xFF], &[], &[7]],
    requests: b"packet 0\npacket 1\npacket 2\npacket 3\npacket 18446744073709551615\ninsert 1 99 00aBcD\npacket 1\nmove 0 1\npacket 0\nreplace 0 -\npacket 0\ndelete 0\npacket 0\n",
    replies: b"packet 0 3001ff\npacket 0 -\npacket 0 07\nrefused Place\nrefused Place\nok 4\npacket 99 00abcd\nok 4\npacket 99 00abcd\nok 4\npacket 99 -\nok 3\npacket 0 3001ff\n",
    frames: None,
};

#[test]
fn packets_are_listed(rt: HostRuntime) -> Result<(), Fail> {
    expect_run(&rt, rt.alloc(), &LISTED)
}

// Packet 1 is too short, so the packet after it is lost. The hidden packet before it is deleted, and the list is that of the packets now.
const LISTED: Run = Run {
    packets: &[KEY, HIDDEN, &[0x11, 0], INTER],
    requests: b"delete 1\nlist 1 2\nlist 3 1\nlist 4 1\nlist 0\n",
    replies: b"ok 3\nlines 2\n{\"packet\":1,\"frame\":1,\"stamp\":0,\"byte\":66,\"bytes\":2,\"kind\":null,\"show\":\"shown\",\"version\":null,\"size\":null,\"scale\":null,\"first\":null,\"partitions\":null,\"quantizer\":null,\"level\":null,\"last\":null,\"golden\":null,\"altref\":null,\"color\":null,\"clamp\":null,\"cause\":\"ShortPacket\"}\n{\"packet\":2,\"frame\":2,\"stamp\":0,\"byte\":80,\"bytes\":3,\"kind\":\"inter\",\"show\":\"shown\",\"version\":0,\"size\":null,\"scale\":null,\"first\":0,\"partitions\":1,\"quantizer\":0,\"level\":0,\"last\":null,\"golden\":null,\"altref\":null,\"color\":null,\"clamp\":null,\"cause\":\"lost\"}\nlines 0\nrefused Place\nrefused Line\n",
    frames: None,
};

#[test]
fn findings_are_reported(rt: HostRuntime) -> Result<(), Fail> {
    expect_run(&rt, rt.alloc(), &CHECKED)
}

// The findings of vp8list in the file with the packets that are left: the one that is lost with packet 1 has none of its own.
const CHECKED: Run = Run {
    packets: &[KEY, HIDDEN, &[0x11, 0], INTER],
    requests: b"delete 1\ncheck 0 3\ncheck 1 1\ncheck 2 9\ncheck 3 1\ncheck 4 1\ncheck 0\n",
    replies: b"ok 3\nlines 6\n{\"packet\":0,\"frame\":0,\"kind\":\"past_end\",\"partition\":null,\"bytes\":68,\"severity\":\"damage\"}\n{\"packet\":0,\"frame\":0,\"kind\":\"past_end\",\"partition\":0,\"bytes\":3,\"severity\":\"damage\"}\n{\"packet\":1,\"frame\":1,\"kind\":\"refused\",\"cause\":\"ShortPacket\",\"lost\":1,\"severity\":\"damage\"}\n{\"packet\":1,\"frame\":1,\"kind\":\"stamp_repeats\",\"stamp\":0,\"severity\":\"note\"}\n{\"packet\":2,\"frame\":2,\"kind\":\"stamp_repeats\",\"stamp\":0,\"severity\":\"note\"}\n{\"damage\":3,\"notes\":2}\nlines 3\n{\"packet\":1,\"frame\":1,\"kind\":\"refused\",\"cause\":\"ShortPacket\",\"lost\":1,\"severity\":\"damage\"}\n{\"packet\":1,\"frame\":1,\"kind\":\"stamp_repeats\",\"stamp\":0,\"severity\":\"note\"}\n{\"damage\":1,\"notes\":1}\nlines 2\n{\"packet\":2,\"frame\":2,\"kind\":\"stamp_repeats\",\"stamp\":0,\"severity\":\"note\"}\n{\"damage\":0,\"notes\":1}\nlines 1\n{\"damage\":0,\"notes\":0}\nrefused Place\nrefused Line\n",
    frames: None,
};

#[test]
fn origins_are_reported(rt: HostRuntime) -> Result<(), Fail> {
    expect_run(&rt, rt.alloc(), &ORIGINS)
}

// A crop to the whole picture, and a weight of 256, change nothing.
const ORIGINS: Run = Run {
    packets: &[KEY, HIDDEN, INTER],
    requests: b"script crop 0 0 0 16 16; fade 1 1 1 256 0; splice 2 0; crop 3 0 0 8 8\norigins 1 2\norigins 4 1\norigins 5 1\n",
    replies: b"ok 3\nlines 2\n{\"frame\":1,\"source\":0,\"source_frame\":1,\"packet\":2,\"changed\":[4]}\n{\"frame\":2,\"source\":0,\"source_frame\":0,\"packet\":0,\"changed\":[4]}\nlines 0\nrefused NoSuchFrame\n",
    frames: None,
};

#[test]
fn scripts_are_reported(rt: HostRuntime) -> Result<(), Fail> {
    expect_run(&rt, rt.alloc(), &SCRIPTS)
}

// The script that is set: one space between words, `;` between nodes, and no leading zeros. A refused one is not set.
const SCRIPTS: Run = Run {
    packets: &[KEY],
    requests: b"script\nscript   trim  0 0000000000 4294967295 ;splice  1   0\nscript\nscript trim 0 0 4294967295;splice 1 0\nscript \nscript blur 0\nscript\nscript crop 0 2 4 8 6; fade 1 7 10 256 0; source 0;trim 3 1 2\nscript\nscript   -\n script\n",
    replies: b"script -\nok 1\nscript trim 0 0 4294967295;splice 1 0\nok 1\nscript trim 0 0 4294967295;splice 1 0\nrefused Syntax\nscript trim 0 0 4294967295;splice 1 0\nok 1\nscript crop 0 2 4 8 6;fade 1 7 10 256 0;source 0;trim 3 1 2\nok 1\nscript -\n",
    frames: None,
};

#[test]
fn packets_are_hidden(rt: HostRuntime) -> Result<(), Fail> {
    expect_run(&rt, rt.alloc(), &HIDING)
}

const HIDING: Run = Run {
    packets: &[KEY, INTER, INTER, &[], &[0x11, 0], &[0xFF, 1, 2, 3]],
    requests: b"count\nhide 1\ncount\npacket 1\nhide 5\npacket 5\nshow 1\nshow 5\npacket 1\npacket 5\ncount\nhide 3\nshow 4\nhide 6\nshow 18446744073709551615\ncount\n",
    replies: b"packets 6 frames 6\nok 6\npackets 6 frames 5\npacket 0 010000\nok 6\npacket 0 ef010203\nok 6\nok 6\npacket 0 110000\npacket 0 ff010203\npackets 6 frames 6\nrefused NoBit\nrefused NoBit\nrefused Place\nrefused Place\npackets 6 frames 6\n",
    frames: None,
};

#[test]
fn a_hidden_packet_is_decoded_as_before(rt: HostRuntime) -> Result<(), Fail> {
    expect_run(&rt, rt.alloc(), &STEPS)
}

// Three packets are decoded once. Then nothing is: neither what is cached nor what follows depends on the show bit.
const STEPS: Run = Run {
    packets: &[KEY, HIDDEN, INTER],
    requests: b"frame 0\nframe 1\nstats\nshow 1\nframe 0\nframe 1\nframe 2\nhide 0\nframe 0\nframe 1\nhide 2\nframe 0\nframe 1\nstats\npacket 2\nscript\nstats\n",
    replies: b"served 0\nserved 1\ndecoded 3\nok 3\nserved 0\nserved 1\nserved 2\nok 3\nserved 0\nserved 1\nok 3\nserved 0\nrefused NoSuchFrame\ndecoded 3\npacket 0 010000\nscript -\ndecoded 3\n",
    frames: Some((
        LINE,
        &[KEY_FRAME, GREY, KEY_FRAME, GREY, GREY, GREY, GREY, GREY],
    )),
};

/// Checks the replies of requests over two files.
fn expect_replies<R: Abort + AllocGlobal>(
    rt: &R,
    requests: &[u8],
    replies: &[u8],
) -> Result<(), Fail> {
    let first = ivf_of(rt.alloc(), &[KEY])?;
    let second = ivf_of(rt.alloc(), &[INTER, HIDDEN])?;
    let ran = run_sources(rt.alloc(), 8, &[&first, &second], requests);
    assert!(rt; ran.replies.as_slice() == replies, "{:?}", ran.replies);
    Ok(())
}

// A question is about the current source, and so is a show bit.
#[test]
fn questions_of_sources(rt: HostRuntime) -> Result<(), Fail> {
    expect_replies(
        &rt,
        b"packet 1\nuse 1\npacket 0\nhide 0\npacket 0\nscript source 1\ncount\nscript\nuse 0\npacket 0\n",
        b"refused Place\nok 2\npacket 0 110000\nok 2\npacket 0 010000\nok 2\npackets 2 frames 0\nscript source 1\nok 1\npacket 0 1000009d012a10001000\n",
    )
}
