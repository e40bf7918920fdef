// The cached states, by their number and by the bytes of their pictures.
use crate::expected::{ONE, clear, expect, put, run_line};
use command_lines::NamedFiles;
use frame_session::Session;
use output_files::SavedFiles;
use pixel_planes::Plane;
use std::process::Abort;
use std::test::Fail;
use stream_files::ivf_read;
use vp8_tables::Tables;

// The planes of 16x16 are 16x16 and twice 8x8 samples, with a border of 32 samples at each side: 80 * 80 + 2 * 72 * 72 = 16768 bytes. Those of
// 32x32 are 96 * 96 + 2 * 80 * 80 = 22016 bytes, those of 640x360, which is 40 x 23 macroblocks, 704 * 432 + 2 * 384 * 248 = 494592.

/// A packet with a key tag and no size, a 16x16 key frame and a 32x32 key frame.
const SIZES: &[u8] =
    b"DKIF\0\0\x20\0VP80\x10\0\x10\0\x1E\0\0\0\x01\0\0\0\x03\0\0\0\0\0\0\0\x03\0\0\0\0\0\0\0\0\0\0\0\x10\0\0\x0A\0\0\0\x01\0\0\0\0\0\0\0\x10\0\0\x9D\x01\x2A\x10\0\x10\0\x0A\0\0\0\x02\0\0\0\0\0\0\0\x10\0\0\x9D\x01\x2A\x20\0\x20\0";

/// A 640x360 key frame.
const WIDE: &[u8] =
    b"DKIF\0\0\x20\0VP80\x80\x02\x68\x01\x1E\0\0\0\x01\0\0\0\x01\0\0\0\0\0\0\0\x0A\0\0\0\0\0\0\0\0\0\0\0\x10\0\0\x9D\x01\x2A\x80\x02\x68\x01";

/// Requests over `ONE` that decode frame 0 again if only one state is cached.
const BACK: &str = "hold 1\nframe 1\nframe 0\nstats\n";

const BACK_AGAIN: &str = "ok 2\nserved 1\nserved 0\ndecoded 3\n";

const BACK_CACHED: &str = "ok 2\nserved 1\nserved 0\ndecoded 2\n";

/// A state counts as four pictures, and one is cached if none fits.
#[test]
fn caches_states_that_fit(rt: HostRuntime) {
    put(&rt, "fitting.ivf", ONE);
    for line in [
        "vp8serve fitting.ivf --cache-bytes 1",
        "vp8serve fitting.ivf --cache-bytes 134143",
        "vp8serve fitting.ivf --cache-bytes=130K",
        "vp8serve --live fitting.ivf --cache-bytes 134143",
    ] {
        expect(&rt, line, BACK, BACK_AGAIN, "", 0);
    }
    for line in [
        "vp8serve fitting.ivf --cache-bytes 134144",
        "vp8serve fitting.ivf --cache-bytes=131K",
        "vp8serve --live fitting.ivf --cache-bytes 134144",
        "vp8serve --live fitting.ivf --cache-bytes=1G",
    ] {
        expect(&rt, line, BACK, BACK_CACHED, "", 0);
    }
    clear(&rt, "fitting.ivf");
}

/// Each state counts by the size of its own pictures: four of 16x16 and four of 32x32 are 155136 bytes.
#[test]
fn counts_each_size(rt: HostRuntime) {
    put(&rt, "sizes.ivf", SIZES);
    let requests = "frame 1\nframe 2\nframe 1\nstats\n";
    let again = "served 1\nrefused SizeDiffers\nserved 1\ndecoded 3\n";
    let cached = "served 1\nrefused SizeDiffers\nserved 1\ndecoded 2\n";
    for line in [
        "vp8serve sizes.ivf --cache-bytes 134144",
        "vp8serve sizes.ivf --cache-bytes 155135",
        "vp8serve sizes.ivf --cache-bytes 155135 --live",
    ] {
        expect(&rt, line, requests, again, "", 0);
    }
    for line in [
        "vp8serve sizes.ivf --cache-bytes 155136",
        "vp8serve sizes.ivf --cache-bytes 155136 --live",
        "vp8serve sizes.ivf --sources sizes.ivf --cache-bytes 155136",
    ] {
        expect(&rt, line, requests, cached, "", 0);
    }
    clear(&rt, "sizes.ivf");
}

/// Whether these are the last replies to requests over 33 packets, of which the last is decoded first.
fn ends_with<R: Abort + NamedFiles + SavedFiles + AllocGlobal>(
    rt: &R,
    line: &str,
    last: &str,
) -> Result<bool, Fail> {
    let mut requests = Vec::from_slice(rt.alloc(), b"blank 0 16 16\n")?;
    for _ in 0..32 {
        requests.extend_from_slice(b"hold 1\n")?;
    }
    requests.extend_from_slice(b"frame 32\nframe 2\nstats\nframe 0\nstats\n")?;
    let mut replies = Vec::new(rt.alloc());
    let mut errors = Vec::new(rt.alloc());
    let mut requests = requests.as_slice();
    let status = run_line(rt, line, &mut requests, &mut replies, &mut errors);
    assert!(rt; status == 0 && errors.is_empty(), "{line}");
    Ok(replies.as_slice().ends_with(last.as_bytes()))
}

/// 32 states are cached if nothing is said. Frame 32 takes 33 steps: with 32 states packet 0 is dropped from the cache, with 31 packet 2
/// too, with 33 none.
#[test]
fn caches_32_states(rt: HostRuntime) -> Result<(), Fail> {
    let with_32 = "ok 33\nserved 32\nserved 2\ndecoded 33\nserved 0\ndecoded 34\n";
    for line in ["vp8serve", "vp8serve --cache 32"] {
        assert!(rt; ends_with(&rt, line, with_32)?, "{line}");
    }
    let with_31 = "ok 33\nserved 32\nserved 2\ndecoded 34\nserved 0\ndecoded 35\n";
    assert!(rt; ends_with(&rt, "vp8serve --cache 31", with_31)?);
    let with_33 = "ok 33\nserved 32\nserved 2\ndecoded 33\nserved 0\ndecoded 33\n";
    for line in ["vp8serve --cache 33", "vp8serve --cache-bytes 1G --live"] {
        assert!(rt; ends_with(&rt, line, with_33)?, "{line}");
    }
    Ok(())
}

/// After as many steps as states are cached, `--explain` reports what a picture takes, but not with a number of bytes.
#[test]
fn reports_what_a_state_takes(rt: HostRuntime) {
    put(&rt, "taking.ivf", ONE);
    put(&rt, "wide.ivf", WIDE);
    let requests = "hold 1\nframe 1\n";
    let two = "cache: 2 states of 16768 bytes each\n";
    for line in [
        "vp8serve taking.ivf --explain --cache 2",
        "vp8serve taking.ivf --explain --cache 2 --live",
    ] {
        expect(&rt, line, requests, "ok 2\nserved 1\n", two, 0);
        expect(&rt, line, "hold 1\nframe 0\n", "ok 2\nserved 0\n", "", 0);
    }
    for line in [
        "vp8serve taking.ivf --cache 2",
        "vp8serve taking.ivf --explain --cache-bytes 134144",
    ] {
        expect(&rt, line, requests, "ok 2\nserved 1\n", "", 0);
    }
    expect(
        &rt,
        "vp8serve wide.ivf --explain --cache 1",
        "frame 0\n",
        "served 0\n",
        "cache: 1 states of 494592 bytes each\n",
        0,
    );
    expect(
        &rt,
        "vp8serve --explain --cache 1",
        "blank 0 16 16\nframe 0\n",
        "ok 1\nserved 0\n",
        "",
        0,
    );
    clear(&rt, "taking.ivf wide.ivf");
}

/// The number of samples of a plane and its border.
fn samples_of(plane: &Plane) -> usize {
    plane.stride() * (plane.height() + 2 * plane.border())
}

/// The planes of a decoded picture have the border that is counted.
#[test]
fn counts_the_border(rt: HostRuntime) -> Result<(), Fail> {
    for (bytes, luma, chroma) in [(ONE, 6_400, 5_184), (WIDE, 304_128, 95_232)] {
        let mut files = Vec::new(rt.alloc());
        files.push(ivf_read(rt.alloc(), bytes)?)?;
        let mut session = Session::new(rt.alloc(), Tables::rfc(), 1, files)?;
        let picture = session.frame(0)?;
        assert!(rt; samples_of(picture.luma()) == luma);
        assert!(rt; samples_of(picture.cb()) == chroma);
        assert!(rt; samples_of(picture.cr()) == chroma);
    }
    Ok(())
}
