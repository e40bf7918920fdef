// Runs that end well, and the files that they leave.
use crate::expected::{
    Broken, CODED, NONE, ONE, OPENING, check, clear, expect, push_frame, put, run_line,
};
use command_lines::NamedFiles;
use frame_session::{RunFault, run};
use output_files::SavedFiles;
use std::alloc::Global;
use std::process::Abort;
use std::test::Fail;
use stream_files::EMPTY;
use vp8_tables::Tables;

#[test]
fn serves_a_frame(rt: HostRuntime) -> Result<(), Fail> {
    put(&rt, "frame.ivf", ONE);
    put(&rt, "frame.txt", b"# the first\n\nframe 0\nframe 1\nplay");
    let replies = "served 0\nrefused NoSuchFrame\nrefused Line\n";
    let mut want = Vec::from_slice(rt.alloc(), OPENING)?;
    push_frame(&mut want)?;
    for line in [
        "vp8serve frame.ivf frame.txt frame.y4m",
        "vp8serve frame.ivf frame.txt frame.y4m --live",
    ] {
        put(&rt, "frame.y4m", b"");
        expect(&rt, line, "", replies, "", 0);
        check(&rt, "frame.y4m", want.as_slice());
    }
    clear(&rt, "frame.ivf frame.txt frame.y4m");
    Ok(())
}

/// The file for the frames is created once all is read, and is empty if no frame was served.
#[test]
fn makes_the_file_for_the_frames_last(rt: HostRuntime) {
    put(&rt, "last.y4m", b"kept");
    expect(
        &rt,
        "vp8serve none.ivf - last.y4m",
        "",
        "",
        "vp8serve: cannot read none.ivf\n",
        1,
    );
    check(&rt, "last.y4m", b"kept");
    expect(
        &rt,
        "vp8serve - - last.y4m",
        "frame 0\n",
        "refused NoSuchFrame\n",
        "",
        0,
    );
    check(&rt, "last.y4m", b"");
    clear(&rt, "last.y4m");
}

#[test]
fn tells_spare_bytes(rt: HostRuntime) {
    put(&rt, "spare.ivf", &ONE[..51]);
    expect(
        &rt,
        "vp8serve spare.ivf",
        "frame 0\n",
        "refused NoSuchFrame\n",
        "spare 19\n",
        0,
    );
    let both = "vp8serve spare.ivf --sources -:spare.ivf";
    expect(
        &rt,
        both,
        "count\n",
        "packets 0 frames 0\n",
        "spare 38\n",
        0,
    );
    let mut output = Vec::new(rt.alloc());
    let status = run_line(
        &rt,
        "vp8serve spare.ivf",
        &mut b"".as_slice(),
        &mut output,
        &mut Broken {},
    );
    assert!(rt; output.is_empty() && status == 0);
    clear(&rt, "spare.ivf");
}

#[test]
fn needs_no_words(rt: HostRuntime) {
    expect(&rt, "vp8serve", "frame 0\n", "refused NoSuchFrame\n", "", 0);
}

/// The packets after the last request are saved: those of a file that is not edited are its own.
#[test]
fn saves_the_packets(rt: HostRuntime) {
    put(&rt, "saving.ivf", ONE);
    let line = "vp8serve saving.ivf - - --save saved.ivf";
    expect(&rt, line, "frame 0\n", "served 0\n", "", 0);
    check(&rt, "saved.ivf", ONE);
    expect(
        &rt,
        line,
        "delete 0\ndelete 0\n",
        "ok 0\nrefused Place\n",
        "",
        0,
    );
    check(&rt, "saved.ivf", NONE);
    clear(&rt, "saving.ivf saved.ivf");
}

/// The key packet and two packets after it: one whose last token partition is empty, and one of no bytes.
const EDITED: &[u8] =
    b"DKIF\0\0\x20\0VP80\x10\0\x10\0\x1E\0\0\0\x01\0\0\0\x03\0\0\0\0\0\0\0\x0A\0\0\0\0\0\0\0\0\0\0\0\x10\0\0\x9D\x01\x2A\x10\0\x10\0\x03\0\0\0\x01\0\0\0\0\0\0\0\x11\0\0\0\0\0\0\x02\0\0\0\0\0\0\0";

/// The same, padded: the first two packets have a byte 00 more.
const PADDED: &[u8] =
    b"DKIF\0\0\x20\0VP80\x10\0\x10\0\x1E\0\0\0\x01\0\0\0\x03\0\0\0\0\0\0\0\x0B\0\0\0\0\0\0\0\0\0\0\0\x10\0\0\x9D\x01\x2A\x10\0\x10\0\0\x04\0\0\0\x01\0\0\0\0\0\0\0\x11\0\0\0\0\0\0\0\x02\0\0\0\0\0\0\0";

/// With `--pad` packets whose last token partition is empty are saved with a byte 00 more.
#[test]
fn pads_saved_packets(rt: HostRuntime) {
    put(&rt, "padding.ivf", ONE);
    let line = "vp8serve padding.ivf - - --save padded.ivf";
    let requests = "insert 1 1 110000\ninsert 2 2 -\n";
    expect(&rt, line, requests, "ok 2\nok 3\n", "", 0);
    check(&rt, "padded.ivf", EDITED);
    let line = "vp8serve padding.ivf - - --save padded.ivf --pad";
    expect(&rt, line, requests, "ok 2\nok 3\n", "", 0);
    check(&rt, "padded.ivf", PADDED);
    let line = "vp8serve padding.ivf - - --pad --live --save padded.ivf";
    expect(&rt, line, requests, "ok 2\nok 3\n", "", 0);
    check(&rt, "padded.ivf", PADDED);
    clear(&rt, "padding.ivf padded.ivf");
}

/// With `--restamp` packets are saved with the time stamps of their durations: a packet that is not of a file is shown for
/// the median step, which is 1 for a file of one packet.
#[test]
fn restamps_saved_packets(rt: HostRuntime) {
    put(&rt, "stamping.ivf", ONE);
    let requests = "insert 1 70 110000\ninsert 2 3 -\n";
    let line = "vp8serve stamping.ivf - - --save stamped.ivf --restamp";
    expect(&rt, line, requests, "ok 2\nok 3\n", "", 0);
    check(&rt, "stamped.ivf", EDITED);
    let line = "vp8serve stamping.ivf - - --restamp --live --pad --save stamped.ivf";
    expect(&rt, line, requests, "ok 2\nok 3\n", "", 0);
    check(&rt, "stamped.ivf", PADDED);
    clear(&rt, "stamping.ivf stamped.ivf");
}

/// A key packet that is hidden and another packet that is shown, both with time stamp 0.
const EXPORTED: &[u8] =
    b"DKIF\0\0\x20\0VP80\x10\0\x10\0\x1E\0\0\0\x01\0\0\0\x02\0\0\0\0\0\0\0\x0B\0\0\0\0\0\0\0\0\0\0\0\0\0\0\x9D\x01\x2A\x10\0\x10\0\0\x04\0\0\0\0\0\0\0\0\0\0\0\x11\0\0\0";

/// The frames of the script are exported: frame 1 alone needs the key packet, hidden. Each ends empty, so a byte 00 follows
/// it, with `--pad` or without. The packets are saved too. IN may be the file.
#[test]
fn exports_frames(rt: HostRuntime) {
    put(&rt, "exporting.ivf", ONE);
    let requests = "insert 1 1 110000\ninsert 2 2 -\nscript trim 0 1 1\n";
    let replies = "ok 2\nok 3\nok 3\n";
    for line in [
        "vp8serve exporting.ivf - - --export exported.ivf --save edited.ivf",
        "vp8serve exporting.ivf - - --export exported.ivf --save edited.ivf --live",
    ] {
        expect(&rt, line, requests, replies, "", 0);
        check(&rt, "exported.ivf", EXPORTED);
        check(&rt, "edited.ivf", EDITED);
    }
    let line = "vp8serve exporting.ivf - - --export exported.ivf --pad";
    expect(&rt, line, requests, replies, "", 0);
    check(&rt, "exported.ivf", EXPORTED);
    let line = "vp8serve exporting.ivf - - --export exporting.ivf --explain";
    let told = "exported 1 frames as 2 packets, 1 of them hidden, 71 bytes; 0 decoding steps\n";
    expect(&rt, line, requests, replies, told, 0);
    check(&rt, "exporting.ivf", EXPORTED);
    clear(&rt, "exporting.ivf exported.ivf edited.ivf");
}

/// A script of no frames: a file of no packets, 0 by 0.
#[test]
fn exports_no_frames(rt: HostRuntime) {
    let line = "vp8serve - - - --export none.out";
    expect(&rt, line, "count\n", "packets 0 frames 0\n", "", 0);
    check(&rt, "none.out", &EMPTY);
    clear(&rt, "none.out");
}

/// A frame that cannot be exported is reported after the replies, and nothing is written, by --save neither. With --explain the next line
/// says what to do.
#[test]
fn tells_what_it_does_not_export(rt: HostRuntime) {
    put(&rt, "refusing.ivf", ONE);
    put(&rt, "old.ivf", b"old");
    put(&rt, "older.ivf", b"older");
    let changed = "script fade 0 0 1 128 128\nframe 0\n";
    let told = "vp8serve: frame 0 is changed by node 1\n";
    for line in [
        "vp8serve refusing.ivf - - --export old.ivf --save older.ivf",
        "vp8serve refusing.ivf - - --export old.ivf --save older.ivf --live",
    ] {
        expect(&rt, line, changed, "ok 1\nserved 0\n", told, 1);
        check(&rt, "old.ivf", b"old");
        check(&rt, "older.ivf", b"older");
    }
    let line = "vp8serve refusing.ivf - - --export old.ivf --explain";
    let told =
        "vp8serve: frame 0 is changed by node 1\n--export old.ivf keeps packets as they are, and node 1 of the script changes samples of frame 0: leave the node out, or pipe OUT into an encoder. Nothing is saved\n";
    expect(&rt, line, changed, "ok 1\nserved 0\n", told, 1);
    let broken = "insert 1 0 1100\n";
    let told =
        "vp8serve: frame 1 is refused: packet 1 ShortPacket\n--export old.ivf: frame 1 needs packet 1 of source 0, which is broken: repair the packet, or leave the frame out by a trim. Nothing is saved\n";
    expect(&rt, line, broken, "ok 2\n", told, 1);
    let outside = "script crop 0 0 0 18 2\n";
    let told =
        "vp8serve: frame 0 is refused: CropOutside\n--export old.ivf: a crop of the script reaches past the picture of frame 0: leave the crop out. Nothing is saved\n";
    expect(&rt, line, outside, "ok 1\n", told, 1);
    check(&rt, "old.ivf", b"old");
    clear(&rt, "refusing.ivf old.ivf older.ivf");
}

/// A file of --export that cannot be made: --save is given up too.
#[test]
fn tells_an_export_that_fails(rt: HostRuntime) {
    put(&rt, "kept.ivf", b"kept");
    for line in [
        "vp8serve --export none/out --save kept.ivf",
        "vp8serve --export none/out --save kept.ivf --live",
    ] {
        let mut output = Vec::new(rt.alloc());
        let mut errors = Vec::new(rt.alloc());
        let status = run_line(&rt, line, &mut b"".as_slice(), &mut output, &mut errors);
        assert!(rt; status == 1 && errors.as_slice() == b"vp8serve: cannot write\n".as_slice());
        check(&rt, "kept.ivf", b"kept");
    }
    clear(&rt, "kept.ivf");
}

/// With `--fail-refused` the exit status is 3 if a frame was refused, and files are saved all the same.
#[test]
fn fails_if_a_frame_is_refused(rt: HostRuntime) {
    put(&rt, "failing.ivf", ONE);
    let requests = "frame 1\nframe 0\n";
    let replies = "refused NoSuchFrame\nserved 0\n";
    for (line, status) in [
        ("vp8serve failing.ivf --save failed.ivf", 0),
        ("vp8serve failing.ivf --save failed.ivf --live", 0),
        ("vp8serve failing.ivf --save failed.ivf --fail-refused", 3),
        (
            "vp8serve failing.ivf --save failed.ivf --fail-refused --live",
            3,
        ),
    ] {
        put(&rt, "failed.ivf", NONE);
        expect(&rt, line, requests, replies, "", status);
        check(&rt, "failed.ivf", ONE);
    }
    clear(&rt, "failing.ivf failed.ivf");
}

/// Only a refused request for a frame is a failure: not a refused edit, question or line that is not a request.
#[test]
fn only_refused_frames_fail(rt: HostRuntime) {
    let requests =
        "delete 0\nframe\nuse 9\npacket 0\norigins 1 1\nscript x\nblank 0 16 16\nframe 0\n";
    let replies =
        "refused Place\nrefused Line\nrefused Source\nrefused Place\nrefused NoSuchFrame\nrefused Syntax\nok 1\nserved 0\n";
    expect(&rt, "vp8serve --fail-refused", requests, replies, "", 0);
    expect(
        &rt,
        "vp8serve --fail-refused --live",
        requests,
        replies,
        "",
        0,
    );
}

/// A save that fails is reported after the replies, and then trailing bytes are not reported.
#[test]
fn tells_a_save_that_fails(rt: HostRuntime) {
    put(&rt, "unsaved.ivf", &ONE[..51]);
    let line = "vp8serve unsaved.ivf --save none/saved.ivf";
    expect(
        &rt,
        line,
        "count\n",
        "packets 0 frames 0\n",
        "vp8serve: cannot write\n",
        1,
    );
    clear(&rt, "unsaved.ivf");
}

/// The least and the greatest number of cached states: with one, frame 0 is decoded again.
#[test]
fn takes_numbers_of_cached_states(rt: HostRuntime) {
    let requests = "blank 0 16 16\nhold 1\nframe 1\nframe 0\nstats\n";
    let again = "ok 1\nok 2\nserved 1\nserved 0\ndecoded 3\n";
    let cached = "ok 1\nok 2\nserved 1\nserved 0\ndecoded 2\n";
    expect(&rt, "vp8serve --cache 1", requests, again, "", 0);
    expect(&rt, "vp8serve --cache 4096", requests, cached, "", 0);
    expect(&rt, "vp8serve --cache 1 --live", requests, again, "", 0);
    expect(&rt, "vp8serve --cache 4096 --live", requests, cached, "", 0);
}

/// The frame of `CODED`, as written with these tables.
pub fn frame_with(alloc: Global, tables: Tables) -> Result<Vec<u8>, RunFault> {
    let mut frames = Vec::new(alloc);
    let mut replies = Vec::new(alloc);
    run(
        alloc,
        tables,
        1,
        &[CODED],
        b"frame 0\n",
        &mut frames,
        &mut replies,
    )?;
    Ok(frames)
}

/// Serves the frame of `CODED` with tables whose entries are all the same, and returns it.
fn coded_frame<R: Abort + NamedFiles + SavedFiles + AllocGlobal>(
    rt: &R,
    entry: u8,
) -> Result<Vec<u8>, Fail> {
    let frame = frame_with(rt.alloc(), Tables::read(&[entry; 3012])?)?;
    put(rt, "entries.bin", &[entry; 3012]);
    let line = "vp8serve coded.ivf - coded.y4m --tables entries.bin";
    expect(rt, line, "frame 0\n", "served 0\n", "", 0);
    check(rt, "coded.y4m", frame.as_slice());
    let line = "vp8serve coded.ivf - coded.y4m --tables entries.bin --live";
    expect(rt, line, "frame 0\n", "served 0\n", "", 0);
    check(rt, "coded.y4m", frame.as_slice());
    Ok(frame)
}

/// Tables of a file are used: two files make two different frames.
#[test]
fn uses_the_tables_of_a_file(rt: HostRuntime) -> Result<(), Fail> {
    put(&rt, "coded.ivf", CODED);
    let low = coded_frame(&rt, 128)?;
    let high = coded_frame(&rt, 201)?;
    assert!(rt; low.as_slice() != high.as_slice());
    clear(&rt, "coded.ivf entries.bin coded.y4m");
    Ok(())
}

const OF_SOURCES: &str = "\
script source 1\nframe 0\nuse 2\ncopy 0 0 0\nhold 1\nuse 1\nscript source 1; source 2; splice 0 2\ncount\nframe 0\nframe 2\nuse 3\ncopy 3 0 0\nscript source 3\nreplace 0 10\nscript source 1\nframe 0\n";

const REPLIES_OF_SOURCES: &str = "\
ok 1\nserved 0\nok 0\nok 1\nok 2\nok 1\nok 1\npackets 1 frames 3\nserved 0\nserved 2\nrefused Source\nrefused Source\nrefused Reference\nok 1\nok 1\nrefused source 1 packet 0 ShortPacket\n";

/// Requests over three sources, of which the last has no file. Only source 0 is saved.
#[test]
fn serves_sources(rt: HostRuntime) -> Result<(), Fail> {
    put(&rt, "first.ivf", ONE);
    put(&rt, "second.ivf", CODED);
    let mut want = frame_with(rt.alloc(), Tables::rfc())?;
    push_frame(&mut want)?;
    push_frame(&mut want)?;
    for line in [
        "vp8serve first.ivf - sources.y4m --sources second.ivf:- --save sources.ivf",
        "vp8serve first.ivf - sources.y4m --sources second.ivf:- --save sources.ivf --live",
    ] {
        expect(&rt, line, OF_SOURCES, REPLIES_OF_SOURCES, "", 0);
        check(&rt, "sources.y4m", want.as_slice());
        check(&rt, "sources.ivf", ONE);
        clear(&rt, "sources.y4m sources.ivf");
    }
    clear(&rt, "first.ivf second.ivf");
    Ok(())
}
