// Saves: the file is the old one or the whole new one, whatever fails.
ghost use Rattle.std.specs.Prelude.{◌≡◌, []};
ghost use Rattle.std.specs.Io.Buffered.{writer_buffer, writer_contents};
ghost use Rattle.std.specs.Io.KnownBytes.{Appends};
ghost use Rattle.output_files.specs.Logs.{steps_of};

use crate::expected::{NONE, ONE, check, clear, expect, put};
use command_lines::NamedFiles;
use output_files::{Call, Log, SavePlace, SavedFiles, SavedText, Unsaved, finish, finish_both};
use std::fs;
use std::io::{self, BufWriter, ErrorKind, Write};
use std::os::unix::fs::{MetadataExt, PermissionsExt, symlink};
use std::process::Abort;
use std::rt::Files;

/// A call that fails.
#[derive(Clone, Copy, PartialEq, Eq)]
enum Failing {
    Nothing,
    Write,
    Of(Call),
    /// This call, and the removal after it.
    AndRemove(Call),
}

/// A file system with a file and a new file next to it, of which one call fails.
#[derive(Drop)]
struct FalseFiles {
    failing: Failing,
    /// The bytes of the file: 1 for the old ones, 2 for the new ones.
    file: u8,
    /// The number of bytes of the new file that are on the disk, if it is there.
    fresh: Option<usize>,
    log: Log,
}

/// The new file: the number of its bytes.
#[derive(Drop)]
struct FalseFile {
    fails: bool,
    count: usize,
}

impl Write for FalseFile {
    fn write(&mut self, buf: &[u8]) -> io::Result<usize> {
        if self.fails {
            return Err(ErrorKind::StorageFull.into());
        }
        self.count = self.count.saturating_add(buf.len());
        Ok(buf.len())
    }

    fn flush(&mut self) -> io::Result<()> {
        Ok(())
    }
}

impl FalseFiles {
    /// The result of a call.
    fn result(&self, call: Call) -> io::Result<()> {
        let fails = match self.failing {
            Failing::Nothing | Failing::Write => false,
            Failing::Of(failing) => failing == call,
            Failing::AndRemove(failing) => failing == call || call == Call::Remove,
        };
        if fails {
            return Err(ErrorKind::PermissionDenied.into());
        }
        Ok(())
    }
}

impl SavePlace for FalseFiles {
    type File = FalseFile;

    ghost steps = { λ place. steps_of place.log };

    fn make(&mut self) -> io::Result<FalseFile> {
        match self.result(Call::Make) {
            Ok(()) => {
                self.fresh = Some(0);
                self.log.done(Call::Make);
                let fails = self.failing == Failing::Write;
                Ok(FalseFile { fails, count: 0 })
            }
            Err(error) => {
                self.log.failed(Call::Make, error);
                Err(error)
            }
        }
    }

    fn sync(&mut self, file: &FalseFile) -> io::Result<()> {
        let result = self.result(Call::Sync);
        if result.is_ok() {
            self.fresh = Some(file.count);
        }
        self.log.ended(Call::Sync, result)
    }

    fn rename(&mut self) -> io::Result<()> {
        let result = self.result(Call::Rename);
        if result.is_ok() {
            self.file = if self.fresh == Some(TEXT.len()) { 2 } else { 0 };
            self.fresh = None;
        }
        self.log.ended(Call::Rename, result)
    }

    fn remove(&mut self) -> io::Result<()> {
        let result = self.result(Call::Remove);
        if result.is_ok() {
            self.fresh = None;
        }
        self.log.ended(Call::Remove, result)
    }
}

/// What is saved.
const TEXT: &[u8] = b"the new text";

#[derive(Drop)]
struct Text {
    bytes: &'static [u8],
}

impl SavedText for Text {
    ghost text = { λ text. text.bytes.now };

    fn write_to<W: Write + Drop>(&self, w: &mut BufWriter<W>) -> Result<(), Unsaved> {
        w.write_all(self.bytes).map_err(|_| Unsaved::Write)?;
        w.flush().map_err(|_| Unsaved::Write)
    }
}

/// A call that fails, and what the save leaves: the file, whether the new file is there, and whether it failed.
struct Case {
    failing: Failing,
    file: u8,
    has_fresh: bool,
    has_failed: bool,
}

const CASES: &[Case] = &[
    Case {
        failing: Failing::Nothing,
        file: 2,
        has_fresh: false,
        has_failed: false,
    },
    Case {
        failing: Failing::Of(Call::Make),
        file: 1,
        has_fresh: false,
        has_failed: true,
    },
    Case {
        failing: Failing::Write,
        file: 1,
        has_fresh: false,
        has_failed: true,
    },
    Case {
        failing: Failing::Of(Call::Sync),
        file: 1,
        has_fresh: false,
        has_failed: true,
    },
    Case {
        failing: Failing::Of(Call::Rename),
        file: 1,
        has_fresh: false,
        has_failed: true,
    },
    Case {
        failing: Failing::AndRemove(Call::Sync),
        file: 1,
        has_fresh: true,
        has_failed: true,
    },
    Case {
        failing: Failing::AndRemove(Call::Rename),
        file: 1,
        has_fresh: true,
        has_failed: true,
    },
];

/// Saves over a file system, and returns whether that failed.
fn fails<R: AllocGlobal>(rt: &R, files: &mut FalseFiles) -> bool
    requires { steps_of files.old.log ≡ [] }
{
    match files.make() {
        Ok(file) => finish(rt.alloc(), files, file, &Text { bytes: TEXT }).is_err(),
        Err(_) => true,
    }
}

/// Saves over a file system of which a call fails, and checks what is left.
fn expect_left<R: Abort + AllocGlobal>(rt: &R, case: &Case) {
    let mut files = FalseFiles {
        failing: case.failing,
        file: 1,
        fresh: None,
        log: Log::new(),
    };
    let has_failed = fails(rt, &mut files);
    assert!(rt; has_failed == case.has_failed && files.file == case.file);
    assert!(rt; files.fresh.is_some() == case.has_fresh);
}

/// A file is replaced by a whole one, or stays, and the new file remains only if it cannot be removed.
#[test]
fn keeps_a_file_whole(rt: HostRuntime) {
    for case in CASES {
        expect_left(&rt, case);
    }
}

/// The calls that fail of two saves, and what is left of both files.
struct BothCase {
    failing: (Failing, Failing),
    files: (u8, u8),
}

const BOTH: &[BothCase] = &[
    BothCase {
        failing: (Failing::Nothing, Failing::Nothing),
        files: (2, 2),
    },
    BothCase {
        failing: (Failing::Write, Failing::Nothing),
        files: (1, 1),
    },
    BothCase {
        failing: (Failing::Of(Call::Sync), Failing::Nothing),
        files: (1, 1),
    },
    BothCase {
        failing: (Failing::Nothing, Failing::Write),
        files: (1, 1),
    },
    BothCase {
        failing: (Failing::Nothing, Failing::Of(Call::Sync)),
        files: (1, 1),
    },
    BothCase {
        failing: (Failing::Of(Call::Rename), Failing::Nothing),
        files: (1, 1),
    },
    BothCase {
        failing: (Failing::Nothing, Failing::Of(Call::Rename)),
        files: (2, 1),
    },
    BothCase {
        failing: (Failing::Of(Call::Rename), Failing::Write),
        files: (1, 1),
    },
];

/// An old file, and no new one.
fn old_file(failing: Failing) -> FalseFiles
    ensures { steps_of result.log ≡ [] }
{
    FalseFiles {
        failing,
        file: 1,
        fresh: None,
        log: Log::new(),
    }
}

/// Saves twice over file systems, and returns whether that failed.
fn both_fail<R: AllocGlobal>(rt: &R, first: &mut FalseFiles, second: &mut FalseFiles) -> bool
    requires first { steps_of first.old.log ≡ [] }
    requires second { steps_of second.old.log ≡ [] }
{
    let Ok(file) = first.make() else {
        return true;
    };
    let Ok(next) = second.make() else {
        return true;
    };
    let text = Text { bytes: TEXT };
    finish_both(rt.alloc(), first, second, (file, next), (&text, &text)).is_err()
}

/// Saves twice over file systems of which calls fail, and checks what is left.
fn expect_both<R: Abort + AllocGlobal>(rt: &R, case: &BothCase) {
    let mut first = old_file(case.failing.0);
    let mut second = old_file(case.failing.1);
    let has_failed = both_fail(rt, &mut first, &mut second);
    assert!(rt; has_failed == (case.files.1 == 1));
    assert!(rt; first.file == case.files.0 && second.file == case.files.1);
    assert!(rt; first.fresh.is_none() && second.fresh.is_none());
}

/// Two files are both replaced, or neither is, unless only the second new file cannot replace its file.
#[test]
fn keeps_both_or_neither(rt: HostRuntime) {
    for case in BOTH {
        expect_both(&rt, case);
    }
}

/// The path of the first new file in a folder.
const FRESH: &str = "vp8serve-unfinished-save-1";

/// Runs a command line that saves one packet less than the stream has, and checks what was saved.
fn expect_saved<R: Abort + NamedFiles + SavedFiles + AllocGlobal>(rt: &R, line: &str, saved: &str) {
    expect(rt, line, "delete 0\n", "ok 0\n", "", 0);
    check(rt, saved, NONE);
    assert!(rt; !fs::exists(rt, FRESH).unwrap_or(true), "{line}");
}

/// Makes a stream, and a link to it.
fn put_linked<R: Abort + Files + AllocGlobal>(rt: &R) {
    put(rt, "over.ivf", ONE);
    let _ = fs::remove_file(rt, "over.link");
    assert!(rt; symlink(rt, "over.ivf", "over.link").is_ok());
}

const OVER: &str = "\
vp8serve over.ivf - - --save over.ivf
vp8serve over.ivf - - --save over.ivf --live
vp8serve over.ivf - - --save ./over.ivf
vp8serve over.ivf - - --save over.link
vp8serve over.ivf - - --save over.link --live
vp8serve over.ivf - - --save over.ivf --sources over.link";

/// A save may be over IN, over a source, and over a link to IN, whose target is replaced.
#[test]
fn saves_over_the_stream(rt: HostRuntime) {
    for line in OVER.lines() {
        put_linked(&rt);
        expect_saved(&rt, line, "over.ivf");
    }
    let known = fs::symlink_metadata(&rt, "over.link").expect(&rt, "a link");
    assert!(rt; known.is_symlink());
    clear(&rt, "over.ivf over.link");
}

/// The mode of a file stays, and a hard link of it keeps the old bytes.
#[test]
fn keeps_the_mode(rt: HostRuntime) {
    put(&rt, "mode.ivf", ONE);
    let mode = fs::Permissions::from_mode(0o640);
    assert!(rt; fs::set_permissions(&rt, "mode.ivf", mode).is_ok());
    assert!(rt; fs::hard_link(&rt, "mode.ivf", "mode.old").is_ok());
    expect_saved(&rt, "vp8serve mode.ivf - - --save mode.ivf", "mode.ivf");
    check(&rt, "mode.old", ONE);
    let known = fs::metadata(&rt, "mode.ivf").expect(&rt, "a file");
    assert!(rt; known.mode() & 0o777 == 0o640);
    clear(&rt, "mode.ivf mode.old");
}

/// A save over a link to nothing makes its target.
#[test]
fn makes_the_target_of_a_link(rt: HostRuntime) {
    put(&rt, "made.ivf", ONE);
    assert!(rt; symlink(&rt, "made.target", "made.link").is_ok());
    expect_saved(&rt, "vp8serve made.ivf - - --save made.link", "made.target");
    clear(&rt, "made.ivf made.target made.link");
}

/// A run that ends with an error leaves no new file.
#[test]
fn leaves_no_new_file(rt: HostRuntime) {
    put(&rt, "left.ivf", b"DKIF");
    put(&rt, "left.saved", b"old");
    for line in [
        "vp8serve left.ivf - - --save left.saved",
        "vp8serve left.ivf - - --save left.saved --live",
    ] {
        expect(&rt, line, "", "", "vp8serve: input Header\n", 1);
        check(&rt, "left.saved", b"old");
        assert!(rt; !fs::exists(&rt, FRESH).unwrap_or(true), "{line}");
    }
    clear(&rt, "left.ivf left.saved");
}

/// A folder is refused by name, and so is a path whose folder is not there: with `--live` before a line is answered.
#[test]
fn refuses_to_save_over_a_folder(rt: HostRuntime) {
    let line = "vp8serve - - - --save . --explain";
    let told = "vp8serve: cannot write\n--save . cannot be created: Is a directory (os error 21)\n";
    expect(&rt, line, "count\n", "packets 0 frames 0\n", told, 1);
    let line = "vp8serve - - - --save . --explain --live";
    expect(&rt, line, "count\n", "", told, 1);
    let line = "vp8serve - - - --save none/x --live";
    expect(&rt, line, "count\n", "", "vp8serve: cannot write\n", 1);
}
