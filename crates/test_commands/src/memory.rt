// The program over files in memory, of which its contract says all bytes.
ghost use Rattle.std.specs.Prelude.{◌≡◌, ℕ, List, Option, None, OnOk, Some, codes, if◌then◌else◌, nat_eq, option_map};
ghost use Rattle.std.specs.Cmp.Lexicographic.{pointwise};
ghost use Rattle.output_files.specs.declared.places.Kind.TheVariants.{File};

use crate::expected::{CODED, NONE, ONE, OPENING, push_frame};
use crate::runs::frame_with;
use command_lines::NamedFiles;
use output_files::{OneUnsaved, Place, PlacedFiles, Save, SavedFiles, SavedText, Unsaved};
use serve_program::{parse, serve};
use std::alloc::{AllocError, Allocator, Global};
use std::cell::Cell;
use std::fs::{Metadata, OpenOptions};
use std::io::{self, BufWriter, ErrorKind, Write};
use std::process::Abort;
use std::rt::Files;
use std::test::Fail;
use stream_files::ReadFault;
use vp8_tables::Tables;

/// Two files, `a.ivf` and `b.ivf`. Of the file that is made, and of the one that is saved, the sum of the bytes is noted.
#[derive(Drop)]
struct Memory<'a> {
    host: &'a HostRuntime,
    a: &'static [u8],
    b: &'static [u8],
    made: &'a Cell<u64>,
    saved: &'a Cell<u64>,
}

/// A file that is written.
#[derive(Drop)]
struct Made<'a> {
    bytes: Vec<u8>,
    sum: &'a Cell<u64>,
}

impl Write for Made<'_> {
    ghost contents = { λ file. Some file.bytes.items };

    fn write(&mut self, buf: &[u8]) -> io::Result<usize> {
        let count = self.bytes.write(buf)?;
        self.sum.set(sum_of(self.bytes.as_slice()));
        Ok(count)
    }

    fn flush(&mut self) -> io::Result<()> {
        Ok(())
    }
}

/// The sum of bytes, each with its place.
fn sum_of(bytes: &[u8]) -> u64 {
    let mut sum: u64 = 0;
    for byte in bytes {
        sum = sum.wrapping_mul(31).wrapping_add(u64::from(*byte) + 1);
    }
    sum
}

impl Memory<'_> {
    /// The bytes at a path.
    fn at(&self, path: &str) -> Option<&'static [u8]>
        ensures { option_map (λ bytes. bytes.now) result ≡ (if pointwise nat_eq path.now (codes "a.ivf") then Some self.now.a.now else if pointwise nat_eq path.now (codes "b.ivf") then Some self.now.b.now else None) }
    {
        if path == "a.ivf" {
            Some(self.a)
        } else if path == "b.ivf" {
            Some(self.b)
        } else {
            None
        }
    }
}

impl Alloc for Memory<'_> {
    type A = Global;

    fn alloc(&self) -> Global {
        self.host.alloc()
    }
}

impl<'a> NamedFiles for Memory<'a> {
    ghost bytes_at = { λ files path. if pointwise nat_eq path (codes "a.ivf") then Some files.a.now else if pointwise nat_eq path (codes "b.ivf") then Some files.b.now else None };

    fn read_named(&self, alloc: Global, path: &str, most: usize) -> Result<Vec<u8>, ReadFault> {
        match self.at(path) {
            Some(bytes) => {
                if bytes.len() > most {
                    return Err(ReadFault::TooLong);
                }
                Vec::from_slice(alloc, bytes).map_err(|_| ReadFault::NoMemory)
            }
            None => Err(ReadFault::Read),
        }
    }

    type Opened = &'static [u8];

    fn open_named(&self, path: &str) -> io::Result<&'static [u8]> {
        match self.at(path) {
            Some(bytes) => Ok(bytes),
            None => Err(ErrorKind::NotFound.into()),
        }
    }

    type Made = Made<'a>;

    fn make_named(&self, _path: &str) -> io::Result<Made<'a>> {
        self.made.set(0);
        Ok(Made {
            bytes: Vec::new(self.alloc()),
            sum: self.made,
        })
    }
}

/// Each path names a file of its own.
impl PlacedFiles for Memory<'_> {
    ghost place_at = { λ _ path. Some (Some (record { device = 1; inode = 2; name = path; kind = File })) };

    fn place_of(&self, alloc: Global, path: &str) -> Result<Option<Place>, AllocError> {
        let name = String::from_str(alloc, path)?;
        Ok(Some(Place::of_file(1, 2, name)))
    }
}

impl<'a> SavedFiles for Memory<'a> {
    type Begun = Made<'a>;

    fn begin_save(&self, alloc: Global, _path: &str) -> io::Result<Made<'a>> {
        self.saved.set(0);
        Ok(Made {
            bytes: Vec::new(alloc),
            sum: self.saved,
        })
    }

    fn finish_save<T: SavedText>(
        &self,
        alloc: Global,
        _path: &str,
        begun: Made<'a>,
        text: &T,
    ) -> Result<(), Unsaved> {
        let mut file = BufWriter::new(alloc, begun).map_err(|_| Unsaved::NoMemory)?;
        text.write_to(&mut file)
    }

    fn finish_both<T: SavedText, U: SavedText>(
        &self,
        alloc: Global,
        first: Save<'_, Made<'a>, T>,
        second: Save<'_, Made<'a>, U>,
    ) -> Result<(), OneUnsaved>
        ensures first { OnOk result (Unit {0}) }
        ensures second { OnOk result (Unit {0}) }
    {
        let Save { path, begun, text } = first;
        self.finish_save(alloc, path, begun, text)
            .map_err(OneUnsaved::First)?;
        let Save { path, begun, text } = second;
        self.finish_save(alloc, path, begun, text)
            .map_err(OneUnsaved::Second)
    }

    fn abandon_save(&self, _alloc: Global, _begun: Made<'a>) {
        self.saved.set(0);
    }
}

/// What is at a path otherwise is asked of the system.
impl Files for Memory<'_> {
    type File = <HostRuntime as Files>::File;

    type Dir = <HostRuntime as Files>::Dir;

    fn open_file(&self, how: &OpenOptions, path: &str) -> io::Result<<HostRuntime as Files>::File> {
        self.host.open_file(how, path)
    }

    fn open_dir(&self, path: &str) -> io::Result<<HostRuntime as Files>::Dir> {
        self.host.open_dir(path)
    }

    fn metadata(&self, path: &str) -> io::Result<Metadata> {
        self.host.metadata(path)
    }

    fn symlink_metadata(&self, path: &str) -> io::Result<Metadata> {
        self.host.symlink_metadata(path)
    }

    fn copy(&self, _from: &str, _to: &str) -> io::Result<u64> {
        Err(ErrorKind::Unsupported.into())
    }

    fn rename(&self, _from: &str, _to: &str) -> io::Result<()> {
        Err(ErrorKind::Unsupported.into())
    }

    fn remove_file(&self, _path: &str) -> io::Result<()> {
        Err(ErrorKind::Unsupported.into())
    }

    fn create_dir(&self, _path: &str) -> io::Result<()> {
        Err(ErrorKind::Unsupported.into())
    }

    fn remove_dir(&self, _path: &str) -> io::Result<()> {
        Err(ErrorKind::Unsupported.into())
    }

    fn remove_dir_all<B: Allocator>(&self, _alloc: B, _path: &str) -> io::Result<()> {
        Err(ErrorKind::Unsupported.into())
    }
}

/// Runs the program over files in memory, and checks its replies, its messages and its exit status.
fn expect_in<R: Abort + AllocGlobal>(
    rt: &R,
    files: &Memory<'_>,
    line: &str,
    requests: &str,
    replies: &str,
    told: &str,
) {
    let words: Result<Vec<&str>, AllocError> = line.split(' ').collect(rt.alloc());
    let words = words.expect(rt, "memory for the words");
    let parsed = parse(rt.alloc(), words.as_slice());
    let mut input = requests.as_bytes();
    let mut output = Vec::new(rt.alloc());
    let mut errors = Vec::new(rt.alloc());
    let status = {
        let mut buffered = BufWriter::new(rt.alloc(), &mut output).expect(
            rt,
            "memory for a buffer",
        );
        serve(
            files,
            words.as_slice(),
            parsed,
            &mut input,
            &mut buffered,
            &mut errors,
        )
    };
    assert!(rt; (status == 0) == told.is_empty(), "status of {line}");
    assert!(rt; errors.as_slice() == told.as_bytes(), "messages of {line}");
    assert!(rt;
        output.as_slice() == replies.as_bytes(),
        "replies of {line}"
    );
}

/// Checks which frame a source has: the sum of the file for the frames.
fn expect_frame<R: Abort + AllocGlobal>(
    rt: &R,
    files: &Memory<'_>,
    line: &str,
    requests: &str,
    want: &[u8],
) {
    expect_in(rt, files, line, requests, "ok 0\nserved 0\n", "");
    assert!(rt; files.made.get() == sum_of(want), "frames of {line}");
}

const FIRST: &str = "script source 1\nframe 0\n";

const SECOND: &str = "script source 2\nframe 0\n";

/// Each source has the bytes at its own path, in both orders of two paths, and OUT gains its frame.
#[test]
fn reads_each_source_at_its_path(rt: HostRuntime) -> Result<(), Fail> {
    let made = Cell::new(0);
    let saved = Cell::new(0);
    let files = Memory {
        host: &rt,
        a: ONE,
        b: CODED,
        made: &made,
        saved: &saved,
    };
    let coded = frame_with(rt.alloc(), Tables::rfc())?;
    let mut grey = Vec::from_slice(rt.alloc(), OPENING)?;
    push_frame(&mut grey)?;
    for line in [
        "vp8serve - - out.y4m --sources a.ivf:b.ivf",
        "vp8serve - - out.y4m --sources a.ivf:b.ivf --live",
    ] {
        expect_frame(&rt, &files, line, FIRST, grey.as_slice());
        expect_frame(&rt, &files, line, SECOND, coded.as_slice());
    }
    let line = "vp8serve - - out.y4m --sources b.ivf:a.ivf";
    expect_frame(&rt, &files, line, FIRST, coded.as_slice());
    expect_frame(&rt, &files, line, SECOND, grey.as_slice());
    let line = "vp8serve a.ivf - - --save saved.ivf";
    expect_in(&rt, &files, line, "delete 0\n", "ok 0\n", "");
    assert!(rt; saved.get() == sum_of(NONE));
    let line = "vp8serve c.ivf";
    expect_in(&rt, &files, line, "", "", "vp8serve: cannot read c.ivf\n");
    Ok(())
}
