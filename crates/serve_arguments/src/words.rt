// The values of the command line, and which of them are accepted.
ghost use Rattle.std.specs.Prelude.{◌≡◌, ◌≤◌, ◌==◌, IfErr, IfOk, IfSome, OnOk, length, option_map};
ghost use Rattle.std.specs.List.{slice_split};
ghost use Rattle.serve_arguments.specs.Capacities.{IsGiven, bytes_given, states_given};
ghost use Rattle.serve_arguments.specs.CommandLines.{AreNoPaths, ArePaths, IsAccepted, IsMistake, capacity_asked, names_of, pads_nothing, paths_in, restamps_nothing};

use crate::capacities::{Capacity, size_of};
use crate::fault::{Fault, Mistake};
use crate::files::check_files;
use std::alloc::{AllocError, Global};

/// The character between the paths of `--sources`.
const SEPARATOR: char = ':';

/// The most paths of `--sources`.
const MOST_PATHS: usize = 7;

/// The default for the most cached states of a session.
const CAPACITY: u16 = 32;

/// The values of the arguments.
#[derive(Clone, Copy)]
pub struct Words<'a> {
    /// The IVF or WebM file; `-` for a stream with no packets.
    pub stream: &'a str,
    /// The files of sources 1 to 7, separated by `:`, if given; a path `-` for a stream with no packets.
    pub sources: Option<&'a str>,
    /// The requests; `-` for standard input.
    pub requests: &'a str,
    /// The file for the frames; `-` drops them.
    pub frames: &'a str,
    /// The most cached states, if given.
    pub cache: Option<u16>,
    /// The most bytes of cached pictures as written, if given.
    pub cache_bytes: Option<&'a str>,
    /// The file of the long tables, if given.
    pub tables: Option<&'a str>,
    /// The file for the packets after the run, if given.
    pub saved: Option<&'a str>,
    /// The file for the frames of the script after the run, as packets, if given.
    pub exported: Option<&'a str>,
    /// Whether saved and exported packets whose last token partition is empty are padded.
    pub pads: bool,
    /// Whether saved packets get new time stamps, by how long they are shown.
    pub restamps: bool,
    /// Whether each request line is answered as it comes.
    pub is_live: bool,
    /// Whether the exit status is 3 if a request for a frame was refused.
    pub fails_refused: bool,
}

impl Words<'_> {
    /// The most cached states of a session: the number or the size given, or 32 states. `None` if both are given, if the number is not
    /// 1 to 4,096, or the size is not one.
    fn capacity(self) -> Option<Capacity>
        ensures given { result ≡ capacity_asked self.entry }
        ensures range { IfSome result IsGiven }
    {
        match (self.cache, self.cache_bytes) {
            (None, None) => Some(Capacity::States(CAPACITY)),
            (Some(count), None) => states_given(count),
            (None, Some(size)) => bytes_given(size_of(size)),
            (Some(_), Some(_)) => None,
        }
    }

    /// Whether packets are to be padded, but neither saved nor exported.
    fn pads_nothing(self) -> bool
        ensures { result ≡ pads_nothing self.entry }
    {
        self.pads && self.saved.is_none() && self.exported.is_none()
    }

    /// Whether packets are to get new time stamps, but not saved.
    fn restamps_nothing(self) -> bool
        ensures { result ≡ restamps_nothing self.entry }
    {
        self.restamps && self.saved.is_none()
    }
}

/// The capacity of a number of states.
fn states_given(count: u16) -> Option<Capacity>
    ensures { result ≡ states_given count }
{
    if 1 <= count && count <= 4_096 {
        Some(Capacity::States(count))
    } else {
        None
    }
}

/// The capacity of a number of bytes, if there is one.
fn bytes_given(bytes: Option<u64>) -> Option<Capacity>
    ensures { result ≡ bytes_given bytes }
{
    match bytes {
        Some(bytes) => Some(Capacity::Bytes(bytes)),
        None => None,
    }
}

/// An accepted command line.
#[derive(Drop)]
pub struct Accepted<'a> {
    pub words: Words<'a>,
    /// The most cached states of a session.
    pub capacity: Capacity,
    /// The files of the sources after source 0.
    pub more: Vec<&'a str>,
}

/// The paths of a list.
fn split_paths(alloc: Global, list: &str) -> Result<Vec<&str>, AllocError>
    ensures { IfOk result (λ paths. names_of paths.items ≡ slice_split (λ b. b == 58) list.now) }
{
    list.split(SEPARATOR).collect(alloc)
}

/// The paths of a list, if there is one.
fn paths_in<'a>(alloc: Global, list: Option<&'a str>) -> Result<Vec<&'a str>, AllocError>
    ensures { IfOk result (λ paths. names_of paths.items ≡ paths_in (option_map (λ list. list.now) list.entry)) }
{
    match list {
        None => Ok(Vec::new(alloc)),
        Some(list) => split_paths(alloc, list),
    }
}

/// Checks the paths of the sources after source 0: at most 7, and none is empty.
fn check_paths(paths: &[&str]) -> Result<(), Fault<'static>>
    ensures paths { OnOk result (ArePaths (names_of paths.now)) }
    ensures fault { IfErr result (λ fault. fault ≡ Fault.CommandLine Mistake.Sources) }
    ensures mistake { IfErr result (λ fault. AreNoPaths (names_of paths.now)) }
{
    if MOST_PATHS < paths.len() {
        return Err(Fault::CommandLine(Mistake::Sources));
    }
    for path in paths {
        if path.is_empty() {
            return Err(Fault::CommandLine(Mistake::Sources));
        }
    }
    Ok(())
}

impl<'a> Words<'a> {
    /// Checks the command line before any file is read.
    ///
    /// `CommandLine` with the first mistake, in the order of `Mistake`'s variants;
    /// `NamedTwice` if OUT or the file of `--save` or `--export` is the file of another argument;
    /// `NoMemory`. Paths under `/dev/` may be named twice.
    pub fn accept(self, alloc: Global) -> Result<Accepted<'a>, Fault<'a>>
        ensures accepted { IfOk result (IsAccepted self.entry) }
        ensures mistake { IfErr result (IsMistake self.entry) }
        ensures capacity { IfOk result (λ line. IsGiven line.capacity) }
        ensures paths { IfOk result (λ line. length line.more.items ≤ 7) }
    {
        let Some(capacity) = self.capacity() else {
            return Err(Fault::CommandLine(Mistake::Cache));
        };
        if self.pads_nothing() {
            return Err(Fault::CommandLine(Mistake::Pad));
        }
        if self.restamps_nothing() {
            return Err(Fault::CommandLine(Mistake::Restamp));
        }
        let more = paths_in(alloc, self.sources).map_err(|_| Fault::NoMemory)?;
        check_paths(more.as_slice())?;
        check_files(alloc, self, more.as_slice())?;
        Ok(Accepted {
            words: self,
            capacity,
            more,
        })
    }
}
