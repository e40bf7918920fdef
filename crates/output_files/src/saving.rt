// Saving a text as a file, so that the file is the old one or the whole new one at each moment.
ghost use Rattle.std.specs.Prelude.{◌≡◌, ◌+◌, ◌<◌, ◌⊎◌, ◌++◌, ◌∷◌, [], ℕ, List, IfErr, IfOk, OnOk, length, false};
ghost use Rattle.std.specs.Io.Buffered.{writer_buffer, writer_contents, writer_inner};
ghost use Rattle.std.specs.Io.KnownBytes.{Appends, IsAtEnd};
ghost use Rattle.std.specs.IoError.{error_kind};
ghost use Rattle.output_files.specs.Steps.{IsAbandoned, IsGivenUp, IsSaved, IsUnrenamed, IsUnwritten, IsWritten, Step, failed_steps, is_unreplaced, most_steps};
ghost use Rattle.output_files.specs.Steps.Step.{Made, Synced, Renamed, Removed, Failed};

use crate::places::PlacedFiles;
use std::alloc::Global;
use std::io::{self, BufWriter, Write};
use std::rt::Files;

/// The number of bytes that are buffered.
pub(crate) const BYTES_AT_ONCE: usize = 65_536;

/// A call of a save.
#[derive(Clone, Copy, Debug, Default, PartialEq, Eq)]
pub enum Call {
    #[default]
    Make,
    Sync,
    Rename,
    Remove,
}

/// A file that is saved, and the new file next to it, which replaces it when it is whole.
///
/// The kit's files have no model, so the contract of a save is over the list of these calls. What each call does to a disk is the
/// definition `after`.
pub trait SavePlace {
    /// The new file, open.
    type File: Write + Drop;

    /// The calls so far, in order.
    ghost steps: { Self → List Step };

    /// Makes the new file, which is empty.
    fn make(&mut self) -> io::Result<Self::File>
        requires room { length (steps self.old) < most_steps }
        ensures made { OnOk result (steps self.new ≡ steps self.old ++ Made ∷ []) }
        ensures empty { IfOk result (λ file. IsAtEnd (Self.File.contents file)) }
        ensures failed { IfErr result (λ error. steps self.new ≡ steps self.old ++ Failed Call.Make (error_kind error) ∷ []) };

    /// Waits until the bytes of the new file are on the disk.
    fn sync(&mut self, file: &Self::File) -> io::Result<()>
        requires room { length (steps self.old) < most_steps }
        ensures synced { OnOk result (steps self.new ≡ steps self.old ++ Synced (Self.File.contents file.now) ∷ []) }
        ensures failed { IfErr result (λ error. steps self.new ≡ steps self.old ++ Failed Call.Sync (error_kind error) ∷ []) };

    /// Renames the new file over the file.
    fn rename(&mut self) -> io::Result<()>
        requires room { length (steps self.old) < most_steps }
        ensures renamed { OnOk result (steps self.new ≡ steps self.old ++ Renamed ∷ []) }
        ensures failed { IfErr result (λ error. steps self.new ≡ steps self.old ++ Failed Call.Rename (error_kind error) ∷ []) };

    /// Removes the new file.
    fn remove(&mut self) -> io::Result<()>
        requires room { length (steps self.old) < most_steps }
        ensures removed { OnOk result (steps self.new ≡ steps self.old ++ Removed ∷ []) }
        ensures failed { IfErr result (λ error. steps self.new ≡ steps self.old ++ Failed Call.Remove (error_kind error) ∷ []) };
}

/// Why a text was not saved. The file is as it was.
#[derive(Clone, Copy, Debug)]
pub enum Unsaved {
    /// Out of memory for the buffer.
    NoMemory,
    /// The new file could not be made.
    Make(io::Error),
    /// The new file did not take all bytes.
    Write,
    /// The bytes of the new file could not be brought to the disk.
    Sync(io::Error),
    /// The new file could not replace the file.
    Rename(io::Error),
}

/// Which of two texts was not saved first, and why. The other one was not saved either, unless this is the second one and its new file could not
/// replace its file.
#[derive(Clone, Copy, Debug)]
pub enum OneUnsaved {
    First(Unsaved),
    Second(Unsaved),
}

/// A text that is saved.
pub trait SavedText {
    /// Its bytes.
    ghost text: { Self → List ℕ };

    /// Writes it through a buffer, and flushes the buffer.
    ///
    /// `Write` if the writer returns an error, and `NoMemory` if memory for the text is refused.
    fn write_to<W: Write + Drop>(&self, w: &mut BufWriter<W>) -> Result<(), Unsaved>
        ensures written { OnOk result (Appends (writer_contents W.contents w.old) (writer_contents W.contents w.new) (text self.now)) }
        ensures flushed { OnOk result (writer_buffer w.new ≡ []) }
        ensures fault { IfErr result (λ why. (why ≡ Unsaved.NoMemory) ⊎ (why ≡ Unsaved.Write)) };
}

/// A save that is begun at a path, and its text.
#[derive(Drop)]
pub struct Save<'a, B, T> {
    pub path: &'a str,
    pub begun: B,
    pub text: &'a T,
}

/// Files that are saved by their paths.
///
/// The kit's files have no model. A contract over this trait says which texts were saved at a path. Nothing is known of the system's files: what a
/// save calls there is the contract of `finish`.
pub trait SavedFiles: Files + PlacedFiles {
    /// This text was saved at a path.
    ghost is_saved_at: { Self → List ℕ → List ℕ → Type 0 } = { λ _ _ _. Unit {0} };

    /// A save that is begun.
    type Begun: Drop;

    /// Begins a save at a path, with links followed: the new file is made, unless a device or a pipe is there.
    ///
    /// An error if something is there that cannot be written, for example a folder, if the path cannot be a file's, or if the new file cannot
    /// be made.
    fn begin_save(&self, alloc: Global, path: &str) -> io::Result<Self::Begun>;

    /// Saves a text at a path, as it was begun there. If that fails, a file there is as it was.
    fn finish_save<T: SavedText>(
        &self,
        alloc: Global,
        path: &str,
        begun: Self::Begun,
        text: &T,
    ) -> Result<(), Unsaved>
        ensures { OnOk result (is_saved_at self.now path.now (T.text text.now)) };

    /// Saves two texts at two paths, as they were begun there: both are whole and on the disk before either replaces a file. If that fails, both
    /// files are as they were, unless only the second could not be replaced.
    fn finish_both<T: SavedText, U: SavedText>(
        &self,
        alloc: Global,
        first: Save<'_, Self::Begun, T>,
        second: Save<'_, Self::Begun, U>,
    ) -> Result<(), OneUnsaved>
        ensures first { OnOk result (is_saved_at self.now first.entry.path.now (T.text first.entry.text.now)) }
        ensures second { OnOk result (is_saved_at self.now second.entry.path.now (U.text second.entry.text.now)) };

    /// Gives up a save: the new file is removed, if one was made.
    fn abandon_save(&self, alloc: Global, begun: Self::Begun);
}

/// Writes a text into a file that is open.
fn write_whole<W: Write + Drop, T: SavedText>(
    alloc: Global,
    file: W,
    text: &T,
) -> Result<BufWriter<W>, Unsaved>
    ensures whole { IfOk result (λ w. Appends (W.contents file) (W.contents (writer_inner w)) (T.text text.now)) }
    ensures fault { IfErr result (λ why. (why ≡ Unsaved.NoMemory) ⊎ (why ≡ Unsaved.Write)) }
{
    let mut buffered = BufWriter::with_capacity(alloc, BYTES_AT_ONCE, file).map_err(
        |_| Unsaved::NoMemory,
    )?;
    text.write_to(&mut buffered)?;
    Ok(buffered)
}

/// Writes a text into the new file, and brings it to the disk.
#[tactic(auto, using(crate::proofs::Unwritten::unwritten))]
fn put<P: SavePlace, T: SavedText>(
    alloc: Global,
    place: &mut P,
    file: P::File,
    text: &T,
) -> Result<(), Unsaved>
    requires made { P.steps place.old ≡ Made ∷ [] }
    ensures written { OnOk result (IsWritten (P.File.contents file) (T.text text.now) (P.steps place.new)) }
    ensures failed { IfErr result (IsUnwritten (P.File.contents file) (T.text text.now) (P.steps place.new)) }
{
    let whole = write_whole(alloc, file, text)?;
    place.sync(whole.get_ref()).map_err(Unsaved::Sync)
}

/// Writes a text into the new file, which was made, and brings it to the disk. If one of these fails, the new file is removed, and the first
/// error is returned.
pub fn write_new<P: SavePlace, T: SavedText>(
    alloc: Global,
    place: &mut P,
    file: P::File,
    text: &T,
) -> Result<(), Unsaved>
    requires made { P.steps place.old ≡ Made ∷ [] }
    ensures written { OnOk result (IsWritten (P.File.contents file) (T.text text.now) (P.steps place.new)) }
    ensures given_up { IfErr result (IsGivenUp (P.File.contents file) (T.text text.now) (P.steps place.new)) }
    ensures why { IfErr result (λ why. is_unreplaced why ≡ false) }
{
    let put = put(alloc, place, file, text);
    if put.is_err() {
        abandon(place);
    }
    put
}

/// Renames the new file, which is whole and on the disk, over the file. If that fails, the new file is removed.
pub fn replace<P: SavePlace>(place: &mut P) -> Result<(), Unsaved>
    requires room { length (P.steps place.old) + 1 < most_steps }
    ensures replaced { OnOk result (P.steps place.new ≡ P.steps place.old ++ Renamed ∷ []) }
    ensures given_up { IfErr result (IsUnrenamed (P.steps place.old) (P.steps place.new)) }
{
    match place.rename() {
        Ok(()) => Ok(()),
        Err(error) => {
            abandon(place);
            Err(Unsaved::Rename(error))
        }
    }
}

/// Ends a save whose new file was made: the text is written into it, it is brought to the disk, and it replaces the file. If one of these
/// fails, the new file is removed, and the first error is returned.
pub fn finish<P: SavePlace, T: SavedText>(
    alloc: Global,
    place: &mut P,
    file: P::File,
    text: &T,
) -> Result<(), Unsaved>
    requires made { P.steps place.old ≡ Made ∷ [] }
    ensures saved { OnOk result (IsSaved (P.File.contents file) (T.text text.now) (P.steps place.new)) }
    ensures given_up { IfErr result (IsGivenUp (P.File.contents file) (T.text text.now) (P.steps place.new)) }
{
    write_new(alloc, place, file, text)?;
    replace(place)
}

/// Removes the new file of a save that is given up. If that fails, it remains.
pub fn abandon<P: SavePlace>(place: &mut P)
    requires room { length (P.steps place.old) < most_steps }
    ensures { IsAbandoned (P.steps place.old) (P.steps place.new) }
{
    let _ = place.remove();
}
