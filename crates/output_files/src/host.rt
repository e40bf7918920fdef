// Saving on the system's files.
ghost use Rattle.std.specs.Prelude.{◌≡◌, ◌∷◌, [], OnOk};
ghost use Rattle.output_files.specs.Logs.{steps_of};
ghost use Rattle.output_files.specs.Steps.Step.{Made};

use crate::both::finish_both;
use crate::links::{LinkedFiles, followed, parts_of};
use crate::log::Log;
use crate::saving::{
    BYTES_AT_ONCE, Call, OneUnsaved, Save, SavePlace, SavedFiles, SavedText, Unsaved, abandon,
    finish,
};
use std::alloc::Global;
use std::fs::{self, File, Metadata, OpenFile, OpenOptions};
use std::io::{self, BufWriter, ErrorKind, Write};
use std::os::unix::fs::{MetadataExt, OpenOptionsExt};
use std::rt::Files;

/// The name of a new file, before its number.
const NAME: &str = "vp8serve-unfinished-save-";

/// The most new files in one folder.
const MOST_FRESH: u32 = 10_000;

/// The mode of a file that was not there, before the system's mask.
const NEW_MODE: u32 = 0o666;

/// A new file that is written.
#[derive(Drop)]
pub struct NewFile<F> {
    inner: F,
}

impl<F: Write> Write for NewFile<F> {
    fn write(&mut self, buf: &[u8]) -> io::Result<usize> {
        self.inner.write(buf)
    }

    fn flush(&mut self) -> io::Result<()> {
        self.inner.flush()
    }
}

/// A file of the system that is saved, and the new file next to it.
#[derive(Drop)]
pub struct Replaced<'a, R> {
    files: &'a R,
    alloc: Global,
    /// The path of the file, with links followed.
    path: String,
    /// The file that is there.
    old: Option<Metadata>,
    /// The path of the new file, once it is made.
    fresh: String,
    log: Log,
}

impl<'a, R: Files> Replaced<'a, R> {
    /// A file that is saved at this path, which no link is at the end of, and what is known of the file that is there.
    fn new(files: &'a R, alloc: Global, path: String, old: Option<Metadata>) -> Replaced<'a, R>
        ensures { steps_of result.log ≡ [] }
    {
        Replaced {
            files,
            alloc,
            path,
            old,
            fresh: String::new(alloc),
            log: Log::new(),
        }
    }

    /// Makes a file in the folder of the file, with a name that no file there has. Returns it and its path.
    fn open_fresh(&self) -> io::Result<(R::File, String)> {
        let (folder, _) = parts_of(self.path.as_str());
        for number in 1..=MOST_FRESH {
            let path = format!(in self.alloc; "{folder}{NAME}{number}")?;
            match self.open_at(path.as_str()) {
                Ok(file) => return Ok((file, path)),
                Err(error) if error.kind() == ErrorKind::AlreadyExists => {}
                Err(error) => return Err(error),
            }
        }
        Err(ErrorKind::AlreadyExists.into())
    }

    /// Makes a file at this path, with the mode of the file that is there.
    fn open_at(&self, path: &str) -> io::Result<R::File> {
        let Some(old) = &self.old else {
            return OpenOptions::new()
                .write(true)
                .create_new(true)
                .mode(NEW_MODE)
                .open(self.files, path);
        };
        let file = OpenOptions::new()
            .write(true)
            .create_new(true)
            .mode(old.mode() & 0o777)
            .open(self.files, path)?;
        if let Err(error) = self.take_over(&file, path, old) {
            let _ = self.files.remove_file(path);
            return Err(error);
        }
        Ok(file)
    }

    /// Gives a new file the owner of the old one, if that is allowed, and its mode.
    fn take_over(&self, file: &R::File, path: &str, old: &Metadata) -> io::Result<()> {
        let known = file.metadata()?;
        if known.uid() != old.uid() || known.gid() != old.gid() {
            let _ = self.files.chown(path, Some(old.uid()), Some(old.gid()));
        }
        if file.metadata()?.mode() != old.mode() {
            file.set_permissions(old.permissions())?;
        }
        Ok(())
    }
}

impl<R: Files> SavePlace for Replaced<'_, R> {
    type File = NewFile<R::File>;

    ghost steps = { λ place. steps_of place.log };

    fn make(&mut self) -> io::Result<NewFile<R::File>> {
        match self.open_fresh() {
            Ok((file, path)) => {
                self.fresh = path;
                self.log.done(Call::Make);
                Ok(NewFile { inner: file })
            }
            Err(error) => {
                self.log.failed(Call::Make, error);
                Err(error)
            }
        }
    }

    fn sync(&mut self, file: &NewFile<R::File>) -> io::Result<()> {
        let result = file.inner.sync_all();
        self.log.ended(Call::Sync, result)
    }

    fn rename(&mut self) -> io::Result<()> {
        let result = self.files.rename(self.fresh.as_str(), self.path.as_str());
        self.log.ended(Call::Rename, result)
    }

    fn remove(&mut self) -> io::Result<()> {
        let result = self.files.remove_file(self.fresh.as_str());
        self.log.ended(Call::Remove, result)
    }
}

/// A save whose new file is made.
#[derive(Drop)]
pub struct Begun<F> {
    /// The path of the file, with links followed.
    path: String,
    /// The path of the new file.
    fresh: String,
    log: Log,
    file: NewFile<F>,
    ghost made: { steps_of log ≡ Made ∷ [] },
}

/// Makes the new file for a file at this path, which no link is at the end of.
fn make_fresh<R: Files>(
    files: &R,
    alloc: Global,
    path: String,
    old: Option<Metadata>,
) -> io::Result<Begun<R::File>> {
    let mut place = Replaced::new(files, alloc, path, old);
    let file = place.make()?;
    let Replaced {
        files: _,
        alloc: _,
        path,
        old: _,
        fresh,
        log,
    } = place;
    Ok(Begun {
        path,
        fresh,
        log,
        file,
    })
}

/// The file of a save that is begun, and the new file, which is open.
fn place_begun<R: Files>(
    files: &R,
    alloc: Global,
    begun: Begun<R::File>,
) -> (Replaced<'_, R>, NewFile<R::File>)
    ensures { steps_of result.0.log ≡ Made ∷ [] }
{
    let Begun {
        path,
        fresh,
        log,
        file,
    } = begun;
    let place = Replaced {
        files,
        alloc,
        path,
        old: None,
        fresh,
        log,
    };
    (place, file)
}

/// What a save writes.
#[derive(Drop)]
pub enum Target<F> {
    /// A device or a pipe, which is written as it is.
    AsItIs,
    /// A file, by a new file that replaces it.
    File(Begun<F>),
}

/// Writes a text to a device or a pipe.
fn save_as_it_is<R: Files, T: SavedText>(
    files: &R,
    alloc: Global,
    path: &str,
    text: &T,
) -> Result<(), Unsaved> {
    let file = File::create(files, path).map_err(Unsaved::Make)?;
    let mut saved = BufWriter::with_capacity(alloc, BYTES_AT_ONCE, file).map_err(
        |_| Unsaved::NoMemory,
    )?;
    text.write_to(&mut saved)
}

/// Saves a text, as it was begun.
fn finish_target<R: Files, T: SavedText>(
    files: &R,
    alloc: Global,
    save: Save<'_, Target<R::File>, T>,
) -> Result<(), Unsaved> {
    let Save { path, begun, text } = save;
    match begun {
        Target::AsItIs => save_as_it_is(files, alloc, path, text),
        Target::File(begun) => {
            let (mut place, file) = place_begun(files, alloc, begun);
            finish(alloc, &mut place, file, text)
        }
    }
}

/// Gives up a save: the new file is removed, if one was made.
fn abandon_target<R: Files>(files: &R, alloc: Global, begun: Target<R::File>) {
    if let Target::File(begun) = begun {
        let (mut place, _) = place_begun(files, alloc, begun);
        abandon(&mut place);
    }
}

/// Saves two texts, as they were begun: a device or a pipe is written before a file is replaced.
fn finish_targets<R: Files, T: SavedText, U: SavedText>(
    files: &R,
    alloc: Global,
    first: Save<'_, Target<R::File>, T>,
    second: Save<'_, Target<R::File>, U>,
) -> Result<(), OneUnsaved> {
    let Save {
        path: first_path,
        begun: first_begun,
        text: first_text,
    } = first;
    let Save {
        path: second_path,
        begun: second_begun,
        text: second_text,
    } = second;
    match (first_begun, second_begun) {
        (Target::File(one), Target::File(other)) => {
            let (mut place, file) = place_begun(files, alloc, one);
            let (mut next, next_file) = place_begun(files, alloc, other);
            let texts = (first_text, second_text);
            finish_both(alloc, &mut place, &mut next, (file, next_file), texts)
        }
        (Target::AsItIs, begun) => {
            if let Err(why) = save_as_it_is(files, alloc, first_path, first_text) {
                abandon_target(files, alloc, begun);
                return Err(OneUnsaved::First(why));
            }
            let rest = Save {
                path: second_path,
                begun,
                text: second_text,
            };
            finish_target(files, alloc, rest).map_err(OneUnsaved::Second)
        }
        (begun, Target::AsItIs) => {
            if let Err(why) = save_as_it_is(files, alloc, second_path, second_text) {
                abandon_target(files, alloc, begun);
                return Err(OneUnsaved::Second(why));
            }
            let rest = Save {
                path: first_path,
                begun,
                text: first_text,
            };
            finish_target(files, alloc, rest).map_err(OneUnsaved::First)
        }
    }
}

impl SavedFiles for HostRuntime {
    type Begun = Target<File>;

    fn begin_save(&self, alloc: Global, path: &str) -> io::Result<Target<File>> {
        begin(self, alloc, path)
    }

    fn finish_save<T: SavedText>(
        &self,
        alloc: Global,
        path: &str,
        begun: Target<File>,
        text: &T,
    ) -> Result<(), Unsaved> {
        finish_target(self, alloc, Save { path, begun, text })
    }

    fn finish_both<T: SavedText, U: SavedText>(
        &self,
        alloc: Global,
        first: Save<'_, Target<File>, T>,
        second: Save<'_, Target<File>, U>,
    ) -> Result<(), OneUnsaved>
        ensures first { OnOk result (Unit {0}) }
        ensures second { OnOk result (Unit {0}) }
    {
        finish_targets(self, alloc, first, second)
    }

    fn abandon_save(&self, alloc: Global, begun: Target<File>) {
        abandon_target(self, alloc, begun);
    }
}

/// Begins a save at a path, with links followed: the new file is made, unless a device or a pipe is there.
///
/// An error if something is there that cannot be written, for example a folder, if the path cannot be a file's, or if the new file cannot
/// be made.
fn begin<R: Files + LinkedFiles>(
    files: &R,
    alloc: Global,
    path: &str,
) -> io::Result<Target<R::File>> {
    let known = match fs::metadata(files, path) {
        Ok(known) => known,
        Err(error) if error.kind() == ErrorKind::NotFound => {
            let path = new_path(files, alloc, path)?;
            return Ok(Target::File(make_fresh(files, alloc, path, None)?));
        }
        Err(error) => return Err(error),
    };
    if !known.is_file() && !known.is_dir() {
        return Ok(Target::AsItIs);
    }
    OpenOptions::new().write(true).open(files, path)?;
    let path = followed(files, alloc, path)?;
    if !is_there(files, path.as_str(), &known) {
        return Ok(Target::AsItIs);
    }
    Ok(Target::File(make_fresh(files, alloc, path, Some(known))?))
}

/// The path of a file that is not there yet.
fn new_path<R: Files + LinkedFiles>(files: &R, alloc: Global, path: &str) -> io::Result<String> {
    let path = followed(files, alloc, path)?;
    let (folder, name) = parts_of(path.as_str());
    if name.is_empty() {
        let kind = if folder.is_empty() {
            ErrorKind::NotFound
        } else {
            ErrorKind::IsADirectory
        };
        return Err(kind.into());
    }
    Ok(path)
}

/// Whether this file is at this path. The path that the system shows for an open file that was removed leads to none.
fn is_there<R: Files>(files: &R, path: &str, known: &Metadata) -> bool {
    match fs::metadata(files, path) {
        Ok(there) => there.dev() == known.dev() && there.ino() == known.ino(),
        Err(_) => false,
    }
}
