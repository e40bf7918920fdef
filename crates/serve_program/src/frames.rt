// The file for the frames.
ghost use Rattle.std.specs.Prelude.{◌≡◌, [], IfOk, OnOk};
ghost use Rattle.std.specs.Io.Buffered.{writer_buffer, writer_contents};
ghost use Rattle.std.specs.Io.KnownBytes.{Keeps};
ghost use Rattle.serve_program.specs.Outs.{IsFlushed, IsMadeAt};

use crate::messages::Messages;
use command_lines::{NO_FILE, NamedFiles};
use output_files::Counted;
use std::io::{BufWriter, Write};

/// The number of bytes of frames that are buffered.
pub const BYTES_AT_ONCE: usize = 65_536;

/// Why there is no file for the frames.
#[derive(Clone, Copy, Debug, PartialEq, Eq)]
pub enum Unmade {
    /// It cannot be created.
    File,
    /// There is no memory for its buffer.
    Memory,
}

/// Makes the file for the frames at `path`, empty, with a buffer before it; `None` if no file is named.
pub fn make_frames<R: NamedFiles + AllocGlobal, E: Write>(
    rt: &R,
    path: &str,
    messages: &mut Messages<'_, E>,
) -> Result<Option<BufWriter<Counted<R::Made>>>, Unmade>
    ensures made { IfOk result (IsMadeAt R.Made.contents (R.is_made_at rt.now) path.now) }
    ensures has_refused { messages.new.has_refused ≡ messages.old.has_refused }
{
    if path == NO_FILE {
        return Ok(None);
    }
    let file = match rt.make_named(path) {
        Ok(file) => file,
        Err(error) => {
            messages.refused = Some(error);
            return Err(Unmade::File);
        }
    };
    match BufWriter::with_capacity(rt.alloc(), BYTES_AT_ONCE, Counted::new(file)) {
        Ok(frames) => Ok(Some(frames)),
        Err(_) => Err(Unmade::Memory),
    }
}

/// Flushes the frames after a run, whose result is `answered`. Of a run that failed, the messages keep how many bytes the file took; what is left
/// in the buffer is written first.
///
/// The error of the run, or `unflushed` if only the flush fails.
pub fn end_frames<W: Write + Drop, E: Write, T: Drop, F: Drop>(
    frames: &mut BufWriter<Counted<W>>,
    answered: Result<T, F>,
    unflushed: F,
    messages: &mut Messages<'_, E>,
) -> Result<T, F>
    ensures result { IsFlushed unflushed answered result }
    ensures flushed { OnOk result (writer_buffer frames.new ≡ []) }
    ensures kept { OnOk result (Keeps (writer_contents ⟦<Counted<W> as Write>⟧.contents frames.old) (writer_contents ⟦<Counted<W> as Write>⟧.contents frames.new)) }
    ensures has_refused { messages.new.has_refused ≡ messages.old.has_refused }
{
    let flush = frames.flush();
    match answered {
        Ok(value) => match flush {
            Ok(()) => Ok(value),
            Err(_) => Err(unflushed),
        },
        Err(fault) => {
            messages.taken = Some(frames.get_ref().taken());
            Err(fault)
        }
    }
}
