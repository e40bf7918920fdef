// The files of a run.
ghost use Rattle.serve_program.specs.Endings.{RunFiles, run_files};

use command_lines::NamedFiles;
use output_files::SavedFiles;

/// The files of a run as one value: the bytes at a path and what it names, where they are known, the file that was made at a path, and the
/// texts that were saved.
pub trait RunHost {
    ghost files: { Self → RunFiles };
}

impl<R: NamedFiles + SavedFiles> RunHost for R {
    ghost files = { λ rt. run_files (R.bytes_at rt) (R.place_at rt) R.Made.contents (R.is_made_at rt) (R.is_saved_at rt) };
}
