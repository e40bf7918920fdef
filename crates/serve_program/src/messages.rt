// What goes to standard error.
ghost use Rattle.std.specs.Prelude.{◌≡◌, ◌+◌, ◌-◌, ◌*◌, ◌/◌, ◌^◌, min, None, Some, false, option_map, slice_index_or};
ghost use Rattle.output_files.specs.Counts.{whole_pieces};
ghost use Rattle.frame_session.specs.Noted.{Notes};
ghost use Rattle.serve_program.specs.Frames.{frame_length};
ghost use Rattle.serve_arguments.specs.Statuses.{fault_of};

use explanations::{detail_of, is_no_text, write_refused};
use frame_session::{Observer, Refusal, Session, Size};
use output_files::{Taken, Unsaved};
use request_lines::{Line, read_line};
use serve_arguments::{Argument, Fault};
use std::io::{self, Write};

/// The number of lines of requests that are no text that are explained.
const MOST_NO_TEXT: u64 = 10;

/// A file that was not saved, and why not.
#[derive(Clone, Copy, Debug)]
pub struct UnsavedFile {
    /// The option that names it: `--save` or `--export`.
    pub option: Argument,
    pub why: Unsaved,
}

/// Standard error, and what is known of a run to explain its end.
#[derive(Drop)]
pub struct Messages<'a, E> {
    pub errors: &'a mut E,
    /// Whether refusals and errors are explained.
    pub explains: bool,
    /// The number of lines that were answered.
    answered: u64,
    /// The number of lines that are not text, and of those refused as `Line` after the first of them.
    no_text: u64,
    /// Whether an edit of this source was accepted.
    edited: [bool; 8],
    /// Whether a request for a frame was refused.
    has_refused: bool,
    /// Why the file for the frames could not be created, if it could not be.
    pub refused: Option<io::Error>,
    /// The file that was not saved, if one was not.
    pub unsaved: Option<UnsavedFile>,
    /// The size of the frames, once one was answered.
    size: Option<Size>,
    /// How much the file for the frames took, if the run failed.
    pub taken: Option<Taken>,
}

impl<'a, E: Write> Messages<'a, E> {
    /// Messages before any line is answered.
    pub fn new(errors: &'a mut E, explains: bool) -> Messages<'a, E>
        ensures explains { result.explains ≡ explains }
        ensures answered { result.answered ≡ 0 }
        ensures no_text { result.no_text ≡ 0 }
        ensures has_refused { result.has_refused ≡ false }
        ensures refused { result.refused ≡ None }
        ensures unsaved { result.unsaved ≡ None }
        ensures size { result.size ≡ None }
        ensures taken { result.taken ≡ None }
    {
        Messages {
            errors,
            explains,
            answered: 0,
            no_text: 0,
            edited: [false; 8],
            has_refused: false,
            refused: None,
            unsaved: None,
            size: None,
            taken: None,
        }
    }

    /// The number of the next line, counted from 1.
    pub fn next_line(&self) -> u64
        ensures { result ≡ min (self.now.answered + 1) (2 ^ 64 - 1) }
    {
        self.answered.saturating_add(1)
    }

    /// Whether a request for a frame was refused.
    pub fn has_refused(&self) -> bool
        ensures { result ≡ self.now.has_refused }
    {
        self.has_refused
    }

    /// The error of a file that was not saved.
    pub fn not_saved(&mut self, file: UnsavedFile) -> Fault<'static>
        ensures fault { result ≡ fault_of file.why }
        ensures unsaved { self.new.unsaved ≡ Some file }
        ensures has_refused { self.new.has_refused ≡ self.old.has_refused }
    {
        self.unsaved = Some(file);
        Fault::from(file.why)
    }
}

/// The number of bytes of a frame of this size in a YUV4MPEG2 text.
fn frame_length(size: Size) -> u64
    ensures { result ≡ frame_length size }
{
    let width = u64::from(size.width);
    let height = u64::from(size.height);
    6 + width * height + 2 * ((width + 1) / 2 * ((height + 1) / 2))
}

impl<E: Write> Messages<'_, E> {
    /// Whether an edit of this source was accepted.
    pub fn is_edited(&self, source: usize) -> bool
        ensures { result ≡ slice_index_or self.now.edited source false }
    {
        match self.edited.get(source) {
            Some(edited) => *edited,
            None => false,
        }
    }

    /// The number of whole frames that the file for the frames took, once the size of a frame is known.
    pub fn whole_frames(&self, taken: Taken) -> Option<u64>
        ensures { result ≡ option_map (λ size. whole_pieces taken (frame_length size)) self.now.size }
    {
        match self.size {
            Some(size) => Some(taken.whole_pieces(frame_length(size))),
            None => None,
        }
    }

    /// Takes note of a request for a frame that was refused.
    fn note_refusal(&mut self, asks_frame: bool, refusal: Option<Refusal>)
        ensures { Notes self.old.has_refused self.new.has_refused asks_frame refusal }
    {
        if asks_frame && refusal.is_some() {
            self.has_refused = true;
        }
    }

    /// Takes note of an edit that was accepted.
    fn note_edit(&mut self, session: &Session, line: &[u8])
        ensures { self.new.has_refused ≡ self.old.has_refused }
    {
        if !matches!(read_line(line), Ok(Line::Edit(_))) {
            return;
        }
        if let Some(edited) = self.edited.get_mut(session.current()) {
            *edited = true;
        }
    }

    /// Whether a refused line is explained: of requests that are no text only the first lines are. Before the first of
    /// these a line says so.
    fn is_explained(&mut self, line: &[u8], refusal: Refusal) -> bool
        ensures { self.new.has_refused ≡ self.old.has_refused }
    {
        if refusal != Refusal::Line || self.no_text == 0 && !is_no_text(line) {
            return true;
        }
        if self.no_text == 0 {
            let _ = writeln!(
                self.errors,
                "the requests are not text: IN is the first argument, REQUESTS the second"
            );
        }
        self.no_text = self.no_text.saturating_add(1);
        self.no_text <= MOST_NO_TEXT
    }
}

impl<E: Write> Observer for Messages<'_, E> {
    ghost has_refused = { λ messages. messages.has_refused };

    fn answered(
        &mut self,
        session: &Session,
        line: &[u8],
        asks_frame: bool,
        refusal: Option<Refusal>,
    ) {
        self.answered = self.answered.saturating_add(1);
        self.note_refusal(asks_frame, refusal);
        if !self.explains {
            return;
        }
        self.size = session.first_size();
        let Some(refusal) = refusal else {
            self.note_edit(session, line);
            return;
        };
        if self.is_explained(line, refusal) {
            let detail = detail_of(session, line, refusal);
            let _ = write_refused(self.errors, self.answered, line, detail, refusal);
        }
    }
}
