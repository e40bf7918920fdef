ghost use Rattle.std.specs.Prelude.{true, Bool};
ghost use Rattle.frame_session.specs.Noted.{Notes};

use crate::refusal::Refusal;
use crate::session::Session;

/// Is called after each line of a run, to explain what was refused.
pub trait Observer {
    /// Whether a request for a frame was refused.
    ghost has_refused: { Self → Bool };

    /// The reply to a line was written; a line that is empty or a comment has none. `asks_frame` says whether the line is a request for a
    /// frame, and `refusal` is the one that the reply reports, if it reports one. Of a live line for which memory ran out, `line` has only
    /// the first bytes, as many as there was memory for, and `asks_frame` is false.
    fn answered(
        &mut self,
        session: &Session,
        line: &[u8],
        asks_frame: bool,
        refusal: Option<Refusal>,
    )
        ensures { Notes (has_refused self.old) (has_refused self.new) asks_frame refusal };
}

/// Takes no notice.
#[derive(Drop)]
pub struct Unobserved {}

impl Observer for Unobserved {
    // Nothing is claimed of what is not observed.
    ghost has_refused = { λ unobserved. true };

    fn answered(
        &mut self,
        _session: &Session,
        _line: &[u8],
        _asks_frame: bool,
        _refusal: Option<Refusal>,
    ) {}
}
