//! Laws over the definitions.

ghost use Rattle.session_questions.specs.FindingLaws.{FindingsAreChecked, FindingsAreJoined};
ghost use Rattle.session_questions.specs.LineLaws.{LinesAreJoined, LinesAreListed};

/// The lines of all packets are the text that vp8list writes of the file to which they are saved.
pub fn lines_are_listed()
    ensures { LinesAreListed }
{}

/// The lines of consecutive packets, put together, are those of all of them.
pub fn lines_are_joined()
    ensures { LinesAreJoined }
{}

/// The findings at all packets, with those of the file to which they are saved, are the text that vp8list writes of it.
pub fn findings_are_checked()
    ensures { FindingsAreChecked }
{}

/// The findings at consecutive packets, put together, are those at all of them.
pub fn findings_are_joined()
    ensures { FindingsAreJoined }
{}
