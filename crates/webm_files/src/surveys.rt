// What is known of a file before memory is taken for it.
ghost use Rattle.std.specs.Prelude.{◌≡◌, ◌≤◌, length, IfSome, if◌then◌else◌, ◌==◌};
ghost use Rattle.std.specs.Option.{option_or};
ghost use Rattle.webm_files.specs.Surveys.{IsSurvey};

use super::elements::Element;
use super::ids::{INFO, TRACKS};
use super::walks::next_element;

/// The Tracks and Info of a file, and the number of its elements.
#[derive(Clone, Copy)]
pub(crate) struct Survey {
    pub(crate) tracks: Option<Element>,
    pub(crate) info: Option<Element>,
    pub(crate) elements: usize,
}

/// An element that was found before, or else this one if it has the name.
fn found_or(found: Option<Element>, element: Element, id: u64) -> Option<Element>
    ensures { result ≡ option_or found (if element.id == id then Some element else None) }
{
    if found.is_some() || element.id != id {
        found
    } else {
        Some(element)
    }
}

/// Reads the elements of a file once.
pub(crate) fn read_survey(bytes: &[u8]) -> Survey
    ensures is { IsSurvey bytes.now result }
    ensures tracks_order { IfSome result.tracks (λ found. found.start ≤ found.end) }
    ensures tracks_inside { IfSome result.tracks (λ found. found.end ≤ length bytes.now) }
    ensures info_order { IfSome result.info (λ found. found.start ≤ found.end) }
    ensures info_inside { IfSome result.info (λ found. found.end ≤ length bytes.now) }
{
    let mut tracks = None;
    let mut info = None;
    let mut count = 0;
    let mut at = 0;
    'elements: while let Some(element) = next_element(bytes, at) {
        tracks = found_or(tracks, element, TRACKS);
        info = found_or(info, element, INFO);
        count += 1;
        at = element.end;
    }
    Survey {
        tracks,
        info,
        elements: count,
    }
}
