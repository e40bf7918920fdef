// Questions about a list of packets.
ghost use Rattle.std.specs.Prelude.{◌≡◌, None};
ghost use Rattle.vp8_tables.specs.Tables.{TableEntries};
ghost use Rattle.packet_edits.specs.Edits.{Listing};
ghost use Rattle.session_questions.specs.Kept.{IsLister};

use crate::reached::Reached;
use std::alloc::Global;
use stream_checks::{Pace, PacketsBefore};
use stream_facts::Position;

/// Answers questions about a list of packets, and keeps what it found for the next one: how the time stamps go on, and what is known
/// before one packet each for the lines, for the findings and for the macroblocks and headers.
///
/// What is kept is of the list as it was. After an edit of the list take a new one.
#[derive(Drop)]
pub struct Lister {
    pub(crate) alloc: Global,
    pub(crate) listed: Option<Position>,
    pub(crate) pace: Option<Pace>,
    pub(crate) checked: Option<PacketsBefore>,
    pub(crate) reached: Option<Reached>,
}

impl Lister {
    /// A lister of any list: nothing is kept yet.
    pub fn new(alloc: Global) -> Lister
        ensures { (tables : TableEntries) (list : Listing) → IsLister tables list result }
    {
        Lister {
            alloc,
            listed: None,
            pace: None,
            checked: None,
            reached: None,
        }
    }
}
