//! Laws about durations and time stamps. Each law is the contract of a function that does nothing.

ghost use Rattle.std.specs.Prelude.{◌≡◌, ◌++◌, [], ◌∷◌, replicate};
ghost use Rattle.packet_times.specs.Durations.{durations_of};
ghost use Rattle.packet_times.specs.Examples.{frame, head_of, hidden, shown, thirty, twenty};
ghost use Rattle.packet_times.specs.Heads.{IsHeadFor};
ghost use Rattle.packet_times.specs.Laws.{StampsAreDue, TimesAreNear, UnitsAddUp};
ghost use Rattle.packet_times.specs.Medians.{median_of, steps_of};
ghost use Rattle.packet_times.specs.Stamps.{StampsAreOfFrames, stamped};
ghost use Rattle.packet_times.specs.Sums.{bases_of, due, stamps_of};

/// Worked examples: a step of 30 units, one of 40 over a hidden packet, whose own duration is up to the next shown
/// packet, a time stamp that goes back, and the last packet.
pub fn worked_durations()
    ensures steps { durations_of (twenty 33) (frame 10 shown ∷ frame 40 shown ∷ frame 70 hidden ∷ frame 80 shown ∷ frame 50 shown ∷ []) ≡ twenty 30 ∷ twenty 40 ∷ twenty 10 ∷ twenty 33 ∷ twenty 33 ∷ [] }
    ensures median { median_of (steps_of (frame 10 shown ∷ frame 40 shown ∷ frame 70 hidden ∷ frame 80 shown ∷ frame 50 shown ∷ [])) ≡ 30 }
    ensures lower { median_of (9 ∷ 4 ∷ 7 ∷ 2 ∷ []) ≡ 4 }
    ensures none { median_of [] ≡ 1 }
{}

/// Worked examples: 10 seconds of 30 frames a second and then 10 seconds of 20 last 20 seconds, in units of 1/60 second and of 1/30 second;
/// frames of 1.5 units each, whose sums 1.5, 3 and 4.5 are rounded half up; and frames that are shorter than a unit, of which each still has its
/// own time stamp.
pub fn worked_times()
    ensures joined { due (head_of 60 1) (replicate 300 (thirty 1) ++ replicate 200 (twenty 1)) ≡ 1200 }
    ensures coarse { due (head_of 30 1) (replicate 300 (thirty 1) ++ replicate 200 (twenty 1)) ≡ 600 }
    ensures halves { stamps_of (head_of 30 1) (twenty 1 ∷ twenty 1 ∷ twenty 1 ∷ []) ≡ 0 ∷ 2 ∷ 3 ∷ 5 ∷ [] }
    ensures no_rate { stamps_of (head_of 0 1) (twenty 1 ∷ twenty 1 ∷ twenty 1 ∷ []) ≡ 0 ∷ 2 ∷ 3 ∷ 5 ∷ [] }
    ensures short { stamps_of (head_of 7 1) (thirty 1 ∷ thirty 1 ∷ []) ≡ 0 ∷ 1 ∷ 2 ∷ [] }
{}

/// Worked examples: frames of 1/30 and of 1/20 second need units of 1/60 second, and a file of 60 frames a second has them already; frames of 1/20 second
/// alone need units of 1/20 second, and those of 1/15 second are whole numbers of units of 1/30 second.
pub fn worked_heads()
    ensures joined { IsHeadFor (head_of 30 1) (bases_of (thirty 1 ∷ twenty 1 ∷ thirty 1 ∷ [])) (head_of 60 1) }
    ensures whole { IsHeadFor (head_of 60 1) (bases_of (thirty 1 ∷ twenty 1 ∷ thirty 1 ∷ [])) (head_of 60 1) }
    ensures slow { IsHeadFor (head_of 30 1) (bases_of (twenty 1 ∷ [])) (head_of 20 1) }
    ensures stays { IsHeadFor (head_of 30 1) ((15, 1) ∷ []) (head_of 30 1) }
{}

/// Worked example: a hidden packet before the first frame, one before the last frame, and one after it.
pub fn worked_stamps()
    ensures { stamped (0 ∷ 30 ∷ 70 ∷ []) (hidden ∷ shown ∷ hidden ∷ shown ∷ hidden ∷ [])
        ≡ frame 0 hidden ∷ frame 0 shown ∷ frame 30 hidden ∷ frame 30 shown ∷ frame 70 hidden ∷ [] }
{}

/// A packet has the time stamp of the frame after those that the packets before it show: a hidden packet has that of the next frame.
pub fn stamps_are_of_frames()
    ensures { StampsAreOfFrames }
{}

/// If each frame lasts at least one unit of a head, its time stamp is the time after the frames before it.
pub fn stamps_are_due()
    ensures { StampsAreDue }
{}

/// The time after frames in units of a head is within half a unit of the exact time for each time base that is used.
pub fn times_are_near()
    ensures { TimesAreNear }
{}

/// If the durations of frames have the time base of the head, the time after them is the sum of their units.
pub fn units_add_up()
    ensures { UnitsAddUp }
{}
