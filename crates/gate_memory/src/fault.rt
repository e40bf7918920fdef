//! Why the program ends early.

use frame_session::{LiveFault, Refusal};
use packet_edits::EditFault;
use reference_frames::StepFault;
use std::io;
use stream_files::{IvfFault, WriteFault};

/// Why the program ends early: a call was refused a second time, or for another reason than memory.
#[derive(Clone, Copy, Debug)]
pub enum Fault {
    /// Standard output returns an error.
    Io,
    Write(WriteFault),
    Stream(IvfFault),
    List(EditFault),
    Step(StepFault),
    Session(Refusal),
    Live(LiveFault),
    /// A live line was answered otherwise although it was not refused.
    Replies,
    NoMemory,
}

impl From<io::Error> for Fault {
    fn from(_: io::Error) -> Fault {
        Fault::Io
    }
}

impl From<WriteFault> for Fault {
    fn from(fault: WriteFault) -> Fault {
        Fault::Write(fault)
    }
}

impl From<IvfFault> for Fault {
    fn from(fault: IvfFault) -> Fault {
        Fault::Stream(fault)
    }
}

impl From<EditFault> for Fault {
    fn from(fault: EditFault) -> Fault {
        Fault::List(fault)
    }
}

impl From<StepFault> for Fault {
    fn from(fault: StepFault) -> Fault {
        Fault::Step(fault)
    }
}

impl From<Refusal> for Fault {
    fn from(refusal: Refusal) -> Fault {
        Fault::Session(refusal)
    }
}

impl From<LiveFault> for Fault {
    fn from(fault: LiveFault) -> Fault {
        Fault::Live(fault)
    }
}
