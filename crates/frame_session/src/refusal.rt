ghost use Rattle.std.specs.Prelude.{◌≡◌};

use frame_header::Cause;
use packet_edits::EditFault;
use packet_forge::ForgeFault;
use script_nodes::{ApplyFault, ScriptFault};
use thiserror::Error;

/// Why a request is refused.
#[derive(Clone, Copy, Debug, PartialEq, Eq, Error)]
pub enum Refusal {
    /// The line is not a request.
    #[error("the line is not a request")]
    Line,
    /// There is no source with this number.
    #[error("there is no source with this number")]
    Source,
    /// There is no packet at the index.
    #[error("there is no packet at this index")]
    Place,
    /// The list already has the most packets that are allowed.
    #[error("there are already 1048576 packets")]
    Full,
    /// No id is left for another packet.
    #[error("no packet id is left")]
    Spent,
    /// The packet has fewer than 3 bytes, so it has no show bit.
    #[error("the packet has no show bit")]
    NoBit,
    /// No frame has the size that was asked of a forged packet.
    #[error("no frame has this size")]
    Size,
    /// The first partition of a packet to be forged is too large.
    #[error("the first partition of the forged packet is too large")]
    TooLarge,
    /// The script serves fewer frames.
    #[error("the script serves fewer frames")]
    NoSuchFrame,
    /// The stream of a source is broken at the packet at index `place`, both counted from 0.
    #[error("the stream of source {source} is broken at packet {place}: {cause}")]
    Packet {
        source: usize,
        place: usize,
        cause: Cause,
    },
    /// A crop of the script reaches past the size that it is applied to.
    #[error("a crop of the script reaches past the picture")]
    CropOutside,
    /// The frame does not have the size of the first frame that was served.
    #[error("the frame has another size than the first frame that was served")]
    SizeDiffers,
    /// The text of a script does not consist of nodes.
    #[error("the text is not a list of nodes")]
    Syntax,
    /// A script has more than 16 nodes.
    #[error("the script has more than 16 nodes")]
    Nodes,
    /// A node of a script uses a node that is not before it.
    #[error("a node uses a node that is not before it")]
    Reference,
    /// A number of a script is not allowed at its position.
    #[error("a number of the script is not allowed")]
    Number,
    /// Out of memory.
    #[error("out of memory")]
    NoMemory,
}

impl Refusal {
    ghost use Rattle.frame_session.specs.Edits.{refusal_by, refusal_by_forging};
    ghost use Rattle.frame_session.specs.Scripts.{refusal_by_apply, refusal_by_script};
    ghost use Rattle.frame_session.specs.Replies.{refusal_word};

    /// The refusal of a request whose edit has an error.
    pub(crate) fn by(fault: EditFault) -> Refusal
        ensures { result ≡ refusal_by fault }
    {
        match fault {
            EditFault::Place => Refusal::Place,
            EditFault::Full => Refusal::Full,
            EditFault::Spent => Refusal::Spent,
            EditFault::NoBit => Refusal::NoBit,
            EditFault::NoMemory => Refusal::NoMemory,
        }
    }

    /// The refusal of a request whose packet cannot be forged.
    pub(crate) fn by_forging(fault: ForgeFault) -> Refusal
        ensures { result ≡ refusal_by_forging fault }
    {
        match fault {
            ForgeFault::Size => Refusal::Size,
            ForgeFault::TooLarge => Refusal::TooLarge,
            ForgeFault::NoMemory => Refusal::NoMemory,
        }
    }

    /// The refusal of a request whose script has an error.
    pub(crate) fn by_script(fault: ScriptFault) -> Refusal
        ensures { result ≡ refusal_by_script fault }
    {
        match fault {
            ScriptFault::Syntax => Refusal::Syntax,
            ScriptFault::Nodes => Refusal::Nodes,
            ScriptFault::Reference => Refusal::Reference,
            ScriptFault::Number => Refusal::Number,
            ScriptFault::NoMemory => Refusal::NoMemory,
        }
    }

    /// The refusal of a frame of which the script makes no picture.
    pub(crate) fn by_apply(fault: ApplyFault) -> Refusal
        ensures { result ≡ refusal_by_apply fault }
    {
        match fault {
            ApplyFault::CropOutside => Refusal::CropOutside,
            ApplyFault::NoMemory => Refusal::NoMemory,
        }
    }

    /// The refusal's name; that of `Packet` is `packet`, without its index and cause.
    pub fn word(self) -> &'static str
        ensures { result.now ≡ refusal_word self }
    {
        match self {
            Refusal::Line => "Line",
            Refusal::Source => "Source",
            Refusal::Place => "Place",
            Refusal::Full => "Full",
            Refusal::Spent => "Spent",
            Refusal::NoBit => "NoBit",
            Refusal::Size => "Size",
            Refusal::TooLarge => "TooLarge",
            Refusal::NoSuchFrame => "NoSuchFrame",
            Refusal::Packet { .. } => "packet",
            Refusal::CropOutside => "CropOutside",
            Refusal::SizeDiffers => "SizeDiffers",
            Refusal::Syntax => "Syntax",
            Refusal::Nodes => "Nodes",
            Refusal::Reference => "Reference",
            Refusal::Number => "Number",
            Refusal::NoMemory => "NoMemory",
        }
    }
}
