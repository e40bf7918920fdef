//! The numbers that calls return.
ghost use Rattle.std.specs.Prelude.{◌≡◌};
ghost use Rattle.wokureti_c.specs.Statuses.{number_of_cut_fault, number_of_file_fault, number_of_refusal};

use frame_session::{CutFault, Refusal};
use stream_sources::StreamFault;

/// The call did what it says.
pub const OK: u32 = 0;

/// An argument is outside its range.
pub const ARGUMENT: u32 = 1;

/// The bytes of a source are not an IVF file of VP8.
pub const FILE: u32 = 2;

/// Out of memory.
pub const MEMORY: u32 = 3;

/// The handle holds nothing.
pub const CLOSED: u32 = 4;

/// There is too little room for what was asked for.
pub const ROOM: u32 = 5;

/// The tables do not have 3,012 bytes.
pub const TABLES: u32 = 6;

/// Out of memory for a reply: the line may have been answered.
pub const LOST: u32 = 7;

/// There is no source with this number.
pub const SOURCE: u32 = 17;

/// The script changes samples of a frame that is exported.
pub const CHANGED: u32 = 33;

/// An export would have more than 1,048,576 packets, or more than 1,073,741,824 bytes.
pub const EXPORT_FULL: u32 = 35;

/// The number of a refusal, 16 to 32.
pub fn number_of_refusal(refusal: Refusal) -> u32
    ensures { result ≡ number_of_refusal refusal }
{
    match refusal {
        Refusal::Line => 16,
        Refusal::Source => 17,
        Refusal::Place => 18,
        Refusal::Full => 19,
        Refusal::Spent => 20,
        Refusal::Size => 21,
        Refusal::TooLarge => 22,
        Refusal::NoSuchFrame => 23,
        Refusal::Packet { .. } => 24,
        Refusal::CropOutside => 25,
        Refusal::SizeDiffers => 26,
        Refusal::Syntax => 27,
        Refusal::Nodes => 28,
        Refusal::Reference => 29,
        Refusal::Number => 30,
        Refusal::NoMemory => 31,
        Refusal::NoBit => 32,
    }
}

/// The number of the error of the packets of an export: 34 to 37, or out of memory.
pub fn number_of_cut_fault(fault: CutFault) -> u32
    ensures { result ≡ number_of_cut_fault fault }
{
    match fault {
        CutFault::Place => 34,
        CutFault::Full => EXPORT_FULL,
        CutFault::Size => 36,
        CutFault::TooLarge => 37,
        CutFault::NoMemory => MEMORY,
    }
}

/// The number of the error of a file, 1 or above.
pub fn number_of_file_fault(fault: StreamFault) -> u32
    ensures { result ≡ number_of_file_fault fault }
{
    match fault {
        StreamFault::Header => 1,
        StreamFault::Magic => 2,
        StreamFault::FourCc => 3,
        StreamFault::HeaderLength => 4,
        StreamFault::TooMany => 5,
        StreamFault::NoMemory => 6,
        StreamFault::DocType => 7,
        StreamFault::NoTracks => 8,
        StreamFault::NoVideo => 9,
        StreamFault::Encoded => 10,
        StreamFault::Scale => 11,
    }
}
