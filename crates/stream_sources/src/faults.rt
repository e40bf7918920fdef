// Why a file is not a stream.
ghost use Rattle.std.specs.Prelude.{◌≡◌};
ghost use Rattle.stream_sources.specs.Faults.{of_ivf, of_webm, stream_fault_word};

use stream_files::IvfFault;
use thiserror::Error;
use webm_files::WebmFault;

/// Why bytes are not a stream. The bytes of a WebM or Matroska file begin with EBML's mark, 1A 45 DF A3; all others are read as an IVF file.
#[derive(Clone, Copy, Debug, PartialEq, Eq, Error)]
pub enum StreamFault {
    /// The file is shorter than the 32 bytes of an IVF header, or begins with no whole EBML header.
    #[error("the file does not begin with a whole header")]
    Header,
    /// The file begins with neither `DKIF` nor EBML's mark.
    #[error("the file begins with neither DKIF nor EBML's mark")]
    Magic,
    /// The codec of an IVF file is not `VP80`.
    #[error("the file's codec is not VP80")]
    FourCc,
    /// The length of an IVF header is under 32 or past the end of the file.
    #[error("the header's length is under 32 or past the end")]
    HeaderLength,
    /// The kind of an EBML file is neither `webm` nor `matroska`.
    #[error("the kind of file is neither webm nor matroska")]
    DocType,
    /// A WebM file has no Tracks.
    #[error("the file has no tracks")]
    NoTracks,
    /// No track of a WebM file has the codec `V_VP8`.
    #[error("the file has no VP8 video")]
    NoVideo,
    /// The packets of a WebM file's video are compressed or encrypted once more.
    #[error("the file's video is compressed or encrypted once more")]
    Encoded,
    /// The unit of time of a WebM file is 0, or 2^32 nanoseconds or more.
    #[error("the file's unit of time is 0, or 2^32 nanoseconds or more")]
    Scale,
    /// The file has more than `MAX_PACKETS` packets, or a WebM file has too many elements or tracks.
    #[error("the file has too many packets")]
    TooMany,
    /// Out of memory for the packets.
    #[error("out of memory for the packets")]
    NoMemory,
}

impl StreamFault {
    /// The error's name.
    pub const fn word(self) -> &'static str
        ensures { result.now ≡ stream_fault_word self }
    {
        match self {
            StreamFault::Header => "Header",
            StreamFault::Magic => "Magic",
            StreamFault::FourCc => "FourCc",
            StreamFault::HeaderLength => "HeaderLength",
            StreamFault::DocType => "DocType",
            StreamFault::NoTracks => "NoTracks",
            StreamFault::NoVideo => "NoVideo",
            StreamFault::Encoded => "Encoded",
            StreamFault::Scale => "Scale",
            StreamFault::TooMany => "TooMany",
            StreamFault::NoMemory => "NoMemory",
        }
    }

    /// The error of a file that is read as IVF.
    pub(crate) fn of_ivf(fault: IvfFault) -> StreamFault
        ensures { result ≡ of_ivf fault }
    {
        match fault {
            IvfFault::Header => StreamFault::Header,
            IvfFault::Magic => StreamFault::Magic,
            IvfFault::FourCc => StreamFault::FourCc,
            IvfFault::HeaderLength => StreamFault::HeaderLength,
            IvfFault::TooMany => StreamFault::TooMany,
            IvfFault::NoMemory => StreamFault::NoMemory,
        }
    }

    /// The error of a file that is read as WebM.
    pub(crate) fn of_webm(fault: WebmFault) -> StreamFault
        ensures { result ≡ of_webm fault }
    {
        match fault {
            WebmFault::Header => StreamFault::Header,
            WebmFault::DocType => StreamFault::DocType,
            WebmFault::NoTracks => StreamFault::NoTracks,
            WebmFault::NoVideo => StreamFault::NoVideo,
            WebmFault::Encoded => StreamFault::Encoded,
            WebmFault::Scale => StreamFault::Scale,
            WebmFault::TooMany => StreamFault::TooMany,
            WebmFault::NoMemory => StreamFault::NoMemory,
        }
    }
}
