// Why the frames of the script are not exported.
use frame_header::Cause;
use std::fmt;

/// Why the frames of the script are not exported: the first frame that cannot be. `Display` says so to the user.
#[derive(Clone, Copy, Debug, PartialEq, Eq)]
pub enum NotExported {
    /// The script changes samples of a frame: `node` is the first node that does, 1 for the first one of the script.
    Changed {
        frame: u64,
        node: u64,
    },
    /// A frame is refused, since its packet or an earlier one of the source is broken.
    Broken {
        frame: u64,
        source: usize,
        place: usize,
        cause: Cause,
    },
    /// A frame is refused, since a crop of the script reaches past its picture.
    CropOutside {
        frame: u64,
    },
    /// There would be more than 1,048,576 packets, or more than 1,073,741,824 bytes.
    Full,
    /// No packet repeats a picture of its size.
    NoHold,
}

impl fmt::Display for NotExported {
    fn fmt<W: fmt::Write>(&self, f: &mut fmt::Formatter<W>) -> fmt::Result {
        match self {
            NotExported::Changed { frame, node } => {
                write!(f, "frame {frame} is changed by node {node}")
            }
            NotExported::Broken {
                frame,
                source,
                place,
                cause,
            } => {
                let word = cause.word();
                match source {
                    0 => write!(f, "frame {frame} is refused: packet {place} {word}"),
                    _ => write!(
                        f,
                        "frame {frame} is refused: source {source} packet {place} {word}"
                    ),
                }
            }
            NotExported::CropOutside { frame } => {
                write!(f, "frame {frame} is refused: CropOutside")
            }
            NotExported::Full => f.write_str("too many packets"),
            NotExported::NoHold => f.write_str("no packet repeats a frame of this size"),
        }
    }
}
