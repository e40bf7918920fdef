// Why a file that begins as a WebM file is not a stream.
use crate::in_line::InLine;
use std::io::{self, Write};
use std::str;
use stream_sources::StreamFault;
use webm_files::codec_there;

/// Writes why the file at `path`, which begins as a WebM file with the bytes `head`, is not a stream, and what to do. Of the other errors
/// of a stream nothing is written.
pub fn write_webm_fault<E: Write>(
    errors: &mut E,
    path: &str,
    head: &[u8],
    fault: StreamFault,
) -> io::Result<()> {
    let shown = InLine(path);
    match fault {
        StreamFault::Header => writeln!(
            errors,
            "{shown} begins as a WebM file, but its EBML header is cut off or damaged"
        ),
        StreamFault::DocType => writeln!(
            errors,
            "{shown} is an EBML file, but neither WebM nor Matroska"
        ),
        StreamFault::NoTracks => writeln!(
            errors,
            "{shown} has no list of tracks: the first part of the file is lost or damaged"
        ),
        StreamFault::NoVideo => write_no_video(errors, path, head),
        StreamFault::Encoded => writeln!(
            errors,
            "the packets of {shown} are compressed or encrypted once more; for a compression: mkvmerge -o out.mkv --compression -1:none {shown}"
        ),
        StreamFault::Scale => writeln!(
            errors,
            "{shown} has a unit of time of 0, or of 4294967296 nanoseconds or more"
        ),
        StreamFault::TooMany => writeln!(
            errors,
            "{shown} has more than 1048576 packets of its video, 16777216 elements or 127 tracks"
        ),
        _ => Ok(()),
    }
}

/// Writes that a WebM file has no VP8 video, with the codec of its video if the bytes `head` have its name.
fn write_no_video<E: Write>(errors: &mut E, path: &str, head: &[u8]) -> io::Result<()> {
    let shown = InLine(path);
    match str::from_utf8(codec_there(head)) {
        Ok(codec) if !codec.is_empty() => {
            let codec = InLine(codec);
            writeln!(
                errors,
                "{shown} has no VP8 video: the codec of its video is {codec}, which has to be coded again, which changes each frame: ffmpeg -i {shown} -an -c:v libvpx out.ivf"
            )
        }
        _ => writeln!(errors, "{shown} has no VP8 video"),
    }
}
