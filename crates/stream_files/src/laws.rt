//! Laws of every IVF text. A law is a function that does nothing: its contract is the law.
ghost use Rattle.std.specs.Prelude.{◌≡◌, ℕ, List, []};
ghost use Rattle.stream_files.specs.Ivf.{IsIvf, IvfRefuses};
ghost use Rattle.stream_files.specs.Texts.{IsBytes, IsIvfText, WrittenIsRead};
ghost use Rattle.stream_files.specs.declared.streams.Stream.{Stream};
ghost use Rattle.stream_files.specs.declared.ivf.IvfFault.{IvfFault};

use super::EMPTY;

/// Bytes are the text of at most one file.
pub fn ivf_has_one_file()
    ensures { (bytes : List ℕ) (file other : Stream)
        → IsIvf bytes file → IsIvf bytes other → file ≡ other }
{}

/// Bytes have at most one error. So the text of a file can only be refused as out of
/// memory.
pub fn ivf_has_one_fault()
    ensures { (bytes : List ℕ) (fault other : IvfFault)
        → IvfRefuses bytes fault → IvfRefuses bytes other → fault ≡ other }
{}

/// The bytes of [`EMPTY`] are the text of a file of 30 frames per second with no packets.
pub fn ivf_empty_is_a_file()
    ensures { IsIvf EMPTY (record {
      head = record { width = 0; height = 0; rate = 30; scale = 1 };
      frame_rate = record { rate = 30; scale = 1 };
      packets = [];
      spare = 0;
    }) }
{}

/// The text of a file is a header, unused bytes, the records of its packets, and a rest that begins
/// with no whole record.
pub fn ivf_is_its_text()
    ensures { (bytes : List ℕ) (file : Stream)
        → IsBytes bytes → IsIvf bytes file → IsIvfText bytes file }
{}

/// A text of that form is the text of the file: reading it returns the file, or runs out of memory.
pub fn ivf_text_is_read()
    ensures { (bytes : List ℕ) (file : Stream) → IsIvfText bytes file → IsIvf bytes file }
{}

/// The text that is written for a head and packets is the text of a file with the same head, the same
/// packets and no trailing bytes: reading it returns that file, or runs out of memory.
pub fn ivf_written_is_read()
    ensures { WrittenIsRead }
{}
