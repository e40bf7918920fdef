//! Laws of what is written. A law is a function that does nothing: its contract is the law.
ghost use Rattle.std.specs.Prelude.{◌≡◌, ℕ, ◌+◌, ◌*◌, ◌<◌, ◌≤◌, List, length};
ghost use Rattle.webm_files.specs.Blocks.{AreBlocks, nothing};
ghost use Rattle.webm_files.specs.Walks.{IsWalk};
ghost use Rattle.webm_files.specs.Elements.{is_known};
ghost use Rattle.webm_writing.specs.Fitting.{FileFits, HasSamples};
ghost use Rattle.stream_files.specs.declared.streams.Head.{Head};
ghost use Rattle.webm_writing.specs.Entries.{time_of};
ghost use Rattle.webm_writing.specs.Places.{HasCues, HasSeeks};
ghost use Rattle.webm_writing.specs.Worked.{tiny, tiny_text};
ghost use Rattle.webm_writing.specs.Written.{Written, pieces_of, webm_text};
ghost use Rattle.webm_writing.specs.Pieces.{AllFit, Piece, elements_of, read_pieces, text_of};

/// Pieces are read as their elements, one after the other, up to the end of the file.
pub fn written_is_walked()
    ensures { (pieces : List Piece) → AllFit pieces → IsWalk (text_of pieces) (record { elements = elements_of 0 pieces; end = length (text_of pieces) }) }
{}

/// The blocks of a written file are those of its pieces: each has the time of the cluster that it is in.
pub fn written_has_blocks()
    ensures { (pieces : List Piece) → AllFit pieces → AreBlocks (text_of pieces) (read_pieces 0 nothing pieces).blocks }
{}

/// A file that can be written is pieces that fit.
pub fn files_fit()
    ensures { (file : Written) → FileFits file → AllFit (pieces_of file) }
{}

/// The blocks of a file that can be written are its samples.
pub fn samples_are_read()
    ensures { (file : Written) → FileFits file → HasSamples (webm_text file) file.samples }
{}

/// SeekHead has the positions of elements of the names in it: the parts and Cues.
pub fn seeks_are_places()
    ensures { (file : Written) → FileFits file → HasSeeks file }
{}

/// Cues has the positions of clusters.
pub fn cues_are_places()
    ensures { (file : Written) → FileFits file → HasCues file }
{}

/// A file by hand.
pub fn worked_file()
    ensures { webm_text tiny ≡ tiny_text }
{}

/// A time is no more than half a millisecond from its time stamp, and if it is half a millisecond, the time is later. Times are in the order of time stamps.
pub fn times_are_nearest()
    ensures early { (head : Head) (stamp : ℕ) → 0 < head.rate → 2 * (head.rate * time_of head stamp) ≤ 2 * (1000 * (head.scale * stamp)) + head.rate }
    ensures late { (head : Head) (stamp : ℕ) → 0 < head.rate → 2 * (1000 * (head.scale * stamp)) < 2 * (head.rate * time_of head stamp) + head.rate }
    ensures order { (head : Head) (stamp other : ℕ) → 0 < head.rate → stamp ≤ other → time_of head stamp ≤ time_of head other }
{}
