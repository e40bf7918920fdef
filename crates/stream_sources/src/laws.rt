//! Laws of what is read. A law is a function that does nothing: its contract is the law.
ghost use Rattle.std.specs.Prelude.{◌≡◌, ◌↔◌, ◌≤◌, ℕ, List, None, false, length};
ghost use Rattle.stream_files.specs.Ivf.{IsIvf, IvfRefuses};
ghost use Rattle.stream_files.specs.declared.ivf.IvfFault.{IvfFault};
ghost use Rattle.stream_files.specs.declared.streams.Stream.{Stream};
ghost use Rattle.std.specs.Option.{ForSome};
ghost use Rattle.webm_files.specs.Files.{is_marked};
ghost use Rattle.webm_files.specs.Media.{IsFewKept};
ghost use Rattle.stream_sources.specs.Faults.{StreamRefuses, of_ivf};
ghost use Rattle.stream_sources.specs.Sources.{IsIvfSource, IsIvfStream, IsPlausible, IsRated, IsSource, IsStream};
ghost use Rattle.stream_sources.specs.declared.faults.StreamFault.{StreamFault};
ghost use Rattle.stream_sources.specs.declared.sources.Source.{Source};

/// An IVF file is read as such: it does not begin with EBML's mark. If its time base can be a frame rate, it is read as it is.
pub fn ivf_files_are_streams()
    ensures rated { (bytes : List ℕ) (file stream : Stream) → IsIvf bytes file → IsRated file stream → IsStream bytes stream }
    ensures plausible { (bytes : List ℕ) (file : Stream) → IsIvf bytes file → IsPlausible file.head → IsStream bytes file }
{}

/// Bytes that do not begin with EBML's mark are a stream exactly if they are an IVF file of it, and are refused as one. Only its frame rate can be
/// another than that of its head, if the time base cannot be a frame rate.
pub fn other_bytes_are_ivf()
    ensures read { (bytes : List ℕ) (stream : Stream) → is_marked bytes ≡ false → IsStream bytes stream ↔ IsIvfStream bytes stream }
    ensures plausible { (bytes : List ℕ) (stream : Stream) → is_marked bytes ≡ false → IsStream bytes stream → IsPlausible stream.head → IsIvf bytes stream }
    ensures refused { (bytes : List ℕ) (fault : IvfFault) → is_marked bytes ≡ false → IvfRefuses bytes fault → StreamRefuses bytes (of_ivf fault) }
{}

/// What is read with what is kept of the file is what is read alone. Of an IVF file nothing is kept, and bytes that do not begin with EBML's
/// mark are a source exactly if they are an IVF file.
pub fn sources_are_streams()
    ensures stream { (bytes : List ℕ) (source : Source) → IsSource bytes source → IsStream bytes source.stream }
    ensures ivf { (bytes : List ℕ) (source : Source) → IsSource bytes source → source.media ≡ None → IsIvfStream bytes source.stream }
    ensures others { (bytes : List ℕ) (source : Source) → is_marked bytes ≡ false → IsSource bytes source ↔ IsIvfSource bytes source }
{}

/// No stream has more than `MAX_PACKETS` packets.
pub fn streams_are_few()
    ensures { (bytes : List ℕ) (stream : Stream) → IsStream bytes stream → length stream.packets ≤ 1048576 }
{}

/// So many packets, gaps and blocks a source has at most.
pub fn sources_are_few()
    ensures packets { (bytes : List ℕ) (source : Source) → IsSource bytes source → length source.stream.packets ≤ 1048576 }
    ensures media { (bytes : List ℕ) (source : Source) → IsSource bytes source → ForSome source.media IsFewKept }
{}

/// Bytes have one stream: its head, its packets and the number of its skipped bytes.
pub fn streams_agree()
    ensures { (bytes : List ℕ) (stream other : Stream) → IsStream bytes stream → IsStream bytes other → (stream.head ≡ other.head) × (stream.packets ≡ other.packets) × (stream.spare ≡ other.spare) }
{}

/// Bytes have at most one error. So a stream can only be refused as out of memory.
pub fn stream_has_one_fault()
    ensures { (bytes : List ℕ) (fault other : StreamFault) → StreamRefuses bytes fault → StreamRefuses bytes other → fault ≡ other }
{}
