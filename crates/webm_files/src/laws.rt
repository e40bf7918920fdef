//! Laws of what is read. A law is a function that does nothing: its contract is the law.
ghost use Rattle.std.specs.Prelude.{◌≡◌, ℕ, ◌^◌, ◌<◌, ◌≤◌, Bool, List, [], ◌∷◌, ◌++◌, codes, length, Some, false, true};
ghost use Rattle.webm_files.specs.Blocks.{AreBlocks};
ghost use Rattle.stream_files.specs.Ivf.{IsIvf};
ghost use Rattle.stream_files.specs.declared.streams.Stream.{Stream};
ghost use Rattle.webm_files.specs.Children.{HasChild, after_child, children, first_child, value_of};
ghost use Rattle.webm_files.specs.Clusters.{timeless_of};
ghost use Rattle.webm_files.specs.Elements.{is_block};
ghost use Rattle.webm_files.specs.Files.{HasHeader, IsWebm, WebmRefuses, is_marked};
ghost use Rattle.webm_files.specs.Lengths.{closes, ends_after, span_of, wrong_at};
ghost use Rattle.webm_files.specs.Media.{IsFewKept};
ghost use Rattle.webm_files.specs.Packets.{packets_in};
ghost use Rattle.webm_files.specs.declared.blocks.Block.{Block};
ghost use Rattle.webm_files.specs.declared.elements.Element.{Element};
ghost use Rattle.webm_files.specs.declared.ids.TheConstants.{CLUSTER, TIMESTAMP};
ghost use Rattle.webm_files.specs.declared.lengths.Span.{Span};
ghost use Rattle.webm_files.specs.declared.lengths.WrongLength.{WrongLength};
ghost use Rattle.webm_files.specs.declared.files.Webm.{Webm};
ghost use Rattle.webm_files.specs.declared.files.WebmFault.{WebmFault};
ghost use Rattle.webm_files.specs.Texts.{Frame, FramesFit, all_placed, cluster_text};

/// The text of a cluster is read as its blocks, with their times, flags and positions.
pub fn cluster_is_read()
    ensures { (base : ℕ) (frames : List Frame) → base < 2 ^ 64 → FramesFit base frames → AreBlocks (cluster_text base frames) (all_placed 25 base frames) }
{}

/// A file has one list of blocks.
pub fn blocks_are_one()
    ensures { (file : List ℕ) (blocks others : List Block) → AreBlocks file blocks → AreBlocks file others → blocks ≡ others }
{}

/// The packets of a file are among the blocks that are kept of it: so `Media::packet_places` has the place of each.
pub fn packets_are_kept()
    ensures { (bytes : List ℕ) (file : Webm) → IsWebm bytes file → file.packets ≡ packets_in bytes file.media.video file.media.blocks }
{}

/// A file with few elements has few gaps, blocks, clusters without a time and wrong lengths.
pub fn kept_are_few()
    ensures { (bytes : List ℕ) (file : Webm) → IsWebm bytes file → IsFewKept file.media }
{}

/// A cluster that begins with a block has no time; one that begins with its time has one.
pub fn timeless_are()
    ensures late { (cluster block : Element) (elements : List Element) → cluster.id ≡ CLUSTER → is_block block.id ≡ true → timeless_of (cluster ∷ block ∷ elements) ≡ cluster.place ∷ timeless_of (block ∷ elements) }
    ensures timed { (cluster time : Element) (elements : List Element) → cluster.id ≡ CLUSTER → time.id ≡ TIMESTAMP → timeless_of (cluster ∷ time ∷ elements) ≡ timeless_of (time ∷ elements) }
{}

/// A length is judged by what comes after it. It is right if the next element of that level begins where it says or later, and wrong if that begins earlier: then the
/// content ends there. It is wrong too if an element within ends after it, and if the file ends before it without a cut.
pub fn wrong_lengths_are()
    ensures right { (file : List ℕ) (is_cut : Bool) (level : ℕ) (element next : Element) (elements : List Element) (span : Span) → span_of file level element ≡ Some span → closes level next.id ≡ true → span.says ≤ next.place → wrong_at file is_cut level (element ∷ next ∷ elements) ≡ wrong_at file is_cut level (next ∷ elements) }
    ensures early { (file : List ℕ) (is_cut : Bool) (level : ℕ) (element next : Element) (elements : List Element) (span : Span) → span_of file level element ≡ Some span → closes level next.id ≡ true → next.place < span.says → wrong_at file is_cut level (element ∷ next ∷ elements) ≡ record { id = level; place = span.place; says = span.says; ends = next.place } ∷ wrong_at file is_cut level (next ∷ elements) }
    ensures late { (file : List ℕ) (is_cut : Bool) (level : ℕ) (element next : Element) (elements : List Element) (span : Span) → span_of file level element ≡ Some span → closes level next.id ≡ false → ends_after span.says next ≡ true → wrong_at file is_cut level (element ∷ next ∷ elements) ≡ record { id = level; place = span.place; says = span.says; ends = next.end } ∷ wrong_at file is_cut level (next ∷ elements) }
    ensures last { (file : List ℕ) (level : ℕ) (element : Element) (span : Span) → span_of file level element ≡ Some span → length file < span.says → wrong_at file false level (element ∷ []) ≡ record { id = level; place = span.place; says = span.says; ends = length file } ∷ [] }
{}

/// Bytes are the text of at most one file.
pub fn webm_has_one_file()
    ensures { (bytes : List ℕ) (file other : Webm) → IsWebm bytes file → IsWebm bytes other → file ≡ other }
{}

/// Bytes have at most one error. So the text of a file can only be refused as out of memory.
pub fn webm_has_one_fault()
    ensures { (bytes : List ℕ) (fault other : WebmFault) → WebmRefuses bytes fault → WebmRefuses bytes other → fault ≡ other }
{}

/// The text of an IVF file does not begin with the name of an EBML header, and has no such header: it is refused as `Header`.
pub fn ivf_is_not_webm()
    ensures mark { (bytes : List ℕ) (file : Stream) → IsIvf bytes file → is_marked bytes ≡ false }
    ensures header { (bytes : List ℕ) (file : Stream) → IsIvf bytes file → ¬ HasHeader bytes }
{}

/// A string ends before its first 0, or with its last byte.
pub fn worked_strings()
    ensures zero { value_of (codes "webm" ++ 0 ∷ []) ≡ codes "webm" }
    ensures zeros { value_of (codes "V_VP8" ++ 0 ∷ 0 ∷ 57 ∷ []) ≡ codes "V_VP8" }
    ensures none { value_of (codes "matroska") ≡ codes "matroska" }
{}

/// The children of a content are its first child and those of the rest, or none if it begins with no whole child.
pub fn children_are()
    ensures some { (text : List ℕ) → HasChild text → children text ≡ first_child text ∷ children (after_child text) }
    ensures none { (text : List ℕ) → ¬ HasChild text → children text ≡ [] }
{}
