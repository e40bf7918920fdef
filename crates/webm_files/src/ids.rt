// The names of elements: numbers with the bit that marks their width (RFC 9559, section 27).
ghost use Rattle.std.specs.Prelude.{◌≡◌};
ghost use Rattle.webm_files.specs.Elements.{is_block, is_known, is_opened};
ghost use Rattle.webm_files.specs.Kept.{is_kept};
ghost use Rattle.webm_files.specs.Walks.{is_resumed};

/// The head of the file.
pub const EBML: u64 = 0x1A45_DFA3;
/// Everything after the head of the file.
pub const SEGMENT: u64 = 0x1853_8067;
/// What holds for the whole file, such as the unit of time.
pub const INFO: u64 = 0x1549_A966;
/// The tracks.
pub const TRACKS: u64 = 0x1654_AE6B;
/// Chapters.
pub const CHAPTERS: u64 = 0x1043_A770;
/// Attached files.
pub const ATTACHMENTS: u64 = 0x1941_A469;
/// Tags.
pub const TAGS: u64 = 0x1254_C367;
/// Blocks, and the time from which they count theirs.
pub const CLUSTER: u64 = 0x1F43_B675;
/// The time of a cluster.
pub const TIMESTAMP: u64 = 0xE7;
/// A block without a group.
pub const SIMPLE_BLOCK: u64 = 0xA3;
/// A block with what belongs to it.
pub const BLOCK_GROUP: u64 = 0xA0;
/// A block in a group.
pub const BLOCK: u64 = 0xA1;

/// Bytes without a meaning, anywhere.
pub const VOID: u64 = 0xEC;
/// A checksum of the element that it is in.
pub const CRC_32: u64 = 0xBF;

/// The kind of file, in the head of the file.
pub const DOC_TYPE: u64 = 0x4282;
/// The unit of time in nanoseconds, in Info.
pub const TIMESTAMP_SCALE: u64 = 0x2A_D7B1;
/// An entry of the tracks.
pub const ENTRY: u64 = 0xAE;
/// The number of a track, in its entry.
pub const TRACK_NUMBER: u64 = 0xD7;
/// The kind of a track, in its entry: 1 is video.
pub const TRACK_TYPE: u64 = 0x83;
/// The codec of a track, in its entry.
pub const CODEC_ID: u64 = 0x86;
/// Compression and encryption of a track, in its entry.
pub const ENCODINGS: u64 = 0x6D80;
/// How long a frame of a track is shown in nanoseconds, in its entry.
pub const DEFAULT_DURATION: u64 = 0x23_E383;
/// What is said of pictures, in the entry of a track.
pub const VIDEO: u64 = 0xE0;
/// The width of pictures, in Video.
pub const PIXEL_WIDTH: u64 = 0xB0;
/// The height of pictures, in Video.
pub const PIXEL_HEIGHT: u64 = 0xBA;

/// The elements whose content is read as elements.
pub const OPENED: [u64; 3] = [SEGMENT, CLUSTER, BLOCK_GROUP];

/// The elements at the levels of these and of their contents.
pub const KNOWN: [u64; 30] = [
    SEGMENT,
    CLUSTER,
    BLOCK_GROUP,
    TIMESTAMP,
    SIMPLE_BLOCK,
    BLOCK,
    EBML,
    // SeekHead
    0x114D_9B74,
    INFO,
    TRACKS,
    CHAPTERS,
    // Cues
    0x1C53_BB6B,
    ATTACHMENTS,
    TAGS,
    VOID,
    CRC_32,
    // of a cluster: SilentTracks, Position, PrevSize, EncryptedBlock
    0x5854,
    0xA7,
    0xAB,
    0xAF,
    // of a group: BlockVirtual, BlockAdditions, BlockDuration, ReferencePriority, ReferenceBlock, ReferenceVirtual,
    // CodecState, DiscardPadding, Slices, ReferenceFrame
    0xA2,
    0x75A1,
    0x9B,
    0xFA,
    0xFB,
    0xFD,
    0xA4,
    0x75A2,
    0x8E,
    0xC8,
];

/// The elements that are blocks.
pub const BLOCKS: [u64; 2] = [SIMPLE_BLOCK, BLOCK];

/// The elements other than clusters with which reading continues after a gap.
pub const RESUMED: [u64; 3] = [BLOCK_GROUP, SIMPLE_BLOCK, BLOCK];

/// The elements that are kept whole, so that the file can be written again.
pub const KEPT: [u64; 5] = [INFO, TRACKS, CHAPTERS, ATTACHMENTS, TAGS];

/// Whether an element of this name is kept whole.
pub(crate) fn is_kept(id: u64) -> bool
    ensures { result ≡ is_kept id }
{
    KEPT.contains(&id)
}

/// Whether this is the name of a block.
pub(crate) fn is_block(id: u64) -> bool
    ensures { result ≡ is_block id }
{
    BLOCKS.contains(&id)
}

/// Whether reading continues after a gap with an element of this name, if elements follow it.
pub(crate) fn is_resumed(id: u64) -> bool
    ensures { result ≡ is_resumed id }
{
    RESUMED.contains(&id)
}

/// Whether the content of an element of this name is read as elements.
pub(crate) fn is_opened(id: u64) -> bool
    ensures { result ≡ is_opened id }
{
    OPENED.contains(&id)
}

/// Whether this is the name of an element.
pub(crate) fn is_known(id: u64) -> bool
    ensures { result ≡ is_known id }
{
    KNOWN.contains(&id)
}
