// What is kept of a file besides the packets of its video.
ghost use Rattle.std.specs.Prelude.{◌≡◌, IfOk};
ghost use Rattle.webm_files.specs.Packets.{places_in};

use super::blocks::Block;
use super::elements::Element;
use super::gaps::Gap;
use super::lengths::WrongLength;
use super::packets::is_packet;
use std::alloc::{AllocError, Global};
use std::marker::Model;

/// The positions at which the packets among some blocks begin, if the video has this track number.
fn places_in(alloc: Global, video: u64, blocks: &[Block]) -> Result<Vec<usize>, AllocError>
    ensures { IfOk result (λ places. places.items ≡ places_in video blocks.now) }
{
    let mut places = Vec::new(alloc);
    for block in blocks {
        if is_packet(video, block) {
            places.push(block.start)?;
        }
    }
    Ok(places)
}

/// What is kept of a file besides the packets of its video, by position in the file: the blocks of all tracks, gaps, and the
/// elements from which the file can be written again. A contract sees it as [`Kept`](specs).
#[derive(Debug, Drop)]
pub struct Media {
    pub(crate) video: u64,
    pub(crate) default_duration: u64,
    pub(crate) numbers: Vec<u64>,
    pub(crate) blocks: Vec<Block>,
    pub(crate) unlisted: Vec<Block>,
    pub(crate) gaps: Vec<Gap>,
    pub(crate) parts: Vec<Element>,
    pub(crate) timeless: Vec<usize>,
    pub(crate) lengths: Vec<WrongLength>,
    pub(crate) is_cut: bool,
}

impl Model for Media {
    ghost use Rattle.webm_files.specs.Media.{Kept};

    ghost Value = { Kept };

    ghost view = { λ m. record {
      video = m.video;
      default_duration = m.default_duration;
      numbers = m.numbers.items;
      blocks = m.blocks.items;
      unlisted = m.unlisted.items;
      gaps = m.gaps.items;
      parts = m.parts.items;
      timeless = m.timeless.items;
      lengths = m.lengths.items;
      is_cut = m.is_cut;
    } };
}

impl Media {
    /// The track number of the video.
    pub fn video(&self) -> u64
        ensures { result ≡ self.now.video }
    {
        self.video
    }

    /// How long a frame of the video is shown in nanoseconds, as its track says; 0 if it does not say so.
    pub fn default_duration(&self) -> u64
        ensures { result ≡ self.now.default_duration }
    {
        self.default_duration
    }

    /// The numbers of the tracks, in the order of the file.
    pub fn numbers(&self) -> &[u64]
        ensures { result.now ≡ self.now.numbers }
    {
        self.numbers.as_slice()
    }

    /// The blocks of these tracks, the video's too, in the order of the file.
    pub fn blocks(&self) -> &[Block]
        ensures { result.now ≡ self.now.blocks }
    {
        self.blocks.as_slice()
    }

    /// The positions of the file at which the bytes of the video's packets begin, in the order of the packets.
    pub fn packet_places(&self, alloc: Global) -> Result<Vec<usize>, AllocError>
        ensures { IfOk result (λ places. places.items ≡ places_in self.now.video self.now.blocks) }
    {
        places_in(alloc, self.video, self.blocks.as_slice())
    }

    /// The blocks of other track numbers.
    pub fn unlisted(&self) -> &[Block]
        ensures { result.now ≡ self.now.unlisted }
    {
        self.unlisted.as_slice()
    }

    /// The gaps, in the order of the file.
    pub fn gaps(&self) -> &[Gap]
        ensures { result.now ≡ self.now.gaps }
    {
        self.gaps.as_slice()
    }

    /// Info, Tracks, Chapters, Attachments and Tags, in the order of the file.
    pub fn parts(&self) -> &[Element]
        ensures { result.now ≡ self.now.parts }
    {
        self.parts.as_slice()
    }

    /// The positions of the clusters of which a block comes before their time, so that it has the time of the cluster before.
    pub fn timeless(&self) -> &[usize]
        ensures { result.now ≡ self.now.timeless }
    {
        self.timeless.as_slice()
    }

    /// The lengths of Segments and of Clusters that are wrong. Of a file whose end cuts an element, those that reach its end are not
    /// among them.
    pub fn lengths(&self) -> &[WrongLength]
        ensures { result.now ≡ self.now.lengths }
    {
        self.lengths.as_slice()
    }

    /// Whether the end of the file cuts an element.
    pub fn is_cut(&self) -> bool
        ensures { result ≡ self.now.is_cut }
    {
        self.is_cut
    }
}
