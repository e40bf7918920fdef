ghost use Rattle.std.specs.Prelude.{◌≡◌};
ghost use Rattle.frame_header.specs.Cause.{cause_word};

use thiserror::Error;

/// Why a packet is not decoded, in the order in which the causes are checked.
#[derive(Clone, Copy, Debug, PartialEq, Eq, Error)]
pub enum Cause {
    /// The packet has fewer than 3 bytes, or a key tag and fewer than 10.
    #[error("the packet is too short for its header")]
    ShortPacket,
    /// The version is above 3.
    #[error("the version of the packet is not known")]
    Version,
    /// The start code does not follow a key tag.
    #[error("the start code of the key frame is wrong")]
    StartCode,
    /// The width or the height of a key frame is 0.
    #[error("the size of the key frame is zero")]
    Size,
    /// The packet has no key tag, and no key frame came before it.
    #[error("no key frame comes before the packet")]
    NoKeyFrame,
    /// The first partition is longer than the bytes after the tag.
    #[error("the first partition runs past the end of the packet")]
    FirstPartition,
    /// The sizes of the token partitions do not fit after the first partition.
    #[error("the sizes of the token partitions run past the end of the packet")]
    TokenSizes,
    /// This token partition, counted from 0, is the first that runs past the end.
    #[error("token partition {0} runs past the end of the packet")]
    TokenPartition(u8),
}

impl Cause {
    /// The name of the cause; for `TokenPartition` without its number.
    pub fn word(self) -> &'static str
        ensures { result.now ≡ cause_word self }
    {
        match self {
            Cause::ShortPacket => "ShortPacket",
            Cause::Version => "Version",
            Cause::StartCode => "StartCode",
            Cause::Size => "Size",
            Cause::NoKeyFrame => "NoKeyFrame",
            Cause::FirstPartition => "FirstPartition",
            Cause::TokenSizes => "TokenSizes",
            Cause::TokenPartition(_) => "TokenPartition",
        }
    }
}
