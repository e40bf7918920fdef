// A stream: what a file holds, whatever its format.
ghost use Rattle.std.specs.Prelude.{◌≡◌};
ghost use Rattle.stream_files.specs.Streams.{rate_of};

use super::packets::Packets;

/// The head of a stream: the frame size in samples, and the time base: a time stamp counts units of
/// `scale / rate` seconds.
#[derive(Clone, Copy, Debug, PartialEq, Eq)]
pub struct Head {
    pub width: u16,
    pub height: u16,
    pub rate: u32,
    pub scale: u32,
}

impl Head {
    /// The frame rate of a stream whose frames last one unit of its time base each.
    pub fn frame_rate(self) -> FrameRate
        ensures { result ≡ rate_of self }
    {
        FrameRate {
            rate: self.rate,
            scale: self.scale,
        }
    }
}

/// A frame rate: `rate / scale` frames per second.
#[derive(Clone, Copy, Debug, PartialEq, Eq)]
pub struct FrameRate {
    pub rate: u32,
    pub scale: u32,
}

/// A stream: its head, the rate of its frames, its packets, and the number of trailing bytes of its file after
/// the last whole record. The frame rate of an IVF file is that of its head.
#[derive(Debug, Drop)]
pub struct Stream {
    pub head: Head,
    pub frame_rate: FrameRate,
    pub packets: Packets,
    pub spare: u64,
}
