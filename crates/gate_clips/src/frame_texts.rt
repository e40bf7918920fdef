//! The frames in a YUV4MPEG2 text.

/// How many bytes a frame's mark has: `FRAME` and a newline.
const MARK: usize = 6;

/// A text of frames of one size.
#[derive(Clone, Copy)]
pub struct FrameTexts<'a> {
    /// The text after its first line.
    frames: &'a [u8],
    /// How many bytes a frame has, its mark included.
    stride: usize,
}

impl<'a> FrameTexts<'a> {
    /// The frames of a text that has this many.
    pub fn new(text: &'a [u8], count: usize) -> Option<FrameTexts<'a>> {
        let line = text.iter().position(|byte| *byte == b'\n')? + 1;
        let frames = &text[line..];
        if count == 0 || frames.len() % count != 0 {
            return None;
        }
        Some(FrameTexts {
            frames,
            stride: frames.len() / count,
        })
    }

    /// The samples of frame `n`; `None` if there is no such frame.
    pub fn samples(&self, n: usize) -> Option<&'a [u8]> {
        let start = n.checked_mul(self.stride)?.checked_add(MARK)?;
        let end = n.checked_add(1)?.checked_mul(self.stride)?;
        self.frames.get(start..end)
    }
}
