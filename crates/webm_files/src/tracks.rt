// The entries of Tracks.
ghost use Rattle.std.specs.Prelude.{◌≡◌, ◌+◌, ◌-◌, ◌^◌, ◌<◌, ◌≤◌, ◌∷◌, [], drop, length, take, IfNone, IfOk, IfSome};
ghost use Rattle.std.specs.Int.{IsGcd};
ghost use Rattle.webm_files.specs.Tracks.{IsHead, codec_in, entries_of, is_picture, is_video, number_of, numbers_of, video_in};

use super::children::{Child, field, first_child, number_or, text_field};
use super::ids::{CODEC_ID, ENTRY, PIXEL_HEIGHT, PIXEL_WIDTH, TRACK_NUMBER, TRACK_TYPE, VIDEO};
use std::alloc::{AllocError, Global};
use stream_files::Head;

/// The first entry of Tracks; `None` if there is none.
fn next_entry(tracks: &[u8]) -> Option<Child>
    ensures none { IfNone result (entries_of tracks.now ≡ []) }
    ensures some { IfSome result (λ found. entries_of tracks.now ≡ take (found.end - found.start) (drop found.start tracks.now) ∷ entries_of (drop found.end tracks.now)) }
    ensures least { IfSome result (λ found. 0 < found.end) }
    ensures order { IfSome result (λ found. found.start ≤ found.end) }
    ensures inside { IfSome result (λ found. found.end ≤ length tracks.now) }
{
    let mut at = 0;
    'children: while let Some(child) = first_child(&tracks[at..]) {
        if child.id == ENTRY {
            return Some(Child {
                id: ENTRY,
                start: at + child.start,
                end: at + child.end,
            });
        }
        at += child.end;
    }
    None
}

/// Whether a track is video of VP8.
fn is_video(entry: &[u8]) -> bool
    ensures { result ≡ is_video entry.now }
{
    text_field(entry, CODEC_ID) == b"V_VP8".as_slice()
}

/// The entry of the first track that is video of VP8.
pub(crate) fn video_in(tracks: &[u8]) -> Option<&[u8]>
    ensures none { IfNone result (video_in tracks.now ≡ None) }
    ensures some { IfSome result (λ entry. video_in tracks.now ≡ Some entry.now) }
{
    let mut rest = tracks;
    'entries: while let Some(entry) = next_entry(rest) {
        let content = &rest[entry.start..entry.end];
        if is_video(content) {
            return Some(content);
        }
        rest = &rest[entry.end..];
    }
    None
}

/// Whether a track is video.
fn is_picture(entry: &[u8]) -> bool
    ensures { result ≡ is_picture entry.now }
{
    number_or(field(entry, TRACK_TYPE), 0) == 1
}

/// The codec of the first track that is video, or nothing.
pub(crate) fn codec_in(tracks: &[u8]) -> &[u8]
    ensures { result.now ≡ codec_in tracks.now }
{
    let mut rest = tracks;
    'entries: while let Some(entry) = next_entry(rest) {
        let content = &rest[entry.start..entry.end];
        if is_picture(content) {
            return text_field(content, CODEC_ID);
        }
        rest = &rest[entry.end..];
    }
    &tracks[..0]
}

/// The number of entries.
pub(crate) fn count_entries(tracks: &[u8]) -> usize
    ensures { result ≡ length (entries_of tracks.now) }
{
    let mut rest = tracks;
    let mut count = 0;
    'entries: while let Some(entry) = next_entry(rest) {
        count += 1;
        rest = &rest[entry.end..];
    }
    count
}

/// The number of a track.
pub(crate) fn number_of(entry: &[u8]) -> u64
    ensures { result ≡ number_of entry.now }
{
    number_or(field(entry, TRACK_NUMBER), 0)
}

/// The numbers of all tracks.
pub(crate) fn numbers_of(alloc: Global, tracks: &[u8]) -> Result<Vec<u64>, AllocError>
    ensures { IfOk result (λ numbers. numbers.items ≡ numbers_of tracks.now) }
{
    let mut numbers = Vec::new(alloc);
    let mut rest = tracks;
    'entries: while let Some(entry) = next_entry(rest) {
        numbers.push(number_of(&rest[entry.start..entry.end]))?;
        rest = &rest[entry.end..];
    }
    Ok(numbers)
}

/// The greatest common divisor of two numbers.
pub(crate) fn common_divisor(a: u64, b: u64) -> u64
    requires { 0 < a }
    ensures divisor { IsGcd a b result }
    ensures least { 0 < result }
{
    let mut x = a;
    let mut y = b;
    'steps: while y != 0 {
        let rest = x % y;
        x = y;
        y = rest;
    }
    x
}

/// The size of the pictures of a track, and the number of units of `scale` nanoseconds in a second, in lowest terms.
pub(crate) fn head_of(entry: &[u8], scale: u32) -> Head
    requires { 0 < scale }
    ensures { IsHead entry.now scale result }
{
    let video = field(entry, VIDEO);
    let common = common_divisor(1_000_000_000, u64::from(scale));
    Head {
        width: (number_or(field(video, PIXEL_WIDTH), 0) % 65_536) as u16,
        height: (number_or(field(video, PIXEL_HEIGHT), 0) % 65_536) as u16,
        rate: (1_000_000_000 / common) as u32,
        scale: (u64::from(scale) / common) as u32,
    }
}
