//! The samples of a frame: how many there are, and their MD5.

ghost use Rattle.std.specs.Prelude.{◌≡◌, ◌++◌, ◌≤◌, ℕ, List, length};
ghost use Rattle.md5.specs.Md5.{Holds, md5};
ghost use Rattle.pixel_planes.specs.Pictures.{shown_plane, side_of};
ghost use Rattle.stream_checks.specs.HashLines.{samples_of};

use md5::{Digest, Md5};
use pixel_planes::{Component, Picture};

/// A luma side as a side of a component.
fn side(component: Component, luma: u16) -> usize
    ensures value { result ≡ side_of component luma }
    ensures most { result ≤ luma }
{
    let luma = usize::from(luma);
    match component {
        Component::Luma => luma,
        Component::Cb | Component::Cr => luma.div_ceil(2),
    }
}

/// The number of shown samples of a component.
fn plane_length(picture: &Picture, component: Component) -> usize
    ensures value { result ≡ length (shown_plane picture.now component) }
    ensures most { result ≤ 268402689 }
{
    side(component, picture.height()) * side(component, picture.width())
}

/// The number of samples of a frame.
pub(crate) fn sample_count(picture: &Picture) -> usize
    ensures { result ≡ length (samples_of picture.now) }
{
    plane_length(picture, Component::Luma)
        + plane_length(picture, Component::Cb)
        + plane_length(picture, Component::Cr)
}

/// Adds the shown rows of a component to a message.
fn add_plane(hasher: &mut Md5, picture: &Picture, component: Component)
    ensures { (m : List ℕ) → Holds hasher.old m → Holds hasher.new (m ++ shown_plane picture.now component) }
{
    for y in 0..side(component, picture.height()) {
        hasher.update(picture.shown_row(component, y));
    }
}

/// The MD5 of the samples of a frame.
pub(crate) fn samples_md5(picture: &Picture) -> [u8; 16]
    ensures { result ≡ md5 (samples_of picture.now) }
{
    let mut hasher = Md5::new();
    add_plane(&mut hasher, picture, Component::Luma);
    add_plane(&mut hasher, picture, Component::Cb);
    add_plane(&mut hasher, picture, Component::Cr);
    hasher.finalize()
}
