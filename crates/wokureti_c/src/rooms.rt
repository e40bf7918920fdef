//! Rooms of the caller's, for a plane or a text.
ghost use Rattle.std.specs.Prelude.{◌≡◌, ◌≤◌, ◌+◌, IsTrue, length};
ghost use Rattle.pixel_planes.specs.Pictures.{side_of as side_in};
ghost use Rattle.wokureti_c.specs.Rooms.{Fits, with_bytes, with_plane};

use crate::statuses::{OK, ROOM};
use pixel_planes::{Component, Picture};

/// Puts bytes into a room at a place.
pub fn put_bytes(room: &mut [u8], at: usize, bytes: &[u8])
    requires { at + length bytes.now ≤ length room.old }
    ensures written { room.new ≡ with_bytes at bytes.now room.old }
    ensures len { length room.new ≡ length room.old }
{
    room[at..at + bytes.len()].copy_from_slice(bytes);
}

/// Copies a text to the front of a room: 0, or the number for too little room.
pub fn copy(text: &[u8], room: &mut [u8]) -> u32
    ensures copied { result ≡ 0 → room.new ≡ with_bytes 0 text.now room.old }
    ensures room { result ≡ 5 → room.new ≡ room.old }
{
    if text.len() > room.len() {
        return ROOM;
    }
    put_bytes(room, 0, text);
    OK
}

/// A luma side as a side of a component.
fn side_of(component: Component, side: u16) -> usize
    ensures { result ≡ side_in component side }
{
    let side = usize::from(side);
    match component {
        Component::Luma => side,
        Component::Cb | Component::Cr => side.div_ceil(2),
    }
}

/// Whether a plane of a picture fits into a room, its rows this far apart.
pub fn fits(room: &[u8], picture: &Picture, component: Component, stride: usize) -> bool
    ensures { IsTrue result → Fits picture.now component stride room.now }
{
    let width = side_of(component, picture.width());
    let rows = side_of(component, picture.height());
    let Some(start) = (rows - 1).checked_mul(stride) else {
        return false;
    };
    width <= stride && start <= room.len() && width <= room.len() - start
}

/// Puts the shown rows of a component into a room, each this far after the one before it.
pub fn put_plane(room: &mut [u8], picture: &Picture, component: Component, stride: usize)
    requires { Fits picture.now component stride room.old }
    ensures written { room.new ≡ with_plane picture.now component stride room.old }
{
    for y in 0..side_of(component, picture.height()) {
        put_bytes(room, y * stride, picture.shown_row(component, y));
    }
}
