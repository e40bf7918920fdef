//! A frame of a session, in rooms of the caller's.
ghost use Rattle.std.specs.Prelude.{◌≡◌, ◌<◌, IsTrue};
ghost use Rattle.wokureti_c.specs.Rooms.{Fits};
ghost use Rattle.wokureti_c.specs.Calls.{IsRefused, IsServed, IsTooLarge};

use crate::rooms::{fits, put_plane};
use crate::statuses::{OK, ROOM, number_of_refusal};
use frame_session::{Refusal, Session};
use pixel_planes::{Component, Picture};

/// The strides of the caller's rooms, and what a frame's call says of it: the size of the frame, or the packet
/// that broke its source.
#[repr(C)]
#[derive(Drop)]
pub struct Shown {
    pub luma_stride: usize,
    pub chroma_stride: usize,
    pub width: u32,
    pub height: u32,
    pub source: u64,
    pub packet: u64,
}

/// The source whose bytes are refused, and the number of the error.
#[repr(C)]
#[derive(Drop)]
pub struct Fault {
    pub source: u64,
    pub cause: u32,
}

/// Whether a picture fits into the three rooms.
fn has_room(y: &[u8], cb: &[u8], cr: &[u8], picture: &Picture, shown: &Shown) -> bool
    ensures { IsTrue result → Fits picture.now Component.Luma shown.now.luma_stride y.now × Fits picture.now Component.Cb shown.now.chroma_stride cb.now × Fits picture.now Component.Cr shown.now.chroma_stride cr.now }
{
    fits(y, picture, Component::Luma, shown.luma_stride)
        && fits(cb, picture, Component::Cb, shown.chroma_stride)
        && fits(cr, picture, Component::Cr, shown.chroma_stride)
}

/// Puts frame `n` into three rooms: 0, the number for too little room, or that of the refusal.
pub fn show(
    session: &mut Session,
    n: u64,
    y: &mut [u8],
    cb: &mut [u8],
    cr: &mut [u8],
    shown: &mut Shown,
) -> u32
    ensures served { result ≡ 0 → IsServed session.old n shown.old shown.new (record { y = y.old; cb = cb.old; cr = cr.old }) (record { y = y.new; cb = cb.new; cr = cr.new }) session.new }
    ensures room { result ≡ 5 → IsTooLarge session.old n shown.new (record { y = y.old; cb = cb.old; cr = cr.old }) (record { y = y.new; cb = cb.new; cr = cr.new }) session.new }
    ensures refused { 15 < result → IsRefused session.old n result shown.new (record { y = y.old; cb = cb.old; cr = cr.old }) (record { y = y.new; cb = cb.new; cr = cr.new }) session.new }
{
    let picture = match session.frame(n) {
        Ok(picture) => picture,
        Err(refusal) => {
            if let Refusal::Packet { source, place, .. } = refusal {
                shown.source = source as u64;
                shown.packet = place as u64;
            }
            return number_of_refusal(refusal);
        }
    };
    shown.width = u32::from(picture.width());
    shown.height = u32::from(picture.height());
    if !has_room(y, cb, cr, &picture, shown) {
        return ROOM;
    }
    put_plane(y, &picture, Component::Luma, shown.luma_stride);
    put_plane(cb, &picture, Component::Cb, shown.chroma_stride);
    put_plane(cr, &picture, Component::Cr, shown.chroma_stride);
    OK
}
