//! The bytes of a plane of a decoded picture.
ghost use Rattle.std.specs.Prelude.{◌≡◌, ◌<◌, ◌^◌};
ghost use Rattle.stream_steps.specs.PlaneBytes.{plane_bytes};

use pixel_planes::Plane;

/// The number of samples around a plane of a picture, at each side.
const BORDER: u64 = 32;

/// The bytes of a plane of a picture, with its border.
pub fn plane_bytes(plane: &Plane) -> u64
    ensures value { result ≡ plane_bytes plane.now.shown.width plane.now.shown.height }
    ensures few { result < 2 ^ 29 }
{
    (plane.width() as u64 + 2 * BORDER) * (plane.height() as u64 + 2 * BORDER)
}
