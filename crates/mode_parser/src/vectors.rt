//! Motion vectors.

ghost use Rattle.std.specs.Prelude.{◌≡◌};
ghost use Rattle.vp8_tables.specs.Bounds.{IsWithin};
ghost use Rattle.mode_parser.specs.Vectors.{is_same, opposite, sum_of};

use std::marker::Model;

/// A motion vector in quarters of a luma sample, `x` to the right and `y` down (RFC 6386, sections
/// 5 and 18). Each component is -70,000 to 70,000.
#[derive(Clone, Copy, Debug, PartialEq, Eq)]
pub struct Vector {
    x: i32,
    y: i32,
}

impl Model for Vector {
    ghost use Rattle.mode_parser.specs.Vectors.{MotionVector, IsInRange};

    ghost Value = { MotionVector };

    ghost view = { λ v. record { x = v.x; y = v.y } };

    ghost invariant = { λ v. IsInRange v.x v.y };

    ghost inverse = { λ v. record { x = v.x; y = v.y } };
}

impl Vector {
    /// The vector that points nowhere.
    pub const ZERO: Vector = Vector { x: 0, y: 0 };

    /// The vector that points so far to the right and so far down.
    #[inline]
    pub fn new(x: i32, y: i32) -> Vector
        requires across { IsWithin 70000 x }
        requires down { IsWithin 70000 y }
        ensures { result ≡ record { x = x; y = y } }
    {
        Vector { x, y }
    }

    /// How far it points to the right.
    #[inline]
    pub fn x(self) -> i32
        ensures value { result ≡ self.x }
        ensures within { IsWithin 70000 result }
    {
        self.x
    }

    /// How far it points down.
    #[inline]
    pub fn y(self) -> i32
        ensures value { result ≡ self.y }
        ensures within { IsWithin 70000 result }
    {
        self.y
    }

    /// Whether they are one vector.
    #[inline]
    pub(crate) fn is_same(self, other: Vector) -> bool
        ensures { result ≡ is_same self other }
    {
        self.x == other.x && self.y == other.y
    }

    /// The vector that points as far the other way.
    #[inline]
    pub(crate) fn opposite(self) -> Vector
        ensures { result ≡ opposite self }
    {
        Vector {
            x: -self.x,
            y: -self.y,
        }
    }

    /// This vector and `other` one after the other: neither points beyond so far.
    #[inline]
    pub(crate) fn plus(self, other: Vector) -> Vector
        requires self_x { IsWithin 65536 self.x }
        requires self_y { IsWithin 65536 self.y }
        requires other_x { IsWithin 1023 other.x }
        requires other_y { IsWithin 1023 other.y }
        ensures { result ≡ sum_of self other }
    {
        Vector::new(self.x() + other.x(), self.y() + other.y())
    }
}
