ghost use Rattle.std.specs.Prelude.{◌≡◌, ℕ, ◌<◌, ℤ, pos, ◌+ℤ◌, ◌-ℤ◌, ◌↔◌, IsTrue};
ghost use Rattle.inter_predict.specs.InterSample.{between};
ghost use Rattle.inter_predict.specs.Kernels.{AreFour, AreTwo, IsTaps, tapped, taps_of};

use crate::kinds::Kind;

/// The taps of a filter, for the six samples from two before a position to three after it.
///
/// They are stored without signs: the products of `b` and `e` are subtracted, and all others are
/// added (RFC 6386, section 18.3).
#[derive(Clone, Copy)]
pub struct Taps {
    pub a: u16,
    pub b: u16,
    pub c: u16,
    pub d: u16,
    pub e: u16,
    pub f: u16,
    /// The number of eighths of a six-tap filter, 0 for taps of any other.
    pub eighths: usize,
}

/// The filters that make a block: rows are filtered across, and then columns down.
#[derive(Clone, Copy)]
pub struct Filters {
    pub across: Taps,
    pub down: Taps,
}

/// The taps of the six-tap filters without signs, by eighths.
const SIX_TAPS: [[u16; 6]; 8] = [
    [0, 0, 128, 0, 0, 0],
    [0, 6, 123, 12, 1, 0],
    [2, 11, 108, 36, 8, 1],
    [0, 9, 93, 50, 6, 0],
    [3, 16, 77, 77, 16, 3],
    [0, 6, 50, 93, 9, 0],
    [1, 8, 36, 108, 11, 2],
    [0, 1, 12, 123, 6, 0],
];

/// The two taps of the bilinear filters among six, by eighths.
const TWO_TAPS: [[u16; 6]; 8] = [
    [0, 0, 128, 0, 0, 0],
    [0, 0, 112, 16, 0, 0],
    [0, 0, 96, 32, 0, 0],
    [0, 0, 80, 48, 0, 0],
    [0, 0, 64, 64, 0, 0],
    [0, 0, 48, 80, 0, 0],
    [0, 0, 32, 96, 0, 0],
    [0, 0, 16, 112, 0, 0],
];

impl Taps {
    /// The taps for a fraction of eighths, from `SIX_TAP_FILTERS` or `BILINEAR_FILTERS`.
    #[inline]
    pub fn of(kind: Kind, eighths: usize) -> Taps
        requires { eighths < 8 }
        ensures small { IsTaps result }
        ensures value { (line : ℤ → ℕ) (place : ℤ) → between kind eighths line place ≡ tapped result (λ k. line ((place -ℤ pos 2) +ℤ pos k)) }
    {
        match kind {
            Kind::SixTap => Taps::of_row(&SIX_TAPS[eighths], eighths),
            Kind::Bilinear => Taps::of_row(&TWO_TAPS[eighths], 0),
        }
    }

    /// The taps of a row of a table, with a number of eighths.
    #[inline]
    fn of_row(row: &[u16; 6], eighths: usize) -> Taps
        ensures { result ≡ taps_of row.now eighths }
    {
        Taps {
            a: row[0],
            b: row[1],
            c: row[2],
            d: row[3],
            e: row[4],
            f: row[5],
            eighths,
        }
    }

    /// Whether the taps leave each sample as it is.
    #[inline]
    pub fn are_whole(&self) -> bool
        ensures { IsTrue result ↔ (self.now.c ≡ 128) }
    {
        self.c == 128
    }

    /// Whether the first tap and the last are 0.
    #[inline]
    pub fn are_four(&self) -> bool
        ensures { IsTrue result ↔ AreFour self.now }
    {
        self.a == 0 && self.f == 0
    }

    /// Whether all taps but the middle two are 0.
    #[inline]
    pub fn are_two(&self) -> bool
        ensures { IsTrue result ↔ AreTwo self.now }
    {
        self.a == 0 && self.b == 0 && self.e == 0 && self.f == 0
    }

    /// The same taps. The first and the last are constants, so LLVM leaves out their products.
    #[inline(always)]
    pub fn as_four(self) -> Taps
        requires { AreFour self }
        ensures { result ≡ self }
    {
        Taps { a: 0, f: 0, ..self }
    }

    /// The same taps. All but the middle two are constants, so LLVM leaves out their products.
    #[inline(always)]
    pub fn as_two(self) -> Taps
        requires { AreTwo self }
        ensures { result ≡ self }
    {
        Taps {
            a: 0,
            b: 0,
            e: 0,
            f: 0,
            ..self
        }
    }
}

impl Filters {
    /// Whether all taps of both but the middle two are 0.
    #[inline]
    pub fn are_two(&self) -> bool
        ensures { IsTrue result ↔ (AreTwo self.now.across × AreTwo self.now.down) }
    {
        self.across.are_two() && self.down.are_two()
    }
}
