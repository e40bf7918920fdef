//! The unit of a file's time stamps as a fraction in lowest terms.

ghost use Rattle.std.specs.Prelude.{◌≡◌, ◌<◌};
ghost use Rattle.std.specs.Int.{IsGcd};
ghost use Rattle.stream_checks.specs.TimeBases.{IsLowest, IsTimeBase, unit_of};

use stream_files::Head;

/// A number of seconds as a fraction.
#[derive(Clone, Copy, Debug, PartialEq, Eq)]
pub(crate) struct TimeBase {
    pub numerator: u32,
    pub denominator: u32,
}

/// The greatest common divisor of two numbers, by Euclid's algorithm.
fn common_divisor(a: u32, b: u32) -> u32
    ensures { IsGcd a b result }
{
    let mut last = a;
    let mut rest = b;
    while rest != 0 {
        let remainder = last % rest;
        last = rest;
        rest = remainder;
    }
    last
}

/// A fraction in lowest terms.
fn lowest(numerator: u32, denominator: u32) -> TimeBase
    requires { 0 < denominator }
    ensures { IsLowest numerator denominator result }
{
    let divisor = common_divisor(numerator, denominator);
    TimeBase {
        numerator: numerator / divisor,
        denominator: denominator / divisor,
    }
}

/// The unit of a file's time stamps, not in lowest terms.
fn unit_of(head: Head) -> (u32, u32)
    ensures value { result ≡ unit_of head }
    ensures positive { 0 < result.1 }
{
    if head.rate == 0 || head.scale == 0 {
        (1, 30)
    } else {
        (head.scale, head.rate)
    }
}

/// The unit of a file's time stamps.
pub(crate) fn time_base(head: Head) -> TimeBase
    ensures { IsTimeBase head result }
{
    let (numerator, denominator) = unit_of(head);
    lowest(numerator, denominator)
}
