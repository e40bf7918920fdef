//! The simple filter on a line of four samples (RFC 6386, section 15.2).

ghost use Rattle.std.specs.Prelude.{◌≡◌, ◌≤◌, ◌≤ℤ◌, ◌+ℤ◌, ◌-ℤ◌, ◌*ℤ◌, pos, negsuc, true};
ghost use Rattle.loop_filter.specs.Lines.{as_signed, clamped, sample, raised, lowered, is_small_step, shortfall, eighth, line_of_four};
ghost use Rattle.loop_filter.specs.FourSamples.{simple_four};

/// A sample as a number from -128 to 127.
fn as_signed(sample: u8) -> i16
    ensures value { result ≡ as_signed sample }
    ensures within { (negsuc 127 ≤ℤ result) × (result ≤ℤ pos 127) }
{
    i16::from(sample) - 128
}

/// A number clamped to -128 to 127.
fn clamped(number: i16) -> i16
    ensures value { result ≡ clamped number }
    ensures within { (negsuc 127 ≤ℤ result) × (result ≤ℤ pos 127) }
{
    number.clamp(-128, 127)
}

/// The sample of a number, clamped.
fn sample(number: i16) -> u8
    ensures { result ≡ sample number }
{
    (clamped(number) + 128) as u8
}

/// An eighth of a number that `n` was added to, rounded down.
#[tactic(auto, unfolding(crate::specs::Lines::eighth))]
fn eighth(n: u8, number: i16) -> i16
    requires few { n ≤ 4 }
    requires within { (negsuc 127 ≤ℤ number) × (number ≤ℤ pos 127) }
    ensures value { result ≡ eighth n number }
    ensures within { (negsuc 127 ≤ℤ result) × (result ≤ℤ pos 127) }
{
    clamped(number + i16::from(n)) >> 3
}

/// A sample with a number added.
#[tactic(auto, unfolding(crate::specs::Lines::raised))]
fn raised(from: u8, by: i16) -> u8
    requires { (negsuc 127 ≤ℤ by) × (by ≤ℤ pos 127) }
    ensures { result ≡ raised from by }
{
    sample(as_signed(from) + by)
}

/// A sample with a number subtracted.
#[tactic(auto, unfolding(crate::specs::Lines::lowered))]
fn lowered(from: u8, by: i16) -> u8
    requires { (negsuc 127 ≤ℤ by) × (by ≤ℤ pos 127) }
    ensures { result ≡ lowered from by }
{
    sample(as_signed(from) - by)
}

/// Whether the step at the edge is within the limit.
fn is_small_step(samples: &[u8; 4], limit: u8) -> bool
    ensures { result ≡ is_small_step limit (line_of_four samples.now) }
{
    let [p1, p0, q0, q1] = *samples;
    let step = u16::from(p0.abs_diff(q0)) * 2 + u16::from(p1.abs_diff(q1) / 2);
    step <= u16::from(limit)
}

/// The difference of two samples, as a signed number.
fn difference(a: u8, b: u8) -> i16
    ensures value { result ≡ as_signed a -ℤ as_signed b }
    ensures within { (negsuc 255 ≤ℤ result) × (result ≤ℤ pos 255) }
{
    as_signed(a) - as_signed(b)
}

/// Three times a difference.
fn thrice(difference: i16) -> i16
    requires { (negsuc 255 ≤ℤ difference) × (difference ≤ℤ pos 255) }
    ensures value { result ≡ pos 3 *ℤ difference }
    ensures within { (negsuc 767 ≤ℤ result) × (result ≤ℤ pos 765) }
{
    3 * difference
}

/// The sum of two numbers, clamped.
fn clamped_sum(first: i16, second: i16) -> i16
    requires first { (negsuc 127 ≤ℤ first) × (first ≤ℤ pos 127) }
    requires second { (negsuc 767 ≤ℤ second) × (second ≤ℤ pos 765) }
    ensures value { result ≡ clamped (first +ℤ second) }
    ensures within { (negsuc 127 ≤ℤ result) × (result ≤ℤ pos 127) }
{
    clamped(first + second)
}

/// Three times the difference of the samples at the edge, plus the difference of the outer two: `a`
/// of `common_adjust` in RFC 6386.
#[tactic(auto, unfolding(crate::specs::Lines::shortfall))]
fn shortfall(samples: &[u8; 4]) -> i16
    ensures value { result ≡ shortfall true (line_of_four samples.now) }
    ensures within { (negsuc 127 ≤ℤ result) × (result ≤ℤ pos 127) }
{
    let [p1, p0, q0, q1] = *samples;
    let outer = clamped(difference(p1, q1));
    clamped_sum(outer, thrice(difference(q0, p0)))
}

/// For other programs: decoding filters whole edges. Filters the four samples p1, p0, q0 and q1 of a line
/// across an edge, which is between p0 and q0, with the simple filter (RFC 6386, section 15.2). `limit`
/// is the limit of the step at the edge.
#[tactic(auto, unfolding(crate::specs::Lines::simple_line))]
pub fn simple(samples: &mut [u8; 4], limit: u8)
    ensures { samples.new ≡ simple_four limit samples.old }
{
    if is_small_step(samples, limit) {
        let shortfall = shortfall(samples);
        let [p1, p0, q0, q1] = *samples;
        *samples = [
            p1,
            raised(p0, eighth(3, shortfall)),
            lowered(q0, eighth(4, shortfall)),
            q1,
        ];
    }
}
