//! The decoder of RFC 6386, section 7.

ghost use Rattle.std.specs.Prelude.{◌≡◌, ◌*◌, ◌/◌, ◌<◌, ◌≤◌, ◌^◌, IsTrue, length, unsigned_abs};
ghost use Rattle.bool_coder.specs.Odds.{AreOdds, prob_in};
ghost use Rattle.bool_coder.specs.Reader.{started, read, split_of};
ghost use Rattle.bool_coder.specs.Reading.{flag, literal, signed};
ghost use Rattle.bool_coder.specs.Trees.{is_tree, leaf};

use crate::odds::Odds;
use crate::window::Window;
use std::marker::Model;

/// A decoder of the bits of one partition (RFC 6386, section 7). Zeros follow its last byte,
/// without end.
///
/// Its range is `range << shift`: the shift is made in the product that gives the next split, so the
/// product does not wait for it.
#[derive(Drop)]
pub struct Decoder<'a> {
    window: Window<'a>,
    range: u32,
    shift: u32,
}

impl<'a> Model for Decoder<'a> {
    ghost use Rattle.std.specs.Prelude.{◌≤◌, ◌*◌, ◌^◌};
    ghost use Rattle.bool_coder.specs.Reader.{Reader, level};
    ghost use Rattle.bool_coder.specs.Window.{reader_of};

    ghost Value = { Reader };

    ghost view = { λ s. level (reader_of s.window.value s.window.left s.window.bytes.now (s.range * 2 ^ s.shift)) };

    ghost invariant = { λ s. (128 ≤ s.range * 2 ^ s.shift) × (s.range * 2 ^ s.shift ≤ 255) × (s.shift ≤ 7) × (s.range ≤ 255) × (s.window.left ≤ 56) };
}

impl<'a> Decoder<'a> {
    /// A decoder at the start of a partition.
    pub fn new(bytes: &'a [u8]) -> Decoder<'a>
        ensures { result ≡ started bytes.now }
    {
        Decoder {
            window: Window::new(bytes),
            range: 255,
            shift: 0,
        }
    }

    /// A copy of this decoder. A loop that reads through its own copy keeps it in registers.
    #[inline]
    pub fn copied(&self) -> Decoder<'a>
        ensures { result ≡ self.now }
    {
        Decoder {
            window: self.window,
            range: self.range,
            shift: self.shift,
        }
    }

    /// The number of bits that it has not taken in yet, up to and with the last 1 of its text: past
    /// that it reads zeros only.
    ///
    /// A text with a mark after it, a byte 1, shows how far it is read. For example, `[0x9F, 0xC0]`
    /// read as `[0x9F, 0xC0, 0, 0, 1]` returns the same bits as long as any are left, and has been
    /// read past its end when fewer than 24 are left (`laws::marks_count_bits`).
    pub fn left(&self) -> u128
        ensures { result ≡ length self.now.rest }
    {
        self.window.unread()
    }

    /// One bit that is 0 with a probability of `prob` in 256.
    #[inline]
    pub fn bit(&mut self, prob: u8) -> bool
        ensures { read prob self.old ≡ (result, self.new) }
    {
        self.bit_by(Odds::of(prob))
    }

    /// One bit by its odds.
    #[inline(always)]
    pub fn bit_by(&mut self, odds: Odds) -> bool
        requires { AreOdds odds }
        ensures { read (prob_in odds) self.old ≡ (result, self.new) }
    {
        let whole = self.range << self.shift;
        self.window.ready(whole);
        let scaled = scaled_by(self.range, self.shift, odds);
        let split = scaled >> 24;
        let least = (split as u64) << self.window.left;
        if self.window.value >= least {
            self.window.value -= least;
            let rest = whole - split;
            let count = shift_of(rest);
            self.window.left -= count;
            self.range = rest;
            self.shift = count;
            true
        } else {
            let count = shift_of_scaled(scaled);
            self.window.left -= count;
            self.range = split;
            self.shift = count;
            false
        }
    }

    /// One bit at even odds.
    #[inline]
    pub fn flag(&mut self) -> bool
        ensures { flag self.old ≡ (result, self.new) }
    {
        let whole = self.range << self.shift;
        self.window.ready(whole);
        let split = (whole + 1) >> 1;
        let least = (split as u64) << self.window.left;
        let bit = self.window.value >= least;
        self.window.value -= if bit { least } else { 0 };
        let half = (whole + u32::from(!bit)) >> 1;
        self.range = half;
        self.shift = 0;
        if half < 128 {
            self.shift = 1;
            self.window.left -= 1;
        }
        bit
    }

    /// A number of `count` bits, at most 16, most significant first.
    pub fn literal(&mut self, count: u32) -> u16
        requires { count ≤ 16 }
        ensures value { literal count self.old ≡ (result, self.new) }
        ensures small { result < 2 ^ count }
    {
        let mut value = 0;
        for _i in 0..count {
            let bit = self.flag();
            value = 2 * value + bit as u16;
        }
        value
    }

    /// A flagged number: a flag, and if it is set a magnitude of `count` bits, at most 15, and a
    /// sign, which is 1 for minus; otherwise 0 (RFC 6386, section 9.3).
    #[tactic(auto, unfolding(crate::specs::Reading::signed))]
    pub fn signed(&mut self, count: u32) -> i16
        requires { count ≤ 15 }
        ensures value { signed count self.old ≡ (result, self.new) }
        ensures small { unsigned_abs result < 2 ^ count }
    {
        if !self.flag() {
            return 0;
        }
        let magnitude = self.literal(count) as i16;
        if self.flag() { -magnitude } else { magnitude }
    }

    /// The leaf of a tree, reached by reading one bit at each node (RFC 6386, section 8.1). A tree
    /// is a list of pairs of entries. An entry above 0 is the index of a later pair, any other is a
    /// leaf, stored as its negative; `probs` has a probability for each pair.
    pub fn tree(&mut self, tree: &[i8], probs: &[u8]) -> u8
        requires { IsTrue (is_tree tree.now probs.now) }
        ensures { leaf tree.now probs.now self.old ≡ (result, self.new) }
    {
        let mut node = 0;
        loop {
            let bit = self.bit(probs[node / 2]);
            let entry = tree[node + bit as usize];
            if entry <= 0 {
                return entry.unsigned_abs();
            }
            node = entry as usize;
        }
    }
}

/// The split of `range << shift`, which is at most 255, in the highest byte, by the odds of a bit (RFC
/// 6386, section 7.3).
#[inline(always)]
fn scaled_by(range: u32, shift: u32, odds: Odds) -> u32
    requires odds { AreOdds odds }
    requires some { 1 ≤ range }
    requires shift { shift ≤ 7 }
    requires most { range * 2 ^ shift ≤ 255 }
    ensures { result / 2 ^ 24 ≡ split_of (prob_in odds) (range * 2 ^ shift) }
{
    ((range * odds.zero) << shift) + odds.one
}

/// The number of bits by which the highest byte of a product, which is not 0, is shifted to be 128 or
/// more.
#[inline(always)]
fn shift_of_scaled(scaled: u32) -> u32
    requires { 1 ≤ scaled / 2 ^ 24 }
    ensures few { result ≤ 7 }
    ensures large { 128 ≤ scaled / 2 ^ 24 * 2 ^ result }
    ensures small { scaled / 2 ^ 24 * 2 ^ result < 256 }
{
    scaled.leading_zeros()
}

/// The number of bits by which a range of 1 to 255 is shifted to be 128 or more.
#[inline]
fn shift_of(range: u32) -> u32
    requires some { 1 ≤ range }
    requires most { range ≤ 255 }
    ensures few { result ≤ 7 }
    ensures large { 128 ≤ range * 2 ^ result }
    ensures small { range * 2 ^ result < 256 }
{
    range.leading_zeros() - 24
}
