//! The 64-bit window through which a decoder reads its bytes.

ghost use Rattle.std.specs.Prelude.{◌≡◌, ◌+◌, ◌-◌, ◌*◌, ◌<◌, ◌≤◌, ◌^◌, ℕ, [], ◌∷◌, length, take};
ghost use Rattle.bool_coder.specs.Reader.{text_start, level};
ghost use Rattle.bool_coder.specs.Window.{reader_of};

use crate::bytes::prove_bytes;

/// A number whose low `left` bits are not read yet and whose higher bits are the d (`value`) of RFC
/// 6386, section 7.3, and the bytes that follow it.
///
/// Once d has reached the range it stays there, and every bit is 1. Reading bits does not change
/// that, so d is clamped to the range only in `hold`, before bytes are loaded.
#[derive(Clone, Copy)]
pub struct Window<'a> {
    pub bytes: &'a [u8],
    pub value: u64,
    pub left: u32,
}

impl<'a> Window<'a> {
    /// The window at the start of a partition.
    pub fn new(bytes: &'a [u8]) -> Window<'a>
        ensures same { reader_of result.value result.left result.bytes.now 255 ≡ text_start bytes.now }
        ensures room { result.left ≤ 56 }
    {
        match bytes {
            [] => Window {
                bytes,
                value: 0,
                left: 0,
            },
            [first, rest @ ..] => Window {
                bytes: rest,
                value: *first as u64,
                left: 0,
            },
        }
    }

    /// The number of unread bits up to and with the last 1.
    pub fn unread(&self) -> u128
        requires { self.now.left ≤ 56 }
        ensures { (range : ℕ) → result ≡ length (level (reader_of self.now.value self.now.left self.now.bytes.now range)).rest }
    {
        let mut count = self.bytes.len();
        while count > 0 && self.bytes[count - 1] == 0 {
            count -= 1;
        }
        if count == 0 {
            return self.left.saturating_sub(self.value.trailing_zeros()) as u128;
        }
        let last = 8 - self.bytes[count - 1].trailing_zeros();
        self.left as u128 + 8 * (count - 1) as u128 + last as u128
    }

    /// Loads bytes if fewer than 7 bits are unread, the most by which a bit shifts the range.
    #[inline]
    pub fn ready(&mut self, range: u32)
        requires range { range ≤ 255 }
        requires room { self.old.left ≤ 56 }
        ensures same { level (reader_of self.new.value self.new.left self.new.bytes.now range) ≡ level (reader_of self.old.value self.old.left self.old.bytes.now range) }
        ensures enough { 7 ≤ self.new.left }
        ensures room { self.new.left ≤ 56 }
    {
        if self.left < 7 {
            self.refill(range);
        }
    }

    /// Loads bytes. It is separate from `ready`, so the stack space for the result of `refilled` is
    /// cleared only when bytes are loaded, and not before each bit.
    #[inline(always)]
    fn refill(&mut self, range: u32)
        requires range { range ≤ 255 }
        requires short { self.old.left < 7 }
        ensures same { level (reader_of self.new.value self.new.left self.new.bytes.now range) ≡ level (reader_of self.old.value self.old.left self.old.bytes.now range) }
        ensures enough { 7 ≤ self.new.left }
        ensures room { self.new.left ≤ 56 }
    {
        *self = self.refilled(range);
    }

    /// This window with at least 7 unread bits, with zeros after the last byte. It is passed and
    /// returned by value, so a loop that reads bits keeps it in registers.
    #[cold]
    #[inline(never)]
    fn refilled(self, range: u32) -> Window<'a>
        requires range { range ≤ 255 }
        requires short { self.left < 7 }
        ensures same { level (reader_of result.value result.left result.bytes.now range) ≡ level (reader_of self.entry.value self.entry.left self.entry.bytes.now range) }
        ensures enough { 7 ≤ result.left }
        ensures room { result.left ≤ 56 }
    {
        let mut window = self;
        window.hold(range);
        window.pull();
        if window.left < 7 {
            window.value <<= 7 - window.left;
            window.left = 7;
        }
        window
    }

    /// Clamps d to the range, which leaves room above it.
    fn hold(&mut self, range: u32)
        requires range { range ≤ 255 }
        requires room { self.old.left ≤ 56 }
        ensures same { reader_of self.new.value self.new.left self.new.bytes.now range ≡ reader_of self.old.value self.old.left self.old.bytes.now range }
        ensures small { self.new.value < 2 ^ (self.new.left + 8) }
        ensures left { self.new.left ≡ self.old.left }
    {
        let d = self.value >> self.left;
        let range = range as u64;
        if d > range {
            self.value -= (d - range) << self.left;
        }
    }

    /// Loads bytes as long as the window has room for them, six at a time if it can.
    fn pull(&mut self)
        requires small { self.old.value < 2 ^ (self.old.left + 8) }
        requires room { self.old.left ≤ 56 }
        ensures same { (range : ℕ) → reader_of self.new.value self.new.left self.new.bytes.now range ≡ reader_of self.old.value self.old.left self.old.bytes.now range }
        ensures small { self.new.value < 2 ^ (self.new.left + 8) }
        ensures room { self.new.left ≤ 56 }
        ensures full { self.new.left ≤ 48 → self.new.bytes.now ≡ [] }
    {
        if let [a, b, c, d, e, f, g, h, ..] = self.bytes
            && self.left <= 8
        {
            self.take_six([*a, *b, *c, *d, *e, *f, *g, *h]);
        }
        while self.left <= 48 {
            match self.bytes {
                [] => return,
                [first, rest @ ..] => self.take(*first, rest),
            }
        }
    }

    /// Loads the first byte, which `rest` follows.
    fn take(&mut self, first: u8, rest: &'a [u8])
        requires next { self.old.bytes.now ≡ first ∷ rest.now }
        requires small { self.old.value < 2 ^ (self.old.left + 8) }
        requires room { self.old.left ≤ 48 }
        ensures same { (range : ℕ) → reader_of self.new.value self.new.left self.new.bytes.now range ≡ reader_of self.old.value self.old.left self.old.bytes.now range }
        ensures small { self.new.value < 2 ^ (self.new.left + 8) }
        ensures left { self.new.left ≡ self.old.left + 8 }
    {
        self.bytes = rest;
        self.value = 256 * self.value + first as u64;
        self.left += 8;
    }

    /// Loads the first six bytes of these eight, with which the bytes begin.
    fn take_six(&mut self, first: [u8; 8])
        requires next { take 8 self.old.bytes.now ≡ first }
        requires small { self.old.value < 2 ^ (self.old.left + 8) }
        requires room { self.old.left ≤ 8 }
        ensures same { (range : ℕ) → reader_of self.new.value self.new.left self.new.bytes.now range ≡ reader_of self.old.value self.old.left self.old.bytes.now range }
        ensures small { self.new.value < 2 ^ (self.new.left + 8) }
        ensures left { self.new.left ≡ self.old.left + 48 }
    {
        prove_bytes(&first);
        self.value = (self.value << 48) + (u64::from_be_bytes(first) >> 16);
        self.bytes = &self.bytes[6..];
        self.left += 48;
    }
}
