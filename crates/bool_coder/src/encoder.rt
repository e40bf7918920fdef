//! The bit encoder of RFC 6386, section 7.

ghost use Rattle.std.specs.Prelude.{◌≡◌, ℕ, ◌+◌, ◌*◌, ◌^◌, ◌<◌, ◌≤◌, length, slice_index, vec_len, vec_capacity, IfOk, OnOk, OnErr};
ghost use Rattle.bool_coder.specs.CodeText.{no_code, written, text_of};
ghost use Rattle.bool_coder.specs.Low.{number_of, value_of, doublings_of, HasTail};

use crate::NoMemory;
use crate::bytes::prove_bytes;
use std::alloc::Global;
use std::marker::Model;

/// Adds one to the number that the bytes represent, most significant first.
fn add_one(bytes: &mut [u8])
    requires { number_of bytes.old + 1 < 2 ^ (8 * length bytes.old) }
    ensures { number_of bytes.new ≡ number_of bytes.old + 1 }
{
    let mut end = bytes.len();
    while bytes[end - 1] == 255 {
        end -= 1;
        bytes[end] = 0;
    }
    bytes[end - 1] += 1;
}

/// The number low of an encoder (`bottom` in RFC 6386): whole bytes, followed by a tail of 8 +
/// `shifts` bits.
#[derive(Drop)]
struct Low {
    bytes: Vec<u8>,
    tail: u32,
    shifts: u32,
}

impl Low {
    /// Adds at most 255 to it, if the sum has no more bits than it has.
    fn add(&mut self, amount: u32)
        requires tail { HasTail self.old }
        requires small { amount ≤ 255 }
        requires inside { value_of self.old + amount < 2 ^ (8 + doublings_of self.old) }
        ensures value { value_of self.new ≡ value_of self.old + amount }
        ensures doublings { doublings_of self.new ≡ doublings_of self.old }
        ensures tail { HasTail self.new }
        ensures len { vec_len self.new.bytes ≡ vec_len self.old.bytes }
        ensures capacity { vec_capacity self.new.bytes ≡ vec_capacity self.old.bytes }
    {
        self.tail += amount;
        let top = 1 << (8 + self.shifts);
        if self.tail >= top {
            self.tail -= top;
            add_one(&mut self.bytes);
        }
    }

    /// Doubles it `count` times, at most 7; the bytes have capacity for one more.
    fn double(&mut self, count: u32)
        requires tail { HasTail self.old }
        requires few { count ≤ 7 }
        requires room { vec_len self.old.bytes < vec_capacity self.old.bytes }
        ensures value { value_of self.new ≡ value_of self.old * 2 ^ count }
        ensures doublings { doublings_of self.new ≡ doublings_of self.old + count }
        ensures tail { HasTail self.new }
    {
        self.tail <<= count;
        self.shifts += count;
        if self.shifts >= 8 {
            self.shifts -= 8;
            let width = 8 + self.shifts;
            self.bytes.push((self.tail >> width) as u8).unwrap();
            self.tail %= 1 << width;
        }
    }
}

/// A writer of one partition (RFC 6386, section 7).
///
/// Contracts see the code of the bits written so far.
#[derive(Drop)]
pub struct Encoder {
    low: Low,
    range: u32,
}

impl Model for Encoder {
    ghost use Rattle.std.specs.Prelude.{◌≤◌};
    ghost use Rattle.bool_coder.specs.CodeText.{Code};
    ghost use Rattle.bool_coder.specs.Low.{code_of, HasTail, StaysInside};

    ghost Value = { Code };

    ghost view = { λ e. code_of e.low e.range };

    ghost invariant = { λ e. (128 ≤ e.range) × (e.range ≤ 255) × HasTail e.low × StaysInside (code_of e.low e.range) };
}

impl Encoder {
    /// An encoder that has written nothing; it allocates nothing yet.
    pub fn new(alloc: Global) -> Encoder
        ensures { result ≡ no_code }
    {
        Encoder {
            low: Low {
                bytes: Vec::new(alloc),
                tail: 0,
                shifts: 0,
            },
            range: 255,
        }
    }

    /// Writes one bit that is 0 with a probability of `prob` in 256.
    ///
    /// `NoMemory` if an allocation is refused; the encoder is then unchanged.
    pub fn bit(&mut self, bit: bool, prob: u8) -> Result<(), NoMemory>
        ensures value { OnOk result (self.new ≡ written bit prob self.old) }
        ensures unchanged { OnErr result (self.new ≡ self.old) }
    {
        self.low.bytes.reserve(1)?;
        let split = 1 + (((self.range - 1) * prob as u32) >> 8);
        if bit {
            self.low.add(split);
            self.range -= split;
        } else {
            self.range = split;
        }
        let count = self.range.leading_zeros() - 24;
        self.low.double(count);
        self.range <<= count;
        Ok(())
    }

    /// The bytes of the bits written: the code's number, most significant bit first, and zero bits
    /// up to a whole byte.
    ///
    /// `NoMemory` if an allocation is refused; the encoder is then dropped.
    pub fn finish(self) -> Result<Vec<u8>, NoMemory>
        ensures { IfOk result (λ bytes. bytes.items ≡ text_of self) }
    {
        let Low {
            mut bytes,
            tail,
            shifts,
        } = self.low;
        bytes.push((tail >> shifts) as u8)?;
        if shifts > 0 {
            bytes.push(((tail << (8 - shifts)) % 256) as u8)?;
        }
        prove_bytes(&bytes);
        Ok(bytes)
    }
}
