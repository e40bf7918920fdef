//! Bytes as hexadecimal digits in a request line.

ghost use Rattle.std.specs.Prelude.{◌≡◌, ◌∷◌, [], IfOk, OnOk, codes};
ghost use Rattle.std.specs.Io.KnownBytes.{Appends};
ghost use Rattle.std.specs.Str.{bytes_eq};
ghost use Rattle.std.specs.List.{list_all};
ghost use Rattle.hex.specs.Hex.{encode_lower, is_hex_digit};
ghost use Rattle.request_lines.specs.HexWords.{bytes_of, hex_word};

use hex::{decode, encode_to_slice};
use pixel_planes::NoMemory;
use std::alloc::Global;
use std::io::{self, Write};
use std::marker::Model;
use stream_files::Bytes;

/// A word that writes bytes, not yet decoded: an even number of hexadecimal digits of either case. A
/// contract sees the bytes.
#[derive(Drop)]
pub struct Hex<'a> {
    digits: &'a [u8],
}

impl<'a> Model for Hex<'a> {
    ghost use Rattle.std.specs.Prelude.{◌≡◌, ℕ, List, Ok};
    ghost use Rattle.hex.specs.Hex.{decode_of};
    ghost use Rattle.request_lines.specs.HexWords.{digits_bytes};

    ghost Value = { List ℕ };

    ghost view = { λ h. digits_bytes h.digits.now };

    ghost invariant = { λ h. decode_of h.digits.now ≡ Ok (digits_bytes h.digits.now) };
}

impl<'a> Hex<'a> {
    /// The bytes that a word writes: `-` for none, otherwise two hexadecimal digits for each byte.
    /// `None` if it is neither. Nothing is allocated.
    pub fn of_word(word: &'a [u8]) -> Option<Hex<'a>>
        ensures { result ≡ bytes_of word.now }
    {
        if is_dash(word) {
            return Some(Hex { digits: &[] });
        }
        if word.len() % 2 != 0 {
            return None;
        }
        if !has_only_hex_digits(word) {
            return None;
        }
        Some(Hex { digits: word })
    }

    /// Decodes the bytes into memory of their own.
    pub fn read(self, alloc: Global) -> Result<Bytes, NoMemory>
        ensures { IfOk result (λ bytes. bytes ≡ self.entry) }
    {
        match decode(alloc, self.digits) {
            Ok(bytes) => Ok(Bytes::new(bytes)),
            Err(_) => Err(NoMemory),
        }
    }
}

fn is_dash(word: &[u8]) -> bool
    ensures { result ≡ bytes_eq word.now (codes "-") }
{
    word == b"-".as_slice()
}

fn has_only_hex_digits(word: &[u8]) -> bool
    ensures { result ≡ list_all is_hex_digit word.now }
{
    word.iter().all(|byte| byte.is_ascii_hexdigit())
}

/// The two digits of a byte.
fn hex_digits(byte: u8) -> [u8; 2]
    ensures { result ≡ encode_lower (byte ∷ []) }
{
    let mut digits = [0; 2];
    let _ = encode_to_slice([byte], &mut digits);
    digits
}

/// Writes two digits for each byte.
fn write_digits<W: Write>(w: &mut W, bytes: &[u8]) -> io::Result<()>
    ensures { OnOk result (Appends (W.contents w.old) (W.contents w.new) (encode_lower bytes.now)) }
{
    for byte in bytes {
        let digits = hex_digits(*byte);
        w.write_all(&digits)?;
    }
    Ok(())
}

/// Writes bytes as a word that `Hex::of_word` reads again: `-` for none, otherwise two hexadecimal digits for each byte.
pub fn write_hex_word<W: Write>(w: &mut W, bytes: &[u8]) -> io::Result<()>
    ensures { OnOk result (Appends (W.contents w.old) (W.contents w.new) (hex_word bytes.now)) }
{
    match bytes.split_first() {
        None => w.write_all(b"-"),
        Some(_) => write_digits(w, bytes),
    }
}
