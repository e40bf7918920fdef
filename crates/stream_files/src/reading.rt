// Reads the bytes of a reader, up to a limit.
ghost use Rattle.std.specs.Prelude.{◌≡◌, ℕ, ◌+◌, ◌-◌, ◌<◌, ◌≤◌, ◌++◌, List, length};
ghost use Rattle.std.specs.Prelude.{IfOk, OnOk, OnErr, IfErr, IfSome, vec_len};
ghost use Rattle.std.specs.Io.KnownBytes.{Consumes, IsAtEnd};
ghost use Rattle.stream_files.specs.Reading.{read_fault_word, TakesAtMost, FaultMeans};

use std::alloc::Global;
use std::io::Read;
use thiserror::Error;

/// Why a reader was not read to its end.
#[derive(Clone, Copy, Debug, PartialEq, Eq, Error)]
pub enum ReadFault {
    /// The reader returned an error.
    #[error("the reader returned an error")]
    Read,
    /// The reader has more bytes than allowed.
    #[error("there are more bytes than allowed")]
    TooLong,
    /// Out of memory for the bytes.
    #[error("out of memory for the bytes")]
    NoMemory,
}

impl ReadFault {
    /// The error's name.
    pub const fn word(self) -> &'static str
        ensures { result.now ≡ read_fault_word self }
    {
        match self {
            ReadFault::Read => "Read",
            ReadFault::TooLong => "TooLong",
            ReadFault::NoMemory => "NoMemory",
        }
    }
}

/// The number of bytes asked of a reader at a time.
const PIECE: usize = 4096;

/// Reads into `piece` once, and appends the bytes read to `all`. Returns their number, which is 0 only at the
/// reader's end. Never asks for more than one byte past `limit`.
fn read_piece<I: Read>(
    r: &mut I,
    piece: &mut [u8],
    all: &mut Vec<u8>,
    limit: usize,
) -> Result<usize, ReadFault>
    requires within { vec_len all.old ≤ limit }
    requires room { 0 < length piece.old }

    ensures within { IfOk result (λ count. vec_len all.new ≤ limit) }
    ensures grows { IfOk result (λ count. vec_len all.new ≡ vec_len all.old + count) }
    ensures taken { IfOk result (λ count. (bytes : List ℕ)
        × Consumes (I.remaining r.old) (I.remaining r.new) bytes
        × (all.new.items ≡ all.old.items ++ bytes)) }
    ensures end { IfOk result (λ count. count ≡ 0 → IsAtEnd (I.remaining r.new)) }
    ensures err { OnErr result (TakesAtMost (limit - vec_len all.old + 1)
        (I.remaining r.old) (I.remaining r.new)) }
    ensures fault { IfErr result (FaultMeans (limit - vec_len all.old)
        (I.remaining r.old)) }
{
    let left = limit - all.len();
    let wanted = piece.len().min(left.saturating_add(1));
    let Ok(count) = r.read(&mut piece[..wanted]) else {
        return Err(ReadFault::Read);
    };
    if count > left {
        return Err(ReadFault::TooLong);
    }
    let Ok(()) = all.extend_from_slice(&piece[..count]) else {
        return Err(ReadFault::NoMemory);
    };
    Ok(count)
}

/// Reads all bytes of a reader, if there are at most `limit`.
///
/// `Read` if the reader returns an error of any kind, `TooLong` if it has more than `limit` bytes,
/// `NoMemory` if there is no memory for them; whichever comes first. At most `limit + 1` bytes are taken from
/// the reader.
pub fn read_all<I: Read>(alloc: Global, r: &mut I, limit: usize) -> Result<Vec<u8>, ReadFault>
    ensures within { IfOk result (λ all. vec_len all ≤ limit) }
    ensures whole { IfOk result (λ all. IfSome (I.remaining r.old) (λ left. all.items ≡ left)) }
    ensures end { OnOk result (IsAtEnd (I.remaining r.new)) }
    ensures taken { TakesAtMost (limit + 1) (I.remaining r.old) (I.remaining r.new) }
    ensures fault { IfErr result (FaultMeans limit (I.remaining r.old)) }
{
    let mut all = Vec::new(alloc);
    let mut piece = [0; PIECE];
    'pieces: loop {
        if read_piece(r, &mut piece, &mut all, limit)? == 0 {
            return Ok(all);
        }
    }
}
