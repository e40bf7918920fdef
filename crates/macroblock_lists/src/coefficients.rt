//! The coefficients of a macroblock.

ghost use Rattle.std.specs.Prelude.{◌≡◌, ◌≤◌, ◌*◌, length};
ghost use Rattle.macroblock_lists.specs.Coefficients.{count_in, count_of, greatest_in, greatest_of, has_coefficient};

/// Whether a block has a coefficient that is not 0.
pub(crate) fn has_coefficient(block: &[i16; 16]) -> bool
    ensures { result ≡ has_coefficient block.now }
{
    block.iter().any(|value| *value != 0)
}

/// How many coefficients of a block are not 0.
fn count_in(block: &[i16; 16]) -> usize
    ensures value { result ≡ count_in block.now }
    ensures few { result ≤ 16 }
{
    block.iter().filter(|value| **value != 0).count()
}

/// How many coefficients of a macroblock are not 0.
pub(crate) fn count_of(blocks: &[[i16; 16]; 25]) -> usize
    ensures { result ≡ count_of blocks.now }
{
    let mut count = 0;
    for block in blocks {
        count += count_in(block);
    }
    count
}

/// The greatest absolute value in a block.
fn greatest_in(block: &[i16; 16]) -> u16
    ensures { result ≡ greatest_in block.now }
{
    block
        .iter()
        .fold(0, |most, value| most.max(value.unsigned_abs()))
}

/// The greatest absolute value in a macroblock.
pub(crate) fn greatest_of(blocks: &[[i16; 16]; 25]) -> u16
    ensures { result ≡ greatest_of blocks.now }
{
    blocks
        .iter()
        .fold(0, |most, block| most.max(greatest_in(block)))
}
