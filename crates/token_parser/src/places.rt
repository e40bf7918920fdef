//! The order of the coefficients of a block, and where its probabilities are.

ghost use Rattle.std.specs.Prelude.{◌≡◌, ℕ, ◌+◌, ◌*◌, ◌<◌, ◌≤◌, slice_index};
ghost use Rattle.vp8_tables.specs.Tables.{coefficient_index};

/// The band of each index (`coeff_bands` in RFC 6386, section 13.3), which the contracts cite.
const BANDS: [usize; 16] = [0, 1, 2, 3, 6, 4, 5, 6, 6, 6, 6, 6, 6, 6, 6, 7];

/// The offset of the probabilities of each index's band within its kind: a band has 3 contexts by
/// 11 nodes.
const BAND_STARTS: [usize; 16] = [
    0, 33, 66, 99, 198, 132, 165, 198, 198, 198, 198, 198, 198, 198, 198, 231,
];

/// The raster index of the coefficient at each index (`zigzag` in RFC 6386, section 13).
pub(crate) const ZIGZAG: [usize; 16] = [0, 1, 4, 8, 5, 2, 3, 6, 9, 12, 13, 10, 7, 11, 14, 15];

/// Where the probabilities of an index of a kind of block begin: 3 contexts by 11 nodes.
pub(crate) fn row_start(kind: usize, place: usize) -> usize
    requires kind { kind < 4 }
    requires place { place < 16 }
    ensures value { (context : ℕ) → result + context * 11 ≡ coefficient_index kind (slice_index BANDS place) context 0 }
    ensures room { result + 33 ≤ 1056 }
{
    kind * 264 + BAND_STARTS[place]
}
