//! Whether two contexts are the same, field by field.

ghost use Rattle.std.specs.Prelude.{◌≡◌, IsTrue, ◌↔◌};

use frame_header::{Context, FilterDeltas, Probabilities, Segments, SignBiases};

/// Whether two lists of bytes are the same.
pub(crate) fn same_bytes(a: &[u8], b: &[u8]) -> bool
    ensures { IsTrue result ↔ (a.now ≡ b.now) }
{
    a == b
}

/// Whether two lists of numbers are the same.
fn same_numbers(a: &[i8], b: &[i8]) -> bool
    ensures { IsTrue result ↔ (a.now ≡ b.now) }
{
    a == b
}

/// Whether two sets of vector probabilities are the same.
fn same_vectors(a: &[[u8; 19]; 2], b: &[[u8; 19]; 2]) -> bool
    ensures { IsTrue result ↔ (a.now ≡ b.now) }
{
    same_bytes(&a[0], &b[0]) && same_bytes(&a[1], &b[1])
}

/// Whether two sets of probabilities are the same.
fn same_probabilities(a: &Probabilities, b: &Probabilities) -> bool
    ensures { IsTrue result ↔ (a.now ≡ b.now) }
{
    same_bytes(&a.coefficients, &b.coefficients)
        && same_vectors(&a.vectors, &b.vectors)
        && same_bytes(&a.y_modes, &b.y_modes)
        && same_bytes(&a.uv_modes, &b.uv_modes)
}

/// Whether two segments' data are the same.
fn same_segments(a: &Segments, b: &Segments) -> bool
    ensures { IsTrue result ↔ (a.now ≡ b.now) }
{
    a.is_absolute == b.is_absolute
        && same_numbers(&a.quantizers, &b.quantizers)
        && same_numbers(&a.levels, &b.levels)
}

/// Whether two sets of filter changes are the same.
fn same_deltas(a: &FilterDeltas, b: &FilterDeltas) -> bool
    ensures { IsTrue result ↔ (a.now ≡ b.now) }
{
    same_numbers(&a.reference, &b.reference) && same_numbers(&a.mode, &b.mode)
}

/// Whether two pairs of sign biases are the same.
fn same_biases(a: &SignBiases, b: &SignBiases) -> bool
    ensures { IsTrue result ↔ (a.now ≡ b.now) }
{
    a.golden == b.golden && a.altref == b.altref
}

/// Whether two contexts are the same in every field.
pub(crate) fn same_context(a: &Context, b: &Context) -> bool
    ensures { IsTrue result ↔ (a.now ≡ b.now) }
{
    same_probabilities(&a.probabilities, &b.probabilities)
        && same_segments(&a.segments, &b.segments)
        && same_deltas(&a.deltas, &b.deltas)
        && same_biases(&a.sign_biases, &b.sign_biases)
}
