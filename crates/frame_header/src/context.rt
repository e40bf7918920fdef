ghost use Rattle.std.specs.Prelude.{◌≡◌};
ghost use Rattle.std.specs.Option.{option_copied};
ghost use Rattle.frame_header.specs.Contexts.{default_context, first_context};

use vp8_tables::{
    DEFAULT_UV_PROBABILITIES, DEFAULT_VECTOR_PROBABILITIES, DEFAULT_Y_PROBABILITIES, Tables,
};

/// Segment mode and data (RFC 6386, section 9.3): `is_absolute` says that the values replace the
/// frame's, else they are added to them.
#[derive(Clone, Copy, Debug, PartialEq, Eq)]
pub struct Segments {
    /// The values replace the frame's.
    pub is_absolute: bool,
    /// The quantizer of each segment, -127 to 127.
    pub quantizers: [i8; 4],
    /// The loop filter level of each segment, -63 to 63.
    pub levels: [i8; 4],
}

/// Changes of the loop filter level (RFC 6386, section 9.4), each -63 to 63.
#[derive(Clone, Copy, Debug, PartialEq, Eq)]
pub struct FilterDeltas {
    /// By the reference: the frame itself, last, golden, altref.
    pub reference: [i8; 4],
    /// By the mode: single sub modes, zero, other vectors, split.
    pub mode: [i8; 4],
}

/// The probabilities that frames change (RFC 6386, sections 13.5, 16.2 and 17.2).
#[derive(Clone, Copy, Debug, PartialEq, Eq)]
pub struct Probabilities {
    /// For the token nodes, of 4 kinds, 8 bands, 3 contexts and 11 nodes in index order.
    pub coefficients: [u8; 1056],
    /// For a vector's row, then for its column.
    pub vectors: [[u8; 19]; 2],
    /// For the luma mode tree of inter frames.
    pub y_modes: [u8; 4],
    /// For the chroma mode tree of inter frames.
    pub uv_modes: [u8; 3],
}

/// Which references have their vectors negated (RFC 6386, section 9.7).
#[derive(Clone, Copy, Debug, PartialEq, Eq)]
pub struct SignBiases {
    /// The golden frame.
    pub golden: bool,
    /// The altref frame.
    pub altref: bool,
}

/// The fields that a frame inherits from the frames before it.
#[derive(Clone, Copy, Debug, PartialEq, Eq)]
pub struct Context {
    /// The four sets of probabilities.
    pub probabilities: Probabilities,
    /// The segment mode and data.
    pub segments: Segments,
    /// The changes of the loop filter level.
    pub deltas: FilterDeltas,
    /// The sign biases of the references.
    pub sign_biases: SignBiases,
}

/// The context with which a key frame begins: the default probabilities, and all else 0.
fn default_context(tables: &Tables) -> Context
    ensures { result ≡ default_context tables.now }
{
    Context {
        probabilities: Probabilities {
            coefficients: *tables.coefficients(),
            vectors: DEFAULT_VECTOR_PROBABILITIES,
            y_modes: DEFAULT_Y_PROBABILITIES,
            uv_modes: DEFAULT_UV_PROBABILITIES,
        },
        segments: Segments {
            is_absolute: false,
            quantizers: [0; 4],
            levels: [0; 4],
        },
        deltas: FilterDeltas {
            reference: [0; 4],
            mode: [0; 4],
        },
        sign_biases: SignBiases {
            golden: false,
            altref: false,
        },
    }
}

/// The context with which a frame begins: the default one for a key frame, else the one before it.
pub(crate) fn first_context(tables: &Tables, is_key: bool, before: Option<&Context>) -> Context
    ensures { result ≡ first_context tables.now is_key (option_copied before.entry) }
{
    match before {
        Some(before) if !is_key => *before,
        _ => default_context(tables),
    }
}
