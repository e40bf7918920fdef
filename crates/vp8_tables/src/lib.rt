//! The long probability tables of VP8 (RFC 6386, sections 11.5, 13.4 and 13.5), as a value that
//! is handed to the decoder, and its short tables as constants.
#![tactic(auto)]

mod fault;
mod filters;
mod modes;
mod quantizers;
mod rfc;
mod tables;
mod vectors;

pub use fault::TableFault;
pub use filters::{BILINEAR_FILTERS, SIX_TAP_FILTERS};
pub use modes::{
    DEFAULT_UV_PROBABILITIES, DEFAULT_Y_PROBABILITIES, INTER_SUB_PROBABILITIES, INTER_Y_TREE,
    KEY_UV_PROBABILITIES, KEY_Y_PROBABILITIES, KEY_Y_TREE, PART_VECTOR_PROBABILITIES,
    PART_VECTOR_TREE, SEGMENT_TREE, SPLIT_PROBABILITIES, SPLIT_STARTS, SPLIT_TREE, SUB_TREE,
    UV_TREE, VECTOR_MODE_PROBABILITIES, VECTOR_MODE_TREE,
};
pub use quantizers::{AC_QUANTIZERS, DC_QUANTIZERS};
pub use tables::Tables;
pub use vectors::{
    DEFAULT_VECTOR_PROBABILITIES, LONG_VECTOR_BITS, SHORT_VECTOR_TREE, VECTOR_UPDATE_PROBABILITIES,
};
