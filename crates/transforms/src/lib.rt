//! Dequantisation and inverse transforms of VP8 (RFC 6386, sections 9.6 and 14).
#![tactic(auto)]

mod blocks;
mod dct;
mod factor_set;
mod firsts;
pub mod laws;
mod pairs;
mod quantisation;
mod walsh;

pub use dct::{dct_add, dct_add_first};
pub use factor_set::Factors;
pub use firsts::{dct_add_four_firsts, dct_add_two_firsts};
pub use pairs::dct_add_two;
pub use quantisation::{dequantise, dequantise_others, factors};
pub use walsh::{wht, wht_first};
