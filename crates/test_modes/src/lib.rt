//! Worked partitions: the bits, modes, vectors and tokens that written bits are read as.
#![tactic(auto)]

#[cfg(test)]
mod bits;
#[cfg(test)]
mod codes;
#[cfg(test)]
mod inter_modes;
#[cfg(test)]
mod key_modes;
#[cfg(test)]
mod tables;
#[cfg(test)]
mod tokens;
