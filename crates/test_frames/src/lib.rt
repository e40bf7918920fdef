//! Worked request lists for frames, edits and cached states: modes, vectors, residuals and filters; edits of all kinds, and
//! the states that are cached after them. Each is run whole and compared with the bytes that it must give.
#![tactic(auto)]

#[cfg(test)]
mod cached;
#[cfg(test)]
mod dropped;
#[cfg(test)]
mod edits;
#[cfg(test)]
mod expected;
#[cfg(test)]
mod filters;
#[cfg(test)]
mod frames;
#[cfg(test)]
mod inter;
#[cfg(test)]
mod modes;
#[cfg(test)]
mod residuals;
#[cfg(test)]
mod sources;
