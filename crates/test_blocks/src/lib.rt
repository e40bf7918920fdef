//! Worked planes and blocks, sample by sample: rows, borders and windows of planes, pictures that share them, spare planes;
//! inverse transforms, intra prediction, inter prediction and the loop filter.
#![tactic(auto)]

#[cfg(test)]
mod filters;
#[cfg(test)]
mod in_place;
#[cfg(test)]
mod inter;
#[cfg(test)]
mod intra;
#[cfg(test)]
mod pairs;
#[cfg(test)]
mod pictures;
#[cfg(test)]
mod planes;
#[cfg(test)]
mod residuals;
