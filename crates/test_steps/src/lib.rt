//! Worked steps: the state and picture after a packet, states that differ in one field, what forged packets decode to, the MD5s of a clip's frames, and the lists of packets and of macroblocks.
#![tactic(auto)]

#[cfg(test)]
mod fields;
#[cfg(test)]
mod forged;
#[cfg(test)]
mod hashes;
#[cfg(test)]
mod listing;
#[cfg(test)]
mod macroblocks;
#[cfg(test)]
mod states;
