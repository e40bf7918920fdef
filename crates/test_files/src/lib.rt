//! Worked files, lists and scripts: texts that are read and written, edits, and the pictures that scripts make.
#![tactic(auto)]

#[cfg(test)]
mod files;
#[cfg(test)]
mod lists;
#[cfg(test)]
mod packets;
#[cfg(test)]
mod scripts;
#[cfg(test)]
mod times;
