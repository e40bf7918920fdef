//! Worked command lines. Each is run whole, and its replies, messages, files and exit status are compared with those that it
//! must give.
#![tactic(auto)]

#[cfg(test)]
mod caching;
#[cfg(test)]
mod expected;
#[cfg(test)]
mod explained;
#[cfg(test)]
mod faults;
#[cfg(test)]
mod help;
#[cfg(test)]
mod live;
#[cfg(test)]
mod memory;
#[cfg(test)]
mod runs;
#[cfg(test)]
mod saving;
#[cfg(test)]
mod writers;
