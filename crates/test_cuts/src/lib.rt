//! Worked exports: the packets that show frames again, and show bits.
#![tactic(auto)]

#[cfg(test)]
mod exports;
#[cfg(test)]
mod show_bits_of_packets;
