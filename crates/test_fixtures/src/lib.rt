//! What the crates of worked request lists share: streams, packets written with an encoder, and runs.
#![tactic(auto)]

mod fixtures;
mod packets;

pub use fixtures::{
    HIDDEN, INTER, KEY, Ran, Run, WIDE_KEY, ivf_of, replies_of, run_over, run_packets, run_sources,
    run_with, y4m_of,
};
pub use packets::{
    B, Macroblock, PLAIN, filtered_packet, first_partition, inter_packet, inter_packet_of,
    key_packet, packet_of, write_bits, write_y2,
};
