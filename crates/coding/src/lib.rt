// Scrambles a word into the 384 bits of an envelope and back. What that means is defined in crate `coding_rules`; CRC-16 and the markers, which are named here
// too, are the crates `coding_crc` and `coding_markers`.

#![tactic(auto)]

mod scrambling;

pub use coding_crc::crc16;
pub use coding_markers::markers;
pub use scrambling::{descramble, scramble};
