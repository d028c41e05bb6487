// Reads the markers in a lent ring of bits. A ring has 1,155 places. Crate `sync_rooms` writes a frame's bits and reliabilities from two rings into the room.
// The contracts speak of what stands in a ring from some place on (`sync_rules`, specs/Ring.antt); which places are held the crates above say.

#![tactic(auto)]

mod markers; // markers.rt: reading the ring of bits

pub use markers::{MarkerSeen, in_place, marker, matches_at, segment_at, three_frames, two_of};
