// The steps of the synchroniser on two rings that are lent, for the crate `sync`: what a push does to the rings and to the numbers that say
// where in them the held bits lie, and the loop of every feed. No state is held here. What is pushed, and its tests, are in the crate `sync_inputs`, the parts
// of a push before its frames in `sync_pushes`, some of which are named here too. What rings and numbers stand for is in the crate `sync_numbers`.

#![tactic(auto)]

mod feeds; // feeds.rt: many pushes
mod pushes; // pushes.rt: the last part of a push

pub use feeds::{Into, feed_into};
pub use pushes::sends;
pub use sync_frames::{Drained, nothing};
pub use sync_numbers::Numbers;
pub use sync_pushes::{appended, enough, put, quiet_of};
