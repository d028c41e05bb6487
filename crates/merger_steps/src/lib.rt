// Has the steps of the merger on what it holds, for the crate `merger`: one position, the positions in order, and offsets against the last release.
// No state is held here.
// What each gives is defined in the crate merger_rules (specs/Merging.antt, specs/States.antt).

#![tactic(auto)]

mod clocks; // clocks.rt: late, snapping
mod order; // order.rt: the positions in their order
mod positions; // positions.rt: one position

pub use clocks::{after, late, snap};
pub use order::{below, with_position, without_first};
pub use positions::{choose, freed, is_taken, opened, ready, with_frame};
