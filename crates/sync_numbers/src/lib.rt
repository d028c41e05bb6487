// The numbers that say where in the rings the held bits lie, and how passing, restoring and sending change them.
// View.antt says what rings and numbers stand for, Numbers.antt what each function promises.

#![tactic(auto)]

mod figures; // figures.rt: what a frame changes in the figures of a state
mod moves; // moves.rt: how a frame slipped
mod numbers; // numbers.rt: the numbers of a state

pub use moves::moves_of;
pub use numbers::{Numbers, dropped, restored, sent, shifted, slipped};
