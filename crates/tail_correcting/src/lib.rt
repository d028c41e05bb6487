// Corrects a tail at the places that may be wrong, for the crate `tail_repair`: the bytes to add there solve a linear system.
// What each step promises is in crate `tail_rules`, specs/Steps.antt. Everywhere t is a tail, s its six syndromes, and `tables` are the
// field's, lent.

#![tactic(auto)]

mod system;

pub use system::correct;
