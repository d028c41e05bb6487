// Solves the linear system of a tail's repair, for the crate `tail_correcting`: at most six rows over GF(256), by Gauss-Jordan elimination.
// What each step promises is in crate `tail_rules`, specs/Steps.antt. `tables` are the field's, lent.

#![tactic(auto)]

mod elimination;

pub use elimination::solve;
