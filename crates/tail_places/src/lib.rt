// Finds where a tail may be wrong: makes its syndromes, and marks the erased places and those that the locator's roots name.
// Their contracts are in crate `tail_rules`: specs/Code.antt says what is wanted, Steps.antt what `locate` promises the crate `tail_repair`.
// Everywhere t is a tail, s its six syndromes, es the erased places, and `tables` are the field's, lent.

#![tactic(auto)]

mod places;
mod roots;
mod syndromes;

pub use places::is_among;
pub use roots::locate;
pub use syndromes::{all_zero, syndromes_of};
