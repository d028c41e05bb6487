// The locators of a tail's repair, for the crate `tail_places`: that of the erased places, the syndromes with these places taken out (Forney), and
// the shortest locator of what is left (Berlekamp-Massey). A locator is a polynomial of seven coefficients, the lowest first, with a root for each place.
// The definitions are in crate `tail_rules`, specs/Massey.antt and Steps.antt. `powers` and `logs` are the field's lent tables.

#![tactic(auto)]

mod erasures;
mod massey;

pub use erasures::{erased_locator, forney};
pub use massey::{State, shortest_locator};
