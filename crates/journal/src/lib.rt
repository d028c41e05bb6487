// The journal: records of 64 bytes, numbers high byte first, and the gaps between frames. Crate `journal_writing` writes a record, `journal_reading` reads one,
// `journal_gaps` has the rule for gaps. What they give is defined in crate `journal_rules`. A user names this crate, which passes calls and types on.

#![tactic(auto)]

pub use journal_gaps::gap_to;
pub use journal_reading::read;
pub use journal_rules::{Body, Entry, Figures, Outcome, Tried};
pub use journal_writing::write;
