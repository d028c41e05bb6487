// A case list of docs/REPLAY.md, read from standard input through a window of bytes, and what is printed of it.
// list.rt finds the next case, tally.rt holds an answer to the expected one, report.rt prints.

#![tactic(auto)]

pub use list::{Case, case_after, input_of};
pub use tally::{Tally, judged};

mod list;
mod report;
mod tally;
