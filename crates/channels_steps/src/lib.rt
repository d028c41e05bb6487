// One call of a stream's read or write: what it did, and where a writing stands after it. An interrupted call is to be made again, and one that would have
// had to wait has been waited for, a little, when that is told; any other reason is a failure, and goes with the answer.
//
// arguments.rt reads a program's arguments, calls.rt makes the calls, pausing.rt waits, progress.rt counts what a writing's calls took, saying.rt tells a user why something failed, desk.rt has where
// a program says it. The definitions are in specs/Told.antt and specs/Progresses.antt.

#![tactic(auto)]

mod arguments;
mod calls;
mod desk;
mod pausing;
mod progress;
mod saying;

pub use arguments::{argument, has_argument};
pub use calls::{Call, call_read, call_write};
pub use desk::Desk;
pub use progress::{Progress, advanced, taken_of};
pub use saying::{fail, file_of, open, unreadable, usage};
