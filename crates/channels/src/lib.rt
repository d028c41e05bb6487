// Reads from and writes to streams, and looks at what each call answers: the programs' way to their data.
//
// A read or a write may move fewer bytes than it was asked for, may be interrupted, may find that nothing can be moved yet, or may fail. Here a short
// call counts for what it moved, an interrupted one is made again, one that would have to wait is made again after a pause, and any other failure is said
// on standard error with the system's reason. No contract can say which bytes a call moved; how many there are and what follows from that is proved.
//
// reading.rt reads, writing.rt writes; crate channels_steps makes one call, tells what it did, and has the words. The definitions are in specs/Moving.antt
// and specs/Sending.antt.

#![tactic(auto)]

mod reading;
mod writing;

pub use channels_steps::{
    Desk, Progress, argument, fail, file_of, has_argument, open, taken_of, unreadable, usage,
};
pub use reading::{Filled, fill, read_named, read_some, read_whole, size_of, take_in};
pub use writing::{Sent, complain, nothing_sent, put, send, write_whole};
