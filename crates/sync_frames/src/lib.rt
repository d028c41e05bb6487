// Frames: when one is ready, how its front and its segments are followed, what is said of it and what it leaves; and up to three of them a push.
// Frames.antt says what each function promises the next.

#![tactic(auto)]

mod frames; // frames.rt: one frame, and up to three of them

pub use frames::{Drained, drain, nothing};
