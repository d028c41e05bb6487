// What a program reads and writes beside its input.
use std::io::Write;
use std::rt::Clock;

// Where a program's answers and complaints go, and the clock by which a call that would have had to wait is made again.
#[derive(Drop)]
pub struct Desk<W: Write, E: Write, C: Clock> {
    pub out: W,
    pub errors: E,
    pub clock: C,
}
