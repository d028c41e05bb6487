// Waits a little, where a call would have had to wait: the system gives no other way to learn when it would not.
use std::rt::Clock;
use std::thread;
use std::time::Duration;

// Lets five milliseconds pass, or fewer where a signal comes.
pub fn pause<C: Clock>(clock: &C) {
    thread::sleep(clock, Duration::from_millis(5));
}
