// One call of a stream's read or write, and what it did.
ghost use Rattle.std.specs.Prelude.{length};
ghost use Rattle.channels_steps.specs.Told.{FailsFor, Told, Within};

use crate::pausing::pause;
use std::io::{Error, ErrorKind, Read, Result, Write};
use std::rt::Clock;

// What one call did: it moved so many bytes; it was interrupted and is to be made again; it would have had to wait; it failed, for this reason.
#[derive(Clone, Copy)]
pub enum Call {
    Moved(usize),
    Again,
    Wait,
    Failed(Error),
}

// Tells what a call that failed is to be taken for, by the reason that it gave.
fn failure(reason: Error) -> Call
    ensures { FailsFor reason result }
{
    match reason.kind() {
        ErrorKind::Interrupted => Call::Again,
        ErrorKind::WouldBlock => Call::Wait,
        _ => Call::Failed(reason),
    }
}

// Tells what a call did, by its answer.
fn told(answer: Result<usize>) -> Call
    ensures { Told answer result }
{
    match answer {
        Ok(moved) => Call::Moved(moved),
        Err(reason) => failure(reason),
    }
}

// Waits a little where a call would have had to wait.
fn wait_after<C: Clock>(call: Call, clock: &C) {
    if matches!(call, Call::Wait) {
        pause(clock);
    }
}

// Reads once into lent memory.
pub fn call_read<R: Read, C: Clock>(from: &mut R, buf: &mut [u8], clock: &C) -> Call
    ensures { Within (length buf.new) result }
{
    let call = told(from.read(&mut *buf));
    wait_after(call, clock);
    call
}

// Writes the lent bytes once.
pub fn call_write<W: Write, C: Clock>(to: &mut W, bytes: &[u8], clock: &C) -> Call
    ensures { Within (length bytes.now) result }
{
    let call = told(to.write(bytes));
    wait_after(call, clock);
    call
}
