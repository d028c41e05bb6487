// Reads: what comes, however little, or until lent memory is full.
ghost use Rattle.std.specs.Prelude.{◌≡◌, length};
ghost use Rattle.io.specs.Counts.{IsPrefixLen};
ghost use Rattle.channels.specs.Moving.{Gives, size_of, CameInto, FillsTo};

use channels_steps::{Call, Desk, call_read, fail, unreadable};
use std::io::{Error, ErrorKind, Read, Result, Write};
use std::rt::Clock;

// How much of the lent memory was filled, from its front, and why a read failed before it was full, if one did.
#[derive(Clone, Copy)]
pub struct Filled {
    pub bytes: usize,
    pub failed: Option<Error>,
}

// Gives what a read that moved so many bytes gave: these at the front of the lent memory, or nothing at the end of the input.
fn given(moved: usize) -> Option<usize>
    ensures { Gives moved result }
{
    if moved == 0 { None } else { Some(moved) }
}

// Reads once and gives how many bytes came, however few, or nothing at the end of the input. It says nothing: a failure's reason is with the answer. Of
// memory without a byte it gives the end. A proved loop has to end, and nothing says that a call has not to be made again: the loop has more turns than any
// run uses up.
pub fn take_in<R: Read, C: Clock>(from: &mut R, buf: &mut [u8], clock: &C) -> Result<Option<usize>>
    ensures came { CameInto buf.new result }
    ensures kept { length buf.new ≡ length buf.old }
{
    for _ in 0..u64::MAX {
        match call_read(from, &mut *buf, clock) {
            Call::Moved(n) => return Ok(given(n)),
            Call::Failed(reason) => return Err(reason),
            Call::Again | Call::Wait => {}
        }
    }
    Err(Error::from(ErrorKind::Interrupted))
}

// Gives how many bytes came into lent memory, as a number of its first bytes: a caller then lends these without a proof of its own.
pub fn size_of(came: Result<Option<usize>>, buf: &[u8]) -> usize
    requires { CameInto buf.now came }
    ensures { (result ≡ size_of came) × IsPrefixLen result buf.now }
{
    if let Ok(Some(n)) = came { n } else { 0 }
}

// Reads until the lent memory is full, the input ends or a read fails. It says nothing: where a read failed the reason is with the answer.
pub fn fill<R: Read, C: Clock>(from: &mut R, buf: &mut [u8], clock: &C) -> Filled
    ensures filled { FillsTo buf.new result }
    ensures kept { length buf.new ≡ length buf.old }
{
    // kept: a `while`, since a `for` is no plainer: `done` goes on by what each read gave.
    let mut done = 0;
    while done < buf.len() {
        match take_in(from, &mut buf[done..], clock) {
            Ok(Some(n)) => done += n,
            Ok(None) => break,
            Err(reason) => {
                return Filled {
                    bytes: done,
                    failed: Some(reason),
                };
            }
        }
    }
    Filled {
        bytes: done,
        failed: None,
    }
}

// Reads once as `take_in` does; where the read fails, the reason is handed to `say`.
fn read_told<R: Read, E: Write, C: Clock, S: FnOnce(Error, &mut E)>(
    from: &mut R,
    buf: &mut [u8],
    errors: &mut E,
    clock: &C,
    say: S,
) -> Result<Option<usize>>
    requires { S.IsAlwaysCallable say }
    ensures came { CameInto buf.new result }
    ensures kept { length buf.new ≡ length buf.old }
{
    let came = take_in(from, buf, clock);
    if let Err(reason) = came {
        say(reason, errors);
    }
    came
}

// Reads once and gives what came, however little; where the read fails it says `cannot read` and the reason on standard error.
pub fn read_some<R: Read, W: Write, E: Write, C: Clock>(
    from: &mut R,
    buf: &mut [u8],
    desk: &mut Desk<W, E, C>,
) -> Result<Option<usize>>
    ensures came { CameInto buf.new result }
    ensures kept { length buf.new ≡ length buf.old }
{
    read_told(from, buf, &mut desk.errors, &desk.clock, |reason, errors| {
        fail(b"cannot read", reason, errors)
    })
}

// Reads once as `read_some` does, from one of several inputs; where the read fails it says `cannot read`, the input's name and the reason.
pub fn read_named<R: Read, W: Write, E: Write, C: Clock>(
    from: &mut R,
    name: &[u8],
    buf: &mut [u8],
    desk: &mut Desk<W, E, C>,
) -> Result<Option<usize>>
    ensures came { CameInto buf.new result }
    ensures kept { length buf.new ≡ length buf.old }
{
    read_told(from, buf, &mut desk.errors, &desk.clock, |reason, errors| {
        unreadable(name, reason, errors)
    })
}

// Reads until the lent memory is full or the input ends; where a read fails it says `cannot read` and the reason on standard error.
pub fn read_whole<R: Read, W: Write, E: Write, C: Clock>(
    from: &mut R,
    buf: &mut [u8],
    desk: &mut Desk<W, E, C>,
) -> Filled
    ensures filled { FillsTo buf.new result }
    ensures kept { length buf.new ≡ length buf.old }
{
    let filled = fill(from, &mut *buf, &desk.clock);
    if let Some(reason) = filled.failed {
        fail(b"cannot read", reason, &mut desk.errors);
    }
    filled
}
