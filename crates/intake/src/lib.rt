// Which bytes of an input are handed on next. What a read gives is a piece, however short, and is handed on at once: its dibits are used up before the next
// read. A cursor goes from call to call by value; the piece lies at the front of lent memory.
//
// specs/Pieces.antt says what a cursor is and what a read does to it, specs/Heard.antt that the dibits handed to a recorder are those of the bytes read.

#![tactic(auto)]

ghost use Rattle.std.specs.Prelude.{◌≡◌, true, ◌+◌, ◌*◌, ◌-◌, ◌≤◌, min, length};
ghost use Rattle.intake.specs.Pieces.{cursor_at, is_on, is_broken, going_after, going_beside, SoundCursor, RefilledBy, came_as};

use bits::Refusal;
use channels::{Desk, read_some};
use std::io::{Error, Read, Write};
use std::rt::Clock;

// Whether a stream goes on, has ended, or broke off: a read or a write has failed, and nothing may be written any more.
#[derive(Clone, Copy, PartialEq, Eq)]
pub enum Going {
    On,
    Ended,
    Broken,
}

// How many bytes the piece has, how many of its dibits are used, and whether the stream goes on.
#[derive(Clone, Copy)]
pub struct Cursor {
    pub size: usize,
    pub from: usize,
    pub going: Going,
}

// Gives the cursor of a piece of so many bytes, of which no dibit is used.
fn piece_of(size: usize, going: Going) -> Cursor
    ensures { result ≡ cursor_at size 0 going }
{
    Cursor {
        size,
        from: 0,
        going,
    }
}

// Gives the cursor of a file of which nothing is read.
pub fn opened() -> Cursor
    ensures { result ≡ cursor_at 0 0 Going.On }
{
    piece_of(0, Going::On)
}

// Tells whether a stream goes on.
pub fn goes_on(going: Going) -> bool
    ensures { result ≡ is_on going }
{
    going == Going::On
}

// Tells whether a stream broke off.
pub fn is_broken(going: Going) -> bool
    ensures { result ≡ is_broken going }
{
    going == Going::Broken
}

// Gives the cursor of a piece that a read gave: nothing of it is used.
fn came(read: Result<Option<usize>, Error>) -> Cursor
    ensures { result ≡ came_as read }
{
    match read {
        Ok(Some(n)) => piece_of(n, Going::On),
        Ok(None) => piece_of(0, Going::Ended),
        Err(_) => piece_of(0, Going::Broken),
    }
}

// Reads the next piece where the stream goes on and all dibits of the last one are used; else it gives the cursor as it is.
pub fn refilled<R: Read, W: Write, E: Write, C: Clock>(
    c: Cursor,
    input: &mut R,
    buf: &mut [u8],
    desk: &mut Desk<W, E, C>,
) -> Cursor
    requires fact_1 { SoundCursor c buf.old }
    requires fact_2 { length buf.old ≤ 4096 }
    ensures refilled { RefilledBy buf.old buf.new c result }
    ensures sound { SoundCursor result buf.new }
    ensures kept { length buf.new ≡ length buf.old }
{
    if !goes_on(c.going) || c.from < 4 * c.size {
        return c;
    }
    came(read_some(input, buf, desk))
}

// Tells whether a stream goes on behind a step: not where what it made could not be written, nor where a push was refused, which it says by its number.
fn goes_behind<W: Write, E: Write, C: Clock>(
    written: bool,
    answer: Result<(), Refusal>,
    desk: &mut Desk<W, E, C>,
) -> Going
    ensures { result ≡ going_after written answer }
{
    if !written {
        return Going::Broken;
    }
    match answer {
        Ok(()) => Going::On,
        Err(refusal) => {
            texts_printing::print_error(lines::refusal_line(refusal), desk);
            Going::Ended
        }
    }
}

// Gives the cursor behind a step that used so many dibits, whether what it made was written, and what its last push answered.
pub fn advanced<W: Write, E: Write, C: Clock>(
    c: Cursor,
    used: usize,
    written: bool,
    answer: Result<(), Refusal>,
    desk: &mut Desk<W, E, C>,
) -> Cursor
    requires { c.from + used ≤ 16384 }
    ensures { result ≡ cursor_at c.size (c.from + used) (going_after written answer) }
{
    Cursor {
        from: c.from + used,
        going: goes_behind(written, answer, desk),
        ..c
    }
}

// Tells whether a stream goes on beside another one: as before, but where what was made of both could not be written.
fn goes_beside(written: bool, going: Going) -> Going
    ensures { result ≡ going_beside written going }
{
    if written { going } else { Going::Broken }
}

// Gives the cursor of one of two streams behind a step over both that used so many dibits of each, as far as it had them, and whether what was made was written.
pub fn beside(c: Cursor, used: usize, written: bool) -> Cursor
    requires fact_1 { c.from ≤ 4 * c.size }
    requires fact_2 { c.size ≤ 4096 }
    ensures { result ≡ cursor_at c.size (c.from + min used (4 * c.size - c.from)) (going_beside written c.going) }
{
    let left = 4 * c.size - c.from;
    Cursor {
        from: c.from + used.min(left),
        going: goes_beside(written, c.going),
        ..c
    }
}
