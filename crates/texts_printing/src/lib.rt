// Writes a line to standard output or standard error. No contract can say what is written; the line's text is its maker's promise.

#![tactic(auto)]

ghost use Rattle.std.specs.Prelude.{◌≡◌, false, ◌+◌, ◌^◌, ◌<◌, ◌≤◌};
ghost use Rattle.channels.specs.Sending.{PutBy};

use channels::{Desk, Sent, complain, put, write_whole};
use std::io::Write;
use std::rt::Clock;
use texts_rules::Line;

// Writes the line's text by the step that is given, and answers whether all of it was taken: never of a line that says to be longer than its bytes.
fn printed<F: FnOnce(&[u8]) -> bool>(line: Line, write: F) -> bool
    requires { F.IsAlwaysCallable write }
    ensures { 128 < line.size → result ≡ false }
{
    line.size <= 128 && write(&line.bytes[..line.size])
}

// Writes the line to standard output, and answers whether all of it was taken: never of a line that says to be longer than its bytes, of which nothing is
// written. Where a write fails it says `cannot write` and the reason on standard error.
pub fn print<W: Write, E: Write, C: Clock>(line: Line, desk: &mut Desk<W, E, C>) -> bool
    ensures { 128 < line.size → result ≡ false }
{
    printed(line, |text| write_whole(text, desk))
}

// Writes the line to standard error, and answers as `print` does.
pub fn print_error<W: Write, E: Write, C: Clock>(line: Line, desk: &mut Desk<W, E, C>) -> bool
    ensures { 128 < line.size → result ≡ false }
{
    printed(line, |text| complain(text, &mut desk.errors, &desk.clock))
}

// Writes the line to standard output behind what was sent before, and counts it; nothing is written behind a hole, nor of a line that says to be longer than
// its bytes.
pub fn print_behind<W: Write, E: Write, C: Clock>(
    sent: Sent,
    line: Line,
    desk: &mut Desk<W, E, C>,
) -> Sent
    requires { sent.bytes + 128 < 2 ^ 64 }
    ensures put { line.size ≤ 128 → PutBy line.size sent result }
    ensures longer { 128 < line.size → result ≡ record { bytes = sent.bytes; whole = false } }
{
    if line.size > 128 {
        return Sent {
            whole: false,
            ..sent
        };
    }
    put(sent, &line.bytes[..line.size], desk)
}
