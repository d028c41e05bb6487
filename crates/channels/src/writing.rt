// Writes all of lent bytes, or says why not, and counts what was taken.
ghost use Rattle.std.specs.Prelude.{◌≡◌, true, ◌+◌, ◌^◌, ◌≤◌, ◌<◌, length};
ghost use Rattle.channels.specs.Sending.{none_sent, PutBy};
ghost use Rattle.channels_steps.specs.Progresses.{StandsAt};

use channels_steps::{Desk, Progress, advanced, call_write, fail, taken_of};
use std::io::Write;
use std::rt::Clock;

// Writes the lent bytes, call by call and each from where the last one ended, until all are taken, a call takes none or one fails; then nothing more is
// written. Without a byte it makes no call. It says nothing. A proved loop has to end, and nothing says that a call has not to be made again: the loop
// has more turns than any run uses up.
pub fn send<W: Write, C: Clock>(to: &mut W, bytes: &[u8], clock: &C) -> Progress
    ensures { StandsAt (length bytes.now) result }
{
    if bytes.is_empty() {
        return Progress::Whole(0);
    }
    let mut done = 0;
    for _ in 0..u64::MAX {
        let call = call_write(to, &bytes[done..], clock);
        let stands = advanced(bytes.len(), done, call);
        let Progress::Left(d) = stands else {
            return stands;
        };
        done = d;
    }
    Progress::Left(done)
}

// Says on standard error why a writing has stopped, if it has.
fn say_stopped<E: Write, C: Clock>(stands: Progress, errors: &mut E, clock: &C) {
    match stands {
        Progress::Failed(_, reason) => fail(b"cannot write", reason, errors),
        Progress::Stuck(_) => {
            send(errors, b"cannot write: nothing was taken\n", clock);
        }
        Progress::Left(_) | Progress::Whole(_) => {}
    }
}

// Writes the lent bytes and gives how many were taken. Where a call fails or takes nothing it says `cannot write` and the reason on standard error, and writes
// nothing more.
fn write_counted<W: Write, E: Write, C: Clock>(bytes: &[u8], desk: &mut Desk<W, E, C>) -> usize
    ensures { result ≤ length bytes.now }
{
    let stands = send(&mut desk.out, bytes, &desk.clock);
    say_stopped(stands, &mut desk.errors, &desk.clock);
    taken_of(stands)
}

// Writes all of the lent bytes to standard output, or says why not. It gives a yes exactly where as many bytes were taken as there are.
pub fn write_whole<W: Write, E: Write, C: Clock>(bytes: &[u8], desk: &mut Desk<W, E, C>) -> bool
    ensures { length bytes.now ≡ 0 → result ≡ true }
{
    write_counted(bytes, desk) == bytes.len()
}

// Writes all of the lent bytes to standard error, or says there why not. It gives a yes exactly where as many bytes were taken as there are.
pub fn complain<E: Write, C: Clock>(bytes: &[u8], errors: &mut E, clock: &C) -> bool
    ensures { length bytes.now ≡ 0 → result ≡ true }
{
    let stands = send(errors, bytes, clock);
    say_stopped(stands, errors, clock);
    taken_of(stands) == bytes.len()
}

// Says how many bytes were taken of all that was handed to a stream, and whether all were.
#[derive(Clone, Copy)]
pub struct Sent {
    pub bytes: u64,
    pub whole: bool,
}

// Says that nothing was handed to a stream yet.
pub fn nothing_sent() -> Sent
    ensures { result ≡ none_sent }
{
    Sent {
        bytes: 0,
        whole: true,
    }
}

// Writes the lent bytes to standard output behind what was sent before, or says why not; behind a hole it writes nothing.
pub fn put<W: Write, E: Write, C: Clock>(sent: Sent, bytes: &[u8], desk: &mut Desk<W, E, C>) -> Sent
    requires { sent.bytes + length bytes.now < 2 ^ 64 }
    ensures { PutBy (length bytes.now) sent result }
{
    if !sent.whole {
        return sent;
    }
    let taken = write_counted(bytes, desk);
    Sent {
        bytes: sent.bytes + taken as u64,
        whole: taken == bytes.len(),
    }
}
