// Goes through a whole input of packed dibits, and writes what is made of its frames to standard output, whatever that is: crates `task_lines` and
// `task_records` say it by a type with the trait `Lays`. Here is only the loop that reads, calls and writes; what the bytes say is promised by the crate of
// that type, and no decoder is needed here.

#![tactic(auto)]

ghost use Rattle.task_frames.specs.Runs.{HeardAll};

use channels::{Desk, write_whole};
use intake::{Going, advanced, goes_on, opened, refilled};
use recorder_rules::Recorder;
use recorder_steps::{Lays, start, step};
use std::io::{Read, Write};
use std::rt::Clock;

// What is left of a whole input: whether it broke off, how many frames were accepted, and the recorder.
#[derive(Clone, Copy)]
pub struct Run {
    pub going: Going,
    pub accepted: u64,
    pub recorder: Recorder,
}

// Goes through a whole input and writes what is made of its frames. A proved loop has to end, and nothing says that the input does: the loop has more turns
// than any run uses up.
pub fn every_frame<L: Lays, R: Read, W: Write, E: Write, C: Clock>(
    lays: &L,
    input: &mut R,
    desk: &mut Desk<W, E, C>,
) -> Run
    ensures { HeardAll (L.making lays.now) result }
{
    let mut recorder = start();
    let mut accepted = 0;
    let mut cursor = opened();
    let mut buf = io::buffer();
    let mut out = [0u8; 768];
    for _ in 0..u64::MAX {
        cursor = refilled(cursor, input, &mut buf, desk);
        if !goes_on(cursor.going) {
            break;
        }
        let a = step(lays, recorder, &buf[..cursor.size], cursor.from, &mut out);
        let written = write_whole(&out[..a.size], desk);
        cursor = advanced(cursor, a.used, written, a.answer, desk);
        accepted += a.accepted as u64;
        recorder = a.next;
    }
    Run {
        going: cursor.going,
        accepted,
        recorder,
    }
}
