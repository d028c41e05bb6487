// Carries out the programs `listing` and `slips`: reads packed dibits from an input, and writes the lines of their frames to standard output. The loop that
// reads, calls and writes is that of crate `task_frames`; what the lines say is promised by crate `recorder_lines`, and no decoder is needed for it.

#![tactic(auto)]

ghost use Rattle.recorder_lines.specs.Wants.{making_of};
ghost use Rattle.task_frames.specs.Runs.{HeardAll};

use channels::Desk;
use intake::is_broken;
use recorder_lines::{Lines, Wanted, last_line};
use std::io::{Read, Write};
use std::rt::Clock;
pub use task_frames::Run;
use task_frames::every_frame;

// Writes the lines of the frames in an input, and the last line, but where a read or a write has failed.
fn write_lines<R: Read, W: Write, E: Write, C: Clock>(
    wanted: Wanted,
    input: &mut R,
    desk: &mut Desk<W, E, C>,
) -> Run
    ensures { HeardAll (making_of wanted) result }
{
    let run = every_frame(&Lines { wanted }, input, desk);
    if !is_broken(run.going) {
        texts_printing::print(last_line(wanted, run.recorder.sync), desk);
    }
    run
}

// Writes a line for each frame and each gap in an input, and the last line; gives what was heard.
pub fn list<R: Read, W: Write, E: Write, C: Clock>(input: &mut R, desk: &mut Desk<W, E, C>) -> Run
    ensures { HeardAll (making_of Wanted.Listing) result }
{
    write_lines(Wanted::Listing, input, desk)
}

// Writes a line for each frame with a move, and the last line; gives what was heard.
pub fn slips<R: Read, W: Write, E: Write, C: Clock>(input: &mut R, desk: &mut Desk<W, E, C>) -> Run
    ensures { HeardAll (making_of Wanted.Slips) result }
{
    write_lines(Wanted::Slips, input, desk)
}
