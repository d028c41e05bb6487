// Carries out the programs `record` and `speech`: reads packed dibits from an open file, and writes the records of their frames, or the lines of their speech,
// to standard output. The loop that reads, calls and writes is that of crate `task_frames`; what the bytes say is promised by crate `recorder`.

#![tactic(auto)]

ghost use Rattle.std.specs.Prelude.{◌≡◌, [], ◌≤◌};
ghost use Rattle.recorder_asks.specs.Asks.{making_of};
ghost use Rattle.task_frames.specs.Runs.{HeardAll};
ghost use Rattle.task_records.specs.Ends.{spoken_end};
ghost use Rattle.texts_rules.specs.Text.{line_of};

use channels::Desk;
use intake::is_broken;
use recorder::{Asked, Asking};
use std::io::{Read, Write};
use std::rt::Clock;
pub use task_frames::Run;
use task_frames::every_frame;
use texts_rules::Line;

// Writes the journal of the frames in an open file, untried, and gives what was heard.
pub fn record<R: Read, W: Write, E: Write, C: Clock>(input: &mut R, desk: &mut Desk<W, E, C>) -> Run
    ensures { HeardAll (making_of Asked.Untried []) result }
{
    let asked = Asked::Untried;
    every_frame(&Asking { asked, table: b"" }, input, desk)
}

// Writes the journal of the frames in an open file, each decoded with the table, and gives what was heard.
pub fn record_decoded<R: Read, W: Write, E: Write, C: Clock>(
    input: &mut R,
    table: &[u8],
    desk: &mut Desk<W, E, C>,
) -> Run
    ensures { HeardAll (making_of Asked.Decoded table.now) result }
{
    let asked = Asked::Decoded;
    every_frame(&Asking { asked, table }, input, desk)
}

// Makes the last line of the speech: `end FRAMES ACCEPTED REFUSED`.
fn speech_end(frames: u64, accepted: u64) -> Line
    requires { accepted ≤ frames }
    ensures { result ≡ line_of (spoken_end frames accepted) }
{
    lines::end_line(frames, accepted, frames - accepted)
}

// Writes the speech of each frame in an open file, or its refusal, with the gaps, and the last line, but where a read or a write has failed; gives what was
// heard.
pub fn speak<R: Read, W: Write, E: Write, C: Clock>(
    input: &mut R,
    table: &[u8],
    desk: &mut Desk<W, E, C>,
) -> Run
    ensures { HeardAll (making_of Asked.Speech table.now) result }
{
    let asked = Asked::Speech;
    let run = every_frame(&Asking { asked, table }, input, desk);
    if !is_broken(run.going) {
        let frames = run.recorder.sync.frames();
        texts_printing::print(speech_end(frames, run.accepted), desk);
    }
    run
}
