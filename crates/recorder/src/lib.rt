// The recorder: packed dibits in, and of the frames that they bring finished records or lines out, in lent memory. No file is read or written here.
// laying.rt lays what is asked of a frame; a step is that of crate `recorder_steps`, and what holds of any history of steps is in specs/Statements.antt.
//
// What is asked of frames is defined in crate `recorder_asks`, what a step promises in `recorder_rules`.

#![tactic(auto)]

ghost use Rattle.recorder_rules.specs.Steps.{ValidRecorder, SteppedBy, dibits_of};
ghost use Rattle.recorder.specs.Asks.{making_of};
ghost use Rattle.recorder.specs.Statements.{JournalOfCalls, SpeechOfCalls};

mod laying;

pub use laying::Asking;
pub use recorder_asks::{Asked, need_of};
pub use recorder_rules::{Recorder, Stepped};
pub use recorder_steps::start;

// Takes packed bytes, four dibits each, from dibit `from` on, up to the first push that sends frames or is refused: the caller goes on with `from + used`.
// What is asked of its frames stands at the front of `out`; where that has fewer bytes than three frames may need, a push is refused by 2 and nothing is
// written. The table is not looked at where frames stay untried.
pub fn step(
    r: Recorder,
    asked: Asked,
    table: &[u8],
    bytes: &[u8],
    from: usize,
    out: &mut [u8],
) -> Stepped
    requires { ValidRecorder r }
    ensures { SteppedBy (making_of asked table.now) out.old out.new (dibits_of bytes.now from) r result }
{
    recorder_steps::step(&Asking { asked, table }, r, bytes, from, out)
}

// The bytes of any history of steps are the records of the journal of exactly the frames that the synchroniser sends for the dibits pushed: nothing is left
// out, nothing is there twice, and none of the records is refused.
pub fn journal_of_calls()
    ensures { JournalOfCalls }
{}

// Where speech is asked they are a line for each entry of that journal.
pub fn speech_of_calls()
    ensures { SpeechOfCalls }
{}
