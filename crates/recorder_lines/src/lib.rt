// Lays the lines of a recording's frames into lent memory: those of a listing, or those of the slips. No decoder is needed for them, and no file is read or
// written here. laying.rt puts the lines of a frame behind what is there (crate `lines_laying` makes and puts one), ending.rt makes the last one; a step is that
// of crate `recorder_steps`.
//
// What is made of frames is defined in crate `recorder_rules`, what a line says in `lines_rules`.

#![tactic(auto)]

ghost use Rattle.recorder_rules.specs.Steps.{ValidRecorder, SteppedBy, dibits_of};
ghost use Rattle.recorder_lines.specs.Wants.{making_of};

mod ending;
mod laying;

pub use ending::last_line;
pub use laying::Lines;
pub use lines_laying::{Wanted, put_line};
use recorder_rules::{Recorder, Stepped};

// Takes packed bytes, four dibits each, from dibit `from` on, up to the first push that sends frames or is refused: the caller goes on with `from + used`.
// The lines of its frames stand at the front of `out`; where that has fewer than 768 bytes, a push is refused by 2 and nothing is written.
pub fn step(r: Recorder, wanted: Wanted, bytes: &[u8], from: usize, out: &mut [u8]) -> Stepped
    requires { ValidRecorder r }
    ensures { SteppedBy (making_of wanted) out.old out.new (dibits_of bytes.now from) r result }
{
    recorder_steps::step(&Lines { wanted }, r, bytes, from, out)
}
