// Demand 1 as the contract of the calls themselves: each function makes one step of a recording, with what it is given, and hands on its answer, so what it
// promises is what that call answers and leaves in lent memory. The contract is in crates/demands/specs/Demand1.antt.

#![tactic(auto)]

ghost use Rattle.demands.specs.Demand1.{StepRefuses};
ghost use Rattle.recorder_asks.specs.Asks.{making_of};
ghost use Rattle.recorder_rules.specs.Steps.{ValidRecorder, dibits_of};

use recorder_asks::Asked;
use recorder_rules::{Recorder, Stepped};
use recorder_steps::Lays;

// Tests 2 and 3 in the same way, whatever is made of the frames: this is the step that the programs `listing`, `slips`, `record` and `speech` make (crate
// `task_frames`), each with what it lays.
fn frames_step<L: Lays>(lays: &L, r: Recorder, bytes: &[u8], from: usize, out: &mut [u8]) -> Stepped
    requires { ValidRecorder r }
    ensures { StepRefuses (L.making lays.now) r (dibits_of bytes.now from) out.old result out.new }
{
    recorder_steps::step(lays, r, bytes, from, out)
}

// Tests 2, the memory for what is asked of a push's frames, and 3 of each packed dibit from `from` on in its turn, none of which is above 3; what is
// refused is one push, the pushes before it stand, and nothing is written. A table that is not admitted is refused frame by frame, in what
// is made of them.
fn record_step(
    r: Recorder,
    asked: Asked,
    table: &[u8],
    bytes: &[u8],
    from: usize,
    out: &mut [u8],
) -> Stepped
    requires { ValidRecorder r }
    ensures { StepRefuses (making_of asked table.now) r (dibits_of bytes.now from) out.old result out.new }
{
    recorder::step(r, asked, table, bytes, from, out)
}
