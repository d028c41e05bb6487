// What a recording is made of, step by step: the dibits of a stream go into the synchroniser, and of the frames that a step sends a program makes its bytes,
// records or lines, in lent memory. There is no code here but the types of which the definitions speak; each theorem is the `ensures` of an empty function,
// so that it cannot vanish.
//
// specs/Makings.antt says what a program makes of frames, specs/Steps.antt what a step promises, specs/Calls.antt what a history of steps is;
// specs/Statements.antt has the theorems.

#![tactic(auto)]

ghost use Rattle.recorder_rules.specs.Statements.{MakingsSequential, step_rules, steps_make, cut_anywhere, whole_input, journal_rule};

use bits::Refusal;
use sync::Synchroniser;

// Holds the synchroniser, and the frame before the next one.
// kept: `ValidRecorder` is a clause and no ghost field, by what may not change: `recorder_steps::stepped` makes a recorder of whatever it is given.
#[derive(Clone, Copy)]
pub struct Recorder {
    pub sync: Synchroniser,
    pub earlier: Option<u64>,
}

// Says how many dibits a step used, how many bytes it laid at the front of the lent memory, how many of its frames were accepted, and what the last push
// answered; and hands back the next recorder.
#[derive(Clone, Copy)]
pub struct Stepped {
    pub used: usize,
    pub size: usize,
    pub accepted: usize,
    pub answer: Result<(), Refusal>,
    pub next: Recorder,
}

// Says how many bytes of a step's frames are laid so far, how many of the frames were accepted, and which was the last.
#[derive(Clone, Copy)]
pub struct Laid {
    pub size: usize,
    pub accepted: usize,
    pub earlier: Option<u64>,
}

// What programs make of frames they make frame by frame.
pub fn makings_sequential()
    ensures { MakingsSequential }
{}

// A step uses no more than it is lent, lays no more than there is room for, and goes on.
pub fn step_rules()
    ensures { step_rules }
{}

// Any history of steps hands out what is made of exactly the frames that the synchroniser sends for the dibits pushed.
pub fn steps_make()
    ensures { steps_make }
{}

// An input may be cut anywhere: nothing of it is pushed twice, and nothing is left out.
pub fn cut_anywhere()
    ensures { cut_anywhere }
{}

// Of a whole input the bytes are what is made of its dibits' frames, however it was cut.
pub fn whole_input()
    ensures { whole_input }
{}

// The journal of a stream's frames has no break between its first and its last frame, none of its records is refused, and each reads back.
pub fn journal_rule()
    ensures { journal_rule }
{}
