// What the recorder of two streams promises, and what holds of any history of its steps. There is no code here but the types of which the definitions speak;
// the theorem is the `ensures` of an empty function, so that it cannot vanish.
//
// specs/Steps.antt says what a step and a flush promise, specs/Calls.antt what a history of steps is; specs/Statements.antt has the theorem.

#![tactic(auto)]

ghost use Rattle.merge_recorder_rules.specs.Statements.{merge_records};

use bits::Refusal;
use merging_rules::Work;
use sync::Synchroniser;

// Holds the synchronisers of the primary and of the alternate, what is made of their frames, and the frame written last.
// kept: `ValidMerge` is a clause and no ghost field, by what may not change: `merge_recorder_steps::stepped` makes a recorder of whatever it is given.
#[derive(Clone, Copy)]
pub struct MergeRecorder {
    pub first: Synchroniser,
    pub second: Synchroniser,
    pub work: Work,
    pub earlier: Option<u64>,
}

// Says how many dibits of each stream a step used, of one that has ended as far as it has them, and how many bytes of records it laid at the front of the lent
// memory; the answer is a refusal by 2 where too little memory is lent. It hands back the next recorder.
#[derive(Clone, Copy)]
pub struct MergeStepped {
    pub used: usize,
    pub size: usize,
    pub answer: Result<(), Refusal>,
    pub next: MergeRecorder,
}

// Two whole streams, cut anywhere and apart from each other: what is handed out is the journal of the frames that the merger released, dibit by dibit.
pub fn merge_records()
    ensures { merge_records }
{}
