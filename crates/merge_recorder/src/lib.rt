// The recorder of two streams: packed dibits of both in, the records of their merged journal out, in lent memory. No file is read or written here.
//
// What a step and a flush promise is in the crate merge_recorder_rules (specs/Steps.antt), with what holds of whole streams (specs/Statements.antt). The turns
// are in the crates merge_recorder_steps and merge_recorder_turns.

#![tactic(auto)]

ghost use Rattle.std.specs.Prelude.{◌≡◌, ◌/◌, min};
ghost use Rattle.bits.specs.declared.Refusal.TheVariants.{FrameRoom};
ghost use Rattle.frame_outcomes.specs.Outcomes.{tried_of};
ghost use Rattle.merge_recorder_rules.specs.Statements.{MergeFresh};
ghost use Rattle.merge_recorder_rules.specs.Steps.{ValidMerge, MergeSteppedBy, MergeFlushedBy};
ghost use Rattle.recorder_rules.specs.Steps.{dibits_of};

use bits::Refusal;
pub use merge_recorder_rules::{MergeRecorder, MergeStepped};
use merge_recorder_steps::{TURN_NEED, nothing_laid, stepped, turns};
use merger::Merger;
use merging_releasing::{Moved, release_all};
use merging_rules::{Answered, Gone, Work};
use merging_shelf::empty;
use sync::Synchroniser;

// Gives a recorder of which nothing is recorded.
pub fn start() -> MergeRecorder
    ensures merge_fresh { MergeFresh result }
    ensures valid { ValidMerge result }
{
    let answered = Answered {
        kept: 0,
        late: 0,
        double: 0,
        refused: 0,
    };
    let gone = Gone {
        released: 0,
        others: 0,
        passed: 0,
    };
    MergeRecorder {
        first: Synchroniser::new(),
        second: Synchroniser::new(),
        work: Work {
            merger: Merger::new(),
            shelf: empty(),
            answered,
            gone,
        },
        earlier: None,
    }
}

// Refuses a step for which too little memory is lent.
fn refused(r: MergeRecorder) -> MergeStepped
    ensures { result ≡ record { used = 0; size = 0; answer = Err FrameRoom; next = r } }
{
    MergeStepped {
        used: 0,
        size: 0,
        answer: Err(Refusal::FrameRoom),
        next: r,
    }
}

// Gives how many whole bytes lie before dibit `from`, or how many there are.
fn whole_bytes(from: usize, size: usize) -> usize
    ensures { result ≡ min (from / 4) size }
{
    (from / 4).min(size)
}

// Takes packed dibits of the primary from dibit `from` on and of the alternate from dibit `start` on, turn by turn, and lays the records of the frames that are
// handed on at the front of the lent memory. `over` and `ended` say of each stream that nothing comes after its bytes.
pub fn step(
    r: MergeRecorder,
    table: &[u8],
    primary: &[u8],
    from: usize,
    over: bool,
    alternate: &[u8],
    start: usize,
    ended: bool,
    out: &mut [u8],
) -> MergeStepped
    requires { ValidMerge r }
    ensures merge_stepped_by { MergeSteppedBy (tried_of table.now) out.old out.new (dibits_of primary.now from) over (dibits_of alternate.now «start») ended r result }
    ensures valid { ValidMerge result.next }
{
    if out.len() < TURN_NEED {
        return refused(r);
    }
    let a = whole_bytes(from, primary.len());
    let b = whole_bytes(start, alternate.len());
    turns(
        r,
        table,
        &primary[a..],
        from % 4,
        over,
        &alternate[b..],
        start % 4,
        ended,
        out,
    )
}

// Hands on what still waits, when both streams have ended.
pub fn flush(r: MergeRecorder, out: &mut [u8]) -> MergeStepped
    requires { ValidMerge r }
    ensures merge_flushed_by { MergeFlushedBy out.old out.new r result }
    ensures valid { ValidMerge result.next }
{
    if out.len() < TURN_NEED {
        return refused(r);
    }
    let before = Moved {
        work: r.work,
        laid: nothing_laid(r.earlier),
    };
    let moved = release_all(before, None, None, true, out);
    stepped(0, moved, r.first, r.second)
}
