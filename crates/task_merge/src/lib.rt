// Carries out the program `merge`: reads two packed recordings of the same time from open files, and writes the journal of their merged frames to standard
// output. Here is only the loop that reads, calls and writes; what the records say is promised by crate `merge_recorder`.

#![tactic(auto)]

ghost use Rattle.std.specs.Prelude.{not, ◌≡◌};
ghost use Rattle.frame_outcomes.specs.Outcomes.{tried_of};
ghost use Rattle.intake.specs.Pieces.{SoundCursor, is_on};
ghost use Rattle.merge_recorder_rules.specs.Steps.{ValidMerge, MergeSteppedBy};
ghost use Rattle.task_merge.specs.Heard.{rest_in};
ghost use Rattle.task_merge.specs.Runs.{HeardBoth};

use channels::{Desk, write_whole};
use intake::{Cursor, Going, beside, goes_on, is_broken, opened, refilled};
use merge_recorder::{MergeRecorder, MergeStepped, flush, start, step};
use std::io::{Read, Write};
use std::rt::Clock;

// What is left of two whole recordings: whether a read or a write has failed, and the recorder.
#[derive(Clone, Copy)]
pub struct Merged {
    pub broken: bool,
    pub recorder: MergeRecorder,
}

// Tells whether one of two streams broke off.
fn one_broken(one: Going, two: Going) -> bool {
    is_broken(one) || is_broken(two)
}

// Tells whether two streams go on: one of them does, and none broke off.
fn both_go_on(one: Going, two: Going) -> bool {
    !one_broken(one, two) && (goes_on(one) || goes_on(two))
}

// Makes a step with what is left of the pieces of both streams, of which the cursors tell.
fn step_both(
    r: MergeRecorder,
    table: &[u8],
    one: Cursor,
    first: &[u8],
    two: Cursor,
    second: &[u8],
    out: &mut [u8],
) -> MergeStepped
    requires fact_1 { ValidMerge r }
    requires fact_2 { SoundCursor one first.now }
    requires fact_3 { SoundCursor two second.now }
    ensures met { MergeSteppedBy (tried_of table.now) out.old out.new (rest_in first.now one) (not (is_on one.going)) (rest_in second.now two) (not (is_on two.going)) r result }
    ensures valid { ValidMerge result.next }
{
    step(
        r,
        table,
        &first[..one.size],
        one.from,
        !goes_on(one.going),
        &second[..two.size],
        two.from,
        !goes_on(two.going),
        out,
    )
}

// Goes through two whole recordings and writes the records of what is ready. A proved loop has to end, and nothing says that the input does: the loop has
// more turns than any run uses up.
fn every_dibit<P: Read, A: Read, W: Write, E: Write, C: Clock>(
    table: &[u8],
    primary: &mut P,
    alternate: &mut A,
    desk: &mut Desk<W, E, C>,
) -> Merged
    ensures { HeardBoth (tried_of table.now) result }
{
    let mut r = start();
    let mut one = opened();
    let mut two = opened();
    let mut first = io::buffer();
    let mut second = io::buffer();
    let mut out = [0u8; 8192];
    for _ in 0..u64::MAX {
        one = refilled(one, primary, &mut first, desk);
        two = refilled(two, alternate, &mut second, desk);
        if !both_go_on(one.going, two.going) {
            break;
        }
        let a = step_both(r, table, one, &first, two, &second, &mut out);
        let written = write_whole(&out[..a.size], desk);
        one = beside(one, a.used, written);
        two = beside(two, a.used, written);
        r = a.next;
    }
    Merged {
        broken: one_broken(one.going, two.going),
        recorder: r,
    }
}

// Says on standard error how many frames are not in the journal, if there are any.
fn say_left_out<W: Write, E: Write, C: Clock>(
    late: u64,
    double: u64,
    passed: u64,
    refused: u64,
    desk: &mut Desk<W, E, C>,
) {
    if late != 0 || double != 0 || passed != 0 || refused != 0 {
        texts_printing::print_error(lines::left_out_line(late, double, passed, refused), desk);
    }
}

// Writes the records of what still waits when both recordings have ended, and says how many frames are not in the journal.
fn finish<W: Write, E: Write, C: Clock>(r: MergeRecorder, desk: &mut Desk<W, E, C>)
    requires { ValidMerge r }
{
    let mut out = [0u8; 8192];
    let a = flush(r, &mut out);
    if write_whole(&out[..a.size], desk) {
        let work = a.next.work;
        say_left_out(
            work.answered.late,
            work.answered.double,
            work.gone.passed,
            work.answered.refused,
            desk,
        );
    }
}

// Writes the journal of two open recordings, and gives what was heard; where a read or a write has failed nothing more is written.
pub fn merge<P: Read, A: Read, W: Write, E: Write, C: Clock>(
    table: &[u8],
    primary: &mut P,
    alternate: &mut A,
    desk: &mut Desk<W, E, C>,
) -> Merged
    ensures { HeardBoth (tried_of table.now) result }
{
    let merged = every_dibit(table, primary, alternate, desk);
    if !merged.broken {
        finish(merged.recorder, desk);
    }
    merged
}
