// Hands on what the merger releases: the records of its frames are laid into lent memory, one behind the other, and all is counted.

#![tactic(auto)]

ghost use Rattle.std.specs.Prelude.{◌≡◌, ◌+◌, ◌≤◌, ◌<◌, length};
ghost use Rattle.merging_rules.specs.Accounts.{Idle, TakesOut, most_told, told_of, gone_of, gone_by};
ghost use Rattle.merging_rules.specs.Piles.{released, all_released};
ghost use Rattle.merging_rules.specs.Works.{pile_of, MovedBy, reserved, ValidWork, OneLess};

use merger_rules::Released;
use merging_records::put_released;
use merging_rules::{Gone, Work};
use merging_shelf::{how_many, without};
use recorder_rules::Laid;

// Holds the work, and what is laid of the frames that it handed on.
#[derive(Clone, Copy)]
pub struct Moved {
    pub work: Work,
    pub laid: Laid,
}

// Counts the frames that a release took out: of a position that it hands on, one is in the journal and the other one, if any, gave way to it.
fn counted(gone: Gone, answer: Released, out: u64) -> Gone
    requires fact_1 { TakesOut answer out }
    requires fact_2 { gone_of gone + out < most_told }
    ensures { result ≡ gone_by answer out gone }
{
    match answer {
        Released::Frame(_) => Gone {
            released: gone.released + 1,
            others: gone.others + (out - 1),
            ..gone
        },
        Released::PassedOver => Gone {
            passed: gone.passed + out,
            ..gone
        },
        Released::NothingReady => gone,
    }
}

// Takes the first position out and lays its frame, if it is ready.
pub fn release_first(
    before: Moved,
    primary: Option<u64>,
    alternate: Option<u64>,
    flush: bool,
    out: &mut [u8],
) -> Moved
    requires fact_1 { ValidWork before.work }
    requires fact_2 { told_of before.work.answered < most_told }
    requires fact_3 { reserved before.work before.laid ≤ length out.old }
    ensures valid { ValidWork result.work }
    ensures moved { MovedBy (released primary alternate flush (pile_of before.work)) out.old out.new before.laid result.work result.laid }
    ensures reserved { reserved result.work result.laid ≤ reserved before.work before.laid }
    ensures fewer { OneLess primary alternate flush before.work.merger result.work.merger }
{
    let work = before.work;
    let after = work.merger.release(primary, alternate, flush);
    let laid = put_released(work.shelf, before.laid, after.freed, after.answer, out);
    Moved {
        work: Work {
            merger: after.merger,
            shelf: without(work.shelf, after.freed),
            gone: counted(work.gone, after.answer, how_many(after.freed)),
            ..work
        },
        laid,
    }
}

// Releases until no position goes out any more: as long as fewer wait than before. It starts from 17, one more than can wait.
pub fn release_all(
    before: Moved,
    primary: Option<u64>,
    alternate: Option<u64>,
    flush: bool,
    out: &mut [u8],
) -> Moved
    requires fact_1 { ValidWork before.work }
    requires fact_2 { told_of before.work.answered < most_told }
    requires fact_3 { reserved before.work before.laid ≤ length out.old }
    ensures valid { ValidWork result.work }
    ensures moved { MovedBy (all_released primary alternate flush (pile_of before.work)) out.old out.new before.laid result.work result.laid }
    ensures reserved { reserved result.work result.laid ≤ reserved before.work before.laid }
    ensures idle { Idle primary alternate flush result.work.merger }
{
    let mut moved = before;
    // kept: a `while`, since a `for` is no plainer: it counts nothing, and ends with the first release that takes nothing out.
    let mut waited = 17;
    while moved.work.merger.n < waited {
        waited = moved.work.merger.n;
        moved = release_first(moved, primary, alternate, flush, out);
    }
    moved
}
