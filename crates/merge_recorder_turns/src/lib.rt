// One turn over two streams: a dibit of each, or a calm stretch of both, goes into their synchronisers, whose rings are lent in place; the frames that come go to
// the merger; then all that is ready is handed on.

#![tactic(auto)]

ghost use Rattle.std.specs.Prelude.{◌≡◌, true, false, ◌+◌, ◌^◌, ◌≤◌, ◌<◌, length, take, drop};
ghost use Rattle.frame_outcomes.specs.Outcomes.{tried_of};
ghost use Rattle.merge_recorder_rules.specs.Steps.{Going, merge_need};
ghost use Rattle.merge_recorder_turns.specs.Brought.{BroughtBy, NothingToDo, Few, made_by};
ghost use Rattle.merger.specs.States.{ValidMerger};
ghost use Rattle.merging_rules.specs.Accounts.{most_told, told_of, Idle};
ghost use Rattle.merging_rules.specs.Works.{pile_of, MovedBy, ValidWork};
ghost use Rattle.recorder_rules.specs.Steps.{dibits_of};
ghost use Rattle.sync_numbers.specs.View.{view_of};

use merge_stretches::settled_after;
use merger::Merger;
use merger_steps::ready;
use merging_offering::offer_all;
use merging_releasing::{Moved, release_all};
use sync_inputs::Source;
use sync_rules::{Head, MOST_HELD, ROOM_SIZE};
use sync_steps::{Numbers, feed_into};

// Says what a dibit, or a calm stretch, of a stream brought: how far it is settled, the numbers of its synchroniser and the frames that went out.
// kept: a rule of the project (no heap, fixed memory): the count stands beside one array of the three frames that can go out.
#[derive(Clone, Copy)]
pub struct Brought {
    pub settled: Option<u64>,
    pub numbers: Numbers,
    pub count: usize,
    pub heads: [Head; 3],
}

// Feeds n dibits of packed bytes from dibit `from` + i on, into rings lent in place. A stream that has none, or whose push is refused, has ended.
pub fn take(
    bits: &mut [u8; MOST_HELD],
    reliabilities: &mut [u8; MOST_HELD],
    k: Numbers,
    bytes: &[u8],
    from: usize,
    i: usize,
    n: usize,
    room: &mut [u8; ROOM_SIZE],
) -> Brought
    requires fact_1 { Going bits.old reliabilities.old k }
    requires fact_2 { from ≤ 3 }
    requires fact_3 { i < 2 ^ 62 }
    ensures { BroughtBy (take n (drop i (dibits_of bytes.now from))) (view_of bits.old reliabilities.old k) bits.new reliabilities.new room.new result }
{
    let stretch = Source::Stretch {
        bytes,
        start: from + i,
        most: n,
    };
    let d = feed_into(bits, reliabilities, k, stretch, room);
    let heads = d.drained.heads;
    Brought {
        settled: settled_after(d),
        numbers: d.drained.numbers,
        count: d.drained.count,
        heads,
    }
}

// Tells whether a frame has come, or what waits first is ready. The work is handed on only then: it is 3 KB, and is copied at every call that changes it.
pub fn stirs(m: Merger, primary: Brought, alternate: Brought) -> bool
    requires { ValidMerger m }
    ensures { result ≡ false → NothingToDo primary alternate m }
{
    primary.count != 0
        || alternate.count != 0
        || (m.n != 0 && ready(m.positions[0], primary.settled, alternate.settled, false))
}

// Hands in what both pushes brought, the primary's frames first, then hands on all that is ready.
pub fn made_of(
    before: Moved,
    table: &[u8],
    primary: Brought,
    alternate: Brought,
    one: &[u8; ROOM_SIZE],
    two: &[u8; ROOM_SIZE],
    out: &mut [u8],
) -> Moved
    requires fact_1 { ValidWork before.work }
    requires fact_2 { told_of before.work.answered + 6 < most_told }
    requires fact_3 { Few primary }
    requires fact_4 { Few alternate }
    requires fact_5 { before.laid.size + merge_need ≤ length out.old }
    ensures valid { ValidWork result.work }
    ensures moved { MovedBy (made_by (tried_of table.now) primary one.now alternate two.now (pile_of before.work)) out.old out.new before.laid result.work result.laid }
    ensures told { told_of result.work.answered ≡ told_of before.work.answered + (primary.count + alternate.count) }
    ensures idle { Idle primary.settled alternate.settled false result.work.merger }
    ensures fits { result.laid.size ≤ length out.old }
{
    let first = offer_all(before, table, 0, &primary.heads[..primary.count], one, out);
    let second = offer_all(
        first,
        table,
        1,
        &alternate.heads[..alternate.count],
        two,
        out,
    );
    release_all(second, primary.settled, alternate.settled, false, out)
}
