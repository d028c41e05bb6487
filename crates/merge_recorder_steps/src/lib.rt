// The turns of a step over two streams, as long as there are dibits and memory for what a turn may need.

#![tactic(auto)]

ghost use Rattle.std.specs.Prelude.{◌≡◌, ◌⊎◌, true, false, ◌+◌, ◌-◌, ◌*◌, ◌≤◌, ◌<◌, min, length};
ghost use Rattle.frame_outcomes.specs.Outcomes.{tried_of};
ghost use Rattle.merge_recorder_rules.specs.Steps.{ValidMerge, merge_need, most_turns, available_of, MergeSteppedBy};
ghost use Rattle.recorder_rules.specs.Steps.{dibits_of, laid_none};

use merge_recorder_rules::{MergeRecorder, MergeStepped};
use merge_recorder_turns::{made_of, stirs, take};
use merge_stretches::stretch;
use merging_releasing::Moved;
use recorder_rules::Laid;
use sync::Synchroniser;
use sync_rules::ROOM_SIZE;

// The bytes that the frames of one turn may need.
pub const TURN_NEED: usize = 2816;

// A step makes at most 2^62 turns: four for each of 2^60 bytes.
const MOST_TURNS: usize = 4611686018427387904;

// Gives how many dibits `size` bytes hold from dibit `from` of the first one on, up to 2^62.
fn dibits_left(size: usize, from: usize) -> usize
    requires { from ≤ 3 }
    ensures { result ≡ min most_turns (4 * size - from) }
{
    size.saturating_mul(4).saturating_sub(from).min(MOST_TURNS)
}

// Gives how many turns can be made where a and b dibits are there: of a stream that has not ended the next dibit has to be there.
fn available(over: bool, ended: bool, a: usize, b: usize) -> usize
    ensures { result ≡ available_of over ended a b }
{
    match (over, ended) {
        (true, true) => a.max(b),
        (true, false) => b,
        (false, true) => a,
        (false, false) => a.min(b),
    }
}

// Tells whether another turn is made: there are dibits for it, and memory for what it may need.
fn goes_on(i: usize, all: usize, laid: usize, size: usize) -> bool
    requires { laid ≤ size }
    ensures yes { result ≡ true → (i < all) × (laid + merge_need ≤ size) }
    ensures no { result ≡ false → (all ≤ i) ⊎ (size < laid + merge_need) }
{
    i < all && TURN_NEED <= size - laid
}

// Says that nothing is laid yet behind an earlier frame.
pub fn nothing_laid(earlier: Option<u64>) -> Laid
    ensures { result ≡ laid_none earlier }
{
    Laid {
        size: 0,
        accepted: 0,
        earlier,
    }
}

// Puts together what a step hands back.
pub fn stepped(used: usize, moved: Moved, first: Synchroniser, second: Synchroniser) -> MergeStepped
    ensures { result ≡ record { used = used; size = moved.laid.size; answer = Ok tt; next = record { first = first; second = second; work = moved.work; earlier = moved.laid.earlier } } }
{
    let next = MergeRecorder {
        first,
        second,
        work: moved.work,
        earlier: moved.laid.earlier,
    };
    MergeStepped {
        used,
        size: moved.laid.size,
        answer: Ok(()),
        next,
    }
}

// Makes turn after turn, from dibit `from` and dibit `start` of the first bytes on, as long as there are dibits and memory. Where neither stream searches or
// sends nothing becomes ready: such a stretch is fed at once.
pub fn turns(
    r: MergeRecorder,
    table: &[u8],
    primary: &[u8],
    from: usize,
    over: bool,
    alternate: &[u8],
    start: usize,
    ended: bool,
    out: &mut [u8],
) -> MergeStepped
    requires fact_1 { ValidMerge r }
    requires fact_2 { from ≤ 3 }
    requires fact_3 { start ≤ 3 }
    requires fact_4 { merge_need ≤ length out.old }
    ensures merge_stepped_by { MergeSteppedBy (tried_of table.now) out.old out.new (dibits_of primary.now from) over (dibits_of alternate.now «start») ended r result }
    ensures valid { ValidMerge result.next }
{
    // bits, rels and numbers are the primary's synchroniser, others, their and figures the alternate's
    let mut bits = r.first.bits;
    let mut rels = r.first.reliabilities;
    let mut numbers = r.first.numbers;
    let mut others = r.second.bits;
    let mut their = r.second.reliabilities;
    let mut figures = r.second.numbers;
    let mut moved = Moved {
        work: r.work,
        laid: nothing_laid(r.earlier),
    };
    let mut one = [0u8; ROOM_SIZE];
    let mut two = [0u8; ROOM_SIZE];
    let p = dibits_left(primary.len(), from);
    let q = dibits_left(alternate.len(), start);
    let all = available(over, ended, p, q);
    // kept: a `while`, since a `for` is no plainer: i goes on by stretches, and the loop stops where the lent memory is used up.
    let mut i = 0;
    while goes_on(i, all, moved.laid.size, out.len()) {
        let n = stretch(numbers, figures, p.saturating_sub(i), q.saturating_sub(i));
        let a = take(&mut bits, &mut rels, numbers, primary, from, i, n, &mut one);
        let b = take(
            &mut others,
            &mut their,
            figures,
            alternate,
            start,
            i,
            n,
            &mut two,
        );
        numbers = a.numbers;
        figures = b.numbers;
        i += n;
        if stirs(moved.work.merger, a, b) {
            moved = made_of(moved, table, a, b, &one, &two, out);
        }
    }
    let first = Synchroniser {
        bits,
        reliabilities: rels,
        numbers,
    };
    let second = Synchroniser {
        bits: others,
        reliabilities: their,
        numbers: figures,
    };
    stepped(i, moved, first, second)
}
