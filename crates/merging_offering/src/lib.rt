// Hands frames to the merger, each with the hard decoder's yes or no.

#![tactic(auto)]

ghost use Rattle.std.specs.Prelude.{◌≡◌, ℕ, ◌+◌, ◌*◌, ◌≤◌, ◌<◌, length, get_or};
ghost use Rattle.frame_outcomes.specs.Outcomes.{tried_of};
ghost use Rattle.bits.specs.declared.Refusal.TheVariants.{Positions};
ghost use Rattle.merging_rules.specs.Accounts.{most_told, told_of, counted};
ghost use Rattle.merging_rules.specs.Piles.{push_for, offered_once, offered, offered_all};
ghost use Rattle.merging_rules.specs.Works.{pile_of, MovedBy, reserved, said, FairTried, Storable, ValidWork};
ghost use Rattle.sync_call_rules.specs.Calls.{slots};
ghost use Rattle.sync_rules.specs.Frames.{no_head};
ghost use Rattle.sync_rules.specs.Sizes.{room_size};

use bits::Refusal;
use frame_outcomes::try_frame;
use journal_rules::Tried;
use merger_rules::Keeping;
use merging_answers::{insisting, laid_on, passes, told, yielding};
use merging_releasing::{Moved, release_first};
use merging_rules::Work;
use merging_shelf::free_slot;
use sync_rules::{Head, SLOT_SIZE};

// Hands back the merger's answer to a frame, and the work after it.
#[derive(Clone, Copy)]
pub struct Offered {
    pub answer: Result<Keeping, Refusal>,
    pub work: Work,
}

// kept: the stream is a number here too, by what may not change: `push_for` and `offered` say what every number gives, and the merger refuses those above 1 by 7.
// Hands a frame to the merger once, with a free slot's place as its number.
fn offer_once(work: Work, stream: usize, head: Head, tried: Tried, envelope: &[u8]) -> Offered
    requires fact_1 { ValidWork work }
    requires fact_2 { told_of work.answered + 1 < most_told }
    requires fact_3 { length envelope.now ≡ 48 }
    requires fact_4 { Storable head }
    requires fact_5 { FairTried tried }
    ensures valid { ValidWork result.work }
    ensures answer { result.answer ≡ (push_for (said tried) stream (record { head = head; envelope = envelope.now }) (pile_of work)).answer }
    ensures pile { pile_of result.work ≡ (offered_once (said tried) stream (record { head = head; envelope = envelope.now }) (pile_of work)).pile }
    ensures more { result.work.merger.n ≤ work.merger.n + 1 }
{
    let slot = free_slot(&work.shelf);
    let after = work
        .merger
        .push(stream, head, slot as u64, passes(tried.outcome));
    Offered {
        answer: after.answer,
        work: Work {
            merger: after.merger,
            shelf: laid_on(work.shelf, after.answer, slot, tried, envelope),
            answered: told(work.answered, after.answer),
            ..work
        },
    }
}

// Counts a frame that gives way as refused; all else stays as it was.
fn let_go(work: Work) -> Work
    requires { told_of work.answered + 1 < most_told }
    ensures { result ≡ record { merger = work.merger; shelf = work.shelf; answered = counted (Err Positions) work.answered; gone = work.gone } }
{
    Work {
        answered: told(work.answered, Err(Refusal::Positions)),
        ..work
    }
}

// Hands a frame in, of which `tried` is said. Where one that decodes is refused, as with 16 positions waiting, the first position is released before its time, as
// at a flush, and the frame is handed in once more. One that does not decode gives way where it is refused or would take the last position.
fn offer_tried(
    before: Moved,
    stream: usize,
    head: Head,
    tried: Tried,
    envelope: &[u8],
    out: &mut [u8],
) -> Moved
    requires fact_1 { ValidWork before.work }
    requires fact_2 { told_of before.work.answered + 1 < most_told }
    requires fact_3 { length envelope.now ≡ 48 }
    requires fact_4 { Storable head × FairTried tried }
    requires fact_5 { reserved before.work before.laid ≤ length out.old }
    ensures valid { ValidWork result.work }
    ensures moved { MovedBy (offered (said tried) stream (record { head = head; envelope = envelope.now }) (pile_of before.work)) out.old out.new before.laid result.work result.laid }
    ensures reserved { reserved result.work result.laid ≤ reserved before.work before.laid + 128 }
    ensures told { told_of result.work.answered ≡ told_of before.work.answered + 1 }
{
    let first = offer_once(before.work, stream, head, tried, envelope);
    let decoded = passes(tried.outcome);
    if insisting(first.answer, decoded) {
        let fewer = release_first(before, None, None, true, out);
        let second = offer_once(fewer.work, stream, head, tried, envelope);
        return Moved {
            work: second.work,
            ..fewer
        };
    }
    if yielding(
        first.answer,
        decoded,
        before.work.merger.n,
        first.work.merger.n,
    ) {
        return Moved {
            work: let_go(before.work),
            ..before
        };
    }
    Moved {
        work: first.work,
        ..before
    }
}

// Hands a frame in, with the hard decoder's yes or no.
pub fn offer(
    before: Moved,
    table: &[u8],
    stream: usize,
    head: Head,
    envelope: &[u8],
    out: &mut [u8],
) -> Moved
    requires fact_1 { ValidWork before.work }
    requires fact_2 { told_of before.work.answered + 1 < most_told }
    requires fact_3 { length envelope.now ≡ 48 }
    requires fact_4 { Storable head }
    requires fact_5 { reserved before.work before.laid ≤ length out.old }
    ensures valid { ValidWork result.work }
    ensures moved { MovedBy (offered (tried_of table.now) stream (record { head = head; envelope = envelope.now }) (pile_of before.work)) out.old out.new before.laid result.work result.laid }
    ensures reserved { reserved result.work result.laid ≤ reserved before.work before.laid + 128 }
    ensures told { told_of result.work.answered ≡ told_of before.work.answered + 1 }
{
    let tried = try_frame(table, envelope);
    offer_tried(before, stream, head, tried, envelope, out)
}

// Hands in the frames of one push, of which there are at most three; frame k's envelope is at room byte 432·k.
pub fn offer_all(
    before: Moved,
    table: &[u8],
    stream: usize,
    heads: &[Head],
    room: &[u8],
    out: &mut [u8],
) -> Moved
    requires fact_1 { ValidWork before.work }
    requires fact_2 { told_of before.work.answered + 3 < most_told }
    requires fact_3 { (length heads.now ≤ 3) × ((k : ℕ) → k < length heads.now → Storable (get_or heads.now k no_head)) }
    requires fact_4 { length room.now ≡ room_size }
    requires fact_5 { reserved before.work before.laid + 128 * length heads.now ≤ length out.old }
    ensures valid { ValidWork result.work }
    ensures moved { MovedBy (offered_all (tried_of table.now) stream (slots heads.now room.now 0) (pile_of before.work)) out.old out.new before.laid result.work result.laid }
    ensures reserved { reserved result.work result.laid ≤ reserved before.work before.laid + 128 * length heads.now }
    ensures told { told_of result.work.answered ≡ told_of before.work.answered + length heads.now }
{
    let mut moved = before;
    for (k, head) in heads.iter().enumerate() {
        let from = SLOT_SIZE * k;
        moved = offer(moved, table, stream, *head, &room[from..from + 48], out);
    }
    moved
}
