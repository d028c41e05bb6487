// What goes into the merger with a frame, and what its answer means for the counts and for the shelf.

#![tactic(auto)]

ghost use Rattle.std.specs.Prelude.{◌≡◌, ◌+◌, ◌<◌, length};
ghost use Rattle.merging_rules.specs.Accounts.{most_told, told_of, counted};
ghost use Rattle.merging_rules.specs.Piles.{laid_on, insists, yields};
ghost use Rattle.merging_shelf.specs.Slots.{shelf_slots};
ghost use Rattle.recorder_rules.specs.Makings.{is_accepted};

use bits::Refusal;
use journal_rules::{Outcome, Tried};
use merger_rules::Keeping;
use merging_rules::Answered;
use merging_shelf::{Shelf, with_frame};

// Gives the yes or no that the merger is handed with a frame: a yes where the decoder accepted it.
pub fn passes(outcome: Outcome) -> bool
    ensures { result ≡ is_accepted outcome }
{
    outcome == Outcome::Accepted
}

// Counts the merger's answer to a frame.
pub fn told(answered: Answered, answer: Result<Keeping, Refusal>) -> Answered
    requires { told_of answered + 1 < most_told }
    ensures { result ≡ counted answer answered }
{
    match answer {
        Ok(Keeping::Kept) => Answered {
            kept: answered.kept + 1,
            ..answered
        },
        Ok(Keeping::Double) => Answered {
            double: answered.double + 1,
            ..answered
        },
        Ok(Keeping::Late) => Answered {
            late: answered.late + 1,
            ..answered
        },
        Err(_) => Answered {
            refused: answered.refused + 1,
            ..answered
        },
    }
}

// Lays a frame that was kept into its slot; after any other answer the shelf stays as it is.
pub fn laid_on(
    shelf: Shelf,
    answer: Result<Keeping, Refusal>,
    slot: usize,
    tried: Tried,
    envelope: &[u8],
) -> Shelf
    requires fact_1 { slot < shelf_slots }
    requires fact_2 { length envelope.now ≡ 48 }
    ensures { result ≡ laid_on answer slot tried envelope.now shelf }
{
    if answer == Ok(Keeping::Kept) {
        with_frame(shelf, slot, tried, envelope)
    } else {
        shelf
    }
}

// Tells whether a frame is handed in once more: one that decodes and was refused.
pub fn insisting(answer: Result<Keeping, Refusal>, decoded: bool) -> bool
    ensures { result ≡ insists decoded answer }
{
    answer.is_err() && decoded
}

// Tells whether a frame gives way: one that does not decode and was refused, or given the last of the 16 positions; `before` and `after` its push so many waited.
pub fn yielding(
    answer: Result<Keeping, Refusal>,
    decoded: bool,
    before: usize,
    after: usize,
) -> bool
    ensures { result ≡ yields decoded answer before after }
{
    !decoded
        && answer.map_or(
            true,
            |keeping| keeping == Keeping::Kept && 15 < after && before < after,
        )
}
