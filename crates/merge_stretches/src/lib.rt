// Tells how many dibits of two streams of the same time can go in at once so that nothing is otherwise than dibit by dibit, and how far a stream that
// was fed is settled.

#![tactic(auto)]

ghost use Rattle.std.specs.Prelude.{◌≡◌, List, ℕ, ◌≤◌};
ghost use Rattle.sync_numbers.specs.View.{view_of};
ghost use Rattle.merge_stretches.specs.Stretches.{calm, stretch_of, settled_by};
ghost use Rattle.merge_stretches.specs.Statements.{calm_rule, stretch_rule};

use sync_pushes::quiet_of;
use sync_rules::MOST_DIBITS;
use sync_steps::{Into, Numbers};

// Tells how many dibits can follow of which none searches, sends or is refused, whatever stands in the rings.
fn calm_of(k: Numbers) -> usize
    ensures { (bits reliabilities : List ℕ) → result ≡ calm (view_of bits reliabilities k) }
{
    quiet_of(k).min(MOST_DIBITS.saturating_sub(k.figures.taken) as usize)
}

// Tells how many dibits of each of two streams are fed at once, of which the first has `one` left and the second `two`.
pub fn stretch(k: Numbers, l: Numbers, one: usize, two: usize) -> usize
    ensures value { (bits reliabilities others their : List ℕ) → result ≡ stretch_of (view_of bits reliabilities k) (view_of others their l) one two }
    ensures some { 1 ≤ result }
{
    calm_of(k).min(calm_of(l)).min(one.min(two)).max(1)
}

// Tells how far a stream is settled after a feed: a recording that had no dibit, or whose push was refused, has ended.
#[tactic(auto, unfolding(crate::specs::Stretches::settled_by))]
pub fn settled_after(d: Into) -> Option<u64>
    ensures { result ≡ settled_by d.took d.answer d.drained.numbers.figures.clock }
{
    if d.took == 0 {
        return None;
    }
    d.answer.ok().map(|()| d.drained.numbers.figures.clock)
}

// A dibit of a calm stretch is taken and sends nothing, the settled offset stays, and the rest of the stretch is as calm.
pub fn calm_rule()
    ensures { calm_rule }
{}

// What is fed at once is one dibit, or calm for both streams and there in both.
pub fn stretch_rule()
    ensures { stretch_rule }
{}
