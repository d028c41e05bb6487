// The merger of two synchronisers' frames (frame.rs `Merger`; document 01, "Synchroniser and merger"), by value, and the envelope handed on.
// It keeps each frame's figures, the number that the caller chose for it and the yes or no of the caller's check; no envelope.
//
// What the answers are, and what is proved of them, is in the crate merger_rules (specs/Merging.antt, specs/Statements.antt).
// What works on single positions, on the positions in order and on offsets is in the crate merger_steps.

#![tactic(auto)]

ghost use Rattle.std.specs.Prelude.{◌≡◌, cond, []};
ghost use Rattle.merger_rules.specs.Merging.{held_of, view, push_of, release_of};
ghost use Rattle.merger.specs.States.{view_of, ValidMerger, PushGave, ReleaseGave};

use bits::{MOST_OFFSET, Refusal};
pub use merger_rules::{Chosen, Freed, Held, Keeping, Position, Release, Released};
use merger_steps::{choose, freed, late, ready};
use pushing::put;
use releasing::{first_out, give};
use sync_rules::Head;

mod pushing; // pushing.rt: a frame that is neither refused nor late
mod releasing; // releasing.rt: a position that is ready

// The first n positions are pending, in the order of their keys; what stands after them is stale and seen by no answer.
// kept: a rule of the project (no heap, fixed memory): the count stands beside one array of all 16.
// `ValidMerger` stands in the clauses of the calls that need it, by what may not change: `clear` asks for nothing, and would ask for it through the type.
#[derive(Clone, Copy)]
pub struct Merger {
    pub n: usize,
    pub positions: [Position; 16],
    pub last: Option<u64>,
}

// Hands back what a push answers, and the next merger.
#[derive(Clone, Copy)]
pub struct AfterPush {
    pub answer: Result<Keeping, Refusal>,
    pub merger: Merger,
}

// Hands back what a release answers, the numbers that are free again, and the next merger.
#[derive(Clone, Copy)]
pub struct AfterRelease {
    pub answer: Released,
    pub freed: Freed,
    pub merger: Merger,
}

impl Merger {
    // Gives a merger with nothing pending and nothing released.
    pub fn new() -> Merger
        ensures { (view_of result ≡ view [] None) × ValidMerger result }
    {
        let none = Position {
            key: 0,
            primary: None,
            alternate: None,
        };
        Merger {
            n: 0,
            positions: [none; 16],
            last: None,
        }
    }

    // Takes a frame of stream 0 (primary) or 1 (alternate), the number that the caller chose for it and the yes or no of the caller's check.
    // kept: what may not change: refusal 7 of any other stream (`push_of`, demand 1), so the stream is a number.
    pub fn push(self, stream: usize, figures: Head, number: u64, check: bool) -> AfterPush
        requires { ValidMerger self }
        ensures { PushGave self (push_of stream (held_of figures number check) (view_of self)) result }
    {
        if 1 < stream {
            return AfterPush {
                answer: Err(Refusal::Stream),
                merger: self,
            };
        }
        if MOST_OFFSET < figures.offset {
            return AfterPush {
                answer: Err(Refusal::Offset),
                merger: self,
            };
        }
        if late(self.last, figures.offset) {
            return AfterPush {
                answer: Ok(Keeping::Late),
                merger: self,
            };
        }
        let held = Held {
            figures,
            number,
            check,
        };
        put(self, stream, held)
    }

    // Takes out the first position where it is ready, by how far each stream is settled, or at a flush. Called until nothing is ready, it is the
    // source's whole release.
    pub fn release(self, primary: Option<u64>, alternate: Option<u64>, flush: bool) -> AfterRelease
        requires { ValidMerger self }
        ensures { ReleaseGave (release_of primary alternate flush (view_of self)) result }
    {
        let first = self.positions[0];
        if self.n != 0 && ready(first, primary, alternate, flush) {
            return give(first_out(self), choose(first), freed(first));
        }
        AfterRelease {
            answer: Released::NothingReady,
            freed: Freed {
                primary: None,
                alternate: None,
            },
            merger: self,
        }
    }

    // Gives the merger as at the start.
    pub fn clear(self) -> Merger
        ensures { (view_of result ≡ view [] None) × ValidMerger result }
    {
        Merger::new()
    }
}

// Hands on an envelope: the lent primary or, on a yes, the lent alternate, itself and no copy.
pub fn chosen<'a>(primary: &'a [u8], alternate: &'a [u8], other: bool) -> &'a [u8]
    ensures { result ≡ cond other alternate.entry primary.entry }
{
    if other { alternate } else { primary }
}
