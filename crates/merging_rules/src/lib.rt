// States what two recordings are merged with, what holds of it between calls, and what is counted of the frames. Nothing runs here.
//
// Read specs/Piles.antt for what a frame that is handed in, and a release, does; specs/Turns.antt for two recordings, dibit by dibit; specs/Merged.antt for what is
// proved of them (with specs/Orders.antt for what is handed in, specs/Settling.antt for how long it waits, specs/Tallies.antt for what is counted of the answers);
// specs/Accounts.antt and specs/Statements.antt for what is counted. Each statement is the `ensures` of an empty function, so that it cannot vanish.

#![tactic(auto)]

ghost use Rattle.merging_rules.specs.Merged.{merged_rule};
ghost use Rattle.merging_rules.specs.Statements.{slot_left, push_counted, release_counted, all_counted};

use merger::Merger;
use merging_shelf::Shelf;

// Counts what became of the frames: taken in, late, their place taken, or refused, as those are that give way.
#[derive(Clone, Copy)]
pub struct Answered {
    pub kept: u64,
    pub late: u64,
    pub double: u64,
    pub refused: u64,
}

// Counts those of the frames taken in that wait no longer: in the journal, gave way to the other stream's frame of their position, or passed over.
#[derive(Clone, Copy)]
pub struct Gone {
    pub released: u64,
    pub others: u64,
    pub passed: u64,
}

// Holds what frames are merged with: the merger, the waiting frames of both streams, and the two counts.
// kept: `ValidWork` is a clause and no ghost field, by what may not change: `merge_recorder_steps::stepped` hands on whatever work it is given.
#[derive(Clone, Copy)]
pub struct Work {
    pub merger: Merger,
    pub shelf: Shelf,
    pub answered: Answered,
    pub gone: Gone,
}

// The next frame always finds a free slot.
pub fn slot_left()
    ensures { slot_left }
{}

// A push counts its frame once.
pub fn push_counted()
    ensures { push_counted }
{}

// A release counts each frame that it takes out once.
pub fn release_counted()
    ensures { release_counted }
{}

// When nothing waits, every frame taken in is counted.
pub fn all_counted()
    ensures { all_counted }
{}

// Two whole recordings: all their frames are handed in, in their order, but for those that do not decode and gave way; the merged journal holds those that the
// merger released, each with the envelope of the stream that it names, in its stream's order and none twice; and every frame of both is in the journal or in
// exactly one count.
pub fn merged_rule()
    ensures { merged_rule }
{}
