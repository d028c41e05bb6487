// States the merger's rules on lists of positions, and what holds of them (frame.rs `Merger`; document 01, "Synchroniser and merger"). The crate
// `merger` has the code that follows them.
//
// Read specs/Merging.antt for what the answers are, specs/Source.antt for the source's own loop, specs/Statements.antt for what is proved of them:
// each theorem is the `ensures` of an empty function, so that it cannot vanish. Nothing runs here.

#![tactic(auto)]

ghost use Rattle.merger_rules.specs.Statements.{Reached, Rises, Snapping, OnlyReady, Fates, GivenBack, FromKept, AsTheSource, OffGrid, NeverFull};

use bits::Refusal;
use sync_rules::Head;

// Keeps what the merger needs of a frame.
#[derive(Clone, Copy)]
pub struct Held {
    pub figures: Head,
    pub number: u64,
    pub check: bool,
}

// Holds the frames of the two streams that cover one transmission, each within 191 bits of the key.
#[derive(Clone, Copy)]
pub struct Position {
    pub key: u64,
    pub primary: Option<Held>,
    pub alternate: Option<Held>,
}

// Says what became of a frame that was not refused. A push refuses by 7 (stream), 8 (offset) and 9 (positions).
#[derive(Clone, Copy, Debug, PartialEq, Eq)]
pub enum Keeping {
    Kept,
    Double,
    Late,
}

// Says of a frame handed on its figures with the offset on the grid, its number, and a yes where it is the alternate's.
#[derive(Clone, Copy)]
pub struct Release {
    pub figures: Head,
    pub number: u64,
    pub alternate: bool,
}

// Says what a release answers of the first position.
#[derive(Clone, Copy)]
pub enum Released {
    Frame(Release),
    PassedOver,
    NothingReady,
}

// Names the numbers that are free again: those of the position that was released or passed over, of both streams.
// kept: `IsSlot` of its numbers is a clause and no ghost field, by what may not change: `freed` gives, and `how_many` counts, whatever numbers a caller chose.
#[derive(Clone, Copy)]
pub struct Freed {
    pub primary: Option<u64>,
    pub alternate: Option<u64>,
}

// Holds the frame that is chosen of a position, and a yes where it is the alternate's.
#[derive(Clone, Copy)]
pub struct Chosen {
    pub frame: Held,
    pub alternate: bool,
}

// Every state that a start and further calls have reached is sound.
pub fn reached()
    ensures { Reached }
{}

// Released offsets rise by a whole frame or more; none comes twice.
pub fn rises()
    ensures { Rises }
{}

// Snapping moves an offset back by at most 191 bits and on by at most 383, and not at all from sixteen frames after the last release on.
pub fn snapping()
    ensures { Snapping }
{}

// A position is taken out only when each stream has delivered it or moved past it, or at a flush.
pub fn only_ready()
    ensures { OnlyReady }
{}

// A position that is taken out is released, or passed over where its frame lies at the last release or before it.
pub fn fates()
    ensures { Fates }
{}

// Each kept number is given back exactly once or pending; no frame is released twice.
pub fn given_back()
    ensures { GivenBack }
{}

// What is released was pushed and kept, its figures and number its own, only its offset snapped.
pub fn from_kept()
    ensures { FromKept }
{}

// The source's whole release is the one-position call, repeated.
pub fn as_the_source()
    ensures { AsTheSource }
{}

// A stream off the grid of the last release loses no frame but the one behind a frame exactly half a frame off it.
pub fn off_grid()
    ensures { OffGrid }
{}

// Refusal 9 does not come to a caller that releases all that is ready.
pub fn never_full()
    ensures { NeverFull }
{}
