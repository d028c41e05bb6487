// The synchroniser's rules on lists of bits, and what holds of them: demand 3 and document 01's statements. The crate `sync` has the code that follows them.

#![tactic(auto)]

ghost use Rattle.std.specs.Prelude.{◌≡◌};
ghost use Rattle.sync_rules.specs.Moves.{no_moves};
ghost use Rattle.sync_rules.specs.Frames.{no_head};
ghost use Rattle.sync_rules.specs.Demand.{demand3};
ghost use Rattle.sync_rules.specs.Account.{account_rule};
ghost use Rattle.sync_rules.specs.Reliabilities.{reliability_rule};
ghost use Rattle.sync_rules.specs.Statements.{rules, settled_rule, gap_rule, end_rule, quiet_rule};
ghost use Rattle.sync_rules.specs.Slips.{move_rule};

mod sizes;

pub use sizes::{
    IN_PLACE_BITS, MOST_DIBITS, MOST_HELD, OUT_OF_PLACE_BITS, ROOM_SIZE, SEARCH_BITS, SLOT_SIZE,
};

// How a frame slipped, in bits: how far its front was moved to follow a slip (-2, 0 or 2), and how far its second and third segment lie off their places
// behind it (-2, 0 or 2; -4 to 4, the second's shift included). All zero for a frame in place.
#[derive(Clone, Copy, Default)]
pub struct Moves {
    pub front: i8,
    pub second: i8,
    pub third: i8,
}

// What a synchroniser says of a frame: the offset of its first bit, how many of its 48 marker bits are wrong, whether two of its markers match, and its moves.
// In this order a head is 16 bytes; with the yes before the errors it is 24, and every push and feed pays for it.
#[derive(Clone, Copy, Default)]
pub struct Head {
    pub offset: u64,
    pub errors: u32,
    pub matched: bool,
    pub moves: Moves,
}

// What a synchroniser has counted, and whether it holds a lock: all of its state but the bits that it holds.
#[derive(Clone, Copy, Default)]
pub struct StreamFigures {
    pub taken: u64, // dibits taken
    pub clock: u64, // bits passed in searches, and 384 for each frame
    pub later: u64, // slips followed to a symbol later: two bits passed over for each
    pub earlier: u64, // slips followed to a symbol earlier: two bits taken back for each
    pub frames: u64, // frames sent
    pub synchronised: u64, // those of them that showed two markers
    pub failures: u8, // frames in a row that did not
    pub locked: bool, // a lock is held
    pub soft: bool, // a soft push has been made
}

// Gives no moves.
pub fn no_moves() -> Moves
    ensures { result ≡ no_moves }
{
    Moves::default()
}

// Gives the head of no frame: zeros.
pub fn no_head() -> Head
    ensures { result ≡ no_head }
{
    Head::default()
}

// States demand 3, over any list of pushes from a start.
pub fn demand_three()
    ensures { demand3 }
{}

// States what document 01 says of every state that pushes reach.
pub fn synchroniser_rules()
    ensures { rules }
{}

// No further frame goes out below the settled offset.
pub fn settled_rule()
    ensures { settled_rule }
{}

// Between two frames lie the bits that searches passed.
pub fn gap_rule()
    ensures { gap_rule }
{}

// Every bit before the first pending one was passed in a search, is in a frame, or was skipped by a followed slip.
pub fn account_rule()
    ensures { account_rule }
{}

// A frame has reliabilities once a soft push has been made and none before, and hard bits count 255.
pub fn reliability_rule()
    ensures { reliability_rule }
{}

// The end of the stream and the net slip are the bits pushed.
pub fn end_rule()
    ensures { end_rule }
{}

// Pushes that are no more than `quiet` says neither search nor send.
pub fn quiet_rule()
    ensures { quiet_rule }
{}

// The net slip is the sum of the front moves and third shifts of the frames sent, and each move lies in its range.
pub fn move_rule()
    ensures { move_rule }
{}
