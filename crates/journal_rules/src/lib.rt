// What the journal means: its entries and their records, the rules that these keep, what reading and writing answer and leave, and the gaps between frames.
// The only code here is the types of which the definitions speak, with their conversions and their rules as methods (rules.rt); each theorem is the `ensures`
// of an empty function, so that it cannot vanish.

#![tactic(auto)]

ghost use Rattle.journal_rules.specs.Statements.{OneMeaning, Refusing, Unbroken};

mod rules;

// What became of a frame's envelope at the decoder: it was not tried, was accepted, or was refused.
#[derive(Clone, Copy, Debug, PartialEq, Eq)]
pub enum Outcome {
    Untried,
    Accepted,
    Refused,
}

// What the decoder said of a frame: the outcome, and the corrected bits, zero unless accepted.
#[derive(Clone, Copy, Debug, PartialEq, Eq)]
pub struct Tried {
    pub outcome: Outcome,
    pub corrected: u8,
}

// What a journal says of a frame beside its offset and its envelope.
#[derive(Clone, Copy, Debug, PartialEq, Eq)]
pub struct Figures {
    pub matched: bool,
    pub errors: u8,
    pub outcome: Outcome,
    pub corrected: u8,
}

// What an entry tells of: a frame with its figures, or a gap with its length in bits.
#[derive(Clone, Copy, Debug, PartialEq, Eq)]
pub enum Body {
    Frame(Figures),
    Gap(u64),
}

// What a record means: the offset at which it starts, in bits of the clock, and what lies there. A frame's envelope stays beside it.
#[derive(Clone, Copy, Debug, PartialEq, Eq)]
pub struct Entry {
    pub offset: u64,
    pub body: Body,
}

// One meaning has one record, and one record has one meaning.
pub fn one_meaning()
    ensures { OneMeaning }
{}

// An envelope of a wrong size is refused by 5, what breaks a rule by 12, and nothing is written then.
pub fn refusing()
    ensures { Refusing }
{}

// Frames and the gaps between them follow each other without a break.
pub fn unbroken()
    ensures { Unbroken }
{}
