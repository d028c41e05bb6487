// Puts the rules of specs/Record.antt as methods of the types: the byte of an outcome, and what an entry has to keep.
ghost use Rattle.std.specs.Prelude.{◌≡◌};
ghost use Rattle.journal_rules.specs.Record.{allowed, fair, may_correct, outcome_number, size_fits, span};
ghost use Rattle.journal_rules.specs.Reading.{outcome_named};

use crate::{Body, Entry, Outcome};
use bits::{FRAME_BITS, MOST_OFFSET, Refusal};

// Gives the byte by which a record names an outcome.
impl From<Outcome> for u8 {
    ghost from_gives = { λ outcome number. number ≡ outcome_number outcome };

    fn from(outcome: Outcome) -> u8 {
        outcome as u8
    }
}

// Gives the outcome that a record's byte names, or refuses a byte that names none (12).
impl TryFrom<u8> for Outcome {
    type Error = Refusal;

    ghost try_from_gives = { λ byte outcome. outcome ≡ outcome_named byte };

    fn try_from(byte: u8) -> Result<Outcome, Refusal> {
        match byte {
            0 => Ok(Outcome::Untried),
            1 => Ok(Outcome::Accepted),
            2 => Ok(Outcome::Refused),
            _ => Err(Refusal::Record),
        }
    }
}

impl Outcome {
    // Tells whether n corrected bits go with the outcome: up to 32 with an accepted one, none with any other.
    pub fn may_correct(self, n: u8) -> bool
        ensures { result ≡ may_correct self n }
    {
        match self {
            Outcome::Accepted => n <= 32,
            Outcome::Untried | Outcome::Refused => n == 0,
        }
    }
}

impl Body {
    // Tells whether an envelope of that length goes with the body: 48 bytes with a frame, and any with a gap, which has none.
    pub fn size_fits(self, length: usize) -> bool
        ensures { result ≡ size_fits self «length» }
    {
        match self {
            Body::Frame(_) => length == 48,
            Body::Gap(_) => true,
        }
    }

    // Tells whether a frame's figures or a gap's length lie in their ranges.
    fn is_fair(self) -> bool
        ensures { result ≡ fair self }
    {
        match self {
            Body::Frame(f) => f.errors <= 48 && f.outcome.may_correct(f.corrected),
            Body::Gap(n) => 1 <= n,
        }
    }

    // Gives how many bits of the clock the body covers.
    fn span(self) -> u64
        ensures { result ≡ span self }
    {
        match self {
            Body::Frame(_) => FRAME_BITS,
            Body::Gap(n) => n,
        }
    }
}

impl Entry {
    // Tells whether the entry keeps the rules, so that it may be written: its body is fair, and its end lies at or below 2^42.
    pub fn is_allowed(self) -> bool
        ensures { result ≡ allowed self }
    {
        self.body.is_fair() && self.offset.saturating_add(self.body.span()) <= MOST_OFFSET
    }
}
