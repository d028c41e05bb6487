// What every other crate uses: the numbered refusals, small steps on numbers and bytes, and the sizes that more than one crate speaks of.
// The definitions are in specs/, their laws in proofs/.

#![tactic(auto)]

ghost use Rattle.std.specs.Prelude.{◌≡◌};
ghost use Rattle.bits.specs.Refusals.{number_of};

mod numbers;
mod sizes;

pub use numbers::{byte, parity};
pub use sizes::{FRAME_BITS, MOST_OFFSET};

// The refusals of documents 01 (1 to 12) and 02 (13 to 19), each with its number there.
#[derive(Clone, Copy, Debug, PartialEq, Eq)]
pub enum Refusal {
    Dibit = 1,
    FrameRoom = 2,
    StreamEnd = 3,
    Table = 4,
    Size = 5,
    NoSpeech = 6,
    Stream = 7,
    Offset = 8,
    Positions = 9,
    Tail = 10,
    Erasure = 11,
    Record = 12,
    Moves = 13,
    Cut = 14,
    SoftRecord = 15,
    Reliability = 16,
    Break = 17,
    Outside = 18,
    Index = 19,
}

// Gives the number by which the documents name a refusal.
impl From<Refusal> for u8 {
    ghost from_gives = { λ refusal number. number ≡ number_of refusal };

    fn from(refusal: Refusal) -> u8 {
        refusal as u8
    }
}
