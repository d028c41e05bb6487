// The voice frame's decoding as definitions: the encoder's word, the candidate check, each attempt of each stage as a trial, and what the
// public calls of `voice_frame` and `voice_soft` answer. There is no code here but the types of those answers; the theorems stand at the end.

#![tactic(auto)]

ghost use Rattle.std.specs.Prelude.{◌≡◌};
ghost use Rattle.voice_rules.specs.Calls.{payload_in};
ghost use Rattle.voice_rules.specs.LimitTable.{LimitTable};
ghost use Rattle.voice_rules.specs.Nearest.{NearestTried};
ghost use Rattle.voice_rules.specs.SoftLaws.{SoftLaws};
ghost use Rattle.voice_rules.specs.Statements.{RoundTrip, ExactDistance, Injective, Refusing, OneAnswer};

use bits::Refusal;

mod limits;

pub use limits::{
    MOST_DISTANCE, MOST_MODE_BITS, MOST_OUTER_BITS, MOST_OUTER_BYTES, MOST_SOFT_DISTANCE,
    MOST_TOTAL,
};

// Names the stage that accepts: (a) to (d) are document 01's hard ones.
#[derive(Clone, Copy, PartialEq, Eq, Debug)]
pub enum Stage {
    StageA,
    StageB,
    StageC,
    StageD,
    Soft,
}

// Names what a trial tests, in the order of document 02's list (A2).
#[derive(Clone, Copy, PartialEq, Eq, Debug)]
pub enum Test {
    ModeBits,
    Repair,
    NothingRepaired,
    Crc16,
    EndBits,
    Checksum,
    Distance,
    Tail,
    OuterBits,
    OuterBytes,
    Total,
}

// A speech: the stage that accepted it, the corrected bits and the payload. A decoding answers with it or with a refusal, which has no payload.
#[derive(Clone, Copy, PartialEq, Eq, Debug)]
pub struct Speech {
    pub stage: Stage,
    pub corrected: u32,
    pub payload: [u8; 20],
}

// Gives the payload of a decoding's answer: all zero where that is a refusal.
pub fn payload_in(answer: Result<Speech, Refusal>) -> [u8; 20]
    ensures { result ≡ payload_in answer }
{
    match answer {
        Ok(speech) => speech.payload,
        Err(_) => [0u8; 20],
    }
}

// Demand 2: every encoded payload comes back, with nothing corrected.
pub fn round_trip()
    ensures { RoundTrip }
{}

// Demand 2: what the hard decoder accepts has an encoding at exactly the reported distance.
pub fn exact_distance()
    ensures { ExactDistance }
{}

// Two payloads that differ have encodings that differ.
pub fn injective()
    ensures { Injective }
{}

// Document 02, A9: where a stage searches the path, the nearest bits are tried.
pub fn nearest_tried()
    ensures { NearestTried }
{}

// The places that soft decoding erases are the least reliable ones, in the order of (least reliable bit, place).
pub fn soft_laws()
    ensures { SoftLaws }
{}

// Each attempt of each stage has the tests and the limits of document 01.
pub fn limit_table()
    ensures { LimitTable }
{}

// A refused call gives only the number.
pub fn refusing()
    ensures { Refusing }
{}

// Each call has one answer.
pub fn one_answer()
    ensures { OneAnswer }
{}
