// Says of a frame what the hard decoder answers, as the journal and the programs need it (specs/Outcomes.antt).

#![tactic(auto)]

ghost use Rattle.std.specs.Prelude.{◌≡◌};
ghost use Rattle.frame_outcomes.specs.Outcomes.{tried_of, FairOutcomes};

use journal_rules::{Outcome, Tried};

// Asks the hard decoder about an envelope, and gives what a record says of its answer; every refusal, whatever its number, is the outcome refused.
pub fn try_frame(table: &[u8], envelope: &[u8]) -> Tried
    ensures { result ≡ tried_of table.now envelope.now }
{
    match voice_frame::decode(table, envelope) {
        Ok(speech) => Tried {
            outcome: Outcome::Accepted,
            corrected: speech.corrected as u8,
        },
        Err(_) => Tried {
            outcome: Outcome::Refused,
            corrected: 0,
        },
    }
}

// The journal takes what is said of a frame, whatever the table and the envelope.
pub fn fair_outcomes()
    ensures { FairOutcomes }
{}
