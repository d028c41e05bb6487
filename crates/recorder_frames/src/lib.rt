// Lays what is asked of a frame into lent memory, behind what is there, and asks the decoder where that is wanted. What is asked is defined in crate
// `recorder_asks`.

#![tactic(auto)]

ghost use Rattle.std.specs.Prelude.{◌≡◌, [], ◌∷◌, ◌+◌, ◌≤◌, ◌<◌, length};
ghost use Rattle.recorder_rules.specs.Steps.{LaidBy, Writable};
ghost use Rattle.recorder_asks.specs.Asks.{making_of, share_of, tried_as};

use frame_outcomes::try_frame;
use journal_rules::{Outcome, Tried};
use recorder_asks::{Asked, is_decoded, is_speech};
use recorder_records::put_frame;
use recorder_rules::Laid;
use recorder_speech::put_speech;
use sync_rules::Head;

// Gives what a record says of an envelope: the hard decoder's answer, or that it was not tried.
fn tried_as(decoded: bool, table: &[u8], envelope: &[u8]) -> Tried
    ensures { result ≡ tried_as decoded table.now envelope.now }
{
    if decoded {
        return try_frame(table, envelope);
    }
    Tried {
        outcome: Outcome::Untried,
        corrected: 0,
    }
}

// Lays what is asked of a frame behind what is there.
pub fn lay_frame(
    asked: Asked,
    before: Laid,
    head: Head,
    envelope: &[u8],
    table: &[u8],
    out: &mut [u8],
) -> Laid
    requires fact_1 { Writable head }
    requires fact_2 { length envelope.now ≡ 48 }
    requires fact_3 { before.size + share_of asked ≤ length out.old }
    requires fact_4 { before.accepted < 3 }
    ensures { LaidBy (making_of asked table.now) out.old out.new before (record { head = head; envelope = envelope.now } ∷ []) result }
{
    if is_speech(asked) {
        let decoded = voice_frame::decode(table, envelope);
        return put_speech(before, head, decoded, out);
    }
    let tried = tried_as(is_decoded(asked), table, envelope);
    put_frame(before, head, tried, envelope, out)
}
