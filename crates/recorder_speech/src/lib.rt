// Lays the lines of frames' speech, and of the gaps before them, into lent memory, one behind the other. What they say is defined in crate
// `recorder_asks`. The decoder's answer is asked for in crate `recorder_frames`, and no file is read or written here.

#![tactic(auto)]

ghost use Rattle.std.specs.Prelude.{◌≡◌, cond, List, [], ◌∷◌, ℕ, ◌+◌, ◌≤◌, ◌<◌, length};
ghost use Rattle.frame_outcomes.specs.Outcomes.{tried_by};
ghost use Rattle.recorder_rules.specs.Makings.{is_accepted};
ghost use Rattle.recorder_rules.specs.Steps.{LaidBy};
ghost use Rattle.texts_rules.specs.Text.{line_of};
ghost use Rattle.voice_rules.specs.Calls.{decode_answer};
ghost use Rattle.recorder_asks.specs.Asks.{decoded_text, speaking};

use bits::Refusal;
use lines::{refused_frame_line, speech_line};
use lines_gaps::gap_before;
use lines_laying::put_line;
use recorder_rules::Laid;
use sync_rules::Head;
use texts_rules::Line;
use voice_rules::Speech;

// Makes the line of a frame by the decoder's answer: its speech, or that it is refused.
fn answer_line(offset: u64, decoded: Result<Speech, Refusal>) -> Line
    ensures { result ≡ line_of (decoded_text offset decoded) }
{
    match decoded {
        Ok(speech) => speech_line(offset, u64::from(speech.corrected), speech.payload),
        Err(refusal) => refused_frame_line(offset, refusal),
    }
}

// Gives 1 for an answer that accepts, and 0 for a refusal.
fn accepted_by(decoded: Result<Speech, Refusal>) -> usize
    ensures { result ≡ cond (is_accepted (tried_by decoded).outcome) 1 0 }
{
    usize::from(decoded.is_ok())
}

// Lays the line of the gap before a frame, where there is one, and that of the frame by the decoder's answer, behind what is there.
pub fn put_speech(
    before: Laid,
    head: Head,
    decoded: Result<Speech, Refusal>,
    out: &mut [u8],
) -> Laid
    requires fact_1 { before.size + 256 ≤ length out.old }
    requires fact_2 { before.accepted < 3 }
    ensures { (table envelope : List ℕ) → decode_answer table envelope ≡ decoded → LaidBy (speaking table) out.old out.new before (record { head = head; envelope = envelope } ∷ []) result }
{
    let gap = gap_before(before.earlier, head.offset);
    let behind = put_line(gap, before.size, &mut *out);
    let line = answer_line(head.offset, decoded);
    let size = put_line(line, behind, out);
    Laid {
        size,
        accepted: before.accepted + accepted_by(decoded),
        earlier: Some(head.offset),
    }
}
