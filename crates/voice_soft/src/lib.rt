// The voice frame's soft decoder: hard decoding first, then the candidates of a weighted search (crate `voice_candidates`). Its answer is defined in the
// crate `voice_rules`.

#![tactic(auto)]

ghost use Rattle.std.specs.Prelude.{◌≡◌};
ghost use Rattle.voice_rules.specs.Calls.{soft_answer};
ghost use Rattle.voice_rules.specs.Soft.{softly_decoded_word};
ghost use Rattle.voice_speech.specs.Heard.{told};

use bits::Refusal;
use voice_rules::Speech;
use voice_speech::Received;

// Decodes a word: hard first, then softly where there are 384 reliabilities; any other number adds nothing.
fn softly(received: &Received, reliabilities: &[u8]) -> Option<Speech>
    ensures { result ≡ told (softly_decoded_word received.now.table.entries received.now.word reliabilities.now) }
{
    let heard = voice_hard::hard(received);
    if reliabilities.len() != 384 {
        return heard;
    }
    heard.or_else(|| voice_candidates::candidates(received, reliabilities))
}

// Decodes an envelope softly: refusal 5 for the size, then 4 for the table, then 6 where no candidate is accepted.
pub fn decode_soft(table: &[u8], envelope: &[u8], reliabilities: &[u8]) -> Result<Speech, Refusal>
    ensures { result ≡ soft_answer table.now envelope.now reliabilities.now }
{
    let received = Received::open(table, envelope)?;
    softly(&received, reliabilities).ok_or(Refusal::NoSpeech)
}
