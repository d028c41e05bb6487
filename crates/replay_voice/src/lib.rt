// What a case of docs/REPLAY.md answers, of the kinds 8 to 11: a table, encoding, hard and soft decoding. kinds.rt answers a case of 1 to 11 by its kind.

#![tactic(auto)]

ghost use Rattle.std.specs.Prelude.{replicate};
ghost use Rattle.replay_bytes.specs.Bytes.{Put};
ghost use Rattle.replay_bytes.specs.Answers.{Told, written};
ghost use Rattle.replay_voice.specs.Cases.{table_case, encode_case, decode_case, soft_case, spoken};
ghost use Rattle.voice_rules.specs.Calls.{encode_answer, encode_leaves};

use bits::Refusal;
pub use kinds::{Answered, coding_case};
use replay_bytes::{put, put_all, put_number, put_written};
use voice_rules::Speech;

mod kinds;

// Answers kind 8: whether a table is admitted.
pub fn table(bytes: &[u8], out: &mut [u8]) -> Option<usize>
    ensures { Told (table_case bytes.now) out.old out.new result }
{
    let status = if protected::admitted(bytes) {
        0
    } else {
        u8::from(Refusal::Table)
    };
    Some(put(out, 0, status))
}

// Puts the answer of an encoding.
fn put_encoded(table: &[u8], payload: &[u8], flag: bool, out: &mut [u8]) -> usize
    ensures { Put out.old 0 (written (encode_answer table.now payload.now (replicate 48 0)) (encode_leaves table.now payload.now flag (replicate 48 0))) out.new result }
{
    let mut envelope = [0u8; 48];
    let writing = voice_frame::encode(table, payload, flag, &mut envelope);
    put_written(out, writing, &envelope)
}

// Answers kind 9: a flag and a payload are encoded.
pub fn encoded(table: &[u8], input: &[u8], out: &mut [u8]) -> Option<usize>
    ensures { Told (encode_case table.now input.now) out.old out.new result }
{
    let (&flag, payload) = input.split_first()?;
    Some(put_encoded(table, payload, flag == 1, out))
}

// Puts what a decoder answers: 0, the bits corrected and the payload, or the refusal's number.
fn put_decoded(out: &mut [u8], decoded: Result<Speech, Refusal>) -> usize
    ensures { Put out.old 0 (spoken decoded) out.new result }
{
    match decoded {
        Ok(speech) => {
            let a = put(&mut *out, 0, 0);
            let b = put_number(&mut *out, a, u64::from(speech.corrected), 1);
            put_all(out, b, &speech.payload)
        }
        Err(refusal) => put(out, 0, u8::from(refusal)),
    }
}

// Answers kind 10: an envelope is decoded.
pub fn decoded(table: &[u8], envelope: &[u8], out: &mut [u8]) -> Option<usize>
    ensures { Told (decode_case table.now envelope.now) out.old out.new result }
{
    Some(put_decoded(out, voice_frame::decode(table, envelope)))
}

// Answers kind 11, soft decoding: the envelope's length, the envelope, and the reliabilities.
pub fn softly_decoded(table: &[u8], input: &[u8], out: &mut [u8]) -> Option<usize>
    ensures { Told (soft_case table.now input.now) out.old out.new result }
{
    let (&length, rest) = input.split_first()?;
    let (envelope, reliabilities) = rest.split_at_checked(usize::from(length))?;
    let decoded = voice_soft::decode_soft(table, envelope, reliabilities);
    Some(put_decoded(out, decoded))
}
