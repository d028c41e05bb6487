// What a case of docs/REPLAY.md answers, of the kinds 1 to 4: CRC-16, scrambling and its inverse, the field.
// The answer's bytes go into lent memory; specs/ defines them by what the libraries promise.

#![tactic(auto)]

ghost use Rattle.replay_bytes.specs.Answers.{Told};
ghost use Rattle.replay_coding.specs.Cases.{crc_case, scramble_case, descramble_case, field_case};

use replay_bytes::{put, put_number, put_written};

// Answers kind 1: the CRC-16 of a message.
pub fn crc(message: &[u8], out: &mut [u8]) -> Option<usize>
    ensures { Told (crc_case message.now) out.old out.new result }
{
    Some(put_number(out, 0, u64::from(coding::crc16(message)), 2))
}

// Answers kind 2: a word, scrambled.
pub fn scrambled(word: &[u8], out: &mut [u8]) -> Option<usize>
    ensures { Told (scramble_case word.now) out.old out.new result }
{
    let mut envelope = [0u8; 48];
    let writing = coding::scramble(word, &mut envelope);
    Some(put_written(out, writing, &envelope))
}

// Answers kind 3: an envelope, descrambled.
// kept: no plainer as one generic function with the above, which differs in the size and the call: a closure for these would need a clause that says what it does.
pub fn descrambled(envelope: &[u8], out: &mut [u8]) -> Option<usize>
    ensures { Told (descramble_case envelope.now) out.old out.new result }
{
    let mut word = [0u8; 42];
    let writing = coding::descramble(envelope, &mut word);
    Some(put_written(out, writing, &word))
}

// Answers kind 4: two bytes in the field.
pub fn field_pair(input: &[u8], out: &mut [u8]) -> Option<usize>
    ensures { Told (field_case input.now) out.old out.new result }
{
    let &[a, b] = input else {
        return None;
    };
    let next = put(&mut *out, 0, field::product(a, b));
    Some(put(out, next, field::quotient(a, b)))
}
