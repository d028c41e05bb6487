// What a case of docs/REPLAY.md answers, of the kinds 5 to 7: tails made and repaired.
// The case's bytes are copied, since the calls write into what is lent.

#![tactic(auto)]

ghost use Rattle.std.specs.Prelude.{◌≡◌, [], unwrap_or, option_copied};
ghost use Rattle.replay_bytes.specs.Bytes.{Put};
ghost use Rattle.replay_tails.specs.Tails.{made_bytes, made_case, repairing, repair_leaves, repair_bytes, repaired_bytes, repaired_case, repair_case, status_of};
ghost use Rattle.replay_bytes.specs.Answers.{Told};

use bits::Refusal;
use replay_bytes::{put, put_all, put_number};

// Tells a status: 0, or the refusal's number.
fn status(writing: Result<(), Refusal>) -> u8
    ensures { result ≡ status_of writing }
{
    match writing {
        Ok(()) => 0,
        Err(refusal) => u8::from(refusal),
    }
}

// Puts the status, and what the call leaves in the word.
fn made_in(word: &mut [u8], out: &mut [u8]) -> usize
    ensures { Put out.old 0 (made_bytes word.old) out.new result }
{
    let writing = tail::encode_word(&mut *word);
    let next = put(&mut *out, 0, status(writing));
    put_all(out, next, &*word)
}

// Answers kind 5: a word gets its tail.
pub fn made(word: &[u8], out: &mut [u8]) -> Option<usize>
    ensures { Told (made_case word.now) out.old out.new result }
{
    let mut memory = [0u8; 64];
    let lent = memory.get_mut(..word.len())?;
    lent.copy_from_slice(word);
    Some(made_in(lent, out))
}

// Puts the status and the count of a repair.
fn put_repairing(out: &mut [u8], answer: Result<usize, Refusal>) -> usize
    ensures { Put out.old 0 (repair_bytes answer) out.new result }
{
    match answer {
        Ok(count) => {
            let next = put(&mut *out, 0, 0);
            put_number(out, next, count as u64, 1)
        }
        Err(refusal) => {
            let next = put(&mut *out, 0, u8::from(refusal));
            put(out, next, 0)
        }
    }
}

// Repairs a word where `whole` is true, else a tail: with the places that are named, or by the call without erasures.
fn repair_by(whole: bool, places: Option<&[u8]>, lent: &mut [u8]) -> Result<usize, Refusal>
    ensures value { result ≡ repairing whole (unwrap_or (option_copied places.entry) []) lent.old }
    ensures leaves { lent.new ≡ repair_leaves whole (unwrap_or (option_copied places.entry) []) lent.old }
{
    match (whole, places) {
        (true, Some(places)) => tail::repair_word_erasures(lent, places),
        (true, None) => tail::repair_word(lent),
        (false, Some(places)) => tail::repair_erasures(lent, places),
        (false, None) => tail::repair(lent),
    }
}

// Puts the answer of a repair, and what it leaves in the lent bytes.
fn repaired_in(whole: bool, places: Option<&[u8]>, lent: &mut [u8], out: &mut [u8]) -> usize
    ensures { Put out.old 0 (repaired_bytes whole (unwrap_or (option_copied places.entry) []) lent.old) out.new result }
{
    let answer = repair_by(whole, places, &mut *lent);
    let next = put_repairing(&mut *out, answer);
    put_all(out, next, &*lent)
}

// Repairs a copy of the bytes.
fn copy_repaired(whole: bool, places: Option<&[u8]>, bytes: &[u8], out: &mut [u8]) -> Option<usize>
    ensures { Told (repaired_case whole (unwrap_or (option_copied places.entry) []) bytes.now) out.old out.new result }
{
    let mut memory = [0u8; 64];
    let lent = memory.get_mut(..bytes.len())?;
    lent.copy_from_slice(bytes);
    Some(repaired_in(whole, places, lent, out))
}

// Answers kinds 6 and 7, a repair: the number of places, the places, and the bytes to be repaired; 255 stands for the call without erasures.
pub fn repaired(whole: bool, input: &[u8], out: &mut [u8]) -> Option<usize>
    ensures { Told (repair_case whole input.now) out.old out.new result }
{
    let (&k, rest) = input.split_first()?;
    if k == 255 {
        return copy_repaired(whole, None, rest, out);
    }
    let (places, bytes) = rest.split_at_checked(usize::from(k))?;
    copy_repaired(whole, Some(places), bytes, out)
}
