// The tail of a word: fourteen bytes, eight of them free, with the roots 2^0 to 2^5, and its repair, with or without erased places.
// The definitions, and what they mean, are in crate `tail_rules` (specs/Repair.antt, Calls.antt, RepairStatements.antt). Here a call tests what it is lent;
// the crate `tail_lent` repairs a lent tail, `tail_repair` one by value, and `tail_making` makes a tail: its call is named here too.

#![tactic(auto)]

ghost use Rattle.std.specs.Prelude.{◌≡◌, []};
ghost use Rattle.tail_rules.specs.Calls.{tail_answer, tail_leaves, word_answer, word_leaves};

use bits::Refusal;
use tail_lent::{may_erase, repair_lent};
pub use tail_making::encode_word;

// Repairs a lent tail with places erased and gives how many bytes it changed; it refuses by 5, 11 and 10, in this order, and then writes nothing.
pub fn repair_erasures(tail: &mut [u8], places: &[u8]) -> Result<usize, Refusal>
    ensures value { result ≡ tail_answer places.now tail.old }
    ensures leaves { tail.new ≡ tail_leaves places.now tail.old }
{
    if tail.len() != 14 {
        return Err(Refusal::Size);
    }
    if !may_erase(places) {
        return Err(Refusal::Erasure);
    }
    repair_lent(tail, places)
}

// Repairs a lent tail with no place erased.
pub fn repair(tail: &mut [u8]) -> Result<usize, Refusal>
    ensures value { result ≡ tail_answer [] tail.old }
    ensures leaves { tail.new ≡ tail_leaves [] tail.old }
{
    repair_erasures(tail, &[])
}

// Repairs a lent word with places of its tail erased: only its last fourteen bytes are lent on.
pub fn repair_word_erasures(word: &mut [u8], places: &[u8]) -> Result<usize, Refusal>
    ensures value { result ≡ word_answer places.now word.old }
    ensures leaves { word.new ≡ word_leaves places.now word.old }
{
    if word.len() != 42 {
        return Err(Refusal::Size);
    }
    repair_erasures(&mut word[28..], places)
}

// Repairs a lent word with no place of its tail erased.
pub fn repair_word(word: &mut [u8]) -> Result<usize, Refusal>
    ensures value { result ≡ word_answer [] word.old }
    ensures leaves { word.new ≡ word_leaves [] word.old }
{
    repair_word_erasures(word, &[])
}
