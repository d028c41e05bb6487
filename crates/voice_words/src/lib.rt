// A word of 42 bytes: put together from coded bits, mode and tail, and measured against another word.

#![tactic(auto)]

ghost use Rattle.std.specs.Prelude.{◌≡◌, ◌++◌, take, drop};
ghost use Rattle.bits.specs.Bit.{Bytes};
ghost use Rattle.protected_rules.specs.Word.{with_coded};
ghost use Rattle.voice_rules.specs.Encoded.{with_tail, with_mode};

use field::Tables;
use protected_rules::BitArray;

mod distances;

pub use distances::{bits_apart, bytes_apart, mode_apart, summed};

// Takes out the fourteen bytes of a word's tail.
pub fn tail_bytes(word: &[u8; 42]) -> [u8; 14]
    ensures { (result ≡ drop 28 word.now) × Bytes result }
{
    let mut last = [0u8; 14];
    last.copy_from_slice(&word[28..]);
    last
}

// Gives the word with another tail: its last fourteen bytes replaced.
pub fn with_last(word: [u8; 42], last: [u8; 14]) -> [u8; 42]
    ensures { result ≡ take 28 word ++ last }
{
    let mut made = word;
    made[28..].copy_from_slice(&last);
    made
}

// Makes the tail of a word anew from its bytes 28 to 33.
#[tactic(auto, unfolding(voice_rules::specs::Encoded::with_tail))]
pub fn with_tail(tables: &Tables, word: [u8; 42]) -> [u8; 42]
    ensures { result ≡ with_tail word }
{
    let mut six = [0u8; 6];
    six.copy_from_slice(&word[28..34]);
    with_last(word, tail_making::tail_by(tables, six))
}

// Puts the coded bits into the word, with the mode of this flag and the tail that belongs to them.
#[tactic(auto, unfolding(voice_rules::specs::Encoded::with_mode))]
pub fn together(tables: &Tables, word: &[u8; 42], code: &BitArray<176>, flag: u8) -> [u8; 42]
    ensures { result ≡ with_tail (with_mode flag (with_coded word.now code.now.bits)) }
{
    let mut made = protected::write_protected(word, code);
    made[32] = 0x80;
    made[33] = flag;
    with_tail(tables, made)
}
