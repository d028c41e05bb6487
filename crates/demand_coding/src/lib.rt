// Demand 1 as the contract of the calls themselves: each function makes one public call of `coding` or `tail` with what it is given and hands on its
// answer, so what it promises is what that call answers and leaves in lent memory. The contracts are in crates/demands/specs/Demand1.antt.

#![tactic(auto)]

ghost use Rattle.std.specs.Prelude.{[]};
ghost use Rattle.demands.specs.Demand1.{ScramblingRefuses, TailRefuses, WordRefuses, MakingRefuses};

use bits::Refusal;

// Tests 5, the sizes of envelope and word; a refused call leaves the word as it was.
fn descramble(envelope: &[u8], word: &mut [u8]) -> Result<(), Refusal>
    ensures { ScramblingRefuses envelope.now word.old result word.old word.new }
{
    coding::descramble(envelope, word)
}

// Tests 5, the sizes of envelope and word; a refused call leaves the envelope as it was.
fn scramble(word: &[u8], envelope: &mut [u8]) -> Result<(), Refusal>
    ensures { ScramblingRefuses envelope.old word.now result envelope.old envelope.new }
{
    coding::scramble(word, envelope)
}

// Tests 5, the tail's size, then 11, the erased places, then 10, whether there is a repair; a refused call leaves the tail as it was.
fn repair_erasures(tail: &mut [u8], places: &[u8]) -> Result<usize, Refusal>
    ensures { TailRefuses tail.old places.now result tail.new }
{
    tail::repair_erasures(tail, places)
}

// Tests 5 and then 10, with no place erased; a refused call leaves the tail as it was.
fn repair(tail: &mut [u8]) -> Result<usize, Refusal>
    ensures { TailRefuses tail.old [] result tail.new }
{
    tail::repair(tail)
}

// Tests 5, the word's size, then 11 and 10 of its tail; a refused call leaves the word as it was.
fn repair_word_erasures(word: &mut [u8], places: &[u8]) -> Result<usize, Refusal>
    ensures { WordRefuses word.old places.now result word.new }
{
    tail::repair_word_erasures(word, places)
}

// Tests 5 and then 10 of the word's tail, with no place erased; a refused call leaves the word as it was.
fn repair_word(word: &mut [u8]) -> Result<usize, Refusal>
    ensures { WordRefuses word.old [] result word.new }
{
    tail::repair_word(word)
}

// Tests 5, the word's size; a refused call leaves the word as it was.
fn encode_word(word: &mut [u8]) -> Result<(), Refusal>
    ensures { MakingRefuses word.old result word.new }
{
    tail::encode_word(word)
}
