// Makes a word's tail, for the crate `tail`, which names the call, and for `voice_words`: six bytes, their CRC-16 and six parity bytes.
// The definitions are in crate `tail_rules`, specs/Encode.antt, what they mean in specs/MakingStatements.antt.

#![tactic(auto)]

ghost use Rattle.std.specs.Prelude.{◌≡◌};
ghost use Rattle.tail_rules.specs.Encode.{encode_answer, encode_leaves};

use bits::Refusal;

mod by_value;
mod lent;

pub use by_value::tail_by;

// Makes the tail of a lent word from its bytes 28 to 33. Refuses (5) a word that is not 42 bytes, and then writes nothing.
pub fn encode_word(word: &mut [u8]) -> Result<(), Refusal>
    ensures value { result ≡ encode_answer word.old }
    ensures leaves { word.new ≡ encode_leaves word.old }
{
    if word.len() != 42 {
        return Err(Refusal::Size);
    }
    lent::make_tail(&mut word[28..]);
    Ok(())
}
