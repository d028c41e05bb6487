// What every attempt is lent, made of a table and an envelope, or refused.
ghost use Rattle.std.specs.Prelude.{◌≡◌, length};
ghost use Rattle.coding_rules.specs.Scramble.{descrambled};
ghost use Rattle.protected_rules.specs.Word.{coded};

use bits::Refusal;
use field::Tables;
use protected_rules::{BitArray, Table};

// A received word and its coded bits, with the tables by which it is decoded: the field's and the coordinates'.
#[derive(Drop)]
pub struct Received {
    pub tables: Tables,
    pub table: Table,
    pub word: [u8; 42],
    pub bits: BitArray<176>,
    pub ghost read: { bits.bits ≡ coded word },
}

// Takes the word out of an envelope. It is not refused: both sizes are right.
#[tactic(auto, unfolding(coding_rules::specs::Calls::after_descramble))]
fn word_of(envelope: &[u8]) -> [u8; 42]
    requires { length envelope.now ≡ 48 }
    ensures { result ≡ descrambled envelope.now }
{
    let mut word = [0u8; 42];
    let _ = coding::descramble(envelope, &mut word);
    word
}

impl Received {
    ghost use Rattle.std.specs.Prelude.{◌≡◌, List, ℕ, IfOk};
    ghost use Rattle.voice_rules.specs.Calls.{decoded_by};
    ghost use Rattle.voice_rules.specs.Trial.{Outcome};
    ghost use Rattle.voice_speech.specs.Opened.{answer_by};

    // Opens an envelope, to be decoded with a table: refusal 5 for the size, then 4 for the table.
    #[tactic(auto, using(crate::proofs::Answering::other_size, crate::proofs::Answering::other_table, crate::proofs::Answering::is_answered))]
    pub fn open(table: &[u8], envelope: &[u8]) -> Result<Self, Refusal>
        ensures value { (hear : List ℕ → Outcome) → answer_by hear result ≡ decoded_by table.now envelope.now hear }
        ensures same { IfOk result (λ received. received.table.entries ≡ table.now) }
    {
        if envelope.len() != 48 {
            return Err(Refusal::Size);
        }
        let Some(table) = protected::table_of(table) else {
            return Err(Refusal::Table);
        };
        let word = word_of(envelope);
        let bits = protected::protected(&word);
        Ok(Received {
            tables: Tables::new(),
            table,
            word,
            bits,
        })
    }
}
