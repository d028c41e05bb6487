// Tries the hard stages in their order. What is read from the word (the inverse filter's input, whether its mode is valid) is read once and lent; one path
// search serves (c) and (d).

#![tactic(auto)]

ghost use Rattle.std.specs.Prelude.{◌≡◌, [], ◌∷◌, drop};
ghost use Rattle.std.specs.Option.{option_or};
ghost use Rattle.protected_rules.specs.Convolution.{inverted};
ghost use Rattle.protected_rules.specs.Word.{coded};
ghost use Rattle.tail_rules.specs.Repair.{repair_of};
ghost use Rattle.voice_rules.specs.Candidate.{valid_mode};
ghost use Rattle.voice_rules.specs.Hard.{decoded_word};
ghost use Rattle.voice_rules.specs.Trial.{passing};
ghost use Rattle.voice_speech.specs.Heard.{told, said_b, said_c, said_d};

use protected_rules::BitArray;
use tail_repair::repair_by;
use voice_check::mode_valid;
use voice_rules::{MOST_MODE_BITS, Speech, Stage};
use voice_speech::Received;
use voice_trials::{both_flags, plain, repaired};
use voice_words::{mode_apart, tail_bytes, with_last};

// Tries (b): repairs the tail without erasures, and checks the word with the tail that this gives.
fn stage_b(received: &Received) -> Option<Speech>
    ensures { result ≡ said_b received.now.table.entries received.now.word (repair_of [] (drop 28 received.now.word)) }
{
    let given = repair_by(&received.tables, tail_bytes(&received.word), &[]).ok()?;
    repaired(received, true, &with_last(received.word, given.tail))
}

// Tries (d) where the mode is not valid: gives nothing where that is too far off, else tries joint with the inverse, then with the path search.
fn joint_first(received: &Received, inverse: &BitArray<94>) -> Option<Speech>
    requires { inverse.now.bits ≡ inverted received.now.table.entries (coded received.now.word) }
    ensures { result ≡ said_d received.now.table.entries received.now.word }
{
    if mode_apart(&received.word, received.word[33] % 2) > MOST_MODE_BITS {
        return None;
    }
    both_flags(received, inverse).or_else(|| {
        let found = voice_path::search(&received.table, &received.bits);
        both_flags(received, &found)
    })
}

// Tries (c) and (d): where the mode is valid the search comes first, else only after joint with the inverse; it is done once.
fn searching(received: &Received, inverse: &BitArray<94>, valid: bool) -> Option<Speech>
    requires input { inverse.now.bits ≡ inverted received.now.table.entries (coded received.now.word) }
    requires mode { valid ≡ passing (valid_mode received.now.word ∷ []) }
    ensures { result ≡ option_or (said_c received.now.table.entries received.now.word) (said_d received.now.table.entries received.now.word) }
{
    if !valid {
        return joint_first(received, inverse);
    }
    let found = voice_path::search(&received.table, &received.bits);
    plain(received, &found, true, Stage::StageC)
        .or_else(|| both_flags(received, inverse))
        .or_else(|| both_flags(received, &found))
}

// Decodes a word: the stages in their order, and the first that accepts.
pub fn hard(received: &Received) -> Option<Speech>
    ensures { result ≡ told (decoded_word received.now.table.entries received.now.word) }
{
    let inverse = protected::inverse_input(&received.table, &received.bits);
    let valid = mode_valid(&received.word);
    plain(received, &inverse, valid, Stage::StageA)
        .or_else(|| stage_b(received))
        .or_else(|| searching(received, &inverse, valid))
}
