// Makes the attempts of the hard stages: (a) and (c) on the word itself, (b) on the word with its tail repaired, (d) on the word that the input makes.

#![tactic(auto)]

ghost use Rattle.std.specs.Prelude.{◌≡◌, [], ◌∷◌, ◌-◌};
ghost use Rattle.std.specs.Option.{option_or};
ghost use Rattle.voice_path_rules.specs.Path.{searched};
ghost use Rattle.protected_rules.specs.Convolution.{inverted};
ghost use Rattle.protected_rules.specs.Word.{coded};
ghost use Rattle.voice_rules.specs.Candidate.{low_flag, valid_mode};
ghost use Rattle.voice_rules.specs.Hard.{plain_trial, repair_trial, joint_tests, joint_trial};
ghost use Rattle.voice_rules.specs.Trial.{passing};
ghost use Rattle.voice_speech.specs.Heard.{said};

use protected_rules::BitArray;
use voice_check::{heard, repair_valid};
use voice_rules::{
    MOST_DISTANCE, MOST_MODE_BITS, MOST_OUTER_BITS, MOST_OUTER_BYTES, MOST_TOTAL, Speech, Stage,
};
use voice_speech::Received;
use voice_words::{bits_apart, bytes_apart, mode_apart, together};

// Tries (a) or (c): checks the word with an input, where its mode is valid.
#[tactic(auto, using(crate::proofs::Attempts::plain_silent, crate::proofs::Attempts::plain_tried))]
pub fn plain(received: &Received, input: &BitArray<94>, valid: bool, stage: Stage) -> Option<Speech>
    requires { valid ≡ passing (valid_mode received.now.word ∷ []) }
    ensures { result ≡ said (plain_trial stage received.now.table.entries received.now.word input.now.bits) }
{
    if !valid {
        return None;
    }
    heard(received, &received.word, input, MOST_DISTANCE, 0, stage)
}

// kept: `succeeded` beside the word, by what may not change: this call says of a repair that failed, too, what its trials say.
// Tries (b): checks the word with its tail repaired, with what the inverse filter and then with what the path search finds in it, measured from the
// received word.
pub fn repaired(received: &Received, succeeded: bool, mended: &[u8; 42]) -> Option<Speech>
    ensures { result ≡ option_or
        (said (repair_trial received.now.table.entries received.now.word succeeded mended.now (inverted received.now.table.entries (coded mended.now))))
        (said (repair_trial received.now.table.entries received.now.word succeeded mended.now (searched received.now.table.entries (coded mended.now)))) }
{
    let changed = bytes_apart(mended, &received.word, 28, 14);
    if !repair_valid(succeeded, changed == 0, mended) {
        return None;
    }
    let extra = bits_apart(mended, &received.word, 32, 10);
    let bits = protected::protected(mended);
    let input = protected::inverse_input(&received.table, &bits);
    let first = heard(
        received,
        mended,
        &input,
        MOST_DISTANCE,
        extra,
        Stage::StageB,
    );
    first.or_else(|| {
        let found = voice_path::search(&received.table, &bits);
        heard(
            received,
            mended,
            &found,
            MOST_DISTANCE,
            extra,
            Stage::StageB,
        )
    })
}

// ---- (d)

// Says whether the mode and the candidate lie near enough to the received word.
#[tactic(auto, unfolding(voice_rules::specs::Hard::joint_tests))]
fn joint_valid(word: &[u8; 42], candidate: &[u8; 42], flag: u8) -> bool
    ensures { result ≡ passing (joint_tests word.now candidate.now flag) }
{
    mode_apart(word, word[33] % 2) <= MOST_MODE_BITS
        && mode_apart(word, flag) <= MOST_MODE_BITS
        && bits_apart(candidate, word, 28, 14) <= MOST_OUTER_BITS
        && bytes_apart(candidate, word, 28, 14) <= MOST_OUTER_BYTES
}

// Checks the word that the input makes with one flag, and then its corrected bits in all against the limit of joint.
fn joint(received: &Received, input: &BitArray<94>, flag: u8) -> Option<Speech>
    ensures { result ≡ said (joint_trial received.now.table.entries received.now.word input.now.bits flag) }
{
    let code = protected::convolution(&received.table, input);
    let made = together(&received.tables, &received.word, &code, flag);
    if !joint_valid(&received.word, &made, flag) {
        return None;
    }
    let extra = bits_apart(&made, &received.word, 32, 10);
    let speech = heard(received, &made, input, MOST_DISTANCE, extra, Stage::StageD);
    speech.filter(|speech| speech.corrected <= MOST_TOTAL)
}

// Tries the received low bit as the flag, then the other.
pub fn both_flags(received: &Received, input: &BitArray<94>) -> Option<Speech>
    ensures { result ≡ option_or
        (said (joint_trial received.now.table.entries received.now.word input.now.bits (low_flag received.now.word)))
        (said (joint_trial received.now.table.entries received.now.word input.now.bits (1 - low_flag received.now.word))) }
{
    let low = received.word[33] % 2;
    joint(received, input, low).or_else(|| joint(received, input, 1 - low))
}
