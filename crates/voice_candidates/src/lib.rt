// Tries the candidates of soft decoding one after the other: the word, then the word with its tail repaired, with 0, 2, 4 and 6 places erased. What is
// right is in crate `voice_rules`, specs/Soft.antt. Between crates: the call asks for what `voice_soft` has tested and made.
//
// The words stand in a row, the received one first (specs/Row.antt), and a repair that succeeds puts its word behind them: they are the candidates that
// were there before.

#![tactic(auto)]

ghost use Rattle.std.specs.Prelude.{◌≡◌, [], ◌∷◌, ◌≤◌, List, ℕ, length, drop};
ghost use Rattle.std.specs.List.{list_any};
ghost use Rattle.bits.specs.Bit.{Below};
ghost use Rattle.tail_rules.specs.Repair.{repair_of};
ghost use Rattle.voice_rules.specs.Soft.{mended_trials, soft_trials};
ghost use Rattle.voice_rules.specs.Trial.{first_of};
ghost use Rattle.voice_speech.specs.Heard.{said, told};
ghost use Rattle.voice_candidates.specs.Row.{mended_word, is_same_tail, trial_after, answers};

use protected_rules::BitArray;
use tail_repair::repair_by;
use voice_check::{heard, repair_valid};
use voice_rules::{MOST_SOFT_DISTANCE, Speech, Stage};
use voice_speech::Received;
use voice_words::{bytes_apart, tail_bytes, with_last};

// Repairs the word's tail with these places erased: the word with the repaired tail, where there is a repair.
fn mend(received: &Received, places: &[u8]) -> Option<[u8; 42]>
    requires few { length places.now ≤ 6 }
    requires in_tail { Below 14 places.now }
    ensures { result ≡ mended_word received.now.word (repair_of places.now (drop 28 received.now.word)) }
{
    let given = repair_by(&received.tables, tail_bytes(&received.word), places).ok()?;
    Some(with_last(received.word, given.tail))
}

// Says whether a word has the tail of one of those before it.
fn is_copy(candidate: &[u8; 42], before: &[[u8; 42]]) -> bool
    ensures { result ≡ list_any (is_same_tail candidate.now) before.now }
{
    before
        .iter()
        .any(|word| bytes_apart(candidate, word, 28, 14) == 0)
}

// Tries a candidate: checks it where it is no copy of a word before it, and its mode and CRC-16 are valid.
fn try_candidate(
    received: &Received,
    input: &BitArray<94>,
    candidate: &[u8; 42],
    before: &[[u8; 42]],
) -> Option<Speech>
    ensures { result ≡ said (trial_after received.now.table.entries received.now.word input.now.bits candidate.now before.now) }
{
    if !repair_valid(true, is_copy(candidate, before), candidate) {
        return None;
    }
    heard(
        received,
        candidate,
        input,
        MOST_SOFT_DISTANCE,
        0,
        Stage::Soft,
    )
}

// Tries the repairs with 0, 2, 4 and 6 of the places erased, up to the first that is accepted.
fn repairs(received: &Received, input: &BitArray<94>, places: &[u8; 6]) -> Option<Speech>
    requires { Below 14 places.now }
    ensures { result ≡ told (first_of (mended_trials received.now.table.entries received.now.word input.now.bits (received.now.word ∷ [])
        (answers places.now received.now.word))) }
{
    // kept: a rule of the project, no heap: the candidates stand in an array, and n says how many there are.
    let mut words = [received.word; 5];
    let mut n = 1;
    for k in 0..4 {
        let Some(mended) = mend(received, &places[..2 * k]) else {
            continue;
        };
        let heard = try_candidate(received, input, &mended, &words[..n]);
        if heard.is_some() {
            return heard;
        }
        words[n] = mended;
        n += 1;
    }
    None
}

// Tries all candidates with the input that the weighted search finds: the word, as if a repair had given it with nothing before it, then its repairs.
pub fn candidates(received: &Received, reliabilities: &[u8]) -> Option<Speech>
    requires { length reliabilities.now ≡ 384 }
    ensures { result ≡ told (first_of (soft_trials received.now.table.entries received.now.word reliabilities.now)) }
{
    let weights = voice_reliable::weights_of(reliabilities);
    let input = voice_path::search_by(&received.table, &received.bits, &weights);
    try_candidate(received, &input, &received.word, &[]).or_else(|| {
        let places = voice_reliable::least_places(voice_reliable::keys_of(reliabilities));
        repairs(received, &input, &places)
    })
}
