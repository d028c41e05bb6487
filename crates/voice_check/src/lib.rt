// The candidate check, which alone accepts, and the tests of mode, repair and CRC-16 that stand before it.

#![tactic(auto)]

ghost use Rattle.std.specs.Prelude.{◌≡◌, [], ◌∷◌, ◌+◌, ◌≤◌, get_or};
ghost use Rattle.bits.specs.Bit.{sum};
ghost use Rattle.protected_rules.specs.Word.{coded};
ghost use Rattle.voice_rules.specs.Candidate.{valid_mode, valid_crc, repair_tests};
ghost use Rattle.voice_rules.specs.Trial.{passing};
ghost use Rattle.voice_speech.specs.Heard.{speech_of, checked_verdict};

use field::Tables;
use protected_rules::{BitArray, Table};
use voice_rules::{Speech, Stage};
use voice_speech::Received;
use voice_words::{bytes_apart, mode_apart, summed, with_tail};

// ---- tests of a word

// Says whether bytes 32 and 33 are 0x80 and 0 or 1.
pub fn mode_valid(word: &[u8; 42]) -> bool
    ensures { result ≡ passing (valid_mode word.now ∷ []) }
{
    mode_apart(word, word[33] % 2) == 0
}

// Says whether bytes 34 and 35 are the CRC-16 of bytes 28 to 33.
pub fn crc_valid(word: &[u8; 42]) -> bool
    ensures { result ≡ passing (valid_crc word.now ∷ []) }
{
    u16::from_be_bytes([word[34], word[35]]) == coding_crc::crc16(&word[28..34])
}

// kept: `succeeded` as a number of yes or no, by what may not change: this call says of a repair that failed, too, what `repair_tests` says.
// Says whether a repair succeeded, with a word that was not there before, of valid mode and CRC-16.
#[tactic(auto, using(crate::proofs::Measured::not_repaired, crate::proofs::Measured::repaired_passes))]
pub fn repair_valid(succeeded: bool, copy: bool, mended: &[u8; 42]) -> bool
    ensures { result ≡ passing (repair_tests succeeded copy mended.now) }
{
    let repaired = succeeded && !copy;
    repaired && mode_valid(mended) && crc_valid(mended)
}

// ---- the candidate check

// Counts the ones among the last eight input bits.
fn end_bits(input: &BitArray<94>) -> u32
    ensures { result ≡ sum 8 (λ i. get_or input.now.bits (86 + i) 0) }
{
    summed(8, |i| u32::from(input.bits[86 + i]))
}

// Tests a candidate with an input against received coded bits, and gives the speech when all tests pass.
pub fn checked(
    tables: &Tables,
    table: &Table,
    received: &[u8; 176],
    candidate: &[u8; 42],
    input: &BitArray<94>,
    allowed: u32,
    extra: u32,
    stage: Stage,
) -> Option<Speech>
    requires { extra ≤ 336 }
    ensures { result ≡ speech_of stage (checked_verdict table.now.entries received.now candidate.now input.now.bits allowed extra) }
{
    if end_bits(input) > 0 {
        return None;
    }
    if protected::checksum_in(input) != protected::checksum_of(input) {
        return None;
    }
    let code = protected::convolution(table, input);
    let distance = protected::coded_apart(&code.bits, received);
    if distance > allowed {
        return None;
    }
    let filled = protected::write_protected(candidate, &code);
    let remade = with_tail(tables, filled);
    if bytes_apart(&remade, candidate, 34, 8) > 0 {
        return None;
    }
    Some(Speech {
        stage,
        corrected: distance + extra,
        payload: protected::payload_of(candidate, input),
    })
}

// Tests a candidate with an input against the word that is received.
pub fn heard(
    received: &Received,
    candidate: &[u8; 42],
    input: &BitArray<94>,
    allowed: u32,
    extra: u32,
    stage: Stage,
) -> Option<Speech>
    requires { extra ≤ 336 }
    ensures { result ≡ speech_of stage (checked_verdict received.now.table.entries (coded received.now.word) candidate.now input.now.bits allowed extra) }
{
    checked(
        &received.tables,
        &received.table,
        &received.bits.bits,
        candidate,
        input,
        allowed,
        extra,
        stage,
    )
}
