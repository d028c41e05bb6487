// Reads a record of 64 bytes, as crate `journal_rules` defines what it says (specs/Reading.antt).

#![tactic(auto)]

ghost use Rattle.std.specs.Prelude.{◌≡◌, ◌+◌, ◌≤◌, length, take, drop};
ghost use Rattle.bits.specs.BigEndian.{value_of};
ghost use Rattle.journal_rules.specs.Reading.{all_zero, read_frame, read_gap, read_of};

use bits::Refusal;
use journal_rules::{Body, Entry, Figures, Outcome};

// Reads the number in the eight bytes from `at` on, high byte first.
#[tactic(auto, using(journal_rules::proofs::Numbers::value_be))]
fn number_at(s: &[u8], at: usize) -> u64
    requires { at + 8 ≤ length s.now }
    ensures { result ≡ value_of (take 8 (drop at s.now)) }
{
    let mut bytes = [0; 8];
    bytes.copy_from_slice(&s[at..at + 8]);
    u64::from_be_bytes(bytes)
}

// Tells whether all bytes are zero.
fn all_zero(s: &[u8]) -> bool
    ensures { result ≡ all_zero s.now }
{
    s.iter().all(|b| *b == 0)
}

// Reads the record of a gap, or refuses it (12): a byte that must be zero is not, the length is 0, or the gap's end lies above 2^42.
fn read_gap(record: &[u8]) -> Result<Entry, Refusal>
    requires { length «record».now ≡ 64 }
    ensures { result ≡ read_gap «record».now }
{
    let entry = Entry {
        offset: number_at(record, 0),
        body: Body::Gap(number_at(record, 16)),
    };
    if !all_zero(&record[9..16]) || !all_zero(&record[24..64]) || !entry.is_allowed() {
        return Err(Refusal::Record);
    }
    Ok(entry)
}

// Reads the record of a frame, or refuses it (12): a figure lies out of its range, a byte that must be zero is not, or the frame's end lies above 2^42.
fn read_frame(record: &[u8]) -> Result<Entry, Refusal>
    requires { length «record».now ≡ 64 }
    ensures { result ≡ read_frame «record».now }
{
    let figures = Figures {
        matched: record[9] == 1,
        errors: record[10],
        outcome: Outcome::try_from(record[11])?,
        corrected: record[12],
    };
    let entry = Entry {
        offset: number_at(record, 0),
        body: Body::Frame(figures),
    };
    if record[9] > 1 || !all_zero(&record[13..16]) || !entry.is_allowed() {
        return Err(Refusal::Record);
    }
    Ok(entry)
}

// Gives the entry of a record, or refuses it. A frame's envelope is not copied: it lies in the record, bytes 16 to 63.
pub fn read(record: &[u8]) -> Result<Entry, Refusal>
    ensures { result ≡ read_of 64 «record».now }
{
    if record.len() != 64 {
        return Err(Refusal::Record);
    }
    match record[8] {
        0 => read_frame(record),
        1 => read_gap(record),
        _ => Err(Refusal::Record),
    }
}
