// Writes an entry's record, 64 bytes, as crate `journal_rules` defines it (specs/Record.antt). The tests stand apart from the writing: `write` tests,
// `fill` writes.

#![tactic(auto)]

ghost use Rattle.std.specs.Prelude.{◌≡◌, true, length};
ghost use Rattle.journal_rules.specs.Record.{Wrote, body_bytes, record_of, size_fits};

use bits::Refusal;
use journal_rules::{Body, Entry};

// Fills a room of 56 bytes with what a record holds behind the offset: the kind with a frame's figures, and a frame's envelope or a gap's length.
#[tactic(auto, using(bits::proofs::Eights::eight_bytes))]
fn fill_body(body: Body, envelope: &[u8], room: &mut [u8])
    requires sized { size_fits body (length envelope.now) ≡ true }
    requires long { length room.old ≡ 56 }
    ensures { room.new ≡ body_bytes body envelope.now }
{
    let (head, behind) = room.split_at_mut(8);
    match body {
        Body::Frame(f) => {
            let matched = u8::from(f.matched);
            let outcome = u8::from(f.outcome);
            head.copy_from_slice(&[0, matched, f.errors, outcome, f.corrected, 0, 0, 0]);
            behind.copy_from_slice(envelope);
        }
        Body::Gap(n) => {
            let (span, rest) = behind.split_at_mut(8);
            head.copy_from_slice(&[1, 0, 0, 0, 0, 0, 0, 0]);
            span.copy_from_slice(&n.to_be_bytes());
            rest.fill(0);
        }
    }
}

// Fills a room of 64 bytes with the record of an entry.
#[tactic(auto, using(bits::proofs::Eights::eight_bytes))]
fn fill(entry: Entry, envelope: &[u8], record: &mut [u8])
    requires sized { size_fits entry.body (length envelope.now) ≡ true }
    requires long { length «record».old ≡ 64 }
    ensures { «record».new ≡ record_of entry envelope.now }
{
    let (offset, behind) = record.split_at_mut(8);
    offset.copy_from_slice(&entry.offset.to_be_bytes());
    fill_body(entry.body, envelope, behind);
}

// Writes the record of an entry, with the envelope beside it, or says why not: 5 for a frame's envelope that is not 48 bytes, 12 for a room that is not 64 bytes
// or an entry that breaks a rule. A gap has no envelope: what is lent beside one is not looked at.
pub fn write(entry: Entry, envelope: &[u8], record: &mut [u8]) -> Result<(), Refusal>
    ensures { Wrote 64 entry envelope.now «record».old result «record».new }
{
    if !entry.body.size_fits(envelope.len()) {
        return Err(Refusal::Size);
    }
    if record.len() != 64 || !entry.is_allowed() {
        return Err(Refusal::Record);
    }
    fill(entry, envelope, record);
    Ok(())
}
