// Lays the records of frames and of the gaps before them into lent memory, one behind the other. No decoder is needed for them, and no file is read or written.

#![tactic(auto)]

ghost use Rattle.std.specs.Prelude.{◌≡◌, true, cond, [], ◌∷◌, ◌+◌, ◌≤◌, ◌<◌, length};
ghost use Rattle.std.proofs.lemmas.List.Edits.{sets};
ghost use Rattle.bits.specs.Sizes.{most_offset};
ghost use Rattle.journal_rules.specs.Gaps.{gap_to, gap_pieces};
ghost use Rattle.journal_rules.specs.Record.{entry_at, allowed, size_fits, record_of, may_correct};
ghost use Rattle.recorder_rules.specs.Makings.{Trying, journal, records_of, is_accepted};
ghost use Rattle.recorder_rules.specs.Steps.{LaidBy, Writable};

use journal::{Body, Entry, Figures, Outcome, Tried};
use recorder_rules::Laid;
use sync_rules::Head;

// Lays an entry's record at byte `at`, and gives where it ends. The journal takes the entry, so that nothing is refused.
fn put_entry(entry: Entry, envelope: &[u8], at: usize, out: &mut [u8]) -> usize
    requires fact_1 { allowed entry ≡ true }
    requires fact_2 { size_fits entry.body (length envelope.now) ≡ true }
    requires fact_3 { at + 64 ≤ length out.old }
    ensures size { result ≡ at + 64 }
    ensures stored { out.new ≡ sets out.old at (record_of entry envelope.now) }
{
    let end = at + 64;
    let _ = journal::write(entry, envelope, &mut out[at..end]);
    end
}

// Lays the record of the gap before a frame at the offset `next`, if there is one, at byte `at`, and gives where it ends.
fn put_gap(earlier: Option<u64>, next: u64, at: usize, out: &mut [u8]) -> usize
    requires fact_1 { next ≤ most_offset }
    requires fact_2 { at + 64 ≤ length out.old }
    ensures size { result ≡ at + length (records_of (gap_pieces (gap_to earlier next))) }
    ensures few { result ≤ at + 64 }
    ensures stored { out.new ≡ sets out.old at (records_of (gap_pieces (gap_to earlier next))) }
{
    match journal::gap_to(earlier, next) {
        None => at,
        Some(entry) => put_entry(entry, b"", at, out),
    }
}

// Gives 1 for the outcome accepted, and 0 for any other.
pub fn accepted_by(outcome: Outcome) -> usize
    ensures { result ≡ cond (is_accepted outcome) 1 0 }
{
    usize::from(outcome == Outcome::Accepted)
}

// Gives the entry of a frame, of whose envelope `tried` is said.
fn frame_entry(head: Head, tried: Tried) -> Entry
    requires { head.errors ≤ 48 }
    ensures { result ≡ entry_at head.offset (Body.Frame (record { matched = head.matched; errors = head.errors; outcome = tried.outcome; corrected = tried.corrected })) }
{
    Entry {
        offset: head.offset,
        body: Body::Frame(Figures {
            matched: head.matched,
            errors: head.errors as u8,
            outcome: tried.outcome,
            corrected: tried.corrected,
        }),
    }
}

// Lays the record of a frame, behind that of the gap before it, behind what is laid already. `tried` is what is said of its envelope.
pub fn put_frame(before: Laid, head: Head, tried: Tried, envelope: &[u8], out: &mut [u8]) -> Laid
    requires fact_1 { Writable head }
    requires fact_2 { may_correct tried.outcome tried.corrected ≡ true }
    requires fact_3 { length envelope.now ≡ 48 }
    requires fact_4 { before.size + 128 ≤ length out.old }
    requires fact_5 { before.accepted < 3 }
    ensures { (try : Trying) → try envelope.now ≡ tried → LaidBy (journal try) out.old out.new before (record { head = head; envelope = envelope.now } ∷ []) result }
{
    let at = put_gap(before.earlier, head.offset, before.size, &mut *out);
    let size = put_entry(frame_entry(head, tried), envelope, at, &mut *out);
    Laid {
        size,
        accepted: before.accepted + accepted_by(tried.outcome),
        earlier: Some(head.offset),
    }
}
