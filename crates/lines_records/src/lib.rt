// Makes the lines of a journal's records, as `show` prints them. The line of the gap before a frame, which is named here too, is the crate `lines_gaps`.
// What is shown is defined in crate `lines_rules`, whose types are named here too.

#![tactic(auto)]

ghost use Rattle.std.specs.Prelude.{◌≡◌, ◌++◌, ◌+◌, ◌≤◌, length};
ghost use Rattle.texts_rules.specs.Text.{line_of};
ghost use Rattle.lines_rules.specs.Entries.{outcome_words, figures_text, shown_body, shown_record};

use journal::{Body, Figures, Outcome};
use lines::{frame_words, gap_line, refused_line};
pub use lines_gaps::gap_before;
pub use lines_rules::{Shown, What};
use texts::{Line, Text};

// Puts a frame's outcome behind a text: `untried`, `accepted` with the corrected bits, or `refused`.
fn outcome_words(text: Text, outcome: Outcome, corrected: u8) -> Text
    requires { length text ≤ 90 }
    ensures size { length result ≤ length text + 30 }
    ensures text { result ≡ text ++ outcome_words outcome corrected }
{
    match outcome {
        Outcome::Untried => text.word(b" untried"),
        Outcome::Accepted => text.word(b" accepted").number(u64::from(corrected)),
        Outcome::Refused => text.word(b" refused"),
    }
}

// Makes the line of a frame's record: `frame OFFSET MATCHED ERRORS` and its outcome.
fn figures_line(offset: u64, f: Figures) -> Line
    ensures { result ≡ line_of (figures_text offset f) }
{
    let words = frame_words(offset, f.matched, u64::from(f.errors));
    outcome_words(words, f.outcome, f.corrected)
        .word(b"\n")
        .line()
}

// Makes the line of an entry at an offset, and says whether it is a frame or a gap.
fn shown_body(offset: u64, body: Body) -> Shown
    ensures { result ≡ shown_body offset body }
{
    match body {
        Body::Frame(f) => Shown {
            what: What::AFrame,
            line: figures_line(offset, f),
        },
        Body::Gap(n) => Shown {
            what: What::AGap,
            line: gap_line(offset, n),
        },
    }
}

// Makes the line of a record, or of its refusal, the record being the one of that number. What is there of a record that the input ends within is refused by
// its length, by 12.
pub fn show_record(record: &[u8], number: u64) -> Shown
    ensures { result ≡ shown_record «record».now number }
{
    match journal::read(record) {
        Ok(entry) => shown_body(entry.offset, entry.body),
        Err(refusal) => Shown {
            what: What::NoRecord,
            line: refused_line(u64::from(u8::from(refusal)), number),
        },
    }
}
