// Makes the line of the gap before a frame, for a listing. Crate `lines_records` passes it on.
// What the line says is defined in crate `lines_rules`, where the gap lies in `journal_rules`.

#![tactic(auto)]

ghost use Rattle.std.specs.Prelude.{◌≡◌};
ghost use Rattle.texts_rules.specs.Text.{line_of};
ghost use Rattle.journal_rules.specs.Gaps.{gap_to};
ghost use Rattle.lines_rules.specs.Entries.{listed_body, between_text};

use journal_gaps::gap_to;
use journal_rules::Body;
use lines::{frame_line, gap_line};
use texts::{Line, Text};

// Makes the line of an entry at an offset as `listing` prints it: a frame's ends behind its errors.
fn listed_body(offset: u64, body: Body) -> Line
    ensures { result ≡ line_of (listed_body offset body) }
{
    match body {
        Body::Frame(f) => frame_line(offset, f.matched, u64::from(f.errors)),
        Body::Gap(n) => gap_line(offset, n),
    }
}

// Makes the line of the gap before a frame at the offset `next`; where there is none an empty line, which prints nothing.
pub fn gap_before(earlier: Option<u64>, next: u64) -> Line
    ensures { result ≡ line_of (between_text (gap_to earlier next)) }
{
    match gap_to(earlier, next) {
        None => Text::new().line(),
        Some(entry) => listed_body(entry.offset, entry.body),
    }
}
