// Makes the lines that are wanted of a frame, those of a listing or those of the slips, and puts a line into lent memory. Crate `recorder_lines` lays the frames
// of a step by these, and passes on what a user names. What a line says is defined in crate `lines_rules`; Wants.antt says which are wanted.

#![tactic(auto)]

ghost use Rattle.std.specs.Prelude.{◌≡◌, List, ℕ, ◌+◌, ◌≤◌, length};
ghost use Rattle.std.proofs.lemmas.List.Edits.{sets};
ghost use Rattle.texts_rules.specs.Text.{line_of};
ghost use Rattle.lines_laying.specs.Wants.{wanted_gap, wanted_line};

use lines::{frame_line, slip_of};
use lines_gaps::gap_before;
use sync_rules::Head;
use texts::Text;
use texts_rules::Line;

// Says which lines are wanted: one for each frame and each gap, or one for each frame that moved.
#[derive(Clone, Copy, Debug, PartialEq, Eq)]
pub enum Wanted {
    Listing,
    Slips,
}

// Puts a line's text behind the first `at` bytes, and gives where it ends.
pub fn put_line(line: Line, at: usize, out: &mut [u8]) -> usize
    requires fact_1 { line.size ≤ 128 }
    requires fact_2 { at + line.size ≤ length out.old }
    ensures end { (t : List ℕ) → line ≡ line_of t → result ≡ at + length t }
    ensures stored { (t : List ℕ) → line ≡ line_of t → out.new ≡ sets out.old at t }
{
    let end = at + line.size;
    out[at..end].copy_from_slice(&line.bytes[..line.size]);
    end
}

// Makes the line of the gap before a frame at the offset `next`, as a listing has it; where there is none, and of the slips, an empty line.
pub fn wanted_gap(wanted: Wanted, earlier: Option<u64>, next: u64) -> Line
    ensures { result ≡ line_of (wanted_gap wanted earlier next) }
{
    match wanted {
        Wanted::Listing => gap_before(earlier, next),
        Wanted::Slips => Text::new().line(),
    }
}

// Makes the line of a frame: of the slips an empty one, where it has no move.
pub fn wanted_line(wanted: Wanted, head: Head) -> Line
    ensures { result ≡ line_of (wanted_line wanted head) }
{
    match wanted {
        Wanted::Listing => frame_line(head.offset, head.matched, u64::from(head.errors)),
        Wanted::Slips => slip_of(head),
    }
}
