// Holds answers to the expected ones, and counts what was found so far.
ghost use Rattle.std.specs.Prelude.{◌≤◌, length, IfOk};
ghost use Rattle.replay_list.specs.Windows.{Within};

use crate::list::Case;
use crate::report;
use std::io::Write;
use std::rt::Clock;

// Says how many cases were run, and how many of them differed.
#[derive(Clone, Copy)]
pub struct Tally {
    pub cases: u64,
    pub differences: u64,
}

// Counts a case whose answer has that size, and prints it where it is among the first ten that differ. Where there is no case, or no answer, since the input
// does not fit the kind, prints the last line, and there is nothing more to count: the list has ended, or is bad.
pub fn judged<W: Write, C: Clock>(
    t: Tally,
    window: &[u8],
    found: Result<Case, usize>,
    out: &[u8],
    size: Option<usize>,
    to: &mut W,
    clock: &C,
) -> Option<Tally>
    requires { IfOk found (λ c. Within (length window.now) c) }
{
    let (Ok(c), Some(size)) = (found, size) else {
        let left = found.map_or_else(|left| left, |c| c.end);
        report::last_line(left, t, to, clock);
        return None;
    };
    let cases = t.cases.wrapping_add(1);
    let expected = &window[c.expected..c.next];
    if out.get(..size) == Some(expected) {
        return Some(Tally { cases, ..t });
    }
    if t.differences < 10 {
        let given = out.get(..size).unwrap_or(&[]);
        report::difference(cases, c.kind, expected, given, to, clock);
    }
    Some(Tally {
        cases,
        differences: t.differences.wrapping_add(1),
    })
}
