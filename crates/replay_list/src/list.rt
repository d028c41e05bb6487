// A case list, read through a window of bytes: where the parts of the next case lie, and the window filled up.
ghost use Rattle.std.specs.Prelude.{◌≡◌, ◌≤◌, length, IfSome, MatchResult};
ghost use Rattle.replay_list.specs.Windows.{Within, input_in};

use channels::fill;
use replay_bytes::pair;
use std::io::Read;
use std::rt::Clock;

// No input and no answer of a case is longer.
const MOST_BYTES: usize = 4000;

// kept: the kind is a number, by what may not change: a list may name a kind that there is not, and a case of such a kind ends it (docs/REPLAY.md).
// A case in the window: its input lies from `input` to `middle`, its expected answer from `expected` to `next`. The bytes read end at `end`.
#[derive(Clone, Copy)]
pub struct Case {
    pub kind: u8,
    pub input: usize,
    pub middle: usize,
    pub expected: usize,
    pub next: usize,
    pub end: usize,
}

// Finds the parts of the case that begins at `at`. There is none where it is cut off, or where its input or its answer is too long.
fn case_at(window: &[u8], at: usize, end: usize) -> Option<Case>
    requires { (at ≤ end) × (end ≤ length window.now) }
    ensures { IfSome result (λ c. Within (length window.now) c) }
{
    if end - at < 5 {
        return None;
    }
    let input = at + 3;
    let n = pair(window[at + 1], window[at + 2]);
    if MOST_BYTES < n || end - input < n + 2 {
        return None;
    }
    let middle = input + n;
    let expected = middle + 2;
    let m = pair(window[middle], window[middle + 1]);
    if MOST_BYTES < m || end - expected < m {
        return None;
    }
    Some(Case {
        kind: window[at],
        input,
        middle,
        expected,
        next: expected + m,
        end,
    })
}

// Moves the bytes from `at` to `end` to the window's front: the two parts may overlap.
fn move_front(window: &mut [u8], at: usize, end: usize)
    requires fact_1 { at ≤ end }
    requires fact_2 { end ≤ length window.old }
{
    window.copy_within(at..end, 0);
}

// Moves what is left to the front and reads on behind it, until the window is full, the list ends or a read fails. Answers where the bytes read end.
fn filled<R: Read, C: Clock>(
    window: &mut [u8],
    at: usize,
    end: usize,
    from: &mut R,
    clock: &C,
) -> usize
    requires { (at ≤ end) × (end ≤ length window.old) }
    ensures { result ≤ length window.new }
{
    let left = end - at;
    move_front(&mut *window, at, end);
    left + fill(from, &mut window[left..], clock).bytes
}

// Finds the case behind `before`, or the first; where the window has no whole one, once more with the window filled up. Where there is none then, tells
// how many bytes are left: of a list that has ended, none.
pub fn case_after<R: Read, C: Clock>(
    window: &mut [u8],
    before: Option<Case>,
    from: &mut R,
    clock: &C,
) -> Result<Case, usize>
    requires { IfSome before (λ c. Within (length window.old) c) }
    ensures { MatchResult result (λ c. Within (length window.new) c) (λ left. left ≤ length window.new) }
{
    let (at, end) = before.map_or((0, 0), |c| (c.next, c.end));
    if let Some(c) = case_at(&*window, at, end) {
        return Ok(c);
    }
    let end = filled(&mut *window, at, end, from, clock);
    case_at(&*window, 0, end).ok_or(end)
}

// Gives the input of a case in the window.
pub fn input_of<'a>(window: &'a [u8], c: Case) -> &'a [u8]
    requires { Within (length window.now) c }
    ensures { result.now ≡ input_in window.now c }
{
    &window[c.input..c.middle]
}
