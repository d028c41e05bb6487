// What a case of docs/REPLAY.md answers, of the kinds 16 and 17: pushes into the merger, and releases until nothing is ready.
// The answer's bytes go into lent memory; the merger goes in and comes back by value.

#![tactic(auto)]

ghost use Rattle.std.specs.Prelude.{◌≡◌, length};
ghost use Rattle.merger.specs.States.{view_of};
ghost use Rattle.merger.specs.States.{PushGave, ValidMerger};
ghost use Rattle.replay_merger.specs.Kinds.{Turned, turn_of};
ghost use Rattle.replay_merger.specs.Merges.{ToldBy, push_case, push_in, release_case, released_by};

use merger::{AfterPush, Merger, Released};
use replay_bytes::{Kind, at, put};
use replay_merger_bytes::{clock, eight, head_in, pushed_number, put_release};

// Hands back the merger after the case, and the answer's length, where the input fits the kind.
#[derive(Clone, Copy)]
pub struct Merged {
    pub size: Option<usize>,
    pub merger: Merger,
}

// Pushes the frame that the input holds.
fn pushed_in(m: Merger, input: &[u8]) -> AfterPush
    requires fact_1 { ValidMerger m }
    requires fact_2 { length input.now ≡ 23 }
    ensures { PushGave m (push_in input.now (view_of m)) result }
{
    let stream = usize::from(at(input, 0));
    m.push(stream, head_in(input), eight(input, 14), at(input, 22) == 1)
}

// Answers kind 16, a push: stream, offset, matched, errors, moves, number, yes.
pub fn merger_pushed(m: Merger, input: &[u8], out: &mut [u8]) -> Merged
    requires { ValidMerger m }
    ensures { ToldBy m (push_case input.now (view_of m)) out.old out.new result }
{
    if input.len() != 23 {
        return Merged {
            size: None,
            merger: m,
        };
    }
    let after = pushed_in(m, input);
    Merged {
        size: Some(put(out, 0, pushed_number(after.answer))),
        merger: after.merger,
    }
}

// Releases until nothing is ready. Sixteen positions at most are pending, so the seventeenth release finds nothing ready, and the loop is left from
// within. How many went is known then: its byte is put over a 0 at the front.
fn all_released(
    m: Merger,
    first: Option<u64>,
    second: Option<u64>,
    flush: bool,
    out: &mut [u8],
) -> Merged
    requires { ValidMerger m }
    ensures { ToldBy m (released_by first second flush (view_of m)) out.old out.new result }
{
    let mut length = put(&mut *out, 0, 0);
    let mut merger = m;
    for gone in 0..17u8 {
        let after = merger.release(first, second, flush);
        merger = after.merger;
        match after.answer {
            Released::Frame(r) => length = put_release(&mut *out, length, r),
            Released::PassedOver => {}
            Released::NothingReady => {
                put(out, 0, gone);
                break;
            }
        }
    }
    Merged {
        size: Some(length),
        merger,
    }
}

// Answers kind 17, all releases: flags (1 flush, 2 and 4: the first and the second settled offset is there), two settled offsets.
pub fn released(m: Merger, input: &[u8], out: &mut [u8]) -> Merged
    requires { ValidMerger m }
    ensures { ToldBy m (release_case input.now (view_of m)) out.old out.new result }
{
    if input.len() != 17 {
        return Merged {
            size: None,
            merger: m,
        };
    }
    let flags = at(input, 0);
    let first = clock(flags / 2 % 2 == 1, eight(input, 1));
    let second = clock(flags / 4 % 2 == 1, eight(input, 9));
    all_released(m, first, second, flags % 2 == 1, out)
}

// Answers a case by its kind, of 15 to 17. A case of another kind leaves the merger as it is, and the size of its answer is handed on.
// kept: the kind is a number here, by what may not change: `turn_of` says what each number answers, those that name no kind too.
pub fn merger_case(kind: u8, size: Option<usize>, m: Merger, input: &[u8], out: &mut [u8]) -> Merged
    requires { ValidMerger m }
    ensures turned { Turned (turn_of kind input.now (view_of m)) m size out.old out.new result }
    ensures sound { ValidMerger result.merger }
{
    match Kind::try_from(kind) {
        Ok(Kind::NewMerger) => Merged {
            size: Some(0),
            merger: Merger::new(),
        },
        Ok(Kind::MergerPush) => merger_pushed(m, input, out),
        Ok(Kind::MergerRelease) => released(m, input, out),
        _ => Merged { size, merger: m },
    }
}
