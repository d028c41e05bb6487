// The bytes of the merger's cases (docs/REPLAY.md, kinds 16 and 17): what is read of an input, what is put of an answer.

#![tactic(auto)]

ghost use Rattle.std.specs.Prelude.{◌≡◌, ◌+◌, ◌≤◌, length};
ghost use Rattle.replay_bytes.specs.Bytes.{Put};
ghost use Rattle.replay_merger_bytes.specs.MergerBytes.{clock_if, eight_at, head_in, moves_in, pushed_number, release_bytes};

use bits::Refusal;
use merger_rules::{Keeping, Release};
use replay_bytes::{at, number, put_flag, put_number, signed};
use replay_frames::put_head;
use sync_rules::{Head, Moves};

// Tells a push's answer as a number: a refusal's is 100 plus its own, which is below 20.
// kept: no plainer as a From, which a type of another crate cannot get here, and the numbers are the case list's, not those of `Keeping`.
pub fn pushed_number(answer: Result<Keeping, Refusal>) -> u8
    ensures { result ≡ pushed_number answer }
{
    match answer {
        Ok(Keeping::Kept) => 0,
        Ok(Keeping::Double) => 1,
        Ok(Keeping::Late) => 2,
        Err(refusal) => 100 + u8::from(refusal),
    }
}

// Reads the number of eight bytes.
pub fn eight(input: &[u8], from: usize) -> u64
    requires { from + 8 ≤ length input.now }
    ensures { result ≡ eight_at input.now from }
{
    number(&input[from..])
}

// Reads the three moves of a pushed frame.
fn moves_in(input: &[u8]) -> Moves
    ensures { result ≡ moves_in input.now }
{
    Moves {
        front: signed(at(input, 11)),
        second: signed(at(input, 12)),
        third: signed(at(input, 13)),
    }
}

// Reads the head of a pushed frame.
pub fn head_in(input: &[u8]) -> Head
    requires { length input.now ≡ 23 }
    ensures { result ≡ head_in input.now }
{
    Head {
        offset: eight(input, 1),
        matched: at(input, 9) == 1,
        errors: u32::from(at(input, 10)),
        moves: moves_in(input),
    }
}

// Gives a settled offset where it is there.
pub fn clock(there: bool, offset: u64) -> Option<u64>
    ensures { result ≡ clock_if there offset }
{
    there.then_some(offset)
}

// Puts a released frame: its head, its number, and whether it is the alternate.
pub fn put_release(out: &mut [u8], to: usize, r: Release) -> usize
    ensures { Put out.old to (release_bytes r) out.new result }
{
    let a = put_head(&mut *out, to, r.figures);
    let b = put_number(&mut *out, a, r.number, 8);
    put_flag(out, b, r.alternate)
}
